//! Places among references, among owed places and among records: one pass each.

ghost use Rattle.std.specs.Prelude.{◌≡◌, ◌==◌, ◌||◌, position, true};
ghost use Rattle.std.specs.List.{list_any};
ghost use Rattle.history_book.specs.Held.{for_entry, held_for, held_id, is_at, is_held, is_owed, paid, without};
ghost use Rattle.history_book.specs.Record.{has_place};

use history_book::desk::Hold;
use history_book::legality::is_place_used;
use history_book::record::Record;
use room_list::RoomList;

/// Whether the reference is to the place.
fn is_at(h: &Hold, place: u32) -> bool
    ensures { result ≡ is_at place h.now }
{
    h.place == place
}

/// The index of the first reference to the place.
fn hold_index(holds: &[Hold], place: u32) -> Option<usize>
    ensures { result ≡ position (is_at place) holds.now }
{
    holds.iter().position(|h| is_at(h, place))
}

/// Whether there is a reference to the place.
fn is_held(holds: &[Hold], place: u32) -> bool
    ensures { result ≡ is_held place holds.now }
{
    holds.iter().any(|h| is_at(h, place))
}

/// Whether the newest record has the place: a place is mostly given up right after its entry was confirmed.
fn is_of_newest(records: &[Record], place: u32) -> bool
    ensures { result ≡ true → list_any (has_place place) records.now ≡ true }
{
    match records.last() {
        Some(newest) => newest.place == place,
        None => false,
    }
}

/// Whether a live record or a reference has the place.
pub fn is_in_use(records: &[Record], holds: &[Hold], place: u32) -> bool
    ensures { result ≡ (is_held place holds.now || list_any (has_place place) records.now) }
{
    is_held(holds, place) || is_of_newest(records, place) || is_place_used(records, place)
}

/// The id for which the place is held.
pub fn held_id(holds: &[Hold], place: u32) -> u64
    ensures { result ≡ held_id place holds.now }
{
    let Some(index) = hold_index(holds, place) else {
        return 0;
    };
    let hold = holds[index];
    hold.id.unwrap_or(0)
}

/// Takes out the first reference to the place.
pub fn forget_hold(holds: &mut RoomList<Hold>, place: u32)
    requires { is_held place holds.old.items ≡ true }
    ensures items { holds.new.items ≡ without place holds.old.items }
    ensures room { holds.new.room ≡ holds.old.room }
{
    if let Some(index) = hold_index(holds.as_slice(), place) {
        let _ = holds.remove(index);
    }
}

/// Whether the record has the place.
fn has_place(r: &Record, place: u32) -> bool
    ensures { result ≡ has_place place r.now }
{
    r.place == place
}

/// The index of the record that has the place.
pub fn place_index(records: &[Record], place: u32) -> Option<usize>
    ensures { result ≡ position (has_place place) records.now }
{
    records.iter().position(|r| has_place(r, place))
}

/// Whether two places are the same.
fn is_place(p: u32, place: u32) -> bool
    ensures { result ≡ (p == place) }
{
    p == place
}

/// The index of the place among those that are owed.
fn owed_index(owed: &[u32], place: u32) -> Option<usize>
    ensures { result ≡ position (λ p. p == place) owed.now }
{
    owed.iter().position(|p| is_place(*p, place))
}

/// Takes out the place from those that are owed.
pub fn pay(owed: &mut RoomList<u32>, place: u32)
    requires { is_owed place owed.old.items ≡ true }
    ensures items { owed.new.items ≡ paid place owed.old.items }
    ensures room { owed.new.room ≡ owed.old.room }
{
    if let Some(index) = owed_index(owed.as_slice(), place) {
        let _ = owed.remove(index);
    }
}

/// The reference, for the entry of this id if it is to the place.
fn for_entry(h: Hold, place: u32, id: u64) -> Hold
    ensures { result ≡ for_entry place id h }
{
    if h.place == place {
        Hold { id: Some(id), ..h }
    } else {
        h
    }
}

/// Makes each reference to the place one for the entry of this id.
pub fn name_holds(holds: &mut RoomList<Hold>, place: u32, id: u64)
    ensures items { holds.new.items ≡ held_for place id holds.old.items }
    ensures room { holds.new.room ≡ holds.old.room }
{
    for index in 0..holds.len() {
        let hold = *holds.at(index);
        holds.set(index, for_entry(hold, place, id));
    }
}
