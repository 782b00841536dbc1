//! Room in a full table: the places are looked at from the first on, and the first entry that may go is dropped.

ghost use Rattle.std.specs.Prelude.{◌≡◌, ◌≤◌, length};
ghost use Rattle.history_book.specs.declared.event.Why.TheVariants.{Dropped};
ghost use Rattle.history_book.specs.Places.{HoldsNothing};
ghost use Rattle.history_book.specs.Sight.{IsKnown};
ghost use Rattle.packet_path.specs.Internal.Scan.{ScanSays};

use history_book::answer::Row;
use history_book::desk::Desk;
use history_book::event::Why;
use history_book::sight_laws::desks_go_on;
use pool_visits::laws::{sweeps_go_on, sweeps_see_each_entry};
use pool_visits::place::{Visit, destroy_place};
use std::sync::Wait;

/// How the scan for an entry that may go ended.
#[derive(Clone, Copy)]
pub enum Scan {
    /// The entry was dropped. The row is the entry as it was found, with the number of the event.
    Dropped(Row),
    /// None was dropped, up to this point.
    Nothing { at: u64 },
}

/// Drops the first entry, in the order of places, that may go at the moment. The table was full at the point `full_at`.
#[inline(never)]
pub fn drop_one<R: Wait, D: Desk>(rt: &R, desk: &mut D, moment: u64, full_at: u64) -> Scan
    requires seen { full_at ≤ length (D.sight desk.old).front }
    requires empty { HoldsNothing (D.sight desk.old) }
    requires spare { 1 ≤ (D.sight desk.old).spare }
    requires knows { IsKnown (D.sight desk.old) }
    ensures says { ScanSays (Dropped moment) full_at (D.sight desk.old) (D.sight desk.new) result }
    ensures empty { HoldsNothing (D.sight desk.new) }
    ensures knows { IsKnown (D.sight desk.new) }
{
    desks_go_on();
    sweeps_go_on();
    sweeps_see_each_entry();
    let places = desk.places();
    let why = Why::Dropped { moment };
    let mut at = full_at;
    let mut next = 0;
    'places: while next < places {
        let place = next;
        next += 1;
        match destroy_place(rt, desk, why, place) {
            Visit::Destroyed(row) => return Scan::Dropped(row),
            Visit::Left { at: left } => at = left,
        }
    }
    Scan::Nothing { at }
}
