//! Places for new entries.

ghost use Rattle.std.specs.Prelude.{◌≡◌, ◌+◌, ◌≤◌, true, None, length};
ghost use Rattle.entry_pool.specs.Take.{IsBelow, IsGivenBack, OpenSays, Recycles, TakeSays, recycle_words, take_words};
ghost use Rattle.track_rule.specs.ChangesOnly.{ChangesWords};
ghost use Rattle.track_rule.specs.Free.{is_among};
ghost use Rattle.track_rule.specs.Sights.{sizes_of};

use crate::turn::take_turn;
use history_book::outcome::TakeOutcome;
use std::sync::Wait;
use track_rule::history_word::events_in;
use track_rule::pass::Pass;
use track_rule::place_phase::{FREE, OWNED};

/// Makes the first reference to a free place.
#[inline(always)]
fn open_place<R: Wait>(rt: &R, pass: &mut Pass) -> TakeOutcome
    requires calm { pass.old.view.free ≡ None }
    requires few { length pass.old.view.places.held + length pass.old.view.places.owed ≤ 3 }
    ensures says { OpenSays result pass.old pass.new }
    ensures below { IsBelow (sizes_of pass.old).entries result }
{
    take_turn(rt, pass);
    match pass.free_pop() {
        Some(place) => {
            pass.ref_open(place);
            pass.free_give();
            TakeOutcome::Taken { place }
        }
        None => {
            let at = events_in(pass.history_load());
            pass.free_give();
            TakeOutcome::Full { at }
        }
    }
}

/// Takes a free place for a new entry, holds it, and makes its phase `OWNED`.
#[inline(always)]
pub fn take<R: Wait>(rt: &R, pass: &mut Pass) -> TakeOutcome
    requires calm { pass.old.view.free ≡ None }
    requires few { length pass.old.view.places.held + length pass.old.view.places.owed ≤ 3 }
    ensures says { TakeSays result pass.old pass.new }
    ensures words { ChangesWords (take_words result) pass.old.view pass.new.view }
    ensures below { IsBelow (sizes_of pass.old).entries result }
{
    match open_place(rt, pass) {
        TakeOutcome::Taken { place } => {
            pass.phase_store(place, OWNED);
            TakeOutcome::Taken { place }
        }
        TakeOutcome::Full { at } => TakeOutcome::Full { at },
    }
}

/// Puts a place back on the free list whose phase the pass has made `FREE`.
#[cold]
fn give_place<R: Wait>(rt: &R, pass: &mut Pass, place: u32)
    requires calm { pass.old.view.free ≡ None }
    requires owed { is_among place pass.old.view.places.owed ≡ true }
    requires clear { is_among place pass.old.view.places.clear ≡ true }
    ensures { IsGivenBack place pass.old pass.new }
{
    take_turn(rt, pass);
    pass.free_push(place);
    pass.free_give();
}

/// Makes a place free again that the pass owes.
#[cold]
pub fn recycle<R: Wait>(rt: &R, pass: &mut Pass, place: u32)
    requires calm { pass.old.view.free ≡ None }
    requires owed { is_among place pass.old.view.places.owed ≡ true }
    ensures recycles { Recycles place pass.old pass.new }
    ensures words { ChangesWords (recycle_words place) pass.old.view pass.new.view }
{
    pass.phase_store(place, FREE);
    give_place(rt, pass, place);
}
