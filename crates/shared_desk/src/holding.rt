//! Holding a place for the entry that is live in it.

ghost use Rattle.std.specs.Prelude.{◌≡◌, ◌∷◌};
ghost use Rattle.track_rule.specs.ChangesOnly.{ChangesAndFrees, ChangesWords, is_turn_of, no_word};
ghost use Rattle.shared_desk.specs.Changed.{give_words, hold_words};
ghost use Rattle.shared_desk.specs.Holding.{CanHold, Finds, HasNewest, HasSome, HoldsLive, Names, OnlyLooks, Tries, but_newest};
ghost use Rattle.shared_desk.specs.Looking.{HasRecord};
ghost use Rattle.track_rule.specs.declared.view.Purpose.TheVariants.{Testing};

use crate::commit::take_turn;
use bucket_table::finding::live_at;
use entry_pool::hold::{TryHold, release, try_hold};
use entry_pool::take::recycle;
use history_book::outcome::{HoldOutcome, ReleaseOutcome};
use std::sync::Wait;
use std::thread;
use track_rule::history_word::events_in;
use track_rule::pass::Pass;
use track_rule::place_phase::LIVE;

/// Looks which entry is live in the place to which the pass has just got a reference, and holds it for that.
fn name_entry(pass: &mut Pass, place: u32) -> Option<HoldOutcome>
    requires { HasNewest place Testing pass.old }
    ensures names { Names place result pass.old pass.new }
    ensures words { ChangesWords no_word pass.old.view pass.new.view }
{
    match live_at(pass, place) {
        Some(shown) => Some(HoldOutcome::Held {
            id: shown.id,
            at: shown.at,
        }),
        None => None,
    }
}

/// Gives the newest reference back, and makes the place free where that was the last one.
fn give_back<R: Wait>(rt: &R, pass: &mut Pass, place: u32)
    requires { HasSome place pass.old }
    ensures looks { OnlyLooks (but_newest pass.old) pass.new }
    ensures words { ChangesAndFrees (give_words place) pass.old.view pass.new.view }
{
    match release(pass, place) {
        ReleaseOutcome::Kept => {}
        ReleaseOutcome::Last => recycle(rt, pass, place),
    }
}

/// Looks under the turn of a place's record whether no live entry has the place. Gives the point, or none where one may have it.
fn look_empty(pass: &mut Pass, place: u32) -> Option<u64>
    requires { HasRecord place pass.old }
    ensures finds { Finds place result pass.old pass.new }
    ensures words { ChangesWords no_word pass.old.view pass.new.view }
{
    let phase = pass.phase_load(place);
    if phase >= LIVE {
        return None;
    }
    let at = events_in(pass.history_load());
    Some(at)
}

/// Waits for the turn of a place's record, and looks whether no live entry has the place.
fn find_empty<R: Wait>(rt: &R, pass: &mut Pass, place: u32) -> Option<HoldOutcome>
    requires { CanHold place pass.old }
    ensures tries { Tries place result pass.old pass.new }
    ensures words { ChangesWords (is_turn_of place) pass.old.view pass.new.view }
{
    take_turn(rt, pass, place);
    let point = look_empty(pass, place);
    pass.turn_give(place);
    match point {
        Some(at) => Some(HoldOutcome::Empty { at }),
        None => None,
    }
}

/// Holds the place to which the pass has just got a reference for the entry that is live in it; else gives the reference back and
/// looks whether no live entry has the place.
fn keep_live<R: Wait>(rt: &R, pass: &mut Pass, place: u32) -> Option<HoldOutcome>
    requires { HasNewest place Testing pass.old }
    ensures tries { Tries place result (but_newest pass.old) pass.new }
    ensures words { ChangesAndFrees (hold_words place) pass.old.view pass.new.view }
{
    match name_entry(pass, place) {
        Some(held) => Some(held),
        None => {
            give_back(rt, pass, place);
            find_empty(rt, pass, place)
        }
    }
}

/// Tries once to hold a place for the entry that is live in it, or to see that none is.
fn try_once<R: Wait>(rt: &R, pass: &mut Pass, place: u32) -> Option<HoldOutcome>
    requires { CanHold place pass.old }
    ensures tries { Tries place result pass.old pass.new }
    ensures words { ChangesAndFrees (hold_words place) pass.old.view pass.new.view }
{
    match try_hold(pass, place) {
        TryHold::Held => keep_live(rt, pass, place),
        TryHold::Zero => find_empty(rt, pass, place),
        TryHold::Moved { .. } => None,
    }
}

/// Holds a place for the entry that is live in it, if one is. It may wait for the turn of the place's record, and for that of the free
/// list.
pub fn hold<R: Wait>(rt: &R, pass: &mut Pass, place: u32) -> HoldOutcome
    requires { CanHold place pass.old }
    ensures holds { HoldsLive place result pass.old pass.new }
    ensures words { ChangesAndFrees (hold_words place) pass.old.view pass.new.view }
{
    'tries: for _ in rt.forever() {
        if let Some(outcome) = try_once(rt, pass, place) {
            return outcome;
        }
        thread::yield_now();
    }
    unreachable!()
}
