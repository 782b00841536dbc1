//! Clerks of one tracker, one after the other and on threads.

ghost use Rattle.std.specs.Prelude.{◌≡◌, ◌<◌, None, [], length};
ghost use Rattle.clerk_tests.specs.Crew.{IsFirst};
ghost use Rattle.history_book.specs.Close.{CanClose};
ghost use Rattle.history_book.specs.Places.{HoldsNothing, HoldsOne};
ghost use Rattle.history_book.specs.Sizes.{AreWithinLimits};
ghost use Rattle.history_book.specs.WentOn.{IsSamePass};
ghost use Rattle.shared_desk.specs.Sights.{sight_of};

use ct_io::{Gate, NoGate};
use history_book::desk::Desk;
use history_book::outcome::{ReleaseOutcome, TakeOutcome};
use history_book::sizes::Sizes;
use pair::{Pair, Rest, count_of, pair_of, ready_clerk, rejoined, tracker_of};
use shared_desk::clerk::Clerk;
use shared_desk::tracker::{Spot, Tracker};
use std::process::Abort;
use std::sync::Wait;
use std::test::Fail;

mod claims;
mod confirms;
mod crowd;
mod desks;
mod expectations;
mod flows;
mod halt;
mod holds;
mod kills;
mod lookups;
mod pair;
mod readers;
mod touches;

/// A pool of two places, for two passes.
fn sizes() -> Sizes
    ensures limits { AreWithinLimits result }
    ensures passes { result.passes ≡ 2 }
{
    Sizes {
        entries: 2,
        buckets: 1,
        seed: 0,
        passes: 2,
        expectations: 0,
    }
}

/// A pool of four places with sixteen buckets, for two passes.
fn sixteen_buckets() -> Sizes
    ensures limits { AreWithinLimits result }
    ensures passes { result.passes ≡ 2 }
{
    Sizes {
        entries: 4,
        buckets: 16,
        seed: 1,
        passes: 2,
        expectations: 0,
    }
}

/// Takes the one place that the clerk then holds.
fn take_one<G: Gate, R: Wait + Abort>(rt: &R, clerk: &mut Clerk<G>) -> u32
    requires { HoldsNothing (sight_of clerk.old) }
    ensures one { HoldsOne (record { place = result; id = None }) (sight_of clerk.new) }
    ensures below { result < (sight_of clerk.new).sizes.entries }
    ensures same { IsSamePass (sight_of clerk.old) (sight_of clerk.new) }
    ensures spare { (sight_of clerk.new).spare ≡ (sight_of clerk.old).spare }
{
    let TakeOutcome::Taken { place } = clerk.take(rt) else {
        panic!(rt; "a place was free");
    };
    place
}

/// Gives up the one place that the clerk holds, which nobody else does, and makes it free.
fn give_back<G: Gate, R: Wait + Abort>(rt: &R, clerk: &mut Clerk<G>, place: u32)
    requires { HoldsOne (record { place = place; id = None }) (sight_of clerk.old) }
    ensures nothing { HoldsNothing (sight_of clerk.new) }
    ensures same { IsSamePass (sight_of clerk.old) (sight_of clerk.new) }
{
    let ReleaseOutcome::Last = clerk.release_now(place) else {
        panic!(rt; "nobody else had the place");
    };
    clerk.recycle(rt, place);
}

/// Takes the two places that the clerk then holds.
fn take_two<G: Gate, R: Wait + Abort>(rt: &R, clerk: &mut Clerk<G>) -> (u32, u32)
    requires { HoldsNothing (sight_of clerk.old) }
    ensures two { length (sight_of clerk.new).held ≡ 2 }
    ensures owed { (sight_of clerk.new).owed ≡ [] }
{
    let first = take_one(rt, clerk);
    let TakeOutcome::Taken { place } = clerk.take(rt) else {
        panic!(rt; "a place was free");
    };
    (first, place)
}

/// A further clerk takes a place and gives it back, and is joined.
fn further_joined<R: Wait + Abort>(rt: &R, tracker: &Tracker, spot: Spot) -> Rest
    requires first { IsFirst tracker.now (sight_of spot) }
    requires passes { (sight_of spot).sizes.passes ≡ 2 }
    ensures { CanClose tracker.now (sight_of result.spot) }
{
    let Pair { one, mut two } = pair_of(tracker, spot, &NoGate);
    let place = take_one(rt, &mut two);
    give_back(rt, &mut two, place);
    rejoined(tracker, Pair { one, two })
}

#[test]
fn a_further_clerk_is_joined(rt: HostRuntime) -> Result<(), Fail> {
    let (tracker, spot) = tracker_of(rt.alloc(), sizes())?;
    let Rest { spot, second } = further_joined(&rt, &tracker, spot);
    assert_eq!(rt; second.len(), 0);
    let closed = tracker.close(spot);
    assert_eq!(rt; closed.events, 0);
    assert_eq!(rt; closed.live, 0);
    assert_eq!(rt; closed.notes.len(), 0);
    Ok(())
}

/// Takes the two places of the pool, and finds no further one.
fn take_all<G: Gate, R: Wait + Abort>(rt: &R, clerk: &mut Clerk<G>)
    requires { HoldsNothing (sight_of clerk.old) }
{
    let (first, place) = take_two(rt, clerk);
    assert!(rt; first != place);
    let full = clerk.take(rt);
    assert!(rt; matches!(full, TakeOutcome::Full { at: 0 }));
}

#[test]
fn a_pool_is_full(rt: HostRuntime) -> Result<(), Fail> {
    let (tracker, spot) = tracker_of(rt.alloc(), sizes())?;
    let mut one = ready_clerk(&tracker, spot, &NoGate, 2)?;
    take_all(&rt, &mut one);
    assert_eq!(rt; count_of(&mut one), (0, 0));
    Ok(())
}
