//! Two passes on two threads never hold one place at once.

ghost use Rattle.std.specs.Prelude.{◌≡◌, None, []};
ghost use Rattle.track_rule.specs.Links.{RaisesNone};
ghost use Rattle.track_rule.specs.Passes.{no_places};

use super::sizes;
use entry_pool::hold::release;
use entry_pool::take::{recycle, take};
use history_book::outcome::{ReleaseOutcome, TakeOutcome};
use std::sync::Wait;
use std::sync::atomic::AtomicU64;
use std::sync::atomic::Ordering::SeqCst;
use std::test::Fail;
use std::thread::{Threads, join_mut};
use track_rule::pass::Pass;

/// How many places each pass takes.
const ROUNDS: u32 = 10_000;

/// Who holds each of the two places: the number of a pass, or 0.
#[derive(Drop)]
struct Owners {
    first: AtomicU64,
    second: AtomicU64,
}

impl Owners {
    fn of(&self, place: u32) -> &AtomicU64 {
        if place == 0 {
            &self.first
        } else {
            &self.second
        }
    }
}

/// Takes a place, writes this number into its word and reads it there again, and gives the place up and back. Whether the
/// place was free and nobody else wrote there.
fn is_alone<R: Wait>(rt: &R, pass: &mut Pass, owners: &Owners, number: u64) -> bool
    requires free { pass.old.view.free ≡ None }
    requires places { pass.old.view.places ≡ no_places }
    requires links { RaisesNone [] pass.old.view.buckets.hooks }
    ensures free { pass.new.view.free ≡ None }
    ensures places { pass.new.view.places ≡ no_places }
    ensures links { RaisesNone [] pass.new.view.buckets.hooks }
{
    let TakeOutcome::Taken { place } = take(rt, pass) else {
        return false;
    };
    let owner = owners.of(place);
    let before = owner.swap(number, SeqCst);
    let after = owner.swap(0, SeqCst);
    let ReleaseOutcome::Last = release(pass, place) else {
        return false;
    };
    recycle(rt, pass, place);
    before == 0 && after == number
}

/// How often a pass of this number was alone with the place that it took.
fn times_alone<R: Wait>(rt: &R, pass: &mut Pass, owners: &Owners, number: u64) -> u32
    requires free { pass.old.view.free ≡ None }
    requires places { pass.old.view.places ≡ no_places }
    requires links { RaisesNone [] pass.old.view.buckets.hooks }
{
    let mut alone = 0;
    'rounds: for _round in 0..ROUNDS {
        if is_alone(rt, pass, owners, number) {
            alone += 1;
        }
    }
    alone
}

/// The same of two passes, each on a thread of its own.
fn both_alone<R: Threads + Wait + Sync>(
    rt: &R,
    one: &mut Pass,
    two: &mut Pass,
    owners: &Owners,
) -> (u32, u32)
    requires free { (one.old.view.free ≡ None) × (two.old.view.free ≡ None) }
    requires places { (one.old.view.places ≡ no_places) × (two.old.view.places ≡ no_places) }
    requires links { RaisesNone [] one.old.view.buckets.hooks × RaisesNone [] two.old.view.buckets.hooks }
{
    join_mut(
        rt,
        &mut ||
            requires { (one.now.view.free ≡ None) × (one.now.view.places ≡ no_places) × RaisesNone [] one.now.view.buckets.hooks }
        { times_alone(rt, one, owners, 1) },
        &mut ||
            requires { (two.now.view.free ≡ None) × (two.now.view.places ≡ no_places) × RaisesNone [] two.now.view.buckets.hooks }
        { times_alone(rt, two, owners, 2) },
    )
}

#[test]
fn no_place_is_held_twice(rt: HostRuntime) -> Result<(), Fail> {
    let (board, stub) = Pass::first(rt.alloc(), sizes())?;
    let mut one = board.pass(stub);
    let mut two = one.split(1);
    let owners = Owners {
        first: AtomicU64::new(0),
        second: AtomicU64::new(0),
    };
    let (first, second) = both_alone(&rt, &mut one, &mut two, &owners);
    assert_eq!(rt; first, ROUNDS);
    assert_eq!(rt; second, ROUNDS);
    Ok(())
}
