//! Two passes at a pool of two places.

ghost use Rattle.std.specs.Prelude.{◌≡◌};
ghost use Rattle.history_book.specs.Sizes.{AreWithinLimits};

use entry_pool::hold::{TryHold, release, try_hold};
use entry_pool::take::{recycle, take};
use history_book::outcome::{ReleaseOutcome, TakeOutcome};
use history_book::sizes::Sizes;
use std::test::Fail;
use track_rule::pass::Pass;

mod threads;

/// A pool of two places, for two passes.
fn sizes() -> Sizes
    ensures limits { AreWithinLimits result }
    ensures pool { result.entries ≡ 2 }
    ensures passes { result.passes ≡ 2 }
{
    Sizes {
        entries: 2,
        buckets: 1,
        seed: 0,
        passes: 2,
        expectations: 0,
    }
}

#[test]
fn two_passes_and_two_places(rt: HostRuntime) -> Result<(), Fail> {
    let (board, stub) = Pass::first(rt.alloc(), sizes())?;
    let mut one = board.pass(stub);
    let mut two = one.split(1);
    let TakeOutcome::Taken { place: p } = take(&rt, &mut one) else {
        panic!(rt; "a place was free");
    };
    let TakeOutcome::Taken { place: q } = take(&rt, &mut one) else {
        panic!(rt; "a place was free");
    };
    assert!(rt; p != q);
    let full = take(&rt, &mut one);
    assert!(rt; matches!(full, TakeOutcome::Full { at: 0 }));
    let held = try_hold(&mut two, p);
    assert!(rt; matches!(held, TryHold::Held));
    let kept = release(&mut one, p);
    assert!(rt; matches!(kept, ReleaseOutcome::Kept));
    let last = release(&mut two, p);
    assert!(rt; matches!(last, ReleaseOutcome::Last));
    let zero = try_hold(&mut one, p);
    assert!(rt; matches!(zero, TryHold::Zero));
    recycle(&rt, &mut two, p);
    let again = take(&rt, &mut two);
    assert!(rt; matches!(again, TakeOutcome::Taken { place } if place == p));
    Ok(())
}
