//! References to places. No call waits for another pass.

ghost use Rattle.std.specs.Prelude.{◌≡◌, ◌+◌, ◌<◌, ◌≤◌, true, false, length};
ghost use Rattle.entry_pool.specs.Hold.{ReleaseSays, TryHoldSays};
ghost use Rattle.track_rule.specs.Free.{is_among};
ghost use Rattle.track_rule.specs.Links.{is_up};
ghost use Rattle.track_rule.specs.References.{is_held};
ghost use Rattle.track_rule.specs.Sights.{sizes_of};

use history_book::outcome::ReleaseOutcome;
use track_rule::pass::Pass;

/// What came of holding a place.
#[derive(Clone, Copy)]
pub enum TryHold {
    /// The place is held once more.
    Held,
    /// Nobody had a reference to it.
    Zero,
    /// The number of references changed from one of these values to the other meanwhile.
    Moved { was: u64, now: u64 },
}

/// Holds a place to which there are references.
pub fn try_hold(pass: &mut Pass, place: u32) -> TryHold
    requires place { place < (sizes_of pass.old).entries }
    requires few { length pass.old.view.places.held + length pass.old.view.places.owed ≤ 3 }
    ensures { TryHoldSays result place pass.old pass.new }
{
    let seen = pass.ref_load(place);
    if seen == 0 {
        return TryHold::Zero;
    }
    match pass.ref_up(place, seen) {
        Ok(()) => TryHold::Held,
        Err(now) => TryHold::Moved { was: seen, now },
    }
}

/// Gives up a reference to a place. Where that was the last one of all passes, the place is owed.
#[inline(always)]
pub fn release(pass: &mut Pass, place: u32) -> ReleaseOutcome
    requires held { is_held place pass.old.view.places.held ≡ true }
    requires carried { is_among place pass.old.view.places.carried ≡ false }
    requires down { is_up place pass.old.view.buckets.hooks ≡ false }
    ensures { ReleaseSays result place pass.old pass.new }
{
    if pass.ref_down(place) == 1 {
        ReleaseOutcome::Last
    } else {
        ReleaseOutcome::Kept
    }
}
