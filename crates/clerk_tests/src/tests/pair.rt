//! The clerks of a tracker of two passes: one with both shares, or two.

ghost use Rattle.std.specs.Prelude.{◌≡◌, ◌≤◌, ◌^◌, [], IfOk, OnOk};
ghost use Rattle.clerk_tests.specs.Crew.{IsFirst, IsIdle, IsOfPair};
ghost use Rattle.history_book.specs.Close.{CanClose};
ghost use Rattle.history_book.specs.Places.{HoldsNothing};
ghost use Rattle.history_book.specs.Sizes.{AreWithinLimits};
ghost use Rattle.history_book.specs.WentOn.{IsSamePass};
ghost use Rattle.shared_desk.specs.Sights.{sight_of};

use ct_io::Gate;
use history_book::desk::Desk;
use history_book::report::Notes;
use history_book::sizes::Sizes;
use shared_desk::clerk::Clerk;
use shared_desk::tracker::{Spot, Tracker};
use std::alloc::Global;
use tuple_core::NoMemory;

/// A tracker of these sizes, and what is left for its first clerk.
pub fn tracker_of(alloc: Global, sizes: Sizes) -> Result<(Tracker, Spot), NoMemory>
    requires { AreWithinLimits sizes }
    ensures first { IfOk result (λ made. IsFirst made.0 (sight_of made.1)) }
    ensures sizes { IfOk result (λ made. (sight_of made.1).sizes ≡ sizes) }
{
    Tracker::new(alloc, sizes)
}

/// The first clerk of a tracker, and the one to which it handed over a share.
#[derive(Drop)]
pub struct Pair<'t, G: Gate> {
    pub one: Clerk<'t, G>,
    pub two: Clerk<'t, G>,
}

/// The first clerk of a tracker, which keeps all shares.
pub fn clerk_of<'t, G: Gate>(tracker: &'t Tracker, spot: Spot, gate: &'t G) -> Clerk<'t, G>
    requires { IsFirst tracker.now (sight_of spot) }
    ensures first { IsFirst tracker.now (sight_of result) }
    ensures sizes { (sight_of result).sizes ≡ (sight_of spot).sizes }
{
    tracker.clerk(spot, gate, 0)
}

/// The first clerk of a tracker of two passes, which hands over one of its two shares.
pub fn pair_of<'t, G: Gate>(tracker: &'t Tracker, spot: Spot, gate: &'t G) -> Pair<'t, G>
    requires first { IsFirst tracker.now (sight_of spot) }
    requires passes { (sight_of spot).sizes.passes ≡ 2 }
    ensures one { IsIdle tracker.now (sight_of spot).sizes (sight_of result.one) }
    ensures two { IsIdle tracker.now (sight_of spot).sizes (sight_of result.two) }
{
    let mut one = tracker.clerk(spot, gate, 0);
    let two = one.split(1, 1);
    Pair { one, two }
}

/// A clerk that made no event and keeps no place makes room for so many events.
pub fn make_room<G: Gate>(clerk: &mut Clerk<G>, events: u64) -> Result<(), NoMemory>
    requires few { events ≤ 2 ^ 20 }
    requires nothing { HoldsNothing (sight_of clerk.old) }
    requires own { (sight_of clerk.old).own ≡ [] }
    ensures nothing { HoldsNothing (sight_of clerk.new) }
    ensures same { IsSamePass (sight_of clerk.old) (sight_of clerk.new) }
    ensures spare { OnOk result (events ≤ (sight_of clerk.new).spare) }
{
    clerk.ready(events)
}

/// The first clerk of a tracker, with room for so many events.
pub fn ready_clerk<'t, G: Gate>(
    tracker: &'t Tracker,
    spot: Spot,
    gate: &'t G,
    events: u64,
) -> Result<Clerk<'t, G>, NoMemory>
    requires first { IsFirst tracker.now (sight_of spot) }
    requires few { events ≤ 10 }
    ensures nothing { IfOk result (λ clerk. HoldsNothing (sight_of clerk)) }
    ensures spare { IfOk result (λ clerk. events ≤ (sight_of clerk).spare) }
{
    let mut clerk = clerk_of(tracker, spot, gate);
    make_room(&mut clerk, events)?;
    Ok(clerk)
}

/// The two clerks of a tracker of two passes, with room for so many events each.
pub fn ready_pair<'t, G: Gate>(
    tracker: &'t Tracker,
    spot: Spot,
    gate: &'t G,
    first: u64,
    second: u64,
) -> Result<Pair<'t, G>, NoMemory>
    requires first { IsFirst tracker.now (sight_of spot) }
    requires passes { (sight_of spot).sizes.passes ≡ 2 }
    requires few { (first ≤ 10) × (second ≤ 10) }
    ensures one { IfOk result (λ pair. HoldsNothing (sight_of pair.one)) }
    ensures two { IfOk result (λ pair. HoldsNothing (sight_of pair.two)) }
    ensures first { IfOk result (λ pair. first ≤ (sight_of pair.one).spare) }
    ensures second { IfOk result (λ pair. second ≤ (sight_of pair.two).spare) }
    ensures sizes { IfOk result (λ pair. (sight_of pair.two).sizes ≡ (sight_of pair.one).sizes) }
{
    let Pair { mut one, mut two } = pair_of(tracker, spot, gate);
    make_room(&mut one, first)?;
    make_room(&mut two, second)?;
    Ok(Pair { one, two })
}

/// How many entries are live, and at which point.
pub fn count_of<G: Gate>(clerk: &mut Clerk<G>) -> (u32, u64) {
    let count = clerk.count_now();
    (count.live, count.at)
}

/// What is left of two clerks: the first one's spot, and the events of the second.
#[derive(Drop)]
pub struct Rest {
    pub spot: Spot,
    pub second: Notes,
}

/// The first clerk of a tracker takes in the second one, and is left.
pub fn rejoined<'t, G: Gate>(tracker: &Tracker, pair: Pair<'t, G>) -> Rest
    requires passes { (sight_of pair.one).sizes.passes ≡ 2 }
    requires one { IsOfPair tracker.now (sight_of pair.one).sizes (sight_of pair.one) }
    requires two { IsOfPair tracker.now (sight_of pair.one).sizes (sight_of pair.two) }
    ensures { CanClose tracker.now (sight_of result.spot) }
{
    let _ = tracker;
    let Pair { mut one, two } = pair;
    let second = one.join(two);
    Rest {
        spot: one.leave(),
        second,
    }
}
