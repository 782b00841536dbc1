//! A clerk destroys the entry for which it holds a place.

ghost use Rattle.std.specs.Prelude.{◌≡◌, ◌+◌, ◌<◌, ◌≤◌, ◌^◌, true, Some, None, slice_get, IfOk};
ghost use Rattle.clerk_tests.specs.Crew.{IsFirst};
ghost use Rattle.history_book.specs.Close.{CanClose};
ghost use Rattle.history_book.specs.Entry.{is_lawful_flow, record_for, suits_entry};
ghost use Rattle.history_book.specs.declared.event.Event.TheVariants.{Confirm};
ghost use Rattle.history_book.specs.Legality.{reason_moment_of};
ghost use Rattle.history_book.specs.Places.{HoldsNothing, HoldsOne};
ghost use Rattle.history_book.specs.Sizes.{AreWithinLimits};
ghost use Rattle.history_book.specs.WentOn.{IsSamePass};
ghost use Rattle.shared_desk.specs.Sights.{sight_of};

use super::confirms::make;
use super::flows::{answer, flow, query, udp};
use super::pair::{Pair, clerk_of, count_of, make_room, ready_clerk, ready_pair, tracker_of};
use super::{sixteen_buckets, sizes};
use ct_io::{Gate, NoGate};
use history_book::desk::Desk;
use history_book::event::Why;
use history_book::outcome::{
    ConfirmOutcome, KillOutcome, PeekOutcome, ReleaseOutcome, TakeOutcome,
};
use history_book::record::Flow;
use history_book::sizes::Sizes;
use shared_desk::clerk::Clerk;
use shared_desk::tracker::{Spot, Tracker};
use std::process::Abort;
use std::sync::Wait;
use std::test::Fail;
use tuple_core::NoMemory;

/// A pool of four places with one bucket, for two passes.
fn one_bucket() -> Sizes
    ensures limits { AreWithinLimits result }
    ensures passes { result.passes ≡ 2 }
{
    Sizes {
        entries: 4,
        buckets: 1,
        seed: 1,
        passes: 2,
        expectations: 0,
    }
}

/// A clerk that keeps nothing takes a place, and confirms a flow there that nobody has, under this id. Gives the place, which stays
/// held.
pub fn keep<G: Gate, R: Wait + Abort>(rt: &R, clerk: &mut Clerk<G>, flow: &Flow, id: u64) -> u32
    requires nothing { HoldsNothing (sight_of clerk.old) }
    requires protocol { is_lawful_flow flow.now ≡ true }
    requires spare { 1 ≤ (sight_of clerk.old).spare }
    ensures one { HoldsOne (record { place = result; id = Some id }) (sight_of clerk.new) }
    ensures below { result < (sight_of clerk.new).sizes.entries }
    ensures event { slice_get (sight_of clerk.new).front id ≡ Some (Confirm (record_for flow.now id result)) }
    ensures same { IsSamePass (sight_of clerk.old) (sight_of clerk.new) }
    ensures spare { (sight_of clerk.old).spare ≤ (sight_of clerk.new).spare + 1 }
{
    let TakeOutcome::Taken { place } = clerk.take(rt) else {
        panic!(rt; "a place was free");
    };
    let ConfirmOutcome::Confirmed { id: made } = clerk.confirm(rt, place, flow) else {
        panic!(rt; "nobody has the flow");
    };
    assert_eq!(rt; made, id);
    place
}

/// Gives up the one place that the clerk holds, whose entry is destroyed and which nobody else holds, and makes it free.
pub fn let_go<G: Gate, R: Wait + Abort>(rt: &R, clerk: &mut Clerk<G>, place: u32, id: u64)
    requires { HoldsOne (record { place = place; id = Some id }) (sight_of clerk.old) }
    ensures nothing { HoldsNothing (sight_of clerk.new) }
    ensures same { IsSamePass (sight_of clerk.old) (sight_of clerk.new) }
    ensures spare { (sight_of clerk.new).spare ≡ (sight_of clerk.old).spare }
{
    let _ = id;
    let ReleaseOutcome::Last = clerk.release_now(place) else {
        panic!(rt; "the table has let go of the place");
    };
    clerk.recycle(rt, place);
}

/// At which point a clerk reads no entry any more in the one place that it holds.
pub fn gone_at<G: Gate, R: Wait + Abort>(rt: &R, clerk: &mut Clerk<G>, place: u32, id: u64) -> u64
    requires { HoldsOne (record { place = place; id = Some id }) (sight_of clerk.old) }
    ensures one { HoldsOne (record { place = place; id = Some id }) (sight_of clerk.new) }
    ensures same { IsSamePass (sight_of clerk.old) (sight_of clerk.new) }
    ensures spare { (sight_of clerk.new).spare ≡ (sight_of clerk.old).spare }
{
    let _ = id;
    let PeekOutcome::Gone { at } = clerk.peek(rt, place) else {
        panic!(rt; "the entry is destroyed");
    };
    at
}

/// Destroys the entry of this id for a reason that holds. Its place is the only one that the clerk holds, and stays held. Gives the
/// number of the event.
fn kill_one<G: Gate, R: Wait + Abort>(
    rt: &R,
    clerk: &mut Clerk<G>,
    place: u32,
    id: u64,
    why: Why,
) -> u64
    requires one { HoldsOne (record { place = place; id = Some id }) (sight_of clerk.old) }
    requires protocol { suits_entry why id (sight_of clerk.old).front ≡ true }
    requires timely { reason_moment_of why ≤ 10 ^ 16 }
    requires spare { 1 ≤ (sight_of clerk.old).spare }
    ensures one { HoldsOne (record { place = place; id = Some id }) (sight_of clerk.new) }
    ensures same { IsSamePass (sight_of clerk.old) (sight_of clerk.new) }
    ensures spare { (sight_of clerk.old).spare ≤ (sight_of clerk.new).spare + 1 }
{
    let KillOutcome::Killed { number, subject } = clerk.kill(rt, place, why) else {
        panic!(rt; "the reason holds");
    };
    assert_eq!(rt; (subject.id, subject.place), (id, place));
    number
}

/// The entry of this id is flushed, by the event of this number. Its place is the only one that the clerk holds, and stays held.
pub fn flush<G: Gate, R: Wait + Abort>(
    rt: &R,
    clerk: &mut Clerk<G>,
    place: u32,
    id: u64,
    number: u64,
)
    requires one { HoldsOne (record { place = place; id = Some id }) (sight_of clerk.old) }
    requires spare { 1 ≤ (sight_of clerk.old).spare }
    ensures one { HoldsOne (record { place = place; id = Some id }) (sight_of clerk.new) }
    ensures spare { (sight_of clerk.old).spare ≤ (sight_of clerk.new).spare + 1 }
{
    let _ = id;
    let KillOutcome::Killed { number: made, .. } = clerk.kill(rt, place, Why::Flushed) else {
        panic!(rt; "the reason holds of every entry");
    };
    assert_eq!(rt; made, number);
}

/// Destroys the entry of this id by the event of this number, which is the newest one. Its place is the only one that the clerk holds,
/// and nobody else does; it becomes free.
fn destroy<G: Gate, R: Wait + Abort>(
    rt: &R,
    clerk: &mut Clerk<G>,
    place: u32,
    id: u64,
    why: Why,
    number: u32,
)
    requires one { HoldsOne (record { place = place; id = Some id }) (sight_of clerk.old) }
    requires protocol { suits_entry why id (sight_of clerk.old).front ≡ true }
    requires timely { reason_moment_of why ≤ 10 ^ 16 }
    requires spare { 1 ≤ (sight_of clerk.old).spare }
    ensures nothing { HoldsNothing (sight_of clerk.new) }
    ensures same { IsSamePass (sight_of clerk.old) (sight_of clerk.new) }
    ensures spare { (sight_of clerk.old).spare ≤ (sight_of clerk.new).spare + 1 }
{
    let made = kill_one(rt, clerk, place, id, why);
    assert_eq!(rt; made, number as u64);
    let at = gone_at(rt, clerk, place, id);
    assert_eq!(rt; at, number as u64 + 1);
    let_go(rt, clerk, place, id);
}

/// A clerk makes the first entry of all, and destroys it again.
fn keep_and_destroy<G: Gate, R: Wait + Abort>(rt: &R, clerk: &mut Clerk<G>)
    requires nothing { HoldsNothing (sight_of clerk.old) }
    requires spare { 2 ≤ (sight_of clerk.old).spare }
    ensures nothing { HoldsNothing (sight_of clerk.new) }
    ensures same { IsSamePass (sight_of clerk.old) (sight_of clerk.new) }
{
    let place = keep(rt, clerk, &query(), 0);
    destroy(rt, clerk, place, 0, Why::Flushed, 1);
    let count = clerk.count_now();
    assert_eq!(rt; (count.live, count.at), (0, 2));
}

/// The first clerk of a tracker does so, and is left.
fn left_after_destroy<R: Wait + Abort>(
    rt: &R,
    tracker: &Tracker,
    spot: Spot,
) -> Result<Spot, NoMemory>
    requires { IsFirst tracker.now (sight_of spot) }
    ensures { IfOk result (λ left. CanClose tracker.now (sight_of left)) }
{
    let mut clerk = clerk_of(tracker, spot, &NoGate);
    make_room(&mut clerk, 2)?;
    keep_and_destroy(rt, &mut clerk);
    Ok(clerk.leave())
}

/// An entry that is destroyed is read no more, and its place is free when its clerk gives it up.
#[test]
fn an_entry_is_destroyed(rt: HostRuntime) -> Result<(), Fail> {
    let (tracker, spot) = tracker_of(rt.alloc(), sizes())?;
    let left = left_after_destroy(&rt, &tracker, spot)?;
    let closed = tracker.close(left);
    assert_eq!(rt; (closed.events, closed.live), (2, 0));
    assert_eq!(rt; closed.notes.len(), 2);
    Ok(())
}

/// What a kill answers that is to end the first entry as expired at this moment. Its deadline is 31 s.
fn expired_at<R: Wait + Abort + AllocGlobal>(rt: &R, moment: u64) -> Result<KillOutcome, NoMemory> {
    let (tracker, spot) = tracker_of(rt.alloc(), sizes())?;
    let mut clerk = ready_clerk(&tracker, spot, &NoGate, 2)?;
    let place = keep(rt, &mut clerk, &query(), 0);
    Ok(clerk.kill(rt, place, Why::Expired { moment }))
}

#[test]
fn an_entry_is_spared_until_its_deadline(rt: HostRuntime) -> Result<(), Fail> {
    let KillOutcome::Not { subject, at } = expired_at(&rt, 30_999_999)? else {
        panic!(rt; "the entry is not expired yet");
    };
    assert_eq!(rt; (subject.id, subject.part.deadline, at), (0, 31_000_000, 1));
    let KillOutcome::Killed { number, subject } = expired_at(&rt, 31_000_000)? else {
        panic!(rt; "the entry is expired");
    };
    assert_eq!(rt; (subject.id, number), (0, 1));
    Ok(())
}

/// Makes three entries: the first and the third one by one clerk, and the query between them by the other, which keeps its place.
fn three_entries<G: Gate, R: Wait + Abort>(
    rt: &R,
    one: &mut Clerk<G>,
    two: &mut Clerk<G>,
    first: &Flow,
    third: &Flow,
) -> u32
    requires nothing { HoldsNothing (sight_of one.old) × HoldsNothing (sight_of two.old) }
    requires protocol { (is_lawful_flow first.now ≡ true) × (is_lawful_flow third.now ≡ true) }
    requires spare { (1 ≤ (sight_of one.old).spare) × (2 ≤ (sight_of two.old).spare) }
    ensures one { HoldsOne (record { place = result; id = Some 1 }) (sight_of one.new) }
    ensures two { HoldsNothing (sight_of two.new) }
    ensures spare { (sight_of one.old).spare ≤ (sight_of one.new).spare + 1 }
    ensures spare_two { (sight_of two.old).spare ≤ (sight_of two.new).spare + 2 }
{
    make(rt, two, first, 0);
    let place = keep(rt, one, &query(), 1);
    make(rt, two, third, 2);
    place
}

/// A flow is that of the entry of this id, at point 4.
fn is_there<G: Gate, R: Wait + Abort>(rt: &R, clerk: &mut Clerk<G>, flow: &Flow, entry: u64)
    requires nothing { HoldsNothing (sight_of clerk.old) }
    requires protocol { is_lawful_flow flow.now ≡ true }
    requires spare { 1 ≤ (sight_of clerk.old).spare }
    ensures nothing { HoldsNothing (sight_of clerk.new) }
    ensures spare { (sight_of clerk.old).spare ≤ (sight_of clerk.new).spare + 1 }
{
    let Some(ConfirmOutcome::Clash { id, both, at, .. }) = answer(rt, clerk, flow) else {
        panic!(rt; "the entry is live");
    };
    assert_eq!(rt; (id, both, at), (entry, true, 4));
}

/// Of three entries, two of another clerk's, the second one is destroyed, and its flow is confirmed anew by the other clerk. The first
/// and the third one stay.
fn confirm_anew<G: Gate, R: Wait + Abort>(rt: &R, one: &mut Clerk<G>, two: &mut Clerk<G>)
    requires nothing { HoldsNothing (sight_of one.old) × HoldsNothing (sight_of two.old) }
    requires spare { (2 ≤ (sight_of one.old).spare) × (5 ≤ (sight_of two.old).spare) }
{
    let first = flow(udp(1, 1, 2, 2), udp(2, 2, 1, 1));
    let third = flow(udp(3, 3, 4, 4), udp(4, 4, 3, 3));
    let place = three_entries(rt, one, two, &first, &third);
    destroy(rt, one, place, 1, Why::Flushed, 3);
    is_there(rt, two, &first, 0);
    is_there(rt, two, &third, 2);
    make(rt, two, &query(), 4);
}

/// The same of the clerks of a tracker of these sizes.
fn confirmed_anew<R: Wait + Abort + AllocGlobal>(rt: &R, sizes: Sizes) -> Result<(), NoMemory>
    requires limits { AreWithinLimits sizes }
    requires passes { sizes.passes ≡ 2 }
{
    let (tracker, spot) = tracker_of(rt.alloc(), sizes)?;
    let Pair { mut one, mut two } = ready_pair(&tracker, spot, &NoGate, 2, 5)?;
    confirm_anew(rt, &mut one, &mut two);
    assert_eq!(rt; count_of(&mut one), (3, 5));
    Ok(())
}

#[test]
fn a_destroyed_flow_is_confirmed_anew(rt: HostRuntime) -> Result<(), Fail> {
    confirmed_anew(&rt, one_bucket())?;
    confirmed_anew(&rt, sixteen_buckets())?;
    Ok(())
}
