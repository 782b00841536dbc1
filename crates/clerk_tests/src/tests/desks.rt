//! A clerk answers what any desk is asked.

ghost use Rattle.std.specs.Prelude.{◌≡◌, ◌≤◌, true, [], Some};
ghost use Rattle.history_book.specs.Entry.{is_of_entry};
ghost use Rattle.history_book.specs.Places.{HoldsNothing, HoldsOne};
ghost use Rattle.shared_desk.specs.Sights.{sight_of};
ghost use Rattle.tuple_core.specs.declared.Segment.TheVariants.{Udp};

use super::flows::query;
use super::pair::{clerk_of, tracker_of};
use super::sizes;
use ct_io::NoGate;
use history_book::desk::Desk;
use history_book::event::Why;
use history_book::outcome::{ConfirmOutcome, FindOutcome, KillOutcome, TakeOutcome, TouchOutcome};
use history_book::places::{give_back, give_up, one_hold_has_its_id};
use std::process::Abort;
use std::sync::Wait;
use std::test::Fail;
use tuple_core::{Direction, NoMemory, Segment};

/// Takes a place, and confirms the query there as the first entry of all. The place stays held.
fn begin<R: Wait + Abort, D: Desk>(rt: &R, desk: &mut D) -> u32
    requires nothing { HoldsNothing (D.sight desk.old) }
    requires spare { 3 ≤ (D.sight desk.old).spare }
    ensures one { HoldsOne (record { place = result; id = Some 0 }) (D.sight desk.new) }
    ensures protocol { is_of_entry Udp 0 (D.sight desk.new).front ≡ true }
    ensures spare { 2 ≤ (D.sight desk.new).spare }
{
    let TakeOutcome::Taken { place } = desk.take(rt) else {
        panic!(rt; "a place was free");
    };
    let ConfirmOutcome::Confirmed { id } = desk.confirm(rt, place, &query()) else {
        panic!(rt; "nobody has the flow");
    };
    assert_eq!(rt; id, 0);
    place
}

/// The answer to the query touches its entry, and has a tuple by which it is found.
fn go_on<R: Wait + Abort, D: Desk>(rt: &R, desk: &mut D, place: u32)
    requires one { HoldsOne (record { place = place; id = Some 0 }) (D.sight desk.old) }
    requires protocol { is_of_entry Udp 0 (D.sight desk.old).front ≡ true }
    requires spare { 2 ≤ (D.sight desk.old).spare }
    ensures one { HoldsOne (record { place = place; id = Some 0 }) (D.sight desk.new) }
    ensures spare { 1 ≤ (D.sight desk.new).spare }
{
    one_hold_has_its_id();
    let TouchOutcome::Touched { number, .. } = desk.touch(
        rt,
        place,
        Direction::Reply,
        Segment::Udp,
        2_000_000,
    ) else {
        panic!(rt; "the entry has its answer");
    };
    assert_eq!(rt; number, 1);
    let FindOutcome::Found {
        place: found,
        id,
        direction: Direction::Reply,
        at,
    } = desk.find(rt, &query().reply)
    else {
        panic!(rt; "the entry is live");
    };
    assert_eq!(rt; (found, id, at), (place, 0, 2));
    give_back(rt, desk, found);
}

/// The entry is destroyed, and its place is given up.
fn end<R: Wait + Abort, D: Desk>(rt: &R, desk: &mut D, place: u32)
    requires one { HoldsOne (record { place = place; id = Some 0 }) (D.sight desk.old) }
    requires spare { 1 ≤ (D.sight desk.old).spare }
    ensures { HoldsNothing (D.sight desk.new) }
{
    let KillOutcome::Killed { number, .. } = desk.kill(rt, place, Why::Flushed) else {
        panic!(rt; "the reason holds of every entry");
    };
    assert_eq!(rt; number, 2);
    give_up(rt, desk, place);
    let count = desk.count(rt);
    assert_eq!(rt; (count.live, count.at), (0, 3));
}

/// One flow on a desk that has two places and keeps none, from its first packet to its end.
fn whole_flow<R: Wait + Abort, D: Desk>(rt: &R, desk: &mut D) -> Result<(), NoMemory>
    requires nothing { HoldsNothing (D.sight desk.old) }
    requires own { (D.sight desk.old).own ≡ [] }
{
    assert_eq!(rt; (desk.places(), desk.expect_room()), (2, 0));
    desk.ready(3)?;
    let place = begin(rt, desk);
    go_on(rt, desk, place);
    end(rt, desk, place);
    assert_eq!(rt; desk.made(), 3);
    Ok(())
}

#[test]
fn a_clerk_is_a_desk(rt: HostRuntime) -> Result<(), Fail> {
    let (tracker, spot) = tracker_of(rt.alloc(), sizes())?;
    let mut clerk = clerk_of(&tracker, spot, &NoGate);
    Ok(whole_flow(&rt, &mut clerk)?)
}
