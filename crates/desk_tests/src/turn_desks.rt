//! Desks of one tracker whose passes take turns, and packets over them; and the same packets over clerks of the shared table.

ghost use Rattle.std.specs.Prelude.{◌≡◌, ◌≤◌, None, IfOk};
ghost use Rattle.history_book.specs.Places.{HoldsNothing, HoldsOne};
ghost use Rattle.history_book.specs.Sizes.{AreWithinLimits};
ghost use Rattle.history_book.specs.WentOn.{IsSamePass};

use crate::packets::{ANOTHER, ANSWER, QUERY, SYN, handled};
use book_desk::desk::PlainDesk;
use book_desk::turn_desk::TurnBook;
use conntrack_cmd::command::Command;
use conntrack_cmd::perform::perform;
use ct_io::NoGate;
use history_book::answer::Said;
use history_book::desk::Desk;
use history_book::outcome::{ConfirmOutcome, TakeOutcome};
use history_book::places::give_up;
use history_book::record::Flow;
use history_book::sizes::Sizes;
use history_book::verdict::Class;
use overtaken::Overtaken;
use proto_rules::{Part, PartKind};
use shared_desk::tracker::Tracker;
use std::process::Abort;
use std::sync::Wait;
use std::test::Fail;
use tuple_core::{Direction, NoMemory, Proto, Tuple};

mod overtaken;

/// A pool of so many places, for so many passes.
fn sizes(entries: u8, passes: u8) -> Sizes
    requires entries { 1 ≤ entries }
    requires passes { 1 ≤ passes × passes ≤ 64 }
    ensures within { AreWithinLimits result }
    ensures passes { result.passes ≡ passes }
{
    Sizes {
        entries: u32::from(entries),
        buckets: 1,
        seed: 1,
        passes: u32::from(passes),
        expectations: 0,
    }
}

/// A flow has the only place, and another one drops it.
fn one_flow_drops_another<R: Wait + Abort + AllocGlobal, D: Desk>(
    rt: &R,
    desk: &mut D,
) -> Result<(), NoMemory>
    requires { HoldsNothing (D.sight desk.old) }
    ensures { HoldsNothing (D.sight desk.new) }
{
    let first = handled(rt, desk, &QUERY, 1_000_000)?;
    assert!(rt; matches!(first.class, Class::Made { id: 0, at: 1, .. }));
    let second = handled(rt, desk, &ANOTHER, 2_000_000)?;
    assert!(rt; matches!(second.class, Class::Made { id: 2, at: 3, .. }));
    assert!(rt; second.made == 2);
    Ok(())
}

/// The first flow is expired, and ended by a command: so another has its place.
fn its_end_makes_room<R: Wait + Abort + AllocGlobal, D: Desk>(
    rt: &R,
    desk: &mut D,
) -> Result<(), NoMemory>
    requires { HoldsNothing (D.sight desk.old) }
    ensures { HoldsNothing (D.sight desk.new) }
{
    assert!(rt; desk.made() < 1000 && desk.places() == 1 && desk.expect_room() == 0);
    let command = Command::Expire(32_000_000);
    let answer = perform(rt, rt.alloc(), desk, &command, 0)?;
    let Said::Expired {
        entries,
        expectations,
    } = answer.said
    else {
        panic!(rt; "another answer");
    };
    assert_eq!(rt;
        (entries, expectations, answer.from, answer.to),
        (1, 0, 3, 4)
    );
    let again = handled(rt, desk, &ANOTHER, 33_000_000)?;
    assert!(rt; matches!(again.class, Class::Made { id: 4, at: 5, .. }));
    Ok(())
}

#[test]
fn expiry_makes_room_on_a_plain_desk(rt: HostRuntime) -> Result<(), Fail> {
    let mut desk = PlainDesk::new(rt.alloc(), sizes(1, 1))?;
    one_flow_drops_another(&rt, &mut desk)?;
    its_end_makes_room(&rt, &mut desk)?;
    Ok(())
}

#[test]
fn expiry_makes_room_on_a_desk_of_turns(rt: HostRuntime) -> Result<(), Fail> {
    let (book, spot) = TurnBook::new(rt.alloc(), sizes(1, 1))?;
    let mut desk = book.desk(spot, &NoGate, 0);
    one_flow_drops_another(&rt, &mut desk)?;
    its_end_makes_room(&rt, &mut desk)?;
    Ok(())
}

#[test]
fn expiry_makes_room_on_a_clerk(rt: HostRuntime) -> Result<(), Fail> {
    let (tracker, spot) = Tracker::new(rt.alloc(), sizes(1, 1))?;
    let mut desk = tracker.clerk(spot, &NoGate, 0);
    one_flow_drops_another(&rt, &mut desk)?;
    its_end_makes_room(&rt, &mut desk)?;
    Ok(())
}

/// A flow has the only place, and goes both ways.
fn one_flow_is_assured<R: Wait + Abort + AllocGlobal, D: Desk>(
    rt: &R,
    desk: &mut D,
) -> Result<(), NoMemory>
    requires { HoldsNothing (D.sight desk.old) }
    ensures { HoldsNothing (D.sight desk.new) }
{
    let first = handled(rt, desk, &QUERY, 1_000_000)?;
    assert!(rt; matches!(first.class, Class::Made { id: 0, at: 1, .. }));
    handled(rt, desk, &ANSWER, 1_500_000)?;
    let third = handled(rt, desk, &QUERY, 2_000_000)?;
    assert!(rt; matches!(third.class, Class::Passed { id: 0, at: 3, .. }));
    Ok(())
}

/// An assured flow is not dropped, until it is expired.
fn it_goes_once_expired<R: Wait + Abort + AllocGlobal, D: Desk>(
    rt: &R,
    desk: &mut D,
) -> Result<(), NoMemory>
    requires { HoldsNothing (D.sight desk.old) }
    ensures { HoldsNothing (D.sight desk.new) }
{
    let full = handled(rt, desk, &ANOTHER, 3_000_000)?;
    assert!(rt; matches!(full.class, Class::Full { from: 3, at: 3 }));
    assert!(rt; full.made == 0);
    let made = handled(rt, desk, &ANOTHER, 122_000_000)?;
    assert!(rt; matches!(made.class, Class::Made { id: 4, at: 5, .. }));
    assert!(rt; made.first == 3 && made.made == 2);
    Ok(())
}

#[test]
fn an_assured_flow_stays_on_a_plain_desk(rt: HostRuntime) -> Result<(), Fail> {
    let mut desk = PlainDesk::new(rt.alloc(), sizes(1, 1))?;
    one_flow_is_assured(&rt, &mut desk)?;
    it_goes_once_expired(&rt, &mut desk)?;
    Ok(())
}

#[test]
fn an_assured_flow_stays_on_a_desk_of_turns(rt: HostRuntime) -> Result<(), Fail> {
    let (book, spot) = TurnBook::new(rt.alloc(), sizes(1, 1))?;
    let mut desk = book.desk(spot, &NoGate, 0);
    one_flow_is_assured(&rt, &mut desk)?;
    it_goes_once_expired(&rt, &mut desk)?;
    Ok(())
}

#[test]
fn an_assured_flow_stays_on_a_clerk(rt: HostRuntime) -> Result<(), Fail> {
    let (tracker, spot) = Tracker::new(rt.alloc(), sizes(1, 1))?;
    let mut desk = tracker.clerk(spot, &NoGate, 0);
    one_flow_is_assured(&rt, &mut desk)?;
    it_goes_once_expired(&rt, &mut desk)?;
    Ok(())
}

/// The flow of the query, expired from 31 s on.
const ASKED: Flow = Flow {
    original: Tuple {
        proto: Proto::Udp,
        zone: 0,
        src: 0x0a00_0001,
        dst: 0x0a00_0002,
        a: 5000,
        b: 53,
    },
    reply: Tuple {
        proto: Proto::Udp,
        zone: 0,
        src: 0x0a00_0002,
        dst: 0x0a00_0001,
        a: 53,
        b: 5000,
    },
    part: Part {
        kind: PartKind::Udp,
        replied: false,
        assured: false,
        deadline: 31_000_000,
    },
    helper: false,
    master: None,
};

/// A desk that keeps nothing asks for room for one event, and takes a place.
fn taken<R: Wait + Abort, D: Desk>(rt: &R, desk: &mut D) -> Result<u32, NoMemory>
    requires empty { HoldsNothing (D.sight desk.old) }
    ensures pass { IfOk result (λ _. IsSamePass (D.sight desk.old) (D.sight desk.new)) }
    ensures holds { IfOk result (λ place. HoldsOne (record { place = place; id = None }) (D.sight desk.new)) }
    ensures spare { IfOk result (λ _. 1 ≤ (D.sight desk.new).spare) }
{
    assert!(rt; desk.made() < 1000);
    desk.ready(1)?;
    match desk.take(rt) {
        TakeOutcome::Taken { place } => Ok(place),
        TakeOutcome::Full { .. } => panic!(rt; "no place is free"),
    }
}

/// The query's flow is confirmed in the place, which is given up then.
fn confirmed<R: Wait, D: Desk>(rt: &R, desk: &mut D, place: u32) -> ConfirmOutcome
    requires holds { HoldsOne (record { place = place; id = None }) (D.sight desk.old) }
    requires spare { 1 ≤ (D.sight desk.old).spare }
    ensures pass { IsSamePass (D.sight desk.old) (D.sight desk.new) }
    ensures empty { HoldsNothing (D.sight desk.new) }
{
    let outcome = desk.confirm(rt, place, &ASKED);
    give_up(rt, desk, place);
    outcome
}

/// Two desks of one tracker take a place each, and confirm one flow: the second is told of the entry of the first.
#[test]
fn two_desks_confirm_one_flow(rt: HostRuntime) -> Result<(), Fail> {
    let (book, spot) = TurnBook::new(rt.alloc(), sizes(2, 2))?;
    let mut first = book.desk(spot, &NoGate, 0);
    let mut second = first.split(1, 1);
    let place = taken(&rt, &mut first)?;
    let other = taken(&rt, &mut second)?;
    assert!(rt; place != other);
    let made = confirmed(&rt, &mut first, place);
    assert!(rt; matches!(made, ConfirmOutcome::Confirmed { id: 0 }));
    let clash = confirmed(&rt, &mut second, other);
    assert!(rt;
        matches!(
            clash,
            ConfirmOutcome::Clash {
                id: 0,
                direction: Direction::Original,
                both: true,
                at: 1
            }
        )
    );
    let notes = first.join(second);
    assert_eq!(rt; notes.len(), 0);
    let spot = first.leave();
    let closed = book.close(spot);
    assert_eq!(rt; (closed.events, closed.live, closed.notes.len()), (1, 1, 1));
    Ok(())
}

/// What becomes of a packet of a flow that the other desk of a tracker confirms, after the flow was looked up and before it
/// is confirmed.
fn class_of_overtaken<R: Wait + Abort + AllocGlobal, D: Desk + Drop>(
    rt: &R,
    desk: D,
    other: D,
    packet: &[u8],
) -> Result<Class, NoMemory>
    requires empty { HoldsNothing (D.sight desk) }
    requires other_empty { HoldsNothing (D.sight other) }
{
    let mut desk = Overtaken::new(rt, desk, other)?;
    let verdict = handled(rt, &mut desk, packet, 1_000_000)?;
    Ok(verdict.class)
}

/// The same of two desks whose passes take turns.
fn class_on_a_list<R: Wait + Abort + AllocGlobal>(
    rt: &R,
    packet: &[u8],
) -> Result<Class, NoMemory> {
    let (book, spot) = TurnBook::new(rt.alloc(), sizes(2, 2))?;
    let mut desk = book.desk(spot, &NoGate, 0);
    let other = desk.split(1, 1);
    class_of_overtaken(rt, desk, other, packet)
}

/// And of two clerks of the shared table.
fn class_on_a_table<R: Wait + Abort + AllocGlobal>(
    rt: &R,
    packet: &[u8],
) -> Result<Class, NoMemory> {
    let (tracker, spot) = Tracker::new(rt.alloc(), sizes(2, 2))?;
    let mut desk = tracker.clerk(spot, &NoGate, 0);
    let other = desk.split(1, 1);
    class_of_overtaken(rt, desk, other, packet)
}

/// One entry is enough for two queries of one flow; two connections are never one.
#[test]
fn a_flow_that_the_other_pass_confirms_first(rt: HostRuntime) -> Result<(), Fail> {
    let query = class_on_a_list(&rt, &QUERY)?;
    assert!(rt; matches!(query, Class::Merged { id: 0, at: 1, .. }));
    let syn = class_on_a_list(&rt, &SYN)?;
    assert!(rt; matches!(syn, Class::Clash { id: 0, at: 1, .. }));
    Ok(())
}

#[test]
fn a_flow_that_the_other_clerk_confirms_first(rt: HostRuntime) -> Result<(), Fail> {
    let query = class_on_a_table(&rt, &QUERY)?;
    assert!(rt; matches!(query, Class::Merged { id: 0, at: 1, .. }));
    let syn = class_on_a_table(&rt, &SYN)?;
    assert!(rt; matches!(syn, Class::Clash { id: 0, at: 1, .. }));
    Ok(())
}
