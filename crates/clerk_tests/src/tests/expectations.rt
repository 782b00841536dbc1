//! The entry for which a clerk holds a place expects a connection, which another clerk claims, ends or lists.

ghost use Rattle.std.specs.Prelude.{◌≡◌, ◌+◌, ◌≤◌, ◌^◌, true, Some};
ghost use Rattle.history_book.specs.Entry.{is_lawful_flow, is_helped_entry};
ghost use Rattle.history_book.specs.Places.{HoldsNothing, HoldsOne};
ghost use Rattle.history_book.specs.Sizes.{AreWithinLimits};
ghost use Rattle.history_book.specs.WentOn.{IsSamePass};
ghost use Rattle.shared_desk.specs.Sights.{sight_of};

use super::flows::{flow, udp};
use super::kills::keep;
use super::pair::{Pair, ready_pair, tracker_of};
use ct_io::{Gate, NoGate};
use expect_table::expectation::{Expectation, Want};
use history_book::desk::Desk;
use history_book::event::Why;
use history_book::laws::events_stay;
use history_book::outcome::{ClaimOutcome, ExpectOutcome, KillOutcome, UnexpectOutcome};
use history_book::places::one_hold_has_its_id;
use history_book::record::Flow;
use history_book::report::Expectations;
use history_book::sizes::Sizes;
use shared_desk::clerk::Clerk;
use std::alloc::Global;
use std::process::Abort;
use std::sync::Wait;
use std::test::Fail;
use tuple_core::{NoMemory, Proto, Tuple};

/// A pool of four places with room for so many expectations, for two passes.
pub fn sizes_for(expectations: u32) -> Sizes
    requires { expectations ≤ 2 }
    ensures limits { AreWithinLimits result }
    ensures passes { result.passes ≡ 2 }
    ensures room { result.expectations ≡ expectations }
{
    Sizes {
        entries: 4,
        buckets: 1,
        seed: 1,
        passes: 2,
        expectations,
    }
}

/// The flow of a client's port to a server, which has the helper.
pub fn master(port: u16) -> Flow
    ensures protocol { is_lawful_flow result ≡ true }
    ensures helper { result.helper ≡ true }
{
    let mut flow = flow(
        udp(0x0a00_0001, port, 0x0a00_0002, 21),
        udp(0x0a00_0002, 21, 0x0a00_0001, port),
    );
    flow.helper = true;
    flow
}

/// A connection of the server to this port of the client.
pub fn want(port: u16) -> Want {
    Want {
        src: 0x0a00_0002,
        dst: 0x0a00_0001,
        port,
    }
}

/// The tuple of its first packet.
pub fn wanted(port: u16) -> Tuple {
    Tuple {
        proto: Proto::Tcp,
        zone: 0,
        src: 0x0a00_0002,
        dst: 0x0a00_0001,
        a: 20,
        b: port,
    }
}

/// A clerk that keeps nothing makes the flow an entry under this id. Gives the place, which stays held.
fn keep_master<G: Gate, R: Wait + Abort>(rt: &R, clerk: &mut Clerk<G>, port: u16, id: u64) -> u32
    requires nothing { HoldsNothing (sight_of clerk.old) }
    requires spare { 1 ≤ (sight_of clerk.old).spare }
    ensures one { HoldsOne (record { place = result; id = Some id }) (sight_of clerk.new) }
    ensures helper { is_helped_entry id (sight_of clerk.new).front ≡ true }
    ensures spare { (sight_of clerk.old).spare ≤ (sight_of clerk.new).spare + 1 }
{
    keep(rt, clerk, &master(port), id)
}

/// The entry of this id, whose place is the only one that the clerk holds, expects a connection to this port from a moment on.
pub fn expect<G: Gate, R: Wait>(
    rt: &R,
    clerk: &mut Clerk<G>,
    place: u32,
    id: u64,
    port: u16,
    moment: u64,
) -> ExpectOutcome
    requires one { HoldsOne (record { place = place; id = Some id }) (sight_of clerk.old) }
    requires helper { is_helped_entry id (sight_of clerk.old).front ≡ true }
    requires timely { moment ≤ 10 ^ 16 }
    requires spare { 1 ≤ (sight_of clerk.old).spare }
    ensures one { HoldsOne (record { place = place; id = Some id }) (sight_of clerk.new) }
    ensures helper { is_helped_entry id (sight_of clerk.new).front ≡ true }
    ensures same { IsSamePass (sight_of clerk.old) (sight_of clerk.new) }
    ensures spare { (sight_of clerk.old).spare ≤ (sight_of clerk.new).spare + 1 }
{
    let _ = id;
    events_stay();
    one_hold_has_its_id();
    clerk.expect(rt, place, want(port), moment)
}

/// A packet to this port claims at a moment what is expected there.
fn claim<G: Gate, R: Wait>(rt: &R, clerk: &mut Clerk<G>, port: u16, moment: u64) -> ClaimOutcome
    requires { 1 ≤ (sight_of clerk.old).spare }
    ensures spare { (sight_of clerk.old).spare ≤ (sight_of clerk.new).spare + 1 }
{
    clerk.claim(rt, &wanted(port), moment)
}

/// It claims nothing at this point.
fn claim_none<G: Gate, R: Wait + Abort>(
    rt: &R,
    clerk: &mut Clerk<G>,
    port: u16,
    moment: u64,
    point: u64,
)
    requires { 1 ≤ (sight_of clerk.old).spare }
    ensures spare { (sight_of clerk.old).spare ≤ (sight_of clerk.new).spare + 1 }
{
    let ClaimOutcome::Unclaimed { at } = claim(rt, clerk, port, moment) else {
        panic!(rt; "nothing is expected there");
    };
    assert_eq!(rt; at, point);
}

/// The expectation of this id is ended at a moment, if it is awaited no longer.
fn unexpect<G: Gate, R: Wait>(rt: &R, clerk: &mut Clerk<G>, id: u64, moment: u64) -> UnexpectOutcome
    requires { 1 ≤ (sight_of clerk.old).spare }
    ensures spare { (sight_of clerk.old).spare ≤ (sight_of clerk.new).spare + 1 }
{
    clerk.unexpect(rt, id, moment)
}

/// The expectation that stands alone in the table at this point.
fn only<G: Gate, R: Wait + Abort>(
    rt: &R,
    alloc: Global,
    clerk: &mut Clerk<G>,
    at: u64,
) -> Result<Expectation, NoMemory>
    ensures { (sight_of clerk.new).spare ≡ (sight_of clerk.old).spare }
{
    let mut listed = Expectations::new(alloc, clerk.expect_room() as usize)?;
    let point = clerk.expects(rt, &mut listed);
    assert_eq!(rt; point, at);
    let &[e] = listed.as_slice() else {
        panic!(rt; "one connection is expected");
    };
    Ok(e)
}

/// A clerk that keeps nothing makes an entry of the id 0, which expects a connection to port 2001 from 1 s on. Gives its place, which
/// stays held.
fn expect_first<G: Gate, R: Wait + Abort>(rt: &R, clerk: &mut Clerk<G>) -> u32
    requires nothing { HoldsNothing (sight_of clerk.old) }
    requires spare { 2 ≤ (sight_of clerk.old).spare }
    ensures one { HoldsOne (record { place = result; id = Some 0 }) (sight_of clerk.new) }
    ensures helper { is_helped_entry 0 (sight_of clerk.new).front ≡ true }
    ensures spare { (sight_of clerk.old).spare ≤ (sight_of clerk.new).spare + 2 }
{
    let place = keep_master(rt, clerk, 5000, 0);
    let _ = expect(rt, clerk, place, 0, 2001, 1_000_000);
    place
}

/// What the one clerk's entry expects is listed by the other.
fn list_expected<G: Gate, R: Wait + Abort>(
    rt: &R,
    alloc: Global,
    one: &mut Clerk<G>,
    two: &mut Clerk<G>,
) -> Result<(), NoMemory>
    requires nothing { HoldsNothing (sight_of one.old) }
    requires spare { 2 ≤ (sight_of one.old).spare }
{
    let _ = expect_first(rt, one);
    let e = only(rt, alloc, two, 2)?;
    assert_eq!(rt; (e.id, e.master, e.deadline), (1, 0, 301_000_000));
    assert_eq!(rt;
        (e.want.src, e.want.dst, e.want.port),
        (0x0a00_0002, 0x0a00_0001, 2001)
    );
    Ok(())
}

/// What is expected is listed.
#[test]
fn what_is_expected_is_listed(rt: HostRuntime) -> Result<(), Fail> {
    let (tracker, spot) = tracker_of(rt.alloc(), sizes_for(2))?;
    let Pair { mut one, mut two } = ready_pair(&tracker, spot, &NoGate, 2, 0)?;
    Ok(list_expected(&rt, rt.alloc(), &mut one, &mut two)?)
}

/// Claims what is expected at port 2001, once and in time. Nothing is expected at port 2002.
fn claim_expected<G: Gate, R: Wait + Abort>(rt: &R, clerk: &mut Clerk<G>)
    requires { 4 ≤ (sight_of clerk.old).spare }
{
    claim_none(rt, clerk, 2002, 2_000_000, 2);
    claim_none(rt, clerk, 2001, 301_000_000, 2);
    let ClaimOutcome::Claimed {
        number,
        expectation,
        master,
    } = claim(rt, clerk, 2001, 300_999_999)
    else {
        panic!(rt; "the connection is expected");
    };
    assert_eq!(rt; (number, expectation, master), (2, 1, 0));
    claim_none(rt, clerk, 2001, 2_000_000, 3);
}

/// What is expected is claimed by the first packet that it matches in time, and by no other one.
#[test]
fn an_expected_connection_is_claimed(rt: HostRuntime) -> Result<(), Fail> {
    let (tracker, spot) = tracker_of(rt.alloc(), sizes_for(2))?;
    let Pair { mut one, mut two } = ready_pair(&tracker, spot, &NoGate, 2, 4)?;
    let _ = expect_first(&rt, &mut one);
    claim_expected(&rt, &mut two);
    Ok(())
}

/// A clerk's entry expects a connection to port 2001, and then one to port 2002 instead.
fn expect_another<G: Gate, R: Wait + Abort>(rt: &R, clerk: &mut Clerk<G>)
    requires nothing { HoldsNothing (sight_of clerk.old) }
    requires spare { 3 ≤ (sight_of clerk.old).spare }
{
    let place = expect_first(rt, clerk);
    let ExpectOutcome::Expected { id, replaced } = expect(rt, clerk, place, 0, 2002, 2_000_000)
    else {
        panic!(rt; "the older one is replaced");
    };
    assert_eq!(rt; (id, replaced), (2, Some(1)));
}

/// The newer one alone is listed, and the older one is not claimed.
fn list_newer<G: Gate, R: Wait + Abort>(
    rt: &R,
    alloc: Global,
    clerk: &mut Clerk<G>,
) -> Result<(), NoMemory>
    requires { 1 ≤ (sight_of clerk.old).spare }
{
    let e = only(rt, alloc, clerk, 3)?;
    assert_eq!(rt; (e.id, e.want.port, e.deadline), (2, 2002, 302_000_000));
    claim_none(rt, clerk, 2001, 2_000_000, 3);
    Ok(())
}

/// An entry that expects another connection expects the older one no longer.
#[test]
fn an_older_expectation_is_replaced(rt: HostRuntime) -> Result<(), Fail> {
    let (tracker, spot) = tracker_of(rt.alloc(), sizes_for(2))?;
    let Pair { mut one, mut two } = ready_pair(&tracker, spot, &NoGate, 3, 1)?;
    expect_another(&rt, &mut one);
    Ok(list_newer(&rt, rt.alloc(), &mut two)?)
}

/// Two clerks' entries expect one connection, of which the second is refused; the second finds no room for another one.
fn expect_twice<G: Gate, R: Wait + Abort>(rt: &R, one: &mut Clerk<G>, two: &mut Clerk<G>)
    requires nothing { HoldsNothing (sight_of one.old) × HoldsNothing (sight_of two.old) }
    requires spare { (2 ≤ (sight_of one.old).spare) × (4 ≤ (sight_of two.old).spare) }
{
    let (first, second) = keep_both(rt, one, two);
    let _ = expect(rt, one, first, 0, 2001, 1_000_000);
    let clash = expect(rt, two, second, 1, 2001, 2_000_000);
    assert!(rt; matches!(clash, ExpectOutcome::Clash { id: 2, at: 3 }));
    let full = expect(rt, two, second, 1, 2002, 2_000_000);
    assert!(rt; matches!(full, ExpectOutcome::ExpectFull { at: 3 }));
}

/// Two entries expect one connection, of which the second is refused; and a table with room for one expectation has none for another.
#[test]
fn a_second_master_is_refused(rt: HostRuntime) -> Result<(), Fail> {
    let (tracker, spot) = tracker_of(rt.alloc(), sizes_for(1))?;
    let Pair { mut one, mut two } = ready_pair(&tracker, spot, &NoGate, 2, 4)?;
    expect_twice(&rt, &mut one, &mut two);
    Ok(())
}

/// Ends the expectation of the id 1, which is due until 301 s: not before, and once.
fn end_when_due<G: Gate, R: Wait + Abort>(rt: &R, clerk: &mut Clerk<G>)
    requires { 3 ≤ (sight_of clerk.old).spare }
{
    let early = unexpect(rt, clerk, 1, 300_999_999);
    assert!(rt;
        matches!(
            early,
            UnexpectOutcome::Not {
                deadline: 301_000_000,
                at: 2
            }
        )
    );
    let due = unexpect(rt, clerk, 1, 301_000_000);
    assert!(rt; matches!(due, UnexpectOutcome::Removed { number: 2 }));
    let again = unexpect(rt, clerk, 1, 301_000_000);
    assert!(rt; matches!(again, UnexpectOutcome::Gone { at: 3 }));
}

/// An expectation is ended when it is awaited no longer, and once.
#[test]
fn an_expectation_ends_when_it_is_due_no_longer(rt: HostRuntime) -> Result<(), Fail> {
    let (tracker, spot) = tracker_of(rt.alloc(), sizes_for(1))?;
    let Pair { mut one, mut two } = ready_pair(&tracker, spot, &NoGate, 2, 3)?;
    let _ = expect_first(&rt, &mut one);
    end_when_due(&rt, &mut two);
    Ok(())
}

/// The entry of this id is destroyed, by the event of this number, and its place stays held.
fn end<G: Gate, R: Wait + Abort>(rt: &R, clerk: &mut Clerk<G>, place: u32, id: u64, number: u64)
    requires one { HoldsOne (record { place = place; id = Some id }) (sight_of clerk.old) }
    requires helper { is_helped_entry id (sight_of clerk.old).front ≡ true }
    requires spare { 1 ≤ (sight_of clerk.old).spare }
    ensures one { HoldsOne (record { place = place; id = Some id }) (sight_of clerk.new) }
    ensures helper { is_helped_entry id (sight_of clerk.new).front ≡ true }
    ensures spare { (sight_of clerk.old).spare ≤ (sight_of clerk.new).spare + 1 }
{
    let _ = id;
    events_stay();
    let KillOutcome::Killed { number: made, .. } = clerk.kill(rt, place, Why::Flushed) else {
        panic!(rt; "the reason holds of every entry");
    };
    assert_eq!(rt; made, number);
}

/// Two clerks that keep nothing make an entry each, of the ids 0 and 1. Gives their places, which stay held.
fn keep_both<G: Gate, R: Wait + Abort>(rt: &R, one: &mut Clerk<G>, two: &mut Clerk<G>) -> (u32, u32)
    requires nothing { HoldsNothing (sight_of one.old) × HoldsNothing (sight_of two.old) }
    requires spare { (1 ≤ (sight_of one.old).spare) × (1 ≤ (sight_of two.old).spare) }
    ensures one { HoldsOne (record { place = result.0; id = Some 0 }) (sight_of one.new) }
    ensures two { HoldsOne (record { place = result.1; id = Some 1 }) (sight_of two.new) }
    ensures helper { (is_helped_entry 0 (sight_of one.new).front ≡ true) × (is_helped_entry 1 (sight_of two.new).front ≡ true) }
    ensures spare { (sight_of one.old).spare ≤ (sight_of one.new).spare + 1 }
    ensures spare_two { (sight_of two.old).spare ≤ (sight_of two.new).spare + 1 }
{
    let first = keep_master(rt, one, 5000, 0);
    (first, keep_master(rt, two, 5001, 1))
}

/// These entries, of the ids 0 and 1, expect a connection each, to the ports 2001 and 2002 from 1 s on.
fn expect_both<G: Gate, R: Wait>(
    rt: &R,
    one: &mut Clerk<G>,
    first: u32,
    two: &mut Clerk<G>,
    second: u32,
)
    requires one { HoldsOne (record { place = first; id = Some 0 }) (sight_of one.old) }
    requires two { HoldsOne (record { place = second; id = Some 1 }) (sight_of two.old) }
    requires helper { (is_helped_entry 0 (sight_of one.old).front ≡ true) × (is_helped_entry 1 (sight_of two.old).front ≡ true) }
    requires spare { (1 ≤ (sight_of one.old).spare) × (1 ≤ (sight_of two.old).spare) }
    ensures one { HoldsOne (record { place = first; id = Some 0 }) (sight_of one.new) }
    ensures helper { is_helped_entry 0 (sight_of one.new).front ≡ true }
    ensures spare { (sight_of one.old).spare ≤ (sight_of one.new).spare + 1 }
{
    let _ = expect(rt, one, first, 0, 2001, 1_000_000);
    let _ = expect(rt, two, second, 1, 2002, 1_000_000);
}

/// Two clerks' entries expect a connection each. The first entry is destroyed, and expects no more.
fn end_with_entry<G: Gate, R: Wait + Abort>(
    rt: &R,
    alloc: Global,
    one: &mut Clerk<G>,
    two: &mut Clerk<G>,
) -> Result<(), NoMemory>
    requires nothing { HoldsNothing (sight_of one.old) × HoldsNothing (sight_of two.old) }
    requires spare { (4 ≤ (sight_of one.old).spare) × (2 ≤ (sight_of two.old).spare) }
{
    let (first, second) = keep_both(rt, one, two);
    expect_both(rt, one, first, two, second);
    end(rt, one, first, 0, 4);
    let e = only(rt, alloc, two, 5)?;
    assert_eq!(rt; (e.id, e.master), (3, 1));
    let gone = expect(rt, one, first, 0, 2001, 2_000_000);
    assert!(rt; matches!(gone, ExpectOutcome::MasterGone { at: 5 }));
    Ok(())
}

/// What an entry expected ends with it, what another one expects stays, and an entry that is gone expects no more.
#[test]
fn what_an_entry_expected_ends_with_it(rt: HostRuntime) -> Result<(), Fail> {
    let (tracker, spot) = tracker_of(rt.alloc(), sizes_for(2))?;
    let Pair { mut one, mut two } = ready_pair(&tracker, spot, &NoGate, 4, 2)?;
    Ok(end_with_entry(&rt, rt.alloc(), &mut one, &mut two)?)
}
