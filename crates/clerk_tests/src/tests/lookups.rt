//! A clerk looks once for what is live under a tuple, and holds its place.

ghost use Rattle.std.specs.Prelude.{◌≡◌, ◌<◌, ◌≤◌, Some};
ghost use Rattle.history_book.specs.Places.{HoldsNothing, HoldsOne};
ghost use Rattle.shared_desk.specs.Sights.{sight_of};

use super::confirms::make;
use super::flows::{flow, give_up, query, udp};
use super::holds::{hold_first, release_one};
use super::kills::{flush, gone_at, keep, let_go};
use super::pair::{Pair, ready_clerk, ready_pair, tracker_of};
use super::sizes;
use bucket_table::finding::FindOnce;
use ct_io::{Gate, NoGate};
use history_book::desk::Desk;
use history_book::outcome::FindOutcome;
use shared_desk::clerk::Clerk;
use std::process::Abort;
use std::sync::Wait;
use std::test::Fail;
use tuple_core::{Direction, Proto, Tuple};

/// Finds the entry 0 by one of its tuples, and gives up its place again. Gives the direction of the tuple.
fn find_entry<G: Gate, R: Wait + Abort>(rt: &R, clerk: &mut Clerk<G>, t: &Tuple) -> Direction
    requires { HoldsNothing (sight_of clerk.old) }
    ensures { HoldsNothing (sight_of clerk.new) }
{
    let FindOnce::Found {
        place,
        id,
        direction,
        at,
    } = clerk.find_once(t)
    else {
        panic!(rt; "the entry is live");
    };
    assert_eq!(rt; id, 0);
    assert_eq!(rt; at, 1);
    give_up(rt, clerk, place);
    direction
}

/// Finds nothing under a tuple, at this point.
fn find_none<G: Gate, R: Wait + Abort>(rt: &R, clerk: &mut Clerk<G>, t: &Tuple, point: u64)
    requires { HoldsNothing (sight_of clerk.old) }
    ensures nothing { HoldsNothing (sight_of clerk.new) }
    ensures spare { (sight_of clerk.new).spare ≡ (sight_of clerk.old).spare }
{
    let FindOnce::Absent { at } = clerk.find_once(t) else {
        panic!(rt; "nobody has the tuple");
    };
    assert_eq!(rt; at, point);
}

/// A clerk that keeps nothing makes the query an entry, and finds it by either of its tuples, and by no other one.
fn find_by_either<G: Gate, R: Wait + Abort>(rt: &R, clerk: &mut Clerk<G>)
    requires nothing { HoldsNothing (sight_of clerk.old) }
    requires spare { 1 ≤ (sight_of clerk.old).spare }
    ensures { HoldsNothing (sight_of clerk.new) }
{
    let original = udp(0x0a00_0001, 5000, 0x0a00_0002, 53);
    let reply = udp(0x0a00_0002, 53, 0x0a00_0001, 5000);
    find_none(rt, clerk, &original, 0);
    make(rt, clerk, &flow(original, reply), 0);
    let first = find_entry(rt, clerk, &original);
    assert!(rt; matches!(first, Direction::Original));
    let second = find_entry(rt, clerk, &reply);
    assert!(rt; matches!(second, Direction::Reply));
    find_none(rt, clerk, &udp(0x0a00_0001, 5001, 0x0a00_0002, 53), 1);
}

/// An entry is found by either of its tuples, once it is confirmed, and by no other one. A tuple of ICMP whose type neither asks nor
/// answers is nobody's.
#[test]
fn an_entry_is_found_by_either_tuple(rt: HostRuntime) -> Result<(), Fail> {
    let (tracker, spot) = tracker_of(rt.alloc(), sizes())?;
    let mut clerk = ready_clerk(&tracker, spot, &NoGate, 1)?;
    find_by_either(&rt, &mut clerk);
    let no_flow = Tuple {
        proto: Proto::Icmp,
        zone: 0,
        src: 0x0a00_0001,
        dst: 0x0a00_0002,
        a: 1,
        b: 3 * 256,
    };
    find_none(&rt, &mut clerk, &no_flow, 1);
    Ok(())
}

/// A clerk that keeps no place holds that of the entry 0, destroys the entry by event 1, and gives the place up, which another clerk
/// holds too.
fn hold_and_destroy<G: Gate, R: Wait + Abort>(rt: &R, clerk: &mut Clerk<G>, place: u32)
    requires nothing { HoldsNothing (sight_of clerk.old) }
    requires below { place < (sight_of clerk.old).sizes.entries }
    requires spare { 1 ≤ (sight_of clerk.old).spare }
{
    hold_first(rt, clerk, place);
    flush(rt, clerk, place, 0, 1);
    release_one(rt, clerk, place, 0);
}

/// A clerk that keeps nothing finds the entry 0 by its original tuple, at point 1. Gives the place, which stays held.
fn find_first<G: Gate, R: Wait + Abort>(rt: &R, clerk: &mut Clerk<G>, t: &Tuple) -> u32
    requires { HoldsNothing (sight_of clerk.old) }
    ensures { HoldsOne (record { place = result; id = Some 0 }) (sight_of clerk.new) }
{
    let FindOnce::Found {
        place,
        id,
        direction: Direction::Original,
        at,
    } = clerk.find_once(t)
    else {
        panic!(rt; "the entry is live");
    };
    assert_eq!(rt; (id, at), (0, 1));
    place
}

/// A clerk that keeps nothing finds nothing under a tuple, at point 2.
fn find_gone<G: Gate, R: Wait + Abort>(rt: &R, clerk: &mut Clerk<G>, t: &Tuple)
    requires { HoldsNothing (sight_of clerk.old) }
{
    let FindOutcome::Absent { at } = clerk.find(rt, t) else {
        panic!(rt; "nobody has the tuple");
    };
    assert_eq!(rt; at, 2);
}

/// A clerk makes the query an entry, and destroys it while another one holds its place, which then gives the place up.
fn destroy_beside<G: Gate, R: Wait + Abort>(rt: &R, one: &mut Clerk<G>, two: &mut Clerk<G>)
    requires nothing { HoldsNothing (sight_of one.old) × HoldsNothing (sight_of two.old) }
    requires spare { 2 ≤ (sight_of one.old).spare }
{
    let query = query();
    let place = keep(rt, one, &query, 0);
    release_one(rt, one, place, 0);
    let found = find_first(rt, two, &query.original);
    assert_eq!(rt; found, place);
    hold_and_destroy(rt, one, place);
    assert_eq!(rt; gone_at(rt, two, found, 0), 2);
    let_go(rt, two, found, 0);
    find_gone(rt, two, &query.original);
}

/// A place that a clerk holds for an entry that it found is its own to give up, though another clerk has destroyed the entry since.
#[test]
fn an_entry_that_was_found_is_destroyed(rt: HostRuntime) -> Result<(), Fail> {
    let (tracker, spot) = tracker_of(rt.alloc(), sizes())?;
    let Pair { mut one, mut two } = ready_pair(&tracker, spot, &NoGate, 2, 0)?;
    destroy_beside(&rt, &mut one, &mut two);
    Ok(())
}
