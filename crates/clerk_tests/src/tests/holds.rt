//! A clerk holds the place of an entry that another clerk confirmed.

ghost use Rattle.std.specs.Prelude.{◌≡◌, ◌<◌, ◌≤◌, Some};
ghost use Rattle.history_book.specs.Places.{HoldsNothing, HoldsOne};
ghost use Rattle.shared_desk.specs.Sights.{sight_of};

use super::flows::confirm_query;
use super::kills::flush;
use super::pair::{Pair, clerk_of, ready_pair, tracker_of};
use super::{give_back, sizes, take_one};
use ct_io::{Gate, NoGate};
use history_book::desk::Desk;
use history_book::outcome::{HoldOutcome, PeekOutcome, ReleaseOutcome};
use shared_desk::clerk::Clerk;
use std::process::Abort;
use std::sync::Wait;
use std::test::Fail;

/// A clerk that keeps no place holds that of the first entry, at point 1.
pub fn hold_first<G: Gate, R: Wait + Abort>(rt: &R, clerk: &mut Clerk<G>, place: u32)
    requires nothing { HoldsNothing (sight_of clerk.old) }
    requires below { place < (sight_of clerk.old).sizes.entries }
    ensures one { HoldsOne (record { place = place; id = Some 0 }) (sight_of clerk.new) }
    ensures sizes { (sight_of clerk.new).sizes ≡ (sight_of clerk.old).sizes }
    ensures spare { (sight_of clerk.new).spare ≡ (sight_of clerk.old).spare }
{
    let HoldOutcome::Held { id, at } = clerk.hold(rt, place) else {
        panic!(rt; "the entry is live");
    };
    assert_eq!(rt; id, 0);
    assert_eq!(rt; at, 1);
}

/// It reads the first entry in the one place that it holds, at point 1.
fn read_first<G: Gate, R: Wait + Abort>(rt: &R, clerk: &mut Clerk<G>, place: u32)
    requires { HoldsOne (record { place = place; id = Some 0 }) (sight_of clerk.old) }
    ensures one { HoldsOne (record { place = place; id = Some 0 }) (sight_of clerk.new) }
    ensures sizes { (sight_of clerk.new).sizes ≡ (sight_of clerk.old).sizes }
{
    let PeekOutcome::Seen { subject, at } = clerk.peek(rt, place) else {
        panic!(rt; "it still is");
    };
    assert_eq!(rt; subject.id, 0);
    assert_eq!(rt; at, 1);
}

/// It gives up the one place that it holds for an entry, which others have too.
pub fn release_one<G: Gate, R: Abort>(rt: &R, clerk: &mut Clerk<G>, place: u32, id: u64)
    requires { HoldsOne (record { place = place; id = Some id }) (sight_of clerk.old) }
    ensures nothing { HoldsNothing (sight_of clerk.new) }
    ensures sizes { (sight_of clerk.new).sizes ≡ (sight_of clerk.old).sizes }
    ensures spare { (sight_of clerk.new).spare ≡ (sight_of clerk.old).spare }
{
    let _ = id;
    let ReleaseOutcome::Kept = clerk.release_now(place) else {
        panic!(rt; "others have the place");
    };
}

/// A clerk that keeps no place holds that of the first entry, reads the entry, and gives the place up again.
fn hold_and_read<G: Gate, R: Wait + Abort>(rt: &R, clerk: &mut Clerk<G>, place: u32)
    requires nothing { HoldsNothing (sight_of clerk.old) }
    requires below { place < (sight_of clerk.old).sizes.entries }
    ensures nothing { HoldsNothing (sight_of clerk.new) }
    ensures sizes { (sight_of clerk.new).sizes ≡ (sight_of clerk.old).sizes }
{
    hold_first(rt, clerk, place);
    read_first(rt, clerk, place);
    release_one(rt, clerk, place, 0);
}

/// At which point a clerk that keeps no place sees no entry live in a place. It keeps none then.
fn empty_at<G: Gate, R: Wait + Abort>(rt: &R, clerk: &mut Clerk<G>, place: u32) -> u64
    requires nothing { HoldsNothing (sight_of clerk.old) }
    requires below { place < (sight_of clerk.old).sizes.entries }
    ensures nothing { HoldsNothing (sight_of clerk.new) }
    ensures sizes { (sight_of clerk.new).sizes ≡ (sight_of clerk.old).sizes }
{
    let HoldOutcome::Empty { at } = clerk.hold(rt, place) else {
        panic!(rt; "no entry is live in the place");
    };
    at
}

/// A clerk takes a place, makes an entry there, and destroys it. Another one holds the place as long as the entry is live.
fn hold_beside<G: Gate, R: Wait + Abort>(rt: &R, one: &mut Clerk<G>, two: &mut Clerk<G>)
    requires nothing { HoldsNothing (sight_of one.old) × HoldsNothing (sight_of two.old) }
    requires spare { 2 ≤ (sight_of one.old).spare }
    requires sizes { (sight_of two.old).sizes ≡ (sight_of one.old).sizes }
{
    let place = take_one(rt, one);
    assert_eq!(rt; empty_at(rt, two, place), 0);
    confirm_query(rt, one, place);
    hold_and_read(rt, two, place);
    flush(rt, one, place, 0, 1);
    assert_eq!(rt; empty_at(rt, two, place), 2);
}

#[test]
fn the_place_of_an_entry_is_held_by_another_clerk(rt: HostRuntime) -> Result<(), Fail> {
    let (tracker, spot) = tracker_of(rt.alloc(), sizes())?;
    let Pair { mut one, mut two } = ready_pair(&tracker, spot, &NoGate, 2, 0)?;
    hold_beside(&rt, &mut one, &mut two);
    Ok(())
}

#[test]
fn a_free_place_is_held_for_no_entry(rt: HostRuntime) -> Result<(), Fail> {
    let (tracker, spot) = tracker_of(rt.alloc(), sizes())?;
    let mut clerk = clerk_of(&tracker, spot, &NoGate);
    assert_eq!(rt; empty_at(&rt, &mut clerk, 0), 0);
    let place = take_one(&rt, &mut clerk);
    give_back(&rt, &mut clerk, place);
    assert_eq!(rt; empty_at(&rt, &mut clerk, place), 0);
    Ok(())
}
