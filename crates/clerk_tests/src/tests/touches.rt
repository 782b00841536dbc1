//! A clerk touches and reads the entry for which it holds a place.

ghost use Rattle.std.specs.Prelude.{◌≡◌, ◌≤◌, true, Some};
ghost use Rattle.history_book.specs.Entry.{is_of_entry};
ghost use Rattle.history_book.specs.Places.{HoldsNothing, HoldsOne};
ghost use Rattle.shared_desk.specs.Sights.{sight_of};
ghost use Rattle.tuple_core.specs.declared.Segment.TheVariants.{Udp};

use super::flows::confirm_query;
use super::pair::{ready_clerk, tracker_of};
use super::{sizes, take_one};
use ct_io::{Gate, NoGate};
use history_book::desk::Desk;
use history_book::outcome::{PeekOutcome, TouchOutcome};
use history_book::places::one_hold_has_its_id;
use shared_desk::clerk::Clerk;
use std::process::Abort;
use std::sync::Wait;
use std::test::Fail;
use tuple_core::{Direction, Segment};

/// The answer to the query touches its entry, which was not known as answered before.
fn touch_answer<G: Gate, R: Wait + Abort>(rt: &R, clerk: &mut Clerk<G>, place: u32)
    requires one { HoldsOne (record { place = place; id = Some 0 }) (sight_of clerk.old) }
    requires protocol { is_of_entry Udp 0 (sight_of clerk.old).front ≡ true }
    requires spare { 1 ≤ (sight_of clerk.old).spare }
    ensures { HoldsOne (record { place = place; id = Some 0 }) (sight_of clerk.new) }
{
    one_hold_has_its_id();
    let TouchOutcome::Touched { number, before } = clerk.touch(
        rt,
        place,
        Direction::Reply,
        Segment::Udp,
        2_000_000,
    ) else {
        panic!(rt; "the entry has its answer");
    };
    assert_eq!(rt; number, 1);
    assert!(rt; !before.part.replied);
}

/// The entry is known as answered.
fn read_answered<G: Gate, R: Wait + Abort>(rt: &R, clerk: &mut Clerk<G>, place: u32)
    requires { HoldsOne (record { place = place; id = Some 0 }) (sight_of clerk.old) }
{
    let PeekOutcome::Seen { subject, at } = clerk.peek(rt, place) else {
        panic!(rt; "the entry is live");
    };
    assert_eq!(rt; at, 2);
    assert!(rt; subject.part.replied);
    assert_eq!(rt; subject.id, 0);
}

/// A clerk that keeps nothing makes the query an entry, touches it, and reads it.
fn touch_and_read<G: Gate, R: Wait + Abort>(rt: &R, clerk: &mut Clerk<G>)
    requires nothing { HoldsNothing (sight_of clerk.old) }
    requires spare { 2 ≤ (sight_of clerk.old).spare }
{
    let place = take_one(rt, clerk);
    confirm_query(rt, clerk, place);
    touch_answer(rt, clerk, place);
    read_answered(rt, clerk, place);
}

/// The answer to a query touches its entry, which then is known as answered.
#[test]
fn an_entry_is_touched_and_read(rt: HostRuntime) -> Result<(), Fail> {
    let (tracker, spot) = tracker_of(rt.alloc(), sizes())?;
    let mut clerk = ready_clerk(&tracker, spot, &NoGate, 2)?;
    touch_and_read(&rt, &mut clerk);
    Ok(())
}
