//! The entry of one clerk expects a connection again and again, while another clerk claims it, each on a thread of its own.

ghost use Rattle.std.specs.Prelude.{◌≡◌, ◌+◌, ◌≤◌, true, Some, [], None, IfOk};
ghost use Rattle.clerk_tests.specs.Crew.{IsFirst};
ghost use Rattle.history_book.specs.Close.{CanClose};
ghost use Rattle.history_book.specs.Entry.{is_helped_entry};
ghost use Rattle.history_book.specs.Held.{is_held, without};
ghost use Rattle.history_book.specs.Places.{HoldsNothing, HoldsOne};
ghost use Rattle.history_book.specs.WentOn.{IsSamePass};
ghost use Rattle.shared_desk.specs.Sights.{sight_of};

use super::expectations::{expect, master, sizes_for, wanted};
use super::flows::give_up;
use super::pair::{Pair, Rest, make_room, pair_of, rejoined, tracker_of};
use ct_io::NoGate;
use history_book::desk::Desk;
use history_book::event::{Event, Note};
use history_book::outcome::{ClaimOutcome, ConfirmOutcome, TakeOutcome};
use history_book::report::Notes;
use shared_desk::clerk::Clerk;
use shared_desk::tracker::{Spot, Tracker};
use std::alloc::Global;
use std::process::Abort;
use std::sync::Wait;
use std::test::Fail;
use std::thread;
use std::thread::{Threads, join_mut};
use tuple_core::NoMemory;

/// How often the connection is expected, and how often it is claimed.
const ROUNDS: u32 = 100_000;

/// The port of the connection.
const PORT: u16 = 2001;

/// The entry of this id, whose place is the only one that the clerk holds, expects the connection in each round.
fn expect_rounds<R: Wait>(rt: &R, clerk: &mut Clerk<NoGate>, place: u32, id: u64)
    requires one { HoldsOne (record { place = place; id = Some id }) (sight_of clerk.old) }
    requires helper { is_helped_entry id (sight_of clerk.old).front ≡ true }
    requires spare { 100000 ≤ (sight_of clerk.old).spare }
    ensures one { HoldsOne (record { place = place; id = Some id }) (sight_of clerk.new) }
    ensures same { IsSamePass (sight_of clerk.old) (sight_of clerk.new) }
{
    'rounds: for round in 0..ROUNDS {
        let _ = expect(rt, clerk, place, id, PORT, u64::from(round));
    }
}

/// A clerk makes an entry in the one place that it has taken, which expects the connection in each round.
fn confirm_and_expect<R: Wait>(rt: &R, clerk: &mut Clerk<NoGate>, place: u32)
    requires one { HoldsOne (record { place = place; id = None }) (sight_of clerk.old) }
    requires spare { 100001 ≤ (sight_of clerk.old).spare }
    ensures held { is_held place (sight_of clerk.new).held ≡ true }
    ensures only { without place (sight_of clerk.new).held ≡ [] }
    ensures owed { (sight_of clerk.new).owed ≡ [] }
    ensures same { IsSamePass (sight_of clerk.old) (sight_of clerk.new) }
{
    let ConfirmOutcome::Confirmed { id } = clerk.confirm(rt, place, &master(5000)) else {
        return;
    };
    expect_rounds(rt, clerk, place, id);
}

/// A clerk makes an entry, which expects the connection in each round, and gives its place up.
fn expect_all<R: Wait>(rt: &R, clerk: &mut Clerk<NoGate>) -> Result<(), NoMemory>
    requires nothing { HoldsNothing (sight_of clerk.old) }
    requires own { (sight_of clerk.old).own ≡ [] }
    ensures nothing { HoldsNothing (sight_of clerk.new) }
    ensures same { IsSamePass (sight_of clerk.old) (sight_of clerk.new) }
{
    make_room(clerk, u64::from(ROUNDS) + 1)?;
    let TakeOutcome::Taken { place } = clerk.take(rt) else {
        return Ok(());
    };
    confirm_and_expect(rt, clerk, place);
    give_up(rt, clerk, place);
    Ok(())
}

/// A clerk claims the connection in each round. Where it is not expected the other thread may run first.
fn claim_all<R: Wait>(rt: &R, clerk: &mut Clerk<NoGate>) -> Result<(), NoMemory>
    requires nothing { HoldsNothing (sight_of clerk.old) }
    requires own { (sight_of clerk.old).own ≡ [] }
    ensures nothing { HoldsNothing (sight_of clerk.new) }
    ensures same { IsSamePass (sight_of clerk.old) (sight_of clerk.new) }
{
    make_room(clerk, u64::from(ROUNDS))?;
    'rounds: for round in 0..ROUNDS {
        let outcome = clerk.claim(rt, &wanted(PORT), u64::from(round));
        if let ClaimOutcome::Unclaimed { .. } = outcome {
            thread::yield_now();
        }
    }
    Ok(())
}

/// The two clerks, each on a thread of its own.
fn both_run<R: Threads + Wait + Sync>(
    rt: &R,
    one: &mut Clerk<NoGate>,
    two: &mut Clerk<NoGate>,
) -> Result<(), NoMemory>
    requires nothing { HoldsNothing (sight_of one.old) × HoldsNothing (sight_of two.old) }
    requires own { ((sight_of one.old).own ≡ []) × ((sight_of two.old).own ≡ []) }
    ensures nothing { HoldsNothing (sight_of one.new) × HoldsNothing (sight_of two.new) }
    ensures same { IsSamePass (sight_of one.old) (sight_of one.new) × IsSamePass (sight_of two.old) (sight_of two.new) }
{
    let (one, two) = join_mut(
        rt,
        &mut ||
            requires nothing { HoldsNothing (sight_of one.now) }
            requires own { (sight_of one.now).own ≡ [] }
            ensures nothing { HoldsNothing (sight_of one.exit.now) }
            ensures same { IsSamePass (sight_of one.entry.now) (sight_of one.exit.now) }
        { expect_all(rt, one) },
        &mut ||
            requires nothing { HoldsNothing (sight_of two.now) }
            requires own { (sight_of two.now).own ≡ [] }
            ensures nothing { HoldsNothing (sight_of two.exit.now) }
            ensures same { IsSamePass (sight_of two.entry.now) (sight_of two.exit.now) }
        { claim_all(rt, two) },
    );
    one?;
    two
}

/// An event as it is entered: the entry began, it expects the connection in place of an older expectation or of none, or an expectation
/// was claimed.
#[derive(Clone, Copy)]
enum Made {
    Began,
    Expected { replaced: Option<u64> },
    Claimed { expectation: u64 },
}

/// What an event is here.
fn made_by(note: &Note) -> Option<Made> {
    match note.event {
        Event::Confirm { .. } => Some(Made::Began),
        Event::Expect {
            expectation,
            replaced,
            ..
        } if expectation.id == note.number => Some(Made::Expected { replaced }),
        Event::Claim { expectation, .. } => Some(Made::Claimed { expectation }),
        _ => None,
    }
}

/// Enters all events of a clerk under their numbers, which no other ones have.
fn enter_all(events: &mut [Option<Made>], notes: &Notes) -> bool {
    'notes: for index in 0..notes.len() {
        let note = notes.at(index);
        let number = note.number as usize;
        if number >= events.len() || events[number].is_some() {
            return false;
        }
        events[number] = made_by(&note);
    }
    true
}

/// What is expected behind the event of this number, by the history alone. None is that the event was not right: each expectation takes
/// the place of the one before, and what is claimed is expected.
fn step(expected: Option<u64>, number: u64, made: Option<Made>) -> Option<Option<u64>> {
    match made {
        Some(Made::Began) => Some(expected),
        Some(Made::Expected { replaced }) if replaced == expected => Some(Some(number)),
        Some(Made::Claimed { expectation }) if expected == Some(expectation) => Some(None),
        _ => None,
    }
}

/// Whether all events are there, and right.
fn are_right(events: &[Option<Made>]) -> bool {
    let mut expected = None;
    'numbers: for number in 0..events.len() {
        let Some(next) = step(expected, number as u64, events[number]) else {
            return false;
        };
        expected = next;
    }
    true
}

/// Asserts that all events of the two clerks are there, and right.
fn check_events<R: Abort>(
    rt: &R,
    alloc: Global,
    count: u64,
    first: &Notes,
    second: &Notes,
) -> Result<(), NoMemory> {
    let mut events = vec![in alloc; None; count as usize]?;
    assert!(rt; enter_all(&mut events, first));
    assert!(rt; enter_all(&mut events, second));
    assert!(rt; are_right(&events));
    Ok(())
}

/// The clerks of a tracker, each on a thread of its own, and what is left of them.
fn run_and_join<R: Threads + Wait + Sync>(
    rt: &R,
    tracker: &Tracker,
    spot: Spot,
) -> Result<Rest, NoMemory>
    requires first { IsFirst tracker.now (sight_of spot) }
    requires passes { (sight_of spot).sizes.passes ≡ 2 }
    ensures { IfOk result (λ rest. CanClose tracker.now (sight_of rest.spot)) }
{
    let Pair { mut one, mut two } = pair_of(tracker, spot, &NoGate);
    both_run(rt, &mut one, &mut two)?;
    Ok(rejoined(tracker, Pair { one, two }))
}

/// While one thread makes its entry expect a connection 100,000 times, another claims it 100,000 times. However they run: each claim is of
/// an expectation that was made and not replaced since, and no two are of one.
#[test]
fn each_expectation_is_claimed_once(rt: HostRuntime) -> Result<(), Fail> {
    let (tracker, spot) = tracker_of(rt.alloc(), sizes_for(1))?;
    let Rest { spot, second } = run_and_join(&rt, &tracker, spot)?;
    let closed = tracker.close(spot);
    assert_eq!(rt; closed.live, 1);
    Ok(check_events(&rt, rt.alloc(), closed.events, &closed.notes, &second)?)
}
