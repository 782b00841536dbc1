//! Two clerks look for flows, each on a thread of its own, while two others confirm and destroy them in the same buckets.

ghost use Rattle.std.specs.Prelude.{◌≡◌, ◌+◌, ◌≤◌, ◌<◌, true, [], Some, None};
ghost use Rattle.history_book.specs.Entry.{is_lawful_flow};
ghost use Rattle.history_book.specs.Held.{is_held, without};
ghost use Rattle.history_book.specs.Places.{HoldsNothing, HoldsOne};
ghost use Rattle.history_book.specs.Sizes.{AreWithinLimits};
ghost use Rattle.history_book.specs.WentOn.{IsSamePass};
ghost use Rattle.shared_desk.specs.Sights.{sight_of};
ghost use Rattle.clerk_tests.specs.Crew.{IsFirst, IsMember, IsNew};
ghost use Rattle.history_book.specs.Close.{CanClose};

use super::crowd::{Crew, Ended, Left, crew_of, finish, joined};
use super::flows::{flow, give_up, look, udp};
use super::pair::{make_room, tracker_of};
use bucket_table::finding::FindOnce;
use checks::{History, are_right, history_of, unknown};
use ct_io::NoGate;
use history_book::desk::Desk;
use history_book::event::Why;
use history_book::outcome::{ConfirmOutcome, TakeOutcome};
use history_book::record::Flow;
use history_book::report::Notes;
use history_book::sizes::Sizes;
use room_list::RoomList;
use shared_desk::clerk::Clerk;
use shared_desk::tracker::{Spot, Tracker};
use std::alloc::Global;
use std::process::Abort;
use std::sync::Wait;
use std::test::Fail;
use std::thread::{Threads, join_mut};
use tuple_core::{Direction, NoMemory, Tuple};

mod checks;

/// How often each of the four threads does its work: a million rounds in all.
const ROUNDS: u32 = 250_000;

/// How many flows there are. Each writer has every other one of them.
const FLOWS: u32 = 4;

/// What a reader was answered of the tuple of a flow in this direction.
#[derive(Clone, Copy)]
struct Report {
    flow: u32,
    direction: Direction,
    outcome: FindOnce,
}

/// What a reader was answered, in order.
type Reports = RoomList<Report>;

/// A pool with few buckets, for four passes.
fn sizes() -> Sizes
    ensures limits { AreWithinLimits result }
    ensures passes { result.passes ≡ 4 }
{
    Sizes {
        entries: 16,
        buckets: 2,
        seed: 1,
        passes: 4,
        expectations: 0,
    }
}

/// The flow of this number.
fn flow_of(number: u32) -> Flow
    ensures protocol { is_lawful_flow result ≡ true }
{
    let port = (number % FLOWS) as u16;
    flow(
        udp(0x0a00_0001, port, 0x0a00_0002, 53),
        udp(0x0a00_0002, 53, 0x0a00_0001, port),
    )
}

/// The tuple of a flow in a direction.
fn tuple_of(flow: &Flow, direction: Direction) -> Tuple {
    match direction {
        Direction::Original => flow.original,
        Direction::Reply => flow.reply,
    }
}

/// Destroys the entry of this id, whose place is the only one that the clerk holds, unless another clerk has done so.
fn kill<R: Wait>(rt: &R, clerk: &mut Clerk<NoGate>, place: u32, id: u64)
    requires one { HoldsOne (record { place = place; id = Some id }) (sight_of clerk.old) }
    requires spare { 1 ≤ (sight_of clerk.old).spare }
    ensures one { HoldsOne (record { place = place; id = Some id }) (sight_of clerk.new) }
    ensures same { IsSamePass (sight_of clerk.old) (sight_of clerk.new) }
    ensures spare { (sight_of clerk.old).spare ≤ (sight_of clerk.new).spare + 1 }
{
    let _ = id;
    let _ = clerk.kill(rt, place, Why::Flushed);
}

/// Confirms a flow in the one place that the clerk has taken, and destroys it again.
fn confirm_and_kill<R: Wait>(rt: &R, clerk: &mut Clerk<NoGate>, place: u32, flow: &Flow)
    requires one { HoldsOne (record { place = place; id = None }) (sight_of clerk.old) }
    requires protocol { is_lawful_flow flow.now ≡ true }
    requires spare { 2 ≤ (sight_of clerk.old).spare }
    ensures held { is_held place (sight_of clerk.new).held ≡ true }
    ensures only { without place (sight_of clerk.new).held ≡ [] }
    ensures owed { (sight_of clerk.new).owed ≡ [] }
    ensures same { IsSamePass (sight_of clerk.old) (sight_of clerk.new) }
    ensures spare { (sight_of clerk.old).spare ≤ (sight_of clerk.new).spare + 2 }
{
    let ConfirmOutcome::Confirmed { id } = clerk.confirm(rt, place, flow) else {
        return;
    };
    kill(rt, clerk, place, id);
}

/// Confirms a flow and destroys it again.
fn write_once<R: Wait>(rt: &R, clerk: &mut Clerk<NoGate>, flow: &Flow)
    requires nothing { HoldsNothing (sight_of clerk.old) }
    requires protocol { is_lawful_flow flow.now ≡ true }
    requires spare { 2 ≤ (sight_of clerk.old).spare }
    ensures nothing { HoldsNothing (sight_of clerk.new) }
    ensures same { IsSamePass (sight_of clerk.old) (sight_of clerk.new) }
    ensures spare { (sight_of clerk.old).spare ≤ (sight_of clerk.new).spare + 2 }
{
    let TakeOutcome::Taken { place } = clerk.take(rt) else {
        return;
    };
    confirm_and_kill(rt, clerk, place, flow);
    give_up(rt, clerk, place);
}

/// A writer confirms and destroys its flows in turn, this one first.
fn write_all<R: Wait>(rt: &R, clerk: &mut Clerk<NoGate>, first: u32) -> Result<(), NoMemory>
    requires nothing { HoldsNothing (sight_of clerk.old) }
    requires own { (sight_of clerk.old).own ≡ [] }
    requires first { first < 4 }
    ensures nothing { HoldsNothing (sight_of clerk.new) }
    ensures same { IsSamePass (sight_of clerk.old) (sight_of clerk.new) }
{
    make_room(clerk, u64::from(2 * ROUNDS))?;
    'rounds: for round in 0..ROUNDS {
        write_once(rt, clerk, &flow_of(first + 2 * (round % 2)));
    }
    Ok(())
}

/// A reader looks for the flows in turn, each in both directions.
fn read_all<R: Wait>(rt: &R, alloc: Global, clerk: &mut Clerk<NoGate>) -> Result<Reports, NoMemory>
    requires nothing { HoldsNothing (sight_of clerk.old) }
    ensures nothing { HoldsNothing (sight_of clerk.new) }
    ensures same { IsSamePass (sight_of clerk.old) (sight_of clerk.new) }
{
    let mut reports = Reports::new(alloc, ROUNDS as usize)?;
    'rounds: for round in 0..ROUNDS {
        let direction = if round % 2 == 0 {
            Direction::Original
        } else {
            Direction::Reply
        };
        let flow = round / 2 % FLOWS;
        let outcome = look(rt, clerk, &tuple_of(&flow_of(flow), direction));
        reports.push(Report {
            flow,
            direction,
            outcome,
        });
    }
    Ok(reports)
}

/// Two writers, each on a thread of its own.
fn two_write<R: Threads + Wait + Sync>(
    rt: &R,
    one: &mut Clerk<NoGate>,
    two: &mut Clerk<NoGate>,
) -> Result<(), NoMemory>
    requires nothing { HoldsNothing (sight_of one.old) × HoldsNothing (sight_of two.old) }
    requires own { ((sight_of one.old).own ≡ []) × ((sight_of two.old).own ≡ []) }
    ensures nothing { HoldsNothing (sight_of one.new) × HoldsNothing (sight_of two.new) }
    ensures same { IsSamePass (sight_of one.old) (sight_of one.new) × IsSamePass (sight_of two.old) (sight_of two.new) }
{
    let (one, two) = join_mut(
        rt,
        &mut ||
            requires nothing { HoldsNothing (sight_of one.now) }
            requires own { (sight_of one.now).own ≡ [] }
            ensures nothing { HoldsNothing (sight_of one.exit.now) }
            ensures same { IsSamePass (sight_of one.entry.now) (sight_of one.exit.now) }
        { write_all(rt, one, 0) },
        &mut ||
            requires nothing { HoldsNothing (sight_of two.now) }
            requires own { (sight_of two.now).own ≡ [] }
            ensures nothing { HoldsNothing (sight_of two.exit.now) }
            ensures same { IsSamePass (sight_of two.entry.now) (sight_of two.exit.now) }
        { write_all(rt, two, 1) },
    );
    one?;
    two
}

/// What two readers were answered.
#[derive(Drop)]
struct Pair {
    one: Result<Reports, NoMemory>,
    two: Result<Reports, NoMemory>,
}

/// Two readers, each on a thread of its own.
fn two_read<R: Threads + Wait + Sync>(
    rt: &R,
    alloc: Global,
    one: &mut Clerk<NoGate>,
    two: &mut Clerk<NoGate>,
) -> Pair
    requires nothing { HoldsNothing (sight_of one.old) × HoldsNothing (sight_of two.old) }
    ensures nothing { HoldsNothing (sight_of one.new) × HoldsNothing (sight_of two.new) }
    ensures same { IsSamePass (sight_of one.old) (sight_of one.new) × IsSamePass (sight_of two.old) (sight_of two.new) }
{
    let (one, two) = join_mut(
        rt,
        &mut ||
            requires nothing { HoldsNothing (sight_of one.now) }
            ensures nothing { HoldsNothing (sight_of one.exit.now) }
            ensures same { IsSamePass (sight_of one.entry.now) (sight_of one.exit.now) }
        { read_all(rt, alloc, one) },
        &mut ||
            requires nothing { HoldsNothing (sight_of two.now) }
            ensures nothing { HoldsNothing (sight_of two.exit.now) }
            ensures same { IsSamePass (sight_of two.entry.now) (sight_of two.exit.now) }
        { read_all(rt, alloc, two) },
    );
    Pair { one, two }
}

/// What became of the writers, and what the readers were answered.
#[derive(Drop)]
struct Told {
    written: Result<(), NoMemory>,
    read: Pair,
}

/// The first two clerks write, and the others read.
fn four_run<R: Threads + Wait + Sync>(
    rt: &R,
    alloc: Global,
    one: &mut Clerk<NoGate>,
    two: &mut Clerk<NoGate>,
    three: &mut Clerk<NoGate>,
    four: &mut Clerk<NoGate>,
) -> Told
    requires lower { HoldsNothing (sight_of one.old) × HoldsNothing (sight_of two.old) }
    requires upper { HoldsNothing (sight_of three.old) × HoldsNothing (sight_of four.old) }
    requires own { ((sight_of one.old).own ≡ []) × ((sight_of two.old).own ≡ []) }
    ensures lower { HoldsNothing (sight_of one.new) × HoldsNothing (sight_of two.new) }
    ensures upper { HoldsNothing (sight_of three.new) × HoldsNothing (sight_of four.new) }
    ensures lower_same { IsSamePass (sight_of one.old) (sight_of one.new) × IsSamePass (sight_of two.old) (sight_of two.new) }
    ensures upper_same { IsSamePass (sight_of three.old) (sight_of three.new) × IsSamePass (sight_of four.old) (sight_of four.new) }
{
    let (written, read) = join_mut(
        rt,
        &mut ||
            requires nothing { HoldsNothing (sight_of one.now) × HoldsNothing (sight_of two.now) }
            requires own { ((sight_of one.now).own ≡ []) × ((sight_of two.now).own ≡ []) }
            ensures nothing { HoldsNothing (sight_of one.exit.now) × HoldsNothing (sight_of two.exit.now) }
            ensures same { IsSamePass (sight_of one.entry.now) (sight_of one.exit.now) × IsSamePass (sight_of two.entry.now) (sight_of two.exit.now) }
        { two_write(rt, one, two) },
        &mut ||
            requires nothing { HoldsNothing (sight_of three.now) × HoldsNothing (sight_of four.now) }
            ensures nothing { HoldsNothing (sight_of three.exit.now) × HoldsNothing (sight_of four.exit.now) }
            ensures same { IsSamePass (sight_of three.entry.now) (sight_of three.exit.now) × IsSamePass (sight_of four.entry.now) (sight_of four.exit.now) }
        { two_read(rt, alloc, three, four) },
    );
    Told { written, read }
}

/// The clerks of a tracker write and read.
fn all_run<'t, R: Threads + Wait + Sync>(
    rt: &R,
    alloc: Global,
    tracker: &Tracker,
    crew: Crew<'t>,
) -> (Crew<'t>, Told)
    requires one { IsNew tracker.now (sight_of crew.one) }
    requires two { IsNew tracker.now (sight_of crew.two) }
    requires three { IsNew tracker.now (sight_of crew.three) }
    requires four { IsNew tracker.now (sight_of crew.four) }
    ensures one { IsMember tracker.now (sight_of result.0.one) }
    ensures two { IsMember tracker.now (sight_of result.0.two) }
    ensures three { IsMember tracker.now (sight_of result.0.three) }
    ensures four { IsMember tracker.now (sight_of result.0.four) }
{
    let _ = tracker;
    let Crew {
        mut one,
        mut two,
        mut three,
        mut four,
    } = crew;
    let told = four_run(rt, alloc, &mut one, &mut two, &mut three, &mut four);
    let crew = Crew {
        one,
        two,
        three,
        four,
    };
    (crew, told)
}

/// The history of these events of the two writers, of which there are so many. None where one is not legal.
fn history_with(
    alloc: Global,
    first: &Notes,
    second: &Notes,
    events: u64,
) -> Result<Option<History>, NoMemory> {
    let mut all = unknown(alloc, events)?;
    if all.enter_all(first) && all.enter_all(second) {
        return history_of(alloc, &all);
    }
    Ok(None)
}

/// Whether all that the two readers were answered is right.
fn both_are_right(history: &History, read: Pair) -> Result<bool, NoMemory> {
    let (one, two) = (read.one?, read.two?);
    Ok(are_right(history, &one) && are_right(history, &two))
}

/// The clerks of a tracker write and read, and are joined.
fn run_and_join<R: Threads + Wait + Sync>(
    rt: &R,
    alloc: Global,
    tracker: &Tracker,
    spot: Spot,
) -> (Left, Told)
    requires first { IsFirst tracker.now (sight_of spot) }
    requires passes { (sight_of spot).sizes.passes ≡ 4 }
    ensures { CanClose tracker.now (sight_of result.0.spot) }
{
    let crew = crew_of(tracker, spot);
    let (crew, told) = all_run(rt, alloc, tracker, crew);
    (joined(tracker, crew), told)
}

/// Asserts that each event of the two writers is legal, and that all that the readers were answered is right.
fn check_reports<R: Abort>(
    rt: &R,
    alloc: Global,
    ended: &Ended,
    read: Pair,
) -> Result<(), NoMemory> {
    assert_eq!(rt; (ended.third.len(), ended.fourth.len()), (0, 0));
    let closed = &ended.closed;
    let Some(history) = history_with(alloc, &closed.notes, &ended.second, closed.events)? else {
        panic!(rt; "each event is legal");
    };
    assert_eq!(rt; history.live, closed.live);
    assert!(rt; both_are_right(&history, read)?);
    Ok(())
}

/// The same, where the writers could do their work.
fn check_told<R: Abort>(rt: &R, alloc: Global, ended: &Ended, told: Told) -> Result<(), NoMemory> {
    let Told { written, read } = told;
    written?;
    check_reports(rt, alloc, ended, read)
}

/// While two threads confirm and destroy four flows in two buckets, two others look for them: a million rounds in all. However they
/// run: at the point of each entry that was found it was live, in that place and with that tuple in that direction; and where nothing
/// was, no entry of the flow was live.
#[test]
fn what_readers_find_was_so(rt: HostRuntime) -> Result<(), Fail> {
    let (tracker, spot) = tracker_of(rt.alloc(), sizes())?;
    let (left, told) = run_and_join(&rt, rt.alloc(), &tracker, spot);
    let ended = finish(tracker, left);
    check_told(&rt, rt.alloc(), &ended, told)?;
    Ok(())
}
