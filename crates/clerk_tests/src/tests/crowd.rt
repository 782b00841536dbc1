//! Four clerks, each on a thread of its own, confirm flows of which each pair of threads shares some.

ghost use Rattle.std.specs.Prelude.{◌≡◌, ◌≤◌, true, []};
ghost use Rattle.history_book.specs.Entry.{is_lawful_flow};
ghost use Rattle.history_book.specs.Close.{CanClose};
ghost use Rattle.history_book.specs.Places.{HoldsNothing};
ghost use Rattle.history_book.specs.Sizes.{AreWithinLimits};
ghost use Rattle.history_book.specs.WentOn.{IsSamePass};
ghost use Rattle.shared_desk.specs.Sights.{sight_of};
ghost use Rattle.clerk_tests.specs.Crew.{IsFirst, IsMember, IsNew};

use super::flows::{answer, flow, udp};
use super::pair::{make_room, tracker_of};
use checks::{Found, are_right, enter_all, nothing_found};
use ct_io::NoGate;
use history_book::desk::Desk;
use history_book::outcome::ConfirmOutcome;
use history_book::record::Flow;
use history_book::report::{Closed, Notes};
use history_book::sizes::Sizes;
use room_list::RoomList;
use shared_desk::clerk::Clerk;
use shared_desk::tracker::{Spot, Tracker};
use std::alloc::Global;
use std::process::Abort;
use std::sync::Wait;
use std::test::Fail;
use std::thread::{Threads, join_mut};
use tuple_core::NoMemory;

mod checks;

/// How many flows each thread confirms.
const FLOWS: u16 = 4_000;

/// How many different ones these are: of each thread half are its own, and each other one is of two threads.
const DIFFERENT: u16 = 12_000;

/// What a thread was answered, in the order of its flows.
type Answers = RoomList<ConfirmOutcome>;

/// A pool with room for all flows, for four passes.
fn sizes() -> Sizes
    ensures limits { AreWithinLimits result }
    ensures passes { result.passes ≡ 4 }
{
    Sizes {
        entries: 16_384,
        buckets: 1_024,
        seed: 1,
        passes: 4,
        expectations: 0,
    }
}

/// The thread after which the flow of this index is named. Every other flow is the thread's own; the rest it shares with the
/// other threads in turn, and they are named after the lower of the two. Threads are 0 to 3.
fn owner_of(thread: u8, index: u16) -> u8 {
    let other = thread ^ (1 + (index / 2 % 3) as u8);
    if index % 2 == 0 && other < thread {
        other
    } else {
        thread
    }
}

/// The flow of this index that is named after a thread.
fn flow_of(owner: u8, index: u16) -> Flow
    ensures { is_lawful_flow result ≡ true }
{
    let address = 0x0a00_0000 + u32::from(owner) * 0x1_0000 + u32::from(index);
    flow(
        udp(address, 5000, 0x0b00_0001, 53),
        udp(0x0b00_0001, 53, address, 5000),
    )
}

/// Confirms all flows of a thread. Gives what it was answered, which ends early where no place was free.
fn confirm_all<R: Wait>(
    rt: &R,
    alloc: Global,
    clerk: &mut Clerk<NoGate>,
    thread: u8,
) -> Result<Answers, NoMemory>
    requires nothing { HoldsNothing (sight_of clerk.old) }
    requires own { (sight_of clerk.old).own ≡ [] }
    ensures nothing { HoldsNothing (sight_of clerk.new) }
    ensures same { IsSamePass (sight_of clerk.old) (sight_of clerk.new) }
{
    let mut answers = Answers::new(alloc, usize::from(FLOWS))?;
    make_room(clerk, u64::from(FLOWS))?;
    'flows: for index in 0..FLOWS {
        let flow = flow_of(owner_of(thread, index), index);
        let Some(outcome) = answer(rt, clerk, &flow) else {
            return Ok(answers);
        };
        answers.push(outcome);
    }
    Ok(answers)
}

/// What two threads were answered.
#[derive(Drop)]
struct Pair {
    one: Result<Answers, NoMemory>,
    two: Result<Answers, NoMemory>,
}

/// Two clerks confirm the flows of this thread and of the next one, each on a thread of its own.
fn two_confirm<R: Threads + Wait + Sync>(
    rt: &R,
    alloc: Global,
    one: &mut Clerk<NoGate>,
    two: &mut Clerk<NoGate>,
    thread: u8,
) -> Pair
    requires nothing { HoldsNothing (sight_of one.old) × HoldsNothing (sight_of two.old) }
    requires own { ((sight_of one.old).own ≡ []) × ((sight_of two.old).own ≡ []) }
    requires few { thread ≤ 2 }
    ensures nothing { HoldsNothing (sight_of one.new) × HoldsNothing (sight_of two.new) }
    ensures same { IsSamePass (sight_of one.old) (sight_of one.new) × IsSamePass (sight_of two.old) (sight_of two.new) }
{
    let (one, two) = join_mut(
        rt,
        &mut ||
            requires nothing { HoldsNothing (sight_of one.now) }
            requires own { (sight_of one.now).own ≡ [] }
            ensures nothing { HoldsNothing (sight_of one.exit.now) }
            ensures same { IsSamePass (sight_of one.entry.now) (sight_of one.exit.now) }
        { confirm_all(rt, alloc, one, thread) },
        &mut ||
            requires nothing { HoldsNothing (sight_of two.now) }
            requires own { (sight_of two.now).own ≡ [] }
            requires few { thread ≤ 2 }
            ensures nothing { HoldsNothing (sight_of two.exit.now) }
            ensures same { IsSamePass (sight_of two.entry.now) (sight_of two.exit.now) }
        { confirm_all(rt, alloc, two, thread + 1) },
    );
    Pair { one, two }
}

/// What four threads were answered.
#[derive(Drop)]
struct Told {
    lower: Pair,
    upper: Pair,
}

/// Four clerks confirm the flows of the threads 0 to 3, each on a thread of its own.
fn four_confirm<R: Threads + Wait + Sync>(
    rt: &R,
    alloc: Global,
    one: &mut Clerk<NoGate>,
    two: &mut Clerk<NoGate>,
    three: &mut Clerk<NoGate>,
    four: &mut Clerk<NoGate>,
) -> Told
    requires lower { HoldsNothing (sight_of one.old) × HoldsNothing (sight_of two.old) }
    requires upper { HoldsNothing (sight_of three.old) × HoldsNothing (sight_of four.old) }
    requires lower_own { ((sight_of one.old).own ≡ []) × ((sight_of two.old).own ≡ []) }
    requires upper_own { ((sight_of three.old).own ≡ []) × ((sight_of four.old).own ≡ []) }
    ensures lower { HoldsNothing (sight_of one.new) × HoldsNothing (sight_of two.new) }
    ensures upper { HoldsNothing (sight_of three.new) × HoldsNothing (sight_of four.new) }
    ensures lower_same { IsSamePass (sight_of one.old) (sight_of one.new) × IsSamePass (sight_of two.old) (sight_of two.new) }
    ensures upper_same { IsSamePass (sight_of three.old) (sight_of three.new) × IsSamePass (sight_of four.old) (sight_of four.new) }
{
    let (lower, upper) = join_mut(
        rt,
        &mut ||
            requires nothing { HoldsNothing (sight_of one.now) × HoldsNothing (sight_of two.now) }
            requires own { ((sight_of one.now).own ≡ []) × ((sight_of two.now).own ≡ []) }
            ensures nothing { HoldsNothing (sight_of one.exit.now) × HoldsNothing (sight_of two.exit.now) }
            ensures same { IsSamePass (sight_of one.entry.now) (sight_of one.exit.now) × IsSamePass (sight_of two.entry.now) (sight_of two.exit.now) }
        { two_confirm(rt, alloc, one, two, 0) },
        &mut ||
            requires nothing { HoldsNothing (sight_of three.now) × HoldsNothing (sight_of four.now) }
            requires own { ((sight_of three.now).own ≡ []) × ((sight_of four.now).own ≡ []) }
            ensures nothing { HoldsNothing (sight_of three.exit.now) × HoldsNothing (sight_of four.exit.now) }
            ensures same { IsSamePass (sight_of three.entry.now) (sight_of three.exit.now) × IsSamePass (sight_of four.entry.now) (sight_of four.exit.now) }
        { two_confirm(rt, alloc, three, four, 2) },
    );
    Told { lower, upper }
}

/// The clerks of four threads.
#[derive(Drop)]
pub struct Crew<'t> {
    pub one: Clerk<'t, NoGate>,
    pub two: Clerk<'t, NoGate>,
    pub three: Clerk<'t, NoGate>,
    pub four: Clerk<'t, NoGate>,
}

/// The first clerk of a tracker, and three to which it hands over a share each.
pub fn crew_of<'t>(tracker: &'t Tracker, spot: Spot) -> Crew<'t>
    requires first { IsFirst tracker.now (sight_of spot) }
    requires passes { (sight_of spot).sizes.passes ≡ 4 }
    ensures one { IsNew tracker.now (sight_of result.one) }
    ensures two { IsNew tracker.now (sight_of result.two) }
    ensures three { IsNew tracker.now (sight_of result.three) }
    ensures four { IsNew tracker.now (sight_of result.four) }
{
    let mut one = tracker.clerk(spot, &NoGate, 0);
    let two = one.split(1, 1);
    let three = one.split(2, 1);
    let four = one.split(3, 1);
    Crew {
        one,
        two,
        three,
        four,
    }
}

/// The clerks of a tracker confirm their flows.
fn all_confirm<'t, R: Threads + Wait + Sync>(
    rt: &R,
    alloc: Global,
    tracker: &Tracker,
    crew: Crew<'t>,
) -> (Crew<'t>, Told)
    requires one { IsNew tracker.now (sight_of crew.one) }
    requires two { IsNew tracker.now (sight_of crew.two) }
    requires three { IsNew tracker.now (sight_of crew.three) }
    requires four { IsNew tracker.now (sight_of crew.four) }
    ensures one { IsMember tracker.now (sight_of result.0.one) }
    ensures two { IsMember tracker.now (sight_of result.0.two) }
    ensures three { IsMember tracker.now (sight_of result.0.three) }
    ensures four { IsMember tracker.now (sight_of result.0.four) }
{
    let _ = tracker;
    let Crew {
        mut one,
        mut two,
        mut three,
        mut four,
    } = crew;
    let told = four_confirm(rt, alloc, &mut one, &mut two, &mut three, &mut four);
    let crew = Crew {
        one,
        two,
        three,
        four,
    };
    (crew, told)
}

/// What is left of the four clerks: the first one's spot, and the events of the others.
#[derive(Drop)]
pub struct Left {
    pub spot: Spot,
    pub second: Notes,
    pub third: Notes,
    pub fourth: Notes,
}

/// The first clerk of a tracker takes in the others, and is left.
pub fn joined(tracker: &Tracker, crew: Crew) -> Left
    requires one { IsMember tracker.now (sight_of crew.one) }
    requires two { IsMember tracker.now (sight_of crew.two) }
    requires three { IsMember tracker.now (sight_of crew.three) }
    requires four { IsMember tracker.now (sight_of crew.four) }
    ensures { CanClose tracker.now (sight_of result.spot) }
{
    let _ = tracker;
    let Crew {
        mut one,
        two,
        three,
        four,
    } = crew;
    let second = one.join(two);
    let third = one.join(three);
    let fourth = one.join(four);
    Left {
        spot: one.leave(),
        second,
        third,
        fourth,
    }
}

/// What a tracker leaves at its end, with the events of the first clerk, and those of the others.
#[derive(Drop)]
pub struct Ended {
    pub closed: Closed,
    pub second: Notes,
    pub third: Notes,
    pub fourth: Notes,
}

/// The tracker of the clerks ends.
pub fn finish(tracker: Tracker, left: Left) -> Ended
    requires { CanClose tracker (sight_of left.spot) }
{
    let Left {
        spot,
        second,
        third,
        fourth,
    } = left;
    Ended {
        closed: tracker.close(spot),
        second,
        third,
        fourth,
    }
}

/// The events of the four clerks, in the order of their threads, entered under their numbers and flows. None where one was entered
/// before.
fn entered(alloc: Global, ended: &Ended) -> Result<Option<Found>, NoMemory> {
    let mut found = nothing_found(alloc)?;
    let is_new = enter_all(&mut found, 0, &ended.closed.notes)
        && enter_all(&mut found, 1, &ended.second)
        && enter_all(&mut found, 2, &ended.third)
        && enter_all(&mut found, 3, &ended.fourth);
    Ok(if is_new { Some(found) } else { None })
}

/// Whether all that the four threads were answered is right.
fn all_are_right(found: &Found, told: Told) -> Result<bool, NoMemory> {
    let Told { lower, upper } = told;
    let (first, second) = (lower.one?, lower.two?);
    let (third, fourth) = (upper.one?, upper.two?);
    Ok(
        are_right(found, 0, &first)
            && are_right(found, 1, &second)
            && are_right(found, 2, &third)
            && are_right(found, 3, &fourth),
    )
}

/// The clerks of a tracker confirm their flows, and are joined.
fn confirm_and_join<R: Threads + Wait + Sync>(
    rt: &R,
    alloc: Global,
    tracker: &Tracker,
    spot: Spot,
) -> (Left, Told)
    requires first { IsFirst tracker.now (sight_of spot) }
    requires passes { (sight_of spot).sizes.passes ≡ 4 }
    ensures { CanClose tracker.now (sight_of result.0.spot) }
{
    let crew = crew_of(tracker, spot);
    let (crew, told) = all_confirm(rt, alloc, tracker, crew);
    (joined(tracker, crew), told)
}

/// Asserts that each flow has one event, and that all that the four threads were answered is right.
fn check_answers<R: Abort>(
    rt: &R,
    alloc: Global,
    ended: &Ended,
    told: Told,
) -> Result<(), NoMemory> {
    assert_eq!(rt; ended.closed.events, u64::from(DIFFERENT));
    assert_eq!(rt; ended.closed.live, u32::from(DIFFERENT));
    let Some(found) = entered(alloc, ended)? else {
        panic!(rt; "an event was made twice");
    };
    assert_eq!(rt; found.events, ended.closed.events);
    assert!(rt; all_are_right(&found, told)?);
    Ok(())
}

/// The four threads confirm 4,000 flows each, of which each shares 2,000 with others. However they run: every flow is
/// confirmed once, by one of its threads, the numbers of the events are 0 to 11,999, each once, and the other thread that
/// confirms a flow is told of that very entry, at a point above its number.
#[test]
fn each_shared_flow_is_confirmed_once(rt: HostRuntime) -> Result<(), Fail> {
    let (tracker, spot) = tracker_of(rt.alloc(), sizes())?;
    let (left, told) = confirm_and_join(&rt, rt.alloc(), &tracker, spot);
    let ended = finish(tracker, left);
    check_answers(&rt, rt.alloc(), &ended, told)?;
    Ok(())
}
