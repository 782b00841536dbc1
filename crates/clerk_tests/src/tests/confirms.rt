//! Two clerks of one thread confirm flows, one after the other.

ghost use Rattle.std.specs.Prelude.{◌≡◌, ◌+◌, ◌≤◌, true, false, None};
ghost use Rattle.history_book.specs.Entry.{is_lawful_flow};
ghost use Rattle.history_book.specs.Held.{is_held};
ghost use Rattle.history_book.specs.Places.{HoldsNothing, HoldsOne};
ghost use Rattle.history_book.specs.Sizes.{AreWithinLimits};
ghost use Rattle.shared_desk.specs.Sights.{sight_of};

use super::flows::{answer, confirm_in, flow, query, udp};
use super::pair::{Pair, count_of, ready_clerk, ready_pair, tracker_of};
use super::{sixteen_buckets, sizes, take_one};
use ct_io::{Crossing, Gate, NoGate};
use history_book::desk::Desk;
use history_book::outcome::{ConfirmOutcome, ReleaseOutcome, TakeOutcome};
use history_book::record::Flow;
use history_book::sizes::Sizes;
use shared_desk::clerk::Clerk;
use std::process::Abort;
use std::sync::Wait;
use std::sync::atomic::AtomicU64;
use std::sync::atomic::Ordering::SeqCst;
use std::test::Fail;
use tuple_core::{Direction, NoMemory, bucket_of};

/// Counts how often a gate is passed within a confirm.
#[derive(Drop)]
struct Passages {
    in_confirm: AtomicU64,
}

impl Passages {
    fn new() -> Passages {
        Passages {
            in_confirm: AtomicU64::new(0),
        }
    }
}

impl Gate for Passages {
    fn at(&self, _worker: u32, crossing: Crossing) {
        if let Crossing::InConfirm = crossing {
            let _ = self.in_confirm.fetch_add(1, SeqCst);
        }
    }
}

/// A clerk that keeps nothing confirms a flow that nobody has.
pub fn make<G: Gate, R: Wait + Abort>(rt: &R, clerk: &mut Clerk<G>, flow: &Flow, id: u64)
    requires nothing { HoldsNothing (sight_of clerk.old) }
    requires protocol { is_lawful_flow flow.now ≡ true }
    requires spare { 1 ≤ (sight_of clerk.old).spare }
    ensures nothing { HoldsNothing (sight_of clerk.new) }
    ensures spare { (sight_of clerk.old).spare ≤ (sight_of clerk.new).spare + 1 }
{
    let Some(ConfirmOutcome::Confirmed { id: made }) = answer(rt, clerk, flow) else {
        panic!(rt; "nobody has the flow");
    };
    assert_eq!(rt; made, id);
}

/// What the second clerk is answered that confirms a flow after the first one confirmed two others.
fn confirm_three<G: Gate, R: Wait + Abort>(
    rt: &R,
    one: &mut Clerk<G>,
    two: &mut Clerk<G>,
    flows: (&Flow, &Flow, &Flow),
) -> ConfirmOutcome
    requires nothing { HoldsNothing (sight_of one.old) × HoldsNothing (sight_of two.old) }
    requires first { is_lawful_flow flows.0.now ≡ true }
    requires second { is_lawful_flow flows.1.now ≡ true }
    requires third { is_lawful_flow flows.2.now ≡ true }
    requires spare { (2 ≤ (sight_of one.old).spare) × (1 ≤ (sight_of two.old).spare) }
{
    let (first, second, third) = flows;
    make(rt, one, first, 0);
    make(rt, one, second, 1);
    let Some(outcome) = answer(rt, two, third) else {
        panic!(rt; "a place was free");
    };
    outcome
}

/// What a clerk is answered that confirms a flow after another clerk confirmed a first one and a second one, which it does
/// not share a tuple with. The gate is passed twice, and not for a clash.
fn after_two<R: Wait + Abort + AllocGlobal>(
    rt: &R,
    first: &Flow,
    second: &Flow,
    third: &Flow,
) -> Result<ConfirmOutcome, NoMemory>
    requires first { is_lawful_flow first.now ≡ true }
    requires second { is_lawful_flow second.now ≡ true }
    requires third { is_lawful_flow third.now ≡ true }
{
    let (tracker, spot) = tracker_of(rt.alloc(), sixteen_buckets())?;
    let gate = Passages::new();
    let Pair { mut one, mut two } = ready_pair(&tracker, spot, &gate, 2, 1)?;
    let outcome = confirm_three(rt, &mut one, &mut two, (first, second, third));
    assert_eq!(rt; gate.in_confirm.load(SeqCst), 2);
    Ok(outcome)
}

/// Two clerks have a place each, and confirm one flow, one after the other.
fn both_confirm<G: Gate, R: Wait>(
    rt: &R,
    one: &mut Clerk<G>,
    two: &mut Clerk<G>,
    place: u32,
    other: u32,
) -> (ConfirmOutcome, ConfirmOutcome)
    requires one { HoldsOne (record { place = place; id = None }) (sight_of one.old) }
    requires two { HoldsOne (record { place = other; id = None }) (sight_of two.old) }
    requires spare { (1 ≤ (sight_of one.old).spare) × (1 ≤ (sight_of two.old).spare) }
{
    let first = confirm_in(rt, one, place, &query());
    (first, confirm_in(rt, two, other, &query()))
}

/// Two clerks take a place each, and confirm one flow: the second one is told of the first one's entry.
fn confirm_once<G: Gate, R: Wait + Abort>(rt: &R, one: &mut Clerk<G>, two: &mut Clerk<G>)
    requires nothing { HoldsNothing (sight_of one.old) × HoldsNothing (sight_of two.old) }
    requires spare { (1 ≤ (sight_of one.old).spare) × (1 ≤ (sight_of two.old).spare) }
{
    let place = take_one(rt, one);
    let other = take_one(rt, two);
    assert!(rt; place != other);
    let (made, clash) = both_confirm(rt, one, two, place, other);
    assert!(rt; matches!(made, ConfirmOutcome::Confirmed { id: 0 }));
    assert!(rt;
        matches!(
            clash,
            ConfirmOutcome::Clash {
                id: 0,
                direction: Direction::Original,
                both: true,
                at: 1
            }
        )
    );
}

#[test]
fn one_flow_is_confirmed_once(rt: HostRuntime) -> Result<(), Fail> {
    let (tracker, spot) = tracker_of(rt.alloc(), sizes())?;
    let gate = Passages::new();
    let Pair { mut one, mut two } = ready_pair(&tracker, spot, &gate, 1, 1)?;
    confirm_once(&rt, &mut one, &mut two);
    assert_eq!(rt; gate.in_confirm.load(SeqCst), 1);
    assert_eq!(rt; count_of(&mut one), (1, 1));
    Ok(())
}

/// Entry 0 is the query; entry 1 goes from 10.0.0.5:7000 to itself, and its answers go to 10.0.0.6.
fn clash_of<R: Wait + Abort + AllocGlobal>(
    rt: &R,
    third: &Flow,
) -> Result<(u64, bool, bool, u64), NoMemory>
    requires { is_lawful_flow third.now ≡ true }
{
    let own = udp(0x0a00_0005, 7000, 0x0a00_0005, 7000);
    let to_six = udp(0x0a00_0005, 7000, 0x0a00_0006, 7000);
    let outcome = after_two(rt, &query(), &flow(own, to_six), third)?;
    let ConfirmOutcome::Clash {
        id,
        direction,
        both,
        at,
    } = outcome
    else {
        panic!(rt; "an entry has one of the tuples");
    };
    Ok((id, matches!(direction, Direction::Original), both, at))
}

/// Each flow shares one tuple with an entry. The answer names the entry, whether it has the tuple in its original
/// direction, and not both, at point 2.
#[test]
fn one_tuple_is_enough_for_a_clash(rt: HostRuntime) -> Result<(), Fail> {
    let asks = udp(0x0a00_0001, 5000, 0x0a00_0002, 53);
    let answers = udp(0x0a00_0002, 53, 0x0a00_0001, 5000);
    let other = udp(0x0a00_0009, 5000, 0x0a00_0002, 53);
    let original_alone = clash_of(&rt, &flow(asks, other))?;
    assert_eq!(rt; original_alone, (0, true, false, 2));
    let reply_alone = clash_of(&rt, &flow(other, answers))?;
    assert_eq!(rt; reply_alone, (0, false, false, 2));
    let the_other_way = clash_of(&rt, &flow(answers, asks))?;
    assert_eq!(rt; the_other_way, (0, false, false, 2));
    let own = udp(0x0a00_0005, 7000, 0x0a00_0005, 7000);
    // Its reply tuple is its original tuple, and entry 1 has that as its original one alone.
    let to_itself = clash_of(&rt, &flow(own, own))?;
    assert_eq!(rt; to_itself, (1, true, false, 2));
    // Entry 0 has its reply tuple, but entry 1 has its original one.
    let of_two = clash_of(&rt, &flow(own, answers))?;
    assert_eq!(rt; of_two, (1, true, false, 2));
    Ok(())
}

/// Takes a place, and confirms the first flow of all in it. Gives the place, which stays held.
fn placed<G: Gate, R: Wait + Abort>(rt: &R, clerk: &mut Clerk<G>, flow: &Flow) -> u32
    requires nothing { HoldsNothing (sight_of clerk.old) }
    requires protocol { is_lawful_flow flow.now ≡ true }
    requires spare { 1 ≤ (sight_of clerk.old).spare }
    ensures { is_held result (sight_of clerk.new).held ≡ true }
{
    let TakeOutcome::Taken { place } = clerk.take(rt) else {
        panic!(rt; "a place was free");
    };
    let made = clerk.confirm(rt, place, flow);
    assert!(rt; matches!(made, ConfirmOutcome::Confirmed { id: 0 }));
    place
}

/// What becomes of the place of a flow that was confirmed, when the clerk gives it up.
fn given_up<R: Wait + Abort + AllocGlobal>(
    rt: &R,
    sizes: Sizes,
    flow: &Flow,
) -> Result<ReleaseOutcome, NoMemory>
    requires limits { AreWithinLimits sizes }
    requires protocol { is_lawful_flow flow.now ≡ true }
{
    let (tracker, spot) = tracker_of(rt.alloc(), sizes)?;
    let mut clerk = ready_clerk(&tracker, spot, &NoGate, 1)?;
    let place = placed(rt, &mut clerk, flow);
    Ok(clerk.release_now(place))
}

/// Whether both tuples of a flow are of one bucket.
fn is_of_one_bucket(sizes: &Sizes, flow: &Flow) -> bool
    requires { AreWithinLimits sizes.now }
{
    bucket_of(&flow.original, sizes.seed, sizes.buckets)
        == bucket_of(&flow.reply, sizes.seed, sizes.buckets)
}

#[test]
fn the_table_keeps_the_place_of_an_entry(rt: HostRuntime) -> Result<(), Fail> {
    assert!(rt; is_of_one_bucket(&sizes(), &query()));
    let one_bucket = given_up(&rt, sizes(), &query())?;
    assert!(rt; matches!(one_bucket, ReleaseOutcome::Kept));
    assert!(rt; !is_of_one_bucket(&sixteen_buckets(), &query()));
    let two_buckets = given_up(&rt, sixteen_buckets(), &query())?;
    assert!(rt; matches!(two_buckets, ReleaseOutcome::Kept));
    Ok(())
}
