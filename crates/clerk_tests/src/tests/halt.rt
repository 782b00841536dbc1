//! A clerk confirms a flow while another one stands in the middle of a confirm, in other buckets.

ghost use Rattle.std.specs.Prelude.{◌≡◌, ◌≤◌, true};
ghost use Rattle.history_book.specs.Entry.{is_lawful_flow};
ghost use Rattle.history_book.specs.Places.{HoldsNothing};
ghost use Rattle.history_book.specs.Sizes.{AreWithinLimits};
ghost use Rattle.shared_desk.specs.Sights.{sight_of};

use super::flows::{answer, flow, look, udp};
use super::pair::{Pair, ready_pair, tracker_of};
use super::sixteen_buckets;
use bucket_table::finding::FindOnce;
use ct_io::{Crossing, Gate};
use history_book::desk::Desk;
use history_book::outcome::{ConfirmOutcome, LiveCount};
use history_book::record::Flow;
use history_book::sizes::Sizes;
use shared_desk::clerk::Clerk;
use std::process::Abort;
use std::sync::Wait;
use std::sync::atomic::AtomicU64;
use std::sync::atomic::Ordering::SeqCst;
use std::test::Fail;
use std::thread::{Threads, join_mut, yield_now};
use tuple_core::bucket_of;

/// How often a worker looks for what it waits for, at most.
const LOOKS: u32 = 1 << 24;

/// Whether it came to pass, which is looked for a bounded number of times.
fn comes(flag: &AtomicU64) -> bool {
    'looks: for _look in 0..LOOKS {
        if flag.load(SeqCst) == 1 {
            return true;
        }
        yield_now();
    }
    false
}

/// A gate at which worker 0 stays in a confirm until it is let go, or has looked for that long enough.
#[derive(Drop)]
struct Halt {
    inside: AtomicU64,
    let_go: AtomicU64,
    outside: AtomicU64,
}

impl Halt {
    fn new() -> Halt {
        Halt {
            inside: AtomicU64::new(0),
            let_go: AtomicU64::new(0),
            outside: AtomicU64::new(0),
        }
    }
}

impl Gate for Halt {
    fn at(&self, worker: u32, crossing: Crossing) {
        if let (0, Crossing::InConfirm) = (worker, crossing) {
            self.inside.store(1, SeqCst);
            let _ = comes(&self.let_go);
            self.outside.store(1, SeqCst);
        }
    }
}

/// What the second clerk saw while the first one stood in its confirm.
#[derive(Drop)]
struct Seen {
    outcome: Option<ConfirmOutcome>,
    count: LiveCount,
    found: FindOnce,
    /// Of the flow that the first clerk confirms.
    shut: FindOnce,
    /// The first one came in before, and had not gone out after.
    meanwhile: bool,
}

/// Waits until the other clerk is in its confirm of a first flow, confirms another one, counts, looks for both, and lets the other go.
fn confirm_meanwhile<R: Wait>(
    rt: &R,
    clerk: &mut Clerk<Halt>,
    gate: &Halt,
    first: &Flow,
    flow: &Flow,
) -> Seen
    requires nothing { HoldsNothing (sight_of clerk.old) }
    requires protocol { is_lawful_flow flow.now ≡ true }
    requires spare { 1 ≤ (sight_of clerk.old).spare }
{
    let inside = comes(&gate.inside);
    let outcome = answer(rt, clerk, flow);
    let count = clerk.count_now();
    let found = look(rt, clerk, &flow.original);
    let shut = look(rt, clerk, &first.original);
    let outside = gate.outside.load(SeqCst);
    gate.let_go.store(1, SeqCst);
    Seen {
        outcome,
        count,
        found,
        shut,
        meanwhile: inside && outside == 0,
    }
}

/// The first clerk confirms a flow, and the second one another meanwhile, each on a thread of its own.
fn both_confirm<R: Threads + Wait + Sync>(
    rt: &R,
    one: &mut Clerk<Halt>,
    two: &mut Clerk<Halt>,
    gate: &Halt,
    first: &Flow,
    second: &Flow,
) -> (Option<ConfirmOutcome>, Seen)
    requires nothing { HoldsNothing (sight_of one.old) × HoldsNothing (sight_of two.old) }
    requires protocol { (is_lawful_flow first.now ≡ true) × (is_lawful_flow second.now ≡ true) }
    requires spare { (1 ≤ (sight_of one.old).spare) × (1 ≤ (sight_of two.old).spare) }
{
    join_mut(
        rt,
        &mut ||
            requires { HoldsNothing (sight_of one.now) × (is_lawful_flow first.now ≡ true) × (1 ≤ (sight_of one.now).spare) }
        { answer(rt, one, first) },
        &mut ||
            requires { HoldsNothing (sight_of two.now) × (is_lawful_flow second.now ≡ true) × (1 ≤ (sight_of two.now).spare) }
        { confirm_meanwhile(rt, two, gate, first, second) },
    )
}

/// Whether the flows have no bucket in common.
fn are_apart(sizes: &Sizes, one: &Flow, two: &Flow) -> bool
    requires { AreWithinLimits sizes.now }
{
    let Sizes { seed, buckets, .. } = *sizes;
    let original = bucket_of(&one.original, seed, buckets);
    let reply = bucket_of(&one.reply, seed, buckets);
    let other = bucket_of(&two.original, seed, buckets);
    let other_reply = bucket_of(&two.reply, seed, buckets);
    original != other && original != other_reply && reply != other && reply != other_reply
}

/// A query of 10.0.0.1 from this port, and its answer.
fn query_from(port: u16) -> Flow
    ensures { is_lawful_flow result ≡ true }
{
    flow(
        udp(0x0a00_0001, port, 0x0a00_0002, 53),
        udp(0x0a00_0002, 53, 0x0a00_0001, port),
    )
}

/// Asserts what the clerks were answered: the second one's entry is the first, and was found while the first clerk stood in its confirm.
fn check_seen<R: Abort>(rt: &R, made: Option<ConfirmOutcome>, seen: &Seen) {
    let Some(ConfirmOutcome::Confirmed { id }) = made else {
        panic!(rt; "nobody has the first flow");
    };
    let Some(ConfirmOutcome::Confirmed { id: other }) = seen.outcome else {
        panic!(rt; "nobody has the second flow");
    };
    assert!(rt; seen.meanwhile, "a clerk waited in vain");
    assert_eq!(rt; (id, other), (1, 0));
    assert_eq!(rt; (seen.count.live, seen.count.at), (1, 1));
    assert!(rt; matches!(seen.found, FindOnce::Found { id: 0, at: 1, .. }));
    assert!(rt; matches!(seen.shut, FindOnce::Moved { .. }));
}

/// A clerk in the middle of a confirm holds nobody up whose flow is of other buckets, no count, and no lookup there: the other clerk's
/// entry is the first, and is found. Nor does a lookup wait in the buckets of that confirm: it says that they are shut.
#[test]
fn a_confirm_holds_up_no_other_buckets(rt: HostRuntime) -> Result<(), Fail> {
    let first = query_from(5000);
    let second = query_from(5001);
    assert!(rt; are_apart(&sixteen_buckets(), &first, &second));
    let (tracker, spot) = tracker_of(rt.alloc(), sixteen_buckets())?;
    let gate = Halt::new();
    let Pair { mut one, mut two } = ready_pair(&tracker, spot, &gate, 1, 1)?;
    let (made, seen) = both_confirm(&rt, &mut one, &mut two, &gate, &first, &second);
    check_seen(&rt, made, &seen);
    Ok(())
}
