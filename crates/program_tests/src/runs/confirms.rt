//! A thread that stands in the middle of a confirm, and what another one does meanwhile.

use super::threads::{BREAK, ELSEWHERE, TURNS};
use super::{CAPTURE, NAME, REPLAYED, SECOND};
use crate::case::{Case, Text, holds_through};
use crate::content::{Content, PLAIN};
use crate::packet::QUERY;
use ct_io::{Crossing, Gate};
use std::process::Abort;
use std::sync::Wait;
use std::sync::atomic::{AtomicU64, Ordering};
use std::test::Fail;
use std::thread::{Threads, yield_now};

/// How often it looks, where it waits for nothing.
const STAY: u32 = 1 << 24;

/// Whether a count is so high before the turns run out.
pub fn is_reached(count: &AtomicU64, least: u64, turns: u32) -> bool {
    for turn in 0..turns {
        if count.load(Ordering::SeqCst) >= least {
            return true;
        }
        if turn % BREAK == 0 {
            yield_now();
        }
    }
    false
}

/// How often the first thread came into a confirm, how many packets the second one came to, and how often one waited in
/// vain for the other.
#[derive(Drop)]
struct Counts {
    confirms: AtomicU64,
    packets: AtomicU64,
    missed: AtomicU64,
}

impl Counts {
    /// No thread has come yet.
    fn new() -> Counts {
        Counts {
            confirms: AtomicU64::new(0),
            packets: AtomicU64::new(0),
            missed: AtomicU64::new(0),
        }
    }

    /// Waits until a count is so high, at most for the turns.
    fn wait(&self, count: &AtomicU64, least: u64) {
        if !is_reached(count, least, TURNS) {
            self.missed.fetch_add(1, Ordering::SeqCst);
        }
    }

    /// The second thread has come to a packet: before its first one it waits until the first thread is in its confirm.
    fn come(&self) {
        if self.packets.fetch_add(1, Ordering::SeqCst) == 0 {
            self.wait(&self.confirms, 1);
        }
    }
}

/// A gate at which the second thread waits before its first packet until the first one is in its confirm, which then stays
/// there until the second one has come to its second packet.
#[derive(Drop)]
struct Passed {
    counts: Counts,
}

impl Gate for Passed {
    fn at(&self, worker: u32, crossing: Crossing) {
        let counts = &self.counts;
        match (worker, crossing) {
            (0, Crossing::InConfirm) => {
                counts.confirms.fetch_add(1, Ordering::SeqCst);
                counts.wait(&counts.packets, 2);
            }
            (1, Crossing::BeforePacket) => counts.come(),
            (_, _) => {}
        }
    }
}

/// A gate at which the second thread waits before its first packet until the first one is in its confirm, which then stays
/// there for a while; the second one is counted as missed where it comes to its second packet meanwhile.
#[derive(Drop)]
struct Held {
    counts: Counts,
}

impl Held {
    /// The first thread is in its confirm.
    fn stay(&self) {
        self.counts.confirms.fetch_add(1, Ordering::SeqCst);
        if is_reached(&self.counts.packets, 2, STAY) {
            self.counts.missed.fetch_add(1, Ordering::SeqCst);
        }
    }
}

impl Gate for Held {
    fn at(&self, worker: u32, crossing: Crossing) {
        match (worker, crossing) {
            (0, Crossing::InConfirm) => self.stay(),
            (1, Crossing::BeforePacket) => self.counts.come(),
            (_, _) => {}
        }
    }
}

/// A thread in the middle of a confirm holds up no other one whose flow is of other buckets: that confirms its flow meanwhile,
/// and goes on to its next packet.
#[test]
fn a_confirm_holds_up_no_other_flow(rt: HostRuntime) -> Result<(), Fail> {
    static CASE: Case<'static> = Case {
        words: &["ctreplay", "--summary", NAME, SECOND],
        files: &[(NAME, Content::Bytes(&CAPTURE)), (SECOND, ELSEWHERE)],
        out: Text::Is("summary threads=2 packets=4 events=4 live=2\nNEW 2\nESTABLISHED_REPLY 2\n"),
        ..REPLAYED
    };
    let gate = Passed {
        counts: Counts::new(),
    };
    holds_through(&rt, &CASE, &gate, 0)?;
    assert_eq!(rt;
        gate.counts.confirms.load(Ordering::SeqCst),
        1,
        "the confirm"
    );
    assert_eq!(rt;
        gate.counts.missed.load(Ordering::SeqCst),
        0,
        "a thread waited in vain"
    );
    Ok(())
}

/// Runs two captures, of which the first is in its confirm for a while. The second one comes to its second packet only when that
/// has ended.
fn second_waits<R: Threads + Wait + Sync + AllocGlobal + Abort>(
    rt: &R,
    case: &Case<'_>,
) -> Result<(), Fail> {
    let gate = Held {
        counts: Counts::new(),
    };
    holds_through(rt, case, &gate, 0)?;
    assert_eq!(rt;
        gate.counts.confirms.load(Ordering::SeqCst),
        1,
        "the confirm"
    );
    assert_eq!(rt;
        gate.counts.missed.load(Ordering::SeqCst),
        0,
        "the second thread went on, or a thread waited in vain"
    );
    Ok(())
}

/// A query.
const ONCE: Content<'static> = Content::Capture(PLAIN, &[(1000, 0, QUERY)]);

/// The same query, twice.
const TWICE: Content<'static> = Content::Capture(PLAIN, &[(1001, 0, QUERY), (1002, 0, QUERY)]);

/// Nor is a flow known to another thread before the confirm of it has ended: that waits, and then has the entry.
#[test]
fn a_flow_waits_for_its_confirm(rt: HostRuntime) -> Result<(), Fail> {
    static CASE: Case<'static> = Case {
        words: &["ctreplay", "--summary", NAME, SECOND],
        files: &[(NAME, ONCE), (SECOND, TWICE)],
        out: Text::Is("summary threads=2 packets=3 events=3 live=1\nNEW 3\n"),
        ..REPLAYED
    };
    second_waits(&rt, &CASE)
}

/// In a table of one bucket each flow waits for the confirm of any other: the words decide the table.
#[test]
fn one_bucket_is_locked_for_all_flows(rt: HostRuntime) -> Result<(), Fail> {
    static CASE: Case<'static> = Case {
        words: &["ctreplay", "--buckets", "1", "--summary", NAME, SECOND],
        files: &[(NAME, ONCE), (SECOND, ELSEWHERE)],
        out: Text::Is("summary threads=2 packets=3 events=3 live=2\nNEW 2\nESTABLISHED_REPLY 1\n"),
        ..REPLAYED
    };
    second_waits(&rt, &CASE)
}
