//! Threads that work beside each other.

use super::{CAPTURE, NAME, REPLAYED, SCRIPT, SECOND};
use crate::case::{Case, Number, Text, holds, holds_through, report_of};
use crate::content::{Content, PLAIN};
use crate::packet::{ANSWER, Ends, IpPacket, QUERY};
use ct_io::{Crossing, Gate};
use history_book::report::Report;
use history_book::verdict::Class;
use std::process::Abort;
use std::sync::Wait;
use std::sync::atomic::{AtomicU64, Ordering};
use std::test::Fail;
use std::thread::{Threads, yield_now};

/// How often a thread looks for the other one, at most.
pub const TURNS: u32 = 1 << 28;

/// After so many looks it lets others run, so that a busy machine does not fail a test.
pub const BREAK: u32 = 256;

/// A gate at which two threads meet before their first packets or commands: each waits there until the other one has come,
/// or until it has looked often enough.
#[derive(Drop)]
struct Meeting {
    first: AtomicU64,
    second: AtomicU64,
    missed: AtomicU64,
}

/// Whether a count comes to so many before the turns run out.
pub fn comes_in_time(count: &AtomicU64, least: u64) -> bool {
    for turn in 0..TURNS {
        if count.load(Ordering::SeqCst) >= least {
            return true;
        }
        if turn % BREAK == 0 {
            yield_now();
        }
    }
    false
}

/// Whether a flag is raised before the turns run out.
pub fn is_raised_in_time(flag: &AtomicU64) -> bool {
    comes_in_time(flag, 1)
}

impl Meeting {
    /// No thread has come yet.
    fn new() -> Meeting {
        Meeting {
            first: AtomicU64::new(0),
            second: AtomicU64::new(0),
            missed: AtomicU64::new(0),
        }
    }

    /// A thread has come: it raises its flag, and waits for the other's where it has come for the first time.
    fn come(&self, own: &AtomicU64, other: &AtomicU64) {
        if own.fetch_add(1, Ordering::SeqCst) == 0 && !is_raised_in_time(other) {
            self.missed.fetch_add(1, Ordering::SeqCst);
        }
    }
}

impl Gate for Meeting {
    fn at(&self, worker: u32, crossing: Crossing) {
        match (crossing, worker) {
            (Crossing::InConfirm, _) => {}
            (_, 0) => self.come(&self.first, &self.second),
            (_, 1) => self.come(&self.second, &self.first),
            (_, _) => {}
        }
    }
}

/// A query and its answer of another client.
pub const ELSEWHERE: Content<'static> = Content::Capture(
    PLAIN,
    &[
        (
            1000,
            0,
            IpPacket::Udp(Ends {
                src: 0x0a00_0003,
                sport: 5000,
                dst: 0x0a00_0002,
                dport: 53,
            }),
        ),
        (
            1001,
            0,
            IpPacket::Udp(Ends {
                src: 0x0a00_0002,
                sport: 53,
                dst: 0x0a00_0003,
                dport: 5000,
            }),
        ),
    ],
);

/// Asserts that a run of two threads leaves what it is to leave, that neither began before the other one had come, and how
/// often each passed the gate.
fn meet<R: Threads + Wait + Sync + AllocGlobal + Abort>(
    rt: &R,
    case: &Case<'_>,
    first: u64,
    second: u64,
) -> Result<(), Fail> {
    let gate = Meeting::new();
    holds_through(rt, case, &gate, 0)?;
    let missed = gate.missed.load(Ordering::SeqCst);
    assert_eq!(rt; missed, 0, "a thread waited in vain");
    assert_eq!(rt;
        gate.first.load(Ordering::SeqCst),
        first,
        "the first thread"
    );
    assert_eq!(rt;
        gate.second.load(Ordering::SeqCst),
        second,
        "the second thread"
    );
    Ok(())
}

/// Each thread has its own flow, and neither can begin before the other one has come.
#[test]
fn two_threads_run_at_once(rt: HostRuntime) -> Result<(), Fail> {
    static CASE: Case<'static> = Case {
        words: &["ctreplay", "--summary", NAME, SECOND],
        files: &[(NAME, Content::Bytes(&CAPTURE)), (SECOND, ELSEWHERE)],
        out: Text::Is("summary threads=2 packets=4 events=4 live=2\nNEW 2\nESTABLISHED_REPLY 2\n"),
        ..REPLAYED
    };
    meet(&rt, &CASE, 2, 2)
}

/// A gate that counts to how many packets each of five threads comes.
#[derive(Drop)]
struct Counted {
    packets: [AtomicU64; 5],
    others: AtomicU64,
}

impl Counted {
    /// No thread has come yet.
    fn new() -> Counted {
        Counted {
            packets: [
                AtomicU64::new(0),
                AtomicU64::new(0),
                AtomicU64::new(0),
                AtomicU64::new(0),
                AtomicU64::new(0),
            ],
            others: AtomicU64::new(0),
        }
    }
}

impl Gate for Counted {
    fn at(&self, worker: u32, crossing: Crossing) {
        match crossing {
            Crossing::BeforePacket => {
                let worker = worker as usize;
                let count = if worker < 5 {
                    &self.packets[worker]
                } else {
                    &self.others
                };
                count.fetch_add(1, Ordering::SeqCst);
            }
            Crossing::BeforeCommand | Crossing::InConfirm | Crossing::Heard => {}
        }
    }
}

/// Each of five captures passes the gate before each of its packets, under its own number.
#[test]
fn threads_have_the_numbers_of_their_captures(rt: HostRuntime) -> Result<(), Fail> {
    const AT: (u32, u32, IpPacket<'static>) = (1000, 0, QUERY);
    static CASE: Case<'static> = Case {
        words: &["ctreplay", "--summary", "0", "1", "2", "3", "4"],
        files: &[
            ("0", Content::Capture(PLAIN, &[AT])),
            ("1", Content::Capture(PLAIN, &[AT, AT])),
            ("2", Content::Capture(PLAIN, &[AT, AT, AT])),
            ("3", Content::Capture(PLAIN, &[AT, AT, AT, AT])),
            ("4", Content::Capture(PLAIN, &[AT, AT, AT, AT, AT])),
        ],
        out: Text::Around("summary threads=5 packets=15 ", "\n"),
        ..REPLAYED
    };
    let gate = Counted::new();
    holds_through(&rt, &CASE, &gate, 0)?;
    for (number, count) in gate.packets.iter().enumerate() {
        assert_eq!(rt;
            count.load(Ordering::SeqCst),
            number as u64 + 1,
            "the packets of a thread"
        );
    }
    assert_eq!(rt;
        gate.others.load(Ordering::SeqCst),
        0,
        "a thread of no capture"
    );
    Ok(())
}

/// What is printed where the command in front of `wait` is answered before the first event, between both, and behind them.
const BESIDE_TWO_EVENTS: [&str; 3] = [
    "\
events 2
0 confirm 0.0 udp src=10.0.0.1 dst=10.0.0.2 sport=5000 dport=53 src=10.0.0.2 dst=10.0.0.1 sport=53 dport=5000 until=1030000000
1 touch 0.1 id=0 reply until=1120500000 replied
thread 0 packets 2
0 NEW id=0 @1
1 ESTABLISHED_REPLY id=0 @2
script 2
0 count 0 @0
1 count 1 @2
",
    "\
events 2
0 confirm 0.0 udp src=10.0.0.1 dst=10.0.0.2 sport=5000 dport=53 src=10.0.0.2 dst=10.0.0.1 sport=53 dport=5000 until=1030000000
1 touch 0.1 id=0 reply until=1120500000 replied
thread 0 packets 2
0 NEW id=0 @1
1 ESTABLISHED_REPLY id=0 @2
script 2
0 count 1 @1
1 count 1 @2
",
    "\
events 2
0 confirm 0.0 udp src=10.0.0.1 dst=10.0.0.2 sport=5000 dport=53 src=10.0.0.2 dst=10.0.0.1 sport=53 dport=5000 until=1030000000
1 touch 0.1 id=0 reply until=1120500000 replied
thread 0 packets 2
0 NEW id=0 @1
1 ESTABLISHED_REPLY id=0 @2
script 2
0 count 1 @2
1 count 1 @2
",
];

/// The commands in front of `wait` are performed beside the capture, and those behind it after its end.
#[test]
fn a_script_runs_beside_a_capture(rt: HostRuntime) -> Result<(), Fail> {
    static CASE: Case<'static> = Case {
        words: &["ctreplay", "--script", SCRIPT, NAME],
        files: &[
            (SCRIPT, Content::Text("-C\nwait\n-C\n")),
            (NAME, Content::Bytes(&CAPTURE)),
        ],
        out: Text::OneOf(&BESIDE_TWO_EVENTS),
        ..REPLAYED
    };
    meet(&rt, &CASE, 2, 2)
}

/// A query, its answer, and a query again.
const SAME_FLOW: Content<'static> = Content::Capture(
    PLAIN,
    &[(1000, 0, QUERY), (1001, 0, ANSWER), (1002, 0, QUERY)],
);

/// One thread makes the entry. The first query of each other one meets it before an answer was seen, or after one; or it
/// finds no entry and is then merged into the one that was confirmed meanwhile, which makes no event.
const ONE_ENTRY: [&str; 10] = [
    "summary threads=4 packets=12 events=12 live=1\nNEW 4\nESTABLISHED 4\nESTABLISHED_REPLY 4\n",
    "summary threads=4 packets=12 events=12 live=1\nNEW 3\nESTABLISHED 5\nESTABLISHED_REPLY 4\n",
    "summary threads=4 packets=12 events=12 live=1\nNEW 2\nESTABLISHED 6\nESTABLISHED_REPLY 4\n",
    "summary threads=4 packets=12 events=12 live=1\nNEW 1\nESTABLISHED 7\nESTABLISHED_REPLY 4\n",
    "summary threads=4 packets=12 events=11 live=1\nNEW 3\nESTABLISHED 4\nESTABLISHED_REPLY 4\nMERGED 1\n",
    "summary threads=4 packets=12 events=11 live=1\nNEW 2\nESTABLISHED 5\nESTABLISHED_REPLY 4\nMERGED 1\n",
    "summary threads=4 packets=12 events=11 live=1\nNEW 1\nESTABLISHED 6\nESTABLISHED_REPLY 4\nMERGED 1\n",
    "summary threads=4 packets=12 events=10 live=1\nNEW 2\nESTABLISHED 4\nESTABLISHED_REPLY 4\nMERGED 2\n",
    "summary threads=4 packets=12 events=10 live=1\nNEW 1\nESTABLISHED 5\nESTABLISHED_REPLY 4\nMERGED 2\n",
    "summary threads=4 packets=12 events=9 live=1\nNEW 1\nESTABLISHED 4\nESTABLISHED_REPLY 4\nMERGED 3\n",
];

/// Four threads have packets of one flow: whichever is the first confirms it, and there is no other entry.
#[test]
fn four_threads_have_one_flow(rt: HostRuntime) -> Result<(), Fail> {
    static CASE: Case<'static> = Case {
        words: &["ctreplay", "--summary", NAME, NAME, NAME, NAME],
        files: &[(NAME, SAME_FLOW)],
        out: Text::OneOf(&ONE_ENTRY),
        ..REPLAYED
    };
    for number in 0..50 {
        holds(&rt, &CASE, number)?;
    }
    Ok(())
}

/// How many packets began an entry, and how many found no place.
fn made_and_full(report: &Report) -> (u32, u32) {
    let mut made = 0u32;
    let mut full = 0u32;
    for thread in report.threads.as_slice() {
        for index in 0..thread.len() {
            let class = thread.at(index).class;
            if matches!(class, Class::Made { .. }) {
                made = made.wrapping_add(1);
            } else if matches!(class, Class::Full { .. }) {
                full = full.wrapping_add(1);
            }
        }
    }
    (made, full)
}

/// Two threads have fifty flows each, and there is one place: each flow drops the one that has it, or finds that the other
/// thread keeps the place.
#[test]
fn two_threads_have_one_place(rt: HostRuntime) -> Result<(), Fail> {
    static CASE: Case<'static> = Case {
        words: &["ctreplay", "--entries", "1", "--summary", NAME, SECOND],
        files: &[
            (NAME, Content::Ports(0x0a00_0001, 50)),
            (SECOND, Content::Ports(0x0a01_0001, 50)),
        ],
        out: Text::Numbers(
            "summary threads=2 packets=100 events=",
            &[(0, 4, Number::Within(0, 1)), (1, 1, Number::Within(1, 100))],
        ),
        ..REPLAYED
    };
    for number in 0..50 {
        holds(&rt, &CASE, number)?;
        let Some(report) = report_of(&rt, &CASE)? else {
            panic!(&rt; "no report of run {number}");
        };
        let (made, full) = made_and_full(&report);
        assert!(rt;
            made >= 1 && made.wrapping_add(full) == 100,
            "{made} and {full}"
        );
    }
    Ok(())
}
