//! A listener beside the threads.

use super::threads::{ELSEWHERE, comes_in_time, is_raised_in_time};
use super::{CAPTURE, NAME, REPLAYED, SCRIPT, SECOND};
use crate::case::{Case, Faults, NONE, Number, Text, all_hold, holds_through};
use crate::content::Content;
use ct_io::{Crossing, Gate};
use std::sync::atomic::{AtomicU64, Ordering};
use std::test::Fail;

/// A query and its answer, of which both events were heard.
const HEARD: &str = "\
events 2
0 confirm 0.0 udp src=10.0.0.1 dst=10.0.0.2 sport=5000 dport=53 src=10.0.0.2 dst=10.0.0.1 sport=53 dport=5000 until=1030000000
1 touch 0.1 id=0 reply until=1120500000 replied
thread 0 packets 2
0 NEW id=0 @1
1 ESTABLISHED_REPLY id=0 @2
script 0
heard 0 2 of 2
heard s 0 of 0
";

/// The script flushes the table behind `wait`: the listener has ended then.
const FLUSHED: &str = "\
events 3
0 confirm 0.0 udp src=10.0.0.1 dst=10.0.0.2 sport=5000 dport=53 src=10.0.0.2 dst=10.0.0.1 sport=53 dport=5000 until=1030000000
1 touch 0.1 id=0 reply until=1120500000 replied
2 destroy s.0 id=0 flushed
thread 0 packets 2
0 NEW id=0 @1
1 ESTABLISHED_REPLY id=0 @2
script 1
0 flushed 1 @2 @3
heard 0 2 of 2
heard s 0 of 0
";

static LISTENED: [Case<'static>; 6] = [
    Case {
        words: &["ctreplay", "--listen", NAME],
        out: Text::Is(HEARD),
        ..REPLAYED
    },
    Case {
        words: &["ctreplay", "--summary", NAME, "--listen"],
        out: Text::Is(
            "summary threads=1 packets=2 events=2 live=1\nNEW 1\nESTABLISHED_REPLY 1\nheard 0 2 of 2\nheard s 0 of 0\n",
        ),
        ..REPLAYED
    },
    Case {
        words: &["ctreplay", "--listen", NAME],
        files: &[(NAME, Content::First(24, &CAPTURE))],
        out: Text::Is("events 0\nthread 0 packets 0\nscript 0\nheard 0 0 of 0\nheard s 0 of 0\n"),
        ..REPLAYED
    },
    Case {
        words: &["ctreplay", "--listen", "--script", SCRIPT, NAME],
        files: &[
            (SCRIPT, Content::Text("wait\n-F\n")),
            (NAME, Content::Bytes(&CAPTURE)),
        ],
        out: Text::Is(FLUSHED),
        ..REPLAYED
    },
    // the lines are written behind the report, by a call of their own
    Case {
        words: &["ctreplay", "--listen", NAME],
        faults: Faults { out: 1, ..NONE },
        status: 4,
        out: Text::CutShort(HEARD),
        err: Text::Is("ctreplay: write failed\n"),
        ..REPLAYED
    },
    Case {
        words: &["ctreplay", "--listen", NAME, SECOND],
        status: 3,
        out: Text::Is(""),
        err: Text::Is("ctreplay: d.pcap: open failed\n"),
        ..REPLAYED
    },
];

#[test]
fn a_line_tells_how_much_was_heard_of_each_thread(rt: HostRuntime) -> Result<(), Fail> {
    all_hold(&rt, &LISTENED)
}

/// A gate at which the thread of a capture waits, before its second packet, until the listener has heard something.
#[derive(Drop)]
struct Patient {
    packets: AtomicU64,
    heard: AtomicU64,
    missed: AtomicU64,
}

impl Gate for Patient {
    fn at(&self, worker: u32, crossing: Crossing) {
        match (crossing, worker) {
            (Crossing::BeforePacket, 0) => {
                let is_second = self.packets.fetch_add(1, Ordering::SeqCst) == 1;
                if is_second && !is_raised_in_time(&self.heard) {
                    self.missed.fetch_add(1, Ordering::SeqCst);
                }
            }
            (Crossing::Heard, 2) => {
                self.heard.fetch_add(1, Ordering::SeqCst);
            }
            (_, _) => {}
        }
    }
}

/// The listener hears the first event while the thread that made it still has a packet to come.
#[test]
fn a_listener_hears_beside_the_threads(rt: HostRuntime) -> Result<(), Fail> {
    let gate = Patient {
        packets: AtomicU64::new(0),
        heard: AtomicU64::new(0),
        missed: AtomicU64::new(0),
    };
    holds_through(&rt, &LISTENED[0], &gate, 0)?;
    let missed = gate.missed.load(Ordering::SeqCst);
    assert_eq!(rt; missed, 0, "the thread waited in vain");
    let heard = gate.heard.load(Ordering::SeqCst);
    assert_eq!(rt; heard, 2, "notes that were heard");
    Ok(())
}

/// A gate at which the thread of a capture, each of whose packets makes one event, waits before each packet until the
/// listener has heard of all those before it.
#[derive(Drop)]
struct Strict {
    packets: AtomicU64,
    heard: AtomicU64,
    missed: AtomicU64,
}

impl Gate for Strict {
    fn at(&self, worker: u32, crossing: Crossing) {
        match (crossing, worker) {
            (Crossing::BeforePacket, 0) => {
                let before = self.packets.fetch_add(1, Ordering::SeqCst);
                if !comes_in_time(&self.heard, before) {
                    self.missed.fetch_add(1, Ordering::SeqCst);
                }
            }
            (Crossing::Heard, 2) => {
                self.heard.fetch_add(1, Ordering::SeqCst);
            }
            (_, _) => {}
        }
    }
}

/// A thread tells of its events behind each packet.
#[test]
fn each_packet_is_told_of(rt: HostRuntime) -> Result<(), Fail> {
    static CASE: Case<'static> = Case {
        words: &["ctreplay", "--summary", "--listen", NAME],
        files: &[(NAME, Content::Ports(0x0a00_0001, 9))],
        out: Text::Is(
            "summary threads=1 packets=9 events=9 live=9\nNEW 9\nheard 0 9 of 9\nheard s 0 of 0\n",
        ),
        ..REPLAYED
    };
    let gate = Strict {
        packets: AtomicU64::new(0),
        heard: AtomicU64::new(0),
        missed: AtomicU64::new(0),
    };
    holds_through(&rt, &CASE, &gate, 0)?;
    let missed = gate.missed.load(Ordering::SeqCst);
    assert_eq!(rt; missed, 0, "the thread waited in vain");
    Ok(())
}

/// A gate at which the script waits for a capture's first packet before its first command, and before its second one until
/// two events were heard; and the capture waits for these before its second packet.
#[derive(Drop)]
struct InTurn {
    packets: AtomicU64,
    commands: AtomicU64,
    heard: AtomicU64,
    missed: AtomicU64,
}

impl InTurn {
    /// A thread waits until a count has come to so many.
    fn wait_for(&self, count: &AtomicU64, least: u64) {
        if !comes_in_time(count, least) {
            self.missed.fetch_add(1, Ordering::SeqCst);
        }
    }
}

impl Gate for InTurn {
    fn at(&self, worker: u32, crossing: Crossing) {
        match (crossing, worker) {
            (Crossing::BeforePacket, 0) => {
                if self.packets.fetch_add(1, Ordering::SeqCst) == 1 {
                    self.wait_for(&self.heard, 2);
                }
            }
            (Crossing::BeforeCommand, 1) => {
                if self.commands.fetch_add(1, Ordering::SeqCst) == 0 {
                    self.wait_for(&self.packets, 2);
                } else {
                    self.wait_for(&self.heard, 2);
                }
            }
            (Crossing::Heard, 2) => {
                self.heard.fetch_add(1, Ordering::SeqCst);
            }
            (_, _) => {}
        }
    }
}

/// The script's thread tells of its events behind each command: of the flush before the next one, while the capture waits.
#[test]
fn each_command_is_told_of(rt: HostRuntime) -> Result<(), Fail> {
    static CASE: Case<'static> = Case {
        words: &["ctreplay", "--listen", "--script", SCRIPT, NAME],
        files: &[
            (SCRIPT, Content::Text("-F\n-C\n")),
            (NAME, Content::Bytes(&CAPTURE)),
        ],
        out: Text::Around("events 3\n", "heard 0 2 of 2\nheard s 1 of 1\n"),
        ..REPLAYED
    };
    let gate = InTurn {
        packets: AtomicU64::new(0),
        commands: AtomicU64::new(0),
        heard: AtomicU64::new(0),
        missed: AtomicU64::new(0),
    };
    holds_through(&rt, &CASE, &gate, 0)?;
    let missed = gate.missed.load(Ordering::SeqCst);
    assert_eq!(rt; missed, 0, "a thread waited in vain");
    Ok(())
}

/// A gate that counts the notes that are heard, by whether the listener has the number behind two captures' and the script's.
#[derive(Drop)]
struct Numbered {
    heard: AtomicU64,
    others: AtomicU64,
}

impl Gate for Numbered {
    fn at(&self, worker: u32, crossing: Crossing) {
        if matches!(crossing, Crossing::Heard) {
            let count = if worker == 3 {
                &self.heard
            } else {
                &self.others
            };
            count.fetch_add(1, Ordering::SeqCst);
        }
    }
}

/// The listener passes the gate once for each note, under the number behind the script's.
#[test]
fn a_listener_has_the_number_behind_the_scripts(rt: HostRuntime) -> Result<(), Fail> {
    static CASE: Case<'static> = Case {
        words: &["ctreplay", "--summary", "--listen", NAME, SECOND],
        files: &[(NAME, Content::Bytes(&CAPTURE)), (SECOND, ELSEWHERE)],
        out: Text::Is(
            "summary threads=2 packets=4 events=4 live=2\nNEW 2\nESTABLISHED_REPLY 2\nheard 0 2 of 2\nheard 1 2 of 2\nheard s 0 of 0\n",
        ),
        ..REPLAYED
    };
    let gate = Numbered {
        heard: AtomicU64::new(0),
        others: AtomicU64::new(0),
    };
    holds_through(&rt, &CASE, &gate, 0)?;
    let heard = gate.heard.load(Ordering::SeqCst);
    assert!(rt; heard <= 4, "a note heard twice");
    let others = gate.others.load(Ordering::SeqCst);
    assert_eq!(rt; others, 0, "a listener of another number");
    Ok(())
}

/// A gate at which the listener waits, behind its first note, until the thread of a capture has come to so many packets.
#[derive(Drop)]
struct Deaf {
    packets: AtomicU64,
    last: u64,
    has_come: AtomicU64,
    missed: AtomicU64,
}

impl Gate for Deaf {
    fn at(&self, worker: u32, crossing: Crossing) {
        match (crossing, worker) {
            (Crossing::BeforePacket, 0) => {
                if self.packets.fetch_add(1, Ordering::SeqCst) == self.last {
                    self.has_come.store(1, Ordering::SeqCst);
                }
            }
            (Crossing::Heard, 2) => {
                if !is_raised_in_time(&self.has_come) {
                    self.missed.fetch_add(1, Ordering::SeqCst);
                }
            }
            (_, _) => {}
        }
    }
}

/// As many events as a queue holds, one more, and many: a queue that is full keeps no thread waiting.
static FULL: [(u64, Case<'static>); 3] = [
    (
        1024,
        Case {
            words: &["ctreplay", "--summary", "--listen", NAME],
            files: &[(NAME, Content::Ports(0x0a00_0001, 1024))],
            out: Text::Is(
                "summary threads=1 packets=1024 events=1024 live=1024\nNEW 1024\nheard 0 1024 of 1024\nheard s 0 of 0\n",
            ),
            ..REPLAYED
        },
    ),
    (
        1025,
        Case {
            words: &["ctreplay", "--summary", "--listen", NAME],
            files: &[(NAME, Content::Ports(0x0a00_0001, 1025))],
            out: Text::Numbers(
                "summary threads=1 packets=1025 events=1025 live=1025\nNEW 1025\nheard 0 ",
                &[(2, 2, Number::Within(1024, 1025)), (2, 4, Number::Is(1025))],
            ),
            ..REPLAYED
        },
    ),
    (
        3000,
        Case {
            words: &["ctreplay", "--summary", "--listen", NAME],
            files: &[(NAME, Content::Ports(0x0a00_0001, 3000))],
            out: Text::Numbers(
                "summary threads=1 packets=3000 events=3000 live=3000\nNEW 3000\nheard 0 ",
                &[(2, 2, Number::Within(1024, 3000)), (2, 4, Number::Is(3000))],
            ),
            ..REPLAYED
        },
    ),
];

/// A thread whose listener stands still goes on: what does not fit into its queue is not heard.
#[test]
fn a_thread_waits_for_no_listener(rt: HostRuntime) -> Result<(), Fail> {
    for (packets, case) in &FULL {
        let gate = Deaf {
            packets: AtomicU64::new(0),
            last: packets - 1,
            has_come: AtomicU64::new(0),
            missed: AtomicU64::new(0),
        };
        holds_through(&rt, case, &gate, *packets as usize)?;
        let missed = gate.missed.load(Ordering::SeqCst);
        assert_eq!(rt; missed, 0, "the listener waited in vain");
    }
    Ok(())
}

/// Every queue keeps its thread's order, and no thread's events are told under another's name.
#[test]
fn many_threads_are_told_apart(rt: HostRuntime) -> Result<(), Fail> {
    static CASE: Case<'static> = Case {
        words: &[
            "ctreplay",
            "--summary",
            "--listen",
            NAME,
            SECOND,
            NAME,
            SECOND,
        ],
        files: &[
            (NAME, Content::Ports(0x0a00_0001, 300)),
            (SECOND, Content::Ports(0x0a01_0001, 400)),
        ],
        out: Text::Around("summary threads=4 packets=1400 ", "heard s 0 of 0\n"),
        ..REPLAYED
    };
    for number in 0..20 {
        holds_through(&rt, &CASE, &ct_io::NoGate, number)?;
    }
    Ok(())
}
