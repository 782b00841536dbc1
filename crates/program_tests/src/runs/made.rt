//! Runs of made workloads, for which no file is read.

use super::{CAPTURE, NAME, REPLAYED, RULES, SCRIPT};
use crate::case::{Case, Faults, NONE, Text, all_hold, holds};
use crate::content::Content;
use std::process::Abort;
use std::sync::Wait;
use std::test::Fail;
use std::thread::Threads;

/// A run of which each call of a file would fail.
const MADE: Case<'static> = Case {
    files: &[],
    faults: Faults { files: 0, ..NONE },
    ..REPLAYED
};

/// The whole report of one flow of UDP.
const ONE_FLOW: &str = "\
events 4
0 confirm 0.0 udp src=10.0.0.0 dst=198.51.100.1 sport=1024 dport=53 src=198.51.100.1 dst=10.0.0.0 sport=53 dport=1024 until=1030000000
1 touch 0.1 id=0 reply until=1120001000 replied
2 touch 0.2 id=0 original until=1120002000 replied assured
3 touch 0.3 id=0 reply until=1120003000 replied assured
thread 0 packets 4
0 NEW id=0 @1
1 ESTABLISHED_REPLY id=0 @2
2 ESTABLISHED id=0 @3
3 ESTABLISHED_REPLY id=0 @4
script 0
";

static WORKLOADS: [Case<'static>; 7] = [
    Case {
        words: &[
            "ctreplay",
            "--make",
            "0",
            "--packets",
            "4",
            "--threads",
            "1",
        ],
        out: Text::Is(ONE_FLOW),
        ..MADE
    },
    Case {
        words: &[
            "ctreplay",
            "--make",
            "0",
            "--packets",
            "8",
            "--threads",
            "2",
            "--summary",
        ],
        out: Text::Is(
            "summary threads=2 packets=16 events=16 live=4\nNEW 4\nESTABLISHED 6\nESTABLISHED_REPLY 6\n",
        ),
        ..MADE
    },
    // As many entries as flows: the last flow of each thread has one packet.
    Case {
        words: &[
            "ctreplay",
            "--summary",
            "--threads=2",
            "--packets=9",
            "--make=0",
            "--entries=6",
        ],
        out: Text::Is(
            "summary threads=2 packets=18 events=18 live=6\nNEW 6\nESTABLISHED 6\nESTABLISHED_REPLY 6\n",
        ),
        ..MADE
    },
    Case {
        words: &[
            "ctreplay",
            "--make=4294967295",
            "--packets=1",
            "--threads=1",
            "--summary",
        ],
        out: Text::Is("summary threads=1 packets=1 events=1 live=1\nNEW 1\n"),
        ..MADE
    },
    Case {
        words: &[
            "ctreplay",
            "--make=0",
            "--packets=1",
            "--threads=63",
            "--summary",
            "--",
        ],
        out: Text::Is("summary threads=63 packets=63 events=63 live=63\nNEW 63\n"),
        ..MADE
    },
    Case {
        words: &[
            "ctreplay",
            "--make",
            "2",
            "--packets",
            "4000",
            "--threads",
            "4",
            "--summary",
        ],
        out: Text::Is(
            "summary threads=4 packets=16000 events=16000 live=4000\nNEW 4000\nESTABLISHED 5332\nESTABLISHED_REPLY 6668\n",
        ),
        ..MADE
    },
    Case {
        words: &["ctreplay", "--make=0", "--packets=4", "--threads=1"],
        faults: Faults {
            files: 0,
            out: 0,
            ..NONE
        },
        status: 4,
        out: Text::Is(""),
        err: Text::Is("ctreplay: write failed\n"),
        ..MADE
    },
];

#[test]
fn workloads(rt: HostRuntime) -> Result<(), Fail> {
    all_hold(&rt, &WORKLOADS)
}

/// Asserts how a run on these words ends that is refused.
fn ends<'w, R: Threads + Wait + Sync + AllocGlobal + Abort>(
    rt: &R,
    words: &'w [&'w str],
    status: u8,
    line: &'w str,
    number: usize,
) -> Result<(), Fail> {
    let case = Case {
        words,
        status,
        out: Text::Is(""),
        err: Text::Is(line),
        ..MADE
    };
    holds(rt, &case, number)
}

/// Asserts how a run with this seed, so many packets of each thread, so many threads, and these entries ends that is
/// refused.
fn refused<R: Threads + Wait + Sync + AllocGlobal + Abort>(
    rt: &R,
    numbers: &[&str; 4],
    status: u8,
    line: &str,
    number: usize,
) -> Result<(), Fail> {
    let [seed, packets, threads, entries] = *numbers;
    let words = [
        "ctreplay",
        "--make",
        seed,
        "--packets",
        packets,
        "--threads",
        threads,
        "--entries",
        entries,
    ];
    ends(rt, &words, status, line, number)
}

const USAGE: &str = "ctreplay: the words are not of the stated form\n";

const ENTRIES: &str = "ctreplay: limit: entries\n";

const SEED: &str = "ctreplay: limit: seed\n";

const PACKETS: &str = "ctreplay: limit: packets\n";

const THREADS: &str = "ctreplay: limit: threads\n";

const FLOWS: &str = "ctreplay: limit: flows\n";

/// A seed, packets, threads and entries; the status, and the line.
type Row<'w> = ([&'w str; 4], u8, &'w str);

static NUMBERS: [Row<'static>; 22] = [
    (["4294967296", "4", "1", "65536"], 5, SEED),
    (["9999999999", "4", "1", "65536"], 5, SEED),
    (["0", "0", "1", "65536"], 5, PACKETS),
    (["0", "262145", "1", "65536"], 5, PACKETS),
    // The most packets are not too many; their flows are.
    (["0", "262144", "1", "65535"], 5, FLOWS),
    (["0", "4", "0", "65536"], 5, THREADS),
    (["0", "4", "64", "65536"], 5, THREADS),
    (["0", "4161", "63", "65536"], 5, FLOWS),
    (["0", "8", "2", "3"], 5, FLOWS),
    (["0", "9", "2", "5"], 5, FLOWS),
    (["0", "1", "63", "62"], 5, FLOWS),
    // The first that is passed is told.
    (["4294967296", "0", "0", "0"], 5, ENTRIES),
    (["4294967296", "0", "0", "1"], 5, SEED),
    (["0", "0", "0", "1"], 5, PACKETS),
    (["0", "262144", "64", "1"], 5, THREADS),
    // A number has one to ten digits, and its form comes first.
    (["00000000000", "4", "1", "65536"], 1, USAGE),
    (["x", "4", "1", "65536"], 1, USAGE),
    (["", "4", "1", "65536"], 1, USAGE),
    (["0", "4x", "1", "65536"], 1, USAGE),
    (["0", "10000000000", "1", "65536"], 1, USAGE),
    (["0", "4", "+1", "65536"], 1, USAGE),
    (["4294967296", "0", "00000000001", "0"], 1, USAGE),
];

/// Asserts how runs with these numbers end.
fn all_refused<R: Threads + Wait + Sync + AllocGlobal + Abort>(
    rt: &R,
    rows: &[Row<'_>],
) -> Result<(), Fail> {
    for (number, (numbers, status, line)) in rows.iter().enumerate() {
        refused(rt, numbers, *status, line, number)?;
    }
    Ok(())
}

#[test]
fn numbers_of_workloads(rt: HostRuntime) -> Result<(), Fail> {
    all_refused(&rt, &NUMBERS)
}

/// A run with files of each kind.
static WORDED: Case<'static> = Case {
    files: &[
        (RULES, Content::Text("# no rules\n")),
        (SCRIPT, Content::Text("# no commands\n")),
        (NAME, Content::Bytes(&CAPTURE)),
    ],
    ..REPLAYED
};

/// Words that are no workload, or one beside files.
static MISUSED: [&[&str]; 13] = [
    &["ctreplay", "--make=0"],
    &["ctreplay", "--make=0", NAME],
    &["ctreplay", "--make=0", "--packets=4"],
    &["ctreplay", "--make=0", "--threads=1"],
    &["ctreplay", "--packets=4", "--threads=1"],
    &["ctreplay", "--packets=4", NAME],
    &["ctreplay", "--threads=1", NAME],
    &["ctreplay", "--packets=4", "--threads=1", NAME],
    &["ctreplay", "--make=0", "--packets=4", "--threads=1", NAME],
    &[
        "ctreplay",
        "--make=0",
        "--packets=4",
        "--threads=1",
        "--rules",
        RULES,
    ],
    &[
        "ctreplay",
        "--make=0",
        "--packets=4",
        "--threads=1",
        "--script",
        SCRIPT,
    ],
    &[
        "ctreplay",
        "--make=0",
        "--make=0",
        "--packets=4",
        "--threads=1",
    ],
    &["ctreplay", "--summary"],
];

/// Asserts that these words are not of the form.
fn all_misused<R: Threads + Wait + Sync + AllocGlobal + Abort>(
    rt: &R,
    rows: &[&[&str]],
) -> Result<(), Fail> {
    for (number, words) in rows.iter().enumerate() {
        let case = Case {
            words,
            status: 1,
            out: Text::Is(""),
            err: Text::Is(USAGE),
            ..WORDED
        };
        holds(rt, &case, number)?;
    }
    Ok(())
}

#[test]
fn words_that_are_no_workload(rt: HostRuntime) -> Result<(), Fail> {
    all_misused(&rt, &MISUSED)
}
