//! Files and sinks that fail, around rules, a script and a capture.

use super::{CAPTURE, NAME, REPLAYED, RULES, SCRIPT};
use crate::case::{Case, Faults, NONE, Text, all_hold, holds};
use crate::content::{Content, PLAIN};
use crate::packet::{Ends, IpPacket};
use std::process::Abort;
use std::sync::Wait;
use std::test::Fail;
use std::thread::Threads;

/// A query of the first of three clients, which ask from one port.
const FIRST: Ends = Ends {
    src: 0x0a00_0001,
    sport: 1024,
    dst: 0xc633_6401,
    dport: 53,
};

/// The queries of three clients, for whose answers there are two ports.
const THREE_CLIENTS: Content<'static> = Content::Capture(
    PLAIN,
    &[
        (1, 0, IpPacket::Udp(FIRST)),
        (
            2,
            0,
            IpPacket::Udp(Ends {
                src: 0x0a00_0002,
                ..FIRST
            }),
        ),
        (
            3,
            0,
            IpPacket::Udp(Ends {
                src: 0x0a00_0003,
                ..FIRST
            }),
        ),
    ],
);

const TWO_PORTS: Content<'static> = Content::Text("snat -p udp to 192.0.2.1:1024-1025\n");

/// What is printed whatever the script had seen when it listed the entries.
const FRONT: &str = "\
events 2
0 confirm 0.0 udp src=10.0.0.1 dst=198.51.100.1 sport=1024 dport=53 src=198.51.100.1 dst=192.0.2.1 sport=53 dport=1024 until=31000000
1 confirm 0.1 udp src=10.0.0.2 dst=198.51.100.1 sport=1024 dport=53 src=198.51.100.1 dst=192.0.2.1 sport=53 dport=1025 until=32000000
thread 0 packets 3
0 NEW id=0 @1
1 NEW id=1 @2
2 NOPORT @2 @2
script 1
0 list ";

/// What is printed where the script waits for the capture.
const LISTED: &str = "\
events 2
0 confirm 0.0 udp src=10.0.0.1 dst=198.51.100.1 sport=1024 dport=53 src=198.51.100.1 dst=192.0.2.1 sport=53 dport=1024 until=31000000
1 confirm 0.1 udp src=10.0.0.2 dst=198.51.100.1 sport=1024 dport=53 src=198.51.100.1 dst=192.0.2.1 sport=53 dport=1025 until=32000000
thread 0 packets 3
0 NEW id=0 @1
1 NEW id=1 @2
2 NOPORT @2 @2
script 1
0 list 2 @2 @2
udp      17 28 src=10.0.0.1 dst=198.51.100.1 sport=1024 dport=53 [UNREPLIED] src=198.51.100.1 dst=192.0.2.1 sport=53 dport=1024 @2
udp      17 29 src=10.0.0.2 dst=198.51.100.1 sport=1024 dport=53 [UNREPLIED] src=198.51.100.1 dst=192.0.2.1 sport=53 dport=1025 @2
";

/// The line with status 4.
const WRITE_FAILED: &str = "ctreplay: write failed\n";

/// A run of the rules, of a script that lists the entries beside the capture, and of the capture.
const BESIDE: Case<'static> = Case {
    words: &[
        "ctreplay",
        "--entries=16",
        "--buckets=16",
        "--rules",
        RULES,
        "--script",
        SCRIPT,
        NAME,
    ],
    files: &[
        (RULES, TWO_PORTS),
        (SCRIPT, Content::Text("-L\n")),
        (NAME, THREE_CLIENTS),
    ],
    room: 2000,
    out: Text::Around(FRONT, "\n"),
    ..REPLAYED
};

/// A run of them that a failed call of the files ends.
const NOT_READ: Case<'static> = Case {
    status: 3,
    out: Text::Is(""),
    ..BESIDE
};

/// Each file is opened, read, and read to its end; there is no further call. The lines are those with which the run ends.
static LINES: [&str; 9] = [
    "ctreplay: r.rules: open failed\n",
    "ctreplay: r.rules: read failed\n",
    "ctreplay: r.rules: read failed\n",
    "ctreplay: s.script: open failed\n",
    "ctreplay: s.script: read failed\n",
    "ctreplay: s.script: read failed\n",
    "ctreplay: c.pcap: open failed\n",
    "ctreplay: c.pcap: read failed\n",
    "ctreplay: c.pcap: read failed\n",
];

static NO_FURTHER_CALL: Case<'static> = Case {
    faults: Faults { files: 9, ..NONE },
    ..BESIDE
};

/// A run that is not read, without its faults and lines.
static NO_CALL: Case<'static> = NOT_READ;

/// Asserts that a run whose call of the files with this number fails ends with this line; and where the error output fails
/// too, with the same status and less than the line.
fn a_call_fails<'s, R: Threads + Wait + Sync + AllocGlobal + Abort>(
    rt: &R,
    number: usize,
    line: &'s str,
) -> Result<(), Fail> {
    let files = number as u64;
    for (err, text) in [
        (u64::MAX, Text::Is(line)),
        (0, Text::CutShort(line)),
        (1, Text::CutShort(line)),
    ] {
        let case = Case {
            faults: Faults {
                files,
                out: u64::MAX,
                err,
            },
            err: text,
            ..NO_CALL
        };
        holds(rt, &case, number)?;
    }
    Ok(())
}

#[test]
fn each_call_of_the_files_fails(rt: HostRuntime) -> Result<(), Fail> {
    for (number, line) in LINES.iter().enumerate() {
        a_call_fails(&rt, number, line)?;
    }
    holds(&rt, &NO_FURTHER_CALL, 9)
}

/// A run of them whose report is not written whole.
const NOT_WRITTEN: Case<'static> = Case {
    status: 4,
    err: Text::Is(WRITE_FAILED),
    ..BESIDE
};

/// The same run with a script that waits for the capture.
const BEHIND: Case<'static> = Case {
    files: &[
        (RULES, TWO_PORTS),
        (SCRIPT, Content::Text("wait\n-L\n")),
        (NAME, THREE_CLIENTS),
    ],
    out: Text::Is(LISTED),
    ..BESIDE
};

static WRITES: [Case<'static>; 7] = [
    Case {
        faults: Faults { out: 0, ..NONE },
        out: Text::Is(""),
        ..NOT_WRITTEN
    },
    Case {
        room: 100,
        faults: Faults { out: 1, ..NONE },
        out: Text::First(100, FRONT),
        ..NOT_WRITTEN
    },
    // There is no second write where the first one takes all.
    Case {
        faults: Faults { out: 1, ..NONE },
        ..BESIDE
    },
    Case {
        faults: Faults {
            out: 0,
            err: 0,
            ..NONE
        },
        out: Text::Is(""),
        err: Text::CutShort(WRITE_FAILED),
        ..NOT_WRITTEN
    },
    Case {
        room: 100,
        faults: Faults { err: 1, ..NONE },
        out: Text::First(100, FRONT),
        err: Text::CutShort(WRITE_FAILED),
        ..NOT_WRITTEN
    },
    // No line is written with status 0, so the error output can't fail.
    Case {
        faults: Faults { err: 0, ..NONE },
        ..BESIDE
    },
    Case {
        room: LISTED.len(),
        ..BEHIND
    },
];

#[test]
fn each_write_fails(rt: HostRuntime) -> Result<(), Fail> {
    all_hold(&rt, &WRITES)
}

/// Runs for whose reports there is too little room, without that room and the text.
static TOO_LITTLE_BESIDE: Case<'static> = NOT_WRITTEN;

static TOO_LITTLE_BEHIND: Case<'static> = Case {
    status: 4,
    err: Text::Is(WRITE_FAILED),
    ..BEHIND
};

/// Asserts that a run with any less room than this text has writes as much of the text as there is room for.
fn each_room_is_too_small<R: Threads + Wait + Sync + AllocGlobal + Abort>(
    rt: &R,
    run: &Case<'static>,
    text: &'static str,
) -> Result<(), Fail> {
    for room in 0..text.len() {
        let case = Case {
            room,
            out: Text::First(room, text),
            ..*run
        };
        holds(rt, &case, room)?;
    }
    Ok(())
}

#[test]
fn each_room_is_too_small_beside_a_capture(rt: HostRuntime) -> Result<(), Fail> {
    each_room_is_too_small(&rt, &TOO_LITTLE_BESIDE, FRONT)
}

#[test]
fn each_room_is_too_small_behind_a_capture(rt: HostRuntime) -> Result<(), Fail> {
    each_room_is_too_small(&rt, &TOO_LITTLE_BEHIND, LISTED)
}

/// A run whose error output fails at once, and which writes nothing.
const SILENT: Case<'static> = Case {
    faults: Faults { err: 0, ..NONE },
    out: Text::Is(""),
    ..REPLAYED
};

static STATUSES: [Case<'static>; 5] = [
    Case {
        words: &["ctreplay"],
        status: 1,
        err: Text::CutShort("ctreplay: the words are not of the stated form\n"),
        ..SILENT
    },
    Case {
        files: &[(NAME, Content::First(119, &CAPTURE))],
        status: 2,
        err: Text::CutShort("ctreplay: c.pcap: record 1 cut at offset 72\n"),
        ..SILENT
    },
    Case {
        files: &[],
        status: 3,
        err: Text::CutShort("ctreplay: c.pcap: open failed\n"),
        ..SILENT
    },
    Case {
        room: 0,
        status: 4,
        err: Text::CutShort(WRITE_FAILED),
        ..SILENT
    },
    Case {
        words: &["ctreplay", "--entries=0", NAME],
        status: 5,
        err: Text::CutShort("ctreplay: limit: entries\n"),
        ..SILENT
    },
];

#[test]
fn the_error_output_fails(rt: HostRuntime) -> Result<(), Fail> {
    all_hold(&rt, &STATUSES)
}
