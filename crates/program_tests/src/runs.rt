//! The runs, by what they are about.

use crate::case::{Case, Faults, NONE, Text, all_hold, holds};
use crate::content::{Content, PLAIN};
use crate::packet::QUERY;
use std::test::Fail;

mod captures;
mod confirms;
mod devices;
mod flows;
mod fragments;
mod ftp;
mod listeners;
mod made;
mod pools;
mod rewrites;
mod rules;
mod scripts;
mod storms;
mod summaries;
mod threads;
mod translated;
mod words;
mod zones;

/// The name of each run's capture.
const NAME: &str = "c.pcap";

/// The name of the second capture.
const SECOND: &str = "d.pcap";

/// The name of each run's file of rules.
const RULES: &str = "r.rules";

/// The name of each run's script.
const SCRIPT: &str = "s.script";

/// A query of UDP at 1000 s from 10.0.0.1:5000 to 10.0.0.2:53, and its answer half a second later.
const CAPTURE: [u8; 120] = [
    0xd4, 0xc3, 0xb2, 0xa1, 2, 0, 4, 0, 0, 0, 0, 0, 0, 0, 0, 0, 0xff, 0xff, 0, 0, 0x65, 0, 0, 0,
    0xe8, 3, 0, 0, 0, 0, 0, 0, 0x20, 0, 0, 0, 0x20, 0, 0, 0, 0x45, 0, 0, 0x20, 0, 0, 0, 0, 0x40,
    0x11, 0, 0, 0x0a, 0, 0, 1, 0x0a, 0, 0, 2, 0x13, 0x88, 0, 0x35, 0, 0x0c, 0, 0, 0, 0, 0, 0, 0xe8,
    3, 0, 0, 0x20, 0xa1, 7, 0, 0x20, 0, 0, 0, 0x20, 0, 0, 0, 0x45, 0, 0, 0x20, 0, 0, 0, 0, 0x40,
    0x11, 0, 0, 0x0a, 0, 0, 2, 0x0a, 0, 0, 1, 0, 0x35, 0x13, 0x88, 0, 0x0c, 0, 0, 0, 0, 0, 0,
];

const ANSWERED: &str = "\
events 2
0 confirm 0.0 udp src=10.0.0.1 dst=10.0.0.2 sport=5000 dport=53 src=10.0.0.2 dst=10.0.0.1 sport=53 dport=5000 until=1030000000
1 touch 0.1 id=0 reply until=1120500000 replied
thread 0 packets 2
0 NEW id=0 @1
1 ESTABLISHED_REPLY id=0 @2
script 0
";

const EXPIRED: &str = "\
events 3
0 confirm 0.0 udp src=10.0.0.1 dst=10.0.0.2 sport=5000 dport=53 src=10.0.0.2 dst=10.0.0.1 sport=53 dport=5000 until=31000000
1 destroy 0.1 id=0 expired
2 confirm 0.1 udp src=10.0.0.1 dst=10.0.0.2 sport=5000 dport=53 src=10.0.0.2 dst=10.0.0.1 sport=53 dport=5000 until=61000000
thread 0 packets 2
0 NEW id=0 @1
1 NEW id=2 @3
script 0
";

const TOUCHED: &str = "\
events 2
0 confirm 0.0 udp src=10.0.0.1 dst=10.0.0.2 sport=5000 dport=53 src=10.0.0.2 dst=10.0.0.1 sport=53 dport=5000 until=31000000
1 touch 0.1 id=0 original until=60999999
thread 0 packets 2
0 NEW id=0 @1
1 NEW id=0 @2
script 0
";

/// A run of one capture, which is replayed.
const REPLAYED: Case<'static> = Case {
    words: &["ctreplay", NAME],
    files: &[(NAME, Content::Bytes(&CAPTURE))],
    room: 1000,
    faults: NONE,
    status: 0,
    out: Text::Is(ANSWERED),
    err: Text::Is(""),
};

/// A run of one capture, which is refused.
const REFUSED: Case<'static> = Case {
    status: 2,
    out: Text::Is(""),
    ..REPLAYED
};

/// The query again when its entry has expired.
const QUERY_TOO_LATE: Content<'static> = Content::Capture(PLAIN, &[(1, 0, QUERY), (31, 0, QUERY)]);

/// The query again just before that.
const QUERY_IN_TIME: Content<'static> = Content::Capture(
    PLAIN,
    &[(1, 0, QUERY), (30, 999_999, QUERY)],
);

static CAPTURES: [Case<'static>; 4] = [
    Case {
        files: &[(NAME, Content::First(24, &CAPTURE))],
        out: Text::Is("events 0\nthread 0 packets 0\nscript 0\n"),
        ..REPLAYED
    },
    REPLAYED,
    Case {
        files: &[(NAME, QUERY_TOO_LATE)],
        out: Text::Is(EXPIRED),
        ..REPLAYED
    },
    Case {
        files: &[(NAME, QUERY_IN_TIME)],
        out: Text::Is(TOUCHED),
        ..REPLAYED
    },
];

#[test]
fn a_capture_is_replayed(rt: HostRuntime) -> Result<(), Fail> {
    all_hold(&rt, &CAPTURES)
}

static REFUSALS: [Case<'static>; 6] = [
    Case {
        words: &["ctreplay", "b.pcap"],
        status: 3,
        err: Text::Is("ctreplay: b.pcap: open failed\n"),
        ..REFUSED
    },
    Case {
        words: &["ctreplay", ""],
        status: 3,
        err: Text::Is("ctreplay: : open failed\n"),
        ..REFUSED
    },
    Case {
        files: &[(NAME, Content::First(119, &CAPTURE))],
        err: Text::Is("ctreplay: c.pcap: record 1 cut at offset 72\n"),
        ..REFUSED
    },
    Case {
        files: &[(NAME, Content::First(23, &CAPTURE))],
        err: Text::Is("ctreplay: c.pcap: short header\n"),
        ..REFUSED
    },
    Case {
        files: &[(NAME, Content::Text(""))],
        err: Text::Is("ctreplay: c.pcap: short header\n"),
        ..REFUSED
    },
    Case {
        files: &[(NAME, Content::Text("pcapng"))],
        err: Text::Is("ctreplay: c.pcap: short header\n"),
        ..REFUSED
    },
];

#[test]
fn what_is_refused(rt: HostRuntime) -> Result<(), Fail> {
    all_hold(&rt, &REFUSALS)
}

/// A run of the capture in which the entry expires.
const EXPIRES: Case<'static> = Case {
    files: &[(NAME, QUERY_TOO_LATE)],
    out: Text::Is(EXPIRED),
    ..REPLAYED
};

/// A run of it that a failed call of the files ends.
const NOT_READ: Case<'static> = Case {
    status: 3,
    out: Text::Is(""),
    err: Text::Is("ctreplay: c.pcap: read failed\n"),
    ..EXPIRES
};

static FAILED_CALLS: [Case<'static>; 4] = [
    Case {
        faults: Faults { files: 0, ..NONE },
        err: Text::Is("ctreplay: c.pcap: open failed\n"),
        ..NOT_READ
    },
    Case {
        faults: Faults { files: 1, ..NONE },
        ..NOT_READ
    },
    Case {
        faults: Faults { files: 2, ..NONE },
        ..NOT_READ
    },
    Case {
        faults: Faults { files: 3, ..NONE },
        ..EXPIRES
    },
];

#[test]
fn each_call_of_the_outside_fails(rt: HostRuntime) -> Result<(), Fail> {
    all_hold(&rt, &FAILED_CALLS)
}

const WRITE_FAILED: &str = "ctreplay: write failed\n";

#[test]
fn the_first_write_fails(rt: HostRuntime) -> Result<(), Fail> {
    static CASE: Case<'static> = Case {
        files: &[(NAME, Content::First(24, &CAPTURE))],
        faults: Faults { out: 0, ..NONE },
        status: 4,
        out: Text::Is(""),
        err: Text::Is(WRITE_FAILED),
        ..REPLAYED
    };
    holds(&rt, &CASE, 0)
}

/// A run of it whose report is not written whole.
const NOT_WRITTEN: Case<'static> = Case {
    status: 4,
    err: Text::Is(WRITE_FAILED),
    ..EXPIRES
};

static FAILED_WRITES: [Case<'static>; 6] = [
    Case {
        faults: Faults { out: 0, ..NONE },
        out: Text::First(0, EXPIRED),
        ..NOT_WRITTEN
    },
    Case {
        faults: Faults { out: 1, ..NONE },
        room: 100,
        out: Text::First(100, EXPIRED),
        ..NOT_WRITTEN
    },
    Case {
        room: 100,
        out: Text::First(100, EXPIRED),
        ..NOT_WRITTEN
    },
    Case {
        room: 0,
        out: Text::First(0, EXPIRED),
        ..NOT_WRITTEN
    },
    Case {
        faults: Faults {
            out: 0,
            err: 0,
            ..NONE
        },
        out: Text::First(0, EXPIRED),
        err: Text::CutShort(WRITE_FAILED),
        ..NOT_WRITTEN
    },
    Case {
        faults: Faults {
            out: 0,
            err: 1,
            ..NONE
        },
        out: Text::First(0, EXPIRED),
        err: Text::CutShort(WRITE_FAILED),
        ..NOT_WRITTEN
    },
];

#[test]
fn writes_fail(rt: HostRuntime) -> Result<(), Fail> {
    all_hold(&rt, &FAILED_WRITES)
}

/// The flow in the first place is the newest one: it goes for the next one, and that for the one after it.
const DROPPED: &str = "\
65535 NEW id=65535 @65536
65536 NEW id=65537 @65538
65537 NEW id=65539 @65540
65538 NEW id=0 @65541
script 0
";

#[test]
fn a_full_table_drops_a_flow_for_the_next_one(rt: HostRuntime) -> Result<(), Fail> {
    static CASE: Case<'static> = Case {
        files: &[(NAME, Content::Clients(65_538))],
        room: 1 << 24,
        out: Text::Around("events 65541\n", DROPPED),
        ..REPLAYED
    };
    holds(&rt, &CASE, 0)
}
