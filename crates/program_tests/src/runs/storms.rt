//! Threads that get in each other's way, each storm a hundred times. What their texts are depends on the order in which they
//! run: each report has a legal history, and the spans and points that it is to have.

use super::{NAME, REPLAYED, SECOND};
use crate::case::{Case, Text, holds};
use crate::content::{Content, PLAIN};
use crate::packet::{ACK, ANSWER, Ends, IpPacket, PSH, QUERY, SYN, Sent};
use std::process::Abort;
use std::sync::Wait;
use std::test::Fail;
use std::thread::Threads;

/// How often each storm is run.
const TIMES: usize = 100;

/// Asserts that each run of a storm leaves what it is to leave.
fn rages<R: Threads + Wait + Sync + AllocGlobal + Abort>(
    rt: &R,
    case: &Case<'_>,
) -> Result<(), Fail> {
    for number in 0..TIMES {
        holds(rt, case, number)?;
    }
    Ok(())
}

/// The first packets of one flow, as one side sends them: a query, and the answer that nobody has asked for.
const ASKED: Content<'static> = Content::Capture(
    PLAIN,
    &[(1000, 0, QUERY), (1000, 1, QUERY), (1000, 2, ANSWER)],
);

const TOLD: Content<'static> = Content::Capture(
    PLAIN,
    &[(1000, 0, ANSWER), (1000, 1, ANSWER), (1000, 2, QUERY)],
);

/// Two threads begin a flow with one of its tuples, and two with the other: a packet that finds neither, and comes late, is
/// merged or clashes.
#[test]
fn flows_that_clash(rt: HostRuntime) -> Result<(), Fail> {
    static CASE: Case<'static> = Case {
        words: &["ctreplay", "--summary", NAME, SECOND, NAME, SECOND],
        files: &[(NAME, ASKED), (SECOND, TOLD)],
        out: Text::Around("summary threads=4 packets=12 events=", "\n"),
        ..REPLAYED
    };
    rages(&rt, &CASE)
}

/// Four threads meet one entry that is expired, again and again.
#[test]
fn entries_that_expire(rt: HostRuntime) -> Result<(), Fail> {
    static CASE: Case<'static> = Case {
        words: &[
            "ctreplay",
            "--buckets=1",
            "--summary",
            NAME,
            NAME,
            NAME,
            NAME,
        ],
        files: &[(
            NAME,
            Content::Capture(
                PLAIN,
                &[
                    (1000, 0, QUERY),
                    (1100, 0, QUERY),
                    (1200, 0, ANSWER),
                    (1400, 0, QUERY),
                    (1600, 0, ANSWER),
                    (1800, 0, QUERY),
                ],
            ),
        )],
        out: Text::Around("summary threads=4 packets=24 events=", "\n"),
        ..REPLAYED
    };
    rages(&rt, &CASE)
}

/// The ends of the control connection.
macro_rules! there {
    ($port:literal) => {
        Ends {
            src: 0x0a00_0001,
            sport: $port,
            dst: 0x0a00_0002,
            dport: 21,
        }
    };
}

/// The other way round.
macro_rules! back {
    ($port:literal) => {
        Ends {
            src: 0x0a00_0002,
            sport: 21,
            dst: 0x0a00_0001,
            dport: $port,
        }
    };
}

/// A control connection of FTP from this port of 10.0.0.1 to 10.0.0.2, which names 10.0.0.1:40001, and the data connection.
macro_rules! control {
    ($port:literal) => {
        Content::Capture(
            PLAIN,
            &[
                (1, 0, IpPacket::Tcp(there!($port), SYN, b"")),
                (2, 0, IpPacket::Tcp(back!($port), SYN | ACK, b"")),
                (3, 0, IpPacket::Tcp(there!($port), ACK, b"")),
                (
                    4,
                    0,
                    IpPacket::Tcp(there!($port), ACK | PSH, b"PORT 10,0,0,1,156,65\r\n"),
                ),
                CONNECTED,
            ],
        )
    };
}

/// The data connection from 10.0.0.2:20 to 10.0.0.1:40001.
const CONNECTED: Sent<'static> = (
    5,
    0,
    IpPacket::Tcp(
        Ends {
            src: 0x0a00_0002,
            sport: 20,
            dst: 0x0a00_0001,
            dport: 40_001,
        },
        SYN,
        b"",
    ),
);

/// Four control connections name one end, and each thread has the data connection to it.
#[test]
fn expectations_that_clash(rt: HostRuntime) -> Result<(), Fail> {
    static CASE: Case<'static> = Case {
        words: &["ctreplay", "--summary", "0", "1", "2", "3"],
        files: &[
            ("0", control!(40_010)),
            ("1", control!(40_011)),
            ("2", control!(40_012)),
            ("3", control!(40_013)),
        ],
        out: Text::Around("summary threads=4 packets=20 events=", "\n"),
        ..REPLAYED
    };
    rages(&rt, &CASE)
}

/// What one thread with that session prints, four times: no thread meets another's flows, ports or expectations.
const APART: &str = "\
summary threads=4 packets=20 events=28 live=8
NEW 4
RELATED 4
ESTABLISHED 8
ESTABLISHED_REPLY 4
";

/// One session of FTP in four zones, on four threads.
#[test]
fn zones_that_have_the_same_flows(rt: HostRuntime) -> Result<(), Fail> {
    static CASE: Case<'static> = Case {
        words: &[
            "ctreplay",
            "--zones=0,1,256,65535",
            "--buckets=1",
            "--summary",
            NAME,
            NAME,
            NAME,
            NAME,
        ],
        files: &[(NAME, control!(40_010))],
        out: Text::Is(APART),
        ..REPLAYED
    };
    rages(&rt, &CASE)
}

/// Four threads have sixty flows each, two and two the same, in a table of forty places: flows drop each other, and clash
/// with, or touch, entries that are dropped meanwhile.
#[test]
fn flows_that_drop_each_other(rt: HostRuntime) -> Result<(), Fail> {
    static CASE: Case<'static> = Case {
        words: &[
            "ctreplay",
            "--entries=40",
            "--summary",
            NAME,
            SECOND,
            NAME,
            SECOND,
        ],
        files: &[
            (NAME, Content::Ports(0x0a00_0001, 60)),
            (SECOND, Content::Ports(0x0a00_0002, 60)),
        ],
        out: Text::Around("summary threads=4 packets=240 events=", "\n"),
        ..REPLAYED
    };
    rages(&rt, &CASE)
}

/// As many captures as there may be, all of one flow.
#[test]
fn one_flow_on_all_threads(rt: HostRuntime) -> Result<(), Fail> {
    static CASE: Case<'static> = Case {
        words: &[
            "ctreplay",
            "--summary",
            NAME,
            NAME,
            NAME,
            NAME,
            NAME,
            NAME,
            NAME,
            NAME,
            NAME,
            NAME,
            NAME,
            NAME,
            NAME,
            NAME,
            NAME,
            NAME,
            NAME,
            NAME,
            NAME,
            NAME,
            NAME,
            NAME,
            NAME,
            NAME,
            NAME,
            NAME,
            NAME,
            NAME,
            NAME,
            NAME,
            NAME,
            NAME,
            NAME,
            NAME,
            NAME,
            NAME,
            NAME,
            NAME,
            NAME,
            NAME,
            NAME,
            NAME,
            NAME,
            NAME,
            NAME,
            NAME,
            NAME,
            NAME,
            NAME,
            NAME,
            NAME,
            NAME,
            NAME,
            NAME,
            NAME,
            NAME,
            NAME,
            NAME,
            NAME,
            NAME,
            NAME,
            NAME,
            NAME,
        ],
        files: &[(NAME, ASKED)],
        out: Text::Around("summary threads=63 packets=189 events=", "\n"),
        ..REPLAYED
    };
    rages(&rt, &CASE)
}

/// More flows than there are places, on four threads: each packet is answered, and no place has two entries.
#[test]
fn a_pool_that_is_full(rt: HostRuntime) -> Result<(), Fail> {
    static CASE: Case<'static> = Case {
        words: &["ctreplay", "--entries=20", "--summary", "0", "1", "2", "3"],
        files: &[
            ("0", Content::Ports(0x0a00_0001, 40)),
            ("1", Content::Ports(0x0a01_0001, 40)),
            ("2", Content::Ports(0x0a02_0001, 40)),
            ("3", Content::Ports(0x0a03_0001, 40)),
        ],
        out: Text::Around("summary threads=4 packets=160 events=", "\n"),
        ..REPLAYED
    };
    rages(&rt, &CASE)
}
