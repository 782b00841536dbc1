//! Runs of many command lines: their statuses and lines.

use super::{CAPTURE, NAME, REPLAYED, RULES, SCRIPT};
use crate::case::{Case, Text, all_hold, holds};
use crate::content::{Content, PLAIN};
use crate::packet::{Ends, IpPacket, QUERY, SYN};
use std::process::Abort;
use std::sync::Wait;
use std::test::Fail;
use std::thread::Threads;

const USAGE: &str = "ctreplay: the words are not of the stated form\n";

const ENTRIES: &str = "ctreplay: limit: entries\n";

const BUCKETS: &str = "ctreplay: limit: buckets\n";

const CAPTURES: &str = "ctreplay: limit: captures\n";

/// Words, the status with which a run on them ends, and its line.
type Row<'w> = (&'w [&'w str], u8, &'w str);

/// A run with files of each kind that change nothing.
static WORDED: Case<'static> = Case {
    files: &[
        (RULES, Content::Text("# no rules\n")),
        (SCRIPT, Content::Text("# no commands\n")),
        (NAME, Content::Bytes(&CAPTURE)),
    ],
    ..REPLAYED
};

/// Asserts how a run on these words ends. Where the status is 0, the capture is replayed as it is without options;
/// else nothing is written.
fn ends<'w, R: Threads + Wait + Sync + AllocGlobal + Abort>(
    rt: &R,
    words: &'w [&'w str],
    status: u8,
    line: &'w str,
) -> Result<(), Fail> {
    let out = if status == 0 {
        WORDED.out
    } else {
        Text::Is("")
    };
    let case = Case {
        words,
        status,
        out,
        err: Text::Is(line),
        ..WORDED
    };
    holds(rt, &case, words.len())
}

/// Asserts how runs end.
fn all_end<R: Threads + Wait + Sync + AllocGlobal + Abort>(
    rt: &R,
    rows: &[Row<'_>],
) -> Result<(), Fail> {
    for (words, status, line) in rows {
        ends(rt, words, *status, line)?;
    }
    Ok(())
}

/// Asserts that on these words the capture is replayed.
fn all_used<R: Threads + Wait + Sync + AllocGlobal + Abort>(
    rt: &R,
    rows: &[&[&str]],
) -> Result<(), Fail> {
    for words in rows {
        ends(rt, words, 0, "")?;
    }
    Ok(())
}

/// Asserts that these words are not of the form.
fn all_misused<R: Threads + Wait + Sync + AllocGlobal + Abort>(
    rt: &R,
    rows: &[&[&str]],
) -> Result<(), Fail> {
    for words in rows {
        ends(rt, words, 1, USAGE)?;
    }
    Ok(())
}

/// Asserts how runs with one option of these values end.
fn all_values<R: Threads + Wait + Sync + AllocGlobal + Abort>(
    rt: &R,
    option: &str,
    rows: &[(&str, u8, &str)],
) -> Result<(), Fail> {
    for (value, status, line) in rows {
        ends(rt, &["ctreplay", option, value, NAME], *status, line)?;
    }
    Ok(())
}

static OPTIONS: [&[&str]; 25] = [
    &["ctreplay", "--rules", RULES, NAME],
    &["ctreplay", NAME, "--rules", RULES],
    &["ctreplay", "--rules", RULES, "--", NAME],
    &["ctreplay", "--rules=r.rules", NAME],
    &["ctreplay", NAME, "--rules=r.rules"],
    &["ctreplay", "--script", SCRIPT, NAME],
    &["ctreplay", NAME, "--script", SCRIPT],
    &["ctreplay", "--script", SCRIPT, "--", NAME],
    &["ctreplay", "--script=s.script", NAME],
    &["ctreplay", NAME, "--script=s.script"],
    &["ctreplay", "--entries", "16", NAME],
    &["ctreplay", NAME, "--entries", "16"],
    &["ctreplay", "--entries", "16", "--", NAME],
    &["ctreplay", "--entries=16", NAME],
    &["ctreplay", NAME, "--entries=16"],
    &["ctreplay", "--buckets", "16", NAME],
    &["ctreplay", NAME, "--buckets", "16"],
    &["ctreplay", "--buckets", "16", "--", NAME],
    &["ctreplay", "--buckets=16", NAME],
    &["ctreplay", NAME, "--buckets=16"],
    &["ctreplay", "--ftp", "21", NAME],
    &["ctreplay", NAME, "--ftp", "21"],
    &["ctreplay", "--ftp", "21", "--", NAME],
    &["ctreplay", "--ftp=21", NAME],
    &["ctreplay", NAME, "--ftp=21"],
];

#[test]
fn each_option(rt: HostRuntime) -> Result<(), Fail> {
    all_used(&rt, &OPTIONS)
}

static WITHOUT_VALUES: [&[&str]; 25] = [
    &["ctreplay", NAME, "--rules"],
    &["ctreplay", "--rules", "--", NAME],
    &["ctreplay", "--rules", "--rules", RULES, NAME],
    &["ctreplay", "--rules", NAME],
    &["ctreplay", "--rules", RULES],
    &["ctreplay", NAME, "--script"],
    &["ctreplay", "--script", "--", NAME],
    &["ctreplay", "--script", "--script", SCRIPT, NAME],
    &["ctreplay", "--script", NAME],
    &["ctreplay", "--script", SCRIPT],
    &["ctreplay", NAME, "--entries"],
    &["ctreplay", "--entries", "--", NAME],
    &["ctreplay", "--entries", "--entries", "16", NAME],
    &["ctreplay", "--entries", NAME],
    &["ctreplay", "--entries", "16"],
    &["ctreplay", NAME, "--buckets"],
    &["ctreplay", "--buckets", "--", NAME],
    &["ctreplay", "--buckets", "--buckets", "16", NAME],
    &["ctreplay", "--buckets", NAME],
    &["ctreplay", "--buckets", "16"],
    &["ctreplay", NAME, "--ftp"],
    &["ctreplay", "--ftp", "--", NAME],
    &["ctreplay", "--ftp", "--ftp", "21", NAME],
    &["ctreplay", "--ftp", NAME],
    &["ctreplay", "--ftp", "21"],
];

#[test]
fn each_option_without_its_value(rt: HostRuntime) -> Result<(), Fail> {
    all_misused(&rt, &WITHOUT_VALUES)
}

static TWICE: [&[&str]; 10] = [
    &["ctreplay", "--rules", RULES, "--rules", RULES, NAME],
    &["ctreplay", "--rules", RULES, NAME, "--rules", RULES],
    &["ctreplay", "--script", SCRIPT, "--script", SCRIPT, NAME],
    &["ctreplay", "--script", SCRIPT, NAME, "--script", SCRIPT],
    &["ctreplay", "--entries", "16", "--entries", "16", NAME],
    &["ctreplay", "--entries", "16", NAME, "--entries", "16"],
    &["ctreplay", "--buckets", "16", "--buckets", "16", NAME],
    &["ctreplay", "--buckets", "16", NAME, "--buckets", "16"],
    &["ctreplay", "--ftp", "21", "--ftp", "21", NAME],
    &["ctreplay", "--ftp", "21", NAME, "--ftp", "21"],
];

#[test]
fn each_option_twice(rt: HostRuntime) -> Result<(), Fail> {
    all_misused(&rt, &TWICE)
}

static NO_OPTIONS: [&[&str]; 24] = [
    &["ctreplay", "--help", NAME],
    &["ctreplay", NAME, "--help"],
    &["ctreplay", "-h", NAME],
    &["ctreplay", NAME, "-h"],
    &["ctreplay", "--version", NAME],
    &["ctreplay", NAME, "--version"],
    &["ctreplay", "-V", NAME],
    &["ctreplay", NAME, "-V"],
    &["ctreplay", "--rule", NAME],
    &["ctreplay", NAME, "--rule"],
    &["ctreplay", "--Rules", NAME],
    &["ctreplay", NAME, "--Rules"],
    &["ctreplay", "-r", NAME],
    &["ctreplay", NAME, "-r"],
    &["ctreplay", "--make", NAME],
    &["ctreplay", NAME, "--make"],
    &["ctreplay", "--summary=yes", NAME],
    &["ctreplay", NAME, "--summaries"],
    &["ctreplay", "---", NAME],
    &["ctreplay", NAME, "---"],
    &["ctreplay", "-c.pcap", NAME],
    &["ctreplay", NAME, "-c.pcap"],
    &["ctreplay", "-9", NAME],
    &["ctreplay", NAME, "-9"],
];

#[test]
fn words_that_are_no_option(rt: HostRuntime) -> Result<(), Fail> {
    all_misused(&rt, &NO_OPTIONS)
}

static BEHIND_DASHES: [Row<'static>; 9] = [
    (&["ctreplay", "--", NAME], 0, ""),
    (
        &["ctreplay", "--", "-c.pcap"],
        3,
        "ctreplay: -c.pcap: open failed\n",
    ),
    (
        &["ctreplay", "--", "--rules"],
        3,
        "ctreplay: --rules: open failed\n",
    ),
    (
        &["ctreplay", "--", "--", NAME],
        3,
        "ctreplay: --: open failed\n",
    ),
    (&["ctreplay", "-"], 3, "ctreplay: -: open failed\n"),
    (&["ctreplay", ""], 3, "ctreplay: : open failed\n"),
    (
        &["ctreplay", "--rules=", NAME],
        3,
        "ctreplay: : open failed\n",
    ),
    (
        &["--rules", RULES, NAME],
        2,
        "ctreplay: r.rules: short header\n",
    ),
    (&["", NAME], 0, ""),
];

#[test]
fn words_behind_dashes_are_captures(rt: HostRuntime) -> Result<(), Fail> {
    all_end(&rt, &BEHIND_DASHES)
}

static NO_CAPTURE: [&[&str]; 6] = [
    &[],
    &[NAME],
    &["ctreplay"],
    &["ctreplay", "--"],
    &["ctreplay", "--rules", RULES, "--script", SCRIPT],
    &["ctreplay", "--entries=0"],
];

#[test]
fn no_capture(rt: HostRuntime) -> Result<(), Fail> {
    all_misused(&rt, &NO_CAPTURE)
}

static ENTRY_NUMBERS: [(&str, u8, &str); 12] = [
    ("1", 0, ""),
    ("65536", 0, ""),
    ("0000000001", 0, ""),
    ("0", 5, ENTRIES),
    ("65537", 5, ENTRIES),
    ("4294967297", 5, ENTRIES),
    ("9999999999", 5, ENTRIES),
    ("00000000001", 1, USAGE),
    ("+1", 1, USAGE),
    ("-1", 1, USAGE),
    ("1k", 1, USAGE),
    ("", 1, USAGE),
];

#[test]
fn numbers_of_entries(rt: HostRuntime) -> Result<(), Fail> {
    all_values(&rt, "--entries", &ENTRY_NUMBERS)
}

static BUCKET_NUMBERS: [(&str, u8, &str); 11] = [
    ("1", 0, ""),
    ("65536", 0, ""),
    ("0", 1, USAGE),
    ("3", 1, USAGE),
    ("65535", 1, USAGE),
    ("131072", 5, BUCKETS),
    ("4294967296", 5, BUCKETS),
    ("9999999999", 1, USAGE),
    ("00000000001", 1, USAGE),
    ("0x10", 1, USAGE),
    ("", 1, USAGE),
];

#[test]
fn numbers_of_buckets(rt: HostRuntime) -> Result<(), Fail> {
    all_values(&rt, "--buckets", &BUCKET_NUMBERS)
}

static PORT_LISTS: [(&str, u8, &str); 12] = [
    ("65535", 0, ""),
    ("21,21", 0, ""),
    ("00021", 0, ""),
    ("1,2,3,4,5,6,7,8", 0, ""),
    ("1,2,3,4,5,6,7,8,9", 1, USAGE),
    ("0", 1, USAGE),
    ("65536", 1, USAGE),
    ("21,", 1, USAGE),
    (",21", 1, USAGE),
    ("21 ,22", 1, USAGE),
    ("ftp", 1, USAGE),
    ("", 1, USAGE),
];

#[test]
fn lists_of_ports(rt: HostRuntime) -> Result<(), Fail> {
    all_values(&rt, "--ftp", &PORT_LISTS)
}

static ZONE_LISTS: [(&str, u8, &str); 12] = [
    ("0", 0, ""),
    ("00000", 0, ""),
    ("1,2", 1, USAGE),
    ("0,", 1, USAGE),
    (",0", 1, USAGE),
    ("65536", 1, USAGE),
    ("000000", 1, USAGE),
    ("+0", 1, USAGE),
    ("-1", 1, USAGE),
    ("0 ", 1, USAGE),
    ("zone", 1, USAGE),
    ("", 1, USAGE),
];

#[test]
fn lists_of_zones(rt: HostRuntime) -> Result<(), Fail> {
    all_values(&rt, "--zones", &ZONE_LISTS)
}

/// 64 captures, which is one too many, and further faults.
static LIMITS: [Row<'static>; 4] = [
    (
        &[
            "ctreplay", NAME, NAME, NAME, NAME, NAME, NAME, NAME, NAME, NAME, NAME, NAME, NAME,
            NAME, NAME, NAME, NAME, NAME, NAME, NAME, NAME, NAME, NAME, NAME, NAME, NAME, NAME,
            NAME, NAME, NAME, NAME, NAME, NAME, NAME, NAME, NAME, NAME, NAME, NAME, NAME, NAME,
            NAME, NAME, NAME, NAME, NAME, NAME, NAME, NAME, NAME, NAME, NAME, NAME, NAME, NAME,
            NAME, NAME, NAME, NAME, NAME, NAME, NAME, NAME, NAME, NAME,
        ],
        5,
        CAPTURES,
    ),
    (
        &[
            "ctreplay",
            NAME,
            NAME,
            NAME,
            NAME,
            NAME,
            NAME,
            NAME,
            NAME,
            NAME,
            NAME,
            NAME,
            NAME,
            NAME,
            NAME,
            NAME,
            NAME,
            NAME,
            NAME,
            NAME,
            NAME,
            NAME,
            NAME,
            NAME,
            NAME,
            NAME,
            NAME,
            NAME,
            NAME,
            NAME,
            NAME,
            NAME,
            NAME,
            NAME,
            NAME,
            NAME,
            NAME,
            NAME,
            NAME,
            NAME,
            NAME,
            NAME,
            NAME,
            NAME,
            NAME,
            NAME,
            NAME,
            NAME,
            NAME,
            NAME,
            NAME,
            NAME,
            NAME,
            NAME,
            NAME,
            NAME,
            NAME,
            NAME,
            NAME,
            NAME,
            NAME,
            NAME,
            NAME,
            NAME,
            NAME,
            "--buckets=131072",
        ],
        5,
        BUCKETS,
    ),
    (
        &[
            "ctreplay",
            NAME,
            NAME,
            NAME,
            NAME,
            NAME,
            NAME,
            NAME,
            NAME,
            NAME,
            NAME,
            NAME,
            NAME,
            NAME,
            NAME,
            NAME,
            NAME,
            NAME,
            NAME,
            NAME,
            NAME,
            NAME,
            NAME,
            NAME,
            NAME,
            NAME,
            NAME,
            NAME,
            NAME,
            NAME,
            NAME,
            NAME,
            NAME,
            NAME,
            NAME,
            NAME,
            NAME,
            NAME,
            NAME,
            NAME,
            NAME,
            NAME,
            NAME,
            NAME,
            NAME,
            NAME,
            NAME,
            NAME,
            NAME,
            NAME,
            NAME,
            NAME,
            NAME,
            NAME,
            NAME,
            NAME,
            NAME,
            NAME,
            NAME,
            NAME,
            NAME,
            NAME,
            NAME,
            NAME,
            NAME,
            "--buckets=131072",
            "--entries=0",
        ],
        5,
        ENTRIES,
    ),
    (
        &[
            "ctreplay",
            NAME,
            NAME,
            NAME,
            NAME,
            NAME,
            NAME,
            NAME,
            NAME,
            NAME,
            NAME,
            NAME,
            NAME,
            NAME,
            NAME,
            NAME,
            NAME,
            NAME,
            NAME,
            NAME,
            NAME,
            NAME,
            NAME,
            NAME,
            NAME,
            NAME,
            NAME,
            NAME,
            NAME,
            NAME,
            NAME,
            NAME,
            NAME,
            NAME,
            NAME,
            NAME,
            NAME,
            NAME,
            NAME,
            NAME,
            NAME,
            NAME,
            NAME,
            NAME,
            NAME,
            NAME,
            NAME,
            NAME,
            NAME,
            NAME,
            NAME,
            NAME,
            NAME,
            NAME,
            NAME,
            NAME,
            NAME,
            NAME,
            NAME,
            NAME,
            NAME,
            NAME,
            NAME,
            NAME,
            NAME,
            "--buckets=131072",
            "--entries=0",
            "--ftp=x",
        ],
        1,
        USAGE,
    ),
];

#[test]
fn the_first_limit_is_told(rt: HostRuntime) -> Result<(), Fail> {
    all_end(&rt, &LIMITS)
}

static MOST_CAPTURES: Case<'static> = Case {
    words: &[
        "ctreplay", NAME, NAME, NAME, NAME, NAME, NAME, NAME, NAME, NAME, NAME, NAME, NAME, NAME,
        NAME, NAME, NAME, NAME, NAME, NAME, NAME, NAME, NAME, NAME, NAME, NAME, NAME, NAME, NAME,
        NAME, NAME, NAME, NAME, NAME, NAME, NAME, NAME, NAME, NAME, NAME, NAME, NAME, NAME, NAME,
        NAME, NAME, NAME, NAME, NAME, NAME, NAME, NAME, NAME, NAME, NAME, NAME, NAME, NAME, NAME,
        NAME, NAME, NAME, NAME, NAME,
    ],
    files: &[(NAME, Content::First(24, &CAPTURE))],
    room: 4000,
    out: Text::Around(
        "events 0\nthread 0 packets 0\nthread 1 packets 0\n",
        "thread 62 packets 0\nscript 0\n",
    ),
    ..REPLAYED
};

#[test]
fn the_most_captures(rt: HostRuntime) -> Result<(), Fail> {
    holds(&rt, &MOST_CAPTURES, 0)
}

/// The query, and the same of another host.
const TWO_FLOWS: Content<'static> = Content::Capture(
    PLAIN,
    &[
        (1000, 0, QUERY),
        (
            1000,
            0,
            IpPacket::Udp(Ends {
                src: 0x0a00_0003,
                sport: 5000,
                dst: 0x0a00_0002,
                dport: 53,
            }),
        ),
    ],
);

static SMALL_TABLES: [Case<'static>; 2] = [
    Case {
        words: &["ctreplay", "--entries=1", NAME],
        files: &[(NAME, TWO_FLOWS)],
        out: Text::Around(
            "",
            "thread 0 packets 2\n0 NEW id=0 @1\n1 NEW id=2 @3\nscript 0\n",
        ),
        ..REPLAYED
    },
    Case {
        words: &["ctreplay", "--entries=2", NAME],
        files: &[(NAME, TWO_FLOWS)],
        out: Text::Around(
            "",
            "thread 0 packets 2\n0 NEW id=0 @1\n1 NEW id=1 @2\nscript 0\n",
        ),
        ..REPLAYED
    },
];

#[test]
fn a_table_of_one_entry(rt: HostRuntime) -> Result<(), Fail> {
    all_hold(&rt, &SMALL_TABLES)
}

/// A connection from 10.0.0.1:40000 to the port 21, to 2121 and to 8 of 10.0.0.2.
const TO_21: Ends = Ends {
    src: 0x0a00_0001,
    sport: 40_000,
    dst: 0x0a00_0002,
    dport: 21,
};

const TO_2121: Ends = Ends {
    dport: 2121,
    ..TO_21
};

const TO_8: Ends = Ends { dport: 8, ..TO_21 };

const WITH_HELPER: &str = "state=SYN_SENT helper\nthread 0 packets 1\n0 NEW id=0 @1\nscript 0\n";

const WITHOUT_HELPER: &str = "state=SYN_SENT\nthread 0 packets 1\n0 NEW id=0 @1\nscript 0\n";

static HELPED: [Case<'static>; 6] = [
    Case {
        words: &["ctreplay", "--ftp=21", NAME],
        files: &[(
            NAME,
            Content::Capture(PLAIN, &[(1000, 0, IpPacket::Tcp(TO_21, SYN, b""))]),
        )],
        out: Text::Around("", WITH_HELPER),
        ..REPLAYED
    },
    Case {
        words: &["ctreplay", "--ftp=21", NAME],
        files: &[(
            NAME,
            Content::Capture(PLAIN, &[(1000, 0, IpPacket::Tcp(TO_2121, SYN, b""))]),
        )],
        out: Text::Around("", WITHOUT_HELPER),
        ..REPLAYED
    },
    Case {
        words: &["ctreplay", "--ftp=2121", NAME],
        files: &[(
            NAME,
            Content::Capture(PLAIN, &[(1000, 0, IpPacket::Tcp(TO_21, SYN, b""))]),
        )],
        out: Text::Around("", WITHOUT_HELPER),
        ..REPLAYED
    },
    Case {
        words: &["ctreplay", "--ftp=2121", NAME],
        files: &[(
            NAME,
            Content::Capture(PLAIN, &[(1000, 0, IpPacket::Tcp(TO_2121, SYN, b""))]),
        )],
        out: Text::Around("", WITH_HELPER),
        ..REPLAYED
    },
    Case {
        words: &["ctreplay", "--ftp=1,2,3,4,5,6,7,2121", NAME],
        files: &[(
            NAME,
            Content::Capture(PLAIN, &[(1000, 0, IpPacket::Tcp(TO_2121, SYN, b""))]),
        )],
        out: Text::Around("", WITH_HELPER),
        ..REPLAYED
    },
    Case {
        words: &["ctreplay", "--ftp=1,2,3,4,5,6,7,2121", NAME],
        files: &[(
            NAME,
            Content::Capture(PLAIN, &[(1000, 0, IpPacket::Tcp(TO_8, SYN, b""))]),
        )],
        out: Text::Around("", WITHOUT_HELPER),
        ..REPLAYED
    },
];

#[test]
fn ports_that_have_the_helper(rt: HostRuntime) -> Result<(), Fail> {
    all_hold(&rt, &HELPED)
}
