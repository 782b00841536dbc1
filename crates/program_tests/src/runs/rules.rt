//! Runs with a file of rules.

use super::{CAPTURE, NAME, REFUSED, REPLAYED, RULES};
use crate::case::{Case, Faults, NONE, Text, all_hold};
use crate::content::Content;
use std::test::Fail;

const APART: &str = "\
# the office
snat -p udp -s 192.168.0.0/16 to 203.0.113.1:4000-4999
dnat -d 203.0.113.1 to 192.168.0.2
";

/// A run with these rules, which changes nothing.
const RULED: Case<'static> = Case {
    words: &["ctreplay", "--rules", RULES, NAME],
    files: &[
        (RULES, Content::Text(APART)),
        (NAME, Content::Bytes(&CAPTURE)),
    ],
    ..REPLAYED
};

/// A run with them that is refused.
const NOT_RULED: Case<'static> = Case {
    status: 2,
    out: Text::Is(""),
    ..RULED
};

static WORDS: [Case<'static>; 6] = [
    RULED,
    Case {
        words: &["", "--rules=r.rules", NAME],
        ..RULED
    },
    Case {
        words: &["ctreplay", NAME, "--rules", RULES],
        ..RULED
    },
    Case {
        words: &["--rules", RULES, NAME],
        err: Text::Is("ctreplay: r.rules: bad magic\n"),
        ..NOT_RULED
    },
    Case {
        words: &["ctreplay", "--rules", "", NAME],
        status: 3,
        err: Text::Is("ctreplay: : open failed\n"),
        ..NOT_RULED
    },
    Case {
        words: &["ctreplay", "--rules", RULES, ""],
        status: 3,
        err: Text::Is("ctreplay: : open failed\n"),
        ..NOT_RULED
    },
];

#[test]
fn words_with_rules(rt: HostRuntime) -> Result<(), Fail> {
    all_hold(&rt, &WORDS)
}

/// The rules come first: it is the same where the capture is flawed, too.
static FLAWED: [Case<'static>; 12] = [
    Case {
        files: &[
            (RULES, Content::Text("# one\n\nsnat 10.0.0.1\n")),
            (NAME, Content::Bytes(&CAPTURE)),
        ],
        err: Text::Is("ctreplay: r.rules: line 3: word\n"),
        ..NOT_RULED
    },
    Case {
        files: &[
            (RULES, Content::Text("# one\n\nsnat 10.0.0.1\n")),
            (NAME, Content::Text("pcapng")),
        ],
        err: Text::Is("ctreplay: r.rules: line 3: word\n"),
        ..NOT_RULED
    },
    Case {
        files: &[
            (RULES, Content::Text("snat to 300.0.0.1")),
            (NAME, Content::Bytes(&CAPTURE)),
        ],
        err: Text::Is("ctreplay: r.rules: line 1: address\n"),
        ..NOT_RULED
    },
    Case {
        files: &[
            (RULES, Content::Text("snat to 300.0.0.1")),
            (NAME, Content::Text("pcapng")),
        ],
        err: Text::Is("ctreplay: r.rules: line 1: address\n"),
        ..NOT_RULED
    },
    Case {
        files: &[
            (
                RULES,
                Content::Text("snat to 192.0.2.1\nsnat -s 10.0.0.0/33 to 192.0.2.1\n"),
            ),
            (NAME, Content::Bytes(&CAPTURE)),
        ],
        err: Text::Is("ctreplay: r.rules: line 2: prefix\n"),
        ..NOT_RULED
    },
    Case {
        files: &[
            (
                RULES,
                Content::Text("snat to 192.0.2.1\nsnat -s 10.0.0.0/33 to 192.0.2.1\n"),
            ),
            (NAME, Content::Text("pcapng")),
        ],
        err: Text::Is("ctreplay: r.rules: line 2: prefix\n"),
        ..NOT_RULED
    },
    Case {
        files: &[
            (RULES, Content::Text("\r\nsnat -p udp to 192.0.2.1:2-1\r\n")),
            (NAME, Content::Bytes(&CAPTURE)),
        ],
        err: Text::Is("ctreplay: r.rules: line 2: range\n"),
        ..NOT_RULED
    },
    Case {
        files: &[
            (RULES, Content::Text("\r\nsnat -p udp to 192.0.2.1:2-1\r\n")),
            (NAME, Content::Text("pcapng")),
        ],
        err: Text::Is("ctreplay: r.rules: line 2: range\n"),
        ..NOT_RULED
    },
    Case {
        files: &[
            (RULES, Content::Repeated(257, "snat to 192.0.2.1\n", "")),
            (NAME, Content::Bytes(&CAPTURE)),
        ],
        err: Text::Is("ctreplay: r.rules: line 257: too many\n"),
        ..NOT_RULED
    },
    Case {
        files: &[
            (RULES, Content::Repeated(257, "snat to 192.0.2.1\n", "")),
            (NAME, Content::Text("pcapng")),
        ],
        err: Text::Is("ctreplay: r.rules: line 257: too many\n"),
        ..NOT_RULED
    },
    Case {
        files: &[
            (RULES, Content::Bytes(&CAPTURE)),
            (NAME, Content::Bytes(&CAPTURE)),
        ],
        err: Text::Is("ctreplay: r.rules: line 1: word\n"),
        ..NOT_RULED
    },
    Case {
        files: &[
            (RULES, Content::Bytes(&CAPTURE)),
            (NAME, Content::Text("pcapng")),
        ],
        err: Text::Is("ctreplay: r.rules: line 1: word\n"),
        ..NOT_RULED
    },
];

#[test]
fn flaws_of_rules(rt: HostRuntime) -> Result<(), Fail> {
    all_hold(&rt, &FLAWED)
}

static FLAWED_CAPTURES: [Case<'static>; 2] = [
    Case {
        files: &[
            (RULES, Content::Text("")),
            (NAME, Content::First(23, &CAPTURE)),
        ],
        err: Text::Is("ctreplay: c.pcap: short header\n"),
        ..NOT_RULED
    },
    Case {
        files: &[
            (RULES, Content::Text(APART)),
            (NAME, Content::First(119, &CAPTURE)),
        ],
        err: Text::Is("ctreplay: c.pcap: record 1 cut at offset 72\n"),
        ..NOT_RULED
    },
];

#[test]
fn flaws_of_the_capture_behind_rules(rt: HostRuntime) -> Result<(), Fail> {
    all_hold(&rt, &FLAWED_CAPTURES)
}

static UNKNOWN: [Case<'static>; 3] = [
    Case {
        words: &["ctreplay", "--rules", "q.rules", NAME],
        status: 3,
        err: Text::Is("ctreplay: q.rules: open failed\n"),
        ..NOT_RULED
    },
    Case {
        words: &["ctreplay", "--rules", "q.rules", "b.pcap"],
        status: 3,
        err: Text::Is("ctreplay: q.rules: open failed\n"),
        ..NOT_RULED
    },
    Case {
        words: &["ctreplay", "--rules", RULES, "b.pcap"],
        status: 3,
        err: Text::Is("ctreplay: b.pcap: open failed\n"),
        ..NOT_RULED
    },
];

#[test]
fn one_of_the_files_is_unknown(rt: HostRuntime) -> Result<(), Fail> {
    all_hold(&rt, &UNKNOWN)
}

/// A run in which the rules and the capture are one file.
const ONE_FILE: Case<'static> = Case {
    words: &["ctreplay", "--rules", NAME, NAME],
    ..REFUSED
};

static ONE_FILES: [Case<'static>; 3] = [
    Case {
        err: Text::Is("ctreplay: c.pcap: line 1: word\n"),
        ..ONE_FILE
    },
    Case {
        files: &[(NAME, Content::Text(APART))],
        err: Text::Is("ctreplay: c.pcap: bad magic\n"),
        ..ONE_FILE
    },
    Case {
        files: &[(NAME, Content::Text(""))],
        err: Text::Is("ctreplay: c.pcap: short header\n"),
        ..ONE_FILE
    },
];

#[test]
fn one_name_for_both_files(rt: HostRuntime) -> Result<(), Fail> {
    all_hold(&rt, &ONE_FILES)
}

/// A run that a failed call of the files ends.
const NOT_READ: Case<'static> = Case {
    status: 3,
    ..NOT_RULED
};

static CALLS: [Case<'static>; 7] = [
    Case {
        faults: Faults { files: 0, ..NONE },
        err: Text::Is("ctreplay: r.rules: open failed\n"),
        ..NOT_READ
    },
    Case {
        faults: Faults { files: 1, ..NONE },
        err: Text::Is("ctreplay: r.rules: read failed\n"),
        ..NOT_READ
    },
    Case {
        faults: Faults { files: 2, ..NONE },
        err: Text::Is("ctreplay: r.rules: read failed\n"),
        ..NOT_READ
    },
    Case {
        faults: Faults { files: 3, ..NONE },
        err: Text::Is("ctreplay: c.pcap: open failed\n"),
        ..NOT_READ
    },
    Case {
        faults: Faults { files: 4, ..NONE },
        err: Text::Is("ctreplay: c.pcap: read failed\n"),
        ..NOT_READ
    },
    Case {
        faults: Faults { files: 5, ..NONE },
        err: Text::Is("ctreplay: c.pcap: read failed\n"),
        ..NOT_READ
    },
    Case {
        faults: Faults { files: 6, ..NONE },
        ..RULED
    },
];

#[test]
fn each_call_of_both_files_fails(rt: HostRuntime) -> Result<(), Fail> {
    all_hold(&rt, &CALLS)
}

/// A line of 64 bytes. A file of rules has 16,384 such lines at most.
const COMMENT: &str = "###############################################################\n";

/// The most bytes of rules, one more, and four times as many.
const MOST: Content<'static> = Content::Repeated(16_384, COMMENT, "");

const TOO_MANY: Content<'static> = Content::Repeated(16_384, COMMENT, "#");

const FAR_TOO_MANY: Content<'static> = Content::Repeated(65_536, COMMENT, "");

/// Pieces have 65,536 bytes, so the 17th read shows that there are too many, and no call comes after it.
static LONG: [Case<'static>; 6] = [
    Case {
        files: &[(RULES, MOST), (NAME, Content::Bytes(&CAPTURE))],
        ..RULED
    },
    Case {
        files: &[(RULES, MOST), (NAME, Content::Bytes(&CAPTURE))],
        faults: Faults { files: 17, ..NONE },
        status: 3,
        err: Text::Is("ctreplay: r.rules: read failed\n"),
        ..NOT_RULED
    },
    Case {
        files: &[(RULES, MOST), (NAME, Content::Bytes(&CAPTURE))],
        faults: Faults { files: 18, ..NONE },
        status: 3,
        err: Text::Is("ctreplay: c.pcap: open failed\n"),
        ..NOT_RULED
    },
    Case {
        files: &[(RULES, TOO_MANY), (NAME, Content::Bytes(&CAPTURE))],
        faults: Faults { files: 18, ..NONE },
        status: 5,
        err: Text::Is("ctreplay: limit: rules bytes\n"),
        ..NOT_RULED
    },
    Case {
        files: &[(RULES, TOO_MANY), (NAME, Content::Bytes(&CAPTURE))],
        faults: Faults { files: 17, ..NONE },
        status: 3,
        err: Text::Is("ctreplay: r.rules: read failed\n"),
        ..NOT_RULED
    },
    Case {
        files: &[(RULES, FAR_TOO_MANY), (NAME, Content::Bytes(&CAPTURE))],
        faults: Faults { files: 18, ..NONE },
        status: 5,
        err: Text::Is("ctreplay: limit: rules bytes\n"),
        ..NOT_RULED
    },
];

#[test]
fn rules_of_the_most_bytes(rt: HostRuntime) -> Result<(), Fail> {
    all_hold(&rt, &LONG)
}
