//! Captures with damage, and with frames that are of no flow.

use super::{ANSWERED, CAPTURE, NAME, REFUSED, REPLAYED};
use crate::case::{Case, Text, all_hold, holds};
use crate::content::{Content, Form, PLAIN};
use crate::packet::{ANSWER, IpPacket, QUERY, Sent};
use std::test::Fail;

/// The header of a capture, with no record.
const HEADER: [u8; 24] = [
    0xd4, 0xc3, 0xb2, 0xa1, 2, 0, 4, 0, 0, 0, 0, 0, 0, 0, 0, 0, 0xff, 0xff, 0, 0, 0x65, 0, 0, 0,
];

/// The magic number of a pcapng file.
const NEXT_GENERATION: [(usize, u8); 4] = [(0, 0x0a), (1, 0x0d), (2, 0x0d), (3, 0x0a)];

/// The first record has 262,145 captured bytes.
const TOO_LONG: [(usize, u8); 3] = [(32, 1), (33, 0), (34, 4)];

/// The first record's fraction is 1,000,000 microseconds.
const WHOLE_SECOND: [(usize, u8); 3] = [(28, 0x40), (29, 0x42), (30, 0x0f)];

/// The report of the query alone.
const ASKED_ONCE: &str = "\
events 1
0 confirm 0.0 udp src=10.0.0.1 dst=10.0.0.2 sport=5000 dport=53 src=10.0.0.2 dst=10.0.0.1 sport=53 dport=5000 until=1030000000
thread 0 packets 1
0 NEW id=0 @1
script 0
";

static DAMAGED: [Case<'static>; 18] = [
    Case {
        files: &[(NAME, Content::Text(""))],
        err: Text::Is("ctreplay: c.pcap: short header\n"),
        ..REFUSED
    },
    Case {
        files: &[(NAME, Content::First(23, &CAPTURE))],
        err: Text::Is("ctreplay: c.pcap: short header\n"),
        ..REFUSED
    },
    Case {
        files: &[(NAME, Content::Changed(&CAPTURE, &[(0, 0x0a)]))],
        err: Text::Is("ctreplay: c.pcap: bad magic\n"),
        ..REFUSED
    },
    Case {
        files: &[(NAME, Content::Changed(&CAPTURE, &[(6, 3)]))],
        err: Text::Is("ctreplay: c.pcap: bad version\n"),
        ..REFUSED
    },
    Case {
        files: &[(NAME, Content::Changed(&CAPTURE, &[(20, 113)]))],
        err: Text::Is("ctreplay: c.pcap: link type 113\n"),
        ..REFUSED
    },
    Case {
        files: &[(NAME, Content::First(25, &CAPTURE))],
        err: Text::Is("ctreplay: c.pcap: record 0 cut at offset 24\n"),
        ..REFUSED
    },
    Case {
        files: &[(NAME, Content::First(71, &CAPTURE))],
        err: Text::Is("ctreplay: c.pcap: record 0 cut at offset 24\n"),
        ..REFUSED
    },
    Case {
        files: &[(NAME, Content::First(73, &CAPTURE))],
        err: Text::Is("ctreplay: c.pcap: record 1 cut at offset 72\n"),
        ..REFUSED
    },
    Case {
        files: &[(NAME, Content::First(119, &CAPTURE))],
        err: Text::Is("ctreplay: c.pcap: record 1 cut at offset 72\n"),
        ..REFUSED
    },
    Case {
        files: &[(NAME, Content::Changed(&CAPTURE, &[(34, 5)]))],
        err: Text::Is("ctreplay: c.pcap: record 0 too long\n"),
        ..REFUSED
    },
    Case {
        files: &[(NAME, Content::Changed(&CAPTURE, &[(31, 0x7f)]))],
        err: Text::Is("ctreplay: c.pcap: record 0 fraction\n"),
        ..REFUSED
    },
    Case {
        files: &[(NAME, Content::Changed(&CAPTURE, &[(79, 0x7f)]))],
        err: Text::Is("ctreplay: c.pcap: record 1 fraction\n"),
        ..REFUSED
    },
    Case {
        files: &[(NAME, Content::Changed(&HEADER, &NEXT_GENERATION))],
        err: Text::Is("ctreplay: c.pcap: bad magic\n"),
        ..REFUSED
    },
    Case {
        files: &[(NAME, Content::Changed(&HEADER, &[(6, 3)]))],
        err: Text::Is("ctreplay: c.pcap: bad version\n"),
        ..REFUSED
    },
    Case {
        files: &[(NAME, Content::Changed(&HEADER, &[(20, 113)]))],
        err: Text::Is("ctreplay: c.pcap: link type 113\n"),
        ..REFUSED
    },
    Case {
        files: &[(NAME, Content::Changed(&CAPTURE, &TOO_LONG))],
        err: Text::Is("ctreplay: c.pcap: record 0 too long\n"),
        ..REFUSED
    },
    Case {
        files: &[(NAME, Content::Changed(&CAPTURE, &WHOLE_SECOND))],
        err: Text::Is("ctreplay: c.pcap: record 0 fraction\n"),
        ..REFUSED
    },
    Case {
        files: &[(NAME, Content::First(72, &CAPTURE))],
        out: Text::Is(ASKED_ONCE),
        ..REPLAYED
    },
];

#[test]
fn damaged_captures(rt: HostRuntime) -> Result<(), Fail> {
    all_hold(&rt, &DAMAGED)
}

/// The word of 10.0.0.2 to 10.0.0.1 that the query's port is unreachable, with the query in it.
const UNREACHABLE: [u8; 60] = [
    0x45, 0, 0, 0x3c, 0, 0, 0, 0, 0x40, 1, 0, 0, 10, 0, 0, 2, 10, 0, 0, 1, 3, 3, 0, 0, 0, 0, 0, 0,
    0x45, 0, 0, 0x20, 0, 0, 0, 0, 0x40, 0x11, 0, 0, 10, 0, 0, 1, 10, 0, 0, 2, 0x13, 0x88, 0, 0x35,
    0, 0x0c, 0, 0, 0, 0, 0, 0,
];

const ERRORS: &str = "\
events 1
0 confirm 0.0 udp src=10.0.0.1 dst=10.0.0.2 sport=5000 dport=53 src=10.0.0.2 dst=10.0.0.1 sport=53 dport=5000 until=1030000000
thread 0 packets 5
0 NEW id=0 @1
1 RELATED_REPLY error id=0 @1
2 INVALID address id=0 @1
3 INVALID error @1
4 RELATED error id=0 @1
script 0
";

#[test]
fn errors_about_a_flow(rt: HostRuntime) -> Result<(), Fail> {
    const ELSEWHERE: IpPacket<'static> = IpPacket::Changed(&UNREACHABLE, &[(19, 3)]);
    const UNKNOWN: IpPacket<'static> = IpPacket::Changed(&UNREACHABLE, &[(49, 0x89)]);
    const ABOUT_THE_ANSWER: IpPacket<'static> = IpPacket::Changed(
        &UNREACHABLE,
        &[
            (19, 2),
            (43, 2),
            (47, 1),
            (48, 0),
            (49, 0x35),
            (50, 0x13),
            (51, 0x88),
        ],
    );
    const SENT: [Sent<'static>; 5] = [
        (1000, 0, QUERY),
        (1000, 0, IpPacket::Raw(&UNREACHABLE)),
        (1000, 0, ELSEWHERE),
        (1000, 0, UNKNOWN),
        (1000, 0, ABOUT_THE_ANSWER),
    ];
    static CASE: Case<'static> = Case {
        files: &[(NAME, Content::Capture(PLAIN, &SENT))],
        out: Text::Is(ERRORS),
        ..REPLAYED
    };
    holds(&rt, &CASE, 0)
}

const HEADERS: &str = "\
events 0
thread 0 packets 9
0 INVALID header
1 INVALID header
2 INVALID header
3 INVALID header
4 INVALID header
5 UNTRACKED link
6 UNTRACKED fragment
7 UNTRACKED protocol
8 INVALID header
script 0
";

/// The bytes of the query.
const ASKED: [u8; 32] = [
    0x45, 0, 0, 0x20, 0, 0, 0, 0, 0x40, 0x11, 0, 0, 10, 0, 0, 1, 10, 0, 0, 2, 0x13, 0x88, 0, 0x35,
    0, 0x0c, 0, 0, 0, 0, 0, 0,
];

/// A packet of TCP with a header of 20 bytes; the upper half of byte 32 is its data offset.
const SYN: [u8; 40] = [
    0x45, 0, 0, 0x28, 0, 0, 0, 0, 0x40, 6, 0, 0, 10, 0, 0, 1, 10, 0, 0, 2, 0x9c, 0x40, 0, 0x50, 0,
    0, 0, 0, 0, 0, 0, 0, 0x50, 2, 0, 0, 0, 0, 0, 0,
];

#[test]
fn headers_that_are_wrong_or_not_tracked(rt: HostRuntime) -> Result<(), Fail> {
    const SHORT_OFFSET: IpPacket<'static> = IpPacket::Changed(&SYN, &[(32, 0x40)]);
    const ABOUT_ANOTHER: IpPacket<'static> = IpPacket::Changed(&UNREACHABLE, &[(37, 47)]);
    const SENT: [Sent<'static>; 9] = [
        (1000, 0, IpPacket::Changed(&ASKED, &[(3, 19)])),
        (1000, 0, IpPacket::Changed(&ASKED, &[(0, 0x44)])),
        (1000, 0, IpPacket::Changed(&ASKED, &[(25, 7)])),
        (1000, 0, SHORT_OFFSET),
        (1000, 0, ABOUT_ANOTHER),
        (1000, 0, IpPacket::Changed(&ASKED, &[(0, 0x65)])),
        (1000, 0, IpPacket::Changed(&ASKED, &[(6, 0x20)])),
        (1000, 0, IpPacket::Changed(&ASKED, &[(9, 47)])),
        (1000, 0, IpPacket::Raw(b"")),
    ];
    static CASE: Case<'static> = Case {
        files: &[(NAME, Content::Capture(PLAIN, &SENT))],
        out: Text::Is(HEADERS),
        ..REPLAYED
    };
    holds(&rt, &CASE, 0)
}

/// The query and its answer.
const ASKED_AND_ANSWERED: [Sent<'static>; 2] = [(1000, 0, QUERY), (1000, 500_000, ANSWER)];

static FORMS: [Case<'static>; 8] = [
    Case {
        files: &[(
            NAME,
            Content::Capture(
                Form {
                    highest_first: false,
                    nanoseconds: false,
                    ethernet: false,
                },
                &ASKED_AND_ANSWERED,
            ),
        )],
        ..REPLAYED
    },
    Case {
        files: &[(
            NAME,
            Content::Capture(
                Form {
                    highest_first: false,
                    nanoseconds: false,
                    ethernet: true,
                },
                &ASKED_AND_ANSWERED,
            ),
        )],
        ..REPLAYED
    },
    Case {
        files: &[(
            NAME,
            Content::Capture(
                Form {
                    highest_first: false,
                    nanoseconds: true,
                    ethernet: false,
                },
                &ASKED_AND_ANSWERED,
            ),
        )],
        ..REPLAYED
    },
    Case {
        files: &[(
            NAME,
            Content::Capture(
                Form {
                    highest_first: false,
                    nanoseconds: true,
                    ethernet: true,
                },
                &ASKED_AND_ANSWERED,
            ),
        )],
        ..REPLAYED
    },
    Case {
        files: &[(
            NAME,
            Content::Capture(
                Form {
                    highest_first: true,
                    nanoseconds: false,
                    ethernet: false,
                },
                &ASKED_AND_ANSWERED,
            ),
        )],
        ..REPLAYED
    },
    Case {
        files: &[(
            NAME,
            Content::Capture(
                Form {
                    highest_first: true,
                    nanoseconds: false,
                    ethernet: true,
                },
                &ASKED_AND_ANSWERED,
            ),
        )],
        ..REPLAYED
    },
    Case {
        files: &[(
            NAME,
            Content::Capture(
                Form {
                    highest_first: true,
                    nanoseconds: true,
                    ethernet: false,
                },
                &ASKED_AND_ANSWERED,
            ),
        )],
        ..REPLAYED
    },
    Case {
        files: &[(
            NAME,
            Content::Capture(
                Form {
                    highest_first: true,
                    nanoseconds: true,
                    ethernet: true,
                },
                &ASKED_AND_ANSWERED,
            ),
        )],
        ..REPLAYED
    },
];

#[test]
fn each_form_has_the_same_report(rt: HostRuntime) -> Result<(), Fail> {
    all_hold(&rt, &FORMS)
}

/// The capture whose records lack the last byte of their packets.
const SHORTER: [u8; 118] = [
    0xd4, 0xc3, 0xb2, 0xa1, 2, 0, 4, 0, 0, 0, 0, 0, 0, 0, 0, 0, 0xff, 0xff, 0, 0, 0x65, 0, 0, 0,
    0xe8, 3, 0, 0, 0, 0, 0, 0, 0x1f, 0, 0, 0, 0x20, 0, 0, 0, 0x45, 0, 0, 0x20, 0, 0, 0, 0, 0x40,
    0x11, 0, 0, 0x0a, 0, 0, 1, 0x0a, 0, 0, 2, 0x13, 0x88, 0, 0x35, 0, 0x0c, 0, 0, 0, 0, 0, 0xe8, 3,
    0, 0, 0x20, 0xa1, 7, 0, 0x1f, 0, 0, 0, 0x20, 0, 0, 0, 0x45, 0, 0, 0x20, 0, 0, 0, 0, 0x40, 0x11,
    0, 0, 0x0a, 0, 0, 2, 0x0a, 0, 0, 1, 0, 0x35, 0x13, 0x88, 0, 0x0c, 0, 0, 0, 0, 0,
];

#[test]
fn a_byte_less_of_each_packet_changes_nothing(rt: HostRuntime) -> Result<(), Fail> {
    static CASE: Case<'static> = Case {
        files: &[(NAME, Content::Bytes(&SHORTER))],
        out: Text::Is(ANSWERED),
        ..REPLAYED
    };
    holds(&rt, &CASE, 0)
}
