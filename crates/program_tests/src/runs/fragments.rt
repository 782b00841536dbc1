//! Captures whose fragments are put together.

use super::{ANSWERED, NAME, REPLAYED, RULES, SECOND};
use crate::case::{Case, Text, all_hold, holds};
use crate::content::{Content, Form, PLAIN};
use crate::packet::{IpPacket, QUERY, Sent};
use std::test::Fail;

/// The first 24 bytes of a datagram of UDP of 32 bytes, from 10.0.0.1:5000 to 10.0.0.2:53.
const FRONT: [u8; 44] = [
    0x45, 0, 0, 44, 0, 7, 0x20, 0, 0x40, 0x11, 0, 0, 10, 0, 0, 1, 10, 0, 0, 2, 0x13, 0x88, 0, 53,
    0, 32, 0, 0, 1, 2, 3, 4, 5, 6, 7, 8, 9, 10, 11, 12, 13, 14, 15, 16,
];

/// Its last 8 bytes.
const BACK: [u8; 28] = [
    0x45, 0, 0, 28, 0, 7, 0, 3, 0x40, 0x11, 0, 0, 10, 0, 0, 1, 10, 0, 0, 2, 17, 18, 19, 20, 21, 22,
    23, 24,
];

const FIRST: IpPacket<'static> = IpPacket::Raw(&FRONT);

const LAST: IpPacket<'static> = IpPacket::Raw(&BACK);

/// The last piece with another last byte.
const CHANGED: IpPacket<'static> = IpPacket::Changed(&BACK, &[(27, 99)]);

/// A run of one capture, whose fragments are put together.
const REASSEMBLED: Case<'static> = Case {
    words: &["ctreplay", "--defrag", NAME],
    ..REPLAYED
};

/// The report of the datagram, which the second of two pieces completes.
const COMPLETED: &str = "\
events 1
0 confirm 0.1 udp src=10.0.0.1 dst=10.0.0.2 sport=5000 dport=53 src=10.0.0.2 dst=10.0.0.1 sport=53 dport=5000 until=31100000
thread 0 packets 2
0 UNTRACKED fragment
1 NEW id=0 @1
script 0
";

/// The report of two pieces that complete nothing.
const TWO_PIECES: &str = "\
events 0
thread 0 packets 2
0 UNTRACKED fragment
1 UNTRACKED fragment
script 0
";

/// The report of three of them.
const THREE_PIECES: &str = "\
events 0
thread 0 packets 3
0 UNTRACKED fragment
1 UNTRACKED fragment
2 UNTRACKED fragment
script 0
";

/// The last piece, and the first one 100 ms later.
const IN_TIME: [Sent<'static>; 2] = [(1, 0, LAST), (1, 100_000, FIRST)];

/// Frames that have an Ethernet header.
const ETHERNET: Form = Form {
    ethernet: true,
    ..PLAIN
};

static DATAGRAMS: [Case<'static>; 9] = [
    Case {
        files: &[(NAME, Content::Capture(PLAIN, &IN_TIME))],
        out: Text::Is(COMPLETED),
        ..REASSEMBLED
    },
    // Without the option the pieces stay what they are.
    Case {
        words: &["ctreplay", NAME],
        files: &[(NAME, Content::Capture(PLAIN, &IN_TIME))],
        out: Text::Is(TWO_PIECES),
        ..REPLAYED
    },
    // Without a fragment the report is the same.
    Case {
        out: Text::Is(ANSWERED),
        ..REASSEMBLED
    },
    // The pieces disagree about the last byte.
    Case {
        files: &[(
            NAME,
            Content::Capture(PLAIN, &[(1, 0, LAST), (1, 0, CHANGED), (1, 0, FIRST)]),
        )],
        out: Text::Is(THREE_PIECES),
        ..REASSEMBLED
    },
    // The first piece comes 30 s after the last one, and a microsecond before that.
    Case {
        files: &[(
            NAME,
            Content::Capture(PLAIN, &[(1, 0, LAST), (31, 0, FIRST)]),
        )],
        out: Text::Is(TWO_PIECES),
        ..REASSEMBLED
    },
    Case {
        files: &[(
            NAME,
            Content::Capture(PLAIN, &[(1, 0, LAST), (30, 999_999, FIRST)]),
        )],
        out: Text::Around(
            "events 1\n",
            "\n0 UNTRACKED fragment\n1 NEW id=0 @1\nscript 0\n",
        ),
        ..REASSEMBLED
    },
    Case {
        files: &[(NAME, Content::Capture(ETHERNET, &IN_TIME))],
        out: Text::Is(COMPLETED),
        ..REASSEMBLED
    },
    // A datagram of a protocol that is not tracked.
    Case {
        files: &[(
            NAME,
            Content::Capture(
                PLAIN,
                &[
                    (1, 0, IpPacket::Changed(&FRONT, &[(9, 47)])),
                    (1, 0, IpPacket::Changed(&BACK, &[(9, 47)])),
                ],
            ),
        )],
        out: Text::Is(
            "events 0\nthread 0 packets 2\n0 UNTRACKED fragment\n1 UNTRACKED protocol\nscript 0\n",
        ),
        ..REASSEMBLED
    },
    Case {
        words: &["ctreplay", "--summary", NAME, "--defrag"],
        files: &[(NAME, Content::Capture(PLAIN, &IN_TIME))],
        out: Text::Is("summary threads=1 packets=2 events=1 live=1\nUNTRACKED 1\nNEW 1\n"),
        ..REASSEMBLED
    },
];

#[test]
fn datagrams_that_are_complete_or_not(rt: HostRuntime) -> Result<(), Fail> {
    all_hold(&rt, &DATAGRAMS)
}

/// The pieces of an answer to the query, in the other direction.
const ANSWER_FIRST: IpPacket<'static> = IpPacket::Changed(
    &FRONT,
    &[(15, 2), (19, 1), (20, 0), (21, 53), (22, 0x13), (23, 0x88)],
);

const ANSWER_LAST: IpPacket<'static> = IpPacket::Changed(&BACK, &[(15, 2), (19, 1)]);

/// A query and its answer in two pieces, which is then sent again.
const LARGE_ANSWER: [Sent<'static>; 5] = [
    (1, 0, QUERY),
    (1, 0, ANSWER_FIRST),
    (1, 100_000, ANSWER_LAST),
    (1, 200_000, ANSWER_LAST),
    (1, 300_000, ANSWER_FIRST),
];

const ANSWERED_LARGE: &str = "\
events 3
0 confirm 0.0 udp src=10.0.0.1 dst=10.0.0.2 sport=5000 dport=53 src=10.0.0.2 dst=10.0.0.1 sport=53 dport=5000 until=31000000
1 touch 0.2 id=0 reply until=121100000 replied
2 touch 0.4 id=0 reply until=121300000 replied
thread 0 packets 5
0 NEW id=0 @1
1 UNTRACKED fragment
2 ESTABLISHED_REPLY id=0 @2
3 UNTRACKED fragment
4 ESTABLISHED_REPLY id=0 @3
script 0
";

#[test]
fn a_large_answer(rt: HostRuntime) -> Result<(), Fail> {
    static CASE: Case<'static> = Case {
        files: &[(NAME, Content::Capture(PLAIN, &LARGE_ANSWER))],
        out: Text::Is(ANSWERED_LARGE),
        ..REASSEMBLED
    };
    holds(&rt, &CASE, 0)
}

const TRANSLATED: &str = "\
events 1
0 confirm 0.1 udp src=10.0.0.1 dst=10.0.0.2 sport=5000 dport=53 src=10.0.0.2 dst=192.0.2.1 sport=53 dport=5000 until=31100000 zone=7
thread 0 packets 2
0 UNTRACKED fragment
1 NEW id=0 @1
script 0
";

/// Each capture has its own pieces.
const APART: &str = "\
events 0
thread 0 packets 1
0 UNTRACKED fragment
thread 1 packets 1
0 UNTRACKED fragment
script 0
";

static BESIDE_OTHER_OPTIONS: [Case<'static>; 3] = [
    Case {
        words: &[
            "ctreplay", "--rules", RULES, "--zones", "7", "--defrag", NAME,
        ],
        files: &[
            (RULES, Content::Text("snat -s 10.0.0.0/8 to 192.0.2.1\n")),
            (NAME, Content::Capture(PLAIN, &IN_TIME)),
        ],
        out: Text::Is(TRANSLATED),
        ..REASSEMBLED
    },
    Case {
        words: &["ctreplay", "--defrag", NAME, SECOND],
        files: &[
            (NAME, Content::Capture(PLAIN, &[(1, 0, FIRST)])),
            (SECOND, Content::Capture(PLAIN, &[(1, 0, LAST)])),
        ],
        out: Text::Is(APART),
        ..REASSEMBLED
    },
    Case {
        words: &[
            "ctreplay",
            "--defrag",
            "--make",
            "0",
            "--packets",
            "4",
            "--threads",
            "1",
            "--summary",
        ],
        files: &[],
        out: Text::Is(
            "summary threads=1 packets=4 events=4 live=1\nNEW 1\nESTABLISHED 1\nESTABLISHED_REPLY 2\n",
        ),
        ..REASSEMBLED
    },
];

#[test]
fn fragments_beside_other_options(rt: HostRuntime) -> Result<(), Fail> {
    all_hold(&rt, &BESIDE_OTHER_OPTIONS)
}
