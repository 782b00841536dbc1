//! Runs that print a summary of the report.

use super::{CAPTURE, NAME, REPLAYED, RULES, SCRIPT, SECOND};
use crate::case::{Case, Faults, NONE, Text, all_hold};
use crate::content::{Content, PLAIN};
use crate::packet::{Ends, IpPacket, QUERY};
use std::test::Fail;

/// The summary of a query and its answer.
const ANSWERED: &str = "\
summary threads=1 packets=2 events=2 live=1
NEW 1
ESTABLISHED_REPLY 1
";

/// A query, and one of another host.
const ONE: Content<'static> = Content::Capture(PLAIN, &[(1000, 0, QUERY)]);

const OTHER: Content<'static> = Content::Capture(
    PLAIN,
    &[(
        1000,
        0,
        IpPacket::Udp(Ends {
            src: 0x0a00_0003,
            sport: 5000,
            dst: 0x0a00_0002,
            dport: 53,
        }),
    )],
);

/// A query of another client, which an answer that nobody asked for comes before: the answer begins the flow, and the query
/// belongs to it.
const LATE_QUERY: Content<'static> = Content::Capture(
    PLAIN,
    &[
        (
            1000,
            0,
            IpPacket::Udp(Ends {
                src: 0x0a00_0002,
                sport: 53,
                dst: 0x0a00_0003,
                dport: 5000,
            }),
        ),
        (
            1001,
            0,
            IpPacket::Udp(Ends {
                src: 0x0a00_0003,
                sport: 5000,
                dst: 0x0a00_0002,
                dport: 53,
            }),
        ),
    ],
);
/// Two flows in one place: the later one drops the earlier, or finds that the other thread keeps the place, also once the
/// entry in it was dropped.
const ONE_PLACE: [&str; 3] = [
    "summary threads=2 packets=2 events=3 live=1\nNEW 2\n",
    "summary threads=2 packets=2 events=1 live=1\nNEW 1\nFULL 1\n",
    "summary threads=2 packets=2 events=2 live=0\nNEW 1\nFULL 1\n",
];

static SUMMARIES: [Case<'static>; 10] = [
    Case {
        words: &["ctreplay", "--summary", NAME],
        out: Text::Is(ANSWERED),
        ..REPLAYED
    },
    Case {
        words: &["ctreplay", NAME, "--summary"],
        out: Text::Is(ANSWERED),
        ..REPLAYED
    },
    // No packet, and no word.
    Case {
        words: &["ctreplay", "--summary", NAME],
        files: &[(NAME, Content::First(24, &CAPTURE))],
        out: Text::Is("summary threads=1 packets=0 events=0 live=0\n"),
        ..REPLAYED
    },
    // The packets of all captures.
    Case {
        words: &["ctreplay", "--summary", NAME, SECOND],
        files: &[(NAME, LATE_QUERY), (SECOND, Content::Bytes(&CAPTURE))],
        out: Text::Is("summary threads=2 packets=4 events=4 live=2\nNEW 2\nESTABLISHED_REPLY 2\n"),
        ..REPLAYED
    },
    Case {
        words: &["ctreplay", "--entries", "2", "--summary", NAME, SECOND],
        files: &[(NAME, ONE), (SECOND, OTHER)],
        out: Text::Is("summary threads=2 packets=2 events=2 live=2\nNEW 2\n"),
        ..REPLAYED
    },
    Case {
        words: &["ctreplay", "--entries", "1", "--summary", NAME, SECOND],
        files: &[(NAME, ONE), (SECOND, OTHER)],
        out: Text::OneOf(&ONE_PLACE),
        ..REPLAYED
    },
    // What the script does counts, and its answers are not printed.
    Case {
        words: &[
            "ctreplay",
            "--summary",
            "--script",
            SCRIPT,
            "--rules",
            RULES,
            NAME,
        ],
        files: &[
            (RULES, Content::Text("# no rules\n")),
            (SCRIPT, Content::Text("wait\n-L\n-F\n-C\n")),
            (NAME, Content::Bytes(&CAPTURE)),
        ],
        out: Text::Is("summary threads=1 packets=2 events=3 live=0\nNEW 1\nESTABLISHED_REPLY 1\n"),
        ..REPLAYED
    },
    // Writing fails, or there is room for some first bytes.
    Case {
        words: &["ctreplay", "--summary", NAME],
        faults: Faults { out: 0, ..NONE },
        status: 4,
        out: Text::Is(""),
        err: Text::Is("ctreplay: write failed\n"),
        ..REPLAYED
    },
    Case {
        words: &["ctreplay", "--summary", NAME],
        room: 20,
        status: 4,
        out: Text::First(20, ANSWERED),
        err: Text::Is("ctreplay: write failed\n"),
        ..REPLAYED
    },
    Case {
        words: &["ctreplay", "--summary", NAME],
        files: &[],
        status: 3,
        out: Text::Is(""),
        err: Text::Is("ctreplay: c.pcap: open failed\n"),
        ..REPLAYED
    },
];

#[test]
fn summaries(rt: HostRuntime) -> Result<(), Fail> {
    all_hold(&rt, &SUMMARIES)
}
