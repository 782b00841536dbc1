//! Captures in zones: flows of different zones never meet.

use super::{CAPTURE, NAME, REPLAYED, SCRIPT, SECOND};
use crate::case::{Case, Text, all_hold, holds};
use crate::content::{Content, PLAIN};
use crate::packet::{ACK, Ends, IpPacket, PSH, SYN, Sent};
use std::test::Fail;

const ANSWERED_IN_7: &str = "\
events 2
0 confirm 0.0 udp src=10.0.0.1 dst=10.0.0.2 sport=5000 dport=53 src=10.0.0.2 dst=10.0.0.1 sport=53 dport=5000 until=1030000000 zone=7
1 touch 0.1 id=0 reply until=1120500000 replied
thread 0 packets 2
0 NEW id=0 @1
1 ESTABLISHED_REPLY id=0 @2
script 0
";

#[test]
fn a_capture_in_a_zone(rt: HostRuntime) -> Result<(), Fail> {
    static CASE: Case<'static> = Case {
        words: &["ctreplay", "--zones", "7", NAME],
        out: Text::Is(ANSWERED_IN_7),
        ..REPLAYED
    };
    holds(&rt, &CASE, 0)
}

const ASKED_BY_ZONE: &str = "\
events 2
0 confirm 0.0 udp src=10.0.0.1 dst=10.0.0.2 sport=5000 dport=53 src=10.0.0.2 dst=10.0.0.1 sport=53 dport=5000 until=1030000000 zone=7
1 touch 0.1 id=0 reply until=1120500000 replied
thread 0 packets 2
0 NEW id=0 @1
1 ESTABLISHED_REPLY id=0 @2
script 5
0 list 1 @2 @2
udp      17 120 src=10.0.0.1 dst=10.0.0.2 sport=5000 dport=53 src=10.0.0.2 dst=10.0.0.1 sport=53 dport=5000 zone=7 @2
1 list 0 @2 @2
2 get 1 @2
udp      17 120 src=10.0.0.1 dst=10.0.0.2 sport=5000 dport=53 src=10.0.0.2 dst=10.0.0.1 sport=53 dport=5000 zone=7 @2
3 get 0 @2
4 deleted 0 @2 @2
";

const COMMANDS_BY_ZONE: &str = "\
wait
-L -w 7
-L -w 0
-G -w 7 -p udp -s 10.0.0.1 -d 10.0.0.2 --sport 5000 --dport 53
-G -p udp -s 10.0.0.1 -d 10.0.0.2 --sport 5000 --dport 53
-D -w 8
";

#[test]
fn commands_for_a_zone(rt: HostRuntime) -> Result<(), Fail> {
    static CASE: Case<'static> = Case {
        words: &["ctreplay", "--zones", "7", "--script", SCRIPT, NAME],
        files: &[
            (SCRIPT, Content::Text(COMMANDS_BY_ZONE)),
            (NAME, Content::Bytes(&CAPTURE)),
        ],
        room: 2000,
        out: Text::Is(ASKED_BY_ZONE),
        ..REPLAYED
    };
    holds(&rt, &CASE, 0)
}

/// The same capture twice, and a script that counts the live entries behind it.
const TWICE: &[(&str, Content<'static>)] = &[
    (SCRIPT, Content::Text("wait\n-C\n")),
    (NAME, Content::Bytes(&CAPTURE)),
    (SECOND, Content::Bytes(&CAPTURE)),
];

/// One entry for both captures. Where both queries find nothing, the one that comes too late is MERGED, and makes no event.
const ONE_ENTRY: Text<'static> = Text::AroundEither(
    "events 4\n",
    "script 1\n0 count 1 @4\n",
    "events 3\n",
    "script 1\n0 count 1 @3\n",
);

static COUNTS: [Case<'static>; 3] = [
    Case {
        words: &[
            "ctreplay", "--script", SCRIPT, "--zones", "1,2", NAME, SECOND,
        ],
        files: TWICE,
        out: Text::Around("events 4\n", "script 1\n0 count 2 @4\n"),
        ..REPLAYED
    },
    Case {
        words: &[
            "ctreplay", "--script", SCRIPT, "--zones", "2,2", NAME, SECOND,
        ],
        files: TWICE,
        out: ONE_ENTRY,
        ..REPLAYED
    },
    Case {
        words: &["ctreplay", "--script", SCRIPT, NAME, SECOND],
        files: TWICE,
        out: ONE_ENTRY,
        ..REPLAYED
    },
];

#[test]
fn one_flow_in_two_zones_is_two_entries(rt: HostRuntime) -> Result<(), Fail> {
    all_hold(&rt, &COUNTS)
}

const CONTROL: Ends = Ends {
    src: 0x0a00_0001,
    sport: 40_000,
    dst: 0x0a00_0002,
    dport: 21,
};

const CONTROL_BACK: Ends = Ends {
    src: 0x0a00_0002,
    sport: 21,
    dst: 0x0a00_0001,
    dport: 40_000,
};

const EXPECTED_IN_65535: &str = "\
events 6
0 confirm 0.0 tcp src=10.0.0.1 dst=10.0.0.2 sport=40000 dport=21 src=10.0.0.2 dst=10.0.0.1 sport=21 dport=40000 until=121000000 state=SYN_SENT helper zone=65535
1 touch 0.1 id=0 reply until=62000000 state=SYN_RECV replied
2 touch 0.2 id=0 original until=432003000000 state=ESTABLISHED replied assured
3 touch 0.3 id=0 original until=432004000000 state=ESTABLISHED replied assured
4 expect 0.3 master=0 src=10.0.0.2 dst=10.0.0.1 dport=40001 until=304000000 zone=65535
5 destroy s.1 id=0 deleted
thread 0 packets 4
0 NEW id=0 @1
1 ESTABLISHED_REPLY id=0 @2
2 ESTABLISHED id=0 @3
3 ESTABLISHED id=0 @4 ftp expect=4
script 3
0 expectations 1 @5
300 proto=6 src=10.0.0.2 dst=10.0.0.1 sport=0 dport=40001 master=0 zone=65535 @5
1 deleted 1 @5 @6
tcp      6 432000 ESTABLISHED src=10.0.0.1 dst=10.0.0.2 sport=40000 dport=21 src=10.0.0.2 dst=10.0.0.1 sport=21 dport=40000 [ASSURED] zone=65535 @5
2 expectations 0 @6
";

#[test]
fn what_is_expected_is_in_its_masters_zone(rt: HostRuntime) -> Result<(), Fail> {
    const SENT: [Sent<'static>; 4] = [
        (1, 0, IpPacket::Tcp(CONTROL, SYN, b"")),
        (2, 0, IpPacket::Tcp(CONTROL_BACK, SYN | ACK, b"")),
        (3, 0, IpPacket::Tcp(CONTROL, ACK, b"")),
        (
            4,
            0,
            IpPacket::Tcp(CONTROL, ACK | PSH, b"PORT 10,0,0,1,156,65\r\n"),
        ),
    ];
    static CASE: Case<'static> = Case {
        words: &["ctreplay", "--zones=65535", "--script", SCRIPT, NAME],
        files: &[
            (
                SCRIPT,
                Content::Text("wait\n-L expect\n-D -w 65535\n-L expect\n"),
            ),
            (NAME, Content::Capture(PLAIN, &SENT)),
        ],
        room: 4000,
        out: Text::Is(EXPECTED_IN_65535),
        ..REPLAYED
    };
    holds(&rt, &CASE, 0)
}
