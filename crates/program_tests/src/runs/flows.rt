//! Flows of TCP and ICMP, from their packets to the report.

use super::{NAME, REPLAYED};
use crate::case::{Case, Text, all_hold, holds};
use crate::content::{Content, PLAIN};
use crate::packet::{ACK, Ends, FIN, IpPacket, PSH, RST, SYN, Sent};
use std::test::Fail;

/// A connection from 10.0.0.1:40000 to 10.0.0.2:80.
const ASKING: Ends = Ends {
    src: 0x0a00_0001,
    sport: 40_000,
    dst: 0x0a00_0002,
    dport: 80,
};

/// The other way round.
const ANSWERING: Ends = Ends {
    src: 0x0a00_0002,
    sport: 80,
    dst: 0x0a00_0001,
    dport: 40_000,
};

/// A run with more room.
const RUN: Case<'static> = Case {
    room: 4000,
    ..REPLAYED
};

const REOPENED: &str = "\
events 9
0 confirm 0.0 tcp src=10.0.0.1 dst=10.0.0.2 sport=40000 dport=80 src=10.0.0.2 dst=10.0.0.1 sport=80 dport=40000 until=121000000 state=SYN_SENT
1 touch 0.1 id=0 reply until=62000000 state=SYN_RECV replied
2 touch 0.2 id=0 original until=432003000000 state=ESTABLISHED replied assured
3 touch 0.3 id=0 original until=432004000000 state=ESTABLISHED replied assured
4 touch 0.4 id=0 original until=125000000 state=FIN_WAIT replied assured
5 touch 0.5 id=0 reply until=36000000 state=LAST_ACK replied assured
6 touch 0.6 id=0 original until=127000000 state=TIME_WAIT replied assured
7 destroy 0.7 id=0 reopened
8 confirm 0.7 tcp src=10.0.0.1 dst=10.0.0.2 sport=40000 dport=80 src=10.0.0.2 dst=10.0.0.1 sport=80 dport=40000 until=128000000 state=SYN_SENT
thread 0 packets 8
0 NEW id=0 @1
1 ESTABLISHED_REPLY id=0 @2
2 ESTABLISHED id=0 @3
3 ESTABLISHED id=0 @4
4 ESTABLISHED id=0 @5
5 ESTABLISHED_REPLY id=0 @6
6 ESTABLISHED id=0 @7
7 NEW id=8 @9
script 0
";

#[test]
fn a_connection_and_its_reopening(rt: HostRuntime) -> Result<(), Fail> {
    const SENT: [Sent<'static>; 8] = [
        (1, 0, IpPacket::Tcp(ASKING, SYN, b"")),
        (2, 0, IpPacket::Tcp(ANSWERING, SYN | ACK, b"")),
        (3, 0, IpPacket::Tcp(ASKING, ACK, b"")),
        (4, 0, IpPacket::Tcp(ASKING, ACK | PSH, &[0, 0, 0, 0])),
        (5, 0, IpPacket::Tcp(ASKING, FIN | ACK, b"")),
        (6, 0, IpPacket::Tcp(ANSWERING, FIN | ACK, b"")),
        (7, 0, IpPacket::Tcp(ASKING, ACK, b"")),
        (8, 0, IpPacket::Tcp(ASKING, SYN, b"")),
    ];
    static CASE: Case<'static> = Case {
        files: &[(NAME, Content::Capture(PLAIN, &SENT))],
        out: Text::Is(REOPENED),
        ..RUN
    };
    holds(&rt, &CASE, 0)
}

const RESET_BY_THE_SERVER: &str = "\
events 2
0 confirm 0.0 tcp src=10.0.0.1 dst=10.0.0.2 sport=40000 dport=80 src=10.0.0.2 dst=10.0.0.1 sport=80 dport=40000 until=121000000 state=SYN_SENT
1 destroy 0.1 id=0 reset
thread 0 packets 2
0 NEW id=0 @1
1 ESTABLISHED_REPLY id=0 @2
script 0
";

const RESET_BY_THE_CLIENT: &str = "\
events 2
0 confirm 0.0 tcp src=10.0.0.1 dst=10.0.0.2 sport=40000 dport=80 src=10.0.0.2 dst=10.0.0.1 sport=80 dport=40000 until=121000000 state=SYN_SENT
1 destroy 0.1 id=0 reset
thread 0 packets 2
0 NEW id=0 @1
1 NEW id=0 @2
script 0
";

static RESETS: [Case<'static>; 2] = [
    Case {
        files: &[(
            NAME,
            Content::Capture(
                PLAIN,
                &[
                    (1, 0, IpPacket::Tcp(ASKING, SYN, b"")),
                    (2, 0, IpPacket::Tcp(ANSWERING, RST | ACK, b"")),
                ],
            ),
        )],
        out: Text::Is(RESET_BY_THE_SERVER),
        ..RUN
    },
    Case {
        files: &[(
            NAME,
            Content::Capture(
                PLAIN,
                &[
                    (1, 0, IpPacket::Tcp(ASKING, SYN, b"")),
                    (2, 0, IpPacket::Tcp(ASKING, RST | ACK, b"")),
                ],
            ),
        )],
        out: Text::Is(RESET_BY_THE_CLIENT),
        ..RUN
    },
];

#[test]
fn a_connection_that_is_reset(rt: HostRuntime) -> Result<(), Fail> {
    all_hold(&rt, &RESETS)
}

const TWO_EQUAL_TUPLES: &str = "\
events 1
0 confirm 0.0 tcp src=10.0.0.9 dst=10.0.0.9 sport=7000 dport=7000 src=10.0.0.9 dst=10.0.0.9 sport=7000 dport=7000 until=121000000 state=SYN_SENT
thread 0 packets 2
0 NEW id=0 @1
1 INVALID state id=0 @1
script 0
";

/// Both ends are 10.0.0.9:7000.
const OWN: Ends = Ends {
    src: 0x0a00_0009,
    sport: 7000,
    dst: 0x0a00_0009,
    dport: 7000,
};

const WITH_ITSELF: Case<'static> = Case {
    files: &[(
        NAME,
        Content::Capture(
            PLAIN,
            &[
                (1, 0, IpPacket::Tcp(OWN, SYN, b"")),
                (2, 0, IpPacket::Tcp(OWN, SYN | ACK, b"")),
            ],
        ),
    )],
    out: Text::Is(TWO_EQUAL_TUPLES),
    ..RUN
};

/// It is the same where both tuples have the one bucket.
static EQUAL_TUPLES: [Case<'static>; 2] = [
    WITH_ITSELF,
    Case {
        words: &["ctreplay", "--buckets=1", NAME],
        room: 1000,
        ..WITH_ITSELF
    },
];

#[test]
fn an_entry_with_two_equal_tuples(rt: HostRuntime) -> Result<(), Fail> {
    all_hold(&rt, &EQUAL_TUPLES)
}

const ECHOED: &str = "\
events 2
0 confirm 0.0 icmp src=10.0.0.1 dst=10.0.0.2 type=8 code=0 id=7 src=10.0.0.2 dst=10.0.0.1 type=0 code=0 id=7 until=31000000
1 touch 0.1 id=0 reply until=32000000 replied
thread 0 packets 3
0 NEW id=0 @1
1 ESTABLISHED_REPLY id=0 @2
2 INVALID new @2
script 0
";

#[test]
fn an_echo_and_an_answer_that_nobody_asked_for(rt: HostRuntime) -> Result<(), Fail> {
    const SENT: [Sent<'static>; 3] = [
        (1, 0, IpPacket::Echo(0x0a00_0001, 0x0a00_0002, 8, 7)),
        (2, 0, IpPacket::Echo(0x0a00_0002, 0x0a00_0001, 0, 7)),
        (3, 0, IpPacket::Echo(0x0a00_0002, 0x0a00_0001, 0, 8)),
    ];
    static CASE: Case<'static> = Case {
        files: &[(NAME, Content::Capture(PLAIN, &SENT))],
        out: Text::Is(ECHOED),
        ..RUN
    };
    holds(&rt, &CASE, 0)
}

const NOTHING_BEGINS: &str = "\
events 0
thread 0 packets 2
0 INVALID header
1 INVALID new @0
script 0
";

#[test]
fn segments_that_begin_no_connection(rt: HostRuntime) -> Result<(), Fail> {
    const SENT: [Sent<'static>; 2] = [
        (1, 0, IpPacket::Tcp(ASKING, SYN | FIN, b"")),
        (2, 0, IpPacket::Tcp(ASKING, SYN | ACK, b"")),
    ];
    static CASE: Case<'static> = Case {
        files: &[(NAME, Content::Capture(PLAIN, &SENT))],
        out: Text::Is(NOTHING_BEGINS),
        ..RUN
    };
    holds(&rt, &CASE, 0)
}

const ANSWERED_TOO_LATE: &str = "\
events 3
0 confirm 0.0 tcp src=10.0.0.1 dst=10.0.0.2 sport=40000 dport=80 src=10.0.0.2 dst=10.0.0.1 sport=80 dport=40000 until=121000000 state=SYN_SENT
1 destroy 0.1 id=0 expired
2 confirm 0.2 tcp src=10.0.0.1 dst=10.0.0.2 sport=40000 dport=80 src=10.0.0.2 dst=10.0.0.1 sport=80 dport=40000 until=242000000 state=SYN_SENT
thread 0 packets 3
0 NEW id=0 @1
1 INVALID new @2
2 NEW id=2 @3
script 0
";

#[test]
fn an_expired_connection_that_its_answer_does_not_begin_anew(rt: HostRuntime) -> Result<(), Fail> {
    const SENT: [Sent<'static>; 3] = [
        (1, 0, IpPacket::Tcp(ASKING, SYN, b"")),
        (121, 0, IpPacket::Tcp(ANSWERING, SYN | ACK, b"")),
        (122, 0, IpPacket::Tcp(ASKING, SYN, b"")),
    ];
    static CASE: Case<'static> = Case {
        files: &[(NAME, Content::Capture(PLAIN, &SENT))],
        out: Text::Is(ANSWERED_TOO_LATE),
        ..RUN
    };
    holds(&rt, &CASE, 0)
}

const IGNORED: &str = "\
events 3
0 confirm 0.0 tcp src=10.0.0.1 dst=10.0.0.2 sport=40000 dport=80 src=10.0.0.2 dst=10.0.0.1 sport=80 dport=40000 until=121000000 state=SYN_SENT
1 touch 0.1 id=0 reply until=62000000 state=SYN_RECV replied
2 touch 0.3 id=0 original until=432004000000 state=ESTABLISHED replied assured
thread 0 packets 4
0 NEW id=0 @1
1 ESTABLISHED_REPLY id=0 @2
2 IGNORED id=0 @2
3 ESTABLISHED id=0 @3
script 0
";

#[test]
fn a_repeated_opening_is_ignored(rt: HostRuntime) -> Result<(), Fail> {
    const SENT: [Sent<'static>; 4] = [
        (1, 0, IpPacket::Tcp(ASKING, SYN, b"")),
        (2, 0, IpPacket::Tcp(ANSWERING, SYN | ACK, b"")),
        (3, 0, IpPacket::Tcp(ASKING, SYN, b"")),
        (4, 0, IpPacket::Tcp(ASKING, ACK, b"")),
    ];
    static CASE: Case<'static> = Case {
        files: &[(NAME, Content::Capture(PLAIN, &SENT))],
        out: Text::Is(IGNORED),
        ..RUN
    };
    holds(&rt, &CASE, 0)
}
