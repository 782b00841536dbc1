//! Flows that rules translate, from their packets to the report.

use super::{NAME, REPLAYED, RULES};
use crate::case::{Case, Number, Text, all_hold, holds};
use crate::content::{Content, PLAIN};
use crate::packet::{Ends, IpPacket, SYN, Sent};
use std::test::Fail;

/// 10.0.0.1.
const CLIENT: u32 = 0x0a00_0001;

/// 198.51.100.1.
const SERVER: u32 = 0xc633_6401;

/// 192.0.2.1.
const ROUTER: u32 = 0xc000_0201;

/// A query from the client's port 5000 to the server's port 53.
const QUERY: Ends = Ends {
    src: CLIENT,
    sport: 5000,
    dst: SERVER,
    dport: 53,
};

/// A run with a file of rules.
const RULED: Case<'static> = Case {
    words: &["ctreplay", "--rules", RULES, NAME],
    ..REPLAYED
};

const TAKEN_BY_A_TRANSLATED_FLOW: &str = "\
events 1
0 confirm 0.0 udp src=10.0.0.1 dst=198.51.100.1 sport=5000 dport=53 src=198.51.100.1 dst=192.0.2.1 sport=53 dport=5000 until=31000000
thread 0 packets 2
0 NEW id=0 @1
1 CLASH id=0 @1
script 0
";

/// A query of the client and the same of the router itself, which has the tuple that the first one is translated to.
const OF_A_CLIENT_AND_THE_ROUTER: [Sent<'static>; 2] = [
    (1, 0, IpPacket::Udp(QUERY)),
    (
        2,
        0,
        IpPacket::Udp(Ends {
            src: ROUTER,
            ..QUERY
        }),
    ),
];

#[test]
fn a_flow_whose_reply_tuple_is_taken(rt: HostRuntime) -> Result<(), Fail> {
    static CASE: Case<'static> = Case {
        files: &[
            (RULES, Content::Text("snat -s 10.0.0.0/8 to 192.0.2.1\n")),
            (NAME, Content::Capture(PLAIN, &OF_A_CLIENT_AND_THE_ROUTER)),
        ],
        out: Text::Is(TAKEN_BY_A_TRANSLATED_FLOW),
        ..RULED
    };
    holds(&rt, &CASE, 0)
}

/// The answer to the client's query, as the router gets it.
const ANSWERED: IpPacket<'static> = IpPacket::Udp(Ends {
    src: SERVER,
    sport: 53,
    dst: ROUTER,
    dport: 5000,
});

/// The client's flow goes both ways, and then there is a query of the router itself.
const OF_AN_ASSURED_FLOW_AND_THE_ROUTER: [Sent<'static>; 4] = [
    (1, 0, IpPacket::Udp(QUERY)),
    (1, 500_000, ANSWERED),
    (2, 0, IpPacket::Udp(QUERY)),
    (
        3,
        0,
        IpPacket::Udp(Ends {
            src: ROUTER,
            ..QUERY
        }),
    ),
];

/// The same with a query of the client's neighbour.
const OF_AN_ASSURED_FLOW_AND_A_NEIGHBOUR: [Sent<'static>; 4] = [
    (1, 0, IpPacket::Udp(QUERY)),
    (1, 500_000, ANSWERED),
    (2, 0, IpPacket::Udp(QUERY)),
    (
        3,
        0,
        IpPacket::Udp(Ends {
            src: CLIENT + 1,
            ..QUERY
        }),
    ),
];

const NO_ROOM_FOR_A_SECOND_FLOW: &str = "\
events 3
0 confirm 0.0 udp src=10.0.0.1 dst=198.51.100.1 sport=5000 dport=53 src=198.51.100.1 dst=192.0.2.1 sport=53 dport=5000 until=31000000
1 touch 0.1 id=0 reply until=121500000 replied
2 touch 0.2 id=0 original until=122000000 replied assured
thread 0 packets 4
0 NEW id=0 @1
1 ESTABLISHED_REPLY id=0 @2
2 ESTABLISHED id=0 @3
3 FULL @3 @3
script 0
";

/// A run of two flows that a rule translates, the first of which is assured, in a table of one place.
const IN_ONE_PLACE: Case<'static> = Case {
    words: &["ctreplay", "--rules", RULES, "--entries", "1", NAME],
    out: Text::Is(NO_ROOM_FOR_A_SECOND_FLOW),
    ..RULED
};

/// The second flow is another client's, whose reply tuple nobody has, or the router's own, whose reply tuple the first one
/// has. Either wants the one place before it can meet another.
static NO_PLACE: [Case<'static>; 2] = [
    Case {
        files: &[
            (RULES, Content::Text("snat -s 10.0.0.0/8 to 192.0.2.1\n")),
            (
                NAME,
                Content::Capture(PLAIN, &OF_AN_ASSURED_FLOW_AND_A_NEIGHBOUR),
            ),
        ],
        ..IN_ONE_PLACE
    },
    Case {
        files: &[
            (RULES, Content::Text("snat -s 10.0.0.0/8 to 192.0.2.1\n")),
            (
                NAME,
                Content::Capture(PLAIN, &OF_AN_ASSURED_FLOW_AND_THE_ROUTER),
            ),
        ],
        ..IN_ONE_PLACE
    },
];

#[test]
fn a_flow_for_which_there_is_no_place(rt: HostRuntime) -> Result<(), Fail> {
    all_hold(&rt, &NO_PLACE)
}

const ERRORS: &str = "\
events 1
0 confirm 0.0 udp src=10.0.0.1 dst=198.51.100.1 sport=5000 dport=53 src=198.51.100.1 dst=192.0.2.1 sport=53 dport=5000 until=31000000
thread 0 packets 5
0 NEW id=0 @1
1 RELATED_REPLY error id=0 @1
2 INVALID address id=0 @1
3 INVALID error @1
4 RELATED error id=0 @1
script 0
";

#[test]
fn errors_about_a_translated_flow(rt: HostRuntime) -> Result<(), Fail> {
    const TRANSLATED: Ends = Ends {
        src: ROUTER,
        ..QUERY
    };
    const ANSWER: Ends = Ends {
        src: SERVER,
        sport: 53,
        dst: CLIENT,
        dport: 5000,
    };
    const SENT: [Sent<'static>; 5] = [
        (1, 0, IpPacket::Udp(QUERY)),
        (2, 0, IpPacket::Unreachable(ROUTER, TRANSLATED)),
        (3, 0, IpPacket::Unreachable(ROUTER + 8, TRANSLATED)),
        (4, 0, IpPacket::Unreachable(CLIENT, QUERY)),
        (5, 0, IpPacket::Unreachable(SERVER, ANSWER)),
    ];
    static CASE: Case<'static> = Case {
        files: &[
            (RULES, Content::Text("snat -s 10.0.0.0/8 to 192.0.2.1")),
            (NAME, Content::Capture(PLAIN, &SENT)),
        ],
        out: Text::Is(ERRORS),
        ..RULED
    };
    holds(&rt, &CASE, 0)
}

const TWO_PORTS: &str = "\
events 2
0 confirm 0.0 udp src=10.0.0.1 dst=198.51.100.1 sport=1024 dport=53 src=198.51.100.1 dst=192.0.2.1 sport=53 dport=1024 until=31000000
1 confirm 0.1 udp src=10.0.0.2 dst=198.51.100.1 sport=1024 dport=53 src=198.51.100.1 dst=192.0.2.1 sport=53 dport=1025 until=32000000
thread 0 packets 3
0 NEW id=0 @1
1 NEW id=1 @2
2 NOPORT @2 @2
script 0
";

#[test]
fn a_range_of_two_ports(rt: HostRuntime) -> Result<(), Fail> {
    const SENT: [Sent<'static>; 3] = [
        (
            1,
            0,
            IpPacket::Udp(Ends {
                src: CLIENT,
                sport: 1024,
                ..QUERY
            }),
        ),
        (
            2,
            0,
            IpPacket::Udp(Ends {
                src: CLIENT + 1,
                sport: 1024,
                ..QUERY
            }),
        ),
        (
            3,
            0,
            IpPacket::Udp(Ends {
                src: CLIENT + 2,
                sport: 1024,
                ..QUERY
            }),
        ),
    ];
    static CASE: Case<'static> = Case {
        files: &[
            (RULES, Content::Text("snat -p udp to 192.0.2.1:1024-1025\n")),
            (NAME, Content::Capture(PLAIN, &SENT)),
        ],
        out: Text::Is(TWO_PORTS),
        ..RULED
    };
    holds(&rt, &CASE, 0)
}

/// The twelfth word of a confirm of UDP is the destination port of the reply tuple.
const PORTS: [(u32, u32, Number); 4] = [
    (1, 11, Number::Is(511)),
    (2, 11, Number::Is(512)),
    (3, 11, Number::Within(600, 1023)),
    (4, 11, Number::Is(600)),
];

#[test]
fn ports_of_three_kinds(rt: HostRuntime) -> Result<(), Fail> {
    const ELSEWHERE: Ends = Ends {
        sport: 600,
        dst: SERVER + 1,
        ..QUERY
    };
    const SENT: [Sent<'static>; 4] = [
        (
            1,
            0,
            IpPacket::Udp(Ends {
                src: CLIENT,
                sport: 511,
                ..QUERY
            }),
        ),
        (
            2,
            0,
            IpPacket::Udp(Ends {
                src: CLIENT,
                sport: 512,
                ..QUERY
            }),
        ),
        (
            3,
            0,
            IpPacket::Udp(Ends {
                src: CLIENT + 1,
                sport: 512,
                ..QUERY
            }),
        ),
        (4, 0, IpPacket::Udp(ELSEWHERE)),
    ];
    static CASE: Case<'static> = Case {
        files: &[
            (RULES, Content::Text("snat to 192.0.2.1\n")),
            (NAME, Content::Capture(PLAIN, &SENT)),
        ],
        out: Text::Numbers("events 4\n", &PORTS),
        ..RULED
    };
    holds(&rt, &CASE, 0)
}

/// The ninth word of a confirm of ICMP is the identifier of the original tuple, the fourteenth that of the reply
/// tuple.
const IDENTIFIERS: [(u32, u32, Number); 4] = [
    (1, 8, Number::Is(7)),
    (1, 13, Number::Is(7)),
    (2, 8, Number::Is(7)),
    (2, 13, Number::IsNot(7)),
];

#[test]
fn identifiers_of_icmp_behind_one_address(rt: HostRuntime) -> Result<(), Fail> {
    const SENT: [Sent<'static>; 2] = [
        (1, 0, IpPacket::Echo(CLIENT, SERVER, 8, 7)),
        (2, 0, IpPacket::Echo(CLIENT + 1, SERVER, 8, 7)),
    ];
    static CASE: Case<'static> = Case {
        files: &[
            (RULES, Content::Text("snat -p icmp to 192.0.2.1\n")),
            (NAME, Content::Capture(PLAIN, &SENT)),
        ],
        out: Text::Numbers("events 2\n", &IDENTIFIERS),
        ..RULED
    };
    holds(&rt, &CASE, 0)
}

const TO_A_HOST_INSIDE: &str = "\
events 2
0 confirm 0.0 icmp src=198.51.100.1 dst=192.0.2.1 type=8 code=0 id=7 src=10.0.0.1 dst=198.51.100.1 type=0 code=0 id=7 until=31000000
1 touch 0.1 id=0 reply until=32000000 replied
thread 0 packets 2
0 NEW id=0 @1
1 ESTABLISHED_REPLY id=0 @2
script 0
";

#[test]
fn an_echo_to_another_destination(rt: HostRuntime) -> Result<(), Fail> {
    const SENT: [Sent<'static>; 2] = [
        (1, 0, IpPacket::Echo(SERVER, ROUTER, 8, 7)),
        (2, 0, IpPacket::Echo(CLIENT, SERVER, 0, 7)),
    ];
    static CASE: Case<'static> = Case {
        files: &[
            (RULES, Content::Text("dnat -d 192.0.2.1 to 10.0.0.1\n")),
            (NAME, Content::Capture(PLAIN, &SENT)),
        ],
        out: Text::Is(TO_A_HOST_INSIDE),
        ..RULED
    };
    holds(&rt, &CASE, 0)
}

const BY_THE_FIRST_RULE: &str = "\
events 2
0 confirm 0.0 tcp src=198.51.100.1 dst=192.0.2.1 sport=40000 dport=8080 src=10.0.0.2 dst=198.51.100.1 sport=80 dport=40000 until=121000000 state=SYN_SENT
1 confirm 0.1 tcp src=198.51.100.1 dst=192.0.2.1 sport=40000 dport=22 src=10.0.0.3 dst=198.51.100.1 sport=22 dport=40000 until=122000000 state=SYN_SENT
thread 0 packets 2
0 NEW id=0 @1
1 NEW id=1 @2
script 0
";

#[test]
fn the_first_rule_for_a_flow(rt: HostRuntime) -> Result<(), Fail> {
    const WEB: Ends = Ends {
        src: SERVER,
        sport: 40_000,
        dst: ROUTER,
        dport: 8080,
    };
    const SHELL: Ends = Ends { dport: 22, ..WEB };
    const SENT: [Sent<'static>; 2] = [
        (1, 0, IpPacket::Tcp(WEB, SYN, b"")),
        (2, 0, IpPacket::Tcp(SHELL, SYN, b"")),
    ];
    static CASE: Case<'static> = Case {
        files: &[
            (
                RULES,
                Content::Text("dnat -p tcp --dport 8080 to 10.0.0.2:80\ndnat to 10.0.0.3\n"),
            ),
            (NAME, Content::Capture(PLAIN, &SENT)),
        ],
        out: Text::Is(BY_THE_FIRST_RULE),
        ..RULED
    };
    holds(&rt, &CASE, 0)
}

const ONE_PORT_TAKEN: &str = "\
events 1
0 confirm 0.0 udp src=198.51.100.1 dst=192.0.2.1 sport=5000 dport=53 src=10.0.0.9 dst=198.51.100.1 sport=53 dport=5000 until=31000000
thread 0 packets 2
0 NEW id=0 @1
1 NOPORT @1 @1
script 0
";

#[test]
fn a_destination_port_that_stays(rt: HostRuntime) -> Result<(), Fail> {
    const FIRST: Ends = Ends {
        src: SERVER,
        sport: 5000,
        dst: ROUTER,
        dport: 53,
    };
    const SECOND: Ends = Ends {
        dst: ROUTER + 1,
        ..FIRST
    };
    const SENT: [Sent<'static>; 2] = [(1, 0, IpPacket::Udp(FIRST)), (2, 0, IpPacket::Udp(SECOND))];
    static CASE: Case<'static> = Case {
        files: &[
            (RULES, Content::Text("dnat to 10.0.0.9\n")),
            (NAME, Content::Capture(PLAIN, &SENT)),
        ],
        out: Text::Is(ONE_PORT_TAKEN),
        ..RULED
    };
    holds(&rt, &CASE, 0)
}
