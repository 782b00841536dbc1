//! Control connections of FTP and the data connections that they name, from their packets to the report.

use super::{NAME, REPLAYED, RULES, SCRIPT};
use crate::case::{Case, Text, all_hold, holds};
use crate::content::{Content, Form, PLAIN};
use crate::packet::{ACK, Ends, FIN, IpPacket, PSH, SYN, Sent};
use std::test::Fail;

/// The control connection from 10.0.0.1:40000 to 10.0.0.2:21.
const CONTROL: Ends = Ends {
    src: 0x0a00_0001,
    sport: 40_000,
    dst: 0x0a00_0002,
    dport: 21,
};

/// The other way round.
const CONTROL_BACK: Ends = Ends {
    src: 0x0a00_0002,
    sport: 21,
    dst: 0x0a00_0001,
    dport: 40_000,
};

/// The data connection from 10.0.0.2:20 to 10.0.0.1:40001.
const DATA: Ends = Ends {
    src: 0x0a00_0002,
    sport: 20,
    dst: 0x0a00_0001,
    dport: 40_001,
};

/// The control connection is opened, and names 10.0.0.1:40001.
const OPENED: Sent<'static> = (1, 0, IpPacket::Tcp(CONTROL, SYN, b""));

const ANSWERED: Sent<'static> = (2, 0, IpPacket::Tcp(CONTROL_BACK, SYN | ACK, b""));

const READY: Sent<'static> = (3, 0, IpPacket::Tcp(CONTROL, ACK, b""));

const NAMED: Sent<'static> = (
    4,
    0,
    IpPacket::Tcp(CONTROL, ACK | PSH, b"PORT 10,0,0,1,156,65\r\n"),
);

/// A run with a file of rules.
const RULED: Case<'static> = Case {
    words: &["ctreplay", "--rules", RULES, NAME],
    room: 8000,
    ..REPLAYED
};

const THREE_COMMANDS: &str = "\
events 11
0 confirm 0.0 tcp src=10.0.0.1 dst=10.0.0.2 sport=40000 dport=21 src=10.0.0.2 dst=10.0.0.1 sport=21 dport=40000 until=121000000 state=SYN_SENT helper
1 touch 0.1 id=0 reply until=62000000 state=SYN_RECV replied
2 touch 0.2 id=0 original until=432003000000 state=ESTABLISHED replied assured
3 touch 0.3 id=0 original until=432004000000 state=ESTABLISHED replied assured
4 expect 0.3 master=0 src=10.0.0.2 dst=10.0.0.1 dport=40001 until=304000000
5 touch 0.4 id=0 original until=432005000000 state=ESTABLISHED replied assured
6 expect 0.4 master=0 src=10.0.0.2 dst=10.0.0.1 dport=40002 until=305000000 replaces=4
7 touch 0.5 id=0 original until=432006000000 state=ESTABLISHED replied assured
8 claim 0.6 expect=6 master=0
9 confirm 0.6 tcp src=10.0.0.2 dst=10.0.0.1 sport=20 dport=40002 src=10.0.0.1 dst=10.0.0.2 sport=40002 dport=20 until=127000000 state=SYN_SENT master=0
10 confirm 0.7 tcp src=10.0.0.2 dst=10.0.0.1 sport=20 dport=40001 src=10.0.0.1 dst=10.0.0.2 sport=40001 dport=20 until=128000000 state=SYN_SENT
thread 0 packets 8
0 NEW id=0 @1
1 ESTABLISHED_REPLY id=0 @2
2 ESTABLISHED id=0 @3
3 ESTABLISHED id=0 @4 ftp expect=4
4 ESTABLISHED id=0 @6 ftp expect=6
5 ESTABLISHED id=0 @8 ftp address
6 RELATED id=9 @10
7 NEW id=10 @11
script 0
";

#[test]
fn the_last_end_that_was_named_is_expected(rt: HostRuntime) -> Result<(), Fail> {
    const LATER: Ends = Ends {
        dport: 40_002,
        ..DATA
    };
    const AGAIN: IpPacket<'static> = IpPacket::Tcp(CONTROL, ACK | PSH, b"PORT 10,0,0,1,156,66\r\n");
    const OF_ANOTHER: IpPacket<'static> = IpPacket::Tcp(
        CONTROL,
        ACK | PSH,
        b"PORT 10,0,0,3,156,67\r\n",
    );
    const SENT: [Sent<'static>; 8] = [
        OPENED,
        ANSWERED,
        READY,
        NAMED,
        (5, 0, AGAIN),
        (6, 0, OF_ANOTHER),
        (7, 0, IpPacket::Tcp(LATER, SYN, b"")),
        (8, 0, IpPacket::Tcp(DATA, SYN, b"")),
    ];
    const CASE: Case<'static> = Case {
        files: &[
            (RULES, Content::Text("")),
            (NAME, Content::Capture(PLAIN, &SENT)),
        ],
        out: Text::Is(THREE_COMMANDS),
        ..RULED
    };
    // no packet leaves in another form: nothing is translated
    static LEAVING: Case<'static> = Case {
        words: &["ctreplay", "--rewrite", "--rules", RULES, NAME],
        out: Text::Around("events 11\n", "\n7 NEW id=10 @11\nscript 0\nrewrite 0\n"),
        ..CASE
    };
    holds(&rt, &CASE, 0)?;
    holds(&rt, &LEAVING, 1)
}

const LISTED_AND_ENDED: &str = "\
events 6
0 confirm 0.0 tcp src=10.0.0.1 dst=10.0.0.2 sport=40000 dport=21 src=10.0.0.2 dst=10.0.0.1 sport=21 dport=40000 until=121000000 state=SYN_SENT helper
1 touch 0.1 id=0 reply until=62000000 state=SYN_RECV replied
2 touch 0.2 id=0 original until=432003000000 state=ESTABLISHED replied assured
3 touch 0.3 id=0 original until=432004000000 state=ESTABLISHED replied assured
4 expect 0.3 master=0 src=10.0.0.2 dst=10.0.0.1 dport=40001 until=304000000
5 unexpect s.3 expect=4 expired
thread 0 packets 4
0 NEW id=0 @1
1 ESTABLISHED_REPLY id=0 @2
2 ESTABLISHED id=0 @3
3 ESTABLISHED id=0 @4 ftp expect=4
script 6
0 expectations 1 @5
300 proto=6 src=10.0.0.2 dst=10.0.0.1 sport=0 dport=40001 master=0 @5
1 expired 0 0 @5 @5
2 expectations 1 @5
300 proto=6 src=10.0.0.2 dst=10.0.0.1 sport=0 dport=40001 master=0 @5
3 expired 0 1 @5 @6
4 expectations 0 @6
5 count 1 @6
";

const LISTS: &str = "\
wait
-L expect
expire 303999999
-L expect
expire 304000000
-L expect
-C
";

#[test]
fn what_is_expected_is_listed_and_ends_at_its_deadline(rt: HostRuntime) -> Result<(), Fail> {
    const SENT: [Sent<'static>; 4] = [OPENED, ANSWERED, READY, NAMED];
    static CASE: Case<'static> = Case {
        words: &["ctreplay", "--script", SCRIPT, NAME],
        files: &[
            (SCRIPT, Content::Text(LISTS)),
            (NAME, Content::Capture(PLAIN, &SENT)),
        ],
        room: 4000,
        out: Text::Is(LISTED_AND_ENDED),
        ..REPLAYED
    };
    holds(&rt, &CASE, 0)
}

const CLAIMED_AND_CLASHED: &str = "\
events 7
0 confirm 0.0 tcp src=10.0.0.1 dst=10.0.0.2 sport=40000 dport=21 src=10.0.0.2 dst=10.0.0.1 sport=21 dport=40000 until=121000000 state=SYN_SENT helper
1 touch 0.1 id=0 reply until=62000000 state=SYN_RECV replied
2 touch 0.2 id=0 original until=432003000000 state=ESTABLISHED replied assured
3 touch 0.3 id=0 original until=432004000000 state=ESTABLISHED replied assured
4 expect 0.3 master=0 src=10.0.0.2 dst=10.0.0.1 dport=40001 until=304000000
5 confirm 0.4 tcp src=10.0.0.1 dst=10.0.0.2 sport=40001 dport=20 src=10.0.0.2 dst=203.0.113.5 sport=20 dport=40001 until=125000000 state=SYN_SENT
6 claim 0.5 expect=4 master=0
thread 0 packets 7
0 NEW id=0 @1
1 ESTABLISHED_REPLY id=0 @2
2 ESTABLISHED id=0 @3
3 ESTABLISHED id=0 @4 ftp expect=4
4 NEW id=5 @6
5 CLASH id=5 @7
6 CLASH id=5 @7
script 0
";

#[test]
fn a_claim_stands_where_the_data_connection_clashes(rt: HostRuntime) -> Result<(), Fail> {
    // The connection the other way is translated, so that nothing has the data connection's own tuple, and the
    // other one is taken.
    const BACK: Ends = Ends {
        src: 0x0a00_0001,
        sport: 40_001,
        dst: 0x0a00_0002,
        dport: 20,
    };
    const SENT: [Sent<'static>; 7] = [
        OPENED,
        ANSWERED,
        READY,
        NAMED,
        (5, 0, IpPacket::Tcp(BACK, SYN, b"")),
        (6, 0, IpPacket::Tcp(DATA, SYN, b"")),
        (7, 0, IpPacket::Tcp(DATA, SYN, b"")),
    ];
    const LINES: &str = "snat -p tcp --dport 20 to 203.0.113.5\n";
    static CASE: Case<'static> = Case {
        files: &[
            (RULES, Content::Text(LINES)),
            (NAME, Content::Capture(PLAIN, &SENT)),
        ],
        out: Text::Is(CLAIMED_AND_CLASHED),
        ..RULED
    };
    holds(&rt, &CASE, 0)
}

const BEFORE_THE_DEADLINE: &str = "\
events 7
0 confirm 0.0 tcp src=10.0.0.1 dst=10.0.0.2 sport=40000 dport=21 src=10.0.0.2 dst=10.0.0.1 sport=21 dport=40000 until=121000000 state=SYN_SENT helper
1 touch 0.1 id=0 reply until=62000000 state=SYN_RECV replied
2 touch 0.2 id=0 original until=432003000000 state=ESTABLISHED replied assured
3 touch 0.3 id=0 original until=432004000000 state=ESTABLISHED replied assured
4 expect 0.3 master=0 src=10.0.0.2 dst=10.0.0.1 dport=40001 until=304000000
5 claim 0.4 expect=4 master=0
6 confirm 0.4 tcp src=10.0.0.2 dst=10.0.0.1 sport=20 dport=40001 src=10.0.0.1 dst=10.0.0.2 sport=40001 dport=20 until=423999999 state=SYN_SENT master=0
thread 0 packets 5
0 NEW id=0 @1
1 ESTABLISHED_REPLY id=0 @2
2 ESTABLISHED id=0 @3
3 ESTABLISHED id=0 @4 ftp expect=4
4 RELATED id=6 @7
script 0
";

const AT_THE_DEADLINE: &str = "\
events 6
0 confirm 0.0 tcp src=10.0.0.1 dst=10.0.0.2 sport=40000 dport=21 src=10.0.0.2 dst=10.0.0.1 sport=21 dport=40000 until=121000000 state=SYN_SENT helper
1 touch 0.1 id=0 reply until=62000000 state=SYN_RECV replied
2 touch 0.2 id=0 original until=432003000000 state=ESTABLISHED replied assured
3 touch 0.3 id=0 original until=432004000000 state=ESTABLISHED replied assured
4 expect 0.3 master=0 src=10.0.0.2 dst=10.0.0.1 dport=40001 until=304000000
5 confirm 0.4 tcp src=10.0.0.2 dst=10.0.0.1 sport=20 dport=40001 src=10.0.0.1 dst=10.0.0.2 sport=40001 dport=20 until=424000000 state=SYN_SENT
thread 0 packets 5
0 NEW id=0 @1
1 ESTABLISHED_REPLY id=0 @2
2 ESTABLISHED id=0 @3
3 ESTABLISHED id=0 @4 ftp expect=4
4 NEW id=5 @6
script 0
";

static DEADLINE: [Case<'static>; 2] = [
    Case {
        files: &[
            (RULES, Content::Text("")),
            (
                NAME,
                Content::Capture(
                    PLAIN,
                    &[
                        OPENED,
                        ANSWERED,
                        READY,
                        NAMED,
                        (303, 999_999, IpPacket::Tcp(DATA, SYN, b"")),
                    ],
                ),
            ),
        ],
        out: Text::Is(BEFORE_THE_DEADLINE),
        ..RULED
    },
    Case {
        files: &[
            (RULES, Content::Text("")),
            (
                NAME,
                Content::Capture(
                    PLAIN,
                    &[
                        OPENED,
                        ANSWERED,
                        READY,
                        NAMED,
                        (304, 0, IpPacket::Tcp(DATA, SYN, b"")),
                    ],
                ),
            ),
        ],
        out: Text::Is(AT_THE_DEADLINE),
        ..RULED
    },
];

#[test]
fn a_connection_is_expected_until_the_deadline(rt: HostRuntime) -> Result<(), Fail> {
    all_hold(&rt, &DEADLINE)
}

/// 192.168.1.10, which is masqueraded.
const HOST: u32 = 0xc0a8_010a;

/// 203.0.113.5, for which it is masqueraded.
const MASK: u32 = 0xcb00_7105;

/// 198.51.100.0, the network outside.
const OUTSIDE: u32 = 0xc633_6400;

/// A query of the host, and the answers to it.
const QUERY: Ends = Ends {
    src: HOST,
    sport: 53_000,
    dst: OUTSIDE + 53,
    dport: 53,
};

const QUERY_BACK: Ends = Ends {
    src: OUTSIDE + 53,
    sport: 53,
    dst: MASK,
    dport: 53_000,
};

/// A connection of the host, and the answers to it.
const WEB: Ends = Ends {
    src: HOST,
    sport: 40_000,
    dst: OUTSIDE + 80,
    dport: 80,
};

const WEB_BACK: Ends = Ends {
    src: OUTSIDE + 80,
    sport: 80,
    dst: MASK,
    dport: 40_000,
};

/// A control connection of the host, the answers to it, and the data connection.
const FTP: Ends = Ends {
    src: HOST,
    sport: 40_001,
    dst: OUTSIDE + 21,
    dport: 21,
};

const FTP_BACK: Ends = Ends {
    src: OUTSIDE + 21,
    sport: 21,
    dst: MASK,
    dport: 40_001,
};

const PASSIVE: Ends = Ends {
    src: HOST,
    sport: 40_002,
    dst: OUTSIDE + 21,
    dport: 50_000,
};

/// A query and its answer, an echo and its answer, a connection that is opened, used and closed, and a control
/// connection with its data connection.
const OF_ONE_HOST: [Sent<'static>; 17] = [
    (100, 0, IpPacket::Udp(QUERY)),
    (100, 20_000, IpPacket::Udp(QUERY_BACK)),
    (101, 0, IpPacket::Echo(HOST, OUTSIDE + 9, 8, 1)),
    (101, 10_000, IpPacket::Echo(OUTSIDE + 9, MASK, 0, 1)),
    (102, 0, IpPacket::Tcp(WEB, SYN, b"")),
    (102, 30_000, IpPacket::Tcp(WEB_BACK, SYN | ACK, b"")),
    (102, 40_000, IpPacket::Tcp(WEB, ACK, b"")),
    (102, 50_000, IpPacket::Tcp(WEB, ACK | PSH, b"GET /")),
    (102, 100_000, IpPacket::Tcp(WEB_BACK, ACK, b"text")),
    (103, 0, IpPacket::Tcp(WEB, FIN | ACK, b"")),
    (103, 30_000, IpPacket::Tcp(WEB_BACK, FIN | ACK, b"")),
    (103, 40_000, IpPacket::Tcp(WEB, ACK, b"")),
    (104, 0, IpPacket::Tcp(FTP, SYN, b"")),
    (104, 30_000, IpPacket::Tcp(FTP_BACK, SYN | ACK, b"")),
    (104, 40_000, IpPacket::Tcp(FTP, ACK, b"")),
    (
        104,
        100_000,
        IpPacket::Tcp(
            FTP_BACK,
            ACK | PSH,
            b"227 Entering Passive Mode (198,51,100,21,195,80).\r\n",
        ),
    ),
    (105, 0, IpPacket::Tcp(PASSIVE, SYN, b"")),
];

const MASQUERADED: &str = "\
events 19
0 confirm 0.0 udp src=192.168.1.10 dst=198.51.100.53 sport=53000 dport=53 src=198.51.100.53 dst=203.0.113.5 sport=53 dport=53000 until=130000000
1 touch 0.1 id=0 reply until=220020000 replied
2 confirm 0.2 icmp src=192.168.1.10 dst=198.51.100.9 type=8 code=0 id=1 src=198.51.100.9 dst=203.0.113.5 type=0 code=0 id=1 until=131000000
3 touch 0.3 id=2 reply until=131010000 replied
4 confirm 0.4 tcp src=192.168.1.10 dst=198.51.100.80 sport=40000 dport=80 src=198.51.100.80 dst=203.0.113.5 sport=80 dport=40000 until=222000000 state=SYN_SENT
5 touch 0.5 id=4 reply until=162030000 state=SYN_RECV replied
6 touch 0.6 id=4 original until=432102040000 state=ESTABLISHED replied assured
7 touch 0.7 id=4 original until=432102050000 state=ESTABLISHED replied assured
8 touch 0.8 id=4 reply until=432102100000 state=ESTABLISHED replied assured
9 touch 0.9 id=4 original until=223000000 state=FIN_WAIT replied assured
10 touch 0.10 id=4 reply until=133030000 state=LAST_ACK replied assured
11 touch 0.11 id=4 original until=223040000 state=TIME_WAIT replied assured
12 confirm 0.12 tcp src=192.168.1.10 dst=198.51.100.21 sport=40001 dport=21 src=198.51.100.21 dst=203.0.113.5 sport=21 dport=40001 until=224000000 state=SYN_SENT helper
13 touch 0.13 id=12 reply until=164030000 state=SYN_RECV replied
14 touch 0.14 id=12 original until=432104040000 state=ESTABLISHED replied assured
15 touch 0.15 id=12 reply until=432104100000 state=ESTABLISHED replied assured
16 expect 0.15 master=12 src=192.168.1.10 dst=198.51.100.21 dport=50000 until=404100000
17 claim 0.16 expect=16 master=12
18 confirm 0.16 tcp src=192.168.1.10 dst=198.51.100.21 sport=40002 dport=50000 src=198.51.100.21 dst=203.0.113.5 sport=50000 dport=40002 until=225000000 state=SYN_SENT master=12
thread 0 packets 17
0 NEW id=0 @1
1 ESTABLISHED_REPLY id=0 @2
2 NEW id=2 @3
3 ESTABLISHED_REPLY id=2 @4
4 NEW id=4 @5
5 ESTABLISHED_REPLY id=4 @6
6 ESTABLISHED id=4 @7
7 ESTABLISHED id=4 @8
8 ESTABLISHED_REPLY id=4 @9
9 ESTABLISHED id=4 @10
10 ESTABLISHED_REPLY id=4 @11
11 ESTABLISHED id=4 @12
12 NEW id=12 @13
13 ESTABLISHED_REPLY id=12 @14
14 ESTABLISHED id=12 @15
15 ESTABLISHED_REPLY id=12 @16 ftp expect=16
16 RELATED id=18 @19
script 0
";

#[test]
fn a_masqueraded_host(rt: HostRuntime) -> Result<(), Fail> {
    const FORM: Form = Form {
        ethernet: true,
        ..PLAIN
    };
    const LINES: &str = "snat -s 192.168.1.0/24 to 203.0.113.5\n";
    static CASE: Case<'static> = Case {
        files: &[
            (RULES, Content::Text(LINES)),
            (NAME, Content::Capture(FORM, &OF_ONE_HOST)),
        ],
        out: Text::Is(MASQUERADED),
        ..RULED
    };
    holds(&rt, &CASE, 0)
}
