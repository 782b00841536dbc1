//! How the packets of a translated FTP session leave.

use super::{NAME, REPLAYED, RULES};
use crate::case::{Case, Faults, NONE, Text, all_hold, holds};
use crate::content::{Content, PLAIN};
use crate::packet::{ACK, Ends, IpPacket, PSH, SYN, Sent};
use std::test::Fail;

/// The control connection from 10.0.0.1:40000 to 10.0.0.2:21.
const CONTROL: Ends = Ends {
    src: 0x0a00_0001,
    sport: 40_000,
    dst: 0x0a00_0002,
    dport: 21,
};

/// Its replies, which come to the address that the rules put in the client's place, 192.0.2.1.
const BACK: Ends = Ends {
    src: 0x0a00_0002,
    sport: 21,
    dst: 0xc000_0201,
    dport: 40_000,
};

const SYN_SENT: Sent<'static> = (1, 0, IpPacket::Segment(CONTROL, 1000, 0, SYN, b""));

const SYN_ANSWERED: Sent<'static> = (2, 0, IpPacket::Segment(BACK, 5000, 1001, SYN | ACK, b""));

const OPEN: Sent<'static> = (3, 0, IpPacket::Segment(CONTROL, 1001, 5001, ACK, b""));

const PORT: Sent<'static> = (
    4,
    0,
    IpPacket::Segment(CONTROL, 1001, 5001, ACK | PSH, b"PORT 10,0,0,1,156,65\r\n"),
);

const TAKEN: Sent<'static> = (5, 0, IpPacket::Segment(BACK, 5001, 1024, ACK, b""));

const AFTER: Sent<'static> = (6, 0, IpPacket::Segment(CONTROL, 1023, 5001, ACK, b""));

const SESSION: [Sent<'static>; 6] = [SYN_SENT, SYN_ANSWERED, OPEN, PORT, TAKEN, AFTER];

const SNAT: &str = "snat -s 10.0.0.0/8 to 192.0.2.1\n";

/// The lines of the session: the command is one byte longer.
const LINES: &str = "\
rewrite 3
0.3 id=0 original seq=1001>1001 ack=5001>5001 text=504f5254203139322c302c322c312c3135362c36350d0a
0.4 id=0 reply seq=5001>5001 ack=1024>1023
0.5 id=0 original seq=1023>1024 ack=5001>5001
";

/// All that is printed of it.
const REWRITTEN: &str = "\
events 7
0 confirm 0.0 tcp src=10.0.0.1 dst=10.0.0.2 sport=40000 dport=21 src=10.0.0.2 dst=192.0.2.1 sport=21 dport=40000 until=121000000 state=SYN_SENT helper
1 touch 0.1 id=0 reply until=62000000 state=SYN_RECV replied
2 touch 0.2 id=0 original until=432003000000 state=ESTABLISHED replied assured
3 touch 0.3 id=0 original until=432004000000 state=ESTABLISHED replied assured
4 expect 0.3 master=0 src=10.0.0.2 dst=192.0.2.1 dport=40001 until=304000000
5 touch 0.4 id=0 reply until=432005000000 state=ESTABLISHED replied assured
6 touch 0.5 id=0 original until=432006000000 state=ESTABLISHED replied assured
thread 0 packets 6
0 NEW id=0 @1
1 ESTABLISHED_REPLY id=0 @2
2 ESTABLISHED id=0 @3
3 ESTABLISHED id=0 @4 ftp expect=4
4 ESTABLISHED_REPLY id=0 @6
5 ESTABLISHED id=0 @7
script 0
rewrite 3
0.3 id=0 original seq=1001>1001 ack=5001>5001 text=504f5254203139322c302c322c312c3135362c36350d0a
0.4 id=0 reply seq=5001>5001 ack=1024>1023
0.5 id=0 original seq=1023>1024 ack=5001>5001
";

/// The client names its end by EPRT.
const BY_EPRT: [Sent<'static>; 6] = [
    SYN_SENT,
    SYN_ANSWERED,
    OPEN,
    (
        4,
        0,
        IpPacket::Segment(
            CONTROL,
            1001,
            5001,
            ACK | PSH,
            b"EPRT |1|10.0.0.1|40001|\r\n",
        ),
    ),
    (5, 0, IpPacket::Segment(BACK, 5001, 1027, ACK, b"")),
    (6, 0, IpPacket::Segment(CONTROL, 1026, 5001, ACK, b"")),
];

const EPRT_LINES: &str = "\
rewrite 3
0.3 id=0 original seq=1001>1001 ack=5001>5001 text=45505254207c317c3139322e302e322e317c34303030317c0d0a
0.4 id=0 reply seq=5001>5001 ack=1027>1026
0.5 id=0 original seq=1026>1027 ack=5001>5001
";

/// A client from 198.51.100.7:40000 of a server that it knows as 203.0.113.5, which is 10.0.0.2.
const OUTSIDE: Ends = Ends {
    src: 0xc633_6407,
    sport: 40_000,
    dst: 0xcb00_7105,
    dport: 21,
};

const FROM_INSIDE: Ends = Ends {
    src: 0x0a00_0002,
    sport: 21,
    dst: 0xc633_6407,
    dport: 40_000,
};

const DNAT: &str = "dnat -d 203.0.113.5/32 to 10.0.0.2\n";

/// The server names its end by a reply 227, which gets longer by three bytes.
const BY_227: [Sent<'static>; 6] = [
    (1, 0, IpPacket::Segment(OUTSIDE, 1000, 0, SYN, b"")),
    (
        2,
        0,
        IpPacket::Segment(FROM_INSIDE, 5000, 1001, SYN | ACK, b""),
    ),
    (3, 0, IpPacket::Segment(OUTSIDE, 1001, 5001, ACK, b"")),
    (
        4,
        0,
        IpPacket::Segment(OUTSIDE, 1001, 5001, ACK | PSH, b"PASV\r\n"),
    ),
    (
        5,
        0,
        IpPacket::Segment(
            FROM_INSIDE,
            5001,
            1007,
            ACK | PSH,
            b"227 Entering Passive Mode (10,0,0,2,195,80)\r\n",
        ),
    ),
    (6, 0, IpPacket::Segment(OUTSIDE, 1007, 5049, ACK, b"")),
];

const LINES_OF_227: &str = "\
rewrite 2
0.4 id=0 reply seq=5001>5001 ack=1007>1007 text=32323720456e746572696e672050617373697665204d6f646520283230332c302c3131332c352c3139352c3830290d0a
0.5 id=0 original seq=1007>1007 ack=5049>5046
";

const FILES: [(&str, Content<'static>); 2] = [
    (RULES, Content::Text(SNAT)),
    (NAME, Content::Capture(PLAIN, &SESSION)),
];

/// A run of the session.
const SESSION_RUN: Case<'static> = Case {
    words: &["ctreplay", "--rewrite", "--rules", RULES, NAME],
    files: &FILES,
    room: 8000,
    out: Text::Is(REWRITTEN),
    ..REPLAYED
};

/// The same segments, without a translation.
const PLAIN_BACK: Ends = Ends {
    dst: 0x0a00_0001,
    ..BACK
};

const PLAIN_SESSION: [Sent<'static>; 4] = [
    SYN_SENT,
    (
        2,
        0,
        IpPacket::Segment(PLAIN_BACK, 5000, 1001, SYN | ACK, b""),
    ),
    OPEN,
    PORT,
];

/// The command in two fragments of IP: the first has the header of TCP and 4 bytes of data, the last 20.
const FRONT: [u8; 44] = [
    0x45, 0, 0, 44, 0, 7, 0x20, 0, 0x40, 6, 0, 0, 10, 0, 0, 1, 10, 0, 0, 2, 0x9c, 0x40, 0, 21, 0,
    0, 3, 0xe9, 0, 0, 0x13, 0x89, 0x50, 0x18, 0, 0, 0, 0, 0, 0, b'P', b'O', b'R', b'T',
];

const LAST: [u8; 38] = [
    0x45, 0, 0, 38, 0, 7, 0, 3, 0x40, 6, 0, 0, 10, 0, 0, 1, 10, 0, 0, 2, b' ', b'1', b'0', b',',
    b'0', b',', b'0', b',', b'1', b',', b'1', b'5', b'6', b',', b'6', b'5', b'\r', b'\n',
];

const IN_FRAGMENTS: [Sent<'static>; 5] = [
    SYN_SENT,
    SYN_ANSWERED,
    OPEN,
    (4, 0, IpPacket::Raw(&FRONT)),
    (4, 1, IpPacket::Raw(&LAST)),
];

static REWRITES: [Case<'static>; 10] = [
    SESSION_RUN,
    // without the flag there is no line
    Case {
        words: &["ctreplay", "--rules", RULES, NAME],
        out: Text::Around("events 7\n", "\n5 ESTABLISHED id=0 @7\nscript 0\n"),
        ..SESSION_RUN
    },
    // behind the summary, and behind what a listener heard
    Case {
        words: &["ctreplay", "--summary", "--rules", RULES, "--rewrite", NAME],
        out: Text::Around("summary threads=1 packets=6 events=7 live=1\n", LINES),
        ..SESSION_RUN
    },
    Case {
        words: &[
            "ctreplay",
            "--listen",
            "--rewrite",
            "--summary",
            "--rules",
            RULES,
            NAME,
        ],
        out: Text::Is(SUMMED_AND_HEARD),
        ..SESSION_RUN
    },
    Case {
        files: &[
            (RULES, Content::Text(SNAT)),
            (NAME, Content::Capture(PLAIN, &BY_EPRT)),
        ],
        out: Text::Around("events 7\n", EPRT_LINES),
        ..SESSION_RUN
    },
    Case {
        files: &[
            (RULES, Content::Text(DNAT)),
            (NAME, Content::Capture(PLAIN, &BY_227)),
        ],
        out: Text::Around("events 7\n", LINES_OF_227),
        ..SESSION_RUN
    },
    // nothing is translated
    Case {
        words: &["ctreplay", "--rewrite", NAME],
        files: &[(NAME, Content::Capture(PLAIN, &PLAIN_SESSION))],
        out: Text::Around(
            "events 5\n",
            "\n3 ESTABLISHED id=0 @4 ftp expect=4\nscript 0\nrewrite 0\n",
        ),
        ..SESSION_RUN
    },
    // the command comes in fragments: its packet is the one that completes it
    Case {
        words: &["ctreplay", "--defrag", "--rewrite", "--rules", RULES, NAME],
        files: &[
            (RULES, Content::Text(SNAT)),
            (NAME, Content::Capture(PLAIN, &IN_FRAGMENTS)),
        ],
        out: Text::Around(
            "events 5\n",
            "\nscript 0\nrewrite 1\n0.4 id=0 original seq=1001>1001 ack=5001>5001 text=504f5254203139322c302c322c312c3135362c36350d0a\n",
        ),
        ..SESSION_RUN
    },
    Case {
        words: &["ctreplay", "--rewrite", "--rules", RULES, NAME],
        files: &[
            (RULES, Content::Text(SNAT)),
            (NAME, Content::Capture(PLAIN, &IN_FRAGMENTS)),
        ],
        out: Text::Around(
            "events 3\n",
            "\n4 UNTRACKED fragment\nscript 0\nrewrite 0\n",
        ),
        ..SESSION_RUN
    },
    // no packet of a workload is of FTP
    Case {
        words: &[
            "ctreplay",
            "--make",
            "2",
            "--packets",
            "8",
            "--threads",
            "1",
            "--rewrite",
            "--summary",
        ],
        files: &[],
        out: Text::Around("summary threads=1 packets=8 ", "\nrewrite 0\n"),
        ..SESSION_RUN
    },
];

const SUMMED_AND_HEARD: &str = "\
summary threads=1 packets=6 events=7 live=1
NEW 1
ESTABLISHED 3
ESTABLISHED_REPLY 2
heard 0 7 of 7
heard s 0 of 0
rewrite 3
0.3 id=0 original seq=1001>1001 ack=5001>5001 text=504f5254203139322c302c322c312c3135362c36350d0a
0.4 id=0 reply seq=5001>5001 ack=1024>1023
0.5 id=0 original seq=1023>1024 ack=5001>5001
";

#[test]
fn packets_of_a_translated_session_leave_with_other_numbers(rt: HostRuntime) -> Result<(), Fail> {
    all_hold(&rt, &REWRITES)
}

/// Each of the writes fails in turn: the report's, the count's, the pieces of each line.
#[test]
fn a_failed_write_of_a_line_is_told(rt: HostRuntime) -> Result<(), Fail> {
    for call in 0..7 {
        let case = Case {
            faults: Faults { out: call, ..NONE },
            status: 4,
            out: Text::CutShort(REWRITTEN),
            err: Text::Is("ctreplay: write failed\n"),
            ..SESSION_RUN
        };
        holds(&rt, &case, call as usize)?;
    }
    Ok(())
}
