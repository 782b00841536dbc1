//! Runs with a script, and of several captures.

use super::{CAPTURE, NAME, REPLAYED, RULES, SCRIPT, SECOND};
use crate::case::{Case, Faults, NONE, Text, all_hold, holds};
use crate::content::{Content, PLAIN};
use crate::packet::{ANSWER, Ends, IpPacket, QUERY, SYN};
use std::process::Abort;
use std::sync::Wait;
use std::test::Fail;
use std::thread::Threads;

/// A connection from 10.0.0.1:40000 to 10.0.0.2:80.
const ASKING: Ends = Ends {
    src: 0x0a00_0001,
    sport: 40_000,
    dst: 0x0a00_0002,
    dport: 80,
};

/// A query and its answer at 1000 s, and at 1001 s a connection that is opened.
const ANSWERED_AND_OPENED: Content<'static> = Content::Capture(
    PLAIN,
    &[
        (1000, 0, QUERY),
        (1000, 500_000, ANSWER),
        (1001, 0, IpPacket::Tcp(ASKING, SYN, b"")),
    ],
);

/// A run of a script.
const SCRIPTED: Case<'static> = Case {
    words: &["ctreplay", "--script", SCRIPT, NAME],
    room: 6000,
    ..REPLAYED
};

/// A run of a script that is refused.
const NOT_SCRIPTED: Case<'static> = Case {
    status: 2,
    out: Text::Is(""),
    ..SCRIPTED
};

const SWEPT: &str = "\
events 5
0 confirm 0.0 udp src=10.0.0.1 dst=10.0.0.2 sport=5000 dport=53 src=10.0.0.2 dst=10.0.0.1 sport=53 dport=5000 until=1030000000
1 touch 0.1 id=0 reply until=1120500000 replied
2 confirm 0.2 tcp src=10.0.0.1 dst=10.0.0.2 sport=40000 dport=80 src=10.0.0.2 dst=10.0.0.1 sport=80 dport=40000 until=1121000000 state=SYN_SENT
3 destroy s.1 id=0 deleted
4 destroy s.3 id=2 flushed
thread 0 packets 3
0 NEW id=0 @1
1 ESTABLISHED_REPLY id=0 @2
2 NEW id=2 @3
script 6
0 list 2 @3 @3
udp      17 119 src=10.0.0.1 dst=10.0.0.2 sport=5000 dport=53 src=10.0.0.2 dst=10.0.0.1 sport=53 dport=5000 @3
tcp      6 120 SYN_SENT src=10.0.0.1 dst=10.0.0.2 sport=40000 dport=80 [UNREPLIED] src=10.0.0.2 dst=10.0.0.1 sport=80 dport=40000 @3
1 deleted 1 @3 @4
udp      17 119 src=10.0.0.1 dst=10.0.0.2 sport=5000 dport=53 src=10.0.0.2 dst=10.0.0.1 sport=53 dport=5000 @3
2 count 1 @4
3 flushed 1 @4 @5
4 get 0 @5
5 list 0 @5 @5
";

const COMMANDS: &str = "\
-L
-D -p udp
-C
-F
-G -p tcp -s 10.0.0.1 -d 10.0.0.2 --sport 40000 --dport 80
-L
";

static SWEEPS: [Case<'static>; 2] = [
    Case {
        files: &[
            (SCRIPT, Content::Repeated(1, "wait\n", COMMANDS)),
            (NAME, ANSWERED_AND_OPENED),
        ],
        out: Text::Is(SWEPT),
        ..SCRIPTED
    },
    Case {
        files: &[
            (
                SCRIPT,
                Content::Repeated(1, "# all of it\n\nwait\n", COMMANDS),
            ),
            (NAME, ANSWERED_AND_OPENED),
        ],
        out: Text::Is(SWEPT),
        ..SCRIPTED
    },
];

#[test]
fn entries_are_listed_and_destroyed(rt: HostRuntime) -> Result<(), Fail> {
    all_hold(&rt, &SWEEPS)
}

const EMPTY: &str = "\
events 0
thread 0 packets 0
script 2
0 list 0 @0 @0
1 count 0 @0
";

#[test]
fn commands_on_an_empty_table(rt: HostRuntime) -> Result<(), Fail> {
    static CASE: Case<'static> = Case {
        files: &[
            (SCRIPT, Content::Text("-L\nwait\n-C\n")),
            (NAME, Content::First(24, &CAPTURE)),
        ],
        out: Text::Is(EMPTY),
        ..SCRIPTED
    };
    holds(&rt, &CASE, 0)
}

const TWO_THREADS_SCRIPT: &str = "\
wait
expire 32000000
-G -p udp -s 10.0.0.2 -d 10.0.0.1 --sport 53 --dport 5000
-D -r 10.0.0.2
-L expect
";

/// What the script does behind two captures. It is the same in whatever order their packets were worked on.
const BEHIND_TWO_THREADS: &str = "\
script 4
0 expired 1 0 @4 @5
1 get 1 @5
udp      17 120 src=10.0.0.1 dst=10.0.0.2 sport=5000 dport=53 src=10.0.0.2 dst=10.0.0.1 sport=53 dport=5000 @5
2 deleted 1 @5 @6
udp      17 120 src=10.0.0.1 dst=10.0.0.2 sport=5000 dport=53 src=10.0.0.2 dst=10.0.0.1 sport=53 dport=5000 @5
3 expectations 0 @6
";

/// An echo and its answer, and an answer that nobody asked for.
const ECHO: Content<'static> = Content::Capture(
    PLAIN,
    &[
        (1, 0, IpPacket::Echo(0x0a00_0001, 0x0a00_0002, 8, 7)),
        (2, 0, IpPacket::Echo(0x0a00_0002, 0x0a00_0001, 0, 7)),
        (3, 0, IpPacket::Echo(0x0a00_0002, 0x0a00_0001, 0, 8)),
    ],
);

#[test]
fn two_captures_and_a_script(rt: HostRuntime) -> Result<(), Fail> {
    static CASE: Case<'static> = Case {
        words: &["ctreplay", NAME, "--script=s.script", SECOND],
        files: &[
            (SCRIPT, Content::Text(TWO_THREADS_SCRIPT)),
            (SECOND, ECHO),
            (NAME, Content::Bytes(&CAPTURE)),
        ],
        room: 4000,
        out: Text::Around("events 6\n", BEHIND_TWO_THREADS),
        ..REPLAYED
    };
    holds(&rt, &CASE, 0)
}

const BESIDE_A_QUERY: [&str; 2] = [
    "\
events 1
0 confirm 0.0 udp src=10.0.0.1 dst=10.0.0.2 sport=5000 dport=53 src=10.0.0.2 dst=10.0.0.1 sport=53 dport=5000 until=1030000000
thread 0 packets 1
0 NEW id=0 @1
script 1
0 count 0 @0
",
    "\
events 1
0 confirm 0.0 udp src=10.0.0.1 dst=10.0.0.2 sport=5000 dport=53 src=10.0.0.2 dst=10.0.0.1 sport=53 dport=5000 until=1030000000
thread 0 packets 1
0 NEW id=0 @1
script 1
0 count 1 @1
",
];

#[test]
fn a_command_beside_a_capture(rt: HostRuntime) -> Result<(), Fail> {
    static CASE: Case<'static> = Case {
        files: &[
            (SCRIPT, Content::Text("-C\n")),
            (NAME, Content::First(72, &CAPTURE)),
        ],
        out: Text::OneOf(&BESIDE_A_QUERY),
        ..SCRIPTED
    };
    holds(&rt, &CASE, 0)
}

const UNTRACKED_BESIDE: &str = "\
events 3
0 confirm 0.0 udp src=10.0.0.1 dst=10.0.0.2 sport=5000 dport=53 src=10.0.0.2 dst=10.0.0.1 sport=53 dport=5000 until=1030000000
1 touch 0.1 id=0 reply until=1120500000 replied
2 destroy s.2 id=0 deleted
thread 0 packets 2
0 NEW id=0 @1
1 ESTABLISHED_REPLY id=0 @2
thread 1 packets 1
0 INVALID header
script 4
0 expired 0 0 @2 @2
1 get 1 @2
udp      17 120 src=10.0.0.1 dst=10.0.0.2 sport=5000 dport=53 src=10.0.0.2 dst=10.0.0.1 sport=53 dport=5000 @2
2 deleted 1 @2 @3
udp      17 120 src=10.0.0.1 dst=10.0.0.2 sport=5000 dport=53 src=10.0.0.2 dst=10.0.0.1 sport=53 dport=5000 @2
3 expectations 0 @3
";

/// A packet with nothing in it.
const NOTHING: Content<'static> = Content::Capture(PLAIN, &[(1, 0, IpPacket::Raw(b""))]);

/// A run of rules, a script and two captures.
const FOUR_FILES: Case<'static> = Case {
    words: &[
        "ctreplay", "--rules", RULES, "--script", SCRIPT, NAME, SECOND,
    ],
    files: &[
        (
            RULES,
            Content::Text("snat -s 192.168.0.0/16 to 203.0.113.1\n"),
        ),
        (SCRIPT, Content::Text(TWO_THREADS_SCRIPT)),
        (NAME, Content::Bytes(&CAPTURE)),
        (SECOND, NOTHING),
    ],
    out: Text::Is(UNTRACKED_BESIDE),
    ..REPLAYED
};

/// A run of them whose report is not written whole.
const NOT_WRITTEN: Case<'static> = Case {
    status: 4,
    err: Text::Is("ctreplay: write failed\n"),
    ..FOUR_FILES
};

static WRITES: [Case<'static>; 7] = [
    Case {
        room: UNTRACKED_BESIDE.len(),
        faults: Faults { out: 0, ..NONE },
        out: Text::First(0, UNTRACKED_BESIDE),
        ..NOT_WRITTEN
    },
    Case {
        room: 0,
        out: Text::First(0, UNTRACKED_BESIDE),
        ..NOT_WRITTEN
    },
    Case {
        room: 1,
        out: Text::First(1, UNTRACKED_BESIDE),
        ..NOT_WRITTEN
    },
    Case {
        room: 300,
        out: Text::First(300, UNTRACKED_BESIDE),
        ..NOT_WRITTEN
    },
    Case {
        room: 300,
        faults: Faults { out: 1, ..NONE },
        out: Text::First(300, UNTRACKED_BESIDE),
        ..NOT_WRITTEN
    },
    Case {
        room: UNTRACKED_BESIDE.len() - 1,
        out: Text::First(UNTRACKED_BESIDE.len() - 1, UNTRACKED_BESIDE),
        ..NOT_WRITTEN
    },
    Case {
        room: UNTRACKED_BESIDE.len(),
        ..FOUR_FILES
    },
];

#[test]
fn writes_fail_over_captures_and_a_script(rt: HostRuntime) -> Result<(), Fail> {
    all_hold(&rt, &WRITES)
}

/// Either thread is the first, and the other one meets its entry, or is merged into it.
const TWICE: [&str; 4] = [
    "\
events 2
0 confirm 0.0 udp src=10.0.0.1 dst=10.0.0.2 sport=5000 dport=53 src=10.0.0.2 dst=10.0.0.1 sport=53 dport=5000 until=1030000000
1 touch 1.0 id=0 original until=1030000000
thread 0 packets 1
0 NEW id=0 @1
thread 1 packets 1
0 NEW id=0 @2
script 0
",
    "\
events 2
0 confirm 1.0 udp src=10.0.0.1 dst=10.0.0.2 sport=5000 dport=53 src=10.0.0.2 dst=10.0.0.1 sport=53 dport=5000 until=1030000000
1 touch 0.0 id=0 original until=1030000000
thread 0 packets 1
0 NEW id=0 @2
thread 1 packets 1
0 NEW id=0 @1
script 0
",
    "\
events 1
0 confirm 0.0 udp src=10.0.0.1 dst=10.0.0.2 sport=5000 dport=53 src=10.0.0.2 dst=10.0.0.1 sport=53 dport=5000 until=1030000000
thread 0 packets 1
0 NEW id=0 @1
thread 1 packets 1
0 MERGED id=0 @1
script 0
",
    "\
events 1
0 confirm 1.0 udp src=10.0.0.1 dst=10.0.0.2 sport=5000 dport=53 src=10.0.0.2 dst=10.0.0.1 sport=53 dport=5000 until=1030000000
thread 0 packets 1
0 MERGED id=0 @1
thread 1 packets 1
0 NEW id=0 @1
script 0
",
];

#[test]
fn one_capture_twice(rt: HostRuntime) -> Result<(), Fail> {
    static CASE: Case<'static> = Case {
        words: &["ctreplay", NAME, NAME],
        files: &[(NAME, Content::First(72, &CAPTURE))],
        out: Text::OneOf(&TWICE),
        ..REPLAYED
    };
    holds(&rt, &CASE, 0)
}

/// A run whose capture has no flaw, and one whose capture has one. The script comes before the captures: it is the same
/// where one is flawed, too.
static CAPTURES: [Content<'static>; 2] = [Content::Bytes(&CAPTURE), Content::Text("pcapng")];

/// A run of a script that is refused, without its files.
static REFUSED_SCRIPT: Case<'static> = NOT_SCRIPTED;

/// Asserts that this script is refused with this line.
fn refuse_one<'s, R: Threads + Wait + Sync + AllocGlobal + Abort>(
    rt: &R,
    script: &'s str,
    line: &'s str,
    number: usize,
) -> Result<(), Fail> {
    for capture in CAPTURES {
        let case = Case {
            files: &[(SCRIPT, Content::Text(script)), (NAME, capture)],
            err: Text::Is(line),
            ..REFUSED_SCRIPT
        };
        holds(rt, &case, number)?;
    }
    Ok(())
}

/// Asserts that each of these scripts is refused with its line.
fn refuse<R: Threads + Wait + Sync + AllocGlobal + Abort>(
    rt: &R,
    rows: &[(&str, &str)],
) -> Result<(), Fail> {
    for (number, (script, line)) in rows.iter().enumerate() {
        refuse_one(rt, script, line, number)?;
    }
    Ok(())
}

static UNKNOWN_COMMANDS: [(&str, &str); 5] = [
    ("-X", "ctreplay: s.script: line 1: command\n"),
    ("-L\n\n# x\n-l\n", "ctreplay: s.script: line 4: command\n"),
    ("expires 1\n", "ctreplay: s.script: line 1: command\n"),
    ("wait\nWAIT\n", "ctreplay: s.script: line 2: command\n"),
    (
        "-F\n-C\n--list\n-X -X\n",
        "ctreplay: s.script: line 3: command\n",
    ),
];

#[test]
fn unknown_commands(rt: HostRuntime) -> Result<(), Fail> {
    refuse(&rt, &UNKNOWN_COMMANDS)
}

static OPTIONS_NOT_TAKEN: [(&str, &str); 6] = [
    ("-L -x 1\n", "ctreplay: s.script: line 1: option\n"),
    ("-F\n-F -p tcp\n", "ctreplay: s.script: line 2: option\n"),
    ("wait now\n", "ctreplay: s.script: line 1: option\n"),
    ("-D --sport 53\n", "ctreplay: s.script: line 1: option\n"),
    (
        "-G -p udp -s 10.0.0.1 -d 10.0.0.2 --sport 1\n",
        "ctreplay: s.script: line 1: option\n",
    ),
    (
        "-C\r\nexpire 1 2\r\n",
        "ctreplay: s.script: line 2: option\n",
    ),
];

#[test]
fn options_that_are_not_taken(rt: HostRuntime) -> Result<(), Fail> {
    refuse(&rt, &OPTIONS_NOT_TAKEN)
}

static WRONG_VALUES: [(&str, &str); 6] = [
    ("-L -p\n", "ctreplay: s.script: line 1: value\n"),
    (
        "-L\n-D -s 300.0.0.1\n",
        "ctreplay: s.script: line 2: value\n",
    ),
    ("-G -p icmp\n", "ctreplay: s.script: line 1: value\n"),
    (
        "-L -p tcp --dport 65536\n",
        "ctreplay: s.script: line 1: value\n",
    ),
    ("expire\n", "ctreplay: s.script: line 1: value\n"),
    (
        "\nexpire 10000000000000001\n",
        "ctreplay: s.script: line 2: value\n",
    ),
];

#[test]
fn values_that_are_wrong(rt: HostRuntime) -> Result<(), Fail> {
    refuse(&rt, &WRONG_VALUES)
}

static REPEATED: [(&str, &str); 5] = [
    ("-L -p tcp -p udp\n", "ctreplay: s.script: line 1: repeat\n"),
    (
        "-D -s 10.0.0.1 -s\n",
        "ctreplay: s.script: line 1: repeat\n",
    ),
    ("wait\n-C\nwait\n", "ctreplay: s.script: line 3: repeat\n"),
    (
        "-L -q 10.0.0.1 -r 10.0.0.1 -q 10.0.0.1\n",
        "ctreplay: s.script: line 1: repeat\n",
    ),
    (
        "-C\n-G -d 10.0.0.1 -d 10.0.0.1\n",
        "ctreplay: s.script: line 2: repeat\n",
    ),
];

#[test]
fn what_stands_twice(rt: HostRuntime) -> Result<(), Fail> {
    refuse(&rt, &REPEATED)
}

static MANY: [Case<'static>; 6] = [
    Case {
        files: &[
            (SCRIPT, Content::Repeated(256, "-C\n", "-C\n")),
            (NAME, Content::Bytes(&CAPTURE)),
        ],
        err: Text::Is("ctreplay: s.script: line 257: too many\n"),
        ..NOT_SCRIPTED
    },
    Case {
        files: &[
            (SCRIPT, Content::Repeated(256, "-C\n", "-X\n")),
            (NAME, Content::Bytes(&CAPTURE)),
        ],
        err: Text::Is("ctreplay: s.script: line 257: too many\n"),
        ..NOT_SCRIPTED
    },
    Case {
        files: &[
            (SCRIPT, Content::Repeated(256, "-C\n", "-L -p\n")),
            (NAME, Content::Bytes(&CAPTURE)),
        ],
        err: Text::Is("ctreplay: s.script: line 257: too many\n"),
        ..NOT_SCRIPTED
    },
    Case {
        files: &[
            (SCRIPT, Content::Repeated(256, "-C\n", "\n#\n-C\n")),
            (NAME, Content::Bytes(&CAPTURE)),
        ],
        err: Text::Is("ctreplay: s.script: line 259: too many\n"),
        ..NOT_SCRIPTED
    },
    Case {
        files: &[
            (SCRIPT, Content::Repeated(256, "-C\n", "wait\n-C\n")),
            (NAME, Content::Bytes(&CAPTURE)),
        ],
        err: Text::Is("ctreplay: s.script: line 258: too many\n"),
        ..NOT_SCRIPTED
    },
    Case {
        files: &[
            (SCRIPT, Content::Repeated(256, "-C\n", "wait\n# no more\n")),
            (NAME, Content::Bytes(&CAPTURE)),
        ],
        out: Text::Around("events 2\n", "\n"),
        ..SCRIPTED
    },
];

#[test]
fn too_many_commands(rt: HostRuntime) -> Result<(), Fail> {
    all_hold(&rt, &MANY)
}

/// A run of rules, a script of one command and two captures.
const OPENED: Case<'static> = Case {
    files: &[
        (
            RULES,
            Content::Text("snat -s 192.168.0.0/16 to 203.0.113.1\n"),
        ),
        (SCRIPT, Content::Text("-C\n")),
        (NAME, Content::Bytes(&CAPTURE)),
        (SECOND, Content::First(72, &CAPTURE)),
    ],
    room: 4000,
    out: Text::Any,
    ..FOUR_FILES
};

/// A run of them that a failed call of the files ends.
const NOT_READ: Case<'static> = Case {
    status: 3,
    out: Text::Is(""),
    ..OPENED
};

/// Each file is opened, read, and read to its end.
static CALLS: [Case<'static>; 13] = [
    Case {
        faults: Faults { files: 0, ..NONE },
        err: Text::Is("ctreplay: r.rules: open failed\n"),
        ..NOT_READ
    },
    Case {
        faults: Faults { files: 1, ..NONE },
        err: Text::Is("ctreplay: r.rules: read failed\n"),
        ..NOT_READ
    },
    Case {
        faults: Faults { files: 2, ..NONE },
        err: Text::Is("ctreplay: r.rules: read failed\n"),
        ..NOT_READ
    },
    Case {
        faults: Faults { files: 3, ..NONE },
        err: Text::Is("ctreplay: s.script: open failed\n"),
        ..NOT_READ
    },
    Case {
        faults: Faults { files: 4, ..NONE },
        err: Text::Is("ctreplay: s.script: read failed\n"),
        ..NOT_READ
    },
    Case {
        faults: Faults { files: 5, ..NONE },
        err: Text::Is("ctreplay: s.script: read failed\n"),
        ..NOT_READ
    },
    Case {
        faults: Faults { files: 6, ..NONE },
        err: Text::Is("ctreplay: c.pcap: open failed\n"),
        ..NOT_READ
    },
    Case {
        faults: Faults { files: 7, ..NONE },
        err: Text::Is("ctreplay: c.pcap: read failed\n"),
        ..NOT_READ
    },
    Case {
        faults: Faults { files: 8, ..NONE },
        err: Text::Is("ctreplay: c.pcap: read failed\n"),
        ..NOT_READ
    },
    Case {
        faults: Faults { files: 9, ..NONE },
        err: Text::Is("ctreplay: d.pcap: open failed\n"),
        ..NOT_READ
    },
    Case {
        faults: Faults { files: 10, ..NONE },
        err: Text::Is("ctreplay: d.pcap: read failed\n"),
        ..NOT_READ
    },
    Case {
        faults: Faults { files: 11, ..NONE },
        err: Text::Is("ctreplay: d.pcap: read failed\n"),
        ..NOT_READ
    },
    Case {
        faults: Faults { files: 12, ..NONE },
        ..OPENED
    },
];

#[test]
fn each_call_of_four_files_fails(rt: HostRuntime) -> Result<(), Fail> {
    all_hold(&rt, &CALLS)
}
