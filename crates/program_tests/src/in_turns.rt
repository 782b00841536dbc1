//! Runs on the tracker whose passes take turns with one list, beside those of the program.

ghost use Rattle.std.specs.Prelude.{◌≡◌, ◌+◌, ◌≤◌, length};
ghost use Rattle.history_book.specs.Sizes.{AreWithinLimits};
ghost use Rattle.run_inputs.specs.Ready.{IsReady};

use crate::case::{Case, NONE, Text, files_of, report_of, words_of};
use crate::content::{Content, PLAIN};
use crate::packet::{ACK, Ends, IpPacket, PSH, SYN, Sent};
use crate::reported::{are_spans, is_history};
use command_words::read_words;
use ct_io::{MemSink, NoGate};
use desk_tests::turn_replay::replay_in_turns;
use history_book::report::Report;
use history_book::sizes::Sizes;
use packet_path::setup::{Ports, Setup};
use report_text::page::LONGEST_LINE;
use report_text::summary::write_summary;
use report_text::write::{WriteFault, write_report};
use run_inputs::{Inputs, read_all};
use std::alloc::Global;
use std::process::Abort;
use std::sync::Wait;
use std::test::Fail;
use std::thread::Threads;
use tuple_core::NoMemory;

/// A table of the most places, for so many captures and a script.
fn sizes_for(captures: usize) -> Sizes
    requires { captures ≤ 63 }
    ensures limits { AreWithinLimits result }
    ensures passes { result.passes ≡ captures + 1 }
{
    Sizes {
        entries: 65_536,
        buckets: 16,
        seed: 1,
        passes: captures as u32 + 1,
        expectations: 1_024,
    }
}

/// The report of these inputs, on the tracker whose passes take turns.
fn replayed<R: Threads + Wait + Sync>(
    rt: &R,
    alloc: Global,
    inputs: Inputs,
) -> Result<Report, NoMemory>
    requires { IsReady inputs }
{
    let Inputs {
        rules,
        script,
        captures,
    } = inputs;
    let mut ftp = Ports::new(alloc, 1)?;
    ftp.append(&[21])?;
    let setup = Setup { rules, ftp };
    let sizes = sizes_for(captures.len());
    replay_in_turns(rt, alloc, &sizes, captures, &script, &setup, &NoGate)
}

/// The report of a run on that tracker, where its words and files are right.
fn report_in_turns<R: Threads + Wait + Sync + AllocGlobal>(
    rt: &R,
    case: &Case<'_>,
) -> Result<Option<Report>, Fail> {
    let alloc = rt.alloc();
    let words = words_of(alloc, case.words)?;
    let mut files = files_of(alloc, case.files, &case.faults)?;
    let Ok(asked) = read_words(alloc, words.as_slice()) else {
        return Ok(None);
    };
    let inputs = match read_all(alloc, &mut files, &asked) {
        Ok(inputs) => inputs,
        Err(_) => return Ok(None),
    };
    Ok(Some(replayed(rt, alloc, inputs)?))
}

/// The text of a report, or its summary.
fn text_of(alloc: Global, report: &Report, summary: bool) -> Result<MemSink, Fail> {
    let mut out = MemSink::new(alloc, 20_000, &[])?;
    let mut buffer = vec![in alloc; 0; LONGEST_LINE]?;
    let written = if summary {
        write_summary(report, buffer.as_mut_slice(), &mut out)
    } else {
        write_report(report, buffer.as_mut_slice(), &mut out)
    };
    match written {
        Ok(()) => Ok(out),
        Err(WriteFault) => Ok(out),
    }
}

/// The control connection of FTP from 10.0.0.1:40000 to 10.0.0.2:21, which is translated.
const CONTROL: Ends = Ends {
    src: 0x0a00_0001,
    sport: 40_000,
    dst: 0x0a00_0002,
    dport: 21,
};

/// Its answers, to the router at 192.0.2.1.
const CONTROL_BACK: Ends = Ends {
    src: 0x0a00_0002,
    sport: 21,
    dst: 0xc000_0201,
    dport: 40_000,
};

/// The data connection that the server begins.
const DATA: Ends = Ends {
    src: 0x0a00_0002,
    sport: 20,
    dst: 0xc000_0201,
    dport: 40_001,
};

/// Two clients that ask one server from one port.
const FIRST: Ends = Ends {
    src: 0x0a00_0001,
    sport: 5000,
    dst: 0xc633_6401,
    dport: 53,
};

const SECOND: Ends = Ends {
    src: 0x0a00_0003,
    ..FIRST
};

/// A connection of FTP that names its data connection, which comes; two queries; one of the clients again when its entry
/// has expired.
const PACKETS: &[Sent<'static>] = &[
    (1, 0, IpPacket::Tcp(CONTROL, SYN, b"")),
    (2, 0, IpPacket::Tcp(CONTROL_BACK, SYN + ACK, b"")),
    (3, 0, IpPacket::Tcp(CONTROL, ACK, b"")),
    (
        4,
        0,
        IpPacket::Tcp(CONTROL, ACK + PSH, b"PORT 10,0,0,1,156,65\r\n"),
    ),
    (5, 0, IpPacket::Tcp(DATA, SYN, b"")),
    (6, 0, IpPacket::Udp(FIRST)),
    (7, 0, IpPacket::Udp(SECOND)),
    (50, 0, IpPacket::Udp(FIRST)),
];

/// One capture, with rules and a script behind it. No command ends two entries: in which order it would is the tracker's.
static ALONE: Case<'static> = Case {
    words: &["ctreplay", "--rules=r.rules", "--script=s.script", "c.pcap"],
    files: &[
        (
            "r.rules",
            Content::Text("snat -s 10.0.0.0/8 to 192.0.2.1\n"),
        ),
        (
            "s.script",
            Content::Text("wait\n-L\n-L expect\nexpire 60000000\n-D -p tcp --dport 21\n-C\n-L\n"),
        ),
        ("c.pcap", Content::Capture(PLAIN, PACKETS)),
    ],
    room: 20_000,
    faults: NONE,
    status: 0,
    out: Text::Any,
    err: Text::Any,
};

/// Four threads of flows of their own.
static BESIDE: Case<'static> = Case {
    words: &["ctreplay", "--make=2", "--packets=400", "--threads=4"],
    files: &[],
    room: 20_000,
    faults: NONE,
    status: 0,
    out: Text::Any,
    err: Text::Any,
};

/// Whether two reports have the same text, or summary, which has some length.
fn have_one_text(alloc: Global, one: &Report, other: &Report, summary: bool) -> Result<bool, Fail> {
    let one = text_of(alloc, one, summary)?;
    let other = text_of(alloc, other, summary)?;
    Ok(one.bytes().len() > 50 && one.bytes() == other.bytes())
}

/// Asserts that a run has the same text, or summary, on both trackers, and that both reports are right.
fn is_same<R: Threads + Wait + Sync + AllocGlobal + Abort>(
    rt: &R,
    case: &Case<'_>,
    wait: Option<usize>,
    summary: bool,
) -> Result<(), Fail> {
    let alloc = rt.alloc();
    let Some(shared) = report_of(rt, case)? else {
        panic!(rt; "there is no report of the program");
    };
    let Some(turns) = report_in_turns(rt, case)? else {
        panic!(rt; "there is no report in turns");
    };
    let is_legal = is_history(alloc, &turns, 65_536)?;
    assert!(rt; is_legal, "the history");
    assert!(rt; are_spans(&turns, wait), "the spans");
    let is_one = have_one_text(alloc, &shared, &turns, summary)?;
    assert!(rt; is_one, "the same text");
    Ok(())
}

/// One capture has the same text whichever tracker the program runs on.
#[test]
fn one_capture_on_both_trackers(rt: HostRuntime) -> Result<(), Fail> {
    is_same(&rt, &ALONE, Some(0), false)
}

/// Threads of flows of their own have the same counts.
#[test]
fn four_threads_on_both_trackers(rt: HostRuntime) -> Result<(), Fail> {
    is_same(&rt, &BESIDE, None, true)
}
