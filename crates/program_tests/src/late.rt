//! That the checks of `reported.rt` refuse a packet that is answered behind a command behind `wait`, although the packet
//! makes no event: two reports that are false and right in all else.

use crate::case::{Case, NONE, PLACES, Text, report_of};
use crate::content::{Content, PLAIN};
use crate::packet::{ACK, Ends, IpPacket, SYN};
use crate::reported::{are_spans, is_history};
use history_book::answer::{Answer, Answers, Said};
use history_book::event::{Event, Numbered};
use history_book::report::{History, Report, ThreadVerdicts, Verdicts};
use history_book::verdict::{Class, Verdict};
use std::alloc::Global;
use std::process::Abort;
use std::sync::Wait;
use std::test::Fail;
use std::thread::Threads;
use tuple_core::NoMemory;

/// The ends of a flow, from the client on.
const CALL: Ends = Ends {
    src: 0x0a00_0001,
    sport: 5000,
    dst: 0x0a00_0002,
    dport: 53,
};

/// The same from the server on.
const BACK: Ends = Ends {
    src: 0x0a00_0002,
    sport: 53,
    dst: 0x0a00_0001,
    dport: 5000,
};

/// The script, which ends all entries when the capture was replayed.
const FLUSH: (&str, Content<'static>) = ("s.script", Content::Text("wait\n-F\n"));

/// A query, and the word of the server that its port is unreachable.
static QUERY: Case<'static> = Case {
    words: &["ctreplay", "--script=s.script", "c.pcap"],
    files: &[
        (
            "c.pcap",
            Content::Capture(
                PLAIN,
                &[
                    (1, 0, IpPacket::Udp(CALL)),
                    (2, 0, IpPacket::Unreachable(CALL.src, CALL)),
                ],
            ),
        ),
        FLUSH,
    ],
    room: 1000,
    faults: NONE,
    status: 0,
    out: Text::Any,
    err: Text::Any,
};

/// The first two segments of a connection.
static OPENING: Case<'static> = Case {
    words: &["ctreplay", "--script=s.script", "c.pcap"],
    files: &[
        (
            "c.pcap",
            Content::Capture(
                PLAIN,
                &[
                    (1, 0, IpPacket::Tcp(CALL, SYN, b"")),
                    (2, 0, IpPacket::Tcp(BACK, SYN + ACK, b"")),
                ],
            ),
        ),
        FLUSH,
    ],
    room: 1000,
    faults: NONE,
    status: 0,
    out: Text::Any,
    err: Text::Any,
};

/// The Confirm and the Destroy of a history.
fn without_touches(alloc: Global, history: &History) -> Result<History, NoMemory> {
    let mut events = History::empty(alloc);
    for index in 0..history.len() {
        let item = history.at(index);
        if !matches!(item.event, Event::Touch { .. }) {
            let number = events.len() as u64;
            events.reserve(1)?;
            events.push(Numbered { number, ..item });
        }
    }
    Ok(events)
}

/// The first verdict, and that the second packet met nothing, behind both events and with none of its own.
fn answered_late(
    alloc: Global,
    threads: &ThreadVerdicts,
    late: Class,
) -> Result<Verdicts, NoMemory> {
    let mut verdicts = Verdicts::empty(alloc);
    if !threads.is_empty() && threads.at(0).len() > 0 {
        verdicts.reserve(1)?;
        verdicts.push(threads.at(0).at(0));
    }
    verdicts.reserve(1)?;
    verdicts.push(Verdict {
        class: late,
        first: 1,
        made: 0,
    });
    Ok(verdicts)
}

/// The flush of the one entry, by the second event.
fn flushed(alloc: Global) -> Result<Answers, NoMemory> {
    let mut answers = Answers::new(alloc, 1)?;
    answers.push(Answer {
        said: Said::Flushed,
        from: 1,
        to: 2,
        first: 0,
        made: 1,
        moment: 2_000_000,
    });
    Ok(answers)
}

/// The false report: the second packet met nothing, behind the flush.
fn falsified(alloc: Global, report: &Report, late: Class) -> Result<Report, NoMemory> {
    let mut threads = ThreadVerdicts::new(alloc, 1)?;
    threads.push(answered_late(alloc, &report.threads, late)?);
    Ok(Report {
        history: without_touches(alloc, &report.history)?,
        live: report.live,
        threads,
        answers: flushed(alloc)?,
    })
}

/// Asserts that the report of a run is right, and that the false one is so but for what `wait` asks.
fn is_told<R: Threads + Wait + Sync + AllocGlobal + Abort>(
    rt: &R,
    case: &Case<'_>,
    late: Class,
) -> Result<(), Fail> {
    let alloc = rt.alloc();
    let Some(report) = report_of(rt, case)? else {
        panic!(rt; "there is no report");
    };
    assert!(rt; are_spans(&report, Some(0)), "the report as it is");
    let changed = falsified(alloc, &report, late)?;
    let is_legal = is_history(alloc, &changed, PLACES)?;
    assert!(rt; is_legal, "the false history");
    assert!(rt; are_spans(&changed, None), "false but for `wait`");
    assert!(rt; !are_spans(&changed, Some(0)), "the false report");
    Ok(())
}

#[test]
fn no_packet_is_answered_behind_wait(rt: HostRuntime) -> Result<(), Fail> {
    is_told(&rt, &QUERY, Class::ErrorLost { at: 2 })?;
    is_told(&rt, &OPENING, Class::NoEntry { at: 2 })
}
