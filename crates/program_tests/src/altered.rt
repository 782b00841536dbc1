//! That the checks of `reported.rt` tell a wrong report from a right one: changes of the report on four packets of one
//! flow, each of which made an event. Each change is to be refused.

use crate::case::{Case, NONE, PLACES, Text, report_of};
use crate::reported::{are_spans, is_history};
use history_book::answer::Answers;
use history_book::event::Numbered;
use history_book::report::{History, Report, ThreadVerdicts, Verdicts};
use history_book::verdict::{Class, Ftp, Label, Verdict};
use std::alloc::Global;
use std::process::Abort;
use std::sync::Wait;
use std::test::Fail;
use std::thread::Threads;
use tuple_core::NoMemory;

/// A run of one flow of four packets.
static ONE_FLOW: Case<'static> = Case {
    words: &["ctreplay", "--make=0", "--packets=4", "--threads=1"],
    files: &[],
    room: 1000,
    faults: NONE,
    status: 0,
    out: Text::Any,
    err: Text::Any,
};

/// What is changed: the third event, the third verdict, or the count of live entries.
#[derive(Clone, Copy)]
enum Change {
    /// The event has another number.
    Number,
    /// It stands there twice.
    Twice,
    /// It is left out.
    LeftOut,
    /// It names another packet.
    Index,
    /// It is the script's.
    Thread,
    /// It is a thread's of which there is none.
    NoThread,
    /// The verdict's events begin one further on.
    First,
    /// The verdict has one event more.
    Made,
    /// Its point lies behind the history.
    Behind,
    /// Its point lies before what the thread had seen.
    Before,
    /// One entry more is live.
    Live,
}

static CHANGES: [Change; 11] = [
    Change::Number,
    Change::Twice,
    Change::LeftOut,
    Change::Index,
    Change::Thread,
    Change::NoThread,
    Change::First,
    Change::Made,
    Change::Behind,
    Change::Before,
    Change::Live,
];

/// The third event, changed.
fn event_changed(item: Numbered, change: Change) -> Numbered {
    let mut changed = item;
    match change {
        Change::Number => changed.number = 1,
        Change::Index => changed.index = 1,
        Change::Thread => changed.thread = 1,
        Change::NoThread => changed.thread = 2,
        _ => {}
    }
    changed
}

/// Puts the third event, changed, behind the events before it.
fn put_changed(events: &mut History, item: Numbered, change: Change) -> Result<(), NoMemory> {
    match change {
        Change::Twice => {
            events.reserve(2)?;
            events.push(item);
            events.push(item);
        }
        Change::LeftOut => {}
        _ => {
            events.reserve(1)?;
            events.push(event_changed(item, change));
        }
    }
    Ok(())
}

/// The events with this change.
fn events_changed(alloc: Global, history: &History, change: Change) -> Result<History, NoMemory> {
    let mut events = History::empty(alloc);
    for place in 0..history.len() {
        let item = history.at(place);
        if place == 2 {
            put_changed(&mut events, item, change)?;
        } else {
            events.reserve(1)?;
            events.push(item);
        }
    }
    Ok(events)
}

/// That the one entry accepted a packet, as of this point.
fn passed_at(at: u64) -> Class {
    Class::Passed {
        label: Label::Established,
        id: 0,
        at,
        ftp: Ftp::Nothing,
    }
}

/// The third verdict, changed.
fn verdict_changed(verdict: Verdict, change: Change) -> Verdict {
    let mut changed = verdict;
    match change {
        Change::First => changed.first = 3,
        Change::Made => changed.made = 2,
        Change::Behind => changed.class = passed_at(5),
        Change::Before => changed.class = passed_at(1),
        _ => {}
    }
    changed
}

/// The verdicts of the one thread with this change.
fn verdicts_changed(
    alloc: Global,
    threads: &ThreadVerdicts,
    change: Change,
) -> Result<Verdicts, NoMemory> {
    let mut verdicts = Verdicts::empty(alloc);
    if threads.is_empty() {
        return Ok(verdicts);
    }
    let first = threads.at(0);
    for place in 0..first.len() {
        let item = first.at(place);
        let verdict = if place == 2 {
            verdict_changed(item, change)
        } else {
            item
        };
        verdicts.reserve(1)?;
        verdicts.push(verdict);
    }
    Ok(verdicts)
}

/// The count of live entries with this change.
fn live_changed(live: u32, change: Change) -> u32 {
    match change {
        Change::Live => live.wrapping_add(1),
        _ => live,
    }
}

/// The report with this change.
fn report_changed(alloc: Global, report: &Report, change: Change) -> Result<Report, NoMemory> {
    let mut threads = ThreadVerdicts::new(alloc, 1)?;
    threads.push(verdicts_changed(alloc, &report.threads, change)?);
    Ok(Report {
        history: events_changed(alloc, &report.history, change)?,
        live: live_changed(report.live, change),
        threads,
        answers: Answers::empty(alloc),
    })
}

/// Whether a report is as it has to be.
fn is_right(alloc: Global, report: &Report) -> Result<bool, NoMemory> {
    Ok(is_history(alloc, report, PLACES)? && are_spans(report, None))
}

/// Asserts that this report is right as it is, and refused with each change.
fn are_told<R: Threads + Wait + Sync + AllocGlobal + Abort>(
    rt: &R,
    report: &Report,
) -> Result<(), Fail> {
    let alloc = rt.alloc();
    assert!(rt; is_right(alloc, report)?, "the report as it is");
    for (number, change) in CHANGES.iter().enumerate() {
        let changed = report_changed(alloc, report, *change)?;
        assert!(rt;
            !is_right(alloc, &changed)?,
            "the report with change {number}"
        );
    }
    Ok(())
}

#[test]
fn changed_reports(rt: HostRuntime) -> Result<(), Fail> {
    let report = report_of(&rt, &ONE_FLOW)?;
    assert!(&rt; report.is_some(), "there is a report");
    match report {
        Some(report) => are_told(&rt, &report),
        None => Ok(()),
    }
}
