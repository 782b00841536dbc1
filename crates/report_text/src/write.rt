//! A report's text, gathered on a page and written to a sink. No call takes memory.

ghost use Rattle.std.specs.Borrow.{Bor};
ghost use Rattle.std.specs.List.{flat_map};
ghost use Rattle.std.specs.Prelude.{ℕ, ◌≤◌, List, [], length, IfOk};
ghost use Rattle.report_text.specs.Internal.Gathered.{Gathered};
ghost use Rattle.report_text.specs.Internal.Lines.{report_line};
ghost use Rattle.report_text.specs.Line.{verdict_line};
ghost use Rattle.report_text.specs.Page.{HasRoom};
ghost use Rattle.report_text.specs.Answer.{answer_text, got_text, line_of_expectation, line_of_row, rows_text};
ghost use Rattle.report_text.specs.Report.{history_text, line_of_event, report_text, script_text, thread_text, tracking_text};
ghost use Rattle.report_text.specs.Texts.{texts_from};
ghost use Rattle.report_text.specs.Wrote.{Wrote};

use crate::line::ReportLine;
use crate::page::{LONGEST_LINE, Page};
use ct_io::{Failed, Sink};
use expect_table::expectation::Expectation;
use history_book::answer::{Answer, Row, Said};
use history_book::report::{History, Report, Verdicts};

/// Writing failed.
#[derive(Clone, Copy, Debug)]
pub struct WriteFault;

impl From<Failed> for WriteFault {
    fn from(_failed: Failed) -> WriteFault {
        WriteFault
    }
}

/// Writes all of `piece`, in as many calls of the sink as it takes.
#[tactic(auto, using(crate::proofs::Writes::written_more, crate::proofs::Writes::written_whole))]
pub fn write_all<K: Sink>(piece: &[u8], out: &mut K) -> Result<(), WriteFault>
    ensures wrote { Wrote piece.now (K.tape out.old) (K.tape out.new) result }
    ensures faults_stay { (K.tape out.old).faults ≤ (K.tape out.new).faults }
{
    let mut done = 0;
    'pieces: while done < piece.len() {
        let (_, rest) = piece.split_at(done);
        done += out.write(rest)?;
    }
    Ok(())
}

/// Writes all of each piece, one after the other.
#[tactic(auto, using(crate::proofs::Writes::written_none, crate::proofs::Writes::written_each, crate::proofs::Writes::written_next))]
pub fn write_each<K: Sink>(pieces: &[&[u8]], out: &mut K) -> Result<(), WriteFault>
    ensures wrote { Wrote (flat_map (λ (piece : Bor (List ℕ)). piece.now) pieces.now)
        (K.tape out.old) (K.tape out.new) result }
    ensures faults_stay { (K.tape out.old).faults ≤ (K.tape out.new).faults }
{
    'each: for piece in pieces {
        write_all(piece, out)?;
    }
    Ok(())
}

/// Makes room for a line: where the page has too little, what it holds is written.
#[tactic(auto, using(crate::proofs::Gathers::sent_nothing, crate::proofs::Gathers::sent_held, crate::proofs::Gathers::lost_held))]
pub(crate) fn make_room<K: Sink>(page: &mut Page, out: &mut K) -> Result<(), WriteFault>
    ensures room { IfOk result (λ _. HasRoom LONGEST_LINE page.new) }
    ensures gathered { Gathered [] page.old page.new (K.tape out.old) (K.tape out.new) result }
{
    if page.room() < LONGEST_LINE {
        write_all(page.held(), out)?;
        page.clear();
    }
    Ok(())
}

/// Writes a line, or holds it back.
#[tactic(auto, using(crate::proofs::Gathers::sent_line, crate::proofs::Gathers::lost_line))]
pub(crate) fn write_line<K: Sink>(
    line: ReportLine<'_>,
    page: &mut Page,
    out: &mut K,
) -> Result<(), WriteFault>
    ensures { Gathered (report_line line.entry) page.old page.new
        (K.tape out.old) (K.tape out.new) result }
{
    make_room(page, out)?;
    page.line(line);
    Ok(())
}

/// Writes the line of each event, or holds it back.
#[tactic(auto, using(crate::proofs::Gathers::sent_none, crate::proofs::Gathers::sent_each))]
fn write_events<K: Sink>(
    script: usize,
    events: &History,
    page: &mut Page,
    out: &mut K,
) -> Result<(), WriteFault>
    ensures { Gathered (texts_from (line_of_event script) 0 events.now.items) page.old page.new
        (K.tape out.old) (K.tape out.new) result }
{
    'events: for index in 0..events.len() {
        make_room(page, out)?;
        let event = events.at(index);
        page.event_line(script, &event);
    }
    Ok(())
}

/// Writes the number of events and each of them, or holds them back.
#[tactic(auto, using(crate::proofs::Gathers::gathered_then, crate::proofs::Gathers::lost_more), unfolding(crate::specs::Report::history_text))]
fn write_history<K: Sink>(
    script: usize,
    events: &History,
    page: &mut Page,
    out: &mut K,
) -> Result<(), WriteFault>
    ensures { Gathered (history_text script events.now.items) page.old page.new
        (K.tape out.old) (K.tape out.new) result }
{
    let head = ReportLine::HistoryHead {
        events: events.len(),
    };
    write_line(head, page, out)?;
    write_events(script, events, page, out)
}

/// Writes the line of each verdict, or holds it back.
#[tactic(auto, using(crate::proofs::Gathers::sent_none, crate::proofs::Gathers::sent_each))]
fn write_verdicts<K: Sink>(
    verdicts: &Verdicts,
    page: &mut Page,
    out: &mut K,
) -> Result<(), WriteFault>
    ensures { Gathered (texts_from verdict_line 0 verdicts.now.items) page.old page.new
        (K.tape out.old) (K.tape out.new) result }
{
    'verdicts: for index in 0..verdicts.len() {
        make_room(page, out)?;
        page.verdict_head(index);
        let verdict = verdicts.at(index);
        page.class_line(verdict.class);
    }
    Ok(())
}

/// Writes the number of a thread's packets and the verdict on each, or holds them back.
#[tactic(auto, using(crate::proofs::Gathers::gathered_then, crate::proofs::Gathers::lost_more), unfolding(crate::specs::Report::thread_text))]
fn write_thread<K: Sink>(
    thread: usize,
    verdicts: &Verdicts,
    page: &mut Page,
    out: &mut K,
) -> Result<(), WriteFault>
    ensures { Gathered (thread_text thread verdicts.now) page.old page.new
        (K.tape out.old) (K.tape out.new) result }
{
    let head = ReportLine::ThreadHead {
        thread,
        packets: verdicts.len(),
    };
    write_line(head, page, out)?;
    write_verdicts(verdicts, page, out)
}

/// Writes the verdicts of each thread, or holds them back.
#[tactic(auto, using(crate::proofs::Gathers::sent_none, crate::proofs::Gathers::sent_each))]
fn write_threads<K: Sink>(
    threads: &[Verdicts],
    page: &mut Page,
    out: &mut K,
) -> Result<(), WriteFault>
    ensures { Gathered (texts_from thread_text 0 threads.now) page.old page.new
        (K.tape out.old) (K.tape out.new) result }
{
    'threads: for (thread, verdicts) in threads.iter().enumerate() {
        write_thread(thread, verdicts, page, out)?;
    }
    Ok(())
}

/// Writes the events and the verdicts, or holds them back.
#[tactic(auto, using(crate::proofs::Gathers::gathered_then, crate::proofs::Gathers::lost_more), unfolding(crate::specs::Report::tracking_text))]
fn write_tracking<K: Sink>(report: &Report, page: &mut Page, out: &mut K) -> Result<(), WriteFault>
    ensures { Gathered (tracking_text report.now) page.old page.new
        (K.tape out.old) (K.tape out.new) result }
{
    let script = report.threads.len();
    write_history(script, &report.history, page, out)?;
    write_threads(report.threads.as_slice(), page, out)
}

/// Writes the line of each entry at a moment, or holds it back.
#[tactic(auto, using(crate::proofs::Gathers::sent_none, crate::proofs::Gathers::sent_each))]
fn write_rows<K: Sink>(
    moment: u64,
    rows: &[Row],
    page: &mut Page,
    out: &mut K,
) -> Result<(), WriteFault>
    ensures { Gathered (texts_from (line_of_row moment) 0 rows.now) page.old page.new
        (K.tape out.old) (K.tape out.new) result }
{
    'rows: for row in rows {
        write_line(ReportLine::EntryRow { moment, row }, page, out)?;
    }
    Ok(())
}

/// Writes the line of each expectation at a moment and a point, or holds it back.
#[tactic(auto, using(crate::proofs::Gathers::sent_none, crate::proofs::Gathers::sent_each))]
fn write_expectations<K: Sink>(
    moment: u64,
    at: u64,
    expectations: &[Expectation],
    page: &mut Page,
    out: &mut K,
) -> Result<(), WriteFault>
    ensures { Gathered (texts_from (line_of_expectation moment at) 0 expectations.now) page.old page.new
        (K.tape out.old) (K.tape out.new) result }
{
    'expectations: for e in expectations {
        write_line(ReportLine::ExpectationRow { moment, at, e }, page, out)?;
    }
    Ok(())
}

/// Writes nothing.
#[tactic(auto, using(crate::proofs::Gathers::sent_none))]
fn write_nothing<K: Sink>(_page: &mut Page, _out: &mut K) -> Result<(), WriteFault>
    ensures { Gathered [] _page.old _page.new (K.tape _out.old) (K.tape _out.new) result }
{
    Ok(())
}

/// Writes the line of the entry that was looked up, or holds it back, if one was live.
fn write_got<K: Sink>(
    moment: u64,
    row: &Option<Row>,
    page: &mut Page,
    out: &mut K,
) -> Result<(), WriteFault>
    ensures { Gathered (got_text moment row.now) page.old page.new
        (K.tape out.old) (K.tape out.new) result }
{
    match row {
        Some(row) => write_line(ReportLine::EntryRow { moment, row }, page, out),
        None => write_nothing(page, out),
    }
}

/// Writes the rows of an answer, or holds them back.
fn write_said<K: Sink>(answer: &Answer, page: &mut Page, out: &mut K) -> Result<(), WriteFault>
    ensures { Gathered (rows_text answer.now.said answer.now.moment answer.now.from) page.old page.new
        (K.tape out.old) (K.tape out.new) result }
{
    match &answer.said {
        Said::Listed(rows) | Said::Deleted(rows) => {
            write_rows(answer.moment, rows.as_slice(), page, out)
        }
        Said::Expectations(rows) => {
            write_expectations(answer.moment, answer.from, rows.as_slice(), page, out)
        }
        Said::Got(row) => write_got(answer.moment, row, page, out),
        Said::Flushed | Said::Counted(_) | Said::Expired { .. } => write_nothing(page, out),
    }
}

/// Writes the answer to the command of this index, or holds it back.
#[tactic(auto, using(crate::proofs::Gathers::gathered_then, crate::proofs::Gathers::lost_more), unfolding(crate::specs::Answer::answer_text))]
fn write_answer<K: Sink>(
    index: usize,
    answer: &Answer,
    page: &mut Page,
    out: &mut K,
) -> Result<(), WriteFault>
    ensures { Gathered (answer_text index answer.now) page.old page.new
        (K.tape out.old) (K.tape out.new) result }
{
    write_line(ReportLine::AnswerHead { index, answer }, page, out)?;
    write_said(answer, page, out)
}

/// Writes each answer, or holds it back.
#[tactic(auto, using(crate::proofs::Gathers::sent_none, crate::proofs::Gathers::sent_each))]
fn write_answers<K: Sink>(
    answers: &[Answer],
    page: &mut Page,
    out: &mut K,
) -> Result<(), WriteFault>
    ensures { Gathered (texts_from answer_text 0 answers.now) page.old page.new
        (K.tape out.old) (K.tape out.new) result }
{
    'answers: for (index, answer) in answers.iter().enumerate() {
        write_answer(index, answer, page, out)?;
    }
    Ok(())
}

/// Writes the number of commands and the answer to each, or holds them back.
#[tactic(auto, using(crate::proofs::Gathers::gathered_then, crate::proofs::Gathers::lost_more), unfolding(crate::specs::Report::script_text))]
fn write_script<K: Sink>(answers: &[Answer], page: &mut Page, out: &mut K) -> Result<(), WriteFault>
    ensures { Gathered (script_text answers.now) page.old page.new
        (K.tape out.old) (K.tape out.new) result }
{
    let head = ReportLine::ScriptHead {
        commands: answers.len(),
    };
    write_line(head, page, out)?;
    write_answers(answers, page, out)
}

/// Writes the text of a report, or holds it back.
#[tactic(auto, using(crate::proofs::Gathers::gathered_then, crate::proofs::Gathers::lost_more), unfolding(crate::specs::Report::report_text))]
fn gather_report<K: Sink>(report: &Report, page: &mut Page, out: &mut K) -> Result<(), WriteFault>
    ensures { Gathered (report_text report.now) page.old page.new
        (K.tape out.old) (K.tape out.new) result }
{
    write_tracking(report, page, out)?;
    write_script(report.answers.as_slice(), page, out)
}

/// Writes the text of `report` through `buffer`, in few calls of the sink where that is large.
#[tactic(auto, using(crate::proofs::Gathers::lost_front, crate::proofs::Gathers::wrote_rest))]
pub fn write_report<K: Sink>(
    report: &Report,
    buffer: &mut [u8],
    out: &mut K,
) -> Result<(), WriteFault>
    requires { LONGEST_LINE ≤ length buffer.old }
    ensures wrote { Wrote (report_text report.now) (K.tape out.old) (K.tape out.new) result }
    ensures faults_stay { (K.tape out.old).faults ≤ (K.tape out.new).faults }
{
    let mut page = Page::new(buffer);
    gather_report(report, &mut page, out)?;
    write_all(page.held(), out)
}
