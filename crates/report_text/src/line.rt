//! The lines of a report. Each is written on a page that has room for the longest one.

ghost use Rattle.std.specs.Fmt.{decimal};
ghost use Rattle.std.specs.Prelude.{◌++◌, codes};
ghost use Rattle.report_text.specs.Internal.Lines.{report_line};
ghost use Rattle.report_text.specs.Line.{event_line, history_head, script_head, thread_head};
ghost use Rattle.report_text.specs.Page.{Adds, HasRoom};
ghost use Rattle.report_text.specs.Piece.{class_text};

use crate::heard::HeardCount;
use crate::page::{LONGEST_LINE, Page};
use expect_table::expectation::Expectation;
use history_book::answer::{Answer, Row};
use history_book::event::Numbered;
use history_book::verdict::Class;

/// A line with what stands in it. The lines of events and verdicts, of which there are many, are written without it.
#[derive(Clone, Copy)]
pub(crate) enum ReportLine<'l> {
    /// Before the events.
    HistoryHead {
        events: usize,
    },
    /// Before the verdicts of a thread.
    ThreadHead {
        thread: usize,
        packets: usize,
    },
    /// Before the answers to a script.
    ScriptHead {
        commands: usize,
    },
    /// Before the rows of the answer to the command of this index.
    AnswerHead {
        index: usize,
        answer: &'l Answer,
    },
    /// An entry at a moment.
    EntryRow {
        moment: u64,
        row: &'l Row,
    },
    /// An expectation at a moment and a point.
    ExpectationRow {
        moment: u64,
        at: u64,
        e: &'l Expectation,
    },
    /// What was heard of a thread, with a script of this number among the threads.
    Heard {
        script: usize,
        thread: usize,
        count: &'l HeardCount,
    },
}

impl<'b> Page<'b> {
    /// Writes the line before the events.
    #[tactic(auto, unfolding(crate::specs::Line::history_head))]
    fn history_head(&mut self, events: usize)
        requires { HasRoom LONGEST_LINE self.old }
        ensures { Adds LONGEST_LINE (history_head events) self.old self.new }
    {
        self.text(b"events ");
        self.number(events);
        self.text(b"\n");
    }

    /// Writes the line of an event, with a script of this number among the threads.
    #[tactic(auto, unfolding(crate::specs::Line::event_line))]
    #[inline(always)]
    pub(crate) fn event_line(&mut self, script: usize, e: &Numbered)
        requires { HasRoom LONGEST_LINE self.old }
        ensures { Adds LONGEST_LINE (event_line script e.now) self.old self.new }
    {
        self.event(script, e);
        self.text(b"\n");
    }

    /// Writes the line before the verdicts of a thread.
    #[tactic(auto, unfolding(crate::specs::Line::thread_head))]
    fn thread_head(&mut self, thread: usize, packets: usize)
        requires { HasRoom LONGEST_LINE self.old }
        ensures { Adds LONGEST_LINE (thread_head thread packets) self.old self.new }
    {
        self.text(b"thread ");
        self.number(thread);
        self.text(b" packets ");
        self.number(packets);
        self.text(b"\n");
    }

    /// Begins the line of the verdict on the packet of this index.
    #[inline(always)]
    pub(crate) fn verdict_head(&mut self, index: usize)
        requires { HasRoom 21 self.old }
        ensures { Adds 21 (decimal index ++ codes " ") self.old self.new }
    {
        self.number(index);
        self.text(b" ");
    }

    /// Writes what became of a packet, at its line's end.
    #[inline(always)]
    pub(crate) fn class_line(&mut self, class: Class)
        requires { HasRoom 117 self.old }
        ensures { Adds 117 (class_text class ++ codes "\n") self.old self.new }
    {
        self.class(class);
        self.text(b"\n");
    }

    /// Writes the line before the answers to a script.
    #[tactic(auto, unfolding(crate::specs::Line::script_head))]
    fn script_head(&mut self, commands: usize)
        requires { HasRoom LONGEST_LINE self.old }
        ensures { Adds LONGEST_LINE (script_head commands) self.old self.new }
    {
        self.text(b"script ");
        self.number(commands);
        self.text(b"\n");
    }

    /// Writes a line.
    pub(crate) fn line(&mut self, line: ReportLine<'_>)
        requires { HasRoom LONGEST_LINE self.old }
        ensures { Adds LONGEST_LINE (report_line line.entry) self.old self.new }
    {
        match line {
            ReportLine::HistoryHead { events } => self.history_head(events),
            ReportLine::ThreadHead { thread, packets } => self.thread_head(thread, packets),
            ReportLine::ScriptHead { commands } => self.script_head(commands),
            ReportLine::AnswerHead { index, answer } => self.answer_head(index, answer),
            ReportLine::EntryRow { moment, row } => self.row_line(moment, row),
            ReportLine::ExpectationRow { moment, at, e } => self.expectation_line(moment, at, e),
            ReportLine::Heard {
                script,
                thread,
                count,
            } => self.heard_line(script, thread, count),
        }
    }
}
