//! What each report has to be, whatever its run is about, read off it slowly: its history by `check_history`, and the spans
//! and points of its verdicts and answers by a walk over the history for each thread.

use event_listen::heard::Heard;
use history_book::answer::Answer;
use history_book::check::{Checked, check_history};
use history_book::event::Numbered;
use history_book::report::{History, Notes, Report, Verdicts};
use history_book::verdict::{Class, Ftp, Translated, Verdict};
use std::alloc::Global;
use tuple_core::NoMemory;

/// How many connections a table expects at most.
const EXPECTATIONS: u32 = 1024;

/// The most events of a history that is checked: the check takes time with the events times the live entries. The runs that
/// have more fill a table of the most places.
const LONGEST: usize = 20_000;

/// Whether the history is legal for so many places, and has so many live entries after it as the report says.
pub fn is_history(alloc: Global, report: &Report, places: u32) -> Result<bool, NoMemory> {
    if report.history.len() > LONGEST {
        return Ok(true);
    }
    let checked = check_history(alloc, &report.history, places, EXPECTATIONS)?;
    Ok(match checked {
        Checked::Legal { live } => live == report.live,
        Checked::Broken { number: _ } => false,
    })
}

/// The way of a thread through the history: where its next event is looked for, how many it has made, and its mark.
#[derive(Drop)]
struct Way<'h> {
    history: &'h History,
    thread: usize,
    at: usize,
    made: u64,
    mark: u64,
}

/// The points and numbers of one verdict or answer: none lies before the mark that it came upon, or behind the history.
#[derive(Drop)]
struct Points {
    least: u64,
    limit: u64,
    most: u64,
    are_kept: bool,
}

impl Points {
    /// One more point.
    fn see(&mut self, point: u64) {
        self.are_kept = self.are_kept && self.least <= point && point <= self.limit;
        self.most = self.most.max(point);
    }

    /// One more point, where there is one.
    fn see_if(&mut self, point: Option<u64>) {
        if let Some(at) = point {
            self.see(at);
        }
    }

    /// The points of a translation.
    fn see_translated(&mut self, translated: &Translated) {
        match translated {
            Translated::Plain => {}
            Translated::Chosen { kept_taken_at, .. } => self.see_if(*kept_taken_at),
        }
    }

    /// The points of what came of a payload.
    fn see_ftp(&mut self, ftp: &Ftp) {
        match ftp {
            Ftp::Nothing | Ftp::Address | Ftp::Expected { .. } => {}
            Ftp::Clash { at, .. } | Ftp::Full { at } | Ftp::Gone { at } => self.see(*at),
        }
    }

    /// The points of a verdict.
    fn see_class(&mut self, class: &Class) {
        match class {
            Class::Untracked(_) | Class::BadHeader => {}
            Class::NoEntry { at }
            | Class::BadState { at, .. }
            | Class::ErrorLost { at }
            | Class::ErrorAddress { at, .. }
            | Class::Error { at, .. }
            | Class::Ignored { at, .. }
            | Class::Contended { at, .. } => self.see(*at),
            Class::Made {
                at,
                translated,
                unclaimed,
                ..
            } => {
                self.see(*at);
                self.see_translated(translated);
                self.see_if(*unclaimed);
            }
            Class::Passed { at, ftp, .. } => {
                self.see(*at);
                self.see_ftp(ftp);
            }
            Class::Merged { at, translated, .. } | Class::Clash { at, translated, .. } => {
                self.see(*at);
                self.see_translated(translated);
            }
            Class::NoPort { from, to } | Class::Full { from, at: to } => {
                self.see(*from);
                self.see(*to);
            }
        }
    }
}

impl Way<'_> {
    /// The thread's next event, if it made one more.
    fn next(&mut self) -> Option<Numbered> {
        let history = self.history;
        for index in self.at..history.len() {
            let item = history.at(index);
            if item.thread as usize == self.thread {
                self.at = index.wrapping_add(1);
                return Some(item);
            }
        }
        None
    }

    /// Takes the events of a packet or command from its span, so many from this index on. They are the thread's next
    /// ones, and name the packet or command. None where that is not so; else the points of its own events.
    fn take(&mut self, index: usize, first: u64, made: u64) -> Option<Points> {
        let mut points = Points {
            least: self.mark,
            limit: self.history.len() as u64,
            most: self.mark,
            are_kept: first == self.made,
        };
        for _ in 0..made {
            let item = self.next()?;
            points.are_kept = points.are_kept && item.index as usize == index;
            points.see(item.number);
            points.see(item.number.wrapping_add(1));
        }
        self.made = self.made.wrapping_add(made);
        Some(points)
    }

    /// Whether a verdict has its span and its points.
    fn has_verdict(&mut self, index: usize, verdict: &Verdict) -> bool {
        match self.take(index, verdict.first, u64::from(verdict.made)) {
            None => false,
            Some(mut points) => {
                points.see_class(&verdict.class);
                self.mark = points.most;
                points.are_kept
            }
        }
    }

    /// Whether an answer has its span, and its points behind one another.
    fn has_answer(&mut self, index: usize, answer: &Answer) -> bool {
        match self.take(index, answer.first, answer.made) {
            None => false,
            Some(mut points) => {
                points.see(answer.from);
                points.see(answer.to);
                self.mark = points.most;
                points.are_kept && answer.from <= answer.to && points.most <= answer.to
            }
        }
    }
}

/// The way of a thread from the beginning on.
fn way_of(history: &History, thread: usize) -> Way<'_> {
    Way {
        history,
        thread,
        at: 0,
        made: 0,
        mark: 0,
    }
}

/// The mark of a thread that made just the events of these verdicts, in their order, and of which no point is older than
/// what it had seen. None where that is not so.
fn mark_behind(history: &History, thread: usize, verdicts: &Verdicts) -> Option<u64> {
    let mut way = way_of(history, thread);
    for index in 0..verdicts.len() {
        if !way.has_verdict(index, &verdicts.at(index)) {
            return None;
        }
    }
    if way.next().is_some() {
        return None;
    }
    Some(way.mark)
}

/// The script: its thread stands behind those of the captures. So many of its commands stand in front of `wait`, and those
/// behind it have seen all up to this point.
#[derive(Clone, Copy)]
struct Waiting {
    thread: usize,
    wait: Option<usize>,
    end: u64,
}

/// The same of the script.
fn are_answers(history: &History, script: Waiting, answers: &[Answer]) -> bool {
    let mut way = way_of(history, script.thread);
    for (index, answer) in answers.iter().enumerate() {
        if script.wait == Some(index) {
            way.mark = way.mark.max(script.end);
        }
        if !way.has_answer(index, answer) {
            return false;
        }
    }
    way.next().is_none()
}

/// Whether each event is of a thread of a capture, of which there are so many, or of the script's behind them.
fn are_of_threads(history: &History, captures: usize) -> bool {
    for index in 0..history.len() {
        if history.at(index).thread as usize > captures {
            return false;
        }
    }
    true
}

/// Whether the spans and points of all threads are as they have to be, where so many commands of the script stand in front
/// of its line `wait`, if it has one: no packet was answered behind the first command behind that.
pub fn are_spans(report: &Report, wait: Option<usize>) -> bool {
    let history = &report.history;
    let threads = report.threads.as_slice();
    if !are_of_threads(history, threads.len()) {
        return false;
    }
    let mut end = 0;
    for (thread, verdicts) in threads.iter().enumerate() {
        match mark_behind(history, thread, verdicts) {
            None => return false,
            Some(mark) => end = mark.max(end),
        }
    }
    let script = Waiting {
        thread: threads.len(),
        wait,
        end,
    };
    are_answers(history, script, report.answers.as_slice())
}

/// Whether these are the first events of a thread, by their numbers.
fn begins_thread(history: &History, thread: usize, notes: &Notes) -> bool {
    let mut index = 0;
    for place in 0..history.len() {
        let item = history.at(place);
        if item.thread as usize == thread && index < notes.len() {
            if notes.at(index).number != item.number {
                return false;
            }
            index += 1;
        }
    }
    index == notes.len()
}

/// Whether what was heard of each thread, the script's included, are the first of its events; without a listener nothing
/// was heard.
pub fn are_first(report: &Report, heard: Option<&Heard>) -> bool {
    let Some(heard) = heard else {
        return true;
    };
    for thread in 0..heard.len() {
        if !begins_thread(&report.history, thread, heard.at(thread)) {
            return false;
        }
    }
    let threads = report.threads.len();
    heard.len() > threads && heard.len() - threads == 1
}
