//! Runs of the whole program as data, and one call that makes a run and compares.

use crate::content::{Content, bytes_of};
use crate::reported::{are_first, are_spans, is_history};
use crate::wait::wait_in;
use ct_io::{Gate, MemFiles, MemSink, NoGate};
use event_listen::heard::Heard;
use history_book::report::Report;
use replay_top::top;
use std::alloc::{AllocError, Global};
use std::process::Abort;
use std::sync::Wait;
use std::test::Fail;
use std::thread::Threads;

/// The calls of files, of writes to the output and of writes to the error output that are to fail.
#[derive(Clone, Copy)]
pub struct Faults {
    pub files: u64,
    pub out: u64,
    pub err: u64,
}

/// No call fails: none has this number.
pub const NONE: Faults = Faults {
    files: u64::MAX,
    out: u64::MAX,
    err: u64::MAX,
};

/// A number in a text.
#[derive(Clone, Copy)]
pub enum Number {
    Is(u32),
    IsNot(u32),
    Within(u32, u32),
}

/// What a text is to be.
#[derive(Clone, Copy)]
pub enum Text<'c> {
    Is(&'c str),
    /// So many first bytes of this.
    First(usize, &'c str),
    /// Some first bytes of this, and not all.
    CutShort(&'c str),
    /// It begins with one and ends with the other.
    Around(&'c str, &'c str),
    /// It begins with the first and ends with the second, or begins with the third and ends with the fourth.
    AroundEither(&'c str, &'c str, &'c str, &'c str),
    /// It is one of these.
    OneOf(&'c [&'c str]),
    /// It begins so, and has these numbers, each in this line and this word of it.
    Numbers(&'c str, &'c [(u32, u32, Number)]),
    Any,
}

/// A run: its words, its files with their names, how many bytes the output takes, and which calls fail; and what it is
/// to leave. There is to be a report with the statuses 0 and 4.
#[derive(Clone, Copy)]
pub struct Case<'c> {
    pub words: &'c [&'c str],
    pub files: &'c [(&'c str, Content<'c>)],
    pub room: usize,
    pub faults: Faults,
    pub status: u8,
    pub out: Text<'c>,
    pub err: Text<'c>,
}

/// The number in this word of this line.
fn number_at(text: &[u8], line: u32, word: u32) -> u32 {
    let mut lines = 0u32;
    let mut words = 0u32;
    let mut number = 0u32;
    for byte in text {
        if *byte == b'\n' {
            lines = lines.wrapping_add(1);
            words = 0;
        } else if *byte == b' ' {
            words = words.wrapping_add(1);
        } else if lines == line && words == word && byte.is_ascii_digit() {
            let digit = u32::from(byte.wrapping_sub(b'0'));
            number = number.wrapping_mul(10).wrapping_add(digit);
        }
    }
    number
}

/// Whether a number is as expected.
fn is_number(number: u32, expected: &Number) -> bool {
    match expected {
        Number::Is(value) => number == *value,
        Number::IsNot(value) => number != *value,
        Number::Within(least, most) => *least <= number && number <= *most,
    }
}

/// Whether a text has these numbers.
fn has_numbers(text: &[u8], numbers: &[(u32, u32, Number)]) -> bool {
    for (line, word, number) in numbers {
        if !is_number(number_at(text, *line, *word), number) {
            return false;
        }
    }
    true
}

/// Whether a text is one of these.
fn is_one_of(text: &[u8], all: &[&str]) -> bool {
    for one in all {
        if text == one.as_bytes() {
            return true;
        }
    }
    false
}

/// Whether a text begins with one and ends with the other.
fn is_around(text: &[u8], begin: &str, end: &str) -> bool {
    text.starts_with(begin.as_bytes()) && text.ends_with(end.as_bytes())
}

/// Whether a text is as expected.
fn fits(text: &[u8], expected: &Text<'_>) -> bool {
    match expected {
        Text::Is(all) => text == all.as_bytes(),
        Text::First(length, all) => text.len() == *length && all.as_bytes().starts_with(text),
        Text::CutShort(all) => text.len() < all.len() && all.as_bytes().starts_with(text),
        Text::Around(begin, end) => is_around(text, begin, end),
        Text::AroundEither(begin, end, other_begin, other_end) => {
            is_around(text, begin, end) || is_around(text, other_begin, other_end)
        }
        Text::OneOf(all) => is_one_of(text, all),
        Text::Numbers(begin, numbers) => {
            text.starts_with(begin.as_bytes()) && has_numbers(text, numbers)
        }
        Text::Any => true,
    }
}

/// The words as the program takes them.
pub fn words_of(alloc: Global, words: &[&str]) -> Result<Vec<String>, AllocError> {
    let mut all = Vec::new(alloc);
    for word in words {
        all.push(String::from_str(alloc, word)?)?;
    }
    Ok(all)
}

/// The files as the program takes them.
pub fn files_of(
    alloc: Global,
    given: &[(&str, Content<'_>)],
    faults: &Faults,
) -> Result<MemFiles, Fail> {
    let mut files = MemFiles::new(alloc, &[faults.files])?;
    for (name, content) in given {
        let bytes = bytes_of(alloc, content)?;
        files.add(name, bytes.as_slice())?;
    }
    Ok(files)
}

/// What a run left.
#[derive(Drop)]
struct Left {
    status: u8,
    report: Option<Report>,
    heard: Option<Heard>,
    out: MemSink,
    err: MemSink,
}

/// Runs the program, whose threads pass this gate.
fn run<R: Threads + Wait + Sync + AllocGlobal, G: Gate + Sync>(
    rt: &R,
    case: &Case<'_>,
    gate: &G,
) -> Result<Left, Fail> {
    let alloc = rt.alloc();
    let words = words_of(alloc, case.words)?;
    let mut files = files_of(alloc, case.files, &case.faults)?;
    let mut out = MemSink::new(alloc, case.room, &[case.faults.out])?;
    let mut err = MemSink::new(alloc, 100, &[case.faults.err])?;
    let words = words.as_slice();
    let run = top(rt, alloc, words, &mut files, &mut out, &mut err, gate);
    Ok(Left {
        status: run.status,
        report: run.report,
        heard: run.heard,
        out,
        err,
    })
}

/// The report of a run, where there is one.
pub fn report_of<R: Threads + Wait + Sync + AllocGlobal>(
    rt: &R,
    case: &Case<'_>,
) -> Result<Option<Report>, Fail> {
    let Left { report, .. } = run(rt, case, &NoGate)?;
    Ok(report)
}

/// How many places a table has where the words do not say.
pub const PLACES: u32 = 65536;

/// The number that a word's digits are.
fn digits_of(word: &[u8]) -> u32 {
    let mut number = 0u32;
    for byte in word {
        if byte.is_ascii_digit() {
            let digit = u32::from(byte.wrapping_sub(b'0'));
            number = number.wrapping_mul(10).wrapping_add(digit);
        }
    }
    number
}

/// Whether this is one of the words.
fn is_asked(words: &[&str], asked: &str) -> bool {
    for word in words {
        if *word == asked {
            return true;
        }
    }
    false
}

/// How many places the table of a run with these words has.
fn places_of(words: &[&str]) -> u32 {
    let mut places = PLACES;
    let mut is_behind = false;
    for word in words {
        if is_behind || word.starts_with("--entries=") {
            places = digits_of(word.as_bytes());
        }
        is_behind = *word == "--entries";
    }
    places
}

/// How many commands stand in front of the line `wait` of the run's script, if there is one. No other file has such a line.
fn wait_of(alloc: Global, case: &Case<'_>) -> Result<Option<usize>, AllocError> {
    for (_, content) in case.files {
        let bytes = bytes_of(alloc, content)?;
        if let Some(wait) = wait_in(bytes.as_slice()) {
            return Ok(Some(wait));
        }
    }
    Ok(None)
}

/// Asserts that a report has a legal history with the spans and points that it is to have, and that what was heard is of it.
fn is_right<R: AllocGlobal + Abort>(
    rt: &R,
    case: &Case<'_>,
    report: &Report,
    heard: Option<&Heard>,
    number: usize,
) -> Result<(), Fail> {
    let alloc = rt.alloc();
    let is_legal = is_history(alloc, report, places_of(case.words))?;
    assert!(rt; is_legal, "history of run {number}");
    let wait = wait_of(alloc, case)?;
    assert!(rt; are_spans(report, wait), "spans and points of run {number}");
    assert!(rt; are_first(report, heard), "what run {number} heard");
    Ok(())
}

/// Asserts that both texts are those that the run is to leave.
fn are_texts<R: Abort>(rt: &R, case: &Case<'_>, out: &[u8], err: &[u8], number: usize) {
    assert!(rt; fits(out, &case.out), "out of run {number}");
    assert!(rt; fits(err, &case.err), "err of run {number}");
}

/// Asserts that a run whose threads pass this gate leaves what it is to leave, and that its report, where there is one, has
/// a legal history with the spans and points that it is to have.
pub fn holds_through<R: Threads + Wait + Sync + AllocGlobal + Abort, G: Gate + Sync>(
    rt: &R,
    case: &Case<'_>,
    gate: &G,
    number: usize,
) -> Result<(), Fail> {
    let left = run(rt, case, gate)?;
    assert_eq!(rt; left.status, case.status, "status of run {number}");
    let reported = case.status == 0 || case.status == 4;
    assert_eq!(rt; left.report.is_some(), reported, "report of run {number}");
    if let Some(report) = &left.report {
        is_right(rt, case, report, left.heard.as_ref(), number)?;
    }
    let listens = reported && is_asked(case.words, "--listen");
    assert_eq!(rt; left.heard.is_some(), listens, "listener of run {number}");
    are_texts(rt, case, left.out.bytes(), left.err.bytes(), number);
    Ok(())
}

/// Asserts that a run leaves what it is to leave.
pub fn holds<R: Threads + Wait + Sync + AllocGlobal + Abort>(
    rt: &R,
    case: &Case<'_>,
    number: usize,
) -> Result<(), Fail> {
    holds_through(rt, case, &NoGate, number)
}

/// Asserts that each run leaves what it is to leave.
pub fn all_hold<R: Threads + Wait + Sync + AllocGlobal + Abort>(
    rt: &R,
    cases: &[Case<'_>],
) -> Result<(), Fail> {
    for (number, case) in cases.iter().enumerate() {
        holds(rt, case, number)?;
    }
    Ok(())
}
