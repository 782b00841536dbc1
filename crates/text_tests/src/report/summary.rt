//! Whole texts of summaries.

use super::{every_form, made, passed, query, related, report_of};
use ct_io::MemSink;
use history_book::report::Report;
use history_book::verdict::{Ftp, Label};
use report_text::page::LONGEST_LINE;
use report_text::summary::write_summary;
use std::alloc::Global;
use std::process::Abort;
use std::test::Fail;
use tuple_core::NoMemory;

/// Asserts that the text of the report's summary is this one, through a small buffer and a large one.
fn check(rt: &impl Abort, alloc: Global, report: &Report, text: &str) -> Result<(), NoMemory> {
    let mut small = MemSink::new(alloc, 4096, &[])?;
    let mut line = [0; LONGEST_LINE];
    assert!(rt; write_summary(report, &mut line, &mut small).is_ok());
    assert_eq!(rt; small.bytes(), text.as_bytes());
    let mut large = MemSink::new(alloc, 4096, &[1])?;
    let mut page = [0; 4096];
    assert!(rt; write_summary(report, &mut page, &mut large).is_ok());
    assert_eq!(rt; large.bytes(), text.as_bytes());
    Ok(())
}

#[test]
fn nothing_tracked(rt: HostRuntime) -> Result<(), Fail> {
    let report = report_of(rt.alloc(), &[], &[&[]])?;
    check(
        &rt,
        rt.alloc(),
        &report,
        "summary threads=1 packets=0 events=0 live=1\n",
    )?;
    Ok(())
}

/// A word that occurs in several threads has one line; one that occurs in none has no line.
#[test]
fn words_of_several_threads(rt: HostRuntime) -> Result<(), Fail> {
    let answer = passed(Label::EstablishedReply, 2, Ftp::Nothing);
    let threads: [&[_]; 3] = [&[made(0, 1), answer], &[], &[answer, related(2, 3), answer]];
    let mut report = report_of(rt.alloc(), &[query(0, 0, 1), query(1, 1, 1)], &threads)?;
    report.live = 7;
    check(
        &rt,
        rt.alloc(),
        &report,
        "\
summary threads=3 packets=5 events=2 live=7
NEW 1
RELATED 1
ESTABLISHED_REPLY 3
",
    )?;
    Ok(())
}

/// The summary of a verdict of each class.
const EVERY_WORD: &str = "\
summary threads=2 packets=24 events=3 live=1
UNTRACKED 3
INVALID 5
NEW 2
RELATED 3
ESTABLISHED 3
ESTABLISHED_REPLY 1
RELATED_REPLY 1
IGNORED 1
MERGED 1
CLASH 1
NOPORT 1
FULL 1
CONTENDED 1
";

#[test]
fn each_word(rt: HostRuntime) -> Result<(), Fail> {
    check(&rt, rt.alloc(), &every_form(rt.alloc())?, EVERY_WORD)?;
    Ok(())
}

/// The one write of a summary fails, or the sink has room for its first bytes alone.
#[test]
fn a_sink_that_fails(rt: HostRuntime) -> Result<(), Fail> {
    let report = every_form(rt.alloc())?;
    for (room, fails, written) in [(4096, 0, 0), (10, 9, 10)] {
        let mut sink = MemSink::new(rt.alloc(), room, &[fails])?;
        let mut page = [0; LONGEST_LINE];
        assert!(rt; write_summary(&report, &mut page, &mut sink).is_err());
        assert_eq!(rt; sink.bytes().len(), written);
        assert!(rt; EVERY_WORD.as_bytes().starts_with(sink.bytes()));
    }
    Ok(())
}
