//! What two threads and a script made, whose events interleave by number.

ghost use Rattle.std.specs.Prelude.{◌≡◌, ◌+◌, ◌<◌, ◌^◌, [], ◌++◌, length};
ghost use Rattle.history_book.specs.Merge.{AreNumbers, CoverFrom, spans_of_answers, spans_of_verdicts};

use super::packed_lists::list_of;
use history_book::answer::{Answer, Answers, Said};
use history_book::event::{Event, Note, Numbered};
use history_book::merge::merge;
use history_book::report::{History, Report, ThreadVerdicts};
use history_book::verdict::{Class, UntrackedWhy, Verdict};
use std::alloc::Global;
use std::test::Fail;
use tuple_core::NoMemory;

/// An event of this number, which names this expectation.
macro_rules! note {
    ($number:literal, $expectation:literal) => {
        Note {
            number: $number,
            event: Event::Unexpect {
                expectation: $expectation,
                moment: 0,
            },
        }
    };
}

/// A verdict that has so many events, from this index on.
macro_rules! verdict {
    ($first:literal, $made:literal) => {
        Verdict {
            class: Class::Untracked(UntrackedWhy::Link),
            first: $first,
            made: $made,
        }
    };
}

const FIRST: [Note; 3] = [note!(1, 11), note!(4, 14), note!(6, 16)];

const SECOND: [Note; 2] = [note!(0, 10), note!(3, 13)];

const SCRIPT: [Note; 3] = [note!(2, 12), note!(5, 15), note!(7, 17)];

const FIRST_VERDICTS: [Verdict; 3] = [verdict!(0, 1), verdict!(1, 0), verdict!(1, 2)];

const SECOND_VERDICTS: [Verdict; 2] = [verdict!(0, 0), verdict!(0, 2)];

/// The thread and the index of each event of the history.
const NAMES: [(u32, u32); 8] = [
    (1, 1),
    (0, 0),
    (2, 0),
    (1, 1),
    (0, 2),
    (2, 1),
    (0, 2),
    (2, 1),
];

/// An answer that has so many events, from this index on.
fn answer(first: u64, made: u64) -> Answer
    ensures first { result.first ≡ first }
    ensures made { result.made ≡ made }
{
    Answer {
        said: Said::Flushed,
        from: 0,
        to: 8,
        first,
        made,
        moment: 0,
    }
}

/// What two threads and a script made, as one history.
fn merged(
    alloc: Global,
    first: &[Note],
    second: &[Note],
    script: &[Note],
    firsts: &[Verdict],
    seconds: &[Verdict],
    answers: Answers,
) -> Result<Report, NoMemory>
    requires few { length answers.items < 2 ^ 32 }
    requires few_first { length firsts.now < 2 ^ 32 }
    requires few_second { length seconds.now < 2 ^ 32 }
    requires numbers { AreNumbers (first.now ++ (second.now ++ (script.now ++ []))) }
    requires first { CoverFrom 0 (length first.now) (spans_of_verdicts firsts.now) }
    requires second { CoverFrom 0 (length second.now) (spans_of_verdicts seconds.now) }
    requires script { CoverFrom 0 (length script.now) (spans_of_answers answers.items) }
{
    let first_notes = list_of(alloc, first)?;
    let second_notes = list_of(alloc, second)?;
    let script_notes = list_of(alloc, script)?;
    let mut lists = Vec::with_capacity(alloc, 3)?;
    lists.push_reserved(first_notes);
    lists.push_reserved(second_notes);
    lists.push_reserved(script_notes);
    let first_verdicts = list_of(alloc, firsts)?;
    let second_verdicts = list_of(alloc, seconds)?;
    let mut threads = ThreadVerdicts::new(alloc, 2)?;
    threads.push(first_verdicts);
    threads.push(second_verdicts);
    merge(alloc, lists, threads, answers, 5)
}

/// Eight events of both threads and the script.
fn eight(alloc: Global) -> Result<Report, NoMemory> {
    let mut answers = Answers::new(alloc, 2)?;
    answers.push(answer(0, 1));
    answers.push(answer(1, 2));
    merged(
        alloc,
        &FIRST,
        &SECOND,
        &SCRIPT,
        &FIRST_VERDICTS,
        &SECOND_VERDICTS,
        answers,
    )
}

/// An event of the script.
fn scripted(number: u64) -> Numbered {
    Numbered {
        number,
        thread: 2,
        index: 7,
        event: Event::Unexpect {
            expectation: 0,
            moment: 0,
        },
    }
}

#[test]
fn interleaved(rt: HostRuntime) -> Result<(), Fail> {
    let report = eight(rt.alloc())?;
    assert_eq!(rt; report.live, 5);
    assert_eq!(rt; report.threads.len(), 2);
    assert_eq!(rt; report.answers.len(), 2);
    assert_eq!(rt; report.history.len(), 8);
    for (place, (thread, index)) in NAMES.iter().enumerate() {
        let item = report.history.at(place);
        assert_eq!(rt; item.number, place as u64);
        assert_eq!(rt; item.thread, *thread, "at {place}");
        assert_eq!(rt; item.index, *index, "at {place}");
        assert!(rt;
            matches!(item.event, Event::Unexpect { expectation, .. } if expectation == item.number + 10)
        );
    }
    Ok(())
}

#[test]
fn nothing_made(rt: HostRuntime) -> Result<(), Fail> {
    let answers = Answers::new(rt.alloc(), 0)?;
    let report = merged(rt.alloc(), &[], &[], &[], &[], &[], answers)?;
    assert!(rt; report.history.is_empty());
    assert_eq!(rt; report.threads.len(), 2);
    Ok(())
}

#[test]
fn pushed_behind_what_was_merged(rt: HostRuntime) -> Result<(), Fail> {
    let mut report = eight(rt.alloc())?;
    report.history.reserve(1)?;
    report.history.push(scripted(8));
    assert_eq!(rt; report.history.len(), 9);
    assert_eq!(rt; report.history.at(7).number, 7);
    assert_eq!(rt; report.history.at(8).number, 8);
    assert_eq!(rt; report.history.at(8).index, 7);
    report.history.clear();
    assert!(rt; report.history.is_empty());
    report.history.push(scripted(0));
    assert_eq!(rt; report.history.len(), 1);
    assert_eq!(rt; report.history.at(0).thread, 2);
    Ok(())
}

#[test]
fn cleared_history_keeps_its_room(rt: HostRuntime) -> Result<(), Fail> {
    let mut history = History::new(rt.alloc(), 2)?;
    history.push(scripted(0));
    history.push(scripted(1));
    history.clear();
    history.push(scripted(2));
    history.push(scripted(3));
    assert_eq!(rt; history.len(), 2);
    assert_eq!(rt; history.at(1).number, 3);
    Ok(())
}
