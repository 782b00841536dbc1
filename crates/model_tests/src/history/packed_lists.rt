//! Lists of notes and of verdicts, of which some have a short form and some stand whole.

ghost use Rattle.std.specs.Prelude.{◌≡◌, IfOk};

use history_book::event::{Event, Note, Why};
use history_book::packed::{Form, PackedList};
use history_book::record::Record;
use history_book::report::{Notes, Verdicts};
use history_book::short_note::ShortNote;
use history_book::short_verdict::ShortVerdict;
use history_book::verdict::{Class, Ftp, Label, Translated, UntrackedWhy, Verdict};
use proto_rules::{Part, PartKind};
use std::alloc::Global;
use std::test::Fail;
use tuple_core::{Direction, NoMemory, Proto, Segment, Tuple};

/// The last number that a short form has, and the one behind it.
const LAST: u64 = 4_294_967_295;

const NEXT: u64 = 4_294_967_296;

/// A tuple of UDP from 10.0.0.1 to 10.0.0.2, or back.
macro_rules! tuple {
    ($src:literal, $dst:literal, $a:literal, $b:literal) => {
        Tuple {
            proto: Proto::Udp,
            zone: 0,
            src: 0x0a00_0000 + $src,
            dst: 0x0a00_0000 + $dst,
            a: $a,
            b: $b,
        }
    };
}

const PART: Part = Part {
    kind: PartKind::Udp,
    replied: false,
    assured: false,
    deadline: 30_000_000,
};

/// The Confirm of this number, of an entry with this id, whose reply goes to this port.
macro_rules! confirmed {
    ($number:expr, $id:expr, $port:literal, $helper:literal, $master:expr) => {
        Note {
            number: $number,
            event: Event::Confirm {
                subject: Record {
                    id: $id,
                    place: 3,
                    original: tuple!(1, 2, 5000, 53),
                    reply: tuple!(2, 1, 53, $port),
                    part: PART,
                    helper: $helper,
                    master: $master,
                },
            },
        }
    };
}

/// The Touch of this number, of the entry with this id.
macro_rules! touched {
    ($number:expr, $id:expr) => {
        Note {
            number: $number,
            event: Event::Touch {
                id: $id,
                direction: Direction::Reply,
                segment: Segment::Udp,
                moment: NEXT,
                after: PART,
            },
        }
    };
}

/// The Destroy of this number, of the entry with this id.
macro_rules! destroyed {
    ($number:expr, $id:expr, $why:expr) => {
        Note {
            number: $number,
            event: Event::Destroy {
                id: $id,
                why: $why,
            },
        }
    };
}

/// Notes, and whether they have a short form.
const NOTES: [(Note, bool); 14] = [
    (confirmed!(LAST, LAST, 5000, false, None), true),
    (confirmed!(NEXT, NEXT, 5000, false, None), false),
    (confirmed!(1, 2, 5000, false, None), false),
    (confirmed!(3, 3, 5001, false, None), false),
    (confirmed!(4, 4, 5000, true, None), false),
    (confirmed!(5, 5, 5000, false, Some(0)), false),
    (touched!(LAST, LAST), true),
    (touched!(NEXT, 0), false),
    (touched!(0, NEXT), false),
    (destroyed!(LAST, 6, Why::Expired { moment: NEXT }), true),
    (destroyed!(NEXT, 7, Why::Expired { moment: 7 }), false),
    (destroyed!(8, LAST, Why::Dropped { moment: 8 }), true),
    (destroyed!(9, NEXT, Why::Dropped { moment: 9 }), false),
    (destroyed!(10, 10, Why::Flushed), false),
];

/// A verdict of this class, which has three events from this index on.
macro_rules! verdict {
    ($class:expr, $first:expr) => {
        Verdict {
            class: $class,
            first: $first,
            made: 3,
        }
    };
}

/// The class of a packet that began a flow, by this entry.
macro_rules! made {
    ($id:expr, $translated:expr, $unclaimed:expr) => {
        Class::Made {
            id: $id,
            at: $id,
            translated: $translated,
            unclaimed: $unclaimed,
        }
    };
}

/// The class of a packet that this entry let pass.
macro_rules! passed {
    ($id:expr, $ftp:expr) => {
        Class::Passed {
            label: Label::New,
            id: $id,
            at: 1,
            ftp: $ftp,
        }
    };
}

/// A class that names this entry and this point.
macro_rules! of_entry {
    ($class:ident, $id:expr, $at:expr) => {
        Class::$class { id: $id, at: $at }
    };
}

/// A reply tuple that a rule chose.
const CHOSEN: Translated = Translated::Chosen {
    reply: tuple!(2, 1, 53, 5001),
    kept_taken_at: None,
};

/// Verdicts, some of each class, and whether they have a short form.
const VERDICTS: [(Verdict, bool); 23] = [
    (verdict!(Class::BadHeader, LAST), true),
    (verdict!(Class::BadHeader, NEXT), false),
    (verdict!(Class::NoEntry { at: LAST }, 0), true),
    (verdict!(Class::NoEntry { at: NEXT }, 0), false),
    (
        verdict!(made!(LAST, Translated::Plain, Some(LAST)), 1),
        true,
    ),
    (verdict!(made!(NEXT, Translated::Plain, Some(2)), 1), false),
    (verdict!(made!(3, Translated::Plain, Some(NEXT)), 1), false),
    (verdict!(made!(4, Translated::Plain, None), 1), false),
    (verdict!(made!(5, CHOSEN, Some(5)), 1), false),
    (verdict!(passed!(LAST, Ftp::Nothing), 2), true),
    (verdict!(passed!(NEXT, Ftp::Nothing), 2), false),
    (verdict!(passed!(6, Ftp::Address), 2), false),
    (verdict!(Class::Untracked(UntrackedWhy::Fragment), 3), true),
    (verdict!(of_entry!(BadState, LAST, LAST), 3), true),
    (verdict!(Class::ErrorLost { at: LAST }, 3), true),
    (verdict!(of_entry!(ErrorAddress, LAST, LAST), 3), true),
    (
        verdict!(
            Class::Error {
                direction: Direction::Reply,
                id: LAST,
                at: LAST,
            },
            3
        ),
        true,
    ),
    (verdict!(of_entry!(Ignored, LAST, LAST), 3), true),
    (
        verdict!(
            Class::Merged {
                id: 7,
                at: 7,
                translated: Translated::Plain,
            },
            3
        ),
        false,
    ),
    (
        verdict!(
            Class::Clash {
                id: 8,
                at: 8,
                translated: Translated::Plain,
            },
            3
        ),
        false,
    ),
    (
        verdict!(
            Class::NoPort {
                from: LAST,
                to: LAST,
            },
            3
        ),
        true,
    ),
    (
        verdict!(
            Class::Full {
                from: LAST,
                at: LAST,
            },
            3
        ),
        true,
    ),
    (verdict!(of_entry!(Contended, LAST, LAST), 3), true),
];

/// A list of these values.
pub(super) fn list_of<S: Form<T>, T: Copy>(
    alloc: Global,
    items: &[T],
) -> Result<PackedList<S, T>, NoMemory>
    ensures { IfOk result (λ list. list.items ≡ items.now) }
{
    let mut list = PackedList::new(alloc, items.len())?;
    'items: for item in items {
        list.push(*item);
    }
    Ok(list)
}

/// The number of an event, the id that it names, and a moment of it.
fn names(note: &Note) -> (u64, u64, u64) {
    match note.event {
        Event::Confirm { subject } => (note.number, subject.id, subject.part.deadline),
        Event::Touch { id, moment, .. } => (note.number, id, moment),
        Event::Destroy {
            id,
            why: Why::Expired { moment } | Why::Dropped { moment },
        } => (note.number, id, moment),
        Event::Destroy { id, .. } => (note.number, id, 0),
        _ => (note.number, 0, 0),
    }
}

/// The id, or the first point, and the last point that a verdict names, and its first event.
fn points(verdict: &Verdict) -> (u64, u64, u64) {
    match verdict.class {
        Class::Untracked(_) | Class::BadHeader => (0, 0, verdict.first),
        Class::NoEntry { at } | Class::ErrorLost { at } => (0, at, verdict.first),
        Class::BadState { id, at }
        | Class::ErrorAddress { id, at }
        | Class::Error { id, at, .. }
        | Class::Made { id, at, .. }
        | Class::Passed { id, at, .. }
        | Class::Ignored { id, at }
        | Class::Merged { id, at, .. }
        | Class::Clash { id, at, .. }
        | Class::Contended { id, at } => (id, at, verdict.first),
        Class::NoPort { from, to } => (from, to, verdict.first),
        Class::Full { from, at } => (from, at, verdict.first),
    }
}

#[test]
fn nothing_in_it(rt: HostRuntime) {
    let notes = Notes::empty(rt.alloc());
    assert!(rt; notes.is_empty());
    assert_eq!(rt; notes.empty_like().len(), 0);
}

#[test]
fn cleared_list_keeps_its_room(rt: HostRuntime) -> Result<(), Fail> {
    let mut notes = Notes::new(rt.alloc(), 2)?;
    notes.push(touched!(NEXT, 0));
    notes.push(touched!(1, 1));
    notes.clear();
    assert!(rt; notes.is_empty());
    notes.push(touched!(NEXT, 2));
    notes.push(touched!(3, NEXT));
    assert_eq!(rt; notes.len(), 2);
    assert_eq!(rt; notes.at(0).number, NEXT);
    assert_eq!(rt; notes.at(1).number, 3);
    Ok(())
}

#[test]
fn notes_with_a_short_form_and_without(rt: HostRuntime) -> Result<(), Fail> {
    let mut notes = Notes::empty(rt.alloc());
    for (note, is_short) in &NOTES {
        assert_eq!(rt; ShortNote::of(note).is_some(), *is_short);
        notes.reserve(1)?;
        notes.push(*note);
    }
    assert_eq!(rt; notes.len(), 14);
    for (at, (note, _)) in NOTES.iter().enumerate() {
        assert_eq!(rt; names(&notes.at(at)), names(note), "at {at}");
    }
    Ok(())
}

#[test]
fn verdicts_with_a_short_form_and_without(rt: HostRuntime) -> Result<(), Fail> {
    let mut verdicts = Verdicts::empty(rt.alloc());
    for (verdict, is_short) in &VERDICTS {
        assert_eq!(rt; ShortVerdict::of(verdict).is_some(), *is_short);
        verdicts.reserve(1)?;
        verdicts.push(*verdict);
    }
    assert_eq!(rt; verdicts.len(), 23);
    for (at, (verdict, _)) in VERDICTS.iter().enumerate() {
        let read = verdicts.at(at);
        assert_eq!(rt; points(&read), points(verdict), "at {at}");
        assert_eq!(rt; read.made, 3, "at {at}");
    }
    Ok(())
}
