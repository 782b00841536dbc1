//! A desk that made some events and makes no further one.
#![tactic(auto)]

ghost use Rattle.std.specs.Prelude.{◌≡◌, ◌≤◌, ◌^◌, length, IfOk};

use expect_table::expectation::Want;
use history_book::check::{Checked, check_history};
use history_book::desk::Desk;
use history_book::event::{Event, Note, Numbered, Why};
use history_book::outcome::{
    ClaimOutcome, ConfirmOutcome, ExpectOutcome, FindOutcome, HoldOutcome, KillOutcome, LiveCount,
    PeekOutcome, ReleaseOutcome, TakeOutcome, TouchOutcome, UnexpectOutcome,
};
use history_book::record::{Flow, Record};
use history_book::report::{Expectations, History, Notes};
use proto_rules::{Part, PartKind};
use std::alloc::Global;
use std::marker::Model;
use std::process::Abort;
use std::sync::Wait;
use tuple_core::{Direction, NoMemory, Proto, Segment, Tuple};

/// The only pass of a tracker. It waits for ever where it is asked for more than its events.
#[derive(Drop)]
pub struct Told {
    history: History,
}

impl Model for Told {
    ghost use Rattle.std.specs.Prelude.{◌≤◌, ◌^◌, length};
    ghost use Rattle.history_book.specs.Checked.{IsLegalHistory, sizes_with};
    ghost use Rattle.history_book.specs.Sight.{Sight};
    ghost use Rattle.shared_tests.specs.Told.{told_sight};

    ghost Value = { Sight };

    ghost view = { λ d. told_sight d.history.items };

    ghost invariant = { λ d. IsLegalHistory (sizes_with 1 0) d.history.items × (length d.history.items ≤ 2 ^ 30) };
}

/// The entry of a query from this port, confirmed by the event of this number.
fn entry(id: u64, port: u16) -> Record {
    Record {
        id,
        place: 0,
        original: Tuple {
            proto: Proto::Udp,
            zone: 0,
            src: 0x0a00_0001,
            dst: 0x0a00_0002,
            a: port,
            b: 53,
        },
        reply: Tuple {
            proto: Proto::Udp,
            zone: 0,
            src: 0x0a00_0002,
            dst: 0x0a00_0001,
            a: 53,
            b: port,
        },
        part: Part {
            kind: PartKind::Udp,
            replied: false,
            assured: false,
            deadline: 30_000_000,
        },
        helper: false,
        master: None,
    }
}

/// The event of this number: in turn the entry is confirmed and destroyed.
fn event_at(number: u64, port: u16) -> Event {
    if number % 2 == 0 {
        Event::Confirm {
            subject: entry(number, port),
        }
    } else {
        Event::Destroy {
            id: number - 1,
            why: Why::Flushed,
        }
    }
}

/// Whether the note is the event of this number.
fn is_event_at(note: &Note, number: u64, port: u16) -> bool {
    let is_same = match note.event {
        Event::Confirm { subject } => number % 2 == 0 && subject.original.a == port,
        Event::Destroy { id, .. } => number % 2 == 1 && id == number - 1,
        _ => false,
    };
    is_same && note.number == number
}

/// Whether these are so many first events of the desk with this port.
pub fn are_first(notes: &Notes, port: u16, count: usize) -> bool {
    'notes: for index in 0..notes.len() {
        if !is_event_at(&notes.at(index), index as u64, port) {
            return false;
        }
    }
    notes.len() == count
}

impl Told {
    /// A desk that made so many events, of queries from this port.
    pub fn new<R: Abort>(rt: &R, alloc: Global, port: u16, events: u32) -> Result<Told, NoMemory>
        requires { events ≤ 2 ^ 20 }
        ensures { IfOk result (λ d. length d.own ≡ events) }
    {
        let mut history = History::empty(alloc);
        'events: for index in 0..events {
            let number = u64::from(index);
            history.reserve(1)?;
            history.push(Numbered {
                number,
                thread: 0,
                index: 0,
                event: event_at(number, port),
            });
        }
        match check_history(alloc, &history, 1, 0)? {
            Checked::Legal { .. } => Ok(Told { history }),
            Checked::Broken { number } => panic!(rt; "event {number} may not happen"),
        }
    }
}

/// Waits for ever.
fn stay<R: Wait>(rt: &R)
    ensures { ⊥ }
{
    for _ in rt.forever() {}
}

impl Desk for Told {
    ghost sight = { λ d. d };

    fn places(&self) -> u32 {
        let _ = &self.history;
        1
    }

    fn expect_room(&self) -> u32 {
        let _ = &self.history;
        0
    }

    fn made(&self) -> u64 {
        self.history.len() as u64
    }

    fn own(&self, index: u64) -> Note {
        let item = self.history.at(index as usize);
        Note {
            number: item.number,
            event: item.event,
        }
    }

    fn ready(&mut self, k: u64) -> Result<(), NoMemory> {
        let _ = &self.history;
        if k == 0 { Ok(()) } else { Err(NoMemory) }
    }

    fn find<R: Wait>(&mut self, rt: &R, _t: &Tuple) -> FindOutcome {
        stay(rt);
        unreachable!()
    }

    fn count<R: Wait>(&mut self, rt: &R) -> LiveCount {
        stay(rt);
        unreachable!()
    }

    fn take<R: Wait>(&mut self, rt: &R) -> TakeOutcome {
        stay(rt);
        unreachable!()
    }

    fn confirm<R: Wait>(&mut self, rt: &R, _place: u32, _flow: &Flow) -> ConfirmOutcome {
        stay(rt);
        unreachable!()
    }

    fn touch<R: Wait>(
        &mut self,
        rt: &R,
        _place: u32,
        _direction: Direction,
        _segment: Segment,
        _moment: u64,
    ) -> TouchOutcome {
        stay(rt);
        unreachable!()
    }

    fn peek<R: Wait>(&mut self, rt: &R, _place: u32) -> PeekOutcome {
        stay(rt);
        unreachable!()
    }

    fn kill<R: Wait>(&mut self, rt: &R, _place: u32, _why: Why) -> KillOutcome {
        stay(rt);
        unreachable!()
    }

    fn expect<R: Wait>(&mut self, rt: &R, _place: u32, _want: Want, _moment: u64) -> ExpectOutcome {
        stay(rt);
        unreachable!()
    }

    fn claim<R: Wait>(&mut self, rt: &R, _t: &Tuple, _moment: u64) -> ClaimOutcome {
        stay(rt);
        unreachable!()
    }

    fn unexpect<R: Wait>(&mut self, rt: &R, _id: u64, _moment: u64) -> UnexpectOutcome {
        stay(rt);
        unreachable!()
    }

    fn expects<R: Wait>(&mut self, rt: &R, _listed: &mut Expectations) -> u64 {
        stay(rt);
        unreachable!()
    }

    fn hold<R: Wait>(&mut self, rt: &R, _place: u32) -> HoldOutcome {
        stay(rt);
        unreachable!()
    }

    fn release<R: Wait>(&mut self, rt: &R, _place: u32) -> ReleaseOutcome {
        stay(rt);
        unreachable!()
    }

    fn recycle<R: Wait>(&mut self, rt: &R, _place: u32) {
        stay(rt);
        unreachable!()
    }
}
