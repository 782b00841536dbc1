//! The desk of a tracker of one thread.
#![tactic(auto, using(crate::proofs::Plain::known))]

ghost use Rattle.std.specs.Prelude.{[], IfOk};
ghost use Rattle.history_book.specs.Close.{Closes};
ghost use Rattle.history_book.specs.Fresh.{IsFresh};
ghost use Rattle.history_book.specs.Sight.{IsKnown};
ghost use Rattle.history_book.specs.Sizes.{AreWithinLimits};

use crate::book::Book;
use crate::noting::{count_taken, note};
use expect_table::expectation::Want;
use history_book::desk::Desk;
use history_book::event::{Note, Why};
use history_book::outcome::{
    ClaimOutcome, ConfirmOutcome, ExpectOutcome, FindOutcome, HoldOutcome, KillOutcome, LiveCount,
    PeekOutcome, ReleaseOutcome, TakeOutcome, TouchOutcome, UnexpectOutcome,
};
use history_book::record::Flow;
use history_book::report::{Closed, Expectations, Notes};
use history_book::sizes::Sizes;
use std::alloc::Global;
use std::marker::Model;
use std::sync::Wait;
use tuple_core::{Direction, NoMemory, Segment, Tuple};

/// A tracker of one thread: a list of live records, with no index. It has seen every event that it
/// made, and it never waits.
#[derive(Drop)]
pub struct PlainDesk {
    book: Book,
    notes: Notes,
    /// For how many further events there is room.
    spare: u64,
    /// How many times it took a place.
    taken: u64,
}

impl Model for PlainDesk {
    ghost use Rattle.history_book.specs.Sight.{Sight};
    ghost use Rattle.book_desk.specs.Internal.Plain.{IsPlain, plain_sight};

    ghost Value = { Sight };

    ghost view = { λ d. plain_sight d.book d.notes.items d.spare d.taken };

    ghost invariant = { λ d. IsPlain d.book d.notes d.spare };
}

impl PlainDesk {
    /// A desk of a tracker with no entry, which made no event and keeps no place. It is the only pass of
    /// its tracker, whatever number the sizes allow.
    pub fn new(alloc: Global, sizes: Sizes) -> Result<PlainDesk, NoMemory>
        requires { AreWithinLimits sizes }
        ensures knows { IfOk result IsKnown }
        ensures fresh { IfOk result (IsFresh [] (record sizes { passes = 1 })) }
    {
        let book = Book::new(alloc, Sizes { passes: 1, ..sizes })?;
        Ok(PlainDesk {
            book,
            notes: Notes::new(alloc, 0)?,
            spare: 0,
            taken: 0,
        })
    }

    /// What the tracker leaves at its end.
    pub fn finish(self) -> Closed
        ensures { Closes self result }
    {
        let PlainDesk { book, notes, .. } = self;
        Closed {
            events: book.events,
            live: book.live(),
            notes,
        }
    }
}

impl Desk for PlainDesk {
    ghost sight = { λ d. d };

    fn places(&self) -> u32 {
        self.book.sizes.entries
    }

    fn expect_room(&self) -> u32 {
        self.book.sizes.expectations
    }

    fn made(&self) -> u64 {
        self.notes.len() as u64
    }

    fn own(&self, index: u64) -> Note {
        self.notes.at(index as usize)
    }

    fn ready(&mut self, k: u64) -> Result<(), NoMemory> {
        if self.spare >= k {
            return Ok(());
        }
        self.notes.reserve(k as usize)?;
        self.spare = k;
        Ok(())
    }

    fn find<R: Wait>(&mut self, _rt: &R, t: &Tuple) -> FindOutcome {
        self.book.find(t)
    }

    fn count<R: Wait>(&mut self, _rt: &R) -> LiveCount {
        self.book.count()
    }

    fn take<R: Wait>(&mut self, _rt: &R) -> TakeOutcome {
        let outcome = self.book.take();
        self.taken = count_taken(self.taken, &outcome);
        outcome
    }

    fn confirm<R: Wait>(&mut self, _rt: &R, place: u32, flow: &Flow) -> ConfirmOutcome {
        let number = self.book.events;
        let (outcome, event) = self.book.confirm(place, flow);
        note(&mut self.notes, &mut self.spare, number, event);
        outcome
    }

    fn touch<R: Wait>(
        &mut self,
        _rt: &R,
        place: u32,
        direction: Direction,
        segment: Segment,
        moment: u64,
    ) -> TouchOutcome {
        let number = self.book.events;
        let (outcome, event) = self.book.touch(place, direction, segment, moment);
        note(&mut self.notes, &mut self.spare, number, event);
        outcome
    }

    fn peek<R: Wait>(&mut self, _rt: &R, place: u32) -> PeekOutcome {
        self.book.peek(place)
    }

    fn kill<R: Wait>(&mut self, _rt: &R, place: u32, why: Why) -> KillOutcome {
        let number = self.book.events;
        let (outcome, event) = self.book.kill(place, why);
        note(&mut self.notes, &mut self.spare, number, event);
        outcome
    }

    fn expect<R: Wait>(&mut self, _rt: &R, place: u32, want: Want, moment: u64) -> ExpectOutcome {
        let number = self.book.events;
        let (outcome, event) = self.book.expect(place, want, moment);
        note(&mut self.notes, &mut self.spare, number, event);
        outcome
    }

    fn claim<R: Wait>(&mut self, _rt: &R, t: &Tuple, moment: u64) -> ClaimOutcome {
        let number = self.book.events;
        let (outcome, event) = self.book.claim(t, moment);
        note(&mut self.notes, &mut self.spare, number, event);
        outcome
    }

    fn unexpect<R: Wait>(&mut self, _rt: &R, id: u64, moment: u64) -> UnexpectOutcome {
        let number = self.book.events;
        let (outcome, event) = self.book.unexpect(id, moment);
        note(&mut self.notes, &mut self.spare, number, event);
        outcome
    }

    fn expects<R: Wait>(&mut self, _rt: &R, listed: &mut Expectations) -> u64 {
        self.book.list_expected(listed)
    }

    fn hold<R: Wait>(&mut self, _rt: &R, place: u32) -> HoldOutcome {
        self.book.hold(place)
    }

    fn release<R: Wait>(&mut self, _rt: &R, place: u32) -> ReleaseOutcome {
        self.book.release(place)
    }

    fn recycle<R: Wait>(&mut self, _rt: &R, place: u32) {
        self.book.recycle(place);
    }
}
