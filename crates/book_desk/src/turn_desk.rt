//! A tracker of several threads: one book, which each desk has in its turn.
#![tactic(auto)]

ghost use Rattle.std.specs.Prelude.{IfOk};
ghost use Rattle.history_book.specs.Close.{CanClose, Closes};
ghost use Rattle.history_book.specs.Fresh.{IsFresh};
ghost use Rattle.history_book.specs.Join.{CanJoin, Joins};
ghost use Rattle.history_book.specs.Leave.{CanTakeUp, IsLeftOf, TakesUp};
ghost use Rattle.history_book.specs.Places.{HoldsNothing};
ghost use Rattle.history_book.specs.Sight.{IsKnown};
ghost use Rattle.history_book.specs.Sizes.{AreWithinLimits};
ghost use Rattle.history_book.specs.Split.{CanSplit, Splits};

use crate::book::Book;
use crate::noting::count_taken;
use crate::turn::change::{
    PlaceChange, confirmed_change, found_change, held_change, released_change, taken_change,
};
use crate::turn::pass::TurnPass;
use crate::turn::rule::{TurnShared, TurnTable};
use crate::turn::steps;
use crate::turn::steps::last_book;
use atomic_table::Table;
use ct_io::Gate;
use expect_table::expectation::Want;
use history_book::desk::Desk;
use history_book::event::{Note, Why};
use history_book::many_threads::SharedDesk;
use history_book::outcome::{
    ClaimOutcome, ConfirmOutcome, ExpectOutcome, FindOutcome, HoldOutcome, KillOutcome, LiveCount,
    PeekOutcome, ReleaseOutcome, TakeOutcome, TouchOutcome, UnexpectOutcome,
};
use history_book::record::Flow;
use history_book::report::{Closed, Expectations, Notes};
use history_book::sizes::Sizes;
use std::alloc::Global;
use std::marker::Model;
use std::sync::Wait;
use tuple_core::{Direction, NoMemory, Segment, Tuple};

/// A tracker of several threads. Contracts see it as the numbers that tell it from others.
#[derive(Drop)]
pub struct TurnBook {
    table: TurnTable,
}

impl Model for TurnBook {
    ghost use Rattle.std.specs.Prelude.{List, ℕ};
    ghost use Rattle.book_desk.specs.Internal.Seated.{numbers_of};
    ghost use Rattle.book_desk.specs.Turn.Rule.{IsTable};

    ghost Value = { List ℕ };

    ghost view = { λ b. numbers_of b.table.shared.table_id };

    ghost invariant = { λ b. IsTable b.table.shared.table_id };
}

/// What was left of a desk: all that it knew. Contracts see it as a desk's sight.
#[derive(Drop)]
pub struct TurnSpot {
    pass: TurnPass,
}

impl Model for TurnSpot {
    ghost use Rattle.history_book.specs.Sight.{Sight};
    ghost use Rattle.book_desk.specs.Internal.Seated.{IsSeated, sight_at};

    ghost Value = { Sight };

    ghost view = { λ d. sight_at d.pass };

    ghost invariant = { λ d. IsSeated d.pass };
}

/// One thread's desk. Each call that needs the book waits for the turn.
#[derive(Drop)]
pub struct TurnDesk<'t, G: Gate> {
    pass: TurnPass,
    shared: &'t TurnShared,
    /// The gate and the thread's number, with which a desk is made. No gate is passed: a turn has no middle that another
    /// pass could see.
    gate: &'t G,
    worker: u32,
}

impl<'t, G: Gate> Model for TurnDesk<'t, G> {
    ghost use Rattle.std.specs.Prelude.{◌≡◌};
    ghost use Rattle.history_book.specs.Sight.{Sight};
    ghost use Rattle.book_desk.specs.Internal.Seated.{IsSeated, sight_at};

    ghost Value = { Sight };

    ghost view = { λ d. sight_at d.pass };

    ghost invariant = { λ d. (d.pass.seat.table_id ≡ d.shared.now.table_id) × IsSeated d.pass };
}

impl TurnBook {
    /// A tracker with no entry, and what its first desk, which has all shares of its passes, will know.
    pub fn new(alloc: Global, sizes: Sizes) -> Result<(TurnBook, TurnSpot), NoMemory>
        requires { AreWithinLimits sizes }
        ensures fresh { IfOk result (λ made. IsFresh made.0 sizes made.1) }
        ensures knows { IfOk result (λ made. IsKnown made.1) }
    {
        let book = Book::new(alloc, sizes)?;
        let mut slots = Vec::with_capacity(alloc, 1)?;
        slots.push_reserved(Some(book));
        let Ok((table, seat)) = Table::new(alloc, &[0], slots, &sizes) else {
            return Err(NoMemory);
        };
        let pass = TurnPass {
            alloc,
            sizes,
            seat,
            notes: Notes::empty(alloc),
            spare: 0,
            taken: 0,
        };
        Ok((TurnBook { table }, TurnSpot { pass }))
    }

    /// The desk of which this was left, or the first one, for a thread that the gate knows by this number.
    pub fn desk<'t, G: Gate>(&'t self, spot: TurnSpot, gate: &'t G, worker: u32) -> TurnDesk<'t, G>
        requires { CanTakeUp self.now spot }
        ensures { TakesUp spot result }
    {
        let TurnSpot { pass } = spot;
        TurnDesk {
            pass,
            shared: &self.table.shared,
            gate,
            worker,
        }
    }

    /// What the tracker leaves at its end.
    pub fn close(self, spot: TurnSpot) -> Closed
        requires { CanClose self spot }
        ensures { Closes spot result }
    {
        let TurnBook { table } = self;
        let TurnSpot { pass } = spot;
        let TurnPass { seat, notes, .. } = pass;
        let book = last_book(table, seat);
        Closed {
            events: book.events,
            live: book.live(),
            notes,
        }
    }
}

impl<'t, G: Gate> TurnDesk<'t, G> {
    /// Leaves the desk, which keeps no place.
    pub fn leave(self) -> TurnSpot
        requires { HoldsNothing self }
        ensures { IsLeftOf self.entry result }
    {
        let TurnDesk { pass, .. } = self;
        TurnSpot { pass }
    }

    /// Hands over so many of its shares to a further desk, for a thread of this number.
    pub fn split(&mut self, worker: u32, shares: u32) -> TurnDesk<'t, G>
        requires { CanSplit shares self.old }
        ensures splits { Splits shares self.old self.new result }
        ensures knows { IsKnown self.new }
        ensures further_knows { IsKnown result }
    {
        let seat = steps::split(self.shared, &mut self.pass.seat, shares);
        let pass = TurnPass {
            alloc: self.pass.alloc,
            sizes: self.pass.sizes,
            seat,
            notes: Notes::empty(self.pass.alloc),
            spare: 0,
            taken: 0,
        };
        TurnDesk {
            pass,
            shared: self.shared,
            gate: self.gate,
            worker,
        }
    }

    /// Takes in another desk of its tracker, and gives its own events.
    pub fn join(&mut self, other: TurnDesk<'t, G>) -> Notes
        requires { CanJoin self.old other }
        ensures joins { Joins self.old other.entry self.new result.items }
        ensures knows { IsKnown self.new }
    {
        let TurnDesk { pass, .. } = other;
        let TurnPass { seat, notes, .. } = pass;
        steps::merge(self.shared, &mut self.pass.seat, seat);
        let _ = steps::look(self.shared, &mut self.pass.seat);
        notes
    }
}

impl<'t, G: Gate> Desk for TurnDesk<'t, G> {
    ghost sight = { λ d. d };

    fn places(&self) -> u32 {
        self.pass.sizes.entries
    }

    fn expect_room(&self) -> u32 {
        self.pass.sizes.expectations
    }

    fn made(&self) -> u64 {
        self.pass.notes.len() as u64
    }

    fn own(&self, index: u64) -> Note {
        self.pass.notes.at(index as usize)
    }

    fn ready(&mut self, k: u64) -> Result<(), NoMemory> {
        if self.pass.spare >= k {
            return Ok(());
        }
        self.pass.notes.reserve(k as usize)?;
        self.pass.spare = k;
        Ok(())
    }

    fn find<R: Wait>(&mut self, rt: &R, t: &Tuple) -> FindOutcome {
        let mut book = steps::take_turn(rt, self.shared, &mut self.pass.seat);
        let outcome = book.find(t);
        self.pass
            .put_back(self.shared, book, found_change(&outcome), None);
        outcome
    }

    fn count<R: Wait>(&mut self, _rt: &R) -> LiveCount {
        let word = steps::look(self.shared, &mut self.pass.seat);
        LiveCount {
            live: steps::live_in(word),
            at: steps::events_in(word),
        }
    }

    fn take<R: Wait>(&mut self, rt: &R) -> TakeOutcome {
        let mut book = steps::take_turn(rt, self.shared, &mut self.pass.seat);
        let outcome = book.take();
        self.pass.taken = count_taken(self.pass.taken, &outcome);
        self.pass
            .put_back(self.shared, book, taken_change(&outcome), None);
        outcome
    }

    fn confirm<R: Wait>(&mut self, rt: &R, place: u32, flow: &Flow) -> ConfirmOutcome {
        let mut book = steps::take_turn(rt, self.shared, &mut self.pass.seat);
        let (outcome, made) = book.confirm(place, flow);
        self.pass
            .put_back(self.shared, book, confirmed_change(place, &outcome), made);
        outcome
    }

    fn touch<R: Wait>(
        &mut self,
        rt: &R,
        place: u32,
        direction: Direction,
        segment: Segment,
        moment: u64,
    ) -> TouchOutcome {
        let mut book = steps::take_turn(rt, self.shared, &mut self.pass.seat);
        let (outcome, made) = book.touch(place, direction, segment, moment);
        self.pass
            .put_back(self.shared, book, PlaceChange::Same, made);
        outcome
    }

    fn peek<R: Wait>(&mut self, rt: &R, place: u32) -> PeekOutcome {
        let book = steps::take_turn(rt, self.shared, &mut self.pass.seat);
        let outcome = book.peek(place);
        self.pass
            .put_back(self.shared, book, PlaceChange::Same, None);
        outcome
    }

    fn kill<R: Wait>(&mut self, rt: &R, place: u32, why: Why) -> KillOutcome {
        let mut book = steps::take_turn(rt, self.shared, &mut self.pass.seat);
        let (outcome, made) = book.kill(place, why);
        self.pass
            .put_back(self.shared, book, PlaceChange::Same, made);
        outcome
    }

    fn expect<R: Wait>(&mut self, rt: &R, place: u32, want: Want, moment: u64) -> ExpectOutcome {
        let mut book = steps::take_turn(rt, self.shared, &mut self.pass.seat);
        let (outcome, made) = book.expect(place, want, moment);
        self.pass
            .put_back(self.shared, book, PlaceChange::Same, made);
        outcome
    }

    fn claim<R: Wait>(&mut self, rt: &R, t: &Tuple, moment: u64) -> ClaimOutcome {
        let mut book = steps::take_turn(rt, self.shared, &mut self.pass.seat);
        let (outcome, made) = book.claim(t, moment);
        self.pass
            .put_back(self.shared, book, PlaceChange::Same, made);
        outcome
    }

    fn unexpect<R: Wait>(&mut self, rt: &R, id: u64, moment: u64) -> UnexpectOutcome {
        let mut book = steps::take_turn(rt, self.shared, &mut self.pass.seat);
        let (outcome, made) = book.unexpect(id, moment);
        self.pass
            .put_back(self.shared, book, PlaceChange::Same, made);
        outcome
    }

    fn expects<R: Wait>(&mut self, rt: &R, listed: &mut Expectations) -> u64 {
        let book = steps::take_turn(rt, self.shared, &mut self.pass.seat);
        let at = book.list_expected(listed);
        self.pass
            .put_back(self.shared, book, PlaceChange::Same, None);
        at
    }

    fn hold<R: Wait>(&mut self, rt: &R, place: u32) -> HoldOutcome {
        let mut book = steps::take_turn(rt, self.shared, &mut self.pass.seat);
        let outcome = book.hold(place);
        self.pass
            .put_back(self.shared, book, held_change(place, &outcome), None);
        outcome
    }

    fn release<R: Wait>(&mut self, rt: &R, place: u32) -> ReleaseOutcome {
        let mut book = steps::take_turn(rt, self.shared, &mut self.pass.seat);
        let outcome = book.release(place);
        self.pass
            .put_back(self.shared, book, released_change(place, &outcome), None);
        outcome
    }

    fn recycle<R: Wait>(&mut self, rt: &R, place: u32) {
        let mut book = steps::take_turn(rt, self.shared, &mut self.pass.seat);
        book.recycle(place);
        self.pass
            .put_back(self.shared, book, PlaceChange::Pays { place }, None);
    }
}

impl<'t, G: Gate> SharedDesk for TurnDesk<'t, G> {
    fn split(&mut self, worker: u32, shares: u32) -> Self {
        self.split(worker, shares)
    }

    fn join(&mut self, other: Self) -> Notes {
        self.join(other)
    }
}
