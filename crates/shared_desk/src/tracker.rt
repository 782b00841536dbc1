//! A tracker, and what is left of a clerk between two threads.

ghost use Rattle.std.specs.Prelude.{◌≡◌, IfOk};
ghost use Rattle.history_book.specs.Close.{CanClose, Closes};
ghost use Rattle.history_book.specs.Fresh.{IsFresh};
ghost use Rattle.history_book.specs.Leave.{CanTakeUp, TakesUp};
ghost use Rattle.history_book.specs.Sight.{IsKnown};
ghost use Rattle.history_book.specs.Sizes.{AreWithinLimits};
ghost use Rattle.shared_desk.specs.Sights.{sight_of};

use crate::clerk::Clerk;
use ct_io::Gate;
use history_book::report::{Closed, Notes};
use history_book::sizes::Sizes;
use std::alloc::Global;
use std::marker::Model;
use track_rule::history_word::{events_in, live_in};
use track_rule::pass::{Board, Pass, Stub};
use tuple_core::NoMemory;

/// A tracker of several threads. Contracts see it as the numbers that tell its table from others.
#[derive(Drop)]
pub struct Tracker {
    board: Board,
}

impl Model for Tracker {
    ghost use Rattle.std.specs.Prelude.{List, ℕ};
    ghost use Rattle.shared_desk.specs.Sights.{board_numbers};

    ghost Value = { List ℕ };

    ghost view = { λ t. board_numbers t.board };
}

/// What was left of a clerk: all that it knew, with its own events. Contracts see it as a clerk.
#[derive(Drop)]
pub struct Spot {
    pub(crate) stub: Stub,
    pub(crate) notes: Notes,
    pub(crate) spare: u64,
}

impl Model for Spot {
    ghost use Rattle.shared_desk.specs.Rest.{IsAtRest};
    ghost use Rattle.shared_desk.specs.Sights.{ClerkSight};

    ghost Value = { ClerkSight };

    ghost view = { λ s. record { pass = s.stub; spare = s.spare } };

    ghost invariant = { λ s. IsAtRest s.stub s.notes s.spare };
}

impl Tracker {
    /// A tracker with no entry, and what its first clerk, which has all shares of its passes, will know. It takes all memory of
    /// the table.
    pub fn new(alloc: Global, sizes: Sizes) -> Result<(Tracker, Spot), NoMemory>
        requires { AreWithinLimits sizes }
        ensures fresh { IfOk result (λ made. IsFresh made.0 sizes (sight_of made.1)) }
        ensures knows { IfOk result (λ made. IsKnown (sight_of made.1)) }
    {
        let (board, stub) = Pass::first(alloc, sizes)?;
        let spot = Spot {
            stub,
            notes: Notes::empty(alloc),
            spare: 0,
        };
        Ok((Tracker { board }, spot))
    }

    /// The clerk of which this was left, or the first one, for a thread that the gate knows by this number.
    pub fn clerk<'t, G: Gate>(&'t self, spot: Spot, gate: &'t G, worker: u32) -> Clerk<'t, G>
        requires { CanTakeUp self.now (sight_of spot) }
        ensures takes_up { TakesUp (sight_of spot) (sight_of result) }
        ensures same { result ≡ spot }
        ensures knows { IsKnown (sight_of result) }
    {
        let Spot { stub, notes, spare } = spot;
        Clerk {
            pass: self.board.pass(stub),
            notes,
            spare,
            gate,
            worker,
        }
    }

    /// What the tracker leaves at its end.
    pub fn close(self, spot: Spot) -> Closed
        requires { CanClose self (sight_of spot) }
        ensures { Closes (sight_of spot) result }
    {
        let Tracker { board } = self;
        let Spot { stub, notes, .. } = spot;
        let word = board.close(stub);
        Closed {
            events: events_in(word),
            live: live_in(word),
            notes,
        }
    }
}
