//! A table and its passes.

ghost use Rattle.std.specs.Prelude.{◌≡◌, ◌<◌, ◌≤◌, []};
ghost use Rattle.history_book.specs.Sizes.{AreWithinLimits};
ghost use Rattle.track_rule.specs.Passes.{HasNothing};
ghost use Rattle.track_rule.specs.Shares.{further, joined, shares_left};
ghost use Rattle.track_rule.specs.Sights.{IsPassOf, sizes_of};

use crate::plays::{Counted, Cut, Merge};
use crate::rule::{TrackSeat, TrackShared, TrackTable};
use history_book::sizes::Sizes;
use std::marker::{Brand, Model};

/// A table, which owns its memory. Contracts see it as what tells it from other tables, and its sizes.
#[derive(Drop)]
pub struct Board {
    pub(crate) table: TrackTable,
}

impl Model for Board {
    ghost use Rattle.track_rule.specs.Sights.{BoardSight, IsBoard};

    ghost Value = { BoardSight };

    ghost view = { λ b. record { table = b.table.shared.table_id; sizes = b.table.shared.key } };

    ghost invariant = { λ b. IsBoard (record { table = b.table.shared.table_id; sizes = b.table.shared.key }) };
}

/// A pass that was left, to go into another thread. Contracts see it as a pass.
#[derive(Drop)]
pub struct Stub {
    pub(crate) seat: TrackSeat,
    pub(crate) sizes: Sizes,
}

impl Model for Stub {
    ghost use Rattle.track_rule.specs.Sights.{IsLeft, PassSight, sight_at};

    ghost Value = { PassSight };

    ghost view = { λ s. sight_at s.seat.table_id s.seat.me };

    ghost invariant = { λ s. IsLeft s.sizes (sight_at s.seat.table_id s.seat.me) };
}

/// A pass: one thread's way to the table. Contracts see it as its table, what it knows, and the slots that it has out.
#[derive(Drop)]
pub struct Pass<'b> {
    pub(crate) shared: &'b TrackShared,
    pub(crate) seat: TrackSeat,
    pub(crate) sizes: Sizes,
}

impl<'b> Model for Pass<'b> {
    ghost use Rattle.track_rule.specs.Sights.{IsAt, PassSight, sight_at};

    ghost Value = { PassSight };

    ghost view = { λ p. sight_at p.seat.table_id p.seat.me };

    ghost invariant = { λ p. IsAt p.shared.now.table_id p.shared.now.key p.sizes (sight_at p.seat.table_id p.seat.me) };
}

impl Board {
    /// The pass of which this was left, or the first one. No step.
    pub fn pass<'b>(&'b self, stub: Stub) -> Pass<'b>
        requires { IsPassOf self.now stub }
        ensures { result ≡ stub }
    {
        let Stub { seat, sizes } = stub;
        Pass {
            shared: &self.table.shared,
            seat,
            sizes,
        }
    }
}

impl<'b> Pass<'b> {
    /// The sizes of the table. No step.
    #[inline(always)]
    pub fn sizes(&self) -> Sizes
        ensures sizes { result ≡ sizes_of self.now }
        ensures limits { AreWithinLimits result }
    {
        self.sizes
    }

    /// Leaves the pass. No step.
    pub fn leave(self) -> Stub
        ensures { result ≡ self.entry }
    {
        let Pass { seat, sizes, .. } = self;
        Stub { seat, sizes }
    }

    /// Hands over its last shares; the caller picks how many.
    fn cut<J: Counted>(&mut self, shares: u32) -> Pass<'b>
        requires shares { shares ≡ J.shares }
        requires some { 1 ≤ J.shares }
        requires rest { J.shares < self.old.view.passes.shares }
        ensures left { self.new ≡ record self.old { view = shares_left J.shares self.old.view } }
        ensures right { result ≡ record { table = self.old.table; view = further J.shares self.old.view; slots = [] } }
    {
        let _shares = shares;
        let seat = self.shared.split_seat::<Cut<J>>(&mut self.seat);
        Pass {
            shared: self.shared,
            seat,
            sizes: self.sizes,
        }
    }

    /// Hands over its last shares, so many, to a further pass, which has nothing else.
    pub fn split(&mut self, shares: u32) -> Pass<'b>
        requires some { 1 ≤ shares }
        requires rest { shares < self.old.view.passes.shares }
        ensures left { self.new ≡ record self.old { view = shares_left shares self.old.view } }
        ensures right { result ≡ record { table = self.old.table; view = further shares self.old.view; slots = [] } }
    {
        self.cut::<Brand>(shares)
    }

    /// Takes in another pass of its table, which has no place, no turn and no bucket.
    pub fn join(&mut self, other: Pass<'b>)
        requires same { other.table ≡ self.old.table }
        requires nothing { HasNothing other.view }
        ensures { self.new ≡ record self.old { view = joined self.old.view other.entry.view } }
    {
        let Pass { seat, .. } = other;
        self.shared.join_seat::<Merge>(&mut self.seat, seat);
    }
}
