//! The turn of the expectations. A pass that takes it has the slot of their table out, and the table in it. It looks at the
//! table and changes it there, or moves it away and puts it back, and gives the slot back with the turn. Taking and giving
//! back are each one atomic step; what is done with the table is none. A pass may have the turn of a record at the same time. Then the slot of the record stands before that of the
//! expectations, which is brought to the front to be lent, exchanged or given back.

ghost use Rattle.std.specs.Prelude.{◌≡◌, None, Some, is_some, true, unwrap_or};
ghost use Rattle.expect_table.specs.Expectations.{matching};
ghost use Rattle.track_rule.specs.declared.slot.Slot.TheVariants.{Expects};
ghost use Rattle.track_rule.specs.declared.view.Middle.TheVariants.{Calm};
ghost use Rattle.track_rule.specs.ExpectTurns.{CanGiveExpected, TakesExpected, before_expects, expects_at, gave_expected, no_table, table_in, table_without, with_expects};
ghost use Rattle.track_rule.specs.Expected.{has_expected};
ghost use Rattle.track_rule.specs.Slots.{expects_in};
ghost use Rattle.track_rule.specs.TurnSteps.{subject_in};

use crate::layout::{EXPECTS_SLOT, EXPECTS_WORD};
use crate::pass::Pass;
use crate::slot::{Slot, expects_of, with_expects};
use crate::view::View;
use atomic_table::Play;
use expect_table::expectation::Expectation;
use expect_table::table::ExpectTable;
use tuple_core::Tuple;

/// Taking the turn of the expectations.
pub struct TakeExpects;

impl Play<Slot, View> for TakeExpects {
    ghost use Rattle.track_rule.specs.ExpectTurns.{TakeExpectsStep};

    ghost then = { TakeExpectsStep };
}

/// Giving it back.
pub struct GiveExpects;

impl Play<Slot, View> for GiveExpects {
    ghost use Rattle.track_rule.specs.ExpectTurns.{GiveExpectsStep};

    ghost then = { GiveExpectsStep };
}

/// The first expectation of a table in its slot which a packet with this tuple matches at a moment in microseconds.
#[inline(always)]
fn matching_in(slot: &Slot, t: &Tuple, moment: u64) -> Option<Expectation>
    ensures { result ≡ matching t.now moment (unwrap_or (expects_in slot.now) no_table).items }
{
    match slot {
        Slot::Expects(table) => table.matching(t, moment),
        Slot::Vacant | Slot::Free(_) | Slot::Subject(_) => None,
    }
}

/// Takes the expectation of this id out of a table in its slot.
#[inline(always)]
fn remove_in(slot: &mut Slot, id: u64)
    requires { is_some (expects_in slot.old) ≡ true }
    ensures { slot.new ≡ Expects (table_without id (unwrap_or (expects_in slot.old) no_table)) }
{
    match slot {
        Slot::Expects(table) => {
            table.remove(id);
        }
        Slot::Vacant | Slot::Free(_) | Slot::Subject(_) => unreachable!(),
    }
}

impl<'b> Pass<'b> {
    /// Takes the turn of the expectations, if no pass has it, and with it the slot of their table. The pass does not have the
    /// free list.
    #[inline(always)]
    pub fn expects_take(&mut self) -> bool
        requires free { self.old.view.free ≡ None }
        requires expected { self.old.view.expected ≡ None }
        ensures takes { TakesExpected result self.old.view self.old.slots self.new.view self.new.slots }
        ensures table { self.new.table ≡ self.old.table }
    {
        let found = self
            .shared
            .compare_exchange::<TakeExpects>(&mut self.seat, EXPECTS_WORD, 0, 1);
        if found != 0 {
            return false;
        }
        self.seat.turn();
        true
    }

    /// Puts this table, or none, in the slot that is out, and answers what was in it.
    #[inline(always)]
    pub fn expects_swap(&mut self, table: Option<ExpectTable>) -> Option<ExpectTable>
        requires expected { has_expected self.old.view ≡ 1 }
        requires free { self.old.view.free ≡ None }
        ensures table { result ≡ expects_at self.old.slots }
        ensures there { expects_at self.new.slots ≡ table }
        ensures others { before_expects self.new.slots ≡ before_expects self.old.slots }
        ensures subject { subject_in self.new.slots ≡ subject_in self.old.slots }
        ensures kept { self.new ≡ record self.old { slots = with_expects table self.old.slots } }
    {
        self.seat.turn();
        let found = self
            .shared
            .exchange(&mut self.seat, EXPECTS_SLOT, with_expects(table));
        self.seat.turn();
        expects_of(found)
    }

    /// The first expectation of the table in the slot that is out which a packet with this tuple matches at a moment in
    /// microseconds. The table stays there.
    #[inline(always)]
    pub fn expects_matching(&mut self, t: &Tuple, moment: u64) -> Option<Expectation>
        requires expected { has_expected self.old.view ≡ 1 }
        requires free { self.old.view.free ≡ None }
        ensures matching { result ≡ matching t.now moment (table_in self.old.slots).items }
        ensures same { self.new ≡ self.old }
    {
        self.seat.turn();
        let found = matching_in(self.seat.slot_mut(self.shared, EXPECTS_SLOT), t, moment);
        self.seat.turn();
        found
    }

    /// Takes the expectation of this id out of the table, which stays in the slot that is out.
    #[inline(always)]
    pub fn expects_remove(&mut self, id: u64)
        requires expected { has_expected self.old.view ≡ 1 }
        requires free { self.old.view.free ≡ None }
        requires table { is_some (expects_at self.old.slots) ≡ true }
        ensures there { expects_at self.new.slots ≡ Some (table_without id (table_in self.old.slots)) }
        ensures others { before_expects self.new.slots ≡ before_expects self.old.slots }
        ensures kept { self.new ≡ record self.old {
          slots = with_expects (Some (table_without id (table_in self.old.slots))) self.old.slots;
        } }
    {
        self.seat.turn();
        remove_in(self.seat.slot_mut(self.shared, EXPECTS_SLOT), id);
        self.seat.turn();
    }

    /// Gives the turn back, and the table with it.
    #[inline(always)]
    pub fn expects_give(&mut self)
        requires expected { has_expected self.old.view ≡ 1 }
        requires calm { self.old.view.commit.middle ≡ Calm }
        requires free { self.old.view.free ≡ None }
        requires table { is_some (expects_at self.old.slots) ≡ true }
        requires whole { CanGiveExpected self.old.view (table_in self.old.slots) }
        ensures { self.new ≡ record self.old { view = gave_expected self.old.view; slots = before_expects self.old.slots } }
    {
        self.seat.turn();
        self.shared
            .store::<GiveExpects>(&mut self.seat, EXPECTS_WORD, 0);
    }
}
