//! The turn of the record of a place. A pass that takes it has the slot of the record out, and the record in it where an entry is
//! live there. It looks at the record, changes it or puts another there, and gives the slot back with the turn. Taking and giving
//! back are each one atomic step; what is done with the record is none.

ghost use Rattle.std.specs.Prelude.{◌≡◌, ◌<◌, None, Some};
ghost use Rattle.atomic_table.specs.Table.{rest};
ghost use Rattle.history_book.specs.Sizes.{AreWithinLimits};
ghost use Rattle.history_book.specs.declared.record.Record.{Record};
ghost use Rattle.track_rule.specs.declared.view.Middle.TheVariants.{Calm};
ghost use Rattle.track_rule.specs.Layout.{record_slot, turn_word, word_count};
ghost use Rattle.track_rule.specs.Records.{has_hand};
ghost use Rattle.track_rule.specs.Sights.{sizes_of};
ghost use Rattle.track_rule.specs.TurnSteps.{CanGiveTurn, TakesTurn, gave_turn, subject_in, with_subject};

use crate::layout::refs_word;
use crate::pass::Pass;
use crate::slot::{Slot, subject_of, with_subject};
use crate::view::View;
use atomic_table::Play;
use history_book::record::Record;
use history_book::sizes::Sizes;
use proto_rules::Part;

/// The first slot of a record.
const RECORD_SLOT: usize = 2;

/// Taking the turn of a record.
pub struct TakeTurn;

impl Play<Slot, View> for TakeTurn {
    ghost use Rattle.track_rule.specs.TurnSteps.{TakeTurnStep};

    ghost then = { TakeTurnStep };
}

/// Giving it back.
pub struct GiveTurn;

impl Play<Slot, View> for GiveTurn {
    ghost use Rattle.track_rule.specs.TurnSteps.{GiveTurnStep};

    ghost then = { GiveTurnStep };
}

/// The word of the turn of a place's record.
#[inline(always)]
fn turn_word(sizes: &Sizes, place: u32) -> usize
    requires limits { AreWithinLimits sizes.now }
    requires place { place < sizes.now.entries }
    ensures word { result ≡ turn_word sizes.now place }
    ensures below { result < word_count sizes.now }
{
    refs_word(sizes, place) + 2
}

/// The slot of the record of a place.
#[inline(always)]
fn record_slot(place: u32) -> usize
    ensures { result ≡ record_slot place }
{
    RECORD_SLOT + place as usize
}

impl<'b> Pass<'b> {
    /// Takes the turn of the record of a place, if no pass has it, and with it the slot of the record. The pass has the slot of no
    /// other record, and not the free list.
    #[inline(always)]
    pub fn turn_take(&mut self, place: u32) -> bool
        requires place { place < (sizes_of self.old).entries }
        requires hand { self.old.view.commit.hand ≡ None }
        requires free { self.old.view.free ≡ None }
        ensures takes { TakesTurn result place self.old.view self.old.slots self.new.view self.new.slots }
        ensures table { self.new.table ≡ self.old.table }
    {
        let word = turn_word(&self.sizes, place);
        self.shared
            .compare_exchange::<TakeTurn>(&mut self.seat, word, 0, 1)
            == 0
    }

    /// Puts this record, or none, in the slot that is out, and answers what was in it.
    #[inline(always)]
    pub fn record_swap(&mut self, place: u32, subject: Option<Record>) -> Option<Record>
        requires turn { has_hand place self.old.view ≡ 1 }
        requires free { self.old.view.free ≡ None }
        ensures subject { result ≡ subject_in self.old.slots }
        ensures kept { self.new ≡ record self.old { slots = with_subject place subject self.old.slots } }
    {
        let slot = record_slot(place);
        subject_of(
            self.shared
                .exchange(&mut self.seat, slot, with_subject(subject)),
        )
    }

    /// The record in the slot that is out, or none. It stays there.
    #[inline(always)]
    pub fn record_load(&mut self, place: u32) -> Option<Record>
        requires turn { has_hand place self.old.view ≡ 1 }
        requires free { self.old.view.free ≡ None }
        ensures subject { result ≡ subject_in self.old.slots }
        ensures same { self.new ≡ self.old }
    {
        match self.seat.slot_mut(self.shared, record_slot(place)) {
            Slot::Subject(subject) => Some(*subject),
            Slot::Vacant | Slot::Free(_) | Slot::Expects(_) => None,
        }
    }

    /// Puts a part into the record in the slot that is out, where there is one.
    #[inline(always)]
    pub fn part_store(&mut self, place: u32, part: Part)
        requires turn { has_hand place self.old.view ≡ 1 }
        requires free { self.old.view.free ≡ None }
        ensures part { (subject : Record) → subject_in self.old.slots ≡ Some subject → self.new ≡ record self.old {
          slots = with_subject place (Some (record subject { part = part })) self.old.slots;
        } }
        ensures none { subject_in self.old.slots ≡ None → self.new ≡ self.old }
    {
        match self.seat.slot_mut(self.shared, record_slot(place)) {
            Slot::Subject(subject) => subject.part = part,
            Slot::Vacant | Slot::Free(_) | Slot::Expects(_) => {}
        }
    }

    /// Gives the turn back, and the record with it.
    #[inline(always)]
    pub fn turn_give(&mut self, place: u32)
        requires place { place < (sizes_of self.old).entries }
        requires turn { has_hand place self.old.view ≡ 1 }
        requires calm { self.old.view.commit.middle ≡ Calm }
        requires free { self.old.view.free ≡ None }
        requires whole { CanGiveTurn self.old.view self.old.slots }
        ensures { self.new ≡ record self.old { view = gave_turn place self.old.view; slots = rest self.old.slots } }
    {
        let word = turn_word(&self.sizes, place);
        self.shared.store::<GiveTurn>(&mut self.seat, word, 0);
    }
}
