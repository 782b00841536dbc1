//! The steps of a commit: the Confirm of a record is made, by one addition to the history word, and then the phase of its place
//! is LIVE.

ghost use Rattle.std.specs.Prelude.{◌≡◌, ◌<◌, ◌^◌, true};
ghost use Rattle.track_rule.specs.declared.view.Middle.TheVariants.{Born};
ghost use Rattle.track_rule.specs.CommitSteps.{AddStep, CanAdd, HasAdded, IsBorn, LiveStep, shown_live, subject_of};
ghost use Rattle.track_rule.specs.Records.{has_hand};
ghost use Rattle.track_rule.specs.References.{is_held};

use crate::history_word::events_in;
use crate::pass::Pass;
use crate::place_phase::phase_word;
use crate::slot::Slot;
use crate::view::View;
use atomic_table::Play;
use history_book::event::Event;
use history_book::laws::{
    legal_histories_go_on, live_records_are_confirmed, states_follow, unused_places_are_room,
};
use std::marker::{Brand, PhantomData};

/// Which event is added; each call picks it.
pub trait Added {
    ghost use Rattle.history_book.specs.declared.event.Event.{Event};

    ghost event: { Event };
}

impl Added for Brand {
    ghost use Rattle.history_book.specs.declared.event.Event.TheVariants.{Unexpect};

    ghost event = { Unexpect 0 0 };
}

/// Making a Confirm.
pub struct AddConfirm<J> {
    of: PhantomData<J>,
}

impl<J: Added> Play<Slot, View> for AddConfirm<J> {
    ghost then = { AddStep (subject_of J.event) };
}

/// Making a phase LIVE.
pub struct StoreLive;

impl Play<Slot, View> for StoreLive {
    ghost then = { LiveStep };
}

/// What a Confirm adds to the history word: one event, and one live record.
const CONFIRM: u64 = 1 + (1 << 40);

impl<'b> Pass<'b> {
    /// Makes the Confirm of a record; the caller picks the event.
    #[inline(always)]
    fn add_confirm<J: Added>(&mut self, event: &Event) -> u64
        requires event { event.now ≡ J.event }
        requires can { CanAdd (subject_of J.event) self.old.view }
        ensures adds { HasAdded (subject_of J.event) self.old.view result self.new.view }
        ensures kept { self.new ≡ record self.old { view = self.new.view } }
    {
        let _event = event;
        legal_histories_go_on();
        live_records_are_confirmed();
        states_follow();
        unused_places_are_room();
        let word = self
            .shared
            .fetch_add::<AddConfirm<J>>(&mut self.seat, 0, CONFIRM);
        events_in(word)
    }

    /// Makes the Confirm of a record whose place the pass has taken and whose links it has put in, and answers its number,
    /// which is the record's id; the id in the argument is not read.
    #[inline(always)]
    pub fn confirm_add(&mut self, event: Event) -> u64
        requires can { CanAdd (subject_of event) self.old.view }
        ensures adds { HasAdded (subject_of event) self.old.view result self.new.view }
        ensures kept { self.new ≡ record self.old { view = self.new.view } }
    {
        self.add_confirm::<Brand>(&event)
    }

    /// Makes the phase of the place LIVE of the id that was just confirmed there.
    #[inline(always)]
    pub fn phase_live(&mut self, place: u32, id: u64)
        requires held { is_held place self.old.view.places.held ≡ true }
        requires turn { has_hand place self.old.view ≡ 1 }
        requires number { id < 2 ^ 40 }
        requires born { IsBorn place id self.old.view.commit.middle }
        ensures { (r : _) → self.old.view.commit.middle ≡ Born r → self.new ≡ record self.old { view = shown_live place id r self.old.view } }
    {
        let word = phase_word(&self.sizes, place);
        self.shared.store::<StoreLive>(&mut self.seat, word, 3 + id);
    }
}
