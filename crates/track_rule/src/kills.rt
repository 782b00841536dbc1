//! The steps of a kill: the phase of the place is DEAD, and then the Destroy of its record is made, by one addition to the
//! history word.

ghost use Rattle.std.specs.Prelude.{◌≡◌, ◌≤◌, Some, true};
ghost use Rattle.track_rule.specs.declared.view.Middle.TheVariants.{Calm};
ghost use Rattle.track_rule.specs.KillSteps.{CanDestroy, DeadStep, DestroyStep, HasDestroyed, MayDie, ShowsDead, destroy_in};
ghost use Rattle.track_rule.specs.Records.{has_hand};
ghost use Rattle.track_rule.specs.References.{is_held};
ghost use Rattle.track_rule.specs.TouchSteps.{known_phase, known_record};

use crate::commits::Added;
use crate::history_word::events_in;
use crate::layout::HISTORY_WORD;
use crate::pass::Pass;
use crate::place_phase::phase_word;
use crate::slot::Slot;
use crate::view::View;
use atomic_table::Play;
use history_book::event::Event;
use history_book::laws::{
    legal_histories_go_on, live_records_are_confirmed, masters_help_in_their_zone, states_follow,
};
use std::marker::{Brand, PhantomData};

/// The phase of a place whose entry dies.
pub const DEAD: u64 = 2;

/// Making a phase DEAD.
pub struct StoreDead;

impl Play<Slot, View> for StoreDead {
    ghost then = { DeadStep };
}

/// Making a Destroy.
pub struct AddDestroy<J> {
    of: PhantomData<J>,
}

impl<J: Added> Play<Slot, View> for AddDestroy<J> {
    ghost then = { DestroyStep (destroy_in J.event) };
}

/// What a Destroy adds to the history word: one event, and one live record less, modulo 2^64.
const DESTROY: u64 = 0xFFFF_FF00_0000_0001;

impl<'b> Pass<'b> {
    /// Makes the phase of a live place DEAD, whose record the pass has under its turn. Both buckets of the record's tuples are
    /// shut by the pass, and where the record has the helper, the pass has the turn of the expectations too. The table's
    /// reference to the place is the pass's to carry then.
    pub fn phase_dead(&mut self, place: u32)
        requires held { is_held place self.old.view.places.held ≡ true }
        requires turn { has_hand place self.old.view ≡ 1 }
        requires live { 3 ≤ known_phase self.old.view.commit.hand }
        requires calm { self.old.view.commit.middle ≡ Calm }
        requires ready { MayDie self.old.view (known_record self.old.view.commit.hand) }
        ensures shows { (r : _) → known_record self.old.view.commit.hand ≡ Some r → ShowsDead place r self.old.view self.new.view }
        ensures kept { self.new ≡ record self.old { view = self.new.view } }
    {
        live_records_are_confirmed();
        let word = phase_word(&self.sizes, place);
        self.shared.store::<StoreDead>(&mut self.seat, word, DEAD);
    }

    /// Makes a Destroy; the caller picks the event.
    fn add_destroy<J: Added>(&mut self, event: &Event) -> u64
        requires event { event.now ≡ J.event }
        requires can { CanDestroy (destroy_in J.event) self.old.view }
        ensures adds { HasDestroyed (destroy_in J.event) self.old.view result self.new.view }
        ensures kept { self.new ≡ record self.old { view = self.new.view } }
    {
        let _event = event;
        legal_histories_go_on();
        live_records_are_confirmed();
        masters_help_in_their_zone();
        states_follow();
        let word = self
            .shared
            .fetch_add::<AddDestroy<J>>(&mut self.seat, HISTORY_WORD, DESTROY);
        events_in(word)
    }

    /// Makes the Destroy of the record whose place the pass has shown DEAD, and answers its number. The pass has both links
    /// then, which still stand in their chains, and the table's reference to the place.
    pub fn destroy_add(&mut self, event: Event) -> u64
        requires can { CanDestroy (destroy_in event) self.old.view }
        ensures adds { HasDestroyed (destroy_in event) self.old.view result self.new.view }
        ensures kept { self.new ≡ record self.old { view = self.new.view } }
    {
        self.add_destroy::<Brand>(&event)
    }
}
