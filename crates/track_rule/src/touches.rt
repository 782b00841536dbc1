//! The step of a Touch: the event is made, by one addition to the history word, while the pass has the turn of the record.

ghost use Rattle.std.specs.Prelude.{◌≡◌};
ghost use Rattle.track_rule.specs.TouchSteps.{CanTouch, HasTouched, TouchStep, touch_in};

use crate::commits::Added;
use crate::history_word::events_in;
use crate::layout::HISTORY_WORD;
use crate::pass::Pass;
use crate::slot::Slot;
use crate::view::View;
use atomic_table::Play;
use history_book::event::Event;
use history_book::laws::{legal_histories_go_on, live_records_are_confirmed, states_follow};
use std::marker::{Brand, PhantomData};

/// Making a Touch.
pub struct AddTouch<J> {
    of: PhantomData<J>,
}

impl<J: Added> Play<Slot, View> for AddTouch<J> {
    ghost then = { TouchStep (touch_in J.event) };
}

/// What a Touch adds to the history word: one event, and no live record.
const TOUCH: u64 = 1;

impl<'b> Pass<'b> {
    /// Makes a Touch; the caller picks the event.
    #[inline(always)]
    fn add_touch<J: Added>(&mut self, event: &Event) -> u64
        requires event { event.now ≡ J.event }
        requires can { CanTouch (touch_in J.event) self.old.view }
        ensures adds { HasTouched (touch_in J.event) self.old.view result self.new.view }
        ensures kept { self.new ≡ record self.old { view = self.new.view } }
    {
        let _event = event;
        legal_histories_go_on();
        live_records_are_confirmed();
        states_follow();
        let word = self
            .shared
            .fetch_add::<AddTouch<J>>(&mut self.seat, HISTORY_WORD, TOUCH);
        events_in(word)
    }

    /// Makes the Touch of a live entry whose record the pass has under its turn, and answers its number. The record that the
    /// pass knows goes on with the event's part; the one in the slot is the caller's to change.
    #[inline(always)]
    pub fn touch_add(&mut self, event: Event) -> u64
        requires can { CanTouch (touch_in event) self.old.view }
        ensures adds { HasTouched (touch_in event) self.old.view result self.new.view }
        ensures kept { self.new ≡ record self.old { view = self.new.view } }
    {
        self.add_touch::<Brand>(&event)
    }
}
