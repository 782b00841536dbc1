//! The steps of the events of the expectations: an Expect, a Claim or an Unexpect is made, by one addition to the history word,
//! while the pass has the turn of the expectations.

ghost use Rattle.std.specs.Prelude.{◌≡◌};
ghost use Rattle.track_rule.specs.ExpectSteps.{CanChange, CanClaim, CanExpect, CanUnexpect, ChangeStep, HasClaimed, HasExpected, HasUnexpected, MakesChange, claim_in, expect_in, unexpect_in};
ghost use Rattle.track_rule.specs.History.{IsNumber};

use crate::commits::Added;
use crate::history_word::events_in;
use crate::layout::HISTORY_WORD;
use crate::pass::Pass;
use crate::slot::Slot;
use crate::view::View;
use atomic_table::Play;
use history_book::event::Event;
use history_book::laws::{legal_histories_go_on, states_follow};
use std::marker::{Brand, PhantomData};

/// Making an event of the expectations.
pub struct AddChange<J> {
    of: PhantomData<J>,
}

impl<J: Added> Play<Slot, View> for AddChange<J> {
    ghost then = { ChangeStep J.event };
}

/// What such an event adds to the history word: one event, and no live record.
const CHANGE: u64 = 1;

impl<'b> Pass<'b> {
    /// Makes an event that changes what is expected and leaves the entries; the caller picks the event.
    fn add_change<J: Added>(&mut self, event: &Event) -> u64
        requires event { event.now ≡ J.event }
        requires can { CanChange J.event self.old.view }
        ensures adds { MakesChange J.event self.old.view (IsNumber result) self.new.view }
        ensures kept { self.new ≡ record self.old { view = self.new.view } }
    {
        let _event = event;
        legal_histories_go_on();
        states_follow();
        let word = self
            .shared
            .fetch_add::<AddChange<J>>(&mut self.seat, HISTORY_WORD, CHANGE);
        events_in(word)
    }

    /// Makes the Expect of a live entry whose record the pass has under its turn, and answers its number, which is the id of the
    /// expectation; the id in the argument is not read. The expectations in the slot are the caller's to change.
    pub fn expect_add(&mut self, event: Event) -> u64
        requires can { CanExpect (expect_in event) self.old.view }
        ensures adds { HasExpected (expect_in event) self.old.view result self.new.view }
        ensures kept { self.new ≡ record self.old { view = self.new.view } }
    {
        self.add_change::<Brand>(&event)
    }

    /// Makes the Claim of the first expectation that matches, and answers its number. The expectations in the slot are the
    /// caller's to change.
    pub fn claim_add(&mut self, event: Event) -> u64
        requires can { CanClaim (claim_in event) self.old.view }
        ensures adds { HasClaimed (claim_in event) self.old.view result self.new.view }
        ensures kept { self.new ≡ record self.old { view = self.new.view } }
    {
        self.add_change::<Brand>(&event)
    }

    /// Makes the Unexpect of an expectation that is awaited no longer, and answers its number. The expectations in the slot are the
    /// caller's to change.
    pub fn unexpect_add(&mut self, event: Event) -> u64
        requires can { CanUnexpect (unexpect_in event) self.old.view }
        ensures adds { HasUnexpected (unexpect_in event) self.old.view result self.new.view }
        ensures kept { self.new ≡ record self.old { view = self.new.view } }
    {
        self.add_change::<Brand>(&event)
    }
}
