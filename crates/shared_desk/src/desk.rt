//! A clerk as a desk.

ghost use Rattle.std.specs.Prelude.{◌≡◌, ◌+◌, ◌<◌, ◌≤◌, ◌^◌, true, length, OnOk, OnErr};
ghost use Rattle.entry_pool.specs.Take.{recycle_words, take_words};
ghost use Rattle.history_book.specs.Desk.{ConfirmSays, CountSays, FindSays, HoldSays, IsReady, KillSays, PeekSays, RecycleSays, ReleaseSays, TakeSays, TouchSays};
ghost use Rattle.history_book.specs.DeskExpectations.{ClaimSays, ExpectSays, ListsExpected, UnexpectSays};
ghost use Rattle.history_book.specs.Entry.{is_lawful_flow, is_helped_entry, is_of_entry, suits_entry};
ghost use Rattle.history_book.specs.Legality.{reason_moment_of};
ghost use Rattle.history_book.specs.Held.{held_id, is_held, is_held_for_entry, is_owed, is_taken};
ghost use Rattle.history_book.specs.Sight.{IsKnown};
ghost use Rattle.shared_desk.specs.Calls.{ShowsNone};
ghost use Rattle.shared_desk.specs.Changed.{claim_words, confirm_words, expect_words, find_words, hold_words, kill_words, touch_words, unexpect_words};
ghost use Rattle.track_rule.specs.ChangesOnly.{ChangesAndFrees, ChangesWords, is_expect_turn, is_refs_of, is_turn_of, no_word};
ghost use Rattle.shared_desk.specs.FindsOnce.{LookSays};
ghost use Rattle.shared_desk.specs.Sights.{sight_of};

use crate::claiming::{claim, list_expects, unexpect};
use crate::clerk::Clerk;
use crate::confirm::confirm;
use crate::entry::{kill, peek, touch};
use crate::expecting::expect;
use crate::holding::hold;
use crate::noting::{note_confirm, note_event, note_touch};
use crate::touching::EntryPacket;
use bucket_table::finding::FindOnce;
use ct_io::Gate;
use entry_pool::take::{recycle, take};
use expect_table::expectation::Want;
use history_book::desk::Desk;
use history_book::event::{Note, Why};
use history_book::laws::states_stay;
use history_book::many_threads::SharedDesk;
use history_book::outcome::{
    ClaimOutcome, ConfirmOutcome, ExpectOutcome, FindOutcome, HoldOutcome, KillOutcome, LiveCount,
    PeekOutcome, ReleaseOutcome, TakeOutcome, TouchOutcome, UnexpectOutcome,
};
use history_book::record::Flow;
use history_book::report::{Expectations, Notes};
use history_book::sight_laws::seeing_adds_up;
use std::sync::Wait;
use std::thread;
use tuple_core::{Direction, NoMemory, Segment, Tuple};

impl<'t, G: Gate> Clerk<'t, G> {
    /// Looks once for what is live under a tuple, and makes the place free again that it then owes. None is that another pass moved
    /// what it looked at.
    #[inline(always)]
    fn look<R: Wait>(&mut self, rt: &R, t: &Tuple) -> Option<FindOutcome>
        requires { length (sight_of self.old).held + length (sight_of self.old).owed ≤ 3 }
        ensures says { LookSays result t.now (sight_of self.old) (sight_of self.new) }
        ensures own { ChangesAndFrees find_words self.old.pass.view self.new.pass.view }
        ensures knows { IsKnown (sight_of self.new) }
    {
        seeing_adds_up();
        match self.find_once(t) {
            FindOnce::Found {
                place,
                id,
                direction,
                at,
            } => Some(FindOutcome::Found {
                place,
                id,
                direction,
                at,
            }),
            FindOnce::Absent { at } => Some(FindOutcome::Absent { at }),
            FindOnce::Moved { owed, .. } => {
                if let Some(place) = owed {
                    self.recycle(rt, place);
                }
                None
            }
        }
    }

    /// Looks again and again, until no other pass moves what it looks at.
    #[inline(never)]
    fn look_on<R: Wait>(&mut self, rt: &R, t: &Tuple) -> FindOutcome
        requires { length (sight_of self.old).held + length (sight_of self.old).owed ≤ 3 }
        ensures says { FindSays t.now (sight_of self.old) (sight_of self.new) result }
        ensures own { ChangesAndFrees find_words self.old.pass.view self.new.pass.view }
        ensures knows { IsKnown (sight_of self.new) }
    {
        seeing_adds_up();
        'looks: for _ in rt.forever() {
            thread::yield_now();
            if let Some(outcome) = self.look(rt, t) {
                return outcome;
            }
        }
        unreachable!()
    }
}

impl<'t, G: Gate> Desk for Clerk<'t, G> {
    ghost sight = { sight_of };

    fn places(&self) -> u32 {
        self.pass.sizes().entries
    }

    fn expect_room(&self) -> u32 {
        self.pass.sizes().expectations
    }

    #[inline(always)]
    fn made(&self) -> u64 {
        self.notes.len() as u64
    }

    #[inline(always)]
    fn own(&self, index: u64) -> Note {
        self.notes.at(index as usize)
    }

    /// Makes room for `k` further own events.
    #[inline(always)]
    fn ready(&mut self, k: u64) -> Result<(), NoMemory>
        requires { length (sight_of self.old).own + k ≤ 2 ^ 30 }
        ensures ready { OnOk result (IsReady k (sight_of self.old) (sight_of self.new)) }
        ensures short { OnErr result ((sight_of self.old).spare < k) }
        ensures same { OnErr result (sight_of self.new ≡ sight_of self.old) }
        ensures pass { self.new.pass ≡ self.old.pass }
        ensures knows { IsKnown (sight_of self.new) }
    {
        if self.spare >= k {
            return Ok(());
        }
        self.notes.reserve(k as usize)?;
        self.spare = k;
        Ok(())
    }

    /// Looks for what is live under a tuple, the original one first, and holds its place. It looks again where another pass moved what
    /// it looked at, and makes each place free again that it then owes: for that it may wait for the turn of the free list.
    #[inline(always)]
    fn find<R: Wait>(&mut self, rt: &R, t: &Tuple) -> FindOutcome
        requires { length (sight_of self.old).held + length (sight_of self.old).owed ≤ 3 }
        ensures says { FindSays t.now (sight_of self.old) (sight_of self.new) result }
        ensures own { ChangesAndFrees find_words self.old.pass.view self.new.pass.view }
        ensures knows { IsKnown (sight_of self.new) }
    {
        seeing_adds_up();
        match self.look(rt, t) {
            Some(outcome) => outcome,
            None => self.look_on(rt, t),
        }
    }

    /// Counts the live entries, without waiting.
    fn count<R: Wait>(&mut self, _rt: &R) -> LiveCount
        ensures says { CountSays (sight_of self.old) (sight_of self.new) result }
        ensures own { ChangesWords no_word self.old.pass.view self.new.pass.view }
        ensures knows { IsKnown (sight_of self.new) }
    {
        self.count_now()
    }

    /// Takes a free place for a new entry. It may wait for the turn of the free list.
    #[inline(always)]
    fn take<R: Wait>(&mut self, rt: &R) -> TakeOutcome
        requires { length (sight_of self.old).held + length (sight_of self.old).owed ≤ 3 }
        ensures says { TakeSays (sight_of self.old) (sight_of self.new) result }
        ensures shows { ShowsNone result self.old self.new }
        ensures own { ChangesWords (take_words result) self.old.pass.view self.new.pass.view }
        ensures knows { IsKnown (sight_of self.new) }
    {
        take(rt, &mut self.pass)
    }

    /// Confirms a new entry in a place that was taken for it. It may wait for the locks of two buckets. While both are locked and no
    /// clash was found it passes the gate, before the entry is made.
    #[inline(always)]
    fn confirm<R: Wait>(&mut self, rt: &R, place: u32, flow: &Flow) -> ConfirmOutcome
        requires taken { is_taken place (sight_of self.old).held ≡ true }
        requires protocol { is_lawful_flow flow.now ≡ true }
        requires spare { 1 ≤ (sight_of self.old).spare }
        ensures says { ConfirmSays place flow.now (sight_of self.old) (sight_of self.new) result }
        ensures own { ChangesWords (confirm_words flow.now place result) self.old.pass.view self.new.pass.view }
        ensures knows { IsKnown (sight_of self.new) }
    {
        let outcome = confirm(rt, &mut self.pass, self.gate, self.worker, place, flow);
        note_confirm(&mut self.notes, &mut self.spare, place, flow, &outcome);
        outcome
    }

    /// Touches the entry for which a place is held, with a packet of its protocol at a moment in microseconds. It may wait for the
    /// turn of the place's record.
    #[inline(always)]
    fn touch<R: Wait>(
        &mut self,
        rt: &R,
        place: u32,
        direction: Direction,
        segment: Segment,
        moment: u64,
    ) -> TouchOutcome
        requires held { is_held_for_entry place (sight_of self.old).held ≡ true }
        requires protocol { is_of_entry segment (held_id place (sight_of self.old).held)
            (sight_of self.old).front ≡ true }
        requires timely { moment ≤ 10 ^ 16 }
        requires spare { 1 ≤ (sight_of self.old).spare }
        ensures says { TouchSays place direction segment moment
            (sight_of self.old) (sight_of self.new) result }
        ensures own { ChangesWords (touch_words place result) self.old.pass.view self.new.pass.view }
        ensures knows { IsKnown (sight_of self.new) }
    {
        states_stay();
        let packet = EntryPacket {
            direction,
            segment,
            moment,
        };
        let (outcome, made) = touch(rt, &mut self.pass, place, &packet);
        note_touch(&mut self.notes, &mut self.spare, &packet, made);
        outcome
    }

    /// Reads the entry for which a place is held. It may wait for the turn of the place's record.
    fn peek<R: Wait>(&mut self, rt: &R, place: u32) -> PeekOutcome
        requires { is_held_for_entry place (sight_of self.old).held ≡ true }
        ensures says { PeekSays place (sight_of self.old) (sight_of self.new) result }
        ensures own { ChangesWords (is_turn_of place) self.old.pass.view self.new.pass.view }
        ensures knows { IsKnown (sight_of self.new) }
    {
        peek(rt, &mut self.pass, place)
    }

    /// Destroys the entry for which a place is held, where the reason holds of it. It may wait for the turn of the place's record, then
    /// for that of the expectations, where the entry has the helper, and then for the locks of two buckets.
    #[inline(never)]
    fn kill<R: Wait>(&mut self, rt: &R, place: u32, why: Why) -> KillOutcome
        requires held { is_held_for_entry place (sight_of self.old).held ≡ true }
        requires protocol { suits_entry why (held_id place (sight_of self.old).held)
            (sight_of self.old).front ≡ true }
        requires timely { reason_moment_of why ≤ 10 ^ 16 }
        requires spare { 1 ≤ (sight_of self.old).spare }
        ensures says { KillSays place why (sight_of self.old) (sight_of self.new) result }
        ensures own { ChangesWords (kill_words place result) self.old.pass.view self.new.pass.view }
        ensures knows { IsKnown (sight_of self.new) }
    {
        states_stay();
        let (outcome, note) = kill(rt, &mut self.pass, place, why);
        note_event(&mut self.notes, &mut self.spare, note);
        outcome
    }

    /// Makes the entry for which a place is held, which has the helper, expect a connection, from a moment in microseconds on and for
    /// 300 s. It may wait for the turn of the place's record, and for that of the expectations.
    #[cold]
    fn expect<R: Wait>(&mut self, rt: &R, place: u32, want: Want, moment: u64) -> ExpectOutcome
        requires held { is_held_for_entry place (sight_of self.old).held ≡ true }
        requires helper { is_helped_entry (held_id place (sight_of self.old).held)
            (sight_of self.old).front ≡ true }
        requires timely { moment ≤ 10 ^ 16 }
        requires spare { 1 ≤ (sight_of self.old).spare }
        ensures says { ExpectSays place want moment (sight_of self.old) (sight_of self.new) result }
        ensures own { ChangesWords (expect_words place result) self.old.pass.view self.new.pass.view }
        ensures knows { IsKnown (sight_of self.new) }
    {
        let (outcome, note) = expect(rt, &mut self.pass, place, want, moment);
        note_event(&mut self.notes, &mut self.spare, note);
        outcome
    }

    /// Ends the first expectation that a packet with this tuple matches at a moment in microseconds. It may wait for the turn of the
    /// expectations.
    #[inline(always)]
    fn claim<R: Wait>(&mut self, rt: &R, t: &Tuple, moment: u64) -> ClaimOutcome
        requires { 1 ≤ (sight_of self.old).spare }
        ensures says { ClaimSays t.now moment (sight_of self.old) (sight_of self.new) result }
        ensures own { ChangesWords (claim_words result) self.old.pass.view self.new.pass.view }
        ensures knows { IsKnown (sight_of self.new) }
    {
        let (outcome, note) = claim(rt, &mut self.pass, t, moment);
        note_event(&mut self.notes, &mut self.spare, note);
        outcome
    }

    /// Ends the expectation of this id, where it is awaited no longer at a moment in microseconds. It may wait for the turn of the
    /// expectations.
    fn unexpect<R: Wait>(&mut self, rt: &R, id: u64, moment: u64) -> UnexpectOutcome
        requires { 1 ≤ (sight_of self.old).spare }
        ensures says { UnexpectSays id moment (sight_of self.old) (sight_of self.new) result }
        ensures own { ChangesWords (unexpect_words result) self.old.pass.view self.new.pass.view }
        ensures knows { IsKnown (sight_of self.new) }
    {
        let (outcome, note) = unexpect(rt, &mut self.pass, id, moment);
        note_event(&mut self.notes, &mut self.spare, note);
        outcome
    }

    /// Lists the expectations in order of id, in place of what the list has, and answers their point. It may wait for the turn of the
    /// expectations.
    fn expects<R: Wait>(&mut self, rt: &R, listed: &mut Expectations) -> u64
        requires { (sight_of self.old).sizes.expectations ≤ listed.old.room }
        ensures says { ListsExpected listed.new.items (sight_of self.old) (sight_of self.new) result }
        ensures room { listed.new.room ≡ listed.old.room }
        ensures own { ChangesWords is_expect_turn self.old.pass.view self.new.pass.view }
        ensures knows { IsKnown (sight_of self.new) }
    {
        list_expects(rt, &mut self.pass, listed)
    }

    /// Holds a place for the entry that is live in it, if one is. It may wait for the turn of the place's record, and for that of the
    /// free list.
    #[cold]
    fn hold<R: Wait>(&mut self, rt: &R, place: u32) -> HoldOutcome
        requires below { place < (sight_of self.old).sizes.entries }
        requires room { length (sight_of self.old).held + length (sight_of self.old).owed ≤ 3 }
        ensures says { HoldSays place (sight_of self.old) (sight_of self.new) result }
        ensures own { ChangesAndFrees (hold_words place) self.old.pass.view self.new.pass.view }
        ensures knows { IsKnown (sight_of self.new) }
    {
        hold(rt, &mut self.pass, place)
    }

    /// Gives up one reference to a place, without waiting.
    #[inline(always)]
    fn release<R: Wait>(&mut self, _rt: &R, place: u32) -> ReleaseOutcome
        requires { is_held place (sight_of self.old).held ≡ true }
        ensures says { ReleaseSays place (sight_of self.old) (sight_of self.new) result }
        ensures own { ChangesWords (is_refs_of place) self.old.pass.view self.new.pass.view }
        ensures knows { IsKnown (sight_of self.new) }
    {
        self.release_now(place)
    }

    /// Makes a place free again, of which this clerk gave up the last reference. It may wait for the turn of the free list.
    #[cold]
    fn recycle<R: Wait>(&mut self, rt: &R, place: u32)
        requires { is_owed place (sight_of self.old).owed ≡ true }
        ensures says { RecycleSays place (sight_of self.old) (sight_of self.new) }
        ensures own { ChangesWords (recycle_words place) self.old.pass.view self.new.pass.view }
        ensures knows { IsKnown (sight_of self.new) }
    {
        recycle(rt, &mut self.pass, place);
    }
}

impl<'t, G: Gate> SharedDesk for Clerk<'t, G> {
    fn split(&mut self, worker: u32, shares: u32) -> Self {
        self.split(worker, shares)
    }

    fn join(&mut self, other: Self) -> Notes {
        self.join(other)
    }
}
