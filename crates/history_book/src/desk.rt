//! One thread's handle on the tracker. Every tracker stands behind this trait, and all that is above is
//! written and proved once over it.

ghost use Rattle.std.specs.Prelude.{◌≡◌, ◌+◌, ◌<◌, ◌≤◌, ◌^◌, true, length, slice_get, OnOk, OnErr};
ghost use Rattle.history_book.specs.Desk.{ConfirmSays, CountSays, FindSays, HoldSays, IsReady};
ghost use Rattle.history_book.specs.Desk.{KillSays, PeekSays, RecycleSays, ReleaseSays};
ghost use Rattle.history_book.specs.Desk.{TakeSays, TouchSays};
ghost use Rattle.history_book.specs.DeskExpectations.{ClaimSays, ExpectSays, ListsExpected, UnexpectSays};
ghost use Rattle.history_book.specs.Entry.{is_lawful_flow, is_helped_entry, is_of_entry, suits_entry};
ghost use Rattle.history_book.specs.Held.{held_id, is_held, is_held_for_entry, is_owed, is_taken};
ghost use Rattle.history_book.specs.Legality.{reason_moment_of};
ghost use Rattle.history_book.specs.Sight.{IsKnown, Sight};

use crate::event::{Note, Why};
use crate::outcome::{
    ClaimOutcome, ConfirmOutcome, ExpectOutcome, FindOutcome, HoldOutcome, KillOutcome, LiveCount,
    PeekOutcome, ReleaseOutcome, TakeOutcome, TouchOutcome, UnexpectOutcome,
};
use crate::record::Flow;
use crate::report::Expectations;
use expect_table::expectation::Want;
use std::sync::Wait;
use tuple_core::{Direction, NoMemory, Segment, Tuple};

/// A reference that a desk keeps to a place of the pool.
#[derive(Clone, Copy)]
pub struct Hold {
    pub place: u32,
    /// The entry for which the place is held; none where the place was taken and no entry is confirmed
    /// in it yet.
    pub id: Option<u64>,
}

/// One thread's handle on the tracker. It sees the first events of the one history, never fewer than
/// before, and makes events of its own. All calls but `ready` take no memory; those that take the
/// runtime may wait for another thread.
///
/// A place that is held for an entry answers of that entry alone until it is released.
pub trait Desk {
    /// What the desk knows.
    ghost sight: { Self → Sight };

    /// The places of the pool.
    fn places(&self) -> u32
        ensures exact { result ≡ (sight self.now).sizes.entries }
        ensures knows { IsKnown (sight self.now) };

    /// The room for expectations.
    fn expect_room(&self) -> u32
        ensures exact { result ≡ (sight self.now).sizes.expectations }
        ensures knows { IsKnown (sight self.now) };

    /// The number of own events.
    fn made(&self) -> u64
        ensures exact { result ≡ length (sight self.now).own }
        ensures knows { IsKnown (sight self.now) };

    /// The own event at `index`, in order of number.
    fn own(&self, index: u64) -> Note
        requires { index < length (sight self.now).own }
        ensures exact { slice_get (sight self.now).own index ≡ Some result }
        ensures knows { IsKnown (sight self.now) };

    /// Makes room for `k` further own events.
    fn ready(&mut self, k: u64) -> Result<(), NoMemory>
        requires { length (sight self.old).own + k ≤ 2 ^ 30 }
        ensures ready { OnOk result (IsReady k (sight self.old) (sight self.new)) }
        ensures short { OnErr result ((sight self.old).spare < k) }
        ensures same { OnErr result (sight self.new ≡ sight self.old) }
        ensures knows { IsKnown (sight self.new) };

    /// Looks up what is live under a tuple, the original one first, and holds its place.
    fn find<R: Wait>(&mut self, rt: &R, t: &Tuple) -> FindOutcome
        requires { length (sight self.old).held + length (sight self.old).owed ≤ 3 }
        ensures says { FindSays t.now (sight self.old) (sight self.new) result }
        ensures knows { IsKnown (sight self.new) };

    /// Counts the live entries.
    fn count<R: Wait>(&mut self, rt: &R) -> LiveCount
        ensures says { CountSays (sight self.old) (sight self.new) result }
        ensures knows { IsKnown (sight self.new) };

    /// Takes a free place for a new entry.
    fn take<R: Wait>(&mut self, rt: &R) -> TakeOutcome
        requires { length (sight self.old).held + length (sight self.old).owed ≤ 3 }
        ensures says { TakeSays (sight self.old) (sight self.new) result }
        ensures knows { IsKnown (sight self.new) };

    /// Confirms a new entry in a place that was taken for it.
    fn confirm<R: Wait>(&mut self, rt: &R, place: u32, flow: &Flow) -> ConfirmOutcome
        requires taken { is_taken place (sight self.old).held ≡ true }
        requires protocol { is_lawful_flow flow.now ≡ true }
        requires spare { 1 ≤ (sight self.old).spare }
        ensures says { ConfirmSays place flow.now (sight self.old) (sight self.new) result }
        ensures knows { IsKnown (sight self.new) };

    /// Touches the entry for which a place is held, with a packet of its protocol at a moment in
    /// microseconds.
    fn touch<R: Wait>(
        &mut self,
        rt: &R,
        place: u32,
        direction: Direction,
        segment: Segment,
        moment: u64,
    ) -> TouchOutcome
        requires held { is_held_for_entry place (sight self.old).held ≡ true }
        requires protocol { is_of_entry segment (held_id place (sight self.old).held)
            (sight self.old).front ≡ true }
        requires timely { moment ≤ 10 ^ 16 }
        requires spare { 1 ≤ (sight self.old).spare }
        ensures says { TouchSays place direction segment moment
            (sight self.old) (sight self.new) result }
        ensures knows { IsKnown (sight self.new) };

    /// Reads the entry for which a place is held.
    fn peek<R: Wait>(&mut self, rt: &R, place: u32) -> PeekOutcome
        requires { is_held_for_entry place (sight self.old).held ≡ true }
        ensures says { PeekSays place (sight self.old) (sight self.new) result }
        ensures knows { IsKnown (sight self.new) };

    /// Destroys the entry for which a place is held, where the reason holds of it.
    fn kill<R: Wait>(&mut self, rt: &R, place: u32, why: Why) -> KillOutcome
        requires held { is_held_for_entry place (sight self.old).held ≡ true }
        requires protocol { suits_entry why (held_id place (sight self.old).held)
            (sight self.old).front ≡ true }
        requires timely { reason_moment_of why ≤ 10 ^ 16 }
        requires spare { 1 ≤ (sight self.old).spare }
        ensures says { KillSays place why (sight self.old) (sight self.new) result }
        ensures knows { IsKnown (sight self.new) };

    /// Makes the entry for which a place is held expect a connection, from a moment in microseconds on and for
    /// 300 s. The entry has the helper.
    fn expect<R: Wait>(&mut self, rt: &R, place: u32, want: Want, moment: u64) -> ExpectOutcome
        requires held { is_held_for_entry place (sight self.old).held ≡ true }
        requires helper { is_helped_entry (held_id place (sight self.old).held)
            (sight self.old).front ≡ true }
        requires timely { moment ≤ 10 ^ 16 }
        requires spare { 1 ≤ (sight self.old).spare }
        ensures says { ExpectSays place want moment (sight self.old) (sight self.new) result }
        ensures knows { IsKnown (sight self.new) };

    /// Ends the first expectation that a packet with this tuple matches at a moment in microseconds.
    fn claim<R: Wait>(&mut self, rt: &R, t: &Tuple, moment: u64) -> ClaimOutcome
        requires { 1 ≤ (sight self.old).spare }
        ensures says { ClaimSays t.now moment (sight self.old) (sight self.new) result }
        ensures knows { IsKnown (sight self.new) };

    /// Ends the expectation of this id, where it is awaited no longer at a moment in microseconds.
    fn unexpect<R: Wait>(&mut self, rt: &R, id: u64, moment: u64) -> UnexpectOutcome
        requires { 1 ≤ (sight self.old).spare }
        ensures says { UnexpectSays id moment (sight self.old) (sight self.new) result }
        ensures knows { IsKnown (sight self.new) };

    /// Lists the expectations in order of id, in place of what the list has, and answers their point.
    fn expects<R: Wait>(&mut self, rt: &R, listed: &mut Expectations) -> u64
        requires { (sight self.old).sizes.expectations ≤ listed.old.room }
        ensures says { ListsExpected listed.new.items (sight self.old) (sight self.new) result }
        ensures room { listed.new.room ≡ listed.old.room }
        ensures knows { IsKnown (sight self.new) };

    /// Holds a place for the entry that is live in it.
    fn hold<R: Wait>(&mut self, rt: &R, place: u32) -> HoldOutcome
        requires below { place < (sight self.old).sizes.entries }
        requires room { length (sight self.old).held + length (sight self.old).owed ≤ 3 }
        ensures says { HoldSays place (sight self.old) (sight self.new) result }
        ensures knows { IsKnown (sight self.new) };

    /// Gives up one reference to a place.
    fn release<R: Wait>(&mut self, rt: &R, place: u32) -> ReleaseOutcome
        requires { is_held place (sight self.old).held ≡ true }
        ensures says { ReleaseSays place (sight self.old) (sight self.new) result }
        ensures knows { IsKnown (sight self.new) };

    /// Makes a place free again, of which this desk gave up the last reference.
    fn recycle<R: Wait>(&mut self, rt: &R, place: u32)
        requires { is_owed place (sight self.old).owed ≡ true }
        ensures says { RecycleSays place (sight self.old) (sight self.new) }
        ensures knows { IsKnown (sight self.new) };
}
