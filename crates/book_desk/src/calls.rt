//! What the calls of a desk do to the fields that all desks of a tracker share. What they say is said as to one pass
//! that kept every reference and made every event, whatever the events were; the desks tell their own part of it.
#![tactic(auto)]

ghost use Rattle.std.specs.Prelude.{◌≡◌, ◌+◌, ◌*◌, ◌<◌, ◌≤◌, ◌^◌, None, Some, length, slice_get, true};
ghost use Rattle.history_book.specs.declared.record.Record.{Record};
ghost use Rattle.history_book.specs.Desk.{ConfirmSays, CountSays, FindSays, HoldSays, KillSays, PeekSays};
ghost use Rattle.history_book.specs.Desk.{RecycleSays, ReleaseSays, TakeSays, TouchSays};
ghost use Rattle.history_book.specs.DeskExpectations.{ClaimSays, ExpectSays, ListsExpected, UnexpectSays};
ghost use Rattle.history_book.specs.Entry.{is_lawful_flow, is_helped_entry, is_of_entry, suits_entry};
ghost use Rattle.history_book.specs.Held.{held_id, is_held, is_held_for_entry, is_owed, is_taken};
ghost use Rattle.history_book.specs.Legality.{reason_moment_of};
ghost use Rattle.book_desk.specs.Internal.Book.{IsSomeBook, StaysBook, Tells, counted};

use crate::book::Book;
use crate::bundles::{histories_go_on, records_are_named};
use crate::entries::{is_same_flow, winner};
use crate::holds::{forget_hold, held_id, is_in_use, pay, place_index};
use expect_table::expectation::{Expectation, Want};
use expect_table::table::AddOutcome;
use history_book::desk::Hold;
use history_book::event::{Event, Why};
use history_book::find::{find, find_id};
use history_book::laws::{
    destroys_take_one, entries_keep_helper_and_zone, entries_keep_their_protocol,
    expectations_are_in_order, free_is_absent, live_records_are_confirmed, states_stay,
    touches_change_one,
};
use history_book::legality::{expectation_at, is_reason_for};
use history_book::outcome::{
    ClaimOutcome, ConfirmOutcome, ExpectOutcome, FindOutcome, HoldOutcome, KillOutcome, LiveCount,
    PeekOutcome, ReleaseOutcome, TakeOutcome, TouchOutcome, UnexpectOutcome,
};
use history_book::record::{Flow, Record};
use history_book::report::Expectations;
use proto_rules::laws::same_part_is_equality;
use proto_rules::{Outcome, step};
use tuple_core::{Direction, Segment, Tuple};

/// The zone of the record at an index.
fn zone_at(records: &[Record], index: usize) -> u16
    requires { index < length records.now }
    ensures { (r : Record) → slice_get records.now index ≡ Some r → result ≡ r.original.zone }
{
    records[index].original.zone
}

impl Book {
    /// Looks up what is live under a tuple, the original one first, and holds its place.
    pub fn find(&mut self, t: &Tuple) -> FindOutcome
        requires right { IsSomeBook (λ log. Unit {0}) self.old }
        requires room { length self.old.holds.items + length self.old.owed.items < 4 * self.old.sizes.passes }
        ensures stays { StaysBook self.old self.new None }
        ensures says { Tells self.old self.new None (λ old new. FindSays t.now old new result) }
        ensures sizes { self.new.sizes ≡ self.old.sizes }
    {
        live_records_are_confirmed();
        let at = self.events;
        let Some(found) = find(self.records.as_slice(), t) else {
            return FindOutcome::Absent { at };
        };
        let Record { id, place, .. } = self.hold_record(found.index);
        FindOutcome::Found {
            place,
            id,
            direction: found.direction,
            at,
        }
    }

    /// Counts the live entries.
    pub fn count(&self) -> LiveCount
        requires right { IsSomeBook (λ log. Unit {0}) self.now }
        ensures says { Tells self.now self.now None (λ old new. CountSays old new result) }
    {
        LiveCount {
            live: self.live(),
            at: self.events,
        }
    }

    /// Takes a free place for a new entry. The desk counts it.
    pub fn take(&mut self) -> TakeOutcome
        requires right { IsSomeBook (λ log. Unit {0}) self.old }
        requires room { length self.old.holds.items + length self.old.owed.items < 4 * self.old.sizes.passes }
        ensures stays { StaysBook self.old self.new None }
        ensures says { Tells self.old self.new None (λ old new. TakeSays old (counted result new) result) }
        ensures sizes { self.new.sizes ≡ self.old.sizes }
    {
        let count = self.free.len();
        if count == 0 {
            return TakeOutcome::Full { at: self.events };
        }
        // The place that was freed last.
        let place = self.free.remove(count - 1);
        self.holds.put_first(Hold { place, id: None });
        TakeOutcome::Taken { place }
    }

    /// Confirms a new entry in a place that was taken for it. Gives the event, if there is one.
    pub fn confirm(&mut self, place: u32, flow: &Flow) -> (ConfirmOutcome, Option<Event>)
        requires right { IsSomeBook (λ log. Unit {0}) self.old }
        requires taken { is_taken place self.old.holds.items ≡ true }
        requires protocol { is_lawful_flow flow.now ≡ true }
        requires few { self.old.events < 2 ^ 40 }
        ensures stays { StaysBook self.old self.new result.1 }
        ensures says { Tells self.old self.new result.1 (λ old new. ConfirmSays place flow.now old new result.0) }
        ensures sizes { self.new.sizes ≡ self.old.sizes }
    {
        histories_go_on();
        free_is_absent();
        let at = self.events;
        let records = self.records.as_slice();
        if let Some(found) = winner(records, &flow.original, &flow.reply) {
            let subject = self.records.at(found.index);
            let clash = ConfirmOutcome::Clash {
                id: subject.id,
                direction: found.direction,
                both: is_same_flow(subject, flow),
                at,
            };
            return (clash, None);
        }
        let event = self.enter(place, flow);
        (ConfirmOutcome::Confirmed { id: at }, Some(event))
    }

    /// Touches the entry for which a place is held, with a packet of its protocol at a moment in microseconds. Gives
    /// the event, if there is one.
    pub fn touch(
        &mut self,
        place: u32,
        direction: Direction,
        segment: Segment,
        moment: u64,
    ) -> (TouchOutcome, Option<Event>)
        requires right { IsSomeBook (λ log. is_of_entry segment (held_id place self.old.holds.items) log ≡ true) self.old }
        requires timely { moment ≤ 10 ^ 16 }
        requires few { self.old.events < 2 ^ 40 }
        ensures stays { StaysBook self.old self.new result.1 }
        ensures says { Tells self.old self.new result.1
            (λ old new. TouchSays place direction segment moment old new result.0) }
        ensures sizes { self.new.sizes ≡ self.old.sizes }
    {
        entries_keep_their_protocol();
        histories_go_on();
        states_stay();
        records_are_named();
        touches_change_one();
        same_part_is_equality();
        let at = self.events;
        let id = held_id(self.holds.as_slice(), place);
        let Some(index) = find_id(self.records.as_slice(), id) else {
            return (TouchOutcome::Gone { at }, None);
        };
        let before = *self.records.at(index);
        match step(&before.part, direction, segment, moment) {
            Outcome::Accept(after) => {
                self.refresh(index, &before, after);
                let event = Event::Touch {
                    id: before.id,
                    direction,
                    segment,
                    moment,
                    after,
                };
                (TouchOutcome::Touched { number: at, before }, Some(event))
            }
            Outcome::Ignore => (TouchOutcome::Ignored { at }, None),
            Outcome::Invalid => (TouchOutcome::Invalid { at }, None),
            Outcome::Reopen => (TouchOutcome::Reopen { at }, None),
            Outcome::Reset => (TouchOutcome::Reset { at }, None),
            Outcome::Expired => (TouchOutcome::Expired { at }, None),
        }
    }

    /// Reads the entry for which a place is held.
    pub fn peek(&self, place: u32) -> PeekOutcome
        ensures says { Tells self.now self.now None (λ old new. PeekSays place old new result) }
    {
        let at = self.events;
        let id = held_id(self.holds.as_slice(), place);
        let Some(index) = find_id(self.records.as_slice(), id) else {
            return PeekOutcome::Gone { at };
        };
        PeekOutcome::Seen {
            subject: *self.records.at(index),
            at,
        }
    }

    /// Destroys the entry for which a place is held, where the reason holds of it. Gives the event, if there is one.
    pub fn kill(&mut self, place: u32, why: Why) -> (KillOutcome, Option<Event>)
        requires right { IsSomeBook (λ log. suits_entry why (held_id place self.old.holds.items) log ≡ true) self.old }
        requires held { is_held_for_entry place self.old.holds.items ≡ true }
        requires timely { reason_moment_of why ≤ 10 ^ 16 }
        requires few { self.old.events < 2 ^ 40 }
        ensures stays { StaysBook self.old self.new result.1 }
        ensures says { Tells self.old self.new result.1 (λ old new. KillSays place why old new result.0) }
        ensures sizes { self.new.sizes ≡ self.old.sizes }
    {
        live_records_are_confirmed();
        histories_go_on();
        states_stay();
        records_are_named();
        destroys_take_one();
        let at = self.events;
        let id = held_id(self.holds.as_slice(), place);
        let Some(index) = find_id(self.records.as_slice(), id) else {
            return (KillOutcome::Gone { at }, None);
        };
        let subject = *self.records.at(index);
        if !is_reason_for(&why, &subject) {
            return (KillOutcome::Not { subject, at }, None);
        }
        self.destroy(index, &subject);
        let event = Event::Destroy {
            id: subject.id,
            why,
        };
        (
            KillOutcome::Killed {
                number: at,
                subject,
            },
            Some(event),
        )
    }

    /// Makes the entry for which a place is held expect a connection. Gives the event, if there is one.
    pub fn expect(&mut self, place: u32, want: Want, moment: u64) -> (ExpectOutcome, Option<Event>)
        requires right { IsSomeBook (λ log. is_helped_entry (held_id place self.old.holds.items) log ≡ true) self.old }
        requires timely { moment ≤ 10 ^ 16 }
        requires few { self.old.events < 2 ^ 40 }
        ensures stays { StaysBook self.old self.new result.1 }
        ensures says { Tells self.old self.new result.1 (λ old new. ExpectSays place want moment old new result.0) }
        ensures sizes { self.new.sizes ≡ self.old.sizes }
    {
        entries_keep_helper_and_zone();
        expectations_are_in_order();
        histories_go_on();
        let at = self.events;
        let id = held_id(self.holds.as_slice(), place);
        let Some(index) = find_id(self.records.as_slice(), id) else {
            return (ExpectOutcome::MasterGone { at }, None);
        };
        let zone = zone_at(self.records.as_slice(), index);
        let e = expectation_at(at, id, zone, want, moment);
        match self.expects.outcome(&e, moment) {
            AddOutcome::Added { replaced } => {
                self.promise(e, replaced, moment);
                let event = Event::Expect {
                    expectation: e,
                    replaced,
                    moment,
                };
                (ExpectOutcome::Expected { id: at, replaced }, Some(event))
            }
            AddOutcome::Clash { id } => (ExpectOutcome::Clash { id, at }, None),
            AddOutcome::Full => (ExpectOutcome::ExpectFull { at }, None),
        }
    }

    /// Ends the first expectation that a packet with this tuple matches at a moment in microseconds. Gives the event, if
    /// there is one.
    pub fn claim(&mut self, t: &Tuple, moment: u64) -> (ClaimOutcome, Option<Event>)
        requires few { self.old.events < 2 ^ 40 }
        ensures stays { StaysBook self.old self.new result.1 }
        ensures says { Tells self.old self.new result.1 (λ old new. ClaimSays t.now moment old new result.0) }
        ensures sizes { self.new.sizes ≡ self.old.sizes }
    {
        histories_go_on();
        let at = self.events;
        let Some(met) = self.expects.matching(t, moment) else {
            return (ClaimOutcome::Unclaimed { at }, None);
        };
        self.end_expectation(met.id);
        let event = Event::Claim {
            expectation: met.id,
            master: met.master,
            tuple: *t,
            moment,
        };
        (
            ClaimOutcome::Claimed {
                number: at,
                expectation: met.id,
                master: met.master,
            },
            Some(event),
        )
    }

    /// Ends the expectation of this id, where it is awaited no longer at a moment in microseconds. Gives the event, if there
    /// is one.
    pub fn unexpect(&mut self, id: u64, moment: u64) -> (UnexpectOutcome, Option<Event>)
        requires few { self.old.events < 2 ^ 40 }
        ensures stays { StaysBook self.old self.new result.1 }
        ensures says { Tells self.old self.new result.1 (λ old new. UnexpectSays id moment old new result.0) }
        ensures sizes { self.new.sizes ≡ self.old.sizes }
    {
        histories_go_on();
        let at = self.events;
        let Some(Expectation { deadline, .. }) = self.expects.find(id) else {
            return (UnexpectOutcome::Gone { at }, None);
        };
        if moment < deadline {
            return (UnexpectOutcome::Not { deadline, at }, None);
        }
        self.end_expectation(id);
        let event = Event::Unexpect {
            expectation: id,
            moment,
        };
        (UnexpectOutcome::Removed { number: at }, Some(event))
    }

    /// Lists the expectations in order of id, in place of what the list has, and answers their point.
    pub fn list_expected(&self, listed: &mut Expectations) -> u64
        requires right { IsSomeBook (λ log. Unit {0}) self.now }
        requires room { self.now.sizes.expectations ≤ listed.old.room }
        ensures says { Tells self.now self.now None (λ old new. ListsExpected listed.new.items old new result) }
        ensures room { listed.new.room ≡ listed.old.room }
    {
        self.expects.list(listed);
        self.events
    }

    /// Holds a place for the entry that is live in it.
    pub fn hold(&mut self, place: u32) -> HoldOutcome
        requires right { IsSomeBook (λ log. Unit {0}) self.old }
        requires room { length self.old.holds.items + length self.old.owed.items < 4 * self.old.sizes.passes }
        ensures stays { StaysBook self.old self.new None }
        ensures says { Tells self.old self.new None (λ old new. HoldSays place old new result) }
        ensures sizes { self.new.sizes ≡ self.old.sizes }
    {
        live_records_are_confirmed();
        records_are_named();
        let at = self.events;
        let Some(index) = place_index(self.records.as_slice(), place) else {
            return HoldOutcome::Empty { at };
        };
        let subject = self.hold_record(index);
        HoldOutcome::Held { id: subject.id, at }
    }

    /// Gives up one reference to a place.
    pub fn release(&mut self, place: u32) -> ReleaseOutcome
        requires right { IsSomeBook (λ log. Unit {0}) self.old }
        requires held { is_held place self.old.holds.items ≡ true }
        ensures stays { StaysBook self.old self.new None }
        ensures says { Tells self.old self.new None (λ old new. ReleaseSays place old new result) }
        ensures sizes { self.new.sizes ≡ self.old.sizes }
    {
        forget_hold(&mut self.holds, place);
        if is_in_use(self.records.as_slice(), self.holds.as_slice(), place) {
            return ReleaseOutcome::Kept;
        }
        self.owed.put_first(place);
        ReleaseOutcome::Last
    }

    /// Makes a place free again, of which the last reference was given up.
    pub fn recycle(&mut self, place: u32)
        requires right { IsSomeBook (λ log. Unit {0}) self.old }
        requires owed { is_owed place self.old.owed.items ≡ true }
        ensures stays { StaysBook self.old self.new None }
        ensures says { Tells self.old self.new None (λ old new. RecycleSays place old new) }
        ensures sizes { self.new.sizes ≡ self.old.sizes }
    {
        pay(&mut self.owed, place);
        self.free.push(place);
    }
}
