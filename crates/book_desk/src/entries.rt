//! Entries: the one that a new flow meets, and what confirming, touching and destroying one does to the fields.

ghost use Rattle.std.specs.Prelude.{◌≡◌, ◌<◌, ◌^◌, ◌&&◌, [], ◌∷◌, ◌++◌, IfNone, IfSome, None, Some, length, remove, slice_get, slice_set};
ghost use Rattle.expect_table.specs.Expectations.{without_master};
ghost use Rattle.history_book.specs.declared.event.Event.TheVariants.{Confirm};
ghost use Rattle.history_book.specs.Entry.{record_for};
ghost use Rattle.history_book.specs.Held.{held_for};
ghost use Rattle.history_book.specs.Record.{has_original, has_reply};
ghost use Rattle.history_book.specs.State.{live_under, state_of};
ghost use Rattle.book_desk.specs.Internal.Book.{Adds, WinsAt};
ghost use Rattle.book_desk.specs.Internal.Winner.{best_of, first_of};

use crate::book::Book;
use crate::holds::name_holds;
use history_book::event::Event;
use history_book::find::FoundAt;
use history_book::record::{Flow, Record};
use proto_rules::Part;
use tuple_core::{Direction, Tuple};

/// Which of the records seen so far a new flow may meet, by their indices. None of those seen has the
/// flow's original tuple as its original one: such a record is met at once.
#[derive(Clone, Copy)]
struct Candidates {
    /// The first whose reply tuple is the flow's original one.
    original_by_reply: Option<usize>,
    /// The first whose original tuple is the flow's reply one.
    reply_by_original: Option<usize>,
    /// The first whose reply tuple is the flow's reply one.
    reply_by_reply: Option<usize>,
}

impl Candidates {
    /// Remembers the record at `index` under each tuple that it is the first to have.
    fn see(&mut self, index: usize, r: &Record, original: &Tuple, reply: &Tuple)
        ensures original_by_reply { self.new.original_by_reply
            ≡ first_of self.old.original_by_reply (has_reply original.now r.now) index }
        ensures reply_by_original { self.new.reply_by_original
            ≡ first_of self.old.reply_by_original (has_original reply.now r.now) index }
        ensures reply_by_reply { self.new.reply_by_reply
            ≡ first_of self.old.reply_by_reply (has_reply reply.now r.now) index }
    {
        self.original_by_reply = first(self.original_by_reply, r.reply == *original, index);
        self.reply_by_original = first(self.reply_by_original, r.original == *reply, index);
        self.reply_by_reply = first(self.reply_by_reply, r.reply == *reply, index);
    }

    /// The candidate that the flow meets: the one that has the flow's original tuple, else the one that
    /// has the flow's reply tuple as its original one, else the one that has it as its reply one.
    fn best(&self) -> Option<FoundAt>
        ensures { result ≡ best_of self.now }
    {
        if let Some(index) = self.original_by_reply {
            Some(FoundAt {
                index,
                direction: Direction::Reply,
            })
        } else if let Some(index) = self.reply_by_original {
            Some(FoundAt {
                index,
                direction: Direction::Original,
            })
        } else if let Some(index) = self.reply_by_reply {
            Some(FoundAt {
                index,
                direction: Direction::Reply,
            })
        } else {
            None
        }
    }
}

/// The index that is remembered, else this one where its record passes.
fn first(remembered: Option<usize>, passes: bool, index: usize) -> Option<usize>
    ensures { result ≡ first_of remembered passes index }
{
    match remembered {
        Some(before) => Some(before),
        None if passes => Some(index),
        None => None,
    }
}

/// Whether the record has the tuple as its original one.
fn is_original_of(t: &Tuple, r: &Record) -> bool
    ensures { result ≡ has_original t.now r.now }
{
    r.original == *t
}

/// The record that a new flow with these tuples meets. Takes one pass over the records.
pub fn winner(records: &[Record], original: &Tuple, reply: &Tuple) -> Option<FoundAt>
    ensures original { IfNone result (live_under original.now (state_of records.now) ≡ None) }
    ensures reply { IfNone result (live_under reply.now (state_of records.now) ≡ None) }
    ensures wins { IfSome result (WinsAt original.now reply.now (state_of records.now)) }
{
    let mut candidates = Candidates {
        original_by_reply: None,
        reply_by_original: None,
        reply_by_reply: None,
    };
    for (index, r) in records.iter().enumerate() {
        if is_original_of(original, r) {
            return Some(FoundAt {
                index,
                direction: Direction::Original,
            });
        }
        candidates.see(index, r, original, reply);
    }
    candidates.best()
}

/// Whether the tuples of the record are the flow's.
pub fn is_same_flow(r: &Record, flow: &Flow) -> bool
    ensures { result ≡ (has_original flow.now.original r.now && has_reply flow.now.reply r.now) }
{
    r.original == flow.original && r.reply == flow.reply
}

impl Book {
    /// Confirms a new entry of a flow, and makes the references to its place ones for it.
    pub fn enter(&mut self, place: u32, flow: &Flow) -> Event
        requires few { self.old.events < 2 ^ 40 }
        requires records_room { length self.old.records.items < self.old.records.room }
        ensures event { result ≡ Confirm (record_for flow.now self.old.events place) }
        ensures adds { Adds self.old self.new }
        ensures records { self.new.records.items
            ≡ self.old.records.items ++ record_for flow.now self.old.events place ∷ [] }
        ensures holds { self.new.holds.items ≡ held_for place self.old.events self.old.holds.items }
        ensures expects { self.new.expects ≡ self.old.expects }
    {
        let id = self.count_event();
        let subject = Record {
            id,
            place,
            original: flow.original,
            reply: flow.reply,
            part: flow.part,
            helper: flow.helper,
            master: flow.master,
        };
        self.records.push(subject);
        name_holds(&mut self.holds, place, id);
        Event::Confirm { subject }
    }

    /// Gives the record at `index`, which is `before`, the part with which a packet leaves it.
    pub fn refresh(&mut self, index: usize, before: &Record, after: Part)
        requires few { self.old.events < 2 ^ 40 }
        requires item { slice_get self.old.records.items index ≡ Some before.now }
        ensures adds { Adds self.old self.new }
        ensures records { self.new.records.items
            ≡ slice_set self.old.records.items index (record before.now { part = after }) }
        ensures holds { self.new.holds ≡ self.old.holds }
        ensures expects { self.new.expects ≡ self.old.expects }
    {
        let _ = self.count_event();
        self.records.set(
            index,
            Record {
                part: after,
                ..*before
            },
        );
    }

    /// Destroys the record at `index`, which is `subject`, and ends what was expected for it.
    pub fn destroy(&mut self, index: usize, subject: &Record)
        requires few { self.old.events < 2 ^ 40 }
        requires item { slice_get self.old.records.items index ≡ Some subject.now }
        ensures adds { Adds self.old self.new }
        ensures records { self.new.records.items ≡ remove self.old.records.items index }
        ensures holds { self.new.holds ≡ self.old.holds }
        ensures expects { self.new.expects.items ≡ without_master subject.now.id self.old.expects.items }
    {
        let _ = self.count_event();
        let _ = self.records.remove(index);
        let _ = self.expects.remove_master(subject.id);
    }
}
