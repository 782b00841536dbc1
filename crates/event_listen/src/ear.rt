//! The listener's end of one queue.

ghost use Rattle.std.specs.Prelude.{◌≡◌, ◌≤◌, true, false, Ok, length, IfOk, OnOk};
ghost use Rattle.crossbeam_queue.specs.Passes.{view, IsPassOf};
ghost use Rattle.event_listen.specs.Internal.{HasHeard, id_of};

use crate::sending::Sending;
use crate::talk::{End, Ends, Queue, Taken};
use history_book::report::Notes;
use std::marker::Model;
use std::sync::Wait;
use tuple_core::NoMemory;

/// The listener's end of one queue, and what was heard of its sender.
#[derive(Drop)]
pub struct Ear {
    pub(crate) end: End,
    pub(crate) notes: Notes,
}

impl Model for Ear {
    ghost use Rattle.event_listen.specs.Internal.{IsListener};
    ghost use Rattle.event_listen.specs.Line.{EarSight};

    ghost Value = { EarSight };

    ghost view = { λ e. record { queue = e.end.table_id; heard = e.notes.items } };

    ghost invariant = { λ e. IsListener e.end e.notes.items };
}

/// Hears one note, and says whether there was one. The list has room for it before it leaves the queue.
fn hear_note<R: Wait>(
    rt: &R,
    queue: &Queue,
    end: &mut End,
    notes: &mut Notes,
) -> Result<bool, NoMemory>
    requires queue { IsPassOf queue.now end.old }
    requires heard { HasHeard (view end.old) notes.old.items }
    ensures queue { IsPassOf queue.now end.new }
    ensures heard { HasHeard (view end.new) notes.new.items }
    ensures sends { (view end.new).sends ≡ (view end.old).sends }
    ensures sent { (view end.new).sent ≡ (view end.old).sent }
    ensures rest { result ≡ Ok false → (view end.new).sends ≡ true → (view end.new).sent ≡ notes.new.items }
{
    notes.reserve(1)?;
    match queue.pop_as::<Taken, R>(rt, end) {
        Some(note) => {
            notes.push(note);
            Ok(true)
        }
        None => Ok(false),
    }
}

/// Hears all that is left in the queue.
fn hear_rest<R: Wait>(
    rt: &R,
    queue: &Queue,
    end: &mut End,
    notes: &mut Notes,
) -> Result<(), NoMemory>
    requires queue { IsPassOf queue.now end.old }
    requires heard { HasHeard (view end.old) notes.old.items }
    requires sends { (view end.old).sends ≡ true }
    ensures { OnOk result (notes.new.items ≡ (view end.old).sent) }
{
    'notes: for _ in rt.forever() {
        if !hear_note(rt, queue, end, notes)? {
            return Ok(());
        }
    }
    unreachable!()
}

impl Ear {
    /// Hears one note, and says whether there was one.
    pub(crate) fn hear<R: Wait>(&mut self, rt: &R, queue: &Queue) -> Result<bool, NoMemory>
        requires { id_of queue.now ≡ self.old.queue }
        ensures { self.new.queue ≡ self.old.queue }
    {
        hear_note(rt, queue, &mut self.end, &mut self.notes)
    }

    /// Hears all that is left in the queue once its sender has ended.
    pub(crate) fn finish<R: Wait>(
        self,
        rt: &R,
        queue: &Queue,
        sending: Sending,
    ) -> Result<Notes, NoMemory>
        requires queue { id_of queue.now ≡ self.queue }
        requires sending { sending.queue ≡ self.queue }
        ensures whole { IfOk result (λ notes. notes.items ≡ sending.sent) }
        ensures filled { sending.full ≡ true → sending.capacity ≤ length sending.sent }
    {
        let Ear { mut end, mut notes } = self;
        let Sending { end: other, .. } = sending;
        queue.absorb::<Ends>(&mut end, other);
        hear_rest(rt, queue, &mut end, &mut notes)?;
        Ok(notes)
    }
}
