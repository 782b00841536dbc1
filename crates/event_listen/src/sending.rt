//! A sender's end of a line.

ghost use Rattle.std.specs.Prelude.{◌≡◌, ◌+◌, ◌<◌, ◌≤◌, ◌^◌, true, [], ◌∷◌, ◌++◌, length, slice_get, Some, IfOk, OnOk, OnErr, MatchBool, MatchOption};
ghost use Rattle.event_listen.specs.Line.{IsSendingOf};
ghost use Rattle.event_listen.specs.Pump.{BeginsWith, PumpSays};

use crate::line::Line;
use crate::talk::{End, Sent};
use history_book::desk::Desk;
use history_book::event::Note;
use std::alloc::Global;
use std::marker::Model;
use std::sync::Wait;
use tuple_core::NoMemory;

/// What became of a thread's own events.
#[derive(Clone, Copy)]
pub enum Pumped {
    /// Every one is sent.
    All,
    /// One is not, since the queue was full.
    Full,
}

/// A sender's end of a line.
#[derive(Drop)]
pub struct Sending {
    pub(crate) end: End,
    pub(crate) sender: u32,
    /// How many notes its queue holds at most.
    pub(crate) capacity: u32,
    /// How many notes it has sent.
    pub(crate) count: u64,
    /// Whether it has ever answered `Full`.
    pub(crate) full: bool,
}

impl Model for Sending {
    ghost use Rattle.event_listen.specs.Internal.{IsSender, sent_by};
    ghost use Rattle.event_listen.specs.Line.{SendingSight};

    ghost Value = { SendingSight };

    ghost view = { λ s. record {
      sender = s.sender;
      queue = s.end.table_id;
      capacity = s.capacity;
      sent = sent_by s.end;
      full = s.full;
    } };

    ghost invariant = { λ s. IsSender s.end s.capacity s.count s.full };
}

impl Sending {
    /// Sends the next own events of a desk whose first ones it has sent, in order, until none is left or its queue is
    /// full. Takes no memory. It waits for no room, but may wait behind a listener that has stalled within a step.
    #[inline(never)]
    pub fn pump<D: Desk, R: Wait>(&mut self, rt: &R, line: &Line, desk: &D) -> Pumped
        requires line { IsSendingOf line.now self.old }
        requires own { BeginsWith (D.sight desk.now).own self.old.sent }
        ensures { PumpSays (D.sight desk.now).own self.old self.new result }
    {
        'events: for index in self.sent()..desk.made() {
            if !self.send(rt, line, desk.own(index)) {
                return Pumped::Full;
            }
        }
        Pumped::All
    }

    /// How many notes it has sent.
    pub fn sent(&self) -> u64
        ensures { result ≡ length self.now.sent }
    {
        self.count
    }

    /// Sends one note, and says whether it did: it does not where its queue is full.
    fn send<R: Wait>(&mut self, rt: &R, line: &Line, note: Note) -> bool
        requires line { IsSendingOf line.now self.old }
        requires few { length self.old.sent < 2 ^ 30 }
        ensures { MatchBool result
            (self.new ≡ record self.old { sent = self.old.sent ++ note ∷ [] })
            ((self.new ≡ record self.old { full = true }) × (self.old.capacity ≤ length self.old.sent)) }
    {
        let queue = line.queue(self.sender as usize);
        match queue.push_as::<Sent, R>(rt, &mut self.end, note) {
            Ok(()) => {
                self.count += 1;
                true
            }
            Err(_) => {
                self.full = true;
                false
            }
        }
    }
}

/// The senders' ends of a line. Contracts see a list with its room.
#[derive(Drop)]
pub struct Sendings {
    items: Vec<Sending>,
}

impl Model for Sendings {
    ghost use Rattle.std.specs.Vec.{vec_capacity, vec_len};
    ghost use Rattle.std.specs.Prelude.{◌≤◌};
    ghost use Rattle.room_list.specs.Roomed.{Roomed};
    ghost use Rattle.event_listen.specs.Line.{SendingSight};

    ghost Value = { Roomed SendingSight };

    ghost view = { λ l. record { items = l.items.items; room = vec_capacity l.items } };

    ghost invariant = { λ l. vec_len l.items ≤ vec_capacity l.items };
}

impl Sendings {
    /// An empty list with room for at least `room` ends.
    pub fn new(alloc: Global, room: usize) -> Result<Sendings, NoMemory>
        ensures empty { IfOk result (λ l. l.items ≡ []) }
        ensures room { IfOk result (λ l. room ≤ l.room) }
    {
        let items = Vec::with_capacity(alloc, room)?;
        Ok(Sendings { items })
    }

    /// Makes room for at least `more` further ends.
    pub fn reserve(&mut self, more: usize) -> Result<(), NoMemory>
        ensures items { self.new.items ≡ self.old.items }
        ensures room { OnOk result (length self.old.items + more ≤ self.new.room) }
        ensures kept { self.old.room ≤ self.new.room }
        ensures err { OnErr result (self.new.room ≡ self.old.room) }
    {
        self.items.try_reserve(more)?;
        Ok(())
    }

    /// Appends one end. Takes no memory.
    pub fn push(&mut self, sending: Sending)
        requires { length self.old.items < self.old.room }
        ensures items { self.new.items ≡ self.old.items ++ sending ∷ [] }
        ensures room { self.new.room ≡ self.old.room }
    {
        self.items.push_reserved(sending);
    }

    /// Takes out the last end, if there is any.
    pub fn pop(&mut self) -> Option<Sending>
        ensures item { MatchOption result
            ((self.old.items ≡ []) × (self.new.items ≡ []))
            (λ sending. self.old.items ≡ self.new.items ++ sending ∷ []) }
        ensures room { self.new.room ≡ self.old.room }
        ensures fits { length self.old.items ≤ self.old.room }
    {
        self.items.pop()
    }

    /// Takes out the first end, if there is any; the others move up.
    pub fn take_first(&mut self) -> Option<Sending>
        ensures item { MatchOption result
            ((self.old.items ≡ []) × (self.new.items ≡ []))
            (λ sending. self.old.items ≡ sending ∷ self.new.items) }
        ensures room { self.new.room ≡ self.old.room }
    {
        if self.items.is_empty() {
            return None;
        }
        Some(self.items.remove(0))
    }

    /// The number of ends.
    pub fn len(&self) -> usize
        ensures exact { result ≡ length self.now.items }
        ensures fits { result ≤ self.now.room }
    {
        self.items.len()
    }

    /// The end at `index`.
    pub fn at(&self, index: usize) -> &Sending
        requires { index < length self.now.items }
        ensures { slice_get self.now.items index ≡ Some result.now }
    {
        &self.items[index]
    }

    /// Takes all ends out and keeps the room. Takes no memory.
    pub fn clear(&mut self)
        ensures items { self.new.items ≡ [] }
        ensures room { self.new.room ≡ self.old.room }
    {
        self.items.clear();
    }
}
