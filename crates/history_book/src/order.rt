//! The one history as the order of the threads' events.

ghost use Rattle.std.specs.Prelude.{◌≡◌, ◌==◌, ◌+◌, ◌<◌, ◌≤◌, [], ◌∷◌, ◌++◌, All, IfOk, OnErr, OnOk, length, slice_get};
ghost use Rattle.history_book.specs.Internal.Order.{IsWithin, in_order, numbered_in};

use crate::event::{Note, Numbered};
use crate::report::Notes;
use room_list::RoomList;
use std::alloc::Global;
use std::marker::Model;
use tuple_core::NoMemory;

/// Where an event is from: its thread, which of the thread's events it is, and the index of the packet or command that
/// made it.
#[derive(Clone, Copy)]
pub struct Origin {
    pub thread: u32,
    pub note: u32,
    pub index: u32,
}

/// Origins of events.
pub type Order = RoomList<Origin>;

/// The events of the one history, as a list with room. Those that were merged stand in the lists of their threads, and the
/// history keeps where; those that were pushed stand behind them.
#[derive(Drop)]
pub struct History {
    lists: Vec<Notes>,
    order: Order,
    pushed: RoomList<Numbered>,
    len: usize,
    room: usize,
}

impl Model for History {
    ghost use Rattle.std.specs.Prelude.{◌++◌};
    ghost use Rattle.room_list.specs.Roomed.{Roomed};
    ghost use Rattle.history_book.specs.declared.event.Numbered.{Numbered};
    ghost use Rattle.history_book.specs.Internal.Order.{IsKept, in_order};

    ghost Value = { Roomed Numbered };

    ghost view = { λ h. record { items = in_order h.lists.items h.order.items ++ h.pushed.items; room = h.room } };

    ghost invariant = { λ h. IsKept h.lists.items h.order.items h.pushed h.len h.room };
}

/// The event of this origin.
#[inline(always)]
fn event_of(lists: &[Notes], origin: Origin) -> Numbered
    requires { IsWithin lists.now origin }
    ensures { result ≡ numbered_in lists.now origin }
{
    let Origin {
        thread,
        note,
        index,
    } = origin;
    let Note { number, event } = lists[thread as usize].at(note as usize);
    Numbered {
        number,
        thread,
        index,
        event,
    }
}

impl History {
    /// A history without events, which takes no memory.
    pub fn empty(alloc: Global) -> Self
        ensures { result.items ≡ [] }
    {
        History {
            lists: Vec::new(alloc),
            order: Order::empty(alloc),
            pushed: RoomList::empty(alloc),
            len: 0,
            room: 0,
        }
    }

    /// The events of these origins. It has no room for more, and none that `clear` would have to keep.
    pub(crate) fn of(lists: Vec<Notes>, order: Order) -> Self
        requires { All (IsWithin lists.items) order.items }
        ensures { result.items ≡ in_order lists.items order.items }
    {
        let pushed = RoomList::empty(*lists.allocator());
        let len = order.len();
        History {
            lists,
            order,
            pushed,
            len,
            room: 0,
        }
    }

    /// A history without events, with room for at least `room` events.
    pub fn new(alloc: Global, room: usize) -> Result<Self, NoMemory>
        ensures empty { IfOk result (λ h. h.items ≡ []) }
        ensures room { IfOk result (λ h. room ≤ h.room) }
    {
        let mut history = History::empty(alloc);
        history.reserve(room)?;
        Ok(history)
    }

    /// Makes room for at least `more` further events.
    pub fn reserve(&mut self, more: usize) -> Result<(), NoMemory>
        ensures items { self.new.items ≡ self.old.items }
        ensures room { OnOk result (length self.old.items + more ≤ self.new.room) }
        ensures kept { self.old.room ≤ self.new.room }
        ensures err { OnErr result (self.new.room ≡ self.old.room) }
    {
        let room = self.len.checked_add(more).ok_or(NoMemory)?;
        if self.room < room {
            self.pushed.reserve(room - self.pushed.len())?;
            self.room = room;
        }
        Ok(())
    }

    /// Appends an event, whatever its number. Takes no memory.
    pub fn push(&mut self, item: Numbered)
        requires { length self.old.items < self.old.room }
        ensures items { self.new.items ≡ self.old.items ++ item ∷ [] }
        ensures room { self.new.room ≡ self.old.room }
    {
        self.pushed.push(item);
        self.len += 1;
    }

    /// The number of events. A history that was merged may have more than it has room for.
    #[inline(always)]
    pub fn len(&self) -> usize
        ensures exact { result ≡ length self.now.items }
    {
        self.len
    }

    /// Whether there is no event.
    #[inline(always)]
    pub fn is_empty(&self) -> bool
        ensures { result ≡ (length self.now.items == 0) }
    {
        self.len == 0
    }

    /// A copy of the event at `index`.
    #[inline(always)]
    pub fn at(&self, index: usize) -> Numbered
        requires { index < length self.now.items }
        ensures { slice_get self.now.items index ≡ Some result }
    {
        let ordered = self.order.len();
        if index < ordered {
            event_of(self.lists.as_slice(), self.order.item(index))
        } else {
            self.pushed.item(index - ordered)
        }
    }

    /// Takes all events out and keeps the room. Takes no memory.
    pub fn clear(&mut self)
        ensures items { self.new.items ≡ [] }
        ensures room { self.new.room ≡ self.old.room }
    {
        self.lists.clear();
        self.order.clear();
        self.pushed.clear();
        self.len = 0;
    }
}
