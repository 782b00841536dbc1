//! A line from senders to a listener.

ghost use Rattle.std.specs.Prelude.{◌≡◌, ◌<◌, ◌≤◌, true, false, [], Some, length, map, slice_get, All, IfOk, OnOk};
ghost use Rattle.crossbeam_queue.specs.Passes.{ruled_capacity};
ghost use Rattle.event_listen.specs.Internal.{id_of};
ghost use Rattle.event_listen.specs.Line.{AreSendingsOf, HasSentNothing, IsFilled, IsHearingOf};

use crate::ear::Ear;
use crate::heard::Heard;
use crate::hearing::Hearing;
use crate::sending::{Sending, Sendings};
use crate::talk::{Ends, Queue};
use history_book::report::Notes;
use room_list::RoomList;
use std::alloc::Global;
use std::marker::Model;
use std::sync::Wait;
use std::sync::atomic::{AtomicBool, Ordering};
use tuple_core::NoMemory;

/// A line from senders to a listener: a queue for each sender.
#[derive(Drop)]
pub struct Line {
    alloc: Global,
    queues: Vec<Queue>,
    /// How many notes each queue holds at most.
    capacity: u32,
    hushed: AtomicBool,
}

impl Model for Line {
    ghost use Rattle.std.specs.Prelude.{◌≡◌, map, All};
    ghost use Rattle.crossbeam_queue.specs.Passes.{ruled_capacity};
    ghost use Rattle.event_listen.specs.Internal.{id_of};
    ghost use Rattle.event_listen.specs.Line.{LineSight};

    ghost Value = { LineSight };

    ghost view = { λ l. record { queues = map id_of l.queues.items; capacity = l.capacity } };

    ghost invariant = { λ l. All (λ q. ruled_capacity q ≡ l.capacity) l.queues.items };
}

/// A queue of this capacity, the listener's end of it, and that of the sender of this number.
fn connect(alloc: Global, sender: u32, capacity: u32) -> Result<(Queue, Ear, Sending), NoMemory>
    requires { 1 ≤ capacity }
    ensures queue { IfOk result (λ made. ruled_capacity made.0 ≡ capacity) }
    ensures ear { IfOk result (λ made. made.1 ≡ record { queue = id_of made.0; heard = [] }) }
    ensures sending { IfOk result (λ made. made.2 ≡ record {
      sender = sender;
      queue = id_of made.0;
      capacity = capacity;
      sent = [];
      full = false;
    }) }
{
    let (queue, mut end) = Queue::ruled(alloc, capacity as usize)?;
    let ear = Ear {
        end: queue.another::<Ends>(&mut end),
        notes: Notes::empty(alloc),
    };
    let sending = Sending {
        end,
        sender,
        capacity,
        count: 0,
        full: false,
    };
    Ok((queue, ear, sending))
}

impl Line {
    /// A line of so many senders, each with a queue of this capacity; the listener's end of it, and the senders' ends in
    /// order of sender.
    pub fn new(
        alloc: Global,
        senders: u32,
        capacity: u32,
    ) -> Result<(Line, Hearing, Sendings), NoMemory>
        requires some { 1 ≤ senders }
        requires few { senders ≤ 64 }
        requires capacity { 1 ≤ capacity }
        ensures senders { IfOk result (λ made. length made.0.queues ≡ senders) }
        ensures capacity { IfOk result (λ made. made.0.capacity ≡ capacity) }
        ensures hearing { IfOk result (λ made. IsHearingOf made.0 made.1) }
        ensures unheard { IfOk result (λ made. All (λ e. e.heard ≡ []) made.1) }
        ensures sendings { IfOk result (λ made. AreSendingsOf made.0 made.2.items) }
        ensures unsent { IfOk result (λ made. All HasSentNothing made.2.items) }
    {
        let count = senders as usize;
        let mut queues = Vec::with_capacity(alloc, count)?;
        let mut ears = Vec::with_capacity(alloc, count)?;
        let mut sendings = Sendings::new(alloc, count)?;
        'senders: for sender in 0..senders {
            let (queue, ear, sending) = connect(alloc, sender, capacity)?;
            queues.push_reserved(queue);
            ears.push_reserved(ear);
            sendings.push(sending);
        }
        let line = Line {
            alloc,
            queues,
            capacity,
            hushed: AtomicBool::new(false),
        };
        Ok((line, Hearing { ears }, sendings))
    }

    /// Ends listening, once the listener has found each queue empty.
    pub fn hush(&self) {
        self.hushed.store(true, Ordering::SeqCst);
    }

    /// Whether the line is hushed.
    pub(crate) fn is_hushed(&self) -> bool {
        self.hushed.load(Ordering::SeqCst)
    }

    /// The number of senders.
    pub(crate) fn senders(&self) -> usize
        ensures { result ≡ length self.now.queues }
    {
        self.queues.len()
    }

    /// The queue of a sender.
    pub(crate) fn queue(&self, sender: usize) -> &Queue
        requires { sender < length self.now.queues }
        ensures queue { slice_get self.now.queues sender ≡ Some (id_of result.now) }
        ensures capacity { ruled_capacity result.now ≡ self.now.capacity }
    {
        &self.queues[sender]
    }

    /// What each sender has sent, in its order, whole and once. It takes the rest of each queue.
    pub fn finish<R: Wait>(
        self,
        rt: &R,
        hearing: Hearing,
        mut sendings: Sendings,
    ) -> Result<Heard, NoMemory>
        requires hearing { IsHearingOf self hearing }
        requires sendings { AreSendingsOf self sendings.items }
        ensures whole { IfOk result (λ heard. heard ≡ map (λ s. s.sent) sendings.items) }
        ensures full { OnOk result (All IsFilled sendings.items) }
    {
        let Line {
            alloc,
            mut queues,
            ..
        } = self;
        let Hearing { mut ears } = hearing;
        let mut lists = RoomList::new(alloc, sendings.len())?;
        'senders: while let Some(sending) = sendings.pop() {
            let ear = ears.pop().unwrap();
            let queue = queues.pop().unwrap();
            lists.put_first(ear.finish(rt, &queue, sending)?);
        }
        Ok(Heard { lists })
    }
}
