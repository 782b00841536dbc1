//! The rule of a sender's queue, and what its steps tell.

ghost use Rattle.std.specs.Prelude.{◌≡◌, ◌+◌, ◌≤◌, true, [], ◌∷◌, ◌++◌, length};
ghost use Rattle.event_listen.specs.Order.{talk};

use crossbeam_queue::protocol::{Join, Lesson, Outcome, Protocol, Split};
use crossbeam_queue::{Pass, RuledArrayQueue};
use history_book::event::Note;
use std::collections::LinkedList;

/// What a pass may do, and what it has sent and heard. No value of it is made.
pub struct Talk {
    pub sends: bool,
    pub hears: bool,
    pub sent: LinkedList<Note>,
    pub heard: LinkedList<Note>,
}

/// What holds between any two steps.
pub struct InOrder;

impl Protocol<Note, Talk> for InOrder {
    ghost use Rattle.std.specs.Prelude.{true, []};
    ghost use Rattle.event_listen.specs.Order.{IsInOrder, talk};

    ghost holds = { IsInOrder };

    ghost first = { talk true true [] [] };
}

/// A sender's queue.
pub type Queue = RuledArrayQueue<Note, Talk, InOrder>;

/// An end of a queue.
pub type End = Pass<Note, Talk>;

/// The first end becomes the sender's and the listener's; at last the listener's takes in the sender's.
pub struct Ends;

impl Split<Talk> for Ends {
    ghost use Rattle.std.specs.Prelude.{true, false, []};
    ghost use Rattle.event_listen.specs.Order.{talk};

    ghost left = { λ v. talk true false v.sent [] };

    ghost right = { λ v. talk false true [] v.heard };
}

impl Join<Talk> for Ends {
    ghost use Rattle.std.specs.Prelude.{true, false, []};
    ghost use Rattle.event_listen.specs.Order.{talk};

    ghost both = { λ v w. talk true true w.sent v.heard };

    ghost spent = { talk false false [] [] };
}

/// A note was sent; where the queue was full, as many were sent as it holds.
pub struct Sent;

impl Outcome<Note, Talk> for Sent {
    ghost then = { λ v x w. w ≡ talk v.sends v.hears (v.sent ++ x ∷ []) v.heard };
}

impl Lesson<Note, Talk> for Sent {
    ghost fact = { λ v notes. length notes ≤ length v.sent };
}

/// A note was heard; an end that is both ends knows what is left in the queue.
pub struct Taken;

impl Outcome<Note, Talk> for Taken {
    ghost then = { λ v x w. w ≡ talk v.sends v.hears v.sent (v.heard ++ x ∷ []) };
}

impl Lesson<Note, Talk> for Taken {
    ghost fact = { λ v notes. v.sends ≡ true → v.sent ≡ v.heard ++ notes };
}
