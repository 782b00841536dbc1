//! What a pass knows.

use crate::book::Book;
use history_book::desk::Hold;
use history_book::event::{Event, Note};
use history_book::sizes::Sizes;
use std::collections::LinkedList;

/// What a pass knows of the shared book. No value of it is made.
pub struct TurnView {
    pub sizes: Sizes,
    /// The first of its shares, which are consecutive numbers.
    pub number: u64,
    pub shares: u64,
    /// The shares of passes that were joined to it.
    pub returned: u64,
    /// The first events of the one history, as far as it has seen it.
    pub front: LinkedList<Event>,
    /// What the pass had seen that it took in last. Only a load says that all events begin with this.
    pub told: LinkedList<Event>,
    pub own: LinkedList<Note>,
    /// The events of passes that were joined to it.
    pub gathered: LinkedList<Note>,
    pub held: LinkedList<Hold>,
    pub owed: LinkedList<u32>,
    /// 1 while it has the turn, else 0.
    pub turn: u64,
    /// The book as it was when the turn was taken.
    pub book: Option<Book>,
}
