//! What the tracker says to a command.

use crate::record::Record;
use crate::report::Expectations;
use room_list::RoomList;

/// An entry as it stood at a point of the history.
#[derive(Clone, Copy)]
pub struct Row {
    pub subject: Record,
    pub at: u64,
}

/// Entries, in order of id.
pub type Rows = RoomList<Row>;

/// What is said to a command.
#[derive(Drop)]
pub enum Said {
    /// The entries that it lists.
    Listed(Rows),
    /// What is expected.
    Expectations(Expectations),
    /// The entry that it looked up, if one was live.
    Got(Option<Row>),
    /// The entries that it destroyed, each as its Destroy found it, with the number of that event.
    Deleted(Rows),
    /// It destroyed entries: as many as it made events.
    Flushed,
    /// How many entries were live.
    Counted(u32),
    /// How many expired entries and expectations it ended.
    Expired { entries: u32, expectations: u32 },
}

/// The answer to a command: what is said, the points from which and up to which it was so, which of its thread's
/// events belong to it (`made` of them, from index `first`), and the moment in microseconds that it was given.
#[derive(Drop)]
pub struct Answer {
    pub said: Said,
    pub from: u64,
    pub to: u64,
    pub first: u64,
    pub made: u64,
    pub moment: u64,
}

/// The answers of a script, in the order of its commands.
pub type Answers = RoomList<Answer>;
