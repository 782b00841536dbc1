//! What a run of the tracker gives.

use crate::answer::Answers;
use crate::event::Note;
pub use crate::order::History;
use crate::packed::PackedList;
use crate::short_note::ShortNote;
use crate::short_verdict::ShortVerdict;
use crate::verdict::Verdict;
use expect_table::expectation::Expectation;
use room_list::RoomList;

/// The events of one thread, in order of their numbers.
pub type Notes = PackedList<ShortNote, Note>;

/// The verdicts on the packets of one thread, in order.
pub type Verdicts = PackedList<ShortVerdict, Verdict>;

/// Expectations, in order of id.
pub type Expectations = RoomList<Expectation>;

/// The verdicts of each thread.
pub type ThreadVerdicts = RoomList<Verdicts>;

/// What a run gives: the one history, the number of entries that are live after it, the verdicts, and the answers to
/// the script.
#[derive(Drop)]
pub struct Report {
    pub history: History,
    pub live: u32,
    pub threads: ThreadVerdicts,
    pub answers: Answers,
}

/// What a tracker leaves at its end: the number of its events, how many entries are live after them, and
/// the events of the thread that ended it.
#[derive(Drop)]
pub struct Closed {
    pub events: u64,
    pub live: u32,
    pub notes: Notes,
}
