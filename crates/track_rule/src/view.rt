//! What a pass knows of the shared table, a part of it for each part of the rule. No value of these types is made: they
//! cost nothing when the program runs.

use expect_table::expectation::Expectation;
use history_book::event::{Event, Note};
use history_book::record::Record;
use history_book::sizes::Sizes;
use std::collections::LinkedList;

/// The shares of a pass.
pub struct Shares {
    pub sizes: Sizes,
    /// The first of its shares, which are consecutive numbers.
    pub first: u64,
    pub shares: u64,
    /// The shares of passes that were joined to it.
    pub returned: u64,
}

/// What it has seen and made of the one history.
pub struct Seen {
    /// The first events, as far as it has seen them.
    pub front: LinkedList<Event>,
    /// The fronts of passes that were joined to it, and of those that were joined to these.
    pub told: LinkedList<LinkedList<Event>>,
    pub own: LinkedList<Note>,
    /// The events of passes that were joined to it.
    pub gathered: LinkedList<Note>,
}

/// For what a pass keeps a reference.
pub enum Purpose {
    /// It took the place for a new entry.
    Taken,
    /// It looks what stands there.
    Testing,
    /// The entry of this id was live there.
    Shown(u64),
    /// The same, and the pass has seen its event.
    For(u64),
}

/// A reference to a place.
pub struct Keep {
    pub place: u32,
    pub purpose: Purpose,
}

/// The places of a pass, the newest first.
pub struct Places {
    pub held: LinkedList<Keep>,
    /// Places whose last reference this pass gave up, and which are not free yet.
    pub owed: LinkedList<u32>,
    /// Those of the owed ones whose phase the pass has set to FREE.
    pub clear: LinkedList<u32>,
    /// Places that the pass has taken and whose phase it has set to OWNED.
    pub owned: LinkedList<u32>,
    /// Places of which the pass carries the table's reference, in the middle of a commit, or behind a Destroy.
    pub carried: LinkedList<u32>,
    /// Those of the carried ones whose entry the pass has destroyed.
    pub ended: LinkedList<u32>,
}

/// The two words of a tuple.
pub struct Pair {
    pub first: u64,
    pub second: u64,
}

/// A link of a chain, and its tuple.
pub struct ChainLink {
    pub link: u64,
    pub pair: Pair,
    /// The id of the entry whose link it is, once that is confirmed. No word shows it.
    pub id: Option<u64>,
}

/// A bucket that a pass has shut, and its chain.
pub struct Shut {
    pub bucket: u32,
    pub chain: LinkedList<ChainLink>,
}

/// A link of a place that a pass has taken, or whose entry it has destroyed.
pub struct Hook {
    pub link: u64,
    pub pair: Pair,
    /// What the word of the next link has, where the pass stored it.
    pub next: Option<u64>,
    /// Whether the link stands in its chain.
    pub up: bool,
}

/// The buckets of a pass.
pub struct HeldBuckets {
    pub shut: LinkedList<Shut>,
    pub hooks: LinkedList<Hook>,
}

/// The turn of a record: its place, and the phase and the record as the pass knows them.
pub struct Hand {
    pub place: u32,
    pub phase: u64,
    pub subject: Option<Record>,
}

/// Whether a pass is in the middle of a commit.
pub enum Middle {
    Calm,
    /// The Confirm was made, and the phase is not LIVE yet.
    Born(Record),
    /// The phase is DEAD, and the Destroy is not made yet.
    Dying(Record),
}

/// The record that a pass has its turn of, and its commit.
pub struct Commit {
    pub hand: Option<Hand>,
    pub middle: Middle,
}

/// A link that was met, and what was read of its tuple.
pub struct MetLink {
    pub link: u64,
    pub first: Option<u64>,
    pub second: Option<u64>,
}

/// A walk along a chain without a lock.
pub struct Walk {
    pub bucket: u32,
    pub generation: u64,
    /// What was met, the newest first.
    pub met: LinkedList<MetLink>,
    /// Whether the end was met.
    pub ended: bool,
    /// How many events there were when the history word was loaded.
    pub at: Option<u64>,
    /// Whether something was met that shows that the generation has passed.
    pub passed: bool,
}

/// What a step found in a word, or what the pass stored there itself.
pub struct Reading {
    pub word: u64,
    pub value: u64,
    pub own: bool,
    /// The length of the free list, where the pass had its turn and read the history word, or made the first reference to a
    /// place of the list.
    pub free: Option<u64>,
}

/// What a pass knows.
pub struct View {
    pub passes: Shares,
    pub seen: Seen,
    pub places: Places,
    /// The free list, while the pass has its turn.
    pub free: Option<LinkedList<u32>>,
    pub buckets: HeldBuckets,
    pub commit: Commit,
    /// What is expected, while the pass has the turn of the expectations.
    pub expected: Option<LinkedList<Expectation>>,
    pub walk: Option<Walk>,
    /// The oldest first.
    pub readings: LinkedList<Reading>,
}
