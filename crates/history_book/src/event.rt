//! The events of the tracker: each is one change of the table.

use crate::filter::Filter;
use crate::record::Record;
use expect_table::expectation::Expectation;
use proto_rules::Part;
use tuple_core::{Direction, Segment, Tuple};

/// Why an entry was destroyed.
#[derive(Clone, Copy)]
pub enum Why {
    /// Its deadline is at most the moment, in microseconds.
    Expired {
        moment: u64,
    },
    /// A segment in this direction began a new connection in place of the closed one.
    Reopened {
        direction: Direction,
        segment: Segment,
        moment: u64,
    },
    /// A segment, in either direction, reset the connection before a reply was seen.
    Reset {
        segment: Segment,
        moment: u64,
    },
    /// A command was to delete the entries that this filter selects, and it selects this one.
    Deleted {
        filter: Filter,
    },
    /// A command was to delete all entries.
    Flushed,
    /// A full table was to have room for a new flow at the moment, in microseconds, and the entry was expired
    /// then, or may be dropped.
    Dropped {
        moment: u64,
    },
}

/// One change of the table.
#[derive(Clone, Copy)]
pub enum Event {
    /// A new entry.
    Confirm {
        subject: Record,
    },
    /// A packet that an entry accepted; `after` is the entry's part from then on.
    Touch {
        id: u64,
        direction: Direction,
        segment: Segment,
        moment: u64,
        after: Part,
    },
    /// The end of an entry, and of what was expected for it.
    Destroy {
        id: u64,
        why: Why,
    },
    /// An entry expects a connection from a moment in microseconds on; `replaced` is the older
    /// expectation of the same master, which ends with that.
    Expect {
        expectation: Expectation,
        replaced: Option<u64>,
        moment: u64,
    },
    /// A packet with this tuple met, at a moment, the first expectation that it matches, which is of this
    /// master; it ends with that.
    Claim {
        expectation: u64,
        master: u64,
        tuple: Tuple,
        moment: u64,
    },
    /// The end of an expectation whose deadline was at most the moment.
    Unexpect {
        expectation: u64,
        moment: u64,
    },
}

/// An event with its number in the one history.
#[derive(Clone, Copy)]
pub struct Note {
    pub number: u64,
    pub event: Event,
}

/// An event of the history with its number, the thread that made it, and the index of the packet or command.
#[derive(Clone, Copy)]
pub struct Numbered {
    pub number: u64,
    pub thread: u32,
    pub index: u32,
    pub event: Event,
}
