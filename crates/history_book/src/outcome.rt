//! What the calls of a desk answer. `at` is the point of the history at which the answer was so: after
//! its first `at` events.

use crate::record::Record;
use tuple_core::Direction;

/// What is live under a tuple.
#[derive(Clone, Copy)]
pub enum FindOutcome {
    /// The entry of this id was live in this place, and the tuple names it in this direction, the
    /// original one first. The place is held for it.
    Found {
        place: u32,
        id: u64,
        direction: Direction,
        at: u64,
    },
    /// No live entry had the tuple in either direction.
    Absent {
        at: u64,
    },
}

/// How many entries were live at a point.
#[derive(Clone, Copy)]
pub struct LiveCount {
    pub live: u32,
    pub at: u64,
}

/// A place for a new entry.
#[derive(Clone, Copy)]
pub enum TakeOutcome {
    /// The place is held, and no entry is confirmed in it yet.
    Taken { place: u32 },
    /// No place was free.
    Full { at: u64 },
}

/// What became of a new entry.
#[derive(Clone, Copy)]
pub enum ConfirmOutcome {
    /// It is live, and this is its id. The place is held for it.
    Confirmed {
        id: u64,
    },
    /// The entry of this id was live. It has the flow's original tuple in this direction, or, where no
    /// entry has that, the flow's reply tuple. `both` says whether its two tuples are the flow's.
    Clash {
        id: u64,
        direction: Direction,
        both: bool,
        at: u64,
    },
}

/// What a packet did to an entry.
#[derive(Clone, Copy)]
pub enum TouchOutcome {
    /// The entry accepted it, by the event of this number; `before` is the entry as the packet found it.
    Touched { number: u64, before: Record },
    /// The step leaves the entry as it is.
    Ignored { at: u64 },
    /// The entry can't have such a packet in its state.
    Invalid { at: u64 },
    /// The packet begins a new connection in place of the closed one.
    Reopen { at: u64 },
    /// The packet resets the connection.
    Reset { at: u64 },
    /// The entry was expired.
    Expired { at: u64 },
    /// The entry was no longer live.
    Gone { at: u64 },
}

/// An entry as it stood.
#[derive(Clone, Copy)]
pub enum PeekOutcome {
    Seen { subject: Record, at: u64 },
    /// The entry was no longer live.
    Gone { at: u64 },
}

/// What became of an entry that was to be destroyed.
#[derive(Clone, Copy)]
pub enum KillOutcome {
    /// It was destroyed as it stood, by the event of this number.
    Killed { number: u64, subject: Record },
    /// It was no longer live.
    Gone { at: u64 },
    /// The reason is false of the entry as it stood.
    Not { subject: Record, at: u64 },
}

/// What stands in a place.
#[derive(Clone, Copy)]
pub enum HoldOutcome {
    /// The entry of this id was live in the place, which is held for it.
    Held { id: u64, at: u64 },
    /// No live entry had the place.
    Empty { at: u64 },
}

/// What became of a reference.
#[derive(Clone, Copy)]
pub enum ReleaseOutcome {
    /// Other references to the place are left: of this desk, of others, or of the live entry.
    Kept,
    /// This was the last reference: the place is owed, and to be recycled.
    Last,
}

/// What became of a connection that an entry was to expect.
#[derive(Clone, Copy)]
pub enum ExpectOutcome {
    /// It is expected, and this is its id. It takes the place of the older one of that entry, where it had one.
    Expected { id: u64, replaced: Option<u64> },
    /// The entry was no longer live.
    MasterGone { at: u64 },
    /// Another entry expects the same connection, and that is still awaited: this is the first such
    /// expectation.
    Clash { id: u64, at: u64 },
    /// The entry had none to replace, and there was no room for another.
    ExpectFull { at: u64 },
}

/// Whether a packet was expected.
#[derive(Clone, Copy)]
pub enum ClaimOutcome {
    /// It met this expectation of this entry, the first that it matched, by the event of this number.
    Claimed {
        number: u64,
        expectation: u64,
        master: u64,
    },
    /// It matched none.
    Unclaimed {
        at: u64,
    },
}

/// What became of an expectation that was to end.
#[derive(Clone, Copy)]
pub enum UnexpectOutcome {
    /// It ended, by the event of this number.
    Removed { number: u64 },
    /// There was none of that id.
    Gone { at: u64 },
    /// It was still awaited at the moment.
    Not { deadline: u64, at: u64 },
}
