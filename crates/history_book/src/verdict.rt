//! What the tracker says of a packet.

use tuple_core::{Direction, Tuple};

/// How the reply tuple of a new entry was found.
#[derive(Clone, Copy)]
pub enum Translated {
    /// It is the inverse of the original tuple.
    Plain,
    /// A rule chose it. `kept_taken_at` is the point at which the flow's own port was taken, where it
    /// was tried and taken.
    Chosen {
        reply: Tuple,
        kept_taken_at: Option<u64>,
    },
}

/// What the payload of a packet led to.
#[derive(Clone, Copy)]
pub enum Ftp {
    /// It was not read, or names no end.
    Nothing,
    /// The entry expects the connection to the end, by the event of this number.
    Expected { id: u64 },
    /// It names an end at a foreign address.
    Address,
    /// At this point this expectation of another entry, the first such, was of the same connection and still awaited.
    Clash { id: u64, at: u64 },
    /// At this point the entry had none to replace, and there was no room.
    Full { at: u64 },
    /// At this point the entry was no longer live.
    Gone { at: u64 },
}

/// The state of a flow as a packet of it finds it.
#[derive(Clone, Copy)]
pub enum Label {
    New,
    Related,
    Established,
    EstablishedReply,
}

/// Why a packet is not tracked.
#[derive(Clone, Copy)]
pub enum UntrackedWhy {
    /// It is no IPv4 packet.
    Link,
    /// It is a fragment.
    Fragment,
    /// Its protocol is none that is tracked.
    Protocol,
}

/// What became of a packet. `at` is the point of the history at which that was so: after its first
/// `at` events.
#[derive(Clone, Copy)]
pub enum Class {
    /// It is not tracked.
    Untracked(UntrackedWhy),
    /// A header of it is cut, or wrong.
    BadHeader,
    /// It is of no entry, and no entry begins with such a packet.
    NoEntry {
        at: u64,
    },
    /// It is of this entry, and no packet that the entry can have in its state.
    BadState {
        id: u64,
        at: u64,
    },
    /// It is an ICMP error about a packet of no entry.
    ErrorLost {
        at: u64,
    },
    /// It is an ICMP error about a packet of this entry, sent to another address than that packet's source.
    ErrorAddress {
        id: u64,
        at: u64,
    },
    /// It is an ICMP error about a packet of this entry, which goes the way of this direction.
    Error {
        direction: Direction,
        id: u64,
        at: u64,
    },
    /// A new entry was confirmed for it. `unclaimed` is the point at which no expectation matched; none where
    /// one was claimed.
    Made {
        id: u64,
        at: u64,
        translated: Translated,
        unclaimed: Option<u64>,
    },
    /// The entry of its flow accepted it, or was reset by it.
    Passed {
        label: Label,
        id: u64,
        at: u64,
        ftp: Ftp,
    },
    /// It is of this entry, which let it pass and stayed as it was.
    Ignored {
        id: u64,
        at: u64,
    },
    /// It would begin the flow of this entry, of UDP, which another packet confirmed meanwhile.
    Merged {
        id: u64,
        at: u64,
        translated: Translated,
    },
    /// It would begin a flow, and this entry has one of the flow's tuples.
    Clash {
        id: u64,
        at: u64,
        translated: Translated,
    },
    /// It would begin a flow, and each number that its rule allows was taken at a point from `from` to `to`.
    NoPort {
        from: u64,
        to: u64,
    },
    /// It would begin a flow, and the table had no room at the point `from`; and then, up to `at`, no entry could be
    /// dropped for it, or one was dropped and the table was full again.
    Full {
        from: u64,
        at: u64,
    },
    /// Four times it ended an entry of its flow and found another, and this one was to end too.
    Contended {
        id: u64,
        at: u64,
    },
}

/// The verdict on one packet, and which of its thread's events belong to it: `made` of them, from
/// index `first`.
#[derive(Clone, Copy)]
pub struct Verdict {
    pub class: Class,
    pub first: u64,
    pub made: u8,
}
