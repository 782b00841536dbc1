//! What a frame is to the tracker.

use crate::frame::Span;
use tuple_core::{Segment, Tuple};

/// Why a frame is not tracked.
#[derive(Clone, Copy)]
pub enum Untracked {
    /// It is no IPv4 packet.
    Link,
    /// It is a fragment.
    Fragment,
    /// Its protocol is none that is tracked.
    Protocol,
}

/// What the headers of a frame say.
#[derive(Clone, Copy)]
pub enum Packet {
    Untracked(Untracked),
    /// A header is cut, or wrong.
    Invalid,
    /// A packet of a flow.
    Flow {
        tuple: Tuple,
        segment: Segment,
        /// The bytes behind the TCP header that were captured; of the other protocols empty.
        payload: Span,
    },
    /// An ICMP error about a packet with the inner tuple, sent to this address.
    Error {
        inner: Tuple,
        outer_destination: u32,
    },
}
