//! What the tracker keeps of one entry.

use proto_rules::Part;
use tuple_core::Tuple;

/// One live entry. All but its part stays as it was confirmed.
#[derive(Clone, Copy)]
pub struct Record {
    /// The number of the Confirm event that made it.
    pub id: u64,
    /// The number of its slot of the pool.
    pub place: u32,
    /// The tuple of the packets in the original direction.
    pub original: Tuple,
    /// The tuple of the packets in the reply direction.
    pub reply: Tuple,
    pub part: Part,
    /// Whether its payload is read for expectations.
    pub helper: bool,
    /// The entry whose expectation it met, if it met one.
    pub master: Option<u64>,
}

/// What is to become an entry: all of a record but what its Confirm gives it.
#[derive(Clone, Copy)]
pub struct Flow {
    /// The tuple of the packets in the original direction.
    pub original: Tuple,
    /// The tuple of the packets in the reply direction.
    pub reply: Tuple,
    pub part: Part,
    /// Whether its payload is to be read for expectations.
    pub helper: bool,
    /// The entry whose expectation it met, if it met one.
    pub master: Option<u64>,
}
