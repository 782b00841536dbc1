//! What is expected.

/// A connection of TCP from one address to another, to this port. Addresses and the port are in host order.
#[derive(Clone, Copy)]
pub struct Want {
    pub src: u32,
    pub dst: u32,
    pub port: u16,
}

/// An expected connection: the number of its event, the entry for which it is expected, and the moment in
/// microseconds from which on it is no longer.
#[derive(Clone, Copy)]
pub struct Expectation {
    pub id: u64,
    pub master: u64,
    pub want: Want,
    /// The zone of the connection, which is that of the entry for which it is expected.
    pub zone: u16,
    pub deadline: u64,
}
