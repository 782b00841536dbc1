//! How packets leave.

use room_list::{Bytes, RoomList};
use tuple_core::Direction;

/// The payload with which a packet leaves.
#[derive(Drop)]
pub enum NewText {
    /// As it came: the packet asked for no edit.
    Same,
    /// As it came: the edit that it asked for was refused.
    Kept,
    /// All of the new payload.
    Changed(Bytes),
}

/// One packet of a connection that has edits, and how it leaves.
#[derive(Drop)]
pub struct Rewrite {
    pub thread: u32,
    pub packet: u32,
    /// The entry of its connection.
    pub id: u64,
    pub direction: Direction,
    pub seq: u32,
    pub new_seq: u32,
    pub ack: u32,
    pub new_ack: u32,
    pub text: NewText,
}

/// Packets in the order of the events by which their entries let them pass.
pub type Rewrites = RoomList<Rewrite>;
