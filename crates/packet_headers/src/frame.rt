//! Where the packets of a capture lie.

use room_list::{Bytes, RoomList};

/// What stands before the IP packet of a frame (the link types of pcap 2.4).
#[derive(Clone, Copy)]
pub enum Link {
    /// Ethernet: 14 bytes of header.
    Ethernet,
    /// Nothing: the frame is an IP packet.
    Raw,
}

/// One record of a capture. Its bytes stay in the file.
#[derive(Clone, Copy)]
pub struct Frame {
    /// Microseconds since 1970.
    pub moment: u64,
    /// The offset in the file of the frame's first byte.
    pub start: usize,
    /// How many bytes of the frame the file has.
    pub captured: u32,
    /// How many bytes the frame had.
    pub original: u32,
    pub link: Link,
}

/// The frames of a capture, in the order of its records.
pub type Frames = RoomList<Frame>;

/// A capture as it was read: the bytes of its file, its frames, which lie in them, and the zone of their packets.
#[derive(Drop)]
pub struct Capture {
    pub bytes: Bytes,
    pub frames: Frames,
    pub zone: u16,
}

/// Captures, in the order in which the words name them.
pub type Captures = RoomList<Capture>;

/// Bytes of the file from `start` up to `end`, which is not among them. Where no
/// place is told both are 0.
#[derive(Clone, Copy)]
pub struct Span {
    pub start: usize,
    pub end: usize,
}
