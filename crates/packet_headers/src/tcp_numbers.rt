//! The sequence and acknowledgment numbers of a TCP segment (RFC 9293).

ghost use Rattle.std.specs.Prelude.{◌≡◌, ◌+◌, ◌<◌, ◌≤◌, length};
ghost use Rattle.packet_headers.specs.TcpNumbers.{ip_place, link_header, numbers_at, tcp_numbers, tcp_place};

use crate::byte_order::big_u32_at;
use crate::classify::{ETHERNET_HEADER, classify, header_length};
use crate::frame::{Frame, Link};
use crate::packet::Packet;
use tuple_core::Segment;

/// The numbers of a segment. The acknowledgment number counts only where the segment has ACK.
#[derive(Clone, Copy)]
pub struct TcpNumbers {
    pub seq: u32,
    pub ack: u32,
}

/// How many bytes stand before an IP packet.
fn link_header(link: Link) -> usize
    ensures { result ≡ link_header link }
{
    match link {
        Link::Ethernet => ETHERNET_HEADER,
        Link::Raw => 0,
    }
}

/// The numbers in the header at `at`.
fn numbers_at(bytes: &[u8], at: usize) -> TcpNumbers
    requires { at + 12 ≤ length bytes.now }
    ensures { result ≡ numbers_at bytes.now at }
{
    TcpNumbers {
        seq: big_u32_at(bytes, at + 4),
        ack: big_u32_at(bytes, at + 8),
    }
}

/// The numbers of the segment that a frame is. There are none exactly where `classify` says that it is no packet of
/// a flow of TCP.
#[tactic(auto, unfolding(crate::specs::TcpNumbers::tcp_numbers))]
pub fn tcp_numbers(bytes: &[u8], frame: &Frame) -> Option<TcpNumbers>
    requires { frame.now.start + frame.now.captured ≤ length bytes.now }
    ensures { result ≡ tcp_numbers bytes.now frame.now }
{
    match classify(bytes, frame) {
        Packet::Flow {
            segment: Segment::Tcp(_),
            ..
        } => {
            let packet = frame.start + link_header(frame.link);
            Some(numbers_at(bytes, packet + header_length(bytes, packet)))
        }
        _ => None,
    }
}
