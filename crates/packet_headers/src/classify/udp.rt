//! The header of UDP (RFC 768).

ghost use Rattle.std.specs.Prelude.{◌≡◌, ◌+◌, ◌≤◌, length};
ghost use Rattle.packet_headers.specs.ClassifySound.{IsSound};
ghost use Rattle.packet_headers.specs.Ipv4Header.{LiesIn};
ghost use Rattle.packet_headers.specs.UdpHeader.{has_udp_header, udp_length, udp_packet};

use crate::byte_order::big_u16_at;
use crate::classify::ipv4::Ipv4Payload;
use crate::classify::ports::ports_tuple;
use crate::frame::Span;
use crate::packet::Packet;
use tuple_core::{Proto, Segment};

/// The bytes of a header.
const HEADER: usize = 8;

/// The bytes of a header that have to be captured: all but the checksum.
const LEAST_CAPTURED: usize = 6;

/// The bytes of the datagram at `at`, header and data.
#[inline(always)]
fn udp_length(bytes: &[u8], at: usize) -> usize
    requires { at + 6 ≤ length bytes.now }
    ensures { result ≡ udp_length bytes.now at }
{
    usize::from(big_u16_at(bytes, at + 4))
}

/// Whether the payload has a right header of UDP, captured up to its length.
#[inline(always)]
fn has_udp_header(bytes: &[u8], payload: &Ipv4Payload) -> bool
    requires { LiesIn bytes.now payload.now }
    ensures { result ≡ has_udp_header bytes.now payload.now }
{
    payload.length >= HEADER
        && payload.captured >= LEAST_CAPTURED
        && udp_length(bytes, payload.start) >= HEADER
        && udp_length(bytes, payload.start) <= payload.length
}

/// The packet whose payload is of UDP.
#[tactic(auto, unfolding(crate::specs::UdpHeader::udp_packet))]
#[inline(always)]
pub fn udp_packet(bytes: &[u8], payload: &Ipv4Payload) -> Packet
    requires { LiesIn bytes.now payload.now }
    ensures exact { result ≡ udp_packet bytes.now payload.now }
    ensures sound { IsSound bytes.now result }
{
    if !has_udp_header(bytes, payload) {
        return Packet::Invalid;
    }
    Packet::Flow {
        tuple: ports_tuple(Proto::Udp, payload.addresses, bytes, payload.start),
        segment: Segment::Udp,
        payload: Span { start: 0, end: 0 },
    }
}
