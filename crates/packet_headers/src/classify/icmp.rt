//! The header of ICMP (RFC 792).

ghost use Rattle.std.specs.Prelude.{◌≡◌, ◌+◌, ◌≤◌, length, true, IfSome};
ghost use Rattle.tuple_core.specs.Tuple.{is_valid};
ghost use Rattle.packet_headers.specs.IcmpPacket.{icmp_packet};
ghost use Rattle.packet_headers.specs.ClassifySound.{IsSound};
ghost use Rattle.packet_headers.specs.Ipv4Header.{LiesIn};
ghost use Rattle.packet_headers.specs.IcmpHeader.{has_icmp_header, is_error_type, query_tuple};

use crate::byte_order::big_u16_at;
use crate::classify::icmp_error::icmp_error;
use crate::classify::ipv4::{Addresses, Ipv4Payload};
use crate::frame::Span;
use crate::packet::Packet;
use tuple_core::{Segment, Tuple};

/// The bytes of a header.
const HEADER: usize = 8;

/// The bytes of a header that have to be captured: those up to the identifier.
pub const LEAST_CAPTURED: usize = 6;

/// Whether a type is of an error: destination unreachable, source quench, redirect, time exceeded or
/// parameter problem.
#[inline(always)]
fn is_error_type(kind: u8) -> bool
    ensures { result ≡ is_error_type kind }
{
    matches!(kind, 3..=5 | 11 | 12)
}

/// Whether the payload has a header of ICMP, captured up to its identifier.
#[inline(always)]
fn has_icmp_header(payload: &Ipv4Payload) -> bool
    ensures { result ≡ has_icmp_header payload.now }
{
    payload.length >= HEADER && payload.captured >= LEAST_CAPTURED
}

/// The tuple of the message at `at`, if it asks or answers.
#[inline(always)]
pub fn query_tuple(addresses: Addresses, bytes: &[u8], at: usize) -> Option<Tuple>
    requires { at + 6 ≤ length bytes.now }
    ensures exact { result ≡ query_tuple addresses bytes.now at }
    ensures valid { IfSome result (λ tuple. is_valid tuple ≡ true) }
{
    let identifier = big_u16_at(bytes, at + 4);
    let (source, destination) = (addresses.source, addresses.destination);
    match Tuple::icmp(source, destination, bytes[at], bytes[at + 1], identifier) {
        Ok(tuple) => Some(tuple),
        Err(_) => None,
    }
}

/// The packet whose payload is of ICMP.
#[tactic(auto, unfolding(crate::specs::IcmpPacket::icmp_packet))]
#[inline(always)]
pub fn icmp_packet(bytes: &[u8], payload: &Ipv4Payload) -> Packet
    requires { LiesIn bytes.now payload.now }
    ensures exact { result ≡ icmp_packet bytes.now payload.now }
    ensures sound { IsSound bytes.now result }
{
    if !has_icmp_header(payload) {
        return Packet::Invalid;
    }
    let kind = bytes[payload.start];
    match query_tuple(payload.addresses, bytes, payload.start) {
        Some(tuple) => Packet::Flow {
            tuple,
            segment: Segment::Icmp(kind),
            payload: Span { start: 0, end: 0 },
        },
        None if is_error_type(kind) => icmp_error(bytes, payload),
        None => Packet::Invalid,
    }
}
