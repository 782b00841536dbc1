//! The packet that an ICMP error is about (RFC 792).

ghost use Rattle.std.specs.Prelude.{◌≡◌, ◌+◌, ◌≤◌, length, true, IfSome};
ghost use Rattle.tuple_core.specs.Tuple.{is_valid};
ghost use Rattle.packet_headers.specs.ClassifySound.{IsSound};
ghost use Rattle.packet_headers.specs.Ipv4Header.{LiesIn};
ghost use Rattle.packet_headers.specs.Ports.{has_ports};
ghost use Rattle.packet_headers.specs.IcmpError.{has_inner_header, icmp_error, inner_ports, inner_query, inner_tuple};

use crate::classify::icmp::{LEAST_CAPTURED, query_tuple};
use crate::classify::ipv4::{
    Ipv4Payload, LEAST_HEADER, addresses_of, fragment_offset, header_length, tracked_protocol,
};
use crate::classify::ports::{PORTS, ports_tuple};
use crate::packet::Packet;
use tuple_core::{Proto, Tuple};

/// The bytes of an error's own header.
const HEADER: usize = 8;

/// The bytes behind the inner IPv4 header that an error repeats.
const REPEATED: usize = 8;

/// Whether the error repeats a right IPv4 header, whose fixed part is captured.
fn has_inner_header(bytes: &[u8], payload: &Ipv4Payload) -> bool
    requires { LiesIn bytes.now payload.now }
    ensures { result ≡ has_inner_header bytes.now payload.now }
{
    if payload.length < HEADER + LEAST_HEADER || payload.captured < HEADER + LEAST_HEADER {
        return false;
    }
    let at = payload.start + HEADER;
    bytes[at] / 16 == 4
        && header_length(bytes, at) >= LEAST_HEADER
        && HEADER + header_length(bytes, at) + REPEATED <= payload.length
        && fragment_offset(bytes, at) == 0
}

/// The tuple of the inner packet, which is of TCP or UDP, if its ports are captured.
fn inner_ports(proto: Proto, bytes: &[u8], payload: &Ipv4Payload) -> Option<Tuple>
    requires ports { has_ports proto ≡ true }
    requires captured { 28 ≤ payload.now.captured }
    requires lies { LiesIn bytes.now payload.now }
    ensures exact { result ≡ inner_ports proto bytes.now payload.now }
    ensures valid { IfSome result (λ tuple. is_valid tuple ≡ true) }
{
    let at = payload.start + HEADER;
    let header = header_length(bytes, at);
    if payload.captured < HEADER + header + PORTS {
        return None;
    }
    Some(ports_tuple(proto, addresses_of(bytes, at), bytes, at + header))
}

/// The tuple of the inner packet, which is of ICMP, if it asks or answers and its identifier is captured.
fn inner_query(bytes: &[u8], payload: &Ipv4Payload) -> Option<Tuple>
    requires captured { 28 ≤ payload.now.captured }
    requires lies { LiesIn bytes.now payload.now }
    ensures exact { result ≡ inner_query bytes.now payload.now }
    ensures valid { IfSome result (λ tuple. is_valid tuple ≡ true) }
{
    let at = payload.start + HEADER;
    let header = header_length(bytes, at);
    if payload.captured < HEADER + header + LEAST_CAPTURED {
        return None;
    }
    query_tuple(addresses_of(bytes, at), bytes, at + header)
}

/// The tuple of the packet that the error is about.
#[tactic(auto, unfolding(crate::specs::IcmpError::inner_tuple))]
fn inner_tuple(bytes: &[u8], payload: &Ipv4Payload) -> Option<Tuple>
    requires { LiesIn bytes.now payload.now }
    ensures exact { result ≡ inner_tuple bytes.now payload.now }
    ensures valid { IfSome result (λ tuple. is_valid tuple ≡ true) }
{
    if !has_inner_header(bytes, payload) {
        return None;
    }
    match tracked_protocol(bytes[payload.start + HEADER + 9])? {
        Proto::Icmp => inner_query(bytes, payload),
        Proto::Tcp => inner_ports(Proto::Tcp, bytes, payload),
        Proto::Udp => inner_ports(Proto::Udp, bytes, payload),
    }
}

/// The error whose payload this is.
#[cold]
pub fn icmp_error(bytes: &[u8], payload: &Ipv4Payload) -> Packet
    requires { LiesIn bytes.now payload.now }
    ensures exact { result ≡ icmp_error bytes.now payload.now }
    ensures sound { IsSound bytes.now result }
{
    match inner_tuple(bytes, payload) {
        None => Packet::Invalid,
        Some(inner) => Packet::Error {
            inner,
            outer_destination: payload.addresses.destination,
        },
    }
}
