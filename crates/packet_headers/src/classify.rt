//! What a frame is to the tracker, by its headers. Checksums are not looked at.

ghost use Rattle.std.specs.Prelude.{◌≡◌, ◌+◌, ◌≤◌, length, true};
ghost use Rattle.packet_headers.specs.Classify.{ethernet_frame, ip_packet, packet_of, packet_of_version};
ghost use Rattle.packet_headers.specs.ClassifySound.{has_valid_tuple, HasItsProtocol, HasPayloadIn, IsSound};

mod icmp;
mod icmp_error;
mod ipv4;
mod ports;
mod tcp;
mod udp;

use crate::byte_order::big_u16_at;
use crate::frame::{Frame, Link};
use crate::packet::{Packet, Untracked};
use icmp::icmp_packet;
pub(crate) use ipv4::header_length;
pub use ipv4::{Addresses, Ipv4Payload};
use ipv4::{has_ipv4_header, ipv4_payload, is_fragment, tracked_protocol};
use tcp::tcp_packet;
use tuple_core::Proto;
use udp::udp_packet;

/// The bytes of an Ethernet header: two addresses and a type.
pub(crate) const ETHERNET_HEADER: usize = 14;

/// The type of an Ethernet frame with an IPv4 packet (RFC 894).
const ETHERTYPE_IPV4: u16 = 0x0800;

/// A packet of another version than 4. With no link header it may be IPv6, which is not tracked.
fn packet_of_version(link: Link, version: u8) -> Packet
    ensures { result ≡ packet_of_version link version }
{
    match link {
        Link::Raw if version == 6 => Packet::Untracked(Untracked::Link),
        Link::Raw | Link::Ethernet => Packet::Invalid,
    }
}

/// The IP packet at `at`, of which `captured` bytes are there (RFC 791).
#[tactic(auto, unfolding(crate::specs::Classify::ip_packet))]
#[inline(always)]
fn ip_packet(link: Link, bytes: &[u8], at: usize, captured: usize) -> Packet
    requires { at + captured ≤ length bytes.now }
    ensures exact { result ≡ ip_packet link bytes.now at captured }
    ensures sound { IsSound bytes.now result }
{
    if captured == 0 {
        return Packet::Invalid;
    }
    let version = bytes[at] / 16;
    if version != 4 {
        return packet_of_version(link, version);
    }
    if !has_ipv4_header(bytes, at, captured) {
        return Packet::Invalid;
    }
    if is_fragment(bytes, at) {
        return Packet::Untracked(Untracked::Fragment);
    }
    let Some(proto) = tracked_protocol(bytes[at + 9]) else {
        return Packet::Untracked(Untracked::Protocol);
    };
    let payload = ipv4_payload(bytes, at, captured);
    match proto {
        Proto::Icmp => icmp_packet(bytes, &payload),
        Proto::Tcp => tcp_packet(bytes, &payload),
        Proto::Udp => udp_packet(bytes, &payload),
    }
}

/// The Ethernet frame at `at`, of which `captured` bytes are there.
#[tactic(auto, unfolding(crate::specs::Classify::ethernet_frame))]
#[inline(always)]
fn ethernet_frame(bytes: &[u8], at: usize, captured: usize) -> Packet
    requires { at + captured ≤ length bytes.now }
    ensures exact { result ≡ ethernet_frame bytes.now at captured }
    ensures sound { IsSound bytes.now result }
{
    if captured < ETHERNET_HEADER {
        return Packet::Invalid;
    }
    if big_u16_at(bytes, at + 12) != ETHERTYPE_IPV4 {
        return Packet::Untracked(Untracked::Link);
    }
    ip_packet(
        Link::Ethernet,
        bytes,
        at + ETHERNET_HEADER,
        captured - ETHERNET_HEADER,
    )
}

/// What the headers of a frame say.
#[tactic(auto, unfolding(crate::specs::Classify::packet_of))]
#[inline(always)]
pub fn classify(bytes: &[u8], frame: &Frame) -> Packet
    requires { frame.now.start + frame.now.captured ≤ length bytes.now }
    ensures exact { result ≡ packet_of bytes.now frame.now }
    ensures valid { has_valid_tuple result ≡ true }
    ensures protocol { HasItsProtocol result }
    ensures payload { HasPayloadIn bytes.now result }
{
    let captured = frame.captured as usize;
    match frame.link {
        Link::Ethernet => ethernet_frame(bytes, frame.start, captured),
        Link::Raw => ip_packet(Link::Raw, bytes, frame.start, captured),
    }
}
