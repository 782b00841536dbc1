//! The IPv4 header (RFC 791).

ghost use Rattle.std.specs.Prelude.{◌≡◌, ◌+◌, ◌<◌, ◌≤◌, length};
ghost use Rattle.packet_headers.specs.Ipv4Header.{addresses_of, ipv4_payload, has_ipv4_header, header_length, is_fragment, fragment_offset, total_length, tracked_protocol, LiesIn};

use crate::byte_order::{big_u16_at, big_u32_at};
use tuple_core::Proto;

/// The least bytes of a header: five words.
pub const LEAST_HEADER: usize = 20;

/// The bit before a fragment's offset: set where more fragments follow.
const MORE_FRAGMENTS: u16 = 0x2000;

/// The number of ICMP as a packet's protocol.
const ICMP: u8 = 1;

/// The number of TCP as a packet's protocol.
const TCP: u8 = 6;

/// The number of UDP as a packet's protocol.
const UDP: u8 = 17;

/// Whence a packet comes, and whither it goes.
#[derive(Clone, Copy)]
pub struct Addresses {
    pub source: u32,
    pub destination: u32,
}

/// What a packet carries behind its header.
#[derive(Clone, Copy)]
pub struct Ipv4Payload {
    /// The packet's addresses.
    pub addresses: Addresses,
    /// The offset of the first byte behind the header.
    pub start: usize,
    /// How many bytes the packet had there.
    pub length: usize,
    /// How many of these are there; none where the header itself was cut.
    pub captured: usize,
}

/// The bytes of the header at `at`.
#[inline(always)]
pub fn header_length(bytes: &[u8], at: usize) -> usize
    requires { at < length bytes.now }
    ensures exact { result ≡ header_length bytes.now at }
    ensures small { result ≤ 60 }
{
    4 * usize::from(bytes[at] % 16)
}

/// The bytes of the packet at `at`, header and data.
#[inline(always)]
fn total_length(bytes: &[u8], at: usize) -> usize
    requires { at + 4 ≤ length bytes.now }
    ensures { result ≡ total_length bytes.now at }
{
    usize::from(big_u16_at(bytes, at + 2))
}

/// Whether the header of the packet at `at` is right, and its fixed part among the captured bytes.
#[inline(always)]
pub fn has_ipv4_header(bytes: &[u8], at: usize, captured: usize) -> bool
    requires { at + captured ≤ length bytes.now }
    ensures { result ≡ has_ipv4_header bytes.now at captured }
{
    captured >= LEAST_HEADER
        && header_length(bytes, at) >= LEAST_HEADER
        && header_length(bytes, at) <= total_length(bytes, at)
}

/// The place of a fragment in its packet, in units of eight bytes.
#[inline(always)]
pub fn fragment_offset(bytes: &[u8], at: usize) -> u16
    requires { at + 20 ≤ length bytes.now }
    ensures { result ≡ fragment_offset bytes.now at }
{
    big_u16_at(bytes, at + 6) % MORE_FRAGMENTS
}

/// Whether the packet at `at` is a fragment: others follow, or others stand before it.
#[inline(always)]
pub fn is_fragment(bytes: &[u8], at: usize) -> bool
    requires { at + 20 ≤ length bytes.now }
    ensures { result ≡ is_fragment bytes.now at }
{
    let has_more = big_u16_at(bytes, at + 6) / MORE_FRAGMENTS % 2 != 0;
    has_more || fragment_offset(bytes, at) != 0
}

/// The protocol with this number, if it is tracked.
#[inline(always)]
pub fn tracked_protocol(number: u8) -> Option<Proto>
    ensures { result ≡ tracked_protocol number }
{
    match number {
        ICMP => Some(Proto::Icmp),
        TCP => Some(Proto::Tcp),
        UDP => Some(Proto::Udp),
        _ => None,
    }
}

/// The addresses of the packet at `at`.
#[inline(always)]
pub fn addresses_of(bytes: &[u8], at: usize) -> Addresses
    requires { at + 20 ≤ length bytes.now }
    ensures { result ≡ addresses_of bytes.now at }
{
    Addresses {
        source: big_u32_at(bytes, at + 12),
        destination: big_u32_at(bytes, at + 16),
    }
}

/// What the packet at `at` carries. `captured` of the packet's bytes are there.
#[inline(always)]
pub fn ipv4_payload(bytes: &[u8], at: usize, captured: usize) -> Ipv4Payload
    requires header { 20 ≤ captured }
    requires packet { header_length bytes.now at ≤ total_length bytes.now at }
    requires within { at + captured ≤ length bytes.now }
    ensures exact { result ≡ ipv4_payload bytes.now at captured }
    ensures lies { LiesIn bytes.now result }
{
    let header = header_length(bytes, at);
    let length = total_length(bytes, at) - header;
    Ipv4Payload {
        addresses: addresses_of(bytes, at),
        start: at + header,
        length,
        captured: length.min(captured.saturating_sub(header)),
    }
}
