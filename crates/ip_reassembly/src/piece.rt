//! Pieces: frames that carry one whole fragment of a datagram.

ghost use Rattle.std.specs.Prelude.{◌≡◌, ◌+◌, ◌≤◌, ◌<◌, ◌-◌, length, IfSome};
ghost use Rattle.packet_headers.specs.Ipv4Header.{fragment_offset, has_ipv4_header, header_length, total_length};
ghost use Rattle.packet_headers.specs.ByteOrder.{big_u16_at, big_u32_at};
ghost use Rattle.ip_reassembly.specs.Piece.{data_length, has_part, is_last, key_at, link_header, part_at, piece_of};
ghost use Rattle.ip_reassembly.specs.Internal.Gathering.{IsPieceIn};

use byteorder::{BigEndian, ByteOrder};
use packet_headers::classify::classify;
use packet_headers::frame::{Frame, Link};
use packet_headers::packet::{Packet, Untracked};

/// The bytes of an Ethernet header.
const ETHERNET_HEADER: usize = 14;

/// The least bytes of an IPv4 header, and all of one without options.
pub const LEAST_HEADER: usize = 20;

/// The most bytes of data that a datagram can have behind a header without options.
const MOST_DATA: u32 = 65_515;

/// The bit before a fragment's offset: set where more fragments follow.
const MORE_FRAGMENTS: u16 = 0x2000;

/// What tells the fragments of one datagram from those of others (RFC 791, section 3.2).
#[derive(Clone, Copy, PartialEq, Eq, PartialOrd, Ord)]
pub struct Key {
    pub source: u32,
    pub destination: u32,
    pub protocol: u8,
    pub identification: u16,
}

/// Bytes of a datagram's data that stand in a capture.
#[derive(Clone, Copy)]
pub struct Part {
    /// The place in the data of the first byte.
    pub low: u32,
    /// The place behind the last one.
    pub high: u32,
    /// The offset in the capture of the first byte.
    pub start: usize,
}

/// A frame that carries one fragment, all of it captured.
#[derive(Clone, Copy)]
pub struct Piece {
    pub key: Key,
    /// Microseconds since 1970.
    pub moment: u64,
    pub part: Part,
    /// No fragment follows.
    pub last: bool,
    /// The offset in the capture of the IP header.
    pub header: usize,
}

/// The number in the two bytes at `at`, the highest first.
fn u16_at(bytes: &[u8], at: usize) -> u16
    requires { at + 2 ≤ length bytes.now }
    ensures { result ≡ big_u16_at bytes.now at }
{
    let (_, rest) = bytes.split_at(at);
    BigEndian::read_u16(rest)
}

/// The number in the four bytes at `at`, the highest first.
fn u32_at(bytes: &[u8], at: usize) -> u32
    requires { at + 4 ≤ length bytes.now }
    ensures { result ≡ big_u32_at bytes.now at }
{
    let (_, rest) = bytes.split_at(at);
    BigEndian::read_u32(rest)
}

/// The bytes before the IP packet of a frame.
fn link_header(link: Link) -> usize
    ensures { result ≡ link_header link }
{
    match link {
        Link::Ethernet => ETHERNET_HEADER,
        Link::Raw => 0,
    }
}

/// The bytes of the header at `at`.
fn header_length(bytes: &[u8], at: usize) -> u32
    requires { at < length bytes.now }
    ensures { result ≡ header_length bytes.now at }
{
    4 * u32::from(bytes[at] % 16)
}

/// The bytes of the packet at `at`, header and data.
fn total_length(bytes: &[u8], at: usize) -> u32
    requires { at + 4 ≤ length bytes.now }
    ensures { result ≡ total_length bytes.now at }
{
    u32::from(u16_at(bytes, at + 2))
}

/// The key of the packet at `at`.
fn key_at(bytes: &[u8], at: usize) -> Key
    requires { at + 20 ≤ length bytes.now }
    ensures { result ≡ key_at bytes.now at }
{
    Key {
        source: u32_at(bytes, at + 12),
        destination: u32_at(bytes, at + 16),
        protocol: bytes[at + 9],
        identification: u16_at(bytes, at + 4),
    }
}

/// Which bytes of the datagram's data the packet at `at` carries.
fn part_at(bytes: &[u8], at: usize) -> Part
    requires within { at + 20 ≤ length bytes.now }
    requires header { header_length bytes.now at ≤ total_length bytes.now at }
    ensures { result ≡ part_at bytes.now at }
{
    let header = header_length(bytes, at);
    let length = total_length(bytes, at) - header;
    let low = 8 * u32::from(u16_at(bytes, at + 6) % MORE_FRAGMENTS);
    Part {
        low,
        high: low + length,
        start: at + header as usize,
    }
}

/// Whether no fragment follows the packet at `at`.
fn is_last(bytes: &[u8], at: usize) -> bool
    requires { at + 20 ≤ length bytes.now }
    ensures { result ≡ is_last bytes.now at }
{
    u16_at(bytes, at + 6) / MORE_FRAGMENTS % 2 == 0
}

/// Whether the packet at `at`, of which `captured` bytes are there, was captured whole and carries data that a
/// fragment may carry.
fn has_part(bytes: &[u8], at: usize, captured: usize) -> bool
    requires { at + captured ≤ length bytes.now }
    ensures { result ≡ has_part bytes.now at captured }
{
    if captured < LEAST_HEADER {
        return false;
    }
    let header = header_length(bytes, at);
    let total = total_length(bytes, at);
    if header < 20 || header >= total || total as usize > captured {
        return false;
    }
    let part = part_at(bytes, at);
    let is_whole_units = is_last(bytes, at) || (total - header) % 8 == 0;
    is_whole_units && part.high <= MOST_DATA
}

/// The piece that a frame is, if it is one.
#[tactic(auto, unfolding(crate::specs::Piece::piece_of))]
pub fn piece_of(bytes: &[u8], frame: &Frame) -> Option<Piece>
    requires { frame.now.start + frame.now.captured ≤ length bytes.now }
    ensures exact { result ≡ piece_of bytes.now frame.now }
    ensures inside { IfSome result (IsPieceIn (length bytes.now)) }
{
    let Packet::Untracked(Untracked::Fragment) = classify(bytes, frame) else {
        return None;
    };
    let before = link_header(frame.link);
    let captured = (frame.captured as usize).saturating_sub(before);
    if captured < LEAST_HEADER {
        return None;
    }
    let at = frame.start + before;
    if !has_part(bytes, at, captured) {
        return None;
    }
    Some(Piece {
        key: key_at(bytes, at),
        moment: frame.moment,
        part: part_at(bytes, at),
        last: is_last(bytes, at),
        header: at,
    })
}
