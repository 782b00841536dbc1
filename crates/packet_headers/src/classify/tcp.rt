//! The header of TCP (RFC 9293).

ghost use Rattle.std.specs.Prelude.{◌≡◌, ◌+◌, ◌<◌, ◌≤◌, length};
ghost use Rattle.packet_headers.specs.ClassifySound.{IsSound};
ghost use Rattle.packet_headers.specs.Ipv4Header.{LiesIn};
ghost use Rattle.packet_headers.specs.Span.{IsSpanIn};
ghost use Rattle.packet_headers.specs.TcpFlags.{flag, is_valid_flag_set, kind};
ghost use Rattle.packet_headers.specs.TcpHeader.{data_offset, has_tcp_header, tcp_packet, tcp_payload};

use crate::classify::ipv4::Ipv4Payload;
use crate::classify::ports::ports_tuple;
use crate::frame::Span;
use crate::packet::Packet;
use case_grid::flag_set_table;
use tuple_core::{Kind, Proto, Segment};

/// The least bytes of a header.
const LEAST_HEADER: usize = 20;

/// The bytes of a header that have to be captured: those up to the control bits.
const LEAST_CAPTURED: usize = 14;

/// FIN in the byte of the control bits: no more data from the sender.
const FIN: u8 = 0x01;

/// SYN in that byte: the sender's numbers begin.
const SYN: u8 = 0x02;

/// RST in that byte: the connection is reset.
const RST: u8 = 0x04;

/// ACK in that byte: the acknowledgment counts.
const ACK: u8 = 0x10;

/// URG in that byte: the urgent pointer counts.
const URG: u8 = 0x20;

/// The bytes of the header at `at`.
#[inline(always)]
fn data_offset(bytes: &[u8], at: usize) -> usize
    requires { at + 13 ≤ length bytes.now }
    ensures exact { result ≡ data_offset bytes.now at }
    ensures small { result ≤ 60 }
{
    4 * usize::from(bytes[at + 12] / 16)
}

/// 1 where a control bit is set.
#[inline(always)]
fn flag(flags: u8, value: u8) -> u8
    requires { 0 < value }
    ensures exact { result ≡ flag flags value }
    ensures small { result ≤ 1 }
{
    flags / value % 2
}

/// Whether a segment may have these control bits.
#[tactic(auto, unfolding(crate::specs::TcpFlags::is_valid_flag_set))]
#[inline(always)]
fn is_valid_flag_set(flags: u8) -> bool
    ensures { result ≡ is_valid_flag_set flags }
{
    let row = 2 * flag(flags, URG) + flag(flags, ACK);
    let column = 4 * flag(flags, RST) + 2 * flag(flags, SYN) + flag(flags, FIN);
    flag_set_table().at(usize::from(row), usize::from(column)) == 1
}

/// The kind of a segment, by its control bits.
#[tactic(auto, unfolding(crate::specs::TcpFlags::kind))]
#[inline(always)]
fn kind(flags: u8) -> Kind
    ensures { result ≡ kind flags }
{
    if flag(flags, RST) == 1 {
        Kind::Rst
    } else if flag(flags, SYN) == 1 && flag(flags, ACK) == 1 {
        Kind::SynAck
    } else if flag(flags, SYN) == 1 {
        Kind::Syn
    } else if flag(flags, FIN) == 1 {
        Kind::Fin
    } else if flag(flags, ACK) == 1 {
        Kind::Ack
    } else {
        Kind::Bare
    }
}

/// Whether the payload has a right header of TCP, captured up to its control bits.
#[inline(always)]
fn has_tcp_header(bytes: &[u8], payload: &Ipv4Payload) -> bool
    requires { LiesIn bytes.now payload.now }
    ensures { result ≡ has_tcp_header bytes.now payload.now }
{
    payload.length >= LEAST_HEADER
        && payload.captured >= LEAST_CAPTURED
        && data_offset(bytes, payload.start) >= LEAST_HEADER
        && data_offset(bytes, payload.start) <= payload.length
        && is_valid_flag_set(bytes[payload.start + 13])
}

/// The captured data of the segment.
#[inline(always)]
fn tcp_payload(bytes: &[u8], payload: &Ipv4Payload) -> Span
    requires captured { 14 ≤ payload.now.captured }
    requires lies { LiesIn bytes.now payload.now }
    ensures exact { result ≡ tcp_payload bytes.now payload.now }
    ensures within { IsSpanIn bytes.now result }
{
    let offset = data_offset(bytes, payload.start);
    if payload.captured < offset {
        Span { start: 0, end: 0 }
    } else {
        Span {
            start: payload.start + offset,
            end: payload.start + payload.captured,
        }
    }
}

/// The packet whose payload is of TCP.
#[tactic(auto, unfolding(crate::specs::TcpHeader::tcp_packet))]
#[inline(always)]
pub fn tcp_packet(bytes: &[u8], payload: &Ipv4Payload) -> Packet
    requires { LiesIn bytes.now payload.now }
    ensures exact { result ≡ tcp_packet bytes.now payload.now }
    ensures sound { IsSound bytes.now result }
{
    if !has_tcp_header(bytes, payload) {
        return Packet::Invalid;
    }
    Packet::Flow {
        tuple: ports_tuple(Proto::Tcp, payload.addresses, bytes, payload.start),
        segment: Segment::Tcp(kind(bytes[payload.start + 13])),
        payload: tcp_payload(bytes, payload),
    }
}
