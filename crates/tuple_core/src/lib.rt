//! Flows as connection tracking names them: a protocol, two addresses and what tells the flows
//! between these apart, in one direction; the inverse of that, which is the other direction; a tuple as
//! two words; and its bucket in a hash table.
#![tactic(auto)]

ghost use Rattle.std.specs.Prelude.{◌≡◌, IfErr, IfOk, is_ok, true};
ghost use Rattle.tuple_core.specs.Inverse.{inverse};
ghost use Rattle.tuple_core.specs.Laws.{InverseIsAnInvolution, InverseIsValid};
ghost use Rattle.tuple_core.specs.Tuple.{icmp_tuple, in_zone, is_query_type, is_valid, partner_of};

use std::alloc::AllocError;

mod bucket;
mod word_pair;

pub use bucket::{bucket_of, bucket_of_words};
pub use word_pair::{of_words, words, words_determine_the_tuple};

/// Memory was wanted and not there.
#[derive(Clone, Copy, Debug)]
pub struct NoMemory;

impl From<AllocError> for NoMemory {
    fn from(_error: AllocError) -> NoMemory {
        NoMemory
    }
}

/// A protocol that is tracked. Its number in the IP header (RFC 791) is 1, 6 or 17.
#[derive(Clone, Copy, PartialEq, Eq)]
pub enum Proto {
    Icmp,
    Tcp,
    Udp,
}

/// The way of a packet within its flow: as the flow's first packet, or against it.
#[derive(Clone, Copy)]
pub enum Direction {
    Original,
    Reply,
}

/// The kind of a TCP segment, by its flags (RFC 9293).
#[derive(Clone, Copy)]
pub enum Kind {
    /// SYN, and neither ACK nor RST.
    Syn,
    /// SYN and ACK, and no RST.
    SynAck,
    /// FIN, and neither SYN nor RST.
    Fin,
    /// Of SYN, FIN, ACK and RST only ACK.
    Ack,
    /// RST, whatever else is set.
    Rst,
    /// None of SYN, FIN, ACK and RST.
    Bare,
}

/// What a tracker reads of a packet besides its tuple.
#[derive(Clone, Copy)]
pub enum Segment {
    Tcp(Kind),
    Udp,
    /// The ICMP type (RFC 792).
    Icmp(u8),
}

/// One direction of a flow. All numbers are in host order.
#[derive(Clone, Copy, PartialEq, Eq)]
pub struct Tuple {
    pub proto: Proto,
    /// The zone of connection tracking: flows of different zones never meet.
    pub zone: u16,
    /// The source address.
    pub src: u32,
    /// The destination address.
    pub dst: u32,
    /// The source port; of ICMP the identifier.
    pub a: u16,
    /// The destination port; of ICMP the type times 256 plus the code.
    pub b: u16,
}

/// The ICMP type that was refused, since it makes no flow.
#[derive(Clone, Copy)]
pub struct BadIcmpType(pub u8);

impl Tuple {
    /// The tuple of an ICMP packet in zone 0, by its type, its code and its identifier. A type that neither
    /// asks nor answers is refused.
    pub fn icmp(src: u32, dst: u32, kind: u8, code: u8, id: u16) -> Result<Tuple, BadIcmpType>
        ensures makes_a_flow { is_ok result ≡ is_query_type kind }
        ensures exact { IfOk result (λ t. t ≡ icmp_tuple src dst kind code id) }
        ensures valid { IfOk result (λ t. is_valid t ≡ true) }
        ensures refused { IfErr result (λ error. error.0 ≡ kind) }
    {
        if !is_query(kind as u16) {
            return Err(BadIcmpType(kind));
        }
        Ok(Tuple {
            proto: Proto::Icmp,
            zone: 0,
            src,
            dst,
            a: id,
            b: kind as u16 * 256 + code as u16,
        })
    }

    /// The same tuple in another zone.
    pub fn in_zone(self, zone: u16) -> Tuple
        ensures exact { result ≡ in_zone zone self }
        ensures valid { is_valid result ≡ is_valid self }
    {
        Tuple { zone, ..self }
    }
}

/// The ICMP type that answers this one, or that this one answers (RFC 792; for the address mask, types
/// 17 and 18, RFC 950).
fn partner(kind: u16) -> u16
    ensures { result ≡ partner_of kind }
{
    match kind {
        0 => 8,
        8 => 0,
        13 => 14,
        14 => 13,
        15 => 16,
        16 => 15,
        17 => 18,
        18 => 17,
        _ => kind,
    }
}

/// Whether an ICMP type asks or answers, so that it makes a flow: RFC 1122, section 3.2.2, calls both
/// queries.
fn is_query(kind: u16) -> bool
    ensures { result ≡ is_query_type kind }
{
    matches!(kind, 0 | 8 | 13..=18)
}

/// Whether a tuple is valid: it is TCP or UDP, or its ICMP type asks or answers.
pub fn is_valid(t: &Tuple) -> bool
    ensures { result ≡ is_valid t.now }
{
    let Tuple {
        proto,
        zone: _zone,
        src: _src,
        dst: _dst,
        a: _a,
        b,
    } = *t;
    match proto {
        Proto::Icmp => is_query(b / 256),
        Proto::Tcp | Proto::Udp => true,
    }
}

/// The tuple of the packets that go the other way. Addresses and ports change places; of ICMP the
/// type becomes its partner, and the identifier and the code stay. The zone stays.
pub fn invert(t: &Tuple) -> Tuple
    requires { is_valid t.now ≡ true }
    ensures exact { result ≡ inverse t.now }
    ensures valid { is_valid result ≡ true }
{
    let (a, b) = match t.proto {
        Proto::Icmp => (t.a, partner(t.b / 256) * 256 + t.b % 256),
        Proto::Tcp | Proto::Udp => (t.b, t.a),
    };
    Tuple {
        proto: t.proto,
        zone: t.zone,
        src: t.dst,
        dst: t.src,
        a,
        b,
    }
}

/// Inverting twice gives the tuple back.
pub fn inverse_is_an_involution()
    ensures { InverseIsAnInvolution }
{}

/// The inverse of a valid tuple is valid.
pub fn inverse_is_valid()
    ensures { InverseIsValid }
{}
