//! Packets as data, and their bytes.

use std::alloc::AllocError;

/// The ends of a flow between two hosts, in host order.
#[derive(Clone, Copy)]
pub struct Ends {
    pub src: u32,
    pub sport: u16,
    pub dst: u32,
    pub dport: u16,
}

/// The control bits of TCP, by their values.
pub const FIN: u8 = 0x01;

pub const SYN: u8 = 0x02;

pub const RST: u8 = 0x04;

pub const PSH: u8 = 0x08;

pub const ACK: u8 = 0x10;

/// A packet of IP.
#[derive(Clone, Copy)]
pub enum IpPacket<'p> {
    /// These bytes.
    Raw(&'p [u8]),
    /// These bytes, with others at some places.
    Changed(&'p [u8], &'p [(usize, u8)]),
    /// UDP with four bytes of data.
    Udp(Ends),
    /// A segment of TCP with these control bits and this data.
    Tcp(Ends, u8, &'p [u8]),
    /// A segment of TCP with these sequence and acknowledgment numbers, control bits, and this data.
    Segment(Ends, u32, u32, u8, &'p [u8]),
    /// A message of ICMP from one host to another, of this type and with this identifier.
    Echo(u32, u32, u8, u8),
    /// The word of the inner packet's destination to this host that the port is unreachable, with the packet of
    /// UDP in it.
    Unreachable(u32, Ends),
}

/// A packet at a time in seconds and microseconds.
pub type Sent<'p> = (u32, u32, IpPacket<'p>);

/// A query of UDP from 10.0.0.1:5000 to 10.0.0.2:53.
pub const QUERY: IpPacket<'static> = IpPacket::Udp(Ends {
    src: 0x0a00_0001,
    sport: 5000,
    dst: 0x0a00_0002,
    dport: 53,
});

/// The answer to the query.
pub const ANSWER: IpPacket<'static> = IpPacket::Udp(Ends {
    src: 0x0a00_0002,
    sport: 53,
    dst: 0x0a00_0001,
    dport: 5000,
});

/// Adds these bytes, with others at some places.
pub fn push_changed(
    bytes: &mut Vec<u8>,
    from: &[u8],
    changes: &[(usize, u8)],
) -> Result<(), AllocError> {
    for (at, byte) in from.iter().enumerate() {
        bytes.push(changed_at(at, *byte, changes))?;
    }
    Ok(())
}

/// The byte, or the other that stands at its place.
fn changed_at(at: usize, byte: u8, changes: &[(usize, u8)]) -> u8 {
    let mut value = byte;
    for (place, other) in changes {
        if *place == at {
            value = *other;
        }
    }
    value
}

/// Adds a header of IP.
fn push_ip(
    bytes: &mut Vec<u8>,
    proto: u8,
    length: u16,
    src: u32,
    dst: u32,
) -> Result<(), AllocError> {
    let [high, low] = length.to_be_bytes();
    bytes.extend_from_slice(&[0x45, 0, high, low, 0, 0, 0, 0, 0x40, proto, 0, 0])?;
    bytes.extend_from_slice(&src.to_be_bytes())?;
    bytes.extend_from_slice(&dst.to_be_bytes())
}

/// Adds the header of IP of a packet between these ends, and its ports.
fn push_ports(bytes: &mut Vec<u8>, proto: u8, length: u16, ends: &Ends) -> Result<(), AllocError> {
    push_ip(bytes, proto, length, ends.src, ends.dst)?;
    bytes.extend_from_slice(&ends.sport.to_be_bytes())?;
    bytes.extend_from_slice(&ends.dport.to_be_bytes())
}

/// Adds a segment of TCP.
fn push_segment(
    bytes: &mut Vec<u8>,
    ends: &Ends,
    seq: u32,
    ack: u32,
    flags: u8,
    data: &[u8],
) -> Result<(), AllocError> {
    push_ports(bytes, 6, 40 + (data.len() % 1000) as u16, ends)?;
    bytes.extend_from_slice(&seq.to_be_bytes())?;
    bytes.extend_from_slice(&ack.to_be_bytes())?;
    bytes.extend_from_slice(&[0x50, flags, 0, 0, 0, 0, 0, 0])?;
    bytes.extend_from_slice(data)
}

/// Adds a message of ICMP that a port is unreachable.
fn push_unreachable(bytes: &mut Vec<u8>, to: u32, inner: &Ends) -> Result<(), AllocError> {
    push_ip(bytes, 1, 56, inner.dst, to)?;
    bytes.extend_from_slice(&[3, 3, 0, 0, 0, 0, 0, 0])?;
    push_ports(bytes, 17, 32, inner)?;
    bytes.extend_from_slice(&[0, 12, 0, 0])
}

/// Adds the packet's bytes.
pub fn push_packet(bytes: &mut Vec<u8>, packet: &IpPacket<'_>) -> Result<(), AllocError> {
    match packet {
        IpPacket::Raw(from) => bytes.extend_from_slice(from),
        IpPacket::Changed(from, changes) => push_changed(bytes, from, changes),
        IpPacket::Udp(ends) => {
            push_ports(bytes, 17, 32, ends)?;
            bytes.extend_from_slice(&[0, 12, 0, 0, 0, 0, 0, 0])
        }
        IpPacket::Tcp(ends, flags, data) => push_segment(bytes, ends, 0, 0, *flags, data),
        IpPacket::Segment(ends, seq, ack, flags, data) => {
            push_segment(bytes, ends, *seq, *ack, *flags, data)
        }
        IpPacket::Echo(src, dst, kind, id) => {
            push_ip(bytes, 1, 28, *src, *dst)?;
            bytes.extend_from_slice(&[*kind, 0, 0, 0, 0, *id, 0, 0])
        }
        IpPacket::Unreachable(to, inner) => push_unreachable(bytes, *to, inner),
    }
}
