//! Files as data, and their bytes.

use crate::packet::{Ends, IpPacket, Sent, push_changed, push_packet};
use std::alloc::{AllocError, Global};

/// The order of a capture's numbers, what its times count in, and whether its frames have an Ethernet header.
#[derive(Clone, Copy)]
pub struct Form {
    pub highest_first: bool,
    pub nanoseconds: bool,
    pub ethernet: bool,
}

/// The form of most tests: the lowest byte first, microseconds, raw IP.
pub const PLAIN: Form = Form {
    highest_first: false,
    nanoseconds: false,
    ethernet: false,
};

/// What a file holds.
#[derive(Clone, Copy)]
pub enum Content<'c> {
    /// These bytes.
    Bytes(&'c [u8]),
    /// So many first bytes of these.
    First(usize, &'c [u8]),
    /// These bytes, with others at some places.
    Changed(&'c [u8], &'c [(usize, u8)]),
    /// This text.
    Text(&'c str),
    /// A text so many times, and then another.
    Repeated(u32, &'c str, &'c str),
    /// A capture of these packets.
    Capture(Form, &'c [Sent<'c>]),
    /// A capture of one query of each of so many clients, and then the first client's again.
    Clients(u32),
    /// A capture of so many queries of one client, each from a port of its own, one each second from 0 on.
    Ports(u32, u32),
    /// A capture of one query of a client, and of a frame without a header: a thread that comes to it is done with the query.
    Asked(u32),
}

/// Adds a number of a capture of this form.
fn push_number(bytes: &mut Vec<u8>, form: &Form, value: u32) -> Result<(), AllocError> {
    if form.highest_first {
        bytes.extend_from_slice(&value.to_be_bytes())
    } else {
        bytes.extend_from_slice(&value.to_le_bytes())
    }
}

/// Adds the header of a capture of this form.
fn push_head(bytes: &mut Vec<u8>, form: &Form) -> Result<(), AllocError> {
    let magic = if form.nanoseconds {
        0xa1b2_3c4d
    } else {
        0xa1b2_c3d4
    };
    let version = if form.highest_first {
        0x0002_0004
    } else {
        0x0004_0002
    };
    let link = if form.ethernet { 1 } else { 101 };
    for value in [magic, version, 0, 0, 65535, link] {
        push_number(bytes, form, value)?;
    }
    Ok(())
}

/// Adds a record to a capture of this form.
fn push_record(
    alloc: Global,
    bytes: &mut Vec<u8>,
    form: &Form,
    sent: &Sent<'_>,
) -> Result<(), AllocError> {
    let (seconds, micros, packet) = sent;
    let fraction = if form.nanoseconds {
        micros.wrapping_mul(1000)
    } else {
        *micros
    };
    let mut frame = Vec::new(alloc);
    if form.ethernet {
        frame.extend_from_slice(&[2, 0, 0, 0, 0, 2, 2, 0, 0, 0, 0, 1, 8, 0])?;
    }
    push_packet(&mut frame, packet)?;
    let length = (frame.len() % 65536) as u32;
    for value in [*seconds, fraction, length, length] {
        push_number(bytes, form, value)?;
    }
    bytes.extend_from_slice(frame.as_slice())
}

/// Adds a capture of these packets.
fn push_capture(
    alloc: Global,
    bytes: &mut Vec<u8>,
    form: &Form,
    packets: &[Sent<'_>],
) -> Result<(), AllocError> {
    push_head(bytes, form)?;
    for sent in packets {
        push_record(alloc, bytes, form, sent)?;
    }
    Ok(())
}

/// Adds a capture of one query of each of so many clients, and then the first client's again.
fn push_clients(alloc: Global, bytes: &mut Vec<u8>, clients: u32) -> Result<(), AllocError> {
    push_head(bytes, &PLAIN)?;
    for client in 0..clients {
        let query = IpPacket::Udp(Ends {
            src: 0x0a00_0000 + client % 0x0100_0000,
            sport: 5000,
            dst: 0x0a00_0002,
            dport: 53,
        });
        push_record(alloc, bytes, &PLAIN, &(1000, 0, query))?;
    }
    let first = IpPacket::Udp(Ends {
        src: 0x0a00_0000,
        sport: 5000,
        dst: 0x0a00_0002,
        dport: 53,
    });
    push_record(alloc, bytes, &PLAIN, &(1000, 0, first))
}

/// Adds a capture of so many queries of one client, each from a port of its own.
fn push_ports(
    alloc: Global,
    bytes: &mut Vec<u8>,
    client: u32,
    queries: u32,
) -> Result<(), AllocError> {
    push_head(bytes, &PLAIN)?;
    for query in 0..queries {
        let asked = IpPacket::Udp(Ends {
            src: client,
            sport: 1000 + (query % 50_000) as u16,
            dst: 0x0a09_0909,
            dport: 53,
        });
        push_record(alloc, bytes, &PLAIN, &(query, 0, asked))?;
    }
    Ok(())
}

/// Adds a capture of one query of a client, and of a frame without a header.
fn push_asked(alloc: Global, bytes: &mut Vec<u8>, client: u32) -> Result<(), AllocError> {
    push_ports(alloc, bytes, client, 1)?;
    push_record(alloc, bytes, &PLAIN, &(1, 0, IpPacket::Raw(b"")))
}

/// Adds a text so many times.
fn push_repeated(bytes: &mut Vec<u8>, times: u32, text: &str) -> Result<(), AllocError> {
    for _ in 0..times {
        bytes.extend_from_slice(text.as_bytes())?;
    }
    Ok(())
}

/// The bytes of a file that holds this.
pub fn bytes_of(alloc: Global, content: &Content<'_>) -> Result<Vec<u8>, AllocError> {
    let mut bytes = Vec::new(alloc);
    match content {
        Content::Bytes(from) => bytes.extend_from_slice(from)?,
        Content::First(length, from) => {
            bytes.extend_from_slice(from.split_at(from.len().min(*length)).0)?;
        }
        Content::Changed(from, changes) => push_changed(&mut bytes, from, changes)?,
        Content::Text(text) => bytes.extend_from_slice(text.as_bytes())?,
        Content::Repeated(times, text, last) => {
            push_repeated(&mut bytes, *times, text)?;
            bytes.extend_from_slice(last.as_bytes())?;
        }
        Content::Capture(form, packets) => push_capture(alloc, &mut bytes, form, packets)?,
        Content::Clients(clients) => push_clients(alloc, &mut bytes, *clients)?,
        Content::Ports(client, queries) => push_ports(alloc, &mut bytes, *client, *queries)?,
        Content::Asked(client) => push_asked(alloc, &mut bytes, *client)?,
    }
    Ok(bytes)
}
