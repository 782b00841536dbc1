//! The records of made captures.

ghost use Rattle.std.specs.Prelude.{◌≡◌, ◌+◌, ◌*◌, ◌<◌, ◌≤◌, ◌++◌, ℕ, true, length, OnOk};
ghost use Rattle.tuple_core.specs.Tuple.{is_valid};
ghost use Rattle.packet_headers.specs.PacketLayout.{icmp_layout, tcp_layout, udp_layout};
ghost use Rattle.made_captures.specs.MadePacket.{directed, laid_out, made_direction, made_proto};
ghost use Rattle.made_captures.specs.MadeCapture.{made_capture};
ghost use Rattle.made_captures.specs.Internal.FlowRecords.{first_moment, flow_records, later, recorded};

use crate::packet::{
    client_number, client_of, control_bits, directed, first_tuple, made_direction, made_proto,
};
use packet_headers::Bytes;
use tuple_core::{NoMemory, Proto, Tuple};

/// The header of a capture: microseconds, version 2.4, packets with no link header.
pub const FILE_HEADER: [u8; 24] = [
    0xd4, 0xc3, 0xb2, 0xa1, 2, 0, 4, 0, 0, 0, 0, 0, 0, 0, 0, 0, 0xff, 0xff, 0, 0, 101, 0, 0, 0,
];

/// The bytes of a capture: 44 for each record, and 12 more where its packet is of TCP, which of 12
/// packets in a row are four.
#[tactic(auto, using(crate::proofs::Lengths::capture_counted))]
pub fn capture_length(seed: u32, packets: u32) -> usize
    requires { packets ≤ 262144 }
    ensures { (thread : ℕ) → length (made_capture seed packets thread) ≡ result }
{
    let first = (4 - seed % 3) % 3 * 4;
    let tcp = packets / 12 * 4 + (packets % 12).saturating_sub(first).min(4);
    FILE_HEADER.len() + packets as usize * 44 + tcp as usize * 12
}

/// When a packet was captured: the second, and microseconds of it.
#[derive(Clone, Copy)]
pub struct Moment {
    pub seconds: u32,
    pub micros: u32,
}

/// The moment of a flow's first packet. A second has the packets of 250 flows.
pub fn first_moment(flow: u32) -> Moment
    ensures { result ≡ first_moment flow }
{
    Moment {
        seconds: 1000 + flow / 250,
        micros: flow % 250 * 4000,
    }
}

/// The moment some milliseconds later, in the same second.
fn later(moment: Moment, milliseconds: u32) -> Moment
    requires { moment.micros + milliseconds * 1000 < 1000000 }
    ensures { result ≡ later moment milliseconds }
{
    Moment {
        seconds: moment.seconds,
        micros: moment.micros + milliseconds * 1000,
    }
}

/// The record of a datagram of a tuple.
#[inline(always)]
fn udp_record(moment: Moment, t: Tuple) -> [u8; 44]
    ensures { result ≡ recorded moment (udp_layout t) }
{
    let [s0, s1, s2, s3] = moment.seconds.to_le_bytes();
    let [f0, f1, f2, f3] = moment.micros.to_le_bytes();
    let [c0, c1, c2, c3] = t.src.to_be_bytes();
    let [d0, d1, d2, d3] = t.dst.to_be_bytes();
    let [a0, a1] = t.a.to_be_bytes();
    let [b0, b1] = t.b.to_be_bytes();
    [
        s0, s1, s2, s3, f0, f1, f2, f3, 28, 0, 0, 0, 28, 0, 0, 0, // record
        0x45, 0, 0, 28, 0, 0, 0, 0, 64, 17, 0, 0, c0, c1, c2, c3, d0, d1, d2, d3, // IP
        a0, a1, b0, b1, 0, 8, 0, 0,
    ]
}

/// The record of a segment of a tuple with these control bits.
#[inline(always)]
fn tcp_record(moment: Moment, t: Tuple, flags: u8) -> [u8; 56]
    ensures { result ≡ recorded moment (tcp_layout t flags) }
{
    let [s0, s1, s2, s3] = moment.seconds.to_le_bytes();
    let [f0, f1, f2, f3] = moment.micros.to_le_bytes();
    let [c0, c1, c2, c3] = t.src.to_be_bytes();
    let [d0, d1, d2, d3] = t.dst.to_be_bytes();
    let [a0, a1] = t.a.to_be_bytes();
    let [b0, b1] = t.b.to_be_bytes();
    [
        s0, s1, s2, s3, f0, f1, f2, f3, 40, 0, 0, 0, 40, 0, 0, 0, // record
        0x45, 0, 0, 40, 0, 0, 0, 0, 64, 6, 0, 0, c0, c1, c2, c3, d0, d1, d2, d3, // IP
        a0, a1, b0, b1, 0, 0, 0, 0, 0, 0, 0, 0, 0x50, flags, 0, 0, 0, 0, 0, 0,
    ]
}

/// The record of a query of a tuple, or of its answer.
#[inline(always)]
fn icmp_record(moment: Moment, t: Tuple) -> [u8; 44]
    ensures { result ≡ recorded moment (icmp_layout t) }
{
    let [s0, s1, s2, s3] = moment.seconds.to_le_bytes();
    let [f0, f1, f2, f3] = moment.micros.to_le_bytes();
    let [c0, c1, c2, c3] = t.src.to_be_bytes();
    let [d0, d1, d2, d3] = t.dst.to_be_bytes();
    let [id0, id1] = t.a.to_be_bytes();
    let kind = (t.b / 256) as u8;
    let code = (t.b % 256) as u8;
    [
        s0, s1, s2, s3, f0, f1, f2, f3, 28, 0, 0, 0, 28, 0, 0, 0, // record
        0x45, 0, 0, 28, 0, 0, 0, 0, 64, 1, 0, 0, c0, c1, c2, c3, d0, d1, d2, d3, // IP
        kind, code, 0, 0, id0, id1, 0, 0,
    ]
}

/// Appends the record of the packet of this step. Its flow is of this protocol, and began with this tuple.
#[inline(always)]
fn append_packet(
    bytes: &mut Bytes,
    proto: Proto,
    first: &Tuple,
    step: u32,
    moment: Moment,
) -> Result<(), NoMemory>
    requires { is_valid first.now ≡ true }
    ensures { OnOk result (bytes.new.items ≡ bytes.old.items
        ++ recorded moment (laid_out proto (directed (made_direction proto step) first.now) step)) }
{
    let tuple = directed(made_direction(proto, step), first);
    match proto {
        Proto::Udp => bytes.append(&udp_record(moment, tuple)),
        Proto::Tcp => bytes.append(&tcp_record(moment, tuple, control_bits(step))),
        Proto::Icmp => bytes.append(&icmp_record(moment, tuple)),
    }
}

/// Appends the records of a flow's first packets, of which the first was captured at `start`. Inlined, so
/// that each protocol has a loop of its own.
#[inline(always)]
fn append_packets(
    bytes: &mut Bytes,
    seed: u32,
    thread: u8,
    flow: u32,
    proto: Proto,
    start: Moment,
    count: u32,
) -> Result<(), NoMemory>
    requires flow { flow < 65536 }
    requires proto { proto ≡ made_proto seed flow }
    requires start { start ≡ first_moment flow }
    requires count { count ≤ 4 }
    ensures { OnOk result (bytes.new.items ≡ bytes.old.items ++ flow_records seed thread flow count) }
{
    let first = first_tuple(proto, client_of(thread, flow), client_number(seed));
    'packets: for step in 0..count {
        append_packet(bytes, proto, &first, step, later(start, step))?;
    }
    Ok(())
}

/// Appends the records of a flow's first packets, of which the first was captured at `start`.
pub fn append_flow(
    bytes: &mut Bytes,
    seed: u32,
    thread: u8,
    flow: u32,
    start: Moment,
    count: u32,
) -> Result<(), NoMemory>
    requires flow { flow < 65536 }
    requires start { start ≡ first_moment flow }
    requires count { count ≤ 4 }
    ensures { OnOk result (bytes.new.items ≡ bytes.old.items ++ flow_records seed thread flow count) }
{
    match made_proto(seed, flow) {
        Proto::Udp => append_packets(bytes, seed, thread, flow, Proto::Udp, start, count),
        Proto::Tcp => append_packets(bytes, seed, thread, flow, Proto::Tcp, start, count),
        Proto::Icmp => append_packets(bytes, seed, thread, flow, Proto::Icmp, start, count),
    }
}
