//! Captures that are made from a number.
#![tactic(auto)]

ghost use Rattle.std.specs.Prelude.{◌≡◌, ◌≤◌, IfOk};
ghost use Rattle.made_captures.specs.MadeCapture.{contents, made_capture, made_captures};

pub mod laws;
mod packet;
mod record;

use packet_headers::Bytes;
use record::{FILE_HEADER, append_flow, capture_length, first_moment};
use room_list::RoomList;
use std::alloc::Global;
use tuple_core::NoMemory;

/// The bytes of files, in the order of their threads.
pub type MadeCaptures = RoomList<Bytes>;

/// The capture of one thread. Its memory is taken at once.
fn make_capture(alloc: Global, seed: u32, packets: u32, thread: u8) -> Result<Bytes, NoMemory>
    requires { packets ≤ 262144 }
    ensures { IfOk result (λ made. made.items ≡ made_capture seed packets thread) }
{
    let mut bytes = Bytes::new(alloc, capture_length(seed, packets))?;
    bytes.append(&FILE_HEADER)?;
    'flows: for flow in 0..packets.div_ceil(4) {
        let count = (packets - flow * 4).min(4);
        append_flow(&mut bytes, seed, thread, flow, first_moment(flow), count)?;
    }
    Ok(bytes)
}

/// The captures of so many threads, each with so many packets (raw IP, pcap 2.4). Four packets in a row are
/// of one flow, from a client of its own to one server; the flows are of UDP, TCP and ICMP in turn. The seed
/// says which comes first, and the clients' port.
pub fn make_captures(
    alloc: Global,
    seed: u32,
    packets: u32,
    threads: u32,
) -> Result<MadeCaptures, NoMemory>
    requires packets { packets ≤ 262144 }
    requires threads { threads ≤ 63 }
    ensures { IfOk result (λ made. contents made.items ≡ made_captures seed packets threads) }
{
    let mut made = MadeCaptures::new(alloc, threads as usize)?;
    'threads: for thread in 0..threads {
        made.push(make_capture(alloc, seed, packets, thread as u8)?);
    }
    Ok(made)
}
