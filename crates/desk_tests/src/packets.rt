//! Packets of UDP and TCP, and what becomes of one on a desk.

ghost use Rattle.std.specs.Prelude.{◌≡◌, ◌+◌, ◌≤◌, ◌^◌, length, IfOk};
ghost use Rattle.history_book.specs.Places.{HoldsNothing};
ghost use Rattle.history_book.specs.Sight.{IsKnown};

use history_book::desk::Desk;
use history_book::verdict::Verdict;
use nat_setup::rule::Rules;
use packet_headers::frame::{Frame, Link};
use packet_path::handle::handle;
use packet_path::setup::{Ports, Setup};
use std::process::Abort;
use std::sync::Wait;
use tuple_core::NoMemory;

/// A query of UDP from 10.0.0.1:5000 to 10.0.0.2:53.
pub const QUERY: [u8; 32] = [
    0x45, 0, 0, 0x20, 0, 0, 0, 0, 0x40, 0x11, 0, 0, 10, 0, 0, 1, 10, 0, 0, 2, 0x13, 0x88, 0, 0x35,
    0, 0x0c, 0, 0, 0, 0, 0, 0,
];

/// The answer to `QUERY`, of UDP from 10.0.0.2:53 to 10.0.0.1:5000.
pub const ANSWER: [u8; 32] = [
    0x45, 0, 0, 0x20, 0, 0, 0, 0, 0x40, 0x11, 0, 0, 10, 0, 0, 2, 10, 0, 0, 1, 0, 0x35, 0x13, 0x88,
    0, 0x0c, 0, 0, 0, 0, 0, 0,
];

/// A query of UDP from 10.0.0.3:5000 to 10.0.0.2:53.
pub const ANOTHER: [u8; 32] = [
    0x45, 0, 0, 0x20, 0, 0, 0, 0, 0x40, 0x11, 0, 0, 10, 0, 0, 3, 10, 0, 0, 2, 0x13, 0x88, 0, 0x35,
    0, 0x0c, 0, 0, 0, 0, 0, 0,
];

/// A SYN of TCP from 10.0.0.1:40000 to 10.0.0.2:80.
pub const SYN: [u8; 40] = [
    0x45, 0, 0, 0x28, 0, 0, 0, 0, 0x40, 0x06, 0, 0, 10, 0, 0, 1, 10, 0, 0, 2, 0x9c, 0x40, 0, 0x50,
    0, 0, 0, 0, 0, 0, 0, 0, 0x50, 0x02, 0, 0, 0, 0, 0, 0,
];

/// The frame of so many bytes at this moment, in microseconds.
fn frame(moment: u32, bytes: u8) -> Frame
    ensures inside { result.start + result.captured ≡ bytes }
    ensures timely { result.moment ≤ 10 ^ 16 }
{
    Frame {
        moment: u64::from(moment),
        start: 0,
        captured: u32::from(bytes),
        original: u32::from(bytes),
        link: Link::Raw,
    }
}

/// What becomes of a packet in zone 0 at this moment, without rules.
pub fn handled<R: Wait + Abort + AllocGlobal, D: Desk>(
    rt: &R,
    desk: &mut D,
    packet: &[u8],
    moment: u32,
) -> Result<Verdict, NoMemory>
    requires { HoldsNothing (D.sight desk.old) }
    ensures empty { HoldsNothing (D.sight desk.new) }
    ensures knows { IfOk result (λ _. IsKnown (D.sight desk.new)) }
{
    handled_in(rt, desk, 0, packet, moment)
}

/// What becomes of a packet in a zone at this moment, without rules.
pub fn handled_in<R: Wait + Abort + AllocGlobal, D: Desk>(
    rt: &R,
    desk: &mut D,
    zone: u16,
    packet: &[u8],
    moment: u32,
) -> Result<Verdict, NoMemory>
    requires { HoldsNothing (D.sight desk.old) }
    ensures empty { HoldsNothing (D.sight desk.new) }
    ensures knows { IfOk result (λ _. IsKnown (D.sight desk.new)) }
{
    assert!(rt; desk.made() < 1000);
    assert!(rt; packet.len() < 200);
    let setup = Setup {
        rules: Rules::new(rt.alloc(), 0)?,
        ftp: Ports::new(rt.alloc(), 0)?,
    };
    let frame = frame(moment, packet.len() as u8);
    handle(rt, desk, packet, &frame, zone, &setup)
}
