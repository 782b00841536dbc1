//! A segment typed byte by byte from the headers' layouts.

ghost use Rattle.std.specs.Prelude.{◌≤◌, length};

use packet_headers::frame::{Frame, Link};
use packet_headers::tcp_numbers::tcp_numbers;

/// The bytes of an Ethernet header.
const BEFORE: usize = 14;

/// An ACK from 10.0.0.1:40000 to 10.0.0.2:21 under Ethernet, behind a word of IP options.
const ACK: [u8; 58] = [
    2, 0, 0, 0, 0, 1, 2, 0, 0, 0, 0, 2, 8, 0, // Ethernet
    0x46, 0, 0, 44, 0, 0, 0, 0, 64, 6, 0, 0, 10, 0, 0, 1, 10, 0, 0, 2, 1, 1, 1, 1, // IP
    0x9c, 0x40, 0, 21, 0xff, 2, 3, 4, 5, 6, 7, 0xfe, 0x50, 0x10, 0, 0, 0, 0, 0, 0,
];

/// The numbers of the bytes as one frame.
fn numbers(bytes: &[u8], link: Link) -> Option<(u32, u32)>
    requires { length bytes.now ≤ 64 }
{
    let captured = bytes.len() as u32;
    let frame = Frame {
        moment: 0,
        start: 0,
        captured,
        original: captured,
        link,
    };
    tcp_numbers(bytes, &frame).map(|found| (found.seq, found.ack))
}

#[test]
fn numbers_of_segments(rt: HostRuntime) {
    let both = Some((0xff02_0304, 0x0506_07fe));
    assert_eq!(rt; numbers(&ACK, Link::Ethernet), both);
    assert_eq!(rt; numbers(ACK.split_at(BEFORE).1, Link::Raw), both);
    // Captured up to the control bits, and not so far.
    assert_eq!(rt; numbers(ACK.split_at(52).0, Link::Ethernet), both);
    assert_eq!(rt; numbers(ACK.split_at(51).0, Link::Ethernet), None);
    let mut udp = ACK;
    udp[BEFORE + 9] = 17;
    assert_eq!(rt; numbers(&udp, Link::Ethernet), None);
}
