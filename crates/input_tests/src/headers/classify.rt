//! Frames typed byte by byte from the headers' layouts, and what they are.

ghost use Rattle.std.specs.Prelude.{◌<◌, ◌≤◌, length};

use packet_headers::classify::classify;
use packet_headers::frame::{Frame, Link, Span};
use packet_headers::packet::{Packet, Untracked};
use std::process::Abort;
use tuple_core::{Kind, Proto, Segment, Tuple};

/// From 10.0.0.1:5000 to 10.0.0.2:53, with four bytes of data.
const UDP: [u8; 32] = [
    0x45, 0, 0, 32, 0, 0, 0, 0, 64, 17, 0, 0, 10, 0, 0, 1, 10, 0, 0, 2, // IP
    0x13, 0x88, 0, 53, 0, 12, 0, 0, b'd', b'a', b't', b'a',
];

/// From 10.0.0.1:40000 to 198.51.100.1:80: PSH and ACK, one word of options, and `hello`.
const TCP: [u8; 49] = [
    0x45, 0, 0, 49, 0, 1, 0x40, 0, 64, 6, 0, 0, 10, 0, 0, 1, 198, 51, 100, 1, // IP
    0x9c, 0x40, 0, 80, 0, 0, 0, 1, 0, 0, 0, 1, 0x60, 0x18, 0xff, 0xff, 0, 0, 0, 0, 1, 1, 1, 1, //
    b'h', b'e', b'l', b'l', b'o',
];

/// The SYN of the same flow.
const SYN: [u8; 40] = [
    0x45, 0, 0, 40, 0, 1, 0x40, 0, 64, 6, 0, 0, 10, 0, 0, 1, 198, 51, 100, 1, // IP
    0x9c, 0x40, 0, 80, 0, 0, 0, 1, 0, 0, 0, 0, 0x50, 0x02, 0xff, 0xff, 0, 0, 0, 0,
];

/// An echo with the identifier 77 from 10.0.0.1 to 10.0.0.2, behind a word of IP options.
const ECHO: [u8; 32] = [
    0x46, 0, 0, 32, 0, 0, 0, 0, 64, 1, 0, 0, 10, 0, 0, 1, 10, 0, 0, 2, 1, 1, 1, 1, // IP
    8, 0, 0, 0, 0, 77, 0, 1,
];

/// From 10.0.0.2 to 10.0.0.1: the port of the UDP packet above is unreachable.
const UNREACHABLE: [u8; 56] = [
    0x45, 0, 0, 56, 0, 0, 0, 0, 64, 1, 0, 0, 10, 0, 0, 2, 10, 0, 0, 1, // IP
    3, 3, 0, 0, 0, 0, 0, 0, // ICMP
    0x45, 0, 0, 32, 0, 0, 0, 0, 63, 17, 0, 0, 10, 0, 0, 1, 10, 0, 0, 2, // the IP header it repeats
    0x13, 0x88, 0, 53, 0, 12, 0, 0,
];

/// The bytes of a file before a packet under Ethernet: two of the file, and the Ethernet header.
const BEFORE: usize = 16;

/// What a packet is with no link header, where the file has nothing else.
fn raw(packet: &[u8]) -> Packet
    requires { length packet.now ≤ 64 }
{
    let captured = packet.len() as u32;
    let frame = Frame {
        moment: 0,
        start: 0,
        captured,
        original: captured,
        link: Link::Raw,
    };
    classify(packet, &frame)
}

/// What a packet is behind two bytes of a file and an Ethernet header with this type. Bytes follow it.
fn under_ethernet(packet: &[u8], kind: u8) -> Packet
    requires { length packet.now ≤ 64 }
{
    let mut file = [0xffu8; 96];
    file[14] = 8;
    file[15] = kind;
    for (i, byte) in packet.iter().enumerate() {
        file[BEFORE + i] = *byte;
    }
    let captured = 14 + packet.len() as u32;
    let frame = Frame {
        moment: 0,
        start: 2,
        captured,
        original: captured,
        link: Link::Ethernet,
    };
    classify(&file, &frame)
}

/// The packet with one byte changed, and zeros behind it.
fn with_byte(packet: &[u8], at: usize, byte: u8) -> [u8; 64]
    requires room { length packet.now ≤ 64 }
    requires within { at < length packet.now }
{
    let mut copy = [0u8; 64];
    for (i, old) in packet.iter().enumerate() {
        copy[i] = *old;
    }
    copy[at] = byte;
    copy
}

/// The class of a packet, in words.
fn class(packet: &Packet) -> &'static str {
    match packet {
        Packet::Untracked(Untracked::Link) => "untracked link",
        Packet::Untracked(Untracked::Fragment) => "untracked fragment",
        Packet::Untracked(Untracked::Protocol) => "untracked protocol",
        Packet::Invalid => "invalid",
        Packet::Flow { .. } => "flow",
        Packet::Error { .. } => "error",
    }
}

fn is_same_segment(found: &Segment, want: &Segment) -> bool {
    match (*found, *want) {
        (Segment::Tcp(a), Segment::Tcp(b)) => a as u8 == b as u8,
        (Segment::Udp, Segment::Udp) => true,
        (Segment::Icmp(a), Segment::Icmp(b)) => a == b,
        _ => false,
    }
}

/// A packet of a flow, and where its payload is to lie: raw, and under Ethernet.
#[derive(Clone, Copy)]
struct Flow {
    packet: &'static [u8],
    tuple: Tuple,
    segment: Segment,
    raw: (usize, usize),
    under_ethernet: (usize, usize),
}

impl Flow {
    /// Whether this was found, with its payload here.
    fn is(&self, found: &Packet, payload: (usize, usize)) -> bool {
        match found {
            Packet::Flow {
                tuple,
                segment,
                payload: Span { start, end },
            } => {
                *tuple == self.tuple
                    && is_same_segment(segment, &self.segment)
                    && *start == payload.0
                    && *end == payload.1
            }
            _ => false,
        }
    }
}

const QUERY: Tuple = Tuple {
    proto: Proto::Udp,
    zone: 0,
    src: 0x0a00_0001,
    dst: 0x0a00_0002,
    a: 5000,
    b: 53,
};

const WEB: Tuple = Tuple {
    proto: Proto::Tcp,
    zone: 0,
    src: 0x0a00_0001,
    dst: 0xc633_6401,
    a: 40000,
    b: 80,
};

const PING: Tuple = Tuple {
    proto: Proto::Icmp,
    zone: 0,
    src: 0x0a00_0001,
    dst: 0x0a00_0002,
    a: 77,
    b: 0x0800,
};

#[test]
fn packets_of_flows(rt: HostRuntime) {
    let (cut, _) = SYN.split_at(34);
    for flow in [
        Flow {
            packet: &UDP,
            tuple: QUERY,
            segment: Segment::Udp,
            raw: (0, 0),
            under_ethernet: (0, 0),
        },
        Flow {
            packet: &TCP,
            tuple: WEB,
            segment: Segment::Tcp(Kind::Ack),
            raw: (44, 49),
            under_ethernet: (60, 65),
        },
        // The data begin and end behind the header.
        Flow {
            packet: &SYN,
            tuple: WEB,
            segment: Segment::Tcp(Kind::Syn),
            raw: (40, 40),
            under_ethernet: (56, 56),
        },
        Flow {
            packet: &ECHO,
            tuple: PING,
            segment: Segment::Icmp(8),
            raw: (0, 0),
            under_ethernet: (0, 0),
        },
    ] {
        assert!(rt; flow.packet.len() <= 64);
        assert!(rt; flow.is(&raw(flow.packet), flow.raw));
        assert!(rt; flow.is(&under_ethernet(flow.packet, 0), flow.under_ethernet));
    }
    assert!(rt; cut.len() <= 64);
    let Packet::Flow { payload, .. } = raw(cut) else {
        panic!(rt; "the control bits were captured");
    };
    assert_eq!(rt; (payload.start, payload.end), (0, 0));
}

#[test]
fn an_error_about_a_flow(rt: HostRuntime) {
    for packet in [raw(&UNREACHABLE), under_ethernet(&UNREACHABLE, 0)] {
        let Packet::Error {
            inner,
            outer_destination,
        } = packet
        else {
            panic!(rt; "it is an error");
        };
        assert!(rt; inner == QUERY);
        assert_eq!(rt; outer_destination, 0x0a00_0001);
    }
}

/// The packet with this byte there has these classes: with no link header, and under Ethernet.
fn is_classed<R: Abort>(
    rt: &R,
    name: &str,
    packet: &[u8],
    (at, byte): (usize, u8),
    (when_raw, when_under_ethernet): (&str, &str),
) {
    assert!(rt; packet.len() <= 64 && at < packet.len(), "{name}");
    let copy = with_byte(packet, at, byte);
    let (front, _) = copy.split_at(packet.len());
    assert_eq!(rt; class(&raw(front)), when_raw, "{name}, raw");
    assert_eq!(rt;
        class(&under_ethernet(front, 0)),
        when_under_ethernet,
        "{name}, under Ethernet"
    );
}

#[test]
fn damaged_and_untracked_headers(rt: HostRuntime) {
    // The changes of a byte with the same outcome whatever the link.
    static CASES: &[(&str, &[u8], (usize, u8), &str)] = &[
        ("total length 19", &UDP, (3, 19), "invalid"),
        ("IP header of 4 words", &UDP, (0, 0x44), "invalid"),
        ("version 5", &UDP, (0, 0x55), "invalid"),
        ("UDP length 7", &UDP, (25, 7), "invalid"),
        ("UDP length 13 of 12", &UDP, (25, 13), "invalid"),
        ("TCP header of 4 words", &TCP, (32, 0x40), "invalid"),
        ("SYN and FIN", &TCP, (33, 0x03), "invalid"),
        ("ICMP type 1", &ECHO, (24, 1), "invalid"),
        ("inner protocol 47", &UNREACHABLE, (37, 47), "invalid"),
        ("inner fragment", &UNREACHABLE, (35, 1), "invalid"),
        ("more fragments", &UDP, (6, 0x20), "untracked fragment"),
        ("a last fragment", &UDP, (7, 1), "untracked fragment"),
        ("protocol 47", &UDP, (9, 47), "untracked protocol"),
    ];
    for (name, packet, change, class) in CASES {
        is_classed(&rt, name, packet, *change, (class, class));
    }
    let classes = ("untracked link", "invalid");
    is_classed(&rt, "version 6", &UDP, (0, 0x60), classes);
}

#[test]
fn other_frames(rt: HostRuntime) {
    assert_eq!(rt; class(&under_ethernet(&UDP, 6)), "untracked link", "ARP");
    assert_eq!(rt; class(&raw(&[])), "invalid", "no byte");
    assert_eq!(rt;
        class(&under_ethernet(&[], 0)),
        "invalid",
        "an Ethernet header alone"
    );
    let short = Frame {
        moment: 0,
        start: 0,
        captured: 13,
        original: 60,
        link: Link::Ethernet,
    };
    assert_eq!(rt;
        class(&classify(&UDP, &short)),
        "invalid",
        "a cut Ethernet header"
    );
}
