//! Made captures, typed byte by byte from the rules, and what is read of them.

use made_captures::make_captures;
use packet_headers::Bytes;
use packet_headers::capture::read_capture;
use packet_headers::classify::classify;
use packet_headers::packet::Packet;
use std::test::Fail;
use tuple_core::{Kind, Proto, Segment, Tuple};

/// Microseconds, version 2.4, at most 65,535 bytes of a packet, raw IP.
const HEADER: [u8; 24] = [
    0xd4, 0xc3, 0xb2, 0xa1, 2, 0, 4, 0, 0, 0, 0, 0, 0, 0, 0, 0, 0xff, 0xff, 0, 0, 0x65, 0, 0, 0,
];

/// Flow 0 of thread 1 with the seed 60002: two echoes with the identifier 1026, each with its reply, from second 1000 on.
static ECHOES: [[u8; 44]; 4] = [
    [
        232, 3, 0, 0, 0, 0, 0, 0, 28, 0, 0, 0, 28, 0, 0, 0, // record
        0x45, 0, 0, 28, 0, 0, 0, 0, 64, 1, 0, 0, 10, 1, 0, 0, 198, 51, 100, 1, // IP
        8, 0, 0, 0, 4, 2, 0, 0,
    ],
    [
        232, 3, 0, 0, 232, 3, 0, 0, 28, 0, 0, 0, 28, 0, 0, 0, // record
        0x45, 0, 0, 28, 0, 0, 0, 0, 64, 1, 0, 0, 198, 51, 100, 1, 10, 1, 0, 0, // IP
        0, 0, 0, 0, 4, 2, 0, 0,
    ],
    [
        232, 3, 0, 0, 208, 7, 0, 0, 28, 0, 0, 0, 28, 0, 0, 0, // record
        0x45, 0, 0, 28, 0, 0, 0, 0, 64, 1, 0, 0, 10, 1, 0, 0, 198, 51, 100, 1, // IP
        8, 0, 0, 0, 4, 2, 0, 0,
    ],
    [
        232, 3, 0, 0, 184, 11, 0, 0, 28, 0, 0, 0, 28, 0, 0, 0, // record
        0x45, 0, 0, 28, 0, 0, 0, 0, 64, 1, 0, 0, 198, 51, 100, 1, 10, 1, 0, 0, // IP
        0, 0, 0, 0, 4, 2, 0, 0,
    ],
];

/// Flow 1: two queries of UDP and their answers.
static QUERIES: [[u8; 44]; 4] = [
    [
        232, 3, 0, 0, 160, 15, 0, 0, 28, 0, 0, 0, 28, 0, 0, 0, // record
        0x45, 0, 0, 28, 0, 0, 0, 0, 64, 17, 0, 0, 10, 1, 0, 1, 198, 51, 100, 1, // IP
        4, 2, 0, 53, 0, 8, 0, 0,
    ],
    [
        232, 3, 0, 0, 136, 19, 0, 0, 28, 0, 0, 0, 28, 0, 0, 0, // record
        0x45, 0, 0, 28, 0, 0, 0, 0, 64, 17, 0, 0, 198, 51, 100, 1, 10, 1, 0, 1, // IP
        0, 53, 4, 2, 0, 8, 0, 0,
    ],
    [
        232, 3, 0, 0, 112, 23, 0, 0, 28, 0, 0, 0, 28, 0, 0, 0, // record
        0x45, 0, 0, 28, 0, 0, 0, 0, 64, 17, 0, 0, 10, 1, 0, 1, 198, 51, 100, 1, // IP
        4, 2, 0, 53, 0, 8, 0, 0,
    ],
    [
        232, 3, 0, 0, 88, 27, 0, 0, 28, 0, 0, 0, 28, 0, 0, 0, // record
        0x45, 0, 0, 28, 0, 0, 0, 0, 64, 17, 0, 0, 198, 51, 100, 1, 10, 1, 0, 1, // IP
        0, 53, 4, 2, 0, 8, 0, 0,
    ],
];

/// Flow 2: SYN, SYN and ACK, ACK, RST.
static CONNECTION: [[u8; 56]; 4] = [
    [
        232, 3, 0, 0, 64, 31, 0, 0, 40, 0, 0, 0, 40, 0, 0, 0, // record
        0x45, 0, 0, 40, 0, 0, 0, 0, 64, 6, 0, 0, 10, 1, 0, 2, 198, 51, 100, 1, // IP
        4, 2, 0, 80, 0, 0, 0, 0, 0, 0, 0, 0, 0x50, 0x02, 0, 0, 0, 0, 0, 0,
    ],
    [
        232, 3, 0, 0, 40, 35, 0, 0, 40, 0, 0, 0, 40, 0, 0, 0, // record
        0x45, 0, 0, 40, 0, 0, 0, 0, 64, 6, 0, 0, 198, 51, 100, 1, 10, 1, 0, 2, // IP
        0, 80, 4, 2, 0, 0, 0, 0, 0, 0, 0, 0, 0x50, 0x12, 0, 0, 0, 0, 0, 0,
    ],
    [
        232, 3, 0, 0, 16, 39, 0, 0, 40, 0, 0, 0, 40, 0, 0, 0, // record
        0x45, 0, 0, 40, 0, 0, 0, 0, 64, 6, 0, 0, 10, 1, 0, 2, 198, 51, 100, 1, // IP
        4, 2, 0, 80, 0, 0, 0, 0, 0, 0, 0, 0, 0x50, 0x10, 0, 0, 0, 0, 0, 0,
    ],
    [
        232, 3, 0, 0, 248, 42, 0, 0, 40, 0, 0, 0, 40, 0, 0, 0, // record
        0x45, 0, 0, 40, 0, 0, 0, 0, 64, 6, 0, 0, 10, 1, 0, 2, 198, 51, 100, 1, // IP
        4, 2, 0, 80, 0, 0, 0, 0, 0, 0, 0, 0, 0x50, 0x04, 0, 0, 0, 0, 0, 0,
    ],
];

/// The last packet of 1,029 of thread 0, with the largest seed: an echo of flow 257, in second 1001.
const LATE: [u8; 44] = [
    0xe9, 3, 0, 0, 0x60, 0x6d, 0, 0, 28, 0, 0, 0, 28, 0, 0, 0, // record
    0x45, 0, 0, 28, 0, 0, 0, 0, 64, 1, 0, 0, 10, 0, 1, 1, 198, 51, 100, 1, // IP
    8, 0, 0, 0, 0xbc, 0xbf, 0, 0,
];

#[test]
fn packets_of_each_kind(rt: HostRuntime) -> Result<(), Fail> {
    let mut want = Bytes::new(rt.alloc(), 600)?;
    want.append(&HEADER)?;
    for record in ECHOES.iter().chain(QUERIES.iter()) {
        want.append(record)?;
    }
    for record in CONNECTION.iter() {
        want.append(record)?;
    }
    let made = make_captures(rt.alloc(), 60002, 12, 2)?;
    assert_eq!(rt; made.len(), 2);
    assert_eq!(rt; made.at(1).as_slice(), want.as_slice());
    Ok(())
}

#[test]
fn a_late_packet(rt: HostRuntime) -> Result<(), Fail> {
    let made = make_captures(rt.alloc(), 0xffff_ffff, 1029, 1)?;
    assert_eq!(rt; made.len(), 1);
    let bytes = made.at(0).as_slice();
    // 344 packets of TCP, in 86 flows.
    assert_eq!(rt; bytes.len(), 24 + 685 * 44 + 344 * 56);
    assert_eq!(rt; bytes.split_at(bytes.len() - 44).1, LATE.as_slice());
    Ok(())
}

#[test]
fn nothing_is_made(rt: HostRuntime) -> Result<(), Fail> {
    assert!(rt; make_captures(rt.alloc(), 1, 8, 0)?.is_empty());
    let made = make_captures(rt.alloc(), 1, 0, 3)?;
    assert_eq!(rt; made.len(), 3);
    for thread in 0..3 {
        assert_eq!(rt; made.at(thread).as_slice(), HEADER.as_slice());
    }
    Ok(())
}

const QUERY: Tuple = Tuple {
    proto: Proto::Udp,
    zone: 0,
    src: 0x0a00_0000,
    dst: 0xc633_6401,
    a: 1024,
    b: 53,
};

const ANSWER: Tuple = Tuple {
    proto: Proto::Udp,
    zone: 0,
    src: 0xc633_6401,
    dst: 0x0a00_0000,
    a: 53,
    b: 1024,
};

const THERE: Tuple = Tuple {
    proto: Proto::Tcp,
    zone: 0,
    src: 0x0a00_0001,
    dst: 0xc633_6401,
    a: 1024,
    b: 80,
};

const BACK: Tuple = Tuple {
    proto: Proto::Tcp,
    zone: 0,
    src: 0xc633_6401,
    dst: 0x0a00_0001,
    a: 80,
    b: 1024,
};

fn is_flow(packet: &Packet, t: &Tuple, wanted: &Segment) -> bool {
    match *packet {
        Packet::Flow {
            tuple,
            segment,
            payload: _payload,
        } => {
            tuple == *t
                && match (segment, *wanted) {
                    (Segment::Tcp(found), Segment::Tcp(kind)) => found as u8 == kind as u8,
                    (Segment::Udp, Segment::Udp) => true,
                    _ => false,
                }
        }
        _ => false,
    }
}

#[test]
fn made_captures_are_read(rt: HostRuntime) -> Result<(), Fail> {
    let made = make_captures(rt.alloc(), 0, 8, 1)?;
    assert_eq!(rt; made.len(), 1);
    let bytes = made.at(0).as_slice();
    let Ok(frames) = read_capture(rt.alloc(), bytes) else {
        assert!(rt; false, "the capture is not read");
        return Ok(());
    };
    assert_eq!(rt; frames.len(), 8);
    let flows = [
        (QUERY, Segment::Udp),
        (ANSWER, Segment::Udp),
        (QUERY, Segment::Udp),
        (ANSWER, Segment::Udp),
        (THERE, Segment::Tcp(Kind::Syn)),
        (BACK, Segment::Tcp(Kind::SynAck)),
        (THERE, Segment::Tcp(Kind::Ack)),
        (THERE, Segment::Tcp(Kind::Rst)),
    ];
    for i in 0..8usize {
        let frame = frames.at(i);
        let (tuple, segment) = flows[i];
        assert!(rt;
            frame.start <= bytes.len() && frame.captured as usize <= bytes.len() - frame.start
        );
        assert_eq!(rt; frame.moment, 1_000_000_000 + 1000 * i as u64);
        assert!(rt;
            is_flow(&classify(bytes, frame), &tuple, &segment),
            "packet {i}"
        );
    }
    Ok(())
}
