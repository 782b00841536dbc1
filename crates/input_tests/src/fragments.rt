//! Captures of a few fragments, and what becomes of their frames.

use ip_reassembly::{Defragged, defrag};
use packet_headers::Bytes;
use packet_headers::capture::read_capture;
use packet_headers::frame::{Frame, Link};
use std::alloc::Global;
use std::process::Abort;
use std::test::Fail;
use tuple_core::NoMemory;

/// The data of a datagram of UDP from port 5000 to port 53.
const DATA: [u8; 32] = [
    0x13, 0x88, 0, 53, 0, 32, 0, 0, 1, 2, 3, 4, 5, 6, 7, 8, 9, 10, 11, 12, 13, 14, 15, 16, 17, 18,
    19, 20, 21, 22, 23, 24,
];

/// The same with its last byte changed.
const CHANGED: [u8; 32] = [
    0x13, 0x88, 0, 53, 0, 32, 0, 0, 1, 2, 3, 4, 5, 6, 7, 8, 9, 10, 11, 12, 13, 14, 15, 16, 17, 18,
    19, 20, 21, 22, 23, 99,
];

/// The header of the datagram from 10.0.0.1 to 10.0.0.2, with type of service 8.
const HEADER: [u8; 20] = [
    0x45, 8, 0, 52, 7, 77, 0, 0, 64, 17, 0xaa, 0xbb, 10, 0, 0, 1, 10, 0, 0, 2,
];

/// The bytes of an Ethernet header.
const ETHERNET: [u8; 14] = [1, 1, 1, 1, 1, 1, 2, 2, 2, 2, 2, 2, 8, 0];

/// The link types of a capture of Ethernet frames and of one of IP packets.
const LINK_ETHERNET: u8 = 1;

const LINK_RAW: u8 = 101;

/// How a fragment is sent.
#[derive(Clone, Copy, PartialEq)]
enum Form {
    Plain,
    /// With a byte that is not the datagram's.
    Changed,
    /// With a word of options behind its header.
    Options,
    /// Without its last byte.
    Cut,
    /// With another checksum.
    Marked,
}

/// A fragment: when, which bytes of the data, whether it is the last, how.
type Sent = (u64, u8, u8, bool, Form);

/// Appends the IP packet of a fragment.
fn append_packet(bytes: &mut Bytes, sent: Sent) -> Result<(), NoMemory> {
    let (_, low, high, last, form) = sent;
    let words: u8 = if form == Form::Options { 6 } else { 5 };
    let length = (words * 4).saturating_add(high.saturating_sub(low));
    let more = if last { 0 } else { 0x20 };
    let checksum = if form == Form::Marked { 0xcc } else { 0xaa };
    bytes.append(&[0x40 + words, 8, 0, length, 7, 77, more, low / 8])?;
    bytes.append(&[64, 17, checksum, 0xbb, 10, 0, 0, 1, 10, 0, 0, 2])?;
    if form == Form::Options {
        bytes.append(&[1, 1, 1, 1])?;
    }
    let data = if form == Form::Changed {
        &CHANGED
    } else {
        &DATA
    };
    let (front, _) = data.split_at(usize::from(high).min(32));
    let (_, part) = front.split_at(usize::from(low).min(front.len()));
    bytes.append(part)
}

/// Appends the header of a capture file.
fn append_file_header(bytes: &mut Bytes, link: u8) -> Result<(), NoMemory> {
    bytes.append(&[0xd4, 0xc3, 0xb2, 0xa1, 2, 0, 4, 0, 0, 0, 0, 0])?;
    bytes.append(&[0, 0, 0, 0, 0xff, 0xff, 0, 0, link, 0, 0, 0])
}

/// Appends the header of a record with so many bytes.
fn append_record(bytes: &mut Bytes, moment: u64, length: u32) -> Result<(), NoMemory> {
    let seconds = (moment / SECOND).min(1000) as u32;
    let fraction = (moment % SECOND) as u32;
    bytes.append(&seconds.to_le_bytes())?;
    bytes.append(&fraction.to_le_bytes())?;
    bytes.append(&length.to_le_bytes())?;
    bytes.append(&length.to_le_bytes())
}

/// Appends the record of a fragment; under Ethernet with three bytes behind the packet.
fn append_frame(alloc: Global, bytes: &mut Bytes, link: u8, sent: Sent) -> Result<(), NoMemory> {
    let mut frame = Bytes::empty(alloc);
    if link == LINK_ETHERNET {
        frame.append(&ETHERNET)?;
    }
    append_packet(&mut frame, sent)?;
    if link == LINK_ETHERNET {
        frame.append(&[0, 0, 0])?;
    }
    let cut = if sent.4 == Form::Cut { 1 } else { 0 };
    let (captured, _) = frame.as_slice().split_at(frame.len().saturating_sub(cut));
    append_record(bytes, sent.0, captured.len().min(100) as u32)?;
    bytes.append(captured)
}

/// What is read of a capture, put together.
fn read_together(alloc: Global, bytes: Bytes) -> Result<Defragged, NoMemory> {
    match read_capture(alloc, bytes.as_slice()) {
        Ok(frames) => Defragged::of(alloc, bytes, frames),
        Err(_) => Err(NoMemory),
    }
}

/// A capture of these fragments, put together.
fn reassembled(alloc: Global, link: u8, sent: &[Sent]) -> Result<Defragged, NoMemory> {
    let mut bytes = Bytes::empty(alloc);
    append_file_header(&mut bytes, link)?;
    for one in sent {
        append_frame(alloc, &mut bytes, link, *one)?;
    }
    read_together(alloc, bytes)
}

/// The frame at an index, if there is one.
fn frame_at(made: &Defragged, index: usize) -> Option<Frame> {
    if index < made.frames.len() {
        Some(*made.frames.at(index))
    } else {
        None
    }
}

/// The data of a frame, if it is a datagram's: what stands behind the header.
fn data_of(made: &Defragged, index: usize) -> Option<&[u8]> {
    let frame = frame_at(made, index)?;
    if frame.captured != 52 || frame.original != 52 || frame.start > made.bytes.len() {
        return None;
    }
    let (_, rest) = made.bytes.as_slice().split_at(frame.start);
    let (packet, _) = rest.split_at(rest.len().min(52));
    let (header, data) = packet.split_at(packet.len().min(20));
    if header == HEADER.as_slice() {
        Some(data)
    } else {
        None
    }
}

/// Which of a capture's frames became the datagram: one bit a frame.
fn completed(alloc: Global, sent: &[Sent]) -> Result<u32, NoMemory> {
    let made = reassembled(alloc, LINK_RAW, sent)?;
    let mut found = 0;
    for index in 0..sent.len().min(8) {
        if data_of(&made, index) == Some(DATA.as_slice()) {
            found |= 1 << index;
        }
    }
    Ok(found)
}

const SECOND: u64 = 1_000_000;

/// The three pieces of a datagram.
const FIRST: Sent = (SECOND, 0, 8, false, Form::Plain);

const MIDDLE: Sent = (SECOND, 8, 24, false, Form::Plain);

const LAST: Sent = (SECOND, 24, 32, true, Form::Plain);

/// The first two in one.
const FRONT: Sent = (SECOND, 0, 24, false, Form::Plain);

/// Of each capture of these fragments, these frames become the datagram: one bit a frame.
fn are_completed<R: Abort + AllocGlobal>(rt: &R, cases: &[(&[Sent], u32)]) -> Result<(), Fail> {
    for (index, (sent, want)) in cases.iter().enumerate() {
        assert_eq!(rt; completed(rt.alloc(), sent)?, *want, "case {index}");
    }
    Ok(())
}

#[test]
fn in_any_order(rt: HostRuntime) -> Result<(), Fail> {
    static CASES: &[(&[Sent], u32)] = &[
        (&[FIRST, MIDDLE, LAST], 0b100),
        (&[FIRST, LAST, MIDDLE], 0b100),
        (&[MIDDLE, FIRST, LAST], 0b100),
        (&[MIDDLE, LAST, FIRST], 0b100),
        (&[LAST, FIRST, MIDDLE], 0b100),
        (&[LAST, MIDDLE, FIRST], 0b100),
    ];
    are_completed(&rt, CASES)
}

#[test]
fn pieces_that_agree(rt: HostRuntime) -> Result<(), Fail> {
    static CASES: &[(&[Sent], u32)] = &[
        // The last piece first.
        (&[LAST, (1_100_000, 0, 24, false, Form::Plain)], 0b10),
        // A piece that comes twice.
        (&[FIRST, FIRST, MIDDLE, MIDDLE, LAST], 0b10000),
        // A piece across two others, and over a hole.
        (&[FIRST, LAST, (SECOND, 8, 32, true, Form::Plain)], 0b100),
        (
            &[FIRST, (SECOND, 16, 24, false, Form::Plain), FRONT, LAST],
            0b1000,
        ),
        (&[MIDDLE, FRONT, LAST], 0b100),
        (&[FRONT, (SECOND, 16, 32, true, Form::Plain)], 0b10),
        // The header is that of the piece that begins the data, without options.
        (
            &[
                (SECOND, 24, 32, true, Form::Marked),
                (SECOND, 0, 24, false, Form::Options),
            ],
            0b10,
        ),
    ];
    are_completed(&rt, CASES)
}

#[test]
fn pieces_that_do_not_agree(rt: HostRuntime) -> Result<(), Fail> {
    static CASES: &[(&[Sent], u32)] = &[
        (&[LAST, (SECOND, 24, 32, true, Form::Changed), FRONT], 0),
        (
            &[FIRST, LAST, (SECOND, 8, 32, true, Form::Changed), MIDDLE],
            0,
        ),
        // Two last pieces with two ends, and a piece above the last.
        (&[LAST, (SECOND, 8, 24, true, Form::Plain), FRONT], 0),
        (
            &[
                (SECOND, 24, 32, false, Form::Plain),
                (SECOND, 8, 24, true, Form::Plain),
                FIRST,
            ],
            0,
        ),
        // A cut piece is none, and a hole stays one.
        (&[FRONT, (SECOND, 24, 32, true, Form::Cut)], 0),
        (&[FIRST, (SECOND, 16, 32, true, Form::Plain)], 0),
    ];
    are_completed(&rt, CASES)
}

#[test]
fn groups_in_time(rt: HostRuntime) -> Result<(), Fail> {
    static CASES: &[(&[Sent], u32)] = &[
        // 30 s after its leader a piece begins a group of its own; a microsecond before it does not.
        (&[LAST, (31 * SECOND, 0, 24, false, Form::Plain)], 0),
        (&[LAST, (31 * SECOND - 1, 0, 24, false, Form::Plain)], 0b10),
        (
            &[
                LAST,
                (31 * SECOND, 0, 24, false, Form::Plain),
                (32 * SECOND, 24, 32, true, Form::Plain),
            ],
            0b100,
        ),
        // Moments that go back.
        (&[LAST, (0, 0, 24, false, Form::Plain)], 0b10),
        // A second datagram of the same key, and pieces that do not agree given up.
        (&[FRONT, LAST, FRONT, LAST], 0b1010),
        (
            &[
                LAST,
                (SECOND, 24, 32, true, Form::Changed),
                (31 * SECOND, 24, 32, true, Form::Plain),
                (31 * SECOND, 0, 24, false, Form::Plain),
            ],
            0b1000,
        ),
    ];
    are_completed(&rt, CASES)
}

#[test]
fn the_frame_of_a_datagram(rt: HostRuntime) -> Result<(), Fail> {
    let sent = [LAST, (1_100_000, 0, 24, false, Form::Plain), FIRST];
    let made = reassembled(rt.alloc(), LINK_ETHERNET, &sent)?;
    assert_eq!(rt; made.frames.len(), 3);
    assert_eq!(rt; made.bytes.len(), 24 + 61 + 77 + 61 + 52);
    assert_eq!(rt; data_of(&made, 1), Some(DATA.as_slice()));
    if let Some(frame) = frame_at(&made, 1) {
        assert_eq!(rt; frame.start, 24 + 61 + 77 + 61);
        assert_eq!(rt; frame.moment, 1_100_000);
        assert!(rt; matches!(frame.link, Link::Raw));
    }
    if let Some(frame) = frame_at(&made, 2) {
        assert_eq!(rt; frame.start, 24 + 61 + 77 + 16);
        assert_eq!(rt; frame.captured, 45);
        assert!(rt; matches!(frame.link, Link::Ethernet));
    }
    Ok(())
}

/// Appends a fragment of so many bytes of data, with this word of flags and offset.
fn append_large(bytes: &mut Bytes, place: u16, length: u16) -> Result<(), NoMemory> {
    let total = length.min(65515) + 20;
    append_record(bytes, SECOND, u32::from(total))?;
    bytes.append(&[0x45, 8, (total / 256) as u8, (total % 256) as u8, 7, 77])?;
    bytes.append(&[(place / 256) as u8, (place % 256) as u8])?;
    bytes.append(&[64, 17, 0xaa, 0xbb, 10, 0, 0, 1, 10, 0, 0, 2])?;
    for index in 0..length.min(65515) {
        bytes.append(&[(index % 251) as u8])?;
    }
    Ok(())
}

/// What becomes of the second of two fragments, which has so many bytes behind the 65,512 of the first.
fn longest(alloc: Global, length: u16) -> Result<u32, NoMemory> {
    let mut bytes = Bytes::empty(alloc);
    append_file_header(&mut bytes, LINK_RAW)?;
    append_large(&mut bytes, 0x2000, 65512)?;
    append_large(&mut bytes, 8189, length)?;
    let made = read_together(alloc, bytes)?;
    Ok(match frame_at(&made, 1) {
        Some(frame) => frame.captured,
        None => 0,
    })
}

#[test]
fn the_longest_datagram(rt: HostRuntime) -> Result<(), Fail> {
    assert_eq!(rt; longest(rt.alloc(), 3)?, 65535);
    assert_eq!(rt; longest(rt.alloc(), 4)?, 24);
    Ok(())
}

#[test]
fn a_capture_that_stays(rt: HostRuntime) -> Result<(), Fail> {
    let mut bytes = Bytes::empty(rt.alloc());
    append_file_header(&mut bytes, LINK_RAW)?;
    append_frame(rt.alloc(), &mut bytes, LINK_RAW, LAST)?;
    append_frame(rt.alloc(), &mut bytes, LINK_RAW, FRONT)?;
    if let Ok(frames) = read_capture(rt.alloc(), bytes.as_slice()) {
        let made = defrag(rt.alloc(), bytes.as_slice(), &frames)?;
        assert_eq!(rt; data_of(&made, 1), Some(DATA.as_slice()));
    }
    Ok(())
}
