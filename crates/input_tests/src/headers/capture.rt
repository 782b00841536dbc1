//! Captures typed byte by byte, whole, cut and damaged, and their frames.

use packet_headers::Endian;
use packet_headers::capture::{CaptureError, CaptureFault, Form, Layout, Resolution, read_capture};
use packet_headers::frame::{Frame, Link};
use room_list::Bytes;
use std::alloc::Global;
use std::test::Fail;
use tuple_core::NoMemory;

/// Two packets of raw IP: a query of UDP at 1000 s, and its answer half a second later.
const CAPTURE: [u8; 120] = [
    0xd4, 0xc3, 0xb2, 0xa1, 2, 0, 4, 0, 0, 0, 0, 0, 0, 0, 0, 0, 0xff, 0xff, 0, 0, 0x65, 0, 0, 0,
    0xe8, 3, 0, 0, 0, 0, 0, 0, 0x20, 0, 0, 0, 0x20, 0, 0, 0, 0x45, 0, 0, 0x20, 0, 0, 0, 0, 0x40,
    0x11, 0, 0, 0x0a, 0, 0, 1, 0x0a, 0, 0, 2, 0x13, 0x88, 0, 0x35, 0, 0x0c, 0, 0, 0, 0, 0, 0, 0xe8,
    3, 0, 0, 0x20, 0xa1, 7, 0, 0x20, 0, 0, 0, 0x20, 0, 0, 0, 0x45, 0, 0, 0x20, 0, 0, 0, 0, 0x40,
    0x11, 0, 0, 0x0a, 0, 0, 2, 0x0a, 0, 0, 1, 0, 0x35, 0x13, 0x88, 0, 0x0c, 0, 0, 0, 0, 0, 0,
];

/// The fault's number in the order of the variants, from 1, and the numbers in it. Where there is
/// none: 0 and the number of frames.
fn answer(alloc: Global, bytes: &[u8]) -> Result<(u8, u64, u64), NoMemory> {
    match read_capture(alloc, bytes) {
        Ok(frames) => Ok((0, frames.len() as u64, 0)),
        Err(CaptureError::NoMemory) => Err(NoMemory),
        Err(CaptureError::Fault(fault)) => Ok(match fault {
            CaptureFault::ShortHeader => (1, 0, 0),
            CaptureFault::BadMagic => (2, 0, 0),
            CaptureFault::BadVersion => (3, 0, 0),
            CaptureFault::LinkType(number) => (4, u64::from(number), 0),
            CaptureFault::CutRecord { index, offset } => (5, index, offset),
            CaptureFault::TooLong { index } => (6, index, 0),
            CaptureFault::Fraction { index } => (7, index, 0),
        }),
    }
}

#[test]
fn cut_captures(rt: HostRuntime) -> Result<(), Fail> {
    for length in 0..121 {
        let want = match length {
            0..24 => (1, 0, 0),
            24 => (0, 0, 0),
            25..72 => (5, 0, 24),
            72 => (0, 1, 0),
            73..120 => (5, 1, 72),
            _ => (0, 2, 0),
        };
        let (front, _) = CAPTURE.split_at(length);
        assert_eq!(rt; answer(rt.alloc(), front)?, want, "cut at {length}");
    }
    Ok(())
}

#[test]
fn damaged_captures(rt: HostRuntime) -> Result<(), Fail> {
    let changes = [
        (
            0,
            [0x0a, 0x0d, 0x0d, 0x0a, 2, 0, 4, 0],
            (2, 0, 0),
            "magic number",
        ),
        (
            0,
            [0xd4, 0xc3, 0xb2, 0xa1, 3, 0, 4, 0],
            (3, 0, 0),
            "major version",
        ),
        (
            0,
            [0xd4, 0xc3, 0xb2, 0xa1, 2, 0, 3, 0],
            (3, 0, 0),
            "minor version",
        ),
        (16, [0, 0, 0, 0, 113, 0, 0, 0], (4, 113, 0), "link type"),
        (
            16,
            [0, 0, 0, 0, 101, 0, 1, 0],
            (0, 2, 0),
            "upper half of the link type",
        ),
        (
            28,
            [0, 0, 0, 0, 1, 0, 4, 0],
            (6, 0, 0),
            "captured length 262,145",
        ),
        (
            28,
            [0, 0, 0, 0, 0, 0, 4, 0],
            (5, 0, 24),
            "captured length 262,144",
        ),
        (
            28,
            [0x40, 0x42, 0x0f, 0, 0x20, 0, 0, 0],
            (7, 0, 0),
            "fraction 1,000,000",
        ),
        (
            28,
            [0x40, 0x42, 0x0f, 0, 1, 0, 4, 0],
            (6, 0, 0),
            "fraction and captured length",
        ),
        (
            28,
            [0x40, 0x42, 0x0f, 0, 0, 0, 4, 0],
            (7, 0, 0),
            "fraction of a cut record",
        ),
        (
            32,
            [0x20, 0, 0, 0, 1, 0, 0, 0],
            (0, 2, 0),
            "original length",
        ),
        (
            76,
            [0x20, 0xa1, 7, 0, 1, 0, 4, 0],
            (6, 1, 0),
            "second captured length",
        ),
        (
            76,
            [0, 0xca, 0x9a, 0x3b, 0x20, 0, 0, 0],
            (7, 1, 0),
            "second fraction",
        ),
    ];
    for (at, change, want, what) in changes {
        let mut bytes = CAPTURE;
        assert!(rt; at <= 112);
        for (place, byte) in change.iter().enumerate() {
            bytes[at + place] = *byte;
        }
        assert_eq!(rt; answer(rt.alloc(), &bytes)?, want, "{what}");
    }
    Ok(())
}

/// Appends a number of four bytes.
fn put_32(bytes: &mut Bytes, order: Endian, number: u32) -> Result<(), NoMemory> {
    match order {
        Endian::Little => bytes.append(&number.to_le_bytes()),
        Endian::Big => bytes.append(&number.to_be_bytes()),
    }
}

/// Appends a number of two bytes.
fn put_16(bytes: &mut Bytes, order: Endian, number: u16) -> Result<(), NoMemory> {
    match order {
        Endian::Little => bytes.append(&number.to_le_bytes()),
        Endian::Big => bytes.append(&number.to_be_bytes()),
    }
}

/// Appends a record with 60 bytes of a packet, 46 of them captured.
fn put_record(bytes: &mut Bytes, order: Endian, fraction: u32) -> Result<(), NoMemory> {
    for number in [1000, fraction, 46, 60] {
        put_32(bytes, order, number)?;
    }
    bytes.append(&[0; 46])
}

/// A capture of two packets half a second apart; where times are in nanoseconds, 999 of them more.
fn capture(alloc: Global, form: Form) -> Result<Bytes, NoMemory> {
    let order = form.layout.order;
    let (magic, half) = match form.layout.resolution {
        Resolution::Microseconds => (0xa1b2_c3d4, 500_000),
        Resolution::Nanoseconds => (0xa1b2_3c4d, 500_000_999),
    };
    let link = match form.link {
        Link::Ethernet => 1,
        Link::Raw => 101,
    };
    let mut bytes = Bytes::new(alloc, 0)?;
    put_32(&mut bytes, order, magic)?;
    put_16(&mut bytes, order, 2)?;
    put_16(&mut bytes, order, 4)?;
    for number in [0, 0, 65_535, link] {
        put_32(&mut bytes, order, number)?;
    }
    put_record(&mut bytes, order, 0)?;
    put_record(&mut bytes, order, half)?;
    Ok(bytes)
}

fn is_frame(frame: &Frame, moment: u64, start: usize, is_ethernet: bool) -> bool {
    frame.moment == moment
        && frame.start == start
        && frame.captured == 46
        && frame.original == 60
        && matches!(frame.link, Link::Ethernet) == is_ethernet
}

#[test]
fn each_form_has_the_same_frames(rt: HostRuntime) -> Result<(), Fail> {
    let forms = [
        (Endian::Little, Resolution::Microseconds, false),
        (Endian::Little, Resolution::Nanoseconds, false),
        (Endian::Big, Resolution::Microseconds, false),
        (Endian::Big, Resolution::Nanoseconds, false),
        (Endian::Little, Resolution::Microseconds, true),
        (Endian::Big, Resolution::Nanoseconds, true),
    ];
    for (order, resolution, is_ethernet) in forms {
        let layout = Layout { order, resolution };
        let link = if is_ethernet {
            Link::Ethernet
        } else {
            Link::Raw
        };
        let bytes = capture(rt.alloc(), Form { layout, link })?;
        match read_capture(rt.alloc(), bytes.as_slice()) {
            Ok(frames) => {
                assert_eq!(rt; frames.len(), 2);
                assert!(rt; is_frame(frames.at(0), 1_000_000_000, 40, is_ethernet));
                assert!(rt; is_frame(frames.at(1), 1_000_500_000, 102, is_ethernet));
            }
            Err(_) => assert!(rt; false, "a capture was not read"),
        }
    }
    Ok(())
}
