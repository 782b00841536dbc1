//! Reads capture files (pcap 2.4): where their frames lie, and when they were captured.

ghost use Rattle.std.specs.Prelude.{◌≡◌, ◌+◌, ◌^◌, ◌<◌, ◌≤◌, ◌*◌, Ok, length, IfOk, IfErr, OnOk};
ghost use Rattle.packet_headers.specs.CaptureHeader.{has_version, header_of, layout_at, link_of, resolution_of};
ghost use Rattle.packet_headers.specs.CaptureRecord.{frame_end, microseconds_of, parts_of_second, record_at};
ghost use Rattle.packet_headers.specs.Capture.{AreInside, AreTimely, capture_fault_of, HasFault, IsCapture, IsReason};

use crate::byte_order::{Endian, u16_at, u32_at};
use crate::frame::{Frame, Frames, Link};
use std::alloc::Global;
use tuple_core::NoMemory;

/// The bytes of a capture's header.
const FILE_HEADER: usize = 24;

/// The bytes of a record's header.
const RECORD_HEADER: usize = 16;

/// The most bytes that a record may have captured.
const MOST_CAPTURED: u32 = 262_144;

/// The magic number of files with times in microseconds.
const MAGIC_MICROSECONDS: u32 = 0xa1b2_c3d4;

/// The magic number of files with times in nanoseconds.
const MAGIC_NANOSECONDS: u32 = 0xa1b2_3c4d;

/// The link type of Ethernet.
const LINK_ETHERNET: u16 = 1;

/// The link type of packets with no link header.
const LINK_RAW: u16 = 101;

/// Microseconds in a second.
const SECOND: u64 = 1_000_000;

/// Why bytes are no capture. Records are numbered from 0, and an offset is that of the first byte of
/// the record's header. Of several faults the first is told: the header's in the order of the
/// variants, then by records, and in one record a cut header, the captured length, the fraction and
/// cut packet bytes.
#[derive(Clone, Copy)]
pub enum CaptureFault {
    /// There are fewer than 24 bytes.
    ShortHeader,
    /// The first four bytes are no magic number.
    BadMagic,
    /// The version is not 2.4.
    BadVersion,
    /// The link type is another than Ethernet and raw IP.
    LinkType(u16),
    /// The bytes end within a record.
    CutRecord { index: u64, offset: u64 },
    /// A record has more than 262,144 captured bytes.
    TooLong { index: u64 },
    /// The fraction of a record's time is a second or more.
    Fraction { index: u64 },
}

/// Why a capture was not read.
#[derive(Clone, Copy)]
pub enum CaptureError {
    Fault(CaptureFault),
    NoMemory,
}

impl From<NoMemory> for CaptureError {
    ghost use Rattle.packet_headers.specs.declared.capture.CaptureError.{CaptureError};

    ghost from_gives = { λ _ error. error ≡ CaptureError.NoMemory };

    fn from(_error: NoMemory) -> CaptureError {
        CaptureError::NoMemory
    }
}

impl From<CaptureFault> for CaptureError {
    ghost use Rattle.packet_headers.specs.declared.capture.CaptureError.{CaptureError};

    ghost from_gives = { λ fault error. error ≡ CaptureError.Fault fault };

    fn from(fault: CaptureFault) -> CaptureError {
        CaptureError::Fault(fault)
    }
}

/// In what the fraction of a record's time counts.
#[derive(Clone, Copy)]
pub enum Resolution {
    Microseconds,
    Nanoseconds,
}

/// What a file's magic number says.
#[derive(Clone, Copy)]
pub struct Layout {
    /// That of all numbers of the file.
    pub order: Endian,
    pub resolution: Resolution,
}

/// What a file's header says.
#[derive(Clone, Copy)]
pub struct Form {
    pub layout: Layout,
    pub link: Link,
}

/// What is wrong with a record.
#[derive(Clone, Copy)]
pub enum RecordFault {
    /// The bytes end within it.
    Cut,
    /// It has too many captured bytes.
    Oversized,
    /// The fraction of its time is a second or more.
    BadFraction,
}

/// What a magic number says of the times.
fn known_resolution(magic: u32) -> Option<Resolution>
    ensures { result ≡ resolution_of magic }
{
    match magic {
        MAGIC_MICROSECONDS => Some(Resolution::Microseconds),
        MAGIC_NANOSECONDS => Some(Resolution::Nanoseconds),
        _ => None,
    }
}

/// What the magic number says, in the order in which it is one.
fn read_layout(bytes: &[u8]) -> Option<Layout>
    requires { 4 ≤ length bytes.now }
    ensures { result ≡ layout_at bytes.now }
{
    let little = known_resolution(u32_at(Endian::Little, bytes, 0));
    let big = known_resolution(u32_at(Endian::Big, bytes, 0));
    match (little, big) {
        (Some(resolution), _) => Some(Layout {
            order: Endian::Little,
            resolution,
        }),
        (None, Some(resolution)) => Some(Layout {
            order: Endian::Big,
            resolution,
        }),
        (None, None) => None,
    }
}

/// Whether the version is 2.4.
fn is_known_version(bytes: &[u8], order: Endian) -> bool
    requires { 8 ≤ length bytes.now }
    ensures { result ≡ has_version order bytes.now }
{
    u16_at(order, bytes, 4) == 2 && u16_at(order, bytes, 6) == 4
}

/// The link of a link type.
fn known_link(number: u16) -> Option<Link>
    ensures { result ≡ link_of number }
{
    match number {
        LINK_ETHERNET => Some(Link::Ethernet),
        LINK_RAW => Some(Link::Raw),
        _ => None,
    }
}

/// What the file's header says.
#[tactic(auto, unfolding(crate::specs::CaptureHeader::header_of))]
fn read_header(bytes: &[u8]) -> Result<Form, CaptureFault>
    ensures exact { result ≡ header_of bytes.now }
    ensures room { OnOk result (24 ≤ length bytes.now) }
    ensures fault { IfErr result (HasFault bytes.now) }
{
    if bytes.len() < FILE_HEADER {
        return Err(CaptureFault::ShortHeader);
    }
    let Some(layout) = read_layout(bytes) else {
        return Err(CaptureFault::BadMagic);
    };
    if !is_known_version(bytes, layout.order) {
        return Err(CaptureFault::BadVersion);
    }
    let number = (u32_at(layout.order, bytes, 20) % 65536) as u16;
    let Some(link) = known_link(number) else {
        return Err(CaptureFault::LinkType(number));
    };
    Ok(Form { layout, link })
}

/// How many of its parts make a second.
#[inline(always)]
fn second_parts(resolution: Resolution) -> u32
    ensures { result ≡ parts_of_second resolution }
{
    match resolution {
        Resolution::Microseconds => 1_000_000,
        Resolution::Nanoseconds => 1_000_000_000,
    }
}

/// The fraction of a second in microseconds, rounded down.
#[inline(always)]
fn microseconds(resolution: Resolution, fraction: u32) -> u32
    ensures exact { result ≡ microseconds_of resolution fraction }
    ensures below { result ≤ fraction }
{
    match resolution {
        Resolution::Microseconds => fraction,
        Resolution::Nanoseconds => fraction / 1000,
    }
}

/// The frame of the record at `at`.
#[tactic(auto, unfolding(crate::specs::CaptureRecord::record_at))]
#[inline(always)]
fn read_record(bytes: &[u8], form: Form, at: usize) -> Result<Frame, RecordFault>
    requires { at ≤ length bytes.now }
    ensures exact { result ≡ record_at bytes.now form at }
    ensures inside { IfOk result (λ frame. frame_end frame ≤ length bytes.now) }
    ensures forward { IfOk result (λ frame. at + 16 ≤ frame_end frame) }
    ensures timely { IfOk result (λ frame. frame.moment ≤ 10 ^ 16) }
{
    if bytes.len() - at < RECORD_HEADER {
        return Err(RecordFault::Cut);
    }
    let order = form.layout.order;
    let captured = u32_at(order, bytes, at + 8);
    if captured > MOST_CAPTURED {
        return Err(RecordFault::Oversized);
    }
    let fraction = u32_at(order, bytes, at + 4);
    if fraction >= second_parts(form.layout.resolution) {
        return Err(RecordFault::BadFraction);
    }
    let start = at + RECORD_HEADER;
    if bytes.len() - start < captured as usize {
        return Err(RecordFault::Cut);
    }
    let seconds = u32_at(order, bytes, at);
    let part = microseconds(form.layout.resolution, fraction);
    Ok(Frame {
        moment: u64::from(seconds) * SECOND + u64::from(part),
        start,
        captured,
        original: u32_at(order, bytes, at + 12),
        link: form.link,
    })
}

/// The fault of the record of this number, which begins at this offset.
fn capture_fault(fault: RecordFault, index: u64, offset: u64) -> CaptureFault
    ensures { result ≡ capture_fault_of fault index offset }
{
    match fault {
        RecordFault::Cut => CaptureFault::CutRecord { index, offset },
        RecordFault::Oversized => CaptureFault::TooLong { index },
        RecordFault::BadFraction => CaptureFault::Fraction { index },
    }
}

/// The frames of the records that fill the file after its header.
fn read_records(alloc: Global, bytes: &[u8], form: Form) -> Result<Frames, CaptureError>
    requires room { 24 ≤ length bytes.now }
    requires header { header_of bytes.now ≡ Ok form }
    ensures frames { IfOk result (λ frames. IsCapture bytes.now frames.items) }
    ensures reason { IfErr result (IsReason bytes.now) }
    ensures inside { IfOk result (λ frames. AreInside bytes.now frames.items) }
    ensures timely { IfOk result (λ frames. AreTimely frames.items) }
    ensures few { IfOk result (λ frames. 16 * length frames.items ≤ length bytes.now) }
{
    let mut frames = Frames::new(alloc, 0)?;
    let mut at = FILE_HEADER;
    'records: while at < bytes.len() {
        let frame = match read_record(bytes, form, at) {
            Ok(frame) => frame,
            Err(fault) => {
                let fault = capture_fault(fault, frames.len() as u64, at as u64);
                return Err(CaptureError::Fault(fault));
            }
        };
        frames.reserve(1)?;
        frames.push(frame);
        at = frame.start + frame.captured as usize;
    }
    Ok(frames)
}

/// The frames of a capture, in the order of its records. The frames' bytes are not copied.
pub fn read_capture(alloc: Global, bytes: &[u8]) -> Result<Frames, CaptureError>
    ensures frames { IfOk result (λ frames. IsCapture bytes.now frames.items) }
    ensures reason { IfErr result (IsReason bytes.now) }
    ensures inside { IfOk result (λ frames. AreInside bytes.now frames.items) }
    ensures timely { IfOk result (λ frames. AreTimely frames.items) }
    ensures few { IfOk result (λ frames. 16 * length frames.items ≤ length bytes.now) }
{
    let form = read_header(bytes)?;
    read_records(alloc, bytes, form)
}
