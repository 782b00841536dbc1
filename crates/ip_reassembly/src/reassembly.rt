//! A capture whose fragments are put together.

ghost use Rattle.std.specs.Prelude.{◌≡◌, ◌+◌, ◌^◌, ◌<◌, ◌≤◌, ◌++◌, ◌∷◌, [], length, List, IfOk, OnOk};
ghost use Rattle.packet_headers.specs.Capture.{AreInside, AreTimely};
ghost use Rattle.ip_reassembly.specs.Defragged.{AreDefragged, defragged};
ghost use Rattle.ip_reassembly.specs.Internal.Knowing.{AreSound};
ghost use Rattle.ip_reassembly.specs.Internal.Reading.{Becomes};

use crate::datagram::append_datagram;
use crate::groups::{Groups, take_in};
use crate::piece::piece_of;
use packet_headers::Bytes;
use packet_headers::frame::{Frame, Frames, Link};
use std::alloc::Global;
use std::collections::BTreeMap;
use tuple_core::NoMemory;

/// A capture whose fragments are put together: the bytes that it had and behind them the datagrams, and as
/// many frames as it had, which lie in these bytes.
#[derive(Drop)]
pub struct Defragged {
    pub bytes: Bytes,
    pub frames: Frames,
}

/// The place behind the bytes and the datagrams that were made. Where no number is large enough no memory is.
fn place_behind(bytes: &[u8], made: &Bytes) -> Result<usize, NoMemory>
    ensures { IfOk result (λ at. at ≡ length bytes.now + length made.now.items) }
{
    match bytes.len().checked_add(made.len()) {
        Some(at) => Ok(at),
        None => Err(NoMemory),
    }
}

/// What becomes of one frame: the frame of a datagram, which is appended to `made`, where it completes a
/// group, and else itself.
#[tactic(auto, using(crate::proofs::Reread::no_piece, crate::proofs::Reread::still_open, crate::proofs::Reread::completed))]
fn reread(
    alloc: Global,
    groups: &mut Groups,
    made: &mut Bytes,
    bytes: &[u8],
    frame: Frame,
) -> Result<Frame, NoMemory>
    requires inside { frame.start + frame.captured ≤ length bytes.now }
    requires size { length bytes.now < 2 ^ 63 }
    requires sound { AreSound (length bytes.now) groups.old }
    ensures sound { OnOk result (AreSound (length bytes.now) groups.new) }
    ensures becomes { IfOk result (λ new. Becomes bytes.now frame groups.old groups.new made.old.items made.new.items new) }
    ensures longer { OnOk result (length made.old.items ≤ length made.new.items) }
    ensures inside { IfOk result (λ new. new.start + new.captured ≤ length bytes.now + length made.new.items) }
    ensures moment { IfOk result (λ new. new.moment ≡ frame.moment) }
{
    let Some(piece) = piece_of(bytes, &frame) else {
        return Ok(frame);
    };
    let Some(group) = take_in(alloc, groups, bytes, &piece)? else {
        return Ok(frame);
    };
    let start = place_behind(bytes, made)?;
    let length = append_datagram(made, bytes, &group)?;
    Ok(Frame {
        moment: frame.moment,
        start,
        captured: length,
        original: length,
        link: Link::Raw,
    })
}

/// Puts the fragments among the frames together, and gives the datagrams. Without fragments it takes no memory.
#[tactic(auto, using(crate::proofs::Frames::read_none, crate::proofs::Frames::read_next, crate::proofs::Frames::frame_at, crate::proofs::Frames::frame_inside, crate::proofs::Frames::read_all))]
fn put_together(alloc: Global, bytes: &[u8], frames: &mut Frames) -> Result<Bytes, NoMemory>
    requires inside { AreInside bytes.now frames.old.items }
    requires size { length bytes.now < 2 ^ 63 }
    ensures bytes { IfOk result (λ made. bytes.now ++ made.items ≡ (defragged bytes.now frames.old.items).bytes) }
    ensures frames { OnOk result (frames.new.items ≡ (defragged bytes.now frames.old.items).frames) }
    ensures inside { IfOk result (λ made. AreInside (bytes.now ++ made.items) frames.new.items) }
    ensures timely { OnOk result (AreTimely frames.old.items → AreTimely frames.new.items) }
    ensures many { OnOk result (length frames.new.items ≡ length frames.old.items) }
{
    let mut groups: Groups = BTreeMap::new(alloc);
    let mut made = Bytes::empty(alloc);
    'frames: for index in 0..frames.len() {
        let frame = *frames.at(index);
        let new = reread(alloc, &mut groups, &mut made, bytes, frame)?;
        frames.set(index, new);
    }
    Ok(made)
}

impl Defragged {
    /// Puts the fragments of a capture together, in place: without fragments no byte is copied.
    pub fn of(alloc: Global, bytes: Bytes, frames: Frames) -> Result<Defragged, NoMemory>
        requires { AreInside bytes.items frames.items }
        ensures exact { IfOk result (λ d. AreDefragged bytes.items frames.items d.bytes.items d.frames.items) }
        ensures inside { IfOk result (λ d. AreInside d.bytes.items d.frames.items) }
        ensures timely { IfOk result (λ d. AreTimely frames.items → AreTimely d.frames.items) }
        ensures many { IfOk result (λ d. length d.frames.items ≡ length frames.items) }
    {
        let mut bytes = bytes;
        let mut frames = frames;
        let made = put_together(alloc, bytes.as_slice(), &mut frames)?;
        bytes.append(made.as_slice())?;
        Ok(Defragged { bytes, frames })
    }
}

/// The capture with its fragments put together; the old one stays as it is.
pub fn defrag(alloc: Global, bytes: &[u8], frames: &Frames) -> Result<Defragged, NoMemory>
    requires { AreInside bytes.now frames.now.items }
    ensures exact { IfOk result (λ d. AreDefragged bytes.now frames.now.items d.bytes.items d.frames.items) }
    ensures inside { IfOk result (λ d. AreInside d.bytes.items d.frames.items) }
    ensures timely { IfOk result (λ d. AreTimely frames.now.items → AreTimely d.frames.items) }
    ensures many { IfOk result (λ d. length d.frames.items ≡ length frames.now.items) }
{
    let mut copy = Bytes::new(alloc, bytes.len())?;
    copy.append(bytes)?;
    let mut others = Frames::new(alloc, frames.len())?;
    others.append(frames.as_slice())?;
    Defragged::of(alloc, copy, others)
}
