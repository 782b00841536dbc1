//! Captures as they are replayed: with their fragments put together, where that is asked for.

ghost use Rattle.std.specs.Prelude.{◌≡◌, IfOk, length, map, true, false};
ghost use Rattle.packet_headers.specs.Capture.{AreInside, AreTimely};
ghost use Rattle.replay_top.specs.Internal.Replaying.{prepared};
ghost use Rattle.run_inputs.specs.Ready.{CanReplay};

use ip_reassembly::Defragged;
use packet_headers::frame::{Capture, Captures};
use std::alloc::Global;
use tuple_core::NoMemory;

/// A capture with its fragments put together, in the same zone.
fn reassembled(alloc: Global, capture: Capture) -> Result<Capture, NoMemory>
    requires { AreInside capture.bytes.items capture.frames.items }
    ensures prepares { IfOk result (λ c. prepared false c ≡ prepared true capture) }
    ensures inside { IfOk result (λ c. AreInside c.bytes.items c.frames.items) }
    ensures timely { IfOk result (λ c. AreTimely capture.frames.items → AreTimely c.frames.items) }
    ensures many { IfOk result (λ c. length c.frames.items ≡ length capture.frames.items) }
{
    let Capture {
        bytes,
        frames,
        zone,
    } = capture;
    let Defragged { bytes, frames } = Defragged::of(alloc, bytes, frames)?;
    Ok(Capture {
        bytes,
        frames,
        zone,
    })
}

/// Captures with their fragments put together, one after the other.
fn all_reassembled(alloc: Global, captures: Captures) -> Result<Captures, NoMemory>
    requires { CanReplay captures.items }
    ensures prepares { IfOk result (λ all. map (prepared false) all.items ≡ map (prepared true) captures.items) }
    ensures many { IfOk result (λ all. length all.items ≡ length captures.items) }
    ensures ready { IfOk result (λ all. CanReplay all.items) }
{
    let mut left = captures;
    let mut all = Captures::new(alloc, left.len())?;
    'captures: while !left.is_empty() {
        let capture = left.remove(0);
        all.push(reassembled(alloc, capture)?);
    }
    Ok(all)
}

/// Captures as they are replayed.
pub(crate) fn as_replayed(
    alloc: Global,
    defrag: bool,
    captures: Captures,
) -> Result<Captures, NoMemory>
    requires { CanReplay captures.items }
    ensures prepares { IfOk result (λ all. map (prepared false) all.items ≡ map (prepared defrag) captures.items) }
    ensures many { IfOk result (λ all. length all.items ≡ length captures.items) }
    ensures ready { IfOk result (λ all. CanReplay all.items) }
{
    if defrag {
        all_reassembled(alloc, captures)
    } else {
        Ok(captures)
    }
}
