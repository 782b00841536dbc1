//! The inputs of a made workload: captures that are made, and read as those of files are.

ghost use Rattle.std.specs.Prelude.{◌≡◌, ◌≤◌, IfOk, length};
ghost use Rattle.packet_headers.specs.declared.frame.Capture.{Capture};
ghost use Rattle.command_words.specs.Asked.{workload_as};
ghost use Rattle.command_words.specs.Words.{IsWorkloadWithin};
ghost use Rattle.made_captures.specs.MadeCapture.{contents, made_captures};
ghost use Rattle.packet_headers.specs.Capture.{AreInside, AreTimely, HasFault, IsCapture};
ghost use Rattle.packet_headers.specs.declared.capture.CaptureFault.{CaptureFault};
ghost use Rattle.run_inputs.specs.Made.{AreMade};
ghost use Rattle.run_inputs.specs.Reading.{bytes_in, contents_in, GaveMade, zones_in};
ghost use Rattle.run_inputs.specs.Ready.{CanReplay};

use crate::input::{Inputs, no_script, zone_at};
use command_words::Workload;
use made_captures::laws::made_captures_are_read;
use made_captures::{MadeCaptures, make_captures};
use nat_setup::rule::Rules;
use packet_headers::capture::{CaptureError, read_capture};
use packet_headers::frame::{Capture, Captures};
use room_list::Bytes;
use std::alloc::Global;
use tuple_core::NoMemory;

/// The capture that these bytes are, which have no fault, in this zone.
fn read_made(alloc: Global, bytes: Bytes, zone: u16) -> Result<Capture, NoMemory>
    requires { (fault : CaptureFault) → HasFault bytes.items fault → ⊥ }
    ensures bytes { IfOk result (λ c. c.bytes.items ≡ bytes.items) }
    ensures frames { IfOk result (λ c. IsCapture bytes.items c.frames.items) }
    ensures inside { IfOk result (λ c. AreInside bytes.items c.frames.items) }
    ensures timely { IfOk result (λ c. AreTimely c.frames.items) }
    ensures in_zone { IfOk result (λ c. c.zone ≡ zone) }
{
    match read_capture(alloc, bytes.as_slice()) {
        Ok(frames) => Ok(Capture {
            bytes,
            frames,
            zone,
        }),
        Err(CaptureError::Fault(_)) => unreachable!(),
        Err(CaptureError::NoMemory) => Err(NoMemory),
    }
}

/// The captures that these bytes are, which are those of this workload, each in its zone.
fn read_workload(
    alloc: Global,
    _workload: &Workload,
    made: MadeCaptures,
    zones: &[u16],
) -> Result<Captures, NoMemory>
    requires within { IsWorkloadWithin 65536 (workload_as _workload.now) }
    requires zoned { length zones.now ≡ (workload_as _workload.now).threads }
    requires made { contents made.items ≡ made_captures _workload.now.seed _workload.now.packets _workload.now.threads }
    ensures made { IfOk result (λ captures.
        AreMade (workload_as _workload.now) (bytes_in captures.items) (contents_in captures.items)) }
    ensures in_zones { IfOk result (λ captures. zones_in captures.items ≡ zones.now) }
    ensures ready { IfOk result (λ captures. CanReplay captures.items) }
{
    made_captures_are_read();
    let mut left = made;
    let mut captures = Captures::new(alloc, left.len())?;
    'made: while !left.is_empty() {
        let bytes = left.remove(0);
        let zone = zone_at(zones, captures.len());
        captures.push(read_made(alloc, bytes, zone)?);
    }
    Ok(captures)
}

/// The inputs of a workload, each capture in its zone, without rules and without a script.
pub(crate) fn make_inputs(
    alloc: Global,
    workload: &Workload,
    zones: &[u16],
) -> Result<Inputs, NoMemory>
    requires within { IsWorkloadWithin 65536 (workload_as workload.now) }
    requires zoned { length zones.now ≡ (workload_as workload.now).threads }
    ensures gave { IfOk result (GaveMade (workload_as workload.now)) }
    ensures in_zones { IfOk result (λ inputs. zones_in inputs.captures.items ≡ zones.now) }
{
    let made = make_captures(alloc, workload.seed, workload.packets, workload.threads)?;
    let captures = read_workload(alloc, workload, made, zones)?;
    Ok(Inputs {
        rules: Rules::new(alloc, 0)?,
        script: no_script(alloc)?,
        captures,
    })
}
