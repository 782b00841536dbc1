//! Replays a capture, over any desk.

ghost use Rattle.std.specs.Prelude.{◌≡◌, ◌+◌, ◌*◌, ◌≤◌, ◌^◌, [], length, map, OnErr, OnOk};
ghost use Rattle.std.specs.List.{AllByRecursion};
ghost use Rattle.history_book.specs.Places.{HoldsNothing};
ghost use Rattle.history_book.specs.Sight.{IsKnown};
ghost use Rattle.nat_setup.specs.Rule.{IsLawfulRule};
ghost use Rattle.packet_headers.specs.Capture.{AreInside, AreTimely};
ghost use Rattle.packet_path.specs.Packet.{given_of};
ghost use Rattle.replay_runs.specs.Internal.Replayed.{given_frames, Replayed};
ghost use Rattle.replay_runs.specs.Internal.Stopped.{Stopped};
ghost use Rattle.replay_runs.specs.Internal.Telling.{Between, HasTold, line_now, queue_of};

use crate::jobs::Job;
use crate::shared::Shared;
use crate::telling::tell;
use ct_io::{Crossing, Gate};
use history_book::desk::Desk;
use history_book::sight_laws::going_on_adds_up;
use packet_headers::frame::{Capture, Frame};
use packet_path::handle_into::handle_into;
use packet_path::laws::{lower_marks_fit, verdicts_still_fit};
use std::sync::Wait;
use tuple_core::NoMemory;

/// Handles the frames of a capture, whose file has these bytes and whose packets are in a zone, in their order, with a
/// desk that holds and owes nothing, and says what became of each. Events are counted from the first of this capture.
/// The thread of this number passes the gate before each, and tells the listener behind it.
#[inline(always)]
fn replay_frames<R: Wait, G: Gate, D: Desk>(
    rt: &R,
    shared: &Shared<'_, '_, G>,
    job: &mut Job<D>,
    bytes: &[u8],
    frames: &[Frame],
    zone: u16,
    number: u32,
) -> Result<(), NoMemory>
    requires lawful { AllByRecursion IsLawfulRule shared.now.setup.now.rules.items }
    requires inside { AreInside bytes.now frames.now }
    requires timely { AreTimely frames.now }
    requires few { length (D.sight job.old.desk).own + 8 * length frames.now + 8 ≤ 2 ^ 30 }
    requires room { length frames.now ≤ job.old.verdicts.room }
    requires none { job.old.verdicts.items ≡ [] }
    requires nothing_held { (D.sight job.old.desk).held ≡ [] }
    requires nothing_owed { (D.sight job.old.desk).owed ≡ [] }
    requires knows { IsKnown (D.sight job.old.desk) }
    requires told { Between (HasTold (D.sight job.old.desk).own) (line_now shared.now.line) job.old.sending }
    ensures replayed { OnOk result (Replayed shared.now.setup.now (map (given_of zone bytes.now) frames.now)
        (D.sight job.old.desk) (D.sight job.new.desk) job.new.verdicts.items) }
    ensures stopped { OnErr result (Stopped (D.sight job.old.desk) (D.sight job.new.desk)) }
    ensures told { OnOk result
        (Between (HasTold (D.sight job.new.desk).own) (line_now shared.now.line) job.new.sending) }
    ensures queue { queue_of job.new.sending ≡ queue_of job.old.sending }
{
    lower_marks_fit();
    verdicts_still_fit();
    going_on_adds_up();
    let base = job.desk.made();
    'frames: for frame in frames {
        shared.gate.at(number, Crossing::BeforePacket);
        handle_into(
            rt,
            &mut job.desk,
            bytes,
            frame,
            zone,
            shared.setup,
            base,
            &mut job.verdicts,
        )?;
        tell(rt, shared.line, &mut job.sending, &job.desk);
    }
    Ok(())
}

/// Handles the frames of a capture in their order, with a desk that holds and owes nothing, and says what became of
/// each. First it asks for room for the events of most captures: two for each frame. The listener is told behind each.
#[inline(always)]
pub fn replay_capture<R: Wait, G: Gate, D: Desk>(
    rt: &R,
    shared: &Shared<'_, '_, G>,
    job: &mut Job<D>,
    capture: &Capture,
    number: u32,
) -> Result<(), NoMemory>
    requires lawful { AllByRecursion IsLawfulRule shared.now.setup.now.rules.items }
    requires inside { AreInside capture.now.bytes.items capture.now.frames.items }
    requires timely { AreTimely capture.now.frames.items }
    requires few { length (D.sight job.old.desk).own + 8 * length capture.now.frames.items + 8 ≤ 2 ^ 30 }
    requires room { length capture.now.frames.items ≤ job.old.verdicts.room }
    requires none { job.old.verdicts.items ≡ [] }
    requires nothing_held { (D.sight job.old.desk).held ≡ [] }
    requires nothing_owed { (D.sight job.old.desk).owed ≡ [] }
    requires knows { IsKnown (D.sight job.old.desk) }
    requires told { Between (HasTold (D.sight job.old.desk).own) (line_now shared.now.line) job.old.sending }
    ensures replayed { OnOk result (Replayed shared.now.setup.now (given_frames capture.now)
        (D.sight job.old.desk) (D.sight job.new.desk) job.new.verdicts.items) }
    ensures stopped { OnErr result (Stopped (D.sight job.old.desk) (D.sight job.new.desk)) }
    ensures told { OnOk result
        (Between (HasTold (D.sight job.new.desk).own) (line_now shared.now.line) job.new.sending) }
    ensures queue { queue_of job.new.sending ≡ queue_of job.old.sending }
{
    going_on_adds_up();
    let bytes = capture.bytes.as_slice();
    let frames = capture.frames.as_slice();
    job.desk.ready(2 * frames.len() as u64)?;
    replay_frames(rt, shared, job, bytes, frames, capture.zone, number)
}
