//! A run on the tracker of the shared table.

ghost use Rattle.std.specs.Prelude.{◌≡◌, ◌+◌, ◌≤◌, ◌^◌, All, is_some, length, map, IfOk};
ghost use Rattle.std.specs.List.{AllByRecursion};
ghost use Rattle.packet_headers.specs.Frames.{frames_in};
ghost use Rattle.conntrack_cmd.specs.Moment.{moment_of};
ghost use Rattle.ftp_rewrite.specs.Sent.{recorded};
ghost use Rattle.history_book.specs.Sizes.{AreWithinLimits};
ghost use Rattle.nat_setup.specs.Rule.{IsLawfulRule};
ghost use Rattle.packet_headers.specs.Capture.{AreInside, AreTimely};
ghost use Rattle.replay_runs.specs.Heard.{AreHeard, made_before_join};
ghost use Rattle.replay_runs.specs.Replaying.{work_of};
ghost use Rattle.replay_runs.specs.Report.{IsWellFormed};
ghost use Rattle.replay_top.specs.Internal.Replaying.{rewritten_text};
ghost use Rattle.replay_top.specs.Replay.{rewrite_lines};

use crate::ending::Replayed;
use crate::rewriting::{kept_if, rewrites_of};
use conntrack_cmd::read::Script;
use ct_io::Gate;
use history_book::sizes::Sizes;
use packet_headers::frame::Captures;
use packet_path::setup::Setup;
use replay_runs::laws::left_runs_end;
use replay_runs::replay::{replay_on, report};
use shared_desk::tracker::Tracker;
use std::alloc::Global;
use std::sync::Wait;
use std::thread::Threads;
use tuple_core::NoMemory;

/// Replays the captures and the script with a tracker of these sizes that is set up so, and reports what became of each frame,
/// and what was answered to each command; and what a listener heard of each thread, and how packets leave, where that is asked
/// for. Where a thread wants memory, each thread has ended and there is no report.
pub fn replay<R: Threads + Wait + Sync, G: Gate + Sync>(
    rt: &R,
    alloc: Global,
    sizes: &Sizes,
    captures: Captures,
    script: &Script,
    setup: &Setup,
    gate: &G,
    listen: bool,
    rewrite: bool,
) -> Result<Replayed, NoMemory>
    requires limits { AreWithinLimits sizes.now }
    requires passes { sizes.now.passes ≡ length captures.items + 1 }
    requires inside { All (λ c. AreInside c.bytes.items c.frames.items) captures.items }
    requires timely { All (λ c. AreTimely c.frames.items) captures.items }
    requires threads { length captures.items ≤ 63 }
    requires few { frames_in captures.items ≤ 4194304 }
    requires commands { length script.now.commands.items ≤ 256 }
    requires named { All (λ c. moment_of c ≤ 10 ^ 16) script.now.commands.items }
    requires lawful { AllByRecursion IsLawfulRule setup.now.rules.items }
    ensures well_formed { IfOk result (λ made. IsWellFormed
        (record { setup = setup.now; sizes = sizes.now }) (work_of captures.items script.now) made.report) }
    ensures heard { IfOk result (λ made. AreHeard
        (made_before_join (work_of captures.items script.now) made.report) made.listened) }
    ensures listened { IfOk result (λ made. is_some made.listened ≡ listen) }
    ensures rewrites { IfOk result (λ made. rewritten_text made.rewrites
        ≡ rewrite_lines rewrite (map recorded captures.items) made.report) }
{
    left_runs_end();
    let list = captures.as_slice();
    let (tracker, spot) = Tracker::new(alloc, *sizes)?;
    let mut desk = tracker.clerk(spot, gate, list.len() as u32);
    let outcome = replay_on(rt, alloc, &mut desk, list, script, setup, gate, listen)?;
    let kept = kept_if(rewrite, captures);
    let spot = desk.leave();
    let closed = tracker.close(spot);
    let (report, listened) = report(alloc, outcome, closed)?;
    let rewrites = rewrites_of(alloc, &report, &kept)?;
    Ok(Replayed {
        report,
        listened,
        rewrites,
    })
}
