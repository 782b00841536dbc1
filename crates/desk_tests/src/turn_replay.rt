//! A run on the tracker whose passes take turns with one list.

ghost use Rattle.std.specs.Prelude.{◌≡◌, ◌+◌, ◌≤◌, ◌^◌, All, length, IfOk};
ghost use Rattle.std.specs.List.{AllByRecursion};
ghost use Rattle.packet_headers.specs.Frames.{frames_in};
ghost use Rattle.conntrack_cmd.specs.Moment.{moment_of};
ghost use Rattle.history_book.specs.Sizes.{AreWithinLimits};
ghost use Rattle.nat_setup.specs.Rule.{IsLawfulRule};
ghost use Rattle.packet_headers.specs.Capture.{AreInside, AreTimely};
ghost use Rattle.replay_runs.specs.Replaying.{work_of};
ghost use Rattle.replay_runs.specs.Report.{IsWellFormed};

use book_desk::turn_desk::TurnBook;
use conntrack_cmd::read::Script;
use ct_io::Gate;
use history_book::report::Report;
use history_book::sizes::Sizes;
use packet_headers::frame::Captures;
use packet_path::setup::Setup;
use replay_runs::laws::left_runs_end;
use replay_runs::replay::{replay_on, report};
use std::alloc::Global;
use std::sync::Wait;
use std::thread::Threads;
use tuple_core::NoMemory;

/// Replays the captures and the script with a tracker of these sizes that is set up so, and reports what became of each frame,
/// and what was answered to each command. Where a thread wants memory, each thread has ended and there is no report.
pub fn replay_in_turns<R: Threads + Wait + Sync, G: Gate + Sync>(
    rt: &R,
    alloc: Global,
    sizes: &Sizes,
    captures: Captures,
    script: &Script,
    setup: &Setup,
    gate: &G,
) -> Result<Report, NoMemory>
    requires limits { AreWithinLimits sizes.now }
    requires passes { sizes.now.passes ≡ length captures.items + 1 }
    requires inside { All (λ c. AreInside c.bytes.items c.frames.items) captures.items }
    requires timely { All (λ c. AreTimely c.frames.items) captures.items }
    requires threads { length captures.items ≤ 63 }
    requires few { frames_in captures.items ≤ 4194304 }
    requires commands { length script.now.commands.items ≤ 256 }
    requires named { All (λ c. moment_of c ≤ 10 ^ 16) script.now.commands.items }
    requires lawful { AllByRecursion IsLawfulRule setup.now.rules.items }
    ensures { IfOk result (IsWellFormed
        (record { setup = setup.now; sizes = sizes.now }) (work_of captures.items script.now)) }
{
    left_runs_end();
    let list = captures.as_slice();
    let (book, spot) = TurnBook::new(alloc, *sizes)?;
    let mut desk = book.desk(spot, gate, list.len() as u32);
    let outcome = replay_on(rt, alloc, &mut desk, list, script, setup, gate, false)?;
    drop(captures);
    let spot = desk.leave();
    let closed = book.close(spot);
    let (report, _) = report(alloc, outcome, closed)?;
    Ok(report)
}
