//! Captures, each replayed by a thread of its own.

ghost use Rattle.std.specs.Prelude.{◌+◌, ◌≤◌, length};
ghost use Rattle.std.specs.List.{AllByRecursion, AllZip};
ghost use Rattle.std.specs.Thread.{IsSend, IsSync};
ghost use Rattle.nat_setup.specs.Rule.{IsLawfulRule};
ghost use Rattle.replay_runs.specs.Internal.Jobs.{AllRan, IsSet, Ran};
ghost use Rattle.replay_runs.specs.Internal.Telling.{IsReady, line_now, Told};

use crate::captures::replay_capture;
use crate::shared::Shared;
use ct_io::Gate;
use event_listen::sending::Sending;
use history_book::desk::Desk;
use history_book::report::Verdicts;
use packet_headers::frame::Capture;
use std::sync::Wait;
use std::thread::{Threads, join_mut};
use tuple_core::NoMemory;

/// The thread of a capture: its desk, the verdicts on its packets, its end of the line to a listener where there is one,
/// and how it ended.
#[derive(Drop)]
pub struct Job<D> {
    pub desk: D,
    pub verdicts: Verdicts,
    pub sending: Option<Sending>,
    pub ended: Result<(), NoMemory>,
}

/// Replays a capture, as the thread of this number.
fn run_job<R: Wait, G: Gate, D: Desk>(
    rt: &R,
    shared: &Shared<'_, '_, G>,
    capture: &Capture,
    job: &mut Job<D>,
    number: u32,
)
    requires lawful { AllByRecursion IsLawfulRule shared.now.setup.now.rules.items }
    requires set { IsSet D.sight capture.now job.old }
    requires ready { IsReady D.sight (line_now shared.now.line) job.old }
    ensures ran { Ran D.sight shared.now.setup.now capture.now job.old job.new }
    ensures told { Told D.sight (line_now shared.now.line) job.old job.new }
{
    job.ended = replay_capture(rt, shared, job, capture, number);
}

/// Replays captures beside each other, each in a thread of its own where one can be made. The threads are numbered from
/// `first` on. Each has ended when this returns.
pub fn run_jobs<R: Threads + Wait + Sync, G: Gate + Sync, D: Desk + Send>(
    rt: &R,
    shared: &Shared<'_, '_, G>,
    captures: &[Capture],
    jobs: &mut [Job<D>],
    first: u32,
)
    requires lawful { AllByRecursion IsLawfulRule shared.now.setup.now.rules.items }
    requires few { first + length captures.now ≤ 63 }
    requires set { AllZip (IsSet D.sight) captures.now jobs.old }
    requires ready { AllByRecursion (IsReady D.sight (line_now shared.now.line)) jobs.old }
    ensures ran { AllRan D.sight shared.now.setup.now captures.now jobs.old jobs.new }
    ensures told { AllZip (Told D.sight (line_now shared.now.line)) jobs.old jobs.new }
{
    if captures.is_empty() {
        return;
    }
    if captures.len() == 1 {
        run_job(rt, shared, &captures[0], &mut jobs[0], first);
        return;
    }
    let half = captures.len() / 2;
    let (front, back) = captures.split_at(half);
    let (left, right) = jobs.split_at_mut(half);
    let middle = first + half as u32;
    join_mut(
        rt,
        &mut ||
            requires { IsSync R.row × IsSync G.row × IsSend D.row
                × AllByRecursion IsLawfulRule shared.now.setup.now.rules.items
                × (first + length front.now ≤ 63) × AllZip (IsSet D.sight) front.now left.now
                × AllByRecursion (IsReady D.sight (line_now shared.now.line)) left.now }
            ensures { AllRan D.sight shared.entry.now.setup.now front.entry.now left.entry.now left.exit.now
                × AllZip (Told D.sight (line_now shared.entry.now.line)) left.entry.now left.exit.now }
        { run_jobs(rt, shared, front, left, first) },
        &mut ||
            requires { IsSync R.row × IsSync G.row × IsSend D.row
                × AllByRecursion IsLawfulRule shared.now.setup.now.rules.items
                × (middle + length back.now ≤ 63) × AllZip (IsSet D.sight) back.now right.now
                × AllByRecursion (IsReady D.sight (line_now shared.now.line)) right.now }
            ensures { AllRan D.sight shared.entry.now.setup.now back.entry.now right.entry.now right.exit.now
                × AllZip (Told D.sight (line_now shared.entry.now.line)) right.entry.now right.exit.now }
        { run_jobs(rt, shared, back, right, middle) },
    );
}
