//! The threads of captures, the script's and the listener's, beside each other.

ghost use Rattle.std.specs.Prelude.{◌≡◌, ◌+◌, ◌≤◌, length, OnOk};
ghost use Rattle.std.specs.List.{AllByRecursion, AllZip};
ghost use Rattle.std.specs.Thread.{IsSend, IsSync};
ghost use Rattle.nat_setup.specs.Rule.{IsLawfulRule};
ghost use Rattle.replay_runs.specs.Internal.Answered.{Answered, CanPerform};
ghost use Rattle.replay_runs.specs.Internal.Beside.{CanRun, HaveRun};
ghost use Rattle.replay_runs.specs.Internal.Jobs.{AllRan, IsSet};
ghost use Rattle.replay_runs.specs.Internal.Telling.{Between, HasTold, Hears, IsReady, line_now, queue_of, Told};

use crate::jobs::{Job, run_jobs};
use crate::script_run::{ScriptThread, run_script};
use crate::shared::Shared;
use crate::telling::{hush, listen};
use conntrack_cmd::command::Command;
use ct_io::Gate;
use event_listen::hearing::Hearing;
use history_book::desk::Desk;
use packet_headers::frame::Capture;
use std::sync::Wait;
use std::thread::{Threads, join_mut};
use tuple_core::NoMemory;

/// Replays captures, each in a thread of its own, and beside them performs commands of the script, whose thread has the
/// next number behind theirs. Each has ended when this returns.
fn run_workers<R: Threads + Wait + Sync, G: Gate + Sync, D: Desk + Send>(
    rt: &R,
    shared: &Shared<'_, '_, G>,
    captures: &[Capture],
    jobs: &mut [Job<D>],
    desk: &mut D,
    thread: &mut ScriptThread,
    commands: &[Command],
) -> Result<(), NoMemory>
    requires lawful { AllByRecursion IsLawfulRule shared.now.setup.now.rules.items }
    requires few { length captures.now ≤ 63 }
    requires set { AllZip (IsSet D.sight) captures.now jobs.old }
    requires ready { AllByRecursion (IsReady D.sight (line_now shared.now.line)) jobs.old }
    requires can { CanPerform commands.now shared.now.moment 0 (D.sight desk.old) }
    requires room { length thread.old.answers.items + length commands.now ≤ thread.old.answers.room }
    requires told { Between (HasTold (D.sight desk.old).own) (line_now shared.now.line) thread.old.sending }
    ensures ran { AllRan D.sight shared.now.setup.now captures.now jobs.old jobs.new }
    ensures all_told { AllZip (Told D.sight (line_now shared.now.line)) jobs.old jobs.new }
    ensures performed { OnOk result (Answered commands.now shared.now.moment 0
        (D.sight desk.old) (D.sight desk.new) thread.old.answers.items thread.new.answers.items) }
    ensures room { thread.new.answers.room ≡ thread.old.answers.room }
    ensures told { OnOk result (Between (HasTold (D.sight desk.new).own) (line_now shared.now.line) thread.new.sending) }
    ensures queue { queue_of thread.new.sending ≡ queue_of thread.old.sending }
{
    let number = captures.len() as u32;
    let (performed, ()) = join_mut(
        rt,
        &mut ||
            requires { CanPerform commands.now shared.now.moment 0 (D.sight desk.now)
                × (length thread.now.answers.items + length commands.now ≤ thread.now.answers.room)
                × Between (HasTold (D.sight desk.now).own) (line_now shared.now.line) thread.now.sending }
            ensures { OnOk result (Answered commands.entry.now shared.entry.now.moment 0
                (D.sight desk.entry.now) (D.sight desk.exit.now) thread.entry.now.answers.items thread.exit.now.answers.items)
                × (thread.exit.now.answers.room ≡ thread.entry.now.answers.room)
                × OnOk result (Between (HasTold (D.sight desk.exit.now).own) (line_now shared.entry.now.line) thread.exit.now.sending)
                × (queue_of thread.exit.now.sending ≡ queue_of thread.entry.now.sending) }
        { run_script(rt, shared, desk, thread, commands, 0, number) },
        &mut ||
            requires { AllByRecursion IsLawfulRule shared.now.setup.now.rules.items
                × (length captures.now ≤ 63) × AllZip (IsSet D.sight) captures.now jobs.now
                × AllByRecursion (IsReady D.sight (line_now shared.now.line)) jobs.now }
            ensures { AllRan D.sight shared.entry.now.setup.now captures.entry.now jobs.entry.now jobs.exit.now
                × AllZip (Told D.sight (line_now shared.entry.now.line)) jobs.entry.now jobs.exit.now }
        { run_jobs(rt, shared, captures, jobs, 0) },
    );
    performed
}

/// Runs the workers and the script as `run_workers` does, and ends listening then.
fn run_and_hush<R: Threads + Wait + Sync, G: Gate + Sync, D: Desk + Send>(
    rt: &R,
    shared: &Shared<'_, '_, G>,
    captures: &[Capture],
    jobs: &mut [Job<D>],
    desk: &mut D,
    thread: &mut ScriptThread,
    commands: &[Command],
) -> Result<(), NoMemory>
    requires { CanRun D.sight shared.now captures.now commands.now
        (record { jobs = jobs.old; desk = D.sight desk.old; thread = thread.old }) }
    ensures { HaveRun D.sight shared.now captures.now commands.now
        (record { jobs = jobs.old; desk = D.sight desk.old; thread = thread.old })
        (record { jobs = jobs.new; desk = D.sight desk.new; thread = thread.new }) result }
{
    let performed = run_workers(rt, shared, captures, jobs, desk, thread, commands);
    hush(shared.line);
    performed
}

/// Runs them as `run_and_hush` does, and beside that lets a listener hear the threads until they have ended, if there is one. It has the next
/// number behind theirs.
pub fn run_threads<R: Threads + Wait + Sync, G: Gate + Sync, D: Desk + Send>(
    rt: &R,
    shared: &Shared<'_, '_, G>,
    captures: &[Capture],
    jobs: &mut [Job<D>],
    desk: &mut D,
    thread: &mut ScriptThread,
    commands: &[Command],
    hearing: &mut Option<Hearing>,
) -> Result<(), NoMemory>
    requires can { CanRun D.sight shared.now captures.now commands.now
        (record { jobs = jobs.old; desk = D.sight desk.old; thread = thread.old }) }
    requires hears { Hears (line_now shared.now.line) hearing.old }
    ensures run { HaveRun D.sight shared.now captures.now commands.now
        (record { jobs = jobs.old; desk = D.sight desk.old; thread = thread.old })
        (record { jobs = jobs.new; desk = D.sight desk.new; thread = thread.new }) result }
    ensures hears { Hears (line_now shared.now.line) hearing.new }
{
    if hearing.is_none() {
        return run_and_hush(rt, shared, captures, jobs, desk, thread, commands);
    }
    let number = captures.len() as u32 + 1;
    // Where no thread can be made the first call comes last: the listener then finds the line hushed.
    let (listened, performed) = join_mut(
        rt,
        &mut ||
            requires { Hears (line_now shared.now.line) hearing.now }
            ensures { Hears (line_now shared.entry.now.line) hearing.exit.now }
        { listen(rt, shared.line, hearing, shared.gate, number) },
        &mut ||
            requires { IsSync R.row × IsSync G.row × IsSend D.row
                × CanRun D.sight shared.now captures.now commands.now
                (record { jobs = jobs.now; desk = D.sight desk.now; thread = thread.now }) }
            ensures { HaveRun D.sight shared.entry.now captures.entry.now commands.entry.now
                (record { jobs = jobs.entry.now; desk = D.sight desk.entry.now; thread = thread.entry.now })
                (record { jobs = jobs.exit.now; desk = D.sight desk.exit.now; thread = thread.exit.now }) result }
        { run_and_hush(rt, shared, captures, jobs, desk, thread, commands) },
    );
    performed?;
    listened
}
