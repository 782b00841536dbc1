//! Replays captures and a script, each in a thread of its own, over any tracker of many threads.

ghost use Rattle.std.specs.Prelude.{◌≡◌, ◌+◌, ◌≤◌, ◌^◌, [], All, is_some, length, map, None, IfOk};
ghost use Rattle.std.specs.List.{AllByRecursion};
ghost use Rattle.conntrack_cmd.specs.Moment.{moment_of};
ghost use Rattle.history_book.specs.Fresh.{IsFresh};
ghost use Rattle.history_book.specs.Sight.{IsKnown};
ghost use Rattle.history_book.specs.Sizes.{AreWithinLimits};
ghost use Rattle.nat_setup.specs.Rule.{IsLawfulRule};
ghost use Rattle.packet_headers.specs.Capture.{AreInside, AreTimely};
ghost use Rattle.packet_headers.specs.Frames.{frames_in};
ghost use Rattle.replay_runs.specs.Heard.{AreHeard, made_before_join};
ghost use Rattle.replay_runs.specs.Internal.Answered.{CanPerform};
ghost use Rattle.replay_runs.specs.Internal.Jobs.{CanBeReplayed};
ghost use Rattle.replay_runs.specs.Internal.Replayed.{given_frames};
ghost use Rattle.replay_runs.specs.Internal.Telling.{AreLaidFor, AreTold, CanFinish, line_now};
ghost use Rattle.replay_runs.specs.Internal.Together.{HasRun, lists_with};
ghost use Rattle.replay_runs.specs.Replaying.{work_of};
ghost use Rattle.replay_runs.specs.Report.{IsWellFormed, latest_of, TrackerSetup, Work};
ghost use Rattle.replay_runs.specs.Run.{CanReport, HasEnded, IsRun, left_with};

use crate::beside::run_threads;
use crate::desks::{Joined, join_in, split_off};
use crate::laws::what_fits_still_fits;
use crate::listened::{Listened, counted};
use crate::script_run::{ScriptThread, latest_moment, run_script};
use crate::shared::Shared;
use crate::telling::{Telling, finish, put_back};
use conntrack_cmd::command::Command;
use conntrack_cmd::read::Script;
use ct_io::Gate;
use event_listen::hearing::Hearing;
use event_listen::sending::Sendings;
use history_book::answer::Answers;
use history_book::desk::Desk;
use history_book::many_threads::SharedDesk;
use history_book::merge::merge;
use history_book::report::{Closed, Report};
use packet_headers::frame::Capture;
use packet_path::setup::Setup;
use std::alloc::Global;
use std::sync::Wait;
use std::thread::Threads;
use tuple_core::NoMemory;

/// What a run leaves beside the desk that did its work: what the threads of captures left, the answers to the script, and
/// what was heard of each thread, where a listener was asked for.
#[derive(Drop)]
pub struct RunOutcome {
    joined: Joined,
    answers: Answers,
    heard: Option<Listened>,
}

/// Replays the captures, each with a desk of its own, beside the commands of the script that stand before `wait`, which
/// this desk performs; then the others join it. Where there is a line, each thread has an end of it meanwhile, and a
/// listener hears them.
fn run_to_wait<R: Threads + Wait + Sync, G: Gate + Sync, D: SharedDesk + Send>(
    rt: &R,
    shared: &Shared<'_, '_, G>,
    desk: &mut D,
    captures: &[Capture],
    thread: &mut ScriptThread,
    commands: &[Command],
    hearing: &mut Option<Hearing>,
    sendings: &mut Sendings,
) -> Result<Joined, NoMemory>
    requires lawful { AllByRecursion IsLawfulRule shared.now.setup.now.rules.items }
    requires captures { All CanBeReplayed captures.now }
    requires few { length captures.now ≤ 63 }
    requires fresh { IsFresh (D.sight desk.old).tracker (D.sight desk.old).sizes (D.sight desk.old) }
    requires passes { (D.sight desk.old).sizes.passes ≡ length captures.now + 1 }
    requires can { CanPerform commands.now shared.now.moment 0 (D.sight desk.old) }
    requires room { length thread.old.answers.items + length commands.now ≤ thread.old.answers.room }
    requires none { thread.old.answers.items ≡ [] }
    requires laid { AreLaidFor (length captures.now + 1) (line_now shared.now.line) hearing.old sendings.old.items }
    ensures run { IfOk result (λ joined. HasRun shared.now.setup.now shared.now.moment captures.now commands.now (D.sight desk.old) (D.sight desk.new) joined thread.new.answers.items) }
    ensures room { thread.new.answers.room ≡ thread.old.answers.room }
    ensures given_back { IfOk result (λ joined. thread.new.sending ≡ None) }
    ensures ends { IfOk result (λ joined. CanFinish (line_now shared.now.line) hearing.new sendings.new.items) }
    ensures told { IfOk result (λ joined. AreTold (lists_with joined (D.sight desk.new).own) (line_now shared.now.line) sendings.new.items) }
{
    what_fits_still_fits();
    let mut jobs = split_off(shared.alloc, desk, captures, sendings)?;
    thread.sending = sendings.take_first();
    run_threads(
        rt,
        shared,
        captures,
        jobs.as_mut_slice(),
        desk,
        thread,
        commands,
        hearing,
    )?;
    let joined = join_in(shared.alloc, desk, jobs, sendings)?;
    put_back(sendings, thread.sending.take())?;
    Ok(joined)
}

/// Replays as `run_to_wait` does, with a line where a listener is asked for, and gives what was heard of each thread.
fn run_told<R: Threads + Wait + Sync, G: Gate + Sync, D: SharedDesk + Send>(
    rt: &R,
    shared: &Shared<'_, '_, G>,
    desk: &mut D,
    captures: &[Capture],
    thread: &mut ScriptThread,
    commands: &[Command],
    listen: bool,
) -> Result<(Joined, Option<Listened>), NoMemory>
    requires lawful { AllByRecursion IsLawfulRule shared.now.setup.now.rules.items }
    requires captures { All CanBeReplayed captures.now }
    requires few { length captures.now ≤ 63 }
    requires fresh { IsFresh (D.sight desk.old).tracker (D.sight desk.old).sizes (D.sight desk.old) }
    requires passes { (D.sight desk.old).sizes.passes ≡ length captures.now + 1 }
    requires can { CanPerform commands.now shared.now.moment 0 (D.sight desk.old) }
    requires room { length thread.old.answers.items + length commands.now ≤ thread.old.answers.room }
    requires none { thread.old.answers.items ≡ [] }
    ensures run { IfOk result (λ done. HasRun shared.now.setup.now shared.now.moment captures.now commands.now (D.sight desk.old) (D.sight desk.new) done.0 thread.new.answers.items) }
    ensures room { thread.new.answers.room ≡ thread.old.answers.room }
    ensures heard { IfOk result (λ done. AreHeard (lists_with done.0 (D.sight desk.new).own) done.1) }
    ensures asked { IfOk result (λ done. is_some done.1 ≡ listen) }
    ensures given_back { IfOk result (λ done. thread.new.sending ≡ None) }
{
    let Telling {
        line,
        mut hearing,
        mut sendings,
    } = Telling::new(shared.alloc, listen, captures.len() as u32 + 1)?;
    let beside = Shared {
        alloc: shared.alloc,
        setup: shared.setup,
        gate: shared.gate,
        moment: shared.moment,
        line: line.as_ref(),
    };
    let joined = run_to_wait(
        rt,
        &beside,
        desk,
        captures,
        thread,
        commands,
        &mut hearing,
        &mut sendings,
    )?;
    let heard = finish(rt, line, hearing, sendings)?;
    let listened = counted(shared.alloc, heard, joined.lists.as_slice(), desk.made())?;
    Ok((joined, listened))
}

/// Does all the work of a tracker, whose first desk this is: it is the script's.
fn run_all<R: Threads + Wait + Sync, G: Gate + Sync, D: SharedDesk + Send>(
    rt: &R,
    shared: &Shared<'_, '_, G>,
    desk: &mut D,
    captures: &[Capture],
    script: &Script,
    listen: bool,
) -> Result<RunOutcome, NoMemory>
    requires lawful { AllByRecursion IsLawfulRule shared.now.setup.now.rules.items }
    requires captures { All CanBeReplayed captures.now }
    requires few { length captures.now ≤ 63 }
    requires commands { length script.now.commands.items ≤ 256 }
    requires named { All (λ c. moment_of c ≤ 10 ^ 16) script.now.commands.items }
    requires moment { shared.now.moment ≡ latest_of 0 (map given_frames captures.now) }
    requires no_line { shared.now.line ≡ None }
    requires limits { AreWithinLimits (D.sight desk.old).sizes }
    requires fresh { IsFresh (D.sight desk.old).tracker (D.sight desk.old).sizes (D.sight desk.old) }
    requires passes { (D.sight desk.old).sizes.passes ≡ length captures.now + 1 }
    requires knows { IsKnown (D.sight desk.old) }
    ensures run { IfOk result (λ outcome. IsRun (record { setup = shared.now.setup.now; sizes = (D.sight desk.old).sizes })
        (work_of captures.now script.now) (D.sight desk.old).tracker (left_with (D.sight desk.new) outcome)) }
    ensures asked { IfOk result (λ outcome. is_some outcome.heard ≡ listen) }
{
    what_fits_still_fits();
    let commands = script.commands.as_slice();
    let (before, behind) = commands.split_at(commands.len().min(script.wait as usize));
    let answers = Answers::new(shared.alloc, commands.len())?;
    let mut thread = ScriptThread {
        answers,
        sending: None,
    };
    let (joined, heard) = run_told(rt, shared, desk, captures, &mut thread, before, listen)?;
    let made = desk.made();
    let number = captures.len() as u32;
    run_script(rt, shared, desk, &mut thread, behind, made, number)?;
    Ok(RunOutcome {
        joined,
        answers: thread.answers,
        heard,
    })
}

/// Does all the work of a tracker of many threads, whose first desk this is, set up so: replays the captures, each in a
/// thread of its own with a share of this desk's; beside them performs the commands of the script before its line `wait`,
/// and once all captures were replayed those behind it, at the moment of the latest frame. Then all other desks have
/// joined this one, and the tracker can end. Where a thread wants memory, each thread has ended. Each thread passes the
/// gate before each packet or command, under its number: the captures' are those of their places, and the script's is the
/// next. If that is asked for, a listener hears the threads meanwhile, under the number behind the script's; those tell it
/// of their events after each packet, and after each command before `wait`, and wait for no room.
pub fn replay_on<R: Threads + Wait + Sync, G: Gate + Sync, D: SharedDesk + Send>(
    rt: &R,
    alloc: Global,
    desk: &mut D,
    captures: &[Capture],
    script: &Script,
    setup: &Setup,
    gate: &G,
    listen: bool,
) -> Result<RunOutcome, NoMemory>
    requires limits { AreWithinLimits (D.sight desk.old).sizes }
    requires fresh { IsFresh (D.sight desk.old).tracker (D.sight desk.old).sizes (D.sight desk.old) }
    requires passes { (D.sight desk.old).sizes.passes ≡ length captures.now + 1 }
    requires knows { IsKnown (D.sight desk.old) }
    requires inside { All (λ c. AreInside c.bytes.items c.frames.items) captures.now }
    requires timely { All (λ c. AreTimely c.frames.items) captures.now }
    requires threads { length captures.now ≤ 63 }
    requires few { frames_in captures.now ≤ 4194304 }
    requires commands { length script.now.commands.items ≤ 256 }
    requires named { All (λ c. moment_of c ≤ 10 ^ 16) script.now.commands.items }
    requires lawful { AllByRecursion IsLawfulRule setup.now.rules.items }
    ensures run { IfOk result (λ outcome. IsRun (record { setup = setup.now; sizes = (D.sight desk.old).sizes })
        (work_of captures.now script.now) (D.sight desk.old).tracker (left_with (D.sight desk.new) outcome)) }
    ensures asked { IfOk result (λ outcome. is_some outcome.heard ≡ listen) }
{
    let shared = Shared {
        alloc,
        setup,
        gate,
        moment: latest_moment(captures),
        line: None,
    };
    run_all(rt, &shared, desk, captures, script, listen)
}

/// Reports what became of each frame, and what was answered to each command, once the tracker with which all the work was
/// done has ended; and gives what was heard of each thread, where a listener was asked for.
pub fn report(
    alloc: Global,
    outcome: RunOutcome,
    closed: Closed,
) -> Result<(Report, Option<Listened>), NoMemory>
    requires { CanReport outcome closed }
    ensures well_formed { (tracker : TrackerSetup) (work : Work) → HasEnded tracker work outcome closed →
        IfOk result (λ made. IsWellFormed tracker work made.0) }
    ensures heard { (tracker : TrackerSetup) (work : Work) → HasEnded tracker work outcome closed →
        IfOk result (λ made. AreHeard (made_before_join work made.0) made.1) }
    ensures asked { IfOk result (λ made. is_some made.1 ≡ is_some outcome.heard) }
{
    what_fits_still_fits();
    let RunOutcome {
        joined,
        answers,
        heard,
    } = outcome;
    let Closed { notes, live, .. } = closed;
    let Joined { mut lists, threads } = joined;
    match lists.push(notes) {
        Ok(()) => {}
        Err(_) => return Err(NoMemory),
    }
    let report = merge(alloc, lists, threads, answers, live)?;
    Ok((report, heard))
}
