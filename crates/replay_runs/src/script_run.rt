//! Performs the commands of a script.

ghost use Rattle.std.specs.Prelude.{◌≡◌, ◌+◌, ◌≤◌, length, map, OnErr, OnOk};
ghost use Rattle.replay_runs.specs.Internal.Answered.{Answered, CanPerform};
ghost use Rattle.replay_runs.specs.Internal.Replayed.{given_frames};
ghost use Rattle.replay_runs.specs.Internal.Stopped.{Stopped};
ghost use Rattle.replay_runs.specs.Internal.Telling.{Between, HasTold, line_now, queue_of};
ghost use Rattle.replay_runs.specs.Report.{latest, latest_of};

use crate::shared::Shared;
use crate::telling::tell;
use conntrack_cmd::command::Command;
use conntrack_cmd::laws::{answers_still_fit, lower_marks_fit};
use conntrack_cmd::perform::perform;
use ct_io::{Crossing, Gate};
use event_listen::sending::Sending;
use history_book::answer::{Answer, Answers};
use history_book::desk::Desk;
use history_book::sight_laws::going_on_adds_up;
use packet_headers::frame::Capture;
use std::sync::Wait;
use tuple_core::NoMemory;

/// The thread of a script: the answers to its commands, and its end of the line to a listener where there is one.
#[derive(Drop)]
pub struct ScriptThread {
    pub answers: Answers,
    pub sending: Option<Sending>,
}

/// The greatest of a moment and those of the frames of a capture.
fn latest_in(capture: &Capture, moment: u64) -> u64
    ensures { result ≡ latest moment (given_frames capture.now) }
{
    let mut moment = moment;
    'frames: for frame in capture.frames.as_slice() {
        moment = moment.max(frame.moment);
    }
    moment
}

/// The greatest moment of any frame of the captures, 0 where there is none.
pub fn latest_moment(captures: &[Capture]) -> u64
    ensures { result ≡ latest_of 0 (map given_frames captures.now) }
{
    let mut moment = 0;
    'captures: for capture in captures {
        moment = latest_in(capture, moment);
    }
    moment
}

/// Performs commands of a script in their order, with a desk that holds and owes nothing: what is answered to each at the
/// script's moment comes behind the answers that are there. Before these the script made `first` events, which are the
/// last that the desk made. The thread of this number passes the gate before each, and tells the listener behind it.
pub fn run_script<R: Wait, G: Gate, D: Desk>(
    rt: &R,
    shared: &Shared<'_, '_, G>,
    desk: &mut D,
    thread: &mut ScriptThread,
    commands: &[Command],
    first: u64,
    number: u32,
) -> Result<(), NoMemory>
    requires can { CanPerform commands.now shared.now.moment first (D.sight desk.old) }
    requires room { length thread.old.answers.items + length commands.now ≤ thread.old.answers.room }
    requires told { Between (HasTold (D.sight desk.old).own) (line_now shared.now.line) thread.old.sending }
    ensures performed { OnOk result (Answered commands.now shared.now.moment first
        (D.sight desk.old) (D.sight desk.new) thread.old.answers.items thread.new.answers.items) }
    ensures stopped { OnErr result (Stopped (D.sight desk.old) (D.sight desk.new)) }
    ensures room { thread.new.answers.room ≡ thread.old.answers.room }
    ensures told { OnOk result (Between (HasTold (D.sight desk.new).own) (line_now shared.now.line) thread.new.sending) }
    ensures queue { queue_of thread.new.sending ≡ queue_of thread.old.sending }
{
    answers_still_fit();
    lower_marks_fit();
    going_on_adds_up();
    let base = desk.made() - first;
    'commands: for command in commands {
        shared.gate.at(number, Crossing::BeforeCommand);
        let answer = perform(rt, shared.alloc, desk, command, shared.moment)?;
        thread.answers.push(Answer {
            first: answer.first - base,
            ..answer
        });
        tell(rt, shared.line, &mut thread.sending, desk);
    }
    Ok(())
}
