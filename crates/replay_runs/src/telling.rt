//! A line to a listener, where one is asked for: its ends, and what a thread tells by its own.

ghost use Rattle.std.specs.Prelude.{◌≡◌, ◌≤◌, ◌++◌, List, IfOk, OnOk, is_some};
ghost use Rattle.std.specs.Option.{option_to_list};
ghost use Rattle.history_book.specs.declared.event.Note.{Note};
ghost use Rattle.replay_runs.specs.Heard.{HeardEach};
ghost use Rattle.replay_runs.specs.Internal.Telling.{AreTold, Between, CanFinish, HasTold, Hears, AreLaidFor, IsAlong, line_now, queue_of};

use ct_io::Gate;
use event_listen::heard::Heard;
use event_listen::hearing::Hearing;
use event_listen::line::Line;
use event_listen::sending::{Sending, Sendings};
use history_book::desk::Desk;
use std::alloc::Global;
use std::sync::Wait;
use tuple_core::NoMemory;

/// How many notes the queue of each thread holds at most.
const QUEUE: u32 = 1_024;

/// A line to a listener with all of its ends; nothing where no listener is asked for.
#[derive(Drop)]
pub struct Telling {
    pub line: Option<Line>,
    pub hearing: Option<Hearing>,
    pub sendings: Sendings,
}

impl Telling {
    /// A line from so many threads, if a listener is asked for.
    pub fn new(alloc: Global, listen: bool, threads: u32) -> Result<Telling, NoMemory>
        requires some { 1 ≤ threads }
        requires few { threads ≤ 64 }
        ensures laid { IfOk result (λ telling. AreLaidFor threads telling.line telling.hearing telling.sendings.items) }
        ensures asked { IfOk result (λ telling. is_some telling.line ≡ listen) }
    {
        if !listen {
            let sendings = Sendings::new(alloc, 0)?;
            return Ok(Telling {
                line: None,
                hearing: None,
                sendings,
            });
        }
        let (line, hearing, sendings) = Line::new(alloc, threads, QUEUE)?;
        Ok(Telling {
            line: Some(line),
            hearing: Some(hearing),
            sendings,
        })
    }
}

/// What the listener heard of each thread, once all of them have ended, and it too.
pub fn finish<R: Wait>(
    rt: &R,
    line: Option<Line>,
    hearing: Option<Hearing>,
    sendings: Sendings,
) -> Result<Option<Heard>, NoMemory>
    requires { CanFinish line hearing sendings.items }
    ensures heard { (made : List (List Note)) → AreTold made line sendings.items → IfOk result (HeardEach made) }
    ensures asked { IfOk result (λ heard. is_some heard ≡ is_some line) }
{
    match (line, hearing) {
        (Some(line), Some(hearing)) => {
            let heard = line.finish(rt, hearing, sendings)?;
            Ok(Some(heard))
        }
        _ => Ok(None),
    }
}

/// Tells the listener of a thread's new events, where there is one.
#[inline(always)]
pub fn tell<R: Wait, D: Desk>(rt: &R, line: Option<&Line>, sending: &mut Option<Sending>, desk: &D)
    requires { Between (IsAlong (D.sight desk.now).own) (line_now line) sending.old }
    ensures told { Between (HasTold (D.sight desk.now).own) (line_now line.entry) sending.new }
    ensures queue { queue_of sending.new ≡ queue_of sending.old }
{
    let Some(line) = line else {
        return;
    };
    let Some(sending) = sending else {
        return;
    };
    sending.pump(rt, line, desk);
}

/// Ends listening, where there is a listener.
pub fn hush(line: Option<&Line>) {
    if let Some(line) = line {
        line.hush();
    }
}

/// Lets the listener hear the threads until the line is hushed, where there is one.
pub fn listen<R: Wait, G: Gate>(
    rt: &R,
    line: Option<&Line>,
    hearing: &mut Option<Hearing>,
    gate: &G,
    worker: u32,
) -> Result<(), NoMemory>
    requires { Hears (line_now line) hearing.old }
    ensures { Hears (line_now line.entry) hearing.new }
{
    let Some(line) = line else {
        return Ok(());
    };
    let Some(hearing) = hearing else {
        return Ok(());
    };
    hearing.listen(rt, line, gate, worker)
}

/// Puts a thread's end of a line, if it has one, behind others.
pub fn put_back(sendings: &mut Sendings, sending: Option<Sending>) -> Result<(), NoMemory>
    ensures { OnOk result (sendings.new.items ≡ sendings.old.items ++ option_to_list sending) }
{
    let Some(sending) = sending else {
        return Ok(());
    };
    sendings.reserve(1)?;
    sendings.push(sending);
    Ok(())
}
