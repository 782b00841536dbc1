//! Two senders and a listener on threads of their own.

ghost use Rattle.std.specs.Prelude.{◌≡◌, All, IfOk};
ghost use denote.Param.Send.{IsSync};
ghost use Rattle.event_listen.specs.Line.{AreSendingsOf, HasSentNothing, IsHearingOf, IsSendingOf};
ghost use Rattle.event_listen.specs.Pump.{BeginsWith};

use super::told::Told;
use super::{PORT, check_two, line_of, pump_on};
use ct_io::NoGate;
use event_listen::heard::Heard;
use event_listen::hearing::Hearing;
use event_listen::line::Line;
use event_listen::sending::{Pumped, Sending, Sendings};
use std::alloc::Global;
use std::process::Abort;
use std::sync::Wait;
use std::test::Fail;
use std::thread;
use std::thread::Threads;
use tuple_core::NoMemory;

/// How often a sender looks for room, at most.
const TURNS: u32 = 1 << 28;

/// Pumps until every own event of the desk is sent, or it has looked for room often enough.
fn send_all<R: Wait>(rt: &R, line: &Line, mut sending: Sending, desk: &Told) -> Sending
    requires line { IsSendingOf line.now sending }
    requires own { BeginsWith desk.now.own sending.sent }
    ensures line { IsSendingOf line.now result }
    ensures queue { result.queue ≡ sending.queue }
{
    'pumps: for _ in 0..TURNS {
        match pump_on(rt, line, &mut sending, desk) {
            Pumped::All => break,
            Pumped::Full => thread::yield_now(),
        }
    }
    sending
}

/// Two senders, beside each other; then the line is hushed.
fn send_both<R: Threads + Wait + Sync>(
    rt: &R,
    line: &Line,
    senders: (Sending, Sending),
    desks: (&Told, &Told),
) -> (Sending, Sending)
    requires first { IsSendingOf line.now senders.0 }
    requires second { IsSendingOf line.now senders.1 }
    requires first_own { BeginsWith desks.0.now.own senders.0.sent }
    requires second_own { BeginsWith desks.1.now.own senders.1.sent }
    ensures first { IsSendingOf line.now result.0 }
    ensures second { IsSendingOf line.now result.1 }
    ensures first_queue { result.0.queue ≡ senders.0.queue }
    ensures second_queue { result.1.queue ≡ senders.1.queue }
{
    let (first, second) = senders;
    let (one, other) = desks;
    let sent = thread::join(
        rt,
        move ||
            requires { IsSendingOf line.now first × BeginsWith one.now.own first.sent }
            ensures { IsSendingOf line.entry.now result × (result.queue ≡ first.queue) }
        { send_all(rt, line, first, one) },
        move ||
            requires { IsSendingOf line.now second × BeginsWith other.now.own second.sent }
            ensures { IsSendingOf line.entry.now result × (result.queue ≡ second.queue) }
        { send_all(rt, line, second, other) },
    );
    line.hush();
    sent
}

/// The listener's end, once the line was hushed.
fn listened<R: Wait>(rt: &R, line: &Line, mut hearing: Hearing) -> Result<Hearing, NoMemory>
    requires { IsHearingOf line.now hearing }
    ensures { IfOk result (IsHearingOf line.now) }
{
    hearing.listen(rt, line, &NoGate, 3)?;
    Ok(hearing)
}

/// The listener beside the two senders.
fn run<R: Threads + Wait + Sync>(
    rt: &R,
    line: &Line,
    senders: (Sending, Sending),
    desks: (&Told, &Told),
    hearing: Hearing,
) -> ((Sending, Sending), Result<Hearing, NoMemory>)
    requires first { IsSendingOf line.now senders.0 }
    requires second { IsSendingOf line.now senders.1 }
    requires first_own { BeginsWith desks.0.now.own senders.0.sent }
    requires second_own { BeginsWith desks.1.now.own senders.1.sent }
    requires hearing { IsHearingOf line.now hearing }
    ensures first { IsSendingOf line.now result.0.0 }
    ensures second { IsSendingOf line.now result.0.1 }
    ensures first_queue { result.0.0.queue ≡ senders.0.queue }
    ensures second_queue { result.0.1.queue ≡ senders.1.queue }
    ensures hearing { IfOk result.1 (IsHearingOf line.now) }
{
    let (one, other) = desks;
    let (first, second) = senders;
    // Where no thread can be made the first call comes last.
    let (hearing, senders) = thread::join(
        rt,
        move ||
            requires { IsHearingOf line.now hearing }
            ensures { IfOk result (IsHearingOf line.entry.now) }
        { listened(rt, line, hearing) },
        move ||
            requires { IsSync R.row × IsSendingOf line.now first × IsSendingOf line.now second × BeginsWith one.now.own first.sent × BeginsWith other.now.own second.sent }
            ensures { IsSendingOf line.entry.now result.0 × IsSendingOf line.entry.now result.1 × (result.0.queue ≡ first.queue) × (result.1.queue ≡ second.queue) }
        { send_both(rt, line, (first, second), (one, other)) },
    );
    (senders, hearing)
}

/// The same of the last two senders of the list, which are put back.
fn run_last_two<R: Threads + Wait + Sync + Abort>(
    rt: &R,
    line: &Line,
    sendings: &mut Sendings,
    desks: (&Told, &Told),
    hearing: Hearing,
) -> Result<Hearing, NoMemory>
    requires sendings { AreSendingsOf line.now sendings.old.items }
    requires unsent { All HasSentNothing sendings.old.items }
    requires hearing { IsHearingOf line.now hearing }
    ensures sendings { AreSendingsOf line.now sendings.new.items }
    ensures hearing { IfOk result (IsHearingOf line.now) }
{
    let Some(second) = sendings.pop() else {
        panic!(rt; "no second sender")
    };
    let Some(first) = sendings.pop() else {
        panic!(rt; "no first sender")
    };
    let (sent, hearing) = run(rt, line, (first, second), desks, hearing);
    let (first, second) = sent;
    sendings.push(first);
    sendings.push(second);
    hearing
}

/// What a line with room for two notes of each sender hears of the desks, while it is listened to.
fn heard_beside<R: Threads + Wait + Sync + Abort>(
    rt: &R,
    alloc: Global,
    desks: (&Told, &Told),
) -> Result<Heard, NoMemory> {
    let (line, hearing, mut sendings) = line_of(alloc, 2, 2)?;
    let hearing = run_last_two(rt, &line, &mut sendings, desks, hearing)?;
    line.finish(rt, hearing, sendings)
}

/// The same of a desk with 1,000 events and one with 700.
fn heard_of_two<R: Threads + Wait + Sync + Abort>(
    rt: &R,
    alloc: Global,
) -> Result<Heard, NoMemory> {
    let one = Told::new(rt, alloc, PORT, 1_000)?;
    let other = Told::new(rt, alloc, PORT + 1, 700)?;
    heard_beside(rt, alloc, (&one, &other))
}

#[test]
fn two_senders_beside_a_listener(rt: HostRuntime) -> Result<(), Fail> {
    let heard = heard_of_two(&rt, rt.alloc())?;
    check_two(&rt, &heard, 1_000, 700);
    Ok(())
}
