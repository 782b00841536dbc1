//! Lines by hand, and on threads.

ghost use Rattle.std.specs.Prelude.{◌≡◌, ◌<◌, ◌≤◌, ◌^◌, length, map, All, IfOk, OnOk};
ghost use Rattle.event_listen.specs.Line.{AreSendingsOf, HasSentNothing, IsHearingOf, IsSendingOf};
ghost use Rattle.event_listen.specs.Pump.{BeginsWith};

use ct_io::{Crossing, Gate, NoGate};
use event_listen::heard::Heard;
use event_listen::hearing::Hearing;
use event_listen::line::Line;
use event_listen::sending::{Pumped, Sending, Sendings};
use history_book::desk::Desk;
use std::alloc::Global;
use std::process::Abort;
use std::sync::Wait;
use std::sync::atomic::{AtomicU64, Ordering};
use std::test::Fail;
use told::{Told, are_first};
use tuple_core::NoMemory;

mod threads;
mod told;

/// A sender's port, by its number.
const PORT: u16 = 5000;

/// A line of so many senders with its ends. The contract says only what the tests need.
fn line_of(
    alloc: Global,
    senders: u32,
    capacity: u32,
) -> Result<(Line, Hearing, Sendings), NoMemory>
    requires some { 1 ≤ senders }
    requires few { senders ≤ 64 }
    requires capacity { 1 ≤ capacity }
    ensures hearing { IfOk result (λ made. IsHearingOf made.0 made.1) }
    ensures sendings { IfOk result (λ made. AreSendingsOf made.0 made.2.items) }
    ensures unsent { IfOk result (λ made. All HasSentNothing made.2.items) }
    ensures count { IfOk result (λ made. length made.2.items ≡ senders) }
{
    Line::new(alloc, senders, capacity)
}

/// Of one sender was heard: so many first events.
fn check_one<R: Abort>(rt: &R, heard: &Heard, count: usize) {
    assert!(rt; heard.len() == 1);
    assert!(rt; are_first(heard.at(0), PORT, count));
}

/// Of two senders was heard: so many first events of each.
fn check_two<R: Abort>(rt: &R, heard: &Heard, first: usize, second: usize) {
    assert!(rt; heard.len() == 2);
    assert!(rt; are_first(heard.at(0), PORT, first));
    assert!(rt; are_first(heard.at(1), PORT + 1, second));
}

/// Pumps a desk's events into the line by the sender of this number, which has sent nothing.
fn pump_at<D: Desk, R: Wait + Abort>(
    rt: &R,
    line: &Line,
    sendings: &mut Sendings,
    sender: usize,
    desk: &D,
) -> Pumped
    requires sender { sender < length sendings.old.items }
    requires each { All (IsSendingOf line.now) sendings.old.items }
    ensures queues { map (λ s. s.queue) sendings.new.items ≡ map (λ s. s.queue) sendings.old.items }
    ensures each { All (IsSendingOf line.now) sendings.new.items }
    ensures room { sendings.new.room ≡ sendings.old.room }
{
    let count = sendings.len();
    let Some(mut sending) = sendings.pop() else {
        unreachable!()
    };
    if sender + 1 < count {
        let pumped = pump_at(rt, line, sendings, sender, desk);
        sendings.push(sending);
        return pumped;
    }
    let sent = sending.sent();
    if sent > 0 {
        panic!(rt; "sender {sender} has sent {sent}");
    }
    let pumped = sending.pump(rt, line, desk);
    sendings.push(sending);
    pumped
}

fn is_all(pumped: Pumped) -> bool {
    matches!(pumped, Pumped::All)
}

/// The same of a line whose ends are all there before and after.
fn pump_one<D: Desk, R: Wait + Abort>(
    rt: &R,
    line: &Line,
    sendings: &mut Sendings,
    sender: usize,
    desk: &D,
) -> bool
    requires sender { sender < length sendings.old.items }
    requires sendings { AreSendingsOf line.now sendings.old.items }
    ensures sendings { AreSendingsOf line.now sendings.new.items }
    ensures count { length sendings.new.items ≡ length sendings.old.items }
{
    is_all(pump_at(rt, line, sendings, sender, desk))
}

/// The only sender of a line with room for one note pumps a desk with more.
fn pump_some<R: Wait + Abort>(rt: &R, line: &Line, sendings: &mut Sendings, desk: &Told)
    requires count { length sendings.old.items ≡ 1 }
    requires sendings { AreSendingsOf line.now sendings.old.items }
    ensures { AreSendingsOf line.now sendings.new.items }
{
    assert!(rt; !pump_one(rt, line, sendings, 0, desk));
    assert_eq!(rt; sendings.len(), 1);
    assert_eq!(rt; sendings.at(0).sent(), 1);
}

/// What such a line hears of the desk, where no listener starts.
fn heard_of_full<R: Wait + Abort>(rt: &R, alloc: Global, desk: &Told) -> Result<Heard, NoMemory> {
    let (line, hearing, mut sendings) = line_of(alloc, 1, 1)?;
    pump_some(rt, &line, &mut sendings, desk);
    line.finish(rt, hearing, sendings)
}

#[test]
fn without_a_listener_what_fits_is_heard(rt: HostRuntime) -> Result<(), Fail> {
    let desk = Told::new(&rt, rt.alloc(), PORT, 2)?;
    let heard = heard_of_full(&rt, rt.alloc(), &desk)?;
    check_one(&rt, &heard, 1);
    Ok(())
}

/// Counts the notes that a listener of this number heard.
#[derive(Drop)]
struct Counted {
    worker: u32,
    notes: AtomicU64,
}

impl Gate for Counted {
    fn at(&self, worker: u32, crossing: Crossing) {
        if let (true, Crossing::Heard) = (worker == self.worker, crossing) {
            self.notes.fetch_add(1, Ordering::SeqCst);
        }
    }
}

/// Pumps by a sender that has sent the first events of the desk.
fn pump_on<R: Wait>(rt: &R, line: &Line, sending: &mut Sending, desk: &Told) -> Pumped
    requires line { IsSendingOf line.now sending.old }
    requires own { BeginsWith desk.now.own sending.old.sent }
    ensures line { IsSendingOf line.now sending.new }
    ensures own { BeginsWith desk.now.own sending.new.sent }
    ensures queue { sending.new.queue ≡ sending.old.queue }
{
    sending.pump(rt, line, desk)
}

/// Sends the first of two events into a queue for one, and the second once the listener has made room.
fn send_in_turn<R: Wait + Abort>(
    rt: &R,
    line: &Line,
    hearing: &mut Hearing,
    sending: &mut Sending,
    desk: &Told,
) -> Result<(), NoMemory>
    requires hearing { IsHearingOf line.now hearing.old }
    requires line { IsSendingOf line.now sending.old }
    requires own { BeginsWith desk.now.own sending.old.sent }
    ensures hearing { IsHearingOf line.now hearing.new }
    ensures line { IsSendingOf line.now sending.new }
    ensures queue { sending.new.queue ≡ sending.old.queue }
{
    let gate = Counted {
        worker: 2,
        notes: AtomicU64::new(0),
    };
    assert_eq!(rt; sending.sent(), 0);
    let first = pump_on(rt, line, sending, desk);
    assert!(rt; !is_all(first));
    line.hush();
    hearing.listen(rt, line, &gate, 2)?;
    assert_eq!(rt; gate.notes.load(Ordering::SeqCst), 1);
    let second = pump_on(rt, line, sending, desk);
    assert!(rt; is_all(second));
    assert_eq!(rt; sending.sent(), 2);
    Ok(())
}

/// The last sender of the list does so, and is put back.
fn last_sends_in_turn<R: Wait + Abort>(
    rt: &R,
    line: &Line,
    hearing: &mut Hearing,
    sendings: &mut Sendings,
    desk: &Told,
) -> Result<(), NoMemory>
    requires hearing { IsHearingOf line.now hearing.old }
    requires sendings { AreSendingsOf line.now sendings.old.items }
    requires unsent { All HasSentNothing sendings.old.items }
    ensures hearing { IsHearingOf line.now hearing.new }
    ensures sendings { AreSendingsOf line.now sendings.new.items }
{
    let Some(mut sending) = sendings.pop() else {
        panic!(rt; "no sender")
    };
    let sent = send_in_turn(rt, line, hearing, &mut sending, desk);
    sendings.push(sending);
    sent
}

/// What a line with room for one note hears of a desk with two that are sent in turn.
fn heard_in_turn<R: Wait + Abort>(rt: &R, alloc: Global, desk: &Told) -> Result<Heard, NoMemory> {
    let (line, mut hearing, mut sendings) = line_of(alloc, 1, 1)?;
    last_sends_in_turn(rt, &line, &mut hearing, &mut sendings, desk)?;
    line.finish(rt, hearing, sendings)
}

#[test]
fn what_did_not_fit_is_sent_once_there_is_room(rt: HostRuntime) -> Result<(), Fail> {
    let desk = Told::new(&rt, rt.alloc(), PORT, 2)?;
    let heard = heard_in_turn(&rt, rt.alloc(), &desk)?;
    check_one(&rt, &heard, 2);
    Ok(())
}

/// The first of two senders pumps all events of a desk, and the second one some of another's.
fn pump_two<R: Wait + Abort>(rt: &R, line: &Line, sendings: &mut Sendings, one: &Told, other: &Told)
    requires sendings { AreSendingsOf line.now sendings.old.items }
    ensures sendings { AreSendingsOf line.now sendings.new.items }
{
    assert!(rt; sendings.len() == 2);
    assert!(rt; pump_one(rt, line, sendings, 0, one));
    assert!(rt; sendings.len() == 2);
    assert!(rt; !pump_one(rt, line, sendings, 1, other));
}

/// What a line with room for four notes of each sender hears of the desks, of which the second one has more.
fn heard_apart<R: Wait + Abort>(
    rt: &R,
    alloc: Global,
    one: &Told,
    other: &Told,
) -> Result<Heard, NoMemory> {
    let (line, mut hearing, mut sendings) = line_of(alloc, 2, 4)?;
    pump_two(rt, &line, &mut sendings, one, other);
    line.hush();
    // Where memory is wanting here, what was not heard is still in the queues.
    let _ = hearing.listen(rt, &line, &NoGate, 3);
    line.finish(rt, hearing, sendings)
}

/// The same of a desk with three events and one with five.
fn heard_of_two<R: Wait + Abort>(rt: &R, alloc: Global) -> Result<Heard, NoMemory> {
    let one = Told::new(rt, alloc, PORT, 3)?;
    let other = Told::new(rt, alloc, PORT + 1, 5)?;
    heard_apart(rt, alloc, &one, &other)
}

#[test]
fn two_senders_are_told_apart(rt: HostRuntime) -> Result<(), Fail> {
    let heard = heard_of_two(&rt, rt.alloc())?;
    check_two(&rt, &heard, 3, 4);
    Ok(())
}

/// What a line of the program's capacity hears of a desk with so many events, where no listener starts; and whether all
/// of them were sent.
fn heard_of<R: Wait + Abort>(rt: &R, alloc: Global, events: u32) -> Result<(bool, Heard), NoMemory>
    requires { events ≤ 2 ^ 20 }
{
    let desk = Told::new(rt, alloc, PORT, events)?;
    let (line, hearing, mut sendings) = line_of(alloc, 1, 1_024)?;
    let is_sent = pump_one(rt, &line, &mut sendings, 0, &desk);
    let heard = line.finish(rt, hearing, sendings)?;
    Ok((is_sent, heard))
}

#[test]
fn as_many_as_fit_and_one_more(rt: HostRuntime) -> Result<(), Fail> {
    let (is_sent, heard) = heard_of(&rt, rt.alloc(), 1_024)?;
    assert!(rt; is_sent);
    check_one(&rt, &heard, 1_024);
    let (is_sent, heard) = heard_of(&rt, rt.alloc(), 1_025)?;
    assert!(rt; !is_sent);
    check_one(&rt, &heard, 1_024);
    Ok(())
}

/// Each of the senders, up to 63, pumps as many events as its number says. Only those up to the capacity are sent all.
fn pump_each<R: Wait + Abort>(
    rt: &R,
    alloc: Global,
    line: &Line,
    sendings: &mut Sendings,
    capacity: u16,
) -> Result<(), NoMemory>
    requires { AreSendingsOf line.now sendings.old.items }
    ensures { OnOk result (AreSendingsOf line.now sendings.new.items) }
{
    'senders: for sender in 0..63u16 {
        let index = usize::from(sender);
        assert!(rt; index < sendings.len());
        let desk = Told::new(rt, alloc, PORT + sender, u32::from(sender))?;
        let is_sent = pump_one(rt, line, sendings, index, &desk);
        assert_eq!(rt; is_sent, sender <= capacity);
    }
    Ok(())
}

#[test]
fn sixty_three_senders(rt: HostRuntime) -> Result<(), Fail> {
    let (line, hearing, mut sendings) = line_of(rt.alloc(), 63, 32)?;
    pump_each(&rt, rt.alloc(), &line, &mut sendings, 32)?;
    let heard = line.finish(&rt, hearing, sendings)?;
    assert!(rt; heard.len() == 63);
    'lists: for sender in 0..63u16 {
        let notes = heard.at(usize::from(sender));
        assert!(rt; are_first(notes, PORT + sender, usize::from(sender.min(32))));
    }
    Ok(())
}

/// The last end of the list goes to another list, and ends there.
fn move_last<R: Abort>(rt: &R, alloc: Global, sendings: &mut Sendings) -> Result<(), NoMemory> {
    let mut others = Sendings::new(alloc, 0)?;
    others.reserve(1)?;
    let Some(last) = sendings.pop() else {
        panic!(rt; "no end")
    };
    others.push(last);
    assert!(rt; others.len() == 1);
    assert_eq!(rt; others.at(0).sent(), 0);
    others.clear();
    assert!(rt; others.pop().is_none());
    Ok(())
}

#[test]
fn ends_in_a_list(rt: HostRuntime) -> Result<(), Fail> {
    let mut sendings = Line::new(rt.alloc(), 2, 1)?.2;
    move_last(&rt, rt.alloc(), &mut sendings)?;
    assert_eq!(rt; sendings.len(), 1);
    Ok(())
}
