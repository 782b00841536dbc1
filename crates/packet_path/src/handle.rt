//! What becomes of one packet, over any desk.

ghost use Rattle.std.specs.Prelude.{◌≡◌, ℕ, ◌+◌, ◌<◌, ◌≤◌, ◌^◌, true, false, List, [], length, IfOk, OnErr};
ghost use Rattle.std.specs.List.{AllByRecursion};
ghost use Rattle.tuple_core.specs.Tuple.{is_valid};
ghost use Rattle.history_book.specs.WentOn.{Saw};
ghost use Rattle.history_book.specs.Sight.{IsKnown};
ghost use Rattle.nat_setup.specs.Rule.{IsLawfulRule};
ghost use Rattle.packet_headers.specs.ClassifySound.{has_valid_tuple, HasItsProtocol, HasPayloadIn};
ghost use Rattle.packet_headers.specs.declared.packet.Packet.TheVariants.{Error};
ghost use Rattle.packet_path.specs.Handled.{Handled};
ghost use Rattle.packet_path.specs.Internal.Attempt.{IsClassified};
ghost use Rattle.history_book.specs.Places.{HoldsNothing};
ghost use Rattle.packet_path.specs.Packet.{cause_of, flow_packet, given_by, given_of, Given, IsFlow, is_flow, packet_in};
ghost use Rattle.history_book.specs.Mark.{points_of};
ghost use Rattle.packet_path.specs.Taken.{taken_by};
ghost use Rattle.packet_path.specs.Verdict.{FitsFrame};

use crate::attempt::{Attempt, try_packet};
use crate::packet::{FlowView, flow_in};
use crate::setup::Setup;
use history_book::desk::Desk;
use history_book::outcome::FindOutcome;
use history_book::places::give_up;
use history_book::sight_laws::{desks_go_on, going_on_adds_up};
use history_book::verdict::{Class, UntrackedWhy, Verdict};
use packet_headers::classify::classify;
use packet_headers::frame::Frame;
use packet_headers::packet::{Packet, Untracked};
use std::sync::Wait;
use tuple_core::{NoMemory, Tuple, invert};

/// Handles a packet of a flow: attempts are made until one says what became of it.
#[inline(always)]
fn handle_flow<R: Wait, D: Desk>(rt: &R, desk: &mut D, packet: &FlowView, setup: &Setup) -> Verdict
    requires lawful { AllByRecursion IsLawfulRule setup.now.rules.items }
    requires classified { IsClassified (flow_packet packet.now) }
    requires empty { HoldsNothing (D.sight desk.old) }
    requires spare { 7 ≤ (D.sight desk.old).spare }
    ensures handled { (given : Given) → IsFlow given (flow_packet packet.now) →
        Handled setup.now given (D.sight desk.old) (D.sight desk.new) result }
    ensures knows { IsKnown (D.sight desk.new) }
{
    desks_go_on();
    let first = desk.made();
    let mut kills = 0;
    'attempts: for _ in rt.forever() {
        match try_packet(rt, desk, packet, setup, kills) {
            Attempt::Done(class) => {
                let made = (desk.made() - first) as u8;
                return Verdict { class, first, made };
            }
            Attempt::Killed => kills += 1,
            Attempt::Again => {}
        }
    }
    unreachable!()
}

/// Looks up the entry that an ICMP error is about, by the inverse of the tuple in it.
#[inline(always)]
fn error_class<R: Wait, D: Desk>(
    rt: &R,
    desk: &mut D,
    inner: &Tuple,
    outer_destination: u32,
) -> Class
    requires valid { is_valid inner.now ≡ true }
    requires empty { HoldsNothing (D.sight desk.old) }
    ensures saw { Saw (D.sight desk.old) (D.sight desk.new) }
    ensures fits { (setup : Setup) (moment : ℕ) → FitsFrame setup (D.sight desk.old).sizes (D.sight desk.new).front
        (length (D.sight desk.old).front)
        (record { packet = Error inner.now outer_destination; moment = moment; payload = [] }) [] result }
    ensures points { AllByRecursion (λ p. p ≤ length (D.sight desk.new).front) (points_of result) }
    ensures empty { HoldsNothing (D.sight desk.new) }
    ensures taken { (D.sight desk.new).taken ≡ taken_by result (D.sight desk.old).taken }
    ensures knows { IsKnown (D.sight desk.new) }
{
    desks_go_on();
    let looked_up = invert(inner);
    match desk.find(rt, &looked_up) {
        FindOutcome::Absent { at } => Class::ErrorLost { at },
        FindOutcome::Found {
            place,
            id,
            direction,
            at,
        } => {
            give_up(rt, desk, place);
            if looked_up.dst == outer_destination {
                Class::Error { direction, id, at }
            } else {
                Class::ErrorAddress { id, at }
            }
        }
    }
}

/// Why a frame is not tracked, as a verdict says it.
#[inline(always)]
fn untracked_why(cause: Untracked) -> UntrackedWhy
    ensures { cause_of result ≡ cause }
{
    match cause {
        Untracked::Link => UntrackedWhy::Link,
        Untracked::Fragment => UntrackedWhy::Fragment,
        Untracked::Protocol => UntrackedWhy::Protocol,
    }
}

/// The class of a packet in a zone that is of no flow. It makes no event.
#[inline(always)]
pub(crate) fn other_class<R: Wait, D: Desk>(
    rt: &R,
    desk: &mut D,
    packet: &Packet,
    zone: u16,
) -> Class
    requires other { is_flow packet.now ≡ false }
    requires valid { has_valid_tuple packet.now ≡ true }
    requires empty { HoldsNothing (D.sight desk.old) }
    requires knows { IsKnown (D.sight desk.old) }
    ensures saw { Saw (D.sight desk.old) (D.sight desk.new) }
    ensures fits { (setup : Setup) (bytes : List ℕ) (moment : ℕ) → FitsFrame setup (D.sight desk.old).sizes (D.sight desk.new).front
        (length (D.sight desk.old).front) (given_by bytes (packet_in zone packet.now) moment) [] result }
    ensures points { AllByRecursion (λ p. p ≤ length (D.sight desk.new).front) (points_of result) }
    ensures empty { HoldsNothing (D.sight desk.new) }
    ensures taken { (D.sight desk.new).taken ≡ taken_by result (D.sight desk.old).taken }
    ensures knows { IsKnown (D.sight desk.new) }
{
    going_on_adds_up();
    match packet {
        Packet::Flow { .. } => unreachable!(),
        Packet::Untracked(cause) => Class::Untracked(untracked_why(*cause)),
        Packet::Invalid => Class::BadHeader,
        Packet::Error {
            inner,
            outer_destination,
        } => error_class(rt, desk, &inner.in_zone(zone), *outer_destination),
    }
}

/// Handles one packet of a file with these bytes in a zone, by what its headers say. Only a packet of a flow makes events.
#[inline(always)]
fn handle_packet<R: Wait, D: Desk>(
    rt: &R,
    desk: &mut D,
    bytes: &[u8],
    packet: &Packet,
    moment: u64,
    zone: u16,
    setup: &Setup,
) -> Verdict
    requires lawful { AllByRecursion IsLawfulRule setup.now.rules.items }
    requires valid { has_valid_tuple packet.now ≡ true }
    requires protocol { HasItsProtocol packet.now }
    requires inside { HasPayloadIn bytes.now packet.now }
    requires timely { moment ≤ 10 ^ 16 }
    requires empty { HoldsNothing (D.sight desk.old) }
    requires spare { 7 ≤ (D.sight desk.old).spare }
    ensures handled { Handled setup.now (given_by bytes.now (packet_in zone packet.now) moment)
        (D.sight desk.old) (D.sight desk.new) result }
    ensures knows { IsKnown (D.sight desk.new) }
{
    let first = desk.made();
    if let Packet::Flow {
        tuple,
        segment,
        payload,
    } = packet
    {
        let packet = flow_in(bytes, tuple, *segment, *payload, moment, zone);
        return handle_flow(rt, desk, &packet, setup);
    }
    let class = other_class(rt, desk, packet, zone);
    Verdict {
        class,
        first,
        made: 0,
    }
}

/// Handles one frame of a file with these bytes, whose packets are in a zone, with a desk that holds and owes
/// nothing, and says what became of it. New flows are translated by the rules of the setup, and only a packet that begins one
/// takes a place of the pool. Takes its memory first: `NoMemory` comes only where the desk had room for
/// fewer than eight events, and then none was made, and the desk is as it was.
#[inline(always)]
pub fn handle<R: Wait, D: Desk>(
    rt: &R,
    desk: &mut D,
    bytes: &[u8],
    frame: &Frame,
    zone: u16,
    setup: &Setup,
) -> Result<Verdict, NoMemory>
    requires lawful { AllByRecursion IsLawfulRule setup.now.rules.items }
    requires inside { frame.now.start + frame.now.captured ≤ length bytes.now }
    requires timely { frame.now.moment ≤ 10 ^ 16 }
    requires few { length (D.sight desk.old).own + 8 ≤ 2 ^ 30 }
    requires nothing_held { (D.sight desk.old).held ≡ [] }
    requires nothing_owed { (D.sight desk.old).owed ≡ [] }
    ensures handled { IfOk result
        (Handled setup.now (given_of zone bytes.now frame.now) (D.sight desk.old) (D.sight desk.new)) }
    ensures short { OnErr result ((D.sight desk.old).spare < 8) }
    ensures same { OnErr result (D.sight desk.new ≡ D.sight desk.old) }
    ensures knows { IsKnown (D.sight desk.new) }
{
    desk.ready(8)?;
    let packet = classify(bytes, frame);
    Ok(handle_packet(rt, desk, bytes, &packet, frame.moment, zone, setup))
}
