//! Handling a frame with its verdict appended to a list: a packet of a flow is tried the common way, and where that leaves it,
//! is given to its entry, until one of the two says what became of it.

ghost use Rattle.std.specs.Prelude.{◌≡◌, ◌+◌, ◌<◌, ◌≤◌, ◌^◌, true, false, [], length, OnErr, OnOk};
ghost use Rattle.std.specs.List.{AllByRecursion};
ghost use Rattle.history_book.specs.Places.{HoldsNothing};
ghost use Rattle.history_book.specs.Sight.{IsKnown};
ghost use Rattle.nat_setup.specs.Rule.{IsLawfulRule};
ghost use Rattle.packet_headers.specs.Classify.{packet_of};
ghost use Rattle.packet_path.specs.Handled.{HandledInto};
ghost use Rattle.packet_path.specs.Internal.Attempt.{IsClassified};
ghost use Rattle.packet_path.specs.Internal.Fast.{TriedSays};
ghost use Rattle.packet_path.specs.Packet.{flow_packet, FlowPacket, given_of, IsFlow, is_flow};

use crate::attempt::{Attempt, meet_packet};
use crate::fast::{Tried, append, fast_packet};
use crate::handle::other_class;
use crate::packet::{FlowView, flow_in};
use crate::setup::Setup;
use history_book::desk::Desk;
use history_book::report::Verdicts;
use history_book::sight_laws::desks_go_on;
use packet_headers::classify::classify;
use packet_headers::frame::Frame;
use packet_headers::packet::Packet;
use std::sync::Wait;
use tuple_core::NoMemory;

/// Handles a frame whose packet is of no flow, and appends its verdict, with its events counted from `base` on.
#[cold]
#[inline(never)]
fn other_frame<R: Wait, D: Desk>(
    rt: &R,
    desk: &mut D,
    bytes: &[u8],
    frame: &Frame,
    zone: u16,
    base: u64,
    verdicts: &mut Verdicts,
)
    requires inside { frame.now.start + frame.now.captured ≤ length bytes.now }
    requires empty { HoldsNothing (D.sight desk.old) }
    requires base { base ≤ length (D.sight desk.old).own }
    requires room { length verdicts.old.items < verdicts.old.room }
    requires other { is_flow (packet_of bytes.now frame.now) ≡ false }
    ensures handled { (setup : Setup) → HandledInto base setup (given_of zone bytes.now frame.now)
        (D.sight desk.old) (D.sight desk.new) verdicts.old verdicts.new }
    ensures knows { IsKnown (D.sight desk.new) }
{
    let packet = classify(bytes, frame);
    let first = desk.made();
    let class = other_class(rt, desk, &packet, zone);
    append(desk, class, first, base, verdicts);
}

/// Gives a packet of a flow, which is read again from its frame, to the entry that is live under its tuple, if one is, and
/// appends its verdict, if there is one. So many entries were destroyed for the packet before.
#[cold]
#[inline(never)]
fn meet_frame<R: Wait, D: Desk>(
    rt: &R,
    desk: &mut D,
    bytes: &[u8],
    frame: &Frame,
    zone: u16,
    kills: u8,
    first: u64,
    base: u64,
    verdicts: &mut Verdicts,
) -> Tried
    requires inside { frame.now.start + frame.now.captured ≤ length bytes.now }
    requires timely { frame.now.moment ≤ 10 ^ 16 }
    requires empty { HoldsNothing (D.sight desk.old) }
    requires few { kills ≤ 4 }
    requires spare { 7 ≤ (D.sight desk.old).spare + kills }
    requires base { base ≤ first }
    requires low { first ≤ length (D.sight desk.old).own }
    requires high { length (D.sight desk.old).own ≤ first + kills }
    requires room { length verdicts.old.items < verdicts.old.room }
    requires flow { is_flow (packet_of bytes.now frame.now) ≡ true }
    ensures says { (setup : Setup) (packet : FlowPacket) → IsFlow (given_of zone bytes.now frame.now) packet →
        TriedSays setup packet (record { kills = kills; counting = record { first = first; base = base } })
        (D.sight desk.old) (D.sight desk.new) verdicts.old verdicts.new result }
    ensures empty { HoldsNothing (D.sight desk.new) }
    ensures knows { IsKnown (D.sight desk.new) }
{
    let Packet::Flow {
        tuple,
        segment,
        payload,
    } = classify(bytes, frame)
    else {
        unreachable!()
    };
    let packet = flow_in(bytes, &tuple, segment, payload, frame.moment, zone);
    match meet_packet(rt, desk, &packet, kills) {
        Attempt::Done(class) => {
            append(desk, class, first, base, verdicts);
            Tried::Done
        }
        Attempt::Killed => Tried::Killed,
        Attempt::Again => Tried::Left,
    }
}

/// Handles a packet of a flow, which this frame has, and appends its verdict, with its events counted from `base` on.
#[inline(always)]
fn flow_into<R: Wait, D: Desk>(
    rt: &R,
    desk: &mut D,
    bytes: &[u8],
    frame: &Frame,
    zone: u16,
    packet: &FlowView,
    setup: &Setup,
    base: u64,
    verdicts: &mut Verdicts,
)
    requires lawful { AllByRecursion IsLawfulRule setup.now.rules.items }
    requires inside { frame.now.start + frame.now.captured ≤ length bytes.now }
    requires timely { frame.now.moment ≤ 10 ^ 16 }
    requires classified { IsClassified (flow_packet packet.now) }
    requires empty { HoldsNothing (D.sight desk.old) }
    requires spare { 7 ≤ (D.sight desk.old).spare }
    requires base { base ≤ length (D.sight desk.old).own }
    requires room { length verdicts.old.items < verdicts.old.room }
    requires flow { IsFlow (given_of zone bytes.now frame.now) (flow_packet packet.now) }
    ensures handled { HandledInto base setup.now (given_of zone bytes.now frame.now)
        (D.sight desk.old) (D.sight desk.new) verdicts.old verdicts.new }
    ensures knows { IsKnown (D.sight desk.new) }
{
    desks_go_on();
    let first = desk.made();
    let mut kills = 0;
    'tries: for _ in rt.forever() {
        match fast_packet(rt, desk, packet, setup, kills, first, base, verdicts) {
            Tried::Done => return,
            Tried::Killed => kills += 1,
            Tried::Left => match meet_frame(
                rt, desk, bytes, frame, zone, kills, first, base, verdicts,
            ) {
                Tried::Done => return,
                Tried::Killed => kills += 1,
                Tried::Left => {}
            },
        }
    }
    unreachable!()
}

/// Handles one frame as `handle` does, and appends its verdict to a list that has room for it, with its events counted
/// from the desk's own event of index `base` on. After `NoMemory` the list is as it was.
#[inline(always)]
pub fn handle_into<R: Wait, D: Desk>(
    rt: &R,
    desk: &mut D,
    bytes: &[u8],
    frame: &Frame,
    zone: u16,
    setup: &Setup,
    base: u64,
    verdicts: &mut Verdicts,
) -> Result<(), NoMemory>
    requires lawful { AllByRecursion IsLawfulRule setup.now.rules.items }
    requires inside { frame.now.start + frame.now.captured ≤ length bytes.now }
    requires timely { frame.now.moment ≤ 10 ^ 16 }
    requires few { length (D.sight desk.old).own + 8 ≤ 2 ^ 30 }
    requires nothing_held { (D.sight desk.old).held ≡ [] }
    requires nothing_owed { (D.sight desk.old).owed ≡ [] }
    requires base { base ≤ length (D.sight desk.old).own }
    requires room { length verdicts.old.items < verdicts.old.room }
    ensures handled { OnOk result (HandledInto base setup.now (given_of zone bytes.now frame.now)
        (D.sight desk.old) (D.sight desk.new) verdicts.old verdicts.new) }
    ensures short { OnErr result ((D.sight desk.old).spare < 8) }
    ensures same { OnErr result (D.sight desk.new ≡ D.sight desk.old) }
    ensures kept { OnErr result (verdicts.new ≡ verdicts.old) }
    ensures knows { IsKnown (D.sight desk.new) }
{
    desk.ready(8)?;
    let Packet::Flow {
        tuple,
        segment,
        payload,
    } = classify(bytes, frame)
    else {
        other_frame(rt, desk, bytes, frame, zone, base, verdicts);
        return Ok(());
    };
    let packet = flow_in(bytes, &tuple, segment, payload, frame.moment, zone);
    flow_into(rt, desk, bytes, frame, zone, &packet, setup, base, verdicts);
    Ok(())
}
