//! A packet that would begin a flow: a reply tuple is found for it, and an entry is confirmed.

ghost use Rattle.std.specs.Prelude.{◌≡◌, ℕ, ◌+◌, ◌<◌, ◌≤◌, ◌^◌, ◌&&◌, if◌then◌else◌, None, Some, length};
ghost use Rattle.std.specs.List.{AllByRecursion};
ghost use Rattle.tuple_core.specs.declared.Proto.TheVariants as proto;
ghost use Rattle.history_book.specs.declared.event.Why.TheVariants.{Dropped};
ghost use Rattle.history_book.specs.declared.verdict.Class.TheVariants.{Clash, Made, Merged};
ghost use Rattle.history_book.specs.Legality.{same_proto};
ghost use Rattle.history_book.specs.Point.{At};
ghost use Rattle.history_book.specs.Sight.{IsKnown, Sight};
ghost use Rattle.history_book.specs.State.{live_under};
ghost use Rattle.nat_setup.specs.Rule.{IsLawfulRule};
ghost use Rattle.packet_path.specs.Internal.Attempt.{Answers, claimed_master, IsClassified};
ghost use Rattle.history_book.specs.Places.{HoldsNothing, HoldsOne};
ghost use Rattle.packet_path.specs.Packet.{flow_packet};
ghost use Rattle.packet_path.specs.Internal.Attempt.{HadPlace, IsFoundFor, IsReplyOf, TookOne, unclaimed_at};
ghost use Rattle.packet_path.specs.Internal.Scan.{HoldsTaken, RoomSays, taken_in_room};
ghost use Rattle.packet_path.specs.Made.{is_helped};
ghost use Rattle.packet_path.specs.Taken.{taken_by};
ghost use Rattle.proto_rules.specs.Start.{start_of};

use crate::bundles::flows_begin_once;
use crate::packet::FlowView;
use crate::scan::{Scan, drop_one};
use crate::setup::Setup;
use history_book::desk::Desk;
use history_book::outcome::{ClaimOutcome, ConfirmOutcome, TakeOutcome};
use history_book::places::give_up;
use history_book::record::Flow;
use history_book::sight_laws::desks_go_on;
use history_book::verdict::{Class, Translated};
use nat_setup::translate::{TranslateOutcome, translate};
use proto_rules::{Part, start};
use std::sync::Wait;
use tuple_core::{Proto, Tuple, invert};

/// The reply tuple that was found for a flow, and how it was.
#[derive(Clone, Copy)]
pub struct NewReply {
    pub reply: Tuple,
    pub translated: Translated,
}

/// Whether an entry with this reply tuple has the helper.
#[inline(always)]
fn is_helped(setup: &Setup, reply: &Tuple) -> bool
    ensures { result ≡ is_helped setup.now reply.now }
{
    reply.proto == Proto::Tcp && setup.ftp.as_slice().contains(&reply.a)
}

/// The point at which a packet was not expected, if it was not.
#[inline(always)]
fn unclaimed_at(claim: ClaimOutcome) -> Option<u64>
    ensures { result ≡ unclaimed_at claim }
{
    match claim {
        ClaimOutcome::Claimed { .. } => None,
        ClaimOutcome::Unclaimed { at } => Some(at),
    }
}

/// The master of the expectation that a packet claimed, if it claimed one.
#[inline(always)]
fn claimed_master(claim: ClaimOutcome) -> Option<u64>
    ensures { result ≡ claimed_master claim }
{
    match claim {
        ClaimOutcome::Claimed { master, .. } => Some(master),
        ClaimOutcome::Unclaimed { .. } => None,
    }
}

/// Claims what expects the packet, and confirms a new entry in the place that was taken for it. Nothing was live
/// under the packet's tuple at the point `absent_at`, and the reply tuple was found from it on.
#[inline(always)]
fn confirm_flow<R: Wait, D: Desk>(
    rt: &R,
    desk: &mut D,
    packet: &FlowView,
    setup: &Setup,
    part: Part,
    found: &NewReply,
    place: u32,
    absent_at: u64,
) -> Class
    requires classified { IsClassified (flow_packet packet.now) }
    requires starts { start_of packet.now.segment packet.now.moment ≡ Some part }
    requires valid { IsReplyOf packet.now.tuple found.now.reply }
    requires holds { HoldsOne (record { place = place; id = None }) (D.sight desk.old) }
    requires spare { 2 ≤ (D.sight desk.old).spare }
    ensures answers { (first : Sight) (killed : ℕ) → killed ≤ 4 →
        HadPlace setup.now (flow_packet packet.now) first (D.sight desk.old) absent_at found.now →
        Answers setup.now first (D.sight desk.new) (flow_packet packet.now) killed absent_at result }
    ensures empty { HoldsNothing (D.sight desk.new) }
    ensures took { TookOne result }
    ensures taken { (D.sight desk.new).taken ≡ (D.sight desk.old).taken }
    ensures knows { IsKnown (D.sight desk.new) }
{
    desks_go_on();
    flows_begin_once();
    let claim = desk.claim(rt, &packet.tuple, packet.moment);
    let flow = Flow {
        original: packet.tuple,
        reply: found.reply,
        part,
        helper: is_helped(setup, &found.reply),
        master: claimed_master(claim),
    };
    match desk.confirm(rt, place, &flow) {
        ConfirmOutcome::Confirmed { id } => {
            give_up(rt, desk, place);
            made(found, id, unclaimed_at(claim))
        }
        ConfirmOutcome::Clash { id, both, at, .. } => {
            give_up(rt, desk, place);
            met_winner(packet, found.translated, id, both, at)
        }
    }
}

/// The class of a packet that made an entry of this id, with the reply tuple that was found.
#[inline(always)]
fn made(found: &NewReply, id: u64, unclaimed: Option<u64>) -> Class
    requires { id < 2 ^ 40 }
    ensures { result ≡ Made id (id + 1) found.now.translated unclaimed }
{
    Class::Made {
        id,
        at: id + 1,
        translated: found.translated,
        unclaimed,
    }
}

/// The class of a packet that would begin a flow, and met an entry that has one of the flow's tuples.
#[inline(always)]
fn met_winner(packet: &FlowView, translated: Translated, id: u64, both: bool, at: u64) -> Class
    ensures { result ≡ (if same_proto packet.now.tuple.proto proto.Udp && both
        then Merged id at translated else Clash id at translated) }
{
    if packet.tuple.proto == Proto::Udp && both {
        Class::Merged { id, at, translated }
    } else {
        Class::Clash { id, at, translated }
    }
}

/// Drops an entry that may go, and takes the place that is free then, if one is. The table was full at the point `full_at`.
#[cold]
#[inline(never)]
fn make_room<R: Wait, D: Desk>(rt: &R, desk: &mut D, moment: u64, full_at: u64) -> TakeOutcome
    requires seen { full_at ≤ length (D.sight desk.old).front }
    requires empty { HoldsNothing (D.sight desk.old) }
    requires spare { 1 ≤ (D.sight desk.old).spare }
    requires knows { IsKnown (D.sight desk.old) }
    ensures says { RoomSays (Dropped moment) full_at (D.sight desk.old) (D.sight desk.new) result }
    ensures holds { HoldsTaken result (D.sight desk.new) }
    ensures spare { (D.sight desk.old).spare ≤ (D.sight desk.new).spare + 1 }
    ensures taken { (D.sight desk.new).taken ≡ taken_in_room result (D.sight desk.old).taken }
    ensures knows { IsKnown (D.sight desk.new) }
{
    match drop_one(rt, desk, moment, full_at) {
        Scan::Nothing { at } => TakeOutcome::Full { at },
        Scan::Dropped(_) => desk.take(rt),
    }
}

/// Takes a place for a new flow and confirms it there; in a full table an entry that may go is dropped for it.
#[inline(always)]
fn place_flow<R: Wait, D: Desk>(
    rt: &R,
    desk: &mut D,
    packet: &FlowView,
    setup: &Setup,
    part: Part,
    found: &NewReply,
    absent_at: u64,
) -> Class
    requires classified { IsClassified (flow_packet packet.now) }
    requires starts { start_of packet.now.segment packet.now.moment ≡ Some part }
    requires valid { IsReplyOf packet.now.tuple found.now.reply }
    requires empty { HoldsNothing (D.sight desk.old) }
    requires spare { 3 ≤ (D.sight desk.old).spare }
    ensures answers { (killed : ℕ) → killed ≤ 4 →
        IsFoundFor setup.now (flow_packet packet.now) (D.sight desk.old).front absent_at found.now →
        Answers setup.now (D.sight desk.old) (D.sight desk.new) (flow_packet packet.now) killed absent_at result }
    ensures empty { HoldsNothing (D.sight desk.new) }
    ensures taken { (D.sight desk.new).taken ≡ taken_by result (D.sight desk.old).taken }
    ensures knows { IsKnown (D.sight desk.new) }
{
    desks_go_on();
    let place = match desk.take(rt) {
        TakeOutcome::Taken { place } => place,
        TakeOutcome::Full { at: full_at } => match make_room(rt, desk, packet.moment, full_at) {
            TakeOutcome::Taken { place } => place,
            TakeOutcome::Full { at } => return Class::Full { from: full_at, at },
        },
    };
    confirm_flow(rt, desk, packet, setup, part, found, place, absent_at)
}

/// Begins a flow for a packet under whose tuple nothing was live at the point `absent_at`, if one begins
/// with it, a reply tuple is found for it, and there is room.
#[inline(always)]
pub fn begin_flow<R: Wait, D: Desk>(
    rt: &R,
    desk: &mut D,
    packet: &FlowView,
    setup: &Setup,
    absent_at: u64,
) -> Class
    requires lawful { AllByRecursion IsLawfulRule setup.now.rules.items }
    requires classified { IsClassified (flow_packet packet.now) }
    requires absent { At (D.sight desk.old).front absent_at
        (λ s. live_under packet.now.tuple s ≡ None) }
    requires empty { HoldsNothing (D.sight desk.old) }
    requires spare { 3 ≤ (D.sight desk.old).spare }
    requires knows { IsKnown (D.sight desk.old) }
    ensures answers { (killed : ℕ) → killed ≤ 4 → Answers setup.now
        (D.sight desk.old) (D.sight desk.new) (flow_packet packet.now) killed absent_at result }
    ensures empty { HoldsNothing (D.sight desk.new) }
    ensures taken { (D.sight desk.new).taken ≡ taken_by result (D.sight desk.old).taken }
    ensures knows { IsKnown (D.sight desk.new) }
{
    desks_go_on();
    let Some(part) = start(packet.segment, packet.moment) else {
        return Class::NoEntry { at: absent_at };
    };
    let found = match translate(rt, desk, &setup.rules, &packet.tuple) {
        TranslateOutcome::Plain => NewReply {
            reply: invert(&packet.tuple),
            translated: Translated::Plain,
        },
        TranslateOutcome::Chosen {
            reply,
            kept_taken_at,
        } => NewReply {
            reply,
            translated: Translated::Chosen {
                reply,
                kept_taken_at,
            },
        },
        TranslateOutcome::NoPort { from, to } => return Class::NoPort { from, to },
    };
    place_flow(rt, desk, packet, setup, part, &found, absent_at)
}
