//! One attempt to handle a packet of a flow: what is live under its tuple is looked up, and the packet is
//! given to it, or begins a flow. Where another thread came between, the attempt is made again.

ghost use Rattle.std.specs.Prelude.{◌≡◌, ℕ, ◌+◌, ◌<◌, ◌≤◌, ◌^◌, true, length};
ghost use Rattle.std.specs.List.{AllByRecursion};
ghost use Rattle.history_book.specs.declared.verdict.Class.TheVariants.{Passed};
ghost use Rattle.history_book.specs.Desk.{SamePlaces};
ghost use Rattle.history_book.specs.Label.{label_of};
ghost use Rattle.history_book.specs.Sight.{IsKnown};
ghost use Rattle.nat_setup.specs.Rule.{IsLawfulRule};
ghost use Rattle.packet_path.specs.Internal.Attempt.{AttemptSays, EndsEntry};
ghost use Rattle.packet_path.specs.Internal.Attempt.{IsClassified, IsMet, KillsOrNot, taken_in};
ghost use Rattle.history_book.specs.Places.{HoldsNothing};
ghost use Rattle.packet_path.specs.Packet.{flow_packet};

use crate::begin::begin_flow;
use crate::bundles::met_entries_stay;
use crate::packet::FlowView;
use crate::payload::follow_payload;
use crate::setup::Setup;
use history_book::desk::Desk;
use history_book::event::Why;
use history_book::find::label;
use history_book::laws::entries_keep_helper_and_zone;
use history_book::outcome::{FindOutcome, KillOutcome, TouchOutcome};
use history_book::places::give_up;
use history_book::record::Record;
use history_book::sight_laws::desks_go_on;
use history_book::verdict::{Class, Ftp};
use std::sync::Wait;
use tuple_core::Direction;

/// How an attempt ended.
#[derive(Clone, Copy)]
pub enum Attempt {
    /// This became of the packet.
    Done(Class),
    /// The packet destroyed the entry that was live under its tuple, and is to be looked at again.
    Killed,
    /// Nothing was done: nothing is live any more where an entry was, or the entry is not as it was found.
    Again,
}

/// The entry that a packet found: its place, which is held for it, its id, the direction in which the
/// tuple names it, and the point at which that was so. The clauses alone name the point.
#[derive(Clone, Copy)]
pub struct Met {
    pub place: u32,
    pub id: u64,
    pub direction: Direction,
    pub at: u64,
}

/// The class of a packet that passes by an entry, which was so before it and was found in this direction,
/// by the event of this number, and of what came of its payload.
#[inline(always)]
pub fn passed(before: &Record, direction: Direction, number: u64, ftp: Ftp) -> Class
    requires { number < 2 ^ 40 }
    ensures { result ≡ Passed (label_of before.now direction) before.now.id (number + 1) ftp }
{
    Class::Passed {
        label: label(before, direction),
        id: before.id,
        at: number + 1,
        ftp,
    }
}

/// Destroys the entry that a packet met and resets.
#[inline(always)]
fn reset_entry<R: Wait, D: Desk>(rt: &R, desk: &mut D, packet: &FlowView, met: &Met) -> Attempt
    requires classified { IsClassified (flow_packet packet.now) }
    requires met { IsMet (flow_packet packet.now) met.now (D.sight desk.old) }
    requires spare { 1 ≤ (D.sight desk.old).spare }
    requires knows { IsKnown (D.sight desk.old) }
    ensures says { (setup : Setup) (killed from : ℕ) → killed ≤ 4 → from ≤ length (D.sight desk.old).front →
        AttemptSays setup (D.sight desk.old) (D.sight desk.new) (flow_packet packet.now) killed from result }
    ensures places { SamePlaces (D.sight desk.old) (D.sight desk.new) }
    ensures taken { (D.sight desk.new).taken ≡ taken_in result (D.sight desk.old).taken }
    ensures knows { IsKnown (D.sight desk.new) }
{
    desks_go_on();
    met_entries_stay();
    let why = Why::Reset {
        segment: packet.segment,
        moment: packet.moment,
    };
    match desk.kill(rt, met.place, why) {
        KillOutcome::Killed { number, subject } => {
            Attempt::Done(passed(&subject, met.direction, number, Ftp::Nothing))
        }
        KillOutcome::Gone { .. } => Attempt::Again,
        KillOutcome::Not { .. } => Attempt::Again,
    }
}

/// Destroys the entry that a packet met, which is expired or is reopened, for that reason. The entry was so at the point `at`.
/// False is that it is so no longer, and that nothing was done.
#[inline(always)]
pub fn kill_entry<R: Wait, D: Desk>(
    rt: &R,
    desk: &mut D,
    packet: &FlowView,
    met: &Met,
    at: u64,
    why: Why,
) -> bool
    requires classified { IsClassified (flow_packet packet.now) }
    requires met { IsMet (flow_packet packet.now) met.now (D.sight desk.old) }
    requires ends { EndsEntry (flow_packet packet.now) met.now at why (D.sight desk.old) }
    requires spare { 1 ≤ (D.sight desk.old).spare }
    requires knows { IsKnown (D.sight desk.old) }
    ensures says { (kills from : ℕ) → kills < 4 → from ≤ length (D.sight desk.old).front →
        KillsOrNot (D.sight desk.old) (D.sight desk.new) (flow_packet packet.now) kills from result }
    ensures places { SamePlaces (D.sight desk.old) (D.sight desk.new) }
    ensures taken { (D.sight desk.new).taken ≡ (D.sight desk.old).taken }
    ensures knows { IsKnown (D.sight desk.new) }
{
    desks_go_on();
    met_entries_stay();
    match desk.kill(rt, met.place, why) {
        KillOutcome::Killed { .. } => true,
        KillOutcome::Gone { .. } => false,
        KillOutcome::Not { .. } => false,
    }
}

/// Destroys the entry that a packet met, which is expired or is reopened, for that reason; after four
/// such ends no further one is made. The entry was so at the point `at`.
#[inline(always)]
fn end_entry<R: Wait, D: Desk>(
    rt: &R,
    desk: &mut D,
    packet: &FlowView,
    met: &Met,
    kills: u8,
    at: u64,
    why: Why,
) -> Attempt
    requires classified { IsClassified (flow_packet packet.now) }
    requires met { IsMet (flow_packet packet.now) met.now (D.sight desk.old) }
    requires few { kills ≤ 4 }
    requires ends { EndsEntry (flow_packet packet.now) met.now at why (D.sight desk.old) }
    requires spare { 7 ≤ (D.sight desk.old).spare + kills }
    requires knows { IsKnown (D.sight desk.old) }
    ensures says { (setup : Setup) (from : ℕ) → from ≤ at → from ≤ length (D.sight desk.old).front →
        AttemptSays setup (D.sight desk.old) (D.sight desk.new) (flow_packet packet.now) kills from result }
    ensures places { SamePlaces (D.sight desk.old) (D.sight desk.new) }
    ensures taken { (D.sight desk.new).taken ≡ taken_in result (D.sight desk.old).taken }
    ensures knows { IsKnown (D.sight desk.new) }
{
    desks_go_on();
    met_entries_stay();
    let is_last = kills == 4;
    if is_last {
        return Attempt::Done(Class::Contended { id: met.id, at });
    }
    if kill_entry(rt, desk, packet, met, at, why) {
        Attempt::Killed
    } else {
        Attempt::Again
    }
}

/// Gives a packet to the entry that it met: what the step says is done.
#[inline(always)]
fn meet_entry<R: Wait, D: Desk>(
    rt: &R,
    desk: &mut D,
    packet: &FlowView,
    met: &Met,
    kills: u8,
) -> Attempt
    requires classified { IsClassified (flow_packet packet.now) }
    requires met { IsMet (flow_packet packet.now) met.now (D.sight desk.old) }
    requires few { kills ≤ 4 }
    requires spare { 7 ≤ (D.sight desk.old).spare + kills }
    requires knows { IsKnown (D.sight desk.old) }
    ensures says { (setup : Setup) → AttemptSays setup (D.sight desk.old) (D.sight desk.new)
        (flow_packet packet.now) kills (length (D.sight desk.old).front) result }
    ensures places { SamePlaces (D.sight desk.old) (D.sight desk.new) }
    ensures taken { (D.sight desk.new).taken ≡ taken_in result (D.sight desk.old).taken }
    ensures knows { IsKnown (D.sight desk.new) }
{
    desks_go_on();
    met_entries_stay();
    entries_keep_helper_and_zone();
    let (segment, moment) = (packet.segment, packet.moment);
    let (id, direction) = (met.id, met.direction);
    match desk.touch(rt, met.place, direction, segment, moment) {
        TouchOutcome::Touched { number, before } => {
            let ftp = follow_payload(rt, desk, packet, met.place, &before, direction);
            Attempt::Done(passed(&before, direction, number, ftp))
        }
        TouchOutcome::Ignored { at } => Attempt::Done(Class::Ignored { id, at }),
        TouchOutcome::Invalid { at } => Attempt::Done(Class::BadState { id, at }),
        TouchOutcome::Reset { .. } => reset_entry(rt, desk, packet, met),
        TouchOutcome::Expired { at } => {
            let why = Why::Expired { moment };
            end_entry(rt, desk, packet, met, kills, at, why)
        }
        TouchOutcome::Reopen { at } => {
            let why = Why::Reopened {
                direction,
                segment,
                moment,
            };
            end_entry(rt, desk, packet, met, kills, at, why)
        }
        TouchOutcome::Gone { .. } => Attempt::Again,
    }
}

/// Gives a packet to the entry that it met, and gives up the entry's place.
#[inline(always)]
fn answer_and_leave<R: Wait, D: Desk>(
    rt: &R,
    desk: &mut D,
    packet: &FlowView,
    met: &Met,
    kills: u8,
) -> Attempt
    requires classified { IsClassified (flow_packet packet.now) }
    requires met { IsMet (flow_packet packet.now) met.now (D.sight desk.old) }
    requires few { kills ≤ 4 }
    requires spare { 7 ≤ (D.sight desk.old).spare + kills }
    requires knows { IsKnown (D.sight desk.old) }
    ensures says { (setup : Setup) → AttemptSays setup (D.sight desk.old) (D.sight desk.new)
        (flow_packet packet.now) kills (length (D.sight desk.old).front) result }
    ensures empty { HoldsNothing (D.sight desk.new) }
    ensures taken { (D.sight desk.new).taken ≡ taken_in result (D.sight desk.old).taken }
    ensures knows { IsKnown (D.sight desk.new) }
{
    desks_go_on();
    let attempt = meet_entry(rt, desk, packet, met, kills);
    give_up(rt, desk, met.place);
    attempt
}

/// Looks up what is live under a packet's tuple, and gives the packet to it or begins a flow; so many
/// entries were destroyed for the packet before.
#[inline(always)]
pub fn try_packet<R: Wait, D: Desk>(
    rt: &R,
    desk: &mut D,
    packet: &FlowView,
    setup: &Setup,
    kills: u8,
) -> Attempt
    requires lawful { AllByRecursion IsLawfulRule setup.now.rules.items }
    requires classified { IsClassified (flow_packet packet.now) }
    requires empty { HoldsNothing (D.sight desk.old) }
    requires few { kills ≤ 4 }
    requires spare { 7 ≤ (D.sight desk.old).spare + kills }
    ensures says { AttemptSays setup.now (D.sight desk.old) (D.sight desk.new)
        (flow_packet packet.now) kills (length (D.sight desk.old).front) result }
    ensures empty { HoldsNothing (D.sight desk.new) }
    ensures taken { (D.sight desk.new).taken ≡ taken_in result (D.sight desk.old).taken }
    ensures knows { IsKnown (D.sight desk.new) }
{
    desks_go_on();
    match desk.find(rt, &packet.tuple) {
        FindOutcome::Absent { at } => Attempt::Done(begin_flow(rt, desk, packet, setup, at)),
        FindOutcome::Found {
            place,
            id,
            direction,
            at,
        } => {
            let met = Met {
                place,
                id,
                direction,
                at,
            };
            answer_and_leave(rt, desk, packet, &met, kills)
        }
    }
}

/// Gives a packet to the entry that is live under its tuple, if one is; so many entries were destroyed for the packet before.
#[inline(always)]
pub fn meet_packet<R: Wait, D: Desk>(rt: &R, desk: &mut D, packet: &FlowView, kills: u8) -> Attempt
    requires classified { IsClassified (flow_packet packet.now) }
    requires empty { HoldsNothing (D.sight desk.old) }
    requires few { kills ≤ 4 }
    requires spare { 7 ≤ (D.sight desk.old).spare + kills }
    ensures says { (setup : Setup) → AttemptSays setup (D.sight desk.old) (D.sight desk.new)
        (flow_packet packet.now) kills (length (D.sight desk.old).front) result }
    ensures empty { HoldsNothing (D.sight desk.new) }
    ensures taken { (D.sight desk.new).taken ≡ taken_in result (D.sight desk.old).taken }
    ensures knows { IsKnown (D.sight desk.new) }
{
    desks_go_on();
    match desk.find(rt, &packet.tuple) {
        FindOutcome::Absent { .. } => Attempt::Again,
        FindOutcome::Found {
            place,
            id,
            direction,
            at,
        } => {
            let met = Met {
                place,
                id,
                direction,
                at,
            };
            answer_and_leave(rt, desk, packet, &met, kills)
        }
    }
}
