//! The common way of a packet of a flow: its entry accepts it, or is expired and destroyed (unless four were), or the packet begins
//! a flow. Its verdict is appended where its class is known, so that no class is carried through layers.

ghost use Rattle.std.specs.Prelude.{◌≡◌, ◌+◌, ◌<◌, ◌≤◌, ◌^◌, true, length};
ghost use Rattle.std.specs.List.{AllByRecursion};
ghost use Rattle.history_book.specs.Desk.{SamePlaces};
ghost use Rattle.history_book.specs.Entry.{is_helped_entry, zone_of_entry};
ghost use Rattle.history_book.specs.Held.{held_id, is_held_for_entry};
ghost use Rattle.history_book.specs.Places.{HoldsNothing};
ghost use Rattle.history_book.specs.Sight.{IsKnown};
ghost use Rattle.nat_setup.specs.Rule.{IsLawfulRule};
ghost use Rattle.packet_path.specs.Internal.Attempt.{IsClassified, IsMet};
ghost use Rattle.packet_path.specs.Internal.Fast.{Appended, ReadInto, TriedSays};
ghost use Rattle.packet_path.specs.Packet.{flow_packet};

use crate::attempt::{Met, kill_entry, passed};
use crate::begin::begin_flow;
use crate::bundles::met_entries_stay;
use crate::packet::FlowView;
use crate::payload::{follow_payload, is_read};
use crate::setup::Setup;
use history_book::desk::Desk;
use history_book::event::Why;
use history_book::laws::entries_keep_helper_and_zone;
use history_book::outcome::{FindOutcome, TouchOutcome};
use history_book::places::give_up;
use history_book::record::Record;
use history_book::report::Verdicts;
use history_book::sight_laws::desks_go_on;
use history_book::verdict::{Class, Ftp, Verdict};
use std::sync::Wait;
use tuple_core::Direction;

/// What came of a try.
#[derive(Clone, Copy)]
pub enum Tried {
    /// The packet was answered, and its verdict appended.
    Done,
    /// The packet destroyed the entry that was live under its tuple, and is to be looked at again.
    Killed,
    /// Nothing was done.
    Left,
}

/// Appends the verdict of a packet of this class: it has all of the desk's own events from the one of index `first` on, and
/// counts from `base`.
#[inline(always)]
pub fn append<D: Desk>(desk: &D, class: Class, first: u64, base: u64, verdicts: &mut Verdicts)
    requires base { base ≤ first }
    requires first { first ≤ length (D.sight desk.now).own }
    requires few { length (D.sight desk.now).own ≤ first + 7 }
    requires room { length verdicts.old.items < verdicts.old.room }
    ensures { Appended class first base (D.sight desk.now).own verdicts.old verdicts.new }
{
    let made = (desk.made() - first) as u8;
    verdicts.push(Verdict {
        class,
        first: first - base,
        made,
    });
}

/// Does what the payload asks for of a packet that an entry accepted, which was so before, by the Touch of this number, and
/// appends its verdict.
#[inline(always)]
fn read_payload<R: Wait, D: Desk>(
    rt: &R,
    desk: &mut D,
    packet: &FlowView,
    place: u32,
    before: &Record,
    direction: Direction,
    number: u64,
    first: u64,
    base: u64,
    verdicts: &mut Verdicts,
)
    requires held { is_held_for_entry place (D.sight desk.old).held ≡ true }
    requires named { held_id place (D.sight desk.old).held ≡ before.now.id }
    requires helper { before.now.helper ≡ true → is_helped_entry before.now.id (D.sight desk.old).front ≡ true }
    requires zone { zone_of_entry before.now.id (D.sight desk.old).front ≡ before.now.original.zone }
    requires timely { packet.now.moment ≤ 10 ^ 16 }
    requires spare { 1 ≤ (D.sight desk.old).spare }
    requires knows { IsKnown (D.sight desk.old) }
    requires happened { number < length (D.sight desk.old).front }
    requires number { number < 2 ^ 40 }
    requires base { base ≤ first }
    requires first { first ≤ length (D.sight desk.old).own }
    requires few { length (D.sight desk.old).own ≤ first + 6 }
    requires room { length verdicts.old.items < verdicts.old.room }
    ensures reads { ReadInto (flow_packet packet.now) (record { subject = before.now; direction = direction }) number (record { first = first; base = base })
        (D.sight desk.old) (D.sight desk.new) verdicts.old verdicts.new }
    ensures places { SamePlaces (D.sight desk.old) (D.sight desk.new) }
    ensures taken { (D.sight desk.new).taken ≡ (D.sight desk.old).taken }
    ensures knows { IsKnown (D.sight desk.new) }
{
    let ftp = follow_payload(rt, desk, packet, place, before, direction);
    let class = passed(before, direction, number, ftp);
    append(desk, class, first, base, verdicts);
}

/// Gives a packet to the entry that it met, and appends its verdict where the entry accepts it. An expired entry is destroyed,
/// unless four were.
#[inline(always)]
fn touch_entry<R: Wait, D: Desk>(
    rt: &R,
    desk: &mut D,
    packet: &FlowView,
    met: &Met,
    kills: u8,
    first: u64,
    base: u64,
    verdicts: &mut Verdicts,
) -> Tried
    requires classified { IsClassified (flow_packet packet.now) }
    requires met { IsMet (flow_packet packet.now) met.now (D.sight desk.old) }
    requires few { kills ≤ 4 }
    requires spare { 7 ≤ (D.sight desk.old).spare + kills }
    requires knows { IsKnown (D.sight desk.old) }
    requires base { base ≤ first }
    requires low { first ≤ length (D.sight desk.old).own }
    requires high { length (D.sight desk.old).own ≤ first + kills }
    requires room { length verdicts.old.items < verdicts.old.room }
    ensures says { (setup : Setup) → TriedSays setup (flow_packet packet.now)
        (record { kills = kills; counting = record { first = first; base = base } })
        (D.sight desk.old) (D.sight desk.new) verdicts.old verdicts.new result }
    ensures places { SamePlaces (D.sight desk.old) (D.sight desk.new) }
    ensures knows { IsKnown (D.sight desk.new) }
{
    desks_go_on();
    met_entries_stay();
    entries_keep_helper_and_zone();
    let Met {
        place,
        direction,
        ..
    } = *met;
    match desk.touch(rt, place, direction, packet.segment, packet.moment) {
        TouchOutcome::Touched { number, before } => {
            let reads = is_read(packet, &before, direction);
            if reads {
                read_payload(
                    rt, desk, packet, place, &before, direction, number, first, base, verdicts,
                );
                return Tried::Done;
            }
            let class = passed(&before, direction, number, Ftp::Nothing);
            append(desk, class, first, base, verdicts);
            Tried::Done
        }
        TouchOutcome::Ignored { .. } => Tried::Left,
        TouchOutcome::Invalid { .. } => Tried::Left,
        TouchOutcome::Reset { .. } => Tried::Left,
        TouchOutcome::Expired { at } => {
            let is_last = kills == 4;
            if is_last {
                return Tried::Left;
            }
            let why = Why::Expired {
                moment: packet.moment,
            };
            let killed = kill_entry(rt, desk, packet, met, at, why);
            if killed { Tried::Killed } else { Tried::Left }
        }
        TouchOutcome::Reopen { .. } => Tried::Left,
        TouchOutcome::Gone { .. } => Tried::Left,
    }
}

/// Looks up what is live under a packet's tuple. The packet is answered, and its verdict appended, if its entry accepts it or it
/// begins a flow; an expired entry is destroyed, unless four were. So many were destroyed for the packet before.
#[inline(always)]
pub fn fast_packet<R: Wait, D: Desk>(
    rt: &R,
    desk: &mut D,
    packet: &FlowView,
    setup: &Setup,
    kills: u8,
    first: u64,
    base: u64,
    verdicts: &mut Verdicts,
) -> Tried
    requires lawful { AllByRecursion IsLawfulRule setup.now.rules.items }
    requires classified { IsClassified (flow_packet packet.now) }
    requires empty { HoldsNothing (D.sight desk.old) }
    requires few { kills ≤ 4 }
    requires spare { 7 ≤ (D.sight desk.old).spare + kills }
    requires base { base ≤ first }
    requires low { first ≤ length (D.sight desk.old).own }
    requires high { length (D.sight desk.old).own ≤ first + kills }
    requires room { length verdicts.old.items < verdicts.old.room }
    ensures says { TriedSays setup.now (flow_packet packet.now)
        (record { kills = kills; counting = record { first = first; base = base } })
        (D.sight desk.old) (D.sight desk.new) verdicts.old verdicts.new result }
    ensures empty { HoldsNothing (D.sight desk.new) }
    ensures knows { IsKnown (D.sight desk.new) }
{
    desks_go_on();
    match desk.find(rt, &packet.tuple) {
        FindOutcome::Absent { at } => {
            let class = begin_flow(rt, desk, packet, setup, at);
            append(desk, class, first, base, verdicts);
            Tried::Done
        }
        FindOutcome::Found {
            place,
            id,
            direction,
            at,
        } => {
            let met = Met {
                place,
                id,
                direction,
                at,
            };
            let tried = touch_entry(rt, desk, packet, &met, kills, first, base, verdicts);
            give_up(rt, desk, place);
            tried
        }
    }
}
