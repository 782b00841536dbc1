//! What comes of the payload of a packet that an entry accepted: the control connection of FTP names the ends of
//! data connections, which are expected.

ghost use Rattle.std.specs.Prelude.{◌≡◌, ℕ, ◌<◌, ◌≤◌, ◌^◌, true, length};
ghost use Rattle.history_book.specs.Desk.{SamePlaces};
ghost use Rattle.history_book.specs.Entry.{is_helped_entry, zone_of_entry};
ghost use Rattle.history_book.specs.Held.{held_id, is_held_for_entry};
ghost use Rattle.history_book.specs.Sight.{IsKnown};
ghost use Rattle.packet_path.specs.FtpPart.{is_established, is_read};
ghost use Rattle.packet_path.specs.Internal.Attempt.{Follows, WantedSays};
ghost use Rattle.packet_path.specs.Packet.{flow_packet};

use crate::packet::FlowView;
use expect_table::expectation::Want;
use ftp_helper::{named_end, want_of};
use history_book::desk::Desk;
use history_book::find::label;
use history_book::outcome::ExpectOutcome;
use history_book::record::Record;
use history_book::sight_laws::seeing_adds_up;
use history_book::verdict::{Ftp, Label};
use std::sync::Wait;
use tuple_core::{Direction, Proto};

/// What a payload asks for.
#[derive(Clone, Copy)]
pub enum Wanted {
    /// It is not read, or names no end.
    Nothing,
    /// It names an end at another address than its own source's.
    Foreign,
    /// This connection to the end that it names.
    End(Want),
}

/// Whether the packet is an answer, or one was seen before it.
#[inline(always)]
fn is_established(label: Label) -> bool
    ensures { result ≡ is_established label }
{
    match label {
        Label::Established | Label::EstablishedReply => true,
        Label::New | Label::Related => false,
    }
}

/// Whether the payload of a packet is read, which found its entry so and in this direction.
#[inline(always)]
pub fn is_read(packet: &FlowView, before: &Record, direction: Direction) -> bool
    ensures { result ≡ is_read (flow_packet packet.now) (record { subject = before.now; direction = direction }) }
{
    packet.tuple.proto == Proto::Tcp && before.helper && is_established(label(before, direction))
}

/// What the payload of a packet asks for, which found its entry so and in this direction.
#[inline(always)]
fn want_named(packet: &FlowView, before: &Record, direction: Direction) -> Wanted
    ensures { WantedSays (flow_packet packet.now) (record { subject = before.now; direction = direction }) result }
{
    if !is_read(packet, before, direction) {
        return Wanted::Nothing;
    }
    let Some(end) = named_end(direction, packet.payload) else {
        return Wanted::Nothing;
    };
    match want_of(direction, &before.original, &before.reply, &end) {
        Some(want) => Wanted::End(want),
        None => Wanted::Foreign,
    }
}

/// Expects what the payload of a packet asks for, which the entry accepted that the place is held for, and that was
/// so before it.
#[inline(always)]
pub fn follow_payload<R: Wait, D: Desk>(
    rt: &R,
    desk: &mut D,
    packet: &FlowView,
    place: u32,
    before: &Record,
    direction: Direction,
) -> Ftp
    requires held { is_held_for_entry place (D.sight desk.old).held ≡ true }
    requires named { held_id place (D.sight desk.old).held ≡ before.now.id }
    requires helper { before.now.helper ≡ true →
        is_helped_entry before.now.id (D.sight desk.old).front ≡ true }
    requires zone { zone_of_entry before.now.id (D.sight desk.old).front ≡ before.now.original.zone }
    requires timely { packet.now.moment ≤ 10 ^ 16 }
    requires spare { 1 ≤ (D.sight desk.old).spare }
    requires knows { IsKnown (D.sight desk.old) }
    ensures follows { (touched : ℕ) → touched < length (D.sight desk.old).front →
        Follows (flow_packet packet.now) (record { subject = before.now; direction = direction }) touched
        (D.sight desk.old) (D.sight desk.new) result }
    ensures places { SamePlaces (D.sight desk.old) (D.sight desk.new) }
    ensures taken { (D.sight desk.new).taken ≡ (D.sight desk.old).taken }
    ensures knows { IsKnown (D.sight desk.new) }
{
    seeing_adds_up();
    match want_named(packet, before, direction) {
        Wanted::Nothing => Ftp::Nothing,
        Wanted::Foreign => Ftp::Address,
        Wanted::End(want) => match desk.expect(rt, place, want, packet.moment) {
            ExpectOutcome::Expected { id, .. } => Ftp::Expected { id },
            ExpectOutcome::MasterGone { at } => Ftp::Gone { at },
            ExpectOutcome::Clash { id, at } => Ftp::Clash { id, at },
            ExpectOutcome::ExpectFull { at } => Ftp::Full { at },
        },
    }
}
