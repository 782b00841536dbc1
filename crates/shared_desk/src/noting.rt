//! A clerk's own events, with their numbers.

ghost use Rattle.std.specs.Prelude.{◌≡◌, ◌+◌, ◌<◌, ◌≤◌, length};
ghost use Rattle.shared_desk.specs.Noting.{made_by, room_after, room_for, with_note};
ghost use Rattle.shared_desk.specs.Touching.{touch_note};

use crate::commit::record_for;
use crate::touching::{EntryPacket, MadeTouch, touch_event};
use history_book::event::{Event, Note};
use history_book::outcome::ConfirmOutcome;
use history_book::record::Flow;
use history_book::report::Notes;

/// Notes the Confirm, if the call made it. There is room for it.
#[inline(always)]
pub fn note_confirm(
    notes: &mut Notes,
    spare: &mut u64,
    place: u32,
    flow: &Flow,
    outcome: &ConfirmOutcome,
)
    requires room { length notes.old.items + spare.old ≤ notes.old.room }
    requires spare { 1 ≤ spare.old }
    ensures notes { notes.new ≡ made_by place flow.now outcome.now notes.old }
    ensures spare { spare.new ≡ room_for outcome.now spare.old }
{
    match *outcome {
        ConfirmOutcome::Confirmed { id } => {
            notes.push(Note {
                number: id,
                event: Event::Confirm {
                    subject: record_for(flow, id, place),
                },
            });
            *spare -= 1;
        }
        ConfirmOutcome::Clash { .. } => {}
    }
}

/// Notes an own event, if there is one. There is room for it.
#[inline(always)]
pub fn note_event(notes: &mut Notes, spare: &mut u64, made: Option<Note>)
    requires room { length notes.old.items + spare.old ≤ notes.old.room }
    requires spare { 1 ≤ spare.old }
    ensures notes { notes.new ≡ with_note made notes.old }
    ensures spare { spare.new ≡ room_after made spare.old }
{
    if let Some(note) = made {
        notes.push(note);
        *spare -= 1;
    }
}

/// Notes the Touch by a packet, if the call made it. There is room for it.
#[inline(always)]
pub fn note_touch(notes: &mut Notes, spare: &mut u64, packet: &EntryPacket, made: Option<MadeTouch>)
    requires room { length notes.old.items + spare.old ≤ notes.old.room }
    requires spare { 1 ≤ spare.old }
    ensures notes { notes.new ≡ with_note (touch_note packet.now made) notes.old }
    ensures spare { spare.new ≡ room_after (touch_note packet.now made) spare.old }
{
    if let Some(MadeTouch { number, id, after }) = made {
        notes.push(Note {
            number,
            event: touch_event(packet, id, after),
        });
        *spare -= 1;
    }
}
