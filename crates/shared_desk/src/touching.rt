//! Touching the entry for which a place is held, under the turn of the place's record.

ghost use Rattle.std.specs.Prelude.{◌≡◌, ◌<◌, ◌≤◌, ◌^◌, true, length, Some};
ghost use Rattle.proto_rules.specs.Protocol.{is_of_protocol};
ghost use Rattle.proto_rules.specs.Step.{step_of};
ghost use Rattle.proto_rules.specs.declared.Outcome.TheVariants as outcome;
ghost use Rattle.track_rule.specs.ChangesOnly.{ChangesWords, is_history, where_so};
ghost use Rattle.shared_desk.specs.Changed.{is_touched};
ghost use Rattle.shared_desk.specs.Touching.{GoesOn, KnowsEntry, Notes, StepsRecord, touch_note, touch_of};

use history_book::event::Event;
use history_book::outcome::TouchOutcome;
use history_book::record::Record;
use proto_rules::laws::same_part_is_equality;
use proto_rules::{Outcome, Part, step};
use track_rule::pass::Pass;
use tuple_core::{Direction, Segment};

/// A packet of an entry: its direction, what a tracker reads of it, and its moment in microseconds.
#[derive(Clone, Copy)]
pub struct EntryPacket {
    pub direction: Direction,
    pub segment: Segment,
    pub moment: u64,
}

/// A Touch that was made: its number, and the part with which the entry of this id goes on.
#[derive(Clone, Copy)]
pub struct MadeTouch {
    pub number: u64,
    pub id: u64,
    pub after: Part,
}

/// The Touch of the entry of this id by a packet, with which it goes on so.
#[inline(always)]
pub fn touch_event(packet: &EntryPacket, id: u64, after: Part) -> Event
    ensures { result ≡ touch_of packet.now id after }
{
    let EntryPacket {
        direction,
        segment,
        moment,
    } = *packet;
    Event::Touch {
        id,
        direction,
        segment,
        moment,
        after,
    }
}

/// The entry accepts a packet and goes on with this part. Gives the Touch.
#[inline(always)]
fn go_on(
    pass: &mut Pass,
    place: u32,
    id: u64,
    before: &Record,
    packet: &EntryPacket,
    after: Part,
) -> MadeTouch
    requires knows { KnowsEntry place id before.now pass.old }
    requires protocol { is_of_protocol packet.now.segment before.now.part.kind ≡ true }
    requires step { step_of before.now.part packet.now.direction packet.now.segment packet.now.moment ≡ outcome.Accept after }
    requires few { length pass.old.view.seen.own < 2 ^ 30 }
    ensures goes { GoesOn place id before.now packet.now after result.number pass.old pass.new }
    ensures words { ChangesWords is_history pass.old.view pass.new.view }
    ensures noted { Notes (touch_note packet.now (Some result)) pass.old.view.seen.own pass.new.view.seen.own }
{
    same_part_is_equality();
    let number = pass.touch_add(touch_event(packet, id, after));
    pass.part_store(place, after);
    MadeTouch { number, id, after }
}

/// Does what the step says that a packet does to an entry, which was so at this point.
#[inline(always)]
pub fn step_record(
    pass: &mut Pass,
    place: u32,
    id: u64,
    before: &Record,
    packet: &EntryPacket,
    at: u64,
) -> (TouchOutcome, Option<MadeTouch>)
    requires knows { KnowsEntry place id before.now pass.old }
    requires protocol { is_of_protocol packet.now.segment before.now.part.kind ≡ true }
    requires timely { packet.now.moment ≤ 10 ^ 16 }
    requires few { length pass.old.view.seen.own < 2 ^ 30 }
    ensures steps { StepsRecord place id before.now packet.now at result.0 pass.old pass.new }
    ensures words { ChangesWords (where_so (is_touched result.0) is_history) pass.old.view pass.new.view }
    ensures noted { Notes (touch_note packet.now result.1) pass.old.view.seen.own pass.new.view.seen.own }
{
    let outcome = match step(
        &before.part,
        packet.direction,
        packet.segment,
        packet.moment,
    ) {
        Outcome::Accept(after) => {
            let made = go_on(pass, place, id, before, packet, after);
            let touched = TouchOutcome::Touched {
                number: made.number,
                before: *before,
            };
            return (touched, Some(made));
        }
        Outcome::Ignore => TouchOutcome::Ignored { at },
        Outcome::Invalid => TouchOutcome::Invalid { at },
        Outcome::Reopen => TouchOutcome::Reopen { at },
        Outcome::Reset => TouchOutcome::Reset { at },
        Outcome::Expired => TouchOutcome::Expired { at },
    };
    (outcome, None)
}
