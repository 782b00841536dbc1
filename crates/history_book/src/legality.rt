//! Which events may happen: the plain programs of the definitions.

ghost use Rattle.std.specs.Prelude.{◌≡◌, ◌==◌, ◌+◌, ◌≤◌, ◌^◌, Some, true, find};
ghost use Rattle.std.specs.List.{list_any};
ghost use Rattle.expect_table.specs.Expectations.{matching};
ghost use Rattle.expect_table.specs.Match.{has_id};
ghost use Rattle.history_book.specs.DeskExpectations.{expectation_at};
ghost use Rattle.history_book.specs.Legality.{expected_for, helps_in, is_added, is_of_one_flow};
ghost use Rattle.history_book.specs.Legality.{is_reason, is_reopen, is_reset, same_id};
ghost use Rattle.history_book.specs.Legality.{may_claim, may_confirm, may_expect, may_happen, may_touch};
ghost use Rattle.history_book.specs.Legality.{may_unexpect};
ghost use Rattle.proto_rules.specs.Protocol.{is_of_protocol};
ghost use Rattle.proto_rules.specs.Same.{same_part};
ghost use Rattle.proto_rules.specs.Step.{step_of};
ghost use Rattle.history_book.specs.Internal.Late.{later, later_part};
ghost use Rattle.history_book.specs.Record.{has_place, has_tuple};
ghost use Rattle.history_book.specs.State.{record_of, state_of};

use crate::event::{Event, Why};
use crate::filter::selects;
use crate::find::find_id;
use crate::record::Record;
use crate::sizes::Sizes;
use expect_table::expectation::{Expectation, Want};
use expect_table::table::{AddOutcome, first_match, first_with, outcome_of};
use proto_rules::{Outcome, Part, droppable, is_of_protocol, is_same_part, proto_of, step};
use tuple_core::{Direction, Segment, Tuple, is_valid};

/// Whether the record has the tuple in either direction.
fn has_tuple(r: &Record, t: &Tuple) -> bool
    ensures { result ≡ has_tuple t.now r.now }
{
    r.original == *t || r.reply == *t
}

/// Whether a live record has the tuple in either direction.
pub fn is_taken(records: &[Record], t: &Tuple) -> bool
    ensures { result ≡ list_any (has_tuple t.now) records.now }
{
    records.iter().any(|r| has_tuple(r, t))
}

/// Whether a live record has the place.
pub fn is_place_used(records: &[Record], place: u32) -> bool
    ensures { result ≡ list_any (has_place place) records.now }
{
    records.iter().any(|r| r.place == place)
}

/// Whether both tuples of a record are valid, of one zone, and of the protocol of its part.
fn is_of_one_flow(r: &Record) -> bool
    ensures { result ≡ is_of_one_flow r.now }
{
    let proto = proto_of(r.part.kind);
    is_valid(&r.original)
        && is_valid(&r.reply)
        && r.reply.zone == r.original.zone
        && r.original.proto == proto
        && r.reply.proto == proto
}

/// Whether this record may be confirmed as event `number`, beside these records, in a tracker of these
/// sizes.
fn is_confirmable(sizes: &Sizes, records: &[Record], number: u64, subject: &Record) -> bool
    ensures { result ≡ may_confirm sizes.now (state_of records.now) number subject.now }
{
    subject.id == number
        && is_of_one_flow(subject)
        && subject.place < sizes.entries
        && !is_place_used(records, subject.place)
        && !is_taken(records, &subject.original)
        && !is_taken(records, &subject.reply)
}

/// The latest moment that `step` takes, in microseconds.
const LATEST: u64 = 10_000_000_000_000_000;

/// What a packet does to the entry, reckoned at a moment that `step` takes, and by how much the packet came later.
fn reckoned_step(part: &Part, direction: Direction, segment: Segment, moment: u64) -> (Outcome, u64)
    requires { is_of_protocol segment part.now.kind ≡ true }
    ensures { later result.1 result.0 ≡ step_of part.now direction segment moment }
{
    if part.deadline <= moment {
        return (Outcome::Expired, 0);
    }
    let late = moment.saturating_sub(LATEST);
    (step(part, direction, segment, moment - late), late)
}

/// Whether `after` is the part, with a deadline that is later by so much.
fn is_later_part(part: &Part, late: u64, after: &Part) -> bool
    ensures { result ≡ same_part (later_part late part.now) after.now }
{
    after.deadline >= late
        && is_same_part(
            part,
            &Part {
                deadline: after.deadline - late,
                ..*after
            },
        )
}

/// Whether the record may be touched by such a packet, and goes on with the part `after`.
fn is_touchable(
    r: &Record,
    direction: Direction,
    segment: Segment,
    moment: u64,
    after: &Part,
) -> bool
    ensures { result ≡ may_touch (Some r.now) direction segment moment after.now }
{
    if !is_of_protocol(segment, r.part.kind) {
        return false;
    }
    let (outcome, late) = reckoned_step(&r.part, direction, segment, moment);
    match outcome {
        Outcome::Accept(next) => is_later_part(&next, late, after),
        Outcome::Ignore | Outcome::Invalid | Outcome::Reopen | Outcome::Reset | Outcome::Expired =>
            false,
    }
}

/// Whether such a packet reopens the connection.
fn is_reopening(part: &Part, direction: Direction, segment: Segment, moment: u64) -> bool
    requires { is_of_protocol segment part.now.kind ≡ true }
    ensures { result ≡ is_reopen (step_of part.now direction segment moment) }
{
    let (outcome, _late) = reckoned_step(part, direction, segment, moment);
    match outcome {
        Outcome::Reopen => true,
        Outcome::Accept(_)
        | Outcome::Ignore
        | Outcome::Invalid
        | Outcome::Reset
        | Outcome::Expired => false,
    }
}

/// Whether such a packet resets the connection.
fn is_resetting(part: &Part, segment: Segment, moment: u64) -> bool
    requires { is_of_protocol segment part.now.kind ≡ true }
    ensures { result ≡ is_reset (step_of part.now Direction.Original segment moment) }
{
    let (outcome, _late) = reckoned_step(part, Direction::Original, segment, moment);
    match outcome {
        Outcome::Reset => true,
        Outcome::Accept(_)
        | Outcome::Ignore
        | Outcome::Invalid
        | Outcome::Reopen
        | Outcome::Expired => false,
    }
}

/// Whether the reason holds of the record.
pub fn is_reason_for(why: &Why, r: &Record) -> bool
    ensures { result ≡ is_reason why.now r.now }
{
    match *why {
        Why::Expired { moment } => r.part.deadline <= moment,
        Why::Reopened {
            direction,
            segment,
            moment,
        } => {
            is_of_protocol(segment, r.part.kind)
                && is_reopening(&r.part, direction, segment, moment)
        }
        Why::Reset { segment, moment } => {
            is_of_protocol(segment, r.part.kind) && is_resetting(&r.part, segment, moment)
        }
        Why::Deleted { filter } => selects(&filter, r),
        Why::Flushed => true,
        Why::Dropped { moment } => r.part.deadline <= moment || droppable(&r.part),
    }
}

/// How long a connection is expected, in microseconds.
pub const EXPECTED_FOR: u64 = 300_000_000;

/// What an entry of a zone expects from a moment on, as event `number`.
pub fn expectation_at(number: u64, master: u64, zone: u16, want: Want, moment: u64) -> Expectation
    requires { moment ≤ 10 ^ 16 }
    ensures { result ≡ expectation_at number master zone want moment }
{
    Expectation {
        id: number,
        master,
        want,
        zone,
        deadline: moment + EXPECTED_FOR,
    }
}

/// Whether the entry of this id is live, has the helper, and is in the zone.
fn helps_in(records: &[Record], id: u64, zone: u16) -> bool
    ensures { result ≡ helps_in zone (record_of id (state_of records.now)) }
{
    match find_id(records, id) {
        Some(index) => records[index].helper && records[index].original.zone == zone,
        None => false,
    }
}

/// Whether both are none, or both are one id.
fn is_same_id(a: Option<u64>, b: Option<u64>) -> bool
    ensures { result ≡ same_id a b }
{
    match (a, b) {
        (None, None) => true,
        (Some(m), Some(n)) => m == n,
        (None, Some(_)) | (Some(_), None) => false,
    }
}

/// Whether an expectation is added, in place of this older one.
fn is_added(outcome: AddOutcome, older: Option<u64>) -> bool
    ensures { result ≡ is_added outcome older }
{
    match outcome {
        AddOutcome::Added { replaced } => is_same_id(replaced, older),
        AddOutcome::Clash { .. } | AddOutcome::Full => false,
    }
}

/// Whether what is expected from the moment on is expected until the deadline.
fn is_expected_from(moment: u64, deadline: u64) -> bool
    ensures { result ≡ (deadline == moment + expected_for) }
{
    deadline >= EXPECTED_FOR && deadline - EXPECTED_FOR == moment
}

/// Whether this may be expected as event `number`, beside these records and expectations, in a tracker of these
/// sizes.
fn is_expectable(
    sizes: &Sizes,
    records: &[Record],
    expects: &[Expectation],
    number: u64,
    e: &Expectation,
    replaced: Option<u64>,
    moment: u64,
) -> bool
    ensures { result ≡ may_expect sizes.now (record { records = records.now; expects = expects.now })
        number e.now replaced moment }
{
    e.id == number
        && is_expected_from(moment, e.deadline)
        && helps_in(records, e.master, e.zone)
        && is_added(outcome_of(expects, sizes.expectations, e, moment), replaced)
}

/// Whether the expectation of this id is the first that matches, and of this master.
fn is_claimable(expects: &[Expectation], t: &Tuple, moment: u64, id: u64, master: u64) -> bool
    ensures { result ≡ may_claim (matching t.now moment expects.now) id master }
{
    match first_match(expects, t, moment) {
        Some(e) => e.id == id && e.master == master,
        None => false,
    }
}

/// Whether there is an expectation of this id that is awaited no longer.
fn is_overdue(expects: &[Expectation], id: u64, moment: u64) -> bool
    ensures { result ≡ may_unexpect (find (has_id id) expects.now) moment }
{
    match first_with(expects, id) {
        Some(e) => moment >= e.deadline,
        None => false,
    }
}

/// Whether `event` may happen as event `number`, beside these records and expectations, in a tracker of these
/// sizes.
pub fn is_lawful(
    sizes: &Sizes,
    records: &[Record],
    expects: &[Expectation],
    number: u64,
    event: &Event,
) -> bool
    ensures { result ≡ may_happen sizes.now (record { records = records.now; expects = expects.now })
        number event.now }
{
    match event {
        Event::Confirm { subject } => is_confirmable(sizes, records, number, subject),
        Event::Touch {
            id,
            direction,
            segment,
            moment,
            after,
        } => match find_id(records, *id) {
            Some(index) => is_touchable(&records[index], *direction, *segment, *moment, after),
            None => false,
        },
        Event::Destroy { id, why } => match find_id(records, *id) {
            Some(index) => is_reason_for(why, &records[index]),
            None => false,
        },
        Event::Expect {
            expectation,
            replaced,
            moment,
        } => is_expectable(
            sizes,
            records,
            expects,
            number,
            expectation,
            *replaced,
            *moment,
        ),
        Event::Claim {
            expectation,
            master,
            tuple,
            moment,
        } => is_claimable(expects, tuple, *moment, *expectation, *master),
        Event::Unexpect {
            expectation,
            moment,
        } => is_overdue(expects, *expectation, *moment),
    }
}
