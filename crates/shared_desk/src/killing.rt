//! Destroying the entry for which a place is held, under the turn of the place's record.

ghost use Rattle.std.specs.Prelude.{◌≡◌, ◌≤◌, ◌^◌, true, []};
ghost use Rattle.history_book.specs.Legality.{is_reason, reason_moment_of};
ghost use Rattle.track_rule.specs.ChangesOnly.{ChangesWords, either, is_expect_turn, where_so};
ghost use Rattle.shared_desk.specs.Changed.{destroy_words, end_words, killed_words};
ghost use Rattle.shared_desk.specs.Confirm.{IsLocked};
ghost use Rattle.shared_desk.specs.ExpectTurn.{CanTakeExpects};
ghost use Rattle.shared_desk.specs.Killing.{DestroysLocked, EndsEntry, Judges, KnowsRecord, flow_of};
ghost use Rattle.shared_desk.specs.Touching.{Notes};
ghost use Rattle.track_rule.specs.Commits.{HasItsTurn};

use crate::confirm::lock_flow;
use crate::expect_turn::{give_expects, take_expects};
use bucket_table::lock::{Locked, unlock_two};
use bucket_table::locked_chain::unlink;
use history_book::event::{Event, Note, Why};
use history_book::laws::records_are_of_one_flow;
use history_book::legality::is_reason_for;
use history_book::outcome::KillOutcome;
use history_book::record::{Flow, Record};
use std::sync::Wait;
use track_rule::pass::Pass;

/// What a record has of the flow that became it.
fn flow_of(subject: &Record) -> Flow
    ensures { result ≡ flow_of subject.now }
{
    let Record {
        original,
        reply,
        part,
        helper,
        master,
        ..
    } = *subject;
    Flow {
        original,
        reply,
        part,
        helper,
        master,
    }
}

/// Destroys the entry of a place while both buckets of its tuples are locked: the place is DEAD, the Destroy is made, and both links
/// come out of their chains. Gives the number of the Destroy.
fn destroy(pass: &mut Pass, locked: &Locked, place: u32, subject: &Record, why: Why) -> u64
    requires knows { KnowsRecord place subject.now pass.old }
    requires reason { is_reason why subject.now ≡ true }
    requires locked { IsLocked (flow_of subject.now) locked.now pass.old }
    requires helped { HasItsTurn subject.now pass.old.view.expected }
    ensures destroys { DestroysLocked place subject.now why result pass.old pass.new }
    ensures words { ChangesWords (destroy_words place subject.now) pass.old.view pass.new.view }
{
    records_are_of_one_flow();
    pass.phase_dead(place);
    let number = pass.destroy_add(Event::Destroy {
        id: subject.id,
        why,
    });
    unlink(pass, locked, place);
    number
}

/// Waits for the buckets of both tuples of an entry, destroys it, and gives up the table's reference to its place. Gives the number of
/// the Destroy.
fn end_entry<R: Wait>(rt: &R, pass: &mut Pass, place: u32, subject: &Record, why: Why) -> u64
    requires knows { KnowsRecord place subject.now pass.old }
    requires reason { is_reason why subject.now ≡ true }
    requires shut { pass.old.view.buckets.shut ≡ [] }
    requires helped { HasItsTurn subject.now pass.old.view.expected }
    ensures ends { EndsEntry place subject.now why result pass.old pass.new }
    ensures words { ChangesWords (end_words place subject.now) pass.old.view pass.new.view }
{
    let flow = flow_of(subject);
    let locked = lock_flow(rt, pass, &flow);
    let number = destroy(pass, &locked, place, subject, why);
    unlock_two(pass, locked);
    let _ = pass.ref_down(place);
    number
}

/// Destroys the entry of a record. Where it has the helper, the turn of the expectations is waited for before that, and what it expected
/// is taken out of their table. Gives the number of the Destroy.
fn end_with_expected<R: Wait>(
    rt: &R,
    pass: &mut Pass,
    place: u32,
    subject: &Record,
    why: Why,
) -> u64
    requires knows { KnowsRecord place subject.now pass.old }
    requires reason { is_reason why subject.now ≡ true }
    requires free { CanTakeExpects pass.old }
    ensures ends { EndsEntry place subject.now why result pass.old pass.new }
    ensures words { ChangesWords (either (where_so subject.now.helper is_expect_turn) (end_words place subject.now)) pass.old.view pass.new.view }
{
    if !subject.helper {
        return end_entry(rt, pass, place, subject, why);
    }
    let mut table = take_expects(rt, pass);
    let number = end_entry(rt, pass, place, subject, why);
    table.remove_master(subject.id);
    give_expects(pass, table);
    number
}

/// Destroys the entry of a record, which was so at this point, where the reason holds of it.
pub fn judge<R: Wait>(
    rt: &R,
    pass: &mut Pass,
    place: u32,
    subject: &Record,
    why: Why,
    at: u64,
) -> (KillOutcome, Option<Note>)
    requires knows { KnowsRecord place subject.now pass.old }
    requires timely { reason_moment_of why ≤ 10 ^ 16 }
    requires free { CanTakeExpects pass.old }
    ensures judges { Judges place subject.now why at result.0 pass.old pass.new }
    ensures words { ChangesWords (killed_words place result.0) pass.old.view pass.new.view }
    ensures noted { Notes result.1 pass.old.view.seen.own pass.new.view.seen.own }
{
    let subject = *subject;
    if !is_reason_for(&why, &subject) {
        return (KillOutcome::Not { subject, at }, None);
    }
    let number = end_with_expected(rt, pass, place, &subject, why);
    let event = Event::Destroy {
        id: subject.id,
        why,
    };
    (
        KillOutcome::Killed { number, subject },
        Some(Note { number, event }),
    )
}
