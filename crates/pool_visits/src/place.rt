//! Looks at one place of the pool: its entry is listed, or destroyed.

ghost use Rattle.std.specs.Prelude.{◌≡◌, ◌+◌, ◌<◌, ◌≤◌, ◌^◌, ℕ, true, [], length, IfSome, option_to_list};
ghost use Rattle.history_book.specs.WentOn.{Saw};
ghost use Rattle.history_book.specs.Filter.{selects};
ghost use Rattle.history_book.specs.Legality.{reason_moment_of};
ghost use Rattle.history_book.specs.Places.{HoldsNothing};
ghost use Rattle.history_book.specs.Sight.{IsKnown};
ghost use Rattle.pool_visits.specs.Row.{IsRow};
ghost use Rattle.pool_visits.specs.Visit.{names_no_segment, Visited, VisitSays};

use crate::bundles::places_tell_their_entry;
use history_book::answer::Row;
use history_book::desk::Desk;
use history_book::event::Why;
use history_book::filter::{Filter, selects};
use history_book::laws::destroyed_ids_stay_dead;
use history_book::outcome::{HoldOutcome, KillOutcome, PeekOutcome};
use history_book::places::give_up;
use history_book::sight_laws::desks_go_on;
use std::sync::Wait;

/// The row of the entry that is live in the place, if one is and the filter selects it.
pub fn list_place<R: Wait, D: Desk>(
    rt: &R,
    desk: &mut D,
    filter: &Filter,
    place: u32,
) -> Option<Row>
    requires below { place < (D.sight desk.old).sizes.entries }
    requires empty { HoldsNothing (D.sight desk.old) }
    ensures saw { Saw (D.sight desk.old) (D.sight desk.new) }
    ensures row { IfSome result (IsRow (D.sight desk.new).front filter.now
        (length (D.sight desk.old).front) (length (D.sight desk.new).front)) }
    ensures placed { IfSome result (λ r. r.subject.place ≡ place) }
    ensures visited { Visited (D.sight desk.new).front (selects filter.now) place
        (length (D.sight desk.old).front) (length (D.sight desk.new).front) (option_to_list result) }
    ensures empty { HoldsNothing (D.sight desk.new) }
    ensures knows { IsKnown (D.sight desk.new) }
{
    desks_go_on();
    places_tell_their_entry();
    match desk.hold(rt, place) {
        HoldOutcome::Empty { .. } => None,
        HoldOutcome::Held { .. } => match desk.peek(rt, place) {
            PeekOutcome::Gone { .. } => {
                give_up(rt, desk, place);
                None
            }
            PeekOutcome::Seen { subject, at } => {
                give_up(rt, desk, place);
                if selects(filter, &subject) {
                    Some(Row { subject, at })
                } else {
                    None
                }
            }
        },
    }
}

/// How a look at a place ended whose entry was to be destroyed.
#[derive(Clone, Copy)]
pub enum Visit {
    /// The entry was destroyed. The row is the entry as it was found, with the number of the event.
    Destroyed(Row),
    /// None was destroyed, up to this point: none was live in the place, or the reason did not hold of it.
    Left { at: u64 },
}

/// Destroys the entry that is live in the place, if one is and the reason holds of it. The reason names no segment.
pub fn destroy_place<R: Wait, D: Desk>(rt: &R, desk: &mut D, why: Why, place: u32) -> Visit
    requires below { place < (D.sight desk.old).sizes.entries }
    requires empty { HoldsNothing (D.sight desk.old) }
    requires suits { names_no_segment why ≡ true }
    requires timely { reason_moment_of why ≤ 10 ^ 16 }
    requires spare { 1 ≤ (D.sight desk.old).spare }
    ensures says { VisitSays why place (D.sight desk.old) (D.sight desk.new) result }
    ensures empty { HoldsNothing (D.sight desk.new) }
    ensures knows { IsKnown (D.sight desk.new) }
{
    destroyed_ids_stay_dead();
    desks_go_on();
    places_tell_their_entry();
    match desk.hold(rt, place) {
        HoldOutcome::Empty { at } => Visit::Left { at },
        HoldOutcome::Held { .. } => match desk.kill(rt, place, why) {
            KillOutcome::Killed { number, subject } => {
                give_up(rt, desk, place);
                Visit::Destroyed(Row {
                    subject,
                    at: number,
                })
            }
            KillOutcome::Gone { at } => {
                give_up(rt, desk, place);
                Visit::Left { at }
            }
            KillOutcome::Not { at, .. } => {
                give_up(rt, desk, place);
                Visit::Left { at }
            }
        },
    }
}
