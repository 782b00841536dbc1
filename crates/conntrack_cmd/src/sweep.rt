//! Looks at all places of the pool, one after the other.

ghost use Rattle.std.specs.Prelude.{◌≡◌, ◌≤◌, ◌^◌, true, [], length};
ghost use Rattle.history_book.specs.Legality.{reason_moment_of};
ghost use Rattle.history_book.specs.Places.{HoldsNothing};
ghost use Rattle.history_book.specs.Sight.{IsKnown};
ghost use Rattle.conntrack_cmd.specs.Internal.Loops.{IsCounting, IsDestroying, IsListing};
ghost use Rattle.pool_visits.specs.Visit.{names_no_segment};

use history_book::answer::Rows;
use history_book::desk::Desk;
use history_book::event::Why;
use history_book::filter::Filter;
use history_book::sight_laws::desks_go_on;
use pool_visits::laws::sweeps_go_on;
use pool_visits::place::{Visit, destroy_place, list_place};
use std::sync::Wait;

/// Lists the entries that the filter selects, in the order of their places.
pub fn list_all<R: Wait, D: Desk>(rt: &R, desk: &mut D, filter: &Filter, rows: &mut Rows)
    requires none { rows.old.items ≡ [] }
    requires room { (D.sight desk.old).sizes.entries ≤ rows.old.room }
    requires empty { HoldsNothing (D.sight desk.old) }
    requires knows { IsKnown (D.sight desk.old) }
    ensures listed { IsListing filter.now (D.sight desk.old) (D.sight desk.new)
        (D.sight desk.old).sizes.entries rows.new.items }
    ensures room { rows.new.room ≡ rows.old.room }
{
    desks_go_on();
    sweeps_go_on();
    let places = desk.places();
    let mut next = 0;
    'places: while next < places {
        let place = next;
        next += 1;
        if let Some(row) = list_place(rt, desk, filter, place) {
            rows.push(row);
        }
    }
}

/// Destroys the entries for which the reason holds, and lists them in the order of the events.
pub fn destroy_all<R: Wait, D: Desk>(rt: &R, desk: &mut D, why: Why, rows: &mut Rows)
    requires none { rows.old.items ≡ [] }
    requires room { (D.sight desk.old).sizes.entries ≤ rows.old.room }
    requires empty { HoldsNothing (D.sight desk.old) }
    requires knows { IsKnown (D.sight desk.old) }
    requires suits { names_no_segment why ≡ true }
    requires timely { reason_moment_of why ≤ 10 ^ 16 }
    requires spare { (D.sight desk.old).sizes.entries ≤ (D.sight desk.old).spare }
    ensures destroyed { IsDestroying why (D.sight desk.old) (D.sight desk.new)
        (D.sight desk.old).sizes.entries rows.new.items }
    ensures room { rows.new.room ≡ rows.old.room }
{
    desks_go_on();
    sweeps_go_on();
    let places = desk.places();
    let mut next = 0;
    'places: while next < places {
        let place = next;
        next += 1;
        match destroy_place(rt, desk, why, place) {
            Visit::Destroyed(row) => rows.push(row),
            Visit::Left { .. } => {}
        }
    }
}

/// Destroys the entries for which the reason holds, and counts them.
pub fn count_destroyed<R: Wait, D: Desk>(rt: &R, desk: &mut D, why: Why) -> u32
    requires empty { HoldsNothing (D.sight desk.old) }
    requires knows { IsKnown (D.sight desk.old) }
    requires suits { names_no_segment why ≡ true }
    requires timely { reason_moment_of why ≤ 10 ^ 16 }
    requires spare { (D.sight desk.old).sizes.entries ≤ (D.sight desk.old).spare }
    ensures { IsCounting why (D.sight desk.old) (D.sight desk.new) (D.sight desk.old).sizes.entries result }
{
    desks_go_on();
    sweeps_go_on();
    let places = desk.places();
    let mut next = 0;
    let mut ended = 0;
    'places: while next < places {
        let place = next;
        next += 1;
        match destroy_place(rt, desk, why, place) {
            Visit::Destroyed(_) => ended += 1,
            Visit::Left { .. } => {}
        }
    }
    ended
}
