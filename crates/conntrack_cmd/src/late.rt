//! Ends what is expected no longer.

ghost use Rattle.std.specs.Prelude.{◌≡◌, ◌≤◌, length, All};
ghost use Rattle.history_book.specs.Laws.{IsExpected};
ghost use Rattle.history_book.specs.Places.{HoldsNothing};
ghost use Rattle.history_book.specs.Sight.{IsKnown};
ghost use Rattle.conntrack_cmd.specs.Internal.Late.{EndsOrSaw, IsEnding, IsOverWhereLate};

use expect_table::expectation::Expectation;
use history_book::desk::Desk;
use history_book::laws::{expectations_are_expected, states_follow};
use history_book::outcome::UnexpectOutcome;
use history_book::report::Expectations;
use history_book::sight_laws::desks_go_on;
use std::sync::Wait;

/// Ends an expectation that is awaited no longer at the moment, if it is still there; says whether it made an event.
fn end_one<R: Wait, D: Desk>(rt: &R, desk: &mut D, e: &Expectation, moment: u64) -> bool
    requires expected { IsExpected (D.sight desk.old).front e.now }
    requires empty { HoldsNothing (D.sight desk.old) }
    requires knows { IsKnown (D.sight desk.old) }
    requires spare { 1 ≤ (D.sight desk.old).spare }
    ensures says { EndsOrSaw moment e.now.id (D.sight desk.old) (D.sight desk.new) result }
    ensures over { IsOverWhereLate (D.sight desk.new).front moment
        (length (D.sight desk.old).front) (length (D.sight desk.new).front) e.now }
    ensures empty { HoldsNothing (D.sight desk.new) }
    ensures knows { IsKnown (D.sight desk.new) }
{
    desks_go_on();
    expectations_are_expected();
    states_follow();
    let is_awaited = moment < e.deadline;
    if is_awaited {
        return false;
    }
    match desk.unexpect(rt, e.id, moment) {
        UnexpectOutcome::Removed { .. } => true,
        UnexpectOutcome::Gone { .. } => false,
        UnexpectOutcome::Not { .. } => false,
    }
}

/// Ends the listed expectations that are awaited no longer at the moment, and counts them.
pub fn end_late<R: Wait, D: Desk>(rt: &R, desk: &mut D, listed: &Expectations, moment: u64) -> u32
    requires expected { All (IsExpected (D.sight desk.old).front) listed.now.items }
    requires empty { HoldsNothing (D.sight desk.old) }
    requires knows { IsKnown (D.sight desk.old) }
    requires spare { length listed.now.items ≤ (D.sight desk.old).spare }
    ensures { IsEnding moment (D.sight desk.old) (D.sight desk.new) listed.now.items (length listed.now.items) result }
{
    desks_go_on();
    let mut next = 0;
    let mut ended = 0;
    'each: while next < listed.len() {
        let e = listed.at(next);
        next += 1;
        if end_one(rt, desk, e, moment) {
            ended += 1;
        }
    }
    ended
}
