//! Expectations end by the packets that match them, or in time, and are listed.

ghost use Rattle.std.specs.Prelude.{◌≡◌, ◌<◌, ◌≤◌, ◌^◌, None, Some, is_some, length, true};
ghost use Rattle.expect_table.specs.Expectations.{matching};
ghost use Rattle.track_rule.specs.ChangesOnly.{ChangesWords, is_expect_turn, is_history, where_so};
ghost use Rattle.shared_desk.specs.Changed.{claim_words, is_claimed, is_removed, unexpect_words};
ghost use Rattle.shared_desk.specs.Claiming.{Claims, HasLooked, Unexpects};
ghost use Rattle.shared_desk.specs.ExpectTurn.{CanTakeExpects, aside};
ghost use Rattle.shared_desk.specs.Touching.{Notes};
ghost use Rattle.track_rule.specs.ExpectTurns.{CanGiveExpected, expects_at, table_in};
ghost use Rattle.track_rule.specs.Sights.{sizes_of};

use crate::expect_turn::{give_expects, take_expects, take_turn};
use expect_table::expectation::Expectation;
use expect_table::table::ExpectTable;
use history_book::event::{Event, Note};
use history_book::outcome::{ClaimOutcome, UnexpectOutcome};
use history_book::report::Expectations;
use std::sync::Wait;
use track_rule::history_word::events_in;
use track_rule::pass::Pass;
use tuple_core::Tuple;

/// Ends this expectation, the first that a packet with this tuple matches at a moment, under the turn of the expectations, where their
/// table lies.
#[inline(always)]
fn claim_met(
    pass: &mut Pass,
    met: &Expectation,
    t: &Tuple,
    moment: u64,
) -> (ClaimOutcome, Option<Note>)
    requires met { matching t.now moment (table_in pass.old.slots).items ≡ Some met.now }
    requires there { is_some (expects_at pass.old.slots) ≡ true }
    requires knows { CanGiveExpected pass.old.view (table_in pass.old.slots) }
    requires free { pass.old.view.free ≡ None }
    requires few { length pass.old.view.seen.own < 2 ^ 30 }
    ensures claims { Claims t.now moment result.0 (aside pass.old) (aside pass.new) }
    ensures words { ChangesWords (where_so (is_claimed result.0) is_history) pass.old.view pass.new.view }
    ensures there { is_some (expects_at pass.new.slots) ≡ true }
    ensures knows { CanGiveExpected pass.new.view (table_in pass.new.slots) }
    ensures noted { Notes result.1 pass.old.view.seen.own pass.new.view.seen.own }
{
    let event = Event::Claim {
        expectation: met.id,
        master: met.master,
        tuple: *t,
        moment,
    };
    let number = pass.claim_add(event);
    pass.expects_remove(met.id);
    let claimed = ClaimOutcome::Claimed {
        number,
        expectation: met.id,
        master: met.master,
    };
    (claimed, Some(Note { number, event }))
}

/// Waits for the turn of the expectations, and ends the first one that a packet with this tuple matches at a moment.
#[inline(always)]
pub fn claim<R: Wait>(
    rt: &R,
    pass: &mut Pass,
    t: &Tuple,
    moment: u64,
) -> (ClaimOutcome, Option<Note>)
    requires free { CanTakeExpects pass.old }
    requires few { length pass.old.view.seen.own < 2 ^ 30 }
    ensures claims { Claims t.now moment result.0 pass.old pass.new }
    ensures words { ChangesWords (claim_words result.0) pass.old.view pass.new.view }
    ensures noted { Notes result.1 pass.old.view.seen.own pass.new.view.seen.own }
{
    take_turn(rt, pass);
    let Some(met) = pass.expects_matching(t, moment) else {
        let at = events_in(pass.history_load());
        pass.expects_give();
        return (ClaimOutcome::Unclaimed { at }, None);
    };
    let outcome = claim_met(pass, &met, t, moment);
    pass.expects_give();
    outcome
}

/// Ends the expectation of this id, where it is awaited no longer at a moment, under the turn of the expectations, which are this table's.
fn unexpect_one(
    pass: &mut Pass,
    table: &mut ExpectTable,
    id: u64,
    moment: u64,
) -> (UnexpectOutcome, Option<Note>)
    requires knows { CanGiveExpected pass.old.view table.old }
    requires few { length pass.old.view.seen.own < 2 ^ 30 }
    ensures unexpects { Unexpects id moment result.0 (aside pass.old) (aside pass.new) }
    ensures words { ChangesWords (where_so (is_removed result.0) is_history) pass.old.view pass.new.view }
    ensures knows { CanGiveExpected pass.new.view table.new }
    ensures noted { Notes result.1 pass.old.view.seen.own pass.new.view.seen.own }
{
    let Some(subject) = table.find(id) else {
        let at = events_in(pass.history_load());
        return (UnexpectOutcome::Gone { at }, None);
    };
    let deadline = subject.deadline;
    if moment < deadline {
        let at = events_in(pass.history_load());
        return (UnexpectOutcome::Not { deadline, at }, None);
    }
    let event = Event::Unexpect {
        expectation: id,
        moment,
    };
    let number = pass.unexpect_add(event);
    table.remove(id);
    (
        UnexpectOutcome::Removed { number },
        Some(Note { number, event }),
    )
}

/// Waits for the turn of the expectations, and ends the one of this id, where it is awaited no longer at a moment.
pub fn unexpect<R: Wait>(
    rt: &R,
    pass: &mut Pass,
    id: u64,
    moment: u64,
) -> (UnexpectOutcome, Option<Note>)
    requires free { CanTakeExpects pass.old }
    requires few { length pass.old.view.seen.own < 2 ^ 30 }
    ensures unexpects { Unexpects id moment result.0 pass.old pass.new }
    ensures words { ChangesWords (unexpect_words result.0) pass.old.view pass.new.view }
    ensures noted { Notes result.1 pass.old.view.seen.own pass.new.view.seen.own }
{
    let mut table = take_expects(rt, pass);
    let outcome = unexpect_one(pass, &mut table, id, moment);
    give_expects(pass, table);
    outcome
}

/// Waits for the turn of the expectations, and lists them in order of id, in place of what the list has. Gives their point.
pub fn list_expects<R: Wait>(rt: &R, pass: &mut Pass, listed: &mut Expectations) -> u64
    requires free { CanTakeExpects pass.old }
    requires room { (sizes_of pass.old).expectations ≤ listed.old.room }
    ensures lists { HasLooked result (λ s. listed.new.items ≡ s.expects) pass.old pass.new }
    ensures words { ChangesWords is_expect_turn pass.old.view pass.new.view }
    ensures room { listed.new.room ≡ listed.old.room }
{
    let table = take_expects(rt, pass);
    let at = events_in(pass.history_load());
    table.list(listed);
    give_expects(pass, table);
    at
}
