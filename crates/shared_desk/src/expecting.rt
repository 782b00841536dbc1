//! The entry for which a place is held expects a connection. The turn of the place's record is taken first, and then that of the
//! expectations.

ghost use Rattle.std.specs.Prelude.{◌≡◌, ◌<◌, ◌^◌, None, [], length};
ghost use Rattle.track_rule.specs.ChangesOnly.{ChangesWords, either, is_expect_turn, is_history, where_so};
ghost use Rattle.shared_desk.specs.Changed.{expect_words, is_expected};
ghost use Rattle.shared_desk.specs.ExpectTurn.{aside};
ghost use Rattle.shared_desk.specs.Expecting.{Adds, Expects, IsOfMaster, SuitsExpect};
ghost use Rattle.shared_desk.specs.Looking.{HasRecord, IsFreeFor};
ghost use Rattle.shared_desk.specs.Touching.{Notes};
ghost use Rattle.track_rule.specs.ExpectTurns.{CanGiveExpected};

use crate::commit::take_turn;
use crate::entry::record_out;
use crate::expect_turn::{give_expects, take_expects};
use expect_table::expectation::{Expectation, Want};
use expect_table::table::{AddOutcome, ExpectTable};
use history_book::event::{Event, Note};
use history_book::laws::{entries_keep_helper_and_zone, expectations_are_in_order};
use history_book::legality::expectation_at;
use history_book::outcome::ExpectOutcome;
use std::sync::Wait;
use track_rule::history_word::events_in;
use track_rule::pass::Pass;
use track_rule::place_phase::LIVE;

/// Adds what a live entry expects from a moment on to the table, whose turn the pass has. Its id is the number that its event would
/// have: where a clash or a full table refuses it, that is the point of this answer.
fn add_expectation(
    pass: &mut Pass,
    table: &mut ExpectTable,
    e: &Expectation,
    moment: u64,
) -> (ExpectOutcome, Option<Note>)
    requires knows { CanGiveExpected pass.old.view table.old }
    requires master { IsOfMaster e.now moment pass.old }
    requires few { length pass.old.view.seen.own < 2 ^ 30 }
    ensures adds { Adds e.now moment table.old result.0 (aside pass.old) (aside pass.new) }
    ensures words { ChangesWords (where_so (is_expected result.0) is_history) pass.old.view pass.new.view }
    ensures knows { CanGiveExpected pass.new.view table.new }
    ensures noted { Notes result.1 pass.old.view.seen.own pass.new.view.seen.own }
{
    expectations_are_in_order();
    let replaced = match table.outcome(e, moment) {
        AddOutcome::Added { replaced } => replaced,
        AddOutcome::Clash { id } => return (ExpectOutcome::Clash { id, at: e.id }, None),
        AddOutcome::Full => return (ExpectOutcome::ExpectFull { at: e.id }, None),
    };
    let mut expectation = *e;
    expectation.id = pass.expect_add(Event::Expect {
        expectation,
        replaced,
        moment,
    });
    table.add(expectation, moment);
    let id = expectation.id;
    let event = Event::Expect {
        expectation,
        replaced,
        moment,
    };
    (
        ExpectOutcome::Expected { id, replaced },
        Some(Note { number: id, event }),
    )
}

/// Makes the entry for which a place is held expect a connection, under the turns of the place's record and of the expectations, which
/// are this table's.
fn expect_known(
    pass: &mut Pass,
    table: &mut ExpectTable,
    place: u32,
    want: Want,
    moment: u64,
) -> (ExpectOutcome, Option<Note>)
    requires has { HasRecord place pass.old }
    requires suits { SuitsExpect place moment pass.old }
    requires knows { CanGiveExpected pass.old.view table.old }
    ensures expects { Expects place want moment result.0 (aside pass.old) (aside pass.new) }
    ensures words { ChangesWords (where_so (is_expected result.0) is_history) pass.old.view pass.new.view }
    ensures knows { CanGiveExpected pass.new.view table.new }
    ensures noted { Notes result.1 pass.old.view.seen.own pass.new.view.seen.own }
{
    entries_keep_helper_and_zone();
    let phase = pass.phase_load(place);
    let at = events_in(pass.history_load());
    if phase < LIVE {
        return (ExpectOutcome::MasterGone { at }, None);
    }
    match record_out(pass, place) {
        Some(master) => {
            let e = expectation_at(at, phase - LIVE, master.original.zone, want, moment);
            add_expectation(pass, table, &e, moment)
        }
        None => (ExpectOutcome::MasterGone { at }, None),
    }
}

/// Waits for the turn of the expectations, and makes the entry for which a place is held expect a connection, under the turn of the
/// place's record.
fn expect_record<R: Wait>(
    rt: &R,
    pass: &mut Pass,
    place: u32,
    want: Want,
    moment: u64,
) -> (ExpectOutcome, Option<Note>)
    requires has { HasRecord place pass.old }
    requires suits { SuitsExpect place moment pass.old }
    requires expected { pass.old.view.expected ≡ None }
    requires shut { pass.old.view.buckets.shut ≡ [] }
    ensures expects { Expects place want moment result.0 pass.old pass.new }
    ensures words { ChangesWords (either is_expect_turn (where_so (is_expected result.0) is_history)) pass.old.view pass.new.view }
    ensures noted { Notes result.1 pass.old.view.seen.own pass.new.view.seen.own }
{
    let mut table = take_expects(rt, pass);
    let outcome = expect_known(pass, &mut table, place, want, moment);
    give_expects(pass, table);
    outcome
}

/// Waits for the turn of a place's record and then for that of the expectations, and makes the entry for which the place is held expect
/// a connection.
#[cold]
pub fn expect<R: Wait>(
    rt: &R,
    pass: &mut Pass,
    place: u32,
    want: Want,
    moment: u64,
) -> (ExpectOutcome, Option<Note>)
    requires free { IsFreeFor place pass.old }
    requires suits { SuitsExpect place moment pass.old }
    ensures expects { Expects place want moment result.0 pass.old pass.new }
    ensures words { ChangesWords (expect_words place result.0) pass.old.view pass.new.view }
    ensures noted { Notes result.1 pass.old.view.seen.own pass.new.view.seen.own }
{
    take_turn(rt, pass, place);
    let outcome = expect_record(rt, pass, place, want, moment);
    pass.turn_give(place);
    outcome
}
