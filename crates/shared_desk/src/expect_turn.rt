//! The turn of the expectations, with their table in its slot, or in the hands of the pass.

ghost use Rattle.std.specs.Prelude.{◌≡◌, None};
ghost use Rattle.track_rule.specs.ChangesOnly.{ChangesWords, is_expect_turn};
ghost use Rattle.shared_desk.specs.ExpectTurn.{CanTakeExpects, HasExpectTurn, HasExpects};
ghost use Rattle.track_rule.specs.declared.view.Middle.TheVariants.{Calm};
ghost use Rattle.track_rule.specs.ExpectTurns.{CanGiveExpected, before_expects, gave_expected};

use expect_table::table::ExpectTable;
use std::sync::Wait;
use std::thread;
use track_rule::pass::Pass;

/// Waits for the turn of the expectations, and takes it. Their table stays where it lies, out of the reach of other passes.
#[inline(always)]
pub fn take_turn<R: Wait>(rt: &R, pass: &mut Pass)
    requires { CanTakeExpects pass.old }
    ensures has { HasExpectTurn pass.old pass.new }
    ensures words { ChangesWords is_expect_turn pass.old.view pass.new.view }
{
    if pass.expects_take() {
        return;
    }
    'turns: for _ in rt.forever() {
        thread::yield_now();
        if pass.expects_take() {
            return;
        }
    }
    unreachable!()
}

/// Waits for the turn of the expectations, and takes it and their table.
#[inline(always)]
pub fn take_expects<R: Wait>(rt: &R, pass: &mut Pass) -> ExpectTable
    requires { CanTakeExpects pass.old }
    ensures has { HasExpects result pass.old pass.new }
    ensures words { ChangesWords is_expect_turn pass.old.view pass.new.view }
{
    take_turn(rt, pass);
    match pass.expects_swap(None) {
        Some(table) => table,
        None => unreachable!(),
    }
}

/// Gives the turn of the expectations back, with their table.
#[inline(always)]
pub fn give_expects(pass: &mut Pass, table: ExpectTable)
    requires knows { CanGiveExpected pass.old.view table }
    requires free { pass.old.view.free ≡ None }
    requires calm { pass.old.view.commit.middle ≡ Calm }
    ensures { pass.new ≡ record pass.old { view = gave_expected pass.old.view; slots = before_expects pass.old.slots } }
{
    let _ = pass.expects_swap(Some(table));
    pass.expects_give();
}
