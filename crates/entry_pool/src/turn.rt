//! The turn of the free list.

ghost use Rattle.std.specs.Prelude.{◌≡◌, None};
ghost use Rattle.entry_pool.specs.Turn.{HasFreeTurn};

use std::sync::Wait;
use std::thread;
use track_rule::pass::Pass;

/// Waits for the turn, and takes it. The list stays where it lies, out of the reach of other passes.
#[inline(always)]
pub fn take_turn<R: Wait>(rt: &R, pass: &mut Pass)
    requires { pass.old.view.free ≡ None }
    ensures { HasFreeTurn pass.old pass.new }
{
    if pass.free_take() {
        return;
    }
    'turns: for _ in rt.forever() {
        thread::yield_now();
        if pass.free_take() {
            return;
        }
    }
    unreachable!()
}
