//! The one place that a desk keeps.

ghost use Rattle.std.specs.Prelude.{◌≡◌, ◌≤◌, true, [], length};
ghost use Rattle.history_book.specs.Held.{is_held, without};
ghost use Rattle.history_book.specs.Places.{HoldsNothing, OneHoldHasItsId};
ghost use Rattle.history_book.specs.Sight.{IsKnown};
ghost use Rattle.history_book.specs.WentOn.{Saw};

use crate::desk::Desk;
use crate::outcome::ReleaseOutcome;
use crate::sight_laws::seeing_adds_up;
use std::sync::Wait;

/// Gives up a reference to a place, which is not owed afterwards.
#[inline(always)]
pub fn give_back<R: Wait, D: Desk>(rt: &R, desk: &mut D, place: u32)
    requires { is_held place (D.sight desk.old).held ≡ true }
    ensures saw { Saw (D.sight desk.old) (D.sight desk.new) }
    ensures held { (D.sight desk.new).held ≡ without place (D.sight desk.old).held }
    ensures owed { (D.sight desk.new).owed ≡ (D.sight desk.old).owed }
    ensures knows { IsKnown (D.sight desk.new) }
{
    seeing_adds_up();
    match desk.release(rt, place) {
        ReleaseOutcome::Kept => {}
        ReleaseOutcome::Last => desk.recycle(rt, place),
    }
}

/// Gives up the only place that is held.
#[inline(always)]
pub fn give_up<R: Wait, D: Desk>(rt: &R, desk: &mut D, place: u32)
    requires held { is_held place (D.sight desk.old).held ≡ true }
    requires only { length (D.sight desk.old).held ≤ 1 }
    requires nothing_owed { (D.sight desk.old).owed ≡ [] }
    ensures saw { Saw (D.sight desk.old) (D.sight desk.new) }
    ensures empty { HoldsNothing (D.sight desk.new) }
    ensures knows { IsKnown (D.sight desk.new) }
{
    give_back(rt, desk, place);
}

/// Where one place is held for an entry, its id is the entry's: a law, the contract of a function that does nothing.
pub fn one_hold_has_its_id()
    ensures { OneHoldHasItsId }
{}
