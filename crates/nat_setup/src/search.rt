//! The search for a number under which nothing is live.

ghost use Rattle.std.specs.Prelude.{◌≡◌, ◌+◌, ◌≤◌, true, length};
ghost use Rattle.tuple_core.specs.Tuple.{is_valid};
ghost use Rattle.history_book.specs.Desk.{SamePlaces};
ghost use Rattle.history_book.specs.Sight.{IsKnown};
ghost use Rattle.history_book.specs.WentOn.{Saw};
ghost use Rattle.nat_setup.specs.Internal.Search.{ProbeSays, SearchSays};

use crate::reply::reply_with;
use crate::rule::Rule;
use history_book::desk::Desk;
use history_book::laws::free_is_absent;
use history_book::outcome::FindOutcome;
use history_book::places::give_back;
use history_book::sight_laws::desks_go_on;
use std::sync::Wait;
use tuple_core::Tuple;

/// What one look at a tuple says, and at which point.
#[derive(Clone, Copy)]
pub enum Probe {
    Free { at: u64 },
    Taken { at: u64 },
}

/// Numbers to be tried: those from the lowest to below the end, but for one that was tried before, at the
/// point `from`. The desk has seen that point, and `since`, which is no earlier.
#[derive(Clone, Copy)]
pub struct Stretch {
    pub lowest: u32,
    pub end: u32,
    pub tried: u16,
    pub from: u64,
    pub since: u64,
}

/// What a search of a stretch says.
#[derive(Clone, Copy)]
pub enum Search {
    /// The reply tuple of one of its numbers, which was free at this point.
    Found { reply: Tuple, at: u64 },
    /// Each was taken, and none after this point.
    AllTaken { to: u64 },
}

/// Looks whether anything is live under a tuple.
pub fn look<R: Wait, D: Desk>(rt: &R, desk: &mut D, t: &Tuple) -> Probe
    requires { length (D.sight desk.old).held + length (D.sight desk.old).owed ≤ 3 }
    ensures says { ProbeSays t.now (D.sight desk.old) (D.sight desk.new) result }
    ensures same { SamePlaces (D.sight desk.old) (D.sight desk.new) }
    ensures knows { IsKnown (D.sight desk.new) }
{
    free_is_absent();
    desks_go_on();
    match desk.find(rt, t) {
        FindOutcome::Absent { at } => Probe::Free { at },
        FindOutcome::Found { place, at, .. } => {
            give_back(rt, desk, place);
            Probe::Taken { at }
        }
    }
}

/// Looks for a free number in a stretch.
pub fn search_stretch<R: Wait, D: Desk>(
    rt: &R,
    desk: &mut D,
    rule: &Rule,
    t: &Tuple,
    stretch: Stretch,
) -> Search
    requires valid { is_valid t.now ≡ true }
    requires below { stretch.end ≤ 65536 }
    requires ordered { stretch.from ≤ stretch.since }
    requires seen { stretch.since ≤ length (D.sight desk.old).front }
    requires room { length (D.sight desk.old).held + length (D.sight desk.old).owed ≤ 3 }
    requires knows { IsKnown (D.sight desk.old) }
    ensures says { SearchSays rule.now t.now stretch (D.sight desk.old) (D.sight desk.new) result }
    ensures saw { Saw (D.sight desk.old) (D.sight desk.new) }
    ensures same { SamePlaces (D.sight desk.old) (D.sight desk.new) }
    ensures knows { IsKnown (D.sight desk.new) }
{
    desks_go_on();
    let mut to = stretch.since;
    for number in stretch.lowest..stretch.end {
        let port = number as u16;
        if port == stretch.tried {
            continue;
        }
        let reply = reply_with(rule, t, port);
        match look(rt, desk, &reply) {
            Probe::Free { at } => return Search::Found { reply, at },
            Probe::Taken { at } => to = at,
        }
    }
    Search::AllTaken { to }
}
