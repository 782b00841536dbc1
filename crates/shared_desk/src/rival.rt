//! The live entry that has a tuple of a flow, while the buckets of both its tuples are locked.

ghost use Rattle.std.specs.Prelude.{◌≡◌, true};
ghost use Rattle.bucket_table.specs.Following.{bucket_in};
ghost use Rattle.bucket_table.specs.LockedChain.{OnlyLoads, has_bucket};
ghost use Rattle.bucket_table.specs.Locks.{AreShut};
ghost use Rattle.history_book.specs.Sizes.{AreWithinLimits};
ghost use Rattle.track_rule.specs.ChangesOnly.{ChangesWords, no_word};
ghost use Rattle.shared_desk.specs.Rival.{Clashes, IsBlocked, has_both, rival_in};
ghost use Rattle.track_rule.specs.Sights.{sizes_of};

use crate::laws::tuples_tell_entries;
use bucket_table::lock::Locked;
use bucket_table::locked_chain::{walk_reply, walk_sized};
use history_book::outcome::ConfirmOutcome;
use history_book::record::Flow;
use history_book::sizes::Sizes;
use track_rule::history_word::events_in;
use track_rule::pass::Pass;
use track_rule::place_phase::LIVE;
use tuple_core::Direction;

/// The place of the entry, the direction in which it has the flow's original tuple, or its reply tuple where no entry has that,
/// and whether both its tuples are the flow's.
#[derive(Clone, Copy)]
pub struct Rival {
    pub place: u32,
    pub direction: Direction,
    pub both: bool,
}

/// Whether the entry of the place, which has the flow's original tuple in this direction, has both: the reply link with the flow's
/// reply tuple is of this place.
#[inline(always)]
fn has_both(direction: Direction, reply: Option<u32>, place: u32) -> bool
    ensures { result ≡ has_both direction reply place }
{
    match direction {
        Direction::Original => match reply {
            Some(other) => other == place,
            None => false,
        },
        Direction::Reply => false,
    }
}

/// Finds the entry that has the flow's original tuple, or else its reply tuple. None is that there is none.
#[inline(always)]
pub fn find_rival(pass: &mut Pass, locked: &Locked, sizes: &Sizes, flow: &Flow) -> Option<Rival>
    requires limits { AreWithinLimits sizes.now }
    requires sizes { sizes.now ≡ sizes_of pass.old }
    requires shut { AreShut locked.now pass.old.view }
    requires original { has_bucket locked.now (bucket_in (sizes_of pass.old) flow.now.original) ≡ true }
    requires reply { has_bucket locked.now (bucket_in (sizes_of pass.old) flow.now.reply) ≡ true }
    ensures loads { OnlyLoads pass.old pass.new }
    ensures words { ChangesWords no_word pass.old.view pass.new.view }
    ensures finds { result ≡ rival_in flow.now (sizes_of pass.old) pass.old.view.buckets.shut }
{
    if let Some((place, direction)) = walk_sized(pass, locked, sizes, &flow.original) {
        let reply = walk_reply(pass, locked, &flow.reply);
        let both = has_both(direction, reply, place);
        return Some(Rival {
            place,
            direction,
            both,
        });
    }
    match walk_sized(pass, locked, sizes, &flow.reply) {
        Some((place, direction)) => Some(Rival {
            place,
            direction,
            both: false,
        }),
        None => None,
    }
}

/// Answers that this entry stands in the way of the flow, for which the place was taken.
#[inline(always)]
pub fn clash(pass: &mut Pass, place: u32, flow: &Flow, rival: &Rival) -> ConfirmOutcome
    requires { IsBlocked place flow.now rival.now pass.old }
    ensures clashes { Clashes place flow.now result pass.old pass.new }
    ensures words { ChangesWords no_word pass.old.view pass.new.view }
{
    // Clauses alone speak of the place and of the flow, and the sizes of the table bound the id.
    let _ = place;
    let _ = flow;
    tuples_tell_entries();
    let _sizes = pass.sizes();
    let at = events_in(pass.history_load());
    let phase = pass.phase_load(rival.place);
    ConfirmOutcome::Clash {
        id: phase - LIVE,
        direction: rival.direction,
        both: rival.both,
        at,
    }
}
