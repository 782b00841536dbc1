//! Looking for a tuple once, without a lock and without waiting: the link that has it is followed to its place, which is held
//! and tested.

ghost use Rattle.std.specs.Prelude.{◌≡◌, ◌<◌};
ghost use Rattle.bucket_table.specs.Finding.{AgainSays, CanDropReference, CanTest, DirectionSays, EntrySays, FindOnceSays, DropsReference, IsTesting, MeetSays, ShowsSays, TestSays, once_words};
ghost use Rattle.bucket_table.specs.Following.{bucket_in};
ghost use Rattle.history_book.specs.Sizes.{AreWithinLimits};
ghost use Rattle.track_rule.specs.ChangesOnly.{ChangesWords, no_word};
ghost use Rattle.track_rule.specs.KeptWords.{link_of};
ghost use Rattle.track_rule.specs.Chains.{shuts_of};
ghost use Rattle.track_rule.specs.Sights.{sizes_of};
ghost use Rattle.track_rule.specs.declared.view.Purpose.TheVariants.{Testing};

use crate::lookup::{Followed, Goal, follow, is_here};
use history_book::sizes::Sizes;
use track_rule::history_word::events_in;
use track_rule::layout::refs_word;
use track_rule::pass::Pass;
use track_rule::place_phase::LIVE;
use track_rule::word_places::gen_word;
use tuple_core::{Direction, Tuple, bucket_of, words};

/// What came of looking once for a tuple.
#[derive(Clone, Copy)]
pub enum FindOnce {
    /// The entry of this id was live under the tuple at this point, in this direction, and its place is held for it.
    Found {
        place: u32,
        id: u64,
        direction: Direction,
        at: u64,
    },
    /// Nothing was live under the tuple at this point.
    Absent {
        at: u64,
    },
    /// Another pass changed this word from one of these values to the other meanwhile; or it is the generation of the
    /// tuple's bucket, which was odd, and both are that. The pass owes this place now, if there is one.
    Moved {
        word: u32,
        was: u64,
        now: u64,
        owed: Option<u32>,
    },
}

/// An entry that is live at a place, and the point at which it was.
#[derive(Clone, Copy)]
pub struct Shown {
    pub id: u64,
    pub at: u64,
}

/// The same, and the direction in which it has the tuple.
#[derive(Clone, Copy)]
pub(crate) struct Tested {
    pub(crate) id: u64,
    pub(crate) direction: Direction,
    pub(crate) at: u64,
}

/// The link of a place in a direction.
#[inline(always)]
fn link_of(direction: Direction, place: u32) -> u64
    ensures { result ≡ link_of direction place }
{
    match direction {
        Direction::Original => 1 + 2 * place as u64,
        Direction::Reply => 2 + 2 * place as u64,
    }
}

/// The entry that is live at a place which the pass tests, held for it then.
#[inline(always)]
pub fn live_at(pass: &mut Pass, place: u32) -> Option<Shown>
    requires place { place < (sizes_of pass.old).entries }
    requires testing { IsTesting place Testing pass.old }
    ensures shows { ShowsSays result place pass.old pass.new }
    ensures words { ChangesWords no_word pass.old.view pass.new.view }
{
    let phase = pass.phase_load(place);
    if phase < LIVE {
        return None;
    }
    let at = events_in(pass.history_load());
    if pass.phase_load(place) != phase {
        return None;
    }
    Some(Shown {
        id: phase - LIVE,
        at,
    })
}

/// The direction in which a place has the tuple, the original one first. It was met in this one.
#[inline(always)]
fn direction_at(
    pass: &mut Pass,
    sizes: &Sizes,
    goal: &Goal,
    place: u32,
    met: Direction,
) -> Option<Direction>
    requires limits { AreWithinLimits sizes.now }
    requires sizes { sizes.now ≡ sizes_of pass.old }
    requires place { place < (sizes_of pass.old).entries }
    ensures { DirectionSays result goal.now place met pass.old pass.new }
{
    if is_here(pass, sizes, goal, link_of(Direction::Original, place)) {
        return Some(Direction::Original);
    }
    match met {
        Direction::Original => None,
        Direction::Reply => {
            if is_here(pass, sizes, goal, link_of(Direction::Reply, place)) {
                Some(Direction::Reply)
            } else {
                None
            }
        }
    }
}

/// The entry that is live at a place which the pass tests, with the tuple, which was met there in this direction.
#[inline(always)]
fn entry_at(
    pass: &mut Pass,
    sizes: &Sizes,
    goal: &Goal,
    place: u32,
    met: Direction,
) -> Option<Tested>
    requires limits { AreWithinLimits sizes.now }
    requires sizes { sizes.now ≡ sizes_of pass.old }
    requires place { place < (sizes_of pass.old).entries }
    requires testing { IsTesting place Testing pass.old }
    ensures { EntrySays result goal.now place met pass.old pass.new }
{
    match live_at(pass, place) {
        Some(shown) => match direction_at(pass, sizes, goal, place, met) {
            Some(direction) => Some(Tested {
                id: shown.id,
                direction,
                at: shown.at,
            }),
            None => None,
        },
        None => None,
    }
}

/// Gives up the reference to a place that was tested. Gives the place, if that was the last one.
#[inline(always)]
fn drop_reference(pass: &mut Pass, place: u32) -> Option<u32>
    requires { CanDropReference place pass.old }
    ensures { DropsReference result place pass.old pass.new }
{
    if pass.ref_down(place) == 1 {
        Some(place)
    } else {
        None
    }
}

/// Loads the generation again, which has passed.
#[inline(always)]
fn load_again(pass: &mut Pass, sizes: &Sizes, goal: &Goal, owed: Option<u32>) -> FindOnce
    requires limits { AreWithinLimits sizes.now }
    requires sizes { sizes.now ≡ sizes_of pass.old }
    requires bucket { goal.now.bucket < (sizes_of pass.old).buckets }
    ensures { AgainSays result goal.now owed pass.old pass.new }
{
    let now = pass.gen_load(goal.bucket);
    FindOnce::Moved {
        word: gen_word(sizes, goal.bucket),
        was: goal.generation,
        now,
        owed,
    }
}

/// Tests a place that is held for it.
#[inline(always)]
fn test(pass: &mut Pass, sizes: &Sizes, goal: &Goal, place: u32, met: Direction) -> FindOnce
    requires limits { AreWithinLimits sizes.now }
    requires sizes { sizes.now ≡ sizes_of pass.old }
    requires bucket { goal.now.bucket < (sizes_of pass.old).buckets }
    requires place { place < (sizes_of pass.old).entries }
    requires testing { IsTesting place Testing pass.old }
    requires can { CanDropReference place pass.old }
    ensures { TestSays result goal.now place met pass.old pass.new }
{
    match entry_at(pass, sizes, goal, place, met) {
        Some(entry) => FindOnce::Found {
            place,
            id: entry.id,
            direction: entry.direction,
            at: entry.at,
        },
        None => {
            let owed = drop_reference(pass, place);
            load_again(pass, sizes, goal, owed)
        }
    }
}

/// Holds the place of a link that was met with the tuple, and tests it.
#[inline(always)]
fn meet(pass: &mut Pass, sizes: &Sizes, goal: &Goal, place: u32, met: Direction) -> FindOnce
    requires limits { AreWithinLimits sizes.now }
    requires sizes { sizes.now ≡ sizes_of pass.old }
    requires bucket { goal.now.bucket < (sizes_of pass.old).buckets }
    requires place { place < (sizes_of pass.old).entries }
    requires can { CanTest pass.old }
    ensures { MeetSays result goal.now place met pass.old pass.new }
{
    let seen = pass.ref_load(place);
    if seen == 0 {
        return load_again(pass, sizes, goal, None);
    }
    match pass.ref_up(place, seen) {
        Ok(()) => test(pass, sizes, goal, place, met),
        Err(now) => FindOnce::Moved {
            word: refs_word(sizes, place) as u32,
            was: seen,
            now,
            owed: None,
        },
    }
}

/// Looks once for what is live under a tuple, the original one first, and holds its place. It takes no lock and does not wait.
#[inline(always)]
pub fn find_once(pass: &mut Pass, t: &Tuple) -> FindOnce
    requires mine { shuts_of (bucket_in (sizes_of pass.old) t.now) pass.old.view ≡ 0 }
    requires can { CanTest pass.old }
    ensures says { FindOnceSays result t.now pass.old pass.new }
    ensures words { ChangesWords (once_words result) pass.old.view pass.new.view }
{
    // Before `follow`, which reckons the same values: behind its atomic steps they would be reckoned again.
    let sizes = pass.sizes();
    let [first, second] = words(t);
    let bucket = bucket_of(t, sizes.seed, sizes.buckets);
    match follow(pass, t) {
        Followed::Link {
            place,
            direction,
            generation,
        } => {
            let goal = Goal {
                bucket,
                generation,
                first,
                second,
            };
            meet(pass, &sizes, &goal, place, direction)
        }
        Followed::End { at } => FindOnce::Absent { at },
        Followed::Moved { word, was, now } => FindOnce::Moved {
            word,
            was,
            now,
            owed: None,
        },
    }
}
