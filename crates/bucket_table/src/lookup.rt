//! Looking for a tuple in its chain without a lock.

ghost use Rattle.std.specs.Prelude.{◌≡◌, ◌%◌, ◌<◌, ◌≤◌, true};
ghost use Rattle.bucket_table.specs.Following.{Compares, EndSays, FollowSays, IsStart, SearchSays, WalksOn, bucket_in, direction_of};
ghost use Rattle.history_book.specs.Sizes.{AreWithinLimits};
ghost use Rattle.track_rule.specs.Chains.{shuts_of};
ghost use Rattle.track_rule.specs.Layout.{place_of};
ghost use Rattle.track_rule.specs.Links.{last_link};
ghost use Rattle.track_rule.specs.Sights.{sizes_of};

use history_book::sizes::Sizes;
use track_rule::history_word::events_in;
use track_rule::pass::Pass;
use track_rule::word_places::{first_word, gen_word, head_word, next_word, second_word};
use tuple_core::{Direction, Tuple, bucket_of, words};

/// What came of following a chain.
#[derive(Clone, Copy)]
pub enum Followed {
    /// The walk met this link with the tuple at this generation, which the call found once. It says that the link is in the
    /// chain only while the generation is that one.
    Link {
        place: u32,
        direction: Direction,
        generation: u64,
    },
    /// At this point no link of the chain had the tuple, and the walk met them all.
    End {
        at: u64,
    },
    /// The generation, which this word has, was odd, or it changed from one of these values to the other.
    Moved {
        word: u32,
        was: u64,
        now: u64,
    },
}

/// What is looked for: the two words of a tuple, in the chain of its bucket at this generation.
#[derive(Clone, Copy)]
pub(crate) struct Goal {
    pub(crate) bucket: u32,
    pub(crate) generation: u64,
    pub(crate) first: u64,
    pub(crate) second: u64,
}

/// Whether a link has the tuple.
#[inline(always)]
pub(crate) fn is_here(pass: &mut Pass, sizes: &Sizes, goal: &Goal, link: u64) -> bool
    requires limits { AreWithinLimits sizes.now }
    requires sizes { sizes.now ≡ sizes_of pass.old }
    requires some { 0 < link }
    requires below { link ≤ last_link (sizes_of pass.old) }
    ensures { Compares goal.now link result pass.old pass.new }
{
    if pass.tuple_load(first_word(sizes, link)) != goal.first {
        return false;
    }
    pass.tuple_load(second_word(sizes, link)) == goal.second
}

/// The way of a link.
#[inline(always)]
fn direction_of(link: u64) -> Direction
    requires { 0 < link }
    ensures { result ≡ direction_of link }
{
    if (link - 1) % 2 == 0 {
        Direction::Original
    } else {
        Direction::Reply
    }
}

/// The place of a link.
#[inline(always)]
pub(crate) fn place_of(sizes: &Sizes, link: u64) -> u32
    requires limits { AreWithinLimits sizes.now }
    requires some { 0 < link }
    requires below { link ≤ last_link sizes.now }
    ensures { result ≡ place_of link }
{
    ((link - 1) / 2) as u32
}

/// Follows the chain from this link, its first one, to a link with the tuple, and gives that, or the end, 0. None is that
/// there are more links than any chain has.
#[inline(always)]
fn search(pass: &mut Pass, sizes: &Sizes, goal: &Goal, head: u64) -> Option<u64>
    requires limits { AreWithinLimits sizes.now }
    requires sizes { sizes.now ≡ sizes_of pass.old }
    requires bucket { goal.now.bucket < sizes.now.buckets }
    requires start { IsStart goal.now head pass.old.view }
    requires low { head ≤ last_link (sizes_of pass.old) }
    ensures walks { WalksOn pass.old pass.new }
    ensures says { SearchSays result goal.now (sizes_of pass.old) pass.new.view }
{
    let mut link = head;
    let mut left = 2 * sizes.entries;
    'links: while link != 0 {
        if left == 0 {
            return None;
        }
        if is_here(pass, sizes, goal, link) {
            return Some(link);
        }
        link = pass.link_load(next_word(sizes, link));
        left -= 1;
    }
    Some(0)
}

/// Where the end was met: the point, if the generation still stands.
#[inline(always)]
fn end(pass: &mut Pass, word: u32, goal: &Goal) -> Followed
    requires bucket { goal.now.bucket < (sizes_of pass.old).buckets }
    ensures { EndSays result word goal.now pass.old pass.new }
{
    let history = pass.history_load();
    let now = pass.gen_load(goal.bucket);
    if now == goal.generation {
        Followed::End {
            at: events_in(history),
        }
    } else {
        Followed::Moved {
            word,
            was: goal.generation,
            now,
        }
    }
}

/// Looks for a tuple in the chain of its bucket, which this pass has not shut. It takes no lock and does not wait.
#[inline(always)]
pub fn follow(pass: &mut Pass, t: &Tuple) -> Followed
    requires { shuts_of (bucket_in (sizes_of pass.old) t.now) pass.old.view ≡ 0 }
    ensures { FollowSays result t.now pass.old pass.new }
{
    let sizes = pass.sizes();
    let [first, second] = words(t);
    let bucket = bucket_of(t, sizes.seed, sizes.buckets);
    let word = gen_word(&sizes, bucket);
    let generation = pass.gen_load(bucket);
    if generation % 2 == 1 {
        return Followed::Moved {
            word,
            was: generation,
            now: generation,
        };
    }
    let goal = Goal {
        bucket,
        generation,
        first,
        second,
    };
    let head = pass.link_load(head_word(&sizes, bucket));
    match search(pass, &sizes, &goal, head) {
        Some(link) => {
            if link == 0 {
                return end(pass, word, &goal);
            }
            Followed::Link {
                place: place_of(&sizes, link),
                direction: direction_of(link),
                generation,
            }
        }
        None => Followed::Moved {
            word,
            was: generation,
            now: pass.gen_load(bucket),
        },
    }
}
