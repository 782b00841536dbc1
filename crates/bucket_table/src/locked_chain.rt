//! The chains of locked buckets: finding a tuple in one, and putting the links of a place in and taking them out.

ghost use Rattle.std.specs.Prelude.{◌≡◌, ℕ, ◌+◌, ◌-◌, ◌*◌, ◌<◌, ◌≤◌, ◌==◌, ◌&&◌, true, if◌then◌else◌};
ghost use Rattle.history_book.specs.Sizes.{AreWithinLimits};
ghost use Rattle.bucket_table.specs.Following.{bucket_in};
ghost use Rattle.bucket_table.specs.LockedChain.{ChangesBuckets, IsReady, IsThere, IsTuple, OnlyLoads, found_in, has_bucket, hook_bucket, link_with, link_words, linked_buckets, original_link, place_in, reply_link, unlink_words, unlinked_buckets};
ghost use Rattle.bucket_table.specs.Locks.{AreShut};
ghost use Rattle.track_rule.specs.BucketSteps.{put_in, taken_from};
ghost use Rattle.track_rule.specs.ChangesOnly.{ChangesWords, either, is_head_of, is_next_of, is_some_next, no_word};
ghost use Rattle.track_rule.specs.Chains.{chain_in, shuts_of};
ghost use Rattle.track_rule.specs.Free.{is_among};
ghost use Rattle.track_rule.specs.Layout.{place_of, side_of};
ghost use Rattle.track_rule.specs.Links.{hook_of, hooks_of, is_down, is_raised, is_up, last_link};
ghost use Rattle.track_rule.specs.Sights.{sizes_of};
ghost use Rattle.tuple_core.specs.Words.{address_word, flow_word};

use crate::lock::Locked;
use crate::lookup::place_of;
use history_book::sizes::Sizes;
use track_rule::pass::Pass;
use track_rule::word_places::{first_word, head_word, next_word, second_word};
use tuple_core::{Direction, Tuple, bucket_of, bucket_of_words, words};

/// The bucket of a link of the pass, by the words of its tuple.
#[inline(always)]
fn bucket_of_link(pass: &mut Pass, sizes: &Sizes, link: u64) -> u32
    requires limits { AreWithinLimits sizes.now }
    requires sizes { sizes.now ≡ sizes_of pass.old }
    requires some { 0 < link }
    requires below { link ≤ last_link (sizes_of pass.old) }
    requires own { 0 < hooks_of link pass.old.view.buckets.hooks }
    requires tuple { IsTuple (hook_of link pass.old.view.buckets.hooks).pair.first (hook_of link pass.old.view.buckets.hooks).pair.second }
    ensures bucket { result ≡ hook_bucket (sizes_of pass.old) link pass.old.view.buckets.hooks }
    ensures below { result < (sizes_of pass.old).buckets }
    ensures loads { OnlyLoads pass.old pass.new }
{
    let first = pass.tuple_load(first_word(sizes, link));
    let second = pass.tuple_load(second_word(sizes, link));
    bucket_of_words(first, second, sizes.seed, sizes.buckets)
}

/// Puts a link that is in no chain in at the head of the chain of its bucket.
#[inline(always)]
fn put_link(pass: &mut Pass, sizes: &Sizes, bucket: u32, link: u64)
    requires limits { AreWithinLimits sizes.now }
    requires sizes { sizes.now ≡ sizes_of pass.old }
    requires some { 0 < link }
    requires below { link ≤ last_link (sizes_of pass.old) }
    requires bucket { bucket < (sizes_of pass.old).buckets }
    requires mine { 0 < shuts_of bucket pass.old.view }
    requires down { is_down link pass.old.view.buckets.hooks ≡ true }
    requires placed { hook_bucket (sizes_of pass.old) link pass.old.view.buckets.hooks ≡ bucket }
    requires owned { is_among (place_of link) pass.old.view.places.owned ≡ true }
    requires before { side_of link ≡ 1 → is_down (link - 1) pass.old.view.buckets.hooks ≡ true }
    requires alone { (p : ℕ) → is_up p pass.old.view.buckets.hooks ≡ true → p ≡ place_of link }
    ensures puts { ChangesBuckets (put_in bucket link pass.old.view.buckets) pass.old pass.new }
    ensures words { ChangesWords (either (is_head_of bucket) (is_next_of (place_of link))) pass.old.view pass.new.view }
{
    let head = head_word(sizes, bucket);
    let first = pass.link_load(head);
    pass.link_store(next_word(sizes, link), first);
    pass.link_store(head, link);
}

/// Takes a link out of the chain of its bucket, from wherever it stands.
fn take_link(pass: &mut Pass, sizes: &Sizes, bucket: u32, link: u64)
    requires limits { AreWithinLimits sizes.now }
    requires sizes { sizes.now ≡ sizes_of pass.old }
    requires some { 0 < link }
    requires below { link ≤ last_link (sizes_of pass.old) }
    requires bucket { bucket < (sizes_of pass.old).buckets }
    requires mine { 0 < shuts_of bucket pass.old.view }
    requires up { is_raised link pass.old.view.buckets.hooks ≡ true }
    requires placed { hook_bucket (sizes_of pass.old) link pass.old.view.buckets.hooks ≡ bucket }
    ensures takes { ChangesBuckets (taken_from bucket link pass.old.view.buckets) pass.old pass.new }
    ensures words { ChangesWords (either (is_head_of bucket) is_some_next) pass.old.view pass.new.view }
{
    let mut word = head_word(sizes, bucket);
    let mut at = pass.link_load(word);
    let mut left = 2 * sizes.entries;
    'links: while at != link {
        word = next_word(sizes, at);
        at = pass.link_load(word);
        left -= 1;
    }
    let next = pass.link_load(next_word(sizes, link));
    pass.link_store(word, next);
}

/// Puts both tuples of a place that the pass owns into their chains, where no link of another place of the pass stands in one.
/// The reply link comes behind the original one.
#[inline(always)]
pub fn link(pass: &mut Pass, locked: &Locked, place: u32)
    requires place { place < (sizes_of pass.old).entries }
    requires shut { AreShut locked.now pass.old.view }
    requires original { is_down (original_link place) pass.old.view.buckets.hooks ≡ true }
    requires reply { is_down (reply_link place) pass.old.view.buckets.hooks ≡ true }
    requires owned { is_among place pass.old.view.places.owned ≡ true }
    requires alone { (p : ℕ) → is_up p pass.old.view.buckets.hooks ≡ true → p ≡ place }
    requires original_ready { IsReady (sizes_of pass.old) locked.now (original_link place) pass.old.view.buckets.hooks }
    requires reply_ready { IsReady (sizes_of pass.old) locked.now (reply_link place) pass.old.view.buckets.hooks }
    ensures links { ChangesBuckets (linked_buckets (sizes_of pass.old) place pass.old.view.buckets) pass.old pass.new }
    ensures words { ChangesWords
        (link_words (hook_bucket (sizes_of pass.old) (original_link place) pass.old.view.buckets.hooks) (hook_bucket (sizes_of pass.old) (reply_link place) pass.old.view.buckets.hooks) place)
        pass.old.view pass.new.view }
{
    let sizes = pass.sizes();
    let original = 1 + 2 * place as u64;
    let reply = 2 + 2 * place as u64;
    let first = bucket_of_link(pass, &sizes, original);
    let second = bucket_of_link(pass, &sizes, reply);
    link_in(pass, locked, &sizes, place, first, second);
}

/// Puts both tuples of a place that the pass owns into the chains of these buckets, which are theirs, in a table of these sizes. The
/// reply link comes behind the original one.
#[inline(always)]
pub fn link_in(pass: &mut Pass, locked: &Locked, sizes: &Sizes, place: u32, first: u32, second: u32)
    requires limits { AreWithinLimits sizes.now }
    requires sizes { sizes.now ≡ sizes_of pass.old }
    requires place { place < (sizes_of pass.old).entries }
    requires shut { AreShut locked.now pass.old.view }
    requires original { is_down (original_link place) pass.old.view.buckets.hooks ≡ true }
    requires reply { is_down (reply_link place) pass.old.view.buckets.hooks ≡ true }
    requires owned { is_among place pass.old.view.places.owned ≡ true }
    requires alone { (p : ℕ) → is_up p pass.old.view.buckets.hooks ≡ true → p ≡ place }
    requires original_ready { IsReady (sizes_of pass.old) locked.now (original_link place) pass.old.view.buckets.hooks }
    requires reply_ready { IsReady (sizes_of pass.old) locked.now (reply_link place) pass.old.view.buckets.hooks }
    requires first { first ≡ hook_bucket (sizes_of pass.old) (original_link place) pass.old.view.buckets.hooks }
    requires first_below { first < (sizes_of pass.old).buckets }
    requires second { second ≡ hook_bucket (sizes_of pass.old) (reply_link place) pass.old.view.buckets.hooks }
    requires second_below { second < (sizes_of pass.old).buckets }
    ensures links { ChangesBuckets (linked_buckets (sizes_of pass.old) place pass.old.view.buckets) pass.old pass.new }
    ensures words { ChangesWords
        (link_words (hook_bucket (sizes_of pass.old) (original_link place) pass.old.view.buckets.hooks) (hook_bucket (sizes_of pass.old) (reply_link place) pass.old.view.buckets.hooks) place)
        pass.old.view pass.new.view }
{
    let _ = locked;
    put_link(pass, sizes, second, 2 + 2 * place as u64);
    put_link(pass, sizes, first, 1 + 2 * place as u64);
}

/// Takes both tuples of a place out of their chains.
#[cold]
pub fn unlink(pass: &mut Pass, locked: &Locked, place: u32)
    requires place { place < (sizes_of pass.old).entries }
    requires shut { AreShut locked.now pass.old.view }
    requires original { is_raised (original_link place) pass.old.view.buckets.hooks ≡ true }
    requires reply { is_raised (reply_link place) pass.old.view.buckets.hooks ≡ true }
    requires original_ready { IsReady (sizes_of pass.old) locked.now (original_link place) pass.old.view.buckets.hooks }
    requires reply_ready { IsReady (sizes_of pass.old) locked.now (reply_link place) pass.old.view.buckets.hooks }
    ensures unlinks { ChangesBuckets (unlinked_buckets (sizes_of pass.old) place pass.old.view.buckets) pass.old pass.new }
    ensures words { ChangesWords
        (unlink_words (hook_bucket (sizes_of pass.old) (original_link place) pass.old.view.buckets.hooks) (hook_bucket (sizes_of pass.old) (reply_link place) pass.old.view.buckets.hooks))
        pass.old.view pass.new.view }
{
    let _ = locked;
    let sizes = pass.sizes();
    let original = 1 + 2 * place as u64;
    let reply = 2 + 2 * place as u64;
    let first = bucket_of_link(pass, &sizes, original);
    let second = bucket_of_link(pass, &sizes, reply);
    take_link(pass, &sizes, first, original);
    take_link(pass, &sizes, second, reply);
}

/// Whether a link of a locked chain has these words.
#[inline(always)]
fn has_words(pass: &mut Pass, sizes: &Sizes, link: u64, goal: [u64; 2]) -> bool
    requires limits { AreWithinLimits sizes.now }
    requires sizes { sizes.now ≡ sizes_of pass.old }
    requires some { 0 < link }
    requires below { link ≤ last_link (sizes_of pass.old) }
    ensures loads { OnlyLoads pass.old pass.new }
    ensures exact { IsThere (sizes_of pass.old) link goal result pass.old.view }
{
    let [first, second] = goal;
    if pass.tuple_load(first_word(sizes, link)) != first {
        return false;
    }
    pass.tuple_load(second_word(sizes, link)) == second
}

/// Whether a link has the tuple and is of the original direction.
#[inline(always)]
fn is_answer(link: u64, has: bool) -> bool
    requires { 0 < link }
    ensures { result ≡ (has && side_of link == 0) }
{
    has && (link - 1) % 2 == 0
}

/// The first reply link with the tuple, or none, 0, after this link was met.
#[inline(always)]
fn first_reply(reply: u64, link: u64, has: bool) -> u64
    ensures { result ≡ (if has then (if reply == 0 then link else reply) else reply) }
{
    if has && reply == 0 { link } else { reply }
}

/// Finds the link of a locked chain that has the tuple, the original one first. None is that there is none.
#[inline(always)]
pub fn walk(pass: &mut Pass, locked: &Locked, t: &Tuple) -> Option<(u32, Direction)>
    requires shut { AreShut locked.now pass.old.view }
    requires bucket { has_bucket locked.now (bucket_in (sizes_of pass.old) t.now) ≡ true }
    ensures loads { OnlyLoads pass.old pass.new }
    ensures words { ChangesWords no_word pass.old.view pass.new.view }
    ensures finds { result ≡ found_in (address_word t.now) (flow_word t.now) (chain_in (bucket_in (sizes_of pass.old) t.now) pass.old.view.buckets.shut) }
{
    let sizes = pass.sizes();
    walk_sized(pass, locked, &sizes, t)
}

/// Finds the link of a locked chain that has the tuple, the original one first, in a table of these sizes. None is that there is
/// none.
#[inline(always)]
pub fn walk_sized(
    pass: &mut Pass,
    locked: &Locked,
    sizes: &Sizes,
    t: &Tuple,
) -> Option<(u32, Direction)>
    requires limits { AreWithinLimits sizes.now }
    requires sizes { sizes.now ≡ sizes_of pass.old }
    requires shut { AreShut locked.now pass.old.view }
    requires bucket { has_bucket locked.now (bucket_in (sizes_of pass.old) t.now) ≡ true }
    ensures loads { OnlyLoads pass.old pass.new }
    ensures words { ChangesWords no_word pass.old.view pass.new.view }
    ensures finds { result ≡ found_in (address_word t.now) (flow_word t.now) (chain_in (bucket_in (sizes_of pass.old) t.now) pass.old.view.buckets.shut) }
{
    let _ = locked;
    let bucket = bucket_of(t, sizes.seed, sizes.buckets);
    let goal = words(t);
    let mut link = pass.link_load(head_word(sizes, bucket));
    let mut reply = 0;
    let mut left = 2 * sizes.entries;
    'links: while link != 0 {
        let has = has_words(pass, sizes, link, goal);
        if is_answer(link, has) {
            return Some((place_of(sizes, link), Direction::Original));
        }
        reply = first_reply(reply, link, has);
        link = pass.link_load(next_word(sizes, link));
        left -= 1;
    }
    if reply == 0 {
        return None;
    }
    Some((place_of(sizes, reply), Direction::Reply))
}

/// Whether a link has the tuple and is of the reply direction.
#[inline(always)]
fn is_reply(link: u64, has: bool) -> bool
    requires { 0 < link }
    ensures { result ≡ (has && side_of link == 1) }
{
    has && (link - 1) % 2 == 1
}

/// Finds the place of the reply link of a locked chain that has the tuple. None is that there is none. `walk` gives an original
/// link in its stead, where both are there.
#[inline(always)]
pub fn walk_reply(pass: &mut Pass, locked: &Locked, t: &Tuple) -> Option<u32>
    requires shut { AreShut locked.now pass.old.view }
    requires bucket { has_bucket locked.now (bucket_in (sizes_of pass.old) t.now) ≡ true }
    ensures loads { OnlyLoads pass.old pass.new }
    ensures words { ChangesWords no_word pass.old.view pass.new.view }
    ensures finds { result ≡ place_in (link_with 1 (address_word t.now) (flow_word t.now) (chain_in (bucket_in (sizes_of pass.old) t.now) pass.old.view.buckets.shut)) }
{
    let _ = locked;
    let sizes = pass.sizes();
    let bucket = bucket_of(t, sizes.seed, sizes.buckets);
    let goal = words(t);
    let mut link = pass.link_load(head_word(&sizes, bucket));
    let mut left = 2 * sizes.entries;
    'seek: while link != 0 {
        let has = has_words(pass, &sizes, link, goal);
        if is_reply(link, has) {
            return Some(place_of(&sizes, link));
        }
        link = pass.link_load(next_word(&sizes, link));
        left -= 1;
    }
    None
}
