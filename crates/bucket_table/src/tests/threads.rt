//! One pass links and unlinks a flow under the lock while another one, on a thread of its own, follows its chain. The flow is
//! never linked while the bucket can be had, so a follow that was not disturbed finds the end, and one that meets the link
//! names a generation that has passed.

ghost use Rattle.std.specs.Prelude.{◌≡◌, [], false};
ghost use Rattle.bucket_table.specs.Locks.{AreOpen};
ghost use Rattle.bucket_table.specs.TestPlace.{HasTestPlace, only_bucket};
ghost use Rattle.track_rule.specs.Sights.{sizes_of};

use super::{
    is_end, is_same, link_locked, lock_only, look, place_of_flow, sizes, to_another, unlink_locked,
    unlock_only,
};
use crate::lookup::Followed;
use std::sync::Wait;
use std::sync::atomic::AtomicU64;
use std::sync::atomic::Ordering::SeqCst;
use std::test::Fail;
use std::thread::{Threads, join_mut};
use track_rule::pass::Pass;
use tuple_core::{Direction, Tuple, invert};

/// How often the flow is linked and unlinked.
const ROUNDS: u32 = 100_000;

/// How often the other pass follows, at most.
const FOLLOWS: u32 = 10_000_000;

/// How many loads the flow is left alone for after each round, so that the other pass gets answers meanwhile.
const REST: u32 = 200;

/// Links the flow, and takes it out again before the bucket is given back.
fn link_once<R: Wait>(rt: &R, pass: &mut Pass, place: u32)
    requires place { HasTestPlace false place pass.old }
    requires mine { AreOpen only_bucket pass.old.view }
    ensures place { HasTestPlace false place pass.new }
    ensures mine { AreOpen only_bucket pass.new.view }
{
    let locked = lock_only(rt, pass, place);
    link_locked(pass, &locked, place);
    unlink_locked(pass, &locked, place);
    unlock_only(pass, locked, place);
}

/// How far the pass is that links and unlinks. It counts a step before and one behind each time that it has the bucket, so it
/// may have it only at an odd count. At an even one the flow is certainly not linked.
#[derive(Drop)]
struct Progress {
    steps: AtomicU64,
    ended: AtomicU64,
}

impl Progress {
    fn count(&self) {
        let _ = self.steps.fetch_add(1, SeqCst);
    }

    fn steps(&self) -> u64 {
        self.steps.load(SeqCst)
    }

    /// Leaves the flow alone for a while.
    fn rest(&self) {
        'loads: for _load in 0..REST {
            let _ = self.steps();
        }
    }
}

/// Links the flow and unlinks it, many times.
fn link_and_unlink<R: Wait>(rt: &R, pass: &mut Pass, place: u32, progress: &Progress)
    requires place { HasTestPlace false place pass.old }
    requires mine { AreOpen only_bucket pass.old.view }
{
    'rounds: for _round in 0..ROUNDS {
        progress.count();
        link_once(rt, pass, place);
        progress.count();
        progress.rest();
    }
    progress.ended.store(1, SeqCst);
}

/// Whether a link is one that may be met: that of the place, at an even generation, which has passed since.
fn is_late(pass: &mut Pass, expected: u32, place: u32, way: Direction, generation: u64) -> bool
    requires open { pass.old.view.buckets.shut ≡ [] }
    requires buckets { (sizes_of pass.old).buckets ≡ 1 }
    ensures open { pass.new.view.buckets.shut ≡ [] }
    ensures buckets { (sizes_of pass.new).buckets ≡ 1 }
{
    let now = pass.gen_load(0);
    place == expected
        && is_same(way, Direction::Original)
        && generation % 2 == 0
        && generation < now
}

/// Whether an answer may come while the other pass has the bucket, or takes it or gives it back. The flow is linked only while
/// the generation is odd, so a walk that meets it began at an even one that has passed.
fn is_possible(pass: &mut Pass, found: Followed, expected: u32) -> bool
    requires open { pass.old.view.buckets.shut ≡ [] }
    requires buckets { (sizes_of pass.old).buckets ≡ 1 }
    ensures open { pass.new.view.buckets.shut ≡ [] }
    ensures buckets { (sizes_of pass.new).buckets ≡ 1 }
{
    match found {
        Followed::Link {
            place,
            direction,
            generation,
        } => is_late(pass, expected, place, direction, generation),
        Followed::End { .. } => is_end(found),
        Followed::Moved { was, now, .. } => was != now || was % 2 == 1,
    }
}

/// Whether one more answer is right. Where the other pass counted no step during it, and had not the bucket, it is the end.
fn follows_right(pass: &mut Pass, t: &Tuple, place: u32, progress: &Progress) -> bool
    requires open { pass.old.view.buckets.shut ≡ [] }
    requires buckets { (sizes_of pass.old).buckets ≡ 1 }
    ensures open { pass.new.view.buckets.shut ≡ [] }
    ensures buckets { (sizes_of pass.new).buckets ≡ 1 }
{
    let before = progress.steps();
    let found = look(pass, t);
    let after = progress.steps();
    if before == after && before % 2 == 0 {
        is_end(found)
    } else {
        is_possible(pass, found, place)
    }
}

/// Whether all answers are, as long as the other pass links and unlinks.
fn all_right(pass: &mut Pass, t: &Tuple, place: u32, progress: &Progress) -> bool
    requires open { pass.old.view.buckets.shut ≡ [] }
    requires buckets { (sizes_of pass.old).buckets ≡ 1 }
{
    'follows: for _follow in 0..FOLLOWS {
        let ended = progress.ended.load(SeqCst);
        if !follows_right(pass, t, place, progress) {
            return false;
        }
        if ended == 1 {
            return true;
        }
    }
    true
}

/// The same of two passes, each on a thread of its own.
fn is_always_right<R: Threads + Wait + Sync>(
    rt: &R,
    one: &mut Pass,
    two: &mut Pass,
    t: &Tuple,
    place: u32,
    progress: &Progress,
) -> bool
    requires place { HasTestPlace false place one.old }
    requires mine { AreOpen only_bucket one.old.view }
    requires open { two.old.view.buckets.shut ≡ [] }
    requires buckets { (sizes_of two.old).buckets ≡ 1 }
{
    let (_, right) = join_mut(
        rt,
        &mut ||
            requires place { HasTestPlace false place one.now }
            requires mine { AreOpen only_bucket one.now.view }
        { link_and_unlink(rt, one, place, progress) },
        &mut ||
            requires open { two.now.view.buckets.shut ≡ [] }
            requires buckets { (sizes_of two.now).buckets ≡ 1 }
        { all_right(two, t, place, progress) },
    );
    right
}

#[test]
fn a_follow_finds_no_link_that_stands(rt: HostRuntime) -> Result<(), Fail> {
    let (board, stub) = Pass::first(rt.alloc(), sizes())?;
    let mut one = board.pass(stub);
    let mut two = one.split(1);
    let t = to_another();
    let u = invert(&t);
    let place = place_of_flow(&rt, &mut one, &t, &u);
    let progress = Progress {
        steps: AtomicU64::new(0),
        ended: AtomicU64::new(0),
    };
    let right = is_always_right(&rt, &mut one, &mut two, &t, place, &progress);
    assert!(rt; right);
    assert_eq!(rt; progress.steps(), 2 * ROUNDS as u64);
    Ok(())
}
