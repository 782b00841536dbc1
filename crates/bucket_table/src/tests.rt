//! One flow in a table of one bucket: before it is linked, while it is linked, which it may be only as long as the bucket is
//! locked, and after it was taken out again.

ghost use Rattle.std.specs.Prelude.{◌≡◌, ◌<◌, None, [], false, true};
ghost use Rattle.history_book.specs.Sizes.{AreWithinLimits};
ghost use Rattle.bucket_table.specs.Locks.{AreOpen, AreShut};
ghost use Rattle.bucket_table.specs.TestPlace.{HasLinks, HasOriginal, HasTestPlace, only_bucket};
ghost use Rattle.track_rule.specs.declared.view.Middle.TheVariants.{Calm};
ghost use Rattle.track_rule.specs.Free.{is_among, known_free};
ghost use Rattle.track_rule.specs.Passes.{no_places};
ghost use Rattle.track_rule.specs.Sights.{sizes_of};
ghost use Rattle.tuple_core.specs.Tuple.{is_valid};

use crate::lock::{Locked, lock_two, unlock_two};
use crate::locked_chain::{link, unlink, walk};
use crate::lookup::{Followed, follow};
use history_book::sizes::Sizes;
use std::process::Abort;
use std::sync::Wait;
use std::test::Fail;
use track_rule::pass::Pass;
use track_rule::place_phase::OWNED;
use track_rule::word_places::{first_word, second_word};
use tuple_core::{Direction, Proto, Tuple, invert, words};

mod threads;

/// A pool of two places and one bucket, for two passes.
fn sizes() -> Sizes
    ensures limits { AreWithinLimits result }
    ensures entries { result.entries ≡ 2 }
    ensures buckets { result.buckets ≡ 1 }
    ensures passes { result.passes ≡ 2 }
{
    Sizes {
        entries: 2,
        buckets: 1,
        seed: 0,
        passes: 2,
        expectations: 0,
    }
}

/// From 10.0.0.9:7000 to itself, so that it is its own inverse.
fn to_itself() -> Tuple
    ensures { is_valid result ≡ true }
{
    Tuple {
        proto: Proto::Tcp,
        zone: 0,
        src: 0x0A00_0009,
        dst: 0x0A00_0009,
        a: 7000,
        b: 7000,
    }
}

/// From 10.0.0.1:1000 to 10.0.0.2:80.
fn to_another() -> Tuple
    ensures { is_valid result ≡ true }
{
    Tuple {
        proto: Proto::Tcp,
        zone: 0,
        src: 0x0A00_0001,
        dst: 0x0A00_0002,
        a: 1000,
        b: 80,
    }
}

/// A place of the free list, whose turn the pass keeps: the tests need one place alone.
fn free_place<R: Abort>(rt: &R, pass: &mut Pass) -> u32
    requires free { pass.old.view.free ≡ None }
    ensures below { result < 2 }
    ensures listed { is_among result (known_free pass.new.view) ≡ true }
    ensures sizes { sizes_of pass.new ≡ sizes_of pass.old }
    ensures places { pass.new.view.places ≡ pass.old.view.places }
    ensures buckets { pass.new.view.buckets ≡ pass.old.view.buckets }
    ensures commit { pass.new.view.commit ≡ pass.old.view.commit }
{
    if !pass.free_take() {
        panic!(rt; "no other pass has the turn");
    }
    let Some(list) = pass.free_swap(None) else {
        panic!(rt; "the list was there");
    };
    if list.len() == 0 {
        panic!(rt; "a place was free");
    }
    let place = list.at(0);
    let _ = pass.free_swap(Some(list));
    assert!(rt; place < 2);
    place
}

/// Takes a place for a new entry, and makes its phase `OWNED`.
fn take_place<R: Abort>(rt: &R, pass: &mut Pass) -> u32
    requires entries { (sizes_of pass.old).entries ≡ 2 }
    requires buckets { (sizes_of pass.old).buckets ≡ 1 }
    requires free { pass.old.view.free ≡ None }
    requires places { pass.old.view.places ≡ no_places }
    requires hooks { pass.old.view.buckets.hooks ≡ [] }
    requires calm { pass.old.view.commit.middle ≡ Calm }
    requires open { AreOpen only_bucket pass.old.view }
    ensures links { HasLinks false result pass.new }
    ensures open { AreOpen only_bucket pass.new.view }
{
    let place = free_place(rt, pass);
    pass.ref_open(place);
    pass.phase_store(place, OWNED);
    place
}

/// Stores the original tuple of a place.
fn store_original(pass: &mut Pass, place: u32, t: &Tuple)
    requires links { HasLinks false place pass.old }
    requires open { AreOpen only_bucket pass.old.view }
    ensures tuple { HasOriginal t.now place pass.new }
    ensures open { AreOpen only_bucket pass.new.view }
{
    let sizes = pass.sizes();
    let link = 1 + 2 * place as u64;
    let [first, second] = words(t);
    pass.tuple_store(first_word(&sizes, link), first);
    pass.tuple_store(second_word(&sizes, link), second);
}

/// Stores the reply tuple of a place.
fn store_reply(pass: &mut Pass, place: u32, t: &Tuple, u: &Tuple)
    requires original { HasOriginal t.now place pass.old }
    requires valid { is_valid t.now ≡ true }
    requires reply { is_valid u.now ≡ true }
    requires open { AreOpen only_bucket pass.old.view }
    ensures place { HasTestPlace false place pass.new }
    ensures open { AreOpen only_bucket pass.new.view }
{
    let _ = t;
    let sizes = pass.sizes();
    let link = 2 + 2 * place as u64;
    let [first, second] = words(u);
    pass.tuple_store(first_word(&sizes, link), first);
    pass.tuple_store(second_word(&sizes, link), second);
}

/// Takes a place for a flow, and stores its two tuples.
fn place_of_flow<R: Abort>(rt: &R, pass: &mut Pass, t: &Tuple, u: &Tuple) -> u32
    requires entries { (sizes_of pass.old).entries ≡ 2 }
    requires buckets { (sizes_of pass.old).buckets ≡ 1 }
    requires free { pass.old.view.free ≡ None }
    requires places { pass.old.view.places ≡ no_places }
    requires hooks { pass.old.view.buckets.hooks ≡ [] }
    requires calm { pass.old.view.commit.middle ≡ Calm }
    requires open { AreOpen only_bucket pass.old.view }
    requires original { is_valid t.now ≡ true }
    requires reply { is_valid u.now ≡ true }
    ensures place { HasTestPlace false result pass.new }
    ensures open { AreOpen only_bucket pass.new.view }
{
    let place = take_place(rt, pass);
    store_original(pass, place, t);
    store_reply(pass, place, t, u);
    place
}

/// Locks the only bucket.
fn lock_only<R: Wait>(rt: &R, pass: &mut Pass, place: u32) -> Locked
    requires place { HasTestPlace false place pass.old }
    requires open { AreOpen only_bucket pass.old.view }
    ensures locked { result ≡ only_bucket }
    ensures shut { AreShut only_bucket pass.new.view }
    ensures place { HasTestPlace false place pass.new }
{
    let _ = place;
    lock_two(rt, pass, 0, 0)
}

/// Puts the flow into the only bucket, which is locked.
fn link_locked(pass: &mut Pass, locked: &Locked, place: u32)
    requires locked { locked.now ≡ only_bucket }
    requires shut { AreShut only_bucket pass.old.view }
    requires place { HasTestPlace false place pass.old }
    ensures shut { AreShut only_bucket pass.new.view }
    ensures place { HasTestPlace true place pass.new }
{
    link(pass, locked, place);
}

/// Takes the flow out of it.
fn unlink_locked(pass: &mut Pass, locked: &Locked, place: u32)
    requires locked { locked.now ≡ only_bucket }
    requires shut { AreShut only_bucket pass.old.view }
    requires place { HasTestPlace true place pass.old }
    ensures shut { AreShut only_bucket pass.new.view }
    ensures place { HasTestPlace false place pass.new }
{
    unlink(pass, locked, place);
}

/// What a walk along the only bucket, which is locked, finds.
fn walk_locked(pass: &mut Pass, locked: &Locked, place: u32, t: &Tuple) -> Option<(u32, Direction)>
    requires locked { locked.now ≡ only_bucket }
    requires shut { AreShut only_bucket pass.old.view }
    requires place { HasTestPlace true place pass.old }
    ensures shut { AreShut only_bucket pass.new.view }
    ensures place { HasTestPlace true place pass.new }
{
    let _ = place;
    walk(pass, locked, t)
}

/// Gives the only bucket back, where the flow is not linked.
fn unlock_only(pass: &mut Pass, locked: Locked, place: u32)
    requires locked { locked ≡ only_bucket }
    requires shut { AreShut only_bucket pass.old.view }
    requires place { HasTestPlace false place pass.old }
    ensures open { AreOpen only_bucket pass.new.view }
    ensures place { HasTestPlace false place pass.new }
{
    let _ = place;
    unlock_two(pass, locked);
}

/// What a pass that has shut no bucket finds without a lock.
fn look(pass: &mut Pass, t: &Tuple) -> Followed
    requires { pass.old.view.buckets.shut ≡ [] }
    ensures open { pass.new.view.buckets.shut ≡ [] }
    ensures sizes { sizes_of pass.new ≡ sizes_of pass.old }
{
    follow(pass, t)
}

/// Nothing was found, and no event was made.
fn is_end(found: Followed) -> bool {
    matches!(found, Followed::End { at: 0 })
}

/// Another pass has the bucket.
fn is_locked(found: Followed) -> bool {
    matches!(found, Followed::Moved { was, now, .. } if was % 2 == 1 && now == was)
}

fn is_same(a: Direction, b: Direction) -> bool {
    match a {
        Direction::Original => matches!(b, Direction::Original),
        Direction::Reply => matches!(b, Direction::Reply),
    }
}

/// A walk found this place, in this direction.
fn is_there(found: Option<(u32, Direction)>, expected: u32, way: Direction) -> bool {
    match found {
        Some((place, direction)) => place == expected && is_same(direction, way),
        None => false,
    }
}

/// A flow, and the direction in which its second tuple is found.
#[derive(Drop)]
struct Flow {
    original: Tuple,
    reply: Tuple,
    back: Direction,
}

/// While the bucket is locked: a walk finds both tuples, and the other pass sees that it is locked.
fn show_locked<R: Abort>(
    rt: &R,
    one: &mut Pass,
    two: &mut Pass,
    locked: &Locked,
    place: u32,
    flow: &Flow,
)
    requires locked { locked.now ≡ only_bucket }
    requires shut { AreShut only_bucket one.old.view }
    requires place { HasTestPlace true place one.old }
    requires open { two.old.view.buckets.shut ≡ [] }
    ensures shut { AreShut only_bucket one.new.view }
    ensures place { HasTestPlace true place one.new }
    ensures open { two.new.view.buckets.shut ≡ [] }
{
    let there = walk_locked(one, locked, place, &flow.original);
    assert!(rt; is_there(there, place, Direction::Original));
    let back = walk_locked(one, locked, place, &flow.reply);
    assert!(rt; is_there(back, place, flow.back));
    let moved = look(two, &flow.original);
    assert!(rt; is_locked(moved));
}

/// Links the flow while the bucket is locked, shows it there, and takes it out again.
fn show_linked<R: Abort + Wait>(rt: &R, one: &mut Pass, two: &mut Pass, place: u32, flow: &Flow)
    requires place { HasTestPlace false place one.old }
    requires mine { AreOpen only_bucket one.old.view }
    requires open { two.old.view.buckets.shut ≡ [] }
    ensures place { HasTestPlace false place one.new }
    ensures mine { AreOpen only_bucket one.new.view }
    ensures open { two.new.view.buckets.shut ≡ [] }
{
    let locked = lock_only(rt, one, place);
    link_locked(one, &locked, place);
    show_locked(rt, one, two, &locked, place, flow);
    unlink_locked(one, &locked, place);
    unlock_only(one, locked, place);
}

/// Both tuples are at the end of their chain: neither is there.
fn show_absent<R: Abort>(rt: &R, pass: &mut Pass, flow: &Flow)
    requires { pass.old.view.buckets.shut ≡ [] }
    ensures { pass.new.view.buckets.shut ≡ [] }
{
    let original = look(pass, &flow.original);
    assert!(rt; is_end(original));
    let reply = look(pass, &flow.reply);
    assert!(rt; is_end(reply));
}

/// What comes of a flow that the first pass links and unlinks.
fn show_flow<R: Abort + Wait>(rt: &R, one: &mut Pass, two: &mut Pass, place: u32, flow: &Flow)
    requires place { HasTestPlace false place one.old }
    requires mine { AreOpen only_bucket one.old.view }
    requires open { two.old.view.buckets.shut ≡ [] }
{
    show_absent(rt, two, flow);
    show_linked(rt, one, two, place, flow);
    show_absent(rt, two, flow);
}

#[test]
fn a_flow_of_two_equal_tuples(rt: HostRuntime) -> Result<(), Fail> {
    let (board, stub) = Pass::first(rt.alloc(), sizes())?;
    let mut one = board.pass(stub);
    let mut two = one.split(1);
    let original = to_itself();
    let reply = invert(&original);
    assert!(rt; original == reply);
    let place = place_of_flow(&rt, &mut one, &original, &reply);
    let flow = Flow {
        original,
        reply,
        back: Direction::Original,
    };
    show_flow(&rt, &mut one, &mut two, place, &flow);
    Ok(())
}

#[test]
fn a_flow_of_two_different_tuples(rt: HostRuntime) -> Result<(), Fail> {
    let (board, stub) = Pass::first(rt.alloc(), sizes())?;
    let mut one = board.pass(stub);
    let mut two = one.split(1);
    let original = to_another();
    let reply = invert(&original);
    let place = place_of_flow(&rt, &mut one, &original, &reply);
    let flow = Flow {
        original,
        reply,
        back: Direction::Reply,
    };
    show_flow(&rt, &mut one, &mut two, place, &flow);
    Ok(())
}
