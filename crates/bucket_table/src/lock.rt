//! The locks of buckets: a pass that has one may change the chain, and no other pass has it.

ghost use Rattle.std.specs.Prelude.{◌≡◌, ◌<◌};
ghost use Rattle.bucket_table.specs.Locks.{AreOpen, AreShut, AreWhole, Locks, LocksTwo, UnlocksTwo, buckets_of};
ghost use Rattle.bucket_table.specs.Trying.{TriesLock};
ghost use Rattle.track_rule.specs.declared.view.Middle.TheVariants.{Calm};
ghost use Rattle.track_rule.specs.ChangesOnly.{ChangesWords, either, is_gen_of};
ghost use Rattle.track_rule.specs.Chains.{shuts_of};
ghost use Rattle.track_rule.specs.Sights.{sizes_of};

use std::marker::Model;
use std::sync::Wait;
use std::thread;
use track_rule::bucket_steps::LAST_GENERATION;
use track_rule::pass::Pass;

/// Two locked buckets, which may be one. Contracts see them as the lower and the upper one. It is given to `unlock_two`.
pub struct Locked {
    lower: u32,
    upper: u32,
}

impl Model for Locked {
    ghost use Rattle.std.specs.Prelude.{◌≤◌};
    ghost use Rattle.bucket_table.specs.Locks.{Buckets};

    ghost Value = { Buckets };

    ghost view = { λ l. record { lower = l.lower; upper = l.upper } };

    ghost invariant = { λ l. l.lower ≤ l.upper };
}

/// Shuts a bucket, if its generation is even and has not reached its last value, and no other pass is first.
#[inline(always)]
fn try_lock(pass: &mut Pass, bucket: u32) -> bool
    requires { bucket < (sizes_of pass.old).buckets }
    ensures { TriesLock result bucket pass.old pass.new }
{
    let generation = pass.gen_load(bucket);
    if generation % 2 == 0 && generation < LAST_GENERATION {
        return match pass.gen_shut(bucket, generation) {
            Ok(()) => true,
            Err(_) => false,
        };
    }
    false
}

/// Waits for a bucket, and shuts it. It waits on where the generation has reached its last value.
#[inline(always)]
fn lock<R: Wait>(rt: &R, pass: &mut Pass, bucket: u32)
    requires bucket { bucket < (sizes_of pass.old).buckets }
    requires open { shuts_of bucket pass.old.view ≡ 0 }
    ensures { Locks bucket pass.old pass.new }
{
    if try_lock(pass, bucket) {
        return;
    }
    'tries: for _ in rt.forever() {
        thread::yield_now();
        if try_lock(pass, bucket) {
            return;
        }
    }
    unreachable!()
}

/// Waits for two buckets, and locks them, the lower one first. Where both are one it locks that.
#[inline(always)]
pub fn lock_two<R: Wait>(rt: &R, pass: &mut Pass, a: u32, b: u32) -> Locked
    requires a { a < (sizes_of pass.old).buckets }
    requires b { b < (sizes_of pass.old).buckets }
    requires open { AreOpen (buckets_of a b) pass.old.view }
    ensures buckets { result ≡ buckets_of a b }
    ensures locks { LocksTwo result pass.old pass.new }
    ensures words { ChangesWords (either (is_gen_of result.lower) (is_gen_of result.upper)) pass.old.view pass.new.view }
{
    let lower = a.min(b);
    let upper = a.max(b);
    lock(rt, pass, lower);
    if lower == upper {
        return Locked { lower, upper };
    }
    lock(rt, pass, upper);
    Locked { lower, upper }
}

/// Gives both buckets back, where their chains have the links of live entries alone and the pass is in the middle of no commit.
#[inline(always)]
pub fn unlock_two(pass: &mut Pass, locked: Locked)
    requires below { locked.upper < (sizes_of pass.old).buckets }
    requires shut { AreShut locked pass.old.view }
    requires whole { AreWhole (sizes_of pass.old) locked pass.old.view }
    requires calm { pass.old.view.commit.middle ≡ Calm }
    ensures unlocks { UnlocksTwo locked pass.old pass.new }
    ensures words { ChangesWords (either (is_gen_of locked.lower) (is_gen_of locked.upper)) pass.old.view pass.new.view }
{
    let Locked { lower, upper } = locked;
    if upper == lower {
        pass.gen_open(lower);
        return;
    }
    pass.gen_open(upper);
    pass.gen_open(lower);
}
