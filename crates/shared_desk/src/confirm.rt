//! Confirming a flow: both buckets of its tuples are locked, both tuples are looked for, and where no live entry has one of them
//! the flow becomes an entry.

ghost use Rattle.std.specs.Prelude.{◌≡◌, true, None, []};
ghost use Rattle.history_book.specs.Sizes.{AreWithinLimits};
ghost use Rattle.track_rule.specs.ChangesOnly.{ChangesWords, either};
ghost use Rattle.shared_desk.specs.Changed.{commit_words, confirm_words, enter_words, flow_gens};
ghost use Rattle.shared_desk.specs.Commit.{CanCommit};
ghost use Rattle.shared_desk.specs.Confirm.{Answers, CanConfirmFlow, CanEnter, ConfirmsFlow, EntersAndOpens, IsLocked, LocksFlow, BlocksAndOpens};
ghost use Rattle.shared_desk.specs.Rival.{IsBlocked};
ghost use Rattle.track_rule.specs.Sights.{sizes_of};

use crate::commit::{commit, record_for, take_turn};
use crate::rival::{Rival, clash, find_rival};
use crate::tuples::store_tuples;
use bucket_table::lock::{Locked, lock_two, unlock_two};
use ct_io::{Crossing, Gate};
use history_book::outcome::ConfirmOutcome;
use history_book::record::Flow;
use history_book::sizes::Sizes;
use std::sync::Wait;
use track_rule::pass::Pass;
use tuple_core::bucket_of;

/// Waits for the buckets of both tuples of a flow, and locks them.
#[inline(always)]
pub fn lock_flow<R: Wait>(rt: &R, pass: &mut Pass, flow: &Flow) -> Locked
    requires { pass.old.view.buckets.shut ≡ [] }
    ensures locks { LocksFlow flow.now result pass.old pass.new }
    ensures words { ChangesWords (flow_gens flow.now) pass.old.view pass.new.view }
{
    let sizes = pass.sizes();
    lock_sized(rt, pass, &sizes, flow)
}

/// Waits for the buckets of both tuples of a flow, and locks them, in a table of these sizes.
#[inline(always)]
fn lock_sized<R: Wait>(rt: &R, pass: &mut Pass, sizes: &Sizes, flow: &Flow) -> Locked
    requires limits { AreWithinLimits sizes.now }
    requires sizes { sizes.now ≡ sizes_of pass.old }
    requires shut { pass.old.view.buckets.shut ≡ [] }
    ensures locks { LocksFlow flow.now result pass.old pass.new }
    ensures words { ChangesWords (flow_gens flow.now) pass.old.view pass.new.view }
{
    let original = bucket_of(&flow.original, sizes.seed, sizes.buckets);
    let reply = bucket_of(&flow.reply, sizes.seed, sizes.buckets);
    lock_two(rt, pass, original, reply)
}

/// Answers that a live entry stands in the way, and gives both buckets back.
#[inline(always)]
fn blocked(
    pass: &mut Pass,
    locked: Locked,
    place: u32,
    flow: &Flow,
    rival: &Rival,
) -> ConfirmOutcome
    requires locked { IsLocked flow.now locked pass.old }
    requires blocked { IsBlocked place flow.now rival.now pass.old }
    ensures blocks { BlocksAndOpens place flow.now result pass.old pass.new }
    ensures words { ChangesWords (flow_gens flow.now) pass.old.view pass.new.view }
{
    let answer = clash(pass, place, flow, rival);
    unlock_two(pass, locked);
    answer
}

/// Makes the flow an entry, gives both buckets back, and puts the record in its slot, under its turn. Gives its id.
#[inline(always)]
fn enter<R: Wait>(
    rt: &R,
    pass: &mut Pass,
    locked: Locked,
    sizes: &Sizes,
    place: u32,
    flow: &Flow,
) -> u64
    requires limits { AreWithinLimits sizes.now }
    requires sizes { sizes.now ≡ sizes_of pass.old }
    requires locked { IsLocked flow.now locked pass.old }
    requires can { CanCommit place flow.now locked pass.old }
    requires free { pass.old.view.free ≡ None }
    ensures enters { EntersAndOpens place flow.now result pass.old pass.new }
    ensures words { ChangesWords (either (flow_gens flow.now) (commit_words place flow.now)) pass.old.view pass.new.view }
{
    let id = commit(rt, pass, &locked, sizes, place, flow);
    unlock_two(pass, locked);
    let _ = pass.record_swap(place, Some(record_for(flow, id, place)));
    id
}

/// Confirms a flow under the turn of its place's record.
#[inline(always)]
fn confirm_locked<R: Wait, G: Gate>(
    rt: &R,
    pass: &mut Pass,
    gate: &G,
    worker: u32,
    sizes: &Sizes,
    place: u32,
    flow: &Flow,
) -> ConfirmOutcome
    requires limits { AreWithinLimits sizes.now }
    requires sizes { sizes.now ≡ sizes_of pass.old }
    requires can { CanEnter place flow.now pass.old }
    ensures answers { Answers place flow.now result pass.old pass.new }
    ensures words { ChangesWords (enter_words flow.now place result) pass.old.view pass.new.view }
{
    let locked = lock_sized(rt, pass, sizes, flow);
    match find_rival(pass, &locked, sizes, flow) {
        Some(rival) => blocked(pass, locked, place, flow, &rival),
        None => {
            gate.at(worker, Crossing::InConfirm);
            let id = enter(rt, pass, locked, sizes, place, flow);
            ConfirmOutcome::Confirmed { id }
        }
    }
}

/// Confirms a flow in the place that was taken for it. While both buckets are locked and no live entry has one of its tuples, the
/// gate is passed, before the flow becomes an entry.
#[inline(always)]
pub fn confirm<R: Wait, G: Gate>(
    rt: &R,
    pass: &mut Pass,
    gate: &G,
    worker: u32,
    place: u32,
    flow: &Flow,
) -> ConfirmOutcome
    requires { CanConfirmFlow place flow.now pass.old }
    ensures confirms { ConfirmsFlow place flow.now result pass.old pass.new }
    ensures words { ChangesWords (confirm_words flow.now place result) pass.old.view pass.new.view }
{
    let sizes = pass.sizes();
    store_tuples(pass, &sizes, place, flow);
    take_turn(rt, pass, place);
    let outcome = confirm_locked(rt, pass, gate, worker, &sizes, place, flow);
    pass.turn_give(place);
    outcome
}
