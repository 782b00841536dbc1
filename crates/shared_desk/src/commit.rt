//! The commit of a flow whose links may come into their chains: links, the table's reference, the Confirm, and LIVE.

ghost use Rattle.std.specs.Prelude.{◌≡◌, ◌<◌, true, None, []};
ghost use Rattle.history_book.specs.Entry.{record_for};
ghost use Rattle.history_book.specs.Sizes.{AreWithinLimits};
ghost use Rattle.track_rule.specs.ChangesOnly.{ChangesWords, is_refs_of, is_turn_of};
ghost use Rattle.shared_desk.specs.Changed.{commit_words};
ghost use Rattle.shared_desk.specs.Commit.{AddsReference, CanCommit, Commits, HasRecordTurn};
ghost use Rattle.track_rule.specs.Sights.{sizes_of};
ghost use Rattle.track_rule.specs.Steps.{is_second};

use bucket_table::lock::Locked;
use bucket_table::locked_chain::link_in;
use history_book::event::Event;
use history_book::record::{Flow, Record};
use history_book::sizes::Sizes;
use std::sync::Wait;
use std::thread;
use track_rule::pass::Pass;
use tuple_core::bucket_of;

/// The record that a flow becomes.
#[inline(always)]
pub fn record_for(flow: &Flow, id: u64, place: u32) -> Record
    ensures { result ≡ record_for flow.now id place }
{
    let Flow {
        original,
        reply,
        part,
        helper,
        master,
    } = *flow;
    Record {
        id,
        place,
        original,
        reply,
        part,
        helper,
        master,
    }
}

/// Waits for the turn of the record of a place, and takes it.
#[inline(always)]
pub fn take_turn<R: Wait>(rt: &R, pass: &mut Pass, place: u32)
    requires place { place < (sizes_of pass.old).entries }
    requires calm { pass.old.view.commit.hand ≡ None }
    requires expected { pass.old.view.expected ≡ None }
    requires free { pass.old.view.free ≡ None }
    requires shut { pass.old.view.buckets.shut ≡ [] }
    ensures has { HasRecordTurn place pass.old pass.new }
    ensures words { ChangesWords (is_turn_of place) pass.old.view pass.new.view }
{
    if pass.turn_take(place) {
        return;
    }
    'turns: for _ in rt.forever() {
        thread::yield_now();
        if pass.turn_take(place) {
            return;
        }
    }
    unreachable!()
}

/// Makes the second reference to a place that was taken, which becomes the table's.
#[inline(always)]
fn add_reference<R: Wait>(rt: &R, pass: &mut Pass, place: u32)
    requires place { place < (sizes_of pass.old).entries }
    requires second { is_second place pass.old.view ≡ true }
    ensures adds { AddsReference place pass.old pass.new }
    ensures words { ChangesWords (is_refs_of place) pass.old.view pass.new.view }
{
    let mut seen = pass.ref_load(place);
    'tries: for _ in rt.forever() {
        match pass.ref_up(place, seen) {
            Ok(()) => return,
            Err(now) => seen = now,
        }
    }
    unreachable!()
}

/// Makes the flow an entry, in a place whose two links are in no chain, while both buckets are locked. Gives its id.
#[inline(always)]
pub fn commit<R: Wait>(
    rt: &R,
    pass: &mut Pass,
    locked: &Locked,
    sizes: &Sizes,
    place: u32,
    flow: &Flow,
) -> u64
    requires limits { AreWithinLimits sizes.now }
    requires sizes { sizes.now ≡ sizes_of pass.old }
    requires can { CanCommit place flow.now locked.now pass.old }
    ensures commits { Commits place flow.now result pass.old pass.new }
    ensures words { ChangesWords (commit_words place flow.now) pass.old.view pass.new.view }
{
    let first = bucket_of(&flow.original, sizes.seed, sizes.buckets);
    let second = bucket_of(&flow.reply, sizes.seed, sizes.buckets);
    link_in(pass, locked, sizes, place, first, second);
    add_reference(rt, pass, place);
    let id = pass.confirm_add(Event::Confirm {
        subject: record_for(flow, 0, place),
    });
    pass.phase_live(place, id);
    id
}
