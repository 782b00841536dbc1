//! The tuples of a place, which a pass stores before it puts its links into their chains.

ghost use Rattle.std.specs.Prelude.{◌≡◌, ◌<◌, ◌≤◌, true, false};
ghost use Rattle.history_book.specs.Sizes.{AreWithinLimits};
ghost use Rattle.track_rule.specs.ChangesOnly.{ChangesWords, is_tuple_of};
ghost use Rattle.shared_desk.specs.Tuples.{IsFresh, StoresTuple, StoresTuples};
ghost use Rattle.track_rule.specs.Free.{is_among};
ghost use Rattle.track_rule.specs.Layout.{place_of};
ghost use Rattle.track_rule.specs.Links.{hooks_of, is_up, last_link};
ghost use Rattle.track_rule.specs.Sights.{sizes_of};

use history_book::record::Flow;
use history_book::sizes::Sizes;
use track_rule::pass::Pass;
use track_rule::word_places::{first_word, second_word};
use tuple_core::{Tuple, words};

/// Stores the tuple of a link of a place of which no link is in a chain.
#[inline(always)]
fn store_tuple(pass: &mut Pass, sizes: &Sizes, link: u64, t: &Tuple)
    requires limits { AreWithinLimits sizes.now }
    requires sizes { sizes.now ≡ sizes_of pass.old }
    requires some { 0 < link }
    requires below { link ≤ last_link (sizes_of pass.old) }
    requires there { 0 < hooks_of link pass.old.view.buckets.hooks }
    requires low { is_up (place_of link) pass.old.view.buckets.hooks ≡ false }
    requires owned { is_among (place_of link) pass.old.view.places.owned ≡ true }
    ensures stores { StoresTuple link t.now pass.old pass.new }
    ensures words { ChangesWords (is_tuple_of (place_of link)) pass.old.view pass.new.view }
{
    let [first, second] = words(t);
    pass.tuple_store(first_word(sizes, link), first);
    pass.tuple_store(second_word(sizes, link), second);
}

/// Stores both tuples of a flow in the place that was taken for it.
#[inline(always)]
pub fn store_tuples(pass: &mut Pass, sizes: &Sizes, place: u32, flow: &Flow)
    requires limits { AreWithinLimits sizes.now }
    requires sizes { sizes.now ≡ sizes_of pass.old }
    requires fresh { IsFresh place pass.old }
    ensures stores { StoresTuples place flow.now pass.old pass.new }
    ensures words { ChangesWords (is_tuple_of place) pass.old.view pass.new.view }
{
    store_tuple(pass, sizes, 1 + 2 * place as u64, &flow.original);
    store_tuple(pass, sizes, 2 + 2 * place as u64, &flow.reply);
}
