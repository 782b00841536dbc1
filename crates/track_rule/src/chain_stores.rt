//! The stores of tuples and of links. Each is one atomic step. A pass stores in the words of a link of its own that is in no
//! chain; and in a bucket that it has shut it puts such a link in at the head of the chain, or takes one of its own out of it.

ghost use Rattle.std.specs.Prelude.{◌≡◌, true};
ghost use Rattle.track_rule.specs.BucketSteps.{MayString, Strings, is_own_tuple, tuple_stored};
ghost use Rattle.track_rule.specs.Links.{is_link_word, is_tuple_word};
ghost use Rattle.track_rule.specs.Sights.{sizes_of};

use crate::pass::Pass;
use crate::slot::Slot;
use crate::view::View;
use atomic_table::Play;

/// A store of a word of a tuple.
pub struct StoreTuple;

impl Play<Slot, View> for StoreTuple {
    ghost use Rattle.track_rule.specs.BucketSteps.{StoreTupleStep};

    ghost then = { StoreTupleStep };
}

/// A store of a link.
pub struct StoreLink;

impl Play<Slot, View> for StoreLink {
    ghost use Rattle.track_rule.specs.BucketSteps.{StoreLinkStep};

    ghost then = { StoreLinkStep };
}

impl<'b> Pass<'b> {
    /// Stores a word of the tuple of a place that the pass has set to `OWNED` and of which no link is in a chain.
    #[inline(always)]
    pub fn tuple_store(&mut self, word: u32, to: u64)
        requires tuple { is_tuple_word (sizes_of self.old) word ≡ true }
        requires own { is_own_tuple (sizes_of self.old) word self.old.view.buckets self.old.view.places.owned ≡ true }
        ensures { self.new ≡ record self.old { view = tuple_stored word to self.old.view } }
    {
        self.shared
            .store::<StoreTuple>(&mut self.seat, word as usize, to);
    }

    /// Stores a link: as the next one of a link of the pass that is in no chain, as the first of a chain, or behind a link
    /// that is taken out of its chain.
    #[inline(always)]
    pub fn link_store(&mut self, word: u32, to: u64)
        requires link { is_link_word (sizes_of self.old) word ≡ true }
        requires may { MayString word to self.old.view }
        ensures strings { Strings word to self.old.view self.new.view }
        ensures kept { self.new ≡ record self.old { view = self.new.view } }
    {
        self.shared
            .store::<StoreLink>(&mut self.seat, word as usize, to);
    }
}
