//! The steps on the generations of buckets, and the loads of links and of tuples. Each is one atomic step. A generation is
//! odd while a pass has the bucket; that one alone changes the links of its chain.

ghost use Rattle.std.specs.Prelude.{◌≡◌, ◌%◌, ◌<◌, true, OnOk, IfErr};
ghost use Rattle.track_rule.specs.BucketSteps.{LoadsGen, LoadsLink, LoadsTuple, MissesGen, OpensGen, ShutsGen};
ghost use Rattle.track_rule.specs.declared.view.Middle.TheVariants.{Calm};
ghost use Rattle.track_rule.specs.Chains.{each_link, loose_of, shuts_of};
ghost use Rattle.track_rule.specs.Links.{is_link_word, is_tuple_word, last_gen};
ghost use Rattle.track_rule.specs.Sights.{sizes_of};

use crate::pass::Pass;
use crate::slot::Slot;
use crate::view::View;
use crate::word_places::gen_word;
use atomic_table::Play;

/// The greatest generation, at which a bucket is no longer shut.
pub const LAST_GENERATION: u64 = 0xFFFF_FFFF_FFFF_FFFE;

/// A load of a generation.
pub struct LoadGen;

impl Play<Slot, View> for LoadGen {
    ghost use Rattle.track_rule.specs.BucketSteps.{LoadGenStep};

    ghost then = { LoadGenStep };
}

/// Shutting a bucket.
pub struct ShutGen;

impl Play<Slot, View> for ShutGen {
    ghost use Rattle.track_rule.specs.BucketSteps.{ShutGenStep};

    ghost then = { ShutGenStep };
}

/// Opening it.
pub struct OpenGen;

impl Play<Slot, View> for OpenGen {
    ghost use Rattle.track_rule.specs.BucketSteps.{OpenGenStep};

    ghost then = { OpenGenStep };
}

/// A load of a link.
pub struct LoadLink;

impl Play<Slot, View> for LoadLink {
    ghost use Rattle.track_rule.specs.BucketSteps.{LoadLinkStep};

    ghost then = { LoadLinkStep };
}

/// A load of a word of a tuple.
pub struct LoadTuple;

impl Play<Slot, View> for LoadTuple {
    ghost use Rattle.track_rule.specs.BucketSteps.{LoadTupleStep};

    ghost then = { LoadTupleStep };
}

impl<'b> Pass<'b> {
    /// Loads the generation of a bucket. A walk along its chain begins and ends with this.
    #[inline(always)]
    pub fn gen_load(&mut self, bucket: u32) -> u64
        requires bucket { bucket < (sizes_of self.old).buckets }
        ensures loads { LoadsGen bucket self.old.view result self.new.view }
        ensures kept { self.new ≡ record self.old { view = self.new.view } }
    {
        let word = gen_word(&self.sizes, bucket);
        self.shared.load::<LoadGen>(&mut self.seat, word as usize)
    }

    /// Shuts a bucket where its generation is this even one. Else gives the other one.
    #[inline(always)]
    pub fn gen_shut(&mut self, bucket: u32, even: u64) -> Result<(), u64>
        requires bucket { bucket < (sizes_of self.old).buckets }
        requires even { even % 2 ≡ 0 }
        requires last { even < last_gen }
        ensures ok { OnOk result (ShutsGen bucket even self.old.view self.new.view) }
        ensures err { IfErr result (λ n. MissesGen bucket even self.old.view n self.new.view) }
        ensures kept { self.new ≡ record self.old { view = self.new.view } }
    {
        let word = gen_word(&self.sizes, bucket);
        let found = self
            .shared
            .compare_exchange::<ShutGen>(&mut self.seat, word as usize, even, even + 1);
        if found == even { Ok(()) } else { Err(found) }
    }

    /// Opens a bucket that the pass has shut, where its chain has the links of live entries alone and the pass is in the middle
    /// of no commit.
    #[inline(always)]
    pub fn gen_open(&mut self, bucket: u32)
        requires bucket { bucket < (sizes_of self.old).buckets }
        requires mine { 0 < shuts_of bucket self.old.view }
        requires whole { loose_of (sizes_of self.old) bucket each_link self.old.view ≡ 0 }
        requires calm { self.old.view.commit.middle ≡ Calm }
        ensures opens { OpensGen bucket self.old.view self.new.view }
        ensures kept { self.new ≡ record self.old { view = self.new.view } }
    {
        let word = gen_word(&self.sizes, bucket);
        let _ = self
            .shared
            .fetch_add::<OpenGen>(&mut self.seat, word as usize, 1);
    }

    /// Loads the head of a bucket, or the link after a link.
    #[inline(always)]
    pub fn link_load(&mut self, word: u32) -> u64
        requires { is_link_word (sizes_of self.old) word ≡ true }
        ensures loads { LoadsLink word self.old.view result self.new.view }
        ensures kept { self.new ≡ record self.old { view = self.new.view } }
    {
        self.shared.load::<LoadLink>(&mut self.seat, word as usize)
    }

    /// Loads a word of the tuple of a link.
    #[inline(always)]
    pub fn tuple_load(&mut self, word: u32) -> u64
        requires { is_tuple_word (sizes_of self.old) word ≡ true }
        ensures loads { LoadsTuple word self.old.view result self.new.view }
        ensures kept { self.new ≡ record self.old { view = self.new.view } }
    {
        self.shared.load::<LoadTuple>(&mut self.seat, word as usize)
    }
}
