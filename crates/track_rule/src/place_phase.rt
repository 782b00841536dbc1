//! The steps on the phases of places: a load, and the store of FREE or OWNED while no entry is live there. Each is one atomic step.

ghost use Rattle.std.specs.Prelude.{◌≡◌, ◌<◌, true};
ghost use Rattle.history_book.specs.Sizes.{AreWithinLimits};
ghost use Rattle.track_rule.specs.Layout.{phase_word, word_count};
ghost use Rattle.track_rule.specs.PhaseSteps.{LoadsPhase, may_store, phase_stored};
ghost use Rattle.track_rule.specs.Sights.{sizes_of};

use crate::layout::refs_word;
use crate::pass::Pass;
use crate::slot::Slot;
use crate::view::View;
use atomic_table::Play;
use history_book::laws::{first_events_stay, gone_entries_stay_gone, live_records_are_confirmed};
use history_book::sizes::Sizes;

/// The phase of a free place.
pub const FREE: u64 = 0;

/// The phase of a place that a pass has taken for a new entry.
pub const OWNED: u64 = 1;

/// The least phase of a place that is LIVE: it is this one and the id of the entry.
pub const LIVE: u64 = 3;

/// A load of a phase.
pub struct LoadPhase;

impl Play<Slot, View> for LoadPhase {
    ghost use Rattle.track_rule.specs.PhaseSteps.{LoadPhaseStep};

    ghost then = { LoadPhaseStep };
}

/// Storing FREE or OWNED.
pub struct StorePhase;

impl Play<Slot, View> for StorePhase {
    ghost use Rattle.track_rule.specs.PhaseSteps.{StorePhaseStep};

    ghost then = { StorePhaseStep };
}

/// The word of the phase of a place.
#[inline(always)]
pub fn phase_word(sizes: &Sizes, place: u32) -> usize
    requires limits { AreWithinLimits sizes.now }
    requires place { place < sizes.now.entries }
    ensures word { result ≡ phase_word sizes.now place }
    ensures below { result < word_count sizes.now }
{
    refs_word(sizes, place) + 1
}

impl<'b> Pass<'b> {
    /// Loads the phase of a place. Where it is LIVE, a reference to look what stands there is for that entry.
    #[inline(always)]
    pub fn phase_load(&mut self, place: u32) -> u64
        requires place { place < (sizes_of self.old).entries }
        ensures loads { LoadsPhase place self.old.view result self.new.view }
        ensures kept { self.new ≡ record self.old { view = self.new.view } }
    {
        live_records_are_confirmed();
        gone_entries_stay_gone();
        first_events_stay();
        let word = phase_word(&self.sizes, place);
        self.shared.load::<LoadPhase>(&mut self.seat, word)
    }

    /// Stores `FREE` as the phase of a place that the pass owes, or `OWNED` as that of a place that it has taken.
    #[inline(always)]
    pub fn phase_store(&mut self, place: u32, to: u64)
        requires { may_store place to self.old.view ≡ true }
        ensures { self.new ≡ record self.old { view = phase_stored place to self.old.view } }
    {
        let word = phase_word(&self.sizes, place);
        self.shared.store::<StorePhase>(&mut self.seat, word, to);
    }
}
