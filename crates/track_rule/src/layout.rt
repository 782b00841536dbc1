//! Where the words of a table stand. `specs/Layout.antt` has the whole of it.

ghost use Rattle.std.specs.Prelude.{◌≡◌, ◌<◌};
ghost use Rattle.history_book.specs.Sizes.{AreWithinLimits};
ghost use Rattle.track_rule.specs.Layout.{refs_word, word_count};

use history_book::sizes::Sizes;

/// The number of events, in the low 40 bits, and of live entries above them.
pub const HISTORY_WORD: usize = 0;

/// 1 while a pass has the turn of the free list, else 0.
pub const FREE_WORD: usize = 1;

/// 1 while a pass has the turn of the expectations, else 0.
pub const EXPECTS_WORD: usize = 2;

/// The slot of the free list.
pub const FREE_SLOT: usize = 0;

/// The slot of the expectations.
pub const EXPECTS_SLOT: usize = 1;

/// How many words a place has.
const PLACE_WORDS: usize = 9;

/// The references word of a place, which is the first of its words.
#[inline(always)]
pub fn refs_word(sizes: &Sizes, place: u32) -> usize
    requires limits { AreWithinLimits sizes.now }
    requires place { place < sizes.now.entries }
    ensures word { result ≡ refs_word sizes.now place }
    ensures below { result < word_count sizes.now }
{
    3 + 2 * sizes.buckets as usize + PLACE_WORDS * place as usize
}

/// How many words a table has.
pub fn word_count(sizes: &Sizes) -> usize
    requires limits { AreWithinLimits sizes.now }
    ensures { result ≡ word_count sizes.now }
{
    3 + 2 * sizes.buckets as usize + PLACE_WORDS * sizes.entries as usize
}
