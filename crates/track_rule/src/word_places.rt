//! Where the words of buckets and of links stand. A link is 1 and twice its place, and 1 more for the reply direction; 0 is
//! the end of a chain.

ghost use Rattle.std.specs.Prelude.{◌≡◌, ◌<◌, ◌≤◌, true};
ghost use Rattle.history_book.specs.Sizes.{AreWithinLimits};
ghost use Rattle.track_rule.specs.Layout.{first_word, gen_word, head_word, next_word, place_of, refs_word, second_word};
ghost use Rattle.track_rule.specs.Links.{is_link_word, is_tuple_word, last_link};

use history_book::sizes::Sizes;

/// The generation of a bucket.
#[inline(always)]
pub fn gen_word(sizes: &Sizes, bucket: u32) -> u32
    requires limits { AreWithinLimits sizes.now }
    requires bucket { bucket < sizes.now.buckets }
    ensures { result ≡ gen_word sizes.now bucket }
{
    3 + bucket
}

/// The first link of the chain of a bucket.
#[inline(always)]
pub fn head_word(sizes: &Sizes, bucket: u32) -> u32
    requires limits { AreWithinLimits sizes.now }
    requires bucket { bucket < sizes.now.buckets }
    ensures word { result ≡ head_word sizes.now bucket }
    ensures link { is_link_word sizes.now result ≡ true }
{
    3 + sizes.buckets + bucket
}

/// The references of the place of a link, which are the first of its words.
#[inline(always)]
fn place_word(sizes: &Sizes, link: u64) -> u32
    requires limits { AreWithinLimits sizes.now }
    requires some { 0 < link }
    requires below { link ≤ last_link sizes.now }
    ensures { result ≡ refs_word sizes.now (place_of link) }
{
    3 + 2 * sizes.buckets + 9 * ((link - 1) / 2) as u32
}

/// The addresses of the tuple of a link.
#[inline(always)]
pub fn first_word(sizes: &Sizes, link: u64) -> u32
    requires limits { AreWithinLimits sizes.now }
    requires some { 0 < link }
    requires below { link ≤ last_link sizes.now }
    ensures word { result ≡ first_word sizes.now link }
    ensures tuple { is_tuple_word sizes.now result ≡ true }
{
    place_word(sizes, link) + 3 + 2 * ((link - 1) % 2) as u32
}

/// What tells the flows between these addresses apart.
#[inline(always)]
pub fn second_word(sizes: &Sizes, link: u64) -> u32
    requires limits { AreWithinLimits sizes.now }
    requires some { 0 < link }
    requires below { link ≤ last_link sizes.now }
    ensures word { result ≡ second_word sizes.now link }
    ensures tuple { is_tuple_word sizes.now result ≡ true }
{
    place_word(sizes, link) + 4 + 2 * ((link - 1) % 2) as u32
}

/// The link after a link.
#[inline(always)]
pub fn next_word(sizes: &Sizes, link: u64) -> u32
    requires limits { AreWithinLimits sizes.now }
    requires some { 0 < link }
    requires below { link ≤ last_link sizes.now }
    ensures word { result ≡ next_word sizes.now link }
    ensures link { is_link_word sizes.now result ≡ true }
{
    place_word(sizes, link) + 7 + ((link - 1) % 2) as u32
}
