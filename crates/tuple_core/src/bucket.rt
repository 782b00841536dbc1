//! The bucket of a tuple in a hash table.

ghost use Rattle.std.specs.Int.{is_power_of_two};
ghost use Rattle.std.specs.Prelude.{◌≡◌, ◌<◌, true};
ghost use Rattle.tuple_core.specs.Hash.{bucket_of, bucket_of_words, mix};

use crate::{Tuple, words};

/// Spreads a word: a product, its upper half folded into the lower one, from which buckets are taken.
#[tactic(auto, unfolding(crate::specs::Hash::mix))]
fn mix(x: u64) -> u64
    ensures { result ≡ mix x }
{
    let y = x.wrapping_mul(0x9E37_79B9_7F4A_7C15);
    y ^ (y / 0x1_0000_0000)
}

/// The bucket of the tuple with these words, in a table of so many buckets.
#[tactic(auto, using(crate::proofs::PowerOfTwo::mask_of_power))]
pub fn bucket_of_words(addresses: u64, flow: u64, seed: u64, buckets: u32) -> u32
    requires { is_power_of_two buckets ≡ true }
    ensures exact { result ≡ bucket_of_words addresses flow seed buckets }
    ensures below { result < buckets }
{
    let hash = mix(mix(addresses ^ seed) ^ flow);
    // The remainder, without a division.
    (hash & (buckets as u64 - 1)) as u32
}

/// The bucket of a tuple in a table of so many buckets. Which tuples share a bucket depends on the seed.
pub fn bucket_of(t: &Tuple, seed: u64, buckets: u32) -> u32
    requires { is_power_of_two buckets ≡ true }
    ensures exact { result ≡ bucket_of t.now seed buckets }
    ensures below { result < buckets }
{
    let [addresses, flow] = words(t);
    bucket_of_words(addresses, flow, seed, buckets)
}
