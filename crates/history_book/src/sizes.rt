//! How large a tracker is.

/// The sizes of a tracker, which are fixed before it begins.
#[derive(Clone, Copy)]
pub struct Sizes {
    /// The places of the pool: so many entries can be live.
    pub entries: u32,
    /// The buckets of the table, a power of two.
    pub buckets: u32,
    /// The seed of the hash that gives a tuple its bucket.
    pub seed: u64,
    /// How many passes may be made.
    pub passes: u32,
    /// The room for expectations.
    pub expectations: u32,
}
