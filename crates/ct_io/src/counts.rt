//! Counts that stand still at their end, and the calls that are to fail by number.

ghost use Rattle.std.specs.Prelude.{◌≡◌};
ghost use Rattle.ct_io.specs.Counts.{is_listed, risen};

/// The count after one more.
pub(crate) fn one_more(count: u64) -> u64
    ensures { result ≡ risen count }
{
    count.saturating_add(1)
}

/// Whether the call of this number is one of those that are to fail.
pub(crate) fn is_to_fail(fails: &[u64], call: u64) -> bool
    ensures { result ≡ is_listed fails.now call }
{
    fails.contains(&call)
}
