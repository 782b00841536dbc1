//! What holds of every payload: the law is the contract of a function that does nothing.

ghost use Rattle.ftp_helper.specs.Laws.{NamedEndsAreUnique, NamingBytesAreUnique, ReadingIsNaming};

/// A payload names one end at most.
#[tactic(auto, using(crate::proofs::Naming::one_end))]
pub fn named_ends_are_unique()
    ensures { NamedEndsAreUnique }
{}

/// It names that by the same bytes.
pub fn naming_bytes_are_unique()
    ensures { NamingBytesAreUnique }
{}

/// What reading it from its front gives is what it names.
pub fn reading_is_naming()
    ensures { ReadingIsNaming }
{}
