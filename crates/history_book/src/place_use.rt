//! The places of a tracker's pool, between any two steps of its passes.

ghost use Rattle.history_book.specs.PlaceUse.{UsesExcludeOthers};

/// A place with one use has no other: a law, the contract of a function that does nothing.
pub fn uses_exclude_others()
    ensures { UsesExcludeOthers }
{}
