//! What holds of every entry that begins, and of every step: each law is the contract of a function
//! that does nothing.

ghost use Rattle.proto_rules.specs.Laws.{AcceptedGoOn, DropGridIsRule, EntriesBeginFresh, ExpiredAreTold};
ghost use Rattle.proto_rules.specs.Laws.{SamePartIsEquality, ReopensBeginAnew, ResetsAreUnanswered};

/// An entry that begins is of the segment's protocol, with no reply and not assured, and lives on.
pub fn entries_begin_fresh()
    ensures { EntriesBeginFresh }
{}

/// An accepted packet is of the entry's protocol, and leaves one of this protocol that lives on: a reply
/// was seen if one was before or this packet is one, and what is assured stays so.
pub fn accepted_go_on()
    ensures { AcceptedGoOn }
{}

/// What is reset was never answered, and the same packet resets it in each direction.
pub fn resets_are_unanswered()
    ensures { ResetsAreUnanswered }
{}

/// What reopens an entry begins one.
pub fn reopens_begin_anew()
    ensures { ReopensBeginAnew }
{}

/// A step answers Expired exactly where the entry is expired.
pub fn expired_are_told()
    ensures { ExpiredAreTold }
{}

/// The test of two parts says exactly whether they are equal.
pub fn same_part_is_equality()
    ensures { SamePartIsEquality }
{}

/// The grid of what a full table may drop is the rule, at the cell of each part.
pub fn drop_grid_is_rule()
    ensures { DropGridIsRule }
{}
