//! What holds of every group and capture: each law is the contract of a function that does nothing.

ghost use Rattle.ip_reassembly.specs.Laws.{CapturesWithoutPiecesStay, CompleteGroupsAreWhole, PiecesAgreeByTwo};

/// The pieces of a group agree exactly where any two of them do.
#[tactic(auto, using(crate::proofs::ByTwo::pieces_agree_by_two))]
pub fn pieces_agree_by_two()
    ensures { PiecesAgreeByTwo }
{}

/// A group is complete exactly where any two pieces agree, one is last, and each byte up to its end is covered.
#[tactic(auto, using(crate::proofs::ByTwo::complete_groups_are_whole))]
pub fn complete_groups_are_whole()
    ensures { CompleteGroupsAreWhole }
{}

/// A capture of which no frame is a piece stays as it is.
#[tactic(auto, using(crate::proofs::Unfragmented::captures_without_pieces_stay))]
pub fn captures_without_pieces_stay()
    ensures { CapturesWithoutPiecesStay }
{}
