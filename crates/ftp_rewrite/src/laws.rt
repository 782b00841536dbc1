//! What holds of the edits of a stream: each law is the contract of a function that does nothing.

ghost use Rattle.ftp_rewrite.specs.Laws.{BackIsThePlace, BackUndoesForward, EditsStayInOrder, ForwardIsTheLength};

/// A number outside all edits and less than 2^31 - 2^22 bytes behind the base, moved forward and then back, is what it was.
pub fn back_undoes_forward()
    ensures { BackUndoesForward }
{}

/// A place outside all edits, moved forward and then back, is where it was.
pub fn back_is_the_place()
    ensures { BackIsThePlace }
{}

/// A place outside all edits moves forward to the length of the rewritten bytes before it.
pub fn forward_is_the_length()
    ensures { ForwardIsTheLength }
{}

/// The edits that are added are in order, at most 64, with new texts below 2^16 bytes.
pub fn edits_stay_in_order()
    ensures { EditsStayInOrder }
{}
