//! What holds of every verdict that fits: each law is the contract of a function that does nothing
//! but cite the laws of histories that it follows from.

ghost use Rattle.packet_path.specs.Laws.{BytesDecide, ErrorsMakeNoEvent};
ghost use Rattle.packet_path.specs.Laws.{LowerMarksFit, SameProtocolIsEquality, VerdictsStillFit};

use history_book::laws::{events_stay, states_stay};

/// A verdict that fits its packet still fits it when the history goes on.
pub fn verdicts_still_fit()
    ensures { VerdictsStillFit }
{
    events_stay();
    states_stay();
}

/// A verdict that fits from a mark on fits from any lower mark on.
pub fn lower_marks_fit()
    ensures { LowerMarksFit }
{}

/// A packet that is not tracked, or has a wrong header, makes no event, and its verdict says just
/// that.
pub fn bytes_decide()
    ensures { BytesDecide }
{}

/// An ICMP error makes no event.
pub fn errors_make_no_event()
    ensures { ErrorsMakeNoEvent }
{}

/// The test of a segment and an entry says exactly whether the segment's protocol is the entry's.
pub fn same_protocol_is_equality()
    ensures { SameProtocolIsEquality }
{}
