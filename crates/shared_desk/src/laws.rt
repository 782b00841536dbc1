//! What the definitions of changed words say, and laws that are needed together: each is the contract of a function that does
//! nothing, or nothing but cite others.

ghost use Rattle.shared_desk.specs.TupleLaws.{TuplesTellEntries};
ghost use Rattle.shared_desk.specs.Laws.{FirstRefsStandAlone, LowWordsAreNot, OthersAreNot, PlacesAreNamed, TuplesAreNot};

use history_book::laws::{records_are_apart, records_are_of_one_flow, same_tuple_is_equality};
use tuple_core::words_determine_the_tuple;

/// Four laws by which a tuple's words tell the entry that is live under it.
pub(crate) fn tuples_tell_entries()
    ensures { TuplesTellEntries }
{
    records_are_apart();
    records_are_of_one_flow();
    same_tuple_is_equality();
    words_determine_the_tuple();
}

/// Which words are references and phases, and which are not.
pub fn words_are_told_apart()
    ensures places { PlacesAreNamed }
    ensures low { LowWordsAreNot }
    ensures turns { OthersAreNot }
    ensures tuples { TuplesAreNot }
    ensures first { FirstRefsStandAlone }
{}
