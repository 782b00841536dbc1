//! Laws that a look at a place needs together, as one law: the contract of a function that does nothing but cite them.

ghost use Rattle.history_book.specs.Laws.{EntriesKeepTheirPlace, PlacesNameEntries};
ghost use Rattle.history_book.specs.Places.{OneHoldHasItsId};
ghost use Rattle.history_book.specs.StateLaws.{UnusedPlacesAreNobodys};

use history_book::laws::{
    entries_keep_their_place, places_name_entries, unused_places_are_nobodys,
};
use history_book::places::one_hold_has_its_id;

/// A place tells its entry: an entry keeps its place, a used place names one entry and an unused one none, and the one place
/// that is held has the id that it is held for.
pub fn places_tell_their_entry()
    ensures keep { EntriesKeepTheirPlace }
    ensures name { PlacesNameEntries }
    ensures hold { OneHoldHasItsId }
    ensures unused { UnusedPlacesAreNobodys }
{
    entries_keep_their_place();
    one_hold_has_its_id();
    places_name_entries();
    unused_places_are_nobodys();
}
