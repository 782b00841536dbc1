//! What the rule says of all passes: each law is the contract of a function that does nothing.

ghost use Rattle.history_book.specs.PlaceUse.{PlacesAreRight};
ghost use Rattle.track_rule.specs.Laws.{HeldPlacesHaveTheirTuples, KeepsTableRule, KeptLeavesAUse, LastReferenceIsAlone, LivePlacesHaveTheirTuples, OnePassHasTheList, ReleasesStayOut, TakenPlacesAreNew, TheListIsKnown, WordsCountUsers, entries_of, part_in, uses_in};

use history_book::laws::{live_records_are_confirmed, places_are_in_the_pool};
use history_book::place_use::uses_exclude_others;

/// Between any two steps each place of the pool is free once, or owed once by one pass, or in use; and what follows for who
/// holds it, who is given it, and who gives it up.
pub fn places_are_right()
    ensures { PlacesAreRight KeepsTableRule entries_of uses_in part_in }
{
    uses_exclude_others();
    places_are_in_the_pool();
}

/// A release that leaves a reference, so that the pass owes no more than before, leaves the place in use.
pub fn releases_leave_a_use()
    ensures stays { ReleasesStayOut }
    ensures kept { KeptLeavesAUse }
{
    uses_exclude_others();
    places_are_in_the_pool();
}

/// The references word of a place counts its users.
pub fn words_count_users()
    ensures { WordsCountUsers }
{}

/// The list that a pass has under the turn is the list of all free places, and it has the turn alone.
pub fn one_pass_has_the_list()
    ensures known { TheListIsKnown }
    ensures alone { OnePassHasTheList }
{}

/// Who gives up the last reference to a place was alone with it.
pub fn last_reference_is_alone()
    ensures { LastReferenceIsAlone }
{}

/// A place is taken for one new entry at a time.
pub fn taken_places_are_new()
    ensures { TakenPlacesAreNew }
{}

/// The tuple words of a place that is LIVE of an id, or held for one, are those of the tuples of the id's Confirm.
pub fn entries_have_their_tuples()
    ensures live { LivePlacesHaveTheirTuples }
    ensures held { HeldPlacesHaveTheirTuples }
{
    live_records_are_confirmed();
}
