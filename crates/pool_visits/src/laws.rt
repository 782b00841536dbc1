//! What holds of looks at places, one after the other: each law is the contract of a function that does nothing but cite
//! the laws of histories that it follows from.

ghost use Rattle.history_book.specs.Laws.{EntriesKeepTheirPlace, PlacesAreInThePool};
ghost use Rattle.pool_visits.specs.Laws.{AllVisitsStay, LivedHaveRows, VisitsAddUp};

use history_book::laws::{entries_keep_their_place, places_are_in_the_pool, states_stay};

/// What was looked at between two points was so between others that lie further apart, in a longer history.
pub fn all_visits_stay()
    ensures { AllVisitsStay }
{
    entries_keep_their_place();
    states_stay();
}

/// The looks at earlier places, and that at the next.
pub fn visits_add_up()
    ensures { VisitsAddUp }
{
    entries_keep_their_place();
    states_stay();
}

/// An entry of a place that was looked at has a row, where it was live and passed the test throughout.
pub fn lived_have_rows()
    ensures { LivedHaveRows }
{
    entries_keep_their_place();
}

/// A sweep goes on from place to place: its looks add up, and an entry keeps its place.
pub fn sweeps_go_on()
    ensures place { EntriesKeepTheirPlace }
    ensures visits { VisitsAddUp }
{
    entries_keep_their_place();
    visits_add_up();
}

/// A sweep of all places sees each entry that lives throughout: the entry has a place of the pool and keeps it, and what was
/// looked at stays and has its row.
pub fn sweeps_see_each_entry()
    ensures place { EntriesKeepTheirPlace }
    ensures pool { PlacesAreInThePool }
    ensures visits { AllVisitsStay }
    ensures rows { LivedHaveRows }
{
    all_visits_stay();
    entries_keep_their_place();
    lived_have_rows();
    places_are_in_the_pool();
}
