//! No zone depends on another: what holds of the parts of a zone in the states of a legal history, and of its
//! events. Each law is the contract of a function that does nothing but cite the laws that it follows from.

ghost use Rattle.history_book.specs.ZoneLaws.{EventsHaveRoom, EventsHaveZones, OtherZonesStay, ZonedDeletesStayInTheirZone};
ghost use Rattle.history_book.specs.ZoneLaws.{ZonesAreApart, ZonesAreFoundAlone, ZonesCountTheirEvents};
ghost use Rattle.history_book.specs.ZoneLaws.{ZonesHaveHistories, ZonesStandAlone};

use crate::laws::{
    events_may_happen, expectations_are_in_order, legal_histories_go_on,
    masters_help_in_their_zone, records_are_apart, records_are_of_one_flow,
};

/// Each event that may happen has a zone.
pub fn events_have_zones()
    ensures { EventsHaveZones }
{}

/// There is room for each event that may happen.
#[tactic(auto, using(crate::proofs::ZoneRuns::may_room))]
pub fn events_have_room()
    ensures { EventsHaveRoom }
{}

/// In a state of a legal history, an event leaves the part of each zone but its own as it is.
pub fn other_zones_stay()
    ensures { OtherZonesStay }
{
    records_are_apart();
    records_are_of_one_flow();
    expectations_are_in_order();
    masters_help_in_their_zone();
}

/// Whether an event may happen, and what it makes of its zone, depends on the part of its zone alone, where
/// there is room for it.
pub fn zones_are_apart()
    ensures { ZonesAreApart }
{
    records_are_apart();
    records_are_of_one_flow();
    expectations_are_in_order();
    masters_help_in_their_zone();
}

/// The part of a zone is what the zone's own events leave, as if there were no others.
pub fn zones_stand_alone()
    ensures { ZonesStandAlone }
{
    records_are_apart();
    records_are_of_one_flow();
    expectations_are_in_order();
    masters_help_in_their_zone();
    events_may_happen();
}

/// The events of a zone are all that are of it, each at the index that is its number among them.
pub fn zones_count_their_events()
    ensures { ZonesCountTheirEvents }
{}

/// The events of a zone, counted from 0, are a legal history of their own.
pub fn zones_have_histories()
    ensures { ZonesHaveHistories }
{
    records_are_apart();
    records_are_of_one_flow();
    expectations_are_in_order();
    masters_help_in_their_zone();
    events_may_happen();
    legal_histories_go_on();
}

/// What is found, free or expected under a tuple depends on the part of its zone alone.
pub fn zones_are_found_alone()
    ensures { ZonesAreFoundAlone }
{
    records_are_of_one_flow();
}

/// A command that deletes in a zone destroys there alone.
pub fn zoned_deletes_stay_in_their_zone()
    ensures { ZonedDeletesStayInTheirZone }
{}
