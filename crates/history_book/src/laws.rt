//! What holds of every legal history, and of states: each law is the contract of a function that does
//! nothing but cite the laws of protocols that it follows from.

ghost use Rattle.history_book.specs.Laws.{LegalHistoriesGoOn, StatesFollow, FirstEventsStay};
ghost use Rattle.history_book.specs.Laws.{EventsMayHappen, EventsStay, StatesStay, RecordsAreApart};
ghost use Rattle.history_book.specs.Laws.{LiveRecordsAreConfirmed, DestroyedIdsStayDead};
ghost use Rattle.history_book.specs.Laws.{RecordsAreOfOneFlow};
ghost use Rattle.history_book.specs.Laws.{EntriesKeepTheirProtocol, FoundAreFoundAgain};
ghost use Rattle.history_book.specs.Laws.{ExpectationsAreExpected, FoundKeepTheirProtocol, GoneEntriesStayGone};
ghost use Rattle.history_book.specs.Laws.{GoneExpectationsStayGone, LateEntriesAreNew, PlacesAreInThePool};
ghost use Rattle.history_book.specs.Laws.{EntriesKeepTheirPlace, ExpectationsAreFew, PlacesNameEntries};
ghost use Rattle.history_book.specs.Laws.{UnusedPlacesAreRoom};
ghost use Rattle.history_book.specs.Laws.{EntriesKeepTheirHelper, EntriesKeepTheirZone, ExpectationsAreInOrder};
ghost use Rattle.history_book.specs.Laws.{MastersHelpInTheirZone};
ghost use Rattle.history_book.specs.StateLaws.{SameTupleIsEquality};
ghost use Rattle.history_book.specs.StateLaws.{AbsentTuplesAreNobodys, FreeIsAbsent};
ghost use Rattle.history_book.specs.StateLaws.{IdsNameRecords, TouchesChangeOne};
ghost use Rattle.history_book.specs.StateLaws.{DestroysTakeOne};
ghost use Rattle.history_book.specs.StateLaws.{LiveRecordsHaveTheProtocol, UnusedPlacesAreNobodys};

use expect_table::laws::{adding_keeps_order, removing_keeps_order};
use proto_rules::laws::{accepted_go_on, same_part_is_equality};

/// A legal history goes on with any event that may happen in the state that it leaves.
pub fn legal_histories_go_on()
    ensures { LegalHistoriesGoOn }
{}

/// Each event of a legal history may happen in the state that those before it leave.
pub fn events_may_happen()
    ensures { EventsMayHappen }
{}

/// The state after one event more follows from the state before.
pub fn states_follow()
    ensures { StatesFollow }
{}

/// The first events of a legal history are a legal history, and have their states whatever comes later.
pub fn first_events_stay()
    ensures { FirstEventsStay }
{}

/// The state at a point of a history stays as the history goes on.
pub fn states_stay()
    ensures { StatesStay }
{}

/// An event of a history keeps its number as the history goes on.
pub fn events_stay()
    ensures { EventsStay }
{}

/// In every state of a legal history no two records share a tuple in either direction, a place or an
/// id.
pub fn records_are_apart()
    ensures { RecordsAreApart }
{}

/// A live record has the tuples, the place, the helper and the master of the Confirm at its id, which
/// is an event before the point.
pub fn live_records_are_confirmed()
    ensures { LiveRecordsAreConfirmed }
{}

/// An id that was destroyed is never live again.
pub fn destroyed_ids_stay_dead()
    ensures { DestroyedIdsStayDead }
{}

/// In every state of a legal history both tuples of each record are valid, of one zone, and of the protocol
/// of its part.
pub fn records_are_of_one_flow()
    ensures { RecordsAreOfOneFlow }
{
    accepted_go_on();
    same_part_is_equality();
}

/// What is live under a tuple at one point and is live at another is live under the tuple there, in the
/// same direction.
pub fn found_are_found_again()
    ensures { FoundAreFoundAgain }
{}

/// What is live under a tuple at a point, where nothing was at an earlier one, was confirmed from that
/// one on.
pub fn late_entries_are_new()
    ensures { LateEntriesAreNew }
{}

/// A live record is of the protocol of the Confirm that made it.
pub fn entries_keep_their_protocol()
    ensures { EntriesKeepTheirProtocol }
{
    accepted_go_on();
    same_part_is_equality();
}

/// What is live under a tuple is of the protocol of the Confirm that made it.
pub fn found_keep_their_protocol()
    ensures { FoundKeepTheirProtocol }
{
    accepted_go_on();
    same_part_is_equality();
}

/// In every state of a legal history the master of each expectation is live, has the helper, and is in the
/// expectation's zone.
pub fn masters_help_in_their_zone()
    ensures { MastersHelpInTheirZone }
{}

/// In every state of a legal history the ids of the expectations rise, no master has two, and each was an
/// event before the point.
pub fn expectations_are_in_order()
    ensures { ExpectationsAreInOrder }
{
    adding_keeps_order();
    removing_keeps_order();
}

/// A live record has the helper exactly where the Confirm that made it gave it the helper, and is in the zone in which its entry
/// was confirmed.
pub fn entries_keep_helper_and_zone()
    ensures helper { EntriesKeepTheirHelper }
    ensures zone { EntriesKeepTheirZone }
{}

/// An entry that is gone stays gone.
pub fn gone_entries_stay_gone()
    ensures { GoneEntriesStayGone }
{}

/// In every state of a legal history each record has a place of the pool.
pub fn places_are_in_the_pool()
    ensures { PlacesAreInThePool }
{}

/// In every state of a legal history each expectation is that of the Expect at its id.
pub fn expectations_are_expected()
    ensures { ExpectationsAreExpected }
{}

/// An expectation that is gone stays gone.
pub fn gone_expectations_stay_gone()
    ensures { GoneExpectationsStayGone }
{}

/// A live record has the place in which its entry was confirmed.
pub fn entries_keep_their_place()
    ensures { EntriesKeepTheirPlace }
{}

/// Two live records of one place are of one entry.
pub fn places_name_entries()
    ensures { PlacesNameEntries }
{}

/// The test of two tuples says exactly whether they are equal.
pub fn same_tuple_is_equality()
    ensures { SameTupleIsEquality }
{}

/// A tuple is free exactly where nothing is live under it.
pub fn free_is_absent()
    ensures { FreeIsAbsent }
{}

/// Where nothing is live under a tuple, what is live under another has it not.
pub fn absent_tuples_are_nobodys()
    ensures { AbsentTuplesAreNobodys }
{}

/// Where the records of a state are apart, each is the one that is found by its id.
pub fn ids_name_records()
    ensures { IdsNameRecords }
{}

/// A Touch gives one record its new part, and leaves each other as it is.
pub fn touches_change_one()
    ensures { TouchesChangeOne }
{}

/// A Destroy takes one record out, and leaves each other as it is.
pub fn destroys_take_one()
    ensures { DestroysTakeOne }
{}

/// Where each record is of one flow, what is live under a tuple is of that tuple's.
pub fn live_records_have_the_protocol()
    ensures { LiveRecordsHaveTheProtocol }
{}

/// No live record has an unused place.
pub fn unused_places_are_nobodys()
    ensures { UnusedPlacesAreNobodys }
{}

/// Where a place of the pool is no entry's, fewer entries are live than there are places.
pub fn unused_places_are_room()
    ensures { UnusedPlacesAreRoom }
{}

/// In every state of a legal history no more is expected than there is room for.
pub fn expectations_are_few()
    ensures { ExpectationsAreFew }
{}
