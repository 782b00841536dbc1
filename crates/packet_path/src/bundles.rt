//! Laws that a packet's way needs together, each bundle as one law: the contract of a function that does nothing but cite them.

ghost use Rattle.history_book.specs.Laws.{EventsMayHappen, FoundAreFoundAgain, FoundKeepTheirProtocol, LateEntriesAreNew, RecordsAreOfOneFlow, UnusedPlacesAreRoom};
ghost use Rattle.history_book.specs.Places.{OneHoldHasItsId};
ghost use Rattle.history_book.specs.StateLaws.{AbsentTuplesAreNobodys, FreeIsAbsent, LiveRecordsHaveTheProtocol};
ghost use Rattle.packet_path.specs.Laws.{SameProtocolIsEquality};
ghost use Rattle.proto_rules.specs.Laws.{EntriesBeginFresh};

use crate::laws::same_protocol_is_equality;
use history_book::laws::{
    absent_tuples_are_nobodys, events_may_happen, found_are_found_again, found_keep_their_protocol,
    free_is_absent, late_entries_are_new, live_records_have_the_protocol, records_are_of_one_flow,
    unused_places_are_room,
};
use history_book::places::one_hold_has_its_id;
use proto_rules::laws::entries_begin_fresh;

/// An entry that a packet found and for which its place is held is found again wherever it is live, and is of the packet's
/// protocol.
pub fn met_entries_stay()
    ensures again { FoundAreFoundAgain }
    ensures keep { FoundKeepTheirProtocol }
    ensures live { LiveRecordsHaveTheProtocol }
    ensures hold { OneHoldHasItsId }
    ensures flow { RecordsAreOfOneFlow }
    ensures same { SameProtocolIsEquality }
{
    found_are_found_again();
    found_keep_their_protocol();
    live_records_have_the_protocol();
    one_hold_has_its_id();
    records_are_of_one_flow();
    same_protocol_is_equality();
}

/// A flow begins once: what is absent is nobody's, free and absent are one, an entry that is met later was confirmed since, an
/// unused place is room, an event may happen where its history is legal, and an entry begins fresh, with its packet's protocol.
pub fn flows_begin_once()
    ensures absent { AbsentTuplesAreNobodys }
    ensures fresh { EntriesBeginFresh }
    ensures may { EventsMayHappen }
    ensures free { FreeIsAbsent }
    ensures late { LateEntriesAreNew }
    ensures same { SameProtocolIsEquality }
    ensures room { UnusedPlacesAreRoom }
{
    absent_tuples_are_nobodys();
    entries_begin_fresh();
    events_may_happen();
    free_is_absent();
    late_entries_are_new();
    same_protocol_is_equality();
    unused_places_are_room();
}
