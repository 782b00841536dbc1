//! Laws that a command's way needs together, each bundle as one law: the contract of a function that does nothing but cite
//! them.

ghost use Rattle.history_book.specs.Laws.{ExpectationsAreExpected, ExpectationsAreFew, ExpectationsAreInOrder, FoundAreFoundAgain, GoneEntriesStayGone, GoneExpectationsStayGone, LiveRecordsAreConfirmed};
ghost use Rattle.history_book.specs.Places.{OneHoldHasItsId};

use history_book::laws::{
    expectations_are_expected, expectations_are_few, expectations_are_in_order,
    found_are_found_again, gone_entries_stay_gone, gone_expectations_stay_gone,
    live_records_are_confirmed,
};
use history_book::places::one_hold_has_its_id;

/// An entry lives once: where it is live it was confirmed, and where it is gone it stays so.
pub fn entries_live_once()
    ensures confirmed { LiveRecordsAreConfirmed }
    ensures gone { GoneEntriesStayGone }
{
    gone_entries_stay_gone();
    live_records_are_confirmed();
}

/// What is expected is so once: each expectation is that of its event, they are few and in order, and one that is gone
/// stays so.
pub fn expectations_live_once()
    ensures expected { ExpectationsAreExpected }
    ensures few { ExpectationsAreFew }
    ensures order { ExpectationsAreInOrder }
    ensures gone { GoneExpectationsStayGone }
{
    expectations_are_expected();
    expectations_are_few();
    expectations_are_in_order();
    gone_expectations_stay_gone();
}

/// An entry that was found is found again wherever it is live, and the one place that is held for it has its id.
pub fn found_entries_stay()
    ensures again { FoundAreFoundAgain }
    ensures hold { OneHoldHasItsId }
{
    found_are_found_again();
    one_hold_has_its_id();
}
