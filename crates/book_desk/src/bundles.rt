//! Laws that the calls need together, each bundle as one law: the contract of a function that does nothing but cite them.

ghost use Rattle.history_book.specs.Laws.{LegalHistoriesGoOn, RecordsAreApart, StatesFollow};
ghost use Rattle.history_book.specs.StateLaws.{IdsNameRecords};

use history_book::laws::{
    ids_name_records, legal_histories_go_on, records_are_apart, states_follow,
};

/// A legal history goes on with any event that may happen, and its state follows from the one before.
pub fn histories_go_on()
    ensures legal { LegalHistoriesGoOn }
    ensures states { StatesFollow }
{
    legal_histories_go_on();
    states_follow();
}

/// In every state of a legal history the records are apart, and each is the one that is found by its id.
pub fn records_are_named()
    ensures apart { RecordsAreApart }
    ensures ids { IdsNameRecords }
{
    records_are_apart();
    ids_name_records();
}
