//! What lies in a slot of the table.

ghost use Rattle.std.specs.Prelude.{◌≡◌};
ghost use Rattle.track_rule.specs.Records.{record_in, slot_of_record};
ghost use Rattle.track_rule.specs.Slots.{expects_in, free_in, slot_of_expects, slot_of_free};

use crate::free_list::FreeList;
use expect_table::table::ExpectTable;
use history_book::record::Record;

/// What lies in a slot, if anything does.
#[derive(Drop)]
pub enum Slot {
    Vacant,
    Free(FreeList),
    Expects(ExpectTable),
    Subject(Record),
}

/// The slot with this free list, or with none.
#[inline(always)]
pub fn with_free(list: Option<FreeList>) -> Slot
    ensures { result ≡ slot_of_free list }
{
    match list {
        Some(list) => Slot::Free(list),
        None => Slot::Vacant,
    }
}

/// The free list that lay in a slot.
#[inline(always)]
pub fn free_of(slot: Slot) -> Option<FreeList>
    ensures { result ≡ free_in slot }
{
    match slot {
        Slot::Free(list) => Some(list),
        Slot::Vacant | Slot::Expects(_) | Slot::Subject(_) => None,
    }
}

/// The slot with this table of expectations, or with none.
#[inline(always)]
pub fn with_expects(table: Option<ExpectTable>) -> Slot
    ensures { result ≡ slot_of_expects table }
{
    match table {
        Some(table) => Slot::Expects(table),
        None => Slot::Vacant,
    }
}

/// The table of expectations that lay in a slot.
#[inline(always)]
pub fn expects_of(slot: Slot) -> Option<ExpectTable>
    ensures { result ≡ expects_in slot }
{
    match slot {
        Slot::Expects(table) => Some(table),
        Slot::Vacant | Slot::Free(_) | Slot::Subject(_) => None,
    }
}

/// The slot with this record, or with none.
#[inline(always)]
pub fn with_subject(subject: Option<Record>) -> Slot
    ensures { result ≡ slot_of_record subject }
{
    match subject {
        Some(subject) => Slot::Subject(subject),
        None => Slot::Vacant,
    }
}

/// The record that lay in a slot.
#[inline(always)]
pub fn subject_of(slot: Slot) -> Option<Record>
    ensures { result ≡ record_in slot }
{
    match slot {
        Slot::Subject(subject) => Some(subject),
        Slot::Vacant | Slot::Free(_) | Slot::Expects(_) => None,
    }
}
