//! How a table begins, and how it ends.

ghost use Rattle.std.specs.Prelude.{◌≡◌, ℕ, ◌+◌, ◌%◌, ◌<◌, ◌≤◌, ◌==◌, ◌&&◌, nat_lt, [], length, IfOk, replicate};
ghost use Rattle.std.specs.Mem.Slots.{IsFull};
ghost use Rattle.history_book.specs.Sizes.{AreWithinLimits};
ghost use Rattle.track_rule.specs.Opening.{IsWhole, before_column, column_length, first_slots};
ghost use Rattle.track_rule.specs.Shares.{IsLast};
ghost use Rattle.track_rule.specs.Sights.{IsFirst, IsPassOf, sizes_of};
ghost use Rattle.track_rule.specs.Sums.{bit, times};

use crate::free_list::FreeList;
use crate::layout::{HISTORY_WORD, word_count};
use crate::pass::{Board, Pass, Stub};
use crate::slot::Slot;
use atomic_table::{Closed, Table};
use expect_table::table::ExpectTable;
use history_book::sizes::Sizes;
use std::alloc::Global;
use tuple_core::NoMemory;

/// Places that are taken one after another lie so far apart that their words share no line of a cache.
const APART: u32 = 16;

/// Appends every place that has this remainder by `APART`.
fn fill_column(free: &mut FreeList, entries: u32, column: u32)
    requires entries { entries ≤ 65536 }
    requires column { column < 16 }
    requires room { length free.old.items + column_length entries column ≤ free.old.room }
    ensures times { (p : ℕ) → times p free.new.items ≡ times p free.old.items + bit (p % 16 == column && nat_lt p entries) }
    ensures long { length free.new.items ≡ length free.old.items + column_length entries column }
    ensures room { free.new.room ≡ free.old.room }
{
    let mut place = column;
    'column: while place < entries {
        free.push(place);
        place += APART;
    }
}

/// The list of all places.
fn whole_list(alloc: Global, entries: u32) -> Result<FreeList, NoMemory>
    requires { entries ≤ 65536 }
    ensures { IfOk result (IsWhole entries) }
{
    let mut free = FreeList::new(alloc, entries as usize)?;
    'columns: for column in 0..APART {
        fill_column(&mut free, entries, column);
    }
    Ok(free)
}

/// The slots before the first step.
fn slots_with(
    alloc: Global,
    entries: u32,
    free: FreeList,
    table: ExpectTable,
) -> Result<Vec<Slot>, NoMemory>
    requires { entries ≤ 65536 }
    ensures { IfOk result (λ slots. slots.items ≡ first_slots entries free table) }
{
    let mut slots = Vec::with_capacity(alloc, 2 + entries as usize)?;
    slots.push_reserved(Slot::Free(free));
    slots.push_reserved(Slot::Expects(table));
    'places: for _place in 0..entries {
        slots.push_reserved(Slot::Vacant);
    }
    Ok(slots)
}

impl<'b> Pass<'b> {
    /// A table with no entry, and its first pass, which has all shares of its passes. It takes all memory of the table.
    pub fn first(alloc: Global, sizes: Sizes) -> Result<(Board, Stub), NoMemory>
        requires { AreWithinLimits sizes }
        ensures { IfOk result (λ made. IsFirst sizes made.0 made.1) }
    {
        let free = whole_list(alloc, sizes.entries)?;
        let expects = ExpectTable::new(alloc, sizes.expectations)?;
        let slots = slots_with(alloc, sizes.entries, free, expects)?;
        let words = vec![in alloc; 0; word_count(&sizes)]?;
        let Ok((table, seat)) = Table::new(alloc, words.as_slice(), slots, &sizes) else {
            return Err(NoMemory);
        };
        Ok((Board { table }, Stub { seat, sizes }))
    }
}

/// Gives back what is in the slots, and the memory.
fn free_all(mut closed: Closed<Slot, Global>)
    requires { IsFull closed.slots }
{
    let mut slot = 0;
    'slots: while slot < closed.slot_count() {
        drop(closed.take(slot));
        slot += 1;
    }
    closed.free();
}

impl Board {
    /// Ends the table, once all other passes were joined to this one, and gives the last history word.
    pub fn close(self, stub: Stub) -> u64
        requires one { IsPassOf self stub }
        requires all { stub.view.passes.shares + stub.view.passes.returned ≡ (sizes_of stub).passes }
        ensures { IsLast stub.view result }
    {
        let Board { table } = self;
        let Stub { seat, .. } = stub;
        let closed = table.close_with(seat);
        let word = closed.word(HISTORY_WORD);
        free_all(closed);
        word
    }
}
