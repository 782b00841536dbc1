//! The fields of a tracker: what all desks of it share.

ghost use Rattle.std.specs.Prelude.{◌≡◌, ◌+◌, ◌<◌, ◌≤◌, ◌^◌, [], ◌∷◌, IfOk, Some, length, slice_get};
ghost use Rattle.history_book.specs.Sizes.{AreWithinLimits};
ghost use Rattle.book_desk.specs.Fields.{IsBook};
ghost use Rattle.book_desk.specs.Internal.Book.{AreBelow, IsSomeBook};

use expect_table::table::ExpectTable;
use history_book::desk::Hold;
use history_book::record::Record;
use history_book::sizes::Sizes;
use room_list::RoomList;
use std::alloc::Global;
use tuple_core::NoMemory;

/// A list of live records and a table of what is expected, the places of the pool, and how many events led
/// to them. The events themselves stay with those who made them.
#[derive(Drop)]
pub struct Book {
    pub sizes: Sizes,
    /// How many events there were so far.
    pub events: u64,
    /// The live records, in the order of their Confirms.
    pub records: RoomList<Record>,
    /// The places that nothing uses.
    pub free: RoomList<u32>,
    /// The references of all desks.
    pub holds: RoomList<Hold>,
    /// The places of which the last reference was given up.
    pub owed: RoomList<u32>,
    /// What the live entries expect.
    pub expects: ExpectTable,
}

/// Puts each place below `entries` into the list, the first one last.
pub fn fill(free: &mut RoomList<u32>, entries: u32)
    requires empty { free.old.items ≡ [] }
    requires room { entries ≤ free.old.room }
    ensures each { AreBelow entries 0 free.new.items }
    ensures room { free.new.room ≡ free.old.room }
{
    for count in 0..entries {
        free.push(entries - 1 - count);
    }
}

impl Book {
    /// The fields of a tracker of these sizes with no entry, before its first event.
    pub fn new(alloc: Global, sizes: Sizes) -> Result<Book, NoMemory>
        requires { AreWithinLimits sizes }
        ensures right { IfOk result (IsBook []) }
        ensures sizes { IfOk result (λ b. b.sizes ≡ sizes) }
        ensures empty { IfOk result (λ b. (b.records.items ≡ []) × (b.holds.items ≡ []) × (b.owed.items ≡ [])) }
    {
        let entries = sizes.entries as usize;
        let kept = 4 * sizes.passes as usize;
        let mut free = RoomList::new(alloc, entries)?;
        fill(&mut free, sizes.entries);
        Ok(Book {
            sizes,
            events: 0,
            records: RoomList::new(alloc, entries)?,
            free,
            holds: RoomList::new(alloc, kept)?,
            owed: RoomList::new(alloc, kept)?,
            expects: ExpectTable::new(alloc, sizes.expectations)?,
        })
    }

    /// How many entries are live.
    pub fn live(&self) -> u32
        requires { IsSomeBook (λ log. Unit {0}) self.now }
        ensures { result ≡ length self.now.records.items }
    {
        self.records.len() as u32
    }

    /// Counts an event, and gives the number that it has.
    pub fn count_event(&mut self) -> u64
        requires { self.old.events < 2 ^ 40 }
        ensures number { result ≡ self.old.events }
        ensures rest { self.new ≡ record self.old { events = self.old.events + 1 } }
    {
        let number = self.events;
        self.events += 1;
        number
    }

    /// Holds the place of the record at `index` for it.
    pub fn hold_record(&mut self, index: usize) -> Record
        requires room { length self.old.holds.items < self.old.holds.room }
        requires index { index < length self.old.records.items }
        ensures subject { slice_get self.old.records.items index ≡ Some result }
        ensures holds { self.new.holds.items
            ≡ record { place = result.place; id = Some result.id } ∷ self.old.holds.items }
        ensures room { self.new.holds.room ≡ self.old.holds.room }
        ensures rest { self.new ≡ record self.old { holds = self.new.holds } }
    {
        let subject = *self.records.at(index);
        self.holds.put_first(Hold {
            place: subject.place,
            id: Some(subject.id),
        });
        subject
    }
}
