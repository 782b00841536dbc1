//! What an event does to the fields where a connection is expected, is claimed, or is expected no longer.

ghost use Rattle.std.specs.Prelude.{◌≡◌, ◌<◌, ◌^◌, All};
ghost use Rattle.expect_table.specs.Expectations.{add_outcome, with_one, without_id};
ghost use Rattle.expect_table.specs.declared.table.AddOutcome.TheVariants.{Added};
ghost use Rattle.book_desk.specs.Internal.Book.{Adds};

use crate::book::Book;
use expect_table::expectation::Expectation;

impl Book {
    /// Expects a connection, which the table has answered to be added in place of some older one or of none.
    pub fn promise(&mut self, e: Expectation, replaced: Option<u64>, moment: u64)
        requires few { self.old.events < 2 ^ 40 }
        requires newest { All (λ o. o.id < e.id) self.old.expects.items }
        requires outcome { add_outcome self.old.expects.room self.old.expects.items e moment ≡ Added replaced }
        ensures adds { Adds self.old self.new }
        ensures records { self.new.records ≡ self.old.records }
        ensures holds { self.new.holds ≡ self.old.holds }
        ensures expects { self.new.expects.items ≡ with_one self.old.expects.items e }
    {
        let _ = self.count_event();
        let _ = self.expects.add(e, moment);
    }

    /// Ends the expectation of this id.
    pub fn end_expectation(&mut self, id: u64)
        requires few { self.old.events < 2 ^ 40 }
        ensures adds { Adds self.old self.new }
        ensures records { self.new.records ≡ self.old.records }
        ensures holds { self.new.holds ≡ self.old.holds }
        ensures expects { self.new.expects.items ≡ without_id id self.old.expects.items }
    {
        let _ = self.count_event();
        let _ = self.expects.remove(id);
    }
}
