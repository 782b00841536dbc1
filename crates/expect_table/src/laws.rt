//! What keeps a list of expectations in order: each law is the contract of a function that does nothing.

ghost use Rattle.expect_table.specs.Laws.{AddingKeepsOrder, RemovingKeepsOrder};

/// A list in order stays so with one more that is newer than all of it.
pub fn adding_keeps_order()
    ensures { AddingKeepsOrder }
{}

/// A list in order stays so without any of its expectations.
pub fn removing_keeps_order()
    ensures { RemovingKeepsOrder }
{}
