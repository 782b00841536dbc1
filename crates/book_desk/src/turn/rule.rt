//! The rule of the shared book.

use crate::book::Book;
use crate::turn::view::TurnView;
use atomic_table::{Seat, Shared, Table, TableRule};
use history_book::sizes::Sizes;
use std::alloc::Global;

/// What holds between any two steps.
pub struct TurnRule;

impl TableRule<Option<Book>, TurnView, Sizes> for TurnRule {
    ghost use Rattle.book_desk.specs.Turn.Rule.{Holds, first_view};

    ghost holds = { Holds };

    ghost first = { first_view };
}

/// One word, which says whether a pass has the turn, how many events there were and how many entries are live; and one
/// slot, in which the book is while no pass has the turn.
pub type TurnTable = Table<Option<Book>, TurnView, Sizes, TurnRule, Global>;

/// The table as passes share it.
pub type TurnShared = Shared<Option<Book>, TurnView, Sizes, TurnRule>;

/// A pass's place at the table.
pub type TurnSeat = Seat<Option<Book>, TurnView>;
