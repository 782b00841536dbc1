//! The rule of the shared table.

use crate::slot::Slot;
use crate::view::View;
use atomic_table::{Seat, Shared, Table, TableRule};
use history_book::sizes::Sizes;
use std::alloc::Global;

/// What holds between any two steps.
pub struct TrackRule;

impl TableRule<Slot, View, Sizes> for TrackRule {
    ghost use Rattle.track_rule.specs.Rule.{RuleHolds, first_view};

    ghost holds = { RuleHolds };

    ghost first = { first_view };
}

/// The words and slots, with their memory.
pub type TrackTable = Table<Slot, View, Sizes, TrackRule, Global>;

/// The table as passes share it.
pub type TrackShared = Shared<Slot, View, Sizes, TrackRule>;

/// A pass's place at the table.
pub type TrackSeat = Seat<Slot, View>;
