//! The commands of a script, and what one of its lines says.

use history_book::filter::Filter;
use room_list::RoomList;
use tuple_core::Tuple;

/// A command.
#[derive(Clone, Copy)]
pub enum Command {
    /// Lists the entries that the filter selects.
    List(Filter),
    /// Lists the expectations.
    ListExpect,
    /// Looks up what is live under this tuple, in either direction.
    Get(Tuple),
    /// Deletes the entries that the filter selects.
    Delete(Filter),
    /// Deletes all entries.
    Flush,
    /// Counts the entries.
    Count,
    /// Deletes what has expired at this moment, in microseconds.
    Expire(u64),
}

/// Commands, in their order.
pub type Commands = RoomList<Command>;

/// What a line says.
#[derive(Clone, Copy)]
pub enum LineMeaning {
    /// Nothing: the line is skipped.
    Nothing,
    /// A command.
    Command(Command),
    /// `wait`, which divides the script.
    Wait,
}
