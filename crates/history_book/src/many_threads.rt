//! What a desk of a tracker of many threads does besides.

ghost use Rattle.history_book.specs.Join.{CanJoin, Joins};
ghost use Rattle.history_book.specs.Sight.{IsKnown};
ghost use Rattle.history_book.specs.Split.{CanSplit, Splits};

use crate::desk::Desk;
use crate::report::Notes;

/// A desk that hands shares of its passes over to a further desk of its tracker, for another thread, and takes that in again
/// when the thread has ended. A run of many threads needs no more of a tracker.
pub trait SharedDesk: Desk + Drop {
    /// Hands over so many of its shares to a further desk, for a thread of this number.
    fn split(&mut self, worker: u32, shares: u32) -> Self
        requires { CanSplit shares (Self.sight self.old) }
        ensures splits { Splits shares (Self.sight self.old) (Self.sight self.new) (Self.sight result) }
        ensures knows { IsKnown (Self.sight self.new) }
        ensures further_knows { IsKnown (Self.sight result) };

    /// Takes in another desk of its tracker, and gives its own events.
    fn join(&mut self, other: Self) -> Notes
        requires { CanJoin (Self.sight self.old) (Self.sight other) }
        ensures joins { Joins (Self.sight self.old) (Self.sight other) (Self.sight self.new) result.items }
        ensures knows { IsKnown (Self.sight self.new) };
}
