//! The events of a desk, and how many places it took.

ghost use Rattle.std.specs.Prelude.{◌≡◌, ◌+◌, ◌≤◌, length};
ghost use Rattle.book_desk.specs.Internal.Book.{spare_before, taken_then};
ghost use Rattle.book_desk.specs.Made.{noted};

use history_book::event::{Event, Note};
use history_book::outcome::TakeOutcome;
use history_book::report::Notes;

/// Notes an event, if there is one, under its number. There is room for `spare` of them.
pub fn note(notes: &mut Notes, spare: &mut u64, number: u64, event: Option<Event>)
    requires some { 1 ≤ spare.old }
    requires room { length notes.old.items + spare.old ≤ notes.old.room }
    ensures items { notes.new.items ≡ noted notes.old.items number event }
    ensures room { notes.new.room ≡ notes.old.room }
    ensures spare { spare.old ≡ spare_before spare.new event }
{
    if let Some(event) = event {
        notes.push(Note { number, event });
        *spare -= 1;
    }
}

/// How many times a place was taken after this answer.
pub fn count_taken(taken: u64, outcome: &TakeOutcome) -> u64
    ensures { result ≡ taken_then outcome.now taken }
{
    match *outcome {
        TakeOutcome::Taken { .. } => taken.saturating_add(1),
        TakeOutcome::Full { .. } => taken,
    }
}
