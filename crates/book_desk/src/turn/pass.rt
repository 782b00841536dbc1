//! A pass of the tracker.

ghost use Rattle.std.specs.Prelude.{◌≡◌, ◌+◌, ◌<◌, ◌≤◌, ◌^◌, [], ◌∷◌, None, OnSome, length};
ghost use Rattle.book_desk.specs.Internal.Book.{spare_after};
ghost use Rattle.book_desk.specs.Made.{noted};
ghost use Rattle.book_desk.specs.Turn.Rule.{IsTable};
ghost use Rattle.book_desk.specs.Turn.Steps.{CanEnd, ended};

use crate::book::Book;
use crate::noting::note;
use crate::turn::change::{Ending, PlaceChange};
use crate::turn::rule::{TurnSeat, TurnShared};
use crate::turn::steps;
use history_book::event::Event;
use history_book::report::Notes;
use history_book::sizes::Sizes;
use std::alloc::Global;

/// A pass's place at the shared book, its own events, and what it counts.
#[derive(Drop)]
pub struct TurnPass {
    pub alloc: Global,
    pub sizes: Sizes,
    pub seat: TurnSeat,
    pub notes: Notes,
    /// For how many further events there is room.
    pub spare: u64,
    /// How many times it took a place.
    pub taken: u64,
}

impl TurnPass {
    /// Puts the book back and ends the turn, after a call that changed the pass's places so, and notes the event that the
    /// call made, if it made one: the last one of the book's.
    pub fn put_back(
        &mut self,
        shared: &TurnShared,
        book: Book,
        places: PlaceChange,
        made: Option<Event>,
    )
        requires table { IsTable shared.now.table_id }
        requires seat { self.old.seat.table_id ≡ shared.now.table_id }
        requires out { self.old.seat.me.1 ≡ (0, None) ∷ [] }
        requires ends { CanEnd (record { places = places; made = made }) self.old.seat.me.0 book }
        requires few { book.events < 2 ^ 40 }
        requires some { OnSome made (1 ≤ self.old.spare) }
        requires room { length self.old.notes.items + self.old.spare ≤ self.old.notes.room }
        ensures table { self.new.seat.table_id ≡ self.old.seat.table_id }
        ensures ended { self.new.seat.me ≡ (ended (record { places = places; made = made }) self.old.seat.me.0, []) }
        ensures items { self.new.notes.items
            ≡ noted self.old.notes.items (length self.old.seat.me.0.front) made }
        ensures room { self.new.notes.room ≡ self.old.notes.room }
        ensures spare { self.new.spare ≡ spare_after self.old.spare made }
        ensures sizes { self.new.sizes ≡ self.old.sizes }
        ensures taken { self.new.taken ≡ self.old.taken }
    {
        let events = book.events;
        steps::end_turn(shared, &mut self.seat, book, Ending { places, made });
        if made.is_some() {
            note(&mut self.notes, &mut self.spare, events - 1, made);
        }
    }
}
