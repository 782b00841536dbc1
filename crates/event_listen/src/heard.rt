//! What a listener has heard in all.

ghost use Rattle.std.specs.Prelude.{◌≡◌, ◌<◌, Some, length, slice_get};

use history_book::report::Notes;
use room_list::RoomList;
use std::marker::Model;

/// The notes of each sender, whole and in its order. Contracts see a list of lists of notes.
#[derive(Drop)]
pub struct Heard {
    pub(crate) lists: RoomList<Notes>,
}

impl Model for Heard {
    ghost use Rattle.std.specs.Prelude.{List, map};
    ghost use Rattle.history_book.specs.declared.event.Note.{Note};

    ghost Value = { List (List Note) };

    ghost view = { λ h. map (λ n. n.items) h.lists.items };
}

impl Heard {
    /// The number of senders.
    pub fn len(&self) -> usize
        ensures { result ≡ length self.now }
    {
        self.lists.len()
    }

    /// The notes of a sender.
    pub fn at(&self, sender: usize) -> &Notes
        requires { sender < length self.now }
        ensures { slice_get self.now sender ≡ Some result.now.items }
    {
        self.lists.at(sender)
    }
}
