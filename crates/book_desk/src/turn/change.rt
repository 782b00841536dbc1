//! What a turn leaves to its pass.

ghost use Rattle.std.specs.Prelude.{◌≡◌};
ghost use Rattle.book_desk.specs.Turn.Change.{confirmed_change, found_change, held_change, released_change, taken_change};

use history_book::desk::Hold;
use history_book::event::Event;
use history_book::outcome::{
    ConfirmOutcome, FindOutcome, HoldOutcome, ReleaseOutcome, TakeOutcome,
};

/// How a turn changes the references that its pass keeps, and the places that it owes.
#[derive(Clone, Copy)]
pub enum PlaceChange {
    Same,
    /// One reference more.
    Holds(Hold),
    /// The references to a place are to this entry now.
    Names { place: u32, id: u64 },
    /// One reference to the place less.
    Releases { place: u32 },
    /// One reference to the place less, which was the last, so that the place is owed.
    Owes { place: u32 },
    /// The place is not owed any more.
    Pays { place: u32 },
}

/// What a turn leaves to its pass: the change of its places, and the event that it made, if it made one.
#[derive(Clone, Copy)]
pub struct Ending {
    pub places: PlaceChange,
    pub made: Option<Event>,
}

/// How the answer to a look changes them.
pub fn found_change(outcome: &FindOutcome) -> PlaceChange
    ensures { result ≡ found_change outcome.now }
{
    match *outcome {
        FindOutcome::Found { place, id, .. } => PlaceChange::Holds(Hold {
            place,
            id: Some(id),
        }),
        FindOutcome::Absent { .. } => PlaceChange::Same,
    }
}

/// How a place that was taken, or was not, changes them.
pub fn taken_change(outcome: &TakeOutcome) -> PlaceChange
    ensures { result ≡ taken_change outcome.now }
{
    match *outcome {
        TakeOutcome::Taken { place } => PlaceChange::Holds(Hold { place, id: None }),
        TakeOutcome::Full { .. } => PlaceChange::Same,
    }
}

/// How the answer to a new flow in this place changes them.
pub fn confirmed_change(place: u32, outcome: &ConfirmOutcome) -> PlaceChange
    ensures { result ≡ confirmed_change place outcome.now }
{
    match *outcome {
        ConfirmOutcome::Confirmed { id } => PlaceChange::Names { place, id },
        ConfirmOutcome::Clash { .. } => PlaceChange::Same,
    }
}

/// How holding this place changes them.
pub fn held_change(place: u32, outcome: &HoldOutcome) -> PlaceChange
    ensures { result ≡ held_change place outcome.now }
{
    match *outcome {
        HoldOutcome::Held { id, .. } => PlaceChange::Holds(Hold {
            place,
            id: Some(id),
        }),
        HoldOutcome::Empty { .. } => PlaceChange::Same,
    }
}

/// How giving up a reference to this place changes them.
pub fn released_change(place: u32, outcome: &ReleaseOutcome) -> PlaceChange
    ensures { result ≡ released_change place outcome.now }
{
    match *outcome {
        ReleaseOutcome::Kept => PlaceChange::Releases { place },
        ReleaseOutcome::Last => PlaceChange::Owes { place },
    }
}
