//! What the rule of the turns says of the places of all passes: each law is the contract of a function that does nothing.

ghost use Rattle.history_book.specs.PlaceUse.{PlacesAreRight};
ghost use Rattle.book_desk.specs.Turn.Laws.{HeldPlacesAreNotGiven, KeepsTurnRule, KeptLeavesAUse, LastLeavesNoUse, RecycledPlacesAreFree, TakenPlacesWereNobodys, turn_entries, turn_part_in, turn_uses};

use history_book::place_use::uses_exclude_others;

/// Between any two steps of a tracker's passes each place of its pool is free once, or owed once by one pass, or in use by
/// an entry or by references of passes; and what follows for who holds it, who is given it, and who gives it up.
pub fn places_are_right()
    ensures { PlacesAreRight KeepsTurnRule turn_entries turn_uses turn_part_in }
{
    uses_exclude_others();
}

/// A turn takes a place only where no pass holds it or owes it and no live entry has it: so a place that some pass holds
/// or owes is given to no pass.
pub fn taken_places_were_nobodys()
    ensures nobodys { TakenPlacesWereNobodys }
    ensures not_given { HeldPlacesAreNotGiven }
{}

/// A turn that gives up a reference and owes nothing for it leaves a live entry in the place or a reference of some pass
/// to it; one that owes the place from then on leaves neither.
pub fn releases_leave_what_they_say()
    ensures kept { KeptLeavesAUse }
    ensures last { LastLeavesNoUse }
{}

/// A turn that gives a place back leaves it free, with no entry in it, and held or owed by no pass.
pub fn recycled_places_are_free()
    ensures { RecycledPlacesAreFree }
{}
