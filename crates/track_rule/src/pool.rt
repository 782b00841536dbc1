//! The steps on the history word, on the free list, and on the references of places. Each is one atomic step, except those that
//! move or change what is in the slot of the free list (`free_swap`, `free_pop`, `free_push`), which are none. What a step finds
//! is added to the readings of its pass, and so is what it changes.

ghost use Rattle.std.specs.Prelude.{◌≡◌, ◌+◌, ◌<◌, ◌≤◌, ◌++◌, ◌∷◌, [], true, false, length, None, Some, IfErr, IfNone, IfSome, OnOk, is_some};
ghost use Rattle.atomic_table.specs.Table.{rest};
ghost use Rattle.track_rule.specs.declared.view.Middle.TheVariants.{Calm};
ghost use Rattle.track_rule.specs.Free.{is_among, known_free};
ghost use Rattle.track_rule.specs.Links.{is_up};
ghost use Rattle.track_rule.specs.References.{is_held};
ghost use Rattle.track_rule.specs.Sights.{sizes_of};
ghost use Rattle.track_rule.specs.Slots.{free_at, given_back, list_in, with_free};
ghost use Rattle.track_rule.specs.Steps.{CanGive, LoadsRefs, Looks, LowersRefs, MissedRefs, Opens, RaisedRefs, TakesFree, gave_free, is_second, most_keeps};

use crate::free_list::FreeList;
use crate::layout::{FREE_SLOT, FREE_WORD, HISTORY_WORD, refs_word};
use crate::pass::Pass;
use crate::plays::{GiveFree, LoadHistory, LoadRef, LowerRef, OpenRef, RaiseRef, TakeFree};
use crate::slot::{Slot, free_of, with_free};
use history_book::laws::live_records_are_confirmed;

impl<'b> Pass<'b> {
    /// Loads the history word: the number of events, and of live entries above its low 40 bits.
    #[inline(always)]
    pub fn history_load(&mut self) -> u64
        ensures looks { Looks self.old.view result self.new.view }
        ensures kept { self.new ≡ record self.old { view = self.new.view } }
    {
        live_records_are_confirmed();
        self.shared
            .load::<LoadHistory>(&mut self.seat, HISTORY_WORD)
    }

    /// Takes the turn of the free list, if no pass has it, and with it the slot of the list.
    #[inline(always)]
    pub fn free_take(&mut self) -> bool
        requires free { self.old.view.free ≡ None }
        ensures takes { TakesFree result self.old.view self.old.slots self.new.view self.new.slots }
        ensures table { self.new.table ≡ self.old.table }
    {
        self.shared
            .compare_exchange::<TakeFree>(&mut self.seat, FREE_WORD, 0, 1)
            == 0
    }

    /// Puts this list, or none, in the slot that is out, and answers what was in it.
    pub fn free_swap(&mut self, list: Option<FreeList>) -> Option<FreeList>
        requires turn { is_some self.old.view.free ≡ true }
        ensures list { result ≡ free_at self.old.slots }
        ensures kept { self.new ≡ record self.old { slots = with_free list self.old.slots } }
    {
        free_of(
            self.shared
                .exchange(&mut self.seat, FREE_SLOT, with_free(list)),
        )
    }

    /// Takes the last place off the list, which stays in the slot that is out. None is that the list has none.
    #[inline(always)]
    pub fn free_pop(&mut self) -> Option<u32>
        requires turn { is_some self.old.view.free ≡ true }
        requires list { is_some (free_at self.old.slots) ≡ true }
        ensures some { IfSome result (λ p. (list_in self.old.slots).items ≡ (list_in self.new.slots).items ++ p ∷ []) }
        ensures none { IfNone result (((list_in self.old.slots).items ≡ []) × ((list_in self.new.slots).items ≡ [])) }
        ensures room { (list_in self.new.slots).room ≡ (list_in self.old.slots).room }
        ensures kept { self.new ≡ record self.old { slots = with_free (Some (list_in self.new.slots)) self.old.slots } }
    {
        match self.seat.slot_mut(self.shared, FREE_SLOT) {
            Slot::Free(list) => list.pop(),
            Slot::Vacant | Slot::Expects(_) | Slot::Subject(_) => unreachable!(),
        }
    }

    /// Puts a place on the list, which stays in the slot that is out. Takes no memory.
    #[inline(always)]
    pub fn free_push(&mut self, place: u32)
        requires turn { is_some self.old.view.free ≡ true }
        requires list { is_some (free_at self.old.slots) ≡ true }
        requires room { length (list_in self.old.slots).items < (list_in self.old.slots).room }
        ensures items { (list_in self.new.slots).items ≡ (list_in self.old.slots).items ++ place ∷ [] }
        ensures same_room { (list_in self.new.slots).room ≡ (list_in self.old.slots).room }
        ensures kept { self.new ≡ record self.old { slots = with_free (Some (list_in self.new.slots)) self.old.slots } }
    {
        match self.seat.slot_mut(self.shared, FREE_SLOT) {
            Slot::Free(list) => list.push(place),
            Slot::Vacant | Slot::Expects(_) | Slot::Subject(_) => unreachable!(),
        }
    }

    /// Gives the turn back, and the list with it. What the pass owes and stands on the list is free again.
    #[inline(always)]
    pub fn free_give(&mut self)
        requires turn { is_some self.old.view.free ≡ true }
        requires list { is_some (free_at self.old.slots) ≡ true }
        requires whole { CanGive self.old.view (list_in self.old.slots) }
        ensures { self.new ≡ record self.old {
          view = gave_free (list_in self.old.slots).items self.old.view;
          slots = given_back self.old.slots;
        } }
    {
        self.shared.store::<GiveFree>(&mut self.seat, FREE_WORD, 0);
    }

    /// Makes the first reference to a place of the free list, under its turn.
    #[inline(always)]
    pub fn ref_open(&mut self, place: u32)
        requires place { place < (sizes_of self.old).entries }
        requires listed { is_among place (known_free self.old.view) ≡ true }
        requires few { length self.old.view.places.held + length self.old.view.places.owed ≤ 3 }
        ensures opens { Opens place self.old.view self.new.view }
        ensures kept { self.new ≡ record self.old { view = self.new.view } }
    {
        let word = refs_word(&self.sizes, place);
        self.shared.store::<OpenRef>(&mut self.seat, word, 1);
    }

    /// Loads the number of references to a place.
    #[inline(always)]
    pub fn ref_load(&mut self, place: u32) -> u64
        requires place { place < (sizes_of self.old).entries }
        ensures loads { LoadsRefs place self.old.view result self.new.view }
        ensures kept { self.new ≡ record self.old { view = self.new.view } }
    {
        let word = refs_word(&self.sizes, place);
        self.shared.load::<LoadRef>(&mut self.seat, word)
    }

    /// Makes one reference more where there are so many, and not none. Else gives the other number. A pass that has the
    /// turn of the record of a place that it took makes the table's reference, and carries it.
    #[inline(always)]
    pub fn ref_up(&mut self, place: u32, seen: u64) -> Result<(), u64>
        requires place { place < (sizes_of self.old).entries }
        requires some { 0 < seen }
        requires bound { seen < most_keeps }
        requires few { is_second place self.old.view ≡ false → length self.old.view.places.held + length self.old.view.places.owed ≤ 3 }
        ensures ok { OnOk result (RaisedRefs place seen self.old.view self.new.view) }
        ensures err { IfErr result (λ n. MissedRefs place seen self.old.view n self.new.view) }
        ensures kept { self.new ≡ record self.old { view = self.new.view } }
    {
        let word = refs_word(&self.sizes, place);
        let found = self
            .shared
            .compare_exchange::<RaiseRef>(&mut self.seat, word, seen, seen + 1);
        if found == seen { Ok(()) } else { Err(found) }
    }

    /// Gives up a reference to a place, the table's first if the pass carries it, and gives how many there were. A place
    /// without any is owed.
    #[inline(always)]
    pub fn ref_down(&mut self, place: u32) -> u64
        requires held { is_held place self.old.view.places.held ≡ true }
        requires down { is_up place self.old.view.buckets.hooks ≡ false }
        requires calm { is_among place self.old.view.places.carried ≡ true → self.old.view.commit.middle ≡ Calm }
        ensures lowers { LowersRefs place self.old.view result self.new.view }
        ensures kept { self.new ≡ record self.old { view = self.new.view } }
    {
        let word = refs_word(&self.sizes, place);
        self.shared.fetch_sub::<LowerRef>(&mut self.seat, word, 1)
    }
}
