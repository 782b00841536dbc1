//! The places of the pool that are free.

ghost use Rattle.std.specs.Prelude.{◌≡◌, ◌+◌, ◌<◌, ◌≤◌, [], ◌∷◌, ◌++◌, Some, None, length, slice_get, IfOk, IfNone, IfSome};

use std::alloc::Global;
use std::marker::Model;
use tuple_core::NoMemory;

/// A list of places with room for all of them. Contracts see it as its places and its room.
#[derive(Drop)]
pub struct FreeList {
    places: Vec<u32>,
}

impl Model for FreeList {
    ghost use Rattle.std.specs.Prelude.{ℕ, ◌≤◌};
    ghost use Rattle.std.specs.Vec.{vec_capacity, vec_len};
    ghost use Rattle.room_list.specs.Roomed.{Roomed};

    ghost Value = { Roomed ℕ };

    ghost view = { λ l. record { items = l.places.items; room = vec_capacity l.places } };

    ghost invariant = { λ l. vec_len l.places ≤ vec_capacity l.places };
}

impl FreeList {
    /// An empty list with room for so many places.
    pub fn new(alloc: Global, room: usize) -> Result<FreeList, NoMemory>
        ensures empty { IfOk result (λ l. l.items ≡ []) }
        ensures room { IfOk result (λ l. room ≤ l.room) }
    {
        let places = Vec::with_capacity(alloc, room)?;
        Ok(FreeList { places })
    }

    /// Appends a place. Takes no memory.
    #[inline(always)]
    pub fn push(&mut self, place: u32)
        requires { length self.old.items < self.old.room }
        ensures items { self.new.items ≡ self.old.items ++ place ∷ [] }
        ensures room { self.new.room ≡ self.old.room }
    {
        self.places.push_reserved(place);
    }

    /// Takes out the last place, if there is one.
    #[inline(always)]
    pub fn pop(&mut self) -> Option<u32>
        ensures some { IfSome result (λ p. self.old.items ≡ self.new.items ++ p ∷ []) }
        ensures none { IfNone result ((self.old.items ≡ []) × (self.new.items ≡ [])) }
        ensures room { self.new.room ≡ self.old.room }
    {
        self.places.pop()
    }

    /// The number of places.
    pub fn len(&self) -> usize
        ensures exact { result ≡ length self.now.items }
        ensures fits { result ≤ self.now.room }
    {
        self.places.len()
    }

    /// The place at `index`.
    pub fn at(&self, index: usize) -> u32
        requires { index < length self.now.items }
        ensures { slice_get self.now.items index ≡ Some result }
    {
        self.places[index]
    }
}
