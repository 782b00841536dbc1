//! A list with room: pushes within the room take no memory.
#![tactic(auto)]

ghost use Rattle.std.specs.Prelude.{◌≡◌, ◌==◌, ◌+◌, ◌<◌, ◌≤◌, [], ◌∷◌, ◌++◌, length, remove, IfOk, OnOk, OnErr, slice_get, slice_set, IsPermutation};
ghost use Rattle.std.specs.List.Sorted.{IsSortedByKeyClosure};

use std::alloc::Global;
use std::marker::Model;
use tuple_core::NoMemory;

/// A list that contracts see as its items and the number of items for which it has room. Pushing
/// needs room and takes no memory; `new` and `reserve` make room.
#[derive(Drop)]
pub struct RoomList<T> {
    items: Vec<T>,
}

impl<T> Model for RoomList<T> {
    ghost use Rattle.std.specs.Vec.{vec_capacity, vec_len};
    ghost use Rattle.std.specs.Prelude.{◌≤◌};
    ghost use Rattle.room_list.specs.Roomed.{Roomed};

    ghost Value = { Roomed T };

    ghost view = { λ l. record { items = l.items.items; room = vec_capacity l.items } };

    ghost invariant = { λ l. vec_len l.items ≤ vec_capacity l.items };
}

/// A list of bytes.
pub type Bytes = RoomList<u8>;

impl<T> RoomList<T> {
    /// An empty list, which takes no memory.
    pub fn empty(alloc: Global) -> Self
        ensures { result.items ≡ [] }
    {
        RoomList {
            items: Vec::new(alloc),
        }
    }

    /// An empty list that would take its memory where this one does. It takes none yet.
    pub fn empty_like(&self) -> Self
        ensures { result.items ≡ [] }
    {
        RoomList {
            items: Vec::new(*self.items.allocator()),
        }
    }

    /// An empty list with room for at least `room` items.
    pub fn new(alloc: Global, room: usize) -> Result<Self, NoMemory>
        ensures empty { IfOk result (λ l. l.items ≡ []) }
        ensures room { IfOk result (λ l. room ≤ l.room) }
    {
        let items = Vec::with_capacity(alloc, room)?;
        Ok(RoomList { items })
    }

    /// Makes room for at least `more` further items.
    #[inline(always)]
    pub fn reserve(&mut self, more: usize) -> Result<(), NoMemory>
        ensures items { self.new.items ≡ self.old.items }
        ensures room { OnOk result (length self.old.items + more ≤ self.new.room) }
        ensures kept { self.old.room ≤ self.new.room }
        ensures err { OnErr result (self.new.room ≡ self.old.room) }
    {
        self.items.try_reserve(more)?;
        Ok(())
    }

    /// Gives up the room that no item needs, where there is memory for a smaller block.
    pub fn fit(&mut self)
        ensures items { self.new.items ≡ self.old.items }
        ensures room { self.new.room ≤ self.old.room }
    {
        self.items.shrink_to_fit();
    }

    /// Appends one item. Takes no memory.
    #[inline(always)]
    pub fn push(&mut self, item: T)
        requires { length self.old.items < self.old.room }
        ensures items { self.new.items ≡ self.old.items ++ item ∷ [] }
        ensures room { self.new.room ≡ self.old.room }
    {
        self.items.push_reserved(item);
    }

    /// Puts one item before all others, which move down. Takes no memory.
    pub fn put_first(&mut self, item: T)
        requires { length self.old.items < self.old.room }
        ensures items { self.new.items ≡ item ∷ self.old.items }
        ensures room { self.new.room ≡ self.old.room }
    {
        self.push(item);
        self.items.rotate_right(1);
    }

    /// The number of items.
    #[inline(always)]
    pub fn len(&self) -> usize
        ensures exact { result ≡ length self.now.items }
        ensures fits { result ≤ self.now.room }
    {
        self.items.len()
    }

    /// Whether there is no item.
    #[inline(always)]
    pub fn is_empty(&self) -> bool
        ensures { result ≡ (length self.now.items == 0) }
    {
        self.items.is_empty()
    }

    /// The item at `index`.
    #[inline(always)]
    pub fn at(&self, index: usize) -> &T
        requires { index < length self.now.items }
        ensures { slice_get self.now.items index ≡ Some result.now }
    {
        &self.items[index]
    }

    /// A copy of the item at `index`.
    #[inline(always)]
    pub fn item(&self, index: usize) -> T
    where
        T: Copy,
        requires { index < length self.now.items }
        ensures { slice_get self.now.items index ≡ Some result }
    {
        *self.at(index)
    }

    /// All items.
    #[inline(always)]
    pub fn as_slice(&self) -> &[T]
        ensures { result.now ≡ self.now.items }
    {
        self.items.as_slice()
    }

    /// Appends the items of `piece`, and makes the room that they need.
    pub fn append(&mut self, piece: &[T]) -> Result<(), NoMemory>
    where
        T: Copy,
        ensures ok { OnOk result (self.new.items ≡ self.old.items ++ piece.now) }
        ensures err { OnErr result (self.new.items ≡ self.old.items) }
        ensures kept { self.old.room ≤ self.new.room }
    {
        self.items.extend_from_slice(piece)?;
        Ok(())
    }

    /// Puts `item` in the place of the one at `index`. Takes no memory.
    pub fn set(&mut self, index: usize, item: T)
    where
        T: Drop,
        requires { index < length self.old.items }
        ensures items { self.new.items ≡ slice_set self.old.items index item }
        ensures room { self.new.room ≡ self.old.room }
    {
        self.items[index] = item;
    }

    /// Takes out the item at `index`; those after it move up. Takes no memory.
    pub fn remove(&mut self, index: usize) -> T
        requires { index < length self.old.items }
        ensures item { slice_get self.old.items index ≡ Some result }
        ensures items { self.new.items ≡ remove self.old.items index }
        ensures room { self.new.room ≡ self.old.room }
    {
        self.items.remove(index)
    }

    /// Puts the items in order of a key; those of one key in any order. Takes no memory.
    pub fn sort_unstable_by_key<K: Ord, F: FnMut(&T) -> K>(&mut self, key: F)
    where
        K: Drop,
        requires { F.IsAlwaysCallable key }
        ensures permutation { IsPermutation self.old.items self.new.items }
        ensures sorted { IsSortedByKeyClosure F.FnMut K.cmp key self.new.items }
        ensures room { self.new.room ≡ self.old.room }
    {
        self.items.sort_unstable_by_key(key);
    }

    /// Takes all items out and keeps the room. Takes no memory.
    pub fn clear(&mut self)
    where
        T: Drop,
        ensures items { self.new.items ≡ [] }
        ensures room { self.new.room ≡ self.old.room }
    {
        self.items.clear();
    }
}
