//! Lists of values most of which have a short form.

ghost use Rattle.std.specs.Prelude.{◌≡◌, ◌==◌, ◌+◌, ◌<◌, ◌≤◌, ◌^◌, [], ◌∷◌, ◌++◌, IfOk, IfSome, OnErr, OnOk, length, slice_get};
ghost use Rattle.history_book.specs.declared.packed.Stored.TheVariants.{Here, Whole};

use room_list::RoomList;
use std::alloc::Global;
use std::marker::Model;
use tuple_core::NoMemory;

/// What the form of a value says.
#[derive(Drop)]
pub enum Stored<T> {
    /// The value.
    Here(T),
    /// The value stands whole in a second list, at this index.
    Whole(u32),
}

/// A short form of values of a type.
pub trait Form<T>: Copy {
    ghost use Rattle.history_book.specs.declared.packed.Stored.{Stored};

    /// What it says.
    ghost stored: { Self → Stored T };

    /// The short form that a value may have.
    fn of(value: &T) -> Option<Self>
        ensures { IfSome result (λ form. stored form ≡ Here value.now) };

    /// The form of a value that stands whole.
    fn whole(at: u32) -> Self
        ensures { stored result ≡ Whole at };

    /// Reads it.
    fn read(&self) -> Stored<T>
        ensures { result ≡ stored self.now };
}

/// A list with room, as `RoomList`, of fewer than 2^32 values. Each value has a form in one list, and one without a short
/// form stands whole in a second list besides. Room is asked for as if none had a short form. Contracts see its values
/// and the number of values for which it has room.
#[derive(Drop)]
pub struct PackedList<S: Form<T>, T: Copy> {
    forms: RoomList<S>,
    whole: RoomList<T>,
    room: usize,
}

impl<S: Form<T>, T: Copy> Model for PackedList<S, T> {
    ghost use Rattle.history_book.specs.Internal.Packed.{ArePacked, values_of};
    ghost use Rattle.room_list.specs.Roomed.{Roomed};

    ghost Value = { Roomed T };

    ghost view = { λ l. record { items = values_of S.stored l.whole.items l.forms.items; room = l.room } };

    ghost invariant = { λ l. ArePacked S.stored l.forms l.whole l.room };
}

impl<S: Form<T>, T: Copy> PackedList<S, T> {
    /// An empty list, which takes no memory.
    pub fn empty(alloc: Global) -> Self
        ensures { result.items ≡ [] }
    {
        PackedList {
            forms: RoomList::empty(alloc),
            whole: RoomList::empty(alloc),
            room: 0,
        }
    }

    /// An empty list that would take its memory where this one does. It takes none yet.
    pub fn empty_like(&self) -> Self
        ensures { result.items ≡ [] }
    {
        PackedList {
            forms: self.forms.empty_like(),
            whole: self.whole.empty_like(),
            room: 0,
        }
    }

    /// An empty list with room for at least `room` values.
    pub fn new(alloc: Global, room: usize) -> Result<Self, NoMemory>
        ensures empty { IfOk result (λ l. l.items ≡ []) }
        ensures room { IfOk result (λ l. room ≤ l.room) }
    {
        let mut list = PackedList::empty(alloc);
        list.reserve(room)?;
        Ok(list)
    }

    /// Makes room for at least `more` further values, whatever their forms. A list has room for fewer than 2^32 values: more
    /// are answered as if memory were missing.
    #[inline(always)]
    pub fn reserve(&mut self, more: usize) -> Result<(), NoMemory>
        ensures items { self.new.items ≡ self.old.items }
        ensures room { OnOk result (length self.old.items + more ≤ self.new.room) }
        ensures kept { self.old.room ≤ self.new.room }
        ensures err { OnErr result (self.new.room ≡ self.old.room) }
    {
        let room = self.forms.len().saturating_add(more);
        if room <= self.room {
            return Ok(());
        }
        if room > u32::MAX as usize {
            return Err(NoMemory);
        }
        self.forms.reserve(more)?;
        self.whole.reserve(room - self.whole.len())?;
        self.room = room;
        Ok(())
    }

    /// Appends one value. Takes no memory.
    #[inline(always)]
    pub fn push(&mut self, item: T)
        requires { length self.old.items < self.old.room }
        ensures items { self.new.items ≡ self.old.items ++ item ∷ [] }
        ensures room { self.new.room ≡ self.old.room }
    {
        match S::of(&item) {
            Some(form) => self.forms.push(form),
            None => {
                let at = self.whole.len() as u32;
                self.whole.push(item);
                self.forms.push(S::whole(at));
            }
        }
    }

    /// The number of values.
    #[inline(always)]
    pub fn len(&self) -> usize
        ensures exact { result ≡ length self.now.items }
        ensures fits { result ≤ self.now.room }
        ensures few { length self.now.items < 2 ^ 32 }
    {
        self.forms.len()
    }

    /// Whether there is no value.
    #[inline(always)]
    pub fn is_empty(&self) -> bool
        ensures { result ≡ (length self.now.items == 0) }
    {
        self.forms.is_empty()
    }

    /// A copy of the value at `index`.
    #[inline(always)]
    pub fn at(&self, index: usize) -> T
        requires { index < length self.now.items }
        ensures { slice_get self.now.items index ≡ Some result }
    {
        match self.forms.item(index).read() {
            Stored::Here(value) => value,
            Stored::Whole(at) => self.whole.item(at as usize),
        }
    }

    /// Takes all values out and keeps the room. Takes no memory.
    pub fn clear(&mut self)
        ensures items { self.new.items ≡ [] }
        ensures room { self.new.room ≡ self.old.room }
    {
        self.forms.clear();
        self.whole.clear();
    }
}
