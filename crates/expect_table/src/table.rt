//! The table of expectations.

ghost use Rattle.std.specs.Prelude.{◌≡◌, ◌<◌, ◌≤◌, [], All, IfOk, length, slice_get, find, position};
ghost use Rattle.std.specs.List.{list_any};
ghost use Rattle.expect_table.specs.Expectations.{add_outcome, after_add, id_of, matching, without_id, without_master};
ghost use Rattle.expect_table.specs.Match.{has_id, is_awaited, is_match, is_of, is_rival, is_wanted, same_want};

use crate::expectation::{Expectation, Want};
use room_list::RoomList;
use std::alloc::Global;
use std::marker::Model;
use tuple_core::{NoMemory, Proto, Tuple};

/// What came of adding an expectation.
#[derive(Clone, Copy)]
pub enum AddOutcome {
    /// It is in the table, in the place of the older one of its master with this id, where it had one.
    Added { replaced: Option<u64> },
    /// Another master's expectation with this id has the same zone and want and is still awaited; it is the first such one.
    Clash { id: u64 },
    /// The table has no room.
    Full,
}

/// A table of expectations, seen as the list of them in order of id and the number for which it has room. No
/// master has two.
#[derive(Drop)]
pub struct ExpectTable {
    items: RoomList<Expectation>,
    room: u32,
}

impl Model for ExpectTable {
    ghost use Rattle.std.specs.Prelude.{◌≤◌, length};
    ghost use Rattle.room_list.specs.Roomed.{Roomed};
    ghost use Rattle.expect_table.specs.declared.expectation.Expectation.{Expectation};
    ghost use Rattle.expect_table.specs.Expectations.{AreOrderedOneAMaster};

    ghost Value = { Roomed Expectation };

    ghost view = { λ t. record { items = t.items.items; room = t.room } };

    ghost invariant = { λ t.
        (length t.items.items ≤ t.room) × (t.room ≤ t.items.room) × AreOrderedOneAMaster t.items.items };
}

/// Whether two wants are the same.
fn is_same_want(v: &Want, w: &Want) -> bool
    ensures { result ≡ same_want v.now w.now }
{
    v.src == w.src && v.dst == w.dst && v.port == w.port
}

/// Whether a connection with this tuple is wanted.
fn is_wanted(want: &Want, t: &Tuple) -> bool
    ensures { result ≡ is_wanted want.now t.now }
{
    t.proto == Proto::Tcp && want.src == t.src && want.dst == t.dst && want.port == t.b
}

/// Whether the expectation matches a packet with this tuple at the moment.
fn is_match(e: &Expectation, t: &Tuple, moment: u64) -> bool
    ensures { result ≡ is_match t.now moment e.now }
{
    e.zone == t.zone && is_wanted(&e.want, t) && moment < e.deadline
}

/// Whether another expectation stands in the way of the first.
fn is_rival(e: &Expectation, moment: u64, other: &Expectation) -> bool
    ensures { result ≡ is_rival e.now moment other.now }
{
    other.master != e.master
        && other.zone == e.zone
        && is_same_want(&e.want, &other.want)
        && moment < other.deadline
}

/// The first that matches a packet with this tuple at the moment.
#[inline(always)]
pub fn first_match(items: &[Expectation], t: &Tuple, moment: u64) -> Option<Expectation>
    ensures { result ≡ matching t.now moment items.now }
{
    for e in items {
        if is_match(e, t, moment) {
            return Some(*e);
        }
    }
    None
}

/// The first that stands in the way of another.
fn first_rival(items: &[Expectation], e: &Expectation, moment: u64) -> Option<Expectation>
    ensures { result ≡ find (is_rival e.now moment) items.now }
{
    for other in items {
        if is_rival(e, moment, other) {
            return Some(*other);
        }
    }
    None
}

/// The one with this id.
pub fn first_with(items: &[Expectation], id: u64) -> Option<Expectation>
    ensures { result ≡ find (has_id id) items.now }
{
    for e in items {
        if e.id == id {
            return Some(*e);
        }
    }
    None
}

/// Where the one of this master stands.
fn index_of_master(items: &[Expectation], master: u64) -> Option<usize>
    ensures { result ≡ position (is_of master) items.now }
{
    items.iter().position(|e| e.master == master)
}

/// Where the one with this id stands.
fn index_of_id(items: &[Expectation], id: u64) -> Option<usize>
    ensures { result ≡ position (has_id id) items.now }
{
    items.iter().position(|e| e.id == id)
}

/// What adding an expectation at a moment answers, to these with room for so many.
pub fn outcome_of(items: &[Expectation], room: u32, e: &Expectation, moment: u64) -> AddOutcome
    ensures { result ≡ add_outcome room items.now e.now moment }
{
    if let Some(rival) = first_rival(items, e, moment) {
        return AddOutcome::Clash { id: rival.id };
    }
    if let Some(index) = index_of_master(items, e.master) {
        let replaced = Some(items[index].id);
        return AddOutcome::Added { replaced };
    }
    if items.len() < room as usize {
        AddOutcome::Added { replaced: None }
    } else {
        AddOutcome::Full
    }
}

/// Puts all of these into a list in place of what it has.
fn copy(items: &[Expectation], listed: &mut RoomList<Expectation>)
    requires { length items.now ≤ listed.old.room }
    ensures items { listed.new.items ≡ items.now }
    ensures room { listed.new.room ≡ listed.old.room }
{
    listed.clear();
    for e in items {
        listed.push(*e);
    }
}

impl ExpectTable {
    /// An empty table with room for so many expectations. Takes all its memory here.
    pub fn new(alloc: Global, room: u32) -> Result<ExpectTable, NoMemory>
        ensures empty { IfOk result (λ t. t.items ≡ []) }
        ensures room { IfOk result (λ t. t.room ≡ room) }
    {
        let items = RoomList::new(alloc, room as usize)?;
        Ok(ExpectTable { items, room })
    }

    /// The number of expectations.
    pub fn len(&self) -> usize
        ensures { result ≡ length self.now.items }
    {
        self.items.len()
    }

    /// The expectation at `index`, in order of id.
    pub fn at(&self, index: usize) -> &Expectation
        requires { index < length self.now.items }
        ensures { slice_get self.now.items index ≡ Some result.now }
    {
        self.items.at(index)
    }

    /// Puts all expectations, in order of id, into a list in place of what it has. Takes no memory.
    pub fn list(&self, listed: &mut RoomList<Expectation>)
        requires { self.now.room ≤ listed.old.room }
        ensures items { listed.new.items ≡ self.now.items }
        ensures room { listed.new.room ≡ listed.old.room }
    {
        copy(self.items.as_slice(), listed);
    }

    /// The first expectation that matches a packet with this tuple at the moment.
    #[inline(always)]
    pub fn matching(&self, t: &Tuple, moment: u64) -> Option<Expectation>
        ensures { result ≡ matching t.now moment self.now.items }
    {
        first_match(self.items.as_slice(), t, moment)
    }

    /// The expectation with this id.
    pub fn find(&self, id: u64) -> Option<Expectation>
        ensures { result ≡ find (has_id id) self.now.items }
    {
        first_with(self.items.as_slice(), id)
    }

    /// What adding an expectation at this moment would answer.
    pub fn outcome(&self, e: &Expectation, moment: u64) -> AddOutcome
        ensures { result ≡ add_outcome self.now.room self.now.items e.now moment }
    {
        outcome_of(self.items.as_slice(), self.room, e, moment)
    }

    /// Takes out the expectation of this master, and answers its id.
    pub fn remove_master(&mut self, master: u64) -> Option<u64>
        ensures id { result ≡ id_of (find (is_of master) self.old.items) }
        ensures items { self.new.items ≡ without_master master self.old.items }
        ensures room { self.new.room ≡ self.old.room }
    {
        let Some(index) = index_of_master(self.items.as_slice(), master) else {
            return None;
        };
        let removed = self.items.remove(index);
        Some(removed.id)
    }

    /// Takes out the expectation with this id, and answers whether there was one.
    pub fn remove(&mut self, id: u64) -> bool
        ensures there { result ≡ list_any (has_id id) self.old.items }
        ensures items { self.new.items ≡ without_id id self.old.items }
        ensures room { self.new.room ≡ self.old.room }
    {
        let Some(index) = index_of_id(self.items.as_slice(), id) else {
            return false;
        };
        self.items.remove(index);
        true
    }

    /// Adds an expectation at this moment. One of its master that is in the table is replaced by it.
    pub fn add(&mut self, e: Expectation, moment: u64) -> AddOutcome
        requires { All (λ o. o.id < e.id) self.old.items }
        ensures outcome { result ≡ add_outcome self.old.room self.old.items e moment }
        ensures items { self.new.items ≡ after_add result self.old.items e }
        ensures room { self.new.room ≡ self.old.room }
    {
        let outcome = outcome_of(self.items.as_slice(), self.room, &e, moment);
        if let AddOutcome::Added { .. } = outcome {
            self.remove_master(e.master);
            self.items.push(e);
        }
        outcome
    }
}
