//! A slow check of one given history: whether it is legal, and if not, which item is the first that is broken.

ghost use Rattle.std.specs.Prelude.{◌≡◌, ◌==◌, ◌&&◌, ◌↔◌, not, filter, map, IfOk, IsTrue, OnOk};
ghost use Rattle.expect_table.specs.Expectations.{with_one, without_id, without_master};
ghost use Rattle.history_book.specs.Checked.{CountsLive, IsLegalHistory, LegalIsUnbroken, NamesFirstBroken, TwoSizesDecide, says_legal, sizes_with};
ghost use Rattle.history_book.specs.Internal.Checking.{state_in};
ghost use Rattle.history_book.specs.Legality.{may_happen};
ghost use Rattle.history_book.specs.Record.{has_id};
ghost use Rattle.history_book.specs.State.{empty_state, next, with_part};

use crate::event::{Event, Numbered};
use crate::legality::is_lawful;
use crate::record::Record;
use crate::report::History;
use crate::sizes::Sizes;
use expect_table::expectation::Expectation;
use proto_rules::Part;
use std::alloc::Global;
use tuple_core::NoMemory;

/// What a check of a history answers.
#[derive(Clone, Copy)]
pub enum Checked {
    /// Each item's number is its index, and the events are a legal history, after which so many entries are live.
    Legal { live: u32 },
    /// The first item whose number is not its index, or whose event may not happen after those before it, has this
    /// index.
    Broken { number: u64 },
}

/// The live records and what is expected, after the events so far.
#[derive(Drop)]
struct Table {
    records: Vec<Record>,
    expects: Vec<Expectation>,
}

/// Gives the record with the id this part.
fn touch(records: &mut [Record], id: u64, after: &Part)
    ensures { records.new ≡ map (with_part id after.now) records.old }
{
    'records: for r in records.iter_mut() {
        if r.id == id {
            r.part = *after;
        }
    }
}

/// Takes out the record with the id.
fn destroy(records: &mut Vec<Record>, id: u64)
    ensures { records.new.items ≡ filter (λ r. not (has_id id r)) records.old.items }
{
    records.retain(|r| r.id != id);
}

/// Takes out what is expected for an entry.
fn forget(expects: &mut Vec<Expectation>, master: u64)
    ensures { expects.new.items ≡ without_master master expects.old.items }
{
    expects.retain(|e| e.master != master);
}

/// Takes out the expectation with the id.
fn end(expects: &mut Vec<Expectation>, id: u64)
    ensures { expects.new.items ≡ without_id id expects.old.items }
{
    expects.retain(|e| e.id != id);
}

/// Adds an expectation, in place of an older one of its master.
fn expect(expects: &mut Vec<Expectation>, e: &Expectation) -> Result<(), NoMemory>
    ensures { OnOk result (expects.new.items ≡ with_one expects.old.items e.now) }
{
    forget(expects, e.master);
    expects.try_reserve(1)?;
    expects.push_reserved(*e);
    Ok(())
}

/// The sizes that say which events are legal; the others are of no account.
fn sizes_with(entries: u32, expectations: u32) -> Sizes
    ensures { result ≡ sizes_with entries expectations }
{
    Sizes {
        entries,
        buckets: 1,
        seed: 0,
        passes: 1,
        expectations,
    }
}

impl Table {
    /// A table in which nothing is live or expected. Takes no memory.
    fn new(alloc: Global) -> Table
        ensures { state_in result ≡ empty_state }
    {
        Table {
            records: Vec::new(alloc),
            expects: Vec::new(alloc),
        }
    }

    /// Whether the item is broken at this index.
    fn is_broken(&self, sizes: &Sizes, index: u64, item: &Numbered) -> bool
        ensures { result ≡ not (item.now.number == index
            && may_happen sizes.now (state_in self.now) index item.now.event) }
    {
        item.number != index
            || !is_lawful(
                sizes,
                self.records.as_slice(),
                self.expects.as_slice(),
                index,
                &item.event,
            )
    }

    /// Goes on by an event.
    fn go_on(&mut self, event: &Event) -> Result<(), NoMemory>
        ensures { OnOk result (state_in self.new ≡ next (state_in self.old) event.now) }
    {
        match event {
            Event::Confirm { subject } => {
                self.records.try_reserve(1)?;
                self.records.push_reserved(*subject);
                Ok(())
            }
            Event::Touch { id, after, .. } => {
                touch(self.records.as_mut_slice(), *id, after);
                Ok(())
            }
            Event::Destroy { id, .. } => {
                destroy(&mut self.records, *id);
                forget(&mut self.expects, *id);
                Ok(())
            }
            Event::Expect { expectation, .. } => expect(&mut self.expects, expectation),
            Event::Claim { expectation, .. } => {
                end(&mut self.expects, *expectation);
                Ok(())
            }
            Event::Unexpect { expectation, .. } => {
                end(&mut self.expects, *expectation);
                Ok(())
            }
        }
    }
}

/// Checks a history of a tracker with so many places and room for so many expectations. Takes memory for what is live and
/// expected at once, and time in proportion to the history times that.
pub fn check_history(
    alloc: Global,
    history: &History,
    entries: u32,
    expectations: u32,
) -> Result<Checked, NoMemory>
    ensures legal { IfOk result (λ c. IsTrue (says_legal c)
        ↔ IsLegalHistory (sizes_with entries expectations) history.now.items) }
    ensures live { IfOk result (CountsLive history.now.items) }
    ensures broken { IfOk result (NamesFirstBroken (sizes_with entries expectations) history.now.items) }
{
    let sizes = sizes_with(entries, expectations);
    let mut table = Table::new(alloc);
    'items: for index in 0..history.len() {
        let number = index as u64;
        let item = history.at(index);
        if table.is_broken(&sizes, number, &item) {
            return Ok(Checked::Broken { number });
        }
        table.go_on(&item.event)?;
    }
    let live = table.records.len() as u32;
    Ok(Checked::Legal { live })
}

/// Of the sizes of a tracker, the places and the room for expectations alone say which histories are legal: a law, the
/// contract of a function that does nothing.
pub fn two_sizes_decide()
    ensures { TwoSizesDecide }
{}

/// A history is legal exactly where none of its items is broken: a law, the contract of a function that does nothing.
pub fn legal_is_unbroken()
    ensures { LegalIsUnbroken }
{}
