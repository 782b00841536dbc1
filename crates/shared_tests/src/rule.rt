//! A table begins, is shared, and ends.

ghost use Rattle.std.specs.Prelude.{◌≡◌, None};
ghost use Rattle.history_book.specs.Sizes.{AreWithinLimits};
ghost use Rattle.track_rule.specs.Sights.{sizes_of};
ghost use Rattle.track_rule.specs.declared.view.Middle.TheVariants.{Calm};

use history_book::record::Record;
use history_book::sizes::Sizes;
use proto_rules::{Part, PartKind};
use std::process::Abort;
use std::test::Fail;
use track_rule::free_list::FreeList;
use track_rule::pass::Pass;
use track_rule::place_phase::FREE;
use tuple_core::{Proto, Tuple};

/// A pool of forty places, for four passes.
fn sizes() -> Sizes
    ensures limits { AreWithinLimits result }
    ensures pool { result.entries ≡ 40 }
    ensures passes { result.passes ≡ 4 }
{
    Sizes {
        entries: 40,
        buckets: 1,
        seed: 0,
        passes: 4,
        expectations: 0,
    }
}

#[test]
fn a_table_is_shared_and_ends(rt: HostRuntime) -> Result<(), Fail> {
    let (board, stub) = Pass::first(rt.alloc(), sizes())?;
    let mut one = board.pass(stub);
    assert_eq!(rt; one.sizes().entries, 40);
    let two = one.split(2);
    let stub = two.leave();
    let mut two = board.pass(stub);
    assert_eq!(rt; two.history_load(), 0);
    assert!(rt; one.free_take());
    assert!(rt; !two.free_take());
    let list = one.free_swap(None);
    let none = one.free_swap(list);
    assert!(rt; none.is_none());
    one.free_give();
    one.join(two);
    let stub = one.leave();
    let word = board.close(stub);
    assert_eq!(rt; word, 0);
    Ok(())
}

/// How many places of the list lie next to the place before them: fewer than 15 places away.
fn close_neighbours(list: &FreeList) -> usize {
    let mut close = 0;
    let mut index = 1;
    'places: while index < list.len() {
        if list.at(index).abs_diff(list.at(index - 1)) < 15 {
            close += 1;
        }
        index += 1;
    }
    close
}

/// Asserts that the forty places of a whole list lie apart, and that the last one can be taken out and put back.
fn check_apart<R: Abort>(rt: &R, list: &mut FreeList) {
    assert!(rt; list.len() == 40);
    assert_eq!(rt; close_neighbours(list), 0);
    let last = list.at(39);
    let popped = list.pop();
    assert!(rt; popped == Some(last));
    list.push(last);
    assert_eq!(rt; list.len(), 40);
}

#[test]
fn places_that_are_taken_in_turn_lie_apart(rt: HostRuntime) -> Result<(), Fail> {
    let (board, stub) = Pass::first(rt.alloc(), sizes())?;
    let mut pass = board.pass(stub);
    assert!(rt; pass.free_take());
    let Some(mut list) = pass.free_swap(None) else {
        panic!(rt; "the list was there");
    };
    check_apart(&rt, &mut list);
    Ok(())
}

#[test]
fn references_are_counted(rt: HostRuntime) -> Result<(), Fail> {
    let (board, stub) = Pass::first(rt.alloc(), sizes())?;
    let mut pass = board.pass(stub);
    assert_eq!(rt; pass.ref_load(7), 0);
    assert!(rt; pass.ref_up(7, 3) == Err(0));
    Ok(())
}

/// From 10.0.0.1:1000 to 10.0.0.2:53 by UDP.
const QUERY: Tuple = Tuple {
    proto: Proto::Udp,
    zone: 0,
    src: 0x0A00_0001,
    dst: 0x0A00_0002,
    a: 1000,
    b: 53,
};

/// The other way.
const ANSWER: Tuple = Tuple {
    proto: Proto::Udp,
    zone: 0,
    src: 0x0A00_0002,
    dst: 0x0A00_0001,
    a: 53,
    b: 1000,
};

/// The record of such a flow at place 7.
const ENTRY: Record = Record {
    id: 5,
    place: 7,
    original: QUERY,
    reply: ANSWER,
    part: Part {
        kind: PartKind::Udp,
        replied: false,
        assured: false,
        deadline: 30_000_000,
    },
    helper: false,
    master: None,
};

/// Puts this record, or none, into the slot of place 7 under its turn, and gives what was there. No entry is live there, as the
/// phase shows.
fn put_record<R: Abort>(rt: &R, pass: &mut Pass, subject: Option<Record>) -> Option<Record>
    requires entries { (sizes_of pass.old).entries ≡ 40 }
    requires hand { pass.old.view.commit.hand ≡ None }
    requires middle { pass.old.view.commit.middle ≡ Calm }
    requires free { pass.old.view.free ≡ None }
{
    if !pass.turn_take(7) {
        panic!(rt; "no other pass has the turn");
    }
    let phase = pass.phase_load(7);
    assert_eq!(rt; phase, FREE);
    let found = pass.record_swap(7, subject);
    pass.turn_give(7);
    found
}

#[test]
fn a_record_is_found_where_it_was_put(rt: HostRuntime) -> Result<(), Fail> {
    let (board, stub) = Pass::first(rt.alloc(), sizes())?;
    let mut one = board.pass(stub);
    let mut two = one.split(2);
    let mut three = two.split(1);
    let none = put_record(&rt, &mut one, Some(ENTRY));
    assert!(rt; none.is_none());
    let Some(found) = put_record(&rt, &mut two, None) else {
        panic!(rt; "the record was put there");
    };
    assert_eq!(rt; found.id, 5);
    assert_eq!(rt; found.place, 7);
    assert!(rt; found.original == QUERY);
    assert!(rt; found.reply == ANSWER);
    assert_eq!(rt; found.part.deadline, 30_000_000);
    assert!(rt; three.turn_take(7));
    Ok(())
}

#[test]
fn a_turn_of_a_record_is_had_by_one(rt: HostRuntime) -> Result<(), Fail> {
    let (board, stub) = Pass::first(rt.alloc(), sizes())?;
    let mut one = board.pass(stub);
    let mut two = one.split(2);
    assert!(rt; one.turn_take(7));
    assert!(rt; !two.turn_take(7));
    assert!(rt; two.turn_take(8));
    Ok(())
}

#[test]
fn the_expectations_are_had_by_one(rt: HostRuntime) -> Result<(), Fail> {
    let (board, stub) = Pass::first(rt.alloc(), sizes())?;
    let mut one = board.pass(stub);
    let mut two = one.split(2);
    assert!(rt; one.expects_take());
    assert!(rt; !two.expects_take());
    let Some(table) = one.expects_swap(None) else {
        panic!(rt; "the table was there");
    };
    assert_eq!(rt; table.len(), 0);
    let none = one.expects_swap(Some(table));
    assert!(rt; none.is_none());
    one.expects_give();
    assert!(rt; two.expects_take());
    Ok(())
}

#[test]
fn the_expectations_are_out_beside_a_record(rt: HostRuntime) -> Result<(), Fail> {
    let (board, stub) = Pass::first(rt.alloc(), sizes())?;
    let mut pass = board.pass(stub);
    assert!(rt; pass.turn_take(7));
    let phase = pass.phase_load(7);
    assert_eq!(rt; phase, FREE);
    assert!(rt; pass.expects_take());
    let Some(table) = pass.expects_swap(None) else {
        panic!(rt; "the table was there");
    };
    let none = pass.record_swap(7, Some(ENTRY));
    assert!(rt; none.is_none());
    let none = pass.expects_swap(Some(table));
    assert!(rt; none.is_none());
    pass.expects_give();
    let Some(found) = pass.record_swap(7, None) else {
        panic!(rt; "the record was put there");
    };
    assert_eq!(rt; found.id, 5);
    pass.turn_give(7);
    Ok(())
}
