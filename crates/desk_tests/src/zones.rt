//! The same packets in several zones, over each desk.

ghost use Rattle.history_book.specs.Places.{HoldsNothing};
ghost use Rattle.history_book.specs.Sizes.{AreWithinLimits};

use crate::packets::{ANSWER, QUERY, handled_in};
use book_desk::desk::PlainDesk;
use book_desk::turn_desk::TurnBook;
use ct_io::NoGate;
use history_book::desk::Desk;
use history_book::sizes::Sizes;
use history_book::verdict::{Class, Label};
use shared_desk::tracker::Tracker;
use std::process::Abort;
use std::sync::Wait;
use std::test::Fail;
use tuple_core::NoMemory;

/// A pool of two places.
fn sizes() -> Sizes
    ensures { AreWithinLimits result }
{
    Sizes {
        entries: 2,
        buckets: 1,
        seed: 1,
        passes: 1,
        expectations: 0,
    }
}

/// A query in each of two zones, and its answer in the second.
fn ask_in_two_zones<R: Wait + Abort + AllocGlobal, D: Desk>(
    rt: &R,
    desk: &mut D,
) -> Result<(), NoMemory>
    requires { HoldsNothing (D.sight desk.old) }
    ensures { HoldsNothing (D.sight desk.new) }
{
    let first = handled_in(rt, desk, 1, &QUERY, 1_000_000_000)?;
    assert!(rt;
        matches!(
            first.class,
            Class::Made {
                id: 0,
                at: 1,
                unclaimed: Some(_),
                ..
            }
        )
    );
    let second = handled_in(rt, desk, 2, &QUERY, 1_000_000_000)?;
    assert!(rt;
        matches!(
            second.class,
            Class::Made {
                id: 1,
                at: 2,
                unclaimed: Some(_),
                ..
            }
        )
    );
    let answer = handled_in(rt, desk, 2, &ANSWER, 1_000_500_000)?;
    let Class::Passed { label, id, at, .. } = answer.class else {
        panic!(rt; "the answer met no entry");
    };
    assert!(rt; matches!(label, Label::EstablishedReply));
    assert_eq!(rt; (id, at), (1, 3));
    Ok(())
}

/// In a zone in which nothing was asked the answer begins a flow, for which an entry of another zone is dropped: places
/// are what zones share.
fn answer_in_a_third_zone<R: Wait + Abort + AllocGlobal, D: Desk>(
    rt: &R,
    desk: &mut D,
) -> Result<(), NoMemory>
    requires { HoldsNothing (D.sight desk.old) }
    ensures { HoldsNothing (D.sight desk.new) }
{
    let elsewhere = handled_in(rt, desk, 3, &ANSWER, 1_001_000_000)?;
    assert!(rt; matches!(elsewhere.class, Class::Made { id: 4, at: 5, .. }));
    assert_eq!(rt; (elsewhere.first, elsewhere.made), (3, 2));
    Ok(())
}

#[test]
fn zones_of_a_plain_desk(rt: HostRuntime) -> Result<(), Fail> {
    let mut desk = PlainDesk::new(rt.alloc(), sizes())?;
    ask_in_two_zones(&rt, &mut desk)?;
    answer_in_a_third_zone(&rt, &mut desk)?;
    Ok(())
}

#[test]
fn zones_of_a_desk_in_turns(rt: HostRuntime) -> Result<(), Fail> {
    let (book, spot) = TurnBook::new(rt.alloc(), sizes())?;
    let mut desk = book.desk(spot, &NoGate, 0);
    ask_in_two_zones(&rt, &mut desk)?;
    answer_in_a_third_zone(&rt, &mut desk)?;
    Ok(())
}

#[test]
fn zones_of_a_clerk(rt: HostRuntime) -> Result<(), Fail> {
    let (tracker, spot) = Tracker::new(rt.alloc(), sizes())?;
    let mut desk = tracker.clerk(spot, &NoGate, 0);
    ask_in_two_zones(&rt, &mut desk)?;
    answer_in_a_third_zone(&rt, &mut desk)?;
    Ok(())
}
