//! Packets over a desk of one entry, which is ended by hand between them.

ghost use Rattle.std.specs.Prelude.{◌≡◌, []};
ghost use Rattle.history_book.specs.Sizes.{AreWithinLimits};

use crate::packets::{ANOTHER, QUERY, handled};
use book_desk::desk::PlainDesk;
use history_book::desk::Desk;
use history_book::event::Why;
use history_book::outcome::{HoldOutcome, KillOutcome, ReleaseOutcome};
use history_book::sizes::Sizes;
use history_book::verdict::Class;
use std::process::Abort;
use std::sync::Wait;
use std::test::Fail;
use tuple_core::NoMemory;

/// A pool of one place.
fn sizes() -> Sizes
    ensures { AreWithinLimits result }
{
    Sizes {
        entries: 1,
        buckets: 1,
        seed: 1,
        passes: 1,
        expectations: 0,
    }
}

/// Ends the one entry, which is expired at 32 s.
fn end_entry<R: Wait + Abort>(rt: &R, desk: &mut PlainDesk) -> Result<(), NoMemory>
    requires held { desk.old.held ≡ [] }
    requires owed { desk.old.owed ≡ [] }
    ensures held { desk.new.held ≡ [] }
    ensures owed { desk.new.owed ≡ [] }
{
    assert_eq!(rt; desk.places(), 1);
    assert!(rt; desk.made() < 1000);
    desk.ready(1)?;
    let HoldOutcome::Held { id, at } = desk.hold(rt, 0) else {
        panic!(rt; "the place is empty");
    };
    assert_eq!(rt; (id, at), (2, 3));
    let why = Why::Expired { moment: 32_000_000 };
    let killed = desk.kill(rt, 0, why);
    assert!(rt; matches!(killed, KillOutcome::Killed { number: 3, .. }));
    let ReleaseOutcome::Last = desk.release(rt, 0) else {
        panic!(rt; "the place is kept");
    };
    desk.recycle(rt, 0);
    Ok(())
}

/// A flow begins, and another one drops it.
fn one_drops_another<R: Wait + Abort + AllocGlobal>(
    rt: &R,
    desk: &mut PlainDesk,
) -> Result<(), NoMemory>
    requires held { desk.old.held ≡ [] }
    requires owed { desk.old.owed ≡ [] }
    ensures held { desk.new.held ≡ [] }
    ensures owed { desk.new.owed ≡ [] }
{
    let first = handled(rt, desk, &QUERY, 1_000_000)?;
    assert!(rt; matches!(first.class, Class::Made { id: 0, at: 1, .. }));
    let second = handled(rt, desk, &ANOTHER, 2_000_000)?;
    assert!(rt; matches!(second.class, Class::Made { id: 2, at: 3, .. }));
    assert_eq!(rt; (second.first, second.made), (1, 2));
    Ok(())
}

#[test]
fn an_entry_ended_by_hand_makes_room(rt: HostRuntime) -> Result<(), Fail> {
    let mut desk = PlainDesk::new(rt.alloc(), sizes())?;
    desk.ready(64)?;
    one_drops_another(&rt, &mut desk)?;
    end_entry(&rt, &mut desk)?;
    let again = handled(&rt, &mut desk, &QUERY, 3_000_000)?;
    assert!(rt; matches!(again.class, Class::Made { id: 4, at: 5, .. }));
    assert_eq!(rt; (again.first, again.made), (4, 1));
    Ok(())
}
