//! A query of UDP and its answer, in a pool of two places.

ghost use Rattle.std.specs.Prelude.{◌≡◌, ◌≤◌, [], ◌∷◌, IfOk, Some, true};
ghost use Rattle.history_book.specs.Entry.{is_of_entry};
ghost use Rattle.history_book.specs.Sizes.{AreWithinLimits};
ghost use Rattle.tuple_core.specs.declared.Segment.TheVariants.{Udp};

use book_desk::desk::PlainDesk;
use history_book::desk::Desk;
use history_book::event::Why;
use history_book::outcome::{
    ConfirmOutcome, FindOutcome, HoldOutcome, KillOutcome, PeekOutcome, ReleaseOutcome,
    TakeOutcome, TouchOutcome,
};
use history_book::record::Flow;
use history_book::sizes::Sizes;
use proto_rules::{Part, PartKind};
use std::alloc::Global;
use std::process::Abort;
use std::sync::Wait;
use std::test::Fail;
use tuple_core::{Direction, NoMemory, Proto, Segment, Tuple};

mod expects;

/// A pool of two places.
fn sizes() -> Sizes
    ensures limits { AreWithinLimits result }
    ensures pool { result.entries ≡ 2 }
{
    Sizes {
        entries: 2,
        buckets: 1,
        seed: 0,
        passes: 1,
        expectations: 0,
    }
}

/// From 10.0.0.1:5000 to 10.0.0.2:53.
const QUERY: Tuple = Tuple {
    proto: Proto::Udp,
    zone: 0,
    src: 0x0a00_0001,
    dst: 0x0a00_0002,
    a: 5000,
    b: 53,
};

const ANSWER: Tuple = Tuple {
    proto: Proto::Udp,
    zone: 0,
    src: 0x0a00_0002,
    dst: 0x0a00_0001,
    a: 53,
    b: 5000,
};

/// From 10.0.0.3:5000 to 10.0.0.2:53.
const OTHER_QUERY: Tuple = Tuple {
    proto: Proto::Udp,
    zone: 0,
    src: 0x0a00_0003,
    dst: 0x0a00_0002,
    a: 5000,
    b: 53,
};

/// The query's flow, begun at 1000 s.
const FLOW: Flow = Flow {
    original: QUERY,
    reply: ANSWER,
    part: Part {
        kind: PartKind::Udp,
        replied: false,
        assured: false,
        deadline: 1_030_000_000,
    },
    helper: false,
    master: None,
};

/// A desk that holds place 0 for the query's entry, which is number 0.
fn asked<R: Wait + Abort>(rt: &R, alloc: Global) -> Result<PlainDesk, NoMemory>
    ensures held { IfOk result (λ d. d.held ≡ record { place = 0; id = Some 0 } ∷ []) }
    ensures owed { IfOk result (λ d. d.owed ≡ []) }
    ensures spare { IfOk result (λ d. 3 ≤ d.spare) }
    ensures entry { IfOk result (λ d. is_of_entry Udp 0 d.front ≡ true) }
    ensures pool { IfOk result (λ d. d.sizes.entries ≡ 2) }
{
    let mut desk = PlainDesk::new(alloc, sizes())?;
    desk.ready(4)?;
    let TakeOutcome::Taken { place } = desk.take(rt) else {
        panic!(rt; "a place was free");
    };
    assert!(rt; place == 0);
    let ConfirmOutcome::Confirmed { id } = desk.confirm(rt, place, &FLOW) else {
        panic!(rt; "nothing was live");
    };
    assert!(rt; id == 0);
    Ok(desk)
}

#[test]
fn a_new_desk_has_nothing(rt: HostRuntime) -> Result<(), Fail> {
    let mut desk = PlainDesk::new(rt.alloc(), sizes())?;
    assert_eq!(rt; desk.places(), 2);
    assert_eq!(rt; desk.made(), 0);
    let absent = desk.find(&rt, &QUERY);
    assert!(rt; matches!(absent, FindOutcome::Absent { at: 0 }));
    let count = desk.count(&rt);
    assert_eq!(rt; count.live, 0);
    let empty = desk.hold(&rt, 1);
    assert!(rt; matches!(empty, HoldOutcome::Empty { at: 0 }));
    Ok(())
}

#[test]
fn an_entry_is_found_by_both_tuples(rt: HostRuntime) -> Result<(), Fail> {
    let mut desk = asked(&rt, rt.alloc())?;
    let original = desk.find(&rt, &QUERY);
    assert!(rt;
        matches!(
            original,
            FindOutcome::Found {
                place: 0,
                id: 0,
                direction: Direction::Original,
                at: 1
            }
        )
    );
    let reply = desk.find(&rt, &ANSWER);
    assert!(rt;
        matches!(
            reply,
            FindOutcome::Found {
                place: 0,
                id: 0,
                direction: Direction::Reply,
                at: 1
            }
        )
    );
    let held = desk.hold(&rt, 0);
    assert!(rt; matches!(held, HoldOutcome::Held { id: 0, at: 1 }));
    assert_eq!(rt; desk.made(), 1);
    let closed = desk.finish();
    assert_eq!(rt; closed.events, 1);
    assert_eq!(rt; closed.live, 1);
    assert_eq!(rt; closed.notes.len(), 1);
    Ok(())
}

#[test]
fn an_answer_touches_the_entry(rt: HostRuntime) -> Result<(), Fail> {
    let mut desk = asked(&rt, rt.alloc())?;
    let touched = desk.touch(&rt, 0, Direction::Reply, Segment::Udp, 1_000_500_000);
    let TouchOutcome::Touched { number, before } = touched else {
        panic!(rt; "the entry is live");
    };
    assert_eq!(rt; number, 1);
    assert!(rt; !before.part.replied);
    let PeekOutcome::Seen { subject, at } = desk.peek(&rt, 0) else {
        panic!(rt; "the entry is live");
    };
    assert_eq!(rt; at, 2);
    assert!(rt; subject.part.replied);
    assert_eq!(rt; subject.part.deadline, 1_120_500_000);
    Ok(())
}

#[test]
fn an_entry_is_killed_for_a_reason(rt: HostRuntime) -> Result<(), Fail> {
    let mut desk = asked(&rt, rt.alloc())?;
    let early = Why::Expired {
        moment: 1_029_999_999,
    };
    let live = desk.kill(&rt, 0, early);
    assert!(rt; matches!(live, KillOutcome::Not { at: 1, .. }));
    let late = Why::Expired {
        moment: 1_030_000_000,
    };
    let killed = desk.kill(&rt, 0, late);
    assert!(rt; matches!(killed, KillOutcome::Killed { number: 1, .. }));
    let gone = desk.peek(&rt, 0);
    assert!(rt; matches!(gone, PeekOutcome::Gone { at: 2 }));
    let closed = desk.finish();
    assert_eq!(rt; closed.events, 2);
    assert_eq!(rt; closed.live, 0);
    Ok(())
}

#[test]
fn a_new_flow_meets_an_entry(rt: HostRuntime) -> Result<(), Fail> {
    let mut desk = asked(&rt, rt.alloc())?;
    let TakeOutcome::Taken { place } = desk.take(&rt) else {
        panic!(rt; "a place was free");
    };
    assert_eq!(rt; place, 1);
    let same = desk.confirm(&rt, place, &FLOW);
    assert!(rt;
        matches!(
            same,
            ConfirmOutcome::Clash {
                id: 0,
                direction: Direction::Original,
                both: true,
                at: 1
            }
        )
    );
    Ok(())
}

#[test]
fn a_new_flow_meets_an_entry_by_its_reply_tuple(rt: HostRuntime) -> Result<(), Fail> {
    let mut desk = asked(&rt, rt.alloc())?;
    let TakeOutcome::Taken { place } = desk.take(&rt) else {
        panic!(rt; "a place was free");
    };
    let translated = Flow {
        original: OTHER_QUERY,
        ..FLOW
    };
    let reply = desk.confirm(&rt, place, &translated);
    assert!(rt;
        matches!(
            reply,
            ConfirmOutcome::Clash {
                id: 0,
                direction: Direction::Reply,
                both: false,
                at: 1
            }
        )
    );
    Ok(())
}

#[test]
fn a_place_goes_round(rt: HostRuntime) -> Result<(), Fail> {
    let mut desk = asked(&rt, rt.alloc())?;
    let TakeOutcome::Taken { place } = desk.take(&rt) else {
        panic!(rt; "a place was free");
    };
    let full = desk.take(&rt);
    assert!(rt; matches!(full, TakeOutcome::Full { at: 1 }));
    let last = desk.release(&rt, place);
    let ReleaseOutcome::Last = last else {
        panic!(rt; "nothing else had the place");
    };
    desk.recycle(&rt, place);
    let again = desk.take(&rt);
    assert!(rt; matches!(again, TakeOutcome::Taken { place: 1 }));
    Ok(())
}

#[test]
fn a_live_entry_keeps_its_place(rt: HostRuntime) -> Result<(), Fail> {
    let mut desk = asked(&rt, rt.alloc())?;
    let kept = desk.release(&rt, 0);
    assert!(rt; matches!(kept, ReleaseOutcome::Kept));
    let found = desk.find(&rt, &QUERY);
    assert!(rt; matches!(found, FindOutcome::Found { place: 0, .. }));
    Ok(())
}
