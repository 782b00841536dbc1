//! What control connections of FTP expect, in a pool of two places.

ghost use Rattle.std.specs.Prelude.{◌≡◌, ℕ, ◌+◌, ◌≤◌, ◌^◌, [], ◌∷◌, IfOk, Some, true};
ghost use Rattle.history_book.specs.Entry.{is_helped_entry};
ghost use Rattle.history_book.specs.Held.{held_id, is_held_for_entry};
ghost use Rattle.history_book.specs.Sizes.{AreWithinLimits};

use book_desk::desk::PlainDesk;
use expect_table::expectation::Want;
use history_book::desk::Desk;
use history_book::event::Why;
use history_book::outcome::{
    ClaimOutcome, ConfirmOutcome, ExpectOutcome, KillOutcome, TakeOutcome, UnexpectOutcome,
};
use history_book::record::Flow;
use history_book::report::Expectations;
use history_book::sizes::Sizes;
use proto_rules::{Part, PartKind, TcpState};
use room_list::RoomList;
use std::alloc::Global;
use std::process::Abort;
use std::sync::Wait;
use std::test::Fail;
use tuple_core::{NoMemory, Proto, Tuple};

/// A pool of two places, with room for so many expectations.
fn sizes_for(expectations: u32) -> Sizes
    requires { expectations ≤ 1024 }
    ensures limits { AreWithinLimits result }
    ensures pool { result.entries ≡ 2 }
    ensures room { result.expectations ≡ expectations }
{
    Sizes {
        entries: 2,
        buckets: 1,
        seed: 0,
        passes: 1,
        expectations,
    }
}

/// From 10.0.0.1:5000 to 10.0.0.2:21, established at 1000 s.
const CONTROL: Flow = Flow {
    original: Tuple {
        proto: Proto::Tcp,
        zone: 0,
        src: 0x0a00_0001,
        dst: 0x0a00_0002,
        a: 5000,
        b: 21,
    },
    reply: Tuple {
        proto: Proto::Tcp,
        zone: 0,
        src: 0x0a00_0002,
        dst: 0x0a00_0001,
        a: 21,
        b: 5000,
    },
    part: Part {
        kind: PartKind::Tcp(TcpState::Established),
        replied: true,
        assured: true,
        deadline: 433_000_000_000,
    },
    helper: true,
    master: None,
};

/// The same from port 5001.
const OTHER_CONTROL: Flow = Flow {
    original: Tuple {
        proto: Proto::Tcp,
        zone: 0,
        src: 0x0a00_0001,
        dst: 0x0a00_0002,
        a: 5001,
        b: 21,
    },
    reply: Tuple {
        proto: Proto::Tcp,
        zone: 0,
        src: 0x0a00_0002,
        dst: 0x0a00_0001,
        a: 21,
        b: 5001,
    },
    part: Part {
        kind: PartKind::Tcp(TcpState::Established),
        replied: true,
        assured: true,
        deadline: 433_000_000_000,
    },
    helper: true,
    master: None,
};

/// The server connects to port 6000 of the client.
const DATA: Tuple = Tuple {
    proto: Proto::Tcp,
    zone: 0,
    src: 0x0a00_0002,
    dst: 0x0a00_0001,
    a: 20,
    b: 6000,
};

/// What that port expects.
const WANT: Want = Want {
    src: 0x0a00_0002,
    dst: 0x0a00_0001,
    port: 6000,
};

const OTHER_WANT: Want = Want {
    src: 0x0a00_0002,
    dst: 0x0a00_0001,
    port: 6001,
};

/// 1000 s, and the moment from which on it is expected no longer.
const NOW: u64 = 1_000_000_000;

const LATE: u64 = 1_300_000_000;

/// A desk that holds place 0 for the control connection's entry, which is number 0.
fn controlled<R: Wait + Abort>(
    rt: &R,
    alloc: Global,
    expectations: u32,
) -> Result<PlainDesk, NoMemory>
    requires { expectations ≤ 1024 }
    ensures held { IfOk result (λ d. d.held ≡ record { place = 0; id = Some 0 } ∷ []) }
    ensures owed { IfOk result (λ d. d.owed ≡ []) }
    ensures spare { IfOk result (λ d. 7 ≤ d.spare) }
    ensures helped { IfOk result (λ d. is_helped_entry 0 d.front ≡ true) }
    ensures room { IfOk result (λ d. d.sizes.expectations ≡ expectations) }
{
    let mut desk = PlainDesk::new(alloc, sizes_for(expectations))?;
    desk.ready(8)?;
    let TakeOutcome::Taken { place } = desk.take(rt) else {
        panic!(rt; "a place was free");
    };
    assert!(rt; place == 0);
    let ConfirmOutcome::Confirmed { id } = desk.confirm(rt, place, &CONTROL) else {
        panic!(rt; "nothing was live");
    };
    assert!(rt; id == 0);
    Ok(desk)
}

/// A desk that holds place 1 for the other control connection's entry as well, which is number 1.
#[tactic(auto, using(crate::proofs::Helped::helped_grows))]
fn two_controlled<R: Wait + Abort>(
    rt: &R,
    alloc: Global,
    expectations: u32,
) -> Result<PlainDesk, NoMemory>
    requires { expectations ≤ 1024 }
    ensures held { IfOk result (λ d. d.held
        ≡ record { place = 1; id = Some 1 } ∷ record { place = 0; id = Some 0 } ∷ []) }
    ensures spare { IfOk result (λ d. 6 ≤ d.spare) }
    ensures first { IfOk result (λ d. is_helped_entry 0 d.front ≡ true) }
    ensures second { IfOk result (λ d. is_helped_entry 1 d.front ≡ true) }
    ensures room { IfOk result (λ d. d.sizes.expectations ≡ expectations) }
{
    let mut desk = controlled(rt, alloc, expectations)?;
    let TakeOutcome::Taken { place } = desk.take(rt) else {
        panic!(rt; "a place was free");
    };
    assert!(rt; place == 1);
    let ConfirmOutcome::Confirmed { id } = desk.confirm(rt, place, &OTHER_CONTROL) else {
        panic!(rt; "nothing was live under these tuples");
    };
    assert!(rt; id == 1);
    Ok(desk)
}

/// Makes the entry for which the place is held expect this. Entries with the helper still have it.
fn expecting<R: Wait>(
    rt: &R,
    desk: &mut PlainDesk,
    place: u32,
    want: Want,
    moment: u64,
) -> ExpectOutcome
    requires held { is_held_for_entry place desk.old.held ≡ true }
    requires helper { is_helped_entry (held_id place desk.old.held) desk.old.front ≡ true }
    requires timely { moment ≤ 10 ^ 16 }
    requires spare { 1 ≤ desk.old.spare }
    ensures held { desk.new.held ≡ desk.old.held }
    ensures spare { desk.old.spare ≤ desk.new.spare + 1 }
    ensures helped { (id : ℕ) → is_helped_entry id desk.old.front ≡ true → is_helped_entry id desk.new.front ≡ true }
    ensures sizes { desk.new.sizes ≡ desk.old.sizes }
{
    desk.expect(rt, place, want, moment)
}

#[test]
fn an_entry_expects_one_connection(rt: HostRuntime) -> Result<(), Fail> {
    let mut desk = controlled(&rt, rt.alloc(), 1)?;
    assert_eq!(rt; desk.expect_room(), 1);
    let first = expecting(&rt, &mut desk, 0, WANT, NOW);
    assert!(rt;
        matches!(
            first,
            ExpectOutcome::Expected {
                id: 1,
                replaced: None
            }
        )
    );
    let second = expecting(&rt, &mut desk, 0, OTHER_WANT, NOW);
    assert!(rt;
        matches!(
            second,
            ExpectOutcome::Expected {
                id: 2,
                replaced: Some(1)
            }
        )
    );
    Ok(())
}

#[test]
fn two_entries_want_the_same(rt: HostRuntime) -> Result<(), Fail> {
    let mut desk = two_controlled(&rt, rt.alloc(), 1)?;
    let first = expecting(&rt, &mut desk, 0, WANT, NOW);
    assert!(rt; matches!(first, ExpectOutcome::Expected { id: 2, .. }));
    let second = expecting(&rt, &mut desk, 1, WANT, LATE - 1);
    assert!(rt; matches!(second, ExpectOutcome::Clash { id: 2, at: 3 }));
    Ok(())
}

#[test]
fn a_table_with_no_room_is_full(rt: HostRuntime) -> Result<(), Fail> {
    let mut desk = two_controlled(&rt, rt.alloc(), 1)?;
    let first = expecting(&rt, &mut desk, 0, WANT, NOW);
    assert!(rt; matches!(first, ExpectOutcome::Expected { id: 2, .. }));
    let second = expecting(&rt, &mut desk, 1, OTHER_WANT, NOW);
    assert!(rt; matches!(second, ExpectOutcome::ExpectFull { at: 3 }));
    Ok(())
}

#[test]
fn a_connection_is_claimed_once(rt: HostRuntime) -> Result<(), Fail> {
    let mut desk = controlled(&rt, rt.alloc(), 1)?;
    let _ = expecting(&rt, &mut desk, 0, WANT, NOW);
    let late = desk.claim(&rt, &DATA, LATE);
    assert!(rt; matches!(late, ClaimOutcome::Unclaimed { at: 2 }));
    let claimed = desk.claim(&rt, &DATA, LATE - 1);
    assert!(rt;
        matches!(
            claimed,
            ClaimOutcome::Claimed {
                number: 2,
                expectation: 1,
                master: 0
            }
        )
    );
    let again = desk.claim(&rt, &DATA, LATE - 1);
    assert!(rt; matches!(again, ClaimOutcome::Unclaimed { at: 3 }));
    Ok(())
}

#[test]
fn a_late_expectation_ends(rt: HostRuntime) -> Result<(), Fail> {
    let mut desk = controlled(&rt, rt.alloc(), 1)?;
    let _ = expecting(&rt, &mut desk, 0, WANT, NOW);
    let early = desk.unexpect(&rt, 1, LATE - 1);
    assert!(rt;
        matches!(
            early,
            UnexpectOutcome::Not {
                deadline: LATE,
                at: 2
            }
        )
    );
    let late = desk.unexpect(&rt, 1, LATE);
    assert!(rt; matches!(late, UnexpectOutcome::Removed { number: 2 }));
    let again = desk.unexpect(&rt, 1, LATE);
    assert!(rt; matches!(again, UnexpectOutcome::Gone { at: 3 }));
    Ok(())
}

#[test]
#[tactic(auto, using(crate::proofs::Helped::helped_grows))]
fn a_destroyed_entry_expects_nothing(rt: HostRuntime) -> Result<(), Fail> {
    let mut desk = controlled(&rt, rt.alloc(), 1)?;
    let mut listed: Expectations = RoomList::new(rt.alloc(), 1)?;
    let _ = expecting(&rt, &mut desk, 0, WANT, NOW);
    let why = Why::Expired {
        moment: 433_000_000_000,
    };
    let KillOutcome::Killed { .. } = desk.kill(&rt, 0, why) else {
        panic!(rt; "the entry was expired");
    };
    let gone = expecting(&rt, &mut desk, 0, WANT, NOW);
    assert!(rt; matches!(gone, ExpectOutcome::MasterGone { at: 3 }));
    let at = desk.expects(&rt, &mut listed);
    assert_eq!(rt; at, 3);
    assert_eq!(rt; listed.len(), 0);
    Ok(())
}

#[test]
fn expectations_are_listed_in_order(rt: HostRuntime) -> Result<(), Fail> {
    let mut desk = two_controlled(&rt, rt.alloc(), 2)?;
    let mut listed: Expectations = RoomList::new(rt.alloc(), 2)?;
    let _ = expecting(&rt, &mut desk, 1, WANT, NOW);
    let _ = expecting(&rt, &mut desk, 0, OTHER_WANT, NOW);
    let at = desk.expects(&rt, &mut listed);
    assert_eq!(rt; at, 4);
    assert!(rt; listed.len() == 2);
    assert_eq!(rt; listed.at(0).id, 2);
    assert_eq!(rt; listed.at(0).master, 1);
    assert_eq!(rt; listed.at(1).id, 3);
    assert_eq!(rt; listed.at(1).master, 0);
    Ok(())
}
