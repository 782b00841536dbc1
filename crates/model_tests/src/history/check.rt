//! Histories of one flow of UDP, and of a control connection of FTP, as they are and with one item that is wrong.

use expect_table::expectation::{Expectation, Want};
use history_book::check::{Checked, check_history};
use history_book::event::{Event, Numbered, Why};
use history_book::record::Record;
use history_book::report::History;
use proto_rules::{Part, PartKind, TcpState};
use std::alloc::Global;
use std::test::Fail;
use tuple_core::{Direction, NoMemory, Proto, Segment, Tuple};

/// A tuple between 10.0.0.1 and 10.0.0.2.
macro_rules! tuple {
    ($proto:ident, $src:literal, $dst:literal, $a:literal, $b:literal) => {
        Tuple {
            proto: Proto::$proto,
            zone: 0,
            src: 0x0a00_0000 + $src,
            dst: 0x0a00_0000 + $dst,
            a: $a,
            b: $b,
        }
    };
}

/// The part of the flow of UDP.
macro_rules! part {
    ($replied:literal, $deadline:literal) => {
        Part {
            kind: PartKind::Udp,
            replied: $replied,
            assured: false,
            deadline: $deadline,
        }
    };
}

/// The query's entry in a place, as this event, with this deadline.
macro_rules! asked {
    ($id:literal, $place:literal, $deadline:literal) => {
        Event::Confirm {
            subject: Record {
                id: $id,
                place: $place,
                original: tuple!(Udp, 1, 2, 5000, 53),
                reply: tuple!(Udp, 2, 1, 53, 5000),
                part: part!(false, $deadline),
                helper: false,
                master: None,
            },
        }
    };
}

/// The answer at a moment, of the entry with this id, which then lives until the deadline.
macro_rules! answered {
    ($id:literal, $moment:literal, $deadline:literal) => {
        Event::Touch {
            id: $id,
            direction: Direction::Reply,
            segment: Segment::Udp,
            moment: $moment,
            after: part!(true, $deadline),
        }
    };
}

const ASKED: Event = asked!(0, 0, 1_030_000_000);

const ANSWERED: Event = answered!(0, 1_000_500_000, 1_120_500_000);

const FLUSHED: Event = Event::Destroy {
    id: 0,
    why: Why::Flushed,
};

/// The control connection, in place 0.
const CONTROL: Event = Event::Confirm {
    subject: Record {
        id: 0,
        place: 0,
        original: tuple!(Tcp, 1, 2, 5000, 21),
        reply: tuple!(Tcp, 2, 1, 21, 5000),
        part: Part {
            kind: PartKind::Tcp(TcpState::SynSent),
            replied: false,
            assured: false,
            deadline: 121_000_000,
        },
        helper: true,
        master: None,
    },
};

/// What it expects from 2 s on, as this event, in place of an older expectation.
macro_rules! expects {
    ($id:literal, $older:expr) => {
        Event::Expect {
            expectation: Expectation {
                id: $id,
                master: 0,
                want: Want {
                    src: 0x0a00_0002,
                    dst: 0x0a00_0001,
                    port: 40001,
                },
                zone: 0,
                deadline: 302_000_000,
            },
            replaced: $older,
            moment: 2_000_000,
        }
    };
}

/// The data connection, which meets the expectation of this id.
macro_rules! claims {
    ($id:literal) => {
        Event::Claim {
            expectation: $id,
            master: 0,
            tuple: tuple!(Tcp, 2, 1, 20, 40001),
            moment: 3_000_000,
        }
    };
}

/// What is answered to these events, the first of which has this number, of a tracker with so many places and room
/// for so many expectations.
fn answer_from(
    alloc: Global,
    first: u64,
    events: &[Event],
    entries: u32,
    expectations: u32,
) -> Result<Checked, NoMemory> {
    let mut history = History::empty(alloc);
    let mut number = first;
    for event in events {
        let item = Numbered {
            number,
            thread: 0,
            index: 0,
            event: *event,
        };
        history.reserve(1)?;
        history.push(item);
        number = number.saturating_add(1);
    }
    check_history(alloc, &history, entries, expectations)
}

/// The same from number 0 on, of a tracker with two places and room for one expectation.
fn answer(alloc: Global, events: &[Event]) -> Result<Checked, NoMemory> {
    answer_from(alloc, 0, events, 2, 1)
}

#[test]
fn legal_histories(rt: HostRuntime) -> Result<(), Fail> {
    let alloc = rt.alloc();
    assert!(rt; matches!(answer(alloc, &[])?, Checked::Legal { live: 0 }));
    let query = answer(alloc, &[ASKED, ANSWERED])?;
    assert!(rt; matches!(query, Checked::Legal { live: 1 }));
    let flushed = answer(alloc, &[ASKED, ANSWERED, FLUSHED])?;
    assert!(rt; matches!(flushed, Checked::Legal { live: 0 }));
    let anew = answer(alloc, &[ASKED, FLUSHED, asked!(2, 1, 1_031_000_000)])?;
    assert!(rt; matches!(anew, Checked::Legal { live: 1 }));
    let both = answer(alloc, &[CONTROL, expects!(1, None), asked!(2, 1, 9)])?;
    assert!(rt; matches!(both, Checked::Legal { live: 2 }));
    Ok(())
}

#[test]
fn touch_of_no_entry(rt: HostRuntime) -> Result<(), Fail> {
    let alloc = rt.alloc();
    let other = answered!(5, 1_000_500_000, 1_120_500_000);
    assert!(rt;
        matches!(
            answer(alloc, &[ASKED, other])?,
            Checked::Broken { number: 1 }
        )
    );
    let early = answer(alloc, &[ANSWERED, ASKED])?;
    assert!(rt; matches!(early, Checked::Broken { number: 0 }));
    let gone = answer(alloc, &[ASKED, FLUSHED, ANSWERED])?;
    assert!(rt; matches!(gone, Checked::Broken { number: 2 }));
    Ok(())
}

#[test]
fn wrong_last_event(rt: HostRuntime) -> Result<(), Fail> {
    let alloc = rt.alloc();
    let early = Event::Destroy {
        id: 0,
        why: Why::Expired {
            moment: 1_120_499_999,
        },
    };
    let due = Event::Destroy {
        id: 0,
        why: Why::Expired {
            moment: 1_120_500_000,
        },
    };
    let wrong = answer(alloc, &[ASKED, ANSWERED, early])?;
    assert!(rt; matches!(wrong, Checked::Broken { number: 2 }));
    let right = answer(alloc, &[ASKED, ANSWERED, due])?;
    assert!(rt; matches!(right, Checked::Legal { live: 0 }));
    Ok(())
}

#[test]
fn first_of_two_faults(rt: HostRuntime) -> Result<(), Fail> {
    let alloc = rt.alloc();
    let twice = answer(alloc, &[ASKED, FLUSHED, FLUSHED, ANSWERED])?;
    assert!(rt; matches!(twice, Checked::Broken { number: 2 }));
    Ok(())
}

#[test]
fn numbers_that_are_not_the_indices(rt: HostRuntime) -> Result<(), Fail> {
    let alloc = rt.alloc();
    let shifted = answer_from(alloc, 1, &[asked!(1, 0, 9), asked!(2, 1, 9)], 2, 0)?;
    assert!(rt; matches!(shifted, Checked::Broken { number: 0 }));
    let mut history = History::empty(alloc);
    for (number, event) in [(0, ASKED), (2, ANSWERED)] {
        let item = Numbered {
            number,
            thread: 0,
            index: 0,
            event,
        };
        history.reserve(1)?;
        history.push(item);
    }
    let skipped = check_history(alloc, &history, 1, 0)?;
    assert!(rt; matches!(skipped, Checked::Broken { number: 1 }));
    Ok(())
}

#[test]
fn places_and_room(rt: HostRuntime) -> Result<(), Fail> {
    let alloc = rt.alloc();
    let none = answer_from(alloc, 0, &[ASKED], 0, 0)?;
    assert!(rt; matches!(none, Checked::Broken { number: 0 }));
    let one = answer_from(alloc, 0, &[ASKED], 1, 0)?;
    assert!(rt; matches!(one, Checked::Legal { live: 1 }));
    let most = answer_from(alloc, 0, &[ASKED], u32::MAX, u32::MAX)?;
    assert!(rt; matches!(most, Checked::Legal { live: 1 }));
    let expected = answer_from(alloc, 0, &[CONTROL, expects!(1, None)], 1, 0)?;
    assert!(rt; matches!(expected, Checked::Broken { number: 1 }));
    Ok(())
}

#[test]
fn expectations(rt: HostRuntime) -> Result<(), Fail> {
    let alloc = rt.alloc();
    let claimed = answer(alloc, &[CONTROL, expects!(1, None), claims!(1)])?;
    assert!(rt; matches!(claimed, Checked::Legal { live: 1 }));
    let twice = answer(alloc, &[CONTROL, expects!(1, None), claims!(1), claims!(1)])?;
    assert!(rt; matches!(twice, Checked::Broken { number: 3 }));
    let replaced = [CONTROL, expects!(1, None), expects!(2, Some(1)), claims!(1)];
    assert!(rt; matches!(answer(alloc, &replaced)?, Checked::Broken { number: 3 }));
    let orphan = answer(alloc, &[CONTROL, expects!(1, None), FLUSHED, claims!(1)])?;
    assert!(rt; matches!(orphan, Checked::Broken { number: 3 }));
    let unmet = Event::Unexpect {
        expectation: 1,
        moment: 302_000_000,
    };
    let ended = answer(alloc, &[CONTROL, expects!(1, None), unmet, unmet])?;
    assert!(rt; matches!(ended, Checked::Broken { number: 3 }));
    Ok(())
}

#[test]
fn moments_past_those_of_captures(rt: HostRuntime) -> Result<(), Fail> {
    let alloc = rt.alloc();
    let old = asked!(0, 0, 18_446_744_073_709_551_615);
    let kept = answered!(0, 20_000_000_000_000_000, 20_000_000_120_000_000);
    assert!(rt; matches!(answer(alloc, &[old, kept])?, Checked::Legal { live: 1 }));
    let short = answered!(0, 20_000_000_000_000_000, 20_000_000_119_999_999);
    assert!(rt; matches!(answer(alloc, &[old, short])?, Checked::Broken { number: 1 }));
    // Its deadline would be past the last moment that there is.
    let last = answered!(0, 18_446_744_073_709_551_614, 119_999_998);
    assert!(rt; matches!(answer(alloc, &[old, last])?, Checked::Broken { number: 1 }));
    let reset = Event::Destroy {
        id: 0,
        why: Why::Reset {
            segment: Segment::Udp,
            moment: 18_446_744_073_709_551_614,
        },
    };
    assert!(rt; matches!(answer(alloc, &[old, reset])?, Checked::Broken { number: 1 }));
    Ok(())
}
