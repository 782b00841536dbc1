//! Worked flows: a query of UDP with its answer, connections that are reset and reopened, and what a control
//! connection of FTP expects.

use expect_table::expectation::{Expectation, Want};
use history_book::event::{Event, Why};
use history_book::find::{FoundAt, find, find_id, label};
use history_book::legality::{EXPECTED_FOR, expectation_at, is_lawful};
use history_book::record::Record;
use history_book::sizes::Sizes;
use history_book::verdict::Label;
use proto_rules::{Part, PartKind, TcpState};
use tuple_core::{Direction, Kind, Proto, Segment, Tuple};

mod check;
mod merge;
mod packed_lists;

/// From 10.0.0.1:5000 to 10.0.0.2:53.
const QUERY: Tuple = Tuple {
    proto: Proto::Udp,
    zone: 0,
    src: 0x0a00_0001,
    dst: 0x0a00_0002,
    a: 5000,
    b: 53,
};

const ANSWER: Tuple = Tuple {
    proto: Proto::Udp,
    zone: 0,
    src: 0x0a00_0002,
    dst: 0x0a00_0001,
    a: 53,
    b: 5000,
};

/// The part of the query's flow at 1000 s.
const ASKED: Part = Part {
    kind: PartKind::Udp,
    replied: false,
    assured: false,
    deadline: 1_030_000_000,
};

/// Its part after the answer at 1000.5 s.
const ANSWERED: Part = Part {
    kind: PartKind::Udp,
    replied: true,
    assured: false,
    deadline: 1_120_500_000,
};

/// From 10.0.0.1:5000 to 10.0.0.2:80.
const REQUEST: Tuple = Tuple {
    proto: Proto::Tcp,
    zone: 0,
    src: 0x0a00_0001,
    dst: 0x0a00_0002,
    a: 5000,
    b: 80,
};

const RESPONSE: Tuple = Tuple {
    proto: Proto::Tcp,
    zone: 0,
    src: 0x0a00_0002,
    dst: 0x0a00_0001,
    a: 80,
    b: 5000,
};

/// The entry of the query's flow.
const ENTRY: Record = Record {
    id: 0,
    place: 0,
    original: QUERY,
    reply: ANSWER,
    part: ASKED,
    helper: false,
    master: None,
};

/// The entry of a connection in this state, which lives until 100 s.
fn connection(state: TcpState, replied: bool) -> Record {
    Record {
        id: 0,
        place: 0,
        original: REQUEST,
        reply: RESPONSE,
        part: Part {
            kind: PartKind::Tcp(state),
            replied,
            assured: false,
            deadline: 100_000_000,
        },
        helper: false,
        master: None,
    }
}

#[test]
fn found_in_each_direction(rt: HostRuntime) {
    let records = [ENTRY];
    let original = find(&records, &QUERY);
    assert!(rt;
        matches!(
            original,
            Some(FoundAt {
                index: 0,
                direction: Direction::Original
            })
        )
    );
    let reply = find(&records, &ANSWER);
    assert!(rt;
        matches!(
            reply,
            Some(FoundAt {
                index: 0,
                direction: Direction::Reply
            })
        )
    );
    assert!(rt; find(&records, &Tuple { b: 54, ..QUERY }).is_none());
    assert_eq!(rt; find_id(&records, 0), Some(0));
    assert_eq!(rt; find_id(&records, 1), None);
}

#[test]
fn labels(rt: HostRuntime) {
    let answered = Record {
        part: ANSWERED,
        ..ENTRY
    };
    let claimed = Record {
        master: Some(7),
        ..ENTRY
    };
    assert!(rt; matches!(label(&ENTRY, Direction::Original), Label::New));
    assert!(rt; matches!(label(&ENTRY, Direction::Reply), Label::EstablishedReply));
    assert!(rt; matches!(label(&answered, Direction::Original), Label::Established));
    assert!(rt; matches!(label(&claimed, Direction::Original), Label::Related));
    assert!(rt; matches!(label(&claimed, Direction::Reply), Label::EstablishedReply));
    let claimed_answered = Record {
        part: ANSWERED,
        ..claimed
    };
    assert!(rt;
        matches!(
            label(&claimed_answered, Direction::Original),
            Label::Established
        )
    );
    let sent = connection(TcpState::SynSent, false);
    assert!(rt; matches!(label(&sent, Direction::Original), Label::New));
    let closed = connection(TcpState::TimeWait, true);
    assert!(rt; matches!(label(&closed, Direction::Original), Label::Established));
}

/// The sizes of a tracker with so many places.
fn sizes(entries: u32) -> Sizes {
    Sizes {
        entries,
        buckets: 1,
        seed: 1,
        passes: 1,
        expectations: 0,
    }
}

/// Whether the record may be confirmed as event `number`, beside these, in a tracker with so many places.
fn is_confirmed(entries: u32, records: &[Record], number: u64, subject: Record) -> bool {
    is_lawful(
        &sizes(entries),
        records,
        &[],
        number,
        &Event::Confirm { subject },
    )
}

/// Whether such a packet in the reply direction may leave the entry with this part.
fn is_answered(entry: &Record, segment: Segment, moment: u32, after: Part) -> bool {
    let touch = Event::Touch {
        id: 0,
        direction: Direction::Reply,
        segment,
        moment: moment as u64,
        after,
    };
    is_lawful(&sizes(1), &[*entry], &[], 1, &touch)
}

/// Whether the entry may be destroyed as expired.
fn is_expired(entry: &Record, moment: u32) -> bool {
    let why = Why::Expired {
        moment: moment as u64,
    };
    is_lawful(&sizes(1), &[*entry], &[], 1, &Event::Destroy { id: 0, why })
}

/// Whether the entry may be dropped for a new flow.
fn is_dropped(entry: &Record, moment: u32) -> bool {
    let why = Why::Dropped {
        moment: moment as u64,
    };
    is_lawful(&sizes(1), &[*entry], &[], 1, &Event::Destroy { id: 0, why })
}

/// Whether the entry may be destroyed as reopened by such a packet.
fn is_reopened(entry: &Record, direction: Direction, segment: Segment, moment: u32) -> bool {
    let why = Why::Reopened {
        direction,
        segment,
        moment: moment as u64,
    };
    is_lawful(&sizes(1), &[*entry], &[], 1, &Event::Destroy { id: 0, why })
}

/// Whether the entry may be destroyed as reset by such a packet.
fn is_reset(entry: &Record, segment: Segment, moment: u32) -> bool {
    let why = Why::Reset {
        segment,
        moment: moment as u64,
    };
    is_lawful(&sizes(1), &[*entry], &[], 1, &Event::Destroy { id: 0, why })
}

#[test]
fn lawful_confirms(rt: HostRuntime) {
    assert!(rt; is_confirmed(1, &[], 0, ENTRY));
    assert!(rt; !is_confirmed(0, &[], 0, ENTRY));
    assert!(rt; !is_confirmed(1, &[], 1, ENTRY));
    let sent = connection(TcpState::SynSent, false);
    assert!(rt; is_confirmed(1, &[], 0, sent));
    let mixed = Record {
        reply: ANSWER,
        ..sent
    };
    assert!(rt; !is_confirmed(1, &[], 0, mixed));
    let other = Record {
        part: ASKED,
        ..sent
    };
    assert!(rt; !is_confirmed(1, &[], 0, other));
    let second = Record {
        id: 1,
        place: 1,
        ..sent
    };
    assert!(rt; is_confirmed(2, &[ENTRY], 1, second));
    assert!(rt; !is_confirmed(2, &[sent], 1, second));
}

#[test]
fn lawful_touches(rt: HostRuntime) {
    assert!(rt; is_answered(&ENTRY, Segment::Udp, 1_000_500_000, ANSWERED));
    let kept = Part {
        deadline: ASKED.deadline,
        ..ANSWERED
    };
    assert!(rt; !is_answered(&ENTRY, Segment::Udp, 1_000_500_000, kept));
    let ack = Segment::Tcp(Kind::Ack);
    assert!(rt; !is_answered(&ENTRY, ack, 1_000_500_000, ANSWERED));
    let last = Part {
        deadline: 1_149_999_999,
        ..ANSWERED
    };
    assert!(rt; is_answered(&ENTRY, Segment::Udp, 1_029_999_999, last));
    let late = Part {
        deadline: 1_150_000_000,
        ..ANSWERED
    };
    assert!(rt; !is_answered(&ENTRY, Segment::Udp, 1_030_000_000, late));
    let touch = Event::Touch {
        id: 0,
        direction: Direction::Reply,
        segment: Segment::Udp,
        moment: 1_000_500_000,
        after: ANSWERED,
    };
    assert!(rt; !is_lawful(&sizes(1), &[], &[], 1, &touch));
}

#[test]
fn ignored_packet_touches_nothing(rt: HostRuntime) {
    let established = connection(TcpState::Established, true);
    let late = Segment::Tcp(Kind::SynAck);
    assert!(rt; !is_answered(&established, late, 50_000_000, established.part));
}

#[test]
fn destroyed_as_expired(rt: HostRuntime) {
    assert!(rt; !is_expired(&ENTRY, 1_029_999_999));
    assert!(rt; is_expired(&ENTRY, 1_030_000_000));
}

#[test]
fn dropped_where_expired_or_not_assured(rt: HostRuntime) {
    assert!(rt; is_dropped(&ENTRY, 1_000_000_000));
    let mut assured = ENTRY;
    assured.part.assured = true;
    assert!(rt; !is_dropped(&assured, 1_029_999_999));
    assert!(rt; is_dropped(&assured, 1_030_000_000));
}

#[test]
fn destroyed_as_reopened(rt: HostRuntime) {
    let closed = connection(TcpState::TimeWait, true);
    let syn = Segment::Tcp(Kind::Syn);
    let ack = Segment::Tcp(Kind::Ack);
    for direction in [Direction::Original, Direction::Reply] {
        assert!(rt; is_reopened(&closed, direction, syn, 99_999_999));
        assert!(rt; !is_reopened(&closed, direction, syn, 100_000_000));
        assert!(rt; !is_reopened(&closed, direction, ack, 50_000_000));
        assert!(rt; !is_reopened(&closed, direction, Segment::Udp, 50_000_000));
    }
    let begun = Part {
        kind: PartKind::Tcp(TcpState::SynSent),
        replied: true,
        assured: false,
        deadline: 170_000_000,
    };
    assert!(rt; !is_answered(&closed, syn, 50_000_000, begun));
    let dropped = connection(TcpState::Close, true);
    assert!(rt; is_reopened(&dropped, Direction::Original, syn, 50_000_000));
    assert!(rt; !is_reopened(&dropped, Direction::Reply, syn, 50_000_000));
    let sent = connection(TcpState::SynSent, false);
    assert!(rt; !is_reopened(&sent, Direction::Original, syn, 50_000_000));
}

#[test]
fn destroyed_as_reset(rt: HostRuntime) {
    let sent = connection(TcpState::SynSent, false);
    let rst = Segment::Tcp(Kind::Rst);
    let syn = Segment::Tcp(Kind::Syn);
    assert!(rt; is_reset(&sent, rst, 99_999_999));
    assert!(rt; !is_reset(&sent, rst, 100_000_000));
    assert!(rt; !is_reset(&sent, syn, 50_000_000));
    assert!(rt; !is_reset(&sent, Segment::Udp, 50_000_000));
    let received = connection(TcpState::SynRecv, true);
    assert!(rt; !is_reset(&received, rst, 50_000_000));
    let closed = connection(TcpState::TimeWait, true);
    assert!(rt; !is_reset(&closed, syn, 50_000_000));
}

/// The entry of a control connection of FTP, with this id and the helper.
fn control(id: u32) -> Record {
    Record {
        id: id as u64,
        place: id,
        helper: true,
        ..connection(TcpState::Established, true)
    }
}

/// From 10.0.0.2:20 to 10.0.0.1:40001: a data connection in active mode.
const DATA: Tuple = Tuple {
    proto: Proto::Tcp,
    zone: 0,
    src: 0x0a00_0002,
    dst: 0x0a00_0001,
    a: 20,
    b: 40001,
};

/// What expects that data connection.
const WANT: Want = Want {
    src: 0x0a00_0002,
    dst: 0x0a00_0001,
    port: 40001,
};

/// What entry 0 expects from 2 s on, as event 4, and entry 1 from 3 s on, as event 6.
const FIRST: Expectation = Expectation {
    id: 4,
    master: 0,
    want: WANT,
    zone: 0,
    deadline: 302_000_000,
};

const SECOND: Expectation = Expectation {
    id: 6,
    master: 1,
    want: WANT,
    zone: 0,
    deadline: 303_000_000,
};

/// Whether this may be expected as event 9 at 10 s, beside these, where entries 0 and 1 have the helper, entry 2
/// has not, and there is room for two expectations.
fn is_expected(expects: &[Expectation], expectation: Expectation, replaced: Option<u64>) -> bool {
    let plain = Record {
        helper: false,
        ..control(2)
    };
    let roomy = Sizes {
        expectations: 2,
        ..sizes(4)
    };
    let expect = Event::Expect {
        expectation,
        replaced,
        moment: 10_000_000,
    };
    is_lawful(
        &roomy,
        &[control(0), control(1), plain],
        expects,
        9,
        &expect,
    )
}

/// What this entry expects from 10 s on, as event 9.
fn wanted_by(master: u64) -> Expectation {
    expectation_at(9, master, 0, WANT, 10_000_000)
}

/// Whether a packet of the data connection may meet this expectation of this entry, where there are two.
fn is_claimed(expectation: u64, master: u64, moment: u64) -> bool {
    let claim = Event::Claim {
        expectation,
        master,
        tuple: DATA,
        moment,
    };
    is_lawful(&sizes(2), &[], &[FIRST, SECOND], 9, &claim)
}

/// Whether the expectation of this id may end unmet, where there are two.
fn is_unexpected(expectation: u64, moment: u64) -> bool {
    let unexpect = Event::Unexpect {
        expectation,
        moment,
    };
    is_lawful(&sizes(2), &[], &[FIRST, SECOND], 9, &unexpect)
}

#[test]
fn expected_for_300_seconds(rt: HostRuntime) {
    assert_eq!(rt; wanted_by(0).deadline, 310_000_000);
    assert_eq!(rt; EXPECTED_FOR, 300_000_000);
    assert!(rt; is_expected(&[], wanted_by(0), None));
    for deadline in [309_999_999, 310_000_001, 10_000_000] {
        let other = Expectation {
            deadline,
            ..wanted_by(0)
        };
        assert!(rt; !is_expected(&[], other, None));
    }
}

#[test]
fn expected_under_the_number_of_its_event(rt: HostRuntime) {
    for id in [8, 10] {
        let other = Expectation { id, ..wanted_by(0) };
        assert!(rt; !is_expected(&[], other, None));
    }
}

#[test]
fn only_the_helper_expects(rt: HostRuntime) {
    assert!(rt; is_expected(&[], wanted_by(1), None));
    assert!(rt; !is_expected(&[], wanted_by(2), None));
    assert!(rt; !is_expected(&[], wanted_by(3), None));
}

#[test]
fn older_expectation_is_replaced(rt: HostRuntime) {
    assert!(rt; is_expected(&[FIRST], wanted_by(0), Some(4)));
    assert!(rt; !is_expected(&[FIRST], wanted_by(0), Some(6)));
    assert!(rt; !is_expected(&[FIRST], wanted_by(0), None));
    assert!(rt; !is_expected(&[], wanted_by(0), Some(4)));
}

#[test]
fn clash_with_another_master(rt: HostRuntime) {
    assert!(rt; !is_expected(&[FIRST], wanted_by(1), None));
    let due = Expectation {
        deadline: 10_000_001,
        ..FIRST
    };
    assert!(rt; !is_expected(&[due], wanted_by(1), None));
    let passed = Expectation {
        deadline: 10_000_000,
        ..FIRST
    };
    assert!(rt; is_expected(&[passed], wanted_by(1), None));
    let elsewhere = Expectation {
        want: Want {
            port: 40002,
            ..WANT
        },
        ..wanted_by(1)
    };
    assert!(rt; is_expected(&[FIRST], elsewhere, None));
}

#[test]
fn full_list_takes_only_what_replaces(rt: HostRuntime) {
    let elsewhere = Want {
        port: 40002,
        ..WANT
    };
    let held = |id: u64, master: u64| Expectation {
        id,
        master,
        want: elsewhere,
        zone: 0,
        deadline: 302_000_000,
    };
    assert!(rt; is_expected(&[held(4, 7)], wanted_by(0), None));
    assert!(rt; !is_expected(&[held(4, 7), held(6, 1)], wanted_by(0), None));
    assert!(rt; is_expected(&[held(4, 7), held(6, 1)], wanted_by(1), Some(6)));
}

#[test]
fn first_match_is_claimed(rt: HostRuntime) {
    assert!(rt; is_claimed(4, 0, 301_999_999));
    assert!(rt; !is_claimed(6, 1, 301_999_999));
    assert!(rt; !is_claimed(4, 1, 301_999_999));
    assert!(rt; !is_claimed(5, 0, 301_999_999));
}

#[test]
fn nothing_is_claimed_at_its_deadline(rt: HostRuntime) {
    assert!(rt; !is_claimed(4, 0, 302_000_000));
    assert!(rt; is_claimed(6, 1, 302_000_000));
    assert!(rt; !is_claimed(6, 1, 303_000_000));
}

#[test]
fn other_packets_claim_nothing(rt: HostRuntime) {
    let other_port = Tuple { b: 40002, ..DATA };
    let datagram = Tuple {
        proto: Proto::Udp,
        zone: 0,
        ..DATA
    };
    let any_source = Tuple { a: 21, ..DATA };
    for (tuple, is_met) in [(other_port, false), (datagram, false), (any_source, true)] {
        let claim = Event::Claim {
            expectation: 4,
            master: 0,
            tuple,
            moment: 2_000_000,
        };
        assert_eq!(rt;
            is_lawful(&sizes(2), &[], &[FIRST, SECOND], 9, &claim),
            is_met
        );
    }
}

#[test]
fn unexpected_from_its_deadline_on(rt: HostRuntime) {
    assert!(rt; !is_unexpected(4, 301_999_999));
    assert!(rt; is_unexpected(4, 302_000_000));
    assert!(rt; !is_unexpected(6, 302_999_999));
    assert!(rt; is_unexpected(6, 303_000_000));
    assert!(rt; !is_unexpected(5, 400_000_000));
}
