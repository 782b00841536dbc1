//! The tables typed row by row, and worked flows.

use proto_rules::TcpState::{
    Close, CloseWait, Established, FinWait, LastAck, SynRecv, SynSent, SynSent2, TimeWait, Unset,
};
use proto_rules::{
    Cell, Outcome, Part, PartKind, TcpState, droppable, is_of_protocol, is_same_part, proto_of,
    start, step, tcp_cell,
};
use std::alloc::{AllocError, Global};
use std::process::Abort;
use std::test::Fail;
use tuple_core::Direction::{Original, Reply};
use tuple_core::Kind::{Ack, Bare, Fin, Rst, Syn, SynAck};
use tuple_core::{Direction, Kind, Proto, Segment};

const STATES: [TcpState; 10] = [
    Unset,
    SynSent,
    SynRecv,
    Established,
    FinWait,
    CloseWait,
    LastAck,
    TimeWait,
    Close,
    SynSent2,
];

/// The cell as the tables write it.
fn word_of(cell: Cell) -> &'static str {
    match cell {
        Cell::To(Unset) => "NO",
        Cell::To(SynSent) => "SS",
        Cell::To(SynRecv) => "SR",
        Cell::To(Established) => "ES",
        Cell::To(FinWait) => "FW",
        Cell::To(CloseWait) => "CW",
        Cell::To(LastAck) => "LA",
        Cell::To(TimeWait) => "TW",
        Cell::To(Close) => "CL",
        Cell::To(SynSent2) => "S2",
        Cell::Invalid => "IV",
        Cell::Ignored => "IG",
    }
}

/// The row of a table, a space after each cell.
fn row_of(alloc: Global, direction: Direction, tcp_kind: Kind) -> Result<String, AllocError> {
    let mut text = String::new(alloc);
    for state in &STATES {
        text.push_str(word_of(tcp_cell(direction, tcp_kind, *state)))?;
        text.push_str(" ")?;
    }
    Ok(text)
}

#[test]
fn cells_of_the_original_direction(rt: HostRuntime) -> Result<(), Fail> {
    for (tcp_kind, row) in [
        (Syn, "SS SS IG IG IG IG IG SS SS S2 "),
        (SynAck, "IV IV SR IV IV IV IV IV IV SR "),
        (Fin, "IV IV FW FW LA LA LA TW CL IV "),
        (Ack, "ES IV ES ES CW CW TW TW CL IV "),
        (Rst, "IV CL CL CL CL CL CL CL CL CL "),
        (Bare, "IV IV IV IV IV IV IV IV IV IV "),
    ] {
        assert_eq!(rt; row_of(rt.alloc(), Original, tcp_kind)?.as_str(), row);
    }
    Ok(())
}

#[test]
fn cells_of_the_reply_direction(rt: HostRuntime) -> Result<(), Fail> {
    for (tcp_kind, row) in [
        (Syn, "IV S2 IV IV IV IV IV SS IV S2 "),
        (SynAck, "IV SR IG IG IG IG IG IG IG SR "),
        (Fin, "IV IV FW FW LA LA LA TW CL IV "),
        (Ack, "IV IG SR ES CW CW TW TW CL IG "),
        (Rst, "IV CL CL CL CL CL CL CL CL CL "),
        (Bare, "IV IV IV IV IV IV IV IV IV IV "),
    ] {
        assert_eq!(rt; row_of(rt.alloc(), Reply, tcp_kind)?.as_str(), row);
    }
    Ok(())
}

/// A part whose deadline is at this second.
fn part(kind: PartKind, replied: bool, assured: bool, second: u32) -> Part {
    Part {
        kind,
        replied,
        assured,
        deadline: second as u64 * 1_000_000,
    }
}

fn tcp(state: TcpState, replied: bool, assured: bool, second: u32) -> Part {
    part(PartKind::Tcp(state), replied, assured, second)
}

/// Whether an entry begins with this segment at second 1, as this part.
fn begins_as(segment: Segment, part: &Part) -> bool {
    match start(segment, 1_000_000) {
        Some(begun) => is_same_part(&begun, part),
        None => false,
    }
}

/// What a packet at this second does to an entry of its protocol.
fn step_at<R: Abort>(
    rt: &R,
    part: &Part,
    second: u16,
    way: Direction,
    segment: Segment,
) -> Outcome {
    assert!(rt; is_of_protocol(segment, part.kind));
    step(part, way, segment, second as u64 * 1_000_000)
}

/// The part that a packet at this second leaves, where it is accepted.
fn accept<R: Abort>(rt: &R, part: &Part, second: u16, way: Direction, segment: Segment) -> Part {
    match step_at(rt, part, second, way, segment) {
        Outcome::Accept(after) => after,
        Outcome::Ignore | Outcome::Invalid | Outcome::Reopen | Outcome::Reset | Outcome::Expired =>
            { panic!(rt; "the packet at {second} s is not accepted") }
    }
}

#[test]
fn connection_from_its_first_segment_to_a_new_one(rt: HostRuntime) {
    let mut part = tcp(SynSent, false, false, 121);
    assert!(rt; begins_as(Segment::Tcp(Syn), &part));
    for (second, way, tcp_kind, state, assured, deadline) in [
        (2, Reply, SynAck, SynRecv, false, 62),
        (3, Original, Ack, Established, true, 432_003),
        (4, Original, Ack, Established, true, 432_004),
        (5, Original, Fin, FinWait, true, 125),
        (6, Reply, Fin, LastAck, true, 36),
        (7, Original, Ack, TimeWait, true, 127),
    ] {
        part = accept(&rt, &part, second, way, Segment::Tcp(tcp_kind));
        assert!(rt;
            is_same_part(&part, &tcp(state, true, assured, deadline)),
            "at {second} s"
        );
    }
    let syn = Segment::Tcp(Syn);
    for (second, way, expired) in [
        (8, Original, false),
        (126, Reply, false),
        (127, Original, true),
    ] {
        match step_at(&rt, &part, second, way, syn) {
            Outcome::Reopen => assert!(rt; !expired, "at {second} s"),
            Outcome::Expired => assert!(rt; expired, "at {second} s"),
            Outcome::Accept(_) | Outcome::Ignore | Outcome::Invalid | Outcome::Reset => {
                panic!(rt; "at {second} s")
            }
        }
    }
}

#[test]
fn reset_connections(rt: HostRuntime) {
    let rst = Segment::Tcp(Rst);
    let syn = Segment::Tcp(Syn);
    let sent = tcp(SynSent, false, false, 121);
    for way in [Original, Reply] {
        let outcome = step_at(&rt, &sent, 2, way, rst);
        assert!(rt; matches!(outcome, Outcome::Reset));
    }
    let received = tcp(SynRecv, true, false, 62);
    let closed = accept(&rt, &received, 3, Reply, rst);
    assert!(rt; is_same_part(&closed, &tcp(Close, true, false, 13)));
    let original = step_at(&rt, &closed, 4, Original, syn);
    assert!(rt; matches!(original, Outcome::Reopen));
    let reply = step_at(&rt, &closed, 4, Reply, syn);
    assert!(rt; matches!(reply, Outcome::Invalid));
}

#[test]
fn connection_seen_from_its_middle(rt: HostRuntime) {
    let ack = Segment::Tcp(Ack);
    let mut part = tcp(Established, false, false, 301);
    assert!(rt; begins_as(ack, &part));
    for (second, way, replied, assured, deadline) in [
        (2, Original, false, false, 302),
        (3, Reply, true, false, 303),
        (5, Reply, true, true, 432_005),
    ] {
        part = accept(&rt, &part, second, way, ack);
        assert!(rt; is_same_part(&part, &tcp(Established, replied, assured, deadline)));
    }
    let late = step_at(&rt, &part, 6, Reply, Segment::Tcp(SynAck));
    assert!(rt; matches!(late, Outcome::Ignore));
    for tcp_kind in [SynAck, Fin, Rst, Bare] {
        assert!(rt; start(Segment::Tcp(tcp_kind), 0).is_none());
    }
}

#[test]
fn udp_query_and_answer(rt: HostRuntime) {
    let udp = Segment::Udp;
    let asked = part(PartKind::Udp, false, false, 31);
    assert!(rt; begins_as(udp, &asked));
    let silent = accept(&rt, &asked, 30, Original, udp);
    assert!(rt; is_same_part(&silent, &part(PartKind::Udp, false, false, 60)));
    let late = step_at(&rt, &asked, 31, Original, udp);
    assert!(rt; matches!(late, Outcome::Expired));
    let answered = accept(&rt, &asked, 2, Reply, udp);
    assert!(rt; is_same_part(&answered, &part(PartKind::Udp, true, false, 122)));
    let again = accept(&rt, &answered, 3, Original, udp);
    assert!(rt; is_same_part(&again, &part(PartKind::Udp, true, true, 123)));
}

#[test]
fn icmp_request_and_reply(rt: HostRuntime) {
    let asked = part(PartKind::Icmp, false, false, 31);
    assert!(rt; begins_as(Segment::Icmp(8), &asked));
    let answered = accept(&rt, &asked, 2, Reply, Segment::Icmp(0));
    assert!(rt; is_same_part(&answered, &part(PartKind::Icmp, true, false, 32)));
    let again = accept(&rt, &answered, 3, Original, Segment::Icmp(8));
    assert!(rt; is_same_part(&again, &part(PartKind::Icmp, true, false, 33)));
    for kind in [13, 15, 17] {
        assert!(rt; start(Segment::Icmp(kind), 0).is_some(), "type {kind}");
    }
    for kind in [0, 3, 14, 16, 18] {
        assert!(rt; start(Segment::Icmp(kind), 0).is_none(), "type {kind}");
    }
}

#[test]
fn protocols_of_parts(rt: HostRuntime) {
    assert!(rt; proto_of(PartKind::Tcp(Close)) == Proto::Tcp);
    assert!(rt; proto_of(PartKind::Udp) == Proto::Udp);
    assert!(rt; proto_of(PartKind::Icmp) == Proto::Icmp);
    assert!(rt; !is_of_protocol(Segment::Udp, PartKind::Icmp));
}

/// The states in which an entry of TCP may be dropped, a space after each.
fn droppable_states(alloc: Global, assured: bool) -> Result<String, AllocError> {
    let mut text = String::new(alloc);
    for state in &STATES {
        let part = Part {
            kind: PartKind::Tcp(*state),
            replied: true,
            assured,
            deadline: 5,
        };
        if droppable(&part) {
            text.push_str(word_of(Cell::To(*state)))?;
            text.push_str(" ")?;
        }
    }
    Ok(text)
}

#[test]
fn entries_that_may_be_dropped(rt: HostRuntime) -> Result<(), Fail> {
    assert_eq!(rt;
        droppable_states(rt.alloc(), false)?.as_str(),
        "NO SS SR ES FW CW LA TW CL S2 "
    );
    assert_eq!(rt;
        droppable_states(rt.alloc(), true)?.as_str(),
        "FW CW LA TW CL "
    );
    for (kind, assured, may_go) in [
        (PartKind::Udp, false, true),
        (PartKind::Udp, true, false),
        (PartKind::Icmp, false, true),
        (PartKind::Icmp, true, false),
    ] {
        let part = Part {
            kind,
            replied: true,
            assured,
            deadline: 5,
        };
        assert_eq!(rt; droppable(&part), may_go);
    }
    Ok(())
}
