//! The calls of the table, one after the other.

use expect_table::expectation::{Expectation, Want};
use expect_table::table::{AddOutcome, ExpectTable};
use std::process::Abort;
use std::test::Fail;
use tuple_core::{Proto, Tuple};

const CLIENT: u32 = 0x0a00_0001;

const SERVER: u32 = 0x0a00_0002;

/// What is expected of the server, at this port of the client.
fn want(port: u16) -> Want {
    Want {
        src: SERVER,
        dst: CLIENT,
        port,
    }
}

/// Expected of this master until 300.
fn expected(id: u64, master: u64, port: u16) -> Expectation {
    Expectation {
        id,
        master,
        want: want(port),
        zone: 0,
        deadline: 300,
    }
}

/// A packet from the server to this port of the client.
fn packet(proto: Proto, port: u16) -> Tuple {
    Tuple {
        proto,
        zone: 0,
        src: SERVER,
        dst: CLIENT,
        a: 20,
        b: port,
    }
}

/// Adds, where the id is above all in the table, and says in words what came of it.
fn added<R: Abort>(rt: &R, table: &mut ExpectTable, e: Expectation, moment: u64) -> AddOutcome {
    for index in 0..table.len() {
        assert!(rt; index < table.len());
        assert!(rt; table.at(index).id < e.id);
    }
    table.add(e, moment)
}

/// The ids in the table, in order.
fn ids<R: AllocGlobal>(rt: &R, table: &ExpectTable) -> Result<Vec<u64>, Fail> {
    let mut ids = Vec::new(rt.alloc());
    for index in 0..table.len() {
        ids.push(table.at(index).id)?;
    }
    Ok(ids)
}

#[test]
fn expectations_come_and_go(rt: HostRuntime) -> Result<(), Fail> {
    let mut table = ExpectTable::new(rt.alloc(), 2)?;
    assert_eq!(rt; table.len(), 0);
    let first = added(&rt, &mut table, expected(4, 0, 40_001), 0);
    assert!(rt; matches!(first, AddOutcome::Added { replaced: None }));
    // The same want, of another master: until 300 it stands in the way, and from then on no longer.
    let clash = added(&rt, &mut table, expected(6, 1, 40_001), 299);
    assert!(rt; matches!(clash, AddOutcome::Clash { id: 4 }));
    let due = added(&rt, &mut table, expected(6, 1, 40_001), 300);
    assert!(rt; matches!(due, AddOutcome::Added { replaced: None }));
    assert!(rt; ids(&rt, &table)?.as_slice() == [4, 6].as_slice());
    // Of another zone nothing stands in the way: here there is no room.
    let mut elsewhere = expected(7, 2, 40_001);
    elsewhere.zone = 1;
    assert!(rt; matches!(table.outcome(&elsewhere, 0), AddOutcome::Full));
    // There is no room for a third, but one of the same master takes the older one's place, also with its want.
    let full = added(&rt, &mut table, expected(7, 2, 40_002), 0);
    assert!(rt; matches!(full, AddOutcome::Full));
    let replaced = added(&rt, &mut table, expected(8, 0, 40_003), 0);
    assert!(rt; matches!(replaced, AddOutcome::Added { replaced: Some(4) }));
    assert!(rt; ids(&rt, &table)?.as_slice() == [6, 8].as_slice());
    let again = added(&rt, &mut table, expected(9, 0, 40_003), 0);
    assert!(rt; matches!(again, AddOutcome::Added { replaced: Some(8) }));
    // A clash is told before a full table.
    let both = added(&rt, &mut table, expected(10, 2, 40_003), 0);
    assert!(rt; matches!(both, AddOutcome::Clash { id: 9 }));
    assert!(rt; table.remove(6));
    assert!(rt; !table.remove(6));
    assert!(rt; table.remove_master(1).is_none());
    assert!(rt; table.remove_master(0) == Some(9));
    assert_eq!(rt; table.len(), 0);
    Ok(())
}

#[test]
fn what_matches(rt: HostRuntime) -> Result<(), Fail> {
    let mut table = ExpectTable::new(rt.alloc(), 3)?;
    added(&rt, &mut table, expected(4, 0, 40_001), 0);
    added(&rt, &mut table, expected(6, 1, 40_002), 0);
    // The packet's protocol and port, the moment, and the id that matches.
    for (proto, port, moment, id) in [
        (Proto::Tcp, 40_001, 0, Some(4)),
        (Proto::Tcp, 40_002, 299, Some(6)),
        (Proto::Tcp, 40_002, 300, None),
        (Proto::Udp, 40_001, 0, None),
        (Proto::Tcp, 40_003, 0, None),
    ] {
        let found = table.matching(&packet(proto, port), moment);
        assert!(rt; found.map(|e| e.id) == id, "port {port} at {moment}");
    }
    let mut other = packet(Proto::Tcp, 40_001);
    other.src = CLIENT;
    assert!(rt; table.matching(&other, 0).is_none());
    other = packet(Proto::Tcp, 40_001);
    other.dst = SERVER;
    assert!(rt; table.matching(&other, 0).is_none());
    // The same in another zone.
    other = packet(Proto::Tcp, 40_001).in_zone(1);
    assert!(rt; table.matching(&other, 0).is_none());
    // Any source port is expected.
    other = packet(Proto::Tcp, 40_001);
    other.a = 1;
    assert!(rt; table.matching(&other, 0).is_some());
    // The first of two that are wanted at once matches.
    added(&rt, &mut table, expected(8, 2, 40_001), 300);
    let first = table.matching(&packet(Proto::Tcp, 40_001), 0);
    assert!(rt; first.map(|e| e.id) == Some(4));
    Ok(())
}
