//! Zones, which are printed where they are not 0.

use super::answers::{answer, answered};
use super::{ANSWER, QUERY, check, event, part, report_of};
use expect_table::expectation::{Expectation, Want};
use history_book::answer::{Row, Rows, Said};
use history_book::event::Event;
use history_book::record::Record;
use history_book::report::Expectations;
use std::test::Fail;

/// The flow of UDP in zone 7, which was not answered.
fn asked(id: u64) -> Record {
    Record {
        id,
        place: 0,
        original: QUERY.in_zone(7),
        reply: ANSWER.in_zone(7),
        part: part(false, false, 1_030_000_000),
        helper: false,
        master: None,
    }
}

/// An expectation in the highest zone.
const EXPECTED: Expectation = Expectation {
    id: 6,
    master: 4,
    want: Want {
        src: 0x0a00_0002,
        dst: 0x0a00_0001,
        port: 40_002,
    },
    zone: 65_535,
    deadline: 1_300_999_999,
};

#[test]
fn events_name_their_zone(rt: HostRuntime) -> Result<(), Fail> {
    let subject = asked(0);
    let expect = Event::Expect {
        expectation: EXPECTED,
        replaced: Some(5),
        moment: 0,
    };
    let events = [event(0, 0, Event::Confirm { subject }), event(6, 1, expect)];
    let report = report_of(rt.alloc(), &events, &[&[]])?;
    check(
        &rt,
        rt.alloc(),
        &report,
        "\
events 2
0 confirm 0.0 udp src=10.0.0.1 dst=10.0.0.2 sport=5000 dport=53 src=10.0.0.2 dst=10.0.0.1 sport=53 dport=5000 until=1030000000 zone=7
6 expect 0.1 master=4 src=10.0.0.2 dst=10.0.0.1 dport=40002 until=1300999999 replaces=5 zone=65535
thread 0 packets 0
script 0
",
    )?;
    Ok(())
}

#[test]
fn rows_name_their_zone(rt: HostRuntime) -> Result<(), Fail> {
    let alloc = rt.alloc();
    let mut rows = Rows::new(alloc, 0)?;
    rows.append(&[Row {
        subject: asked(0),
        at: 3,
    }])?;
    let mut expected = Expectations::new(alloc, 0)?;
    expected.append(&[EXPECTED])?;
    let report = report_of(alloc, &[], &[])?;
    let report = answered(report, answer(Said::Listed(rows), 3, 3, 0))?;
    let report = answered(report, answer(Said::Expectations(expected), 7, 7, 0))?;
    check(
        &rt,
        alloc,
        &report,
        "\
events 0
script 2
0 list 1 @3 @3
udp      17 29 src=10.0.0.1 dst=10.0.0.2 sport=5000 dport=53 [UNREPLIED] src=10.0.0.2 dst=10.0.0.1 sport=53 dport=5000 zone=7 @3
1 expectations 1 @7
299 proto=6 src=10.0.0.2 dst=10.0.0.1 sport=0 dport=40002 master=4 zone=65535 @7
",
    )?;
    Ok(())
}
