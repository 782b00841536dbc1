//! The texts of answers to commands, which are built by hand.

use super::{ANSWER, QUERY, check, query, report_of};
use expect_table::expectation::{Expectation, Want};
use history_book::answer::{Answer, Answers, Row, Rows, Said};
use history_book::event::{Event, Numbered, Why};
use history_book::filter::Filter;
use history_book::record::Record;
use history_book::report::{Expectations, Report};
use proto_rules::{Part, PartKind, TcpState};
use std::alloc::Global;
use std::process::Abort;
use std::test::Fail;
use tuple_core::{NoMemory, Proto, Tuple};

/// The moment of the script: 1001 s.
const MOMENT: u64 = 1_001_000_000;

/// The answered entry of UDP, which lives for another 119.5 s.
const ANSWERED: Record = Record {
    id: 0,
    place: 0,
    original: QUERY,
    reply: ANSWER,
    part: Part {
        kind: PartKind::Udp,
        replied: true,
        assured: false,
        deadline: 1_120_500_000,
    },
    helper: false,
    master: None,
};

/// The entry of a connection from 10.0.0.1:40000 to 10.0.0.2:80 that was not answered.
const OPENED: Record = Record {
    id: 2,
    place: 1,
    original: Tuple {
        proto: Proto::Tcp,
        zone: 0,
        src: 0x0a00_0001,
        dst: 0x0a00_0002,
        a: 40_000,
        b: 80,
    },
    reply: Tuple {
        proto: Proto::Tcp,
        zone: 0,
        src: 0x0a00_0002,
        dst: 0x0a00_0001,
        a: 80,
        b: 40_000,
    },
    part: Part {
        kind: PartKind::Tcp(TcpState::SynSent),
        replied: false,
        assured: false,
        deadline: 1_121_000_000,
    },
    helper: false,
    master: None,
};

/// The entry of an echo, expired at the moment.
const ECHO: Record = Record {
    id: 5,
    place: 2,
    original: Tuple {
        proto: Proto::Icmp,
        zone: 0,
        src: 0x0a00_0001,
        dst: 0x0a00_0002,
        a: 7,
        b: 0x0800,
    },
    reply: Tuple {
        proto: Proto::Icmp,
        zone: 0,
        src: 0x0a00_0002,
        dst: 0x0a00_0001,
        a: 7,
        b: 0,
    },
    part: Part {
        kind: PartKind::Icmp,
        replied: true,
        assured: true,
        deadline: MOMENT,
    },
    helper: false,
    master: None,
};

/// An answer between these points, by so many events.
pub(super) fn answer(said: Said, from: u64, to: u64, made: u64) -> Answer {
    Answer {
        said,
        from,
        to,
        first: 0,
        made,
        moment: MOMENT,
    }
}

/// These entries, as they stood at this point.
fn rows(alloc: Global, subjects: &[Record], at: u64) -> Result<Rows, NoMemory> {
    let mut rows = Rows::new(alloc, 0)?;
    for subject in subjects {
        rows.append(&[Row {
            subject: *subject,
            at,
        }])?;
    }
    Ok(rows)
}

/// A report of no event and no capture, with one answer more.
pub(super) fn answered(report: Report, said: Answer) -> Result<Report, NoMemory> {
    let Report {
        history,
        live,
        threads,
        answers,
    } = report;
    let mut more: Answers = answers;
    more.reserve(1)?;
    more.push(said);
    Ok(Report {
        history,
        live,
        threads,
        answers: more,
    })
}

#[test]
fn script_over_two_entries(rt: HostRuntime) -> Result<(), Fail> {
    let alloc = rt.alloc();
    let both = rows(alloc, &[ANSWERED, OPENED], 3)?;
    let one = rows(alloc, &[ANSWERED], 3)?;
    let report = report_of(alloc, &[], &[])?;
    let report = answered(report, answer(Said::Listed(both), 3, 3, 0))?;
    let report = answered(report, answer(Said::Deleted(one), 3, 4, 1))?;
    let report = answered(report, answer(Said::Counted(1), 4, 4, 0))?;
    let report = answered(report, answer(Said::Flushed, 4, 5, 1))?;
    let report = answered(report, answer(Said::Got(None), 5, 5, 0))?;
    let none = rows(alloc, &[], 0)?;
    let report = answered(report, answer(Said::Listed(none), 5, 5, 0))?;
    check(
        &rt,
        alloc,
        &report,
        "\
events 0
script 6
0 list 2 @3 @3
udp      17 119 src=10.0.0.1 dst=10.0.0.2 sport=5000 dport=53 src=10.0.0.2 dst=10.0.0.1 sport=53 dport=5000 @3
tcp      6 120 SYN_SENT src=10.0.0.1 dst=10.0.0.2 sport=40000 dport=80 [UNREPLIED] src=10.0.0.2 dst=10.0.0.1 sport=80 dport=40000 @3
1 deleted 1 @3 @4
udp      17 119 src=10.0.0.1 dst=10.0.0.2 sport=5000 dport=53 src=10.0.0.2 dst=10.0.0.1 sport=53 dport=5000 @3
2 count 1 @4
3 flushed 1 @4 @5
4 get 0 @5
5 list 0 @5 @5
",
    )?;
    Ok(())
}

#[test]
fn expectations_and_an_expired_entry(rt: HostRuntime) -> Result<(), Fail> {
    let alloc = rt.alloc();
    let mut expected = Expectations::new(alloc, 0)?;
    expected.append(&[Expectation {
        id: 6,
        master: 4,
        want: Want {
            src: 0x0a00_0002,
            dst: 0x0a00_0001,
            port: 40_002,
        },
        zone: 0,
        deadline: 1_300_999_999,
    }])?;
    let report = report_of(alloc, &[], &[])?;
    let report = answered(report, answer(Said::Expectations(expected), 7, 7, 0))?;
    let row = Row {
        subject: ECHO,
        at: 7,
    };
    let report = answered(report, answer(Said::Got(Some(row)), 7, 7, 0))?;
    let expired = Said::Expired {
        entries: 1,
        expectations: 2,
    };
    let report = answered(report, answer(expired, 7, 10, 3))?;
    check(
        &rt,
        alloc,
        &report,
        "\
events 0
script 3
0 expectations 1 @7
299 proto=6 src=10.0.0.2 dst=10.0.0.1 sport=0 dport=40002 master=4 @7
1 get 1 @7
icmp     1 0 src=10.0.0.1 dst=10.0.0.2 type=8 code=0 id=7 src=10.0.0.2 dst=10.0.0.1 type=0 code=0 id=7 [ASSURED] @7
2 expired 1 2 @7 @10
",
    )?;
    Ok(())
}

/// Event `number`: this command destroyed an entry for the reason. The script is thread 1.
fn destroyed(number: u64, index: u32, id: u64, why: Why) -> Numbered {
    Numbered {
        number,
        thread: 1,
        index,
        event: Event::Destroy { id, why },
    }
}

#[test]
fn events_of_a_script(rt: HostRuntime) -> Result<(), Fail> {
    let alloc = rt.alloc();
    let filter = Filter {
        proto: Some(Proto::Udp),
        src: None,
        dst: None,
        reply_src: None,
        reply_dst: None,
        sport: None,
        dport: None,
        zone: None,
    };
    let events = [
        query(0, 0, 1_030_000_000),
        destroyed(1, 1, 0, Why::Deleted { filter }),
        destroyed(2, 12, 7, Why::Flushed),
        destroyed(3, 13, 8, Why::Expired { moment: MOMENT }),
        destroyed(4, 14, 9, Why::Dropped { moment: MOMENT }),
    ];
    let report = report_of(alloc, &events, &[&[]])?;
    check(
        &rt,
        alloc,
        &report,
        "\
events 5
0 confirm 0.0 udp src=10.0.0.1 dst=10.0.0.2 sport=5000 dport=53 src=10.0.0.2 dst=10.0.0.1 sport=53 dport=5000 until=1030000000
1 destroy s.1 id=0 deleted
2 destroy s.12 id=7 flushed
3 destroy s.13 id=8 expired
4 destroy s.14 id=9 dropped
thread 0 packets 0
script 0
",
    )?;
    Ok(())
}
