//! Whole texts of reports that are built by hand.

use ct_io::MemSink;
use expect_table::expectation::{Expectation, Want};
use history_book::answer::Answers;
use history_book::event::{Event, Numbered, Why};
use history_book::record::Record;
use history_book::report::{History, Report, ThreadVerdicts, Verdicts};
use history_book::verdict::{Class, Ftp, Label, Translated, UntrackedWhy, Verdict};
use proto_rules::{Part, PartKind, TcpState};
use report_text::page::LONGEST_LINE;
use report_text::write::{write_each, write_report};
use std::alloc::Global;
use std::process::Abort;
use std::test::Fail;
use tuple_core::{Direction, Kind, NoMemory, Proto, Segment, Tuple};

mod answers;
mod summary;
mod zones;

/// The flow of UDP from 10.0.0.1:5000 to 10.0.0.2:53.
const QUERY: Tuple = Tuple {
    proto: Proto::Udp,
    zone: 0,
    src: 0x0a00_0001,
    dst: 0x0a00_0002,
    a: 5000,
    b: 53,
};

const ANSWER: Tuple = Tuple {
    proto: Proto::Udp,
    zone: 0,
    src: 0x0a00_0002,
    dst: 0x0a00_0001,
    a: 53,
    b: 5000,
};

/// A segment that begins a connection. No line prints it.
const SYN: Segment = Segment::Tcp(Kind::Syn);

fn part(replied: bool, assured: bool, deadline: u64) -> Part {
    Part {
        kind: PartKind::Udp,
        replied,
        assured,
        deadline,
    }
}

/// Event `number`: packet `index` of thread 0 began the flow of UDP.
fn query(number: u64, index: u32, deadline: u64) -> Numbered {
    Numbered {
        number,
        thread: 0,
        index,
        event: Event::Confirm {
            subject: Record {
                id: number,
                place: 0,
                original: QUERY,
                reply: ANSWER,
                part: part(false, false, deadline),
                helper: false,
                master: None,
            },
        },
    }
}

/// Event 1: packet 1 of thread 0 belongs to the flow of event 0.
fn touch(direction: Direction, after: Part) -> Numbered {
    Numbered {
        number: 1,
        thread: 0,
        index: 1,
        event: Event::Touch {
            id: 0,
            direction,
            segment: Segment::Udp,
            moment: 0,
            after,
        },
    }
}

fn verdict(class: Class) -> Verdict {
    Verdict {
        class,
        first: 0,
        made: 0,
    }
}

fn error(direction: Direction) -> Verdict {
    verdict(Class::Error {
        direction,
        id: 16,
        at: 17,
    })
}

fn made(id: u64, at: u64) -> Verdict {
    verdict(Class::Made {
        id,
        at,
        translated: Translated::Plain,
        unclaimed: Some(at),
    })
}

/// A new entry that met an expectation.
fn related(id: u64, at: u64) -> Verdict {
    verdict(Class::Made {
        id,
        at,
        translated: Translated::Plain,
        unclaimed: None,
    })
}

fn passed(label: Label, at: u64, ftp: Ftp) -> Verdict {
    verdict(Class::Passed {
        label,
        id: 0,
        at,
        ftp,
    })
}

/// A list of these verdicts.
fn verdicts_of(alloc: Global, items: &[Verdict]) -> Result<Verdicts, NoMemory> {
    let mut verdicts = Verdicts::empty(alloc);
    for item in items {
        verdicts.reserve(1)?;
        verdicts.push(*item);
    }
    Ok(verdicts)
}

/// A report with these events, and these verdicts for each thread.
fn report_of(
    alloc: Global,
    events: &[Numbered],
    verdicts: &[&[Verdict]],
) -> Result<Report, NoMemory> {
    let mut history = History::empty(alloc);
    for event in events {
        history.reserve(1)?;
        history.push(*event);
    }
    let mut threads = ThreadVerdicts::new(alloc, 0)?;
    for list in verdicts {
        let own = verdicts_of(alloc, list)?;
        threads.reserve(1)?;
        threads.push(own);
    }
    Ok(Report {
        history,
        live: 1,
        threads,
        answers: Answers::new(alloc, 0)?,
    })
}

/// Asserts that the text of the report is this one, through a small buffer and a large one.
fn check(rt: &impl Abort, alloc: Global, report: &Report, text: &str) -> Result<(), NoMemory> {
    let mut small = MemSink::new(alloc, 4096, &[])?;
    let mut line = [0; LONGEST_LINE];
    assert!(rt; write_report(report, &mut line, &mut small).is_ok());
    assert_eq!(rt; small.bytes(), text.as_bytes());
    let mut large = MemSink::new(alloc, 4096, &[1])?;
    let mut page = [0; 4096];
    assert!(rt; write_report(report, &mut page, &mut large).is_ok());
    assert_eq!(rt; large.bytes(), text.as_bytes());
    Ok(())
}

#[test]
fn nothing_tracked(rt: HostRuntime) -> Result<(), Fail> {
    let report = report_of(rt.alloc(), &[], &[&[]])?;
    check(
        &rt,
        rt.alloc(),
        &report,
        "events 0\nthread 0 packets 0\nscript 0\n",
    )?;
    Ok(())
}

#[test]
fn udp_query_and_answer(rt: HostRuntime) -> Result<(), Fail> {
    let events = [
        query(0, 0, 1_030_000_000),
        touch(Direction::Reply, part(true, false, 1_120_500_000)),
    ];
    let verdicts = [made(0, 1), passed(Label::EstablishedReply, 2, Ftp::Nothing)];
    let report = report_of(rt.alloc(), &events, &[&verdicts])?;
    check(
        &rt,
        rt.alloc(),
        &report,
        "\
events 2
0 confirm 0.0 udp src=10.0.0.1 dst=10.0.0.2 sport=5000 dport=53 src=10.0.0.2 dst=10.0.0.1 sport=53 dport=5000 until=1030000000
1 touch 0.1 id=0 reply until=1120500000 replied
thread 0 packets 2
0 NEW id=0 @1
1 ESTABLISHED_REPLY id=0 @2
script 0
",
    )?;
    Ok(())
}

#[test]
fn udp_again_once_expired(rt: HostRuntime) -> Result<(), Fail> {
    let events = [
        query(0, 0, 31_000_000),
        Numbered {
            number: 1,
            thread: 0,
            index: 1,
            event: Event::Destroy {
                id: 0,
                why: Why::Expired { moment: 31_000_000 },
            },
        },
        query(2, 1, 61_000_000),
    ];
    let report = report_of(rt.alloc(), &events, &[&[made(0, 1), made(2, 3)]])?;
    check(
        &rt,
        rt.alloc(),
        &report,
        "\
events 3
0 confirm 0.0 udp src=10.0.0.1 dst=10.0.0.2 sport=5000 dport=53 src=10.0.0.2 dst=10.0.0.1 sport=53 dport=5000 until=31000000
1 destroy 0.1 id=0 expired
2 confirm 0.1 udp src=10.0.0.1 dst=10.0.0.2 sport=5000 dport=53 src=10.0.0.2 dst=10.0.0.1 sport=53 dport=5000 until=61000000
thread 0 packets 2
0 NEW id=0 @1
1 NEW id=2 @3
script 0
",
    )?;
    Ok(())
}

/// An event of thread 0.
fn event(number: u64, index: u32, event: Event) -> Numbered {
    Numbered {
        number,
        thread: 0,
        index,
        event,
    }
}

/// Event `number`: packet `index` of thread 0 put the connection of event 0 into this state.
fn connection(number: u64, index: u32, direction: Direction, state: TcpState) -> Numbered {
    Numbered {
        number,
        thread: 0,
        index,
        event: Event::Touch {
            id: 0,
            direction,
            segment: SYN,
            moment: 0,
            after: Part {
                kind: PartKind::Tcp(state),
                replied: true,
                assured: false,
                deadline: 60,
            },
        },
    }
}

/// Event `number`: packet `index` of thread 0 ended the entry of this name.
fn ended(number: u64, index: u32, id: u64, why: Why) -> Numbered {
    event(number, index, Event::Destroy { id, why })
}

const STATES: &str = "\
events 12
0 touch 0.0 id=0 original until=60 state=NONE replied
1 touch 0.1 id=0 original until=60 state=SYN_SENT replied
2 touch 0.2 id=0 reply until=60 state=SYN_RECV replied
3 touch 0.3 id=0 original until=60 state=ESTABLISHED replied
4 touch 0.4 id=0 original until=60 state=FIN_WAIT replied
5 touch 0.5 id=0 reply until=60 state=CLOSE_WAIT replied
6 touch 0.6 id=0 reply until=60 state=LAST_ACK replied
7 touch 0.7 id=0 original until=60 state=TIME_WAIT replied
8 touch 0.8 id=0 original until=60 state=CLOSE replied
9 touch 0.9 id=0 reply until=60 state=SYN_SENT2 replied
10 destroy 0.10 id=0 reopened
11 destroy 0.11 id=11 reset
thread 0 packets 0
script 0
";

/// Each state of a connection, and how a connection can end before its deadline.
#[test]
fn states_and_ends_of_tcp(rt: HostRuntime) -> Result<(), Fail> {
    let moment = 0;
    let events = [
        connection(0, 0, Direction::Original, TcpState::Unset),
        connection(1, 1, Direction::Original, TcpState::SynSent),
        connection(2, 2, Direction::Reply, TcpState::SynRecv),
        connection(3, 3, Direction::Original, TcpState::Established),
        connection(4, 4, Direction::Original, TcpState::FinWait),
        connection(5, 5, Direction::Reply, TcpState::CloseWait),
        connection(6, 6, Direction::Reply, TcpState::LastAck),
        connection(7, 7, Direction::Original, TcpState::TimeWait),
        connection(8, 8, Direction::Original, TcpState::Close),
        connection(9, 9, Direction::Reply, TcpState::SynSent2),
        ended(
            10,
            10,
            0,
            Why::Reopened {
                direction: Direction::Original,
                segment: SYN,
                moment,
            },
        ),
        ended(
            11,
            11,
            11,
            Why::Reset {
                segment: SYN,
                moment,
            },
        ),
    ];
    let report = report_of(rt.alloc(), &events, &[&[]])?;
    check(&rt, rt.alloc(), &report, STATES)?;
    Ok(())
}

/// Event `number`: packet `index` of thread 0 begins a connection of TCP between 10.0.0.1 and 10.0.0.2.
fn opened(number: u64, index: u32, original: Tuple, helper: bool, master: Option<u64>) -> Numbered {
    let reply = Tuple {
        proto: Proto::Tcp,
        zone: 0,
        src: original.dst,
        dst: original.src,
        a: original.b,
        b: original.a,
    };
    let subject = Record {
        id: number,
        place: 0,
        original,
        reply,
        part: Part {
            kind: PartKind::Tcp(TcpState::SynSent),
            replied: false,
            assured: false,
            deadline: 121_000_000,
        },
        helper,
        master,
    };
    event(number, index, Event::Confirm { subject })
}

/// Event `number`: what packet `index` of thread 0 has the entry of event 0 expect.
fn expect(number: u64, index: u32, want: Want, deadline: u64, replaced: Option<u64>) -> Numbered {
    let expectation = Expectation {
        id: number,
        master: 0,
        want,
        zone: 0,
        deadline,
    };
    event(
        number,
        index,
        Event::Expect {
            expectation,
            replaced,
            moment: 0,
        },
    )
}

/// A connection from 10.0.0.2 to this port of 10.0.0.1.
fn data(port: u16) -> Want {
    Want {
        src: 0x0a00_0002,
        dst: 0x0a00_0001,
        port,
    }
}

const EXPECTED: &str = "\
events 10
0 confirm 0.0 tcp src=10.0.0.1 dst=10.0.0.2 sport=5000 dport=21 src=10.0.0.2 dst=10.0.0.1 sport=21 dport=5000 until=121000000 state=SYN_SENT helper
1 touch 0.1 id=0 reply until=60 state=SYN_RECV replied
2 touch 0.2 id=0 original until=60 state=ESTABLISHED replied
3 touch 0.3 id=0 original until=60 state=ESTABLISHED replied
4 expect 0.3 master=0 src=10.0.0.2 dst=10.0.0.1 dport=40001 until=304000000
5 touch 0.4 id=0 original until=60 state=ESTABLISHED replied
6 expect 0.4 master=0 src=10.0.0.2 dst=10.0.0.1 dport=40002 until=305000000 replaces=4
7 touch 0.5 id=0 reply until=60 state=ESTABLISHED replied
8 claim 0.6 expect=6 master=0
9 confirm 0.6 tcp src=10.0.0.2 dst=10.0.0.1 sport=20 dport=40002 src=10.0.0.1 dst=10.0.0.2 sport=40002 dport=20 until=121000000 state=SYN_SENT master=0
thread 0 packets 7
0 NEW id=0 @1
1 ESTABLISHED_REPLY id=0 @2
2 ESTABLISHED id=0 @3
3 ESTABLISHED id=0 @4 ftp expect=4
4 ESTABLISHED id=0 @6 ftp expect=6
5 ESTABLISHED_REPLY id=0 @8
6 RELATED id=9 @10
script 0
";

/// A control connection of FTP announces one port and then another, at which its data connection arrives.
#[test]
fn data_connection_is_expected(rt: HostRuntime) -> Result<(), Fail> {
    let flow = |src: u32, dst: u32, a: u16, b: u16| Tuple {
        proto: Proto::Tcp,
        zone: 0,
        src,
        dst,
        a,
        b,
    };
    let control = flow(0x0a00_0001, 0x0a00_0002, 5000, 21);
    let arrived = flow(0x0a00_0002, 0x0a00_0001, 20, 40002);
    let claim = Event::Claim {
        expectation: 6,
        master: 0,
        tuple: arrived,
        moment: 7_000_000,
    };
    let events = [
        opened(0, 0, control, true, None),
        connection(1, 1, Direction::Reply, TcpState::SynRecv),
        connection(2, 2, Direction::Original, TcpState::Established),
        connection(3, 3, Direction::Original, TcpState::Established),
        expect(4, 3, data(40001), 304_000_000, None),
        connection(5, 4, Direction::Original, TcpState::Established),
        expect(6, 4, data(40002), 305_000_000, Some(4)),
        connection(7, 5, Direction::Reply, TcpState::Established),
        event(8, 6, claim),
        opened(9, 6, arrived, false, Some(0)),
    ];
    let verdicts = [
        made(0, 1),
        passed(Label::EstablishedReply, 2, Ftp::Nothing),
        passed(Label::Established, 3, Ftp::Nothing),
        passed(Label::Established, 4, Ftp::Expected { id: 4 }),
        passed(Label::Established, 6, Ftp::Expected { id: 6 }),
        passed(Label::EstablishedReply, 8, Ftp::Nothing),
        related(9, 10),
    ];
    let report = report_of(rt.alloc(), &events, &[&verdicts])?;
    check(&rt, rt.alloc(), &report, EXPECTED)?;
    Ok(())
}

/// The longest numbers of these lines, and an expectation that ends unmet.
#[test]
fn expectation_ends_unmet(rt: HostRuntime) -> Result<(), Fail> {
    let want = Want {
        src: 0xcb00_7105,
        dst: 0xc633_6415,
        port: 65535,
    };
    let claim = Event::Claim {
        expectation: 18_446_744_073_709_551_615,
        master: 1,
        tuple: QUERY,
        moment: 0,
    };
    let unexpect = Event::Unexpect {
        expectation: 12,
        moment: 310_000_000,
    };
    let events = [
        expect(12, 4_294_967_295, want, 310_000_000, Some(10_000_000_000)),
        event(13, 1, unexpect),
        event(14, 2, claim),
    ];
    let report = report_of(rt.alloc(), &events, &[&[]])?;
    check(
        &rt,
        rt.alloc(),
        &report,
        "\
events 3
12 expect 0.4294967295 master=0 src=203.0.113.5 dst=198.51.100.21 dport=65535 until=310000000 replaces=10000000000
13 unexpect 0.1 expect=12 expired
14 claim 0.2 expect=18446744073709551615 master=1
thread 0 packets 0
script 0
",
    )?;
    Ok(())
}

#[test]
fn udp_again_before_its_deadline(rt: HostRuntime) -> Result<(), Fail> {
    let events = [
        query(0, 0, 31_000_000),
        touch(Direction::Original, part(false, false, 60_999_999)),
    ];
    let verdicts = [made(0, 1), passed(Label::New, 2, Ftp::Nothing)];
    let report = report_of(rt.alloc(), &events, &[&verdicts])?;
    check(
        &rt,
        rt.alloc(),
        &report,
        "\
events 2
0 confirm 0.0 udp src=10.0.0.1 dst=10.0.0.2 sport=5000 dport=53 src=10.0.0.2 dst=10.0.0.1 sport=53 dport=5000 until=31000000
1 touch 0.1 id=0 original until=60999999
thread 0 packets 2
0 NEW id=0 @1
1 NEW id=0 @2
script 0
",
    )?;
    Ok(())
}

/// A verdict of each class, with each label and each word of a payload.
fn every_verdict() -> [Verdict; 24] {
    [
        made(4, 5),
        related(6, 8),
        passed(Label::New, 1, Ftp::Nothing),
        passed(Label::Related, 2, Ftp::Expected { id: 16 }),
        passed(Label::Established, 3, Ftp::Address),
        passed(Label::EstablishedReply, 4, Ftp::Clash { id: 7, at: 9 }),
        passed(Label::Established, 5, Ftp::Full { at: 10 }),
        passed(Label::Established, 6, Ftp::Gone { at: 11 }),
        verdict(Class::Full { from: 11, at: 12 }),
        verdict(Class::Untracked(UntrackedWhy::Link)),
        verdict(Class::Untracked(UntrackedWhy::Fragment)),
        verdict(Class::Untracked(UntrackedWhy::Protocol)),
        verdict(Class::BadHeader),
        verdict(Class::ErrorLost { at: 13 }),
        verdict(Class::ErrorAddress { id: 14, at: 15 }),
        error(Direction::Original),
        error(Direction::Reply),
        verdict(Class::NoEntry { at: 18 }),
        verdict(Class::BadState { id: 19, at: 20 }),
        verdict(Class::Ignored { id: 21, at: 22 }),
        verdict(Class::Merged {
            id: 23,
            at: 24,
            translated: Translated::Plain,
        }),
        verdict(Class::Clash {
            id: 25,
            at: 26,
            translated: Translated::Plain,
        }),
        verdict(Class::Contended { id: 27, at: 28 }),
        verdict(Class::NoPort { from: 29, to: 30 }),
    ]
}

/// A report with each form of a line.
fn every_form(alloc: Global) -> Result<Report, NoMemory> {
    let echo = |src: u32, dst: u32, kind: u16| Tuple {
        proto: Proto::Icmp,
        zone: 0,
        src,
        dst,
        a: 7,
        b: kind * 256,
    };
    let control = Tuple {
        proto: Proto::Tcp,
        zone: 0,
        src: 0xcb00_7105,
        dst: 0xc633_6415,
        a: 65535,
        b: 21,
    };
    let confirm = |number: u64, original: Tuple, reply: Tuple, kind: PartKind, helper: bool, master: Option<
        u64,
    >| Numbered {
        number,
        thread: 1,
        index: 3,
        event: Event::Confirm {
            subject: Record {
                id: number,
                place: 0,
                original,
                reply,
                part: Part {
                    kind,
                    replied: false,
                    assured: false,
                    deadline: 31_000_000,
                },
                helper,
                master,
            },
        },
    };
    let events = [
        confirm(
            0,
            echo(0x0a00_0001, 0x0a00_0002, 8),
            echo(0x0a00_0002, 0x0a00_0001, 0),
            PartKind::Icmp,
            false,
            Some(12),
        ),
        touch(Direction::Reply, part(true, true, 1)),
        confirm(
            2,
            control,
            control,
            PartKind::Tcp(TcpState::SynSent2),
            true,
            Some(20),
        ),
    ];
    report_of(alloc, &events, &[&[], &every_verdict()])
}

const EVERY_FORM: &str = "\
events 3
0 confirm 1.3 icmp src=10.0.0.1 dst=10.0.0.2 type=8 code=0 id=7 src=10.0.0.2 dst=10.0.0.1 type=0 code=0 id=7 until=31000000 master=12
1 touch 0.1 id=0 reply until=1 replied assured
2 confirm 1.3 tcp src=203.0.113.5 dst=198.51.100.21 sport=65535 dport=21 src=203.0.113.5 dst=198.51.100.21 sport=65535 dport=21 until=31000000 state=SYN_SENT2 master=20 helper
thread 0 packets 0
thread 1 packets 24
0 NEW id=4 @5
1 RELATED id=6 @8
2 NEW id=0 @1
3 RELATED id=0 @2 ftp expect=16
4 ESTABLISHED id=0 @3 ftp address
5 ESTABLISHED_REPLY id=0 @4 ftp clash=7 @9
6 ESTABLISHED id=0 @5 ftp full @10
7 ESTABLISHED id=0 @6 ftp gone @11
8 FULL @11 @12
9 UNTRACKED link
10 UNTRACKED fragment
11 UNTRACKED protocol
12 INVALID header
13 INVALID error @13
14 INVALID address id=14 @15
15 RELATED error id=16 @17
16 RELATED_REPLY error id=16 @17
17 INVALID new @18
18 INVALID state id=19 @20
19 IGNORED id=21 @22
20 MERGED id=23 @24
21 CLASH id=25 @26
22 CONTENDED id=27 @28
23 NOPORT @29 @30
script 0
";

#[test]
fn each_form_of_a_line(rt: HostRuntime) -> Result<(), Fail> {
    let report = every_form(rt.alloc())?;
    check(&rt, rt.alloc(), &report, EVERY_FORM)?;
    Ok(())
}

/// With a buffer of one line, the sink's first write fails, or its second one, or it has no room left.
#[test]
fn a_sink_that_fails(rt: HostRuntime) -> Result<(), Fail> {
    let report = every_form(rt.alloc())?;
    let text = EVERY_FORM.as_bytes();
    for (room, fails, most) in [(4096, 0, 0), (4096, 1, 512), (10, 9, 10)] {
        let mut sink = MemSink::new(rt.alloc(), room, &[fails])?;
        let mut line = [0; LONGEST_LINE];
        assert!(rt; write_report(&report, &mut line, &mut sink).is_err());
        let written = sink.bytes();
        assert!(rt; text.starts_with(written));
        assert!(rt; written.len() <= most, "at {fails}");
        assert!(rt; written.is_empty() == (most == 0), "at {fails}");
    }
    Ok(())
}

/// The one write of a short report fails, and nothing of it is written.
#[test]
fn nothing_tracked_and_a_sink_that_fails(rt: HostRuntime) -> Result<(), Fail> {
    let report = report_of(rt.alloc(), &[], &[&[]])?;
    let mut sink = MemSink::new(rt.alloc(), 4096, &[0])?;
    let mut page = [0; 4096];
    assert!(rt; write_report(&report, &mut page, &mut sink).is_err());
    assert!(rt; sink.bytes().is_empty());
    Ok(())
}

#[test]
fn pieces_one_after_the_other(rt: HostRuntime) -> Result<(), Fail> {
    let pieces: [&[u8]; 3] = [b"ctreplay: ", b"", b"write failed\n"];
    let mut sink = MemSink::new(rt.alloc(), 4096, &[])?;
    assert!(rt; write_each(&pieces, &mut sink).is_ok());
    assert_eq!(rt; sink.bytes(), "ctreplay: write failed\n".as_bytes());
    let mut sink = MemSink::new(rt.alloc(), 4096, &[1])?;
    assert!(rt; write_each(&pieces, &mut sink).is_err());
    assert_eq!(rt; sink.bytes(), "ctreplay: ".as_bytes());
    Ok(())
}
