//! Runs typed by hand: packets of one or two captures, and what the tracker said of them.

ghost use Rattle.std.specs.Prelude.{All, IfOk, OnOk};
ghost use Rattle.ftp_rewrite.specs.Sent.{LiesInIts};

use ct_io::MemSink;
use expect_table::expectation::{Expectation, Want};
use ftp_rewrite::{rewrites, write_rewrites};
use history_book::answer::Answers;
use history_book::event::{Event, Numbered, Why};
use history_book::record::Record;
use history_book::report::{History, Report, ThreadVerdicts, Verdicts};
use history_book::verdict::{Class, Ftp, Label, Translated, Verdict};
use packet_headers::Bytes;
use packet_headers::capture::read_capture;
use packet_headers::frame::{Capture, Captures};
use proto_rules::{Part, PartKind, TcpState};
use std::alloc::Global;
use tuple_core::{Direction, Kind, NoMemory, Proto, Segment, Tuple};

/// What became of a packet, or an event without one.
#[derive(Clone, Copy)]
pub enum Act {
    /// The entry was confirmed for it, with the helper or without.
    Begin(bool),
    /// Its entry let it pass, and its payload led to nothing.
    Pass,
    /// Its entry let it pass, and the event of this number expects the end that it names.
    Name(u64),
    /// Its entry let it pass, and the end that it names is that of another's expectation.
    Clash,
    /// It reset its entry.
    Reset,
    /// It was ignored.
    Ignore,
    /// No packet: the entry expects a connection to this address and port.
    Want(u32, u16),
    /// No packet: the entry was flushed.
    Flush,
}

/// A packet, or an event without one: the thread, the entry, whether it is of the reply direction, its numbers, what became
/// of it, and its data.
#[derive(Clone, Copy)]
pub struct Step<'t> {
    pub thread: u32,
    pub id: u64,
    pub reply: bool,
    pub seq: u32,
    pub ack: u32,
    pub act: Act,
    pub data: &'t str,
}

/// What one thread had of the run so far.
#[derive(Drop)]
struct Track {
    bytes: Bytes,
    verdicts: Verdicts,
}

/// A run so far.
#[derive(Drop)]
struct Scene {
    history: History,
    first: Track,
    second: Track,
}

/// A track whose capture has no packet.
fn empty_track(alloc: Global) -> Result<Track, NoMemory> {
    let mut bytes = Bytes::empty(alloc);
    bytes.append(&[0xd4, 0xc3, 0xb2, 0xa1, 2, 0, 4, 0, 0, 0, 0, 0])?;
    bytes.append(&[0, 0, 0, 0, 0xff, 0xff, 0, 0, 101, 0, 0, 0])?;
    Ok(Track {
        bytes,
        verdicts: Verdicts::empty(alloc),
    })
}

/// Appends the record of a segment from 10.0.0.1:40000 to 10.0.0.2:21.
fn append_segment(bytes: &mut Bytes, step: &Step) -> Result<(), NoMemory> {
    let length = step.data.len().min(1000) as u32 + 40;
    bytes.append(&[0; 8])?;
    bytes.append(&length.to_le_bytes())?;
    bytes.append(&length.to_le_bytes())?;
    bytes.append(&[0x45, 0])?;
    bytes.append(&(length as u16).to_be_bytes())?;
    bytes.append(&[0, 0, 0, 0, 64, 6, 0, 0, 10, 0, 0, 1, 10, 0, 0, 2])?;
    bytes.append(&[0x9c, 0x40, 0, 21])?;
    bytes.append(&step.seq.to_be_bytes())?;
    bytes.append(&step.ack.to_be_bytes())?;
    bytes.append(&[0x50, 0x18, 0xff, 0xff, 0, 0, 0, 0])?;
    bytes.append(step.data.as_bytes())
}

/// The tuple of those segments.
const FLOW: Tuple = Tuple {
    proto: Proto::Tcp,
    zone: 0,
    src: 0x0a00_0001,
    dst: 0x0a00_0002,
    a: 40_000,
    b: 21,
};

/// The part of an entry, which no line depends on.
const PART: Part = Part {
    kind: PartKind::Tcp(TcpState::Established),
    replied: true,
    assured: true,
    deadline: 10,
};

/// The direction of a step.
fn direction(step: &Step) -> Direction {
    if step.reply {
        Direction::Reply
    } else {
        Direction::Original
    }
}

/// The event of a step, with this number, if it makes one.
fn event(step: &Step, number: u64) -> Option<Event> {
    match step.act {
        Act::Begin(helper) => Some(Event::Confirm {
            subject: Record {
                id: step.id,
                place: 0,
                original: FLOW,
                reply: FLOW,
                part: PART,
                helper,
                master: None,
            },
        }),
        Act::Pass | Act::Name(_) | Act::Clash => Some(Event::Touch {
            id: step.id,
            direction: direction(step),
            segment: Segment::Tcp(Kind::Ack),
            moment: 0,
            after: PART,
        }),
        Act::Reset => Some(Event::Destroy {
            id: step.id,
            why: Why::Reset {
                segment: Segment::Tcp(Kind::Rst),
                moment: 0,
            },
        }),
        Act::Flush => Some(Event::Destroy {
            id: step.id,
            why: Why::Flushed,
        }),
        Act::Want(dst, port) => Some(Event::Expect {
            expectation: Expectation {
                id: number,
                master: step.id,
                want: Want { src: 1, dst, port },
                zone: 0,
                deadline: 9,
            },
            replaced: None,
            moment: 0,
        }),
        Act::Ignore => None,
    }
}

/// The class of a packet that its entry let pass just before this point.
fn passed(id: u64, at: u64, ftp: Ftp) -> Option<Class> {
    Some(Class::Passed {
        label: Label::Established,
        id,
        at,
        ftp,
    })
}

/// The class of a step's packet, if it has one, at the point behind its event.
fn class(step: &Step, at: u64) -> Option<Class> {
    let id = step.id;
    match step.act {
        Act::Begin(_) => Some(Class::Made {
            id,
            at,
            translated: Translated::Plain,
            unclaimed: Some(0),
        }),
        Act::Pass | Act::Reset => passed(id, at, Ftp::Nothing),
        Act::Name(id) => passed(step.id, at, Ftp::Expected { id }),
        Act::Clash => passed(id, at, Ftp::Clash { id: 0, at }),
        Act::Ignore => Some(Class::Ignored { id, at }),
        Act::Want(..) | Act::Flush => None,
    }
}

/// Adds a packet to a thread's track.
fn add_packet(track: &mut Track, step: &Step, class: Class) -> Result<(), NoMemory> {
    append_segment(&mut track.bytes, step)?;
    track.verdicts.reserve(1)?;
    track.verdicts.push(Verdict {
        class,
        first: 0,
        made: 1,
    });
    Ok(())
}

/// Adds a step to a run.
fn add_step(scene: &mut Scene, step: &Step) -> Result<(), NoMemory> {
    let number = scene.history.len() as u64;
    let track = if step.thread == 0 {
        &mut scene.first
    } else {
        &mut scene.second
    };
    let index = track.verdicts.len().min(1000) as u32;
    if let Some(class) = class(step, number.saturating_add(1)) {
        add_packet(track, step, class)?;
    }
    if let Some(event) = event(step, number) {
        scene.history.reserve(1)?;
        scene.history.push(Numbered {
            number,
            thread: step.thread,
            index,
            event,
        });
    }
    Ok(())
}

/// Adds the capture of a track.
#[tactic(auto, using(crate::proofs::Captures::inside_more))]
fn add_capture(alloc: Global, captures: &mut Captures, bytes: Bytes) -> Result<(), NoMemory>
    requires { All LiesInIts captures.old.items }
    ensures { OnOk result (All LiesInIts captures.new.items) }
{
    let Ok(frames) = read_capture(alloc, bytes.as_slice()) else {
        return Err(NoMemory);
    };
    captures.reserve(1)?;
    captures.push(Capture {
        bytes,
        frames,
        zone: 0,
    });
    Ok(())
}

/// The captures of two tracks.
fn captures_of(alloc: Global, first: Bytes, second: Bytes) -> Result<Captures, NoMemory>
    ensures { IfOk result (λ captures. All LiesInIts captures.items) }
{
    let mut captures = Captures::empty(alloc);
    add_capture(alloc, &mut captures, first)?;
    add_capture(alloc, &mut captures, second)?;
    Ok(captures)
}

/// The report of these threads' verdicts.
fn report_of(
    alloc: Global,
    history: History,
    first: Verdicts,
    second: Verdicts,
) -> Result<Report, NoMemory> {
    let mut threads = ThreadVerdicts::new(alloc, 2)?;
    threads.push(first);
    threads.push(second);
    Ok(Report {
        history,
        live: 0,
        threads,
        answers: Answers::empty(alloc),
    })
}

/// The text of a run, as a sink has it.
pub fn text_of(alloc: Global, steps: &[Step]) -> Result<MemSink, NoMemory> {
    let mut scene = Scene {
        history: History::empty(alloc),
        first: empty_track(alloc)?,
        second: empty_track(alloc)?,
    };
    for step in steps {
        add_step(&mut scene, step)?;
    }
    let Scene {
        history,
        first,
        second,
    } = scene;
    let Track { bytes, verdicts } = first;
    let Track {
        bytes: other_bytes,
        verdicts: others,
    } = second;
    let captures = captures_of(alloc, bytes, other_bytes)?;
    let report = report_of(alloc, history, verdicts, others)?;
    let lines = rewrites(alloc, &report, &captures)?;
    let mut sink = MemSink::new(alloc, 65_536, &[])?;
    let mut buffer = [0; 512];
    match write_rewrites(&lines, &mut buffer, &mut sink) {
        Ok(()) => Ok(sink),
        Err(_) => Err(NoMemory),
    }
}
