//! Whether what the readers were answered was so, by a slow reading of the whole history.

use super::{FLOWS, Report, Reports};
use bucket_table::finding::FindOnce;
use history_book::event::{Event, Note};
use history_book::report::Notes;
use std::alloc::Global;
use tuple_core::{Direction, NoMemory};

/// An event as it is entered: the entry of a flow began in a place, or the entry of an id ended.
#[derive(Clone, Copy)]
enum Made {
    Began { flow: u32, place: u32 },
    Ended { id: u64 },
}

/// The events by their numbers, as far as they were entered.
#[derive(Drop)]
pub struct Events {
    made: Vec<Option<Made>>,
    /// How many events were entered.
    entered: u64,
}

/// No event of so many was entered yet.
pub fn unknown(alloc: Global, events: u64) -> Result<Events, NoMemory> {
    Ok(Events {
        made: vec![in alloc; None; events as usize]?,
        entered: 0,
    })
}

/// What an event is here. The flow is told by the port of the entry's original source.
fn made_by(note: &Note) -> Option<Made> {
    match note.event {
        Event::Confirm { subject } if subject.id == note.number => Some(Made::Began {
            flow: u32::from(subject.original.a),
            place: subject.place,
        }),
        Event::Destroy { id, .. } => Some(Made::Ended { id }),
        _ => None,
    }
}

impl Events {
    /// Enters an event under its number, which no other one has.
    fn enter(&mut self, note: &Note) -> bool {
        let number = note.number as usize;
        if number >= self.made.len() || self.made[number].is_some() {
            return false;
        }
        self.made[number] = made_by(note);
        self.entered = self.entered.wrapping_add(1);
        self.made[number].is_some()
    }

    /// Enters all events of a clerk.
    pub fn enter_all(&mut self, notes: &Notes) -> bool {
        'notes: for index in 0..notes.len() {
            if !self.enter(&notes.at(index)) {
                return false;
            }
        }
        true
    }
}

/// An entry that is live: its id and its place.
#[derive(Clone, Copy, PartialEq, Eq)]
struct Live {
    id: u64,
    place: u32,
}

/// Which entry of each flow is live.
type Row = [Option<Live>; FLOWS as usize];

/// Which entries were live at each point.
#[derive(Drop)]
pub struct History {
    rows: Vec<Row>,
    /// How many are live in the end.
    pub live: u32,
}

/// An entry ends.
fn end(row: &mut Row, id: u64) -> bool {
    'flows: for flow in 0..row.len() {
        if matches!(row[flow], Some(live) if live.id == id) {
            row[flow] = None;
            return true;
        }
    }
    false
}

/// The entries behind the event of this number. It is legal: an entry begins where none of its flow is live, and one that is live ends.
fn step(row: &mut Row, number: u64, made: Option<Made>) -> bool {
    match made {
        Some(Made::Began { flow, place }) => {
            let flow = flow as usize;
            if flow >= row.len() || row[flow].is_some() {
                return false;
            }
            row[flow] = Some(Live { id: number, place });
            true
        }
        Some(Made::Ended { id }) => end(row, id),
        None => false,
    }
}

/// How many entries are live.
fn live_in(row: &Row) -> u32 {
    let mut live = 0u32;
    'flows: for flow in 0..row.len() {
        if row[flow].is_some() {
            live = live.wrapping_add(1);
        }
    }
    live
}

/// What was live at each point, if each event is legal.
pub fn history_of(alloc: Global, events: &Events) -> Result<Option<History>, NoMemory> {
    let mut row: Row = [None; FLOWS as usize];
    let mut rows = vec![in alloc; row; events.made.len().wrapping_add(1)]?;
    'numbers: for number in 0..events.made.len() {
        if !step(&mut row, number as u64, events.made[number]) {
            return Ok(None);
        }
        let point = number.wrapping_add(1);
        if point < rows.len() {
            rows[point] = row;
        }
    }
    let live = live_in(&row);
    Ok(Some(History { rows, live }))
}

/// The entry of a flow that was live at a point.
fn live_at(history: &History, flow: u32, at: u64) -> Option<Live> {
    let point = at as usize;
    let flow = flow as usize;
    if point < history.rows.len() && flow < history.rows[point].len() {
        history.rows[point][flow]
    } else {
        None
    }
}

fn is_same(one: Direction, other: Direction) -> bool {
    matches!(
        (one, other),
        (Direction::Original, Direction::Original) | (Direction::Reply, Direction::Reply)
    )
}

/// Whether what a reader was answered was so. A flow has no tuple in both directions, so an entry is found in the one that was asked for.
fn is_right(history: &History, report: &Report) -> bool {
    match report.outcome {
        FindOnce::Found {
            place,
            id,
            direction,
            at,
        } => {
            is_same(direction, report.direction)
                && live_at(history, report.flow, at) == Some(Live { id, place })
        }
        FindOnce::Absent { at } => {
            (at as usize) < history.rows.len() && live_at(history, report.flow, at).is_none()
        }
        FindOnce::Moved { was, now, .. } => was != now || was % 2 == 1,
    }
}

/// The point of an answer, or what the reader had seen before.
fn seen(report: &Report, before: u64) -> u64 {
    match report.outcome {
        FindOnce::Found { at, .. } | FindOnce::Absent { at } => at,
        FindOnce::Moved { .. } => before,
    }
}

/// Whether all that a reader was answered was so, at points that do not fall.
pub fn are_right(history: &History, reports: &Reports) -> bool {
    let mut before = 0u64;
    'reports: for report in reports.as_slice() {
        let at = seen(report, before);
        if at < before || !is_right(history, report) {
            return false;
        }
        before = at;
    }
    true
}
