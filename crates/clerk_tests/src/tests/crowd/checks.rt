//! Whether the events of the threads and what they were answered are right.

use super::{Answers, DIFFERENT, FLOWS, flow_of, owner_of};
use history_book::event::{Event, Note};
use history_book::outcome::ConfirmOutcome;
use history_book::report::Notes;
use std::alloc::Global;
use tuple_core::{Direction, NoMemory};

/// The Confirm of a flow: its number, and the thread that made it.
#[derive(Clone, Copy)]
struct Made {
    number: u64,
    thread: u8,
}

/// The Confirm of each flow, and which numbers the events have.
#[derive(Drop)]
pub struct Found {
    made: Vec<Option<Made>>,
    numbers: Vec<bool>,
    /// How many events were entered.
    pub events: u64,
}

/// No event was entered yet.
pub fn nothing_found(alloc: Global) -> Result<Found, NoMemory> {
    Ok(Found {
        made: vec![in alloc; None; 4 * usize::from(FLOWS)]?,
        numbers: vec![in alloc; false; usize::from(DIFFERENT)]?,
        events: 0,
    })
}

/// Where a flow is entered.
fn key(owner: u8, index: u16) -> usize {
    usize::from(owner) * usize::from(FLOWS) + usize::from(index)
}

/// Enters a number below the number of different flows, which no event has yet.
fn enter_number(numbers: &mut [bool], number: u64) -> bool {
    if number >= numbers.len() as u64 {
        return false;
    }
    let is_new = !numbers[number as usize];
    numbers[number as usize] = true;
    is_new
}

/// Enters the Confirm of a flow that has none yet.
fn enter_made(all: &mut [Option<Made>], key: usize, made: Made) -> bool {
    if key >= all.len() {
        return false;
    }
    let is_new = all[key].is_none();
    all[key] = Some(made);
    is_new
}

/// Enters an event of a thread: the Confirm of one of the flows, by its own number.
fn enter(found: &mut Found, thread: u8, note: &Note) -> bool {
    let Event::Confirm { subject } = note.event else {
        return false;
    };
    let owner = (subject.original.src / 0x1_0000 % 0x100) as u8;
    let index = (subject.original.src % 0x1_0000) as u16;
    let flow = flow_of(owner, index);
    let made = Made {
        number: note.number,
        thread,
    };
    subject.id == note.number
        && subject.original == flow.original
        && subject.reply == flow.reply
        && enter_number(&mut found.numbers, note.number)
        && enter_made(&mut found.made, key(owner, index), made)
}

/// Enters all events of a thread.
pub fn enter_all(found: &mut Found, thread: u8, notes: &Notes) -> bool {
    'notes: for index in 0..notes.len() {
        if !enter(found, thread, &notes.at(index)) {
            return false;
        }
        found.events = found.events.wrapping_add(1);
    }
    true
}

/// Whether a thread was answered rightly of its flow of this index, of which this is the Confirm. Its own one it was told of.
/// Another thread's, which it shares the flow with, stood in its way with both tuples, at a later point.
fn is_right(made: Made, thread: u8, index: u16, outcome: &ConfirmOutcome) -> bool {
    match *outcome {
        ConfirmOutcome::Confirmed { id } => made.thread == thread && made.number == id,
        ConfirmOutcome::Clash {
            id,
            direction,
            both,
            at,
        } => {
            index % 2 == 0
                && made.thread != thread
                && made.number == id
                && matches!(direction, Direction::Original)
                && both
                && id < at
                && at <= u64::from(DIFFERENT)
        }
    }
}

/// Whether a thread was answered rightly of all its flows.
pub fn are_right(found: &Found, thread: u8, answers: &Answers) -> bool {
    let answers = answers.as_slice();
    'flows: for index in 0..FLOWS {
        let key = key(owner_of(thread, index), index);
        if key >= found.made.len() || usize::from(index) >= answers.len() {
            return false;
        }
        let Some(made) = found.made[key] else {
            return false;
        };
        if !is_right(made, thread, index, &answers[usize::from(index)]) {
            return false;
        }
    }
    true
}
