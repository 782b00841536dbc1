//! What is found among the records of a state: the plain programs of the definitions.

ghost use Rattle.std.specs.Prelude.{◌≡◌, IfNone, IfSome, Some, None};
ghost use Rattle.history_book.specs.Find.{IsFoundAt, IsRecordAt};
ghost use Rattle.history_book.specs.Label.{label_of};
ghost use Rattle.history_book.specs.Record.{direction_of, has_id};
ghost use Rattle.history_book.specs.State.{live_under, record_of, state_of};

use crate::record::Record;
use crate::verdict::Label;
use tuple_core::{Direction, Tuple};

/// Where a record stands in a list, and the direction in which a tuple names it.
#[derive(Clone, Copy)]
pub struct FoundAt {
    pub index: usize,
    pub direction: Direction,
}

/// The direction in which a tuple names a record.
fn direction_under(t: &Tuple, r: &Record) -> Option<Direction>
    ensures { result ≡ direction_of t.now r.now }
{
    if r.original == *t {
        Some(Direction::Original)
    } else if r.reply == *t {
        Some(Direction::Reply)
    } else {
        None
    }
}

/// The record that is live under a tuple: the one that has it as its original tuple, else the one that
/// has it as its reply tuple. Takes one pass over the records.
pub fn find(records: &[Record], t: &Tuple) -> Option<FoundAt>
    ensures absent { IfNone result (live_under t.now (state_of records.now) ≡ None) }
    ensures found { IfSome result (IsFoundAt t.now (state_of records.now)) }
{
    let mut reply: Option<usize> = None;
    for (index, r) in records.iter().enumerate() {
        match direction_under(t, r) {
            Some(Direction::Original) => {
                return Some(FoundAt {
                    index,
                    direction: Direction::Original,
                });
            }
            Some(Direction::Reply) => {
                if reply.is_none() {
                    reply = Some(index);
                }
            }
            None => {}
        }
    }
    match reply {
        Some(index) => Some(FoundAt {
            index,
            direction: Direction::Reply,
        }),
        None => None,
    }
}

/// Whether a record has this id.
fn is_of_id(r: &Record, id: u64) -> bool
    ensures { result ≡ has_id id r.now }
{
    r.id == id
}

/// The index of the record with this id.
pub fn find_id(records: &[Record], id: u64) -> Option<usize>
    ensures absent { IfNone result (record_of id (state_of records.now) ≡ None) }
    ensures found { IfSome result (IsRecordAt id (state_of records.now)) }
{
    for (index, r) in records.iter().enumerate() {
        if is_of_id(r, id) {
            return Some(index);
        }
    }
    None
}

/// The label of a packet that finds this record in this direction.
#[inline(always)]
pub fn label(subject: &Record, direction: Direction) -> Label
    ensures { result ≡ label_of subject.now direction }
{
    match direction {
        Direction::Reply => Label::EstablishedReply,
        Direction::Original if subject.part.replied => Label::Established,
        Direction::Original => match subject.master {
            Some(_) => Label::Related,
            None => Label::New,
        },
    }
}
