//! Short forms of events.

ghost use Rattle.std.specs.Prelude.{◌≡◌, IfSome, IsTrue};
ghost use Rattle.history_book.specs.declared.event.Event.TheVariants.{Confirm};
ghost use Rattle.history_book.specs.declared.packed.Stored.TheVariants.{Here};
ghost use Rattle.history_book.specs.ShortNote.{plain_record, plain_reply, stored_note};

use crate::event::{Event, Note, Why};
use crate::packed::{Form, Stored};
use crate::record::Record;
use crate::short_verdict::narrow;
use proto_rules::{Part, PartKind};
use tuple_core::{Direction, Segment, Tuple, invert, is_valid};

/// An event with its number, both of numbers below 2^32, or where it stands whole.
#[derive(Clone, Copy)]
pub enum ShortNote {
    /// It stands whole in a second list, at this index.
    Whole {
        at: u32,
    },
    Touch {
        direction: Direction,
        segment: Segment,
        number: u32,
        id: u32,
        moment: u64,
        after: Part,
    },
    /// The Confirm of an entry that has its number as id, whose reply tuple is the inverse of the original one, and that has
    /// neither the helper nor a master.
    Confirm {
        kind: PartKind,
        replied: bool,
        assured: bool,
        number: u32,
        place: u32,
        original: Tuple,
        deadline: u64,
    },
    Expired {
        number: u32,
        id: u32,
        moment: u64,
    },
    Dropped {
        number: u32,
        id: u32,
        moment: u64,
    },
}

/// The reply tuple of a flow that no rule translates. Only valid tuples have an inverse.
#[inline(always)]
fn plain_reply(original: &Tuple) -> Tuple
    ensures { result ≡ plain_reply original.now }
{
    if is_valid(original) {
        invert(original)
    } else {
        *original
    }
}

/// A test that only a plain Confirm of this number passes.
#[inline(always)]
fn is_plain(number: u64, r: &Record) -> bool
    ensures { IsTrue result → r.now ≡ plain_record number r.now.place r.now.original r.now.part }
{
    r.id == number && !r.helper && r.master.is_none() && r.reply == plain_reply(&r.original)
}

/// The short form that a Confirm may have.
#[inline(always)]
fn short_confirm(number: u64, r: &Record) -> Option<ShortNote>
    ensures { IfSome result (λ s. stored_note s ≡ Here (record { number = number; event = Confirm r.now })) }
{
    if !is_plain(number, r) {
        return None;
    }
    let number = narrow(number)?;
    Some(ShortNote::Confirm {
        kind: r.part.kind,
        replied: r.part.replied,
        assured: r.part.assured,
        number,
        place: r.place,
        original: r.original,
        deadline: r.part.deadline,
    })
}

impl Form<Note> for ShortNote {
    ghost stored = { stored_note };

    #[inline(always)]
    fn of(value: &Note) -> Option<Self> {
        match &value.event {
            Event::Touch {
                id,
                direction,
                segment,
                moment,
                after,
            } => {
                let number = narrow(value.number)?;
                let id = narrow(*id)?;
                Some(ShortNote::Touch {
                    direction: *direction,
                    segment: *segment,
                    number,
                    id,
                    moment: *moment,
                    after: *after,
                })
            }
            Event::Confirm { subject } => short_confirm(value.number, subject),
            Event::Destroy {
                id,
                why: Why::Expired { moment },
            } => {
                let number = narrow(value.number)?;
                let id = narrow(*id)?;
                Some(ShortNote::Expired {
                    number,
                    id,
                    moment: *moment,
                })
            }
            Event::Destroy {
                id,
                why: Why::Dropped { moment },
            } => {
                let number = narrow(value.number)?;
                let id = narrow(*id)?;
                Some(ShortNote::Dropped {
                    number,
                    id,
                    moment: *moment,
                })
            }
            _ => None,
        }
    }

    #[inline(always)]
    fn whole(at: u32) -> Self {
        ShortNote::Whole { at }
    }

    #[inline(always)]
    fn read(&self) -> Stored<Note> {
        match *self {
            ShortNote::Whole { at } => Stored::Whole(at),
            ShortNote::Touch {
                direction,
                segment,
                number,
                id,
                moment,
                after,
            } => Stored::Here(Note {
                number: u64::from(number),
                event: Event::Touch {
                    id: u64::from(id),
                    direction,
                    segment,
                    moment,
                    after,
                },
            }),
            ShortNote::Confirm {
                kind,
                replied,
                assured,
                number,
                place,
                original,
                deadline,
            } => Stored::Here(Note {
                number: u64::from(number),
                event: Event::Confirm {
                    subject: Record {
                        id: u64::from(number),
                        place,
                        original,
                        reply: plain_reply(&original),
                        part: Part {
                            kind,
                            replied,
                            assured,
                            deadline,
                        },
                        helper: false,
                        master: None,
                    },
                },
            }),
            ShortNote::Expired { number, id, moment } => Stored::Here(Note {
                number: u64::from(number),
                event: Event::Destroy {
                    id: u64::from(id),
                    why: Why::Expired { moment },
                },
            }),
            ShortNote::Dropped { number, id, moment } => Stored::Here(Note {
                number: u64::from(number),
                event: Event::Destroy {
                    id: u64::from(id),
                    why: Why::Dropped { moment },
                },
            }),
        }
    }
}
