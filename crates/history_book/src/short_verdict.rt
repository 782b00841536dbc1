//! Short forms of verdicts.

ghost use Rattle.std.specs.Prelude.{◌≡◌, IfSome, Ok};
ghost use Rattle.history_book.specs.ShortVerdict.{class_or_place, stored_verdict};

use crate::packed::{Form, Stored};
use crate::verdict::{Class, Ftp, Label, Translated, UntrackedWhy, Verdict};
use tuple_core::Direction;

/// A class whose numbers are below 2^32, without a translation and without what a payload led to.
#[derive(Clone, Copy)]
pub enum ShortClass {
    /// The verdict stands whole in a second list, at this index.
    Whole {
        at: u32,
    },
    Untracked(UntrackedWhy),
    BadHeader,
    NoEntry {
        at: u32,
    },
    BadState {
        id: u32,
        at: u32,
    },
    ErrorLost {
        at: u32,
    },
    ErrorAddress {
        id: u32,
        at: u32,
    },
    Error {
        direction: Direction,
        id: u32,
        at: u32,
    },
    /// A new entry that no rule translated and no expectation was claimed for.
    Made {
        id: u32,
        at: u32,
        unclaimed: u32,
    },
    /// Its payload led to nothing.
    Passed {
        label: Label,
        id: u32,
        at: u32,
    },
    Ignored {
        id: u32,
        at: u32,
    },
    NoPort {
        from: u32,
        to: u32,
    },
    Full {
        from: u32,
        at: u32,
    },
    Contended {
        id: u32,
        at: u32,
    },
}

/// A verdict whose numbers are below 2^32, or where it stands whole.
#[derive(Clone, Copy)]
pub struct ShortVerdict {
    class: ShortClass,
    first: u32,
    made: u8,
}

/// The number in 32 bits, or None: one of 2^32 or more has None.
#[inline(always)]
pub(crate) fn narrow(n: u64) -> Option<u32>
    ensures { IfSome result (λ m. m ≡ n) }
{
    u32::try_from(n).ok()
}

/// The short form that a class may have.
#[inline(always)]
fn short_class(class: &Class) -> Option<ShortClass>
    ensures { IfSome result (λ s. class_or_place s ≡ Ok class.now) }
{
    let short = match *class {
        Class::Untracked(why) => ShortClass::Untracked(why),
        Class::BadHeader => ShortClass::BadHeader,
        Class::NoEntry { at } => ShortClass::NoEntry { at: narrow(at)? },
        Class::BadState { id, at } => ShortClass::BadState {
            id: narrow(id)?,
            at: narrow(at)?,
        },
        Class::ErrorLost { at } => ShortClass::ErrorLost { at: narrow(at)? },
        Class::ErrorAddress { id, at } => ShortClass::ErrorAddress {
            id: narrow(id)?,
            at: narrow(at)?,
        },
        Class::Error { direction, id, at } => ShortClass::Error {
            direction,
            id: narrow(id)?,
            at: narrow(at)?,
        },
        Class::Made {
            id,
            at,
            translated: Translated::Plain,
            unclaimed: Some(unclaimed),
        } => ShortClass::Made {
            id: narrow(id)?,
            at: narrow(at)?,
            unclaimed: narrow(unclaimed)?,
        },
        Class::Passed {
            label,
            id,
            at,
            ftp: Ftp::Nothing,
        } => ShortClass::Passed {
            label,
            id: narrow(id)?,
            at: narrow(at)?,
        },
        Class::Ignored { id, at } => ShortClass::Ignored {
            id: narrow(id)?,
            at: narrow(at)?,
        },
        Class::NoPort { from, to } => ShortClass::NoPort {
            from: narrow(from)?,
            to: narrow(to)?,
        },
        Class::Full { from, at } => ShortClass::Full {
            from: narrow(from)?,
            at: narrow(at)?,
        },
        Class::Contended { id, at } => ShortClass::Contended {
            id: narrow(id)?,
            at: narrow(at)?,
        },
        Class::Made { .. } | Class::Passed { .. } | Class::Merged { .. } | Class::Clash { .. } =>
            return None,
    };
    Some(short)
}

/// The class of a short one, or where the verdict stands whole.
#[inline(always)]
fn read_class(class: ShortClass) -> Result<Class, u32>
    ensures { result ≡ class_or_place class }
{
    Ok(match class {
        ShortClass::Whole { at } => return Err(at),
        ShortClass::Untracked(why) => Class::Untracked(why),
        ShortClass::BadHeader => Class::BadHeader,
        ShortClass::NoEntry { at } => Class::NoEntry { at: u64::from(at) },
        ShortClass::BadState { id, at } => Class::BadState {
            id: u64::from(id),
            at: u64::from(at),
        },
        ShortClass::ErrorLost { at } => Class::ErrorLost { at: u64::from(at) },
        ShortClass::ErrorAddress { id, at } => Class::ErrorAddress {
            id: u64::from(id),
            at: u64::from(at),
        },
        ShortClass::Error { direction, id, at } => Class::Error {
            direction,
            id: u64::from(id),
            at: u64::from(at),
        },
        ShortClass::Made { id, at, unclaimed } => Class::Made {
            id: u64::from(id),
            at: u64::from(at),
            translated: Translated::Plain,
            unclaimed: Some(u64::from(unclaimed)),
        },
        ShortClass::Passed { label, id, at } => Class::Passed {
            label,
            id: u64::from(id),
            at: u64::from(at),
            ftp: Ftp::Nothing,
        },
        ShortClass::Ignored { id, at } => Class::Ignored {
            id: u64::from(id),
            at: u64::from(at),
        },
        ShortClass::NoPort { from, to } => Class::NoPort {
            from: u64::from(from),
            to: u64::from(to),
        },
        ShortClass::Full { from, at } => Class::Full {
            from: u64::from(from),
            at: u64::from(at),
        },
        ShortClass::Contended { id, at } => Class::Contended {
            id: u64::from(id),
            at: u64::from(at),
        },
    })
}

impl Form<Verdict> for ShortVerdict {
    ghost stored = { stored_verdict };

    #[inline(always)]
    fn of(value: &Verdict) -> Option<Self> {
        let class = short_class(&value.class)?;
        let first = narrow(value.first)?;
        Some(ShortVerdict {
            class,
            first,
            made: value.made,
        })
    }

    #[inline(always)]
    fn whole(at: u32) -> Self {
        ShortVerdict {
            class: ShortClass::Whole { at },
            first: 0,
            made: 0,
        }
    }

    #[inline(always)]
    fn read(&self) -> Stored<Verdict> {
        match read_class(self.class) {
            Ok(class) => Stored::Here(Verdict {
                class,
                first: u64::from(self.first),
                made: self.made,
            }),
            Err(at) => Stored::Whole(at),
        }
    }
}
