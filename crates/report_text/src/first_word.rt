//! The first word of a verdict's text, which is what a summary counts.

ghost use Rattle.std.specs.Prelude.{◌≡◌};
ghost use Rattle.report_text.specs.FirstWord.{first_of_error, first_of_label, first_of_made, first_word, place_of};

use history_book::verdict::{Class, Label};
use tuple_core::Direction;

/// The first words, in the order in which a summary tells them.
#[derive(Clone, Copy)]
pub enum FirstWord {
    Untracked,
    Invalid,
    New,
    Related,
    Established,
    EstablishedReply,
    RelatedReply,
    Ignored,
    Merged,
    Clash,
    NoPort,
    Full,
    Contended,
}

/// How many first words there are.
pub(crate) const WORDS: usize = 13;

/// All first words in their order.
pub(crate) const ALL: [FirstWord; WORDS] = [
    FirstWord::Untracked,
    FirstWord::Invalid,
    FirstWord::New,
    FirstWord::Related,
    FirstWord::Established,
    FirstWord::EstablishedReply,
    FirstWord::RelatedReply,
    FirstWord::Ignored,
    FirstWord::Merged,
    FirstWord::Clash,
    FirstWord::NoPort,
    FirstWord::Full,
    FirstWord::Contended,
];

impl FirstWord {
    /// The first word of the text of what became of a packet.
    pub fn of(class: Class) -> FirstWord
        ensures { result ≡ first_word class }
    {
        match class {
            Class::Untracked(_) => FirstWord::Untracked,
            Class::BadHeader
            | Class::NoEntry { .. }
            | Class::BadState { .. }
            | Class::ErrorLost { .. }
            | Class::ErrorAddress { .. } => FirstWord::Invalid,
            Class::Error { direction, .. } => FirstWord::of_error(direction),
            Class::Made { unclaimed, .. } => FirstWord::of_made(unclaimed),
            Class::Passed { label, .. } => FirstWord::of_label(label),
            Class::Ignored { .. } => FirstWord::Ignored,
            Class::Merged { .. } => FirstWord::Merged,
            Class::Clash { .. } => FirstWord::Clash,
            Class::NoPort { .. } => FirstWord::NoPort,
            Class::Full { .. } => FirstWord::Full,
            Class::Contended { .. } => FirstWord::Contended,
        }
    }

    /// That of an ICMP error, by its way.
    fn of_error(direction: Direction) -> FirstWord
        ensures { result ≡ first_of_error direction }
    {
        match direction {
            Direction::Original => FirstWord::Related,
            Direction::Reply => FirstWord::RelatedReply,
        }
    }

    /// That of a new entry, by where no expectation matched.
    fn of_made(unclaimed: Option<u64>) -> FirstWord
        ensures { result ≡ first_of_made unclaimed }
    {
        match unclaimed {
            None => FirstWord::Related,
            Some(_) => FirstWord::New,
        }
    }

    /// That of a packet of an entry, by the state of its flow.
    fn of_label(label: Label) -> FirstWord
        ensures { result ≡ first_of_label label }
    {
        match label {
            Label::New => FirstWord::New,
            Label::Related => FirstWord::Related,
            Label::Established => FirstWord::Established,
            Label::EstablishedReply => FirstWord::EstablishedReply,
        }
    }

    /// Its place among all first words.
    pub(crate) fn place(self) -> usize
        ensures { result ≡ place_of self }
    {
        self as usize
    }
}
