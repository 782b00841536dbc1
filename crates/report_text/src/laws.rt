//! What a summary counts: each law is the contract of a function that does nothing.

ghost use Rattle.report_text.specs.SummaryLaws.{EachCountedOnce, TextsBeginWithTheirWord};

/// The word that a summary counts for a verdict is the first of the verdict's text.
pub fn texts_begin_with_their_word()
    ensures { TextsBeginWithTheirWord }
{}

/// The numbers of all words add up to the number of verdicts.
pub fn each_counted_once()
    ensures { EachCountedOnce }
{}
