//! What words ask for: each law is the contract of a function that does nothing.

ghost use Rattle.command_words.specs.WordsLaws.{CapturesAlone, CapturesOfAnyName, CapturesWithRules, DefragOfCaptures, ListenOfCaptures, MadeBesideCaptures, RewriteOfCaptures, SummaryOfCaptures, WordsWantNoMemory, WordsWithoutCaptures, ZonesBesideMade, ZonesOfCaptures, ZonesOfOtherCaptures};

/// A capture whose name does not begin with `-` is asked for by its name alone.
pub fn captures_alone()
    ensures { CapturesAlone }
{}

/// A capture of any name is asked for behind `--`.
pub fn captures_of_any_name()
    ensures { CapturesOfAnyName }
{}

/// It is asked for so with a file of rules of any name behind `--rules=`.
pub fn captures_with_rules()
    ensures { CapturesWithRules }
{}

/// A summary of it is asked for by a flag before it.
pub fn summary_of_captures()
    ensures { SummaryOfCaptures }
{}

/// Its fragments are put together by another flag before it.
pub fn defrag_of_captures()
    ensures { DefragOfCaptures }
{}

/// A listener beside it is asked for by a third flag before it.
pub fn listen_of_captures()
    ensures { ListenOfCaptures }
{}

/// Its rewritten packets are asked for by a fourth flag before it.
pub fn rewrite_of_captures()
    ensures { RewriteOfCaptures }
{}

/// A capture beside a made workload is not of the form.
pub fn made_beside_captures()
    ensures { MadeBesideCaptures }
{}

/// Two captures are asked for in the zones that are listed for them.
pub fn zones_of_captures()
    ensures { ZonesOfCaptures }
{}

/// Zones of more captures than there are, or of fewer, are not of the form.
pub fn zones_of_other_captures()
    ensures { ZonesOfOtherCaptures }
{}

/// Zones beside a made workload are not of the form.
pub fn zones_beside_made()
    ensures { ZonesBesideMade }
{}

/// Words without a capture are not of the form.
pub fn words_without_captures()
    ensures { WordsWithoutCaptures }
{}

/// Words ask for something, are not of the form, or pass a limit.
pub fn words_want_no_memory()
    ensures { WordsWantNoMemory }
{}
