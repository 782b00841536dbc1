//! What `clap` finds in the words.

ghost use Rattle.std.specs.Prelude.{◌≡◌, [], codes, false, map, option_map, unwrap_or, IfOk};
ghost use Rattle.std.specs.String.{string_bytes};
ghost use Rattle.clap.specs.Words.{all_of, app_of, first_of, found_of, rows_of, rule_of, with_rule};
ghost use Rattle.file_text.specs.Reading.{required};
ghost use Rattle.command_words.specs.Asked.{IsOrNoMemory, texts};
ghost use Rattle.command_words.specs.Internal.{given_as};
ghost use Rattle.command_words.specs.Words.{app, bare_app, captures_rule, flag_rule, found_by, found_in, is_set, option_rule, table_app, workload_app};
ghost use Rattle.command_words.specs.declared.WordsError.TheVariants.{Usage};

use crate::{Named, WordsError};
use clap::error::ErrorKind;
use clap::{Arg, ArgAction, ArgMatches, Command};
use room_list::RoomList;
use std::alloc::{AllocError, Global};
use tuple_core::NoMemory;

/// The values of the options that stand in the words, which of the flags do, and the captures.
#[derive(Drop)]
pub(crate) struct Found<'w> {
    pub(crate) names: Named<'w>,
    pub(crate) zones: Option<&'w str>,
    pub(crate) make: Option<&'w str>,
    pub(crate) packets: Option<&'w str>,
    pub(crate) threads: Option<&'w str>,
    pub(crate) entries: Option<&'w str>,
    pub(crate) buckets: Option<&'w str>,
    pub(crate) ftp: Option<&'w str>,
    pub(crate) summary: bool,
    pub(crate) defrag: bool,
    pub(crate) listen: bool,
    pub(crate) rewrite: bool,
}

/// An option that takes one value.
fn option<'w>(alloc: Global, name: &'w str) -> Arg<'w>
    ensures rule { rule_of result ≡ option_rule name.entry.now }
    ensures local { result.global ≡ false }
{
    Arg::new(alloc, name).long(name)
}

/// An option that takes none.
fn flag<'w>(alloc: Global, name: &'w str) -> Arg<'w>
    ensures rule { rule_of result ≡ flag_rule name.entry.now }
    ensures local { result.global ≡ false }
{
    Arg::new(alloc, name).long(name).action(ArgAction::SetTrue)
}

/// The command without arguments, and without options of clap's own.
fn bare<'w>(alloc: Global) -> Command<'w>
    ensures { app_of result ≡ bare_app }
{
    Command::new(alloc, "ctreplay")
        .disable_help_flag(true)
        .disable_version_flag(true)
}

/// The command with one more option.
fn with_option<'w>(
    alloc: Global,
    command: Command<'w>,
    name: &'w str,
) -> Result<Command<'w>, AllocError>
    ensures { IfOk result (λ more. app_of more ≡ with_rule (app_of command.entry) (option_rule name.entry.now)) }
{
    command.arg(option(alloc, name))
}

/// The command with one more flag.
fn with_flag<'w>(
    alloc: Global,
    command: Command<'w>,
    name: &'w str,
) -> Result<Command<'w>, AllocError>
    ensures { IfOk result (λ more. app_of more ≡ with_rule (app_of command.entry) (flag_rule name.entry.now)) }
{
    command.arg(flag(alloc, name))
}

/// The command with the captures, as many as there are.
fn with_captures(alloc: Global, command: Command<'_>) -> Result<Command<'_>, AllocError>
    ensures { IfOk result (λ more. app_of more ≡ with_rule (app_of command.entry) captures_rule) }
{
    command.arg(Arg::new(alloc, "captures").action(ArgAction::Append))
}

/// The command with six of its options.
#[tactic(auto, unfolding(crate::specs::Words::table_app))]
fn table_command<'w>(alloc: Global) -> Result<Command<'w>, AllocError>
    ensures { IfOk result (λ command. app_of command ≡ table_app) }
{
    let command = bare(alloc);
    let command = with_option(alloc, command, "rules")?;
    let command = with_option(alloc, command, "script")?;
    let command = with_option(alloc, command, "zones")?;
    let command = with_option(alloc, command, "entries")?;
    let command = with_option(alloc, command, "buckets")?;
    with_option(alloc, command, "ftp")
}

/// The command with these and the three of a made workload.
#[tactic(auto, unfolding(crate::specs::Words::workload_app))]
fn workload_command<'w>(alloc: Global) -> Result<Command<'w>, AllocError>
    ensures { IfOk result (λ command. app_of command ≡ workload_app) }
{
    let command = table_command(alloc)?;
    let command = with_option(alloc, command, "make")?;
    let command = with_option(alloc, command, "packets")?;
    with_option(alloc, command, "threads")
}

/// The command.
#[tactic(auto, unfolding(crate::specs::Words::app))]
fn command<'w>(alloc: Global) -> Result<Command<'w>, AllocError>
    ensures { IfOk result (λ command. app_of command ≡ app) }
{
    let command = workload_command(alloc)?;
    let command = with_flag(alloc, command, "summary")?;
    let command = with_flag(alloc, command, "defrag")?;
    let command = with_flag(alloc, command, "listen")?;
    let command = with_flag(alloc, command, "rewrite")?;
    with_captures(alloc, command)
}

/// What clap makes of the words.
fn parse<'w>(alloc: Global, words: &'w [String]) -> Result<ArgMatches<'w>, WordsError>
    ensures { IsOrNoMemory (λ m. found_by (rows_of (found_of m))) (required Usage (found_in (map string_bytes words.now))) result }
{
    let command = command(alloc)?;
    match command.try_get_matches_from(words) {
        Ok(matches) => Ok(matches),
        Err(error) if matches!(error.kind(), ErrorKind::OutOfMemory) => Err(WordsError::NoMemory),
        Err(_) => Err(WordsError::Usage),
    }
}

/// The value of an option.
#[tactic(auto, using(crate::proofs::ByClap::first_found))]
fn value<'w>(matches: &ArgMatches<'w>, name: &str) -> Option<&'w str>
    ensures { option_map (λ s. s.now) result ≡ first_of name.now (rows_of (found_of matches.now)) }
{
    matches.get_str(name)
}

/// Whether a flag stands.
fn is_set(matches: &ArgMatches<'_>, name: &str) -> bool
    ensures { result ≡ is_set (first_of name.now (rows_of (found_of matches.now))) }
{
    match value(matches, name) {
        Some(text) => text == "true",
        None => false,
    }
}

/// The captures.
#[tactic(auto, using(crate::proofs::ByClap::all_found))]
fn captures<'w>(alloc: Global, matches: &ArgMatches<'w>) -> Result<RoomList<&'w str>, NoMemory>
    ensures { IfOk result (λ names.
        texts names.items ≡ unwrap_or (all_of (codes "captures") (rows_of (found_of matches.now))) []) }
{
    let mut all = RoomList::new(alloc, 0)?;
    if let Some(names) = matches.get_strs("captures") {
        all.append(names)?;
    }
    Ok(all)
}

/// What stands in the words, where clap takes them.
pub(crate) fn find<'w>(alloc: Global, words: &'w [String]) -> Result<Found<'w>, WordsError>
    ensures { IsOrNoMemory given_as (required Usage (found_in (map string_bytes words.now))) result }
{
    let matches = parse(alloc, words)?;
    let captures = captures(alloc, &matches)?;
    Ok(Found {
        names: Named {
            rules: value(&matches, "rules"),
            script: value(&matches, "script"),
            captures,
        },
        zones: value(&matches, "zones"),
        make: value(&matches, "make"),
        packets: value(&matches, "packets"),
        threads: value(&matches, "threads"),
        entries: value(&matches, "entries"),
        buckets: value(&matches, "buckets"),
        ftp: value(&matches, "ftp"),
        summary: is_set(&matches, "summary"),
        defrag: is_set(&matches, "defrag"),
        listen: is_set(&matches, "listen"),
        rewrite: is_set(&matches, "rewrite"),
    })
}
