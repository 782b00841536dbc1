//! The words of the command line, as plain data.
//!
//! They are read by `clap`, of which nothing else sees a term.
#![tactic(auto)]

ghost use Rattle.std.specs.Prelude.{◌≡◌, map, option_map, replicate, IfOk};
ghost use Rattle.std.specs.String.{string_bytes};
ghost use Rattle.command_words.specs.Asked.{IsOrNoMemory, asked_as, origin_as, workload_as};
ghost use Rattle.command_words.specs.Internal.{formed_as, formed_origin_as, IsOrPast, wide_as, zones_or};
ghost use Rattle.command_words.specs.Words.{asked_of, capture_count, IsWithin, past_origin, past_workload, within_limits};

use room_list::RoomList;
use std::alloc::{AllocError, Global};
use tuple_core::NoMemory;

mod by_clap;
pub mod laws;
mod values;

use by_clap::find;
use values::{Formed, FormedOrigin, Wide, form};

/// The names of files.
#[derive(Drop)]
pub struct Named<'w> {
    /// That of a file of rules.
    pub rules: Option<&'w str>,
    /// That of a script.
    pub script: Option<&'w str>,
    /// Those of the captures, in their order.
    pub captures: RoomList<&'w str>,
}

/// A workload that is to be made.
#[derive(Clone, Copy)]
pub struct Workload {
    /// The number from which it follows.
    pub seed: u32,
    /// The packets of each capture.
    pub packets: u32,
    /// The captures, each of which is a thread.
    pub threads: u32,
}

/// What is worked through.
#[derive(Drop)]
pub enum Origin<'w> {
    /// Files that are named.
    Named(Named<'w>),
    /// A made workload; no file is read.
    Made(Workload),
}

/// What the words ask for.
#[derive(Drop)]
pub struct Asked<'w> {
    pub origin: Origin<'w>,
    /// The zone of each capture, in their order.
    pub zones: RoomList<u16>,
    /// The most live entries.
    pub entries: u32,
    /// The buckets of the hash table.
    pub buckets: u32,
    /// The server ports whose connections have the helper of FTP.
    pub ftp: RoomList<u16>,
    /// Whether a summary is written in place of the whole report.
    pub summary: bool,
    /// Whether the fragments of each capture are put together.
    pub defrag: bool,
    /// Whether a listener hears the threads' events while they work.
    pub listen: bool,
    /// Whether the rewritten packets of translated FTP sessions are printed.
    pub rewrite: bool,
}

/// What there is too much of, or too little.
#[derive(Clone, Copy, PartialEq, Eq)]
pub enum WordsLimit {
    Entries,
    Buckets,
    Seed,
    Packets,
    Threads,
    /// The flows of a made workload are more than the entries.
    Flows,
    Captures,
}

/// Why the words ask for nothing.
#[derive(Clone, Copy, PartialEq, Eq)]
pub enum WordsError {
    /// They are not of the form.
    Usage,
    /// They are, and pass this limit first.
    Limit(WordsLimit),
    NoMemory,
}

impl From<AllocError> for WordsError {
    ghost use Rattle.command_words.specs.declared.WordsError.{WordsError};

    ghost from_gives = { λ _ error. error ≡ WordsError.NoMemory };

    fn from(_error: AllocError) -> WordsError {
        WordsError::NoMemory
    }
}

impl From<NoMemory> for WordsError {
    ghost use Rattle.command_words.specs.declared.WordsError.{WordsError};

    ghost from_gives = { λ _ error. error ≡ WordsError.NoMemory };

    fn from(_error: NoMemory) -> WordsError {
        WordsError::NoMemory
    }
}

/// The most entries, and the most buckets.
const MOST: u64 = 65_536;
/// The most captures, and the most threads of a workload.
const MOST_CAPTURES: u64 = 63;
/// The highest seed of a workload.
const MOST_SEED: u64 = 4_294_967_295;
/// The most packets of each capture of a workload.
const MOST_PACKETS: u64 = 262_144;
/// The packets of a flow of a workload.
const FLOW: u64 = 4;

/// The workload, where it is within the limits of a table of so many entries.
fn limit_workload(entries: u64, wide: Wide) -> Result<Workload, WordsLimit>
    ensures { IsOrPast workload_as (wide_as wide) (past_workload entries (wide_as wide)) result }
{
    let Wide {
        seed,
        packets,
        threads,
    } = wide;
    if seed > MOST_SEED {
        return Err(WordsLimit::Seed);
    }
    if packets < 1 || packets > MOST_PACKETS {
        return Err(WordsLimit::Packets);
    }
    if threads < 1 || threads > MOST_CAPTURES {
        return Err(WordsLimit::Threads);
    }
    if threads * packets.div_ceil(FLOW) > entries {
        return Err(WordsLimit::Flows);
    }
    Ok(Workload {
        seed: seed as u32,
        packets: packets as u32,
        threads: threads as u32,
    })
}

/// What is worked through, where it is within the limits of a table of so many entries.
fn limit_origin(entries: u64, formed: FormedOrigin<'_>) -> Result<Origin<'_>, WordsLimit>
    ensures { IsOrPast origin_as (formed_origin_as formed.entry) (past_origin entries (formed_origin_as formed.entry)) result }
{
    match formed {
        FormedOrigin::Named(names) => {
            if names.captures.len() as u64 > MOST_CAPTURES {
                return Err(WordsLimit::Captures);
            }
            Ok(Origin::Named(names))
        }
        FormedOrigin::Made(wide) => Ok(Origin::Made(limit_workload(entries, wide)?)),
    }
}

/// How many captures there are.
fn capture_count(origin: &Origin<'_>) -> usize
    ensures { result ≡ capture_count (origin_as origin.now) }
{
    match origin {
        Origin::Named(names) => names.captures.len(),
        Origin::Made(workload) => workload.threads as usize,
    }
}

/// Zone 0, so many times.
fn zeros(alloc: Global, count: usize) -> Result<RoomList<u16>, NoMemory>
    ensures { IfOk result (λ zones. zones.items ≡ replicate count 0) }
{
    let mut zones = RoomList::new(alloc, count)?;
    'zones: for _zone in 0..count {
        zones.push(0);
    }
    Ok(zones)
}

/// The zones that are listed, or zone 0 for each of so many captures.
fn zones_or_zeros(
    alloc: Global,
    listed: Option<RoomList<u16>>,
    count: usize,
) -> Result<RoomList<u16>, NoMemory>
    ensures { IfOk result (λ zones. zones.items ≡ zones_or count (option_map (λ z. z.items) listed)) }
{
    match listed {
        Some(zones) => Ok(zones),
        None => zeros(alloc, count),
    }
}

/// What is asked, where the numbers are within their limits.
fn limit(alloc: Global, formed: Formed<'_>) -> Result<Asked<'_>, WordsError>
    ensures { IsOrNoMemory asked_as (within_limits (formed_as formed.entry)) result }
{
    let Formed {
        origin,
        zones,
        entries,
        buckets,
        ftp,
        summary,
        defrag,
        listen,
        rewrite,
    } = formed;
    if entries < 1 || entries > MOST {
        return Err(WordsError::Limit(WordsLimit::Entries));
    }
    if buckets > MOST {
        return Err(WordsError::Limit(WordsLimit::Buckets));
    }
    let origin = match limit_origin(entries, origin) {
        Ok(origin) => origin,
        Err(limit) => return Err(WordsError::Limit(limit)),
    };
    let zones = zones_or_zeros(alloc, zones, capture_count(&origin))?;
    Ok(Asked {
        origin,
        zones,
        entries: entries as u32,
        buckets: buckets as u32,
        ftp,
        summary,
        defrag,
        listen,
        rewrite,
    })
}

/// What the words ask for. The first is the program's name.
#[tactic(auto, unfolding(crate::specs::Words::asked_of))]
pub fn read_words<'w>(alloc: Global, words: &'w [String]) -> Result<Asked<'w>, WordsError>
    ensures exact { IsOrNoMemory asked_as (asked_of (map string_bytes words.now)) result }
    ensures within { IfOk result (λ asked. IsWithin (asked_as asked)) }
{
    let found = find(alloc, words)?;
    let formed = form(alloc, found)?;
    limit(alloc, formed)
}
