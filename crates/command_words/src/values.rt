//! What the values of the options say.

ghost use Rattle.std.specs.Prelude.{◌≡◌, ◌≤◌, None, Some, if◌then◌else◌, option_map};
ghost use Rattle.file_text.specs.Reading.{required};
ghost use Rattle.file_text.specs.Text.{port_of};
ghost use Rattle.command_words.specs.Asked.{IsOrNoMemory, names_as};
ghost use Rattle.command_words.specs.Internal.{formed_as, formed_origin_as, given_as, numbers_after, wide_as, zones_or};
ghost use Rattle.command_words.specs.Words.{capture_count, if_power_of_two, made, names_nothing, number_of, number_or, numbers_in, origin_of, ports_or, with_values, workload_of, zones_for, zones_in};
ghost use Rattle.command_words.specs.declared.WordsError.TheVariants.{Usage};

use crate::by_clap::Found;
use crate::{Named, WordsError};
use file_text::halves::split_once;
use file_text::numbers::{number, read_port};
use room_list::RoomList;
use std::alloc::Global;

/// The usual number of entries.
const ENTRIES: u64 = 65_536;
/// The usual number of buckets.
const BUCKETS: u64 = 16_384;
/// The usual server port of FTP.
const FTP: u16 = 21;
/// The most server ports of FTP.
const MOST_PORTS: usize = 8;

/// The numbers of a workload, before they are held against the limits.
#[derive(Clone, Copy)]
pub(crate) struct Wide {
    pub(crate) seed: u64,
    pub(crate) packets: u64,
    pub(crate) threads: u64,
}

/// What is worked through, before the same.
#[derive(Drop)]
pub(crate) enum FormedOrigin<'w> {
    Named(Named<'w>),
    Made(Wide),
}

/// What is asked, before the same.
#[derive(Drop)]
pub(crate) struct Formed<'w> {
    pub(crate) origin: FormedOrigin<'w>,
    /// The zones, where they are listed.
    pub(crate) zones: Option<RoomList<u16>>,
    pub(crate) entries: u64,
    pub(crate) buckets: u64,
    pub(crate) ftp: RoomList<u16>,
    pub(crate) summary: bool,
    pub(crate) defrag: bool,
    pub(crate) listen: bool,
    pub(crate) rewrite: bool,
}

/// The number that the text writes.
fn number_of(text: &str) -> Option<u64>
    ensures { result ≡ number_of text.now }
{
    number(text.as_bytes(), 10, 0, 9_999_999_999)
}

/// The number that the text writes, or the usual one.
fn number_or(text: Option<&str>, usual: u64) -> Option<u64>
    ensures { result ≡ number_or usual (option_map (λ s. s.now) text.entry) }
{
    match text {
        Some(text) => number_of(text),
        None => Some(usual),
    }
}

/// The number, where it is a power of two.
fn if_power_of_two(number: Option<u64>) -> Option<u64>
    ensures { result ≡ if_power_of_two number }
{
    match number {
        Some(number) if number.is_power_of_two() => Some(number),
        _ => None,
    }
}

/// Appends the number from `least` to 65535 that the text writes, unless there are `most`; whether it did.
#[tactic(auto, unfolding(crate::specs::Internal::numbers_after))]
fn push_number(numbers: &mut RoomList<u16>, text: &[u8], most: usize, least: u16) -> bool
    requires { most ≤ numbers.old.room }
    ensures numbers { numbers_after most (port_of least) numbers.old.items text.now ≡ (if result then Some numbers.new.items else None) }
    ensures room { numbers.new.room ≡ numbers.old.room }
{
    if numbers.len() >= most {
        return false;
    }
    match read_port(text, least) {
        Some(number) => {
            numbers.push(number);
            true
        }
        None => false,
    }
}

/// The numbers of a text, between commas: at most `most`, each from `least` to 65535.
#[tactic(auto, using(crate::proofs::Numbers::no_numbers, crate::proofs::Numbers::one_more, crate::proofs::Numbers::the_last, crate::proofs::Numbers::no_number))]
fn read_numbers(
    alloc: Global,
    text: &[u8],
    most: usize,
    least: u16,
) -> Result<RoomList<u16>, WordsError>
    ensures { IsOrNoMemory (λ numbers. numbers.items) (required Usage (numbers_in most (port_of least) text.now)) result }
{
    let mut numbers = RoomList::new(alloc, most)?;
    let mut rest = text;
    'numbers: while let Some((part, behind)) = split_once(rest, b',') {
        if !push_number(&mut numbers, part, most, least) {
            return Err(WordsError::Usage);
        }
        rest = behind;
    }
    if !push_number(&mut numbers, rest, most, least) {
        return Err(WordsError::Usage);
    }
    Ok(numbers)
}

/// The ports that the text names, or the usual one.
fn ports_or(alloc: Global, text: Option<&str>) -> Result<RoomList<u16>, WordsError>
    ensures { IsOrNoMemory (λ ports. ports.items) (required Usage (ports_or 21 (option_map (λ s. s.now) text.entry))) result }
{
    match text {
        Some(text) => read_numbers(alloc, text.as_bytes(), MOST_PORTS, 1),
        None => {
            let mut ports = RoomList::new(alloc, 1)?;
            ports.push(FTP);
            Ok(ports)
        }
    }
}

/// The zones of a text, between commas: exactly so many.
#[tactic(auto, using(crate::proofs::Numbers::all_zones, crate::proofs::Numbers::other_zones, crate::proofs::Numbers::no_zones))]
fn read_zones(alloc: Global, text: &[u8], count: usize) -> Result<RoomList<u16>, WordsError>
    ensures { IsOrNoMemory (λ zones. zones.items) (required Usage (zones_in count text.now)) result }
{
    let zones = read_numbers(alloc, text, count, 0)?;
    if zones.len() == count {
        Ok(zones)
    } else {
        Err(WordsError::Usage)
    }
}

/// The zones that a text lists, one for each capture that is named.
fn zones_for(
    alloc: Global,
    origin: &FormedOrigin<'_>,
    text: Option<&str>,
) -> Result<Option<RoomList<u16>>, WordsError>
    ensures { IsOrNoMemory (λ zones. zones_or (capture_count (formed_origin_as origin.now)) (option_map (λ z. z.items) zones))
        (required Usage (zones_for (formed_origin_as origin.now) (option_map (λ s. s.now) text.entry))) result }
{
    let Some(text) = text else {
        return Ok(None);
    };
    match origin {
        FormedOrigin::Named(names) => {
            let zones = read_zones(alloc, text.as_bytes(), names.captures.len())?;
            Ok(Some(zones))
        }
        FormedOrigin::Made(_) => Err(WordsError::Usage),
    }
}

/// Whether no file is named.
fn names_nothing(names: &Named<'_>) -> bool
    ensures { result ≡ names_nothing (names_as names.now) }
{
    names.rules.is_none() && names.script.is_none() && names.captures.is_empty()
}

/// The workload of three texts.
fn workload(make: &str, packets: &str, threads: &str) -> Option<Wide>
    ensures { option_map (λ wide. made (wide_as wide)) result
        ≡ workload_of (number_of make.now) (number_of packets.now) (number_of threads.now) }
{
    Some(Wide {
        seed: number_of(make)?,
        packets: number_of(packets)?,
        threads: number_of(threads)?,
    })
}

/// What is worked through, where the options of a workload stand all, or none of them does.
fn origin<'w>(
    names: Named<'w>,
    make: Option<&'w str>,
    packets: Option<&'w str>,
    threads: Option<&'w str>,
) -> Option<FormedOrigin<'w>>
    ensures { option_map formed_origin_as result
        ≡ origin_of (names_as names.entry) (option_map (λ s. s.now) make.entry)
        (option_map (λ s. s.now) packets.entry) (option_map (λ s. s.now) threads.entry) }
{
    match (make, packets, threads) {
        (None, None, None) if names.captures.is_empty() => None,
        (None, None, None) => Some(FormedOrigin::Named(names)),
        (Some(make), Some(packets), Some(threads)) if names_nothing(&names) => {
            Some(FormedOrigin::Made(workload(make, packets, threads)?))
        }
        _ => None,
    }
}

/// What is asked, where each value is of its form.
pub(crate) fn form(alloc: Global, found: Found<'_>) -> Result<Formed<'_>, WordsError>
    ensures { IsOrNoMemory formed_as (with_values (given_as found.entry)) result }
{
    let Some(origin) = origin(found.names, found.make, found.packets, found.threads) else {
        return Err(WordsError::Usage);
    };
    let zones = zones_for(alloc, &origin, found.zones)?;
    let Some(entries) = number_or(found.entries, ENTRIES) else {
        return Err(WordsError::Usage);
    };
    let Some(buckets) = if_power_of_two(number_or(found.buckets, BUCKETS)) else {
        return Err(WordsError::Usage);
    };
    let ftp = ports_or(alloc, found.ftp)?;
    Ok(Formed {
        origin,
        zones,
        entries,
        buckets,
        ftp,
        summary: found.summary,
        defrag: found.defrag,
        listen: found.listen,
        rewrite: found.rewrite,
    })
}
