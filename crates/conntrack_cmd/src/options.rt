//! The options of a command.

ghost use Rattle.std.specs.Prelude.{◌≡◌, ◌≤◌, [], length, drop, get_or};
ghost use Rattle.file_text.specs.Text.{words_of};
ghost use Rattle.conntrack_cmd.specs.Options.{address_once, beside_ports, everything, filter_of, flow_of, options_from, short_once, taken_proto, tuple_of, with_option, with_reply};

use crate::read::ScriptKind;
use file_text::lines::next_word;
use file_text::numbers::{read_address, read_port};
use file_text::options::{has_ports, once, read_proto};
use history_book::filter::Filter;
use tuple_core::{Proto, Tuple};

/// The protocol, where the command takes it: one for one flow takes only those that have ports.
fn taken_proto(one: bool, proto: Option<Proto>) -> Option<Proto>
    ensures { result ≡ taken_proto one proto }
{
    if one && !has_ports(proto) {
        None
    } else {
        proto
    }
}

/// The option with the address that is its value.
fn address_once(old: Option<u32>, value: &[u8]) -> Result<Option<u32>, ScriptKind>
    ensures { result ≡ address_once old value.now }
{
    let read = read_address(value).ok_or(ScriptKind::Value);
    once(old, read, ScriptKind::Repeat)
}

/// The option with the port or the zone that is its value.
fn short_once(old: Option<u16>, value: &[u8]) -> Result<Option<u16>, ScriptKind>
    ensures { result ≡ short_once old value.now }
{
    let read = read_port(value, 0).ok_or(ScriptKind::Value);
    once(old, read, ScriptKind::Repeat)
}

/// What is meant, with an address of the replies. A command for one flow takes none.
fn with_reply(one: bool, filter: Filter, name: &[u8], value: &[u8]) -> Result<Filter, ScriptKind>
    ensures { result ≡ with_reply one filter name.now value.now }
{
    if one {
        Err(ScriptKind::Option)
    } else if name == b"-r".as_slice() {
        let reply_src = address_once(filter.reply_src, value)?;
        Ok(Filter {
            reply_src,
            ..filter
        })
    } else if name == b"-q".as_slice() {
        let reply_dst = address_once(filter.reply_dst, value)?;
        Ok(Filter {
            reply_dst,
            ..filter
        })
    } else {
        Err(ScriptKind::Option)
    }
}

/// What is meant, with an option and its value.
#[tactic(auto, unfolding(crate::specs::Options::with_option))]
fn with_option(one: bool, filter: Filter, name: &[u8], value: &[u8]) -> Result<Filter, ScriptKind>
    ensures { result ≡ with_option one filter name.now value.now }
{
    if name == b"-p".as_slice() {
        let read = taken_proto(one, read_proto(value)).ok_or(ScriptKind::Value);
        let proto = once(filter.proto, read, ScriptKind::Repeat)?;
        Ok(Filter { proto, ..filter })
    } else if name == b"-s".as_slice() {
        let src = address_once(filter.src, value)?;
        Ok(Filter { src, ..filter })
    } else if name == b"-d".as_slice() {
        let dst = address_once(filter.dst, value)?;
        Ok(Filter { dst, ..filter })
    } else if name == b"--sport".as_slice() {
        let sport = short_once(filter.sport, value)?;
        Ok(Filter { sport, ..filter })
    } else if name == b"--dport".as_slice() {
        let dport = short_once(filter.dport, value)?;
        Ok(Filter { dport, ..filter })
    } else if name == b"-w".as_slice() {
        let zone = short_once(filter.zone, value)?;
        Ok(Filter { zone, ..filter })
    } else {
        with_reply(one, filter, name, value)
    }
}

/// The next word and what stands behind it; an empty one where there is none.
fn next_value(text: &[u8]) -> (&[u8], &[u8])
    ensures value { result.0.now ≡ get_or (words_of text.now) 0 [] }
    ensures rest { words_of result.1.now ≡ drop 1 (words_of text.now) }
    ensures less { length result.1.now ≤ length text.now }
{
    match next_word(text) {
        Some(word) => word,
        None => (text.split_at(0).0, text),
    }
}

/// What these words mean: options with their values.
#[tactic(auto, unfolding(crate::specs::Options::options_from))]
fn read_options(one: bool, words: &[u8]) -> Result<Filter, ScriptKind>
    ensures { result ≡ options_from one everything (words_of words.now) }
{
    let mut filter = Filter {
        proto: None,
        src: None,
        dst: None,
        reply_src: None,
        reply_dst: None,
        sport: None,
        dport: None,
        zone: None,
    };
    let mut rest = words;
    'options: loop {
        let Some((name, behind)) = next_word(rest) else {
            return Ok(filter);
        };
        let (value, behind) = next_value(behind);
        filter = with_option(one, filter, name, value)?;
        rest = behind;
    }
}

/// What is meant, where ports stand only beside a protocol that has ports.
fn beside_ports(filter: Filter) -> Result<Filter, ScriptKind>
    ensures { result ≡ beside_ports filter }
{
    if has_ports(filter.proto) || (filter.sport.is_none() && filter.dport.is_none()) {
        Ok(filter)
    } else {
        Err(ScriptKind::Option)
    }
}

/// The entries that these words mean.
pub(crate) fn read_filter(words: &[u8]) -> Result<Filter, ScriptKind>
    ensures { result ≡ filter_of (words_of words.now) }
{
    let filter = read_options(false, words)?;
    beside_ports(filter)
}

/// The flow, where five options tell it; in zone 0, where no zone is told.
fn flow_of(filter: Filter) -> Result<Tuple, ScriptKind>
    ensures { result ≡ flow_of filter }
{
    match (
        filter.proto,
        filter.src,
        filter.dst,
        filter.sport,
        filter.dport,
    ) {
        (Some(proto), Some(src), Some(dst), Some(a), Some(b)) => Ok(Tuple {
            proto,
            zone: filter.zone.unwrap_or(0),
            src,
            dst,
            a,
            b,
        }),
        _ => Err(ScriptKind::Option),
    }
}

/// The flow that these words name.
pub(crate) fn read_tuple(words: &[u8]) -> Result<Tuple, ScriptKind>
    ensures { result ≡ tuple_of (words_of words.now) }
{
    let filter = read_options(true, words)?;
    flow_of(filter)
}
