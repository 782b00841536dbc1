//! A line of a script.

ghost use Rattle.std.specs.Prelude.{◌≡◌};
ghost use Rattle.file_text.specs.Text.{words_of, words_of_line};
ghost use Rattle.conntrack_cmd.specs.Line.{alone, command_of, expire_of, is_expect, line_of, list_of, moment_in, wait_of};

use crate::command::{Command, LineMeaning};
use crate::options::{read_filter, read_tuple};
use crate::read::ScriptKind;
use file_text::lines::{first_word, next_word};
use file_text::numbers::number;

/// The latest moment.
const LATEST: u64 = 10_000_000_000_000_000;

/// The command, where no word stands behind it.
fn alone(command: Command, words: &[u8]) -> Result<Command, ScriptKind>
    ensures { result ≡ alone command (words_of words.now) }
{
    match next_word(words) {
        Some(_) => Err(ScriptKind::Option),
        None => Ok(command),
    }
}

/// Whether the words are `expect` by itself.
fn is_expect(words: &[u8]) -> bool
    ensures { result ≡ is_expect (words_of words.now) }
{
    match next_word(words) {
        Some((word, behind)) => word == b"expect".as_slice() && next_word(behind).is_none(),
        None => false,
    }
}

/// The command of the words behind `-L`.
#[tactic(auto, unfolding(crate::specs::Line::list_of))]
fn read_list(words: &[u8]) -> Result<Command, ScriptKind>
    ensures { result ≡ list_of (words_of words.now) }
{
    if is_expect(words) {
        return Ok(Command::ListExpect);
    }
    let filter = read_filter(words)?;
    Ok(Command::List(filter))
}

/// A moment: a number from 0 to 10^16.
#[tactic(auto, unfolding(crate::specs::Line::moment_in))]
fn read_moment(text: &[u8]) -> Option<u64>
    ensures { result ≡ moment_in text.now }
{
    number(text, 17, 0, LATEST)
}

/// The command of the words behind `expire`.
#[tactic(auto, unfolding(crate::specs::Line::expire_of))]
fn read_expire(words: &[u8]) -> Result<Command, ScriptKind>
    ensures { result ≡ expire_of (words_of words.now) }
{
    let Some((word, behind)) = next_word(words) else {
        return Err(ScriptKind::Value);
    };
    let moment = read_moment(word).ok_or(ScriptKind::Value)?;
    alone(Command::Expire(moment), behind)
}

/// The command of this first word and the words behind it.
#[tactic(auto, unfolding(crate::specs::Line::command_of))]
fn read_command(word: &[u8], words: &[u8]) -> Result<Command, ScriptKind>
    ensures { result ≡ command_of word.now (words_of words.now) }
{
    if word == b"-L".as_slice() {
        read_list(words)
    } else if word == b"-G".as_slice() {
        let tuple = read_tuple(words)?;
        Ok(Command::Get(tuple))
    } else if word == b"-D".as_slice() {
        let filter = read_filter(words)?;
        Ok(Command::Delete(filter))
    } else if word == b"-F".as_slice() {
        alone(Command::Flush, words)
    } else if word == b"-C".as_slice() {
        alone(Command::Count, words)
    } else if word == b"expire".as_slice() {
        read_expire(words)
    } else {
        Err(ScriptKind::Command)
    }
}

/// `wait`, which stands alone and once in a script.
fn read_wait(waited: bool, words: &[u8]) -> Result<LineMeaning, ScriptKind>
    ensures { result ≡ wait_of waited (words_of words.now) }
{
    if next_word(words).is_some() {
        return Err(ScriptKind::Option);
    }
    if waited {
        Err(ScriptKind::Repeat)
    } else {
        Ok(LineMeaning::Wait)
    }
}

/// What a line says. Where the script is full, it may not be a command, and where it waited, not `wait`.
#[tactic(auto, unfolding(crate::specs::Line::line_of))]
pub(crate) fn read_line(line: &[u8], full: bool, waited: bool) -> Result<LineMeaning, ScriptKind>
    ensures { result ≡ line_of full waited (words_of_line line.now) }
{
    let Some((word, words)) = first_word(line) else {
        return Ok(LineMeaning::Nothing);
    };
    if word == b"wait".as_slice() {
        return read_wait(waited, words);
    }
    if full {
        return Err(ScriptKind::TooMany);
    }
    let command = read_command(word, words)?;
    Ok(LineMeaning::Command(command))
}
