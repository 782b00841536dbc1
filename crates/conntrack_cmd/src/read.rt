//! Reads a script.

ghost use Rattle.std.specs.Prelude.{◌≡◌, ◌<◌, ◌≤◌, ◌^◌, ◌++◌, ◌∷◌, [], length, IfErr, IfOk, OnOk};
ghost use Rattle.conntrack_cmd.specs.Internal.{wait_after};
ghost use Rattle.conntrack_cmd.specs.Script.{commands_of, IsReason, IsScript};

use crate::command::{Commands, LineMeaning};
use crate::line::read_line;
use file_text::lines::next_line;
use std::alloc::Global;
use tuple_core::NoMemory;

/// The most commands of a script.
const MOST_COMMANDS: usize = 256;

/// The commands of a script.
#[derive(Drop)]
pub struct Script {
    pub commands: Commands,
    /// How many commands stand before the line `wait`; all where there is none.
    pub wait: u32,
}

/// What is wrong with a line.
#[derive(Clone, Copy, PartialEq, Eq)]
pub enum ScriptKind {
    /// The first word is no command.
    Command,
    /// A word is not one that the command takes, an option is missing, or ports stand without `-p tcp` or
    /// `-p udp`.
    Option,
    /// A value is missing or wrong.
    Value,
    /// An option is repeated, or `wait` is.
    Repeat,
    /// It is a further line behind 256 commands.
    TooMany,
}

/// The first fault of a script: on which line, from 1, and what it is.
#[derive(Clone, Copy)]
pub struct ScriptFault {
    pub line: u32,
    pub kind: ScriptKind,
}

/// Why a script was not read.
#[derive(Clone, Copy)]
pub enum ScriptError {
    Fault(ScriptFault),
    NoMemory,
}

impl From<NoMemory> for ScriptError {
    ghost use Rattle.conntrack_cmd.specs.declared.read.ScriptError.{ScriptError};

    ghost from_gives = { λ _ error. error ≡ ScriptError.NoMemory };

    fn from(_error: NoMemory) -> ScriptError {
        ScriptError::NoMemory
    }
}

/// Appends the command, if the line says one.
fn append(commands: &mut Commands, meaning: LineMeaning) -> Result<(), NoMemory>
    ensures { OnOk result (commands.new.items ≡ commands.old.items ++ commands_of (meaning ∷ [])) }
{
    if let LineMeaning::Command(command) = meaning {
        commands.reserve(1)?;
        commands.push(command);
    }
    Ok(())
}

/// How many commands stand before `wait`, if a line up to this one says it.
fn wait_after(wait: Option<u32>, meaning: LineMeaning, count: u32) -> Option<u32>
    ensures { result ≡ wait_after wait meaning count }
{
    match meaning {
        LineMeaning::Wait => Some(count),
        _ => wait,
    }
}

/// The commands of a script, in the order of its lines. Its bytes are not copied.
pub fn read_script(alloc: Global, bytes: &[u8]) -> Result<Script, ScriptError>
    requires { length bytes.now < 2 ^ 32 }
    ensures script { IfOk result (λ script. IsScript bytes.now script.commands.items script.wait) }
    ensures reason { IfErr result (IsReason bytes.now) }
    ensures few { IfOk result (λ script. length script.commands.items ≤ 256) }
    ensures wait { IfOk result (λ script. script.wait ≤ length script.commands.items) }
{
    let mut commands = Commands::new(alloc, 0)?;
    let mut wait = None;
    let mut number = 0u32;
    let mut rest = bytes;
    'lines: while !rest.is_empty() {
        number += 1;
        let (line, behind) = next_line(rest);
        let count = commands.len();
        let meaning = match read_line(line, count >= MOST_COMMANDS, wait.is_some()) {
            Ok(meaning) => meaning,
            Err(kind) => return Err(ScriptError::Fault(ScriptFault { line: number, kind })),
        };
        append(&mut commands, meaning)?;
        wait = wait_after(wait, meaning, count as u32);
        rest = behind;
    }
    let all = commands.len() as u32;
    Ok(Script {
        commands,
        wait: wait.unwrap_or(all),
    })
}
