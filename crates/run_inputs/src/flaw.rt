//! What is wrong with the inputs of a run, and why one is refused.

ghost use Rattle.std.specs.Prelude.{◌≡◌};
ghost use Rattle.run_inputs.specs.Causes;
ghost use Rattle.run_inputs.specs.Flaw.{flaw_status};

use command_words::WordsLimit;
use conntrack_cmd::read::ScriptFault;
use nat_setup::read::RuleFault;
use packet_headers::capture::CaptureFault;
use tuple_core::NoMemory;

/// A kind of file that the words name.
#[derive(Clone, Copy)]
pub enum FileKind {
    Rules,
    Script,
    Capture,
}

/// What is wrong with a file.
#[derive(Clone, Copy)]
pub enum Flaw {
    /// It has more bytes than are read of a file of this kind.
    TooLong(FileKind),
    /// With this capture all captures have more bytes than are read of them together.
    AllTooLong,
    /// It is no file of rules: its first fault.
    Rules(RuleFault),
    /// It is no script: its first fault.
    Script(ScriptFault),
    /// It is no capture: its first fault.
    Capture(CaptureFault),
    /// With this capture all captures have more packets than are replayed.
    TooManyPackets,
}

/// Why a run is refused. Files are counted from 0, in the order in which they are read.
#[derive(Clone, Copy)]
pub enum Refusal {
    /// The words are not of the form.
    Misused,
    /// The words are of the form, and pass this limit first.
    PastLimit(WordsLimit),
    /// This file is the first with a flaw.
    Flawed { file: usize, flaw: Flaw },
    /// This file could not be opened.
    NotOpened { file: usize },
    /// A read of this file failed.
    NotRead { file: usize },
    NoMemory,
}

impl From<NoMemory> for Refusal {
    ghost use Rattle.run_inputs.specs.declared.flaw.Refusal.{Refusal};

    ghost from_gives = { λ _ why. why ≡ Refusal.NoMemory };

    fn from(_error: NoMemory) -> Refusal {
        Refusal::NoMemory
    }
}

/// The status of a run that ends with the flaw.
fn status_of(flaw: Flaw) -> u8
    ensures { result ≡ flaw_status flaw }
{
    match flaw {
        Flaw::TooLong(_) | Flaw::AllTooLong | Flaw::TooManyPackets => 5,
        Flaw::Rules(_) | Flaw::Script(_) | Flaw::Capture(_) => 2,
    }
}

/// The status of a refused run.
pub fn refusal_status(why: Refusal) -> u8
    ensures { result ≡ Causes.refusal_status why }
{
    match why {
        Refusal::Misused => 1,
        Refusal::PastLimit(_) => 5,
        Refusal::Flawed { flaw, .. } => status_of(flaw),
        Refusal::NotOpened { .. } | Refusal::NotRead { .. } => 3,
        Refusal::NoMemory => 6,
    }
}
