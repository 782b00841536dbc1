//! How a run ends.

ghost use Rattle.std.specs.Prelude.{◌≡◌, None, Some};
ghost use Rattle.replay_top.specs.Internal.Ending.{ended, heard_of, refusal_for};

use command_words::WordsError;
use event_listen::heard::Heard;
use ftp_rewrite::Rewrites;
use history_book::report::Report;
use replay_runs::listened::Listened;
use report_text::write::WriteFault;
use run_inputs::Refusal;

/// What a replay gives: its report, what a listener heard where one was asked for, and how packets leave where that was.
#[derive(Drop)]
pub struct Replayed {
    pub report: Report,
    pub listened: Option<Listened>,
    pub rewrites: Option<Rewrites>,
}

/// How a run ends.
#[derive(Drop)]
pub enum Ending {
    /// All was written.
    Done(Replayed),
    /// Only some first bytes of what was to be written were.
    NotWritten(Replayed),
    /// There is no report, and nothing was written.
    Refused(Refusal),
}

/// How a run ends whose text was written so.
pub fn ended(written: Result<(), WriteFault>, made: Replayed) -> Ending
    ensures { result ≡ ended written made }
{
    match written {
        Ok(()) => Ending::Done(made),
        Err(_) => Ending::NotWritten(made),
    }
}

/// What a run gives to its caller: the status of the program, the report where there is one, and beside that what a
/// listener heard of each thread where one was asked for: the captures' in order, and then the script's.
#[derive(Drop)]
pub struct Run {
    pub status: u8,
    pub report: Option<Report>,
    pub heard: Option<Heard>,
}

/// A run that gives its report with this status.
pub fn run_with(status: u8, made: Replayed) -> Run
    ensures status { result.status ≡ status }
    ensures report { result.report ≡ Some made.report }
    ensures heard { result.heard ≡ heard_of made.listened }
{
    let Replayed {
        report,
        listened,
        ..
    } = made;
    let heard = match listened {
        Some(listened) => Some(listened.heard),
        None => None,
    };
    Run {
        status,
        report: Some(report),
        heard,
    }
}

/// A run that gives no report.
pub fn run_without(status: u8) -> Run
    ensures status { result.status ≡ status }
    ensures report { result.report ≡ None }
    ensures heard { result.heard ≡ None }
{
    Run {
        status,
        report: None,
        heard: None,
    }
}

/// The refusal of words that ask for nothing.
pub fn refusal_for(error: WordsError) -> Refusal
    ensures { result ≡ refusal_for error }
{
    match error {
        WordsError::Usage => Refusal::Misused,
        WordsError::Limit(limit) => Refusal::PastLimit(limit),
        WordsError::NoMemory => Refusal::NoMemory,
    }
}
