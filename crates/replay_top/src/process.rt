//! The steps between a process and the program: its words, and its exit code.

ghost use Rattle.std.specs.Prelude.{◌≡◌, ◌≢◌, [], None, IfOk, IsErr, MatchResult};
ghost use Rattle.std.specs.IoError.{error_kind};
ghost use Rattle.std.specs.Process.{exit_status};
ghost use Rattle.replay_top.specs.ErrorLine.{line_of, Tells};
ghost use Rattle.replay_top.specs.Process.{AreAllOf};

use crate::ending::{Run, run_without};
use crate::error_line::tell_refusal;
use ct_io::Sink;
use run_inputs::Refusal;
use std::alloc::{AllocError, Global};
use std::env::Args;
use std::io;
use std::io::ErrorKind;
use std::process::ExitCode;

/// All words of a process, in their order. Where one of them is no text there are none, which is of no
/// form; an `Err` is want of memory, here or where the words were read.
pub fn collect_words(alloc: Global, given: io::Result<Args>) -> Result<Vec<String>, AllocError>
    ensures words { MatchResult given
        (λ args. IfOk result (λ words. AreAllOf args words.items))
        (λ error. IfOk result (λ words. words.items ≡ [])) }
    ensures memory { MatchResult given (λ args. Unit {0})
        (λ error. error_kind error ≡ ErrorKind.OutOfMemory → IsErr result) }
{
    match given {
        Ok(args) => args.collect(alloc),
        Err(error) if matches!(error.kind(), ErrorKind::OutOfMemory) => Err(AllocError),
        Err(_) => Ok(Vec::new(alloc)),
    }
}

/// A run for whose words memory was wanting.
pub fn run_without_words<K: Sink>(err: &mut K) -> Run
    ensures status { result.status ≡ 6 }
    ensures no_report { result.report ≡ None }
    ensures not_heard { result.heard ≡ None }
    ensures line { Tells (line_of [] Refusal.NoMemory) (K.tape err.old) (K.tape err.new) }
{
    tell_refusal(Refusal::NoMemory, "", err);
    run_without(6)
}

/// The exit code of a run: its status.
pub fn exit_code(run: &Run) -> ExitCode
    ensures { exit_status result ≡ run.now.status }
{
    ExitCode::from(run.status)
}
