//! How the packets of a run leave, where that is asked for.

ghost use Rattle.std.specs.Option.{ForSome};
ghost use Rattle.std.specs.Prelude.{◌≡◌, ◌≤◌, All, IfOk, length};
ghost use Rattle.ftp_rewrite.specs.Sent.{LiesInIts};
ghost use Rattle.replay_top.specs.Internal.Replaying.{kept_if, kept_lines, rewritten_text};
ghost use Rattle.report_text.specs.Wrote.{Wrote};

use ct_io::Sink;
use ftp_rewrite::{Rewrites, rewrites, write_rewrites};
use history_book::report::Report;
use packet_headers::frame::Captures;
use report_text::page::LONGEST_LINE;
use report_text::write::WriteFault;
use std::alloc::Global;
use tuple_core::NoMemory;

/// The captures, if they are needed once the run has ended.
pub(crate) fn kept_if(rewrite: bool, captures: Captures) -> Option<Captures>
    ensures { result ≡ kept_if rewrite captures }
{
    if rewrite { Some(captures) } else { None }
}

/// How the packets of a report on the captures that were kept leave.
pub(crate) fn rewrites_of(
    alloc: Global,
    report: &Report,
    kept: &Option<Captures>,
) -> Result<Option<Rewrites>, NoMemory>
    requires { ForSome kept.now (λ captures. All LiesInIts captures.items) }
    ensures { IfOk result (λ lines. rewritten_text lines ≡ kept_lines kept.now report.now) }
{
    let Some(captures) = kept else {
        return Ok(None);
    };
    let lines = rewrites(alloc, report, captures)?;
    Ok(Some(lines))
}

/// Writes how packets leave, if that was asked for.
#[tactic(auto, using(crate::proofs::Printing::wrote_nothing, crate::proofs::Printing::wrote_rewrites, crate::proofs::Printing::wrote_some_rewrites))]
pub(crate) fn print_rewrites<K: Sink>(
    lines: &Option<Rewrites>,
    buffer: &mut [u8],
    out: &mut K,
) -> Result<(), WriteFault>
    requires { LONGEST_LINE ≤ length buffer.old }
    ensures wrote { Wrote (rewritten_text lines.now) (K.tape out.old) (K.tape out.new) result }
    ensures faults_stay { (K.tape out.old).faults ≤ (K.tape out.new).faults }
{
    let Some(lines) = lines else {
        return Ok(());
    };
    match write_rewrites(lines, buffer, out) {
        Ok(()) => Ok(()),
        Err(_) => Err(WriteFault),
    }
}
