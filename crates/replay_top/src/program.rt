//! The whole program as one call.

ghost use Rattle.std.specs.Prelude.{◌≡◌, ◌≢◌, ◌≤◌, ◌++◌, [], length, None, IfOk, IsSomeAnd, map};
ghost use Rattle.std.specs.String.{string_bytes};
ghost use Rattle.command_words.specs.Asked.{asked_as};
ghost use Rattle.command_words.specs.Words.{IsWithin};
ghost use Rattle.ct_io.specs.Source.{SameFaults, Stays};
ghost use Rattle.run_inputs.specs.Causes;
ghost use Rattle.replay_top.specs.Causes.{StatusFits, FilesFailed, IsRefused, OthersStand};
ghost use Rattle.replay_top.specs.ErrorLine.{Tells, write_failed};
ghost use Rattle.run_inputs.specs.Inputs.{Finding, Finds};
ghost use Rattle.replay_top.specs.Internal.Ending.{counts_of, Ends, line_about, Replays};
ghost use Rattle.run_inputs.specs.Ready.{IsReady};
ghost use Rattle.replay_top.specs.Internal.Replaying.{ReplaysInputs, rewritten_text};
ghost use Rattle.replay_top.specs.Replay.{IsCutShort, IsPrinted, text_of, threads_of};
ghost use Rattle.report_text.specs.Heard.{heard_text};
ghost use Rattle.report_text.specs.Wrote.{Wrote};
ghost use Rattle.run_inputs.specs.Files.{files_named, files_of};

use crate::ending::{Ending, Replayed, Run, ended, refusal_for, run_with, run_without};
use crate::error_line::{name_among, tell_not_written, tell_refusal};
use crate::reassembly::as_replayed;
use crate::replay::replay;
use crate::rewriting::print_rewrites;
use crate::sizes::sizes_of;
use command_words::{Asked, read_words};
use ct_io::{Files, Gate, Sink};
use history_book::report::Report;
use packet_path::setup::{Ports, Setup};
use replay_runs::listened::Listened;
use report_text::heard::{HeardCount, write_heard};
use report_text::page::LONGEST_LINE;
use report_text::summary::write_summary;
use report_text::write::{WriteFault, write_report};
use room_list::RoomList;
use run_inputs::laws::{given_is_told, words_say_one};
use run_inputs::{Inputs, Refusal, read_all, refusal_status};
use std::alloc::Global;
use std::sync::Wait;
use std::thread::Threads;
use tuple_core::NoMemory;

/// Bytes of the buffer in which the report's text is gathered.
const BUFFER: usize = 65_536;

/// The same ports.
fn copied(alloc: Global, ports: &Ports) -> Result<Ports, NoMemory>
    ensures { IfOk result (λ copy. copy.items ≡ ports.now.items) }
{
    let mut copy = Ports::new(alloc, 0)?;
    copy.append(ports.as_slice())?;
    Ok(copy)
}

/// How many events each thread made, and how many of them were heard; nothing without a listener.
fn counts_of(alloc: Global, listened: &Option<Listened>) -> Result<RoomList<HeardCount>, NoMemory>
    ensures { IfOk result (λ counts. counts.items ≡ counts_of listened.now) }
{
    let Some(told) = listened else {
        return Ok(RoomList::empty(alloc));
    };
    let made = told.made.as_slice();
    let threads = made.len().min(told.heard.len());
    let mut counts = RoomList::new(alloc, threads)?;
    'threads: for thread in 0..threads {
        counts.push(HeardCount {
            heard: told.heard.at(thread).len() as u64,
            made: made[thread],
        });
    }
    Ok(counts)
}

/// Replays what was read, as it is asked for.
fn replay_inputs<R: Threads + Wait + Sync, G: Gate + Sync>(
    rt: &R,
    alloc: Global,
    asked: &Asked<'_>,
    inputs: Inputs,
    gate: &G,
) -> Result<Replayed, NoMemory>
    requires within { IsWithin (asked_as asked.now) }
    requires counted { length inputs.captures.items ≡ threads_of (asked_as asked.now).origin }
    requires ready { IsReady inputs }
    ensures { IfOk result (ReplaysInputs (asked_as asked.now) inputs) }
{
    let Inputs {
        rules,
        script,
        captures,
    } = inputs;
    let captures = as_replayed(alloc, asked.defrag, captures)?;
    let ftp = copied(alloc, &asked.ftp)?;
    let setup = Setup { rules, ftp };
    replay(
        rt,
        alloc,
        &sizes_of(asked),
        captures,
        &script,
        &setup,
        gate,
        asked.listen,
        asked.rewrite,
    )
}

/// Reads the files that are asked for, and replays them.
#[tactic(auto, using(crate::proofs::Made::replay_made))]
fn replay_asked<R: Threads + Wait + Sync, F: Files, G: Gate + Sync>(
    rt: &R,
    alloc: Global,
    files: &mut F,
    asked: &Asked<'_>,
    gate: &G,
) -> Result<Replayed, Refusal>
    requires { IsWithin (asked_as asked.now) }
    ensures replays { Replays (asked_as asked.now) (F.source files.old) (F.source files.new) result }
    ensures no_file { files_of (asked_as asked.now) ≡ [] → F.source files.new ≡ F.source files.old }
    ensures stays { Stays (F.source files.old) (F.source files.new) }
{
    let inputs = read_all(alloc, files, asked)?;
    let made = replay_inputs(rt, alloc, asked, inputs, gate)?;
    Ok(made)
}

/// Writes a report's text, or its summary.
fn print_report<K: Sink>(
    summary: bool,
    report: &Report,
    buffer: &mut [u8],
    out: &mut K,
) -> Result<(), WriteFault>
    requires { LONGEST_LINE ≤ length buffer.old }
    ensures wrote { Wrote (text_of summary report.now) (K.tape out.old) (K.tape out.new) result }
    ensures faults_stay { (K.tape out.old).faults ≤ (K.tape out.new).faults }
{
    if summary {
        write_summary(report, buffer, out)
    } else {
        write_report(report, buffer, out)
    }
}

/// Writes a report's text, or its summary, and then how much was heard of each of these threads.
#[tactic(auto, using(crate::proofs::Printing::wrote_both, crate::proofs::Printing::wrote_less))]
fn print_heard<K: Sink>(
    summary: bool,
    report: &Report,
    counts: &[HeardCount],
    buffer: &mut [u8],
    out: &mut K,
) -> Result<(), WriteFault>
    requires { LONGEST_LINE ≤ length buffer.old }
    ensures wrote { Wrote (text_of summary report.now ++ heard_text counts.now) (K.tape out.old) (K.tape out.new) result }
    ensures faults_stay { (K.tape out.old).faults ≤ (K.tape out.new).faults }
{
    print_report(summary, report, buffer, out)?;
    write_heard(counts, buffer, out)
}

/// The same of a replay, and then how packets leave.
#[tactic(auto, using(crate::proofs::Printing::wrote_both, crate::proofs::Printing::wrote_less))]
fn print<K: Sink>(
    summary: bool,
    made: &Replayed,
    counts: &[HeardCount],
    buffer: &mut [u8],
    out: &mut K,
) -> Result<(), WriteFault>
    requires { LONGEST_LINE ≤ length buffer.old }
    ensures wrote { Wrote (text_of summary made.now.report ++ heard_text counts.now ++ rewritten_text made.now.rewrites)
        (K.tape out.old) (K.tape out.new) result }
    ensures faults_stay { (K.tape out.old).faults ≤ (K.tape out.new).faults }
{
    print_heard(summary, &made.report, counts, buffer, out)?;
    print_rewrites(&made.rewrites, buffer, out)
}

/// Replays what is asked for, and writes the report's text to `out`, or its summary, and the lines behind it.
fn run<R: Threads + Wait + Sync, F: Files, K: Sink, G: Gate + Sync>(
    rt: &R,
    alloc: Global,
    asked: &Asked<'_>,
    files: &mut F,
    out: &mut K,
    gate: &G,
) -> Ending
    requires { IsWithin (asked_as asked.now) }
    ensures ends { Ends (asked_as asked.now) (F.source files.old) (F.source files.new)
        (K.tape out.old) (K.tape out.new) result }
    ensures no_file { files_of (asked_as asked.now) ≡ [] → F.source files.new ≡ F.source files.old }
    ensures stays { Stays (F.source files.old) (F.source files.new) }
{
    let made = match replay_asked(rt, alloc, files, asked, gate) {
        Ok(made) => made,
        Err(why) => return Ending::Refused(why),
    };
    let counts = match counts_of(alloc, &made.listened) {
        Ok(counts) => counts,
        Err(_) => return Ending::Refused(Refusal::NoMemory),
    };
    let mut buffer = match vec![in alloc; 0; BUFFER] {
        Ok(buffer) => buffer,
        Err(_) => return Ending::Refused(Refusal::NoMemory),
    };
    let written = print(
        asked.summary,
        &made,
        counts.as_slice(),
        buffer.as_mut_slice(),
        out,
    );
    ended(written, made)
}

/// A run that is refused, which tells so in its line.
fn refused<K: Sink>(why: Refusal, name: &str, err: &mut K) -> Run
    ensures status { result.status ≡ Causes.refusal_status why }
    ensures no_report { result.report ≡ None }
    ensures not_heard { result.heard ≡ None }
    ensures line { Tells (line_about name.now why) (K.tape err.old) (K.tape err.new) }
{
    tell_refusal(why, name, err);
    run_without(refusal_status(why))
}

/// The whole program: reads the words, then the rules, the script and the captures that they name, or makes the captures
/// of a workload, replays the captures and performs the script's commands, and writes the report's text to `out`, or its
/// summary, or one line to `err`.
///
/// `words` are `ctreplay [--rules F] [--script F] [--zones LIST] [--defrag] [--entries N] [--buckets N] [--ftp LIST]
/// [--summary] [--listen] [--rewrite] CAPTURE..`, or `ctreplay --make SEED --packets N --threads T [--defrag] [--entries N]
/// [--buckets N] [--ftp LIST] [--summary] [--listen] [--rewrite]`, with which no file is read. Each capture is in the zone
/// that the list gives it, or in zone 0 without one; flows of different zones never meet. With `--defrag` the fragments of
/// each capture are put together first. The captures are replayed beside each other, each in a thread of its own, and
/// beside them the commands of the script that stand before `wait` are performed in its thread; those behind it follow
/// when all captures were replayed. New flows are translated by the rules, and connections to the ports of the
/// list, or else to 21, have the helper of FTP. The tracker has room for so many entries, or else 65,536, and so many
/// buckets, or else 16,384. With `--listen` a listener hears of each thread's events beside them, until all have ended,
/// and behind the report or summary there is a line for each thread that says of how many of its events it was told. With
/// `--rewrite` the last lines say how the packets of translated FTP sessions leave, from each session's first new text on:
/// their sequence and acknowledgment numbers, and the payloads that name another end.
///
/// The statuses are 0 (all was written), 1 (the words are not of that form), 2 (a file is no file of rules, no script, or
/// no capture), 3 (one could not be opened or read), 4 (the output could not be written), 5 (a number or a size is past
/// its limit: 1 to 65,536 entries, 65,536 buckets, 63 captures, 1,048,576 bytes of rules and of the script, 268,435,456
/// of a capture and 1,073,741,824 of all captures, and 4,194,304 packets; of a workload a seed up to 4,294,967,295, 1 to
/// 262,144 packets of each thread, 1 to 63 threads, and as many flows as entries) and 6 (memory was wanted). The first
/// of these decides, in the order of words, rules, script and captures. The report is there with 0 and 4. Each thread
/// passes the gate before each packet or command, under its number: the captures' are those of their places, from 0 on,
/// and the script's is the next; the listener passes it after each event that it hears, under the number behind that.
#[tactic(auto, using(crate::proofs::Findings::has_cause, crate::proofs::Findings::others_same, crate::proofs::Findings::failed_files))]
pub fn top<R: Threads + Wait + Sync, F: Files, K: Sink, G: Gate + Sync>(
    rt: &R,
    alloc: Global,
    words: &[String],
    files: &mut F,
    out: &mut K,
    err: &mut K,
    gate: &G,
) -> Run
    // What is printed is the text of one legal history with its verdicts and answers, or its summary, and then how much a
    // listener heard of each thread, and how packets leave, where that is asked for.
    ensures headline { result.status ≡ 0 → IsSomeAnd result.report
        (IsPrinted (map string_bytes words.now) (F.source files.old)
        (K.tape out.old) (K.tape out.new) result.heard) }
    ensures cut_short { result.status ≡ 4 → IsSomeAnd result.report
        (IsCutShort (map string_bytes words.now) (F.source files.old)
        (K.tape out.old) (K.tape out.new) result.heard) }

    // Every other status has its cause, the first in the order of the words and the files.
    ensures refused { result.status ≢ 0 → result.status ≢ 4 →
        IsRefused (map string_bytes words.now) (F.source files.old) (F.source files.new)
        (K.tape err.old) (K.tape err.new) result.status }
    ensures files_failed { result.status ≡ 3 →
        FilesFailed (map string_bytes words.now) (F.source files.old) (F.source files.new) }

    // What the inputs are decides the status, unless a call to the outside fails or memory is wanting.
    ensures exact { (found : Finding) →
        Finds (map string_bytes words.now) (F.source files.old) found →
        StatusFits (map string_bytes words.now) (F.source files.old) (F.source files.new)
        (K.tape out.old) (K.tape out.new) result.status found }
    ensures statuses { result.status ≤ 6 }

    // What a run leaves. A failure is never hidden.
    ensures nothing_written { result.status ≢ 0 → result.status ≢ 4 →
        K.tape out.new ≡ K.tape out.old }
    ensures no_report { result.status ≢ 0 → result.status ≢ 4 → result.report ≡ None }
    ensures not_heard { result.status ≢ 0 → result.status ≢ 4 → result.heard ≡ None }
    ensures silent { result.status ≡ 0 → K.tape err.new ≡ K.tape err.old }
    ensures not_written_line { result.status ≡ 4 →
        Tells write_failed (K.tape err.old) (K.tape err.new) }
    ensures same_faults { result.status ≢ 3 →
        SameFaults (F.source files.old) (F.source files.new) }
    ensures no_file { files_named (map string_bytes words.now) ≡ [] →
        F.source files.new ≡ F.source files.old }
    ensures others { OthersStand (map string_bytes words.now)
        (F.source files.old) (F.source files.new) }
    ensures same_output_faults { result.status ≢ 4 →
        (K.tape out.new).faults ≡ (K.tape out.old).faults }
    ensures stays { Stays (F.source files.old) (F.source files.new) }
{
    given_is_told();
    words_say_one();
    let asked = match read_words(alloc, words) {
        Ok(asked) => asked,
        Err(error) => return refused(refusal_for(error), "", err),
    };
    match run(rt, alloc, &asked, files, out, gate) {
        Ending::Done(made) => run_with(0, made),
        Ending::NotWritten(made) => {
            tell_not_written(err);
            run_with(4, made)
        }
        Ending::Refused(why) => refused(why, name_among(&asked, why), err),
    }
}
