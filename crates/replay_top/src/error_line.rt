//! The one line on the error output.

ghost use Rattle.std.specs.Prelude.{◌≡◌, ◌≤◌, ◌++◌, codes, decimal, length};
ghost use Rattle.command_words.specs.Asked.{asked_as, names_as, texts};
ghost use Rattle.report_text.specs.Page.{Adds, HasRoom};
ghost use Rattle.report_text.specs.Wrote.{Wrote};
ghost use Rattle.replay_top.specs.ErrorLine.{error_line, fault_text, flaw_line, limit_text, line_fault_text, rule_kind_text, script_kind_text, Tells, words_limit_text, write_failed};
ghost use Rattle.replay_top.specs.Internal.Ending.{line_about, name_among};
ghost use Rattle.run_inputs.specs.Files.{file_at, files_of, files_of_kind, files_of_names};

use command_words::{Asked, Named, Origin, WordsLimit};
use conntrack_cmd::read::ScriptKind;
use ct_io::Sink;
use nat_setup::read::RuleKind;
use packet_headers::capture::CaptureFault;
use report_text::page::{LONGEST_LINE, Page};
use report_text::write::{WriteFault, write_each};
use run_inputs::{FileKind, Flaw, Refusal};

/// Writes the line about this subject, which may be empty, with this problem.
fn write_line<K: Sink>(about: &str, problem: &[u8], err: &mut K) -> Result<(), WriteFault>
    ensures { Wrote (error_line about.now problem.now) (K.tape err.old) (K.tape err.new) result }
{
    write_each(&[b"ctreplay: ".as_slice(), about.as_bytes(), problem], err)
}

/// Writes the number of a faulty record.
fn put_record_number(page: &mut Page, index: u64)
    requires { HasRoom 29 page.old }
    ensures { Adds 29 (codes ": record " ++ decimal index) page.old page.new }
{
    page.text(b": record ");
    page.number(index);
}

/// Writes a fault of a capture, in words.
fn put_fault(page: &mut Page, fault: CaptureFault)
    requires { HasRoom 66 page.old }
    ensures { Adds 66 (fault_text fault) page.old page.new }
{
    match fault {
        CaptureFault::ShortHeader => page.text(b": short header\n"),
        CaptureFault::BadMagic => page.text(b": bad magic\n"),
        CaptureFault::BadVersion => page.text(b": bad version\n"),
        CaptureFault::LinkType(number) => {
            page.text(b": link type ");
            page.number(number);
            page.text(b"\n");
        }
        CaptureFault::CutRecord { index, offset } => {
            put_record_number(page, index);
            page.text(b" cut at offset ");
            page.number(offset);
            page.text(b"\n");
        }
        CaptureFault::TooLong { index } => {
            put_record_number(page, index);
            page.text(b" too long\n");
        }
        CaptureFault::Fraction { index } => {
            put_record_number(page, index);
            page.text(b" fraction\n");
        }
    }
}

/// Writes the line of a fault of the capture of this name.
fn write_fault<K: Sink>(name: &str, fault: CaptureFault, err: &mut K) -> Result<(), WriteFault>
    ensures { Wrote (error_line name.now (fault_text fault)) (K.tape err.old) (K.tape err.new) result }
{
    let mut buffer = [0; LONGEST_LINE];
    let mut page = Page::new(&mut buffer);
    put_fault(&mut page, fault);
    write_line(name, page.held(), err)
}

/// What is wrong with a line of a file of rules, in words.
fn rule_kind_text(kind: RuleKind) -> &'static [u8]
    ensures { result.now ≡ rule_kind_text kind }
{
    match kind {
        RuleKind::Word => b": word\n",
        RuleKind::Address => b": address\n",
        RuleKind::Prefix => b": prefix\n",
        RuleKind::Range => b": range\n",
        RuleKind::TooMany => b": too many\n",
    }
}

/// What is wrong with a line of a script, in words.
fn script_kind_text(kind: ScriptKind) -> &'static [u8]
    ensures { result.now ≡ script_kind_text kind }
{
    match kind {
        ScriptKind::Command => b": command\n",
        ScriptKind::Option => b": option\n",
        ScriptKind::Value => b": value\n",
        ScriptKind::Repeat => b": repeat\n",
        ScriptKind::TooMany => b": too many\n",
    }
}

/// The most bytes of what is wrong with a line, in words.
const LONGEST_PROBLEM: usize = 64;

/// Writes the line of a fault of the file of this name, in its line of this number.
fn write_line_fault<K: Sink>(
    name: &str,
    line: u32,
    problem: &[u8],
    err: &mut K,
) -> Result<(), WriteFault>
    requires { length problem.now ≤ LONGEST_PROBLEM }
    ensures { Wrote (error_line name.now (line_fault_text line problem.now))
        (K.tape err.old) (K.tape err.new) result }
{
    let mut buffer = [0; LONGEST_LINE];
    let mut page = Page::new(&mut buffer);
    page.text(b": line ");
    page.number(line);
    page.text(problem);
    write_line(name, page.held(), err)
}

/// A limit of the words, in words.
fn words_limit_text(limit: WordsLimit) -> &'static [u8]
    ensures { result.now ≡ words_limit_text limit }
{
    match limit {
        WordsLimit::Entries => b"limit: entries\n",
        WordsLimit::Buckets => b"limit: buckets\n",
        WordsLimit::Seed => b"limit: seed\n",
        WordsLimit::Packets => b"limit: packets\n",
        WordsLimit::Threads => b"limit: threads\n",
        WordsLimit::Flows => b"limit: flows\n",
        WordsLimit::Captures => b"limit: captures\n",
    }
}

/// A limit of a kind of file, in words.
fn limit_text(kind: FileKind) -> &'static [u8]
    ensures { result.now ≡ limit_text kind }
{
    match kind {
        FileKind::Rules => b"limit: rules bytes\n",
        FileKind::Script => b"limit: script bytes\n",
        FileKind::Capture => b"limit: capture bytes\n",
    }
}

/// Writes the line of a flaw of the file of this name.
fn write_flaw<K: Sink>(name: &str, flaw: Flaw, err: &mut K) -> Result<(), WriteFault>
    ensures { Wrote (flaw_line name.now flaw) (K.tape err.old) (K.tape err.new) result }
{
    match flaw {
        Flaw::TooLong(kind) => write_line("", limit_text(kind), err),
        Flaw::AllTooLong => write_line("", b"limit: all capture bytes\n", err),
        Flaw::Rules(fault) => write_line_fault(name, fault.line, rule_kind_text(fault.kind), err),
        Flaw::Script(fault) => {
            write_line_fault(name, fault.line, script_kind_text(fault.kind), err)
        }
        Flaw::Capture(fault) => write_fault(name, fault, err),
        Flaw::TooManyPackets => write_line("", b"limit: all packets\n", err),
    }
}

/// Writes the line of a refusal that is about the file of this name.
fn write_refusal<K: Sink>(why: Refusal, name: &str, err: &mut K) -> Result<(), WriteFault>
    ensures { Wrote (line_about name.now why) (K.tape err.old) (K.tape err.new) result }
{
    match why {
        Refusal::Misused => write_line("", b"the words are not of the stated form\n", err),
        Refusal::PastLimit(limit) => write_line("", words_limit_text(limit), err),
        Refusal::Flawed { flaw, .. } => write_flaw(name, flaw, err),
        Refusal::NotOpened { .. } => write_line(name, b": open failed\n", err),
        Refusal::NotRead { .. } => write_line(name, b": read failed\n", err),
        Refusal::NoMemory => write_line("", b"out of memory\n", err),
    }
}

/// Tells of a refusal that is about the file of this name, if it is about one.
pub fn tell_refusal<K: Sink>(why: Refusal, name: &str, err: &mut K)
    ensures { Tells (line_about name.now why) (K.tape err.old) (K.tape err.new) }
{
    let _ = write_refusal(why, name, err);
}

/// Tells that the report could not be written.
pub fn tell_not_written<K: Sink>(err: &mut K)
    ensures { Tells write_failed (K.tape err.old) (K.tape err.new) }
{
    let _ = write_line("", b"write failed\n", err);
}

/// The name of this index, or no text behind the last.
fn name_at<'w>(names: &[&'w str], index: usize) -> &'w str
    ensures { result.now ≡ (file_at (files_of_kind FileKind.Capture (texts names.now)) index).name }
{
    match names.get(index) {
        Some(name) => *name,
        None => "",
    }
}

/// The name of the file of this number among these; no text where there is none.
fn name_of<'w>(names: &Named<'w>, file: usize) -> &'w str
    ensures { result.now ≡ (file_at (files_of_names (names_as names.now)) file).name }
{
    let captures = names.captures.as_slice();
    match (names.rules, names.script, file) {
        (Some(rules), _, 0) => rules,
        (Some(_), Some(script), 1) | (None, Some(script), 0) => script,
        (Some(_), Some(_), _) => name_at(captures, file - 2),
        (Some(_), None, _) | (None, Some(_), _) => name_at(captures, file - 1),
        (None, None, _) => name_at(captures, file),
    }
}

/// The name of the file of this number among those that are asked for; no text where there is none.
fn file_name<'w>(asked: &Asked<'w>, file: usize) -> &'w str
    ensures { result.now ≡ (file_at (files_of (asked_as asked.now)) file).name }
{
    match &asked.origin {
        Origin::Named(names) => name_of(names, file),
        Origin::Made(_) => "",
    }
}

/// The name of the file that a refusal of what is asked is about; no text where it is about none.
pub fn name_among<'w>(asked: &Asked<'w>, why: Refusal) -> &'w str
    ensures { result.now ≡ name_among (files_of (asked_as asked.now)) why }
{
    match why {
        Refusal::Flawed { file, .. } | Refusal::NotOpened { file } | Refusal::NotRead { file } => {
            file_name(asked, file)
        }
        Refusal::Misused | Refusal::PastLimit(_) | Refusal::NoMemory => "",
    }
}
