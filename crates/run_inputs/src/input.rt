//! The inputs of a run: files that are read, one after another.

ghost use Rattle.std.specs.Prelude.{◌≡◌, ◌<◌, ◌≤◌, [], ◌∷◌, ◌^◌, length, slice_get, All, IfOk, Some, option_map, option_to_list};
ghost use Rattle.std.specs.List.{AllByRecursion};
ghost use Rattle.command_words.specs.Asked.{asked_as, names_as, texts};
ghost use Rattle.command_words.specs.Words.{AreNamesWithin, IsWithin};
ghost use Rattle.conntrack_cmd.specs.Moment.{moment_of};
ghost use Rattle.ct_io.specs.Source.{Stays};
ghost use Rattle.nat_setup.specs.Rule.{IsLawfulRule};
ghost use Rattle.run_inputs.specs.Content.{totals_with, IsShortEnough, frames, most_bytes, most_packets, no_totals};
ghost use Rattle.run_inputs.specs.Reading.{CaptureReadAs, GaveBytes, GaveCapture, GaveCaptures, GaveInputs, GaveNamed, GaveRules, GaveScript, HasRoomFor, most_read, part_of, ReadAs, too_long, totals_as, zones_in};
ghost use Rattle.run_inputs.specs.Files.{files_of, files_of_kind, files_of_names};

use crate::flaw::{FileKind, Flaw, Refusal};
use crate::made::make_inputs;
use crate::read::{ReadError, read_file};
use crate::totals::CaptureTotals;
use command_words::{Asked, Named, Origin};
use conntrack_cmd::command::Commands;
use conntrack_cmd::laws::commands_are_lawful;
use conntrack_cmd::read::{Script, ScriptError, read_script};
use ct_io::Files;
use nat_setup::read::{RuleError, read_rules};
use nat_setup::rule::Rules;
use packet_headers::capture::{CaptureError, read_capture};
use packet_headers::frame::{Capture, Captures};
use room_list::Bytes;
use std::alloc::Global;
use tuple_core::NoMemory;

/// The most bytes of all captures together.
const MOST_CAPTURE_BYTES: usize = 1_073_741_824;

/// The most packets of all captures together.
const MOST_PACKETS: usize = 4_194_304;

/// The most bytes of a file of this kind.
fn most_bytes(kind: FileKind) -> usize
    ensures { result ≡ most_bytes kind }
{
    match kind {
        FileKind::Rules | FileKind::Script => 1_048_576,
        FileKind::Capture => 268_435_456,
    }
}

/// How many bytes of a further file of this kind are read, behind captures of this total.
fn most_read(kind: FileKind, before: &CaptureTotals) -> usize
    ensures { result ≡ most_read kind (totals_as before.now) }
{
    match kind {
        FileKind::Rules | FileKind::Script => most_bytes(kind),
        FileKind::Capture => most_bytes(kind).min(MOST_CAPTURE_BYTES.saturating_sub(before.bytes)),
    }
}

/// The flaw of one with more bytes: of two limits, the one that an earlier byte passes.
fn too_long(kind: FileKind, before: &CaptureTotals) -> Flaw
    ensures { result ≡ too_long kind (totals_as before.now) }
{
    match kind {
        FileKind::Rules | FileKind::Script => Flaw::TooLong(kind),
        FileKind::Capture => {
            if most_bytes(kind) <= MOST_CAPTURE_BYTES.saturating_sub(before.bytes) {
                Flaw::TooLong(kind)
            } else {
                Flaw::AllTooLong
            }
        }
    }
}

/// Reads the bytes of the file of this kind and name, which has this number in the run and stands behind captures of this
/// total.
#[tactic(auto, using(crate::proofs::OneByOne::flaw_here, crate::proofs::OneByOne::not_opened_here, crate::proofs::OneByOne::not_read_here))]
fn read_input<F: Files>(
    alloc: Global,
    files: &mut F,
    kind: FileKind,
    name: &str,
    file: usize,
    before: &CaptureTotals,
) -> Result<Bytes, Refusal>
    ensures reads { ReadAs (part_of (totals_as before.now) file (record { kind = kind; name = name.now } ∷ []))
        (λ bytes. GaveBytes (F.source files.old) (totals_as before.now) (record { kind = kind; name = name.now }) bytes.items)
        (F.source files.old) (F.source files.new) result }
    ensures stays { Stays (F.source files.old) (F.source files.new) }
{
    match read_file(alloc, files, name, most_read(kind, before)) {
        Ok(bytes) => Ok(bytes),
        Err(ReadError::Open) => Err(Refusal::NotOpened { file }),
        Err(ReadError::Read) => Err(Refusal::NotRead { file }),
        Err(ReadError::TooLong) => Err(Refusal::Flawed {
            file,
            flaw: too_long(kind, before),
        }),
        Err(ReadError::NoMemory) => Err(Refusal::NoMemory),
    }
}

/// No captures.
const NONE_BEFORE: CaptureTotals = CaptureTotals {
    bytes: 0,
    packets: 0,
};

/// Reads the file of rules of this name, the first of the run. Without a name there are no rules.
fn read_rule_file<F: Files>(
    alloc: Global,
    files: &mut F,
    name: Option<&str>,
) -> Result<Rules, Refusal>
    ensures reads { ReadAs (part_of no_totals 0 (files_of_kind FileKind.Rules (option_to_list (option_map (λ n. n.now) name.entry))))
        (λ rules. GaveRules (F.source files.old) (option_map (λ n. n.now) name.entry) rules.items)
        (F.source files.old) (F.source files.new) result }
    ensures lawful { IfOk result (λ rules. AllByRecursion IsLawfulRule rules.items) }
    ensures stays { Stays (F.source files.old) (F.source files.new) }
{
    let Some(name) = name else {
        return Ok(Rules::new(alloc, 0)?);
    };
    let bytes = read_input(alloc, files, FileKind::Rules, name, 0, &NONE_BEFORE)?;
    match read_rules(alloc, bytes.as_slice()) {
        Ok(rules) => Ok(rules),
        Err(RuleError::Fault(fault)) => Err(Refusal::Flawed {
            file: 0,
            flaw: Flaw::Rules(fault),
        }),
        Err(RuleError::NoMemory) => Err(Refusal::NoMemory),
    }
}

/// A script without commands.
pub(crate) fn no_script(alloc: Global) -> Result<Script, NoMemory>
    ensures commands { IfOk result (λ script. script.commands.items ≡ []) }
    ensures wait { IfOk result (λ script. script.wait ≡ 0) }
{
    let commands = Commands::new(alloc, 0)?;
    Ok(Script { commands, wait: 0 })
}

/// Reads the script of this name, which has this number in the run. Without a name it has no commands.
fn read_script_file<F: Files>(
    alloc: Global,
    files: &mut F,
    name: Option<&str>,
    file: usize,
) -> Result<Script, Refusal>
    ensures reads { ReadAs (part_of no_totals file (files_of_kind FileKind.Script (option_to_list (option_map (λ n. n.now) name.entry))))
        (λ script. GaveScript (F.source files.old) (option_map (λ n. n.now) name.entry) script)
        (F.source files.old) (F.source files.new) result }
    ensures few { IfOk result (λ script. length script.commands.items ≤ 256) }
    ensures named { IfOk result (λ script. All (λ c. moment_of c ≤ 10 ^ 16) script.commands.items) }
    ensures stays { Stays (F.source files.old) (F.source files.new) }
{
    commands_are_lawful();
    let Some(name) = name else {
        return Ok(no_script(alloc)?);
    };
    let bytes = read_input(alloc, files, FileKind::Script, name, file, &NONE_BEFORE)?;
    match read_script(alloc, bytes.as_slice()) {
        Ok(script) => Ok(script),
        Err(ScriptError::Fault(fault)) => Err(Refusal::Flawed {
            file,
            flaw: Flaw::Script(fault),
        }),
        Err(ScriptError::NoMemory) => Err(Refusal::NoMemory),
    }
}

/// The capture that these bytes are, in this zone, behind captures of this total. It has this number in the run.
fn capture_of(
    alloc: Global,
    bytes: Bytes,
    zone: u16,
    file: usize,
    before: &CaptureTotals,
) -> Result<Capture, Refusal>
    requires fits { IsShortEnough FileKind.Capture (totals_as before.now) bytes.items }
    requires few { before.now.packets ≤ most_packets }
    ensures read { CaptureReadAs file (totals_as before.now) bytes.items result }
    ensures in_zone { IfOk result (λ capture. capture.zone ≡ zone) }
{
    let frames = match read_capture(alloc, bytes.as_slice()) {
        Ok(frames) => frames,
        Err(CaptureError::Fault(fault)) => {
            return Err(Refusal::Flawed {
                file,
                flaw: Flaw::Capture(fault),
            });
        }
        Err(CaptureError::NoMemory) => return Err(Refusal::NoMemory),
    };
    if frames.len() > MOST_PACKETS - before.packets {
        return Err(Refusal::Flawed {
            file,
            flaw: Flaw::TooManyPackets,
        });
    }
    Ok(Capture {
        bytes,
        frames,
        zone,
    })
}

/// Reads the capture of this name, in this zone, which has this number in the run and stands behind captures of this total.
fn read_capture_file<F: Files>(
    alloc: Global,
    files: &mut F,
    name: &str,
    zone: u16,
    file: usize,
    before: &CaptureTotals,
) -> Result<Capture, Refusal>
    requires { before.now.packets ≤ most_packets }
    ensures reads { ReadAs (part_of (totals_as before.now) file (record { kind = FileKind.Capture; name = name.now } ∷ []))
        (λ capture. GaveCapture (F.source files.old) (totals_as before.now) name.now capture)
        (F.source files.old) (F.source files.new) result }
    ensures in_zone { IfOk result (λ capture. capture.zone ≡ zone) }
    ensures stays { Stays (F.source files.old) (F.source files.new) }
{
    let bytes = read_input(alloc, files, FileKind::Capture, name, file, before)?;
    match capture_of(alloc, bytes, zone, file, before) {
        Ok(capture) => Ok(capture),
        Err(why) => Err(why),
    }
}

/// What captures have together with a further one.
fn with_capture(before: &CaptureTotals, capture: &Capture) -> CaptureTotals
    requires { HasRoomFor (totals_as before.now) capture.now }
    ensures { totals_as result ≡ totals_with (totals_as before.now) capture.now.bytes.items (frames capture.now.frames.items) }
{
    CaptureTotals {
        bytes: before.bytes + capture.bytes.len(),
        packets: before.packets + capture.frames.len(),
    }
}

/// The zone of the capture at this index.
pub(crate) fn zone_at(zones: &[u16], index: usize) -> u16
    requires { index < length zones.now }
    ensures { slice_get zones.now index ≡ Some result }
{
    zones[index]
}

/// Reads the captures of these names, each in its zone. The first of them has this number in the run.
fn read_captures<F: Files>(
    alloc: Global,
    files: &mut F,
    names: &[&str],
    zones: &[u16],
    first: usize,
) -> Result<Captures, Refusal>
    requires zoned { length zones.now ≡ length names.now }
    requires few { length names.now ≤ 63 }
    requires first { first ≤ 2 }
    ensures reads { ReadAs (part_of no_totals first (files_of_kind FileKind.Capture (texts names.now)))
        (λ captures. GaveCaptures (F.source files.old) (texts names.now) zones.now captures.items)
        (F.source files.old) (F.source files.new) result }
    ensures stays { Stays (F.source files.old) (F.source files.new) }
{
    let mut captures = Captures::new(alloc, names.len())?;
    let mut totals = NONE_BEFORE;
    'captures: for (index, name) in names.iter().enumerate() {
        let zone = zone_at(zones, index);
        let capture = match read_capture_file(alloc, files, name, zone, first + index, &totals) {
            Ok(capture) => capture,
            Err(why) => return Err(why),
        };
        totals = with_capture(&totals, &capture);
        captures.push(capture);
    }
    Ok(captures)
}

/// What was read from all files of a run.
#[derive(Drop)]
pub struct Inputs {
    pub rules: Rules,
    pub script: Script,
    pub captures: Captures,
}

/// Reads all files of these names: the rules, then the script, and then the captures in their order, each in its zone.
#[tactic(auto, using(crate::proofs::All::rules_refused, crate::proofs::All::script_refused, crate::proofs::All::captures_refused))]
fn read_named<F: Files>(
    alloc: Global,
    files: &mut F,
    names: &Named<'_>,
    zones: &[u16],
) -> Result<Inputs, Refusal>
    requires within { AreNamesWithin (names_as names.now) }
    requires zoned { length zones.now ≡ length (names_as names.now).captures }
    ensures reads { ReadAs (part_of no_totals 0 (files_of_names (names_as names.now)))
        (λ inputs. GaveNamed (F.source files.old) (names_as names.now) inputs)
        (F.source files.old) (F.source files.new) result }
    ensures in_zones { IfOk result (λ inputs. zones_in inputs.captures.items ≡ zones.now) }
    ensures stays { Stays (F.source files.old) (F.source files.new) }
{
    let rules = match read_rule_file(alloc, files, names.rules) {
        Ok(rules) => rules,
        Err(why) => return Err(why),
    };
    let script_file = usize::from(names.rules.is_some());
    let script = match read_script_file(alloc, files, names.script, script_file) {
        Ok(script) => script,
        Err(why) => return Err(why),
    };
    let first_capture = script_file + usize::from(names.script.is_some());
    match read_captures(
        alloc,
        files,
        names.captures.as_slice(),
        zones,
        first_capture,
    ) {
        Ok(captures) => Ok(Inputs {
            rules,
            script,
            captures,
        }),
        Err(why) => Err(why),
    }
}

/// Reads all that is asked for, each capture in its zone: the files that are named, or else a made workload, for which no
/// file is opened.
pub fn read_all<F: Files>(
    alloc: Global,
    files: &mut F,
    asked: &Asked<'_>,
) -> Result<Inputs, Refusal>
    requires { IsWithin (asked_as asked.now) }
    ensures reads { ReadAs (part_of no_totals 0 (files_of (asked_as asked.now)))
        (λ inputs. GaveInputs (F.source files.old) (asked_as asked.now) inputs)
        (F.source files.old) (F.source files.new) result }
    ensures no_file { files_of (asked_as asked.now) ≡ [] → F.source files.new ≡ F.source files.old }
    ensures stays { Stays (F.source files.old) (F.source files.new) }
{
    match &asked.origin {
        Origin::Named(names) => read_named(alloc, files, names, asked.zones.as_slice()),
        Origin::Made(workload) => Ok(make_inputs(alloc, workload, asked.zones.as_slice())?),
    }
}
