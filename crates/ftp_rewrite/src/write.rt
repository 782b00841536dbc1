//! The text of the lines, on its way to a sink. A line's payload is written in pieces, so that no line is too long for the
//! buffer. No call takes memory.

ghost use Rattle.std.specs.List.{flat_map};
ghost use Rattle.std.specs.Prelude.{◌≡◌, ◌++◌, ◌≤◌, codes, length, map};
ghost use Rattle.ftp_rewrite.specs.Internal.Pieces.{closing_text, first_text, line_of};
ghost use Rattle.ftp_rewrite.specs.Line.{seen, seen_text};
ghost use Rattle.ftp_rewrite.specs.Text.{head_text, hex_text, line_text, rewrites_text};
ghost use Rattle.ftp_rewrite.specs.Wrote.{Wrote};

use crate::page::Page;
use crate::rewrite::{NewText, Rewrite, Rewrites};
use ct_io::{Failed, Sink};

/// The least bytes of a buffer.
pub const LEAST_BUFFER: usize = 512;

/// How many bytes of a payload a buffer has room for, as two digits each.
const PIECE: usize = 256;

/// Writing failed.
#[derive(Clone, Copy, Debug)]
pub struct WriteFault;

impl From<Failed> for WriteFault {
    fn from(_failed: Failed) -> WriteFault {
        WriteFault
    }
}

/// Writes all of `piece`, in as many calls of the sink as it takes.
#[tactic(auto, using(crate::proofs::Writing::written_more, crate::proofs::Writing::written_whole))]
fn write_all<K: Sink>(piece: &[u8], out: &mut K) -> Result<(), WriteFault>
    ensures wrote { Wrote piece.now (K.tape out.old) (K.tape out.new) result }
    ensures faults_stay { (K.tape out.old).faults ≤ (K.tape out.new).faults }
{
    let mut done = 0;
    'pieces: while done < piece.len() {
        let (_, rest) = piece.split_at(done);
        done += out.write(rest)?;
    }
    Ok(())
}

/// Writes the line before the others.
#[tactic(auto, using(crate::proofs::Writing::wrote_page))]
fn write_head<K: Sink>(count: usize, buffer: &mut [u8], out: &mut K) -> Result<(), WriteFault>
    requires { 512 ≤ length buffer.old }
    ensures wrote { Wrote (head_text count) (K.tape out.old) (K.tape out.new) result }
    ensures faults_stay { (K.tape out.old).faults ≤ (K.tape out.new).faults }
{
    let mut page = Page::new(buffer);
    page.head(count);
    write_all(page.held(), out)
}

/// Writes a line up to its payload.
#[tactic(auto, using(crate::proofs::Writing::wrote_page))]
fn write_first<K: Sink>(line: &Rewrite, buffer: &mut [u8], out: &mut K) -> Result<(), WriteFault>
    requires { 512 ≤ length buffer.old }
    ensures wrote { Wrote (first_text (seen line.now)) (K.tape out.old) (K.tape out.new) result }
    ensures faults_stay { (K.tape out.old).faults ≤ (K.tape out.new).faults }
{
    let mut page = Page::new(buffer);
    page.first(line);
    write_all(page.held(), out)
}

/// Writes a piece of a payload, as two digits a byte.
#[tactic(auto, using(crate::proofs::Writing::wrote_page))]
fn write_piece<K: Sink>(piece: &[u8], buffer: &mut [u8], out: &mut K) -> Result<(), WriteFault>
    requires piece { length piece.now ≤ 256 }
    requires buffer { 512 ≤ length buffer.old }
    ensures wrote { Wrote (hex_text piece.now) (K.tape out.old) (K.tape out.new) result }
    ensures faults_stay { (K.tape out.old).faults ≤ (K.tape out.new).faults }
{
    let mut page = Page::new(buffer);
    page.hex(piece);
    write_all(page.held(), out)
}

/// Writes a payload, as two digits a byte.
#[tactic(auto, using(crate::proofs::Writing::hex_begun, crate::proofs::Writing::hex_piece, crate::proofs::Writing::hex_lost, crate::proofs::Writing::hex_done))]
fn write_hex<K: Sink>(payload: &[u8], buffer: &mut [u8], out: &mut K) -> Result<(), WriteFault>
    requires { 512 ≤ length buffer.old }
    ensures wrote { Wrote (hex_text payload.now) (K.tape out.old) (K.tape out.new) result }
    ensures faults_stay { (K.tape out.old).faults ≤ (K.tape out.new).faults }
{
    let mut done = 0;
    'pieces: while done < payload.len() {
        let (_, rest) = payload.split_at(done);
        let (piece, _) = rest.split_at(rest.len().min(PIECE));
        write_piece(piece, buffer, out)?;
        done += piece.len();
    }
    Ok(())
}

/// Writes the rest of a line whose payload is new.
#[tactic(auto, using(crate::proofs::Writing::wrote_then, crate::proofs::Writing::some_more))]
fn write_payload<K: Sink>(payload: &[u8], buffer: &mut [u8], out: &mut K) -> Result<(), WriteFault>
    requires { 512 ≤ length buffer.old }
    ensures wrote { Wrote (hex_text payload.now ++ codes "\n") (K.tape out.old) (K.tape out.new) result }
    ensures faults_stay { (K.tape out.old).faults ≤ (K.tape out.new).faults }
{
    write_hex(payload, buffer, out)?;
    write_all(b"\n", out)
}

/// Writes the rest of a line behind its numbers and what follows them.
#[tactic(auto, using(crate::proofs::Writing::all_nothing))]
fn write_closing<K: Sink>(text: &NewText, buffer: &mut [u8], out: &mut K) -> Result<(), WriteFault>
    requires { 512 ≤ length buffer.old }
    ensures wrote { Wrote (closing_text (seen_text text.now)) (K.tape out.old) (K.tape out.new) result }
    ensures faults_stay { (K.tape out.old).faults ≤ (K.tape out.new).faults }
{
    match text {
        NewText::Same => Ok(()),
        NewText::Kept => Ok(()),
        NewText::Changed(bytes) => write_payload(bytes.as_slice(), buffer, out),
    }
}

/// Writes a line.
#[tactic(auto, using(crate::proofs::Writing::wrote_line, crate::proofs::Writing::some_line))]
fn write_line<K: Sink>(line: &Rewrite, buffer: &mut [u8], out: &mut K) -> Result<(), WriteFault>
    requires { 512 ≤ length buffer.old }
    ensures wrote { Wrote (line_text (seen line.now)) (K.tape out.old) (K.tape out.new) result }
    ensures faults_stay { (K.tape out.old).faults ≤ (K.tape out.new).faults }
{
    write_first(line, buffer, out)?;
    write_closing(&line.text, buffer, out)
}

/// Writes each line.
#[tactic(auto, using(crate::proofs::Writing::lines_begun, crate::proofs::Writing::lines_next, crate::proofs::Writing::lines_lost, crate::proofs::Writing::lines_done))]
fn write_lines<K: Sink>(lines: &[Rewrite], buffer: &mut [u8], out: &mut K) -> Result<(), WriteFault>
    requires { 512 ≤ length buffer.old }
    ensures wrote { Wrote (flat_map line_of lines.now) (K.tape out.old) (K.tape out.new) result }
    ensures faults_stay { (K.tape out.old).faults ≤ (K.tape out.new).faults }
{
    'lines: for line in lines {
        write_line(line, buffer, out)?;
    }
    Ok(())
}

/// Writes the lines, and before them how many there are, through `buffer`. It fails only where the sink does.
#[tactic(auto, using(crate::proofs::Writing::wrote_text, crate::proofs::Writing::some_text))]
pub fn write_rewrites<K: Sink>(
    lines: &Rewrites,
    buffer: &mut [u8],
    out: &mut K,
) -> Result<(), WriteFault>
    requires { LEAST_BUFFER ≤ length buffer.old }
    ensures wrote { Wrote (rewrites_text (map seen lines.now.items)) (K.tape out.old) (K.tape out.new) result }
    ensures faults_stay { (K.tape out.old).faults ≤ (K.tape out.new).faults }
{
    write_head(lines.len(), buffer, out)?;
    write_lines(lines.as_slice(), buffer, out)
}
