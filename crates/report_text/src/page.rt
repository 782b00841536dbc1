//! A page: a buffer of a caller's, with the bytes that are held back in it. No call takes memory.

ghost use Rattle.std.specs.Fmt.{decimal};
ghost use Rattle.std.specs.Prelude.{◌≡◌, ◌≤◌, ◌++◌, [], codes, length};
ghost use Rattle.report_text.specs.Page.{Adds, HasRoom};
ghost use Rattle.report_text.specs.Piece.{word_if};

use crate::number::{Number, put_octet};
use std::marker::Model;

/// No line has more bytes, its line feed included.
pub const LONGEST_LINE: usize = 512;

/// Bytes gathered in a buffer that has room for at least one line.
#[derive(Drop)]
pub struct Page<'b> {
    buffer: &'b mut [u8],
    len: usize,
}

impl<'b> Model for Page<'b> {
    ghost use Rattle.std.specs.Prelude.{◌-◌, ◌≤◌, length, take};
    ghost use Rattle.report_text.specs.Page.{Held};
    ghost use Rattle.report_text.specs.declared.page.TheConstants.{LONGEST_LINE};

    ghost Value = { Held };

    ghost view = { λ p. record {
      text = take p.len p.buffer.now;
      room = length p.buffer.now - p.len;
    } };

    ghost invariant = { λ p. (LONGEST_LINE ≤ length p.buffer.now) × (p.len ≤ length p.buffer.now) };
}

impl<'b> Page<'b> {
    /// An empty page over all of `buffer`.
    pub fn new(buffer: &'b mut [u8]) -> Page<'b>
        requires { LONGEST_LINE ≤ length buffer.old }
        ensures empty { result.text ≡ [] }
        ensures room { HasRoom LONGEST_LINE result }
    {
        Page { buffer, len: 0 }
    }

    /// The bytes that it holds.
    #[inline]
    pub fn held(&self) -> &[u8]
        ensures { result.now ≡ self.now.text }
    {
        self.buffer.split_at(self.len).0
    }

    /// For how many more bytes there is room.
    #[inline]
    pub fn room(&self) -> usize
        ensures { result ≡ self.now.room }
    {
        self.buffer.len() - self.len
    }

    /// Holds nothing from now on.
    pub fn clear(&mut self)
        ensures empty { self.new.text ≡ [] }
        ensures room { HasRoom LONGEST_LINE self.new }
    {
        self.len = 0;
    }

    /// Writes the bytes of `piece`.
    #[inline]
    pub fn text(&mut self, piece: &[u8])
        requires { HasRoom (length piece.now) self.old }
        ensures { Adds (length piece.now) piece.now self.old self.new }
    {
        let end = self.len + piece.len();
        self.buffer[self.len..end].copy_from_slice(piece);
        self.len = end;
    }

    /// Writes `word` where `holds` is true, and else nothing.
    #[inline]
    pub fn text_if(&mut self, holds: bool, word: &[u8])
        requires { HasRoom (length word.now) self.old }
        ensures { Adds (length word.now) (word_if holds word.now) self.old self.new }
    {
        if holds {
            self.text(word);
        }
    }

    /// Writes a number in plain decimal.
    #[inline]
    pub fn number<I: Number>(&mut self, number: I)
        requires { HasRoom I.MAX_STR_LEN self.old }
        ensures { Adds I.MAX_STR_LEN (I.text number) self.old self.new }
    {
        self.len = number.put(self.buffer, self.len);
    }

    /// Writes a byte in plain decimal, and a dot.
    #[inline(always)]
    pub fn dotted(&mut self, byte: u8)
        requires { HasRoom 4 self.old }
        ensures { Adds 4 (decimal byte ++ codes ".") self.old self.new }
    {
        self.len = put_octet(byte, self.buffer, self.len);
    }
}
