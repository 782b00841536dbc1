//! A page: a buffer of a caller's, with the bytes that are held back in it. No call takes memory.

ghost use Rattle.std.specs.Prelude.{◌≡◌, ◌+◌, ◌≤◌, [], length};
ghost use Rattle.ftp_rewrite.specs.Page.{Adds, HasRoom};

use itoa::{Buffer, Integer};
use std::marker::Model;

/// Bytes gathered in a buffer.
#[derive(Drop)]
pub struct Page<'b> {
    buffer: &'b mut [u8],
    len: usize,
}

impl<'b> Model for Page<'b> {
    ghost use Rattle.std.specs.Prelude.{◌-◌, ◌≤◌, length, take};
    ghost use Rattle.ftp_rewrite.specs.Page.{Held};

    ghost Value = { Held };

    ghost view = { λ p. record {
      text = take p.len p.buffer.now;
      room = length p.buffer.now - p.len;
    } };

    ghost invariant = { λ p. p.len ≤ length p.buffer.now };
}

impl<'b> Page<'b> {
    /// An empty page over all of `buffer`.
    pub fn new(buffer: &'b mut [u8]) -> Page<'b>
        ensures empty { result.text ≡ [] }
        ensures room { result.room ≡ length buffer.old }
    {
        Page { buffer, len: 0 }
    }

    /// The bytes that it holds.
    pub fn held(&self) -> &[u8]
        ensures { result.now ≡ self.now.text }
    {
        self.buffer.split_at(self.len).0
    }

    /// Holds nothing from now on.
    pub fn clear(&mut self)
        ensures empty { self.new.text ≡ [] }
        ensures room { self.new.room ≡ length self.old.text + self.old.room }
    {
        self.len = 0;
    }

    /// Writes the bytes of `piece`.
    pub fn text(&mut self, piece: &[u8])
        requires { HasRoom (length piece.now) self.old }
        ensures { Adds (length piece.now) piece.now self.old self.new }
    {
        let end = self.len + piece.len();
        self.buffer[self.len..end].copy_from_slice(piece);
        self.len = end;
    }

    /// Writes a number in plain decimal.
    pub fn number<I: Integer>(&mut self, number: I)
        requires { HasRoom I.MAX_STR_LEN self.old }
        ensures { Adds I.MAX_STR_LEN (I.text number) self.old self.new }
    {
        let mut digits = Buffer::new();
        self.text(digits.format(number).as_bytes());
    }
}
