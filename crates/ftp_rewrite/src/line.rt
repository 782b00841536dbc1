//! The pieces of a line, on a page.

ghost use Rattle.std.specs.Prelude.{◌≡◌, ◌+◌, ◌*◌, ◌<◌, ◌≤◌, length};
ghost use Rattle.ftp_rewrite.specs.Internal.Pieces.{first_text, opening_text};
ghost use Rattle.ftp_rewrite.specs.Line.{seen, seen_text};
ghost use Rattle.ftp_rewrite.specs.Page.{Adds, HasRoom};
ghost use Rattle.ftp_rewrite.specs.Text.{direction_word, head_text, hex_byte, hex_digit, hex_text, numbers_text};

use crate::page::Page;
use crate::rewrite::{NewText, Rewrite};
use tuple_core::Direction;

/// A number below 16 as one digit.
fn hex_digit(value: u8) -> u8
    requires { value < 16 }
    ensures { result ≡ hex_digit value }
{
    if value < 10 {
        b'0' + value
    } else {
        b'a' + (value - 10)
    }
}

impl<'b> Page<'b> {
    /// Writes the line before the others.
    #[tactic(auto, unfolding(crate::specs::Text::head_text))]
    pub(crate) fn head(&mut self, count: usize)
        requires { HasRoom 29 self.old }
        ensures { Adds 29 (head_text count) self.old self.new }
    {
        self.text(b"rewrite ");
        self.number(count);
        self.text(b"\n");
    }

    /// Writes the word of a direction.
    fn direction(&mut self, direction: Direction)
        requires { HasRoom 8 self.old }
        ensures { Adds 8 (direction_word direction) self.old self.new }
    {
        match direction {
            Direction::Original => self.text(b"original"),
            Direction::Reply => self.text(b"reply"),
        }
    }

    /// Writes which packet it is, and its numbers as they were and as they leave.
    #[tactic(auto, unfolding(crate::specs::Text::numbers_text))]
    fn numbers(&mut self, line: &Rewrite)
        requires { HasRoom 106 self.old }
        ensures { Adds 106 (numbers_text (seen line.now)) self.old self.new }
    {
        self.number(line.thread);
        self.text(b".");
        self.number(line.packet);
        self.text(b" id=");
        self.number(line.id);
        self.text(b" ");
        self.direction(line.direction);
        self.text(b" seq=");
        self.number(line.seq);
        self.text(b">");
        self.number(line.new_seq);
        self.text(b" ack=");
        self.number(line.ack);
        self.text(b">");
        self.number(line.new_ack);
    }

    /// Writes what follows the numbers, up to the payload.
    fn opening(&mut self, text: &NewText)
        requires { HasRoom 11 self.old }
        ensures { Adds 11 (opening_text (seen_text text.now)) self.old self.new }
    {
        match text {
            NewText::Same => self.text(b"\n"),
            NewText::Kept => self.text(b" text=kept\n"),
            NewText::Changed(_) => self.text(b" text="),
        }
    }

    /// Writes a line up to its payload.
    #[tactic(auto, unfolding(crate::specs::Internal::Pieces::first_text))]
    pub(crate) fn first(&mut self, line: &Rewrite)
        requires { HasRoom 117 self.old }
        ensures { Adds 117 (first_text (seen line.now)) self.old self.new }
    {
        self.numbers(line);
        self.opening(&line.text);
    }

    /// Writes a byte as two digits.
    fn hex_byte(&mut self, byte: u8)
        requires { HasRoom 2 self.old }
        ensures { Adds 2 (hex_byte byte) self.old self.new }
    {
        self.text(&[hex_digit(byte / 16), hex_digit(byte % 16)]);
    }

    /// Writes bytes as two digits each.
    #[tactic(auto, using(crate::proofs::Writing::hex_none, crate::proofs::Writing::hex_more, crate::proofs::Writing::hex_all))]
    pub(crate) fn hex(&mut self, piece: &[u8])
        requires { HasRoom (2 * length piece.now) self.old }
        ensures { Adds (2 * length piece.now) (hex_text piece.now) self.old self.new }
    {
        'bytes: for byte in piece {
            self.hex_byte(*byte);
        }
    }
}
