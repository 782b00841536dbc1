//! The text of the wanted end, and the payload with it.

ghost use Rattle.std.specs.Prelude.{◌≡◌, ◌≤◌, [], ◌∷◌, length, IfOk};
ghost use Rattle.ftp_rewrite.specs.NewEnd.{address_and_port, address_text, is_eprt, new_end, replaced, six_numbers};
ghost use Rattle.ftp_rewrite.specs.Page.{Adds, HasRoom};

use crate::page::Page;
use expect_table::expectation::Want;
use ftp_helper::EndSpan;
use room_list::Bytes;
use std::alloc::Global;
use tuple_core::NoMemory;

/// Whether a payload that names an address is an EPRT.
fn is_eprt(payload: &[u8]) -> bool
    ensures { result ≡ is_eprt payload.now }
{
    matches!(payload, [b'E' | b'e', ..])
}

impl<'b> Page<'b> {
    /// Writes the four bytes of an address, with this sign between each two.
    #[tactic(auto, unfolding(crate::specs::NewEnd::address_text))]
    fn address(&mut self, sign: u8, address: u32)
        requires { HasRoom 15 self.old }
        ensures { Adds 15 (address_text (sign ∷ []) address) self.old self.new }
    {
        self.number((address / 0x100_0000) as u8);
        self.text(&[sign]);
        self.number((address / 0x1_0000 % 256) as u8);
        self.text(&[sign]);
        self.number((address / 0x100 % 256) as u8);
        self.text(&[sign]);
        self.number((address % 256) as u8);
    }

    /// Writes the six numbers of a PORT or a 227.
    #[tactic(auto, unfolding(crate::specs::NewEnd::six_numbers))]
    fn six_numbers(&mut self, want: &Want)
        requires { HasRoom 23 self.old }
        ensures { Adds 23 (six_numbers want.now) self.old self.new }
    {
        self.address(b',', want.dst);
        self.text(b",");
        self.number((want.port / 256) as u8);
        self.text(b",");
        self.number((want.port % 256) as u8);
    }

    /// Writes the address, the bar and the port of an EPRT.
    #[tactic(auto, unfolding(crate::specs::NewEnd::address_and_port))]
    fn address_and_port(&mut self, want: &Want)
        requires { HasRoom 21 self.old }
        ensures { Adds 21 (address_and_port want.now) self.old self.new }
    {
        self.address(b'.', want.dst);
        self.text(b"|");
        self.number(want.port);
    }

    /// Writes the wanted end in the form that the payload has.
    #[tactic(auto, unfolding(crate::specs::NewEnd::new_end))]
    pub(crate) fn new_end(&mut self, payload: &[u8], want: &Want)
        requires { HasRoom 23 self.old }
        ensures { Adds 23 (new_end payload.now want.now) self.old self.new }
    {
        if is_eprt(payload) {
            self.address_and_port(want);
        } else {
            self.six_numbers(want);
        }
    }
}

/// The payload with this text in the place of the bytes of a span.
pub fn replaced(
    alloc: Global,
    payload: &[u8],
    span: &EndSpan,
    text: &[u8],
) -> Result<Bytes, NoMemory>
    requires start { span.now.start ≤ length payload.now }
    requires end { span.now.end ≤ length payload.now }
    ensures { IfOk result (λ bytes. bytes.items ≡ replaced payload.now span.now text.now) }
{
    let (before, _) = payload.split_at(span.start);
    let (_, behind) = payload.split_at(span.end);
    let mut bytes = Bytes::new(alloc, payload.len())?;
    bytes.append(before)?;
    bytes.append(text)?;
    bytes.append(behind)?;
    Ok(bytes)
}
