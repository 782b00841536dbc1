//! The datagram of a complete group.

ghost use Rattle.std.specs.Prelude.{◌≡◌, ◌+◌, ◌<◌, ◌≤◌, ◌++◌, length, true, List, IfOk, OnOk, unwrap_or};
ghost use Rattle.std.specs.List.{flat_map};
ghost use Rattle.ip_reassembly.specs.declared.piece.Piece.{Piece};
ghost use Rattle.ip_reassembly.specs.Datagram.{data_end, datagram, header_bytes};
ghost use Rattle.ip_reassembly.specs.Internal.Filling.{AreInOrder, StandIn, filled_by};
ghost use Rattle.ip_reassembly.specs.Internal.Gathering.{Gathers, IsSound, part_bytes, whole_test};

use crate::gathering::Gathering;
use crate::piece::Part;
use packet_headers::Bytes;
use tuple_core::NoMemory;

/// The bytes of a header without options.
const HEADER: u32 = 20;

/// Appends the header of a datagram of `total` bytes, which is that of the packet at `at` without its options.
fn append_header(out: &mut Bytes, bytes: &[u8], at: usize, total: u32) -> Result<(), NoMemory>
    requires within { at + 20 ≤ length bytes.now }
    requires short { total < 65536 }
    ensures header { OnOk result (out.new.items ≡ out.old.items ++ header_bytes bytes.now at total) }
    ensures long { OnOk result (length out.new.items ≡ length out.old.items + 20) }
{
    out.append(&[
        0x45,
        bytes[at + 1],
        (total / 256) as u8,
        (total % 256) as u8,
    ])?;
    let (_, rest) = bytes.split_at(at + 4);
    out.append(rest.split_at(2).0)?;
    out.append(&[0, 0])?;
    let (_, rest) = bytes.split_at(at + 8);
    out.append(rest.split_at(12).0)?;
    Ok(())
}

/// Appends the bytes of parts, one part after the other.
#[tactic(auto, using(crate::proofs::Append::appended_none, crate::proofs::Append::appended_next, crate::proofs::Order::stands_at))]
fn append_parts(out: &mut Bytes, bytes: &[u8], parts: &[Part]) -> Result<(), NoMemory>
    requires order { AreInOrder 0 parts.now }
    requires stand { StandIn (length bytes.now) 65515 parts.now }
    ensures parts { OnOk result (out.new.items ≡ out.old.items ++ flat_map (part_bytes bytes.now) parts.now) }
    ensures long { OnOk result (length out.new.items ≡ length out.old.items + filled_by parts.now) }
{
    'parts: for part in parts {
        let (_, rest) = bytes.split_at(part.start);
        out.append(rest.split_at((part.high - part.low) as usize).0)?;
    }
    Ok(())
}

/// Appends the datagram of a complete group, and says how many bytes it has.
#[tactic(auto, using(crate::proofs::Data::datagram_is, crate::proofs::Data::length_is, crate::proofs::Data::whole_header, crate::proofs::Order::stand_lower, crate::proofs::Order::filled_within))]
pub fn append_datagram(out: &mut Bytes, bytes: &[u8], group: &Gathering) -> Result<u32, NoMemory>
    requires sound { IsSound (length bytes.now) group.now }
    requires whole { whole_test group.now.agrees group.now.header group.now.end group.now.filled ≡ true }
    ensures datagram { OnOk result ((pieces : List Piece) → Gathers bytes.now pieces group.now → out.new.items ≡ out.old.items ++ datagram bytes.now pieces) }
    ensures long { IfOk result (λ n. length out.new.items ≡ length out.old.items + n) }
    ensures length { IfOk result (λ n. (pieces : List Piece) → Gathers bytes.now pieces group.now → n ≡ 20 + data_end pieces) }
{
    let length = HEADER + group.filled();
    append_header(out, bytes, group.header(), length)?;
    append_parts(out, bytes, group.parts())?;
    Ok(length)
}
