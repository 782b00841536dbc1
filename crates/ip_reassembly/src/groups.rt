//! The groups of all keys that are not complete.

ghost use Rattle.std.specs.Prelude.{◌≡◌, ◌^◌, ◌<◌, ◌≤◌, [], ◌∷◌, ◌++◌, length, true, List, Some, None, IfOk, OnOk, IfSome};
ghost use Rattle.ip_reassembly.specs.declared.piece.Piece.{Piece};
ghost use Rattle.ip_reassembly.specs.Group.{group_of, group_with};
ghost use Rattle.ip_reassembly.specs.Internal.Gathering.{Gathers, IsPieceIn, IsSound, whole_test};
ghost use Rattle.ip_reassembly.specs.Internal.Knowing.{AreSound, Completes, Knows, Puts, Tells, key_cmp};
ghost use Rattle.std.specs.BTreeMap.{get};

use crate::gathering::Gathering;
use crate::piece::{Key, Piece};
use std::alloc::Global;
use std::collections::BTreeMap;
use tuple_core::NoMemory;

/// By key what is known of its latest group, where that is not complete.
pub type Groups = BTreeMap<Key, Gathering>;

/// What is known of a piece's group once the piece is in it, from what was known of the group before.
#[tactic(auto, using(crate::proofs::Sound::begun_sound, crate::proofs::Sound::joined_sound, crate::proofs::Known::with_first, crate::proofs::Known::with_late, crate::proofs::Known::with_more))]
fn with_piece(
    alloc: Global,
    bytes: &[u8],
    piece: &Piece,
    before: Option<Gathering>,
) -> Result<Gathering, NoMemory>
    requires piece { IsPieceIn (length bytes.now) piece.now }
    requires size { length bytes.now < 2 ^ 63 }
    requires sound { IfSome before (IsSound (length bytes.now)) }
    ensures sound { IfOk result (IsSound (length bytes.now)) }
    ensures gathers { IfOk result (λ g. (group : List Piece) → Tells bytes.now group before → Gathers bytes.now (group_with bytes.now group piece.now) g) }
{
    let Some(mut gathering) = before else {
        return Gathering::begin(alloc, bytes, piece);
    };
    if gathering.is_over(piece.moment) {
        return Gathering::begin(alloc, bytes, piece);
    }
    gathering.join(bytes, piece)?;
    Ok(gathering)
}

/// Keeps what is known of a key's group.
fn keep(groups: &mut Groups, key: Key, gathering: Gathering) -> Result<(), NoMemory>
    ensures { OnOk result (Puts groups.old groups.new key (Some gathering)) }
{
    match groups.insert(key, gathering) {
        Ok(_) => Ok(()),
        Err(_) => Err(NoMemory),
    }
}

/// Takes what is known of a key's group out.
fn take_out(groups: &mut Groups, key: Key) -> Option<Gathering>
    ensures value { result ≡ get key_cmp groups.old key }
    ensures others { Puts groups.old groups.new key None }
{
    groups.remove(&key)
}

/// Takes one piece in, and gives its group where that is complete now.
#[tactic(auto, using(crate::proofs::Known::complete_now, crate::proofs::Known::knows_complete, crate::proofs::Known::open_now, crate::proofs::Known::knows_open, crate::proofs::Known::sound_more))]
pub fn take_in(
    alloc: Global,
    groups: &mut Groups,
    bytes: &[u8],
    piece: &Piece,
) -> Result<Option<Gathering>, NoMemory>
    requires piece { IsPieceIn (length bytes.now) piece.now }
    requires size { length bytes.now < 2 ^ 63 }
    requires sound { AreSound (length bytes.now) groups.old }
    ensures sound { OnOk result (AreSound (length bytes.now) groups.new) }
    ensures stands { IfOk result (λ whole. IfSome whole (IsSound (length bytes.now))) }
    ensures whole { IfOk result (λ whole. IfSome whole (λ g. whole_test g.agrees g.header g.end g.filled ≡ true)) }
    ensures knows { OnOk result ((pieces : List Piece) → Knows bytes.now pieces groups.old → Knows bytes.now (pieces ++ piece.now ∷ []) groups.new) }
    ensures completes { IfOk result (λ whole. (pieces : List Piece) → Knows bytes.now pieces groups.old → Completes bytes.now (group_of bytes.now piece.now.key (pieces ++ piece.now ∷ [])) whole) }
{
    let before = take_out(groups, piece.key);
    let gathering = with_piece(alloc, bytes, piece, before)?;
    if gathering.is_complete() {
        return Ok(Some(gathering));
    }
    keep(groups, piece.key, gathering)?;
    Ok(None)
}
