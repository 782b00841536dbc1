//! What is known of one group: which of the data's places are covered, by which bytes of the capture, and
//! whether its pieces agree.

ghost use Rattle.std.specs.Prelude.{◌≡◌, ◌+◌, ◌-◌, ◌^◌, ◌<◌, ◌≤◌, ◌&&◌, if◌then◌else◌, nat_le, true, unwrap_or, length, take, IfOk, OnOk};
ghost use Rattle.std.specs.List.{list_all, insert};
ghost use Rattle.ip_reassembly.specs.Part.{same_bytes, value};
ghost use Rattle.ip_reassembly.specs.Group.{patience};
ghost use Rattle.ip_reassembly.specs.Internal.Filling.{AreInOrder, StandIn, before, behind, ends_by, fill, filled_by};
ghost use Rattle.ip_reassembly.specs.Internal.Gathering.{Begun, IsKept, IsPieceIn, IsSound, Joined, end_fits, first_end, first_header, higher, whole_test};

use crate::piece::{Part, Piece};
use std::alloc::Global;
use tuple_core::NoMemory;

/// How long after its leader a piece still belongs to a group: 30 seconds in microseconds.
const PATIENCE: u64 = 30_000_000;

/// What is known of one group.
#[derive(Drop)]
pub struct Gathering {
    /// The moment of the leader.
    began: u64,
    /// Whether the pieces agree. Where they do not, the parts are those of the pieces before.
    agrees: bool,
    /// Where the header of the first piece that begins the data stands.
    header: Option<usize>,
    /// Where the first last piece ends.
    end: Option<u32>,
    /// Where the longest piece ends.
    top: u32,
    /// How many places are covered.
    filled: u32,
    /// By which bytes: in order, without overlaps.
    parts: Vec<Part>,
}

/// The byte that a part has for a place.
fn byte(bytes: &[u8], part: &Part, place: u32) -> u8
    requires low { part.now.low ≤ place }
    requires high { place < part.now.high }
    requires within { part.now.start + (part.now.high - part.now.low) ≤ length bytes.now }
    ensures { result ≡ value bytes.now part.now place }
{
    bytes[part.start + (place - part.low) as usize]
}

/// Whether two parts have the same byte for each place that both cover.
#[tactic(auto, using(crate::proofs::Same::same_next, crate::proofs::Same::differs), unfolding(crate::specs::Part::same_bytes))]
fn same_bytes(bytes: &[u8], p: &Part, q: &Part) -> bool
    requires p { p.now.start + (p.now.high - p.now.low) ≤ length bytes.now }
    requires q { q.now.start + (q.now.high - q.now.low) ≤ length bytes.now }
    ensures { result ≡ same_bytes bytes.now p.now q.now }
{
    let low = p.low.max(q.low);
    let high = p.high.min(q.high);
    'places: for place in low..high {
        let first = byte(bytes, p, place);
        let other = byte(bytes, q, place);
        if first != other {
            return false;
        }
    }
    true
}

/// The index of the first part that ends behind a place, or the number of parts.
#[tactic(auto, using(crate::proofs::Order::ended_before))]
fn first_behind(parts: &[Part], place: u32) -> usize
    requires { AreInOrder 0 parts.now }
    ensures within { result ≤ length parts.now }
    ensures before { list_all (ends_by place) (take result parts.now) ≡ true }
{
    let mut low = 0;
    let mut high = parts.len();
    'halves: while low < high {
        let middle = low + (high - low) / 2;
        if parts[middle].high <= place {
            low = middle + 1;
        } else {
            high = middle;
        }
    }
    low
}

/// Whether a part has the same bytes as all others for the places that they cover too.
#[tactic(auto, using(crate::proofs::Order::compared_first, crate::proofs::Order::compared_next, crate::proofs::Order::compared_differs, crate::proofs::Order::compared_behind, crate::proofs::Order::compared_all, crate::proofs::Order::stands_at))]
fn fits_all(bytes: &[u8], parts: &[Part], part: &Part) -> bool
    requires order { AreInOrder 0 parts.now }
    requires stand { StandIn (length bytes.now) 65515 parts.now }
    requires part { part.now.start + (part.now.high - part.now.low) ≤ length bytes.now }
    ensures { result ≡ list_all (same_bytes bytes.now part.now) parts.now }
{
    let mut index = first_behind(parts, part.low);
    'parts: while index < parts.len() && parts[index].low < part.high {
        if !same_bytes(bytes, part, &parts[index]) {
            return false;
        }
        index += 1;
    }
    true
}

/// Puts a part in the place of `index`; those from there on move down.
fn insert(parts: &mut Vec<Part>, index: usize, part: Part) -> Result<(), NoMemory>
    requires { index ≤ length parts.old.items }
    ensures { OnOk result (parts.new.items ≡ insert parts.old.items index part) }
{
    match parts.insert(index, part) {
        Ok(()) => Ok(()),
        Err(_) => Err(NoMemory),
    }
}

/// What of a part stands behind another.
fn behind(part: Part, held: &Part) -> Part
    requires { part.start + 2 ^ 32 < 2 ^ 64 }
    ensures { result ≡ behind part held.now }
{
    if part.low >= held.high {
        return part;
    }
    Part {
        low: held.high,
        high: part.high,
        start: part.start + (held.high - part.low) as usize,
    }
}

/// Fills the places of a part that are free, and says how many these are.
#[tactic(auto, using(crate::proofs::Filling::filling_first, crate::proofs::Filling::filling_gap, crate::proofs::Filling::filling_on, crate::proofs::Filling::filling_over, crate::proofs::Filling::filling_last))]
fn fill(parts: &mut Vec<Part>, part: Part) -> Result<u32, NoMemory>
    requires order { AreInOrder 0 parts.old.items }
    requires some { part.low < part.high }
    requires start { part.start < 2 ^ 63 }
    ensures parts { OnOk result (parts.new.items ≡ fill part parts.old.items) }
    ensures filled { IfOk result (λ count. filled_by parts.new.items ≡ filled_by parts.old.items + count) }
    ensures few { IfOk result (λ count. count ≤ part.high - part.low) }
{
    let mut index = first_behind(parts.as_slice(), part.low);
    let mut rest = part;
    let mut count = 0;
    'parts: while index < parts.len() && rest.low < rest.high {
        let held = parts[index];
        let end = held.low.min(rest.high);
        if rest.low < end {
            insert(parts, index, Part { high: end, ..rest })?;
            count += end - rest.low;
            index += 1;
        }
        rest = behind(rest, &held);
        index += 1;
    }
    if rest.low < rest.high {
        insert(parts, index, rest)?;
        count += rest.high - rest.low;
    }
    Ok(count)
}

/// Where the header of the first piece that begins the data stands, with one piece more.
fn first_header(old: Option<usize>, piece: &Piece) -> Option<usize>
    ensures { result ≡ first_header old piece.now }
{
    match old {
        Some(at) => Some(at),
        None if piece.part.low == 0 => Some(piece.header),
        None => None,
    }
}

/// Where the first last piece ends, with one piece more.
fn first_end(old: Option<u32>, piece: &Piece) -> Option<u32>
    ensures { result ≡ first_end old piece.now }
{
    match old {
        Some(end) => Some(end),
        None if piece.last => Some(piece.part.high),
        None => None,
    }
}

/// The higher of two numbers.
fn higher(a: u32, b: u32) -> u32
    ensures { result ≡ higher a b }
{
    if a <= b { b } else { a }
}

impl Gathering {
    /// What is known of a group of one piece.
    pub fn begin(alloc: Global, bytes: &[u8], piece: &Piece) -> Result<Gathering, NoMemory>
        requires { IsPieceIn (length bytes.now) piece.now }
        ensures begun { IfOk result (Begun piece.now) }
    {
        let mut parts = Vec::new(alloc);
        insert(&mut parts, 0, piece.part)?;
        Ok(Gathering {
            began: piece.moment,
            agrees: true,
            header: first_header(None, piece),
            end: first_end(None, piece),
            top: piece.part.high,
            filled: piece.part.high - piece.part.low,
            parts,
        })
    }

    /// Whether a piece's end goes together with those of the pieces so far.
    fn end_fits(&self, piece: &Piece) -> bool
        ensures { result ≡ end_fits self.now.end self.now.top piece.now }
    {
        match self.end {
            Some(end) => piece.part.high <= end && (!piece.last || piece.part.high == end),
            None => !piece.last || self.top <= piece.part.high,
        }
    }

    /// Whether the pieces agree where this one is among them.
    #[tactic(auto, using(crate::proofs::Order::stand_lower))]
    fn agrees_with(&self, bytes: &[u8], piece: &Piece) -> bool
        requires piece { IsPieceIn (length bytes.now) piece.now }
        requires sound { IsSound (length bytes.now) self.now }
        ensures { result ≡ (self.now.agrees && (end_fits self.now.end self.now.top piece.now && list_all (same_bytes bytes.now piece.now.part) self.now.parts.items)) }
    {
        self.agrees && self.end_fits(piece) && fits_all(bytes, self.parts.as_slice(), &piece.part)
    }

    /// Fills the free places of a part, where the pieces agree.
    #[tactic(auto, using(crate::proofs::Order::filled_within))]
    fn take_part(&mut self, agrees: bool, part: Part) -> Result<(), NoMemory>
        requires sound { IsKept self.old }
        requires some { part.low < part.high }
        requires short { part.high ≤ 65515 }
        requires start { part.start < 2 ^ 63 }
        ensures parts { OnOk result (self.new.parts.items ≡ (if agrees then fill part self.old.parts.items else self.old.parts.items)) }
        ensures filled { OnOk result (self.new.filled ≡ filled_by self.new.parts.items) }
        ensures began { self.new.began ≡ self.old.began }
        ensures header { self.new.header ≡ self.old.header }
        ensures end { self.new.end ≡ self.old.end }
        ensures top { self.new.top ≡ self.old.top }
    {
        if agrees {
            let count = fill(&mut self.parts, part)?;
            self.filled += count;
        }
        Ok(())
    }

    /// Takes one piece more.
    #[tactic(auto, using(crate::proofs::Sound::is_kept))]
    pub fn join(&mut self, bytes: &[u8], piece: &Piece) -> Result<(), NoMemory>
        requires piece { IsPieceIn (length bytes.now) piece.now }
        requires sound { IsSound (length bytes.now) self.old }
        requires size { length bytes.now < 2 ^ 63 }
        ensures joined { OnOk result (Joined bytes.now piece.now self.old self.new) }
    {
        let agrees = self.agrees_with(bytes, piece);
        self.take_part(agrees, piece.part)?;
        self.agrees = agrees;
        self.header = first_header(self.header, piece);
        self.end = first_end(self.end, piece);
        self.top = higher(self.top, piece.part.high);
        Ok(())
    }

    /// Whether a piece of this moment is no more of the group.
    pub fn is_over(&self, moment: u64) -> bool
        ensures { result ≡ nat_le (self.now.began + patience) moment }
    {
        moment >= self.began && moment - self.began >= PATIENCE
    }

    /// Whether the group is complete.
    pub fn is_complete(&self) -> bool
        ensures { result ≡ whole_test self.now.agrees self.now.header self.now.end self.now.filled }
    {
        match (self.header, self.end) {
            (Some(_), Some(end)) => self.agrees && end == self.filled,
            (Some(_), None) => false,
            (None, _) => false,
        }
    }

    /// Where the header of a complete group's datagram stands.
    pub fn header(&self) -> usize
        ensures { result ≡ unwrap_or self.now.header 0 }
    {
        self.header.unwrap_or(0)
    }

    /// How many bytes of data the group has.
    pub fn filled(&self) -> u32
        ensures { result ≡ self.now.filled }
    {
        self.filled
    }

    /// By which bytes the data is covered, in order.
    pub fn parts(&self) -> &[Part]
        ensures { result.now ≡ self.now.parts.items }
    {
        self.parts.as_slice()
    }
}
