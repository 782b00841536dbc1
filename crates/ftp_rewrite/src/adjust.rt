//! The edits of one direction of a connection, and the numbers with which its segments leave.

ghost use Rattle.std.specs.Prelude.{◌≡◌, ◌+◌, ◌-◌, ◌*◌, ◌<◌, ◌≤◌, ◌^◌, ◌||◌, ◌==◌, [], length, nat_le, nat_lt};
ghost use Rattle.ftp_rewrite.specs.Edit.{AreInOrderFrom, answer_to, back, back_from, edit_at, edits_after, end_from, end_of, far, forward, forward_from, is_same_edit, offset_of, overlaps};
ghost use Rattle.std.specs.List.{list_any};

use std::marker::Model;

/// For how many edits there is room.
const MOST_EDITS: usize = 64;

/// Offsets from here on are those of numbers in front of the base: numbers are counted modulo 2^32.
const FAR: u32 = 0x8000_0000;

/// Bytes of a stream, `old_length` of them from `offset` on, are replaced by `new_length` others.
#[derive(Clone, Copy)]
pub struct Edit {
    pub offset: u32,
    pub old_length: u16,
    pub new_length: u16,
}

/// What is answered to an edit.
#[derive(Clone, Copy)]
pub enum Added {
    /// It was added.
    Added,
    /// It is there.
    Again,
    /// It begins before the last edit ends, or ends 2^31 bytes or more behind the base.
    Overlap,
    /// There are 64 edits.
    Full,
}

/// Whether two edits are the same.
fn is_same(e: &Edit, f: &Edit) -> bool
    ensures { result ≡ is_same_edit e.now f.now }
{
    e.offset == f.offset && e.old_length == f.old_length && e.new_length == f.new_length
}

/// Where the replaced bytes end.
fn end_of(e: &Edit) -> u64
    ensures exact { result ≡ end_of e.now }
    ensures small { result ≤ e.now.offset + 65535 }
{
    u64::from(e.offset) + u64::from(e.old_length)
}

/// Whether an edit is among these.
fn has_edit(edits: &[Edit], edit: &Edit) -> bool
    ensures { result ≡ list_any (is_same_edit edit.now) edits.now }
{
    edits.iter().any(|e| is_same(edit, e))
}

/// Where the last edit ends.
#[tactic(auto, using(crate::proofs::Walks::end_next, crate::proofs::Walks::end_last))]
fn end_of_last(edits: &[Edit]) -> u64
    ensures { result ≡ end_from 0 edits.now }
{
    let mut end = 0;
    'edits: for edit in edits {
        end = end_of(edit);
    }
    end
}

/// How long the first `x` bytes are once they are rewritten.
#[tactic(auto, using(crate::proofs::Walks::order_at, crate::proofs::Walks::forward_before, crate::proofs::Walks::forward_inside, crate::proofs::Walks::forward_next, crate::proofs::Walks::forward_last))]
fn forward_by(edits: &[Edit], x: u64) -> u64
    requires near { x < 2 ^ 31 }
    requires order { AreInOrderFrom 0 edits.now }
    requires few { length edits.now ≤ 64 }
    ensures exact { result ≡ forward_from 0 0 edits.now x }
    ensures small { result < 2 ^ 32 }
{
    let mut start = 0u64;
    let mut made = 0u64;
    'edits: for edit in edits {
        let offset = u64::from(edit.offset);
        if x <= offset {
            return made + (x - start);
        }
        let place = made + (offset - start);
        let end = end_of(edit);
        if x < end {
            return place;
        }
        start = end;
        made = place + u64::from(edit.new_length);
    }
    made + (x - start)
}

/// How many bytes are `y` bytes once they are rewritten.
#[tactic(auto, using(crate::proofs::Walks::order_at, crate::proofs::Walks::back_before, crate::proofs::Walks::back_inside, crate::proofs::Walks::back_next, crate::proofs::Walks::back_last))]
fn back_by(edits: &[Edit], y: u64) -> u64
    requires near { y < 2 ^ 31 }
    requires order { AreInOrderFrom 0 edits.now }
    requires few { length edits.now ≤ 64 }
    ensures exact { result ≡ back_from 0 0 edits.now y }
    ensures small { result < 2 ^ 32 }
{
    let mut start = 0u64;
    let mut made = 0u64;
    'edits: for edit in edits {
        let offset = u64::from(edit.offset);
        let place = made + (offset - start);
        if y <= place {
            return start + (y - made);
        }
        let behind = place + u64::from(edit.new_length);
        if y < behind {
            return offset;
        }
        start = end_of(edit);
        made = behind;
    }
    start + (y - made)
}

/// The edits of one direction: its base is the sequence number from which offsets are counted. It takes no memory.
#[derive(Drop)]
pub struct Adjust {
    base: u32,
    edits: [Edit; 64],
    count: usize,
}

impl Model for Adjust {
    ghost use Rattle.std.specs.Prelude.{◌≤◌, take};
    ghost use Rattle.ftp_rewrite.specs.Adjust.{Adjusting};
    ghost use Rattle.ftp_rewrite.specs.Edit.{AreInOrderFrom};

    ghost Value = { Adjusting };

    ghost view = { λ a. record { base = a.base; edits = take a.count a.edits } };

    ghost invariant = { λ a. (a.count ≤ 64) × AreInOrderFrom 0 (take a.count a.edits) };
}

impl Adjust {
    /// No edits. There is room for 64.
    pub fn new(base: u32) -> Adjust
        ensures base { result.base ≡ base }
        ensures edits { result.edits ≡ [] }
    {
        let none = Edit {
            offset: 0,
            old_length: 0,
            new_length: 0,
        };
        Adjust {
            base,
            edits: [none; 64],
            count: 0,
        }
    }

    /// The edits.
    fn edits(&self) -> &[Edit]
        ensures { result.now ≡ self.now.edits }
    {
        self.edits.split_at(self.count).0
    }

    /// How far a number is behind the base.
    fn offset_of(&self, number: u32) -> u32
        ensures { result ≡ offset_of self.now.base number }
    {
        number.wrapping_sub(self.base)
    }

    /// Whether there is no edit.
    pub fn is_empty(&self) -> bool
        ensures { result ≡ (length self.now.edits == 0) }
    {
        self.edits().is_empty()
    }

    /// Whether an edit begins before the last one ends, or does not end near the base.
    fn overlaps(&self, edit: &Edit) -> bool
        ensures { result ≡ overlaps self.now.edits edit.now }
    {
        u64::from(edit.offset) < end_of_last(self.edits()) || end_of(edit) >= u64::from(FAR)
    }

    /// Replaces `old` bytes from the sequence number `at` on by `new` bytes, from now on, if the answer is Added.
    pub fn add(&mut self, at: u32, old: u16, new: u16) -> Added
        requires old { 0 < old }
        requires new { 0 < new }
        ensures answer { result ≡ answer_to self.old.edits (edit_at self.old.base at old new) }
        ensures edits { self.new.edits ≡ edits_after result self.old.edits (edit_at self.old.base at old new) }
        ensures base { self.new.base ≡ self.old.base }
    {
        let edit = Edit {
            offset: self.offset_of(at),
            old_length: old,
            new_length: new,
        };
        if has_edit(self.edits(), &edit) {
            return Added::Again;
        }
        if self.overlaps(&edit) {
            return Added::Overlap;
        }
        if self.count >= MOST_EDITS {
            return Added::Full;
        }
        self.edits[self.count] = edit;
        self.count += 1;
        Added::Added
    }

    /// The sequence number with which a segment leaves. A number strictly inside an edit is taken as that of its first
    /// byte; one whose offset is 2^31 or more stays.
    #[tactic(auto, unfolding(crate::specs::Edit::forward))]
    pub fn forward(&self, seq: u32) -> u32
        ensures { result ≡ forward self.now.base self.now.edits seq }
    {
        let offset = self.offset_of(seq);
        if offset >= FAR {
            return seq;
        }
        self.base
            .wrapping_add(forward_by(self.edits(), u64::from(offset)) as u32)
    }

    /// The acknowledgment number with which a segment of the other way leaves. A number strictly inside a new text is taken
    /// as its first; one whose offset is 2^31 or more stays.
    #[tactic(auto, unfolding(crate::specs::Edit::back))]
    pub fn back(&self, ack: u32) -> u32
        ensures { result ≡ back self.now.base self.now.edits ack }
    {
        let offset = self.offset_of(ack);
        if offset >= FAR {
            return ack;
        }
        self.base
            .wrapping_add(back_by(self.edits(), u64::from(offset)) as u32)
    }
}
