//! One connection: the edits of its two directions.

ghost use Rattle.std.specs.Prelude.{◌≡◌, ◌<◌, ◌≤◌, IfOk, IfSome, OnOk, length};
ghost use Rattle.ftp_helper.specs.Span.{IsShortSpan};
ghost use Rattle.ftp_rewrite.specs.Edit.{answer_to, edit_at};
ghost use Rattle.ftp_rewrite.specs.Internal.Seen.{sent_of};
ghost use Rattle.ftp_rewrite.specs.Line.{seen, seen_text};
ghost use Rattle.ftp_rewrite.specs.Session.{begun, dealt, dealt_new, edited, has_edits, leaving, met, seq_at, way};

use crate::adjust::{Added, Adjust};
use crate::asked::Ask;
use crate::new_end::replaced;
use crate::page::Page;
use crate::rewrite::{NewText, Rewrite};
use crate::sent::SegmentView;
use history_book::event::Numbered;
use std::alloc::Global;
use tuple_core::{Direction, NoMemory};

/// The edits of a connection's two directions.
#[derive(Drop)]
pub struct Session {
    original: Adjust,
    /// Before the first segment of its direction it has no edits, and its base says nothing.
    reply: Adjust,
    /// Whether there was a segment of the reply direction.
    answered: bool,
}

/// The number of the byte at this place of a segment's data.
#[tactic(auto, using(crate::proofs::Modulo::seq_of_place))]
fn seq_at(seq: u32, place: usize) -> u32
    ensures { result ≡ seq_at seq place }
{
    seq.wrapping_add((place % 0x1_0000_0000) as u32)
}

impl Session {
    /// The session of a connection whose first segment has this number.
    pub fn begin(seq: u32) -> Session
        ensures { result ≡ begun seq }
    {
        Session {
            original: Adjust::new(seq),
            reply: Adjust::new(0),
            answered: false,
        }
    }

    /// A segment in this direction came, with this number.
    pub fn meet(&mut self, direction: Direction, seq: u32)
        ensures { self.new ≡ met direction seq self.old }
    {
        match direction {
            Direction::Original => {}
            Direction::Reply => {
                if !self.answered {
                    self.reply = Adjust::new(seq);
                    self.answered = true;
                }
            }
        }
    }

    /// The edits of a direction.
    fn way(&self, direction: Direction) -> &Adjust
        ensures { result.now ≡ way direction self.now }
    {
        match direction {
            Direction::Original => &self.original,
            Direction::Reply => &self.reply,
        }
    }

    /// Whether there is an edit.
    pub fn has_edits(&self) -> bool
        ensures { result ≡ has_edits self.now }
    {
        !(self.original.is_empty() && self.reply.is_empty())
    }

    /// Adds an edit to those of a direction, if there is none of its place, and room.
    fn edit(&mut self, direction: Direction, at: u32, old: u16, new: u16) -> Added
        requires old { 0 < old }
        requires new { 0 < new }
        ensures answer { result ≡ answer_to (way direction self.old).edits (edit_at (way direction self.old).base at old new) }
        ensures session { self.new ≡ edited direction result (edit_at (way direction self.old).base at old new) self.old }
    {
        match direction {
            Direction::Original => self.original.add(at, old, new),
            Direction::Reply => self.reply.add(at, old, new),
        }
    }

    /// The payload with which a segment leaves that asks for an edit, with this new text.
    fn replace(
        &mut self,
        alloc: Global,
        direction: Direction,
        sent: &SegmentView,
        ask: &Ask,
        new: &[u8],
    ) -> Result<NewText, NoMemory>
        requires short { IsShortSpan sent.now.payload.now ask.now.span }
        requires some { 0 < length new.now }
        requires few { length new.now ≤ 32 }
        ensures text { IfOk result (λ text. seen_text text ≡ (dealt_new self.old direction (sent_of sent.now) ask.now new.now).text) }
        ensures session { OnOk result (self.new ≡ (dealt_new self.old direction (sent_of sent.now) ask.now new.now).session) }
    {
        let at = seq_at(sent.numbers.seq, ask.span.start);
        let old = (ask.span.end - ask.span.start) as u16;
        match self.edit(direction, at, old, new.len() as u16) {
            Added::Added => {
                let bytes = replaced(alloc, sent.payload, &ask.span, new)?;
                Ok(NewText::Changed(bytes))
            }
            Added::Again => {
                let bytes = replaced(alloc, sent.payload, &ask.span, new)?;
                Ok(NewText::Changed(bytes))
            }
            Added::Overlap => Ok(NewText::Kept),
            Added::Full => Ok(NewText::Kept),
        }
    }

    /// The payload with which a segment leaves that asks for this.
    #[tactic(auto, using(crate::proofs::NewEnds::new_end_some), unfolding(crate::specs::Session::dealt))]
    pub fn deal(
        &mut self,
        alloc: Global,
        direction: Direction,
        sent: &SegmentView,
        ask: Option<Ask>,
    ) -> Result<NewText, NoMemory>
        requires { IfSome ask (λ a. IsShortSpan sent.now.payload.now a.span) }
        ensures text { IfOk result (λ text. seen_text text ≡ (dealt self.old direction (sent_of sent.now) ask).text) }
        ensures session { OnOk result (self.new ≡ (dealt self.old direction (sent_of sent.now) ask).session) }
    {
        let Some(ask) = ask else {
            return Ok(NewText::Same);
        };
        let mut buffer = [0u8; 32];
        let mut page = Page::new(&mut buffer);
        page.new_end(sent.payload, &ask.want);
        self.replace(alloc, direction, sent, &ask, page.held())
    }

    /// How a segment leaves that made this event of an entry, with this payload.
    pub fn leaving(
        &self,
        item: &Numbered,
        id: u64,
        direction: Direction,
        sent: &SegmentView,
        text: NewText,
    ) -> Rewrite
        ensures { seen result ≡ leaving item.now id direction self.now (sent_of sent.now) (seen_text text) }
    {
        let other = match direction {
            Direction::Original => Direction::Reply,
            Direction::Reply => Direction::Original,
        };
        Rewrite {
            thread: item.thread,
            packet: item.index,
            id,
            direction,
            seq: sent.numbers.seq,
            new_seq: self.way(direction).forward(sent.numbers.seq),
            ack: sent.numbers.ack,
            new_ack: self.way(other).back(sent.numbers.ack),
            text,
        }
    }
}
