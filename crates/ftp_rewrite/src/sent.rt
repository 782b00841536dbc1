//! The segment that made an event, and what came of its data.

ghost use Rattle.std.specs.Prelude.{◌≡◌, ◌+◌, ◌≤◌, All, length, map, slice_get};
ghost use Rattle.packet_headers.specs.ClassifySound.{HasPayloadIn};
ghost use Rattle.packet_headers.specs.Span.{IsSpanIn};
ghost use Rattle.ftp_rewrite.specs.Internal.Seen.{Gives, sent_among, sent_of};
ghost use Rattle.ftp_rewrite.specs.Sent.{LiesInIts, bytes_in, data_in, ftp_by, passed_by, recorded, sent_by, sent_in};

use history_book::event::Numbered;
use history_book::report::{ThreadVerdicts, Verdicts};
use history_book::verdict::{Class, Ftp, Verdict};
use packet_headers::classify::classify;
use packet_headers::frame::{Captures, Frame, Span};
use packet_headers::packet::Packet;
use packet_headers::tcp_numbers::{TcpNumbers, tcp_numbers};
use room_list::RoomList;

/// A segment of TCP: its numbers, and its data as far as it was captured.
#[derive(Clone, Copy)]
pub struct SegmentView<'p> {
    pub numbers: TcpNumbers,
    pub payload: &'p [u8],
}

/// The bytes of a file in a span.
fn bytes_in(bytes: &[u8], span: Span) -> &[u8]
    requires { IsSpanIn bytes.now span }
    ensures { result.now ≡ bytes_in bytes.now span }
{
    let (front, _) = bytes.split_at(span.end);
    let (_, inside) = front.split_at(span.start);
    inside
}

/// The data of a packet of a flow.
fn data_in<'p>(bytes: &'p [u8], packet: &Packet) -> &'p [u8]
    requires { HasPayloadIn bytes.now packet.now }
    ensures { result.now ≡ data_in bytes.now packet.now }
{
    match packet {
        Packet::Flow { payload, .. } => bytes_in(bytes, *payload),
        Packet::Untracked(_) => &[],
        Packet::Invalid => &[],
        Packet::Error { .. } => &[],
    }
}

/// The segment that a frame is, if it is one.
#[tactic(auto, unfolding(crate::specs::Sent::sent_in))]
fn sent_in<'p>(bytes: &'p [u8], frame: &Frame) -> Option<SegmentView<'p>>
    requires { frame.now.start + frame.now.captured ≤ length bytes.now }
    ensures { Gives sent_of result (sent_in bytes.now frame.now) }
{
    let numbers = tcp_numbers(bytes, frame)?;
    let packet = classify(bytes, frame);
    let payload = data_in(bytes, &packet);
    Some(SegmentView { numbers, payload })
}

/// The item of a list at an index, if there is one.
#[tactic(auto, using(std::proofs::lemmas::Option::slice_get_past))]
fn item_at<T>(list: &RoomList<T>, index: usize) -> Option<&T>
    ensures { Gives (λ item. item.now) result (slice_get list.now.items index) }
{
    if index < list.len() {
        Some(list.at(index))
    } else {
        None
    }
}

/// The segment that made an event, if it was made by one.
#[tactic(auto, using(crate::proofs::Inside::frame_inside), unfolding(crate::specs::Internal::Seen::sent_among))]
fn sent_among<'p>(captures: &'p Captures, item: &Numbered) -> Option<SegmentView<'p>>
    requires { All LiesInIts captures.now.items }
    ensures { Gives sent_of result (sent_among captures.now.items item.now) }
{
    let capture = item_at(captures, item.thread as usize)?;
    let frame = item_at(&capture.frames, item.index as usize)?;
    sent_in(capture.bytes.as_slice(), frame)
}

/// The same, of the captures as they are told of.
#[tactic(auto, using(crate::proofs::Inside::gives_same))]
pub fn sent_by<'p>(captures: &'p Captures, item: &Numbered) -> Option<SegmentView<'p>>
    requires { All LiesInIts captures.now.items }
    ensures { Gives sent_of result (sent_by (map recorded captures.now.items) item.now) }
{
    sent_among(captures, item)
}

/// What came of the data of a packet of this class, if an entry let it pass by the event of this number.
fn passed_by(class: &Class, id: u64, number: u64) -> Option<Ftp>
    ensures { result ≡ passed_by class.now id number }
{
    match *class {
        Class::Passed {
            id: own,
            at,
            ftp,
            ..
        } => {
            if own == id && at > number && at - number == 1 {
                Some(ftp)
            } else {
                None
            }
        }
        _ => None,
    }
}

/// The verdict on the packet of this index, if there is one.
#[tactic(auto, using(std::proofs::lemmas::Option::slice_get_past))]
fn verdict_on(verdicts: &Verdicts, index: usize) -> Option<Verdict>
    ensures { result ≡ slice_get verdicts.now.items index }
{
    if index < verdicts.len() {
        Some(verdicts.at(index))
    } else {
        None
    }
}

/// What came of the data of the packet that made this event of an entry.
#[tactic(auto, unfolding(crate::specs::Sent::ftp_by))]
pub fn ftp_by(threads: &ThreadVerdicts, item: &Numbered, id: u64) -> Option<Ftp>
    ensures { result ≡ ftp_by threads.now.items item.now id }
{
    let verdicts = item_at(threads, item.thread as usize)?;
    let verdict = verdict_on(verdicts, item.index as usize)?;
    passed_by(&verdict.class, id, item.number)
}
