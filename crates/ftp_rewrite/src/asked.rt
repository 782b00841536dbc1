//! What a packet asks for.

ghost use Rattle.std.specs.Prelude.{◌≡◌, IfSome, slice_get};
ghost use Rattle.ftp_helper.specs.Span.{IsShortSpan};
ghost use Rattle.ftp_rewrite.specs.NewEnd.{asked_by, expected_ask, want_by};

use expect_table::expectation::Want;
use ftp_helper::{EndSpan, end_span, named_end};
use history_book::event::{Event, Numbered};
use history_book::report::History;
use history_book::verdict::Ftp;
use tuple_core::Direction;

/// An edit of these bytes of a payload, so that they name the wanted end.
#[derive(Clone, Copy)]
pub struct Ask {
    pub want: Want,
    pub span: EndSpan,
}

/// The event of this number, if there is one.
#[tactic(auto, using(std::proofs::lemmas::Option::slice_get_past))]
fn event_at(history: &History, id: u64) -> Option<Numbered>
    ensures { result ≡ slice_get history.now.items id }
{
    let index = id as usize;
    if index < history.len() {
        Some(history.at(index))
    } else {
        None
    }
}

/// The connection that the event of this number expects.
#[tactic(auto, unfolding(crate::specs::NewEnd::want_by))]
fn want_by(history: &History, id: u64) -> Option<Want>
    ensures { result ≡ want_by history.now.items id }
{
    let item = event_at(history, id)?;
    match item.event {
        Event::Expect { expectation, .. } => Some(expectation.want),
        _ => None,
    }
}

/// What a packet asks for whose connection was expected by the event of this number.
#[tactic(auto, unfolding(crate::specs::NewEnd::expected_ask))]
fn expected_ask(history: &History, direction: Direction, payload: &[u8], id: u64) -> Option<Ask>
    ensures exact { result ≡ expected_ask history.now.items direction payload.now id }
    ensures short { IfSome result (λ ask. IsShortSpan payload.now ask.span) }
{
    let end = named_end(direction, payload)?;
    let address = end.address?;
    let want = want_by(history, id)?;
    let span = end_span(direction, payload)?;
    if address == want.dst {
        None
    } else {
        Some(Ask { want, span })
    }
}

/// What a packet asks for, by what came of its payload.
pub fn asked_by(history: &History, direction: Direction, payload: &[u8], ftp: Ftp) -> Option<Ask>
    ensures exact { result ≡ asked_by history.now.items direction payload.now ftp }
    ensures short { IfSome result (λ ask. IsShortSpan payload.now ask.span) }
{
    match ftp {
        Ftp::Expected { id } => expected_ask(history, direction, payload, id),
        Ftp::Nothing | Ftp::Address | Ftp::Clash { .. } | Ftp::Full { .. } | Ftp::Gone { .. } =>
            None,
    }
}
