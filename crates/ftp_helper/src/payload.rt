//! Payloads of FTP's control connection: the commands PORT and EPRT of the client, and the replies 227 and 229
//! of the server.

ghost use Rattle.std.specs.Prelude.{◌≡◌, ◌<◌, length, position, IfNone, IfSome};
ghost use Rattle.ftp_helper.specs.Payload.{NamesEnd};
ghost use Rattle.ftp_helper.specs.Internal.Reading.{ends_before_numbers, ends_before_parenthesis, eprt_command_at, extended_passive_reply_at, Gives, host_port_at, is_at_line_end, naming_at, passive_reply_at, port_command_at, span_between};
ghost use Rattle.ftp_helper.specs.Named.{named_of, naming_in, span_of};
ghost use Rattle.ftp_helper.specs.Span.{IsShortSpan, SpansEnd};

use crate::text::{after, after_command, host, port, port_pair};
use tuple_core::Direction;

/// An end of a data connection, as a payload names it, in host order. Without an address it is at the
/// server's own one (RFC 2428, section 3).
#[derive(Clone, Copy)]
pub struct NamedEnd {
    pub address: Option<u32>,
    pub port: u16,
}

/// Bytes of a payload from `start` up to `end`, which is not among them.
#[derive(Clone, Copy)]
pub struct EndSpan {
    pub start: usize,
    pub end: usize,
}

/// An end, and the bytes of the payload that name it.
#[derive(Clone, Copy)]
struct FoundEnd {
    end: NamedEnd,
    span: EndSpan,
}

/// The bytes of a payload between two places. What is left of it at the first is `text`, and at the second `rest`.
fn span_between(payload: &[u8], text: &[u8], rest: &[u8]) -> EndSpan
    ensures { result ≡ span_between payload.now text.now rest.now }
{
    EndSpan {
        start: payload.len().saturating_sub(text.len()),
        end: payload.len().saturating_sub(rest.len()),
    }
}

/// An address and a port, as six numbers with commas between them.
#[tactic(auto, unfolding(crate::specs::Internal::Reading::host_port_at))]
fn host_port(text: &[u8]) -> Option<(NamedEnd, &[u8])>
    ensures { Gives (λ x. (x.0, x.1.now)) result (host_port_at text.now) }
{
    let (address, text) = host(text, b',')?;
    let text = after(text, b",")?;
    let (port, text) = port_pair(text)?;
    let end = NamedEnd {
        address: Some(address),
        port,
    };
    Some((end, text))
}

/// Whether a line ends here.
fn is_at_line_end(text: &[u8]) -> bool
    ensures { result ≡ is_at_line_end text.now }
{
    matches!(text, [b'\r' | b'\n', ..])
}

/// The end that the command PORT names (RFC 959, section 4.1.2).
#[tactic(auto, unfolding(crate::specs::Internal::Reading::port_command_at))]
fn port_command(payload: &[u8]) -> Option<FoundEnd>
    ensures { result ≡ port_command_at payload.now }
{
    let text = after_command(payload, b"PORT ")?;
    let (end, rest) = host_port(text)?;
    let span = span_between(payload, text, rest);
    if is_at_line_end(rest) {
        Some(FoundEnd { end, span })
    } else {
        None
    }
}

/// The end that the command EPRT names, of IPv4 (RFC 2428, section 2).
#[tactic(auto, unfolding(crate::specs::Internal::Reading::eprt_command_at))]
fn eprt_command(payload: &[u8]) -> Option<FoundEnd>
    ensures { result ≡ eprt_command_at payload.now }
{
    let text = after_command(payload, b"EPRT |1|")?;
    let (address, behind_host) = host(text, b'.')?;
    let behind_bar = after(behind_host, b"|")?;
    let (port, rest) = port(behind_bar)?;
    let behind_port = after(rest, b"|")?;
    let end = NamedEnd {
        address: Some(address),
        port,
    };
    let span = span_between(payload, text, rest);
    if is_at_line_end(behind_port) {
        Some(FoundEnd { end, span })
    } else {
        None
    }
}

/// The first place where the numbers of a 227 can begin, or where its line ends.
fn numbers_place(text: &[u8]) -> Option<usize>
    ensures exact { result ≡ position ends_before_numbers text.now }
    ensures inside { IfSome result (λ at. at < length text.now) }
{
    text.iter().position(|byte| byte.is_ascii_digit() || *byte == b'\r' || *byte == b'\n')
}

/// The first place with an opening parenthesis, or where the line ends.
fn parenthesis_place(text: &[u8]) -> Option<usize>
    ensures exact { result ≡ position ends_before_parenthesis text.now }
    ensures inside { IfSome result (λ at. at < length text.now) }
{
    text.iter()
        .position(|byte| *byte == b'(' || *byte == b'\r' || *byte == b'\n')
}

/// The end that the reply 227 names (RFC 959, section 4.1.2). Its last number ends before a byte that is
/// no digit.
#[tactic(auto, unfolding(crate::specs::Internal::Reading::passive_reply_at))]
fn passive_reply(payload: &[u8]) -> Option<FoundEnd>
    ensures { result ≡ passive_reply_at payload.now }
{
    let text = after(payload, b"227 ")?;
    let place = numbers_place(text)?;
    let numbers = text.split_at(place).1;
    let (end, rest) = host_port(numbers)?;
    let span = span_between(payload, numbers, rest);
    Some(FoundEnd { end, span })
}

/// The end that the reply 229 names, by its port alone (RFC 2428, section 3).
#[tactic(auto, unfolding(crate::specs::Internal::Reading::extended_passive_reply_at))]
fn extended_passive_reply(payload: &[u8]) -> Option<FoundEnd>
    ensures { result ≡ extended_passive_reply_at payload.now }
{
    let text = after(payload, b"229 ")?;
    let place = parenthesis_place(text)?;
    let opened = after(text.split_at(place).1, b"(|||")?;
    let (port, rest) = port(opened)?;
    after(rest, b"|)")?;
    let end = NamedEnd {
        address: None,
        port,
    };
    let span = span_between(payload, opened, rest);
    Some(FoundEnd { end, span })
}

/// What a payload in this direction names, be it port 0.
#[tactic(auto, unfolding(crate::specs::Internal::Reading::naming_at))]
fn naming(direction: Direction, payload: &[u8]) -> Option<FoundEnd>
    ensures { result ≡ naming_at direction payload.now }
{
    match direction {
        Direction::Original => port_command(payload).or_else(|| eprt_command(payload)),
        Direction::Reply => passive_reply(payload).or_else(|| extended_passive_reply(payload)),
    }
}

/// What a payload in this direction names. A port of 0 names nothing.
#[tactic(auto, unfolding(crate::specs::Named::naming_in))]
fn naming_in(direction: Direction, payload: &[u8]) -> Option<FoundEnd>
    ensures { result ≡ naming_in direction payload.now }
{
    let naming = naming(direction, payload)?;
    if naming.end.port > 0 {
        Some(naming)
    } else {
        None
    }
}

/// The end of a data connection that a payload of the control connection names, or none. In the original
/// direction the client names its own end by PORT (RFC 959, section 4.1.2) or by EPRT with an address of IPv4
/// (RFC 2428, section 2). In the reply direction the server names its own by a reply 227 (RFC 959) or 229
/// (RFC 2428, section 3). The payload must begin with the form; what stands behind it is not read.
#[tactic(auto, using(crate::proofs::Naming::nothing_named))]
pub fn named_end(direction: Direction, payload: &[u8]) -> Option<NamedEnd>
    ensures exact { result ≡ named_of direction payload.now }
    ensures named { IfSome result (NamesEnd direction payload.now) }
    ensures nothing { IfNone result ((end : NamedEnd) → NamesEnd direction payload.now end → ⊥) }
{
    match naming_in(direction, payload) {
        Some(naming) => Some(naming.end),
        None => None,
    }
}

/// The bytes of a payload that name the end of a data connection, or none where `named_end` gives none: the six
/// numbers of a PORT or a 227, the address, the bar and the port of an EPRT, the port of a 229.
#[tactic(auto, using(crate::proofs::Naming::spans, crate::proofs::Naming::nothing_named))]
pub fn end_span(direction: Direction, payload: &[u8]) -> Option<EndSpan>
    ensures exact { result ≡ span_of direction payload.now }
    ensures spans { IfSome result (SpansEnd direction payload.now) }
    ensures nothing { IfNone result ((end : NamedEnd) → NamesEnd direction payload.now end → ⊥) }
    ensures short { IfSome result (IsShortSpan payload.now) }
{
    match naming_in(direction, payload) {
        Some(naming) => Some(naming.span),
        None => None,
    }
}
