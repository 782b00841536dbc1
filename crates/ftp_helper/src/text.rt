//! Pieces of a payload, read from its front: each gives what it read and what stands behind it.

ghost use Rattle.std.specs.Prelude.{◌≡◌, ◌+◌, ◌∷◌, ◌<◌, ◌≤◌, [], length, position, IfSome};
ghost use Rattle.ftp_helper.specs.Internal.Reading.{after, after_command, decimal_at, decimal_of, Gives, host_at, is_no_digit, number_before, port_pair_at};

/// What stands behind this front.
#[tactic(auto, unfolding(crate::specs::Internal::Reading::after))]
pub(crate) fn after<'p>(text: &'p [u8], front: &[u8]) -> Option<&'p [u8]>
    ensures { Gives (λ rest. rest.now) result (after front.now text.now) }
{
    text.strip_prefix(front)
}

/// What stands behind this command, whose letters may be of either case.
#[tactic(auto, unfolding(crate::specs::Internal::Reading::after_command))]
pub(crate) fn after_command<'p>(text: &'p [u8], command: &[u8]) -> Option<&'p [u8]>
    ensures { Gives (λ rest. rest.now) result (after_command command.now text.now) }
{
    let (front, rest) = text.split_at_checked(command.len())?;
    if front.eq_ignore_ascii_case(command) {
        Some(rest)
    } else {
        None
    }
}

/// The number that digits write, at most `most` of them, with a value up to `high`.
#[tactic(auto, using(crate::proofs::Digits::small_enough, crate::proofs::Digits::not_all), unfolding(crate::specs::Internal::Reading::decimal_of))]
fn decimal_of(digits: &[u8], most: usize, high: u32) -> Option<u32>
    requires { most ≤ 5 }
    ensures exact { result ≡ decimal_of most high digits.now }
    ensures small { IfSome result (λ n. n ≤ high) }
{
    if digits.is_empty() || digits.len() > most {
        return None;
    }
    let mut value = 0u32;
    'digits: for digit in digits {
        if !digit.is_ascii_digit() {
            return None;
        }
        value = value * 10 + u32::from(*digit - b'0');
    }
    if value <= high { Some(value) } else { None }
}

/// The first place with a byte that is no digit.
fn end_of_digits(text: &[u8]) -> Option<usize>
    ensures exact { result ≡ position is_no_digit text.now }
    ensures inside { IfSome result (λ at. at < length text.now) }
{
    text.iter().position(|byte| !byte.is_ascii_digit())
}

/// The number at the front, of at most `most` digits and with a value up to `high`. It ends before a byte
/// that is no digit.
#[tactic(auto, unfolding(crate::specs::Internal::Reading::decimal_at))]
fn decimal(text: &[u8], most: usize, high: u32) -> Option<(u32, &[u8])>
    requires { most ≤ 5 }
    ensures exact { Gives (λ x. (x.0, x.1.now)) result (decimal_at most high text.now) }
    ensures small { IfSome result (λ x. x.0 ≤ high) }
{
    let end = end_of_digits(text)?;
    let (digits, rest) = text.split_at(end);
    let value = decimal_of(digits, most, high)?;
    Some((value, rest))
}

/// The value of a byte.
fn number(text: &[u8]) -> Option<(u8, &[u8])>
    ensures { Gives (λ x. (x.0, x.1.now)) result (decimal_at 3 255 text.now) }
{
    let (value, rest) = decimal(text, 3, 255)?;
    Some((value as u8, rest))
}

/// A port.
pub(crate) fn port(text: &[u8]) -> Option<(u16, &[u8])>
    ensures { Gives (λ x. (x.0, x.1.now)) result (decimal_at 5 65535 text.now) }
{
    let (value, rest) = decimal(text, 5, 65_535)?;
    Some((value as u16, rest))
}

/// The value of a byte, and this sign behind it.
#[tactic(auto, unfolding(crate::specs::Internal::Reading::number_before))]
fn number_before(text: &[u8], sign: u8) -> Option<(u8, &[u8])>
    ensures { Gives (λ x. (x.0, x.1.now)) result (number_before sign text.now) }
{
    let (value, rest) = number(text)?;
    let rest = after(rest, &[sign])?;
    Some((value, rest))
}

/// The four bytes of an address, with this sign between each two.
#[tactic(auto, unfolding(crate::specs::Internal::Reading::host_at))]
pub(crate) fn host(text: &[u8], between: u8) -> Option<(u32, &[u8])>
    ensures { Gives (λ x. (x.0, x.1.now)) result (host_at between text.now) }
{
    let (h1, text) = number_before(text, between)?;
    let (h2, text) = number_before(text, between)?;
    let (h3, text) = number_before(text, between)?;
    let (h4, text) = number(text)?;
    let address = u32::from(h1) * 16_777_216
        + u32::from(h2) * 65_536
        + u32::from(h3) * 256
        + u32::from(h4);
    Some((address, text))
}

/// The two bytes of a port, with a comma between them.
#[tactic(auto, unfolding(crate::specs::Internal::Reading::port_pair_at))]
pub(crate) fn port_pair(text: &[u8]) -> Option<(u16, &[u8])>
    ensures { Gives (λ x. (x.0, x.1.now)) result (port_pair_at text.now) }
{
    let (p1, text) = number_before(text, b',')?;
    let (p2, text) = number(text)?;
    Some((u16::from(p1) * 256 + u16::from(p2), text))
}
