//! Numbers in decimal digits, ports and addresses.

ghost use Rattle.std.specs.Prelude.{◌≡◌, ◌≤◌, IfSome};
ghost use Rattle.file_text.specs.Text.{address_of, address_of_octets, decimal_of, number_in, octet_of, port_of};

use crate::halves::split_once;

/// The number that the text writes with at most `most` digits.
fn digits(text: &[u8], most: usize) -> Option<u64>
    requires { most ≤ 17 }
    ensures { result ≡ decimal_of most text.now }
{
    if text.is_empty() || text.len() > most {
        return None;
    }
    let mut value = 0u64;
    'digits: for digit in text {
        if !digit.is_ascii_digit() {
            return None;
        }
        value = value * 10 + u64::from(*digit - b'0');
    }
    Some(value)
}

/// The number from `low` to `high` that the text writes with at most `most` digits.
pub fn number(text: &[u8], most: usize, low: u64, high: u64) -> Option<u64>
    requires { most ≤ 17 }
    ensures exact { result ≡ number_in most low high text.now }
    ensures high { IfSome result (λ n. n ≤ high) }
{
    match digits(text, most) {
        Some(value) if low <= value && value <= high => Some(value),
        _ => None,
    }
}

/// A port: a number from `least` to 65535.
#[tactic(auto, unfolding(crate::specs::Text::port_of))]
pub fn read_port(text: &[u8], least: u16) -> Option<u16>
    ensures { result ≡ port_of least text.now }
{
    match number(text, 5, u64::from(least), 65_535) {
        Some(port) => Some(port as u16),
        None => None,
    }
}

/// A byte of an address: a number from 0 to 255 without needless leading zeros.
#[tactic(auto, unfolding(crate::specs::Text::octet_of))]
fn read_octet(text: &[u8]) -> Option<u32>
    ensures exact { result ≡ octet_of text.now }
    ensures high { IfSome result (λ n. n ≤ 255) }
{
    if text.len() > 1 && text[0] == b'0' {
        return None;
    }
    match number(text, 3, 0, 255) {
        Some(octet) => Some(octet as u32),
        None => None,
    }
}

/// The address whose bytes are these texts.
fn address_of_octets(a: &[u8], b: &[u8], c: &[u8], d: &[u8]) -> Option<u32>
    ensures { result ≡ address_of_octets (octet_of a.now) (octet_of b.now) (octet_of c.now) (octet_of d.now) }
{
    let a = read_octet(a)?;
    let b = read_octet(b)?;
    let c = read_octet(c)?;
    let d = read_octet(d)?;
    Some(a * 16_777_216 + b * 65_536 + c * 256 + d)
}

/// An address: four bytes between dots.
#[tactic(auto, using(crate::proofs::Parts::too_many), unfolding(crate::specs::Text::address_of))]
pub fn read_address(text: &[u8]) -> Option<u32>
    ensures { result ≡ address_of text.now }
{
    let (a, rest) = split_once(text, b'.')?;
    let (b, rest) = split_once(rest, b'.')?;
    let (c, rest) = split_once(rest, b'.')?;
    match split_once(rest, b'.') {
        Some(_) => None,
        None => address_of_octets(a, b, c, rest),
    }
}
