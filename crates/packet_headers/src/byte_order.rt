//! Numbers in bytes, by the order of the bytes.

ghost use Rattle.std.specs.Prelude.{◌≡◌, ◌+◌, ◌≤◌, length};
ghost use Rattle.packet_headers.specs.ByteOrder.{big_u16_at, big_u32_at, u16_at, u32_at};

use byteorder::{BigEndian, ByteOrder, LittleEndian};

/// The order of the bytes of a number.
#[derive(Clone, Copy)]
pub enum Endian {
    /// The lowest first.
    Little,
    /// The highest first.
    Big,
}

/// The number in the two bytes at `at`, the highest first (RFC 791, appendix B).
#[inline(always)]
pub fn big_u16_at(bytes: &[u8], at: usize) -> u16
    requires { at + 2 ≤ length bytes.now }
    ensures { result ≡ big_u16_at bytes.now at }
{
    let (_, rest) = bytes.split_at(at);
    BigEndian::read_u16(rest)
}

/// The number in the four bytes at `at`, the highest first.
#[inline(always)]
pub fn big_u32_at(bytes: &[u8], at: usize) -> u32
    requires { at + 4 ≤ length bytes.now }
    ensures { result ≡ big_u32_at bytes.now at }
{
    let (_, rest) = bytes.split_at(at);
    BigEndian::read_u32(rest)
}

/// The number in the two bytes at `at`, in an order.
#[inline(always)]
pub fn u16_at(order: Endian, bytes: &[u8], at: usize) -> u16
    requires { at + 2 ≤ length bytes.now }
    ensures { result ≡ u16_at order bytes.now at }
{
    match order {
        Endian::Little => {
            let (_, rest) = bytes.split_at(at);
            LittleEndian::read_u16(rest)
        }
        Endian::Big => big_u16_at(bytes, at),
    }
}

/// The number in the four bytes at `at`, in an order.
#[inline(always)]
pub fn u32_at(order: Endian, bytes: &[u8], at: usize) -> u32
    requires { at + 4 ≤ length bytes.now }
    ensures { result ≡ u32_at order bytes.now at }
{
    match order {
        Endian::Little => {
            let (_, rest) = bytes.split_at(at);
            LittleEndian::read_u32(rest)
        }
        Endian::Big => big_u32_at(bytes, at),
    }
}
