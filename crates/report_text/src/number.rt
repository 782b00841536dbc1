//! Numbers in plain decimal, written where their text is to stand.

ghost use Rattle.std.specs.Fmt.{decimal};
ghost use Rattle.std.specs.Prelude.{◌≡◌, ◌+◌, ◌<◌, ◌≤◌, ◌^◌, ◌++◌, codes, length, take};
ghost use Rattle.report_text.specs.Internal.Digits.{eight_digits, four_digits, two_digits};

use itoa::{Buffer, Integer};

/// A number that is written straight into a buffer.
pub trait Number: Integer {
    /// Writes the number's text at `at`, and answers where it ends.
    fn put(self, buffer: &mut [u8], at: usize) -> usize
        requires { at + Self.MAX_STR_LEN ≤ length buffer.old }
        ensures text { take result buffer.new ≡ take at buffer.old ++ Self.text self }
        ensures end { result ≡ at + length (Self.text self) }
        ensures short { length (Self.text self) ≤ Self.MAX_STR_LEN };
}

/// The digits of the numbers below 100, two of each.
static PAIRS: [u8; 200] =
    *b"00010203040506070809101112131415161718192021222324252627282930313233343536373839404142434445464748495051525354555657585960616263646566676869707172737475767778798081828384858687888990919293949596979899";

/// Writes both digits of a number below 100 at `at`.
#[inline(always)]
fn put_pair(number: u64, buffer: &mut [u8], at: usize)
    requires pair { number < 100 }
    requires room { at + 2 ≤ length buffer.old }
    ensures { take (at + 2) buffer.new ≡ take at buffer.old ++ two_digits number }
{
    let from = number as usize * 2;
    let (tens, ones) = (PAIRS[from], PAIRS[from + 1]);
    buffer[at] = tens;
    buffer[at + 1] = ones;
}

/// Writes a number below 10,000 at `at` in four digits, zeros in front of it included.
#[inline(always)]
fn put_four(number: u64, buffer: &mut [u8], at: usize)
    requires four { number < 10 ^ 4 }
    requires room { at + 4 ≤ length buffer.old }
    ensures { take (at + 4) buffer.new ≡ take at buffer.old ++ four_digits number }
{
    put_pair(number / 100, buffer, at);
    put_pair(number % 100, buffer, at + 2);
}

/// Writes a number below 100,000,000 at `at` in eight digits, zeros in front of it included.
#[inline(always)]
fn put_eight(number: u64, buffer: &mut [u8], at: usize)
    requires eight { number < 10 ^ 8 }
    requires room { at + 8 ≤ length buffer.old }
    ensures { take (at + 8) buffer.new ≡ take at buffer.old ++ eight_digits number }
{
    put_four(number / 10_000, buffer, at);
    put_four(number % 10_000, buffer, at + 4);
}

/// Writes a number below 100 at `at`, and answers where it ends.
#[inline(always)]
fn put_first(number: u64, buffer: &mut [u8], at: usize) -> usize
    requires small { number < 100 }
    requires room { at + length (decimal number) ≤ length buffer.old }
    ensures text { take result buffer.new ≡ take at buffer.old ++ decimal number }
    ensures end { result ≡ at + length (decimal number) }
{
    if number < 10 {
        buffer[at] = b'0' + number as u8;
        return at + 1;
    }
    put_pair(number, buffer, at);
    at + 2
}

/// Writes a number below 10,000 at `at`, and answers where it ends.
#[inline(always)]
fn put_short(number: u64, buffer: &mut [u8], at: usize) -> usize
    requires small { number < 10 ^ 4 }
    requires room { at + length (decimal number) ≤ length buffer.old }
    ensures text { take result buffer.new ≡ take at buffer.old ++ decimal number }
    ensures end { result ≡ at + length (decimal number) }
{
    if number < 100 {
        return put_first(number, buffer, at);
    }
    let end = put_first(number / 100, buffer, at);
    put_pair(number % 100, buffer, end);
    end + 2
}

/// Writes a number below 100,000,000 at `at`, and answers where it ends.
#[inline(always)]
fn put_middle(number: u64, buffer: &mut [u8], at: usize) -> usize
    requires small { number < 10 ^ 8 }
    requires room { at + length (decimal number) ≤ length buffer.old }
    ensures text { take result buffer.new ≡ take at buffer.old ++ decimal number }
    ensures end { result ≡ at + length (decimal number) }
{
    if number < 10_000 {
        return put_short(number, buffer, at);
    }
    let end = put_short(number / 10_000, buffer, at);
    put_four(number % 10_000, buffer, end);
    end + 4
}

/// Writes a number below 10^12 at `at`, and answers where it ends. It is what stands before the last eight digits of another.
fn put_upper(upper: u64, buffer: &mut [u8], at: usize) -> usize
    requires below { upper < 10 ^ 12 }
    requires room { at + length (decimal upper) ≤ length buffer.old }
    ensures text { take result buffer.new ≡ take at buffer.old ++ decimal upper }
    ensures end { result ≡ at + length (decimal upper) }
{
    if upper < 100_000_000 {
        return put_middle(upper, buffer, at);
    }
    let end = put_short(upper / 100_000_000, buffer, at);
    put_eight(upper % 100_000_000, buffer, end);
    end + 8
}

/// Writes a number at `at`, and answers where it ends.
fn put_digits(number: u64, buffer: &mut [u8], at: usize) -> usize
    requires { at + length (decimal number) ≤ length buffer.old }
    ensures text { take result buffer.new ≡ take at buffer.old ++ decimal number }
    ensures end { result ≡ at + length (decimal number) }
{
    if number < 100_000_000 {
        return put_middle(number, buffer, at);
    }
    let end = put_upper(number / 100_000_000, buffer, at);
    put_eight(number % 100_000_000, buffer, end);
    end + 8
}

/// Each byte in plain decimal with a dot behind it, in four bytes, of which the last ones are not read where there are fewer.
static OCTETS: [u8; 1024] =
    *b"0...1...2...3...4...5...6...7...8...9...10..11..12..13..14..15..16..17..18..19..20..21..22..23..24..25..26..27..28..29..30..31..32..33..34..35..36..37..38..39..40..41..42..43..44..45..46..47..48..49..50..51..52..53..54..55..56..57..58..59..60..61..62..63..64..65..66..67..68..69..70..71..72..73..74..75..76..77..78..79..80..81..82..83..84..85..86..87..88..89..90..91..92..93..94..95..96..97..98..99..100.101.102.103.104.105.106.107.108.109.110.111.112.113.114.115.116.117.118.119.120.121.122.123.124.125.126.127.128.129.130.131.132.133.134.135.136.137.138.139.140.141.142.143.144.145.146.147.148.149.150.151.152.153.154.155.156.157.158.159.160.161.162.163.164.165.166.167.168.169.170.171.172.173.174.175.176.177.178.179.180.181.182.183.184.185.186.187.188.189.190.191.192.193.194.195.196.197.198.199.200.201.202.203.204.205.206.207.208.209.210.211.212.213.214.215.216.217.218.219.220.221.222.223.224.225.226.227.228.229.230.231.232.233.234.235.236.237.238.239.240.241.242.243.244.245.246.247.248.249.250.251.252.253.254.255.";

/// Writes a byte and a dot at `at`, and answers where they end.
#[inline(always)]
pub(crate) fn put_octet(byte: u8, buffer: &mut [u8], at: usize) -> usize
    requires { at + 4 ≤ length buffer.old }
    ensures text { take result buffer.new ≡ take at buffer.old ++ (decimal byte ++ codes ".") }
    ensures short { result ≤ at + 4 }
{
    let from = byte as usize * 4;
    let (first, second) = (OCTETS[from], OCTETS[from + 1]);
    let (third, fourth) = (OCTETS[from + 2], OCTETS[from + 3]);
    buffer[at] = first;
    buffer[at + 1] = second;
    buffer[at + 2] = third;
    buffer[at + 3] = fourth;
    at + 2 + usize::from(byte >= 10) + usize::from(byte >= 100)
}

impl Number for u8 {
    #[inline(always)]
    fn put(self, buffer: &mut [u8], at: usize) -> usize {
        put_short(self as u64, buffer, at)
    }
}

impl Number for u16 {
    #[inline(always)]
    fn put(self, buffer: &mut [u8], at: usize) -> usize {
        put_middle(self as u64, buffer, at)
    }
}

impl Number for u32 {
    #[inline(always)]
    fn put(self, buffer: &mut [u8], at: usize) -> usize {
        put_digits(self as u64, buffer, at)
    }
}

impl Number for u64 {
    #[inline(always)]
    fn put(self, buffer: &mut [u8], at: usize) -> usize {
        put_digits(self, buffer, at)
    }
}

impl Number for usize {
    #[inline(always)]
    fn put(self, buffer: &mut [u8], at: usize) -> usize {
        put_digits(self as u64, buffer, at)
    }
}

impl Number for u128 {
    fn put(self, buffer: &mut [u8], at: usize) -> usize {
        let mut digits = Buffer::new();
        let text = digits.format(self).as_bytes();
        let end = at + text.len();
        buffer[at..end].copy_from_slice(text);
        end
    }
}
