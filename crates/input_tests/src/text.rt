//! Lines, words, numbers and addresses, typed from the rules.

use file_text::halves::split_once;
use file_text::lines::{first_word, next_line, next_word};
use file_text::numbers::{number, read_address, read_port};
use file_text::options::{has_ports, once, read_proto};
use tuple_core::Proto;

#[test]
fn lines(rt: HostRuntime) {
    // A text, its first line, and what stands behind.
    let cases = [
        ("a b\nc", "a b", "c"),
        ("a\r\n\n", "a\r", "\n"),
        ("\n", "", ""),
        ("a\r", "a\r", ""),
    ];
    for (text, line, behind) in cases {
        let (first, rest) = next_line(text.as_bytes());
        assert!(rt; first == line.as_bytes(), "{text}");
        assert!(rt; rest == behind.as_bytes(), "{text}");
    }
}

#[test]
fn words(rt: HostRuntime) {
    // A line, its first word, and what stands behind.
    let cases = [
        (" \ta b", "a", "b"),
        ("a\t b\r", "a", " b"),
        ("a\r\r", "a\r", ""),
        ("a#", "a#", ""),
        ("a\x0bb c", "a\x0bb", "c"),
        ("-L #", "-L", "#"),
    ];
    for (line, word, behind) in cases {
        match first_word(line.as_bytes()) {
            Some((first, rest)) => {
                assert!(rt; first == word.as_bytes(), "{line}");
                assert!(rt; rest == behind.as_bytes(), "{line}");
            }
            None => assert!(rt; false, "{line}"),
        }
    }
    for line in ["", "\r", " \t ", "#", " #a b", "## a\r", "\t\r"] {
        assert!(rt; first_word(line.as_bytes()).is_none(), "{line}");
    }
    assert!(rt; next_word(b" \t").is_none());
    assert!(rt; next_word(b" #").is_some());
}

#[test]
fn numbers(rt: HostRuntime) {
    const MOST: u64 = 10_000_000_000_000_000;
    let cases = [
        ("0", Some(0)),
        ("00000000000000000", Some(0)),
        ("10000000000000000", Some(MOST)),
        ("09999999999999999", Some(MOST - 1)),
        ("10000000000000001", None),
        ("99999999999999999", None),
        ("000000000000000000", None),
        ("100000000000000000000", None),
        ("", None),
        ("-1", None),
        ("+1", None),
        ("1 ", None),
        ("0x1", None),
    ];
    for (text, want) in cases {
        assert!(rt; number(text.as_bytes(), 17, 0, MOST) == want, "{text}");
    }
    assert!(rt; number(b"6", 1, 7, 9).is_none());
    assert!(rt; number(b"7", 1, 7, 9) == Some(7));
}

#[test]
fn ports(rt: HostRuntime) {
    let cases = [
        ("0", 0, Some(0)),
        ("0", 1, None),
        ("00001", 1, Some(1)),
        ("65535", 0, Some(65_535)),
        ("65536", 0, None),
        ("99999", 0, None),
        ("000080", 0, None),
        ("", 0, None),
    ];
    for (text, least, want) in cases {
        assert!(rt; read_port(text.as_bytes(), least) == want, "{text}");
    }
}

#[test]
fn addresses(rt: HostRuntime) {
    let cases = [
        ("0.0.0.0", Some(0)),
        ("255.255.255.255", Some(0xffff_ffff)),
        ("10.0.20.100", Some(0x0a00_1464)),
        ("256.0.0.1", None),
        ("1.2.3", None),
        ("1.2.3.4.5", None),
        ("01.2.3.4", None),
        ("1.2.3.00", None),
        ("1..3.4", None),
        ("1.2.3.", None),
        ("1.2.3.4 ", None),
        ("", None),
    ];
    for (text, want) in cases {
        assert!(rt; read_address(text.as_bytes()) == want, "{text}");
    }
}

#[test]
fn halves(rt: HostRuntime) {
    match split_once(b"1:2:3", b':') {
        Some((front, behind)) => {
            assert!(rt; front == b"1".as_slice());
            assert!(rt; behind == b"2:3".as_slice());
        }
        None => assert!(rt; false),
    }
    assert!(rt; split_once(b"123", b':').is_none());
}

#[test]
fn protocols(rt: HostRuntime) {
    let cases = [
        ("tcp", Some(Proto::Tcp), true),
        ("udp", Some(Proto::Udp), true),
        ("icmp", Some(Proto::Icmp), false),
        ("TCP", None, false),
        ("tcp ", None, false),
        ("", None, false),
    ];
    for (word, want, ports) in cases {
        let proto = read_proto(word.as_bytes());
        assert!(rt; proto == want, "{word}");
        assert!(rt; has_ports(proto) == ports, "{word}");
    }
}

#[test]
fn values_stand_once(rt: HostRuntime) {
    let cases = [
        (None, Ok(7u16), Ok(Some(7u16))),
        (None, Err(2u8), Err(2u8)),
        (Some(3), Ok(7), Err(1)),
        (Some(3), Err(2), Err(1)),
    ];
    for (old, read, want) in cases {
        assert!(rt; once(old, read, 1u8) == want);
    }
}
