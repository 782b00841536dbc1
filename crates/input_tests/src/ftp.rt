//! Payloads of FTP, the ends that they name, and what is then expected.

use ftp_helper::{NamedEnd, end_span, named_end, want_of};
use std::process::Abort;
use tuple_core::Direction::{Original, Reply};
use tuple_core::{Direction, Proto, Tuple};

/// More than any address: the payload names none.
const NO_ADDRESS: u64 = 0x1_0000_0000;

/// The address and the port that a payload names; twice 0 where it names nothing.
fn named(direction: Direction, payload: &[u8]) -> (u64, u16) {
    match named_end(direction, payload) {
        None => (0, 0),
        Some(end) => match end.address {
            None => (NO_ADDRESS, end.port),
            Some(address) => (u64::from(address), end.port),
        },
    }
}

/// Each payload names the end beside it.
fn are_named<R: Abort>(rt: &R, direction: Direction, cases: &[(&str, (u64, u16))]) {
    for (payload, want) in cases {
        assert_eq!(rt; named(direction, payload.as_bytes()), *want, "{payload}");
    }
}

#[test]
fn client_payloads(rt: HostRuntime) {
    static CASES: &[(&str, (u64, u16))] = &[
        // PORT, in either case, to a CR or an LF.
        ("PORT 10,0,0,1,156,65\r\n", (0x0a00_0001, 40_001)),
        ("port 10,0,0,1,156,65\r\n", (0x0a00_0001, 40_001)),
        ("PoRt 10,0,0,1,156,65\r\n", (0x0a00_0001, 40_001)),
        ("PORT 10,0,0,1,156,65\n", (0x0a00_0001, 40_001)),
        ("PORT 10,0,0,1,156,65\r", (0x0a00_0001, 40_001)),
        ("PORT 10,0,0,1,156,65\r\nQUIT\r\n", (0x0a00_0001, 40_001)),
        ("PORT 10,0,0,1,156,65\rx", (0x0a00_0001, 40_001)),
        ("PORT 010,000,00,001,156,065\r\n", (0x0a00_0001, 40_001)),
        ("PORT 0,0,0,0,0,1\n", (0, 1)),
        ("PORT 255,255,255,255,255,255\r\n", (0xffff_ffff, 65_535)),
        ("PORT 10,0,0,1,156,65", (0, 0)),
        ("PORT 10,0,0,1,156,65 \r\n", (0, 0)),
        ("PORT 256,0,0,1,156,65\r\n", (0, 0)),
        ("PORT 10,0,0,1,156,256\r\n", (0, 0)),
        ("PORT 10,0,0,0255,156,65\r\n", (0, 0)),
        ("PORT 10,0,0,1,156,0065\r\n", (0, 0)),
        ("PORT 10,0,0,1,0,0\r\n", (0, 0)),
        ("PORT 10,0,0,1,156\r\n", (0, 0)),
        ("PORT 10,0,0,1,156,65,1\r\n", (0, 0)),
        ("PORT 10,,0,1,156,65\r\n", (0, 0)),
        ("PORT 10, 0,0,1,156,65\r\n", (0, 0)),
        ("PORT 10,0,0,+1,156,65\r\n", (0, 0)),
        ("PORT 10.0.0.1,156,65\r\n", (0, 0)),
        ("PORT  10,0,0,1,156,65\r\n", (0, 0)),
        ("PORT10,0,0,1,156,65\r\n", (0, 0)),
        ("PORT\t10,0,0,1,156,65\r\n", (0, 0)),
        (" PORT 10,0,0,1,156,65\r\n", (0, 0)),
        ("NOOP\r\nPORT 10,0,0,1,156,65\r\n", (0, 0)),
        // EPRT, of IPv4.
        ("EPRT |1|10.0.0.1|40001|\r\n", (0x0a00_0001, 40_001)),
        ("eprt |1|10.0.0.1|40001|\n", (0x0a00_0001, 40_001)),
        ("ePrT |1|10.0.0.1|40001|\rx", (0x0a00_0001, 40_001)),
        ("EPRT |1|010.000.00.001|00021|\r\n", (0x0a00_0001, 21)),
        ("EPRT |1|0.0.0.0|1|\r", (0, 1)),
        ("EPRT |1|255.255.255.255|65535|\r\n", (0xffff_ffff, 65_535)),
        ("EPRT |1|10.0.0.1|65536|\r\n", (0, 0)),
        ("EPRT |1|10.0.0.1|99999|\r\n", (0, 0)),
        ("EPRT |1|10.0.0.1|0|\r\n", (0, 0)),
        ("EPRT |1|10.0.0.1|00000|\r\n", (0, 0)),
        ("EPRT |1|10.0.0.1|040001|\r\n", (0, 0)),
        ("EPRT |1|10.0.0.1||\r\n", (0, 0)),
        ("EPRT |1||40001|\r\n", (0, 0)),
        ("EPRT |1|10.0.0.256|40001|\r\n", (0, 0)),
        ("EPRT |1|0255.0.0.1|40001|\r\n", (0, 0)),
        ("EPRT |1|10.0.0|40001|\r\n", (0, 0)),
        ("EPRT |1|10,0,0,1|40001|\r\n", (0, 0)),
        ("EPRT |1|10.0.0.1|40001\r\n", (0, 0)),
        ("EPRT |1|10.0.0.1|40001|", (0, 0)),
        ("EPRT |2|10.0.0.1|40001|\r\n", (0, 0)),
        ("EPRT |2|1080::8:800:200C:417A|5282|\r\n", (0, 0)),
        ("EPRT !1!10.0.0.1!40001!\r\n", (0, 0)),
        ("EPRT 10,0,0,1,156,65\r\n", (0, 0)),
        // The server's forms, and no byte at all.
        ("227 (10,0,0,1,156,65)\r\n", (0, 0)),
        ("229 (|||40001|)\r\n", (0, 0)),
        ("", (0, 0)),
    ];
    are_named(&rt, Original, CASES);
}

#[test]
fn server_payloads(rt: HostRuntime) {
    static CASES: &[(&str, (u64, u16))] = &[
        // 227, with or without parentheses.
        (
            "227 Entering Passive Mode (10,0,0,1,156,65).\r\n",
            (0x0a00_0001, 40_001),
        ),
        (
            "227 (10,0,0,1,156,65)\r\n200 Fine\r\n",
            (0x0a00_0001, 40_001),
        ),
        ("227 =10,0,0,1,156,65\r\n", (0x0a00_0001, 40_001)),
        ("227 10,0,0,1,156,65\n", (0x0a00_0001, 40_001)),
        ("227 10,0,0,1,156,65,7", (0x0a00_0001, 40_001)),
        ("227 (010,000,00,001,156,065)", (0x0a00_0001, 40_001)),
        ("227 0,0,0,0,0,1 ", (0, 1)),
        ("227 (255,255,255,255,255,255)", (0xffff_ffff, 65_535)),
        ("227 (10,0,0,1,156,65", (0, 0)),
        ("227 (10,0,0,1,156,0065)", (0, 0)),
        ("227 (10,0,0,1,156,256)", (0, 0)),
        ("227 (256,0,0,1,156,65)", (0, 0)),
        ("227 (10,0,0,1,0,0)", (0, 0)),
        ("227 1(10,0,0,1,156,65)", (0, 0)),
        ("227 Port 1 (10,0,0,1,156,65)", (0, 0)),
        ("227 (10.0.0.1,156,65)", (0, 0)),
        ("227 Mode\r(10,0,0,1,156,65)", (0, 0)),
        ("227 Mode\n(10,0,0,1,156,65)", (0, 0)),
        ("227-Mode (10,0,0,1,156,65)", (0, 0)),
        ("227 ", (0, 0)),
        ("226 (10,0,0,1,156,65)", (0, 0)),
        // 229, which names no address.
        (
            "229 Entering Extended Passive Mode (|||40001|)\r\n",
            (NO_ADDRESS, 40_001),
        ),
        ("229 (|||40001|) and more", (NO_ADDRESS, 40_001)),
        ("229 7 of 8 (|||00021|)", (NO_ADDRESS, 21)),
        ("229 (|||1|)", (NO_ADDRESS, 1)),
        ("229 (|||65535|)", (NO_ADDRESS, 65_535)),
        ("229 (|||65536|)", (0, 0)),
        ("229 (|||0|)", (0, 0)),
        ("229 (|||040001|)", (0, 0)),
        ("229 (||||)", (0, 0)),
        ("229 (|||40001|", (0, 0)),
        ("229 (|||40001)", (0, 0)),
        ("229 (||40001|)", (0, 0)),
        ("229 (|1|10.0.0.1|40001|)", (0, 0)),
        ("229 |||40001|\r\n", (0, 0)),
        ("229 Mode (new) (|||40001|)", (0, 0)),
        ("229 Mode\r(|||40001|)", (0, 0)),
        ("229 Mode\n(|||40001|)", (0, 0)),
        ("229 10,0,0,1,156,65\r\n", (0, 0)),
        // The client's forms, and no byte at all.
        ("PORT 10,0,0,1,156,65\r\n", (0, 0)),
        ("EPRT |1|10.0.0.1|40001|\r\n", (0, 0)),
        ("", (0, 0)),
    ];
    are_named(&rt, Reply, CASES);
}

#[test]
fn cut_payloads(rt: HostRuntime) {
    let payload = b"PORT 10,0,0,1,156,65\r\n";
    for end in 0..23 {
        let want = if end > 20 {
            (0x0a00_0001, 40_001)
        } else {
            (0, 0)
        };
        assert_eq!(rt; named(Original, payload.split_at(end).0), want, "{end}");
    }
}

/// What is expected, as a source, a destination and a port. The server answers another address than the
/// client's own: the flow is translated.
fn wanted(direction: Direction, address: Option<u32>) -> Option<(u32, u32, u16)> {
    let original = Tuple {
        proto: Proto::Tcp,
        zone: 0,
        src: 1,
        dst: 2,
        a: 50_000,
        b: 21,
    };
    let reply = Tuple {
        proto: Proto::Tcp,
        zone: 0,
        src: 3,
        dst: 4,
        a: 21,
        b: 60_000,
    };
    let end = NamedEnd {
        address,
        port: 40_001,
    };
    match want_of(direction, &original, &reply, &end) {
        Some(want) => Some((want.src, want.dst, want.port)),
        None => None,
    }
}

#[test]
fn wants(rt: HostRuntime) {
    let cases = [
        (Original, Some(1), Some((3, 4, 40_001))),
        (Original, Some(2), None),
        (Original, Some(4), None),
        (Original, None, Some((3, 4, 40_001))),
        (Reply, Some(3), Some((1, 2, 40_001))),
        (Reply, Some(1), None),
        (Reply, Some(2), None),
        (Reply, None, Some((1, 2, 40_001))),
    ];
    for (direction, address, want) in cases {
        assert_eq!(rt; wanted(direction, address), want, "{address:?}");
    }
}

/// Where the bytes that name an end stand in a payload; twice 0 where it names nothing.
fn spanned(direction: Direction, payload: &[u8]) -> (usize, usize) {
    match end_span(direction, payload) {
        None => (0, 0),
        Some(span) => (span.start, span.end),
    }
}

#[test]
fn spans(rt: HostRuntime) {
    static CASES: &[(Direction, &str, (usize, usize))] = &[
        (Original, "PORT 10,0,0,1,156,65\r\n", (5, 20)),
        (Original, "port 010,000,00,001,156,065\rx", (5, 27)),
        (Original, "PORT 10,0,0,1,0,0\r\n", (0, 0)),
        (Original, "EPRT |1|10.0.0.1|40001|\r\n", (8, 22)),
        (Original, "EPRT |1|0.0.0.0|1|\n", (8, 17)),
        (Original, "EPRT |1|10.0.0.1|40001\r\n", (0, 0)),
        (
            Reply,
            "227 Entering Passive Mode (10,0,0,1,156,65).\r\n",
            (27, 42),
        ),
        (Reply, "227 10,0,0,1,156,65\n", (4, 19)),
        (Reply, "227 10,0,0,1,156,0\r\n", (4, 18)),
        (
            Reply,
            "229 Entering Extended Passive Mode (|||40001|)\r\n",
            (39, 44),
        ),
        (Reply, "229 (|||0|)", (0, 0)),
        (Reply, "", (0, 0)),
    ];
    for (direction, payload, want) in CASES {
        assert_eq!(rt; spanned(*direction, payload.as_bytes()), *want, "{payload}");
    }
}
