//! Good lines of rules, faulty ones, and files with as many rules as they may have.

use nat_setup::read::{RuleError, RuleKind, read_rules};
use nat_setup::rule::{Block, Rule, Rules, Side};
use room_list::Bytes;
use std::alloc::Global;
use std::process::Abort;
use std::test::Fail;
use tuple_core::{NoMemory, Proto};

/// What a file says; the files of the tests are short.
fn read(alloc: Global, bytes: &[u8]) -> Result<Rules, RuleError> {
    if bytes.len() > 65_536 {
        return Err(RuleError::NoMemory);
    }
    read_rules(alloc, bytes)
}

/// The number of a kind in the tables below, from 1 in the order of the variants.
fn kind_number(kind: RuleKind) -> usize {
    match kind {
        RuleKind::Word => 1,
        RuleKind::Address => 2,
        RuleKind::Prefix => 3,
        RuleKind::Range => 4,
        RuleKind::TooMany => 5,
    }
}

/// The fault's line and the number of its kind. Where there is none: 0 and the number of rules.
fn answer(alloc: Global, bytes: &[u8]) -> Result<(u32, usize), NoMemory> {
    match read(alloc, bytes) {
        Ok(rules) => Ok((0, rules.len())),
        Err(RuleError::NoMemory) => Err(NoMemory),
        Err(RuleError::Fault(fault)) => Ok((fault.line, kind_number(fault.kind))),
    }
}

/// Each text has the answer beside it.
fn are_answered<R: Abort + AllocGlobal>(
    rt: &R,
    cases: &[(&str, (u32, usize))],
) -> Result<(), Fail> {
    for (text, want) in cases {
        assert_eq!(rt; answer(rt.alloc(), text.as_bytes())?, *want, "{text}");
    }
    Ok(())
}

#[test]
fn faulty_lines(rt: HostRuntime) -> Result<(), Fail> {
    static WORDS: &[(&str, (u32, usize))] = &[
        ("snat\n", (1, 1)),
        ("snat to", (1, 1)),
        ("snat to\r\n", (1, 1)),
        ("snat 1.2.3.4", (1, 1)),
        ("route to 1.2.3.4", (1, 1)),
        ("Snat to 1.2.3.4", (1, 1)),
        ("snat  -p tcp -p tcp to 1.2.3.4", (1, 1)),
        ("snat -s 1.2.3.4 -s x to 1.2.3.4", (1, 1)),
        ("dnat -d 1.2.3.4 -d 1.2.3.4 to 1.2.3.4", (1, 1)),
        ("dnat -p tcp --sport 1 --sport 1 to 1.2.3.4", (1, 1)),
        ("dnat -p udp --dport 1 --dport 0 to 1.2.3.4", (1, 1)),
        ("snat -p sctp to 1.2.3.4", (1, 1)),
        ("snat -p TCP to 1.2.3.4", (1, 1)),
        ("snat -p tcp -s", (1, 1)),
        ("snat -p tcp", (1, 1)),
        ("snat to 1.2.3.4 -p tcp", (1, 1)),
        ("snat to 1.2.3.4 #", (1, 1)),
        ("snat to 1.2.3.4:5", (1, 1)),
        ("dnat -p icmp to 1.2.3.4:5-6", (1, 1)),
        ("snat --sport 5 to 1.2.3.4", (1, 1)),
        ("snat -p icmp --dport 5 to 1.2.3.4", (1, 1)),
        ("snat\x0bto 1.2.3.4", (1, 1)),
        ("snat to 1.2.3.4 \r\r\n", (1, 1)),
    ];
    static ADDRESSES: &[(&str, (u32, usize))] = &[
        ("snat to 256.0.0.1", (1, 2)),
        ("snat to 1.2.3", (1, 2)),
        ("snat to 1.2.3.4.5", (1, 2)),
        ("snat to 01.2.3.4", (1, 2)),
        ("snat to 1.2.3.00", (1, 2)),
        ("snat to 1..3.4", (1, 2)),
        ("snat to 1.2.3.", (1, 2)),
        ("snat to 1.2.3.+4", (1, 2)),
        ("snat to 1.2.3.4/8", (1, 2)),
        ("snat to :5", (1, 2)),
        ("snat to 1.2.3.4\r\r\n", (1, 2)),
        ("snat -s 1.2.3.4:5 to 1.2.3.4", (1, 2)),
        ("snat -s 1.2.3/33 to 1.2.3.4", (1, 2)),
        ("dnat -d x to 1.2.3.4", (1, 2)),
        ("dnat -d x -d", (1, 2)),
        ("snat to 1.2.3.4x y", (1, 2)),
    ];
    static LENGTHS: &[(&str, (u32, usize))] = &[
        ("snat -s 1.2.3.4/33 to 1.2.3.4", (1, 3)),
        ("snat -s 1.2.3.4/008 to 1.2.3.4", (1, 3)),
        ("snat -s 1.2.3.4/ to 1.2.3.4", (1, 3)),
        ("snat -d 1.2.3.4/8/9 to 1.2.3.4", (1, 3)),
        ("snat -d 1.2.3.4/x to 1.2.3.4", (1, 3)),
        ("snat -d 1.2.3.4/-1 to x", (1, 3)),
    ];
    static PORTS: &[(&str, (u32, usize))] = &[
        ("snat --sport 0 to 1.2.3.4", (1, 4)),
        ("snat --dport 65536 to 1.2.3.4", (1, 4)),
        ("snat -p tcp --dport 000080 to 1.2.3.4", (1, 4)),
        ("snat -p tcp --sport 5- to 1.2.3.4", (1, 4)),
        ("snat -p tcp to 1.2.3.4:", (1, 4)),
        ("snat -p tcp to 1.2.3.4:9-8", (1, 4)),
        ("snat to 1.2.3.4:9-8 x", (1, 4)),
        ("snat -p tcp to 1.2.3.4:0-8", (1, 4)),
        ("snat -p tcp to 1.2.3.4:1-2-3", (1, 4)),
        ("snat -p tcp to 1.2.3.4:99999", (1, 4)),
    ];
    // The number of the line, and the first of several faults.
    static LINES: &[(&str, (u32, usize))] = &[
        ("\n \t\r\n# snat\nsnat to 1.2.3.4\ndnat\nsnat to x", (5, 1)),
        ("snat to 1.2.3.4\r\n\r\nsnat to x\nfoo\n", (3, 2)),
        ("#\nsnat -s 1.2.3.4/99 -p x to y", (2, 3)),
    ];
    are_answered(&rt, WORDS)?;
    are_answered(&rt, ADDRESSES)?;
    are_answered(&rt, LENGTHS)?;
    are_answered(&rt, PORTS)?;
    are_answered(&rt, LINES)
}

/// A rule as numbers. Where there is no protocol or no port, 0; where there is no block, a length of 99.
fn numbers(rule: &Rule) -> [u32; 11] {
    let side = match rule.side {
        Side::Source => 1,
        Side::Destination => 2,
    };
    let proto = match rule.proto {
        None => 0,
        Some(Proto::Icmp) => 1,
        Some(Proto::Tcp) => 6,
        Some(Proto::Udp) => 17,
    };
    let (src, src_length) = block_numbers(rule.src);
    let (dst, dst_length) = block_numbers(rule.dst);
    let (low, high) = match rule.ports {
        Some(range) => (u32::from(range.low), u32::from(range.high)),
        None => (0, 0),
    };
    let sport = u32::from(rule.sport.unwrap_or(0));
    let dport = u32::from(rule.dport.unwrap_or(0));
    [
        side,
        proto,
        src,
        src_length,
        dst,
        dst_length,
        sport,
        dport,
        rule.target,
        low,
        high,
    ]
}

fn block_numbers(block: Option<Block>) -> (u32, u32) {
    match block {
        Some(block) => (block.address, u32::from(block.length)),
        None => (0, 99),
    }
}

/// The text is one rule, with these numbers.
fn is_one_rule<R: Abort + AllocGlobal>(rt: &R, text: &str, want: &[u32; 11]) {
    match read(rt.alloc(), text.as_bytes()) {
        Ok(rules) => {
            assert_eq!(rt; rules.len(), 1, "{text}");
            for rule in rules.as_slice() {
                assert_eq!(rt; numbers(rule), *want, "{text}");
            }
        }
        Err(_) => assert!(rt; false, "{text}"),
    }
}

#[test]
fn good_lines(rt: HostRuntime) -> Result<(), Fail> {
    const TARGET: u32 = 0x0102_0304;
    static CASES: &[(&str, [u32; 11])] = &[
        ("snat to 1.2.3.4", [1, 0, 0, 99, 0, 99, 0, 0, TARGET, 0, 0]),
        (
            "dnat to 255.0.10.100\n",
            [2, 0, 0, 99, 0, 99, 0, 0, 0xff00_0a64, 0, 0],
        ),
        (
            "# a comment\n\n \t#\n\t snat\t to  1.2.3.4 \r\n",
            [1, 0, 0, 99, 0, 99, 0, 0, TARGET, 0, 0],
        ),
        (
            "snat to 1.2.3.4\r",
            [1, 0, 0, 99, 0, 99, 0, 0, TARGET, 0, 0],
        ),
        (
            "snat -p icmp to 1.2.3.4",
            [1, 1, 0, 99, 0, 99, 0, 0, TARGET, 0, 0],
        ),
        (
            "snat -p tcp -s 10.0.0.1/08 -d 10.0.0.2 --sport 00080 --dport 65535 to 1.2.3.4:1-65535",
            [
                1,
                6,
                0x0a00_0001,
                8,
                0x0a00_0002,
                32,
                80,
                65535,
                TARGET,
                1,
                65535,
            ],
        ),
        (
            "dnat --dport 53 --sport 1 -d 0.0.0.0/0 -s 0.0.0.0/32 -p udp to 1.2.3.4:7",
            [2, 17, 0, 32, 0, 0, 1, 53, TARGET, 7, 7],
        ),
        (
            "dnat -p tcp to 1.2.3.4:8-8\n\n",
            [2, 6, 0, 99, 0, 99, 0, 0, TARGET, 8, 8],
        ),
    ];
    for (text, want) in CASES {
        is_one_rule(&rt, text, want);
    }
    Ok(())
}

/// So many rules, one on each line, and a text behind them.
fn file(alloc: Global, count: usize, tail: &[u8]) -> Result<Bytes, NoMemory> {
    let mut text = Bytes::new(alloc, 0)?;
    for _ in 0..count {
        text.append(b"snat to 1.2.3.4\n")?;
    }
    text.append(tail)?;
    Ok(text)
}

#[test]
fn full_files(rt: HostRuntime) -> Result<(), Fail> {
    static CASES: &[(usize, &[u8], (u32, usize))] = &[
        (0, b"", (0, 0)),
        (255, b"dnat to 1.2.3.4", (0, 256)),
        (256, b"", (0, 256)),
        (256, b"\n# the last was the last\n", (0, 256)),
        (257, b"", (257, 5)),
        (256, b"dnat to 1.2.3.4", (257, 5)),
        (256, b"x", (257, 5)),
        (256, b"\n#\nsnat to y\n", (259, 5)),
        (300, b"snat", (257, 5)),
        (255, b"snat", (256, 1)),
    ];
    for (count, tail, want) in CASES {
        let text = file(rt.alloc(), *count, tail)?;
        assert_eq!(rt;
            answer(rt.alloc(), text.as_slice())?,
            *want,
            "{count} rules"
        );
    }
    Ok(())
}
