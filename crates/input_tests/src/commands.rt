//! Good lines, faulty ones, and whole scripts, typed from the rules.

use conntrack_cmd::command::Command;
use conntrack_cmd::read::{Script, ScriptError, ScriptKind, read_script};
use history_book::filter::Filter;
use room_list::Bytes;
use std::alloc::Global;
use std::process::Abort;
use std::test::Fail;
use tuple_core::{NoMemory, Proto};

/// What a script says; the scripts of the tests are short.
fn read(alloc: Global, bytes: &[u8]) -> Result<Script, ScriptError> {
    if bytes.len() > 65_536 {
        return Err(ScriptError::NoMemory);
    }
    read_script(alloc, bytes)
}

/// The number of a kind in the tables below, from 1 in the order of the variants.
fn kind_number(kind: ScriptKind) -> usize {
    match kind {
        ScriptKind::Command => 1,
        ScriptKind::Option => 2,
        ScriptKind::Value => 3,
        ScriptKind::Repeat => 4,
        ScriptKind::TooMany => 5,
    }
}

/// The fault's line and the number of its kind. Where there is none: 0 and the number of commands.
fn answer(alloc: Global, bytes: &[u8]) -> Result<(u32, usize), NoMemory> {
    match read(alloc, bytes) {
        Ok(script) => Ok((0, script.commands.len())),
        Err(ScriptError::NoMemory) => Err(NoMemory),
        Err(ScriptError::Fault(fault)) => Ok((fault.line, kind_number(fault.kind))),
    }
}

/// Each text has the answer beside it.
fn are_answered<R: Abort + AllocGlobal>(
    rt: &R,
    cases: &[(&str, (u32, usize))],
) -> Result<(), Fail> {
    for (text, want) in cases {
        assert_eq!(rt; answer(rt.alloc(), text.as_bytes())?, *want, "{text}");
    }
    Ok(())
}

#[test]
fn faulty_first_words(rt: HostRuntime) -> Result<(), Fail> {
    static CASES: &[(&str, (u32, usize))] = &[
        ("-l", (1, 1)),
        ("-L\x0b", (1, 1)),
        ("L", (1, 1)),
        ("--list -p x", (1, 1)),
        ("Expire 5", (1, 1)),
        ("expect", (1, 1)),
        ("waits", (1, 1)),
        ("-F\r\r\n", (1, 1)),
        ("-C\n\n# -X\n-X -p\n-Y", (4, 1)),
        ("wait\nwait-\n", (2, 1)),
    ];
    are_answered(&rt, CASES)
}

#[test]
fn faulty_options(rt: HostRuntime) -> Result<(), Fail> {
    static CASES: &[(&str, (u32, usize))] = &[
        ("-F x", (1, 2)),
        ("-C -C", (1, 2)),
        ("-F #", (1, 2)),
        ("expire 5 x", (1, 2)),
        ("wait x", (1, 2)),
        ("wait\n\nwait x", (3, 2)),
        ("-L expect x", (1, 2)),
        ("-L expect expect", (1, 2)),
        ("-L -p tcp expect", (1, 2)),
        ("-L expects", (1, 2)),
        ("-D expect", (1, 2)),
        ("-L -P tcp", (1, 2)),
        ("-L -x", (1, 2)),
        ("-L --sport 5", (1, 2)),
        ("-L --dport 5 -p icmp", (1, 2)),
        ("-D -p icmp --sport 0", (1, 2)),
        ("-D -s 1.2.3.4 5", (1, 2)),
        ("-G", (1, 2)),
        ("-G -p tcp -s 1.2.3.4 -d 1.2.3.4 --sport 5", (1, 2)),
        ("-G -p tcp -s 1.2.3.4 -d 1.2.3.4 --dport 5", (1, 2)),
        ("-G -p tcp -s 1.2.3.4 --dport 5 --sport 5", (1, 2)),
        ("-G -p tcp --dport 5 --sport 5 -d 1.2.3.4", (1, 2)),
        ("-G -d 1.2.3.4 -s 1.2.3.4 --dport 5 --sport 5", (1, 2)),
        ("-G -r 1.2.3.4", (1, 2)),
        ("-G -q", (1, 2)),
        ("-G expect", (1, 2)),
        // A zone is no option of other commands.
        ("-L expect -w 7", (1, 2)),
        ("-L -w 7 expect", (1, 2)),
        ("-F -w 7", (1, 2)),
        ("-C -w 7", (1, 2)),
        ("expire 5 -w 7", (1, 2)),
        ("wait -w 7", (1, 2)),
        ("-L -W 7", (1, 2)),
        ("-L --zone 7", (1, 2)),
        ("-L -w 7 8", (1, 2)),
        ("-G -w 7", (1, 2)),
        ("-G -w 7 -p tcp -s 1.2.3.4 -d 1.2.3.4 --sport 5", (1, 2)),
    ];
    are_answered(&rt, CASES)
}

#[test]
fn faulty_values(rt: HostRuntime) -> Result<(), Fail> {
    static CASES: &[(&str, (u32, usize))] = &[
        ("expire", (1, 3)),
        ("expire x y", (1, 3)),
        ("expire 10000000000000001", (1, 3)),
        ("expire 99999999999999999", (1, 3)),
        ("expire 000000000000000000", (1, 3)),
        ("expire 18446744073709551617", (1, 3)),
        ("expire -1", (1, 3)),
        ("-L -p", (1, 3)),
        ("-L -p sctp", (1, 3)),
        ("-L -p expect", (1, 3)),
        ("-D -p TCP", (1, 3)),
        ("-G -p icmp", (1, 3)),
        ("-L -s", (1, 3)),
        ("-L -s -d 1.2.3.4", (1, 3)),
        ("-L -d 1.2.3", (1, 3)),
        ("-L -r 01.2.3.4", (1, 3)),
        ("-D -q 1.2.3.256", (1, 3)),
        ("-D -q 1.2.3.4/32", (1, 3)),
        ("-L --sport 65536", (1, 3)),
        ("-L --dport 000080", (1, 3)),
        ("-L --dport x -y", (1, 3)),
        ("-L --sport", (1, 3)),
        ("-G --sport 65536", (1, 3)),
        ("-L -w", (1, 3)),
        ("-D -w", (1, 3)),
        ("-G -w", (1, 3)),
        ("-L -w 65536", (1, 3)),
        ("-D -w 99999", (1, 3)),
        ("-G -w 65536", (1, 3)),
        ("-L -w 000007", (1, 3)),
        ("-D -w 000000", (1, 3)),
        ("-G -w 000007", (1, 3)),
        ("-L -w -1", (1, 3)),
        ("-D -w +1", (1, 3)),
        ("-L -w x", (1, 3)),
        ("-L -w 1,2", (1, 3)),
        ("-L -w -p tcp", (1, 3)),
        ("wait\n-C\n \n-D -p\n-X", (4, 3)),
    ];
    are_answered(&rt, CASES)
}

#[test]
fn repeated_words(rt: HostRuntime) -> Result<(), Fail> {
    static CASES: &[(&str, (u32, usize))] = &[
        ("-L -p tcp -p tcp", (1, 4)),
        ("-L -p tcp -p", (1, 4)),
        ("-L -s 1.2.3.4 -s x", (1, 4)),
        ("-L -d 1.2.3.4 -d 1.2.3.4 -x", (1, 4)),
        ("-D -r 1.2.3.4 -r 1.2.3.4", (1, 4)),
        ("-D -q 1.2.3.4 -q 1.2.3.4", (1, 4)),
        ("-D --sport 1 --sport 2", (1, 4)),
        ("-D --dport 1 --dport 1", (1, 4)),
        ("-G -p udp -p icmp", (1, 4)),
        ("-G --sport 1 --dport 1 --sport x", (1, 4)),
        ("-L -w 7 -w 7", (1, 4)),
        ("-L -w 7 -w", (1, 4)),
        ("-D -w 7 -p tcp -w 8", (1, 4)),
        ("-G -w 0 -w 0", (1, 4)),
        ("-G -w 0 -w 65536", (1, 4)),
        ("wait\nwait", (2, 4)),
        ("wait\n-C\n\n\twait \r\n-X", (4, 4)),
    ];
    are_answered(&rt, CASES)
}

/// What stands for a value that is not given.
const NO: u64 = 0xffff_ffff_ffff;

fn proto_number(proto: Option<Proto>) -> u64 {
    match proto {
        None => NO,
        Some(Proto::Icmp) => 1,
        Some(Proto::Tcp) => 6,
        Some(Proto::Udp) => 17,
    }
}

fn address_number(address: Option<u32>) -> u64 {
    match address {
        None => NO,
        Some(address) => u64::from(address),
    }
}

fn port_number(port: Option<u16>) -> u64 {
    match port {
        None => NO,
        Some(port) => u64::from(port),
    }
}

fn filter_numbers(first: u64, filter: &Filter) -> [u64; 9] {
    [
        first,
        proto_number(filter.proto),
        address_number(filter.src),
        address_number(filter.dst),
        address_number(filter.reply_src),
        address_number(filter.reply_dst),
        port_number(filter.sport),
        port_number(filter.dport),
        port_number(filter.zone),
    ]
}

/// A command as numbers: which, protocol, source and destination, those of the replies, the ports, the zone.
fn numbers(command: &Command) -> [u64; 9] {
    match command {
        Command::List(filter) => filter_numbers(1, filter),
        Command::ListExpect => [2, 0, 0, 0, 0, 0, 0, 0, 0],
        Command::Get(t) => [
            3,
            proto_number(Some(t.proto)),
            u64::from(t.src),
            u64::from(t.dst),
            0,
            0,
            u64::from(t.a),
            u64::from(t.b),
            u64::from(t.zone),
        ],
        Command::Delete(filter) => filter_numbers(4, filter),
        Command::Flush => [5, 0, 0, 0, 0, 0, 0, 0, 0],
        Command::Count => [6, 0, 0, 0, 0, 0, 0, 0, 0],
        Command::Expire(moment) => [7, *moment, 0, 0, 0, 0, 0, 0, 0],
    }
}

/// The text is one command, before `wait`, with these numbers.
fn is_one_command<R: Abort + AllocGlobal>(rt: &R, text: &str, want: &[u64; 9]) {
    match read(rt.alloc(), text.as_bytes()) {
        Ok(script) => {
            assert_eq!(rt; script.commands.len(), 1, "{text}");
            assert_eq!(rt; script.wait, 1, "{text}");
            for command in script.commands.as_slice() {
                assert_eq!(rt; numbers(command), *want, "{text}");
            }
        }
        Err(_) => assert!(rt; false, "{text}"),
    }
}

#[test]
fn good_lines(rt: HostRuntime) -> Result<(), Fail> {
    const TARGET: u64 = 0x0102_0304;
    static CASES: &[(&str, [u64; 9])] = &[
        ("-L", [1, NO, NO, NO, NO, NO, NO, NO, NO]),
        ("-L expect", [2, 0, 0, 0, 0, 0, 0, 0, 0]),
        (" \t-L\t expect \r\n", [2, 0, 0, 0, 0, 0, 0, 0, 0]),
        ("-L -p icmp", [1, 1, NO, NO, NO, NO, NO, NO, NO]),
        (
            "-L -p tcp -s 1.2.3.4 -d 0.0.0.0 -r 0.0.0.1 -q 255.255.255.255 --sport 00080 --dport 65535",
            [1, 6, TARGET, 0, 1, 0xffff_ffff, 80, 65_535, NO],
        ),
        (
            "-L --dport 0 -q 0.0.0.4 -r 0.0.0.3 -d 0.0.0.2 -s 0.0.0.1 --sport 0 -p udp",
            [1, 17, 1, 2, 3, 4, 0, 0, NO],
        ),
        ("-D", [4, NO, NO, NO, NO, NO, NO, NO, NO]),
        ("-D -r 1.2.3.4\r", [4, NO, NO, NO, TARGET, NO, NO, NO, NO]),
        ("-D -p udp --sport 7", [4, 17, NO, NO, NO, NO, 7, NO, NO]),
        (
            "-G -p tcp -s 1.2.3.4 -d 0.0.0.5 --sport 6 --dport 7",
            [3, 6, TARGET, 5, 0, 0, 6, 7, 0],
        ),
        (
            "#\n-G --dport 0 --sport 65535 -d 1.2.3.4 -p udp -s 0.0.0.0\n\n",
            [3, 17, 0, TARGET, 0, 0, 65_535, 0, 0],
        ),
        ("-L -w 7", [1, NO, NO, NO, NO, NO, NO, NO, 7]),
        ("-L -w 0", [1, NO, NO, NO, NO, NO, NO, NO, 0]),
        ("-L -w 65535", [1, NO, NO, NO, NO, NO, NO, NO, 65_535]),
        ("-D -w 00008", [4, NO, NO, NO, NO, NO, NO, NO, 8]),
        ("-D -w 1 -p icmp", [4, 1, NO, NO, NO, NO, NO, NO, 1]),
        (
            "-G -w 7 -p tcp -s 1.2.3.4 -d 0.0.0.5 --sport 6 --dport 7",
            [3, 6, TARGET, 5, 0, 0, 6, 7, 7],
        ),
        (
            "-G -p tcp -s 1.2.3.4 -d 0.0.0.5 --sport 6 --dport 7 -w 65535",
            [3, 6, TARGET, 5, 0, 0, 6, 7, 65_535],
        ),
        ("-F", [5, 0, 0, 0, 0, 0, 0, 0, 0]),
        ("-C\n", [6, 0, 0, 0, 0, 0, 0, 0, 0]),
        ("expire 0", [7, 0, 0, 0, 0, 0, 0, 0, 0]),
        (
            "expire 10000000000000000",
            [7, 10_000_000_000_000_000, 0, 0, 0, 0, 0, 0, 0],
        ),
        ("expire 00000000000000012", [7, 12, 0, 0, 0, 0, 0, 0, 0]),
    ];
    for (text, want) in CASES {
        is_one_command(&rt, text, want);
    }
    Ok(())
}

/// The text is so many commands, so many of them before `wait`.
fn is_divided<R: Abort + AllocGlobal>(rt: &R, text: &str, (commands, wait): (usize, u32)) {
    match read(rt.alloc(), text.as_bytes()) {
        Ok(script) => {
            assert_eq!(rt; script.commands.len(), commands, "{text}");
            assert_eq!(rt; script.wait, wait, "{text}");
        }
        Err(_) => assert!(rt; false, "{text}"),
    }
}

#[test]
fn divided_scripts(rt: HostRuntime) -> Result<(), Fail> {
    // How many commands there are, and how many of them stand before `wait`.
    static CASES: &[(&str, (usize, u32))] = &[
        ("", (0, 0)),
        ("# only this\n\n \t\r\n", (0, 0)),
        ("wait", (0, 0)),
        ("-C\n-F", (2, 2)),
        ("-C\n-F\nwait\n", (2, 2)),
        ("wait\n-C\n-F", (2, 0)),
        ("-C\n#\n \twait\r\n-F\n-L", (3, 1)),
    ];
    for (text, want) in CASES {
        is_divided(&rt, text, *want);
    }
    Ok(())
}

/// So many commands, one on each line, and a text behind them.
fn script(alloc: Global, count: usize, tail: &[u8]) -> Result<Bytes, NoMemory> {
    let mut text = Bytes::new(alloc, 0)?;
    for _ in 0..count {
        text.append(b"-L expect\n")?;
    }
    text.append(tail)?;
    Ok(text)
}

#[test]
fn full_scripts(rt: HostRuntime) -> Result<(), Fail> {
    static CASES: &[(usize, &[u8], (u32, usize))] = &[
        (255, b"-F", (0, 256)),
        (256, b"\n# the last was the last\n", (0, 256)),
        (256, b"wait\n#", (0, 256)),
        (257, b"", (257, 5)),
        (256, b"x", (257, 5)),
        (256, b"-F x", (257, 5)),
        (256, b"\n#\nexpire\n", (259, 5)),
        (256, b"wait\n-F", (258, 5)),
        (256, b"wait\nwait", (258, 4)),
        (256, b"wait x", (257, 2)),
        (300, b"-X", (257, 5)),
        (255, b"-X", (256, 1)),
    ];
    for (count, tail, want) in CASES {
        let text = script(rt.alloc(), *count, tail)?;
        assert_eq!(rt;
            answer(rt.alloc(), text.as_slice())?,
            *want,
            "{count} commands"
        );
    }
    Ok(())
}
