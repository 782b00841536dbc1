//! Sessions typed by hand, and the text of their lines.

use super::scene::Act::{Begin, Clash, Flush, Ignore, Name, Pass, Reset, Want};
use super::scene::{Act, Step, text_of};
use std::alloc::Global;
use std::process::Abort;
use std::test::Fail;

/// A step of the first thread's packets, of the entry 0, in the original direction.
fn out(seq: u32, ack: u32, act: Act, data: &str) -> Step<'_> {
    Step {
        thread: 0,
        id: 0,
        reply: false,
        seq,
        ack,
        act,
        data,
    }
}

/// The same in the reply direction.
fn back(seq: u32, ack: u32, act: Act, data: &str) -> Step<'_> {
    Step {
        reply: true,
        ..out(seq, ack, act, data)
    }
}

/// An event of the first thread's last packet, without a packet of its own.
fn also(act: Act) -> Step<'static> {
    out(0, 0, act, "")
}

/// The address 192.0.2.1.
const OUTSIDE: u32 = 0xc000_0201;

const PORT: &str = "PORT 10,0,0,1,156,65\r\n";

/// The first three segments of a session.
fn opened() -> [Step<'static>; 3] {
    [
        out(1000, 0, Begin(true), ""),
        back(5000, 1001, Pass, ""),
        out(1001, 5001, Pass, ""),
    ]
}

/// The text of these three, and of others behind them, is this.
fn check(rt: &impl Abort, alloc: Global, more: &[Step], text: &str) -> Result<(), Fail> {
    let mut steps: Vec<Step> = Vec::new(alloc);
    steps.extend_from_slice(&opened())?;
    steps.extend_from_slice(more)?;
    let sink = text_of(alloc, steps.as_slice())?;
    assert_eq!(rt; sink.bytes(), text.as_bytes(), "{text}");
    Ok(())
}

#[test]
fn a_port_through_a_translation(rt: HostRuntime) -> Result<(), Fail> {
    check(
        &rt,
        rt.alloc(),
        &[
            out(1001, 5001, Name(4), PORT),
            also(Want(OUTSIDE, 40_001)),
            back(5001, 1024, Pass, ""),
            out(1023, 5001, Pass, ""),
        ],
        "rewrite 3\n\
         0.3 id=0 original seq=1001>1001 ack=5001>5001 text=504f5254203139322c302c322c312c3135362c36350d0a\n\
         0.4 id=0 reply seq=5001>5001 ack=1024>1023\n\
         0.5 id=0 original seq=1023>1024 ack=5001>5001\n",
    )
}

#[test]
fn other_forms(rt: HostRuntime) -> Result<(), Fail> {
    // EPRT, whose port is kept.
    check(
        &rt,
        rt.alloc(),
        &[
            out(1001, 5001, Name(4), "EPRT |1|10.0.0.1|40001|\r\n"),
            also(Want(OUTSIDE, 40_001)),
            back(5001, 1027, Pass, ""),
        ],
        "rewrite 2\n\
         0.3 id=0 original seq=1001>1001 ack=5001>5001 text=45505254207c317c3139322e302e322e317c34303030317c0d0a\n\
         0.4 id=0 reply seq=5001>5001 ack=1027>1026\n",
    )?;
    // 227, in the reply direction.
    check(
        &rt,
        rt.alloc(),
        &[
            back(5001, 1001, Name(4), "227 (10,0,0,2,156,65)\r\n"),
            also(Want(OUTSIDE, 40_001)),
            out(1001, 5025, Pass, ""),
        ],
        "rewrite 2\n\
         0.3 id=0 reply seq=5001>5001 ack=1001>1001 text=32323720283139322c302c322c312c3135362c3635290d0a\n\
         0.4 id=0 original seq=1001>1001 ack=5025>5024\n",
    )?;
    // 229 names no address, and an end at the same one needs no other text.
    check(
        &rt,
        rt.alloc(),
        &[
            back(5001, 1001, Name(4), "229 (|||40001|)\r\n"),
            also(Want(OUTSIDE, 40_001)),
            out(1001, 5001, Name(6), PORT),
            also(Want(0x0a00_0001, 40_001)),
        ],
        "rewrite 0\n",
    )
}

#[test]
fn texts_that_are_shorter_or_as_long(rt: HostRuntime) -> Result<(), Fail> {
    check(
        &rt,
        rt.alloc(),
        &[
            out(1001, 5001, Name(4), "PORT 010,000,000,001,156,065\r\n"),
            also(Want(OUTSIDE, 1025)),
            back(5001, 1021, Pass, ""),
            out(1031, 5001, Pass, ""),
        ],
        "rewrite 3\n\
         0.3 id=0 original seq=1001>1001 ack=5001>5001 text=504f5254203139322c302c322c312c342c310d0a\n\
         0.4 id=0 reply seq=5001>5001 ack=1021>1031\n\
         0.5 id=0 original seq=1031>1021 ack=5001>5001\n",
    )?;
    check(
        &rt,
        rt.alloc(),
        &[
            out(1001, 5001, Name(4), PORT),
            also(Want(0x0a00_0009, 40_001)),
            out(1023, 5001, Pass, ""),
        ],
        "rewrite 2\n\
         0.3 id=0 original seq=1001>1001 ack=5001>5001 text=504f52542031302c302c302c392c3135362c36350d0a\n\
         0.4 id=0 original seq=1023>1023 ack=5001>5001\n",
    )
}

#[test]
fn the_same_bytes_again(rt: HostRuntime) -> Result<(), Fail> {
    check(
        &rt,
        rt.alloc(),
        &[
            out(1001, 5001, Name(4), PORT),
            also(Want(OUTSIDE, 40_001)),
            out(1001, 5001, Name(6), PORT),
            also(Want(OUTSIDE, 40_001)),
            out(1023, 5001, Pass, "NOOP\r\n"),
            out(1001, 5001, Name(9), PORT),
            also(Want(OUTSIDE, 40_001)),
            // Its expectation clashes: it asks for nothing.
            out(1001, 5001, Clash, PORT),
        ],
        "rewrite 5\n\
         0.3 id=0 original seq=1001>1001 ack=5001>5001 text=504f5254203139322c302c322c312c3135362c36350d0a\n\
         0.4 id=0 original seq=1001>1001 ack=5001>5001 text=504f5254203139322c302c322c312c3135362c36350d0a\n\
         0.5 id=0 original seq=1023>1024 ack=5001>5001\n\
         0.6 id=0 original seq=1001>1001 ack=5001>5001 text=504f5254203139322c302c322c312c3135362c36350d0a\n\
         0.7 id=0 original seq=1001>1001 ack=5001>5001\n",
    )
}

#[test]
fn bytes_across_an_edit(rt: HostRuntime) -> Result<(), Fail> {
    check(
        &rt,
        rt.alloc(),
        &[
            out(1001, 5001, Name(4), PORT),
            also(Want(OUTSIDE, 40_001)),
            out(1005, 5001, Name(6), PORT),
            also(Want(OUTSIDE, 40_001)),
            out(1010, 5001, Pass, ""),
            back(5001, 1010, Pass, ""),
            back(5001, 1022, Pass, ""),
        ],
        "rewrite 5\n\
         0.3 id=0 original seq=1001>1001 ack=5001>5001 text=504f5254203139322c302c322c312c3135362c36350d0a\n\
         0.4 id=0 original seq=1005>1005 ack=5001>5001 text=kept\n\
         0.5 id=0 original seq=1010>1006 ack=5001>5001\n\
         0.6 id=0 reply seq=5001>5001 ack=1010>1006\n\
         0.7 id=0 reply seq=5001>5001 ack=1022>1021\n",
    )
}

#[test]
fn numbers_that_wrap(rt: HostRuntime) -> Result<(), Fail> {
    let steps = [
        out(0xffff_fff0, 0, Begin(true), ""),
        out(0xffff_fff1, 5001, Name(2), PORT),
        also(Want(OUTSIDE, 40_001)),
        back(5001, 8, Pass, ""),
        out(7, 5001, Pass, ""),
        out(3, 5001, Pass, ""),
    ];
    let sink = text_of(rt.alloc(), &steps)?;
    let text = "rewrite 4\n\
         0.1 id=0 original seq=4294967281>4294967281 ack=5001>5001 text=504f5254203139322c302c322c312c3135362c36350d0a\n\
         0.2 id=0 reply seq=5001>5001 ack=8>7\n\
         0.3 id=0 original seq=7>8 ack=5001>5001\n\
         0.4 id=0 original seq=3>4294967286 ack=5001>5001\n";
    assert_eq!(rt; sink.bytes(), text.as_bytes());
    Ok(())
}

#[test]
fn the_65th_edit(rt: HostRuntime) -> Result<(), Fail> {
    let mut steps: Vec<Step> = Vec::new(rt.alloc());
    steps.extend_from_slice(&opened())?;
    for index in 0..65u32 {
        let touched = 3 + 2 * u64::from(index);
        steps.push(out(1001 + 22 * index, 5001, Name(touched + 1), PORT))?;
        steps.push(also(Want(OUTSIDE, 40_001)))?;
    }
    let sink = text_of(rt.alloc(), steps.as_slice())?;
    assert!(rt; sink.bytes().starts_with("rewrite 65\n".as_bytes()));
    let first =
        "\n0.66 id=0 original seq=2387>2450 ack=5001>5001 text=504f5254203139322c302c322c312c3135362c36350d0a";
    let last = "\n0.67 id=0 original seq=2409>2473 ack=5001>5001 text=kept\n";
    assert!(rt; sink.bytes().ends_with(last.as_bytes()));
    let (front, _) = sink
        .bytes()
        .split_at(sink.bytes().len().saturating_sub(last.len()));
    assert!(rt; front.ends_with(first.as_bytes()));
    Ok(())
}

#[test]
fn two_connections_on_two_threads(rt: HostRuntime) -> Result<(), Fail> {
    let other = Step {
        thread: 1,
        id: 1,
        reply: false,
        seq: 9000,
        ack: 0,
        act: Begin(true),
        data: "",
    };
    let steps = [
        out(1000, 0, Begin(true), ""),
        other,
        out(1001, 1, Name(4), PORT),
        Step {
            seq: 9001,
            ack: 1,
            act: Name(5),
            data: PORT,
            ..other
        },
        also(Want(OUTSIDE, 40_001)),
        Step {
            act: Want(0x0a00_0009, 40_001),
            ..other
        },
        Step {
            seq: 9023,
            ack: 1,
            act: Pass,
            ..other
        },
        back(5000, 1024, Pass, ""),
    ];
    let sink = text_of(rt.alloc(), &steps)?;
    let text = "rewrite 4\n\
         0.1 id=0 original seq=1001>1001 ack=1>1 text=504f5254203139322c302c322c312c3135362c36350d0a\n\
         1.1 id=1 original seq=9001>9001 ack=1>1 text=504f52542031302c302c302c392c3135362c36350d0a\n\
         1.2 id=1 original seq=9023>9023 ack=1>1\n\
         0.2 id=0 reply seq=5000>5000 ack=1024>1023\n";
    assert_eq!(rt; sink.bytes(), text.as_bytes());
    Ok(())
}

#[test]
fn packets_without_a_line(rt: HostRuntime) -> Result<(), Fail> {
    // Not a Touch, and behind the end of the entry.
    check(
        &rt,
        rt.alloc(),
        &[
            out(1001, 5001, Name(4), PORT),
            also(Want(OUTSIDE, 40_001)),
            out(1023, 5001, Ignore, ""),
            out(1023, 5001, Reset, ""),
            out(1023, 5001, Pass, ""),
        ],
        "rewrite 1\n\
         0.3 id=0 original seq=1001>1001 ack=5001>5001 text=504f5254203139322c302c322c312c3135362c36350d0a\n",
    )?;
    // Another entry with the id of one that was flushed; and one without the helper.
    check(
        &rt,
        rt.alloc(),
        &[
            out(1001, 5001, Name(4), PORT),
            also(Want(OUTSIDE, 40_001)),
            also(Flush),
            out(3000, 5001, Begin(false), ""),
            out(3001, 5001, Name(8), PORT),
            also(Want(OUTSIDE, 40_001)),
        ],
        "rewrite 1\n\
         0.3 id=0 original seq=1001>1001 ack=5001>5001 text=504f5254203139322c302c322c312c3135362c36350d0a\n",
    )
}
