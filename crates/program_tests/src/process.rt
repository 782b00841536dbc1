//! The steps between a process and the program: its words, and its exit code.

use ct_io::MemSink;
use replay_top::{Run, collect_words, exit_code, run_without_words};
use std::io;
use std::io::ErrorKind;
use std::process::ExitCode;
use std::test::Fail;

#[test]
fn words_of_a_process(rt: HostRuntime) -> Result<(), Fail> {
    let alloc = rt.alloc();
    let mut given = Vec::new(alloc);
    for word in ["ctreplay", "c.pcap"] {
        given.push(String::from_str(alloc, word)?)?;
    }
    let words = collect_words(alloc, Ok(given.into_iter()))?;
    assert_eq!(rt; words.len(), 2);
    assert!(rt; words[0].as_str() == "ctreplay");
    assert!(rt; words[1].as_str() == "c.pcap");
    let no_text = collect_words(alloc, Err(io::Error::from(ErrorKind::InvalidData)))?;
    assert!(rt; no_text.is_empty());
    let wanting = collect_words(alloc, Err(io::Error::from(ErrorKind::OutOfMemory)));
    assert!(rt; wanting.is_err());
    Ok(())
}

#[test]
fn a_run_without_words(rt: HostRuntime) -> Result<(), Fail> {
    let mut err = MemSink::new(rt.alloc(), 100, &[])?;
    let run = run_without_words(&mut err);
    assert_eq!(rt; run.status, 6);
    assert!(rt; err.bytes() == b"ctreplay: out of memory\n".as_slice());
    Ok(())
}

#[test]
fn exit_codes(rt: HostRuntime) {
    for status in 0..7 {
        let run = Run {
            status,
            report: None,
            heard: None,
        };
        assert!(rt; exit_code(&run) == ExitCode::from(status));
    }
}
