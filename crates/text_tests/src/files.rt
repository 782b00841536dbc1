//! Each public call once, and one failing call of each kind.

use ct_io::{Crossing, Files, Gate, MemFiles, MemSink, NoGate, Sink, StdFiles, StdSink};
use std::io;
use std::io::Write;
use std::test::Fail;

/// Opens a file and reads its first bytes. None where a call fails.
fn read_front<F: Files>(files: &mut F, name: &str, buf: &mut [u8; 4]) -> Option<usize> {
    files.open(name).ok()?;
    files.read(buf).ok()
}

#[test]
fn files_in_memory(rt: HostRuntime) -> Result<(), Fail> {
    let mut files = MemFiles::new(rt.alloc(), &[3, 5])?;
    let mut buf = [0u8; 4];
    files.add("one", b"first")?;
    files.add("two", b"no")?;
    files.add("one", b"other")?;

    // Calls 0 and 1, 2 and 3, 4 (the name is unknown), 5, and 6 and 7.
    assert_eq!(rt; read_front(&mut files, "one", &mut buf), Some(4));
    assert_eq!(rt; &buf, b"othe");
    assert_eq!(rt; read_front(&mut files, "two", &mut buf), None);
    assert_eq!(rt; read_front(&mut files, "three", &mut buf), None);
    assert_eq!(rt; read_front(&mut files, "two", &mut buf), None);
    assert_eq!(rt; read_front(&mut files, "two", &mut buf), Some(2));
    assert_eq!(rt; &buf, b"nohe");
    Ok(())
}

#[test]
fn a_file_that_is_added_while_it_is_open(rt: HostRuntime) -> Result<(), Fail> {
    let mut files = MemFiles::new(rt.alloc(), &[])?;
    let mut buf = [0u8; 2];
    files.add("one", b"first")?;
    assert!(rt; files.open("one").is_ok());
    assert_eq!(rt; files.read(&mut buf).ok(), Some(2));
    files.add("two", b"second")?;
    assert_eq!(rt; files.read(&mut buf).ok(), Some(2));
    assert_eq!(rt; buf.as_slice(), b"rs".as_slice());
    files.add("one", b"12345678")?;
    assert_eq!(rt; files.read(&mut buf).ok(), Some(2));
    assert_eq!(rt; buf.as_slice(), b"56".as_slice());
    files.add("one", b"1")?;
    assert_eq!(rt; files.read(&mut buf).ok(), Some(0));
    Ok(())
}

#[test]
fn a_sink_in_memory(rt: HostRuntime) -> Result<(), Fail> {
    let mut sink = MemSink::new(rt.alloc(), 8, &[1])?;
    assert_eq!(rt; sink.write(b"one").ok(), Some(3));
    assert_eq!(rt; sink.write(b"lost").ok(), None);
    assert_eq!(rt; sink.write(b"second").ok(), Some(5));
    assert_eq!(rt; sink.write(b"late").ok(), None);
    assert_eq!(rt; sink.bytes(), b"onesecon".as_slice());
    Ok(())
}

#[test]
fn files_of_the_system(rt: HostRuntime) {
    let mut files = StdFiles::new(&rt);
    let mut buf = [7u8; 4];
    assert_eq!(rt;
        read_front(&mut files, "/no such folder/no such file", &mut buf),
        None
    );
    assert_eq!(rt; read_front(&mut files, "/dev/null", &mut buf), Some(0));
    assert_eq!(rt; read_front(&mut files, "/dev/zero", &mut buf), Some(4));
    assert_eq!(rt; buf, [0; 4]);
}

/// A writer that takes nothing.
#[derive(Drop)]
struct Full;

impl Write for Full {
    fn write(&mut self, _buf: &[u8]) -> io::Result<usize> {
        Ok(0)
    }

    fn flush(&mut self) -> io::Result<()> {
        Ok(())
    }
}

#[test]
fn writers_of_the_system(rt: HostRuntime) {
    let mut sink = StdSink::new(io::sink());
    assert_eq!(rt; sink.write(b"piece").ok(), Some(5));
    let mut full = StdSink::new(Full);
    assert_eq!(rt; full.write(b"piece").ok(), None);
}

#[test]
fn an_open_gate() {
    NoGate.at(0, Crossing::BeforePacket);
    NoGate.at(1, Crossing::BeforeCommand);
    NoGate.at(2, Crossing::InConfirm);
    NoGate.at(3, Crossing::Heard);
}
