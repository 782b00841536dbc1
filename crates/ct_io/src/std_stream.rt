//! The output streams of the system, as one type.

ghost use Rattle.std.specs.Prelude.{◌≡◌};

use crate::StdSink;
use std::io::{Result, Write};
use std::rt::{Stderr, Stdout};

/// The standard output or the standard error. Neither keeps bytes back.
#[derive(Clone, Copy)]
pub enum StdStream {
    Output(Stdout),
    Error(Stderr),
}

impl Write for StdStream {
    fn write(&mut self, piece: &[u8]) -> Result<usize> {
        match self {
            StdStream::Output(stream) => stream.write(piece),
            StdStream::Error(stream) => stream.write(piece),
        }
    }

    fn flush(&mut self) -> Result<()> {
        match self {
            StdStream::Output(stream) => stream.flush(),
            StdStream::Error(stream) => stream.flush(),
        }
    }
}

impl StdSink<StdStream> {
    /// The standard output. Nothing is written yet, and nothing has failed.
    pub fn out(stream: Stdout) -> Self
        ensures writer { result.writer ≡ StdStream.Output stream }
        ensures no_faults { result.faults ≡ 0 }
    {
        StdSink::new(StdStream::Output(stream))
    }

    /// The standard error. Nothing is written yet, and nothing has failed.
    pub fn err(stream: Stderr) -> Self
        ensures writer { result.writer ≡ StdStream.Error stream }
        ensures no_faults { result.faults ≡ 0 }
    {
        StdSink::new(StdStream::Error(stream))
    }
}
