//! The output streams of the system.

ghost use Rattle.std.specs.Prelude.{◌≡◌, ◌<◌, ◌≤◌, length, IfOk, OnOk, OnErr};
ghost use Rattle.std.specs.Io.KnownBytes.{WriteAppends};
ghost use Rattle.ct_io.specs.Counts.{Rose};

use crate::counts::one_more;
use crate::{Failed, Sink};
use std::io::Write;
use std::marker::Model;

/// A writer of the system, as the runtime's standard output or standard error. What was written is
/// not told. A count rises at each error and stands still at its end. An interrupted call is an
/// error like any other, and so is one that takes nothing. Nothing is flushed: the writer is one
/// that keeps nothing back.
#[derive(Drop)]
pub struct StdSink<W> {
    writer: W,
    faults: u64,
}

impl<W> Model for StdSink<W> {
    ghost use Rattle.ct_io.specs.Outlet.{Outlet};

    ghost Value = { Outlet W };

    ghost view = { λ s. record { writer = s.writer; faults = s.faults } };
}

impl<W: Write + Drop> StdSink<W> {
    /// Nothing has failed.
    pub fn new(writer: W) -> Self
        ensures writer { result.writer ≡ writer }
        ensures no_faults { result.faults ≡ 0 }
    {
        StdSink { writer, faults: 0 }
    }
}

impl<W: Write + Drop> Sink for StdSink<W> {
    ghost use Rattle.std.specs.Prelude.{None};

    ghost tape = { λ s. record { written = None; faults = s.faults } };

    fn write(&mut self, piece: &[u8]) -> Result<usize, Failed>
        requires piece { 0 < length piece.now }
        ensures some { IfOk result (λ n. 1 ≤ n) }
        ensures fits { IfOk result (λ n. n ≤ length piece.now) }
        ensures same_faults { OnOk result (self.new.faults ≡ self.old.faults) }
        ensures failed { OnErr result (Rose self.old.faults self.new.faults) }
        ensures faults_stay { self.old.faults ≤ self.new.faults }

        // Where the writer tells its bytes, as one in memory does, these are the bytes written.
        ensures passed_on { WriteAppends (W.contents self.old.writer)
            (W.contents self.new.writer) result piece.now }
    {
        match self.writer.write(piece) {
            Ok(n) if 0 < n => Ok(n),
            Ok(_) | Err(_) => {
                self.faults = one_more(self.faults);
                Err(Failed)
            }
        }
    }
}
