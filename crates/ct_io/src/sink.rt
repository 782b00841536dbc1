//! Sinks that take bytes, a piece at a time.

ghost use Rattle.std.specs.Prelude.{◌≡◌, ◌<◌, ◌≤◌, length, IfOk, OnOk, OnErr};
ghost use Rattle.ct_io.specs.Counts.{Rose};
ghost use Rattle.ct_io.specs.Tape.{Tape};
ghost use Rattle.ct_io.specs.Writing.{Appended};

use crate::Failed;

/// Something that takes bytes. The count of failures rises only where a call fails.
pub trait Sink {
    /// The bytes written so far, and the count of failures.
    ghost tape: { Self → Tape };

    /// Writes the first bytes of `piece`, at least one, and says how many. After a failure nothing
    /// of it has been written.
    fn write(&mut self, piece: &[u8]) -> Result<usize, Failed>
        requires piece { 0 < length piece.now }
        ensures some { IfOk result (λ n. 1 ≤ n) }
        ensures fits { IfOk result (λ n. n ≤ length piece.now) }
        ensures appended { IfOk result (λ n. (tape self.new).written
            ≡ Appended (tape self.old).written n piece.now) }
        ensures same_faults { OnOk result ((tape self.new).faults ≡ (tape self.old).faults) }
        ensures nothing { OnErr result ((tape self.new).written ≡ (tape self.old).written) }
        ensures failed { OnErr result (Rose (tape self.old).faults (tape self.new).faults) }
        ensures faults_stay { (tape self.old).faults ≤ (tape self.new).faults };
}
