//! Files that are opened by name and read from their beginning.

ghost use Rattle.std.specs.Prelude.{◌≡◌, ◌<◌, ◌≤◌, true, false, None, length, IfOk, OnOk, OnErr};
ghost use Rattle.ct_io.specs.Counts.{Rose};
ghost use Rattle.ct_io.specs.Reading.{Took};
ghost use Rattle.ct_io.specs.Source.{OthersStandAtOpen, OthersStandAtRead, SameFaults, Source, Stays};

/// A call to the outside failed. The cause is not told; a count of the callee has risen.
#[derive(Clone, Copy, Debug)]
pub struct Failed;

/// A source of files, of which one at a time is open. A count of failures rises only where a call
/// fails.
pub trait Files {
    /// The contents of each file, what is left of the open one, and the counts of failures.
    ghost source: { Self → Source };

    /// Opens the file of this name at its beginning, and closes the one that was open. After a
    /// failure no file is open.
    fn open(&mut self, name: &str) -> Result<(), Failed>
        ensures stays { Stays (source self.old) (source self.new) }
        ensures opened { OnOk result ((source self.new).is_open ≡ true) }
        ensures whole { OnOk result ((source self.new).left ≡ (source self.old).contents name.now) }
        ensures same_faults { OnOk result (SameFaults (source self.old) (source self.new)) }
        ensures closed { OnErr result ((source self.new).is_open ≡ false) }
        ensures nothing_left { OnErr result ((source self.new).left ≡ None) }
        ensures failed { OnErr result
            (Rose ((source self.old).open_faults name.now) ((source self.new).open_faults name.now)) }
        ensures others { OnErr result
            (OthersStandAtOpen (source self.old) (source self.new) name.now) };

    /// Moves the next bytes of the open file into the front of `buf`, and says how many; fewer
    /// than fit may come, and none only at the file's end. After a failure the file is open and
    /// has as much left as before.
    fn read(&mut self, buf: &mut [u8]) -> Result<usize, Failed>
        requires open { (source self.old).is_open ≡ true }
        requires room { 0 < length buf.old }
        ensures stays { Stays (source self.old) (source self.new) }
        ensures stays_open { (source self.new).is_open ≡ true }
        ensures fits { IfOk result (λ n. n ≤ length buf.new) }
        ensures took { IfOk result (λ n.
            Took (source self.old).left n buf.new (source self.new).left) }
        ensures same_faults { OnOk result (SameFaults (source self.old) (source self.new)) }
        ensures same_left { OnErr result ((source self.new).left ≡ (source self.old).left) }
        ensures failed { OnErr result
            (Rose (source self.old).read_faults (source self.new).read_faults) }
        ensures others { OnErr result (OthersStandAtRead (source self.old) (source self.new)) };
}
