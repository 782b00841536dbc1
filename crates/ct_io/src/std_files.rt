//! The files of the system.

ghost use Rattle.std.specs.Prelude.{◌≡◌, ◌<◌, ◌≤◌, true, None, length, is_some, IfOk, OnOk, OnErr};
ghost use Rattle.std.specs.Io.KnownBytes.{ReadConsumes};
ghost use Rattle.ct_io.specs.Counts.{Rose};
ghost use Rattle.ct_io.specs.Reading.{Took};
ghost use Rattle.ct_io.specs.Source.{OthersStandAtRead, SameFaults, Stays};
ghost use Rattle.ct_io.specs.Untold.{left_under, untold_source};

use crate::counts::one_more;
use crate::{Failed, Files};
use std::io::Read;
use std::marker::Model;
use std::{fs, rt};

/// The files of the system, through the runtime. Their contents are not told. One count rises at
/// each error and stands still at its end; it counts failures of reading and of opening any name.
/// An interrupted call is an error like any other.
#[derive(Drop)]
pub struct StdFiles<'r, R: rt::Files> {
    rt: &'r R,
    file: Option<R::File>,
    faults: u64,
}

impl<'r, R: rt::Files> Model for StdFiles<'r, R> {
    ghost use Rattle.ct_io.specs.Untold.{Untold};

    ghost Value = { Untold R.File };

    ghost view = { λ s. record { file = s.file; faults = s.faults } };
}

impl<'r, R: rt::Files> StdFiles<'r, R> {
    /// No file is open, and nothing has failed.
    pub fn new(rt: &'r R) -> Self
        ensures closed { result.file ≡ None }
        ensures no_faults { result.faults ≡ 0 }
    {
        StdFiles {
            rt,
            file: None,
            faults: 0,
        }
    }

    fn count_fault(&mut self) -> Failed
        ensures same_file { self.new.file ≡ self.old.file }
        ensures rose { Rose self.old.faults self.new.faults }
        ensures stays { self.old.faults ≤ self.new.faults }
    {
        self.faults = one_more(self.faults);
        Failed
    }
}

impl<'r, R: rt::Files> Files for StdFiles<'r, R> {
    ghost source = { λ s. untold_source s };

    fn open(&mut self, name: &str) -> Result<(), Failed> {
        self.file = None;
        match fs::open(self.rt, name) {
            Ok(file) => {
                self.file = Some(file);
                Ok(())
            }
            Err(_) => Err(self.count_fault()),
        }
    }

    fn read(&mut self, buf: &mut [u8]) -> Result<usize, Failed>
        requires open { is_some self.old.file ≡ true }
        requires room { 0 < length buf.old }
        ensures stays { Stays (untold_source self.old) (untold_source self.new) }
        ensures stays_open { is_some self.new.file ≡ true }
        ensures fits { IfOk result (λ n. n ≤ length buf.new) }
        ensures took { IfOk result (λ n.
            Took (untold_source self.old).left n buf.new (untold_source self.new).left) }
        ensures same_faults { OnOk result
            (SameFaults (untold_source self.old) (untold_source self.new)) }
        ensures same_left { OnErr result
            ((untold_source self.new).left ≡ (untold_source self.old).left) }
        ensures failed { OnErr result (Rose self.old.faults self.new.faults) }
        ensures others { OnErr result
            (OthersStandAtRead (untold_source self.old) (untold_source self.new)) }

        // Where the reader under the open file tells what it has left, these are the bytes read.
        ensures passed_on { ReadConsumes (left_under R.File.remaining self.old.file)
            (left_under R.File.remaining self.new.file) result buf.new }
    {
        match &mut self.file {
            Some(file) => match file.read(buf) {
                Ok(n) => Ok(n),
                Err(_) => Err(self.count_fault()),
            },
            None => unreachable!(),
        }
    }
}
