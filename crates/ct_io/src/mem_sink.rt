//! A sink in memory.

ghost use Rattle.std.specs.Prelude.{◌≡◌, ◌-◌, ◌≤◌, [], ◌++◌, length, min, take, is_err, IfOk, OnOk, OnErr};
ghost use Rattle.std.specs.Prelude.{◌<◌, Some};
ghost use Rattle.ct_io.specs.Counts.{Rose, risen};
ghost use Rattle.ct_io.specs.MemSink.{is_write_failing};
ghost use Rattle.ct_io.specs.Writing.{Appended};

use crate::counts::{is_to_fail, one_more};
use crate::{Failed, Sink};
use std::alloc::Global;
use std::marker::Model;
use tuple_core::NoMemory;

/// A sink that keeps what is written, for tests. Its writes are numbered from 0, and some of them
/// fail: those whose numbers it was made with, and those for which there is no room at all.
#[derive(Drop)]
pub struct MemSink {
    bytes: Vec<u8>,
    room: usize,
    fails: Vec<u64>,
    writes: u64,
    faults: u64,
}

impl Model for MemSink {
    ghost use Rattle.std.specs.Prelude.{◌≤◌, length};
    ghost use Rattle.std.specs.Vec.{vec_capacity, vec_len};
    ghost use Rattle.ct_io.specs.MemSink.{Written};

    ghost Value = { Written };

    ghost view = { λ s. record {
      bytes = s.bytes.items;
      room = s.room;
      fails = s.fails.items;
      writes = s.writes;
      faults = s.faults;
    } };

    ghost invariant = { λ s. (vec_len s.bytes ≤ s.room) × (s.room ≤ vec_capacity s.bytes) };
}

impl MemSink {
    /// An empty sink with room for `room` bytes, in which the writes with the numbers `fails` are
    /// to fail.
    pub fn new(alloc: Global, room: usize, fails: &[u64]) -> Result<MemSink, NoMemory>
        ensures empty { IfOk result (λ s. s.bytes ≡ []) }
        ensures room { IfOk result (λ s. s.room ≡ room) }
        ensures fails { IfOk result (λ s. s.fails ≡ fails.now) }
        ensures no_writes { IfOk result (λ s. s.writes ≡ 0) }
        ensures no_faults { IfOk result (λ s. s.faults ≡ 0) }
    {
        Ok(MemSink {
            bytes: Vec::with_capacity(alloc, room)?,
            room,
            fails: Vec::from_slice(alloc, fails)?,
            writes: 0,
            faults: 0,
        })
    }

    /// All bytes written so far.
    pub fn bytes(&self) -> &[u8]
        ensures { result.now ≡ self.now.bytes }
    {
        self.bytes.as_slice()
    }
}

impl Sink for MemSink {
    ghost use Rattle.std.specs.Prelude.{Some};

    ghost tape = { λ s. record { written = Some s.bytes; faults = s.faults } };

    /// Takes no memory. As many bytes as fit are written.
    fn write(&mut self, piece: &[u8]) -> Result<usize, Failed>
        requires piece { 0 < length piece.now }
        ensures some { IfOk result (λ n. 1 ≤ n) }
        ensures fits { IfOk result (λ n. n ≤ length piece.now) }
        ensures appended { IfOk result (λ n. Some self.new.bytes
            ≡ Appended (Some self.old.bytes) n piece.now) }
        ensures same_faults { OnOk result (self.new.faults ≡ self.old.faults) }
        ensures nothing { OnErr result (Some self.new.bytes ≡ Some self.old.bytes) }
        ensures failed { OnErr result (Rose self.old.faults self.new.faults) }
        ensures faults_stay { self.old.faults ≤ self.new.faults }
        ensures counted { OnErr result (self.new.faults ≡ risen self.old.faults) }
        ensures exactly { is_err result ≡ is_write_failing self.old }
        ensures most { IfOk result (λ n. n
            ≡ min (length piece.now) (self.old.room - length self.old.bytes)) }
        ensures same_room { self.new.room ≡ self.old.room }
        ensures same_fails { self.new.fails ≡ self.old.fails }
        ensures numbered { self.new.writes ≡ risen self.old.writes }
    {
        let fails = is_to_fail(self.fails.as_slice(), self.writes) || self.bytes.len() >= self.room;
        self.writes = one_more(self.writes);
        if fails {
            self.faults = one_more(self.faults);
            return Err(Failed);
        }
        let n = piece.len().min(self.room - self.bytes.len());
        match self.bytes.extend_from_slice(piece.split_at(n).0) {
            Ok(()) => Ok(n),
            Err(_) => unreachable!(),
        }
    }
}
