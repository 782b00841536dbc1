//! Files in memory.

ghost use Rattle.std.specs.Prelude.{◌≡◌, ◌≢◌, ◌+◌, ◌<◌, ◌≤◌, ℕ, List, [], true, false, None, Some, length, min, drop, is_some, is_err, IfOk, IfSome, IsSome, OnOk, OnErr};
ghost use Rattle.ct_io.specs.Counts.{Rose, risen};
ghost use Rattle.ct_io.specs.MemFiles.{contents_of, is_next_failing, is_open_failing, left_in, open_faults_of, place_in, source_of};
ghost use Rattle.ct_io.specs.Reading.{Took};
ghost use Rattle.ct_io.specs.Source.{OthersStandAtOpen, OthersStandAtRead, SameFaults, Stays};

use crate::counts::{is_to_fail, one_more};
use crate::mem_file::{MemFile, count_fault_at, place_of, push_file, replace_at};
use crate::{Failed, Files};
use std::alloc::Global;
use std::marker::Model;
use tuple_core::NoMemory;

/// Files that are kept in memory, for tests. Calls of `open` and `read` are numbered from 0
/// together, and some of them fail: those whose numbers it was made with, and each `open` of a name
/// that was not added. Each added name has an open count of its own; all other names share one.
#[derive(Drop)]
pub struct MemFiles {
    alloc: Global,
    files: Vec<MemFile>,
    open_place: Option<usize>,
    taken: usize,
    fails: Vec<u64>,
    calls: u64,
    unknown_faults: u64,
    read_faults: u64,
}

impl Model for MemFiles {
    ghost use Rattle.std.specs.Prelude.{◌<◌, length};
    ghost use Rattle.std.specs.Option.{ForSome};
    ghost use Rattle.ct_io.specs.MemFiles.{Shelf};

    ghost Value = { Shelf };

    ghost view = { λ s. record {
      files = s.files.items;
      open_place = s.open_place;
      taken = s.taken;
      fails = s.fails.items;
      calls = s.calls;
      unknown_faults = s.unknown_faults;
      read_faults = s.read_faults;
    } };

    ghost invariant = { λ s. ForSome s.open_place (λ i. i < length s.files.items) };
}

impl MemFiles {
    /// No files, and none is open. The calls with the numbers `fails` are to fail.
    pub fn new(alloc: Global, fails: &[u64]) -> Result<MemFiles, NoMemory>
        ensures no_files { IfOk result (λ s. s.files ≡ []) }
        ensures closed { IfOk result (λ s. s.open_place ≡ None) }
        ensures fails { IfOk result (λ s. s.fails ≡ fails.now) }
        ensures no_calls { IfOk result (λ s. s.calls ≡ 0) }
        ensures no_open_faults { IfOk result (λ s. (n : List ℕ) → open_faults_of s n ≡ 0) }
        ensures no_read_faults { IfOk result (λ s. s.read_faults ≡ 0) }
    {
        Ok(MemFiles {
            alloc,
            files: Vec::new(alloc),
            open_place: None,
            taken: 0,
            fails: Vec::from_slice(alloc, fails)?,
            calls: 0,
            unknown_faults: 0,
            read_faults: 0,
        })
    }

    /// Adds a file, or gives the file of this name other contents. A name that is new begins with
    /// the open count that all unknown names share. A file that is open stays open; if it is the
    /// one of this name, its new contents are read on from where it stands. On `NoMemory` all is as
    /// before.
    #[tactic(auto, using(crate::proofs::Found::other_place))]
    pub fn add(&mut self, name: &str, bytes: &[u8]) -> Result<(), NoMemory>
        ensures contents { OnOk result (contents_of self.new name.now ≡ Some bytes.now) }
        ensures other_contents { (n : List ℕ) → n ≢ name.now → contents_of self.new n
            ≡ contents_of self.old n }
        ensures same_open_faults { (n : List ℕ) → open_faults_of self.new n
            ≡ open_faults_of self.old n }
        ensures only_files { self.new ≡ record self.old { files = self.new.files } }
        ensures left_of_replaced { OnOk result ((i : ℕ) → self.old.open_place ≡ Some i →
            place_in self.old.files name.now ≡ Some i → left_in self.new
            ≡ Some (drop self.old.taken bytes.now)) }
        ensures left_of_others { self.old.open_place ≢ place_in self.old.files name.now →
            left_in self.new ≡ left_in self.old }
        ensures err { OnErr result (self.new ≡ self.old) }
    {
        let bytes = Vec::from_slice(self.alloc, bytes)?;
        match place_of(self.files.as_slice(), name) {
            Some(place) => replace_at(&mut self.files, place, bytes),
            None => {
                self.files.try_reserve(1)?;
                let file = MemFile {
                    name: String::from_str(self.alloc, name)?,
                    bytes,
                    faults: self.unknown_faults,
                };
                push_file(&mut self.files, file);
            }
        }
        Ok(())
    }

    /// Numbers a call, and says whether it is to fail.
    fn next_call(&mut self) -> bool
        ensures answer { result ≡ is_next_failing self.old }
        ensures counted { self.new ≡ record self.old { calls = risen self.old.calls } }
    {
        let fails = is_to_fail(self.fails.as_slice(), self.calls);
        self.calls = one_more(self.calls);
        fails
    }
}

impl Files for MemFiles {
    ghost source = { λ s. source_of s };

    #[tactic(auto, using(crate::proofs::Found::opening))]
    fn open(&mut self, name: &str) -> Result<(), Failed>
        ensures stays { Stays (source_of self.old) (source_of self.new) }
        ensures opened { OnOk result (is_some self.new.open_place ≡ true) }
        ensures whole { OnOk result (left_in self.new ≡ contents_of self.old name.now) }
        ensures same_faults { OnOk result (SameFaults (source_of self.old) (source_of self.new)) }
        ensures closed { OnErr result (is_some self.new.open_place ≡ false) }
        ensures nothing_left { OnErr result (left_in self.new ≡ None) }
        ensures failed { OnErr result
            (Rose (open_faults_of self.old name.now) (open_faults_of self.new name.now)) }
        ensures others { OnErr result
            (OthersStandAtOpen (source_of self.old) (source_of self.new) name.now) }
        ensures exactly { is_err result ≡ is_open_failing self.old name.now }
        ensures ok { OnOk result (self.new ≡ record self.old {
          open_place = place_in self.old.files name.now;
          taken = 0;
          calls = risen self.old.calls;
        }) }
        ensures err { OnErr result (self.new ≡ record self.old {
          open_place = None;
          files = self.new.files;
          calls = risen self.old.calls;
          unknown_faults = self.new.unknown_faults;
        }) }
        ensures counted { OnErr result (open_faults_of self.new name.now
            ≡ risen (open_faults_of self.old name.now)) }
        ensures own_count { IsSome (contents_of self.old name.now) → (n : List ℕ) → n ≢ name.now →
            open_faults_of self.new n ≡ open_faults_of self.old n }
        ensures other_counts { (n : List ℕ) → n ≢ name.now → IsSome (contents_of self.old n) →
            open_faults_of self.new n ≡ open_faults_of self.old n }
    {
        self.open_place = None;
        let fails = self.next_call();
        match place_of(self.files.as_slice(), name) {
            Some(place) => {
                if fails {
                    count_fault_at(&mut self.files, place);
                    return Err(Failed);
                }
                self.open_place = Some(place);
                self.taken = 0;
                Ok(())
            }
            None => {
                self.unknown_faults = one_more(self.unknown_faults);
                Err(Failed)
            }
        }
    }

    fn read(&mut self, buf: &mut [u8]) -> Result<usize, Failed>
        requires open { is_some self.old.open_place ≡ true }
        requires room { 0 < length buf.old }
        ensures stays { Stays (source_of self.old) (source_of self.new) }
        ensures stays_open { is_some self.new.open_place ≡ true }
        ensures fits { IfOk result (λ n. n ≤ length buf.new) }
        ensures took { IfOk result (λ n. Took (left_in self.old) n buf.new (left_in self.new)) }
        ensures same_faults { OnOk result (SameFaults (source_of self.old) (source_of self.new)) }
        ensures same_left { OnErr result (left_in self.new ≡ left_in self.old) }
        ensures failed { OnErr result (Rose self.old.read_faults self.new.read_faults) }
        ensures others { OnErr result
            (OthersStandAtRead (source_of self.old) (source_of self.new)) }
        ensures exactly { is_err result ≡ is_next_failing self.old }
        ensures most { IfOk result (λ n. IfSome (left_in self.old) (λ left. n
            ≡ min (length buf.new) (length left))) }
        ensures ok { IfOk result (λ n. self.new
            ≡ record self.old { taken = self.old.taken + n; calls = risen self.old.calls }) }
        ensures err { OnErr result (self.new
            ≡ record self.old {
              calls = risen self.old.calls;
              read_faults = risen
                  self.old.read_faults;
            }) }
    {
        if self.next_call() {
            self.read_faults = one_more(self.read_faults);
            return Err(Failed);
        }
        match self.open_place {
            Some(place) => {
                let n = self.files[place].copy_from(self.taken, buf);
                self.taken += n;
                Ok(n)
            }
            None => unreachable!(),
        }
    }
}
