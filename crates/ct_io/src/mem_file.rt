//! One file in memory, and the search for a file by its name.

ghost use Rattle.std.specs.Prelude.{◌≡◌, ◌≢◌, ℕ, ◌+◌, ◌-◌, ◌^◌, ◌<◌, ◌≤◌, List, None, Some, length, min, take, drop, IfSome, Option, vec_capacity, vec_len};
ghost use Rattle.std.specs.Option.{ForSome};
ghost use Rattle.ct_io.specs.Counts.{Rose, risen};
ghost use Rattle.ct_io.specs.MemFiles.{contents_in, faults_in, is_named, left_at, place_in};

use crate::counts::one_more;
use std::marker::Model;

/// A file's name and contents, and how often opening it failed.
#[derive(Drop)]
pub(crate) struct MemFile {
    pub(crate) name: String,
    pub(crate) bytes: Vec<u8>,
    pub(crate) faults: u64,
}

impl Model for MemFile {
    ghost use Rattle.std.specs.Prelude.{string_bytes};
    ghost use Rattle.ct_io.specs.MemFiles.{Kept};

    ghost Value = { Kept };

    ghost view = { λ f. record {
      name = string_bytes f.name;
      bytes = f.bytes.items;
      faults = f.faults;
    } };
}

impl MemFile {
    pub(crate) fn is_named(&self, name: &str) -> bool
        ensures { result ≡ is_named name.now self.now }
    {
        self.name.as_str() == name
    }

    pub(crate) fn count_fault(&mut self)
        ensures rose { Rose self.old.faults self.new.faults }
        ensures counted { self.new ≡ record self.old { faults = risen self.old.faults } }
    {
        self.faults = one_more(self.faults);
    }

    pub(crate) fn replace(&mut self, bytes: Vec<u8>)
        ensures name { self.new.name ≡ self.old.name }
        ensures bytes { self.new.bytes ≡ bytes.items }
        ensures faults { self.new.faults ≡ self.old.faults }
    {
        self.bytes = bytes;
    }

    /// Copies what follows the first `taken` bytes into the front of `buf`, as much as fits.
    pub(crate) fn copy_from(&self, taken: usize, buf: &mut [u8]) -> usize
        ensures count { result ≡ min (length buf.old) (length (drop taken self.now.bytes)) }
        ensures moved { take result buf.new ≡ take result (drop taken self.now.bytes) }
        ensures fits { taken + result ≤ 2 ^ 64 - 1 }
    {
        copy_out(self.bytes.as_slice(), taken, buf)
    }
}

fn copy_out(bytes: &[u8], taken: usize, buf: &mut [u8]) -> usize
    ensures count { result ≡ min (length buf.old) (length (drop taken bytes.now)) }
    ensures moved { take result buf.new ≡ take result (drop taken bytes.now) }
    ensures fits { taken + result ≤ 2 ^ 64 - 1 }
{
    let rest = bytes.split_at(taken.min(bytes.len())).1;
    let n = buf.len().min(rest.len());
    buf.split_at_mut(n).0.copy_from_slice(rest.split_at(n).0);
    n
}

/// The place of the file of this name.
pub(crate) fn place_of(files: &[MemFile], name: &str) -> Option<usize>
    ensures place { result ≡ place_in files.now name.now }
    ensures within { IfSome result (λ i. i < length files.now) }
{
    files.iter().position(|f| f.is_named(name))
}

/// Counts a failure of opening the file at `place`.
#[tactic(auto, using(crate::proofs::Found::counted))]
pub(crate) fn count_fault_at(files: &mut Vec<MemFile>, place: usize)
    requires { place < vec_len files.old }
    ensures same_length { vec_len files.new ≡ vec_len files.old }
    ensures same_contents { (n : List ℕ) → contents_in files.new.items n
        ≡ contents_in files.old.items n }
    ensures own { (n : List ℕ) → place_in files.old.items n ≡ Some place → (u : ℕ) →
        faults_in u files.new.items n ≡ risen (faults_in u files.old.items n) }
    ensures rose { (n : List ℕ) → place_in files.old.items n ≡ Some place → (u : ℕ) →
        Rose (faults_in u files.old.items n) (faults_in u files.new.items n) }
    ensures others { (n : List ℕ) → place_in files.old.items n ≢ Some place → (u : ℕ) →
        faults_in u files.new.items n ≡ faults_in u files.old.items n }
{
    files[place].count_fault();
}

/// Gives the file at `place` other contents.
#[tactic(auto, using(crate::proofs::Found::replaced))]
pub(crate) fn replace_at(files: &mut Vec<MemFile>, place: usize, bytes: Vec<u8>)
    requires { place < vec_len files.old }
    ensures same_length { vec_len files.new ≡ vec_len files.old }
    ensures contents { (n : List ℕ) → place_in files.old.items n ≡ Some place →
        contents_in files.new.items n ≡ Some bytes.items }
    ensures others { (n : List ℕ) → place_in files.old.items n ≢ Some place →
        contents_in files.new.items n ≡ contents_in files.old.items n }
    ensures same_faults { (n : List ℕ) (u : ℕ) → faults_in u files.new.items n
        ≡ faults_in u files.old.items n }
    ensures left { (taken : ℕ) → left_at files.new.items (Some place) taken
        ≡ Some (drop taken bytes.items) }
    ensures left_of_others { (other : Option ℕ) (taken : ℕ) → other ≢ Some place →
        left_at files.new.items other taken ≡ left_at files.old.items other taken }
{
    files[place].replace(bytes);
}

/// Puts a file with a new name behind the others. Takes no memory.
#[tactic(auto, using(crate::proofs::Found::pushed))]
pub(crate) fn push_file(files: &mut Vec<MemFile>, file: MemFile)
    requires new_name { place_in files.old.items file.name ≡ None }
    requires room { vec_len files.old < vec_capacity files.old }
    ensures longer { vec_len files.new ≡ vec_len files.old + 1 }
    ensures contents { contents_in files.new.items file.name ≡ Some file.bytes }
    ensures others { (n : List ℕ) → n ≢ file.name → contents_in files.new.items n
        ≡ contents_in files.old.items n }
    ensures same_faults { (n : List ℕ) → faults_in file.faults files.new.items n
        ≡ faults_in file.faults files.old.items n }
    ensures same_left { (place : Option ℕ) (taken : ℕ) →
        ForSome place (λ i. i < vec_len files.old) → left_at files.new.items place taken
        ≡ left_at files.old.items place taken }
{
    files.push_reserved(file);
}
