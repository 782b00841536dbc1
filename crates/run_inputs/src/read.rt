//! A whole file, read in pieces.

ghost use Rattle.std.specs.Prelude.{◌≡◌, ◌≢◌, ◌<◌, ◌≤◌, Err, length, vec_len, IfOk, IfSome};
ghost use Rattle.ct_io.specs.Source.{SameFaults, Stays};
ghost use Rattle.run_inputs.specs.Causes.{OpeningFailed, ReadingFailed};

use ct_io::Files;
use room_list::Bytes;
use std::alloc::Global;
use tuple_core::NoMemory;

/// The most bytes that one read takes.
const PIECE: usize = 65_536;

/// Why a file was not read.
#[derive(Clone, Copy)]
pub enum ReadError {
    /// It could not be opened.
    Open,
    /// It was open, and a read failed.
    Read,
    /// It has more bytes than were asked for, and was read no further than shows this.
    TooLong,
    NoMemory,
}

impl From<NoMemory> for ReadError {
    ghost use Rattle.run_inputs.specs.declared.read.ReadError.{ReadError};

    ghost from_gives = { λ _ error. error ≡ ReadError.NoMemory };

    fn from(_error: NoMemory) -> ReadError {
        ReadError::NoMemory
    }
}

/// A place for the bytes of one read.
fn new_piece(alloc: Global) -> Result<Vec<u8>, NoMemory>
    ensures { IfOk result (λ piece. vec_len piece ≡ PIECE) }
{
    let piece = vec![in alloc; 0; PIECE]?;
    Ok(piece)
}

/// Reads the file of this name, of at most so many bytes, to its end. The file stays open.
#[tactic(auto, using(crate::proofs::Reading::nothing_read, crate::proofs::Reading::more_read, crate::proofs::Reading::all_read, crate::proofs::Reading::too_many, crate::proofs::Reading::read_failed))]
pub fn read_file<F: Files>(
    alloc: Global,
    files: &mut F,
    name: &str,
    most: usize,
) -> Result<Bytes, ReadError>
    ensures within { IfOk result (λ bytes. length bytes.items ≤ most) }
    ensures whole { IfOk result (λ bytes.
        IfSome ((F.source files.old).contents name.now) (λ contents. bytes.items ≡ contents)) }
    ensures too_long { result ≡ Err ReadError.TooLong →
        IfSome ((F.source files.old).contents name.now) (λ contents. most < length contents) }
    ensures open { result ≡ Err ReadError.Open →
        OpeningFailed (F.source files.old) (F.source files.new) name.now }
    ensures read { result ≡ Err ReadError.Read →
        ReadingFailed (F.source files.old) (F.source files.new) name.now (λ front. length front ≤ most) }
    ensures same_faults { result ≢ Err ReadError.Open → result ≢ Err ReadError.Read →
        SameFaults (F.source files.old) (F.source files.new) }
    ensures stays { Stays (F.source files.old) (F.source files.new) }
{
    let mut piece = new_piece(alloc)?;
    let mut bytes = Bytes::new(alloc, 0)?;
    let Ok(()) = files.open(name) else {
        return Err(ReadError::Open);
    };
    'pieces: loop {
        let Ok(count) = files.read(piece.as_mut_slice()) else {
            return Err(ReadError::Read);
        };
        if count == 0 {
            return Ok(bytes);
        }
        if count > most - bytes.len() {
            return Err(ReadError::TooLong);
        }
        bytes.append(piece.as_slice().split_at(count).0)?;
    }
}

#[cfg(test)]
mod tests {
    use super::{ReadError, read_file};
    use ct_io::MemFiles;
    use std::alloc::{AllocError, Global};
    use std::test::Fail;

    /// So many bytes, none of which are as those one piece before them.
    fn patterned(alloc: Global, length: usize) -> Result<Vec<u8>, AllocError> {
        let mut bytes = Vec::with_capacity(alloc, length)?;
        for i in 0..length {
            bytes.push((i % 251) as u8)?;
        }
        Ok(bytes)
    }

    /// What reading the file of this name gives, in a word.
    fn answer(
        alloc: Global,
        files: &mut MemFiles,
        name: &str,
        most: usize,
        bytes: &[u8],
    ) -> &'static str {
        match read_file(alloc, files, name, most) {
            Ok(whole) => {
                if whole.as_slice() == bytes {
                    "whole"
                } else {
                    "other bytes"
                }
            }
            Err(ReadError::Open) => "not opened",
            Err(ReadError::Read) => "not read",
            Err(ReadError::TooLong) => "too long",
            Err(ReadError::NoMemory) => "no memory",
        }
    }

    /// No call of this number is made.
    const NEVER: u64 = u64::MAX;

    #[test]
    fn files_of_several_lengths(rt: HostRuntime) -> Result<(), Fail> {
        let alloc = rt.alloc();

        // The length, the most, and the number of the call that fails: 0 opens, the others read.
        for (length, most, fails, want) in [
            (0, 0, NEVER, "whole"),
            (1, 1, NEVER, "whole"),
            (65_535, 65_535, NEVER, "whole"),
            (65_536, 65_536, NEVER, "whole"),
            (65_537, 65_537, NEVER, "whole"),
            (200_000, 200_000, NEVER, "whole"),
            (200_000, usize::MAX, NEVER, "whole"),
            (1, 0, NEVER, "too long"),
            (65_535, 65_534, NEVER, "too long"),
            (65_536, 65_535, NEVER, "too long"),
            (65_537, 65_536, NEVER, "too long"),
            (200_000, 199_999, NEVER, "too long"),
            (200_000, 200_000, 0, "not opened"),
            (200_000, 200_000, 1, "not read"),
            (200_000, 200_000, 2, "not read"),
            (200_000, 200_000, 3, "not read"),
            (200_000, 200_000, 4, "not read"),
            (200_000, 200_000, 5, "not read"),
            (200_000, 200_000, 6, "whole"),
            // It does not read on once there are too many bytes.
            (200_000, 65_535, 2, "too long"),
            (200_000, 131_071, 3, "too long"),
        ] {
            let bytes = patterned(alloc, length)?;
            let mut files = MemFiles::new(alloc, &[fails])?;
            files.add("capture", bytes.as_slice())?;
            let got = answer(alloc, &mut files, "capture", most, bytes.as_slice());
            assert_eq!(rt;
                got,
                want,
                "{length} bytes, most {most}, call {fails} fails"
            );
        }

        let mut files = MemFiles::new(alloc, &[])?;
        files.add("capture", b"bytes")?;
        assert_eq!(rt;
            answer(alloc, &mut files, "absent", 9, b"bytes"),
            "not opened"
        );
        Ok(())
    }
}
