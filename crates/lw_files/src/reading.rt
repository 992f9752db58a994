// One file, from its opening to its end.
ghost use Rattle.std.specs.Prelude.{◌≡◌, ◌≤◌, length, IfOk, IfErr, IsTrue, vec_len};
ghost use Rattle.lw_io.specs.Causes.{Rose};
ghost use Rattle.lw_files.specs.Steps.{gives};
ghost use Rattle.lw_files.specs.Sources.{text_of};
ghost use Rattle.lw_files.specs.declared.reading.ReadError.TheVariants.{Failed as ReadFailed};
ghost use Rattle.lw_files.specs.declared.reading.ReadError.TheVariants.{Memory as OutOfMemory};
ghost use Rattle.lw_files.specs.Reading.{ReadsPiece, StaysOpen, IsTextLeft, ReadsFile};

use crate::FileFault;
use lw_io::{Failed, Shelf};
use std::alloc::{AllocError, Global};

/// The most bytes of a file.
const MAX_LEN: usize = 67_108_864;

/// How many bytes are read at once at most.
const PIECE: usize = 4096;

// Why an open file was not read to its end.
#[derive(Clone, Copy, PartialEq, Eq)]
enum ReadError {
    Failed,
    Memory,
}

impl From<Failed> for ReadError {
    ghost from_gives = { λ _ e. e ≡ ReadFailed };

    // The shelf failed.
    fn from(_e: Failed) -> ReadError {
        ReadError::Failed
    }
}

impl From<AllocError> for ReadError {
    ghost from_gives = { λ _ e. e ≡ OutOfMemory };

    // Memory ran out.
    fn from(_e: AllocError) -> ReadError {
        ReadError::Memory
    }
}

// Reads the next bytes of the open file into `buf`, and adds them to the text. The answer is how
// many they are, 0 at the end of the file.
fn read_piece<F: Shelf>(
    shelf: &mut F,
    text: &mut Vec<u8>,
    buf: &mut [u8],
) -> Result<usize, ReadError>
    requires { IsTrue (F.is_open shelf.old) }
    ensures stays { StaysOpen (F.files shelf.old) (F.files shelf.new) (F.faults shelf.old)
        (F.faults shelf.new) (F.is_open shelf.new) }
    ensures piece { IfOk result (ReadsPiece (F.left shelf.old)
        (F.left shelf.new) text.old.items text.new.items (length buf.old)) }
    ensures failed { IfErr result (λ e. e ≡ ReadError.Failed →
        Rose (F.faults shelf.old) (F.faults shelf.new)) }
{
    let count = shelf.read(buf)?;
    text.extend_from_slice(&buf[..count])?;
    Ok(count)
}

// Reads the open file to its end: its bytes, and none if they are more than `MAX_LEN`.
fn read_all<F: Shelf>(alloc: Global, shelf: &mut F) -> Result<Option<Vec<u8>>, ReadError>
    requires { IsTrue (F.is_open shelf.old) }
    ensures stays { StaysOpen (F.files shelf.old) (F.files shelf.new) (F.faults shelf.old)
        (F.faults shelf.new) (F.is_open shelf.new) }
    ensures text { IfOk result (IsTextLeft (F.left shelf.old)) }
    ensures failed { IfErr result (λ e. e ≡ ReadError.Failed →
        Rose (F.faults shelf.old) (F.faults shelf.new)) }
{
    let mut text = Vec::new(alloc);
    let mut buf = [0; PIECE];
    'pieces: while text.len() <= MAX_LEN {
        let room = (MAX_LEN + 1 - text.len()).min(PIECE);
        if read_piece(shelf, &mut text, &mut buf[..room])? == 0 {
            return Ok(Some(text));
        }
    }
    Ok(None)
}

/// The bytes of the file with this name: 67,108,864 at most, and else `TooLong`.
pub fn read_file<F: Shelf>(alloc: Global, shelf: &mut F, name: &str) -> Result<Vec<u8>, FileFault>
    ensures few { IfOk result (λ v. vec_len v ≤ MAX_LEN) }
    ensures reads { ReadsFile (λ v. v.items) F.files F.faults shelf.old shelf.new
        (gives (text_of name.now)) result }
{
    let Ok(()) = shelf.open(name) else {
        return Err(FileFault::Unread);
    };
    match read_all(alloc, shelf) {
        Ok(Some(text)) => Ok(text),
        Ok(None) => Err(FileFault::TooLong),
        Err(ReadError::Failed) => Err(FileFault::Unread),
        Err(ReadError::Memory) => Err(FileFault::Memory),
    }
}
