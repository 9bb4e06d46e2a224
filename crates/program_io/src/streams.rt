//! Reading all bytes of a reader, and writing all bytes to a writer.

ghost use Rattle.std.specs.Prelude.{◌≡◌, ℕ, take, IfOk, OnErr, OnOk};
ghost use Rattle.std.specs.Io.KnownBytes.{Appends};
ghost use Rattle.program_io.specs.Streams.{ReadsAll};

use crate::fault::{ReadError, WriteError};
use std::alloc::Global;
use std::io::{Read, Write};

/// How many bytes are read at a time.
const PIECE: usize = 4096;

/// How many reads a reader may take to come to its end.
const MOST_READS: u32 = 16_777_216;

/// Reads to the end of a reader, which must come within 16,777,216 reads.
pub fn read_all<R: Read>(alloc: Global, reader: &mut R) -> Result<Vec<u8>, ReadError>
    ensures { IfOk result
        (λ v. ReadsAll (R.remaining reader.old) (R.remaining reader.new) v.items) }
{
    let mut bytes = Vec::new(alloc);
    let mut piece = [0u8; PIECE];
    'reads: for _ in 0..MOST_READS {
        match reader.read(&mut piece) {
            Ok(0) => return Ok(bytes),
            Ok(n) => bytes.extend_from_slice(&piece[..n])?,
            Err(_) => return Err(ReadError::Failed),
        }
    }
    Err(ReadError::Failed)
}

/// Writes the whole text. After an error the writer has received a prefix of it.
pub fn write_all<W: Write>(writer: &mut W, text: &[u8]) -> Result<(), WriteError>
    ensures ok { OnOk result (Appends (W.contents writer.old) (W.contents writer.new) text.now) }
    ensures err { OnErr result
        ((n : ℕ) × Appends (W.contents writer.old) (W.contents writer.new) (take n text.now)) }
{
    let mut at = 0;
    'writes: while at < text.len() {
        match writer.write(&text[at..]) {
            Ok(0) => return Err(WriteError),
            Ok(n) => at += n,
            Err(_) => return Err(WriteError),
        }
    }
    Ok(())
}
