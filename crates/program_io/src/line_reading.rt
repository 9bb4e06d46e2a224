//! Reading lines.

ghost use Rattle.std.specs.Prelude.{◌≡◌, ◌≢◌, ◌-◌, ◌<◌, ◌≤◌, ◌||◌, true, false, ℕ, List, length, take, slice_index, All, IfOk, OnErr};
ghost use Rattle.std.specs.Io.KnownBytes.{Consumes};
ghost use Rattle.program_io.specs.Lines.{is_long};
ghost use Rattle.program_io.specs.LinesRead.{IsLineRead, IsNextRead, ends_search};
ghost use Rattle.program_io.specs.internals.Parts.{IsPart};

use crate::fault::ReadError;
use crate::line::{LineRead, MOST_LINE_BYTES, is_blank, is_long};
use memchr::memchr;
use std::alloc::Global;
use std::io::{BufRead, ErrorKind};

/// How many bytes there are up to and including the first byte 10, or at all.
#[derive(Clone, Copy)]
struct Through {
    len: usize,
    /// Whether there is byte 10, or no byte.
    is_done: bool,
}

// Finds the first byte 10.
fn find_end(bytes: &[u8]) -> Through
    ensures bound { result.len ≤ length bytes.now }
    ensures some { 0 < length bytes.now → 0 < result.len }
    ensures stops { All (λ b. b ≢ 10) (take (result.len - 1) bytes.now) }
    ensures goes_on { result.is_done ≡ false → All (λ b. b ≢ 10) (take result.len bytes.now) }
    ensures ends { result.is_done ≡ true → 0 < result.len
        → slice_index bytes.now (result.len - 1) ≡ 10 }
{
    match memchr(b'\n', bytes) {
        Some(end) => Through {
            len: end + 1,
            is_done: true,
        },
        None => Through {
            len: bytes.len(),
            is_done: bytes.is_empty(),
        },
    }
}

// Appends the reader's buffered bytes, up to and including the first byte 10. Returns whether it met
// byte 10 or the end of the input.
fn append_part<R: BufRead>(reader: &mut R, line: &mut Vec<u8>) -> Result<bool, ReadError>
    ensures ok { IfOk result (IsPart (R.remaining reader.old) (R.remaining reader.new) line.old.items line.new.items) }
    ensures err { OnErr result ((bytes : List ℕ)
        × Consumes (R.remaining reader.old) (R.remaining reader.new) bytes) }
{
    let available = match reader.fill_buf() {
        Ok(available) => available,
        Err(error) => {
            return if error.kind() == ErrorKind::Interrupted {
                Ok(false)
            } else {
                Err(ReadError::Failed)
            };
        }
    };
    let found = find_end(available);
    line.extend_from_slice(&available[..found.len])?;
    reader.consume(found.len);
    Ok(found.is_done)
}

// Returns the line of the bytes that were kept.
fn line_of(bytes: Vec<u8>, is_cut: bool) -> LineRead
    ensures bytes { result.bytes.items ≡ bytes.items }
    ensures long { result.is_long ≡ (is_cut || is_long bytes.items) }
{
    let is_long = is_cut || is_long(bytes.as_slice());
    LineRead { bytes, is_long }
}

// Reads the next line with its end. Of a line that is too long little more is kept than a line may
// have.
fn read_line<R: BufRead>(alloc: Global, reader: &mut R) -> Result<LineRead, ReadError>
    ensures ok { IfOk result (λ line.
        IsLineRead (R.remaining reader.old) (R.remaining reader.new) line.bytes.items line.is_long) }
    ensures err { OnErr result ((bytes : List ℕ)
        × Consumes (R.remaining reader.old) (R.remaining reader.new) bytes) }
{
    let mut bytes = Vec::new(alloc);
    let mut is_cut = false;
    'parts: for _ in 0..u64::MAX {
        let is_done = append_part(reader, &mut bytes)?;
        if is_done {
            return Ok(line_of(bytes, is_cut));
        }
        if bytes.len() > MOST_LINE_BYTES + 1 {
            bytes.clear();
            is_cut = true;
        }
    }
    Err(ReadError::Failed)
}

// Whether a line that was read is not skipped, or is the end of the input.
fn ends_search(line: &LineRead) -> bool
    ensures { result ≡ ends_search line.now.bytes.items line.now.is_long }
{
    line.is_long || line.bytes.is_empty() || !is_blank(line.bytes.as_slice())
}

/// Reads the next line that is not blank. It is empty at the end of the input.
///
/// A line ends after byte 10 or at the end of the input. Of a line of more than
/// [`MOST_LINE_BYTES`] beside its end only the length is known.
pub fn next_line<R: BufRead>(alloc: Global, reader: &mut R) -> Result<LineRead, ReadError>
    ensures ok { IfOk result (λ line.
        IsNextRead (R.remaining reader.old) (R.remaining reader.new) line.bytes.items line.is_long) }
    ensures err { OnErr result ((bytes : List ℕ)
        × Consumes (R.remaining reader.old) (R.remaining reader.new) bytes) }
{
    'blanks: for _ in 0..u64::MAX {
        let line = read_line(alloc, reader)?;
        if ends_search(&line) {
            return Ok(line);
        }
    }
    Err(ReadError::Failed)
}
