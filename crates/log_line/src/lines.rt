//! Lines of files.

ghost use Rattle.std.specs.Prelude.{◌≡◌, IfOk};
ghost use Rattle.log_line.specs.Readers.{kept, shown};
ghost use Rattle.log_line.specs.internals.Parts.{IsFirstPart};

use crate::entry::LinePosition;
use memchr::memchr;
use std::alloc::{AllocError, Global};

/// The bytes of a line, without its line end, and its position.
#[derive(Clone, Copy)]
pub struct LineBytes<'a> {
    /// The position of the line.
    pub place: LinePosition,
    /// Its bytes.
    pub bytes: &'a [u8],
    /// Whether its end stands after it, which the last line of a file may lack.
    pub ended: bool,
}

/// A line that is kept: its bytes, without its line end, and its position.
#[derive(Debug, Drop)]
pub struct KeptLine {
    /// The position of the line.
    pub place: LinePosition,
    /// Its bytes.
    pub bytes: Vec<u8>,
    /// Whether its end stands after it.
    pub ended: bool,
}

impl LineBytes<'_> {
    /// Copies the line.
    pub fn keep(&self, alloc: Global) -> Result<KeptLine, AllocError>
        ensures { IfOk result (λ line. kept line ≡ shown self.now) }
    {
        let mut bytes = Vec::new(alloc);
        bytes.extend_from_slice(self.bytes)?;
        Ok(KeptLine {
            place: self.place,
            bytes,
            ended: self.ended,
        })
    }
}

/// The bytes before the first line end, and those after it.
#[derive(Clone, Copy)]
pub struct FirstPart<'a> {
    /// The bytes before the first line end, or all if there is none.
    pub part: &'a [u8],
    /// The bytes after it, if there is one.
    pub rest: Option<&'a [u8]>,
}

/// Splits bytes at the first line end.
pub fn first_part(bytes: &[u8]) -> FirstPart<'_>
    ensures { IsFirstPart bytes.now result }
{
    match memchr(b'\n', bytes) {
        Some(end) => FirstPart {
            part: &bytes[..end],
            rest: Some(&bytes[end + 1..]),
        },
        None => FirstPart {
            part: bytes,
            rest: None,
        },
    }
}
