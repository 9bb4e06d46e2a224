//! Lines, and how long one may be.

ghost use Rattle.std.specs.Prelude.{◌≡◌, ◌&&◌, not, nat_eq, length};
ghost use Rattle.program_io.specs.Lines.{is_blank, is_long};

/// The greatest number of bytes of a line, without its end.
pub const MOST_LINE_BYTES: usize = 1_048_576;

/// A line that was read, with its end.
#[derive(Debug, Drop)]
pub struct LineRead {
    /// Its bytes, if it is not too long; none at the end of the input.
    pub bytes: Vec<u8>,
    /// Whether it has more than [`MOST_LINE_BYTES`] bytes beside its end.
    pub is_long: bool,
}

impl LineRead {
    /// Whether this is the end of the input.
    pub fn is_end(&self) -> bool
        ensures { result ≡ (not self.now.is_long && nat_eq (length self.now.bytes.items) 0) }
    {
        !self.is_long && self.bytes.is_empty()
    }
}

/// Whether a line has more bytes than a line may have, beside its end.
pub fn is_long(line: &[u8]) -> bool
    ensures { result ≡ is_long line.now }
{
    let n = line.len();
    if n > 0 && line[n - 1] == b'\n' {
        n - 1 > MOST_LINE_BYTES
    } else {
        n > MOST_LINE_BYTES
    }
}

/// Whether a line is blank: spaces, tabs and line ends alone.
pub fn is_blank(line: &[u8]) -> bool
    ensures { result ≡ is_blank line.now }
{
    line.iter().all(|byte| *byte == b' ' || *byte == b'\t' || *byte == b'\r' || *byte == b'\n')
}
