//! Text from outside, as it is told.

ghost use Rattle.std.specs.Prelude.{◌≡◌, Some, take};
ghost use Rattle.faults.specs.declared.quoted.TheConstants.{MOST_TOLD};
ghost use Rattle.faults.specs.Quoted.{escape, escaped, hex_2, quoted};

use std::fmt;

/// How many bytes of a text in quotes are told at most.
pub const MOST_TOLD: usize = 200;

/// Displays a byte in two hexadecimal digits.
#[derive(Clone, Copy)]
struct HexByte(u8);

impl fmt::Display for HexByte {
    ghost output = { λ h. Some (hex_2 h.0) };

    #[tactic(auto, using(crate::proofs::ByteDigits::padded_byte))]
    fn fmt<W: fmt::Write>(&self, f: &mut fmt::Formatter<W>) -> fmt::Result {
        let number = self.0;
        write!(f, "{number:02x}")
    }
}

/// Displays a byte, with an escape if it needs one.
#[derive(Clone, Copy)]
struct EscapedByte(u8);

impl fmt::Display for EscapedByte {
    ghost output = { λ b. Some (escape b.0) };

    fn fmt<W: fmt::Write>(&self, f: &mut fmt::Formatter<W>) -> fmt::Result {
        match self.0 {
            b'"' => f.write_str("\\\""),
            b'\\' => f.write_str("\\\\"),
            b'\n' => f.write_str("\\n"),
            b'\r' => f.write_str("\\r"),
            b'\t' => f.write_str("\\t"),
            byte => {
                if b' ' <= byte && byte <= b'~' {
                    write!(f, "{}", byte as char)
                } else {
                    write!(f, "\\x{}", HexByte(byte))
                }
            }
        }
    }
}

/// Displays bytes with escapes.
#[derive(Clone, Copy)]
struct EscapedBytes<'a>(&'a [u8]);

impl fmt::Display for EscapedBytes<'_> {
    ghost output = { λ t. Some (escaped t.0.now) };

    fn fmt<W: fmt::Write>(&self, f: &mut fmt::Formatter<W>) -> fmt::Result {
        for byte in self.0 {
            write!(f, "{}", EscapedByte(*byte))?;
        }
        Ok(())
    }
}

/// Displays text with escapes, so that it stays on its line and moves no cursor.
///
/// ASCII that prints stands as it is, except that a quote and a backslash come after a backslash.
/// Any other byte is an escape, as `\n` or `\xe2`.
#[derive(Clone, Copy)]
pub struct Escaped<'a>(pub &'a str);

impl fmt::Display for Escaped<'_> {
    ghost output = { λ t. Some (escaped t.0.now) };

    fn fmt<W: fmt::Write>(&self, f: &mut fmt::Formatter<W>) -> fmt::Result {
        write!(f, "{}", EscapedBytes(self.0.as_bytes()))
    }
}

// Returns the first bytes, at most [`MOST_TOLD`].
fn first_bytes(bytes: &[u8]) -> &[u8]
    ensures { result.now ≡ take MOST_TOLD bytes.now }
{
    if bytes.len() > MOST_TOLD {
        &bytes[..MOST_TOLD]
    } else {
        bytes
    }
}

/// Displays text in quotes, with escapes: its first [`MOST_TOLD`] bytes, and three dots if there
/// are more.
#[derive(Clone, Copy)]
pub struct Quoted<'a>(pub &'a str);

impl fmt::Display for Quoted<'_> {
    ghost output = { λ t. Some (quoted t.0.now) };

    fn fmt<W: fmt::Write>(&self, f: &mut fmt::Formatter<W>) -> fmt::Result {
        let bytes = self.0.as_bytes();
        let told = EscapedBytes(first_bytes(bytes));
        if bytes.len() > MOST_TOLD {
            write!(f, "\"{told}\"...")
        } else {
            write!(f, "\"{told}\"")
        }
    }
}
