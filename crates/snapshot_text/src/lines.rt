//! The lines of a text, one after another.

ghost use Rattle.std.specs.Prelude.{◌≡◌, option_map};
ghost use Rattle.snapshot_text.specs.Lines.{IsTaken, first_line, is_empty, place};

use memchr::memchr;
use std::marker::Model;

/// Cuts a text at its first line end: returns the bytes before it and those after it; `None` if the
/// text has none.
pub fn first_line(text: &[u8]) -> Option<(&[u8], &[u8])>
    ensures { option_map (λ cut. (cut.0.now, cut.1.now)) result ≡ first_line text.now }
{
    match memchr(b'\n', text) {
        Some(end) => Some((&text[..end], &text[end + 1..])),
        None => None,
    }
}

/// The lines of a text that were not taken yet.
#[derive(Debug, Drop)]
pub struct Lines<'t> {
    // How many lines were taken, and the text after them.
    number: u64,
    rest: &'t [u8],
}

impl<'t> Model for Lines<'t> {
    ghost use Rattle.std.specs.Prelude.{◌+◌, ◌^◌, ◌<◌, length};
    ghost use Rattle.snapshot_text.specs.Lines.{Place, place};

    ghost Value = { Place };

    ghost view = { λ l. place l.number l.rest.now };

    ghost invariant = { λ l. l.number + length l.rest.now < 2 ^ 64 };
}

impl<'t> Lines<'t> {
    /// Returns all lines of a text.
    pub fn new(text: &'t [u8]) -> Self
        ensures { result ≡ place 0 text.now }
    {
        let _length = text.len();
        Lines {
            number: 0,
            rest: text,
        }
    }

    /// Takes the next line, and returns it without its end; `None` if no line is left that has its
    /// end.
    pub fn take(&mut self) -> Option<&'t [u8]>
        ensures { IsTaken self.old (option_map (λ line. line.now) result) self.new }
    {
        let Some((line, rest)) = first_line(self.rest) else {
            return None;
        };
        self.number += 1;
        self.rest = rest;
        Some(line)
    }

    /// Returns how many lines were taken.
    pub fn number(&self) -> u64
        ensures { result ≡ self.now.number }
    {
        self.number
    }

    /// Whether nothing is left.
    pub fn is_empty(&self) -> bool
        ensures { result ≡ is_empty self.now.rest }
    {
        self.rest.is_empty()
    }
}
