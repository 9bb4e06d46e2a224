//! The positions of entries.

ghost use Rattle.std.specs.Prelude.{◌≡◌, Some, map, slice_get};
ghost use Rattle.audit_text.specs.Standing.{name_text, standing_at};

use faults::Escaped;
use log_line::LogEntry;
use std::fmt;

/// The entries of a log in the order of their tickets, and the names of its files.
#[derive(Clone, Copy)]
pub struct NamedEntries<'a> {
    /// The names of the files.
    pub names: &'a [&'a str],
    /// The entries.
    pub entries: &'a [LogEntry],
}

/// Returns the name of a file, or nothing if it has none.
pub fn name_of<'a>(names: &'a [&'a str], file: usize) -> &'a str
    ensures { result.now ≡ name_text (slice_get (map (λ n. n.now) names.now) file) }
{
    match names.get(file) {
        Some(name) => *name,
        None => "",
    }
}

/// Displays the position of an entry: the name of its file, a colon and the number of its line.
#[derive(Clone, Copy)]
pub struct Standing<'a> {
    /// The log.
    pub log: NamedEntries<'a>,
    /// The index of the entry.
    pub index: usize,
}

impl fmt::Display for Standing<'_> {
    ghost output = { λ s. Some (standing_at (map (λ n. n.now) s.log.names.now) s.log.entries.now s.index) };

    fn fmt<W: fmt::Write>(&self, f: &mut fmt::Formatter<W>) -> fmt::Result {
        let Some(entry) = self.log.entries.get(self.index) else {
            return Ok(());
        };
        let name = name_of(self.log.names, entry.place.file);
        write!(f, "{}:{}", Escaped(name), entry.place.line)
    }
}
