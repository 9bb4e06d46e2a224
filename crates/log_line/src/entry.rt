//! Lines of a log with their positions.

use crate::line::LoggedLine;
use crate::write::LoggedWrite;

/// The position of a line: the file, counted from 0, and the line in it, counted from 1.
#[derive(Clone, Copy, Debug, PartialEq, Eq, PartialOrd, Ord)]
pub struct LinePosition {
    /// The index of the file, from 0.
    pub file: usize,
    /// The number of the line in the file, from 1.
    pub line: usize,
}

/// A line of a log with its position.
#[derive(Debug, Drop)]
pub struct LogEntry {
    /// The position of the line.
    pub place: LinePosition,
    /// The line.
    pub line: LoggedLine,
}

/// A line of a write with its position.
#[derive(Clone, Copy, Debug, PartialEq, Eq)]
pub struct WriteEntry {
    /// The position of the line.
    pub place: LinePosition,
    /// The write.
    pub write: LoggedWrite,
}
