//! Logs, and why a log cannot be read.

ghost use Rattle.std.specs.Prelude.{◌≡◌};
ghost use Rattle.log_line.specs.declared.log.LogError.TheVariants as unread;

use crate::entry::{LinePosition, LogEntry};
use faults::ScriptFault;
use job_calls::Job;
use std::alloc::{AllocError, AllocFailed};
use wire::DecodeRefusal;

/// A log: its job, and its calls in the order of the lines.
#[derive(Debug, Drop)]
pub struct Log {
    /// The job.
    pub job: Job,
    /// The calls.
    pub entries: Vec<LogEntry>,
    /// The positions of last lines that were left out: they lack their end, and say nothing.
    pub torn: Vec<LinePosition>,
}

/// Why a log cannot be read: its first line that is too long, or else what is wrong with its job
/// lines, or else its first other line that is neither a call nor a write.
#[derive(Debug, Drop)]
pub enum LogError {
    /// There are no lines that count.
    Empty,
    /// A line is longer than [`program_io::MOST_LINE_BYTES`].
    LongLine(LinePosition),
    /// A job line is not valid, or there is none; `place` is then that of the first line.
    NoJob {
        place: LinePosition,
        faults: Vec<ScriptFault>,
    },
    /// Two job lines have different jobs.
    OtherJob {
        /// The position of the first job line.
        first: LinePosition,
        /// The position of the first one whose job differs from its.
        second: LinePosition,
    },
    /// A line that is not a job line is neither a call nor a write.
    BadLine {
        place: LinePosition,
        why: DecodeRefusal,
        /// How to fix the line, in words.
        mend: String,
    },
    /// Memory ran out.
    Memory,
}

impl From<AllocError> for LogError {
    ghost from_gives = { λ _ e. e ≡ unread.Memory };

    fn from(_error: AllocError) -> Self {
        LogError::Memory
    }
}

impl<T: Drop> From<AllocFailed<T>> for LogError {
    ghost from_gives = { λ _ e. e ≡ unread.Memory };

    fn from(_error: AllocFailed<T>) -> Self {
        LogError::Memory
    }
}
