//! Reading a log from the bytes of its files, piece by piece.

ghost use Rattle.std.specs.Prelude.{◌≡◌, ◌++◌, ◌∷◌, [], ℕ, List, map, IfErr, IfOk, OnOk};
ghost use Rattle.log_line.specs.Files.{IsUnread, PlacedLine, lines_from};
ghost use Rattle.log_line.specs.Readers.{AreTaken, IsReading, IsReadLog, first_bytes, kept, shown};
ghost use Rattle.log_line.specs.internals.Parts.{AreFewer, EndsLine, IsPartRead};

use crate::call_lines::{BadLine, CallLines};
use crate::entry::{LinePosition, WriteEntry};
use crate::job_lines::{JobLines, job_of};
use crate::lines::{KeptLine, LineBytes, first_part};
use crate::log::{Log, LogError};
use crate::progress::Progress;
use program_io::{is_blank, is_long};
use std::alloc::{AllocError, Global};

/// The lines of a log that were read.
#[derive(Debug, Drop)]
pub struct TakenLines {
    /// The position of the first line that is too long.
    pub long: Option<LinePosition>,
    /// The job lines before it.
    pub jobs: JobLines,
    /// The calls and the writes before it.
    pub calls: CallLines,
}

/// A log that was read.
#[derive(Debug, Drop)]
pub struct ReadLog {
    /// The log.
    pub log: Log,
    /// The writes to stores, in the order of the lines.
    pub writes: Vec<WriteEntry>,
    /// Its first job line, without the end of the line.
    pub job_line: Vec<u8>,
}

// Returns the bytes of the first line, none if there is none.
fn first_bytes(alloc: Global, lines: &[KeptLine]) -> Result<Vec<u8>, AllocError>
    ensures { IfOk result (λ bytes. bytes.items ≡ first_bytes (map kept lines.now)) }
{
    match lines {
        [first, ..] => Vec::from_slice(alloc, first.bytes.as_slice()),
        [] => Ok(Vec::new(alloc)),
    }
}

impl TakenLines {
    // Takes the next line. After a line that is too long the others are passed over.
    fn take<P: Progress>(
        &mut self,
        alloc: Global,
        line: &LineBytes,
        progress: &mut P,
    ) -> Result<(), AllocError>
        ensures { (lines : List PlacedLine) → AreTaken lines self.old
            → OnOk result (AreTaken (lines ++ shown line.now ∷ []) self.new) }
    {
        if self.long.is_some() {
            return Ok(());
        }
        if is_long(line.bytes) {
            self.long = Some(line.place);
            return Ok(());
        }
        if is_blank(line.bytes) {
            return Ok(());
        }
        let is_job = self.jobs.take(alloc, line)?;
        if is_job {
            return Ok(());
        }
        self.calls.take(alloc, line, progress)?;
        Ok(())
    }

    // Returns the log that the lines are, with its first job line.
    fn finish(self, alloc: Global) -> Result<ReadLog, LogError>
        ensures ok { (lines : List PlacedLine) → AreTaken lines self
            → IfOk result (IsReadLog lines) }
        ensures err { (lines : List PlacedLine) → AreTaken lines self → IfErr result (IsUnread lines) }
    {
        let TakenLines { long, jobs, calls } = self;
        if let Some(place) = long {
            return Err(LogError::LongLine(place));
        }
        let Some(first) = &jobs.first else {
            return Err(LogError::Empty);
        };
        let job = job_of(alloc, jobs.jobs.as_slice(), first)?;
        let CallLines {
            entries,
            writes,
            torn,
            bad,
        } = calls;
        if let Some(BadLine { place, why, mend }) = bad {
            return Err(LogError::BadLine { place, why, mend });
        }
        let job_line = first_bytes(alloc, jobs.jobs.as_slice())?;
        let log = Log { job, entries, torn };
        Ok(ReadLog {
            log,
            writes,
            job_line,
        })
    }
}

/// Reads a log from the bytes of its files, which come in pieces.
///
/// The first line of one file or several is the job line, and each other line is a call or a write.
/// Blank lines do not count. A last line of a file without its end counts if it is one of the two, and
/// is left out if it is not.
///
/// It holds the calls and the writes, and of the bytes only the job lines and the line that has not ended.
#[derive(Debug, Drop)]
pub struct LogReader {
    alloc: Global,
    // The index of the file, and the number of its next line.
    file: usize,
    number: usize,
    // The bytes of the line that has not ended.
    part: Vec<u8>,
    taken: TakenLines,
}

impl LogReader {
    /// Creates a reader at the start of the first file.
    pub fn new(alloc: Global) -> Self
        ensures { IsReading [] [] result }
    {
        LogReader {
            alloc,
            file: 0,
            number: 1,
            part: Vec::new(alloc),
            taken: TakenLines {
                long: None,
                jobs: JobLines::new(alloc),
                calls: CallLines::new(alloc),
            },
        }
    }

    // Takes the line whose bytes were read.
    fn end_line<P: Progress>(&mut self, ended: bool, progress: &mut P) -> Result<(), AllocError>
        ensures { OnOk result (EndsLine self.old ended self.new) }
    {
        let line = LineBytes {
            place: LinePosition {
                file: self.file,
                line: self.number,
            },
            bytes: self.part.as_slice(),
            ended,
        };
        self.taken.take(self.alloc, &line, progress)?;
        self.part.clear();
        self.number = self.number.checked_add(1).ok_or(AllocError)?;
        Ok(())
    }

    // Reads bytes up to the first line end, and returns those after it, if there is one.
    fn read_part<'a, P: Progress>(
        &mut self,
        bytes: &'a [u8],
        progress: &mut P,
    ) -> Result<Option<&'a [u8]>, AllocError>
        ensures read { (files : List (List ℕ)) (before : List ℕ) → IsReading files before self.old
            → IfOk result (λ rest. IsPartRead files before bytes.now rest self.new) }
        ensures shorter { IfOk result (AreFewer bytes.now) }
    {
        let first = first_part(bytes);
        self.part.extend_from_slice(first.part)?;
        if first.rest.is_some() {
            self.end_line(true, progress)?;
        }
        Ok(first.rest)
    }

    /// Reads the next bytes of the file.
    ///
    /// Fails if memory runs out; the reader is then gone.
    pub fn read<P: Progress>(self, piece: &[u8], progress: &mut P) -> Result<LogReader, AllocError>
        ensures { (files : List (List ℕ)) (before : List ℕ) → IsReading files before self
            → IfOk result (IsReading files (before ++ piece.now)) }
    {
        let mut reader = self;
        let mut bytes = piece;
        'parts: while let Some(rest) = reader.read_part(bytes, progress)? {
            bytes = rest;
        }
        Ok(reader)
    }

    /// Ends the file. What is read from now on is of the next one.
    ///
    /// Fails if memory runs out; the reader is then gone.
    pub fn end_file<P: Progress>(self, progress: &mut P) -> Result<LogReader, AllocError>
        ensures { (files : List (List ℕ)) (bytes : List ℕ) → IsReading files bytes self
            → IfOk result (IsReading (files ++ bytes ∷ []) []) }
    {
        let mut reader = self;
        if !reader.part.is_empty() {
            reader.end_line(false, progress)?;
        }
        reader.file = reader.file.checked_add(1).ok_or(AllocError)?;
        reader.number = 1;
        Ok(reader)
    }

    /// Returns the log of the files that were read to their ends.
    ///
    /// An error names the first line that is longer than [`program_io::MOST_LINE_BYTES`], or else the
    /// first job line that is not valid, or has another job than those before it, or else the first
    /// other line that is neither a call nor a write, or says that memory ran out. If there is no job line, the error
    /// names the first line.
    pub fn finish(self) -> Result<ReadLog, LogError>
        ensures ok { (files : List (List ℕ)) → IsReading files [] self
            → IfOk result (IsReadLog (lines_from 0 files)) }
        ensures err { (files : List (List ℕ)) → IsReading files [] self
            → IfErr result (IsUnread (lines_from 0 files)) }
    {
        let LogReader { alloc, taken, .. } = self;
        taken.finish(alloc)
    }
}
