//! The calls and the writes on the lines of a log.

ghost use Rattle.std.specs.Prelude.{◌≡◌, ◌++◌, ◌∷◌, [], List, None, OnOk};
ghost use Rattle.log_line.specs.Files.{PlacedLine, AreSaid, IsBadLine};
ghost use Rattle.log_line.specs.Lines.{Says, SaysLine, SaysNoLine, SaysWrite};
ghost use Rattle.log_line.specs.Readers.{AreCallLines, shown};

use crate::entry::{LinePosition, LogEntry, WriteEntry};
use crate::line::LoggedLine;
use crate::lines::LineBytes;
use crate::progress::Progress;
use crate::reading::{NoLine, SaidLine, line_said};
use crate::write::LoggedWrite;
use std::alloc::{AllocError, Global};
use wire::DecodeRefusal;

/// A line that is neither a call nor a write.
#[derive(Debug, Drop)]
pub struct BadLine {
    /// Its position.
    pub place: LinePosition,
    /// Why it is neither.
    pub why: DecodeRefusal,
    /// How to fix the line, in words.
    pub mend: String,
}

/// The calls and the writes on lines, up to the first line that is neither.
#[derive(Debug, Drop)]
pub struct CallLines {
    /// The calls.
    pub entries: Vec<LogEntry>,
    /// The writes.
    pub writes: Vec<WriteEntry>,
    /// The positions of lines that were left out.
    pub torn: Vec<LinePosition>,
    /// The first line that is neither a call nor a write.
    pub bad: Option<BadLine>,
}

impl CallLines {
    /// Creates it without lines.
    pub fn new(alloc: Global) -> Self
        ensures { AreCallLines [] result }
    {
        CallLines {
            entries: Vec::new(alloc),
            writes: Vec::new(alloc),
            torn: Vec::new(alloc),
            bad: None,
        }
    }

    // Takes the next line, which is this call.
    fn add_call(&mut self, line: &LineBytes, said: LoggedLine) -> Result<(), AllocError>
        ensures { (lines : List PlacedLine) → AreCallLines lines self.old → self.old.bad ≡ None → SaysLine line.now.bytes.now said
            → OnOk result (AreCallLines (lines ++ shown line.now ∷ []) self.new) }
    {
        let place = line.place;
        self.entries.push(LogEntry { place, line: said })?;
        Ok(())
    }

    // Takes the next line, which is this write.
    fn add_write(&mut self, line: &LineBytes, write: LoggedWrite) -> Result<(), AllocError>
        ensures { (lines : List PlacedLine) → AreCallLines lines self.old → self.old.bad ≡ None → SaysWrite line.now.bytes.now write
            → OnOk result (AreCallLines (lines ++ shown line.now ∷ []) self.new) }
    {
        let place = line.place;
        self.writes.push(WriteEntry { place, write })?;
        Ok(())
    }

    // Takes the next line, which says this.
    fn add(&mut self, line: &LineBytes, said: SaidLine) -> Result<(), AllocError>
        ensures { (lines : List PlacedLine) → AreCallLines lines self.old → self.old.bad ≡ None → Says line.now.bytes.now said
            → OnOk result (AreCallLines (lines ++ shown line.now ∷ []) self.new) }
    {
        match said {
            SaidLine::Call(said) => self.add_call(line, said),
            SaidLine::Write(write) => self.add_write(line, write),
        }
    }

    // Takes the next line, which is neither a call nor a write for this reason.
    fn add_other(
        &mut self,
        line: &LineBytes,
        why: DecodeRefusal,
        mend: String,
    ) -> Result<(), AllocError>
        ensures { (lines : List PlacedLine) → AreCallLines lines self.old → self.old.bad ≡ None → SaysNoLine line.now.bytes.now why
            → OnOk result (AreCallLines (lines ++ shown line.now ∷ []) self.new) }
    {
        let place = line.place;
        if line.ended {
            self.bad = Some(BadLine { place, why, mend });
        } else {
            self.torn.push(place)?;
        }
        Ok(())
    }

    /// Takes the next line. After a line that is neither a call nor a write the others are passed
    /// over.
    pub fn take<P: Progress>(
        &mut self,
        alloc: Global,
        line: &LineBytes,
        progress: &mut P,
    ) -> Result<(), AllocError>
        ensures { (lines : List PlacedLine) → AreCallLines lines self.old
            → OnOk result (AreCallLines (lines ++ shown line.now ∷ []) self.new) }
    {
        if self.bad.is_some() {
            return Ok(());
        }
        match line_said(alloc, line.bytes) {
            Ok(said) => {
                self.add(line, said)?;
                progress.lines_read(self.entries.len() as u64);
                Ok(())
            }
            Err(NoLine::Refused { why, mend }) => self.add_other(line, why, mend),
            Err(NoLine::Memory) => Err(AllocError),
        }
    }
}
