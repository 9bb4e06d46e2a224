//! The trace of a log.

ghost use Rattle.std.specs.Prelude.{◌∷◌, ◌++◌, [], IfOk, List, OnOk};
ghost use Rattle.cluster.specs.continued.Jobs.{Continued};
ghost use Rattle.log_run.specs.Starts.{Begins};
ghost use Rattle.log_trace.specs.Traces.{AreToldIn, IsTraceOf};
ghost use Rattle.log_trace.specs.declared.line.LogLine.{LogLine as Line};

use crate::line::LogLine;
use crate::takings::Takings;
use crate::tracer::LogTracer;
use log_causes::MOST_WRONG_REPLIES;
use log_line::LogEntry;
use log_run::Start;
use std::alloc::{AllocError, Global};

/// What a trace tells of the calls of a log.
#[derive(Drop)]
pub struct LogTrace {
    /// A line for each call before the first whose caller got a wrong reply, in order: these calls
    /// are one run.
    pub lines: Vec<LogLine>,
    /// A line for each call whose caller got a wrong reply, in order, [`MOST_WRONG_REPLIES`] at
    /// most. The machines make every call and keep to their own answers.
    pub faults: Vec<LogLine>,
}

impl LogTrace {
    // Adds the line of the next call.
    fn add(&mut self, line: LogLine) -> Result<(), AllocError>
        ensures { (all : List Line) → AreToldIn all self.old → OnOk result (AreToldIn (all ++ line ∷ []) self.new) }
    {
        if !line.is_told {
            self.faults.push(line)?;
        } else if self.faults.as_slice().is_empty() {
            self.lines.push(line)?;
        }
        Ok(())
    }
}

/// Plays the entries of a log, from this start, and tells of each of them.
///
/// `entries` are all entries in the order of their tickets, of which no two are the same. The only
/// error is out of memory.
pub fn log_trace_of(
    alloc: Global,
    start: &Start,
    entries: &[LogEntry],
) -> Result<LogTrace, AllocError>
    ensures { (job : Continued) → Begins job start.now → IfOk result (IsTraceOf job entries.now) }
{
    let takings = Takings::of(alloc, start, entries)?;
    let mut tracer = LogTracer::new(alloc, start)?;
    let lines = Vec::new(alloc);
    let faults = Vec::new(alloc);
    let mut trace = LogTrace { lines, faults };
    for index in 0..entries.len() {
        let line = tracer.next(start, &takings, entries, index)?;
        trace.add(line)?;
        if trace.faults.len() == MOST_WRONG_REPLIES {
            tracer.run_law();
            return Ok(trace);
        }
    }
    tracer.run_law();
    Ok(trace)
}
