//! The trace of a script.

ghost use Rattle.std.specs.Prelude.{IfOk};
ghost use Rattle.script_trace.specs.Traces.{IsTraceOf};

use crate::line::TraceLine;
use crate::tracer::ScriptTracer;
use job_calls::Job;
use machines::Listed;
use slice_ranges::SliceKey;
use std::alloc::{AllocError, Global};
use stretches::{JobHandles, Stretch};
use world::Step;

/// All that a trace tells of a script.
#[derive(Drop)]
pub struct ScriptTrace {
    /// A line for each step, in order.
    pub lines: Vec<TraceLine>,
    /// If there is a key: for each task the stretches in which it may serve the key.
    pub stretches: Option<Vec<Listed<Stretch>>>,
    /// The handles that tasks gave, and when each breaks.
    pub handles: JobHandles,
}

/// Plays the steps of a script from its first on, and tells of each of them.
///
/// The only error is out of memory.
pub fn trace_of(
    alloc: Global,
    job: Job,
    steps: &[Step],
    key: Option<SliceKey>,
) -> Result<ScriptTrace, AllocError>
    ensures { IfOk result (IsTraceOf job steps.now key) }
{
    let mut tracer = ScriptTracer::new(alloc, job, key)?;
    let mut lines = Vec::new(alloc);
    for step in steps {
        let line = tracer.next(step)?;
        lines.push(line)?;
    }
    tracer.run_law();
    let stretches = tracer.stretches()?;
    Ok(ScriptTrace {
        lines,
        stretches,
        handles: tracer.into_handles(),
    })
}
