//! Which calls are played, and what they give.

ghost use Rattle.std.specs.Prelude.{◌≡◌, IfOk, take};
ghost use Rattle.cluster.specs.continued.Jobs.{Continued};
ghost use Rattle.log_run.specs.Starts.{Begins};
ghost use Rattle.log_trace_text.specs.Texts.{ArePlayed, IsServedIf, IsTracedIf, is_played, is_served};

use log_causes::Finding;
use log_line::LogEntry;
use log_run::Start;
use log_trace::{LogServing, LogTrace, log_trace_of, serving_of};
use slice_ranges::SliceKey;
use std::alloc::{AllocError, Global};

/// What the machines tell of the calls of logs.
#[derive(Drop)]
pub(crate) struct Played {
    /// The calls and the faults; `None` if none are told.
    pub(crate) trace: Option<LogTrace>,
    /// The stretches and handles; `None` if none are told.
    pub(crate) serving: Option<LogServing>,
}

// Whether the machines play the calls: for their lines, or to find the faults.
fn is_played(finding: &Finding, with_calls: bool) -> bool
    ensures { result ≡ is_played finding.now with_calls }
{
    match finding {
        Finding::One { .. } => with_calls,
        Finding::Double { .. } => false,
        Finding::Other { .. } => true,
    }
}

fn trace_if(
    alloc: Global,
    start: &Start,
    entries: &[LogEntry],
    is_played: bool,
) -> Result<Option<LogTrace>, AllocError>
    ensures { (job : Continued) → Begins job start.now → IfOk result (IsTracedIf is_played job entries.now) }
{
    if is_played {
        let trace = log_trace_of(alloc, start, entries)?;
        Ok(Some(trace))
    } else {
        Ok(None)
    }
}

// Returns so many of the first entries, or all if there are no more.
fn first_entries(entries: &[LogEntry], count: usize) -> &[LogEntry]
    ensures { result.now ≡ take count entries.now }
{
    if count < entries.len() {
        &entries[..count]
    } else {
        entries
    }
}

// Whether there are lines of stretches and handles: not of logs that go on from others, which lack
// the calls before.
fn is_served(start: &Start, with_calls: bool) -> bool
    ensures { result ≡ is_served start.now with_calls }
{
    with_calls && start.earlier.is_none()
}

fn serving_if(
    alloc: Global,
    start: &Start,
    entries: &[LogEntry],
    key: Option<SliceKey>,
    trace: &Option<LogTrace>,
    is_served: bool,
) -> Result<Option<LogServing>, AllocError>
    ensures { IfOk result (IsServedIf trace.now is_served start.now.job entries.now key) }
{
    let Some(trace) = trace else {
        return Ok(None);
    };
    if !is_served {
        return Ok(None);
    }
    let right = first_entries(entries, trace.lines.len());
    let serving = serving_of(alloc, start.job, right, key)?;
    Ok(Some(serving))
}

/// Plays the calls of logs of which this was found.
///
/// The stretches and handles are those of the calls before the first fault.
pub(crate) fn played_of(
    alloc: Global,
    start: &Start,
    entries: &[LogEntry],
    finding: &Finding,
    key: Option<SliceKey>,
    with_calls: bool,
) -> Result<Played, AllocError>
    ensures { (job : Continued) → Begins job start.now
        → IfOk result (ArePlayed job start.now entries.now finding.now key with_calls) }
{
    let trace = trace_if(alloc, start, entries, is_played(finding, with_calls))?;
    let served = is_served(start, with_calls);
    let serving = serving_if(alloc, start, entries, key, &trace, served)?;
    Ok(Played { trace, serving })
}
