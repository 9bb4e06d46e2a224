//! The last line.

ghost use Rattle.std.specs.Prelude.{◌≡◌, ◌&&◌, not, is_some, IfOk, slice_get};
ghost use Rattle.cluster.specs.continued.Jobs.{Continued};
ghost use Rattle.log_run.specs.Starts.{Begins};
ghost use Rattle.log_trace_text.specs.Endings.{IsEndLine, IsOneTold, double_line};

use crate::counts::counts_for;
use crate::drift::drift_found;
use crate::hints::hints_told;
use crate::untimely::untimely_of;
use clocks::Drift;
use log_causes::{Finding, Found, coarse_count, silent_tasks};
use log_line::LogEntry;
use log_run::Start;
use reason_values::LogLine;
use std::alloc::{AllocError, Global};
use trace_ends::{DoubleTicket, OneRun, double_end, one_end, other_end};

// Returns what is told of logs that are one run.
//
// `all_sent` is whether no reply is that something was not sent.
fn one_run(
    alloc: Global,
    start: &Start,
    entries: &[LogEntry],
    drift: Option<Drift>,
    all_sent: bool,
) -> Result<OneRun, AllocError>
    ensures { (job : Continued) → Begins job start.now
        → IfOk result (IsOneTold job start.now.job entries.now drift (is_some start.now.earlier && not all_sent)) }
{
    let counts = counts_for(alloc, start.job, entries)?;
    let silent = silent_tasks(alloc, start.job, entries)?;
    let untimely = untimely_of(alloc, start, entries)?;
    let drift = drift_found(alloc, drift, entries)?;
    Ok(OneRun {
        counts,
        one_word: coarse_count(entries),
        silent,
        untimely,
        drift,
        forgotten: start.earlier.is_some() && !all_sent,
    })
}

// Writes the last line of logs of which the entries at these indices have one ticket.
fn double_line(
    alloc: Global,
    places: &[LogLine],
    entries: &[LogEntry],
    first: usize,
    second: usize,
) -> Result<Vec<u8>, AllocError>
    ensures { IfOk result (λ text. text.items
        ≡ double_line places.now entries.now first second (slice_get entries.now first) (slice_get entries.now second)) }
{
    let (Some(entry), Some(_)) = (entries.get(first), entries.get(second)) else {
        return Ok(Vec::new(alloc));
    };
    let double = DoubleTicket {
        ticket: entry.line.ticket,
        first: first as u64 + 1,
        second: second as u64 + 1,
    };
    double_end(alloc, places, entries.len() as u64, double)
}

/// Writes the last line, by what was found of the entries.
///
/// `places` are the lines of the entries.
pub(crate) fn end_line(
    alloc: Global,
    start: &Start,
    places: &[LogLine],
    entries: &[LogEntry],
    found: &Found,
    drift: Option<Drift>,
) -> Result<Vec<u8>, AllocError>
    ensures { (job : Continued) → Begins job start.now
        → IfOk result (λ text. IsEndLine job start.now places.now entries.now found.now.finding found.now.all_sent drift text.items) }
{
    let calls = entries.len() as u64;
    match &found.finding {
        Finding::One { .. } => {
            let one = one_run(alloc, start, entries, drift, found.all_sent)?;
            one_end(alloc, places, calls, &one)
        }
        Finding::Double { first, second } => double_line(alloc, places, entries, *first, *second),
        Finding::Other { .. } => {
            let hints = hints_told(alloc, start, entries, &found.finding)?;
            other_end(alloc, places, calls, &hints)
        }
    }
}
