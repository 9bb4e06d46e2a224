//! The trace of a log: a log in, the lines of its trace out.

ghost use Rattle.std.specs.Prelude.{◌≡◌, IfOk, map, option_map};
ghost use Rattle.cluster.specs.continued.Jobs.{Continued};
ghost use Rattle.log_causes.specs.Audited.{is_one};
ghost use Rattle.log_run.specs.Starts.{Begins, BeginsAt};
ghost use Rattle.log_trace_text.specs.Traces.{AreLinesAfter, IsLogTraceText, head_text, wanted_by};

use crate::ending::end_line;
use crate::place::{places_at, places_of};
use crate::played::played_of;
use crate::text::lines_between;
use clocks::Drift;
use job_calls::{ClusterSnapshot, Job};
use log_causes::{Finding, Found, find_calls};
use log_line::{LinePosition, Log, LogEntry, Progress};
use log_run::Start;
use slice_ranges::SliceKey;
use std::alloc::{AllocError, Global};
use trace_ends::logs_head;

/// Which trace of logs is wanted.
#[derive(Clone, Copy)]
pub struct TraceOptions<'a> {
    /// The text of the key whose stretches are wanted, if it was given as one.
    pub key: Option<&'a str>,
    /// The slice key of that text, or as it was given; `None` if no stretches are wanted.
    pub slice_key: Option<SliceKey>,
    /// Whether there are lines of calls, stretches and handles.
    pub with_calls: bool,
    /// The drift that the samples of the log are judged by.
    pub drift: Option<Drift>,
}

/// The trace of a log.
#[derive(Drop)]
pub struct TracedLog {
    /// The lines of the trace.
    pub text: Vec<u8>,
    /// Whether the calls are one run.
    pub is_one: bool,
    /// The positions of last lines that were left out: they lack their end, and are not calls.
    pub torn: Vec<LinePosition>,
}

// What is told after the first line.
#[derive(Clone, Copy)]
struct Body {
    slice_key: Option<SliceKey>,
    with_calls: bool,
    drift: Option<Drift>,
}

fn head_line(
    alloc: Global,
    job: Job,
    names: &[&str],
    torn: &[LinePosition],
    body: &Body,
    key: Option<&str>,
) -> Result<Vec<u8>, AllocError>
    ensures { IfOk result (λ text. text.items
        ≡ head_text job (map (λ n. n.now) names.now) torn.now body.now.slice_key (option_map (λ k. k.now) key.entry)) }
{
    let lines = places_at(alloc, torn)?;
    logs_head(alloc, job, names, lines.as_slice(), body.slice_key, key)
}

fn is_one(finding: &Finding) -> bool
    ensures { result ≡ is_one finding.now }
{
    matches!(finding, Finding::One { .. })
}

// Writes the lines after the first one.
fn lines_after(
    alloc: Global,
    start: &Start,
    entries: &[LogEntry],
    found: &Found,
    body: &Body,
) -> Result<Vec<u8>, AllocError>
    ensures { (job : Continued) → Begins job start.now
        → IfOk result (λ text. AreLinesAfter job start.now entries.now found.now body.now.slice_key body.now.with_calls body.now.drift text.items) }
{
    let places = places_of(alloc, entries)?;
    let places = places.as_slice();
    let with_calls = body.with_calls;
    let key = body.slice_key;
    let played = played_of(alloc, start, entries, &found.finding, key, with_calls)?;
    let mut text = lines_between(alloc, places, entries, with_calls, &played)?;
    let end = end_line(alloc, start, places, entries, found, body.drift)?;
    text.extend_from_slice(end.as_slice())?;
    Ok(text)
}

/// Judges the calls of a log in the order of their tickets, and writes its trace.
///
/// It is JSON lines, as docs/FORMATS.md has them, each ended by a line feed. `names` are the names
/// of the files, and `earlier` is a snapshot of the machines after the calls of earlier logs, one
/// that [`Cluster::resume`](cluster::Cluster::resume) takes: then there are no stretches and
/// handles, since the calls before are not known. Of logs that are not one run, stretches and
/// handles are those of the calls before the first fault. The only error is out of memory.
pub fn traced_log<P: Progress>(
    alloc: Global,
    names: &[&str],
    log: Log,
    earlier: Option<ClusterSnapshot>,
    options: TraceOptions,
    progress: &mut P,
) -> Result<TracedLog, AllocError>
    ensures { (job : Continued) → BeginsAt job log.job earlier
        → IfOk result (IsLogTraceText job log earlier (map (λ n. n.now) names.now) (wanted_by options.entry)) }
{
    let Log {
        job,
        mut entries,
        torn,
    } = log;
    let TraceOptions {
        key,
        slice_key,
        with_calls,
        drift,
    } = options;
    let body = Body {
        slice_key,
        with_calls,
        drift,
    };
    let mut text = head_line(alloc, job, names, torn.as_slice(), &body, key)?;
    let start = Start { job, earlier };
    let found = find_calls(alloc, &start, &mut entries, false, progress)?;
    let entries = entries.as_slice();
    let lines = lines_after(alloc, &start, entries, &found, &body)?;
    text.extend_from_slice(lines.as_slice())?;
    let is_one = is_one(&found.finding);
    Ok(TracedLog { text, is_one, torn })
}
