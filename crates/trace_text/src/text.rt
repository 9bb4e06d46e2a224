//! The text of a trace.

ghost use Rattle.std.specs.Prelude.{◌≡◌, IfOk, option_map};
ghost use Rattle.slice_ranges.specs.Hash.{slice_key};
ghost use Rattle.trace_text.specs.Texts.{IsTraceText, lines_of};

use crate::call::call_lines;
use crate::handles::handle_lines;
use crate::readings::untimely_of;
use crate::stretch::stretch_lines;
use job_calls::Job;
use reasons::UntimelyReadings;
use script_trace::{ScriptTrace, trace_of};
use slice_ranges::{SliceKey, slice_key};
use std::alloc::{AllocError, Global};
use trace_ends::{script_end, script_head};
use world::Step;

// Returns the slice key of a key, if there is one.
fn key_of(key: Option<&str>) -> Option<SliceKey>
    ensures { result ≡ option_map slice_key (option_map (λ k. k.now) key.entry) }
{
    match key {
        Some(key) => Some(slice_key(key.as_bytes())),
        None => None,
    }
}

// Writes all lines of a trace, of which these readings are not timely.
fn lines_of(
    alloc: Global,
    job: Job,
    key: Option<&str>,
    steps: &[Step],
    trace: &ScriptTrace,
    untimely: &Option<UntimelyReadings>,
) -> Result<Vec<u8>, AllocError>
    ensures { IfOk result (λ text. text.items
        ≡ lines_of job (option_map (λ k. k.now) key.entry) steps.now trace.now untimely.now) }
{
    let mut text = script_head(alloc, job, key_of(key), key)?;
    text.extend_from_slice(call_lines(alloc, steps, trace.lines.as_slice())?.as_slice())?;
    text.extend_from_slice(stretch_lines(alloc, &trace.stretches)?.as_slice())?;
    text.extend_from_slice(handle_lines(alloc, &trace.handles)?.as_slice())?;
    let end = script_end(alloc, steps.len() as u64, untimely)?;
    text.extend_from_slice(end.as_slice())?;
    Ok(text)
}

/// Plays the steps of a script from its first on, and writes the trace.
///
/// It is JSON lines, as docs/FORMATS.md has them, each ended by a line feed. With a key, the trace
/// has the stretches in which each task may serve it. The only error is out of memory.
pub fn trace_text(
    alloc: Global,
    job: Job,
    steps: &[Step],
    key: Option<&str>,
) -> Result<Vec<u8>, AllocError>
    ensures { IfOk result (λ text. IsTraceText job (option_map (λ k. k.now) key.entry) steps.now text.items) }
{
    let trace = trace_of(alloc, job, steps, key_of(key))?;
    let untimely = untimely_of(alloc, steps, job.policy().skew())?;
    lines_of(alloc, job, key, steps, &trace, &untimely)
}
