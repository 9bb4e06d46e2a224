//! The lines between the first and the last one.

ghost use Rattle.std.specs.Prelude.{◌≡◌, IfOk};
ghost use Rattle.log_trace_text.specs.Texts.{called_lines, lines_between, right_of, serving_lines, wrong_of};

use crate::call::call_lines;
use crate::fault::fault_lines;
use crate::played::Played;
use log_line::LogEntry;
use log_trace::{LogLine as Told, LogServing, LogTrace};
use reason_values::LogLine;
use std::alloc::{AllocError, Global};
use trace_text::{handle_lines, stretch_lines};

// Returns the calls whose replies are told.
fn right_of(trace: &Option<LogTrace>) -> &[Told]
    ensures { result.now ≡ right_of trace.now }
{
    match trace {
        Some(trace) => trace.lines.as_slice(),
        None => &[],
    }
}

// Returns the faults that are told.
fn wrong_of(trace: &Option<LogTrace>) -> &[Told]
    ensures { result.now ≡ wrong_of trace.now }
{
    match trace {
        Some(trace) => trace.faults.as_slice(),
        None => &[],
    }
}

// Writes the lines of stretches and of handles, if these are told.
fn serving_lines(alloc: Global, serving: &Option<LogServing>) -> Result<Vec<u8>, AllocError>
    ensures { IfOk result (λ text. text.items ≡ serving_lines serving.now) }
{
    let Some(serving) = serving else {
        return Ok(Vec::new(alloc));
    };
    let mut text = stretch_lines(alloc, &serving.stretches)?;
    let handles = handle_lines(alloc, &serving.handles)?;
    text.extend_from_slice(handles.as_slice())?;
    Ok(text)
}

// Writes the lines of calls, if these are wanted.
fn called_lines(
    alloc: Global,
    places: &[LogLine],
    entries: &[LogEntry],
    with_calls: bool,
    trace: &Option<LogTrace>,
) -> Result<Vec<u8>, AllocError>
    ensures { IfOk result (λ text. text.items ≡ called_lines places.now entries.now with_calls trace.now) }
{
    if with_calls {
        call_lines(alloc, places, entries, right_of(trace))
    } else {
        Ok(Vec::new(alloc))
    }
}

/// Writes the lines of calls, stretches, handles and faults, in this order.
///
/// `places` are the lines of the entries.
pub(crate) fn lines_between(
    alloc: Global,
    places: &[LogLine],
    entries: &[LogEntry],
    with_calls: bool,
    played: &Played,
) -> Result<Vec<u8>, AllocError>
    ensures { IfOk result (λ text. text.items ≡ lines_between places.now entries.now with_calls played.now) }
{
    let mut text = called_lines(alloc, places, entries, with_calls, &played.trace)?;
    let serving = serving_lines(alloc, &played.serving)?;
    text.extend_from_slice(serving.as_slice())?;
    let faults = fault_lines(alloc, places, entries, wrong_of(&played.trace))?;
    text.extend_from_slice(faults.as_slice())?;
    Ok(text)
}
