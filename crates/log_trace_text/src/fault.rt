//! The lines of faults.

ghost use Rattle.std.specs.Prelude.{◌≡◌, ◌<◌, IfOk, false, length, slice_get};
ghost use Rattle.serde_json.specs.View.{view};
ghost use Rattle.serde_json.specs.Written.{has_float};
ghost use Rattle.log_trace_text.specs.Calls.{no_warnings, told_call_data};
ghost use Rattle.log_trace_text.specs.Faults.{fault_line, fault_lines, fault_text};

use crate::call::{no_warnings, told_call_json};
use log_line::LogEntry;
use log_trace::LogLine as Told;
use reason_values::LogLine;
use serde_json::Value;
use std::alloc::{AllocError, Global};
use trace_ends::fault_line as line_of_fault;

// Writes the line of a call whose caller was told these words.
fn fault_text(alloc: Global, words: &str, call: Value) -> Result<Vec<u8>, AllocError>
    ensures { IfOk result (λ text. has_float (view call) ≡ false → text.items ≡ fault_text words.now (view call)) }
{
    match call {
        Value::Object(members) => line_of_fault(alloc, members, words),
        _ => Ok(Vec::new(alloc)),
    }
}

fn fault_call_line(
    alloc: Global,
    places: &[LogLine],
    entries: &[LogEntry],
    entry: &LogEntry,
    line: &Told,
) -> Result<Vec<u8>, AllocError>
    requires { line.now.index < length entries.now }
    ensures { IfOk result (λ text. text.items
        ≡ fault_text entry.now.line.reply (told_call_data places.now entries.now entry.now line.now no_warnings)) }
{
    let value = told_call_json(alloc, places, entries, entry, line, no_warnings())?;
    fault_text(alloc, entry.line.reply.as_str(), value)
}

// Writes the line of a wrong reply, if there is an entry at its index.
fn fault_line(
    alloc: Global,
    places: &[LogLine],
    entries: &[LogEntry],
    line: &Told,
) -> Result<Vec<u8>, AllocError>
    ensures { IfOk result (λ text. text.items ≡ fault_line places.now entries.now line.now (slice_get entries.now line.now.index)) }
{
    match entries.get(line.index) {
        Some(entry) => fault_call_line(alloc, places, entries, entry, line),
        None => Ok(Vec::new(alloc)),
    }
}

/// Writes the line of each call whose caller was told other words than the machines answer.
///
/// `places` are the lines of the entries.
pub(crate) fn fault_lines(
    alloc: Global,
    places: &[LogLine],
    entries: &[LogEntry],
    wrong: &[Told],
) -> Result<Vec<u8>, AllocError>
    ensures { IfOk result (λ text. text.items ≡ fault_lines places.now entries.now wrong.now) }
{
    let mut text = Vec::new(alloc);
    for line in wrong {
        let line = fault_line(alloc, places, entries, line)?;
        text.extend_from_slice(line.as_slice())?;
    }
    Ok(text)
}
