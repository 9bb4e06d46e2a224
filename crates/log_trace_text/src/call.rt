//! The lines of calls.

ghost use Rattle.std.specs.Prelude.{◌≡◌, ◌<◌, IfOk, drop, length, option_map, slice_get};
ghost use Rattle.serde_json.specs.View.{view};
ghost use Rattle.reason_values.specs.Lines.{line_text};
ghost use Rattle.log_trace_text.specs.Calls.{call_lines, no_warnings, placed_data, told_call_data, told_line, told_lines, untold_call_data, untold_lines, warnings_of};

use crate::place::with_place;
use crate::reason::decided_json;
use call_values::{call_json, told_json};
use log_line::LogEntry;
use log_trace::LogLine as Told;
use reason_values::{LogLine, line_of};
use reply_values::{Warnings, answered_json};
use serde_json::Value;
use std::alloc::{AllocError, Global};

// Writes a call with its place and its ticket, and with its reply and what decides it, where there
// are these.
fn placed_json(
    alloc: Global,
    places: &[LogLine],
    call: u64,
    entry: &LogEntry,
    answer: (Option<Value>, Option<Value>),
    warnings: Warnings,
) -> Result<Value, AllocError>
    ensures { IfOk result (λ v. view v
        ≡ placed_data places.now call entry.now (option_map view answer.0) (option_map view answer.1) warnings) }
{
    let (reply, reason) = answer;
    let made = call_json(alloc, &entry.line.call)?;
    let told = answered_json(
        alloc,
        made,
        Some(entry.line.ticket),
        reply,
        reason,
        warnings,
    )?;
    with_place(alloc, places, call, told)
}

/// Returns no warnings.
pub(crate) fn no_warnings() -> Warnings
    ensures { result ≡ no_warnings }
{
    Warnings {
        untimely: None,
        not_owner: None,
    }
}

// Returns what a call warns of.
fn warnings_of(line: &Told) -> Warnings
    ensures { result ≡ warnings_of line.now }
{
    Warnings {
        untimely: line.untimely,
        not_owner: line.not_owner,
    }
}

/// Writes a call whose reply is told, which is that of this entry, with these warnings.
pub(crate) fn told_call_json(
    alloc: Global,
    places: &[LogLine],
    entries: &[LogEntry],
    entry: &LogEntry,
    line: &Told,
    warnings: Warnings,
) -> Result<Value, AllocError>
    requires { line.now.index < length entries.now }
    ensures { IfOk result (λ v. view v ≡ told_call_data places.now entries.now entry.now line.now warnings) }
{
    let reply = told_json(alloc, &line.reply)?;
    let why = decided_json(alloc, places, entries, line)?;
    let call = line.index as u64 + 1;
    placed_json(alloc, places, call, entry, (Some(reply), why), warnings)
}

fn told_call_line(
    alloc: Global,
    places: &[LogLine],
    entries: &[LogEntry],
    entry: &LogEntry,
    line: &Told,
) -> Result<Vec<u8>, AllocError>
    requires { line.now.index < length entries.now }
    ensures { IfOk result (λ text. text.items
        ≡ line_text (told_call_data places.now entries.now entry.now line.now (warnings_of line.now))) }
{
    let value = told_call_json(alloc, places, entries, entry, line, warnings_of(line))?;
    line_of(alloc, &value)
}

// Writes the line of a call whose reply is told, if there is an entry at its index.
fn told_line(
    alloc: Global,
    places: &[LogLine],
    entries: &[LogEntry],
    line: &Told,
) -> Result<Vec<u8>, AllocError>
    ensures { IfOk result (λ text. text.items ≡ told_line places.now entries.now line.now (slice_get entries.now line.now.index)) }
{
    match entries.get(line.index) {
        Some(entry) => told_call_line(alloc, places, entries, entry, line),
        None => Ok(Vec::new(alloc)),
    }
}

fn untold_call_json(
    alloc: Global,
    places: &[LogLine],
    call: u64,
    entry: &LogEntry,
) -> Result<Value, AllocError>
    ensures { IfOk result (λ v. view v ≡ untold_call_data places.now call entry.now) }
{
    placed_json(alloc, places, call, entry, (None, None), no_warnings())
}

fn untold_line(
    alloc: Global,
    places: &[LogLine],
    call: u64,
    entry: &LogEntry,
) -> Result<Vec<u8>, AllocError>
    ensures { IfOk result (λ text. text.items ≡ line_text (untold_call_data places.now call entry.now)) }
{
    let value = untold_call_json(alloc, places, call, entry)?;
    line_of(alloc, &value)
}

fn told_lines(
    alloc: Global,
    places: &[LogLine],
    entries: &[LogEntry],
    told: &[Told],
) -> Result<Vec<u8>, AllocError>
    ensures { IfOk result (λ text. text.items ≡ told_lines places.now entries.now told.now) }
{
    let mut text = Vec::new(alloc);
    for line in told {
        let line = told_line(alloc, places, entries, line)?;
        text.extend_from_slice(line.as_slice())?;
    }
    Ok(text)
}

// Writes the lines of the calls from an index on.
fn untold_lines(
    alloc: Global,
    places: &[LogLine],
    from: usize,
    entries: &[LogEntry],
) -> Result<Vec<u8>, AllocError>
    ensures { IfOk result (λ text. text.items ≡ untold_lines places.now from (drop from entries.now)) }
{
    let mut text = Vec::new(alloc);
    for i in from..entries.len() {
        let line = untold_line(alloc, places, i as u64 + 1, &entries[i])?;
        text.extend_from_slice(line.as_slice())?;
    }
    Ok(text)
}

/// Writes a line for each call: those whose replies are told, and then the others.
///
/// `places` are the lines of the entries, and `told` the calls whose replies are told, which are
/// the first ones.
pub(crate) fn call_lines(
    alloc: Global,
    places: &[LogLine],
    entries: &[LogEntry],
    told: &[Told],
) -> Result<Vec<u8>, AllocError>
    ensures { IfOk result (λ text. text.items ≡ call_lines places.now entries.now told.now) }
{
    let mut text = told_lines(alloc, places, entries, told)?;
    let lines = untold_lines(alloc, places, told.len(), entries)?;
    text.extend_from_slice(lines.as_slice())?;
    Ok(text)
}
