//! Where calls stand in the logs.

ghost use Rattle.std.specs.Prelude.{◌≡◌, IfOk, map};
ghost use Rattle.serde_json.specs.View.{view};
ghost use Rattle.log_trace_text.specs.Places.{place_at, places_of, with_place_in};

use log_line::{LinePosition, LogEntry};
use reason_values::{LogLine, put_place};
use serde_json::Value;
use std::alloc::{AllocError, Global};

// Returns the line at a position.
fn place_at(at: LinePosition) -> LogLine
    ensures { result ≡ place_at at }
{
    LogLine {
        log: at.file as u64,
        line: at.line as u64,
    }
}

/// Returns the line of each entry.
pub(crate) fn places_of(alloc: Global, entries: &[LogEntry]) -> Result<Vec<LogLine>, AllocError>
    ensures { IfOk result (λ places. places.items ≡ places_of entries.now) }
{
    let mut places = Vec::new(alloc);
    for entry in entries {
        places.push(place_at(entry.place))?;
    }
    Ok(places)
}

/// Returns the line at each position.
pub(crate) fn places_at(
    alloc: Global,
    positions: &[LinePosition],
) -> Result<Vec<LogLine>, AllocError>
    ensures { IfOk result (λ lines. lines.items ≡ map place_at positions.now) }
{
    let mut lines = Vec::new(alloc);
    for at in positions {
        lines.push(place_at(*at))?;
    }
    Ok(lines)
}

/// Adds the place of a call, by its number from 1, to an object. Any other value has none.
pub(crate) fn with_place(
    alloc: Global,
    places: &[LogLine],
    call: u64,
    value: Value,
) -> Result<Value, AllocError>
    ensures { IfOk result (λ v. view v ≡ with_place_in places.now call (view value)) }
{
    match value {
        Value::Object(mut members) => {
            put_place(&mut members, alloc, places, call)?;
            Ok(Value::Object(members))
        }
        other => Ok(other),
    }
}
