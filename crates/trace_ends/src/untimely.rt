//! Readings that are not timely.

ghost use Rattle.std.specs.Prelude.{◌≡◌, IfOk, OnOk};
ghost use Rattle.serde_json.specs.View.{members_view, view};
ghost use Rattle.trace_ends.specs.Ends.{reading_data, untimely_data, with_call};

use reason_values::{LogLine, put_place};
use reasons::{PlacedReading, UntimelyReadings};
use reply_values::large_json;
use serde_json::{Map, Value, json, put};
use std::alloc::{AllocError, Global};

fn put_call(
    map: &mut Map<String, Value>,
    alloc: Global,
    lines: &[LogLine],
    call: Option<u64>,
) -> Result<(), AllocError>
    ensures { OnOk result (members_view map.new.entries ≡ with_call lines.now call (members_view map.old.entries)) }
{
    match call {
        Some(call) => put_place(map, alloc, lines, call),
        None => Ok(()),
    }
}

fn reading_json(
    alloc: Global,
    lines: &[LogLine],
    reading: PlacedReading,
) -> Result<Value, AllocError>
    ensures { IfOk result (λ v. view v ≡ reading_data lines.now reading) }
{
    let mut map = Map::new(alloc);
    put(&mut map, alloc, "at", large_json(alloc, reading.at)?)?;
    put_call(&mut map, alloc, lines, reading.call)?;
    Ok(Value::Object(map))
}

/// Writes the readings by which clocks were not timely.
pub(crate) fn untimely_json(
    alloc: Global,
    lines: &[LogLine],
    untimely: &UntimelyReadings,
) -> Result<Value, AllocError>
    ensures { IfOk result (λ v. view v ≡ untimely_data lines.now untimely.now) }
{
    let first = reading_json(alloc, lines, untimely.first)?;
    let greatest = reading_json(alloc, lines, untimely.greatest)?;
    let task = reading_json(alloc, lines, untimely.task)?;
    json!(in alloc; {"first": first, "greatest": greatest, "task": task})
}
