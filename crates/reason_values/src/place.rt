//! Where calls stand.

ghost use Rattle.std.specs.Prelude.{◌≡◌, IfOk, OnOk};
ghost use Rattle.serde_json.specs.View.{members_view, view};
ghost use Rattle.cluster.specs.Numbers.{with_number};
ghost use Rattle.reason_values.specs.Places.{place_data, with_line, with_place};

use serde_json::{Map, Value, put};
use std::alloc::{AllocError, Global};

/// A line of a log.
#[derive(Clone, Copy, Debug, PartialEq, Eq)]
pub struct LogLine {
    /// The index of the log among those of the trace, from 0.
    pub log: u64,
    /// The number of the line in that log, from 1.
    pub line: u64,
}

// Returns the line of a call by its number, from 1; `None` if it has none.
fn line_at(lines: &[LogLine], call: u64) -> Option<LogLine>
    ensures { result ≡ with_number call lines.now }
{
    if call == 0 {
        return None;
    }
    lines.get((call - 1) as usize).copied()
}

fn put_line(
    map: &mut Map<String, Value>,
    alloc: Global,
    at: Option<LogLine>,
) -> Result<(), AllocError>
    ensures { OnOk result (members_view map.new.entries ≡ with_line at (members_view map.old.entries)) }
{
    let Some(LogLine { log, line }) = at else {
        return Ok(());
    };
    put(map, alloc, "line", Value::from(line))?;
    put(map, alloc, "log", Value::from(log))
}

/// Puts the place of a call, by its number from 1.
///
/// `lines` are the lines of all calls of logs, in the order of the calls; of a script there are
/// none.
pub fn put_place(
    map: &mut Map<String, Value>,
    alloc: Global,
    lines: &[LogLine],
    call: u64,
) -> Result<(), AllocError>
    ensures { OnOk result (members_view map.new.entries ≡ with_place lines.now call (members_view map.old.entries)) }
{
    put(map, alloc, "call", Value::from(call))?;
    put_line(map, alloc, line_at(lines, call))
}

/// Writes the place of a call as [`put_place`] puts it.
pub fn place_json(alloc: Global, lines: &[LogLine], call: u64) -> Result<Value, AllocError>
    ensures { IfOk result (λ v. view v ≡ place_data lines.now call) }
{
    let mut map = Map::new(alloc);
    put_place(&mut map, alloc, lines, call)?;
    Ok(Value::Object(map))
}
