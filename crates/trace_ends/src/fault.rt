//! Calls of logs whose callers were told other words than the machines answer.

ghost use Rattle.std.specs.Prelude.{◌≡◌, IfOk, OnOk, false};
ghost use Rattle.serde_json.specs.View.{members_view};
ghost use Rattle.serde_json.specs.Written.{members_have_float};
ghost use Rattle.reason_values.specs.Lines.{line_text};
ghost use Rattle.trace_ends.specs.Faults.{fault_data, told_members};

use crate::line::named_line;
use serde_json::{Map, Value, put};
use std::alloc::{AllocError, Global};

fn put_told(map: &mut Map<String, Value>, alloc: Global, told: &str) -> Result<(), AllocError>
    ensures { OnOk result (members_view map.new.entries ≡ told_members told.now (members_view map.old.entries)) }
{
    put(map, alloc, "told", Value::try_from_str(alloc, told)?)
}

/// Writes the line of a fault: the members of the call, its reply and its reason, and the words that
/// its caller was told.
pub fn fault_line(
    alloc: Global,
    members: Map<String, Value>,
    told: &str,
) -> Result<Vec<u8>, AllocError>
    ensures { IfOk result (λ text. members_have_float (members_view members.entries) ≡ false
        → text.items ≡ line_text (fault_data told.now (members_view members.entries))) }
{
    let mut map = members;
    put_told(&mut map, alloc, told)?;
    named_line(alloc, "fault", map)
}
