//! Lines of objects.

ghost use Rattle.std.specs.Prelude.{◌≡◌, IfOk, false};
ghost use Rattle.serde_json.specs.Data.{object};
ghost use Rattle.serde_json.specs.View.{members_view};
ghost use Rattle.serde_json.specs.Written.{members_have_float};
ghost use Rattle.reason_values.specs.Lines.{line_text};
ghost use Rattle.trace_ends.specs.Faults.{named_data};

use reason_values::line_of;
use serde_json::{Map, Value, put};
use std::alloc::{AllocError, Global};

/// Writes an object with these members as a line.
pub(crate) fn object_line(alloc: Global, members: Map<String, Value>) -> Result<Vec<u8>, AllocError>
    ensures { IfOk result (λ text. members_have_float (members_view members.entries) ≡ false
        → text.items ≡ line_text (object (members_view members.entries))) }
{
    line_of(alloc, &Value::Object(members))
}

/// Writes an object with these members under a name, as a line.
pub(crate) fn named_line(
    alloc: Global,
    name: &str,
    members: Map<String, Value>,
) -> Result<Vec<u8>, AllocError>
    ensures { IfOk result (λ text. members_have_float (members_view members.entries) ≡ false
        → text.items ≡ line_text (named_data name.now (members_view members.entries))) }
{
    let mut map = Map::new(alloc);
    put(&mut map, alloc, name, Value::Object(members))?;
    object_line(alloc, map)
}
