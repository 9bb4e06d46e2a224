//! Lines of a trace.

ghost use Rattle.std.specs.Prelude.{◌≡◌, IfOk, false};
ghost use Rattle.serde_json.specs.View.{view};
ghost use Rattle.serde_json.specs.Written.{has_float};
ghost use Rattle.reason_values.specs.Lines.{line_text};

use serde_json::Value;
use std::alloc::{AllocError, Global};

/// Writes a value as a line: without white space, and ended by a line feed.
pub fn line_of(alloc: Global, value: &Value) -> Result<Vec<u8>, AllocError>
    ensures { IfOk result (λ text. has_float (view value.now) ≡ false → text.items ≡ line_text (view value.now)) }
{
    let mut text = value.to_vec(alloc)?;
    text.push(b'\n')?;
    Ok(text)
}
