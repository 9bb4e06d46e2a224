//! The key that a line names.

ghost use Rattle.std.specs.Prelude.{◌≡◌};
ghost use Rattle.serde_json.specs.View.{view};
ghost use Rattle.log_line.specs.Keys.{has_slice_key, hashed_key, key_name, slice_key_in};

use program_io::{WrongForm, text_at};
use replies::MOST_KEY_BYTES;
use serde_json::Value;
use slice_ranges::{SliceKey, slice_key};
use wire::{Numerals, slice_key_at};

// Whether the line names a slice key in place of a key.
fn has_slice_key(line: &Value) -> bool
    ensures { result ≡ has_slice_key (view line.now) }
{
    line.get("slice_key").is_some()
}

/// Returns the name of the member that names the key: `slice_key` if the line has it, else `key`.
pub fn key_name(line: &Value) -> &'static str
    ensures { result.now ≡ key_name (view line.now) }
{
    if has_slice_key(line) {
        "slice_key"
    } else {
        "key"
    }
}

// Returns the slice key of the member `key`, a text of at most 4096 bytes.
fn hashed_key(line: &Value) -> Result<SliceKey, WrongForm>
    ensures { result ≡ hashed_key (view line.now) }
{
    let key = text_at("key", line)?;
    if key.len() > MOST_KEY_BYTES {
        return Err(WrongForm);
    }
    Ok(slice_key(key.as_bytes()))
}

/// Returns the slice key that a line names: its member `slice_key`, a number below 2^63, or that
/// of its member `key`, a text of at most 4096 bytes.
pub fn slice_key_in(line: &Value) -> Result<SliceKey, WrongForm>
    ensures { result ≡ slice_key_in (view line.now) }
{
    if has_slice_key(line) {
        slice_key_at(Numerals::Either, "slice_key", line)
    } else {
        hashed_key(line)
    }
}
