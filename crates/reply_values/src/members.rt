//! The members of an object that is written.

ghost use Rattle.std.specs.Prelude.{◌≡◌, OnOk, option_map};
ghost use Rattle.serde_json.specs.Data.{string, put as put_member};
ghost use Rattle.serde_json.specs.View.{members_view, view};
ghost use Rattle.wire.specs.Objects.{number_data};
ghost use Rattle.reply_values.specs.Values.{large_data, put_if};

use crate::large::large_json;
use serde_json::{Map, Value, put};
use std::alloc::{AllocError, Global};

/// Puts a number that may be 2^53 or more under this name, as the text of its decimal digits.
pub fn put_large(
    map: &mut Map<String, Value>,
    alloc: Global,
    name: &str,
    number: u64,
) -> Result<(), AllocError>
    ensures { OnOk result (members_view map.new.entries
        ≡ put_member name.now (large_data number) (members_view map.old.entries)) }
{
    let value = large_json(alloc, number)?;
    put(map, alloc, name, value)
}

/// Puts a smaller number under this name, as a JSON number.
pub fn put_number(
    map: &mut Map<String, Value>,
    alloc: Global,
    name: &str,
    number: u64,
) -> Result<(), AllocError>
    ensures { OnOk result (members_view map.new.entries
        ≡ put_member name.now (number_data number) (members_view map.old.entries)) }
{
    put(map, alloc, name, Value::from(number))
}

/// Puts a text under this name.
pub fn put_text(
    map: &mut Map<String, Value>,
    alloc: Global,
    name: &str,
    text: &str,
) -> Result<(), AllocError>
    ensures { OnOk result (members_view map.new.entries
        ≡ put_member name.now (string text.now) (members_view map.old.entries)) }
{
    let value = Value::String(String::from_str(alloc, text)?);
    put(map, alloc, name, value)
}

/// Puts a value, if there is one, under this name.
pub fn put_if(
    map: &mut Map<String, Value>,
    alloc: Global,
    name: &str,
    value: Option<Value>,
) -> Result<(), AllocError>
    ensures { OnOk result (members_view map.new.entries
        ≡ put_if name.now (option_map view value) (members_view map.old.entries)) }
{
    match value {
        Some(value) => put(map, alloc, name, value),
        None => Ok(()),
    }
}
