//! The members of an object that is written.

ghost use Rattle.std.specs.Prelude.{◌≡◌, OnOk};
ghost use Rattle.serde_json.specs.Data.{string, put as with_member};
ghost use Rattle.serde_json.specs.View.{members_view};
ghost use Rattle.wire.specs.Numerals.{numeral_data};
ghost use Rattle.wire.specs.Objects.{number_data};

use crate::numerals::{Numerals, numeral_json};
use serde_json::{Map, Value, put};
use std::alloc::{AllocError, Global};

/// Puts a number that may be 2^53 or more under this name.
pub fn put_numeral(
    map: &mut Map<String, Value>,
    alloc: Global,
    numerals: Numerals,
    name: &str,
    number: u64,
) -> Result<(), AllocError>
    ensures { OnOk result (members_view map.new.entries
        ≡ with_member name.now (numeral_data numerals number) (members_view map.old.entries)) }
{
    let value = numeral_json(alloc, numerals, number)?;
    put(map, alloc, name, value)
}

/// Puts a JSON number under this name.
pub fn put_number(
    map: &mut Map<String, Value>,
    alloc: Global,
    name: &str,
    number: u64,
) -> Result<(), AllocError>
    ensures { OnOk result (members_view map.new.entries
        ≡ with_member name.now (number_data number) (members_view map.old.entries)) }
{
    put(map, alloc, name, Value::from(number))
}

/// Puts a text under this name.
pub fn put_text(
    map: &mut Map<String, Value>,
    alloc: Global,
    name: &str,
    text: &str,
) -> Result<(), AllocError>
    ensures { OnOk result (members_view map.new.entries
        ≡ with_member name.now (string text.now) (members_view map.old.entries)) }
{
    let value = Value::String(String::from_str(alloc, text)?);
    put(map, alloc, name, value)
}
