//! The first member of a text that repeats the name of a member before it in its object.

ghost use Rattle.std.specs.Prelude.{◌≡◌, IfOk, option_map, string_bytes};
ghost use Rattle.json.specs.Value.{value_view, items_view, members_view};
ghost use Rattle.program_io.specs.Repeated.{first_repeated, names_of, repeated_in_items, repeated_in_members, repeated_name, tree_of};

use json::{Error, Reader, Scratch, Value};
use std::alloc::{AllocError, Global};
use std::collections::BTreeSet;

/// How deep arrays and objects nest in a text that `serde_json` reads.
const MOST_LEVELS: usize = 127;

#[cycle(repeated)]
fn in_value<'t>(alloc: Global, value: &Value<'t>) -> Result<Option<&'t str>, AllocError>
    ensures { IfOk result (λ name. option_map (λ s. s.now) name ≡ first_repeated (value_view value.now)) }
{
    match value {
        Value::Array(items) => in_items(alloc, items),
        Value::Object(members) => in_members(alloc, members),
        Value::Null | Value::Bool(_) | Value::Number(_) | Value::String(_) => Ok(None),
    }
}

#[cycle(repeated)]
fn in_items<'t>(alloc: Global, items: &Vec<Value<'t>>) -> Result<Option<&'t str>, AllocError>
    ensures { IfOk result (λ name. option_map (λ s. s.now) name ≡ repeated_in_items (items_view items.now.items)) }
{
    for item in items {
        if let Some(name) = in_value(alloc, item)? {
            return Ok(Some(name));
        }
    }
    Ok(None)
}

#[cycle(repeated)]
fn in_members<'t>(
    alloc: Global,
    members: &Vec<(&'t str, Value<'t>)>,
) -> Result<Option<&'t str>, AllocError>
    ensures { IfOk result (λ name. option_map (λ s. s.now) name
        ≡ repeated_in_members (names_of (members_view members.now.items)) 0 (members_view members.now.items)) }
{
    let mut before = BTreeSet::new(alloc);
    for member in members {
        if !before.insert(member.0)? {
            return Ok(Some(member.0));
        }
        if let Some(name) = in_value(alloc, &member.1)? {
            return Ok(Some(name));
        }
    }
    Ok(None)
}

/// Returns the first name in a JSON text that a member before it in its object has.
pub(crate) fn repeated_name(alloc: Global, text: &str) -> Result<Option<String>, AllocError>
    ensures { IfOk result (λ name. option_map string_bytes name ≡ repeated_name text.now) }
{
    let mut scratch = Scratch::new(alloc);
    let mut reader = Reader::new(text, &mut scratch)?;
    let value = match Value::read(alloc, &mut reader, MOST_LEVELS) {
        Ok(value) => value,
        Err(Error::OutOfMemory) => return Err(AllocError),
        Err(_) => return Ok(None),
    };
    if reader.next().is_some() {
        return Ok(None);
    }
    match in_value(alloc, &value)? {
        Some(name) => Ok(Some(String::from_str(alloc, name)?)),
        None => Ok(None),
    }
}
