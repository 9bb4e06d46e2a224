//! Handles on keys as bytes.

ghost use Rattle.std.specs.Prelude.{◌≡◌, IfOk, Ok, codes};
ghost use Rattle.serde_json.specs.View.{view};
ghost use Rattle.wire.specs.declared.numerals.Numerals.TheVariants as numeral;
ghost use Rattle.wire.specs.Handles.{handle_data, handle_of, slice_key_at};
ghost use Rattle.wire.specs.Refusals.{or_wrong};

use crate::fault::DecodeError;
use crate::lease_members::{life_at, task_at};
use crate::message::Wire;
use crate::numerals::{Numerals, numeral_at};
use crate::object::{put_number, put_numeral};
use key_handle::KeyHandle;
use program_io::{WrongForm, exactly};
use serde_json::{Map, Value};
use slice_ranges::SliceKey;
use std::alloc::{AllocError, Global};

/// Writes the handle as JSON.
pub fn handle_json(
    alloc: Global,
    numerals: Numerals,
    handle: &KeyHandle,
) -> Result<Value, AllocError>
    ensures { IfOk result (λ v. view v ≡ handle_data numerals handle.now) }
{
    let mut map = Map::new(alloc);
    put_number(&mut map, alloc, "life", handle.life as u64)?;
    put_numeral(&mut map, alloc, numerals, "position", handle.position)?;
    put_numeral(&mut map, alloc, numerals, "slice_key", handle.key.value())?;
    put_number(&mut map, alloc, "task", handle.task.number())?;
    Ok(Value::Object(map))
}

/// Returns the member with this name as a slice key, a number below 2^63.
pub fn slice_key_at(numerals: Numerals, name: &str, value: &Value) -> Result<SliceKey, WrongForm>
    ensures { result ≡ slice_key_at numerals name.now (view value.now) }
{
    match SliceKey::new(numeral_at(numerals, name, value)?) {
        Some(key) => Ok(key),
        None => Err(WrongForm),
    }
}

/// Reads a handle from JSON.
#[tactic(auto, unfolding(crate::specs::Handles::handle_of))]
pub fn handle_of(numerals: Numerals, value: &Value) -> Result<KeyHandle, WrongForm>
    ensures { result ≡ handle_of numerals (view value.now) }
{
    exactly(&["life", "position", "slice_key", "task"], value)?;
    Ok(KeyHandle {
        task: task_at("task", value)?,
        life: life_at("life", value)?,
        key: slice_key_at(numerals, "slice_key", value)?,
        position: numeral_at(numerals, "position", value)?,
    })
}

// States that reading what was written of a handle gives the same handle.
#[tactic(auto, using(crate::proofs::Handles::handle_read))]
fn handle_law(handle: &KeyHandle)
    ensures { handle_of numeral.Quoted (handle_data numeral.Quoted handle.now) ≡ Ok handle.now }
{
    let _life = handle.life;
    let _task = handle.task.number();
    let _key = handle.key.value();
    let _position = handle.position;
}

impl Wire for KeyHandle {
    ghost name = { codes "handle" };

    ghost data_of = { handle_data };

    ghost form = { λ numerals d. or_wrong (handle_of numerals d) };

    fn name() -> &'static str {
        "handle"
    }

    #[tactic(auto, using(crate::proofs::Handles::handle_written))]
    fn to_json(&self, alloc: Global) -> Result<Value, AllocError> {
        handle_law(self);
        handle_json(alloc, Numerals::Quoted, self)
    }

    fn of_json(
        _alloc: Global,
        numerals: Numerals,
        value: &Value,
    ) -> Result<KeyHandle, DecodeError> {
        Ok(handle_of(numerals, value)?)
    }
}
