//! Parsing bytes as a JSON value.

ghost use Rattle.std.specs.Prelude.{◌≡◌, IfErr, IfOk, IsUtf8, option_map, string_bytes};
ghost use Rattle.serde_json.specs.View.{view};
ghost use Rattle.program_io.specs.Repeated.{repeated_name};
ghost use Rattle.program_io.specs.Json.{IsJson, IsNotStrict, IsStrictJson, IsUnreadJson};

use crate::fault::{JsonError, Unread};
use crate::repeated::repeated_name;
use serde_json::{Category, Value};
use std::alloc::{AllocError, Global};
use std::str;

/// Parses the bytes as the text of one JSON value. Of a member that is written twice, the last counts.
pub fn value_of(alloc: Global, bytes: &[u8]) -> Result<Value, Unread>
    ensures ok { IfOk result (λ v. IsJson bytes.now (view v)) }
    ensures err { IfErr result (IsUnreadJson bytes.now) }
{
    match Value::from_slice(alloc, bytes) {
        Ok(value) => Ok(value),
        Err(error) => {
            if error.classify() == Category::Memory {
                Err(Unread::Memory)
            } else {
                Err(Unread::WrongForm)
            }
        }
    }
}

fn repeated_in(alloc: Global, bytes: &[u8]) -> Result<Option<String>, AllocError>
    ensures { IfOk result (λ name. IsUtf8 bytes.now
        → option_map string_bytes name ≡ repeated_name bytes.now) }
{
    match str::from_utf8(bytes) {
        Ok(text) => repeated_name(alloc, text),
        Err(_) => Ok(None),
    }
}

/// Parses the bytes as the text of one JSON value in which no object has a member twice.
///
/// Fails if the bytes are not JSON, then if a member is repeated, and if memory runs out.
pub fn strict_value_of(alloc: Global, bytes: &[u8]) -> Result<Value, JsonError>
    ensures ok { IfOk result (λ v. IsStrictJson bytes.now (view v)) }
    ensures err { IfErr result (IsNotStrict bytes.now) }
{
    let value = match Value::from_slice(alloc, bytes) {
        Ok(value) => value,
        Err(error) if error.classify() == Category::Memory => return Err(JsonError::Memory),
        Err(error) => return Err(JsonError::NotJson(error)),
    };
    match repeated_in(alloc, bytes)? {
        Some(name) => Err(JsonError::Repeated(name)),
        None => Ok(value),
    }
}
