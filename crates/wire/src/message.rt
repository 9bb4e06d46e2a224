//! Messages: a value of a type as bytes, of a job.

ghost use Rattle.std.specs.Prelude.{◌≡◌, ◌≢◌, ℕ, List, Result, IfErr, IfOk, OnOk};
ghost use Rattle.serde_json.specs.Data.{Data};
ghost use Rattle.serde_json.specs.View.{view};
ghost use Rattle.wire.specs.declared.fault.DecodeRefusal.{DecodeRefusal};
ghost use Rattle.wire.specs.declared.numerals.Numerals.{Numerals};
ghost use Rattle.wire.specs.declared.numerals.Numerals.TheVariants as numeral;
ghost use Rattle.wire.specs.Refusals.{Gives, IsRead, OutOfMemory};
ghost use Rattle.wire.specs.Messages.{IsDecodedAs, IsMessage, IsOfOtherJob, IsOurs, IsShort, IsUndecoded, IsWritten, content, content_of, first_content, message_data, message_of, message_text, named_content, value_in};

use crate::fault::{DecodeError, DecodeRefusal};
use crate::job_name::JobName;
use crate::numerals::Numerals;
use crate::object::{put_number, put_text};
use program_io::{
    JsonError, MOST_LINE_BYTES, exactly, member_at, number_at, strict_value_of, text_at,
};
use serde_json::{Map, Value, put};
use std::alloc::{AllocError, Global};

/// The version of the messages that this crate writes. It reads these, and those of version 1.
pub const VERSION: u64 = 2;

/// The version of messages without a job, whose numbers are all JSON numbers.
const FIRST_VERSION: u64 = 1;

/// The greatest number of bytes that [`decode`] reads as a message: that of a line.
pub const MOST_BYTES: usize = MOST_LINE_BYTES;

/// A value that can be written as the bytes of a message and read back.
pub trait Wire: Drop {
    // The name of its type.
    ghost name: { List ℕ };

    // What a value is written as, and what is read as a value.
    ghost data_of: { Numerals → Self → Data };

    ghost form: { Numerals → Data → Result Self DecodeRefusal };

    /// Returns the name of the type in a message.
    fn name() -> &'static str
        ensures { result.now ≡ name };

    /// Writes the value as JSON, as messages of [`VERSION`] have it.
    fn to_json(&self, alloc: Global) -> Result<Value, AllocError>
        ensures { IfOk result (λ v. IsWritten data_of form self.now (view v)) };

    /// Reads a value from JSON.
    fn of_json(alloc: Global, numerals: Numerals, value: &Value) -> Result<Self, DecodeError>
    where
        Self: Sized,
        ensures { Gives result (form numerals (view value.now)) };
}

// Writes a message of the job with a value of the type with this name.
fn message_json(alloc: Global, job: &JobName, name: &str, value: Value) -> Result<Value, AllocError>
    ensures { IfOk result (λ v. view v ≡ message_data job.now name.now (view value)) }
{
    let mut map = Map::new(alloc);
    put_text(&mut map, alloc, "job", job.as_str())?;
    put_text(&mut map, alloc, "type", name)?;
    put(&mut map, alloc, "value", value)?;
    put_number(&mut map, alloc, "version", VERSION)?;
    Ok(Value::Object(map))
}

// What a message holds besides its version and its type.
#[derive(Clone, Copy)]
struct Content<'v> {
    job: &'v str,
    numerals: Numerals,
    value: &'v Value,
}

// Returns the value in a message of the type with this name.
fn value_in<'v>(name: &str, message: &'v Value) -> Result<&'v Value, DecodeRefusal>
    ensures { IsRead (λ v. view v.now) result (value_in name.now (view message.now)) }
{
    if text_at("type", message)? != name {
        return Err(DecodeRefusal::OtherType);
    }
    Ok(member_at("value", message)?)
}

#[tactic(auto, unfolding(crate::specs::Messages::first_content))]
fn first_content<'v>(name: &str, message: &'v Value) -> Result<Content<'v>, DecodeRefusal>
    ensures { IsRead (λ c. content c.job.now c.numerals (view c.value.now)) result (first_content name.now (view message.now)) }
{
    exactly(&["type", "value", "version"], message)?;
    let value = value_in(name, message)?;
    Ok(Content {
        job: "",
        numerals: Numerals::Bare,
        value,
    })
}

#[tactic(auto, unfolding(crate::specs::Messages::named_content))]
fn named_content<'v>(name: &str, message: &'v Value) -> Result<Content<'v>, DecodeRefusal>
    ensures { IsRead (λ c. content c.job.now c.numerals (view c.value.now)) result (named_content name.now (view message.now)) }
{
    exactly(&["job", "type", "value", "version"], message)?;
    let job = text_at("job", message)?;
    let value = value_in(name, message)?;
    Ok(Content {
        job,
        numerals: Numerals::Quoted,
        value,
    })
}

// Returns what a message of the type with this name holds.
#[tactic(auto, unfolding(crate::specs::Messages::content_of))]
fn content_of<'v>(name: &str, message: &'v Value) -> Result<Content<'v>, DecodeRefusal>
    ensures { IsRead (λ c. content c.job.now c.numerals (view c.value.now)) result (content_of name.now (view message.now)) }
{
    let version = number_at("version", message)?;
    if version == VERSION {
        named_content(name, message)
    } else if version == FIRST_VERSION {
        first_content(name, message)
    } else {
        Err(DecodeRefusal::Version(version))
    }
}

/// Encodes a value as the bytes of a message of the job.
///
/// Fails only if memory runs out.
pub fn encode<T: Wire>(alloc: Global, job: &JobName, value: &T) -> Result<Vec<u8>, AllocError>
    ensures text { IfOk result (λ bytes. bytes.items ≡ message_text job.now T.name (T.data_of numeral.Quoted value.now)) }
    ensures reads { IfOk result (λ bytes. IsMessage job.now T.name T.form bytes.items value.now) }
{
    let message = message_json(alloc, job, T::name(), value.to_json(alloc)?)?;
    message.to_vec(alloc)
}

// Reads the value that a message of the job says. Memory runs out only while the value is read.
fn message_of<T: Wire>(alloc: Global, job: &JobName, message: &Value) -> Result<T, DecodeError>
    ensures read { Gives result (message_of job.now T.name T.form (view message.now)) }
    ensures memory { OutOfMemory (IsOurs job.now T.name (view message.now)) result }
{
    let content = content_of(T::name(), message)?;
    if content.job != job.as_str() {
        return Err(DecodeError::Refused(DecodeRefusal::OtherJob));
    }
    T::of_json(alloc, content.numerals, content.value)
}

/// Decodes the bytes of a message of the job and the type, or returns why they are not such a
/// message.
///
/// Decoding the bytes of a value gives the same value if they are of this job, and
/// [`DecodeRefusal::OtherJob`] if they are of another one, unless memory runs out or there are more than
/// [`MOST_BYTES`] of them. More bytes are refused before they are parsed. A message of version 1
/// is of the job with the empty name.
pub fn decode<T: Wire>(alloc: Global, job: &JobName, bytes: &[u8]) -> Result<T, DecodeError>
    ensures ok { IfOk result (IsMessage job.now T.name T.form bytes.now) }
    ensures short { OnOk result (IsShort bytes.now) }
    ensures err { IfErr result (IsUndecoded job.now T.name T.form bytes.now) }
    ensures same { (value : T) → IsMessage job.now T.name T.form bytes.now value
        → IsDecodedAs bytes.now value result }
    ensures other { (other : List ℕ) (value : T) → other ≢ job.now → IsMessage other T.name T.form bytes.now value
        → IsOfOtherJob bytes.now result }
{
    if bytes.len() > MOST_BYTES {
        return Err(DecodeError::Refused(DecodeRefusal::TooLong));
    }
    let message = match strict_value_of(alloc, bytes) {
        Ok(message) => message,
        Err(JsonError::NotJson(_)) => return Err(DecodeError::Refused(DecodeRefusal::NotJson)),
        Err(JsonError::Repeated(_)) => return Err(DecodeError::Refused(
            DecodeRefusal::RepeatedMember,
        )),
        Err(JsonError::Memory) => return Err(DecodeError::NoMemory),
    };
    message_of(alloc, job, &message)
}
