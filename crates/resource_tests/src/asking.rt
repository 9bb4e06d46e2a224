//! Calls that are made again where memory is refused once.

use machines::Trouble;
use program_io::{Fault, Unread};
use std::alloc::{AllocError, Global};
use std::test::Fail;
use wire::{DecodeError, JobName, Wire, decode, encode};

/// An error that may be out of memory.
pub trait Failure: Drop {
    /// Whether it is out of memory.
    fn is_no_memory(&self) -> bool;
}

impl Failure for AllocError {
    fn is_no_memory(&self) -> bool {
        true
    }
}

impl<Refusal: Drop> Failure for Trouble<Refusal> {
    fn is_no_memory(&self) -> bool {
        matches!(self, Trouble::NoMemory)
    }
}

impl Failure for DecodeError {
    fn is_no_memory(&self) -> bool {
        matches!(self, DecodeError::NoMemory)
    }
}

impl Failure for Unread {
    fn is_no_memory(&self) -> bool {
        matches!(self, Unread::Memory)
    }
}

impl<Refusal: Drop> Failure for Fault<Refusal> {
    fn is_no_memory(&self) -> bool {
        matches!(self, Fault::Memory)
    }
}

/// Asks, and asks once more where the first answer is out of memory.
pub fn again<T, E: Failure, F: Fn() -> Result<T, E>>(ask: F) -> Result<T, E>
    requires { F.IsAlwaysCallable ask }
{
    match ask() {
        Err(failure) if failure.is_no_memory() => ask(),
        first => first,
    }
}

/// Makes a call that changes a value, and makes it once more where the first answer is out of memory.
///
/// What is shown of the value has to be as before then.
pub fn changed<V, T, E, S, F>(value: &mut V, shown: S, call: F) -> Result<T, Fail>
where
    E: Failure,
    S: Fn(&V) -> Result<String, AllocError>,
    F: Fn(&mut V) -> Result<T, E>,
    requires shown { S.IsAlwaysCallable shown }
    requires call { F.IsAlwaysCallable call }
{
    let before = again(|| shown(value))?;
    let answer = match call(value) {
        Err(failure) if failure.is_no_memory() && shown(value)? == before => call(value),
        first => first,
    };
    let answer = answer.ok();
    Ok(answer.ok_or("the call succeeds, at the second time at the latest")?)
}

// The message with this value, of the job with the empty name.
fn message<T: Wire>(alloc: Global, value: &str) -> Result<String, AllocError> {
    format!(in alloc;
        "{{\"job\":\"\",\"type\":\"{}\",\"value\":{value},\"version\":2}}",
        T::name()
    )
}

/// Reads a value from its JSON.
pub fn read<T: Wire>(alloc: Global, value: &str) -> Result<T, Fail> {
    let text = again(|| message::<T>(alloc, value))?;
    Ok(again(|| decode(alloc, &JobName::default(), text.as_bytes()))?)
}

/// Whether this JSON is what the value is written as.
pub fn is_written<T: Wire>(alloc: Global, value: &T, json: &str) -> Result<bool, AllocError> {
    let text = again(|| message::<T>(alloc, json))?;
    let bytes = again(|| encode(alloc, &JobName::default(), value))?;
    Ok(bytes.as_slice() == text.as_bytes())
}
