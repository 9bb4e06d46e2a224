//! Which trace of logs is wanted, from the words of a command line.

ghost use Rattle.std.specs.Prelude.{IfErr, IfOk, None};
ghost use Rattle.command.specs.Audits.{IsNotRead};
ghost use Rattle.command.specs.Traces.{AsksForTrace, IsKeyWanted, IsSliceKeyOrNone};
ghost use Rattle.log_trace_text.specs.Traces.{wanted_by};

use crate::arguments::TraceFlags;
use crate::audit_options::drift_given;
use crate::log_audit::{AuditError, KeyFault};
use log_trace_text::TraceOptions;
use slice_ranges::{SliceKey, slice_key};
use std::alloc::{AllocError, Global};

// Returns the slice key with the number that is written.
fn slice_key_in(alloc: Global, words: &str) -> Result<Option<SliceKey>, AllocError>
    ensures { IfOk result (IsSliceKeyOrNone words.now) }
{
    let Ok(number) = words.parse::<u64>() else {
        return Ok(None);
    };
    let Some(key) = SliceKey::new(number) else {
        return Ok(None);
    };
    let written = format!(in alloc; "{number}")?;
    if written.as_str() == words {
        Ok(Some(key))
    } else {
        Ok(None)
    }
}

// Returns the key whose stretches are wanted, if its text is given.
fn key_by_text<'a>(goes_on: bool, key: Option<&'a str>) -> Result<Option<SliceKey>, AuditError<'a>>
    ensures ok { IfOk result (IsKeyWanted goes_on key.entry None) }
    ensures err { IfErr result IsNotRead }
{
    let Some(words) = key else {
        return Ok(None);
    };
    if goes_on {
        return Err(AuditError::NoKey {
            option: "key",
            words,
            fault: KeyFault::FromState,
        });
    }
    Ok(Some(slice_key(words.as_bytes())))
}

// Returns why the stretches of the slice key in these words are not traced.
fn no_slice_key<'a>(words: &'a str, fault: KeyFault) -> AuditError<'a>
    ensures { IsNotRead result }
{
    AuditError::NoKey {
        option: "slice-key",
        words,
        fault,
    }
}

// Returns the key whose stretches are wanted, if one is given.
fn key_of<'a>(
    alloc: Global,
    goes_on: bool,
    key: Option<&'a str>,
    number: Option<&'a str>,
) -> Result<Option<SliceKey>, AuditError<'a>>
    ensures ok { IfOk result (IsKeyWanted goes_on key.entry number.entry) }
    ensures err { IfErr result IsNotRead }
{
    let Some(words) = number else {
        return key_by_text(goes_on, key);
    };
    if key.is_some() {
        return Err(no_slice_key(words, KeyFault::TwoKeys));
    }
    if goes_on {
        return Err(no_slice_key(words, KeyFault::FromState));
    }
    match slice_key_in(alloc, words)? {
        Some(key) => Ok(Some(key)),
        None => Err(no_slice_key(words, KeyFault::NoSliceKey)),
    }
}

/// Returns which trace of logs is wanted.
///
/// # Errors
///
/// [`AuditError::NoKey`] if the key is malformed or given twice, or if the logs go on from a state;
/// then [`AuditError::NoDrift`] if the drift is no drift. Out of memory is [`AuditError::Memory`].
pub fn trace_options<'a>(
    alloc: Global,
    flags: TraceFlags<'a>,
) -> Result<TraceOptions<'a>, AuditError<'a>>
    ensures ok { IfOk result (λ options. AsksForTrace flags.entry (wanted_by options)) }
    ensures err { IfErr result IsNotRead }
{
    Ok(TraceOptions {
        key: flags.key,
        slice_key: key_of(alloc, flags.goes_on, flags.key, flags.slice_key)?,
        with_calls: flags.with_calls,
        drift: drift_given(alloc, flags.drift)?,
    })
}
