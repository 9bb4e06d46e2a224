//! Parsing the lines of a log.

ghost use Rattle.std.specs.Prelude.{◌≡◌, IfErr, IfOk};
ghost use Rattle.serde_json.specs.View.{view};
ghost use Rattle.wire.specs.Refusals.{Gives};
ghost use Rattle.log_line.specs.declared.reading.NoLine.TheVariants as none;
ghost use Rattle.log_line.specs.Lines.{IsNoLine, Says, call_in, line_of, said_of};

use crate::extensions::without_extensions;
use crate::line::{LoggedCall, LoggedLine, Words};
use crate::mend::call_mend;
use crate::message_calls::{clerk_line_named, table_line_named, task_line_named};
use crate::own_calls::own_call_named;
use crate::write::LoggedWrite;
use crate::write_line::{is_write, write_of};
use faults::{line_mend, repeated_mend};
use program_io::{JsonError, number_at, strict_value_of, text_at};
use serde_json::Value;
use std::alloc::{AllocError, Global};
use wire::{DecodeError, DecodeRefusal};

/// What a line says.
#[derive(Debug, Drop)]
pub enum SaidLine {
    /// A call.
    Call(LoggedLine),
    /// A write to a store.
    Write(LoggedWrite),
}

/// Why a line is not read.
#[derive(Debug, Drop)]
pub enum NoLine {
    /// The line is neither a call nor a write.
    Refused {
        why: DecodeRefusal,
        /// How to fix the line, in words.
        mend: String,
    },
    /// Memory ran out.
    Memory,
}

impl From<AllocError> for NoLine {
    ghost from_gives = { λ _ e. e ≡ none.Memory };

    fn from(_error: AllocError) -> Self {
        NoLine::Memory
    }
}

// Parses the call on a line, by its member `do`.
#[tactic(auto, unfolding(crate::specs::Lines::call_in))]
fn call_in(alloc: Global, line: &Value) -> Result<LoggedCall, DecodeError>
    ensures { Gives result (call_in (view line.now)) }
{
    let name = text_at("do", line)?;
    if let Some(call) = own_call_named(alloc, name, line) {
        return call;
    }
    if let Some(call) = table_line_named(alloc, name, line) {
        return call;
    }
    if let Some(call) = task_line_named(alloc, name, line) {
        return call;
    }
    if let Some(call) = clerk_line_named(alloc, name, line) {
        return call;
    }
    Err(DecodeError::Refused(DecodeRefusal::WrongForm))
}

/// Parses a JSON value as the line of a call.
#[tactic(auto, unfolding(crate::specs::Lines::line_of))]
pub fn line_of(alloc: Global, line: &Value) -> Result<LoggedLine, DecodeError>
    ensures { Gives result (line_of (view line.now)) }
{
    let ticket = number_at("ticket", line)?;
    let reply = text_at("reply", line)?;
    let call = call_in(alloc, line)?;
    Ok(LoggedLine {
        ticket,
        call,
        reply: Words::new(alloc, reply)?,
    })
}

// Parses a JSON value as the line of a write or of a call.
fn said_of(alloc: Global, line: &Value) -> Result<SaidLine, DecodeError>
    ensures { Gives result (said_of (view line.now)) }
{
    if is_write(line) {
        Ok(SaidLine::Write(write_of(line)?))
    } else {
        Ok(SaidLine::Call(line_of(alloc, line)?))
    }
}

/// Parses the bytes of a line, and passes over its members whose names begin with `_`.
pub fn line_said(alloc: Global, bytes: &[u8]) -> Result<SaidLine, NoLine>
    ensures ok { IfOk result (Says bytes.now) }
    ensures err { IfErr result (IsNoLine bytes.now) }
{
    let value = match strict_value_of(alloc, bytes) {
        Ok(value) => without_extensions(value),
        Err(JsonError::Memory) => return Err(NoLine::Memory),
        Err(JsonError::NotJson(error)) => {
            let words = line_mend(alloc, &error)?;
            let mend = format!(in alloc; "not JSON: {words}")?;
            let why = DecodeRefusal::NotJson;
            return Err(NoLine::Refused { why, mend });
        }
        Err(JsonError::Repeated(name)) => {
            let mend = repeated_mend(alloc, name.as_str())?;
            let why = DecodeRefusal::RepeatedMember;
            return Err(NoLine::Refused { why, mend });
        }
    };
    match said_of(alloc, &value) {
        Ok(said) => Ok(said),
        Err(DecodeError::NoMemory) => Err(NoLine::Memory),
        Err(DecodeError::Refused(why)) => {
            let mend = call_mend(alloc, &value)?;
            Err(NoLine::Refused { why, mend })
        }
    }
}
