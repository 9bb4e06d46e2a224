//! Calls that a line has as messages have them, beside its ticket, its reply and its actor.

ghost use Rattle.std.specs.Prelude.{Result};
ghost use Rattle.serde_json.specs.Data.{Data};
ghost use Rattle.serde_json.specs.View.{view};
ghost use Rattle.clerk.specs.declared.call.ClerkCall.{ClerkCall};
ghost use Rattle.grants.specs.declared.table_call.TableCall.{TableCall};
ghost use Rattle.grants.specs.declared.slicelet_call.SliceletCall.{SliceletCall};
ghost use Rattle.wire.specs.declared.fault.DecodeRefusal.{DecodeRefusal};
ghost use Rattle.wire.specs.Named.{GivesBy, reader_of};
ghost use Rattle.wire.specs.Refusals.{Gives};
ghost use Rattle.log_line.specs.MessageCalls.{clerk_kinds, clerk_line, table_kinds, table_line, task_kinds, task_line};

use crate::line::LoggedCall;
use clerk::ClerkCall;
use grants::{SliceletCall, TableCall};
use job_calls::ClusterCall;
use program_io::number_at;
use serde_json::Value;
use std::alloc::Global;
use wire::{DecodeError, Numerals, clerk_call_named, table_call_named, task_call_named};

// Returns a call of the table, which was read from a line.
fn of_table(call: Result<TableCall, DecodeError>) -> Result<LoggedCall, DecodeError>
    ensures { (read : Data → Result TableCall DecodeRefusal) (d : Data) → Gives call (read d) → Gives result (table_line read d) }
{
    let call = call?;
    Ok(LoggedCall::Whole(ClusterCall::Table(call)))
}

// Returns a task's call, which was read from a line, with the task of the line.
fn of_task(call: Result<SliceletCall, DecodeError>, line: &Value) -> Result<LoggedCall, DecodeError>
    ensures { (read : Data → Result SliceletCall DecodeRefusal) → Gives call (read (view line.now)) → Gives result (task_line read (view line.now)) }
{
    let call = call?;
    let task = number_at("task", line)?;
    Ok(LoggedCall::Whole(ClusterCall::Task { task, call }))
}

// Returns a clerk's call, which was read from a line, with the clerk of the line.
fn of_clerk(call: Result<ClerkCall, DecodeError>, line: &Value) -> Result<LoggedCall, DecodeError>
    ensures { (read : Data → Result ClerkCall DecodeRefusal) → Gives call (read (view line.now)) → Gives result (clerk_line read (view line.now)) }
{
    let call = call?;
    let clerk = number_at("clerk", line)?;
    Ok(LoggedCall::Whole(ClusterCall::Clerk { clerk, call }))
}

/// Parses the table's call with this name, if the table has one.
pub fn table_line_named(
    alloc: Global,
    name: &str,
    line: &Value,
) -> Option<Result<LoggedCall, DecodeError>>
    ensures { GivesBy (reader_of table_kinds name.now) (view line.now) result }
{
    let numerals = Numerals::Either;
    let call = table_call_named(alloc, &["ticket", "reply"], numerals, name, line)?;
    Some(of_table(call))
}

/// Parses the task's call with this name, if tasks have one.
pub fn task_line_named(
    alloc: Global,
    name: &str,
    line: &Value,
) -> Option<Result<LoggedCall, DecodeError>>
    ensures { GivesBy (reader_of task_kinds name.now) (view line.now) result }
{
    let numerals = Numerals::Either;
    let call = task_call_named(alloc, &["ticket", "reply", "task"], numerals, name, line)?;
    Some(of_task(call, line))
}

/// Parses the clerk's call with this name, if clerks have one.
pub fn clerk_line_named(
    alloc: Global,
    name: &str,
    line: &Value,
) -> Option<Result<LoggedCall, DecodeError>>
    ensures { GivesBy (reader_of clerk_kinds name.now) (view line.now) result }
{
    let numerals = Numerals::Either;
    let call = clerk_call_named(alloc, &["ticket", "reply", "clerk"], numerals, name, line)?;
    Some(of_clerk(call, line))
}
