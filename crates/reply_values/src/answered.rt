//! Calls with their answers as JSON values.

ghost use Rattle.std.specs.Prelude.{◌≡◌, IfOk, option_map};
ghost use Rattle.serde_json.specs.View.{view};
ghost use Rattle.reply_values.specs.Answered.{IsWholeWith, answered_data, warned_data, with_member, with_member_if};
ghost use Rattle.reply_values.specs.Values.{large_data};

use crate::large::large_json;
use serde_json::{Value, put};
use std::alloc::{AllocError, Global};

/// What a call is warned of.
#[derive(Clone, Copy, Debug, PartialEq, Eq)]
pub struct Warnings {
    /// The greatest reading of the table's clock in the calls before, in ticks, if the call reads a
    /// task's clock more than the skew below it.
    pub untimely: Option<u64>,
    /// The committed generation, 0 for none, if the call serves a key in a task that does not own it
    /// in this generation.
    pub not_owner: Option<u64>,
}

/// Adds a member to an object. Any other value has none.
pub fn with_member(
    alloc: Global,
    name: &str,
    member: Value,
    value: Value,
) -> Result<Value, AllocError>
    ensures { IfOk result (λ v. view v ≡ with_member name.now (view member) (view value)) }
{
    match value {
        Value::Object(mut members) => {
            put(&mut members, alloc, name, member)?;
            Ok(Value::Object(members))
        }
        other => Ok(other),
    }
}

/// Adds a member to an object, if there is one.
pub fn with_member_if(
    alloc: Global,
    name: &str,
    member: Option<Value>,
    value: Value,
) -> Result<Value, AllocError>
    ensures { IfOk result (λ v. view v ≡ with_member_if name.now (option_map view member) (view value)) }
{
    match member {
        Some(member) => with_member(alloc, name, member, value),
        None => Ok(value),
    }
}

fn with_number_if(
    alloc: Global,
    name: &str,
    number: Option<u64>,
    value: Value,
) -> Result<Value, AllocError>
    ensures { IfOk result (λ v. view v ≡ with_member_if name.now (option_map large_data number) (view value)) }
{
    match number {
        Some(number) => {
            let member = large_json(alloc, number)?;
            with_member(alloc, name, member, value)
        }
        None => Ok(value),
    }
}

fn warned_json(alloc: Global, warnings: Warnings, value: Value) -> Result<Value, AllocError>
    ensures { IfOk result (λ v. view v ≡ warned_data warnings (view value)) }
{
    let value = with_number_if(alloc, "untimely", warnings.untimely, value)?;
    with_number_if(alloc, "not_owner", warnings.not_owner, value)
}

fn with_answers(
    alloc: Global,
    call: Value,
    ticket: Option<u64>,
    reply: Option<Value>,
    reason: Option<Value>,
    warnings: Warnings,
) -> Result<Value, AllocError>
    ensures { IfOk result (λ v. view v ≡ answered_data (view call) ticket (option_map view reply) (option_map view reason) warnings) }
{
    let value = with_number_if(alloc, "ticket", ticket, call)?;
    let value = with_member_if(alloc, "reply", reply, value)?;
    let value = with_member_if(alloc, "reason", reason, value)?;
    warned_json(alloc, warnings, value)
}

/// Adds to a call its ticket, its reply, what decides it, and what it is warned of, each if it is
/// there. The only error is out of memory.
#[tactic(auto, using(crate::proofs::Putting::answered_if_ok))]
pub fn answered_json(
    alloc: Global,
    call: Value,
    ticket: Option<u64>,
    reply: Option<Value>,
    reason: Option<Value>,
    warnings: Warnings,
) -> Result<Value, AllocError>
    ensures value { IfOk result (λ v. view v ≡ answered_data (view call) ticket (option_map view reply) (option_map view reason) warnings) }
    ensures whole { IfOk result (λ v. IsWholeWith (view call) (option_map view reply) (option_map view reason) (view v)) }
{
    with_answers(alloc, call, ticket, reply, reason, warnings)
}
