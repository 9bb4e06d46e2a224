//! Calls of the table in JSON.

ghost use Rattle.std.specs.Prelude.{◌≡◌, map};
ghost use Rattle.serde_json.specs.View.{view};
ghost use Rattle.wire.specs.Named.{GivesBy, reader_of};
ghost use Rattle.wire.specs.Refusals.{Gives};
ghost use Rattle.wire.specs.TableCalls.{call_kinds, commit_of, free_of, grant_call_of, lose_of, propose_of, renew_of, take_of};

use crate::fault::{DecodeError, DecodeRefusal, decoded};
use crate::lease_members::{life_at, task_at};
use crate::note::note_of;
use crate::numerals::{Numerals, numeral_at};
use crate::slicing::assignment_in;
use grants::TableCall;
use program_io::{exactly_beside, member_at};
use serde_json::Value;
use std::alloc::Global;

#[tactic(auto, unfolding(crate::specs::TableCalls::take_of))]
fn take_of(beside: &[&str], numerals: Numerals, value: &Value) -> Result<TableCall, DecodeRefusal>
    ensures { result ≡ take_of (map (λ n. n.now) beside.now) numerals (view value.now) }
{
    exactly_beside(beside, &["do", "assigner", "at"], value)?;
    Ok(TableCall::JobTake {
        assigner: numeral_at(numerals, "assigner", value)?,
        at: numeral_at(numerals, "at", value)?,
    })
}

#[tactic(auto, unfolding(crate::specs::TableCalls::renew_of))]
fn renew_of(beside: &[&str], numerals: Numerals, value: &Value) -> Result<TableCall, DecodeRefusal>
    ensures { result ≡ renew_of (map (λ n. n.now) beside.now) numerals (view value.now) }
{
    exactly_beside(beside, &["do", "term", "at"], value)?;
    Ok(TableCall::JobRenew {
        number: numeral_at(numerals, "term", value)?,
        at: numeral_at(numerals, "at", value)?,
    })
}

#[tactic(auto, unfolding(crate::specs::TableCalls::propose_of))]
fn propose_of(
    alloc: Global,
    beside: &[&str],
    numerals: Numerals,
    value: &Value,
) -> Result<TableCall, DecodeError>
    ensures { Gives result (propose_of (map (λ n. n.now) beside.now) numerals (view value.now)) }
{
    exactly_beside(beside, &["do", "term", "generation", "slices", "at"], value)?;
    let number = numeral_at(numerals, "term", value)?;
    let at = numeral_at(numerals, "at", value)?;
    let assignment = assignment_in(alloc, numerals, value)?;
    Ok(TableCall::Propose {
        number,
        assignment,
        at,
    })
}

#[tactic(auto, unfolding(crate::specs::TableCalls::commit_of))]
fn commit_of(beside: &[&str], numerals: Numerals, value: &Value) -> Result<TableCall, DecodeRefusal>
    ensures { result ≡ commit_of (map (λ n. n.now) beside.now) numerals (view value.now) }
{
    exactly_beside(beside, &["do", "term", "at"], value)?;
    Ok(TableCall::Commit {
        number: numeral_at(numerals, "term", value)?,
        at: numeral_at(numerals, "at", value)?,
    })
}

#[tactic(auto, unfolding(crate::specs::TableCalls::grant_call_of))]
fn grant_call_of(
    beside: &[&str],
    numerals: Numerals,
    value: &Value,
) -> Result<TableCall, DecodeRefusal>
    ensures { result ≡ grant_call_of (map (λ n. n.now) beside.now) numerals (view value.now) }
{
    exactly_beside(beside, &["do", "task", "life", "at"], value)?;
    Ok(TableCall::Grant {
        task: task_at("task", value)?,
        life: life_at("life", value)?,
        at: numeral_at(numerals, "at", value)?,
    })
}

#[tactic(auto, unfolding(crate::specs::TableCalls::free_of))]
fn free_of(beside: &[&str], numerals: Numerals, value: &Value) -> Result<TableCall, DecodeRefusal>
    ensures { result ≡ free_of (map (λ n. n.now) beside.now) numerals (view value.now) }
{
    exactly_beside(beside, &["do", "note", "at"], value)?;
    Ok(TableCall::Free {
        note: note_of(numerals, member_at("note", value)?)?,
        at: numeral_at(numerals, "at", value)?,
    })
}

#[tactic(auto, unfolding(crate::specs::TableCalls::lose_of))]
fn lose_of(beside: &[&str], value: &Value) -> Result<TableCall, DecodeRefusal>
    ensures { result ≡ lose_of (map (λ n. n.now) beside.now) (view value.now) }
{
    exactly_beside(beside, &["do"], value)?;
    Ok(TableCall::Restart)
}

/// Reads the table's call with this name from an object that has the members `beside`, too.
///
/// Returns `None` if there is no such call. The result is an error if a member is missing, is unknown, or does not
/// have the form that it must have, or if memory runs out.
pub fn table_call_named(
    alloc: Global,
    beside: &[&str],
    numerals: Numerals,
    name: &str,
    value: &Value,
) -> Option<Result<TableCall, DecodeError>>
    ensures { GivesBy (reader_of (call_kinds (map (λ n. n.now) beside.now) numerals) name.now) (view value.now) result }
{
    Some(match name {
        "take" => decoded(take_of(beside, numerals, value)),
        "renew" => decoded(renew_of(beside, numerals, value)),
        "propose" => propose_of(alloc, beside, numerals, value),
        "commit" => decoded(commit_of(beside, numerals, value)),
        "grant" => decoded(grant_call_of(beside, numerals, value)),
        "free" => decoded(free_of(beside, numerals, value)),
        "lose" => decoded(lose_of(beside, value)),
        _ => return None,
    })
}
