//! Calls of a slicelet as bytes.

ghost use Rattle.std.specs.Prelude.{◌≡◌, IfOk, Ok, codes, map};
ghost use Rattle.serde_json.specs.View.{view};
ghost use Rattle.grants.specs.declared.slicelet_call.SliceletCall.TheVariants as call;
ghost use Rattle.wire.specs.declared.numerals.Numerals.TheVariants as numeral;
ghost use Rattle.wire.specs.Named.{GivesBy, reader_of};
ghost use Rattle.wire.specs.Refusals.{Gives};
ghost use Rattle.wire.specs.TaskCalls.{hear_of, release_of, resume_of, start_of, task_call_data, task_call_kinds, task_call_of};

use crate::fault::{DecodeError, DecodeRefusal, decoded};
use crate::grant::{grant_json, grant_law, grant_of};
use crate::lease_members::{kind_at, kind_word, life_at};
use crate::message::Wire;
use crate::numerals::{Numerals, numeral_at};
use crate::object::{put_number, put_numeral, put_text};
use grants::{Grant, SliceletCall};
use lease_rule::Kind;
use program_io::{exactly_beside, member_at, text_at};
use serde_json::{Map, Value, json, put};
use std::alloc::{AllocError, Global};

fn start_json(alloc: Global, numerals: Numerals, life: u32, at: u64) -> Result<Value, AllocError>
    ensures { IfOk result (λ v. view v ≡ task_call_data numerals (call.Start life at)) }
{
    let mut map = Map::new(alloc);
    put_numeral(&mut map, alloc, numerals, "at", at)?;
    put_text(&mut map, alloc, "do", "start")?;
    put_number(&mut map, alloc, "life", life as u64)?;
    Ok(Value::Object(map))
}

fn hear_json(alloc: Global, numerals: Numerals, grant: &Grant, at: u64) -> Result<Value, AllocError>
    ensures { IfOk result (λ v. view v ≡ task_call_data numerals (call.Hear grant.now at)) }
{
    let mut map = Map::new(alloc);
    put_numeral(&mut map, alloc, numerals, "at", at)?;
    put_text(&mut map, alloc, "do", "hear")?;
    put(
        &mut map,
        alloc,
        "grant",
        grant_json(alloc, numerals, grant)?,
    )?;
    Ok(Value::Object(map))
}

fn release_json(alloc: Global, numerals: Numerals, kind: Kind, at: u64) -> Result<Value, AllocError>
    ensures { IfOk result (λ v. view v ≡ task_call_data numerals (call.Release kind at)) }
{
    let mut map = Map::new(alloc);
    put_numeral(&mut map, alloc, numerals, "at", at)?;
    put_text(&mut map, alloc, "do", "release")?;
    put_text(&mut map, alloc, "kind", kind_word(kind))?;
    Ok(Value::Object(map))
}

fn resume_json(alloc: Global, numerals: Numerals, life: u32) -> Result<Value, AllocError>
    ensures { IfOk result (λ v. view v ≡ task_call_data numerals (call.Resume life)) }
{
    json!(in alloc; {"do": "resume", "life": life})
}

// Writes the call as JSON.
fn task_call_json(
    alloc: Global,
    numerals: Numerals,
    call: &SliceletCall,
) -> Result<Value, AllocError>
    ensures { IfOk result (λ v. view v ≡ task_call_data numerals call.now) }
{
    match call {
        SliceletCall::Start { life, at } => start_json(alloc, numerals, *life, *at),
        SliceletCall::Hear { grant, at } => hear_json(alloc, numerals, grant, *at),
        SliceletCall::Release { kind, at } => release_json(alloc, numerals, *kind, *at),
        SliceletCall::Resume { life } => resume_json(alloc, numerals, *life),
    }
}

#[tactic(auto, unfolding(crate::specs::TaskCalls::start_of))]
fn start_of(
    beside: &[&str],
    numerals: Numerals,
    value: &Value,
) -> Result<SliceletCall, DecodeRefusal>
    ensures { result ≡ start_of (map (λ n. n.now) beside.now) numerals (view value.now) }
{
    exactly_beside(beside, &["do", "life", "at"], value)?;
    Ok(SliceletCall::Start {
        life: life_at("life", value)?,
        at: numeral_at(numerals, "at", value)?,
    })
}

#[tactic(auto, unfolding(crate::specs::TaskCalls::hear_of))]
fn hear_of(
    alloc: Global,
    beside: &[&str],
    numerals: Numerals,
    value: &Value,
) -> Result<SliceletCall, DecodeError>
    ensures { Gives result (hear_of (map (λ n. n.now) beside.now) numerals (view value.now)) }
{
    exactly_beside(beside, &["do", "grant", "at"], value)?;
    let at = numeral_at(numerals, "at", value)?;
    let grant = grant_of(alloc, numerals, member_at("grant", value)?)?;
    Ok(SliceletCall::Hear { grant, at })
}

#[tactic(auto, unfolding(crate::specs::TaskCalls::release_of))]
fn release_of(
    beside: &[&str],
    numerals: Numerals,
    value: &Value,
) -> Result<SliceletCall, DecodeRefusal>
    ensures { result ≡ release_of (map (λ n. n.now) beside.now) numerals (view value.now) }
{
    exactly_beside(beside, &["do", "kind", "at"], value)?;
    Ok(SliceletCall::Release {
        kind: kind_at("kind", value)?,
        at: numeral_at(numerals, "at", value)?,
    })
}

#[tactic(auto, unfolding(crate::specs::TaskCalls::resume_of))]
fn resume_of(beside: &[&str], value: &Value) -> Result<SliceletCall, DecodeRefusal>
    ensures { result ≡ resume_of (map (λ n. n.now) beside.now) (view value.now) }
{
    exactly_beside(beside, &["do", "life"], value)?;
    Ok(SliceletCall::Resume {
        life: life_at("life", value)?,
    })
}

/// Reads the slicelet's call with this name from an object that has the members `beside`, too.
///
/// Returns `None` if there is no such call. The result is an error if a member is missing, is unknown, or does not
/// have the form that it must have, or if memory runs out.
pub fn task_call_named(
    alloc: Global,
    beside: &[&str],
    numerals: Numerals,
    name: &str,
    value: &Value,
) -> Option<Result<SliceletCall, DecodeError>>
    ensures { GivesBy (reader_of (task_call_kinds (map (λ n. n.now) beside.now) numerals) name.now) (view value.now) result }
{
    Some(match name {
        "start" => decoded(start_of(beside, numerals, value)),
        "hear" => hear_of(alloc, beside, numerals, value),
        "release" => decoded(release_of(beside, numerals, value)),
        "resume" => decoded(resume_of(beside, value)),
        _ => return None,
    })
}

// Reads a call from JSON.
#[tactic(auto, unfolding(crate::specs::TaskCalls::task_call_of))]
fn task_call_of(
    alloc: Global,
    numerals: Numerals,
    value: &Value,
) -> Result<SliceletCall, DecodeError>
    ensures { Gives result (task_call_of numerals (view value.now)) }
{
    let name = text_at("do", value)?;
    match task_call_named(alloc, &[], numerals, name, value) {
        Some(call) => call,
        None => Err(DecodeError::Refused(DecodeRefusal::WrongForm)),
    }
}

// States that reading what was written of a call gives the same call.
fn task_call_law(call: &SliceletCall)
    ensures { task_call_of numeral.Quoted (task_call_data numeral.Quoted call.now) ≡ Ok call.now }
{
    match call {
        SliceletCall::Start { life, at } => {
            let _at = *at;
            let _life = *life;
        }
        SliceletCall::Hear { grant, at } => {
            let _at = *at;
            grant_law(grant);
        }
        SliceletCall::Release { at, .. } => {
            let _at = *at;
        }
        SliceletCall::Resume { life } => {
            let _life = *life;
        }
    }
}

impl Wire for SliceletCall {
    ghost name = { codes "task-call" };

    ghost data_of = { task_call_data };

    ghost form = { task_call_of };

    fn name() -> &'static str {
        "task-call"
    }

    #[tactic(auto, using(crate::proofs::TaskCalls::task_call_written))]
    fn to_json(&self, alloc: Global) -> Result<Value, AllocError> {
        task_call_law(self);
        task_call_json(alloc, Numerals::Quoted, self)
    }

    fn of_json(
        alloc: Global,
        numerals: Numerals,
        value: &Value,
    ) -> Result<SliceletCall, DecodeError> {
        task_call_of(alloc, numerals, value)
    }
}
