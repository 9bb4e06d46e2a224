//! Steps as JSON values.

ghost use Rattle.std.specs.Prelude.{◌≡◌, IfOk, false, option_map};
ghost use Rattle.serde_json.specs.View.{view};
ghost use Rattle.serde_json.specs.Written.{has_float};
ghost use Rattle.world.specs.declared.step.Step.TheVariants as step;
ghost use Rattle.reply_values.specs.Answered.{IsWholeIf};
ghost use Rattle.call_values.specs.Steps.{alone_data, asked_data, assigner_data, delivery_data, key_text, logged_data, proposed_data, step_data, with_sent};

use crate::call::{call_json, lone_json};
use crate::words::step_word;
use assignment::Slice;
use clerk::ClerkCall;
use grants::SliceletCall;
use job_calls::ClusterCall;
use log_line::LoggedCall;
use reply_values::{put_large, put_number, put_text, slices_json, with_member_if};
use serde_json::{Map, Value, put};
use slice_ranges::slice_key;
use std::alloc::{AllocError, Global};
use world::Step;

// Writes a step of a task that a log has in the same form.
fn logged_json(alloc: Global, task: u64, call: SliceletCall) -> Result<Value, AllocError>
    ensures { IfOk result (λ v. view v ≡ logged_data task call) }
{
    call_json(alloc, &LoggedCall::Whole(ClusterCall::Task { task, call }))
}

fn learn_json(alloc: Global, clerk: u64, generation: u64) -> Result<Value, AllocError>
    ensures { IfOk result (λ v. view v ≡ alone_data (step.Learn clerk generation)) }
{
    call_json(alloc, &LoggedCall::LearnBare { clerk, generation })
}

fn forget_json(alloc: Global, clerk: u64) -> Result<Value, AllocError>
    ensures { IfOk result (λ v. view v ≡ alone_data (step.Forget clerk)) }
{
    let call = ClerkCall::Forget;
    call_json(
        alloc,
        &LoggedCall::Whole(ClusterCall::Clerk { clerk, call }),
    )
}

fn grant_json(alloc: Global, task: u64, life: u32, at: u64) -> Result<Value, AllocError>
    ensures { IfOk result (λ v. view v ≡ alone_data (step.Grant task life at)) }
{
    let mut map = Map::new(alloc);
    put_large(&mut map, alloc, "at", at)?;
    put_text(&mut map, alloc, "do", "grant")?;
    put_number(&mut map, alloc, "life", life as u64)?;
    put_number(&mut map, alloc, "task", task)?;
    Ok(Value::Object(map))
}

fn assigner_json(alloc: Global, name: &str, assigner: u64, at: u64) -> Result<Value, AllocError>
    ensures { IfOk result (λ v. view v ≡ assigner_data name.now assigner at) }
{
    let mut map = Map::new(alloc);
    put_large(&mut map, alloc, "assigner", assigner)?;
    put_large(&mut map, alloc, "at", at)?;
    put_text(&mut map, alloc, "do", name)?;
    Ok(Value::Object(map))
}

fn propose_json(
    alloc: Global,
    assigner: u64,
    generation: u64,
    slices: &[Slice],
    at: u64,
) -> Result<Value, AllocError>
    ensures { IfOk result (λ v. view v ≡ proposed_data assigner generation slices.now at) }
{
    let slices = slices_json(alloc, slices)?;
    let mut map = Map::new(alloc);
    put_large(&mut map, alloc, "assigner", assigner)?;
    put_large(&mut map, alloc, "at", at)?;
    put_text(&mut map, alloc, "do", "propose")?;
    put_large(&mut map, alloc, "generation", generation)?;
    put(&mut map, alloc, "slices", slices)?;
    Ok(Value::Object(map))
}

fn free_json(alloc: Global, note: u64, at: u64) -> Result<Value, AllocError>
    ensures { IfOk result (λ v. view v ≡ alone_data (step.Free note at)) }
{
    let mut map = Map::new(alloc);
    put_large(&mut map, alloc, "at", at)?;
    put_text(&mut map, alloc, "do", "free")?;
    put_large(&mut map, alloc, "number", note)?;
    Ok(Value::Object(map))
}

fn delivery_json(
    alloc: Global,
    name: &str,
    task: u64,
    number: u64,
    at: u64,
) -> Result<Value, AllocError>
    ensures { IfOk result (λ v. view v ≡ delivery_data name.now task number at) }
{
    let mut map = Map::new(alloc);
    put_large(&mut map, alloc, "at", at)?;
    put_text(&mut map, alloc, "do", name)?;
    put_large(&mut map, alloc, "number", number)?;
    put_number(&mut map, alloc, "task", task)?;
    Ok(Value::Object(map))
}

fn key_text(alloc: Global, key: &[u8]) -> Result<Value, AllocError>
    ensures { IfOk result (λ v. view v ≡ key_text key.now) }
{
    Ok(Value::String(String::from_utf8_lossy(alloc, key)?))
}

fn asked_json(
    alloc: Global,
    name: &str,
    task: u64,
    key: &[u8],
    at: u64,
) -> Result<Value, AllocError>
    ensures { IfOk result (λ v. view v ≡ asked_data name.now task key.now at) }
{
    let mut map = Map::new(alloc);
    put_large(&mut map, alloc, "at", at)?;
    put_text(&mut map, alloc, "do", name)?;
    put(&mut map, alloc, "key", key_text(alloc, key)?)?;
    put_large(&mut map, alloc, "slice_key", slice_key(key).value())?;
    put_number(&mut map, alloc, "task", task)?;
    Ok(Value::Object(map))
}

fn look_json(alloc: Global, clerk: u64, key: &[u8]) -> Result<Value, AllocError>
    ensures { IfOk result (λ v. view v ≡ alone_data (step.Look clerk key.now)) }
{
    let mut map = Map::new(alloc);
    put_number(&mut map, alloc, "clerk", clerk)?;
    put_text(&mut map, alloc, "do", "look")?;
    put(&mut map, alloc, "key", key_text(alloc, key)?)?;
    put_large(&mut map, alloc, "slice_key", slice_key(key).value())?;
    Ok(Value::Object(map))
}

// Writes a step without what it delivers.
fn alone_json(alloc: Global, step: &Step) -> Result<Value, AllocError>
    ensures { IfOk result (λ v. view v ≡ alone_data step.now) }
{
    match step {
        Step::Take { assigner, at } => assigner_json(alloc, "take", *assigner, *at),
        Step::Renew { assigner, at } => assigner_json(alloc, "renew", *assigner, *at),
        Step::Propose {
            assigner,
            generation,
            slices,
            at,
        } => propose_json(alloc, *assigner, *generation, slices.as_slice(), *at),
        Step::Commit { assigner, at } => assigner_json(alloc, "commit", *assigner, *at),
        Step::Grant { task, life, at } => grant_json(alloc, *task, *life, *at),
        Step::Free { note, at } => free_json(alloc, *note, *at),
        Step::Start { task, life, at } => {
            let call = SliceletCall::Start {
                life: *life,
                at: *at,
            };
            logged_json(alloc, *task, call)
        }
        Step::Hear { task, number, at } => delivery_json(alloc, "hear", *task, *number, *at),
        Step::Release { task, kind, at } => {
            let call = SliceletCall::Release {
                kind: *kind,
                at: *at,
            };
            logged_json(alloc, *task, call)
        }
        Step::Serve { task, key, at } => asked_json(alloc, "serve", *task, key.as_slice(), *at),
        Step::Hold { task, key, at } => asked_json(alloc, "hold", *task, key.as_slice(), *at),
        Step::Check { task, handle, at } => delivery_json(alloc, "check", *task, *handle, *at),
        Step::Learn { clerk, generation } => learn_json(alloc, *clerk, *generation),
        Step::Look { clerk, key } => look_json(alloc, *clerk, key.as_slice()),
        Step::Forget { clerk } => forget_json(alloc, *clerk),
        Step::Phase
        | Step::Rows
        | Step::Lose
        | Step::Hash { .. }
        | Step::Assign { .. }
        | Step::Owners { .. }
        | Step::Judge { .. }
        | Step::Load { .. }
        | Step::Gather
        | Step::Plan { .. }
        | Step::Next { .. }
        | Step::DropTerm { .. } => lone_json(alloc, step_word(step)),
    }
}

// Adds to a step what it delivers by its number, named by the step.
fn with_sent(
    alloc: Global,
    step: &Step,
    sent: Option<Value>,
    value: Value,
) -> Result<Value, AllocError>
    ensures { IfOk result (λ v. view v ≡ with_sent step.now (option_map view sent) (view value)) }
{
    match step {
        Step::Free { .. } => with_member_if(alloc, "note", sent, value),
        Step::Hear { .. } => with_member_if(alloc, "grant", sent, value),
        Step::Check { .. } => with_member_if(alloc, "handle", sent, value),
        _ => Ok(value),
    }
}

fn delivering_json(alloc: Global, step: &Step, sent: Option<Value>) -> Result<Value, AllocError>
    ensures { IfOk result (λ v. view v ≡ step_data step.now (option_map view sent)) }
{
    let value = alone_json(alloc, step)?;
    with_sent(alloc, step, sent, value)
}

/// Converts a step to JSON: `do` and the members that it has in a script. What it delivers by its
/// number is there as `grant`, `note` or `handle` if it was made, which `sent` says, as messages have
/// it; `number` is the number. The only error is out of memory.
///
/// A request has its slice key too. A step that no machine takes has `do` alone.
#[tactic(auto, using(crate::proofs::Steps::step_if_ok))]
pub fn step_json(alloc: Global, step: &Step, sent: Option<Value>) -> Result<Value, AllocError>
    ensures value { IfOk result (λ v. view v ≡ step_data step.now (option_map view sent)) }
    ensures whole { IfOk result (λ v. IsWholeIf (option_map view sent) → has_float (view v) ≡ false) }
{
    delivering_json(alloc, step, sent)
}
