//! Calls of logs as JSON values.

ghost use Rattle.std.specs.Prelude.{◌≡◌, IfOk, codes};
ghost use Rattle.serde_json.specs.View.{view};
ghost use Rattle.wire.specs.declared.numerals.Numerals.TheVariants as numeral;
ghost use Rattle.wire.specs.Assignments.{slice_data};
ghost use Rattle.wire.specs.Objects.{list_data};
ghost use Rattle.grants.specs.declared.table_call.TableCall.TheVariants as table_call;
ghost use Rattle.grants.specs.declared.slicelet_call.SliceletCall.TheVariants as task_call;
ghost use Rattle.clerk.specs.declared.call.ClerkCall.TheVariants as clerk_call;
ghost use Rattle.job_calls.specs.declared.call.ClusterCall.TheVariants as cluster_call;
ghost use Rattle.call_values.specs.Calls.{bare_data, bare_learnt_data, call_data, clerk_call_data, heard_data, key_data, learnt_data, lone_data, machine_data, restore_data, sample_data, table_call_data, task_call_data, term_call_data};

use assignment::{Assignment, TaskId};
use clerk::ClerkCall;
use grants::{Grant, ReleaseNote, SliceletCall, TableCall};
use job_calls::ClusterCall;
use key_handle::KeyHandle;
use lease_rule::Kind;
use log_line::{BareGrant, KeptNumbers, LoggedCall, TaskSample};
use reply_values::{put_large, put_number, put_text};
use serde_json::{Map, Value, json, put};
use slice_ranges::SliceKey;
use std::alloc::{AllocError, Global};
use wire::{Numerals, assignment_json, grant_json, handle_json, kind_word, note_json};

fn assignment_slices_json(alloc: Global, assignment: &Assignment) -> Result<Value, AllocError>
    ensures { IfOk result (λ v. view v ≡ list_data (slice_data numeral.Quoted) assignment.now.slices) }
{
    let whole = assignment_json(alloc, Numerals::Quoted, assignment)?;
    whole["slices"].clone()
}

/// Writes a call, or a step, that has nothing but its name.
pub fn lone_json(alloc: Global, name: &str) -> Result<Value, AllocError>
    ensures { IfOk result (λ v. view v ≡ lone_data name.now) }
{
    json!(in alloc; {"do": name})
}

fn term_call_json(alloc: Global, name: &str, number: u64, at: u64) -> Result<Value, AllocError>
    ensures { IfOk result (λ v. view v ≡ term_call_data name.now number at) }
{
    let mut map = Map::new(alloc);
    put_large(&mut map, alloc, "at", at)?;
    put_text(&mut map, alloc, "do", name)?;
    put_large(&mut map, alloc, "term", number)?;
    Ok(Value::Object(map))
}

fn take_json(alloc: Global, assigner: u64, at: u64) -> Result<Value, AllocError>
    ensures { IfOk result (λ v. view v ≡ table_call_data (table_call.JobTake assigner at)) }
{
    let mut map = Map::new(alloc);
    put_large(&mut map, alloc, "assigner", assigner)?;
    put_large(&mut map, alloc, "at", at)?;
    put_text(&mut map, alloc, "do", "take")?;
    Ok(Value::Object(map))
}

fn propose_json(
    alloc: Global,
    number: u64,
    assignment: &Assignment,
    at: u64,
) -> Result<Value, AllocError>
    ensures { IfOk result (λ v. view v ≡ table_call_data (table_call.Propose number assignment.now at)) }
{
    let slices = assignment_slices_json(alloc, assignment)?;
    let mut map = Map::new(alloc);
    put_large(&mut map, alloc, "at", at)?;
    put_text(&mut map, alloc, "do", "propose")?;
    put_large(&mut map, alloc, "generation", assignment.generation())?;
    put(&mut map, alloc, "slices", slices)?;
    put_large(&mut map, alloc, "term", number)?;
    Ok(Value::Object(map))
}

fn grant_call_json(alloc: Global, task: TaskId, life: u32, at: u64) -> Result<Value, AllocError>
    ensures { IfOk result (λ v. view v ≡ table_call_data (table_call.Grant task life at)) }
{
    let mut map = Map::new(alloc);
    put_large(&mut map, alloc, "at", at)?;
    put_text(&mut map, alloc, "do", "grant")?;
    put_number(&mut map, alloc, "life", life as u64)?;
    put_number(&mut map, alloc, "task", task.number())?;
    Ok(Value::Object(map))
}

fn free_json(alloc: Global, note: &ReleaseNote, at: u64) -> Result<Value, AllocError>
    ensures { IfOk result (λ v. view v ≡ table_call_data (table_call.Free note.now at)) }
{
    let note = note_json(alloc, Numerals::Quoted, note)?;
    let mut map = Map::new(alloc);
    put_large(&mut map, alloc, "at", at)?;
    put_text(&mut map, alloc, "do", "free")?;
    put(&mut map, alloc, "note", note)?;
    Ok(Value::Object(map))
}

fn table_call_json(alloc: Global, call: &TableCall) -> Result<Value, AllocError>
    ensures { IfOk result (λ v. view v ≡ table_call_data call.now) }
{
    match call {
        TableCall::JobTake { assigner, at } => take_json(alloc, *assigner, *at),
        TableCall::JobRenew { number, at } => term_call_json(alloc, "renew", *number, *at),
        TableCall::Propose {
            number,
            assignment,
            at,
        } => propose_json(alloc, *number, assignment, *at),
        TableCall::Commit { number, at } => term_call_json(alloc, "commit", *number, *at),
        TableCall::Grant { task, life, at } => grant_call_json(alloc, *task, *life, *at),
        TableCall::Free { note, at } => free_json(alloc, note, *at),
        TableCall::Restart => lone_json(alloc, "lose"),
    }
}

fn start_json(alloc: Global, task: u64, life: u32, at: u64) -> Result<Value, AllocError>
    ensures { IfOk result (λ v. view v ≡ task_call_data task (task_call.Start life at)) }
{
    let mut map = Map::new(alloc);
    put_large(&mut map, alloc, "at", at)?;
    put_text(&mut map, alloc, "do", "start")?;
    put_number(&mut map, alloc, "life", life as u64)?;
    put_number(&mut map, alloc, "task", task)?;
    Ok(Value::Object(map))
}

fn heard_json(alloc: Global, task: u64, grant: Value, at: u64) -> Result<Value, AllocError>
    ensures { IfOk result (λ v. view v ≡ heard_data task (view grant) at) }
{
    let mut map = Map::new(alloc);
    put_large(&mut map, alloc, "at", at)?;
    put_text(&mut map, alloc, "do", "hear")?;
    put(&mut map, alloc, "grant", grant)?;
    put_number(&mut map, alloc, "task", task)?;
    Ok(Value::Object(map))
}

fn hear_json(alloc: Global, task: u64, grant: &Grant, at: u64) -> Result<Value, AllocError>
    ensures { IfOk result (λ v. view v ≡ task_call_data task (task_call.Hear grant.now at)) }
{
    let grant = grant_json(alloc, Numerals::Quoted, grant)?;
    heard_json(alloc, task, grant, at)
}

fn release_json(alloc: Global, task: u64, kind: Kind, at: u64) -> Result<Value, AllocError>
    ensures { IfOk result (λ v. view v ≡ task_call_data task (task_call.Release kind at)) }
{
    let mut map = Map::new(alloc);
    put_large(&mut map, alloc, "at", at)?;
    put_text(&mut map, alloc, "do", "release")?;
    put_text(&mut map, alloc, "kind", kind_word(kind))?;
    put_number(&mut map, alloc, "task", task)?;
    Ok(Value::Object(map))
}

fn open_json(alloc: Global, task: u64, life: u32) -> Result<Value, AllocError>
    ensures { IfOk result (λ v. view v ≡ task_call_data task (task_call.Resume life)) }
{
    let mut map = Map::new(alloc);
    put_text(&mut map, alloc, "do", "open")?;
    put_number(&mut map, alloc, "life", life as u64)?;
    put_number(&mut map, alloc, "task", task)?;
    Ok(Value::Object(map))
}

fn task_call_json(alloc: Global, task: u64, call: &SliceletCall) -> Result<Value, AllocError>
    ensures { IfOk result (λ v. view v ≡ task_call_data task call.now) }
{
    match call {
        SliceletCall::Start { life, at } => start_json(alloc, task, *life, *at),
        SliceletCall::Hear { grant, at } => hear_json(alloc, task, grant, *at),
        SliceletCall::Release { kind, at } => release_json(alloc, task, *kind, *at),
        SliceletCall::Resume { life } => open_json(alloc, task, *life),
    }
}

fn learn_json(alloc: Global, clerk: u64, assignment: &Assignment) -> Result<Value, AllocError>
    ensures { IfOk result (λ v. view v ≡ learnt_data clerk assignment.now) }
{
    let slices = assignment_slices_json(alloc, assignment)?;
    let mut map = Map::new(alloc);
    put_number(&mut map, alloc, "clerk", clerk)?;
    put_text(&mut map, alloc, "do", "learn")?;
    put_large(&mut map, alloc, "generation", assignment.generation())?;
    put(&mut map, alloc, "slices", slices)?;
    Ok(Value::Object(map))
}

fn forget_json(alloc: Global, clerk: u64) -> Result<Value, AllocError>
    ensures { IfOk result (λ v. view v ≡ clerk_call_data clerk clerk_call.Forget) }
{
    let mut map = Map::new(alloc);
    put_number(&mut map, alloc, "clerk", clerk)?;
    put_text(&mut map, alloc, "do", "forget")?;
    Ok(Value::Object(map))
}

fn clerk_call_json(alloc: Global, clerk: u64, call: &ClerkCall) -> Result<Value, AllocError>
    ensures { IfOk result (λ v. view v ≡ clerk_call_data clerk call.now) }
{
    match call {
        ClerkCall::Learn(assignment) => learn_json(alloc, clerk, assignment),
        ClerkCall::Forget => forget_json(alloc, clerk),
    }
}

fn key_json(
    alloc: Global,
    name: &str,
    task: u64,
    key: SliceKey,
    at: u64,
) -> Result<Value, AllocError>
    ensures { IfOk result (λ v. view v ≡ key_data name.now task key at) }
{
    let mut map = Map::new(alloc);
    put_large(&mut map, alloc, "at", at)?;
    put_text(&mut map, alloc, "do", name)?;
    put_large(&mut map, alloc, "slice_key", key.value())?;
    put_number(&mut map, alloc, "task", task)?;
    Ok(Value::Object(map))
}

fn check_json(alloc: Global, task: u64, handle: &KeyHandle, at: u64) -> Result<Value, AllocError>
    ensures { IfOk result (λ v. view v ≡ machine_data (cluster_call.Check task handle.now at)) }
{
    let handle = handle_json(alloc, Numerals::Quoted, handle)?;
    let mut map = Map::new(alloc);
    put_large(&mut map, alloc, "at", at)?;
    put_text(&mut map, alloc, "do", "check")?;
    put(&mut map, alloc, "handle", handle)?;
    put_number(&mut map, alloc, "task", task)?;
    Ok(Value::Object(map))
}

fn look_json(alloc: Global, clerk: u64, key: SliceKey) -> Result<Value, AllocError>
    ensures { IfOk result (λ v. view v ≡ machine_data (cluster_call.Look clerk key)) }
{
    let mut map = Map::new(alloc);
    put_number(&mut map, alloc, "clerk", clerk)?;
    put_text(&mut map, alloc, "do", "look")?;
    put_large(&mut map, alloc, "slice_key", key.value())?;
    Ok(Value::Object(map))
}

fn machine_json(alloc: Global, call: &ClusterCall) -> Result<Value, AllocError>
    ensures { IfOk result (λ v. view v ≡ machine_data call.now) }
{
    match call {
        ClusterCall::Table(call) => table_call_json(alloc, call),
        ClusterCall::Task { task, call } => task_call_json(alloc, *task, call),
        ClusterCall::Clerk { clerk, call } => clerk_call_json(alloc, *clerk, call),
        ClusterCall::Phase => lone_json(alloc, "phase"),
        ClusterCall::Rows => lone_json(alloc, "rows"),
        ClusterCall::Serve { task, key, at } => key_json(alloc, "serve", *task, *key, *at),
        ClusterCall::Hold { task, key, at } => key_json(alloc, "hold", *task, *key, *at),
        ClusterCall::Check { task, handle, at } => check_json(alloc, *task, handle, *at),
        ClusterCall::Look { clerk, key } => look_json(alloc, *clerk, *key),
    }
}

fn bare_json(alloc: Global, grant: &BareGrant) -> Result<Value, AllocError>
    ensures { IfOk result (λ v. view v ≡ bare_data grant.now) }
{
    let mut map = Map::new(alloc);
    put_large(&mut map, alloc, "ends", grant.ends)?;
    put_large(&mut map, alloc, "generation", grant.generation)?;
    put_text(&mut map, alloc, "kind", kind_word(grant.kind))?;
    put_number(&mut map, alloc, "life", grant.life as u64)?;
    put_large(&mut map, alloc, "number", grant.number)?;
    put_number(&mut map, alloc, "task", grant.task.number())?;
    put_large(&mut map, alloc, "until", grant.table_ends)?;
    Ok(Value::Object(map))
}

fn bare_hear_json(alloc: Global, task: u64, grant: &BareGrant, at: u64) -> Result<Value, AllocError>
    ensures { IfOk result (λ v. view v ≡ heard_data task (bare_data grant.now) at) }
{
    let grant = bare_json(alloc, grant)?;
    heard_json(alloc, task, grant, at)
}

fn bare_learn_json(alloc: Global, clerk: u64, generation: u64) -> Result<Value, AllocError>
    ensures { IfOk result (λ v. view v ≡ bare_learnt_data clerk generation) }
{
    let mut map = Map::new(alloc);
    put_number(&mut map, alloc, "clerk", clerk)?;
    put_text(&mut map, alloc, "do", "learn")?;
    put_large(&mut map, alloc, "generation", generation)?;
    Ok(Value::Object(map))
}

fn restore_json(alloc: Global, kept: KeptNumbers) -> Result<Value, AllocError>
    ensures { IfOk result (λ v. view v ≡ restore_data kept) }
{
    let mut map = Map::new(alloc);
    put_large(&mut map, alloc, "deadline", kept.deadline)?;
    put_text(&mut map, alloc, "do", "restore")?;
    put_large(&mut map, alloc, "granted", kept.granted)?;
    put_large(&mut map, alloc, "last", kept.last)?;
    Ok(Value::Object(map))
}

fn sample_json(alloc: Global, taken: TaskSample) -> Result<Value, AllocError>
    ensures { IfOk result (λ v. view v ≡ sample_data taken) }
{
    let mut map = Map::new(alloc);
    put_text(&mut map, alloc, "do", "sample")?;
    put_large(&mut map, alloc, "now", taken.now)?;
    put_large(&mut map, alloc, "reading", taken.sample.reading)?;
    put_large(&mut map, alloc, "sent", taken.sample.sent)?;
    put_number(&mut map, alloc, "task", taken.task)?;
    Ok(Value::Object(map))
}

/// Converts a call of a log to JSON: `do`, and the members that it has in a log, but for its ticket
/// and its reply. The only error is out of memory.
///
/// A request has its slice key. Of a grant that is heard and of an assignment that is learnt, there
/// is as much as the log has.
pub fn call_json(alloc: Global, call: &LoggedCall) -> Result<Value, AllocError>
    ensures { IfOk result (λ v. view v ≡ call_data call.now) }
{
    match call {
        LoggedCall::Whole(call) => machine_json(alloc, call),
        LoggedCall::HearBare { task, grant, at } => bare_hear_json(alloc, *task, grant, *at),
        LoggedCall::LearnBare { clerk, generation } => bare_learn_json(alloc, *clerk, *generation),
        LoggedCall::Restore(kept) => restore_json(alloc, *kept),
        LoggedCall::Sample(taken) => sample_json(alloc, *taken),
    }
}
