//! Lines of a log as JSON.

ghost use Rattle.std.specs.Prelude.{◌≡◌, IfOk, codes};
ghost use Rattle.serde_json.specs.View.{view};
ghost use Rattle.wire.specs.declared.numerals.Numerals.TheVariants.{Either};
ghost use Rattle.wire.specs.Assignments.{slice_data};
ghost use Rattle.wire.specs.Objects.{list_data};
ghost use Rattle.grants.specs.declared.table_call.TableCall.TheVariants as table_call;
ghost use Rattle.grants.specs.declared.slicelet_call.SliceletCall.TheVariants as task_call;
ghost use Rattle.job_calls.specs.declared.call.ClusterCall.TheVariants as cluster_call;
ghost use Rattle.log_lines.specs.LineData.{bare_data, bare_learn_data, clerk_data, heard_data, key_data, line_data, lone_data, machine_data, restore_data, sample_data, table_data, task_data, term_data};

use assignment::{Assignment, TaskId};
use clerk::ClerkCall;
use grants::{ReleaseNote, SliceletCall, TableCall};
use job_calls::ClusterCall;
use key_handle::KeyHandle;
use log_line::{BareGrant, KeptNumbers, LoggedCall, TaskSample};
use serde_json::{Value, json};
use slice_ranges::SliceKey;
use std::alloc::{AllocError, Global};
use wire::{Numerals, assignment_json, grant_json, handle_json, kind_word, note_json};

fn slices_json(alloc: Global, assignment: &Assignment) -> Result<Value, AllocError>
    ensures { IfOk result (λ v. view v ≡ list_data (slice_data Either) assignment.now.slices) }
{
    let whole = assignment_json(alloc, Numerals::Either, assignment)?;
    whole["slices"].clone()
}

fn term_json(
    alloc: Global,
    ticket: u64,
    name: &str,
    number: u64,
    at: u64,
    reply: &str,
) -> Result<Value, AllocError>
    ensures { IfOk result (λ v. view v ≡ term_data name.now ticket number at reply.now) }
{
    json!(in alloc; {"at": at, "do": name, "reply": reply, "term": number, "ticket": ticket})
}

fn propose_json(
    alloc: Global,
    ticket: u64,
    number: u64,
    assignment: &Assignment,
    at: u64,
    reply: &str,
) -> Result<Value, AllocError>
    ensures { IfOk result (λ v. view v ≡ table_data ticket (table_call.Propose number assignment.now at) reply.now) }
{
    let slices = slices_json(alloc, assignment)?;
    json!(in alloc; {
        "at": at,
        "do": "propose",
        "generation": assignment.generation(),
        "reply": reply,
        "slices": slices,
        "term": number,
        "ticket": ticket
    })
}

fn grant_call_json(
    alloc: Global,
    ticket: u64,
    task: TaskId,
    life: u32,
    at: u64,
    reply: &str,
) -> Result<Value, AllocError>
    ensures { IfOk result (λ v. view v ≡ table_data ticket (table_call.Grant task life at) reply.now) }
{
    json!(in alloc; {
        "at": at,
        "do": "grant",
        "life": life,
        "reply": reply,
        "task": task.number(),
        "ticket": ticket
    })
}

fn free_json(
    alloc: Global,
    ticket: u64,
    note: &ReleaseNote,
    at: u64,
    reply: &str,
) -> Result<Value, AllocError>
    ensures { IfOk result (λ v. view v ≡ table_data ticket (table_call.Free note.now at) reply.now) }
{
    let note = note_json(alloc, Numerals::Either, note)?;
    json!(in alloc; {"at": at, "do": "free", "note": note, "reply": reply, "ticket": ticket})
}

fn lone_json(alloc: Global, ticket: u64, name: &str, reply: &str) -> Result<Value, AllocError>
    ensures { IfOk result (λ v. view v ≡ lone_data name.now ticket reply.now) }
{
    json!(in alloc; {"do": name, "reply": reply, "ticket": ticket})
}

fn table_json(
    alloc: Global,
    ticket: u64,
    call: &TableCall,
    reply: &str,
) -> Result<Value, AllocError>
    ensures { IfOk result (λ v. view v ≡ table_data ticket call.now reply.now) }
{
    match call {
        TableCall::JobTake { assigner, at } => {
            let (assigner, at) = (*assigner, *at);
            json!(in alloc; {
                "assigner": assigner,
                "at": at,
                "do": "take",
                "reply": reply,
                "ticket": ticket
            })
        }
        TableCall::JobRenew { number, at } => term_json(
            alloc, ticket, "renew", *number, *at, reply,
        ),
        TableCall::Propose {
            number,
            assignment,
            at,
        } => propose_json(alloc, ticket, *number, assignment, *at, reply),
        TableCall::Commit { number, at } => term_json(alloc, ticket, "commit", *number, *at, reply),
        TableCall::Grant { task, life, at } => {
            grant_call_json(alloc, ticket, *task, *life, *at, reply)
        }
        TableCall::Free { note, at } => free_json(alloc, ticket, note, *at, reply),
        TableCall::Restart => lone_json(alloc, ticket, "lose", reply),
    }
}

fn task_json(
    alloc: Global,
    ticket: u64,
    task: u64,
    call: &SliceletCall,
    reply: &str,
) -> Result<Value, AllocError>
    ensures { IfOk result (λ v. view v ≡ task_data ticket task call.now reply.now) }
{
    match call {
        SliceletCall::Start { life, at } => {
            let (life, at) = (*life, *at);
            json!(in alloc; {
                "at": at,
                "do": "start",
                "life": life,
                "reply": reply,
                "task": task,
                "ticket": ticket
            })
        }
        SliceletCall::Hear { grant, at } => {
            let grant = grant_json(alloc, Numerals::Either, grant)?;
            heard_json(alloc, ticket, task, grant, *at, reply)
        }
        SliceletCall::Release { kind, at } => {
            let (kind, at) = (*kind, *at);
            json!(in alloc; {
                "at": at,
                "do": "release",
                "kind": kind_word(kind),
                "reply": reply,
                "task": task,
                "ticket": ticket
            })
        }
        SliceletCall::Resume { life } => open_json(alloc, ticket, task, *life, reply),
    }
}

fn open_json(
    alloc: Global,
    ticket: u64,
    task: u64,
    life: u32,
    reply: &str,
) -> Result<Value, AllocError>
    ensures { IfOk result (λ v. view v ≡ task_data ticket task (task_call.Resume life) reply.now) }
{
    json!(in alloc; {
        "do": "open",
        "life": life,
        "reply": reply,
        "task": task,
        "ticket": ticket
    })
}

fn heard_json(
    alloc: Global,
    ticket: u64,
    task: u64,
    grant: Value,
    at: u64,
    reply: &str,
) -> Result<Value, AllocError>
    ensures { IfOk result (λ v. view v ≡ heard_data ticket task (view grant) at reply.now) }
{
    json!(in alloc; {
        "at": at,
        "do": "hear",
        "grant": grant,
        "reply": reply,
        "task": task,
        "ticket": ticket
    })
}

fn clerk_json(
    alloc: Global,
    ticket: u64,
    clerk: u64,
    call: &ClerkCall,
    reply: &str,
) -> Result<Value, AllocError>
    ensures { IfOk result (λ v. view v ≡ clerk_data ticket clerk call.now reply.now) }
{
    match call {
        ClerkCall::Learn(assignment) => {
            let slices = slices_json(alloc, assignment)?;
            json!(in alloc; {
                "clerk": clerk,
                "do": "learn",
                "generation": assignment.generation(),
                "reply": reply,
                "slices": slices,
                "ticket": ticket
            })
        }
        ClerkCall::Forget => json!(in alloc; {
            "clerk": clerk,
            "do": "forget",
            "reply": reply,
            "ticket": ticket
        }),
    }
}

fn serve_json(
    alloc: Global,
    ticket: u64,
    task: u64,
    key: SliceKey,
    at: u64,
    reply: &str,
) -> Result<Value, AllocError>
    ensures { IfOk result (λ v. view v ≡ key_data (codes "serve") ticket task key at reply.now) }
{
    json!(in alloc; {
        "at": at,
        "do": "serve",
        "reply": reply,
        "slice_key": key.value(),
        "task": task,
        "ticket": ticket
    })
}

fn hold_json(
    alloc: Global,
    ticket: u64,
    task: u64,
    key: SliceKey,
    at: u64,
    reply: &str,
) -> Result<Value, AllocError>
    ensures { IfOk result (λ v. view v ≡ key_data (codes "hold") ticket task key at reply.now) }
{
    json!(in alloc; {
        "at": at,
        "do": "hold",
        "reply": reply,
        "slice_key": key.value(),
        "task": task,
        "ticket": ticket
    })
}

fn machine_json(
    alloc: Global,
    ticket: u64,
    call: &ClusterCall,
    reply: &str,
) -> Result<Value, AllocError>
    ensures { IfOk result (λ v. view v ≡ machine_data ticket call.now reply.now) }
{
    match call {
        ClusterCall::Table(call) => table_json(alloc, ticket, call, reply),
        ClusterCall::Task { task, call } => task_json(alloc, ticket, *task, call, reply),
        ClusterCall::Clerk { clerk, call } => clerk_json(alloc, ticket, *clerk, call, reply),
        ClusterCall::Phase => lone_json(alloc, ticket, "phase", reply),
        ClusterCall::Rows => lone_json(alloc, ticket, "rows", reply),
        ClusterCall::Serve { task, key, at } => serve_json(alloc, ticket, *task, *key, *at, reply),
        ClusterCall::Hold { task, key, at } => hold_json(alloc, ticket, *task, *key, *at, reply),
        ClusterCall::Check { task, handle, at } => {
            check_json(alloc, ticket, *task, handle, *at, reply)
        }
        ClusterCall::Look { clerk, key } => look_json(alloc, ticket, *clerk, *key, reply),
    }
}

fn check_json(
    alloc: Global,
    ticket: u64,
    task: u64,
    handle: &KeyHandle,
    at: u64,
    reply: &str,
) -> Result<Value, AllocError>
    ensures { IfOk result (λ v. view v ≡ machine_data ticket (cluster_call.Check task handle.now at) reply.now) }
{
    let handle = handle_json(alloc, Numerals::Either, handle)?;
    json!(in alloc; {
        "at": at,
        "do": "check",
        "handle": handle,
        "reply": reply,
        "task": task,
        "ticket": ticket
    })
}

fn look_json(
    alloc: Global,
    ticket: u64,
    clerk: u64,
    key: SliceKey,
    reply: &str,
) -> Result<Value, AllocError>
    ensures { IfOk result (λ v. view v ≡ machine_data ticket (cluster_call.Look clerk key) reply.now) }
{
    json!(in alloc; {
        "clerk": clerk,
        "do": "look",
        "reply": reply,
        "slice_key": key.value(),
        "ticket": ticket
    })
}

fn bare_json(alloc: Global, grant: &BareGrant) -> Result<Value, AllocError>
    ensures { IfOk result (λ v. view v ≡ bare_data grant.now) }
{
    json!(in alloc; {
        "ends": grant.ends,
        "generation": grant.generation,
        "kind": kind_word(grant.kind),
        "life": grant.life,
        "number": grant.number,
        "task": grant.task.number(),
        "until": grant.table_ends
    })
}

fn bare_learn_json(
    alloc: Global,
    ticket: u64,
    clerk: u64,
    generation: u64,
    reply: &str,
) -> Result<Value, AllocError>
    ensures { IfOk result (λ v. view v ≡ bare_learn_data ticket clerk generation reply.now) }
{
    json!(in alloc; {
        "clerk": clerk,
        "do": "learn",
        "generation": generation,
        "reply": reply,
        "ticket": ticket
    })
}

fn restore_json(
    alloc: Global,
    ticket: u64,
    numbers: KeptNumbers,
    reply: &str,
) -> Result<Value, AllocError>
    ensures { IfOk result (λ v. view v ≡ restore_data ticket numbers reply.now) }
{
    json!(in alloc; {
        "deadline": numbers.deadline,
        "do": "restore",
        "granted": numbers.granted,
        "last": numbers.last,
        "reply": reply,
        "ticket": ticket
    })
}

fn sample_json(
    alloc: Global,
    ticket: u64,
    taken: TaskSample,
    reply: &str,
) -> Result<Value, AllocError>
    ensures { IfOk result (λ v. view v ≡ sample_data ticket taken reply.now) }
{
    json!(in alloc; {
        "do": "sample",
        "now": taken.now,
        "reading": taken.sample.reading,
        "reply": reply,
        "sent": taken.sample.sent,
        "task": taken.task,
        "ticket": ticket
    })
}

/// Writes a call at its ticket, with the words that its caller was told, as the line of a log.
///
/// Numbers are JSON numbers.
pub fn line_json(
    alloc: Global,
    ticket: u64,
    call: &LoggedCall,
    reply: &str,
) -> Result<Value, AllocError>
    ensures { IfOk result (λ v. view v ≡ line_data ticket call.now reply.now) }
{
    match call {
        LoggedCall::Whole(call) => machine_json(alloc, ticket, call, reply),
        LoggedCall::HearBare { task, grant, at } => {
            let grant = bare_json(alloc, grant)?;
            heard_json(alloc, ticket, *task, grant, *at, reply)
        }
        LoggedCall::LearnBare { clerk, generation } => {
            bare_learn_json(alloc, ticket, *clerk, *generation, reply)
        }
        LoggedCall::Restore(numbers) => restore_json(alloc, ticket, *numbers, reply),
        LoggedCall::Sample(taken) => sample_json(alloc, ticket, *taken, reply),
    }
}
