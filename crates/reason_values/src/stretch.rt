//! Stretches, and when handles break.

ghost use Rattle.std.specs.Prelude.{◌≡◌, IfOk};
ghost use Rattle.serde_json.specs.View.{view};
ghost use Rattle.reason_values.specs.Lines.{line_text};
ghost use Rattle.reason_values.specs.Stretches.{broken_data, serving_data, stretch_data};

use crate::line::line_of;
use reply_values::large_json;
use serde_json::{Value, json};
use std::alloc::{AllocError, Global};
use stretches::{GivenHandle, ServingLease, Stretch};
use wire::kind_word;

fn serving_json(alloc: Global, lease: &ServingLease) -> Result<Value, AllocError>
    ensures { IfOk result (λ v. view v ≡ serving_data lease.now) }
{
    let generation = large_json(alloc, lease.generation)?;
    let number = large_json(alloc, lease.number)?;
    json!(in alloc; {"generation": generation, "kind": kind_word(lease.kind), "number": number})
}

fn stretch_json(alloc: Global, task: u64, stretch: &Stretch) -> Result<Value, AllocError>
    ensures { IfOk result (λ v. view v ≡ stretch_data task stretch.now) }
{
    let from = large_json(alloc, stretch.from)?;
    let to = large_json(alloc, stretch.to)?;
    let lease = serving_json(alloc, &stretch.lease)?;
    json!(in alloc; {
        "stretch": {
            "from": from,
            "lease": lease,
            "process": stretch.process,
            "task": task,
            "to": to
        }
    })
}

fn broken_json(alloc: Global, given: &GivenHandle) -> Result<Value, AllocError>
    ensures { IfOk result (λ v. view v ≡ broken_data given.now) }
{
    let breaks = large_json(alloc, given.breaks)?;
    json!(in alloc; {"broken": {"breaks": breaks, "handle": given.number}})
}

/// Writes the line of a stretch of a task.
pub fn stretch_line(alloc: Global, task: u64, stretch: &Stretch) -> Result<Vec<u8>, AllocError>
    ensures { IfOk result (λ text. text.items ≡ line_text (stretch_data task stretch.now)) }
{
    line_of(alloc, &stretch_json(alloc, task, stretch)?)
}

/// Writes the line of when a handle breaks.
pub fn broken_line(alloc: Global, given: &GivenHandle) -> Result<Vec<u8>, AllocError>
    ensures { IfOk result (λ text. text.items ≡ line_text (broken_data given.now)) }
{
    line_of(alloc, &broken_json(alloc, given)?)
}
