//! What logs may lack that are not one run.

ghost use Rattle.std.specs.Prelude.{◌≡◌, ◌++◌, IfOk, OnOk, map, option_map};
ghost use Rattle.serde_json.specs.View.{view};
ghost use Rattle.trace_ends.specs.Ends.{begin_data, grants_data, hint_values, listed, open_data};

use reason_values::{LogLine, place_json};
use reply_values::large_json;
use serde_json::{Value, json};
use std::alloc::{AllocError, Global};

/// An `open` line with which the calls up to the wrong one are a run.
#[derive(Clone, Copy, Debug)]
pub struct OpenHint {
    /// The number of the task, from 1.
    pub task: u64,
    /// The life that it would open.
    pub life: u32,
    /// The number among all calls, from 1, of the call before which it would stand.
    pub before: u64,
}

/// Grants that no line of the logs has, by their numbers.
#[derive(Clone, Copy, Debug)]
pub struct GrantsHint {
    /// The first of them.
    pub from: u64,
    /// The last of them.
    pub to: u64,
}

/// What logs may lack.
#[derive(Clone, Copy, Debug)]
pub struct Hints {
    /// An `open` line, the begin of a process.
    pub process: Option<OpenHint>,
    /// The number of a task whose `start` may be missing.
    pub begin: Option<u64>,
    /// The first grants that no line has.
    pub grants: Option<GrantsHint>,
}

fn open_json(
    alloc: Global,
    lines: &[LogLine],
    hint: Option<OpenHint>,
) -> Result<Option<Value>, AllocError>
    ensures { IfOk result (λ v. option_map view v ≡ option_map (open_data lines.now) hint) }
{
    let Some(OpenHint { task, life, before }) = hint else {
        return Ok(None);
    };
    let before = place_json(alloc, lines, before)?;
    let hint = json!(in alloc; {"open": {"before": before, "life": life, "task": task}})?;
    Ok(Some(hint))
}

fn begin_json(alloc: Global, task: Option<u64>) -> Result<Option<Value>, AllocError>
    ensures { IfOk result (λ v. option_map view v ≡ option_map begin_data task) }
{
    let Some(task) = task else {
        return Ok(None);
    };
    let hint = json!(in alloc; {"begin": {"task": task}})?;
    Ok(Some(hint))
}

fn grants_json(alloc: Global, hint: Option<GrantsHint>) -> Result<Option<Value>, AllocError>
    ensures { IfOk result (λ v. option_map view v ≡ option_map grants_data hint) }
{
    let Some(GrantsHint { from, to }) = hint else {
        return Ok(None);
    };
    let from = large_json(alloc, from)?;
    let to = large_json(alloc, to)?;
    let hint = json!(in alloc; {"grants": {"from": from, "to": to}})?;
    Ok(Some(hint))
}

// Adds a value at the end of a list, if there is one.
fn push_if(list: &mut Vec<Value>, value: Option<Value>) -> Result<(), AllocError>
    ensures { OnOk result (map view list.new.items ≡ map view list.old.items ++ listed (option_map view value)) }
{
    if let Some(value) = value {
        list.push(value)?;
    }
    Ok(())
}

/// Returns what the logs may lack as values.
pub(crate) fn hint_values(
    alloc: Global,
    lines: &[LogLine],
    hints: &Hints,
) -> Result<Vec<Value>, AllocError>
    ensures { IfOk result (λ list. map view list.items ≡ hint_values lines.now hints.now) }
{
    let mut list = Vec::new(alloc);
    push_if(&mut list, open_json(alloc, lines, hints.process)?)?;
    push_if(&mut list, begin_json(alloc, hints.begin)?)?;
    push_if(&mut list, grants_json(alloc, hints.grants)?)?;
    Ok(list)
}
