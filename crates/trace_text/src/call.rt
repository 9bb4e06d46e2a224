//! The lines of calls.

ghost use Rattle.std.specs.Prelude.{◌≡◌, IfOk, option_map};
ghost use Rattle.serde_json.specs.View.{view};
ghost use Rattle.reason_values.specs.Lines.{line_text};
ghost use Rattle.trace_text.specs.Calls.{call_data, call_lines, decided_data, delivered_data};

use call_values::step_json;
use reason_values::{line_of, made_json, reason_json};
use reply_values::{Warnings, answered_json, reply_json, with_member};
use script_trace::{Delivered, StepReason, TraceLine};
use serde_json::Value;
use std::alloc::{AllocError, Global};
use wire::{Numerals, grant_json, handle_json, note_json};
use world::Step;

// Writes what a step delivers by its number.
fn delivered_json(alloc: Global, delivered: &Delivered) -> Result<Value, AllocError>
    ensures { IfOk result (λ v. view v ≡ delivered_data delivered.now) }
{
    match delivered {
        Delivered::Grant(grant) => grant_json(alloc, Numerals::Quoted, grant),
        Delivered::Note(note) => note_json(alloc, Numerals::Quoted, note),
        Delivered::Handle(handle) => handle_json(alloc, Numerals::Quoted, handle),
    }
}

// Writes the same, if it was made.
fn sent_json(alloc: Global, delivered: &Option<Delivered>) -> Result<Option<Value>, AllocError>
    ensures { IfOk result (λ v. option_map view v ≡ option_map delivered_data delivered.now) }
{
    match delivered {
        Some(delivered) => Ok(Some(delivered_json(alloc, delivered)?)),
        None => Ok(None),
    }
}

// Writes what decides a reply, if the step and the reply do not say it all.
fn decided_json(alloc: Global, reason: &Option<StepReason>) -> Result<Option<Value>, AllocError>
    ensures { IfOk result (λ v. option_map view v ≡ decided_data reason.now) }
{
    match reason {
        Some(StepReason::Machines(reason)) => reason_json(alloc, &[], None, reason),
        Some(StepReason::Made(number)) => Ok(Some(made_json(alloc, *number)?)),
        None => Ok(None),
    }
}

// Writes a step with its place, its reply, and what is told of it.
fn line_json(alloc: Global, step: &Step, line: &TraceLine) -> Result<Value, AllocError>
    ensures { IfOk result (λ v. view v ≡ call_data step.now line.now) }
{
    let sent = sent_json(alloc, &line.delivered)?;
    let call = step_json(alloc, step, sent)?;
    let reply = reply_json(alloc, &line.reply)?;
    let reason = decided_json(alloc, &line.reason)?;
    let warnings = Warnings {
        untimely: line.untimely,
        not_owner: line.not_owner,
    };
    let told = answered_json(alloc, call, None, Some(reply), reason, warnings)?;
    with_member(alloc, "call", Value::from(line.step), told)
}

// Writes the line of a step that was played.
fn call_line(alloc: Global, step: &Step, line: &TraceLine) -> Result<Vec<u8>, AllocError>
    ensures { IfOk result (λ text. text.items ≡ line_text (call_data step.now line.now)) }
{
    let value = line_json(alloc, step, line)?;
    line_of(alloc, &value)
}

/// Writes the line of each step.
pub(crate) fn call_lines(
    alloc: Global,
    steps: &[Step],
    lines: &[TraceLine],
) -> Result<Vec<u8>, AllocError>
    ensures { IfOk result (λ text. text.items ≡ call_lines steps.now lines.now) }
{
    let mut text = Vec::new(alloc);
    for (step, line) in steps.iter().zip(lines) {
        let told = call_line(alloc, step, line)?;
        text.extend_from_slice(told.as_slice())?;
    }
    Ok(text)
}
