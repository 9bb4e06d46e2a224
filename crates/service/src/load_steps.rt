//! The steps of loads, and what an assigner does next.

ghost use Rattle.std.specs.Prelude.{◌≡◌};
ghost use Rattle.serde_json.specs.View.{view};
ghost use Rattle.program_io.specs.Reading.{Gives};
ghost use Rattle.service.specs.Steps.{load_step, gather_step, next_step, read_named, load_kinds};

use crate::plan_step::plan_step;
use program_io::{Unread, WrongForm, exactly, flag_at, number_at, number_in};
use replies::key_at;
use serde_json::Value;
use std::alloc::Global;
use world::{Job, Step};

#[tactic(auto, unfolding(crate::specs::Steps::load_step))]
fn load_step(alloc: Global, job: Job, step: &Value) -> Result<Step, Unread>
    ensures { Gives result (load_step job (view step.now)) }
{
    exactly(&["do", "task", "key", "weight"], step)?;
    Ok(Step::Load {
        task: number_in(1, job.tasks(), "task", step)?,
        key: key_at(alloc, "key", step)?,
        weight: number_at("weight", step)?,
    })
}

#[tactic(auto, unfolding(crate::specs::Steps::gather_step))]
fn gather_step(step: &Value) -> Result<Step, WrongForm>
    ensures { result ≡ gather_step (view step.now) }
{
    exactly(&["do"], step)?;
    Ok(Step::Gather)
}

#[tactic(auto, unfolding(crate::specs::Steps::next_step))]
fn next_step(job: Job, step: &Value) -> Result<Step, WrongForm>
    ensures { result ≡ next_step job (view step.now) }
{
    exactly(&["do", "assigner", "at", "wanted"], step)?;
    Ok(Step::Next {
        assigner: number_in(1, job.assigners(), "assigner", step)?,
        at: number_at("at", step)?,
        wanted: flag_at("wanted", step)?,
    })
}

/// Reads the step with this name: of loads or plans, or the question what an assigner does next.
///
/// No name is looked for after these.
pub fn step_of_loads(alloc: Global, job: Job, name: &str, step: &Value) -> Result<Step, Unread>
    ensures { Gives result (read_named load_kinds name.now job (view step.now)) }
{
    match name {
        "load" => load_step(alloc, job, step),
        "gather" => Ok(gather_step(step)?),
        "plan" => plan_step(alloc, step),
        "next" => Ok(next_step(job, step)?),
        _ => Err(Unread::WrongForm),
    }
}
