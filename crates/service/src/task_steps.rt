//! The steps of tasks.

ghost use Rattle.std.specs.Prelude.{◌≡◌, ◌++◌};
ghost use Rattle.serde_json.specs.View.{view};
ghost use Rattle.program_io.specs.Reading.{Gives};
ghost use Rattle.service.specs.Steps.{start_step, hear_step, release_step, serve_step, hold_step, check_step, read_named, task_kinds, clerk_kinds, load_kinds};

use crate::clerk_steps::step_of_clerk;
use program_io::{Unread, WrongForm, exactly, number_at, number_in};
use replies::key_at;
use serde_json::Value;
use std::alloc::Global;
use wire::{kind_at, life_at};
use world::{Job, Step};

#[tactic(auto, unfolding(crate::specs::Steps::start_step))]
fn start_step(job: Job, step: &Value) -> Result<Step, WrongForm>
    ensures { result ≡ start_step job (view step.now) }
{
    exactly(&["do", "task", "life", "at"], step)?;
    Ok(Step::Start {
        task: number_in(1, job.tasks(), "task", step)?,
        life: life_at("life", step)?,
        at: number_at("at", step)?,
    })
}

#[tactic(auto, unfolding(crate::specs::Steps::hear_step))]
fn hear_step(job: Job, step: &Value) -> Result<Step, WrongForm>
    ensures { result ≡ hear_step job (view step.now) }
{
    exactly(&["do", "task", "number", "at"], step)?;
    Ok(Step::Hear {
        task: number_in(1, job.tasks(), "task", step)?,
        number: number_at("number", step)?,
        at: number_at("at", step)?,
    })
}

#[tactic(auto, unfolding(crate::specs::Steps::release_step))]
fn release_step(job: Job, step: &Value) -> Result<Step, WrongForm>
    ensures { result ≡ release_step job (view step.now) }
{
    exactly(&["do", "task", "kind", "at"], step)?;
    Ok(Step::Release {
        task: number_in(1, job.tasks(), "task", step)?,
        kind: kind_at("kind", step)?,
        at: number_at("at", step)?,
    })
}

#[tactic(auto, unfolding(crate::specs::Steps::serve_step))]
fn serve_step(alloc: Global, job: Job, step: &Value) -> Result<Step, Unread>
    ensures { Gives result (serve_step job (view step.now)) }
{
    exactly(&["do", "task", "key", "at"], step)?;
    Ok(Step::Serve {
        task: number_in(1, job.tasks(), "task", step)?,
        key: key_at(alloc, "key", step)?,
        at: number_at("at", step)?,
    })
}

#[tactic(auto, unfolding(crate::specs::Steps::hold_step))]
fn hold_step(alloc: Global, job: Job, step: &Value) -> Result<Step, Unread>
    ensures { Gives result (hold_step job (view step.now)) }
{
    exactly(&["do", "task", "key", "at"], step)?;
    Ok(Step::Hold {
        task: number_in(1, job.tasks(), "task", step)?,
        key: key_at(alloc, "key", step)?,
        at: number_at("at", step)?,
    })
}

// If it is not inlined into the loop of a script, each step clears room for its result.
#[inline(always)]
#[tactic(auto, unfolding(crate::specs::Steps::check_step))]
fn check_step(job: Job, step: &Value) -> Result<Step, WrongForm>
    ensures { result ≡ check_step job (view step.now) }
{
    exactly(&["do", "task", "handle", "at"], step)?;
    Ok(Step::Check {
        task: number_in(1, job.tasks(), "task", step)?,
        handle: number_at("handle", step)?,
        at: number_at("at", step)?,
    })
}

/// Reads the step with this name: of a task, a clerk, loads or plans.
pub fn step_of_task(alloc: Global, job: Job, name: &str, step: &Value) -> Result<Step, Unread>
    ensures { Gives result (read_named (task_kinds ++ clerk_kinds ++ load_kinds) name.now job (view step.now)) }
{
    match name {
        "start" => Ok(start_step(job, step)?),
        "hear" => Ok(hear_step(job, step)?),
        "release" => Ok(release_step(job, step)?),
        "serve" => serve_step(alloc, job, step),
        "hold" => hold_step(alloc, job, step),
        "check" => Ok(check_step(job, step)?),
        _ => step_of_clerk(alloc, job, name, step),
    }
}
