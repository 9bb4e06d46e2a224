//! The steps of clerks.

ghost use Rattle.std.specs.Prelude.{◌≡◌, ◌++◌};
ghost use Rattle.serde_json.specs.View.{view};
ghost use Rattle.program_io.specs.Reading.{Gives};
ghost use Rattle.service.specs.Steps.{learn_step, look_step, forget_step, read_named, clerk_kinds, load_kinds};

use crate::load_steps::step_of_loads;
use program_io::{Unread, WrongForm, exactly, number_at, number_in};
use replies::key_at;
use serde_json::Value;
use std::alloc::Global;
use world::{Job, Step};

#[tactic(auto, unfolding(crate::specs::Steps::learn_step))]
fn learn_step(job: Job, step: &Value) -> Result<Step, WrongForm>
    ensures { result ≡ learn_step job (view step.now) }
{
    exactly(&["do", "clerk", "generation"], step)?;
    Ok(Step::Learn {
        clerk: number_in(1, job.clerks(), "clerk", step)?,
        generation: number_at("generation", step)?,
    })
}

#[tactic(auto, unfolding(crate::specs::Steps::look_step))]
fn look_step(alloc: Global, job: Job, step: &Value) -> Result<Step, Unread>
    ensures { Gives result (look_step job (view step.now)) }
{
    exactly(&["do", "clerk", "key"], step)?;
    Ok(Step::Look {
        clerk: number_in(1, job.clerks(), "clerk", step)?,
        key: key_at(alloc, "key", step)?,
    })
}

#[tactic(auto, unfolding(crate::specs::Steps::forget_step))]
fn forget_step(job: Job, step: &Value) -> Result<Step, WrongForm>
    ensures { result ≡ forget_step job (view step.now) }
{
    exactly(&["do", "clerk"], step)?;
    Ok(Step::Forget {
        clerk: number_in(1, job.clerks(), "clerk", step)?,
    })
}

/// Reads the step with this name: of a clerk, loads or plans.
pub fn step_of_clerk(alloc: Global, job: Job, name: &str, step: &Value) -> Result<Step, Unread>
    ensures { Gives result (read_named (clerk_kinds ++ load_kinds) name.now job (view step.now)) }
{
    match name {
        "learn" => Ok(learn_step(job, step)?),
        "look" => look_step(alloc, job, step),
        "forget" => Ok(forget_step(job, step)?),
        _ => step_of_loads(alloc, job, name, step),
    }
}
