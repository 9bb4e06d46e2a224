//! The steps of a script.

ghost use Rattle.std.specs.Prelude.{◌≡◌};
ghost use Rattle.serde_json.specs.View.{view};
ghost use Rattle.program_io.specs.Reading.{Gives};
ghost use Rattle.service.specs.Steps.{hash_step, assign_step, owners_step, step_of};

use crate::question::question_of;
use crate::table_steps::step_of_table;
use program_io::{Unread, exactly, list_at, number_at, text_at};
use replies::key_at;
use serde_json::Value;
use std::alloc::Global;
use wire::SliceForm;
use world::{Job, Step};

#[tactic(auto, unfolding(crate::specs::Steps::hash_step))]
fn hash_step(alloc: Global, step: &Value) -> Result<Step, Unread>
    ensures { Gives result (hash_step (view step.now)) }
{
    exactly(&["do", "key"], step)?;
    Ok(Step::Hash {
        key: key_at(alloc, "key", step)?,
    })
}

#[tactic(auto, unfolding(crate::specs::Steps::assign_step))]
fn assign_step(alloc: Global, step: &Value) -> Result<Step, Unread>
    ensures { Gives result (assign_step (view step.now)) }
{
    exactly(&["do", "generation", "slices"], step)?;
    Ok(Step::Assign {
        generation: number_at("generation", step)?,
        slices: list_at::<SliceForm>(alloc, "slices", step)?,
    })
}

#[tactic(auto, unfolding(crate::specs::Steps::owners_step))]
fn owners_step(alloc: Global, step: &Value) -> Result<Step, Unread>
    ensures { Gives result (owners_step (view step.now)) }
{
    exactly(&["do", "key"], step)?;
    Ok(Step::Owners {
        key: key_at(alloc, "key", step)?,
    })
}

/// Reads an element of a script of this job as a step.
// The result is large: each caller would clear and copy it.
#[tactic(auto, unfolding(crate::specs::Steps::step_of))]
pub fn step_of(alloc: Global, job: Job, step: &Value) -> Result<Step, Unread>
    ensures { Gives result (step_of job (view step.now)) }
{
    match text_at("do", step)? {
        "hash" => hash_step(alloc, step),
        "assign" => assign_step(alloc, step),
        "owners" => owners_step(alloc, step),
        "judge" => Ok(Step::Judge {
            question: question_of(alloc, step)?,
        }),
        name => step_of_table(alloc, job, name, step),
    }
}
