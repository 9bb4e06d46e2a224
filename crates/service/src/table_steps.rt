//! The steps of the table and its assigners.

ghost use Rattle.std.specs.Prelude.{◌≡◌, ◌++◌};
ghost use Rattle.serde_json.specs.View.{view};
ghost use Rattle.program_io.specs.Reading.{Gives};
ghost use Rattle.service.specs.Steps.{take_step, renew_step, propose_step, commit_step, phase_step, rows_step, grant_step, free_step, drop_term_step, lose_step, read_named, table_kinds, task_kinds, clerk_kinds, load_kinds};

use crate::task_steps::step_of_task;
use program_io::{Unread, WrongForm, exactly, list_at, number_at, number_in};
use serde_json::Value;
use std::alloc::Global;
use wire::{SliceForm, life_at};
use world::{Job, Step};

#[tactic(auto, unfolding(crate::specs::Steps::take_step))]
fn take_step(job: Job, step: &Value) -> Result<Step, WrongForm>
    ensures { result ≡ take_step job (view step.now) }
{
    exactly(&["do", "assigner", "at"], step)?;
    Ok(Step::Take {
        assigner: number_in(1, job.assigners(), "assigner", step)?,
        at: number_at("at", step)?,
    })
}

#[tactic(auto, unfolding(crate::specs::Steps::renew_step))]
fn renew_step(job: Job, step: &Value) -> Result<Step, WrongForm>
    ensures { result ≡ renew_step job (view step.now) }
{
    exactly(&["do", "assigner", "at"], step)?;
    Ok(Step::Renew {
        assigner: number_in(1, job.assigners(), "assigner", step)?,
        at: number_at("at", step)?,
    })
}

#[tactic(auto, unfolding(crate::specs::Steps::propose_step))]
fn propose_step(alloc: Global, job: Job, step: &Value) -> Result<Step, Unread>
    ensures { Gives result (propose_step job (view step.now)) }
{
    exactly(&["do", "assigner", "generation", "slices", "at"], step)?;
    Ok(Step::Propose {
        assigner: number_in(1, job.assigners(), "assigner", step)?,
        generation: number_at("generation", step)?,
        slices: list_at::<SliceForm>(alloc, "slices", step)?,
        at: number_at("at", step)?,
    })
}

#[tactic(auto, unfolding(crate::specs::Steps::commit_step))]
fn commit_step(job: Job, step: &Value) -> Result<Step, WrongForm>
    ensures { result ≡ commit_step job (view step.now) }
{
    exactly(&["do", "assigner", "at"], step)?;
    Ok(Step::Commit {
        assigner: number_in(1, job.assigners(), "assigner", step)?,
        at: number_at("at", step)?,
    })
}

#[tactic(auto, unfolding(crate::specs::Steps::phase_step))]
fn phase_step(step: &Value) -> Result<Step, WrongForm>
    ensures { result ≡ phase_step (view step.now) }
{
    exactly(&["do"], step)?;
    Ok(Step::Phase)
}

#[tactic(auto, unfolding(crate::specs::Steps::rows_step))]
fn rows_step(step: &Value) -> Result<Step, WrongForm>
    ensures { result ≡ rows_step (view step.now) }
{
    exactly(&["do"], step)?;
    Ok(Step::Rows)
}

#[tactic(auto, unfolding(crate::specs::Steps::grant_step))]
fn grant_step(job: Job, step: &Value) -> Result<Step, WrongForm>
    ensures { result ≡ grant_step job (view step.now) }
{
    exactly(&["do", "task", "life", "at"], step)?;
    Ok(Step::Grant {
        task: number_in(1, job.tasks(), "task", step)?,
        life: life_at("life", step)?,
        at: number_at("at", step)?,
    })
}

#[tactic(auto, unfolding(crate::specs::Steps::free_step))]
fn free_step(step: &Value) -> Result<Step, WrongForm>
    ensures { result ≡ free_step (view step.now) }
{
    exactly(&["do", "note", "at"], step)?;
    Ok(Step::Free {
        note: number_at("note", step)?,
        at: number_at("at", step)?,
    })
}

#[tactic(auto, unfolding(crate::specs::Steps::drop_term_step))]
fn drop_term_step(job: Job, step: &Value) -> Result<Step, WrongForm>
    ensures { result ≡ drop_term_step job (view step.now) }
{
    exactly(&["do", "assigner"], step)?;
    Ok(Step::DropTerm {
        assigner: number_in(1, job.assigners(), "assigner", step)?,
    })
}

#[tactic(auto, unfolding(crate::specs::Steps::lose_step))]
fn lose_step(step: &Value) -> Result<Step, WrongForm>
    ensures { result ≡ lose_step (view step.now) }
{
    exactly(&["do"], step)?;
    Ok(Step::Lose)
}

/// Reads the step with this name: of the table, an assigner, a task, a clerk, loads or plans.
pub fn step_of_table(alloc: Global, job: Job, name: &str, step: &Value) -> Result<Step, Unread>
    ensures { Gives result (read_named (table_kinds ++ task_kinds ++ clerk_kinds ++ load_kinds) name.now job (view step.now)) }
{
    match name {
        "take" => Ok(take_step(job, step)?),
        "renew" => Ok(renew_step(job, step)?),
        "propose" => propose_step(alloc, job, step),
        "commit" => Ok(commit_step(job, step)?),
        "phase" => Ok(phase_step(step)?),
        "rows" => Ok(rows_step(step)?),
        "grant" => Ok(grant_step(job, step)?),
        "free" => Ok(free_step(step)?),
        "restart" => Ok(drop_term_step(job, step)?),
        "lose" => Ok(lose_step(step)?),
        _ => step_of_task(alloc, job, name, step),
    }
}
