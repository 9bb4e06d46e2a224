//! The step of plans.

ghost use Rattle.std.specs.Prelude.{◌≡◌};
ghost use Rattle.serde_json.specs.View.{view};
ghost use Rattle.program_io.specs.Reading.{Gives};
ghost use Rattle.service.specs.Steps.{task_of, tasks_at, bounds_of, plan_step};

use assignment::TaskId;
use program_io::{Form, Number, Unread, WrongForm, exactly, list_at, number_at, number_of};
use serde_json::Value;
use std::alloc::Global;
use weighted_move::{PlanBounds, TaskSet};
use world::Step;

/// The number of a task that a job may have.
struct TaskForm;

impl Form for TaskForm {
    type Output = TaskId;

    ghost form = { task_of };

    #[tactic(auto, unfolding(crate::specs::Steps::task_of))]
    fn read(_alloc: Global, value: &Value) -> Result<TaskId, Unread> {
        match TaskId::new(number_of(value)?) {
            Some(task) => Ok(task),
            None => Err(Unread::WrongForm),
        }
    }
}

// Returns the member with this name as a set of tasks in rising order.
#[tactic(auto, unfolding(crate::specs::Steps::tasks_at))]
fn tasks_at(alloc: Global, name: &str, value: &Value) -> Result<TaskSet, Unread>
    ensures { Gives result (tasks_at name.now (view value.now)) }
{
    let tasks = list_at::<TaskForm>(alloc, name, value)?;
    match TaskSet::rising(tasks.as_slice()) {
        Some(tasks) => Ok(tasks),
        None => Err(Unread::WrongForm),
    }
}

// Reads the bounds of the plan.
#[tactic(auto, unfolding(crate::specs::Steps::bounds_of))]
fn bounds_of(step: &Value) -> Result<PlanBounds, WrongForm>
    ensures { result ≡ bounds_of (view step.now) }
{
    let churn = number_at("churn", step)?;
    let cold = number_at("cold", step)?;
    let hot = number_at("hot", step)?;
    let most = number_at("most", step)?;
    match PlanBounds::new(churn, cold, hot, most) {
        Some(bounds) => Ok(bounds),
        None => Err(WrongForm),
    }
}

/// Reads a `plan` from an element of a script.
#[tactic(auto, unfolding(crate::specs::Steps::plan_step))]
pub fn plan_step(alloc: Global, step: &Value) -> Result<Step, Unread>
    ensures { Gives result (plan_step (view step.now)) }
{
    exactly(
        &["do", "tasks", "loads", "churn", "cold", "hot", "most"],
        step,
    )?;
    let tasks = tasks_at(alloc, "tasks", step)?;
    let loads = list_at::<Number>(alloc, "loads", step)?;
    let bounds = bounds_of(step)?;
    Ok(Step::Plan {
        loads,
        tasks,
        bounds,
    })
}
