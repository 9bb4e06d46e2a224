//! The first line of a task.

ghost use Rattle.std.specs.Prelude.{◌≡◌, IfOk, Ok, codes};
ghost use Rattle.serde_json.specs.View.{view};
ghost use Rattle.wire.specs.declared.numerals.Numerals.TheVariants as numeral;
ghost use Rattle.wire.specs.Refusals.{or_wrong};
ghost use Rattle.snapshot_text.specs.Heads.{task_head_data, task_head_of, task_head_in};

use job_calls::TaskSnapshot;
use program_io::{WrongForm, exactly, number_at};
use serde_json::{Value, json};
use std::alloc::{AllocError, Global};
use wire::{DecodeError, Numerals, Wire, life_at};

/// What stands before the calls of a task: its life, and how many calls follow.
#[derive(Clone, Copy, Debug, PartialEq, Eq)]
pub struct TaskHead {
    /// The greatest life of earlier processes of the task; 0 if there was none.
    pub life: u32,
    /// How many calls follow.
    pub calls: u64,
}

impl TaskHead {
    /// Returns the head of a task.
    pub fn new(task: &TaskSnapshot) -> Self
        ensures { result ≡ task_head_in task.now }
    {
        TaskHead {
            life: task.life,
            calls: task.calls.as_slice().len() as u64,
        }
    }
}

fn task_head_json(alloc: Global, head: TaskHead) -> Result<Value, AllocError>
    ensures { IfOk result (λ v. view v ≡ task_head_data numeral.Quoted head) }
{
    json!(in alloc; {"calls": head.calls, "life": head.life})
}

#[tactic(auto, unfolding(crate::specs::Heads::task_head_of))]
fn task_head_of(value: &Value) -> Result<TaskHead, WrongForm>
    ensures { result ≡ task_head_of (view value.now) }
{
    exactly(&["calls", "life"], value)?;
    Ok(TaskHead {
        life: life_at("life", value)?,
        calls: number_at("calls", value)?,
    })
}

// States that reading what was written of a head gives the same head.
#[tactic(auto, using(crate::proofs::Heads::task_head_read))]
fn task_head_law(head: &TaskHead)
    ensures { task_head_of (task_head_data numeral.Quoted head.now) ≡ Ok head.now }
{
    let _life = head.life;
}

impl Wire for TaskHead {
    ghost name = { codes "task" };

    ghost data_of = { task_head_data };

    ghost form = { λ _ d. or_wrong (task_head_of d) };

    fn name() -> &'static str {
        "task"
    }

    #[tactic(auto, using(crate::proofs::Heads::task_head_written))]
    fn to_json(&self, alloc: Global) -> Result<Value, AllocError> {
        task_head_law(self);
        task_head_json(alloc, *self)
    }

    fn of_json(
        _alloc: Global,
        _numerals: Numerals,
        value: &Value,
    ) -> Result<TaskHead, DecodeError> {
        Ok(task_head_of(value)?)
    }
}
