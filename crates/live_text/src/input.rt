//! The job of a live run, read from a JSON object.

ghost use Rattle.std.specs.Prelude.{◌≡◌, IfOk, IfErr};
ghost use Rattle.serde_json.specs.View.{view};
ghost use Rattle.live_text.specs.Jobs.{live_job_of};
ghost use Rattle.live_text.specs.Inputs.{SaysJob, IsRefused};
ghost use Rattle.program_io.specs.Status.{IsUnread};

use crate::fault::InputError;
use live_run::{LiveJob, MOST_ASKS, MOST_ROUNDS, MOST_TASKS, MOST_WORKERS};
use program_io::{Fault, Unread, WrongForm, exactly, number_in, value_of};
use serde_json::Value;
use std::alloc::Global;

// Reads a job from the value.
#[tactic(auto, unfolding(crate::specs::Jobs::live_job_of))]
fn live_job_of(value: &Value) -> Result<LiveJob, WrongForm>
    ensures { result ≡ live_job_of (view value.now) }
{
    exactly(&["tasks", "workers", "rounds", "asks"], value)?;
    let tasks = number_in(1, MOST_TASKS, "tasks", value)?;
    let workers = number_in(1, u64::from(MOST_WORKERS), "workers", value)? as u32;
    let rounds = number_in(1, MOST_ROUNDS, "rounds", value)?;
    let asks = number_in(1, u64::from(MOST_ASKS), "asks", value)? as u32;
    match LiveJob::new(tasks, workers, rounds, asks) {
        Some(job) => Ok(job),
        None => Err(WrongForm),
    }
}

/// Reads the job of a live run from bytes.
pub fn parsed(alloc: Global, bytes: &[u8]) -> Result<LiveJob, Fault<InputError>>
    ensures ok { IfOk result (SaysJob bytes.now) }
    ensures err { IfErr result (IsUnread (λ refusal. IsRefused bytes.now)) }
{
    let value = match value_of(alloc, bytes) {
        Ok(value) => value,
        Err(Unread::WrongForm) => return Err(Fault::Input(InputError)),
        Err(Unread::Memory) => return Err(Fault::Memory),
    };
    match live_job_of(&value) {
        Ok(job) => Ok(job),
        Err(_) => Err(Fault::Input(InputError)),
    }
}
