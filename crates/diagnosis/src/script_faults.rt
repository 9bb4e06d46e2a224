//! The faults of a script.

ghost use Rattle.std.specs.Prelude.{◌≡◌, Err, IfOk, IsOk, MatchOption, map};
ghost use Rattle.serde_json.specs.View.{view};
ghost use Rattle.program_io.specs.Members.{wrong};
ghost use Rattle.service.specs.Steps.{step_of};
ghost use Rattle.diagnosis.specs.Faults.{bad_steps_in, refusals_of};
ghost use Rattle.faults.specs.Faults.{refusals};

use crate::step_faults::step_mend;
use faults::{Found, ScriptError, ScriptFault, job_line_mend, job_mend};
use program_io::Unread;
use replies::{job_member, script_job_of};
use serde_json::Value;
use service::head_of;
use std::alloc::{AllocError, Global};
use world::{Job, MOST_CLERKS};

/// How many faults of one script are reported at most.
pub const MOST_FAULTS: usize = 20;

// Returns how to fix an element, or `None` if it is a step of the job.
fn mend_of(alloc: Global, job: Job, element: &Value) -> Result<Option<String>, AllocError>
    ensures { IfOk result (λ mend. MatchOption mend (IsOk (step_of job (view element.now)))
        (λ _. step_of job (view element.now) ≡ Err wrong)) }
{
    match service::lone_step(alloc, job, element) {
        Ok(_step) => Ok(None),
        Err(Unread::WrongForm) => Ok(Some(step_mend(alloc, job, element)?)),
        Err(Unread::Memory) => Err(AllocError),
    }
}

// Returns the first elements after the job line that are not steps, each with its fix.
fn bad_steps_of(alloc: Global, job: Job, elements: &[Value]) -> Result<Vec<ScriptFault>, AllocError>
    ensures { IfOk result (λ faults. refusals faults ≡ bad_steps_in job (map view elements.now)) }
{
    let mut faults = Vec::new(alloc);
    for (i, element) in elements.iter().enumerate() {
        if faults.len() >= MOST_FAULTS {
            return Ok(faults);
        }
        let Some(mend) = mend_of(alloc, job, element)? else {
            continue;
        };
        faults.push(ScriptFault {
            refusal: ScriptError::BadStep(i + 1),
            mend,
        })?;
    }
    Ok(faults)
}

// Returns how to fix a value whose job line or number of steps is refused.
fn head_mend(alloc: Global, value: &Value) -> Result<String, AllocError> {
    let Some(elements) = value.as_array() else {
        return format!(in alloc;
            "found {}; a script must be an array of a job line and steps",
            Found(value)
        );
    };
    let [line, steps @ ..] = elements.as_slice() else {
        return String::from_str(
            alloc,
            "the array is empty; its first element must be the job line",
        );
    };
    match job_member(line) {
        Err(_) => job_line_mend(alloc, line),
        Ok(job) => match script_job_of(job) {
            Err(_) => job_mend(alloc, job, MOST_CLERKS),
            Ok(_job) => format!(in alloc; "{} steps; a script may have at most 4096", steps.len()),
        },
    }
}

/// Returns the faults of a script, lowest element first, and none for a valid script.
///
/// If the job line or the number of steps is refused, that is the only fault. Otherwise the faults
/// are the first [`MOST_FAULTS`] elements that are not steps.
#[tactic(auto, unfolding(crate::specs::Faults::refusals_of))]
pub fn faults_of(alloc: Global, value: &Value) -> Result<Vec<ScriptFault>, AllocError>
    ensures { IfOk result (λ faults. refusals faults ≡ refusals_of (view value.now)) }
{
    match head_of(value) {
        Ok((job, elements)) => bad_steps_of(alloc, job, elements),
        Err(refusal) => {
            let mend = head_mend(alloc, value)?;
            let mut faults = Vec::new(alloc);
            faults.push(ScriptFault { refusal, mend })?;
            Ok(faults)
        }
    }
}
