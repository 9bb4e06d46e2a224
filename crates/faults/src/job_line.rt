//! The job line, which is the first line of a log.

ghost use Rattle.std.specs.Prelude.{◌≡◌, [], ◌∷◌, IfOk, IfErr};
ghost use Rattle.faults.specs.declared.script_error.ScriptError.TheVariants as fault;
ghost use Rattle.faults.specs.Faults.{refusals};
ghost use Rattle.faults.specs.JobLines.{SaysJob, IsNoJob};

use crate::job_faults::{job_line_mend, job_mend};
use crate::json::{json_faults, repeated_mend};
use crate::script_error::ScriptError;
use crate::script_fault::{AnswerError, ScriptFault};
use job_calls::{Job, MOST_LOGGED_CLERKS};
use program_io::{Fault, JsonError, strict_value_of};
use replies::{job_member, job_of};
use std::alloc::{AllocError, Global};

/// The words for a line that is too long.
pub const LONG_WORDS: &str = "the line has more than 1048576 bytes";

// Returns the one fault of a first line that is refused.
fn one_fault(
    alloc: Global,
    refusal: ScriptError,
    mend: String,
) -> Result<Vec<ScriptFault>, AllocError>
    ensures { IfOk result (λ faults. refusals faults ≡ refusal ∷ []) }
{
    let mut faults = Vec::new(alloc);
    faults.push(ScriptFault { refusal, mend })?;
    Ok(faults)
}

/// Parses a first line, which is the job.
pub fn job_said(alloc: Global, line: &[u8]) -> Result<Job, AnswerError>
    ensures ok { IfOk result (SaysJob line.now) }
    ensures err { IfErr result (IsNoJob line.now) }
{
    let value = match strict_value_of(alloc, line) {
        Ok(value) => value,
        Err(JsonError::Memory) => return Err(Fault::Memory),
        Err(JsonError::NotJson(error)) => {
            return Err(Fault::Input(json_faults(alloc, &error)?));
        }
        Err(JsonError::Repeated(name)) => {
            let mend = repeated_mend(alloc, name.as_str())?;
            let faults = one_fault(alloc, ScriptError::BadJob, mend)?;
            return Err(Fault::Input(faults));
        }
    };
    let Ok(member) = job_member(&value) else {
        let mend = job_line_mend(alloc, &value)?;
        let faults = one_fault(alloc, ScriptError::NoJob, mend)?;
        return Err(Fault::Input(faults));
    };
    match job_of(member) {
        Ok(job) => Ok(job),
        Err(_) => {
            let mend = job_mend(alloc, member, MOST_LOGGED_CLERKS)?;
            let faults = one_fault(alloc, ScriptError::BadJob, mend)?;
            Err(Fault::Input(faults))
        }
    }
}
