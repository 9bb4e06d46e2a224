//! What is wrong with a script, a job line or a line of a log, and how to fix it, in words.
#![tactic(auto)]

mod found;
mod job_faults;
mod job_line;
mod json;
mod members;
mod quoted;
mod script_error;
mod script_fault;
mod wanted;

pub use found::Found;
pub use job_faults::{job_line_mend, job_mend};
pub use job_line::{LONG_WORDS, job_said};
pub use json::{json_faults, line_mend, repeated_mend};
pub use members::{Members, missing_member, unknown_member};
pub use quoted::{Escaped, MOST_TOLD, Quoted};
pub use script_error::ScriptError;
pub use script_fault::{AnswerError, ScriptFault};
pub use wanted::{Wanted, WrongMember};
