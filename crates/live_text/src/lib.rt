//! Live runs, from the bytes of a job to the lines of its report.
#![tactic(auto)]

mod fault;
mod input;
mod lines;
mod program;
mod run;

pub use fault::{InputError, LiveProgramError};
pub use program::slicer_live;
pub use run::run_live_text;
