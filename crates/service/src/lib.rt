//! Scripts of steps, from the bytes of a script to the bytes of its replies.
#![tactic(auto)]

mod clerk_steps;
mod fault;
mod laws;
mod load_steps;
mod output;
mod plan_step;
mod program;
mod question;
mod run;
mod script;
mod step;
mod table_steps;
mod task_steps;

pub use fault::ProgramError;
pub use laws::printed_law;
pub use output::{is_timely, output_of, replies_of};
pub use program::slicer_run;
pub use run::run_script;
pub use script::{Script, head_of, lone_step, script_of};
