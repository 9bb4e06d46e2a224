//! The faults of a script, each with how to fix it, and how faults are reported.
#![tactic(auto)]

mod laws;
mod saying;
mod script_faults;
mod step_faults;
mod steps;

pub use laws::first_fault_law;
pub use saying::{say_about, say_fault, say_memory, say_write};
pub use script_faults::{MOST_FAULTS, faults_of};
