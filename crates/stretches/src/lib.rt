//! Stretches of readings in which a task may serve a key, each under one lease, and when handles
//! break.
#![tactic(auto)]

mod breaks;
mod job_handles;
mod job_stretches;
mod key_stretches;
mod stretch;

pub use breaks::{GivenHandle, TaskHandles};
pub use job_handles::JobHandles;
pub use job_stretches::JobStretches;
pub use key_stretches::KeyStretches;
pub use stretch::{ServingLease, Stretch};
