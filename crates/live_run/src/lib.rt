//! Live runs: the assigner, the clerk, the tasks and their workers of a job as threads.
//!
//! [`run_live`] starts the threads of a [`LiveJob`] on shared objects, and returns a [`LiveReport`]
//! of what they did.
#![tactic(auto)]

mod clerk_caller;
mod clerk_loop;
mod commit_loop;
mod ended_run;
mod job;
mod live_task;
mod notes;
mod objects;
mod opened_run;
mod passes;
mod report;
mod run;
mod table_caller;
mod task_caller;
mod task_loop;
mod worker;

pub use job::{LiveJob, MOST_ASKS, MOST_ROUNDS, MOST_TASKS, MOST_WORKERS};
pub use report::LiveReport;
pub use run::run_live;
