//! What the machines of a job stand at, as text: a line for each part.
//!
//! Each line is a message of `wire`, of the job. First comes the head, with the numbers of the parts;
//! then the kept values and the rows of the table; then each task, with the calls of its process; then
//! the clerks; then what is remembered: grants, assignments, notes and handles.
#![tactic(auto)]

mod error;
mod head;
mod lines;
mod reading;
mod task_head;
mod writing;

pub use error::SnapshotError;
pub use lines::first_line;
pub use reading::snapshot_of;
pub use writing::snapshot_text;
