//! Whether the calls of a log are one run of a job's machines.
#![tactic(auto)]

mod drift;
mod held;
mod judging;
mod late;
mod laws;
mod log_machines;
mod outcome;
mod playing;
mod restoring;
mod start;

pub use drift::{ClockFault, DriftFault, drift_fault};
pub use held::HeldLeases;
pub use judging::{Judged, judge_calls};
pub use late::Late;
pub use laws::{days_law, drift_law};
pub use log_machines::LogMachines;
pub use outcome::Outcome;
pub use playing::{answer, held_by_asked, play, tell};
pub use restoring::restore_fault;
pub use start::Start;
