//! An audit of whether the closed histories of locks and the records of callers are one run of a
//! job's machines.
#![tactic(auto)]

mod auditing;
mod finding;
mod laws;
mod points;
mod sameness;

pub use auditing::audit;
pub use finding::{Audit, Why};
pub use laws::{answers_law, points_law, served_law};
