//! The laws of a job whose tasks read task clocks: it is timely, though no clocks are synchronised.
//!
//! The premise is a bound on the drift: the table's clock gains on each task's local clock no more
//! than it says. So whoever may serve a key owns it.
#![tactic(auto)]

mod laws;

pub use laws::{drift_law, evidence_law, timely_job_law, worked_law};
