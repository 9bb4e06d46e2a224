//! A record of a run of a job's machines, from which a snapshot of them is made.
//!
//! The machines keep where their actors stand, and not the calls that led there. The record keeps
//! those, and what the run made.
#![tactic(auto)]

mod actors;
mod made;
mod reading;
mod run_record;

pub use crate::run_record::RunRecord;
