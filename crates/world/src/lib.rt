//! A key ownership service for scripts: the machines of a job, whose grants, notes and handles a
//! script names by numbers.
#![tactic(auto)]

mod actors;
mod clerks;
mod copies;
mod judge;
mod laws;
mod loads;
mod plans;
mod readings;
mod step;
mod table;
mod tasks;
mod told;
mod values;
mod world;

pub use crate::world::World;
pub use job_calls::{Job, MOST_ASSIGNERS, MOST_CLERKS};
pub use judge::Question;
pub use laws::{calls_law, handle_law, interval_law, owner_law, planned_law, rule_law};
pub use readings::timely;
pub use step::Step;
pub use told::next_numbers_of;
