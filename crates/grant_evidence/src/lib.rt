//! What a grant tells of the clocks of the table and of its task.
#![tactic(auto)]

mod evidence;

pub use evidence::{clock_evidence, sent_at};
