//! Assigners: which term of the job lease an assigner holds, and what it does next.
#![tactic(auto)]

mod action;
mod assigner;
mod laws;

pub use crate::assigner::Assigner;
pub use action::{Action, View};
pub use laws::terms_law;
