//! Loads: how much work the keys of each slice caused, and how much work each task did.
#![tactic(auto)]

mod book;
mod error;
mod finding;
mod laws;
mod loads;
mod share;

pub use book::{LoadBook, Ungathered};
pub use error::LoadError;
pub use laws::{loads_law, totals_law};
pub use share::{LoadRecord, LoadShare, MOST_TOTAL, MOST_WEIGHT};
