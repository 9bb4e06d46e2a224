//! The written rule: whether a task may serve a key.
#![tactic(auto)]

mod answer;
mod holding;
mod lease;
mod permission;
mod rule;

pub use answer::{Ground, Verdict};
pub use holding::Holding;
pub use lease::{Kind, Lease};
pub use permission::{live_keys, permitted};
pub use rule::{covering_generation, greatest, verdict, verdict_and_newest};
