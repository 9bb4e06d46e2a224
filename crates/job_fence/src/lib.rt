//! The laws of fencing tokens in a job: what a store that checks tokens accepts, whatever the clocks do.
//!
//! A run serves requests, each with the token that its task had for the key. They are of any machines
//! of a job: new processes of tasks, restarts of the table and clusters that go on from a snapshot
//! among them.
#![tactic(auto)]

mod laws;

pub use laws::{cluster_law, examples_law, fencing_law, next_law, owners_law, token_law};
