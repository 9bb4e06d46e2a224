//! Slicelets: whether a task may serve a key, by the leases that it heard of, and whether the task
//! has held the key without a break since it took a handle.
#![tactic(auto)]

mod heard;
mod laws;
mod life_stamps;
mod machine;
mod next_action;
mod slicelet;

pub use heard::HeldLease;
pub use laws::{
    agreement_law, between_law, covering_lease_law, heard_law, held_law, lives_law, processes_law,
    released_law, state_law,
};
pub use machine::SliceletEvent;
pub use next_action::TaskAction;
pub use slicelet::{CALLS, Slicelet};
