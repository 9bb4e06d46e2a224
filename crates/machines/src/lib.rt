//! Machines: deterministic state machines that take one call at a time.
//!
//! The step of a machine is a function of its state and a call. It gives the next state and the
//! reply, or the reason why the call is refused. A call that is refused, or for which memory runs
//! out, leaves the machine unchanged. Refusals are lists, in the order of the checks; the first
//! that applies is returned.
#![tactic(auto)]

mod copies;
mod event;
mod listed;
mod machine;

pub use copies::Duplicate;
pub use event::Event;
pub use listed::Listed;
pub use machine::{Machine, Trouble};
