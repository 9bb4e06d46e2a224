//! Whether the writes in logs obey the law of fencing tokens.
//!
//! The machines of the job play the calls of the log once more, and give each request that they serve
//! its token. Writes are judged by these tokens, in the order of the tickets.
#![tactic(auto)]

mod fault;
mod giving;
mod turns;

pub use fault::{FenceFault, FenceReason, fence_fault};
pub use giving::{Asked, given_in};
pub use turns::{Turn, given_turns, in_turn};
