//! Fencing tokens: what a task sends to a store with each write, and the check that the store makes.
//!
//! A store keeps for each key the greatest token with which it accepted a write, and refuses lower
//! ones. A slice has at most one owner, so a later owner's token is greater, and no write of an
//! earlier owner is accepted after one of a later owner, even if clocks were not timely.
//!
//! The token of a key is the greatest generation among the held leases that cover the key, with the
//! epoch of the job before it and the life of the task after it. Nothing is kept for a key.
//!
//! A task sees to two rules, so that its own tokens never fall while clocks are timely. It gives up a
//! bridge lease only while it holds a guard lease of the same generation or a later one
//! ([`may_give_up`], [`next_careful`]). It asks for leases only for a life that it has started.
#![tactic(auto)]

mod fence;
mod giving;
mod laws;
mod token;

pub use crate::fence::Fence;
pub use giving::{NoToken, may_give_up, next_careful, token_of};
pub use laws::{care_law, store_law};
pub use token::{Token, byte_order_law};
