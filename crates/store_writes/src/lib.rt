//! Which writes to a store the law of fencing tokens rules out.
//!
//! Services log the writes that they offer to a store, each with its token and, where the store took
//! it, the revision that the store gave it. Two writes show that something is wrong: one with a token
//! that its task was not given for the key, and one that the store took after one of the same key with
//! a greater token.
#![tactic(auto)]

mod given;
mod late;
mod ruled_out;
mod shelves;
mod taken;
mod write;

pub use ruled_out::{RuledOut, WriteFault, first_ruled_out};
pub use write::{GivenToken, Write, WriteEvent};
