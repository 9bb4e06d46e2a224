//! Clerks: what clients know of who owns a key.
#![tactic(auto)]

mod call;
mod clerk;
mod error;
mod laws;
mod machine;

pub use crate::clerk::{Clerk, Found};
pub use call::{ClerkCall, ClerkReply};
pub use error::{ClerkError, Unknown};
pub use laws::learnt_law;
pub use machine::ClerkEvent;
