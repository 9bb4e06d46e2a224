//! Handles on keys, and sets of keys with stamps by which handles are checked.
#![tactic(auto)]

mod handle;
mod stamped;
mod sweep;

pub use handle::KeyHandle;
pub use stamped::Stamped;
