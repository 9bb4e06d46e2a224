//! Slice keys, and sets of slice keys.
#![tactic(auto)]

mod error;
mod key;
mod levels;
mod pairs;
mod ranges;
mod subset;
mod sweep;

pub use error::RangesError;
pub use key::{KEYS, SliceKey, slice_key};
pub use pairs::pairs_refusal;
pub use ranges::{Ranges, keys_where_law};
pub use sweep::{boundaries_above, next_boundary};
