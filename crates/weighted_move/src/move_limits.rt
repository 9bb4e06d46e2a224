//! The limits of the next move.

use crate::redundancy::Redundancy;

/// How many tasks may own a slice, and how many keys may still move.
#[derive(Clone, Copy, Debug)]
pub struct MoveLimits {
    /// How many tasks may own a slice.
    pub redundancy: Redundancy,
    /// How many keys may still move.
    pub left: u64,
}
