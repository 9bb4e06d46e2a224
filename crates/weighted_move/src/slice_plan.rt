//! Plans.

use crate::moves::Move;
use assignment::Slice;
use machines::{Duplicate, Listed};
use std::alloc::AllocError;

/// A plan: new slices for a job, and the moves that lead to their owners.
#[derive(Debug, Drop)]
pub struct Plan {
    /// The slices, which form an assignment of any generation.
    pub slices: Listed<Slice>,
    /// The moves that the plan made, in order.
    pub moves: Listed<Move>,
}

impl Duplicate for Plan {
    fn copy(&self) -> Result<Plan, AllocError> {
        Ok(Plan {
            slices: self.slices.copy()?,
            moves: self.moves.copy()?,
        })
    }
}
