//! Levels, and the boundaries of the keys at which they are true.

ghost use Rattle.std.specs.Prelude.{◌≡◌, ℕ, ◌<◌, false, IfOk};
ghost use Rattle.slice_ranges.specs.Sets.{has, IsRanges};
ghost use Rattle.slice_ranges.specs.Levels.{value_after, LevelsRise};

use crate::key::KEYS;
use std::alloc::{AllocError, Global};

/// Returns the keys at which the value of the levels changes. The only error is out of memory.
pub fn boundaries_of_levels(alloc: Global, levels: &[(u64, bool)]) -> Result<Vec<u64>, AllocError>
    requires { LevelsRise 0 levels.now KEYS }
    ensures ranges { IfOk result (λ v. IsRanges v.items) }
    ensures keys { IfOk result
        (λ v. (key : ℕ) → key < KEYS → has v.items key ≡ value_after false levels.now key) }
{
    let mut boundaries = Vec::new(alloc);
    let mut inside = false;
    for level in levels {
        if level.1 != inside {
            boundaries.push(level.0)?;
            inside = level.1;
        }
    }
    if inside {
        boundaries.push(KEYS)?;
    }
    Ok(boundaries)
}
