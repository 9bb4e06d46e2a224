//! Pairs of a start and an end, and the boundaries of their keys.

ghost use Rattle.std.specs.Prelude.{◌≡◌, ℕ, None, IfOk, OnOk};
ghost use Rattle.slice_ranges.specs.Sets.{pairs_cover, refusal_of, has, IsRanges};
ghost use Rattle.slice_ranges.specs.internals.Turns.{IsTurned};

use crate::error::RangesError;
use crate::key::KEYS;
use std::alloc::{AllocError, Global};

/// Returns why the pairs do not form a set of keys, or `None` if they do.
///
/// The reason is the first [`RangesError`] of the first pair that has one.
pub fn pairs_refusal(pairs: &[(u64, u64)]) -> Option<RangesError>
    ensures { result ≡ refusal_of pairs.now }
{
    let mut end = 0;
    for pair in pairs {
        if pair.0 < end {
            return Some(RangesError::Unsorted);
        }
        if pair.1 <= pair.0 {
            return Some(RangesError::Empty);
        }
        if pair.1 > KEYS {
            return Some(RangesError::PastEnd);
        }
        end = pair.1;
    }
    None
}

/// Returns the boundaries of the keys of pairs in order. The only error is out of memory.
pub fn boundaries_of_pairs(alloc: Global, pairs: &[(u64, u64)]) -> Result<Vec<u64>, AllocError>
    requires { refusal_of pairs.now ≡ None }
    ensures ranges { IfOk result (λ v. IsRanges v.items) }
    ensures keys { IfOk result (λ v. (key : ℕ) → has v.items key ≡ pairs_cover pairs.now key) }
{
    let mut boundaries = Vec::new(alloc);
    let mut inside = false;
    let mut end = 0;
    for pair in pairs {
        turn(&mut boundaries, inside, end, pair.0)?;
        inside = true;
        end = pair.1;
    }
    if inside {
        boundaries.push(end)?;
    }
    Ok(boundaries)
}

// Adds the boundaries between a range that ends at `end`, if there is one, and one from `start`.
fn turn(boundaries: &mut Vec<u64>, inside: bool, end: u64, start: u64) -> Result<(), AllocError>
    ensures { OnOk result (IsTurned inside end start boundaries.old.items boundaries.new.items) }
{
    if !inside {
        boundaries.push(start)?;
    } else if start != end {
        boundaries.push(end)?;
        boundaries.push(start)?;
    }
    Ok(())
}
