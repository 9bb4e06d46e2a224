//! One walk over the boundaries of two sets.

ghost use Rattle.std.specs.Prelude.{◌≡◌, ℕ, Some, None, [], IfOk};
ghost use Rattle.slice_ranges.specs.Sets.{has, IsRanges};
ghost use Rattle.slice_ranges.specs.Passing.{IsNext, IsPast};
ghost use Rattle.slice_ranges.specs.internals.Sweeps.{apply};

use std::alloc::{AllocError, Global};

/// Which keys of two sets to take.
#[derive(Clone, Copy)]
pub enum Operation {
    /// The keys in both sets.
    Both,
    /// The keys in at least one of the sets.
    Either,
    /// The keys in the first set only.
    Without,
}

impl Operation {
    fn apply(self, first: bool, second: bool) -> bool
        ensures { result ≡ apply self first second }
    {
        match self {
            Operation::Both => first && second,
            Operation::Either => first || second,
            Operation::Without => first && !second,
        }
    }
}

/// Returns the boundaries of the keys that the operation takes. The only error is out of memory.
pub fn sweep(
    alloc: Global,
    first: &[u64],
    second: &[u64],
    operation: Operation,
) -> Result<Vec<u64>, AllocError>
    requires first { IsRanges first.now }
    requires second { IsRanges second.now }
    ensures ranges { IfOk result (λ v. IsRanges v.items) }
    ensures keys { IfOk result
        (λ v. (key : ℕ) → has v.items key ≡ apply operation (has first.now key) (has second.now key)) }
{
    let mut first_rest = first;
    let mut second_rest = second;
    let mut in_first = false;
    let mut in_second = false;
    let mut inside = false;
    let mut boundaries = Vec::new(alloc);
    while let Some(key) = next_boundary(first_rest, second_rest) {
        (first_rest, in_first) = boundaries_above(first_rest, in_first, key);
        (second_rest, in_second) = boundaries_above(second_rest, in_second, key);
        let now = operation.apply(in_first, in_second);
        if now != inside {
            boundaries.push(key)?;
            inside = now;
        }
    }
    Ok(boundaries)
}

/// Returns the lower of the first boundaries of two lists, or `None` if both are empty.
pub fn next_boundary(first: &[u64], second: &[u64]) -> Option<u64>
    ensures none { result ≡ None → (first.now ≡ []) × (second.now ≡ []) }
    ensures some { (key : ℕ) → result ≡ Some key → IsNext key first.now second.now }
{
    match (first, second) {
        ([], []) => None,
        ([boundary, ..], []) | ([], [boundary, ..]) => Some(*boundary),
        ([one, ..], [other, ..]) => Some((*one).min(*other)),
    }
}

/// Returns the boundaries above `key`, and whether the set has `key`.
///
/// No boundary in `boundaries` may be below `key`. `inside` says whether the set has the keys just
/// below the first boundary.
pub fn boundaries_above(boundaries: &[u64], inside: bool, key: u64) -> (&[u64], bool)
    ensures { IsPast key inside boundaries.now result.1 result.0.now }
{
    match boundaries {
        [first, rest @ ..] if *first == key => (rest, !inside),
        _ => (boundaries, inside),
    }
}
