//! One walk over the stamps of a set and the boundaries of two others.

ghost use Rattle.std.specs.Prelude.{◌≡◌, ℕ, Some, None, [], IfOk};
ghost use Rattle.slice_ranges.specs.Sets.{has, IsRanges};
ghost use Rattle.key_handle.specs.Stamps.{since, stamp_after_change, IsStamps};
ghost use Rattle.key_handle.specs.internals.Sweeping.{IsNextOfThree, IsPastLevel};

use slice_ranges::{boundaries_above, next_boundary};
use std::alloc::{AllocError, Global};

/// Returns the keys of `after` with their stamps; a key that is in `before` keeps the stamp it has.
///
/// All others get `stamp`. The only error is out of memory.
pub fn sweep(
    alloc: Global,
    levels: &[(u64, Option<u64>)],
    before: &[u64],
    after: &[u64],
    stamp: u64,
) -> Result<Vec<(u64, Option<u64>)>, AllocError>
    requires levels { IsStamps levels.now }
    requires before { IsRanges before.now }
    requires after { IsRanges after.now }
    ensures levels { IfOk result (λ v. IsStamps v.items) }
    ensures keys { IfOk result (λ v. (key : ℕ) → since v.items key
        ≡ stamp_after_change (since levels.now key) (has before.now key) (has after.now key) stamp) }
{
    let mut levels_rest = levels;
    let mut before_rest = before;
    let mut after_rest = after;
    let mut old = None;
    let mut in_before = false;
    let mut in_after = false;
    let mut last = None;
    let mut written = Vec::new(alloc);
    while let Some(key) = next_key(levels_rest, before_rest, after_rest) {
        (levels_rest, old) = levels_above(levels_rest, old, key);
        (before_rest, in_before) = boundaries_above(before_rest, in_before, key);
        (after_rest, in_after) = boundaries_above(after_rest, in_after, key);
        let now = restamped(old, in_before, in_after, stamp);
        if now != last {
            written.push((key, now))?;
            last = now;
        }
    }
    Ok(written)
}

// The stamp of a key that had the stamp `old`, if any, and was in the first set and is in the
// second.
fn restamped(old: Option<u64>, before: bool, after: bool, stamp: u64) -> Option<u64>
    ensures { result ≡ stamp_after_change old before after stamp }
{
    match old {
        Some(kept) if before && after => Some(kept),
        _ => after.then_some(stamp),
    }
}

// The lowest of the first keys of three lists.
fn next_key(levels: &[(u64, Option<u64>)], first: &[u64], second: &[u64]) -> Option<u64>
    ensures none { result ≡ None → (levels.now ≡ []) × (first.now ≡ []) × (second.now ≡ []) }
    ensures some { (key : ℕ) → result ≡ Some key → IsNextOfThree key levels.now first.now second.now }
{
    match (levels, next_boundary(first, second)) {
        ([], boundary) => boundary,
        ([level, ..], None) => Some(level.0),
        ([level, ..], Some(boundary)) => Some(level.0.min(boundary)),
    }
}

// The levels above a key, and the stamp from there on.
fn levels_above(
    levels: &[(u64, Option<u64>)],
    stamp: Option<u64>,
    key: u64,
) -> (&[(u64, Option<u64>)], Option<u64>)
    ensures { IsPastLevel key stamp levels.now result.1 result.0.now }
{
    match levels {
        [first, rest @ ..] if first.0 == key => (rest, first.1),
        _ => (levels, stamp),
    }
}
