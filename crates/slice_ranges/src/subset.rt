//! Whether all keys of a set are in another one.

ghost use Rattle.std.specs.Prelude.{◌≡◌, ◌∷◌, ◌↔◌, MatchOption};
ghost use Rattle.std.specs.Bool.{IsTrue};
ghost use Rattle.slice_ranges.specs.Sets.{IsRanges, IsSubset};
ghost use Rattle.slice_ranges.specs.internals.Pairs.{HasNoPair};

/// Whether all keys inside `keys` are inside `others`, both given as boundaries.
///
/// The function walks the ranges of both once, in order.
pub fn is_subset(keys: &[u64], others: &[u64]) -> bool
    requires keys { IsRanges keys.now }
    requires others { IsRanges others.now }
    ensures { IsTrue result ↔ IsSubset keys.now others.now }
{
    let mut keys_rest = keys;
    let mut others_rest = others;
    while let Some((start, end, next_keys)) = first_range(keys_rest) {
        let Some((low, high, next_others)) = first_range(others_rest) else {
            return false;
        };
        if high <= start {
            others_rest = next_others;
        } else if low <= start && end <= high {
            keys_rest = next_keys;
        } else {
            return false;
        }
    }
    true
}

// The start and the end of the first range, and the boundaries after it.
fn first_range(boundaries: &[u64]) -> Option<(u64, u64, &[u64])>
    ensures { MatchOption result (HasNoPair boundaries.now)
        (λ range. boundaries.now ≡ range.0 ∷ range.1 ∷ range.2.now) }
{
    match boundaries {
        [start, end, rest @ ..] => Some((*start, *end, rest)),
        _ => None,
    }
}
