//! How the slice of a key is found.

ghost use Rattle.std.specs.Prelude.{◌≡◌, ◌==◌, ◌<◌, ℕ, None, length, slice_index_or};
ghost use Rattle.assignment.specs.declared.slice.Slice.{Slice};
ghost use Rattle.assignment.specs.Slices.{refusal_of};
ghost use Rattle.load_ledger.specs.Loads.{is_in};

use assignment::OwnedSlice;
use slice_ranges::SliceKey;

/// Returns the index of the slice that has the key.
pub fn place_of(slices: &[OwnedSlice], key: SliceKey) -> usize
    requires { refusal_of slices.now ≡ None }
    ensures within { result < length slices.now }
    ensures alone { (place : ℕ) (other : Slice) → place < length slices.now
        → is_in slices.now (slice_index_or slices.now place other) key ≡ (place == result) }
{
    slices.partition_point(|slice| slice.start() <= key) - 1
}
