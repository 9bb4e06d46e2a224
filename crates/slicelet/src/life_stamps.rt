//! The stamps of a life, which may have none.

ghost use Rattle.std.specs.Prelude.{◌≡◌, ◌<◌, ℕ, Some, IfOk};
ghost use Rattle.slice_ranges.specs.declared.key.TheConstants.{KEYS};
ghost use Rattle.slice_ranges.specs.Sets.{has};
ghost use Rattle.key_handle.specs.Handles.{is_still};
ghost use Rattle.key_handle.specs.Stamps.{since, stamp_after_change};
ghost use Rattle.slicelet.specs.internals.State.{stamps_in};

use key_handle::{KeyHandle, Stamped};
use slice_ranges::{Ranges, SliceKey};
use std::alloc::{AllocError, Global};

/// Returns the stamps of the keys of `after`; a key that keeps no stamp gets `stamp`.
///
/// The only error is out of memory.
pub fn restamp(
    alloc: Global,
    stamps: &Option<Stamped>,
    before: &Ranges,
    after: &Ranges,
    stamp: u64,
) -> Result<Stamped, AllocError>
    ensures { IfOk result (λ s. (key : ℕ) → since s key
        ≡ stamp_after_change (since (stamps_in stamps.now) key) (has before.now key) (has after.now key) stamp) }
{
    match stamps {
        Some(stamps) => stamps.restamp(before, after, stamp),
        None => Stamped::empty(alloc).restamp(before, after, stamp),
    }
}

/// Whether a handle is of this life and its key has a stamp that is not above its position.
pub fn still(handle: &KeyHandle, life: u32, stamps: &Option<Stamped>) -> bool
    ensures { result ≡ is_still handle.now life (stamps_in stamps.now) }
{
    match stamps {
        Some(stamps) => handle.still(life, stamps),
        None => false,
    }
}

/// Replaces the stamps by new ones.
pub fn put_stamps(stamps: &mut Option<Stamped>, new: Stamped)
    ensures { stamps.new ≡ Some new }
{
    *stamps = Some(new);
}

/// Returns a copy that equals these stamps. The only error is out of memory.
pub fn copy_of(stamps: &Option<Stamped>) -> Result<Option<Stamped>, AllocError>
    ensures { IfOk result (λ copied. copied ≡ stamps.now) }
{
    match stamps {
        Some(stamps) => Ok(Some(stamps.copy()?)),
        None => Ok(None),
    }
}

/// States that a slice key is below [`KEYS`](slice_ranges::KEYS), the bound of keys with stamps.
pub fn key_law(key: SliceKey)
    ensures { key < KEYS }
{
    let _ = key.value();
}
