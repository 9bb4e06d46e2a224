//! Sets of keys with stamps.

ghost use Rattle.std.specs.Prelude.{◌≡◌, ℕ, [], None, IfOk};
ghost use Rattle.slice_ranges.specs.Sets.{has};
ghost use Rattle.key_handle.specs.Stamps.{since, stamp_after_change};

use crate::sweep::sweep;
use slice_ranges::{Ranges, SliceKey};
use std::alloc::{AllocError, Global};
use std::marker::Model;

/// A set of slice keys in which each key has a stamp.
///
/// A slicelet stamps a key with the number of the accepted call since which the key has been
/// permitted without a break. Contracts see the keys at which the stamp changes, in rising order,
/// each with the stamp from this key on.
#[derive(Debug, Drop)]
pub struct Stamped {
    levels: Vec<(u64, Option<u64>)>,
}

impl Model for Stamped {
    ghost use Rattle.key_handle.specs.Stamps.{Stamps, IsStamps};

    ghost Value = { Stamps };

    ghost view = { λ s. s.levels.items };

    ghost invariant = { λ s. IsStamps s.levels.items };
}

impl Stamped {
    /// Creates the empty set.
    pub fn empty(alloc: Global) -> Self
        ensures empty { result ≡ [] }
        ensures keys { (key : ℕ) → since result key ≡ None }
    {
        Stamped {
            levels: Vec::new(alloc),
        }
    }

    /// Returns the stamp of a key, or `None` if the key is not in the set.
    pub fn since(&self, key: SliceKey) -> Option<u64>
        ensures { result ≡ since self.now key }
    {
        let place = self.levels.partition_point(|level| level.0 <= key.value());
        if place == 0 {
            None
        } else {
            self.levels[place - 1].1
        }
    }

    /// Returns the set of the keys of `after`, each with the stamp that it keeps, or with `stamp`.
    ///
    /// A key keeps its stamp if it has one and is in `before`. The only error is out of memory.
    pub fn restamp(&self, before: &Ranges, after: &Ranges, stamp: u64) -> Result<Self, AllocError>
        ensures { IfOk result (λ s. (key : ℕ) → since s key
            ≡ stamp_after_change (since self.now key) (has before.now key) (has after.now key) stamp) }
    {
        let alloc = *self.levels.allocator();
        let levels = sweep(
            alloc,
            &self.levels,
            before.boundaries(),
            after.boundaries(),
            stamp,
        )?;
        Ok(Stamped { levels })
    }

    /// Returns a copy that equals this set. The only error is out of memory.
    pub fn copy(&self) -> Result<Self, AllocError>
        ensures { IfOk result (λ s. s ≡ self.now) }
    {
        Ok(Stamped {
            levels: self.levels.clone()?,
        })
    }
}
