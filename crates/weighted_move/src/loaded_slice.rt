//! Slices with a width and a load.

ghost use Rattle.std.specs.Prelude.{◌≡◌, ◌<◌, length};
ghost use Rattle.std.specs.Int.{div_ceil};
ghost use Rattle.weighted_move.specs.Loads.{share_of};

use crate::owners::Owners;

/// A slice: its first key, its number of keys, its load, and the tasks that own it.
#[derive(Drop)]
pub struct LoadedSlice {
    /// The first key.
    pub start: u64,
    /// The number of keys.
    pub width: u64,
    /// The load.
    pub load: u64,
    /// The tasks that own the slice.
    pub owners: Owners,
}

impl LoadedSlice {
    /// Returns the load divided by the number of owners, rounded up.
    #[tactic(auto, unfolding(crate::specs::Loads::share_of))]
    pub fn share(&self) -> u64
        requires { 0 < length self.now.owners }
        ensures { result ≡ share_of self.now }
    {
        self.share_among(self.owners.as_slice().len())
    }

    /// Returns the load divided by a number of owners, rounded up.
    pub fn share_among(&self, owners: usize) -> u64
        requires { 0 < owners }
        ensures { result ≡ div_ceil self.now.load owners }
    {
        self.load.div_ceil(owners as u64)
    }

    /// Returns a copy that equals this slice.
    pub fn copy(&self) -> Self
        ensures { result ≡ self.now }
    {
        LoadedSlice {
            start: self.start,
            width: self.width,
            load: self.load,
            owners: self.owners.copy(),
        }
    }
}
