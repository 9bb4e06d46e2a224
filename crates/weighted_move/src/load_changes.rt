//! By how much the moves of a slice change the loads of tasks.

ghost use Rattle.std.specs.Prelude.{◌≡◌, ◌<◌, All, IfOk, length, map};
ghost use Rattle.weighted_move.specs.Loads.{IsOwned};
ghost use Rattle.weighted_move.specs.Kinds.{load_changes_of, least_change};

use crate::loaded_slice::LoadedSlice;
use crate::redundancy::Redundancy;
use std::alloc::{AllocError, Global};

/// By how much the moves of a slice change the loads of tasks.
///
/// The values stay the same while the slice has the same number of owners.
#[derive(Clone, Copy)]
pub struct LoadChanges {
    /// The share of the load that each owner has.
    pub share: u64,
    /// The least change of a load.
    pub least: u64,
}

impl LoadChanges {
    /// Computes the changes of a slice.
    pub fn of(slice: &LoadedSlice, redundancy: Redundancy) -> Self
        requires low { 0 < redundancy.low }
        requires some { 0 < length slice.now.owners }
        ensures { result ≡ load_changes_of redundancy slice.now }
    {
        LoadChanges {
            share: slice.share(),
            least: least_change(slice, redundancy),
        }
    }
}

/// Returns the changes of each slice, in order. The only error is out of memory.
pub fn load_changes_of(
    alloc: Global,
    slices: &[LoadedSlice],
    redundancy: Redundancy,
) -> Result<Vec<LoadChanges>, AllocError>
    requires low { 0 < redundancy.low }
    requires owned { All IsOwned slices.now }
    ensures { IfOk result (λ changes. changes.items ≡ map (load_changes_of redundancy) slices.now) }
{
    let mut changes = Vec::with_capacity(alloc, slices.len())?;
    for slice in slices {
        changes.push(LoadChanges::of(slice, redundancy))?;
    }
    Ok(changes)
}

fn least_change(slice: &LoadedSlice, redundancy: Redundancy) -> u64
    requires low { 0 < redundancy.low }
    requires some { 0 < length slice.now.owners }
    ensures { result ≡ least_change redundancy slice.now }
{
    let owners = slice.owners.as_slice().len();
    let share = slice.share();
    let added = if owners < redundancy.high {
        share.min(slice.share_among(owners + 1))
    } else {
        share
    };
    if redundancy.low < owners {
        added.min(slice.share_among(owners - 1).saturating_sub(share))
    } else {
        added
    }
}
