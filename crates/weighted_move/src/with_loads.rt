//! Slices of an assignment with their loads.

ghost use Rattle.std.specs.Prelude.{◌≡◌, None, length, IfOk};
ghost use Rattle.assignment.specs.Slices.{refusal_of};
ghost use Rattle.weighted_move.specs.SliceLoads.{slices_with_loads, next_start};

use crate::loaded_slice::LoadedSlice;
use crate::owners::Owners;
use assignment::{OwnedSlice, TaskId};
use slice_ranges::KEYS;
use std::alloc::{AllocError, Global};

/// Returns the slices with their widths in keys and their loads, and with only the owners in
/// `tasks`.
///
/// The only error is out of memory.
pub fn slices_with_loads(
    alloc: Global,
    slices: &[OwnedSlice],
    loads: &[u64],
    tasks: &[TaskId],
) -> Result<Vec<LoadedSlice>, AllocError>
    requires accepted { refusal_of slices.now ≡ None }
    requires each { length loads.now ≡ length slices.now }
    ensures { IfOk result (λ list. list.items ≡ slices_with_loads tasks.now slices.now loads.now) }
{
    let mut list = Vec::with_capacity(alloc, slices.len())?;
    for (index, slice) in slices.iter().enumerate() {
        let end = next_start(&slices[index + 1..]);
        let start = slice.start().value();
        list.push(LoadedSlice {
            start,
            width: end - start,
            load: loads[index],
            owners: Owners::among(slice.owners(), tasks),
        })?;
    }
    Ok(list)
}

// The start of the first of the slices, or the end of the key space.
fn next_start(slices: &[OwnedSlice]) -> u64
    ensures { result ≡ next_start slices.now }
{
    match slices {
        [] => KEYS,
        [next, ..] => next.start().value(),
    }
}
