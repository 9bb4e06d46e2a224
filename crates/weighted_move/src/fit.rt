//! How slices are given a number of owners.

ghost use Rattle.std.specs.Prelude.{◌≡◌, ◌+◌, ◌*◌, ◌<◌, ◌≤◌, ◌^◌, ℕ, List, ◌++◌, ◌∷◌, length};
ghost use Rattle.slice_ranges.specs.Sets.{Rises};
ghost use Rattle.weighted_move.specs.declared.loaded_slice.LoadedSlice.{LoadedSlice};
ghost use Rattle.weighted_move.specs.Loads.{added_to, load_of, load_in, total_load};
ghost use Rattle.weighted_move.specs.Fitting.{less_one, plus_one, fitted_slice, fitted_slices, IsFittedBy};

use crate::loaded_slice::LoadedSlice;
use crate::redundancy::Redundancy;
use crate::task_loads::TaskLoads;
use assignment::{MOST_OWNERS, TaskId};

/// Gives each slice in turn as many owners as a slice may have.
///
/// A slice with too many loses those with the greatest loads; a slice with too few gets the tasks
/// with the least loads.
pub fn fit_owners(slices: &mut [LoadedSlice], tasks: &[TaskId], redundancy: Redundancy)
    requires low { redundancy.low ≤ MOST_OWNERS }
    requires small { total_load slices.old < 2 ^ 60 }
    ensures { slices.new ≡ fitted_slices tasks.now redundancy slices.old }
{
    let mut loads = TaskLoads::of(slices);
    for slice in slices.iter_mut() {
        fit_slice(slice, tasks, redundancy, &mut loads);
    }
}

// Gives one slice as many owners as it may have; `loads` are those of a list that has the slice.
fn fit_slice(
    slice: &mut LoadedSlice,
    tasks: &[TaskId],
    redundancy: Redundancy,
    loads: &mut TaskLoads,
)
    requires low { redundancy.low ≤ MOST_OWNERS }
    requires has { (task : ℕ) → added_to task slice.old ≤ load_in loads.old task }
    requires small { (task : ℕ) → load_in loads.old task + 2 * slice.old.load < 2 ^ 62 }
    ensures { (before after : List LoadedSlice)
        → ((task : ℕ) → load_in loads.old task ≡ load_of (before ++ slice.old ∷ after) task)
        → IsFittedBy tasks.now redundancy before slice.old after loads.new slice.new }
{
    let before = slice.owners.as_slice().len();
    'away: for _turn in redundancy.high..before {
        take_one_away(slice, loads);
    }
    'more: for _turn in before..redundancy.low {
        add_one(slice, tasks, loads);
    }
}

// Removes the owner with the greatest load.
#[tactic(auto, unfolding(crate::specs::Fitting::less_one))]
fn take_one_away(slice: &mut LoadedSlice, loads: &mut TaskLoads)
    requires has { (task : ℕ) → added_to task slice.old ≤ load_in loads.old task }
    requires small { (task : ℕ) → load_in loads.old task + slice.old.load < 2 ^ 62 }
    ensures slice { slice.new ≡ less_one (load_in loads.old) slice.old }
    ensures loads { (task : ℕ) → load_in loads.new task + added_to task slice.old
        ≡ load_in loads.old task + added_to task slice.new }
{
    if let Some(task) = loads.most_loaded(slice.owners.as_slice()) {
        loads.remove(slice);
        slice.owners = slice.owners.without(task);
        loads.add(slice);
    }
}

// Adds the task with the least load that is not an owner.
#[tactic(auto, unfolding(crate::specs::Fitting::plus_one))]
fn add_one(slice: &mut LoadedSlice, tasks: &[TaskId], loads: &mut TaskLoads)
    requires room { length slice.old.owners < MOST_OWNERS }
    requires has { (task : ℕ) → added_to task slice.old ≤ load_in loads.old task }
    requires small { (task : ℕ) → load_in loads.old task + slice.old.load < 2 ^ 62 }
    ensures slice { slice.new ≡ plus_one (load_in loads.old) tasks.now slice.old }
    ensures room { length slice.new.owners ≤ length slice.old.owners + 1 }
    ensures loads { (task : ℕ) → load_in loads.new task + added_to task slice.old
        ≡ load_in loads.old task + added_to task slice.new }
{
    if let Some(task) = loads.least_loaded(tasks, &slice.owners) {
        loads.remove(slice);
        slice.owners = slice.owners.with(task);
        loads.add(slice);
    }
}
