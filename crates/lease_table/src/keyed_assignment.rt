//! An assignment with the key sets of its tasks.

ghost use Rattle.std.specs.Prelude.{◌≡◌, Some, IfOk};
ghost use Rattle.slice_ranges.specs.Sets.{keys_where};
ghost use Rattle.lease_table.specs.internals.Publications.{owned_in};

use crate::key_sets::KeySets;
use assignment::{Assignment, TaskId};
use slice_ranges::Ranges;
use std::alloc::{AllocError, Global};
use std::marker::Model;

/// An assignment, with the key sets of the tasks that were asked for.
///
/// Contracts see only the assignment.
#[derive(Drop)]
pub struct KeyedAssignment {
    assignment: Assignment,
    sets: KeySets,
}

impl Model for KeyedAssignment {
    ghost use Rattle.std.specs.Prelude.{Some};
    ghost use Rattle.assignment.specs.Slices.{Slicing};
    ghost use Rattle.lease_table.specs.internals.KeySets.{AreKeysBy};
    ghost use Rattle.lease_table.specs.internals.Publications.{owned_in};

    ghost Value = { Slicing };

    ghost view = { λ a. a.assignment };

    ghost invariant = { λ a. AreKeysBy (owned_in (Some a.assignment)) a.sets };
}

impl KeyedAssignment {
    /// Wraps an assignment, with no key sets yet.
    pub fn new(assignment: Assignment) -> Self
        ensures { result ≡ assignment }
    {
        KeyedAssignment {
            assignment,
            sets: KeySets::none(),
        }
    }

    /// Returns the assignment.
    pub fn assignment(&self) -> &Assignment
        ensures { result.now ≡ self.now }
    {
        &self.assignment
    }

    /// Returns the keys that a task owns. The only error is out of memory.
    pub fn keys(&self, task: TaskId) -> Result<Ranges, AllocError>
        ensures { IfOk result (λ keys. keys ≡ keys_where (owned_in (Some self.now) task)) }
    {
        match self.sets.keys(task) {
            Some(keys) => keys.copy(),
            None => keys_in(&self.assignment, task),
        }
    }

    /// Computes and keeps the keys that a task owns, unless they are kept already.
    ///
    /// The only error is out of memory. The value that contracts see is unchanged in any case.
    pub fn keep_keys(&mut self, alloc: Global, task: TaskId) -> Result<(), AllocError>
        ensures { self.new ≡ self.old }
    {
        if self.sets.keys(task).is_none() {
            let keys = keys_in(&self.assignment, task)?;
            self.sets = self.sets.with(alloc, task, keys)?;
        }
        Ok(())
    }

    /// Returns a copy that equals this assignment. The only error is out of memory.
    pub fn copy(&self) -> Result<Self, AllocError>
        ensures { IfOk result (λ assignment. assignment ≡ self.now) }
    {
        Ok(KeyedAssignment {
            assignment: self.assignment.copy()?,
            sets: self.sets.copy()?,
        })
    }
}

// The keys that a task owns in an assignment.
fn keys_in(assignment: &Assignment, task: TaskId) -> Result<Ranges, AllocError>
    ensures { IfOk result (λ keys. keys ≡ keys_where (owned_in (Some assignment.now) task)) }
{
    let keys = assignment.of_task(task)?;
    Ranges::keys_where_law(&keys);
    Ok(keys)
}
