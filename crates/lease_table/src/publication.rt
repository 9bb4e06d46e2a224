//! The committed assignment of a table, and the proposed one.

ghost use Rattle.std.specs.Prelude.{◌≡◌, ℕ, Some, None, option_map, IfOk};
ghost use Rattle.slice_ranges.specs.Sets.{keys_where};
ghost use Rattle.lease_table.specs.internals.Publications.{owned_in, owned_in_both};

use crate::key_sets::KeySets;
use crate::keyed_assignment::KeyedAssignment;
use assignment::{Assignment, TaskId};
use slice_ranges::Ranges;
use std::alloc::{AllocError, Global};
use std::marker::Model;

/// The committed and the proposed assignment, with the key sets of tasks that were asked for.
///
/// Contracts see only the two assignments.
#[derive(Drop)]
pub struct Publication {
    alloc: Global,
    committed: Option<KeyedAssignment>,
    pending: Option<KeyedAssignment>,
    // The keys that tasks own in both assignments.
    both: KeySets,
}

impl Model for Publication {
    ghost use Rattle.lease_table.specs.internals.KeySets.{AreKeysBy};
    ghost use Rattle.lease_table.specs.internals.Publications.{Assignments, owned_in_both};

    ghost Value = { Assignments };

    ghost view = { λ a. record { committed = a.committed; pending = a.pending } };

    ghost invariant = { λ a. AreKeysBy (owned_in_both (record { committed = a.committed; pending = a.pending })) a.both };
}

impl Publication {
    /// Creates a publication with no committed and no proposed assignment.
    pub fn none(alloc: Global) -> Self
        ensures { result ≡ record { committed = None; pending = None } }
    {
        Publication {
            alloc,
            committed: None,
            pending: None,
            both: KeySets::none(),
        }
    }

    /// Creates a publication of these assignments.
    pub fn of(alloc: Global, committed: Option<Assignment>, pending: Option<Assignment>) -> Self
        ensures { result ≡ record { committed = committed; pending = pending } }
    {
        Publication {
            alloc,
            committed: keyed(committed),
            pending: keyed(pending),
            both: KeySets::none(),
        }
    }

    /// Returns the committed assignment, if there is one.
    pub fn committed(&self) -> Option<&Assignment>
        ensures { option_map (λ a. a.now) result ≡ self.now.committed }
    {
        assignment_of(&self.committed)
    }

    /// Returns the proposed assignment, if there is one.
    pub fn pending(&self) -> Option<&Assignment>
        ensures { option_map (λ a. a.now) result ≡ self.now.pending }
    {
        assignment_of(&self.pending)
    }

    /// Makes `next` the proposed assignment.
    pub fn propose(&mut self, next: Assignment)
        ensures { self.new ≡ record self.old { pending = Some next } }
    {
        self.pending = Some(KeyedAssignment::new(next));
        self.both = KeySets::none();
    }

    /// Makes the proposed assignment the committed one.
    pub fn commit(&mut self)
        ensures { self.new ≡ record { committed = self.old.pending; pending = None } }
    {
        self.committed = self.pending.take();
        self.both = KeySets::none();
    }

    /// Returns the keys that a task owns in the committed assignment. The only error is out of
    /// memory.
    pub fn guard_keys(&self, task: TaskId) -> Result<Ranges, AllocError>
        ensures { IfOk result (λ keys. keys ≡ keys_where (owned_in self.now.committed task)) }
    {
        keys_of(self.alloc, &self.committed, task)
    }

    /// Returns the keys that a task owns in both the committed and the proposed assignment.
    ///
    /// The only error is out of memory.
    pub fn bridge_keys(&self, task: TaskId) -> Result<Ranges, AllocError>
        ensures { IfOk result (λ keys. keys ≡ keys_where (owned_in_both self.now task)) }
    {
        match self.both.keys(task) {
            Some(keys) => keys.copy(),
            None => keys_of_both(self.alloc, &self.committed, &self.pending, task),
        }
    }

    /// Computes and keeps the keys of a grant to the task in the current phase, if not kept
    /// already.
    ///
    /// The only error is out of memory. The value that contracts see is unchanged in any case.
    pub fn keep_keys(&mut self, task: TaskId) -> Result<(), AllocError>
        ensures { self.new ≡ self.old }
    {
        if self.pending.is_none() {
            return keep_keys_of(self.alloc, &mut self.committed, task);
        }
        if self.both.keys(task).is_none() {
            keep_keys_of(self.alloc, &mut self.committed, task)?;
            keep_keys_of(self.alloc, &mut self.pending, task)?;
            let keys = keys_of_both(self.alloc, &self.committed, &self.pending, task)?;
            self.both = self.both.with(self.alloc, task, keys)?;
        }
        Ok(())
    }

    /// Returns a copy that equals these assignments. The only error is out of memory.
    pub fn copy(&self) -> Result<Self, AllocError>
        ensures { IfOk result (λ copied. copied ≡ self.now) }
    {
        Ok(Publication {
            alloc: self.alloc,
            committed: copy_of(&self.committed)?,
            pending: copy_of(&self.pending)?,
            both: self.both.copy()?,
        })
    }
}

// The assignment with no key sets yet.
fn keyed(assignment: Option<Assignment>) -> Option<KeyedAssignment>
    ensures { result ≡ assignment }
{
    match assignment {
        Some(assignment) => Some(KeyedAssignment::new(assignment)),
        None => None,
    }
}

fn assignment_of(assignment: &Option<KeyedAssignment>) -> Option<&Assignment>
    ensures { option_map (λ a. a.now) result ≡ assignment.now }
{
    match assignment {
        Some(assignment) => Some(assignment.assignment()),
        None => None,
    }
}

// The keys that a task owns in an assignment; none if there is no assignment.
fn keys_of(
    alloc: Global,
    assignment: &Option<KeyedAssignment>,
    task: TaskId,
) -> Result<Ranges, AllocError>
    ensures { IfOk result (λ keys. keys ≡ keys_where (owned_in assignment.now task)) }
{
    match assignment {
        Some(assignment) => assignment.keys(task),
        None => Ok(no_keys(alloc)),
    }
}

// The keys of a task if there is no assignment.
fn no_keys(alloc: Global) -> Ranges
    ensures { (task : ℕ) → result ≡ keys_where (owned_in None task) }
{
    let keys = Ranges::empty(alloc);
    Ranges::keys_where_law(&keys);
    keys
}

// The keys that a task owns in both assignments.
fn keys_of_both(
    alloc: Global,
    committed: &Option<KeyedAssignment>,
    pending: &Option<KeyedAssignment>,
    task: TaskId,
) -> Result<Ranges, AllocError>
    ensures { IfOk result (λ keys. keys
        ≡ keys_where (owned_in_both (record { committed = committed.now; pending = pending.now }) task)) }
{
    let before = keys_of(alloc, committed, task)?;
    let after = keys_of(alloc, pending, task)?;
    let keys = before.intersect(&after)?;
    Ranges::keys_where_law(&keys);
    Ok(keys)
}

fn keep_keys_of(
    alloc: Global,
    assignment: &mut Option<KeyedAssignment>,
    task: TaskId,
) -> Result<(), AllocError>
    ensures { assignment.new ≡ assignment.old }
{
    match assignment {
        Some(assignment) => assignment.keep_keys(alloc, task),
        None => Ok(()),
    }
}

fn copy_of(assignment: &Option<KeyedAssignment>) -> Result<Option<KeyedAssignment>, AllocError>
    ensures { IfOk result (λ copied. copied ≡ assignment.now) }
{
    match assignment {
        Some(assignment) => Ok(Some(assignment.copy()?)),
        None => Ok(None),
    }
}
