//! The values of a running table with its rows.

ghost use Rattle.std.specs.Prelude.{◌≡◌, IfOk};
ghost use Rattle.std.specs.List.{list_all};
ghost use Rattle.machines.specs.Refusals.{first_of};
ghost use Rattle.grants.specs.Snapshots.{snapshot_checks, numbers_rise, generations_rise, newest_in, ends_between};

use crate::kept::{Kept, KeptFault};
use crate::policy::Policy;
use crate::values::Row;
use machines::Duplicate;
use std::alloc::AllocError;

/// The values of a running table: its kept values, its grace and its open rows.
///
/// `LeaseTable::resume` builds the very same table from them. Ticks are those of the table's clock.
#[derive(Debug, Drop)]
pub struct TableSnapshot {
    /// The values that outlast a process.
    pub kept: Kept,
    /// The reading before which no commit is accepted since the last restart, in ticks; 0 for none.
    pub grace: u64,
    /// The open rows, in the order of their grants.
    pub rows: Vec<Row>,
}

/// Why values and rows are those of no table of a policy, in the order of the checks.
#[derive(Clone, Copy, Debug, PartialEq, Eq)]
pub enum SnapshotFault {
    /// The kept values are those of no table of the policy: the first fault of theirs.
    Kept(KeptFault),
    /// The grace is above the greatest deadline.
    Grace,
    /// The number of a row is 0, not above that of the row before, or above the number of grants
    /// made.
    RowNumber,
    /// The generation of a row is below that of the row before, or above the newest generation: the
    /// proposed one, or else the committed one.
    RowGeneration,
    /// A row has ended at the last reading, or ends after the greatest deadline.
    RowEnd,
}

impl TableSnapshot {
    /// Returns a copy: the same values and rows. The only error is out of memory.
    pub fn copy(&self) -> Result<TableSnapshot, AllocError>
        ensures kept { IfOk result (λ copy. copy.kept ≡ self.now.kept) }
        ensures grace { IfOk result (λ copy. copy.grace ≡ self.now.grace) }
        ensures rows { IfOk result (λ copy. copy.rows.items ≡ self.now.rows.items) }
    {
        Ok(TableSnapshot {
            kept: self.kept.copy()?,
            grace: self.grace,
            rows: self.rows.clone()?,
        })
    }

    /// Returns the newest generation: the proposed one, or else the committed one; 0 if there is
    /// neither.
    pub fn newest_generation(&self) -> u64
        ensures { result ≡ newest_in self.now.kept }
    {
        newest_in(&self.kept)
    }

    /// Returns why these values and rows are those of no table of this policy: the first
    /// [`SnapshotFault`] that holds, or `None`.
    ///
    /// The values and rows of a table have no fault. Others may have none either.
    pub fn fault(&self, policy: Policy) -> Option<SnapshotFault>
        ensures { result ≡ first_of (snapshot_checks policy self.now) }
    {
        if let Some(fault) = self.kept.fault(policy) {
            return Some(SnapshotFault::Kept(fault));
        }
        if self.grace > self.kept.deadline {
            return Some(SnapshotFault::Grace);
        }
        if !numbers_rise(&self.rows, self.kept.granted) {
            return Some(SnapshotFault::RowNumber);
        }
        if !generations_rise(&self.rows, newest_in(&self.kept)) {
            return Some(SnapshotFault::RowGeneration);
        }
        if !all_end_between(&self.rows, self.kept.last, self.kept.deadline) {
            return Some(SnapshotFault::RowEnd);
        }
        None
    }
}

// The newest generation: the proposed one, or else the committed one.
fn newest_in(kept: &Kept) -> u64
    ensures { result ≡ newest_in kept.now }
{
    match (&kept.pending, &kept.committed) {
        (Some(next), _) => next.generation(),
        (None, Some(committed)) => committed.generation(),
        (None, None) => 0,
    }
}

// Whether the numbers of rows rise from 1 or more up to the most.
fn numbers_rise(rows: &[Row], most: u64) -> bool
    ensures { result ≡ numbers_rise 0 most rows.now }
{
    let mut before = 0;
    for row in rows {
        if row.number <= before || row.number > most {
            return false;
        }
        before = row.number;
    }
    true
}

// Whether the generations of rows never fall, and none is above the newest.
fn generations_rise(rows: &[Row], newest: u64) -> bool
    ensures { result ≡ generations_rise 0 newest rows.now }
{
    let mut before = 0;
    for row in rows {
        if row.generation < before || row.generation > newest {
            return false;
        }
        before = row.generation;
    }
    true
}

// Whether all rows end after the last reading, and none after the greatest deadline.
fn all_end_between(rows: &[Row], last: u64, deadline: u64) -> bool
    ensures { result ≡ list_all (ends_between last deadline) rows.now }
{
    rows.iter()
        .all(|row| last < row.table_ends && row.table_ends <= deadline)
}
