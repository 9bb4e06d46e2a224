//! The values of a running table with its rows, and the same table built from them.

ghost use Rattle.std.specs.Prelude.{◌≡◌, None, IfOk, IfErr, OnOk, List};
ghost use Rattle.machines.specs.Refusals.{first_of};
ghost use Rattle.machines.specs.Answers.{trouble_of};
ghost use Rattle.machines.specs.declared.machine.Trouble.TheVariants.{NoMemory};
ghost use Rattle.lease_table.specs.Calls.{AnsweredTableCall, standing_after, LeadsTo};
ghost use Rattle.lease_table.specs.Runs.{IsRun};
ghost use Rattle.lease_table.specs.Snapshots.{IsSnapshotOf, resumed_from};
ghost use Rattle.grants.specs.Snapshots.{snapshot_checks};

use super::LeaseTable;
use crate::publication::Publication;
use crate::rows::Rows;
use grants::{Policy, SnapshotFault, TableSnapshot, policy_law};
use machines::Trouble;
use std::alloc::{AllocError, Global};

impl LeaseTable {
    /// Returns the values of the table with its open rows. The only error is out of memory.
    pub fn snapshot(&self) -> Result<TableSnapshot, AllocError>
        ensures { IfOk result (λ snapshot. IsSnapshotOf self.now snapshot) }
    {
        Ok(TableSnapshot {
            kept: self.kept()?,
            grace: self.grace,
            rows: self.rows()?,
        })
    }

    /// Builds the table that has these values and these rows: the very same one, if a table of this
    /// policy had them.
    ///
    /// Unlike [`restore`](Self::restore), it keeps the rows, and the grace is not moved. If the
    /// values are those of a table after a list of calls, it is the table after these calls.
    ///
    /// Errors: the first [`SnapshotFault`] that holds, in their order; then no table of this policy
    /// has such values. Then out of memory.
    pub fn resume(
        alloc: Global,
        policy: Policy,
        snapshot: TableSnapshot,
    ) -> Result<Self, Trouble<SnapshotFault>>
        ensures table { IfOk result (λ table. table ≡ resumed_from snapshot) }
        ensures accepted { OnOk result (first_of (snapshot_checks policy snapshot) ≡ None) }
        ensures refused { IfErr result (λ trouble. trouble ≡ trouble_of (first_of (snapshot_checks policy snapshot))) }
        ensures again { (past : List AnsweredTableCall) → IsRun policy past
            → IsSnapshotOf (standing_after policy past) snapshot
            → IfErr result (λ trouble. trouble ≡ NoMemory) × IfOk result (λ table. LeadsTo policy past table) }
    {
        policy_law(policy);
        if let Some(fault) = snapshot.fault(policy) {
            return Err(Trouble::Refused(fault));
        }
        let TableSnapshot { kept, grace, rows } = snapshot;
        policy_law(kept.policy);
        let rows = Rows::of(alloc, &rows)?;
        Ok(LeaseTable {
            policy: kept.policy,
            last: kept.last,
            term: kept.term,
            publication: Publication::of(alloc, kept.committed, kept.pending),
            granted: kept.granted,
            deadline: kept.deadline,
            grace,
            rows,
        })
    }
}
