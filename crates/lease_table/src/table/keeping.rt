//! What a table keeps beyond its process, and the table restored from it.

ghost use Rattle.std.specs.Prelude.{◌≡◌, IfOk, IsOkAnd, List};
ghost use Rattle.std.specs.Result.{result_err};
ghost use Rattle.machines.specs.Refusals.{first_of};
ghost use Rattle.lease_table.specs.Calls.{AnsweredTableCall, standing_after, LeadsTo};
ghost use Rattle.lease_table.specs.Runs.{IsRun};
ghost use Rattle.lease_table.specs.KeptValues.{kept_of, restored_from, crashed};
ghost use Rattle.grants.specs.KeptValues.{kept_checks};

use super::LeaseTable;
use crate::publication::Publication;
use crate::rows::Rows;
use assignment::copy_of;
use grants::{Kept, KeptFault, Policy, policy_law};
use std::alloc::{AllocError, Global};

impl LeaseTable {
    /// Returns the values to save before the reply to a call that changed them leaves the process.
    ///
    /// Rows are not among them: a restored table has lost its rows. The only error is out of
    /// memory.
    pub fn kept(&self) -> Result<Kept, AllocError>
        ensures { IfOk result (λ kept. kept ≡ kept_of self.now) }
    {
        Ok(Kept {
            policy: self.policy,
            last: self.last,
            term: self.term,
            committed: copy_of(self.publication.committed())?,
            pending: copy_of(self.publication.pending())?,
            granted: self.granted,
            deadline: self.deadline,
        })
    }

    /// Restores the table that kept these values, as a [`restart`](Self::restart) leaves it.
    ///
    /// The restored table has no rows, and accepts no commit at a reading below the kept deadline,
    /// in ticks. If the values were kept after a list of calls, it is the table after these calls
    /// and a restart. It takes no memory.
    ///
    /// The error is the first [`KeptFault`] that holds, in their order; then no table of this
    /// policy keeps such values.
    pub fn restore(alloc: Global, policy: Policy, kept: Kept) -> Result<Self, KeptFault>
        ensures table { IfOk result (λ table. table ≡ restored_from kept) }
        ensures refusal { result_err result ≡ first_of (kept_checks policy kept) }
        ensures crash { (past : List AnsweredTableCall) → IsRun policy past
            → kept ≡ kept_of (standing_after policy past)
            → IsOkAnd result (λ table. LeadsTo policy (crashed past) table) }
    {
        policy_law(policy);
        policy_law(kept.policy);
        if let Some(fault) = kept.fault(policy) {
            return Err(fault);
        }
        Ok(LeaseTable {
            policy: kept.policy,
            last: kept.last,
            term: kept.term,
            publication: Publication::of(alloc, kept.committed, kept.pending),
            granted: kept.granted,
            deadline: kept.deadline,
            grace: kept.deadline,
            rows: Rows::new(alloc),
        })
    }
}
