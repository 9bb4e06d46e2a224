//! Why the table refuses a call.

ghost use Rattle.std.specs.Prelude.{◌≡◌, ◌≤◌, ◌<◌, ◌∷◌, [], IfOk, OnOk, length, filter, nat_lt};
ghost use Rattle.std.specs.List.{list_any};
ghost use Rattle.std.specs.Result.{result_err};
ghost use Rattle.machines.specs.Refusals.{first_of};
ghost use Rattle.grants.specs.Rows.{first_up_to, running_rows, closes};
ghost use Rattle.grants.specs.Assignments.{generation_of};
ghost use Rattle.lease_table.specs.Steps.{out_of_range, clock_back, take_checks, renew_checks, proposal_checks, propose_checks, commit_checks, grant_checks, free_checks};

use super::LeaseTable;
use assignment::{Assignment, Slice};
use grants::{JobTerm, MOST_GRANTS, READINGS, ReleaseNote, Row, TableError};

impl LeaseTable {
    // Checks the reading of a call.
    pub(super) fn check_reading(&self, at: u64) -> Result<(), TableError>
        ensures refusal { result_err result ≡ first_of (out_of_range at ∷ clock_back self.now at ∷ []) }
        ensures reading { OnOk result ((self.now.last ≤ at) × (at < READINGS)) }
    {
        if at >= READINGS {
            return Err(TableError::ReadingRange);
        }
        if at < self.last {
            return Err(TableError::ClockBack);
        }
        Ok(())
    }

    // Checks a call of `job_take`.
    pub(super) fn check_take(&self, at: u64) -> Result<(), TableError>
        ensures { result_err result ≡ first_of (take_checks self.now at) }
    {
        self.check_reading(at)?;
        match &self.term {
            Some(term) if at < term.until => Err(TableError::JobHeld { until: term.until }),
            _ => Ok(()),
        }
    }

    // Returns the last term given, if it has this number and has not ended.
    pub(super) fn check_holder(&self, number: u64, at: u64) -> Result<JobTerm, TableError>
        ensures refusal { result_err result ≡ first_of (renew_checks self.now number at) }
        ensures term { IfOk result (λ term. self.now.term ≡ Some term) }
        ensures reading { OnOk result ((self.now.last ≤ at) × (at < READINGS)) }
    {
        self.check_reading(at)?;
        match &self.term {
            Some(term) if term.number == number && at < term.until => Ok(*term),
            _ => Err(TableError::NotHolder {
                term: self.last_number(),
            }),
        }
    }

    // Checks a proposal of a generation. `too_many` says whether a slice has too many owners.
    pub(super) fn check_proposal(
        &self,
        number: u64,
        generation: u64,
        too_many: bool,
        at: u64,
    ) -> Result<(), TableError>
        ensures refusal { result_err result ≡ first_of (proposal_checks self.now number generation too_many at) }
        ensures reading { OnOk result ((self.now.last ≤ at) × (at < READINGS)) }
    {
        self.check_holder(number, at)?;
        let committed = self.generation();
        if committed.checked_add(1) != Some(generation) {
            return Err(TableError::StaleBase {
                generation: committed,
            });
        }
        if self.publication.pending().is_some() {
            return Err(TableError::Pending);
        }
        if too_many {
            return Err(TableError::TooManyOwnersForJob);
        }
        Ok(())
    }

    // Checks a proposal of an assignment.
    pub(super) fn check_assignment(
        &self,
        number: u64,
        assignment: &Assignment,
        at: u64,
    ) -> Result<(), TableError>
        ensures refusal { result_err result ≡ first_of (propose_checks self.now number assignment.now at) }
        ensures reading { OnOk result ((self.now.last ≤ at) × (at < READINGS)) }
    {
        let too_many = assignment.has_more_owners(self.policy.high());
        self.check_proposal(number, assignment.generation(), too_many, at)
    }

    // Checks a commit, and returns the proposed generation. The table is unchanged.
    pub(super) fn check_commit(&mut self, number: u64, at: u64) -> Result<u64, TableError>
        ensures refusal { result_err result ≡ first_of (commit_checks self.old number at) }
        ensures generation { IfOk result (λ generation. generation ≡ generation_of self.old.pending) }
        ensures reading { OnOk result ((self.old.last ≤ at) × (at < READINGS)) }
        ensures same { self.new ≡ self.old }
    {
        self.check_holder(number, at)?;
        let Some(next) = self.publication.pending() else {
            return Err(TableError::NothingPending);
        };
        let generation = next.generation();
        if at < self.grace {
            return Err(TableError::Grace { until: self.grace });
        }
        if let Some(row) = self.first_held(at) {
            return Err(TableError::Held {
                task: row.task,
                kind: row.kind,
                number: row.number,
            });
        }
        Ok(generation)
    }

    // Returns the first row of the committed generation or an older one that has not ended. The
    // table is unchanged.
    pub(super) fn first_held(&mut self, at: u64) -> Option<Row>
        requires { self.old.last ≤ at }
        ensures first { result ≡ first_up_to (generation_of self.old.committed) at self.old.rows }
        ensures same { self.new ≡ self.old }
    {
        let generation = self.generation();
        self.rows.first_up_to(generation, at)
    }

    // Checks a release note, and returns how many rows it frees.
    pub(super) fn check_free(&self, note: &ReleaseNote, at: u64) -> Result<u64, TableError>
        ensures refusal { result_err result ≡ first_of (free_checks self.now note.now at) }
        ensures count { IfOk result (λ count. count ≡ length (filter (closes note.now) (running_rows at self.now.rows))) }
        ensures reading { OnOk result ((self.now.last ≤ at) × (at < READINGS)) }
    {
        self.check_reading(at)?;
        match self.count_closed(note, at) {
            0 => Err(TableError::NoRow),
            count => Ok(count as u64),
        }
    }

    // Returns how many rows that have not ended a note closes.
    pub(super) fn count_closed(&self, note: &ReleaseNote, at: u64) -> usize
        requires { self.now.last ≤ at }
        ensures { result ≡ length (filter (closes note.now) (running_rows at self.now.rows)) }
    {
        self.rows.count_closed(note, at)
    }

    // Checks a grant.
    pub(super) fn check_grant(&self, at: u64) -> Result<(), TableError>
        ensures refusal { result_err result ≡ first_of (grant_checks self.now at) }
        ensures reading { OnOk result ((self.now.last ≤ at) × (at < READINGS)) }
        ensures number { OnOk result (self.now.granted < MOST_GRANTS) }
    {
        self.check_reading(at)?;
        if self.publication.committed().is_none() && self.publication.pending().is_none() {
            return Err(TableError::NoAssignment);
        }
        if self.granted >= self.policy.numbers() {
            return Err(TableError::NumbersSpent);
        }
        Ok(())
    }
}

// Returns whether a slice of a proposal that is not built has more owners than `most`.
pub(super) fn any_written_has_more_owners(slices: &[Slice], most: u64) -> bool
    ensures { result ≡ list_any (λ s. nat_lt most (length s.owners)) slices.now }
{
    slices
        .iter()
        .any(|slice| slice.owners.as_slice().len() as u64 > most)
}
