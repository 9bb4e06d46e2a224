//! The lease table.

ghost use Rattle.std.specs.Prelude.{◌≡◌, ◌≤◌, ◌<◌, ◌+◌, ◌&&◌, IfOk, IfErr, OnOk, OnErr, None, option_map, length, max};
ghost use Rattle.machines.specs.Refusals.{first_of};
ghost use Rattle.slice_ranges.specs.Sets.{keys_where};
ghost use Rattle.assignment.specs.Owners.{owns};
ghost use Rattle.lease_table.specs.Tables.{opening, phase_of};
ghost use Rattle.grants.specs.JobTerms.{last_number};
ghost use Rattle.grants.specs.Assignments.{generation_of, slices_of};
ghost use Rattle.grants.specs.Rows.{row_of};
ghost use Rattle.grants.specs.declared.policy.TheConstants.{READINGS};
ghost use Rattle.lease_table.specs.internals.Numbers.{newest_of};
ghost use Rattle.machines.specs.Answers.{Answers, Takes, trouble_of};
ghost use Rattle.lease_table.specs.Steps.{grant_checks, standing_at, propose_checks, grant_with, with_row, take_step, renew_step, propose_step, commit_step, grant_step, free_step, standing_after_restart};

pub(crate) mod checks;
mod keeping;
mod resuming;

use self::checks::any_written_has_more_owners;
use crate::publication::Publication;
use crate::rows::Rows;
use assignment::{Assignment, Slice, TaskId};
use grants::{
    Grant, JobTerm, MOST_GRANTS, Phase, Policy, ReleaseNote, Row, TableError, policy_law,
};
use lease_rule::{Kind, Lease};
use machines::Trouble;
use std::alloc::{AllocError, Global};
use std::marker::Model;

/// The lease table of a job: its job lease, its assignments, and the leases given to tasks.
///
/// The table decides which assigner may propose and commit assignments, and grants leases to tasks.
/// It holds up a commit while a lease of the committed generation or an older one may still be in
/// use. Readings and terms are in ticks of the table's clock.
#[derive(Drop)]
pub struct LeaseTable {
    policy: Policy,
    last: u64,
    term: Option<JobTerm>,
    publication: Publication,
    granted: u64,
    deadline: u64,
    grace: u64,
    rows: Rows,
}

impl Model for LeaseTable {
    ghost use Rattle.lease_table.specs.Tables.{Standing};

    ghost Value = { Standing };

    ghost use Rattle.grants.specs.Rows.{running_rows};
    ghost use Rattle.lease_table.specs.internals.Numbers.{IsInRange, newest_of};

    ghost view = { λ t. record {
      policy = t.policy;
      last = t.last;
      term = t.term;
      committed = t.publication.committed;
      pending = t.publication.pending;
      granted = t.granted;
      deadline = t.deadline;
      grace = t.grace;
      rows = running_rows t.last t.rows;
    } };

    ghost invariant = { λ t. IsInRange t.last t.policy.job t.granted (newest_of t.publication.committed t.publication.pending) t.term t.rows };
}

impl LeaseTable {
    /// Creates a table before its first call: no job term, no assignment, no rows.
    pub fn new(alloc: Global, policy: Policy) -> Self
        ensures { result ≡ opening policy }
    {
        LeaseTable {
            policy,
            last: 0,
            term: None,
            publication: Publication::none(alloc),
            granted: 0,
            deadline: 0,
            grace: 0,
            rows: Rows::new(alloc),
        }
    }

    /// Returns the policy of the table.
    pub fn policy(&self) -> Policy
        ensures { result ≡ self.now.policy }
    {
        self.policy
    }

    /// Returns the committed assignment, if there is one.
    pub fn committed(&self) -> Option<&Assignment>
        ensures { option_map (λ a. a.now) result ≡ self.now.committed }
    {
        self.publication.committed()
    }

    /// Returns the committed generation and, if an assignment is proposed, its generation.
    pub fn phase(&self) -> Phase
        ensures { result ≡ phase_of self.now }
    {
        match self.publication.pending() {
            Some(next) => Phase::Bridging(self.generation(), next.generation()),
            None => Phase::Steady(self.generation()),
        }
    }

    /// Returns the last accepted reading, in ticks; 0 before the first.
    pub fn last_reading(&self) -> u64
        ensures { result ≡ self.now.last }
    {
        self.last
    }

    /// Returns how many grants the table has made; the next one gets the number after that.
    pub fn granted(&self) -> u64
        ensures { result ≡ self.now.granted }
    {
        self.granted
    }

    /// Returns the last term of the job lease that was given, if any; it may have ended.
    pub fn job(&self) -> Option<JobTerm>
        ensures { result ≡ self.now.term }
    {
        self.term
    }

    /// Returns the open rows, in the order of their grants.
    ///
    /// A row is open if it was neither freed nor lost in a restart and has not ended at the last
    /// accepted reading. The only error is out of memory.
    pub fn rows(&self) -> Result<Vec<Row>, AllocError>
        ensures { IfOk result (λ rows. rows.items ≡ self.now.rows) }
    {
        self.rows.running_at(self.last)
    }

    /// Gives the job lease to an assigner and returns the new term.
    ///
    /// The term lasts the job's term (`Policy::job`, in ticks) from the reading `at` on.
    ///
    /// Errors, in this order: `ReadingRange`, `ClockBack`, `JobHeld`. An error leaves the table
    /// unchanged.
    pub fn job_take(&mut self, assigner: u64, at: u64) -> Result<JobTerm, TableError>
        ensures { Answers (take_step self.old assigner at) self.old result self.new }
    {
        self.check_take(at)?;
        let term = JobTerm {
            number: self.last_number() + 1,
            assigner,
            until: at + self.policy.job(),
        };
        self.advance(at);
        self.term = Some(term);
        Ok(term)
    }

    /// Renews the term with this number and returns it.
    ///
    /// It must be the last term given, and then lasts the job's term (`Policy::job`, in ticks) from
    /// the reading `at` on.
    ///
    /// Errors, in this order: `ReadingRange`, `ClockBack`, `NotHolder`. An error leaves the table
    /// unchanged.
    pub fn job_renew(&mut self, number: u64, at: u64) -> Result<JobTerm, TableError>
        ensures { Answers (renew_step self.old number at) self.old result self.new }
    {
        let mut term = self.check_holder(number, at)?;
        term.until = at + self.policy.job();
        self.advance(at);
        self.term = Some(term);
        Ok(term)
    }

    /// Proposes the assignment of the next generation, under the job term with this number.
    ///
    /// Errors, in this order: `ReadingRange`, `ClockBack`, `NotHolder`, `StaleBase`, `Pending`,
    /// `TooManyOwnersForJob`, out of memory. An error leaves the table unchanged.
    pub fn propose(
        &mut self,
        number: u64,
        assignment: &Assignment,
        at: u64,
    ) -> Result<(), Trouble<TableError>>
        ensures { Takes (propose_step self.old number assignment.now at) self.old result self.new }
    {
        self.check_assignment(number, assignment, at)
            .map_err(Trouble::Refused)?;
        let next = assignment.copy()?;
        self.advance(at);
        self.publication.propose(next);
        Ok(())
    }

    /// Returns why a proposal of this generation and these slices would be refused, if it would.
    ///
    /// The refusals are those of [`propose`](Self::propose), in their order. The assignment need
    /// not be built.
    pub fn propose_refusal(
        &self,
        number: u64,
        generation: u64,
        slices: &[Slice],
        at: u64,
    ) -> Option<TableError>
        ensures { result ≡ first_of
            (propose_checks self.now number (record { generation = generation; slices = slices.now }) at) }
    {
        let too_many = any_written_has_more_owners(slices, self.policy.high());
        self.check_proposal(number, generation, too_many, at).err()
    }

    /// Returns why a proposal of this assignment would be refused, if it would.
    ///
    /// The refusals are those of [`propose`](Self::propose), in their order.
    pub fn assignment_refusal(
        &self,
        number: u64,
        assignment: &Assignment,
        at: u64,
    ) -> Option<TableError>
        ensures { result ≡ first_of (propose_checks self.now number assignment.now at) }
    {
        self.check_assignment(number, assignment, at).err()
    }

    /// Commits the proposed assignment, under the job term with this number, and returns its
    /// generation.
    ///
    /// Errors, in this order: `ReadingRange`, `ClockBack`, `NotHolder`, `NothingPending`, `Grace`,
    /// `Held`. An error leaves the table unchanged.
    pub fn commit(&mut self, number: u64, at: u64) -> Result<u64, TableError>
        ensures { Answers (commit_step self.old number at) self.old result self.new }
    {
        let generation = self.check_commit(number, at)?;
        self.advance(at);
        self.publication.commit();
        Ok(generation)
    }

    /// Grants a task a lease for one of its lives, and keeps a row for it until it ends or is
    /// freed.
    ///
    /// If no assignment is proposed, the grant is a guard lease of the committed assignment, with
    /// the keys that the task owns in it. If one is proposed, the grant is a bridge lease of the
    /// proposed assignment, with the keys that the task owns in both assignments. A lease may cover
    /// no key.
    ///
    /// Errors, in this order: `ReadingRange`, `ClockBack`, `NoAssignment`, `NumbersSpent`, out of
    /// memory. An error leaves the table unchanged.
    pub fn grant(&mut self, task: TaskId, life: u32, at: u64) -> Result<Grant, Trouble<TableError>>
        ensures { Takes (grant_step self.old task life at) self.old result self.new }
    {
        let grant = self.next_grant(task, life, at)?;
        self.make(&grant, at)?;
        Ok(grant)
    }

    /// Returns the grant that [`grant`](Self::grant) would return, without granting it.
    ///
    /// The table is unchanged. Errors are those of `grant`, in the same order, with out of memory
    /// last.
    pub fn next_grant(
        &mut self,
        task: TaskId,
        life: u32,
        at: u64,
    ) -> Result<Grant, Trouble<TableError>>
        ensures grant { IfOk result (λ grant. grant ≡ grant_with self.old self.old.pending task life at) }
        ensures accepted { OnOk result (first_of (grant_checks self.old at) ≡ None) }
        ensures refused { IfErr result (λ trouble. trouble ≡ trouble_of (first_of (grant_checks self.old at))) }
        ensures same { self.new ≡ self.old }
    {
        self.check_grant(at).map_err(Trouble::Refused)?;
        self.publication.keep_keys(task)?;
        Ok(self.grant_of_phase(task, life, at)?)
    }

    /// Makes a grant that [`next_grant`](Self::next_grant) returned for this table at the reading
    /// `at`, in ticks.
    ///
    /// The only error is out of memory, which leaves the table unchanged.
    pub fn make(&mut self, grant: &Grant, at: u64) -> Result<(), AllocError>
        requires accepted { first_of (grant_checks self.old at) ≡ None }
        requires next { grant.now ≡ grant_with self.old self.old.pending grant.now.task grant.now.life at }
        ensures ok { OnOk result (self.new ≡ with_row self.old at (row_of grant.now)) }
        ensures err { OnErr result (self.new ≡ self.old) }
    {
        policy_law(self.policy);
        self.add_row(grant.row(), at)
    }

    /// Returns why a grant at the reading `at`, in ticks, would be refused, if it would.
    ///
    /// The refusals are those of [`grant`](Self::grant), in their order.
    pub fn grant_refusal(&self, at: u64) -> Option<TableError>
        ensures { result ≡ first_of (grant_checks self.now at) }
    {
        self.check_grant(at).err()
    }

    /// Frees the rows that a note closes and that have not ended, and returns how many there are.
    ///
    /// Errors, in this order: `ReadingRange`, `ClockBack`, `NoRow`. An error leaves the table
    /// unchanged.
    pub fn free(&mut self, note: &ReleaseNote, at: u64) -> Result<u64, TableError>
        ensures { Answers (free_step self.old note.now at) self.old result self.new }
    {
        let count = self.check_free(note, at)?;
        self.advance(at);
        self.rows.free(note);
        Ok(count)
    }

    /// Restarts the table: drops all rows, and returns how many were open.
    ///
    /// Everything else is kept. From then on, no commit is accepted at a reading below the greatest
    /// deadline given so far, in ticks, which counts the deadlines of freed rows too. A restart
    /// takes no memory and never fails.
    pub fn restart(&mut self) -> u64
        ensures count { result ≡ length self.old.rows }
        ensures left { self.new ≡ standing_after_restart self.old }
    {
        let count = self.rows.count_running(self.last);
        self.rows.clear();
        self.grace = self.deadline;
        count as u64
    }

    /// Returns a copy that equals this table. The only error is out of memory.
    pub fn copy(&self) -> Result<Self, AllocError>
        ensures { IfOk result (λ table. table ≡ self.now) }
    {
        Ok(LeaseTable {
            policy: self.policy,
            last: self.last,
            term: self.term,
            publication: self.publication.copy()?,
            granted: self.granted,
            deadline: self.deadline,
            grace: self.grace,
            rows: self.rows.copy()?,
        })
    }

    // The committed generation, or 0 if there is none.
    fn generation(&self) -> u64
        ensures { result ≡ generation_of self.now.committed }
    {
        match self.publication.committed() {
            Some(assignment) => assignment.generation(),
            None => 0,
        }
    }

    // The number of the last term given, or 0 if there is none.
    fn last_number(&self) -> u64
        ensures { result ≡ last_number self.now.term }
    {
        match &self.term {
            Some(term) => term.number,
            None => 0,
        }
    }

    // The grant of the current phase.
    fn grant_of_phase(&self, task: TaskId, life: u32, at: u64) -> Result<Grant, AllocError>
        requires reading { at < READINGS }
        requires number { self.now.granted < MOST_GRANTS }
        ensures grant { IfOk result (λ grant. grant ≡ grant_with self.now self.now.pending task life at) }
        ensures runs { IfOk result (λ grant. at < grant.table_ends) }
    {
        let number = self.granted + 1;
        match self.publication.pending() {
            None => {
                let table_ends = at + self.policy.guard();
                Ok(Grant {
                    number,
                    task,
                    life,
                    lease: Lease {
                        kind: Kind::Guard,
                        generation: self.generation(),
                        ranges: self.publication.guard_keys(task)?,
                        ends: table_ends - self.policy.skew(),
                    },
                    table_ends,
                })
            }
            Some(next) => {
                let table_ends = at + self.policy.bridge();
                Ok(Grant {
                    number,
                    task,
                    life,
                    lease: Lease {
                        kind: Kind::Bridge,
                        generation: next.generation(),
                        ranges: self.publication.bridge_keys(task)?,
                        ends: table_ends - self.policy.skew(),
                    },
                    table_ends,
                })
            }
        }
    }

    // Counts one more grant, and keeps its row.
    fn add_row(&mut self, row: Row, at: u64) -> Result<(), AllocError>
        requires low { self.old.last ≤ at }
        requires high { at < READINGS }
        requires number { row.number ≡ self.old.granted + 1 }
        requires spare { self.old.granted < MOST_GRANTS }
        requires generation { row.generation ≡ newest_of self.old.committed self.old.pending }
        requires runs { at < row.table_ends }
        ensures ok { OnOk result (self.new ≡ with_row self.old at row) }
        ensures err { OnErr result (self.new ≡ self.old) }
    {
        let deadline = later_of(self.deadline, row.table_ends);
        self.rows.push(row)?;
        self.granted += 1;
        self.deadline = deadline;
        self.last = at;
        self.sweep();
        Ok(())
    }

    // Removes rows that have ended, if a sweep is due.
    fn sweep(&mut self)
        ensures { self.new ≡ self.old }
    {
        if self.rows.is_sweep_due() {
            self.rows.keep_running(self.last);
        }
    }

    // Accepts a reading: rows that have ended at it no longer count.
    fn advance(&mut self, at: u64)
        requires low { self.old.last ≤ at }
        requires high { at < READINGS }
        ensures { self.new ≡ standing_at self.old at }
    {
        self.last = at;
    }
}

// The later of two deadlines.
fn later_of(deadline: u64, other: u64) -> u64
    ensures { result ≡ max deadline other }
{
    deadline.max(other)
}
