//! The values of a table that outlast its process.

ghost use Rattle.std.specs.Prelude.{◌≡◌, ◌+◌, ◌-◌, ◌<◌, true, min, IfOk, option_map};
ghost use Rattle.machines.specs.Refusals.{first_of};
ghost use Rattle.grants.specs.KeptValues.{Covers, kept_checks, has_assignment, can_grant};

mod checks;

use self::checks::{
    are_generations, has_many_owners, is_deadline, is_term, lease_term, longest_term, same_policy,
};
use crate::policy::{Policy, READINGS};
use crate::values::JobTerm;
use assignment::{Assignment, copy_of};
use machines::Duplicate;
use std::alloc::AllocError;

/// The kept values of a table: everything that must outlast its process.
///
/// Save them before the reply to a call that changed them leaves the process.
/// `LeaseTable::restore` restores the table from them. Ticks are those of the table's clock.
#[derive(Debug, Drop)]
pub struct Kept {
    /// The policy of the job.
    pub policy: Policy,
    /// The last accepted reading, in ticks; 0 before the first.
    pub last: u64,
    /// The last term of the job lease that was given, if any; it may have ended.
    pub term: Option<JobTerm>,
    /// The committed assignment, if there is one.
    pub committed: Option<Assignment>,
    /// The proposed assignment, if there is one.
    pub pending: Option<Assignment>,
    /// How many grants the table has made.
    pub granted: u64,
    /// The greatest deadline of all grants, in ticks, also of those that were freed; 0 if there was
    /// none.
    pub deadline: u64,
}

/// Why kept values are those of no table of a policy, in the order of the checks.
#[derive(Clone, Copy, Debug, PartialEq, Eq)]
pub enum KeptFault {
    /// The values are those of a job with another policy.
    OtherPolicy,
    /// The last reading is 2^62 ticks or more.
    ReadingRange,
    /// There is an assignment, but no term of the job lease was given.
    NoTerm,
    /// The term has number 0 or a number above its end, or it ends more than a job term
    /// (`Policy::job`) after the last reading.
    TermRange,
    /// The committed generation is 0, or the proposed generation is not the next one.
    Generation,
    /// A slice has more owners than the job allows (`Policy::high`).
    TooManyOwnersForJob,
    /// Grants were made, but no assignment is committed or proposed.
    NoAssignment,
    /// More grants were made than the job allows (`Policy::numbers`).
    TooManyGrants,
    /// The greatest deadline is 0 although grants were made, is above 0 although none was made, or
    /// is more than the longer of the terms `Policy::guard` and `Policy::bridge` after the last
    /// reading.
    DeadlineRange,
}

impl Duplicate for Kept {
    fn copy(&self) -> Result<Kept, AllocError> {
        Ok(Kept {
            policy: self.policy,
            last: self.last,
            term: self.term,
            committed: copy_of(self.committed.as_ref())?,
            pending: copy_of(self.pending.as_ref())?,
            granted: self.granted,
            deadline: self.deadline,
        })
    }
}

impl Kept {
    /// Returns why these values are those of no table of this policy: the first [`KeptFault`] that
    /// holds, or `None`.
    ///
    /// The values that a table keeps have no fault. Other values may have none either.
    pub fn fault(&self, policy: Policy) -> Option<KeptFault>
        ensures { result ≡ first_of (kept_checks policy self.now) }
    {
        if !same_policy(self.policy, policy) {
            return Some(KeptFault::OtherPolicy);
        }
        if self.last >= READINGS {
            return Some(KeptFault::ReadingRange);
        }
        if self.term.is_none() && self.has_assignment() {
            return Some(KeptFault::NoTerm);
        }
        if !is_term(self.last, self.policy.job(), &self.term) {
            return Some(KeptFault::TermRange);
        }
        if !are_generations(&self.committed, &self.pending) {
            return Some(KeptFault::Generation);
        }
        if has_many_owners(self.policy.high(), &self.committed)
            || has_many_owners(self.policy.high(), &self.pending)
        {
            return Some(KeptFault::TooManyOwnersForJob);
        }
        if self.granted > 0 && !self.has_assignment() {
            return Some(KeptFault::NoAssignment);
        }
        if self.granted > self.policy.numbers() {
            return Some(KeptFault::TooManyGrants);
        }
        let latest = self.last + longest_term(self.policy);
        if !is_deadline(latest, self.granted, self.deadline) {
            return Some(KeptFault::DeadlineRange);
        }
        None
    }

    /// Moves the values ahead of their table, so that its next grants need no save.
    ///
    /// The new values are those that the table would keep after `grants` more grants, or as many as
    /// the job still allows, at a reading `ticks` ticks after the last one, below 2^62. They cover
    /// the table while it only grants, as long as it has made fewer grants than the new values say
    /// and its last reading is at most the new one. A table restored from them accepts no earlier
    /// reading and gives none of these numbers.
    ///
    /// The values are unchanged if `grants` is 0, if the table cannot make a grant, or if their
    /// last reading is out of range.
    pub fn save_ahead(&mut self, grants: u64, ticks: u64)
        ensures covers { Covers self.old self.new }
        ensures ahead { can_grant self.old ≡ true → 0 < grants
            → (self.new.granted ≡ min (self.old.granted + grants) self.old.policy.numbers)
            × (self.new.last ≡ min (self.old.last + ticks) (READINGS - 1)) }
        ensures same { grants ≡ 0 → self.new ≡ self.old }
    {
        let more = grants.min(self.policy.numbers().saturating_sub(self.granted));
        if more == 0 || self.last >= READINGS || !self.has_assignment() {
            return;
        }
        let last = self.last.saturating_add(ticks).min(READINGS - 1);
        let ends = last + lease_term(self.policy, &self.pending);
        self.deadline = self.deadline.max(ends);
        self.granted += more;
        self.last = last;
    }

    // Whether an assignment is committed or proposed.
    fn has_assignment(&self) -> bool
        ensures { result ≡ has_assignment self.now }
    {
        self.committed.is_some() || self.pending.is_some()
    }
}
