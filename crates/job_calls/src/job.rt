//! What a job is made of.

ghost use Rattle.std.specs.Prelude.{◌≡◌, ◌≤◌, ◌&&◌, IfSome, is_some};
ghost use Rattle.grants.specs.Policies.{Terms};
ghost use Rattle.machines.specs.Numbers.{is_within};
ghost use Rattle.job_calls.specs.Jobs.{Job, job_of};

use assignment::TASKS;
use grants::Policy;
use std::marker::Model;

/// The largest number of assigners in a job.
pub const MOST_ASSIGNERS: u64 = 8;

/// The largest number of clerks in a job that [`Job::new`] makes.
pub const MOST_CLERKS: u64 = 16;

/// The largest number of clerks in a job that [`Job::with_clerks`] makes.
pub const MOST_LOGGED_CLERKS: u64 = 4096;

/// A job: its policy, and how many assigners, tasks and clerks it has.
#[derive(Clone, Copy, Debug, PartialEq, Eq)]
pub struct Job {
    policy: Policy,
    assigners: u64,
    tasks: u64,
    clerks: u64,
}

impl Model for Job {
    ghost use Rattle.std.specs.Prelude.{◌≡◌, true, ◌&&◌};
    ghost use Rattle.machines.specs.Numbers.{is_within};
    ghost use Rattle.job_calls.specs.Jobs.{Job as JobTerms, job_of};

    ghost Value = { JobTerms };

    ghost view = { λ j. job_of j.policy j.assigners j.tasks j.clerks };

    ghost invariant = { λ j. (is_within j.assigners 8 && is_within j.tasks 64 && is_within j.clerks 4096) ≡ true };

    ghost inverse = { λ t. record { policy = t.policy; assigners = t.assigners; tasks = t.tasks; clerks = t.clerks } };
}

impl Job {
    /// Creates a job with this policy and these numbers of actors, or returns `None`.
    ///
    /// A job has 1 to 8 assigners, 1 to 64 tasks and 1 to 16 clerks. `None` is returned if a number
    /// is outside its range.
    pub fn new(policy: Policy, assigners: u64, tasks: u64, clerks: u64) -> Option<Self>
        ensures valid { is_some result ≡ (is_within assigners 8 && is_within tasks 64 && is_within clerks 16) }
        ensures value { IfSome result (λ job. job ≡ job_of policy assigners tasks clerks) }
    {
        if clerks > MOST_CLERKS {
            return None;
        }
        Job::with_clerks(policy, assigners, tasks, clerks)
    }

    /// Creates a job as [`new`](Self::new) does, with 1 to 4,096 clerks.
    ///
    /// Jobs of services have that many: each client that is logged is a clerk.
    pub fn with_clerks(policy: Policy, assigners: u64, tasks: u64, clerks: u64) -> Option<Self>
        ensures valid { is_some result ≡ (is_within assigners 8 && is_within tasks 64 && is_within clerks 4096) }
        ensures value { IfSome result (λ job. job ≡ job_of policy assigners tasks clerks) }
    {
        let within = |number: u64, most: u64| 1 <= number && number <= most;
        if within(assigners, MOST_ASSIGNERS)
            && within(tasks, TASKS)
            && within(clerks, MOST_LOGGED_CLERKS)
        {
            Some(Job {
                policy,
                assigners,
                tasks,
                clerks,
            })
        } else {
            None
        }
    }

    /// Returns the policy of the table and its leases.
    pub fn policy(self) -> Policy
        ensures { result ≡ self.policy }
    {
        self.policy
    }

    /// Returns the number of assigners, from 1 to 8.
    pub fn assigners(self) -> u64
        ensures value { result ≡ self.assigners }
        ensures within { (1 ≤ result) × (result ≤ 8) }
    {
        self.assigners
    }

    /// Returns the number of tasks, from 1 to 64.
    pub fn tasks(self) -> u64
        ensures value { result ≡ self.tasks }
        ensures within { (1 ≤ result) × (result ≤ 64) }
    {
        self.tasks
    }

    /// Returns the number of clerks, from 1 to 4,096.
    pub fn clerks(self) -> u64
        ensures value { result ≡ self.clerks }
        ensures within { (1 ≤ result) × (result ≤ 4096) }
    {
        self.clerks
    }
}
