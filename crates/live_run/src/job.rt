//! The sizes of a live run.

ghost use Rattle.std.specs.Prelude.{◌≡◌, ◌≤◌, is_some, IfSome};
ghost use Rattle.live_run.specs.LiveJobs.{is_live_job, live_policy, live_sizes, played_job};

use grants::Policy;
use job_calls::Job;
use std::marker::Model;

/// The largest number of tasks in a live run.
pub const MOST_TASKS: u64 = 6;

/// The largest number of workers of each task of a live run.
pub const MOST_WORKERS: u32 = 7;

/// The largest number of generations that a live run commits.
pub const MOST_ROUNDS: u64 = 16;

/// The largest number of keys that each worker asks for.
pub const MOST_ASKS: u32 = 1000;

/// The reading in a call or question that is made at its ticket, which replaces it.
pub(crate) const TICKET: u64 = 0;

/// How often a thread reads the table while it waits for one thing.
pub(crate) const TURNS: u64 = 1_000_000;

/// The one assigner of a live run.
pub(crate) const ASSIGNER: u64 = 1;

/// The one life of each task.
pub(crate) const LIFE: u32 = 1;

/// How many ticks each lease of a live run and its job lease last, and how many grants there may
/// be.
const LONG: u64 = 1 << 32;

/// Returns the policy of the table of a live run and its leases.
pub(crate) fn live_policy() -> Policy
    ensures { result ≡ live_policy }
{
    Policy::new(1, 1, 0, LONG, LONG, LONG, LONG).unwrap()
}

/// The sizes of a live run: its tasks, their workers, the generations and the asks.
///
/// Contracts see these sizes.
#[derive(Clone, Copy, Debug, PartialEq, Eq)]
pub struct LiveJob {
    tasks: u64,
    workers: u32,
    rounds: u64,
    asks: u32,
}

impl Model for LiveJob {
    ghost use Rattle.std.specs.Prelude.{◌≡◌, true};
    ghost use Rattle.live_run.specs.LiveJobs.{LiveSizes, is_live_job, live_sizes};

    ghost Value = { LiveSizes };

    ghost view = { λ j. live_sizes j.tasks j.workers j.rounds j.asks };

    ghost invariant = { λ j. is_live_job (live_sizes j.tasks j.workers j.rounds j.asks) ≡ true };

    ghost inverse = { λ s. record { tasks = s.tasks; workers = s.workers; rounds = s.rounds; asks = s.asks } };
}

impl LiveJob {
    /// Creates the sizes of a live run, or returns `None` if one is outside its range.
    ///
    /// A live run has 1 to 6 tasks with 1 to 7 workers each, and commits 1 to 16 generations while
    /// each worker asks for 1 to 1,000 keys.
    pub fn new(tasks: u64, workers: u32, rounds: u64, asks: u32) -> Option<Self>
        ensures valid { is_some result ≡ is_live_job (live_sizes tasks workers rounds asks) }
        ensures value { IfSome result (λ job. job ≡ live_sizes tasks workers rounds asks) }
    {
        let within = |number: u64, most: u64| 1 <= number && number <= most;
        if within(tasks, MOST_TASKS)
            && within(u64::from(workers), u64::from(MOST_WORKERS))
            && within(rounds, MOST_ROUNDS)
            && within(u64::from(asks), u64::from(MOST_ASKS))
        {
            Some(LiveJob {
                tasks,
                workers,
                rounds,
                asks,
            })
        } else {
            None
        }
    }

    /// Returns the number of tasks, from 1 to 6.
    pub fn tasks(self) -> u64
        ensures value { result ≡ self.tasks }
        ensures within { (1 ≤ result) × (result ≤ 6) }
    {
        self.tasks
    }

    /// Returns the number of workers of each task, from 1 to 7.
    pub fn workers(self) -> u32
        ensures value { result ≡ self.workers }
        ensures within { (1 ≤ result) × (result ≤ 7) }
    {
        self.workers
    }

    /// Returns the number of generations to commit, from 1 to 16.
    pub fn rounds(self) -> u64
        ensures value { result ≡ self.rounds }
        ensures within { (1 ≤ result) × (result ≤ 16) }
    {
        self.rounds
    }

    /// Returns the number of keys that each worker asks for, from 1 to 1,000.
    pub fn asks(self) -> u32
        ensures value { result ≡ self.asks }
        ensures within { (1 ≤ result) × (result ≤ 1000) }
    {
        self.asks
    }

    /// Returns the job whose machines the threads play: one assigner, the tasks, and one clerk.
    pub fn played(self) -> Job
        ensures { result ≡ played_job self }
    {
        Job::new(live_policy(), 1, self.tasks, 1).unwrap()
    }
}
