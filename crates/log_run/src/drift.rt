//! Whether the samples of task clocks show that the clocks of a job did not keep their drift.

ghost use Rattle.std.specs.Prelude.{◌≡◌, ℕ, [], ◌∷◌, List, IfOk, OnOk};
ghost use Rattle.clocks.specs.Pasts.{Past};
ghost use Rattle.log_run.specs.Drifts.{IsDriftFinding, begins, fault_of, past_begun, past_sampled, sample_in};
ghost use Rattle.log_run.specs.internals.Clocks.{AreClocks, IsFaultOf, ShowPasts, clock_in};

use clocks::{ClockRefusal, Drift, TaskClock};
use grants::SliceletCall;
use job_calls::ClusterCall;
use log_line::{LogEntry, LoggedCall, TaskSample};
use std::alloc::{AllocError, Global};
use std::collections::HashMap;

/// Why a sample shows that clocks did not keep their drift.
#[derive(Clone, Copy, Debug, PartialEq, Eq)]
pub enum ClockFault {
    /// The local clock is below an earlier reading of it.
    Back,
    /// The request is said to be sent after its answer was taken.
    SentAhead,
    /// By the samples before, the table's clock read at most this.
    Beyond(u64),
}

/// The first sample that shows that clocks did not keep their drift.
#[derive(Clone, Copy, Debug, PartialEq, Eq)]
pub struct DriftFault {
    /// The index of its entry, in the order of the tickets.
    pub index: usize,
    /// The sample.
    pub taken: TaskSample,
    /// What is wrong with it.
    pub why: ClockFault,
}

// Returns the sample that a call takes, if it takes one.
fn sample_in(call: &LoggedCall) -> Option<TaskSample>
    ensures { result ≡ sample_in call.now }
{
    match call {
        LoggedCall::Sample(taken) => Some(*taken),
        _ => None,
    }
}

// Returns the task of which a call begins a process, if it begins one.
fn begins(call: &LoggedCall) -> Option<u64>
    ensures { result ≡ begins call.now }
{
    match call {
        LoggedCall::Whole(
            ClusterCall::Task {
                task,
                call: SliceletCall::Resume { .. },
            },
        ) => Some(*task),
        _ => None,
    }
}

// Returns what is wrong with a sample that this clock takes next, if anything is.
fn fault_of(clock: TaskClock, taken: TaskSample) -> Option<ClockFault>
    ensures { result ≡ fault_of clock taken }
{
    let mut probe = clock;
    match probe.read(taken.now) {
        Err(ClockRefusal::LocalClockBack) => Some(ClockFault::Back),
        _ if taken.now < taken.sample.sent => Some(ClockFault::SentAhead),
        Ok(most) if most < taken.sample.reading => Some(ClockFault::Beyond(most)),
        _ => None,
    }
}

// The clocks of tasks, made from the samples of entries.
#[derive(Drop)]
struct TaskClocks {
    // A clock without samples.
    opening: TaskClock,
    by_task: HashMap<u64, TaskClock>,
}

impl TaskClocks {
    fn new(alloc: Global, drift: Drift) -> Self
        ensures { AreClocks drift [] result }
    {
        TaskClocks {
            opening: TaskClock::new(drift, u64::MAX),
            by_task: HashMap::new(alloc),
        }
    }

    // Returns the clock of a task.
    fn of(&self, task: u64) -> TaskClock
        ensures { result ≡ clock_in self.now task }
    {
        self.by_task.get(&task).copied().unwrap_or(self.opening)
    }

    // Returns what is wrong with the sample that a call takes, if anything is.
    fn fault(&self, index: usize, call: &LoggedCall) -> Option<DriftFault>
        ensures { (drift : Drift) (entries : List LogEntry) → AreClocks drift entries self.now
            → IsFaultOf drift entries call.now index result }
    {
        let taken = sample_in(call)?;
        let why = fault_of(self.of(taken.task), taken)?;
        Some(DriftFault { index, taken, why })
    }

    // Takes in that a process of a task begins.
    fn begin(&mut self, task: Option<u64>) -> Result<(), AllocError>
        ensures { (drift : Drift) (past : ℕ → Past) → ShowPasts drift past self.old
            → OnOk result (ShowPasts drift (λ by. past_begun by task (past by)) self.new) }
    {
        if let Some(task) = task {
            self.by_task.insert(task, self.opening)?;
        }
        Ok(())
    }

    // Takes in a sample.
    fn sample(&mut self, taken: Option<TaskSample>) -> Result<(), AllocError>
        ensures { (drift : Drift) (past : ℕ → Past) → ShowPasts drift past self.old
            → OnOk result (ShowPasts drift (λ by. past_sampled by taken (past by)) self.new) }
    {
        if let Some(taken) = taken {
            let TaskSample { task, sample, now } = taken;
            let mut clock = self.of(task);
            let _ = clock.sample(sample.sent, sample.reading, now);
            self.by_task.insert(task, clock)?;
        }
        Ok(())
    }

    // Takes in the call of an entry.
    fn take(&mut self, entry: &LogEntry) -> Result<(), AllocError>
        ensures { (drift : Drift) (entries : List LogEntry) → AreClocks drift entries self.old
            → OnOk result (AreClocks drift (entry.now ∷ entries) self.new) }
    {
        self.begin(begins(&entry.line.call))?;
        self.sample(sample_in(&entry.line.call))
    }
}

/// Finds the first sample that shows that clocks did not keep a drift, by the samples before it
/// that the same process of its task took.
pub fn drift_fault(
    alloc: Global,
    drift: Drift,
    entries: &[LogEntry],
) -> Result<Option<DriftFault>, AllocError>
    ensures { IfOk result (IsDriftFinding drift entries.now) }
{
    let mut clocks = TaskClocks::new(alloc, drift);
    for index in 0..entries.len() {
        let entry = &entries[index];
        if let Some(fault) = clocks.fault(index, &entry.line.call) {
            return Ok(Some(fault));
        }
        clocks.take(entry)?;
    }
    Ok(None)
}
