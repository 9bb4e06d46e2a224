//! The handles of each task of a job.

ghost use Rattle.std.specs.Prelude.{◌≡◌, ◌≤◌, ◌∷◌, ◌++◌, [], ℕ, length, map, true, IfOk, OnOk};
ghost use Rattle.machines.specs.Numbers.{is_within};
ghost use Rattle.job_calls.specs.Jobs.{Job};
ghost use Rattle.job_calls.specs.declared.call.ClusterCall.TheVariants as asked;
ghost use Rattle.job_calls.specs.declared.reply.ClusterReply.{ClusterReply};
ghost use Rattle.cluster.specs.Pasts.{Past, event, history, is_accepted, task_calls};
ghost use Rattle.cluster.specs.Clusters.{LeadsTo};
ghost use Rattle.stretches.specs.Breaks.{AreBreaks, named};
ghost use Rattle.stretches.specs.Tasks.{AreWatched, Each, HasFewProcesses, IsGivenBy, names_of};

use crate::breaks::TaskHandles;
use cluster::{Cluster, place_of, told_law};
use grants::SliceletCall;
use job_calls::{ClusterCall, ClusterReply, Job};
use key_handle::KeyHandle;
use std::alloc::{AllocError, Global};

// Records a call that this task accepted.
fn observe_call(kept: &mut TaskHandles, cluster: &Cluster, task: u64, call: &SliceletCall)
    ensures breaks { (job : Job) (past : Past) (told : ClusterReply) → is_accepted told ≡ true
        → LeadsTo job (event (asked.Task task call.now) told ∷ past) cluster.now → HasFewProcesses past
        → is_within task job.tasks ≡ true → AreBreaks task (task_calls task past) kept.old
        → AreBreaks task (task_calls task (event (asked.Task task call.now) told ∷ past)) kept.new }
    ensures named { map named kept.new.handles.items ≡ map named kept.old.handles.items }
{
    cluster.run_law();
    told_law();
    if let SliceletCall::Resume { .. } = call {
        kept.begin_process();
        return;
    }
    if let Some(slicelet) = cluster.slicelet(task) {
        kept.observe(slicelet);
    }
}

// Records a handle that this task gave.
fn give_one(
    kept: &mut TaskHandles,
    cluster: &Cluster,
    task: u64,
    number: u64,
    handle: KeyHandle,
    at: u64,
) -> Result<(), AllocError>
    ensures named { (job : Job) (past : Past) → LeadsTo job past cluster.now → is_within task job.tasks ≡ true
        → OnOk result (map named kept.new.handles.items ≡ map named kept.old.handles.items
        ++ record { number = number; process = kept.old.process; handle = handle; from = at; breaks = 0 } ∷ []) }
    ensures breaks { (job : Job) (past : Past) → LeadsTo job past cluster.now → (history task past).last ≤ at
        → is_within task job.tasks ≡ true → AreBreaks task (task_calls task past) kept.old
        → OnOk result (AreBreaks task (task_calls task past) kept.new) }
{
    cluster.run_law();
    told_law();
    match cluster.slicelet(task) {
        Some(slicelet) => kept.give(slicelet, number, handle, at),
        None => Ok(()),
    }
}

/// The handles that each task of a job gave, and when each breaks, from the calls that are known
/// so far.
#[derive(Drop)]
pub struct JobHandles {
    pub(crate) tasks: Vec<TaskHandles>,
}

impl JobHandles {
    /// Returns the handles of each task before its first call: there are none.
    pub fn new(alloc: Global, job: Job) -> Result<Self, AllocError>
        ensures none { IfOk result (λ kept. Each (λ task one. one.handles.items ≡ []) job.tasks kept.tasks.items) }
        ensures breaks { IfOk result (λ kept. AreWatched job [] kept) }
    {
        let mut tasks = Vec::new(alloc);
        for _place in 0..job.tasks() {
            tasks.push(TaskHandles::new(alloc))?;
        }
        Ok(JobHandles { tasks })
    }

    /// Records a call that the machines have answered; `cluster` is as it is after the call. The
    /// call takes no memory.
    pub fn observe(&mut self, cluster: &Cluster, call: &ClusterCall, reply: &ClusterReply)
        ensures named { names_of self.new.tasks.items ≡ names_of self.old.tasks.items }
        ensures breaks { (job : Job) (past : Past) → LeadsTo job (event call.now reply.now ∷ past) cluster.now
            → HasFewProcesses past → AreWatched job past self.old → AreWatched job (event call.now reply.now ∷ past) self.new }
    {
        if let ClusterReply::Refused(_) = reply {
            return;
        }
        match call {
            ClusterCall::Task { task, call } => self.observe_task(cluster, *task, call),
            _ => {}
        }
    }

    // Records a call that a task accepted.
    fn observe_task(&mut self, cluster: &Cluster, task: u64, call: &SliceletCall)
        ensures named { names_of self.new.tasks.items ≡ names_of self.old.tasks.items }
        ensures breaks { (job : Job) (past : Past) (told : ClusterReply) → is_accepted told ≡ true
            → LeadsTo job (event (asked.Task task call.now) told ∷ past) cluster.now
            → HasFewProcesses past → AreWatched job past self.old
            → AreWatched job (event (asked.Task task call.now) told ∷ past) self.new }
    {
        match place_of(task, self.tasks.as_slice()) {
            Some(place) => observe_call(&mut self.tasks[place], cluster, task, call),
            None => {}
        }
    }

    /// Records a handle that a task gave at the reading `at`, in ticks of its clock; `cluster` is as
    /// it is then. `number` is that of the handle among all that were given.
    ///
    /// The only error is out of memory.
    pub fn give(
        &mut self,
        cluster: &Cluster,
        task: u64,
        number: u64,
        handle: KeyHandle,
        at: u64,
    ) -> Result<(), AllocError>
        ensures named { (job : Job) (past : Past) → LeadsTo job past cluster.now → length self.old.tasks.items ≡ job.tasks
            → OnOk result (IsGivenBy task (record { number = number; process = 0; handle = handle; from = at; breaks = 0 })
            self.old.tasks.items self.new.tasks.items) }
        ensures breaks { (job : Job) (past : Past) → LeadsTo job past cluster.now → (history task past).last ≤ at
            → AreWatched job past self.old → OnOk result (AreWatched job past self.new) }
    {
        match place_of(task, self.tasks.as_slice()) {
            Some(place) => give_one(&mut self.tasks[place], cluster, task, number, handle, at),
            None => Ok(()),
        }
    }

    /// Returns the handles of each task, task 1 first.
    pub fn tasks(&self) -> &[TaskHandles]
        ensures { result.now ≡ self.now.tasks.items }
    {
        self.tasks.as_slice()
    }
}
