//! The stretches of each task of a job.

ghost use Rattle.std.specs.Prelude.{◌≡◌, ◌∷◌, [], ℕ, true, IfOk, OnOk};
ghost use Rattle.grants.specs.declared.slicelet_call.SliceletCall.{SliceletCall};
ghost use Rattle.machines.specs.Numbers.{is_within};
ghost use Rattle.job_calls.specs.Jobs.{Job};
ghost use Rattle.job_calls.specs.declared.call.ClusterCall.TheVariants as asked;
ghost use Rattle.job_calls.specs.declared.reply.ClusterReply.{ClusterReply};
ghost use Rattle.cluster.specs.Pasts.{Past, event, is_accepted, task_calls};
ghost use Rattle.cluster.specs.Clusters.{LeadsTo};
ghost use Rattle.stretches.specs.Tasks.{AreKept, AreKeptOn, AreTaskStretches, HasFewProcesses};

use crate::key_stretches::KeyStretches;
use crate::stretch::Stretch;
use cluster::{Cluster, place_of, told_law};
use grants::SliceletCall;
use job_calls::{ClusterCall, ClusterReply, Job};
use machines::Listed;
use slice_ranges::SliceKey;
use std::alloc::{AllocError, Global};

// Records a call that this task accepted.
fn observe_call(
    kept: &mut KeyStretches,
    cluster: &Cluster,
    task: u64,
    call: &SliceletCall,
) -> Result<(), AllocError>
    ensures { (job : Job) (past : Past) (key : ℕ) (told : ClusterReply) → is_accepted told ≡ true
        → LeadsTo job (event (asked.Task task call.now) told ∷ past) cluster.now → HasFewProcesses past
        → is_within task job.tasks ≡ true → AreKeptOn key task (task_calls task past) kept.old
        → OnOk result (AreKeptOn key task (task_calls task (event (asked.Task task call.now) told ∷ past)) kept.new) }
{
    cluster.run_law();
    told_law();
    if let SliceletCall::Resume { .. } = call {
        return kept.begin_process();
    }
    match cluster.slicelet(task) {
        Some(slicelet) => kept.observe(slicelet),
        None => Ok(()),
    }
}

/// The stretches of each task of a job on one key, from the calls that are known so far.
#[derive(Drop)]
pub struct JobStretches {
    pub(crate) tasks: Vec<KeyStretches>,
}

impl JobStretches {
    /// Returns the stretches of each task before its first call: there are none.
    pub fn new(alloc: Global, job: Job, key: SliceKey) -> Result<Self, AllocError>
        ensures { IfOk result (λ kept. AreKept job [] key kept) }
    {
        let mut tasks = Vec::new(alloc);
        for _place in 0..job.tasks() {
            tasks.push(KeyStretches::new(alloc, key))?;
        }
        Ok(JobStretches { tasks })
    }

    /// Records a call that the machines have answered; `cluster` is as it is after the call.
    ///
    /// The only error is out of memory. After it the stretches are not to be used.
    pub fn observe(
        &mut self,
        cluster: &Cluster,
        call: &ClusterCall,
        reply: &ClusterReply,
    ) -> Result<(), AllocError>
        ensures { (job : Job) (past : Past) (key : ℕ) → LeadsTo job (event call.now reply.now ∷ past) cluster.now
            → HasFewProcesses past → AreKept job past key self.old
            → OnOk result (AreKept job (event call.now reply.now ∷ past) key self.new) }
    {
        if let ClusterReply::Refused(_) = reply {
            return Ok(());
        }
        match call {
            ClusterCall::Task { task, call } => self.observe_task(cluster, *task, call),
            _ => Ok(()),
        }
    }

    // Records a call that a task accepted.
    fn observe_task(
        &mut self,
        cluster: &Cluster,
        task: u64,
        call: &SliceletCall,
    ) -> Result<(), AllocError>
        ensures { (job : Job) (past : Past) (key : ℕ) (told : ClusterReply) → is_accepted told ≡ true
            → LeadsTo job (event (asked.Task task call.now) told ∷ past) cluster.now
            → HasFewProcesses past → AreKept job past key self.old
            → OnOk result (AreKept job (event (asked.Task task call.now) told ∷ past) key self.new) }
    {
        match place_of(task, self.tasks.as_slice()) {
            Some(place) => observe_call(&mut self.tasks[place], cluster, task, call),
            None => Ok(()),
        }
    }

    /// Returns the stretches of each task in their order, if no other call comes.
    pub fn stretches(&self) -> Result<Vec<Listed<Stretch>>, AllocError>
        ensures { (job : Job) (past : Past) (key : ℕ) → AreKept job past key self.now
            → IfOk result (λ stretches. AreTaskStretches job past key stretches.items) }
    {
        let mut all = Vec::new(*self.tasks.allocator());
        for kept in self.tasks.as_slice() {
            all.push(Listed::from_vec(kept.stretches()?))?;
        }
        Ok(all)
    }
}
