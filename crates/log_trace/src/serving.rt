//! When tasks may serve a key by the calls of a log, and when handles break.

ghost use Rattle.std.specs.Prelude.{◌≡◌, ◌∷◌, ◌+◌, [], ℕ, true, false, Option, IfOk, OnOk, length, option_map};
ghost use Rattle.cluster.specs.ActorLists.{AreActors};
ghost use Rattle.cluster.specs.Clusters.{LeadsTo};
ghost use Rattle.cluster.specs.Made.{handles_made};
ghost use Rattle.cluster.specs.Pasts.{Past, event};
ghost use Rattle.cluster.specs.continued.Jobs.{from_start};
ghost use Rattle.job_calls.specs.Jobs.{Job};
ghost use Rattle.log_run.specs.Calls.{call_after};
ghost use Rattle.log_run.specs.internals.Machines.{HavePlayed};
ghost use Rattle.stretches.specs.Tasks.{AreWatched, HasFewProcesses, names_of};
ghost use Rattle.log_trace.specs.Serving.{AreHandlesOf, AreStretchesOf, IsServing, given_by};
ghost use Rattle.log_trace.specs.internals.Making.{IsHeardBy, is_single};
ghost use Rattle.log_trace.specs.internals.Watching.{AreStretchesKept, IsKeptAfter, IsServingKept};

use crate::making::is_single;
use crate::placing::heard_by;
use cluster::Cluster;
use job_calls::{ClusterCall, ClusterReply, Job};
use log_line::{LogEntry, LoggedCall};
use log_run::{LogMachines, Start, play, tell};
use machines::Listed;
use slice_ranges::SliceKey;
use std::alloc::{AllocError, Global};
use stretches::{JobHandles, JobStretches, Stretch};

/// When the tasks of a job may serve a key, and when the handles that they gave break.
#[derive(Drop)]
pub struct LogServing {
    /// If there is a key: for each task the stretches in which it may serve the key.
    pub stretches: Option<Vec<Listed<Stretch>>>,
    /// The handles that tasks gave, and when each breaks.
    pub handles: JobHandles,
}

/// The stretches of a key, if there is one, and the handles, after some calls.
#[derive(Drop)]
pub struct ServingKept {
    pub(crate) stretches: Option<JobStretches>,
    pub(crate) handles: JobHandles,
}

// Returns the stretches of a key before the first call, if there is a key.
fn new_stretches(
    alloc: Global,
    job: Job,
    key: Option<SliceKey>,
) -> Result<Option<JobStretches>, AllocError>
    ensures { IfOk result (λ kept. AreStretchesKept job [] key kept) }
{
    match key {
        Some(key) => {
            let stretches = JobStretches::new(alloc, job, key)?;
            Ok(Some(stretches))
        }
        None => Ok(None),
    }
}

// Records a call that the machines have answered.
fn observe_stretches(
    stretches: &mut Option<JobStretches>,
    cluster: &Cluster,
    call: &ClusterCall,
    answer: &ClusterReply,
) -> Result<(), AllocError>
    ensures { (job : Job) (past : Past) (key : Option ℕ) → LeadsTo job (event call.now answer.now ∷ past) cluster.now
        → HasFewProcesses past → AreStretchesKept job past key stretches.old
        → OnOk result (AreStretchesKept job (event call.now answer.now ∷ past) key stretches.new) }
{
    match stretches {
        Some(stretches) => stretches.observe(cluster, call, answer),
        None => Ok(()),
    }
}

// Records the handle of this number, if a call was given one; `cluster` is as it is after the call.
fn give(
    handles: &mut JobHandles,
    cluster: &Cluster,
    number: u64,
    call: &ClusterCall,
    answer: &ClusterReply,
) -> Result<(), AllocError>
    ensures { (job : Job) (past : Past) → LeadsTo job (event call.now answer.now ∷ past) cluster.now
        → number ≡ length (handles_made past) + 1
        → AreWatched job (event call.now answer.now ∷ past) handles.old
        → AreActors (given_by past) job.tasks (names_of handles.old.tasks.items)
        → OnOk result (AreHandlesOf job (event call.now answer.now ∷ past) handles.new) }
{
    cluster.run_law();
    let ClusterCall::Hold { task, at, .. } = call else {
        return Ok(());
    };
    let ClusterReply::Holding(handle) = answer else {
        return Ok(());
    };
    handles.give(cluster, *task, number, *handle, *at)
}

impl ServingKept {
    // Creates what is kept before the first call.
    fn new(alloc: Global, job: Job, key: Option<SliceKey>) -> Result<Self, AllocError>
        ensures { IfOk result (IsServingKept job key []) }
    {
        let stretches = new_stretches(alloc, job, key)?;
        let handles = JobHandles::new(alloc, job)?;
        Ok(ServingKept { stretches, handles })
    }

    // Records a call that the machines have answered; `cluster` is as it is after it, and `number`
    // is that of the next handle before it.
    fn observe(
        &mut self,
        cluster: &Cluster,
        number: u64,
        call: &ClusterCall,
        answer: &ClusterReply,
    ) -> Result<(), AllocError>
        ensures { (job : Job) (key : Option ℕ) (past : Past) → LeadsTo job (event call.now answer.now ∷ past) cluster.now
            → HasFewProcesses past → number ≡ length (handles_made past) + 1 → IsServingKept job key past self.old
            → OnOk result (IsServingKept job key (event call.now answer.now ∷ past) self.new) }
    {
        observe_stretches(&mut self.stretches, cluster, call, answer)?;
        self.handles.observe(cluster, call, answer);
        give(&mut self.handles, cluster, number, call, answer)
    }

    // Records the one call that a line stands for, which the machines have answered.
    //
    // `cluster` is as it is after the call, and `heard` is what [`heard_by`] returned before it.
    fn observe_line(
        &mut self,
        cluster: &Cluster,
        number: u64,
        call: &LoggedCall,
        heard: &Option<ClusterCall>,
        answer: &ClusterReply,
    ) -> Result<(), AllocError>
        requires { is_single call.now ≡ true }
        ensures { (job : Job) (key : Option ℕ) (past : Past) → LeadsTo job (event (call_after past call.now) answer.now ∷ past) cluster.now
            → HasFewProcesses past → number ≡ length (handles_made past) + 1 → IsHeardBy (from_start job) past call.now heard.now
            → IsServingKept job key past self.old
            → OnOk result (IsServingKept job key (event (call_after past call.now) answer.now ∷ past) self.new) }
    {
        cluster.run_law();
        lease_table::numbers_law();
        match call {
            LoggedCall::Whole(call) => self.observe(cluster, number, call, answer),
            LoggedCall::HearBare { .. } => match heard {
                Some(heard) => self.observe(cluster, number, heard, answer),
                // A grant that the machines do not know is refused.
                None => Ok(()),
            },
            // No task takes the others.
            LoggedCall::LearnBare { .. } => Ok(()),
            LoggedCall::Restore(_) => Ok(()),
            LoggedCall::Sample(_) => Ok(()),
        }
    }

    // Plays the one call that a line stands for, and records it.
    fn keep_one(&mut self, machines: &mut LogMachines, call: &LoggedCall) -> Result<(), AllocError>
        requires { is_single call.now ≡ true }
        ensures { (job : Job) (key : Option ℕ) (past : Past) → HavePlayed (from_start job) past machines.old
            → HasFewProcesses past → IsServingKept job key past self.old
            → OnOk result (IsKeptAfter job key past call.now machines.new self.new) }
    {
        let cluster = machines.cluster();
        let heard = heard_by(cluster, call)?;
        let number = cluster.next_handle();
        let answer = play(machines, call)?;
        let after = machines.cluster();
        self.observe_line(after, number, call, &heard, &answer)?;
        Ok(())
    }

    // Plays what another line stands for: none of its calls is one of a task.
    fn keep_others(
        &mut self,
        machines: &mut LogMachines,
        call: &LoggedCall,
    ) -> Result<(), AllocError>
        requires { is_single call.now ≡ false }
        ensures { (job : Job) (key : Option ℕ) (past : Past) → HavePlayed (from_start job) past machines.old
            → IsServingKept job key past self.old → OnOk result (IsKeptAfter job key past call.now machines.new self.new) }
    {
        let _told = tell(machines, call)?;
        Ok(())
    }

    // Plays what a line stands for, and records it.
    fn keep(&mut self, machines: &mut LogMachines, call: &LoggedCall) -> Result<(), AllocError>
        ensures { (job : Job) (key : Option ℕ) (past : Past) → HavePlayed (from_start job) past machines.old
            → HasFewProcesses past → IsServingKept job key past self.old
            → OnOk result (IsKeptAfter job key past call.now machines.new self.new) }
    {
        if is_single(call) {
            self.keep_one(machines, call)
        } else {
            self.keep_others(machines, call)
        }
    }

    // Returns the stretches of each task in their order, if there is a key.
    fn stretches(&self) -> Result<Option<Vec<Listed<Stretch>>>, AllocError>
        ensures { (job : Job) (past : Past) (key : Option ℕ) → AreStretchesKept job past key self.now.stretches
            → IfOk result (λ stretches. AreStretchesOf job past key (option_map (λ tasks. tasks.items) stretches)) }
    {
        match &self.stretches {
            Some(kept) => {
                let stretches = kept.stretches()?;
                Ok(Some(stretches))
            }
            None => Ok(None),
        }
    }
}

/// Plays the entries of a log of a job from its first call on, and returns when each task may serve
/// the key, if there is one, and when the handles that tasks gave break.
///
/// `entries` are in the order of their tickets. The machines make each call, whatever its caller
/// got: of a log that is not one run, give those before the first wrong reply. The only error is out
/// of memory.
pub fn serving_of(
    alloc: Global,
    job: Job,
    entries: &[LogEntry],
    key: Option<SliceKey>,
) -> Result<LogServing, AllocError>
    ensures { IfOk result (IsServing job entries.now key) }
{
    let start = Start { job, earlier: None };
    let mut machines = LogMachines::new(alloc, &start, false)?;
    let mut kept = ServingKept::new(alloc, job, key)?;
    for index in 0..entries.len() {
        let entry = &entries[index];
        kept.keep(&mut machines, &entry.line.call)?;
    }
    machines.run_law();
    let stretches = kept.stretches()?;
    let ServingKept { handles, .. } = kept;
    Ok(LogServing { stretches, handles })
}
