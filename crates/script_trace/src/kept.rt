//! What is kept of the calls of a script's steps.

ghost use Rattle.std.specs.Prelude.{◌≡◌, ◌≢◌, ◌∷◌, ◌+◌, [], ℕ, List, Option, IfOk, OnOk, length, option_map};
ghost use Rattle.cluster.specs.ActorLists.{AreActors};
ghost use Rattle.cluster.specs.Clusters.{LeadsTo};
ghost use Rattle.cluster.specs.Pasts.{Past as Calls, event as call_event};
ghost use Rattle.job_calls.specs.Jobs.{Job};
ghost use Rattle.reasons.specs.Placed.{ArePlaces, Placed};
ghost use Rattle.replies.specs.declared.reply.Reply.TheVariants as replied;
ghost use Rattle.stretches.specs.Tasks.{AreWatched, HasFewProcesses, names_of};
ghost use Rattle.world.specs.Pasts.{Past, event};
ghost use Rattle.world.specs.Calls.{call_of, calls_in};
ghost use Rattle.world.specs.Runs.{IsReply};
ghost use Rattle.script_trace.specs.Handles.{AreHandlesOf, AreStretchesOf, given_by};
ghost use Rattle.script_trace.specs.internals.Asking.{task_call_in};
ghost use Rattle.script_trace.specs.internals.Keeping.{AreCallsKept, AreStretchesKept};

use crate::answered::answered;
use cluster::Cluster;
use job_calls::{ClusterCall, ClusterReply, Job};
use machines::Listed;
use reasons::CallPlaces;
use replies::Reply;
use slice_ranges::SliceKey;
use std::alloc::{AllocError, Global};
use stretches::{JobHandles, JobStretches, Stretch};
use world::Step;

/// Where tasks accepted calls, when they may serve a key, and when handles break.
#[derive(Drop)]
pub struct KeptCalls {
    pub(crate) places: CallPlaces,
    // Those of the key of the trace, if it has one.
    pub(crate) stretches: Option<JobStretches>,
    pub(crate) handles: JobHandles,
}

// Returns the stretches of a key before the first call, if there is a key.
fn new_stretches(
    alloc: Global,
    job: Job,
    key: Option<SliceKey>,
) -> Result<Option<JobStretches>, AllocError>
    ensures { IfOk result (λ kept. AreStretchesKept job [] key kept) }
{
    match key {
        Some(key) => {
            let stretches = JobStretches::new(alloc, job, key)?;
            Ok(Some(stretches))
        }
        None => Ok(None),
    }
}

// Records a call that the machines have answered.
fn observe_stretches(
    stretches: &mut Option<JobStretches>,
    cluster: &Cluster,
    call: &ClusterCall,
    reply: &ClusterReply,
) -> Result<(), AllocError>
    ensures { (job : Job) (calls : Calls) (key : Option ℕ) → LeadsTo job (call_event call.now reply.now ∷ calls) cluster.now
        → HasFewProcesses calls → AreStretchesKept job calls key stretches.old
        → OnOk result (AreStretchesKept job (call_event call.now reply.now ∷ calls) key stretches.new) }
{
    match stretches {
        Some(stretches) => stretches.observe(cluster, call, reply),
        None => Ok(()),
    }
}

impl KeptCalls {
    /// Creates what is kept before the first call.
    pub fn new(alloc: Global, job: Job, key: Option<SliceKey>) -> Result<Self, AllocError>
        ensures { IfOk result (AreCallsKept job key []) }
    {
        let places = CallPlaces::new(alloc, job.tasks())?;
        let stretches = new_stretches(alloc, job, key)?;
        let handles = JobHandles::new(alloc, job)?;
        Ok(KeptCalls {
            places,
            stretches,
            handles,
        })
    }

    // Records a call at `place` that the machines have answered; `cluster` is as it is after it.
    fn observe(
        &mut self,
        cluster: &Cluster,
        place: u64,
        call: &ClusterCall,
        reply: &ClusterReply,
    ) -> Result<(), AllocError>
        ensures places { (many : ℕ) (placed : List Placed) → ArePlaces many placed self.old.places
            → OnOk result (ArePlaces many (record { place = place; event = call_event call.now reply.now } ∷ placed) self.new.places) }
        ensures stretches { (job : Job) (calls : Calls) (key : Option ℕ) → LeadsTo job (call_event call.now reply.now ∷ calls) cluster.now
            → HasFewProcesses calls → AreStretchesKept job calls key self.old.stretches
            → OnOk result (AreStretchesKept job (call_event call.now reply.now ∷ calls) key self.new.stretches) }
        ensures named { OnOk result (names_of self.new.handles.tasks.items ≡ names_of self.old.handles.tasks.items) }
        ensures breaks { (job : Job) (calls : Calls) → LeadsTo job (call_event call.now reply.now ∷ calls) cluster.now
            → HasFewProcesses calls → AreWatched job calls self.old.handles
            → OnOk result (AreWatched job (call_event call.now reply.now ∷ calls) self.new.handles) }
    {
        self.places.add(place, call, reply)?;
        observe_stretches(&mut self.stretches, cluster, call, reply)?;
        self.handles.observe(cluster, call, reply);
        Ok(())
    }

    // Records the handle that a step was given, if it was; `cluster` is as it is after the step.
    fn give(&mut self, cluster: &Cluster, step: &Step, reply: &Reply) -> Result<(), AllocError>
        ensures places { self.new.places ≡ self.old.places }
        ensures stretches { self.new.stretches ≡ self.old.stretches }
        ensures handles { (job : Job) (past : Past) → LeadsTo job (calls_in job (event step.now reply.now ∷ past)) cluster.now
            → IsReply job past (event step.now reply.now)
            → AreWatched job (calls_in job (event step.now reply.now ∷ past)) self.old.handles
            → AreActors (given_by past) job.tasks (names_of self.old.handles.tasks.items)
            → OnOk result (AreHandlesOf job (event step.now reply.now ∷ past) self.new.handles) }
    {
        let Step::Hold { task, at, .. } = step else {
            return Ok(());
        };
        let Reply::Holding { number, handle } = reply else {
            return Ok(());
        };
        self.handles.give(cluster, *task, *number, *handle, *at)
    }

    /// Records the step of this number that was just played, with its reply.
    ///
    /// `cluster` is as it is after the step, and `task_call` the call that changed what a task
    /// holds, if the step made one. The only error is out of memory. After it, what is kept is not
    /// to be used.
    pub fn keep(
        &mut self,
        cluster: &Cluster,
        number: u64,
        step: &Step,
        task_call: &Option<ClusterCall>,
        reply: &Reply,
    ) -> Result<(), AllocError>
        ensures { (job : Job) (key : Option ℕ) (past : Past) → LeadsTo job (calls_in job (event step.now reply.now ∷ past)) cluster.now
            → IsReply job past (event step.now reply.now) → reply.now ≢ replied.NoMemory → number ≡ length past + 1
            → task_call.now ≡ task_call_in (call_of job past (calls_in job past) step.now)
            → AreCallsKept job key past self.old
            → OnOk result (AreCallsKept job key (event step.now reply.now ∷ past) self.new) }
    {
        match task_call {
            Some(call) => {
                let answer = answered(reply)?;
                self.observe(cluster, number, call, &answer)
            }
            None => self.give(cluster, step, reply),
        }
    }

    /// Returns the stretches of each task in their order, if there is a key.
    pub fn stretches(&self) -> Result<Option<Vec<Listed<Stretch>>>, AllocError>
        ensures { (job : Job) (past : Past) (key : Option ℕ) → AreStretchesKept job (calls_in job past) key self.now.stretches
            → IfOk result (λ stretches. AreStretchesOf job past key (option_map (λ tasks. tasks.items) stretches)) }
    {
        match &self.stretches {
            Some(kept) => {
                let stretches = kept.stretches()?;
                Ok(Some(stretches))
            }
            None => Ok(None),
        }
    }
}
