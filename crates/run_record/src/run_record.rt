//! The record of a run.

ghost use Rattle.std.specs.Prelude.{◌≡◌, ℕ, [], ◌∷◌, IfOk};
ghost use Rattle.grants.specs.declared.slicelet_call.SliceletCall.{SliceletCall};
ghost use Rattle.clerk.specs.declared.call.ClerkCall.{ClerkCall};
ghost use Rattle.job_calls.specs.declared.call.ClusterCall.TheVariants as asked;
ghost use Rattle.job_calls.specs.declared.error.ClusterError.{ClusterError};
ghost use Rattle.job_calls.specs.declared.reply.ClusterReply.TheVariants as reply;
ghost use Rattle.cluster.specs.continued.Clusters as continued_cluster;
ghost use Rattle.cluster.specs.continued.Jobs.{Continued, job_in};
ghost use Rattle.cluster.specs.continued.Runs as continued;
ghost use Rattle.cluster.specs.continued.Snapshots.{IsSnapshotOf};
ghost use Rattle.job_calls.specs.Jobs.{Job as JobTerms};
ghost use Rattle.cluster.specs.Pasts.{Past, event};
ghost use Rattle.cluster.specs.Runs.{IsRun};
ghost use Rattle.run_record.specs.Records.{HasParts, IsRecordOf, IsTakenOver, RemembersMore};

use crate::actors::{clerk_copies, new_clerks, new_tasks, record_clerk, record_task, task_copies};
use crate::made::{
    assignment_copies, handles_in, last_of, record_grant, record_handle, record_notes,
    record_proposal,
};
use crate::reading::greater_reading;
use assignment::Assignment;
use clerk::Clerk;
use cluster::{Cluster, KnownHandle};
use grants::{Grant, ReleaseNote};
use indexmap::IndexSet;
use job_calls::{ClusterCall, ClusterReply, ClusterSnapshot, Job, TaskSnapshot};
use std::alloc::{AllocError, Global};

/// A record of a run, kept beside its machines: what a snapshot of them has and they do not show.
///
/// It has the calls of each task's process, a copy of each clerk, what the run made since the record
/// began, the handles that were checked since, and the greatest reading of the table's clock.
#[derive(Drop)]
pub struct RunRecord {
    alloc: Global,
    tasks: Vec<TaskSnapshot>,
    clerks: Vec<Clerk>,
    // What is remembered, in the order in which it was made.
    grants: Vec<Grant>,
    assignments: Vec<Assignment>,
    notes: Vec<ReleaseNote>,
    handles: IndexSet<KnownHandle>,
    // The greatest reading of the table's clock, 0 if there is none.
    table_reading: u64,
}

impl RunRecord {
    /// Creates the record of a job's run before its first call. The only error is out of memory.
    pub fn new(alloc: Global, job: Job) -> Result<Self, AllocError>
        ensures { IfOk result (λ run. IsRecordOf job [] run) }
    {
        Ok(RunRecord {
            alloc,
            tasks: new_tasks(alloc, job)?,
            clerks: new_clerks(alloc, job)?,
            grants: Vec::new(alloc),
            assignments: Vec::new(alloc),
            notes: Vec::new(alloc),
            handles: IndexSet::new(alloc),
            table_reading: 0,
        })
    }

    /// Creates the record of the run that led to a snapshot.
    ///
    /// It takes over the tasks, the clerks, the greatest reading of the table's clock, and the
    /// assignments from the committed one on. The other assignments and all grants, notes and handles
    /// are left out: a later snapshot does not remember them. The only error is out of memory.
    pub fn of(alloc: Global, snapshot: &ClusterSnapshot) -> Result<Self, AllocError>
        ensures leads { (job : JobTerms) (past : Past) → IsSnapshotOf job past snapshot.now → IfOk result (λ run. IsRecordOf job past run) }
        ensures kept { IfOk result (λ run. IsTakenOver snapshot.now run) }
    {
        let kept = &snapshot.table.kept;
        let in_force = kept.committed.is_some() as usize + kept.pending.is_some() as usize;
        let assignments = last_of(in_force, snapshot.assignments.as_slice());
        Ok(RunRecord {
            alloc,
            tasks: task_copies(alloc, snapshot.tasks.as_slice())?,
            clerks: clerk_copies(alloc, snapshot.clerks.as_slice())?,
            grants: Vec::new(alloc),
            assignments: assignment_copies(alloc, assignments)?,
            notes: Vec::new(alloc),
            handles: IndexSet::new(alloc),
            table_reading: snapshot.table_reading,
        })
    }

    /// Records the next call of the run and its reply.
    ///
    /// The only error is out of memory; then the record is gone.
    pub fn record(mut self, call: &ClusterCall, reply: &ClusterReply) -> Result<Self, AllocError>
        ensures leads { (job : Continued) (past : Past) → IsRecordOf (job_in job) past self → continued.IsReply job past (event call.now reply.now)
            → IfOk result (λ run. IsRecordOf (job_in job) (event call.now reply.now ∷ past) run) }
        ensures more { IfOk result (λ run. RemembersMore call.now reply.now self run) }
    {
        record_task(self.alloc, &mut self.tasks, call, reply)?;
        record_clerk(&mut self.clerks, call, reply)?;
        record_grant(&mut self.grants, call, reply)?;
        record_proposal(&mut self.assignments, call, reply)?;
        record_notes(&mut self.notes, call, reply)?;
        record_handle(&mut self.handles, call, reply)?;
        self.table_reading = greater_reading(call.reading(), self.table_reading);
        Ok(self)
    }

    /// States that a refused call of a task or of a clerk changes nothing that is recorded.
    pub fn refused_law(&self)
        ensures task { (job : Continued) (past : Past) (task : ℕ) (c : SliceletCall) (why : ClusterError) → IsRecordOf (job_in job) past self.now
            → IsRecordOf (job_in job) (event (asked.Task task c) (reply.Refused why) ∷ past) self.now }
        ensures clerk { (job : Continued) (past : Past) (clerk : ℕ) (c : ClerkCall) (why : ClusterError) → IsRecordOf (job_in job) past self.now
            → IsRecordOf (job_in job) (event (asked.Clerk clerk c) (reply.Refused why) ∷ past) self.now }
    {}

    /// Returns the snapshot of the machines after the run.
    ///
    /// It remembers what the record does. The only error is out of memory.
    pub fn finish(self, machines: &Cluster) -> Result<ClusterSnapshot, AllocError>
        ensures leads { (job : Continued) (past : Past) → continued_cluster.LeadsTo job past machines.now
            → IsRun (job_in job) past → IsRecordOf (job_in job) past self
            → IfOk result (λ snapshot. IsSnapshotOf (job_in job) past snapshot) }
        ensures parts { IfOk result (λ snapshot. HasParts self snapshot) }
    {
        let table = machines.table().snapshot()?;
        Ok(ClusterSnapshot {
            table,
            tasks: self.tasks,
            clerks: self.clerks,
            grants: self.grants,
            assignments: self.assignments,
            notes: self.notes,
            handles: handles_in(self.alloc, &self.handles)?,
            notes_made: machines.next_note().saturating_sub(1),
            handles_made: machines.next_handle().saturating_sub(1),
            table_reading: self.table_reading,
        })
    }
}
