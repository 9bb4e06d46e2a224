//! Machines that go on from what they stand at.

ghost use Rattle.std.specs.Prelude.{◌≡◌, ◌≤◌, ◌^◌, length, IfOk, IfErr, OnOk, None};
ghost use Rattle.std.specs.List.{list_any};
ghost use Rattle.machines.specs.Refusals.{first_of};
ghost use Rattle.machines.specs.declared.machine.Trouble.TheVariants.{NoMemory};
ghost use Rattle.indexmap.specs.IndexSet.{contains};
ghost use Rattle.grants.specs.Snapshots.{snapshot_checks};
ghost use Rattle.lease_table.specs.Snapshots.{resumed_from};
ghost use Rattle.grants.specs.declared.values.ReleaseNote.{ReleaseNote as Note};
ghost use Rattle.key_handle.specs.declared.handle.KeyHandle.{KeyHandle as Handle};
ghost use Rattle.job_calls.specs.Snapshots.{resume_checks};
ghost use Rattle.cluster.specs.Pasts.{Past};
ghost use Rattle.cluster.specs.Made.{same_note, same_handle};
ghost use Rattle.cluster.specs.continued.Clusters as continued;
ghost use Rattle.cluster.specs.continued.Snapshots.{calls_in, continued_from, remembered_in, IsSnapshotOf, IsResumeTrouble};
ghost use Rattle.cluster.specs.internals.Resuming.{IsPlayedTo, IsRefused, AreResumed, AreRefused, StandsAt, counts_in};

use crate::cluster::Cluster;
use crate::counts::Counts;
use crate::known::{KnownHandle, KnownNote, insert_reserved};
use assignment::TaskId;
use grants::{Policy, ReleaseNote, SliceletError, TableSnapshot};
use indexmap::IndexSet;
use job_calls::{
    ClusterSnapshot, Job, ResumeFault, TaskSnapshot, assignment_copies, clerk_copies, grant_copies,
};
use key_handle::KeyHandle;
use lease_table::LeaseTable;
use machines::Trouble;
use slicelet::Slicelet;
use std::alloc::{AllocError, Global};

// Plays the calls of a task's process on a new slicelet.
fn resumed(
    alloc: Global,
    task: TaskId,
    snapshot: &TaskSnapshot,
) -> Result<Slicelet, Trouble<SliceletError>>
    ensures ok { IfOk result (λ slicelet. IsPlayedTo task (calls_in snapshot.now) slicelet) }
    ensures err { IfErr result (IsRefused task (calls_in snapshot.now)) }
{
    let mut slicelet = Slicelet::resume(alloc, task, snapshot.life);
    for call in snapshot.calls.as_slice() {
        slicelet.call(call)?;
    }
    Ok(slicelet)
}

// Plays the calls of all tasks of a job.
fn resumed_tasks(
    alloc: Global,
    job: Job,
    tasks: &[TaskSnapshot],
) -> Result<Vec<Slicelet>, Trouble<ResumeFault>>
    requires { length tasks.now ≡ job.tasks }
    ensures ok { IfOk result (λ slicelets. AreResumed job.tasks tasks.now slicelets.items) }
    ensures err { IfErr result (AreRefused tasks.now) }
{
    let mut slicelets = Vec::new(alloc);
    for place in 0..job.tasks() {
        let task = TaskId::new(place + 1).unwrap();
        match resumed(alloc, task, &tasks[place as usize]) {
            Ok(slicelet) => slicelets.push(slicelet)?,
            Err(Trouble::Refused(_)) => return Err(Trouble::Refused(ResumeFault::TaskCalls)),
            Err(Trouble::NoMemory) => return Err(Trouble::NoMemory),
        }
    }
    Ok(slicelets)
}

// Builds the table that stands at a snapshot without a fault.
fn resumed_table(
    alloc: Global,
    policy: Policy,
    snapshot: &TableSnapshot,
) -> Result<LeaseTable, AllocError>
    requires { first_of (snapshot_checks policy snapshot.now) ≡ None }
    ensures { IfOk result (λ table. table ≡ resumed_from snapshot.now) }
{
    match LeaseTable::resume(alloc, policy, snapshot.copy()?) {
        Ok(table) => Ok(table),
        Err(_) => Err(AllocError),
    }
}

// Returns the notes as a set.
fn known_notes(alloc: Global, notes: &[ReleaseNote]) -> Result<IndexSet<KnownNote>, AllocError>
    ensures { IfOk result (λ known. (note : Note) → contains same_note known note ≡ list_any (same_note note) notes.now) }
{
    let mut known = IndexSet::new(alloc);
    for note in notes {
        known.reserve(1)?;
        insert_reserved(&mut known, KnownNote::new(note));
    }
    Ok(known)
}

// Returns the handles as a set.
fn known_handles(alloc: Global, handles: &[KeyHandle]) -> Result<IndexSet<KnownHandle>, AllocError>
    ensures { IfOk result (λ known. (handle : Handle) → contains same_handle known handle ≡ list_any (same_handle handle) handles.now) }
{
    let mut known = IndexSet::new(alloc);
    for handle in handles {
        known.reserve(1)?;
        insert_reserved(&mut known, KnownHandle::new(handle));
    }
    Ok(known)
}

// Returns how much was made before what is kept: of notes and handles, all that the snapshot counts.
fn counts_in(job: Job, snapshot: &ClusterSnapshot) -> Counts
    requires { first_of (resume_checks job snapshot.now) ≡ None }
    ensures { result ≡ counts_in snapshot.now }
{
    let granted = snapshot.table.kept.granted;
    let newest = snapshot.table.newest_generation();
    Counts::new(
        granted - snapshot.grants.as_slice().len() as u64,
        snapshot.notes_made,
        snapshot.handles_made,
        newest - snapshot.assignments.as_slice().len() as u64,
    )
}

// Builds the machines of a job that stand at a snapshot without a fault, from their slicelets.
fn resumed_with(
    alloc: Global,
    job: Job,
    snapshot: &ClusterSnapshot,
    tasks: Vec<Slicelet>,
) -> Result<Cluster, AllocError>
    requires { first_of (resume_checks job snapshot.now) ≡ None }
    ensures { IfOk result (λ cluster. StandsAt job snapshot.now tasks.items cluster) }
{
    Ok(Cluster {
        alloc,
        job,
        table: resumed_table(alloc, job.policy(), &snapshot.table)?,
        tasks,
        clerks: clerk_copies(alloc, snapshot.clerks.as_slice())?,
        grants: grant_copies(alloc, snapshot.grants.as_slice())?,
        notes: Vec::new(alloc),
        handles: Vec::new(alloc),
        earlier: counts_in(job, snapshot),
        known_notes: known_notes(alloc, snapshot.notes.as_slice())?,
        known_handles: known_handles(alloc, snapshot.handles.as_slice())?,
        proposals: assignment_copies(alloc, snapshot.assignments.as_slice())?,
    })
}

impl Cluster {
    /// Builds the machines of a job that stand at a snapshot.
    ///
    /// If the snapshot is that of a run, they are the machines after this run. What the snapshot
    /// does not remember of it is forgotten: a call that delivers it is refused as not sent.
    ///
    /// # Errors
    ///
    /// The first [`ResumeFault`] that holds, in their order; then no machines of this job stand at
    /// the snapshot. Out of memory comes after all of them but `TaskCalls`. The snapshot of a run in
    /// which at most 2^62 notes and as many handles were made has no fault.
    pub fn resume(
        alloc: Global,
        job: Job,
        snapshot: &ClusterSnapshot,
    ) -> Result<Self, Trouble<ResumeFault>>
        ensures leads { (past : Past) → IsSnapshotOf job past snapshot.now
            → IfOk result (λ cluster. continued.LeadsTo (continued_from job past (remembered_in snapshot.now)) past cluster) }
        ensures accepted { OnOk result (first_of (resume_checks job snapshot.now) ≡ None) }
        ensures refused { IfErr result (IsResumeTrouble job snapshot.now) }
        ensures again { (past : Past) → IsSnapshotOf job past snapshot.now → snapshot.now.notes_made ≤ 2 ^ 62 → snapshot.now.handles_made ≤ 2 ^ 62
            → IfErr result (λ trouble. trouble ≡ NoMemory) }
    {
        grants::policy_law(job.policy());
        if let Some(fault) = snapshot.fault(job) {
            return Err(Trouble::Refused(fault));
        }
        let tasks = resumed_tasks(alloc, job, snapshot.tasks.as_slice())?;
        Ok(resumed_with(alloc, job, snapshot, tasks)?)
    }
}
