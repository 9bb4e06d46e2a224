//! What the machines of a job stand at.

ghost use Rattle.std.specs.Prelude.{◌≡◌, IfOk};
ghost use Rattle.machines.specs.Refusals.{first_of};
ghost use Rattle.job_calls.specs.Snapshots.{resume_checks, AreSame};

use crate::copies::{assignment_copies, clerk_copies, grant_copies};
use crate::job::Job;
use assignment::Assignment;
use clerk::Clerk;
use grants::{Grant, ReleaseNote, SliceletCall, SnapshotFault, TableSnapshot};
use key_handle::KeyHandle;
use machines::{Duplicate, Listed};
use std::alloc::{AllocError, Global};

/// The most notes, and the most handles, that the machines of a snapshot made, 2^62.
pub const MOST_MADE: u64 = 1 << 62;

/// What the slicelet of a task stands at, told by the calls that lead there.
#[derive(Debug, Drop)]
pub struct TaskSnapshot {
    /// The greatest life of earlier processes of the task; 0 if there was none.
    pub life: u32,
    /// The calls that the slicelet accepted in this process, in order.
    pub calls: Listed<SliceletCall>,
}

/// What the machines of a job stand at, and what is remembered of all that they made.
///
/// What was made and is not remembered is forgotten: a call that delivers it is refused as not sent.
#[derive(Drop)]
pub struct ClusterSnapshot {
    /// The table.
    pub table: TableSnapshot,
    /// The tasks, by their numbers.
    pub tasks: Vec<TaskSnapshot>,
    /// The clerks, by their numbers.
    pub clerks: Vec<Clerk>,
    /// The grants that are remembered: those with the last numbers, in order.
    pub grants: Vec<Grant>,
    /// The assignments that are remembered: those of the last generations, in order, also one that
    /// is proposed.
    pub assignments: Vec<Assignment>,
    /// The notes that are remembered.
    pub notes: Vec<ReleaseNote>,
    /// The handles that are remembered.
    pub handles: Vec<KeyHandle>,
    /// How many notes were made.
    pub notes_made: u64,
    /// How many handles were returned.
    pub handles_made: u64,
    /// The greatest reading of the table's clock, in ticks, also of a refused call; 0 if there is
    /// none.
    pub table_reading: u64,
}

/// Why no machines of a job stand at a snapshot, in the order of the checks.
#[derive(Clone, Copy, Debug, PartialEq, Eq)]
pub enum ResumeFault {
    /// No table stands at the values: the first fault of theirs.
    Table(SnapshotFault),
    /// The number of tasks is not that of the job.
    Tasks,
    /// The number of clerks is not that of the job.
    Clerks,
    /// More grants are remembered than were made.
    Grants,
    /// More assignments are remembered than there are generations.
    Assignments,
    /// More than 2^62 notes or handles were made.
    Counts,
    /// The calls of a task are none that a slicelet accepts.
    TaskCalls,
}

impl TaskSnapshot {
    /// Returns a copy: the same life and calls. The only error is out of memory.
    pub fn copy(&self) -> Result<Self, AllocError>
        ensures { IfOk result (λ copied. copied ≡ self.now) }
    {
        Ok(TaskSnapshot {
            life: self.life,
            calls: self.calls.copy()?,
        })
    }
}

// Returns copies of these tasks' snapshots.
fn task_copies(alloc: Global, tasks: &[TaskSnapshot]) -> Result<Vec<TaskSnapshot>, AllocError>
    ensures { IfOk result (λ copies. copies.items ≡ tasks.now) }
{
    let mut copies = Vec::new(alloc);
    for task in tasks {
        copies.push(task.copy()?)?;
    }
    Ok(copies)
}

impl ClusterSnapshot {
    /// Returns why no machines of this job stand at the snapshot: the first [`ResumeFault`] that
    /// holds, but for `TaskCalls`, or `None`.
    pub fn fault(&self, job: Job) -> Option<ResumeFault>
        ensures { result ≡ first_of (resume_checks job self.now) }
    {
        if let Some(fault) = self.table.fault(job.policy()) {
            return Some(ResumeFault::Table(fault));
        }
        if self.tasks.len() as u64 != job.tasks() {
            return Some(ResumeFault::Tasks);
        }
        if self.clerks.len() as u64 != job.clerks() {
            return Some(ResumeFault::Clerks);
        }
        if self.table.kept.granted < self.grants.len() as u64 {
            return Some(ResumeFault::Grants);
        }
        if self.table.newest_generation() < self.assignments.len() as u64 {
            return Some(ResumeFault::Assignments);
        }
        if self.notes_made > MOST_MADE || self.handles_made > MOST_MADE {
            return Some(ResumeFault::Counts);
        }
        None
    }

    /// Returns a copy: the same values in the same lists. The only error is out of memory.
    pub fn copy(&self) -> Result<Self, AllocError>
        ensures { IfOk result (λ copied. AreSame copied self.now) }
    {
        let alloc = *self.grants.allocator();
        Ok(ClusterSnapshot {
            table: self.table.copy()?,
            tasks: task_copies(alloc, self.tasks.as_slice())?,
            clerks: clerk_copies(alloc, self.clerks.as_slice())?,
            grants: grant_copies(alloc, self.grants.as_slice())?,
            assignments: assignment_copies(alloc, self.assignments.as_slice())?,
            notes: Vec::from_slice(alloc, self.notes.as_slice())?,
            handles: Vec::from_slice(alloc, self.handles.as_slice())?,
            notes_made: self.notes_made,
            handles_made: self.handles_made,
            table_reading: self.table_reading,
        })
    }
}
