//! Replies to steps.

ghost use Rattle.std.specs.Prelude.{◌≡◌};

use arrayvec::ArrayVec;
use assigner::Action;
use assignment::{AssignmentError, Owners, TaskId};
use clerk::{ClerkError, Found};
use grants::{Grant, JobTerm, Phase, ReleaseNote, Row, SliceletError, TableError};
use key_handle::KeyHandle;
use lease_rule::Verdict;
use load_ledger::LoadError;
use machines::{Duplicate, Listed};
use slice_ranges::{RangesError, SliceKey};
use std::alloc::AllocError;
use std::marker::Model;
use weighted_move::{Plan, PlanError};

/// Why a step is refused.
#[derive(Clone, Copy, Debug, PartialEq, Eq)]
pub enum Refusal {
    /// The job has no assigner, task or clerk with the number that the step names.
    NoActor,
    /// No grant, note, handle or published assignment with this number was made.
    NotSent,
    /// There is no draft.
    NoDraft,
    /// The slices make no assignment, for this reason.
    Slices(AssignmentError),
    /// The ranges of a lease make no set, for this reason.
    Ranges(RangesError),
    /// The table refuses the step, for this reason.
    Table(TableError),
    /// The task's slicelet refuses the step, for this reason.
    Slicelet(SliceletError),
    /// The task cannot have returned this handle.
    Stranger,
    /// The clerk refuses the step, for this reason.
    Clerk(ClerkError),
    /// The clerk knows no assignment.
    Unknown,
    /// The work cannot be counted, for this reason.
    Load(LoadError),
    /// There is no plan, for this reason.
    Plan(PlanError),
}

/// The list of the tasks that own a key. Contracts see the list.
#[derive(Debug, Drop)]
pub struct OwnerList {
    tasks: Owners,
}

impl Model for OwnerList {
    ghost use Rattle.std.specs.Prelude.{List, ℕ};

    ghost Value = { List ℕ };

    ghost view = { λ o. o.tasks.items };
}

impl OwnerList {
    /// Creates the list of these tasks.
    pub fn new(tasks: Owners) -> Self
        ensures { result ≡ tasks.items }
    {
        OwnerList { tasks }
    }

    /// Returns the tasks in order.
    pub fn as_slice(&self) -> &[TaskId]
        ensures { result.now ≡ self.now }
    {
        self.tasks.as_slice()
    }
}

impl Duplicate for OwnerList {
    fn copy(&self) -> Result<OwnerList, AllocError> {
        let mut tasks = ArrayVec::new();
        tasks.try_extend_from_slice(self.tasks.as_slice()).unwrap();
        Ok(OwnerList { tasks })
    }
}

/// The reply to a step.
#[derive(Debug, Drop)]
pub enum Reply {
    /// The slice key of the key.
    Key(SliceKey),
    /// The draft now has this generation and this number of slices.
    Assigned {
        generation: u64,
        slices: usize,
    },
    /// The owners of the key in the draft.
    Owners(OwnerList),
    /// What the written rule says of the key.
    Verdict(Verdict),
    /// The assigner took the job lease, with this term.
    Term(JobTerm),
    /// The assigner renewed the job lease, with this term.
    Renewed(JobTerm),
    /// The assignment of this generation is proposed.
    Proposed(u64),
    /// The assignment of this generation is committed and published.
    Committed(u64),
    /// The table's phase.
    Phase(Phase),
    /// The table's open rows.
    Rows(Listed<Row>),
    /// The table granted a lease.
    Granted(Grant),
    /// The table freed this number of rows.
    Freed(u64),
    /// The table restarted and lost this number of rows.
    Lost(u64),
    /// The task started this life.
    Started(u32),
    /// The task heard the grant with this number.
    Heard(u64),
    /// The task released a lease; `number` is the number of the note.
    Released {
        number: u64,
        note: ReleaseNote,
    },
    /// The task took a handle; `number` is the number of the handle.
    Holding {
        number: u64,
        handle: KeyHandle,
    },
    /// The task has held the handle's key ever since the handle was taken.
    Continuous,
    /// The task has not held the handle's key all the time.
    Broken,
    /// The clerk learnt the assignment of this generation.
    Learnt(u64),
    /// Who owns the key, as far as the clerk knows.
    Found(Found),
    /// The clerk forgot its assignment.
    Forgotten,
    /// The work is recorded; the value is the total of the task's records since the last gather.
    Recorded(u64),
    /// The load of each slice of the draft, and the total of each task of the job.
    Gathered {
        loads: Listed<u64>,
        totals: Listed<u64>,
    },
    /// A plan of the draft.
    Planned(Plan),
    /// What the assigner does next.
    Next(Action),
    /// The assigner dropped its term.
    TermDropped,
    /// The step is refused, for this reason, and changed nothing.
    Refused(Refusal),
    /// Memory ran out, and the step changed nothing.
    NoMemory,
}
