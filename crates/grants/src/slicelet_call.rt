//! The calls that change a slicelet, and their replies.

ghost use Rattle.std.specs.Prelude.{◌≡◌, IfOk};
ghost use Rattle.grants.specs.declared.policy.TheConstants.{MOST_GRANTS};
ghost use Rattle.grants.specs.SliceletCalls.{ended_notes};

use crate::policy::MOST_GRANTS;
use crate::values::{Grant, ReleaseNote};
use assignment::TaskId;
use lease_rule::Kind;
use machines::Duplicate;
use std::alloc::AllocError;

/// A call that may change a slicelet; `at` is a reading of the task's clock, in ticks.
#[derive(Debug, Drop)]
pub enum SliceletCall {
    /// The task starts a life.
    Start { life: u32, at: u64 },
    /// The task hears a grant.
    Hear { grant: Grant, at: u64 },
    /// The task gives up its lease of a kind.
    Release { kind: Kind, at: u64 },
    /// The task's process ended, and another one begins; `life` is the greatest life that the task
    /// ever started, or a greater one. The call reads no clock.
    Resume { life: u32 },
}

impl SliceletCall {
    ghost use Rattle.grants.specs.SliceletCalls.{clock_reading};

    /// Returns the reading of the call, in ticks; `None` for a `Resume`, which reads no clock.
    pub fn reading(&self) -> Option<u64>
        ensures { result ≡ clock_reading self.now }
    {
        match self {
            SliceletCall::Start { life: _, at } => Some(*at),
            SliceletCall::Hear { grant: _, at } => Some(*at),
            SliceletCall::Release { kind: _, at } => Some(*at),
            SliceletCall::Resume { life: _ } => None,
        }
    }
}

impl Duplicate for SliceletCall {
    fn copy(&self) -> Result<SliceletCall, AllocError> {
        match self {
            SliceletCall::Start { life, at } => Ok(SliceletCall::Start {
                life: *life,
                at: *at,
            }),
            SliceletCall::Hear { grant, at } => Ok(SliceletCall::Hear {
                grant: grant.copy()?,
                at: *at,
            }),
            SliceletCall::Release { kind, at } => Ok(SliceletCall::Release {
                kind: *kind,
                at: *at,
            }),
            SliceletCall::Resume { life } => Ok(SliceletCall::Resume { life: *life }),
        }
    }
}

/// The notes for the lease table that give back all leases of a life that ended with its process.
///
/// They close every row of this life. So the table need not wait until the leases end.
#[derive(Clone, Copy, Debug, PartialEq, Eq)]
pub struct EndedNotes {
    /// The note for guard leases.
    pub guard: ReleaseNote,
    /// The note for bridge leases.
    pub bridge: ReleaseNote,
}

impl EndedNotes {
    /// Returns the notes for a life of a task.
    ///
    /// They may be given to the lease table only when no process of this life runs any more.
    pub fn new(task: TaskId, life: u32) -> Self
        ensures { result ≡ ended_notes task life }
    {
        EndedNotes {
            guard: ended_note(task, life, Kind::Guard),
            bridge: ended_note(task, life, Kind::Bridge),
        }
    }
}

// The note that closes every row of a kind and a life: no grant has a greater number.
fn ended_note(task: TaskId, life: u32, kind: Kind) -> ReleaseNote
    ensures { result ≡ record { task = task; life = life; kind = kind; number = MOST_GRANTS } }
{
    ReleaseNote {
        task,
        life,
        kind,
        number: MOST_GRANTS,
    }
}

/// The reply to an accepted call of a slicelet.
#[derive(Clone, Copy, Debug, PartialEq, Eq)]
pub enum SliceletReply {
    /// The life was started.
    Started,
    /// The grant was heard.
    Heard,
    /// The lease was released; this is the note for the lease table.
    Released(ReleaseNote),
    /// A new process began; these are the notes for the life that ended.
    Resumed(EndedNotes),
}
