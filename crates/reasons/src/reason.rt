//! Reasons of replies.

ghost use Rattle.std.specs.Prelude.{◌≡◌, Some, None, if◌then◌else◌};
ghost use Rattle.assignment.specs.Slices.{is_among};

use assignment::{Owners, TaskId};
use grants::{JobTerm, Row};
use lease_rule::{Ground, Kind};

/// A lease that a task holds, live or ended, as it is seen from a key.
#[derive(Clone, Copy, Debug)]
pub struct LeaseValues {
    /// The kind of the lease.
    pub kind: Kind,
    /// The number of its grant.
    pub number: u64,
    /// The generation that the lease was granted for.
    pub generation: u64,
    /// The task's deadline: the first reading, in ticks, at which the lease is no longer live.
    pub ends: u64,
    /// Whether the lease covers the key.
    pub covers: bool,
    /// The place of the call in which the task heard the grant; `None` if that call has no place.
    pub heard: Option<u64>,
}

/// The values that the written rule decides by.
#[derive(Clone, Copy, Debug)]
pub struct RuleValues {
    /// Whether the task has started in its process.
    pub started: bool,
    /// The last reading that the task accepted, in ticks; 0 before the first.
    pub last: u64,
    /// The guard lease that the task holds.
    pub guard: Option<LeaseValues>,
    /// The bridge lease that the task holds.
    pub bridge: Option<LeaseValues>,
    /// The number of the lease by which the rule answers, if one does: the one that serves; of
    /// `Ended` the first that covers the key; of `NotOwned` the first live one of that generation.
    pub number: Option<u64>,
}

/// Who owns a key in the committed assignment.
#[derive(Debug, Drop)]
pub struct KeyOwners {
    /// The committed generation, 0 for none.
    pub generation: u64,
    /// The tasks that own the key in it, in rising order.
    pub tasks: Owners,
}

// Whether a task is among these.
fn is_among(tasks: &[TaskId], task: u64) -> bool
    ensures { result ≡ is_among tasks.now task }
{
    tasks.iter().any(|owner| owner.number() == task)
}

impl KeyOwners {
    /// Returns the committed generation if a task does not own the key in it.
    pub fn not_owner(&self, task: u64) -> Option<u64>
        ensures { result ≡ (if is_among self.now.tasks.items task then None else Some self.now.generation) }
    {
        if is_among(self.tasks.as_slice(), task) {
            None
        } else {
            Some(self.generation)
        }
    }
}

/// Why a task may serve a key or may not.
#[derive(Debug, Drop)]
pub struct RequestReason {
    /// The values of the written rule.
    pub rule: RuleValues,
    /// The owners of the key.
    pub owners: KeyOwners,
}

/// Why a handle is broken.
#[derive(Debug, Drop)]
pub enum Break {
    /// The task is in this life, and the handle is of another.
    OtherLife(u32),
    /// The written rule denies the key at the reading, on this ground.
    Denied {
        denial: Ground,
        request: RequestReason,
    },
    /// A call of the task since the handle was given: the last one just before or just after which
    /// the rule denied the key at the reading of that call.
    Taken {
        /// The number of the call among those that the task's process accepted, from 1.
        call: u64,
        /// The place of the call; `None` if it has none.
        last: Option<u64>,
    },
}

/// The values that decide a reply.
#[derive(Debug, Drop)]
pub enum Reason {
    /// Of a verdict or a handle that was given.
    Request(RequestReason),
    /// Of a broken handle.
    Broken(Break),
    /// Of a reading of the table's clock that goes back: the last accepted one, in ticks.
    TableReading(u64),
    /// Of a reading of a task's clock that goes back: the last accepted one, in ticks.
    TaskReading(u64),
    /// Of a commit that is held up: the first row that holds it up.
    Held(Row),
    /// Of a job lease that is held, or not by the term of the call: the last term, if the table gave
    /// one.
    Term(Option<JobTerm>),
    /// Of a grant that is old: the greatest number of its kind that the task heard in its life.
    Heard { kind: Kind, number: u64, life: u32 },
    /// Of an old or another life: the life of the task.
    Life(u32),
}
