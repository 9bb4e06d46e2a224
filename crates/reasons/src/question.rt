//! What a call asks.

ghost use Rattle.std.specs.Prelude.{◌≡◌};
ghost use Rattle.reasons.specs.Questions.{asked_of_table, asked_of_task, question_of, task_asked};

use grants::{SliceletCall, TableCall};
use job_calls::ClusterCall;
use key_handle::KeyHandle;
use lease_rule::Kind;
use slice_ranges::SliceKey;

/// What a call asks, as far as the reason of its reply needs it.
#[derive(Clone, Copy, Debug)]
pub enum Question {
    /// Whether a task may serve a key: a `serve` or a `hold`.
    Key {
        task: u64,
        key: SliceKey,
        at: u64,
    },
    /// Whether a task has held the key of a handle.
    Check {
        task: u64,
        handle: KeyHandle,
        at: u64,
    },
    /// That a task hears a grant of this kind.
    Hear {
        task: u64,
        kind: Kind,
    },
    /// That a task starts a life, or begins a new process.
    Begin {
        task: u64,
    },
    /// That a task releases a lease.
    Release {
        task: u64,
    },
    /// That the table gives an assigner the job lease.
    Take,
    /// That the table renews a term or proposes an assignment.
    Pass,
    /// That the table commits at a reading of its clock.
    Commit {
        at: u64,
    },
    /// Another call of the table.
    Table,
    /// Anything else.
    Other,
}

// Returns what a call of a task asks.
fn asked_of_task(task: u64, call: &SliceletCall) -> Question
    ensures { result ≡ asked_of_task task call.now }
{
    match call {
        SliceletCall::Hear { grant, .. } => Question::Hear {
            task,
            kind: grant.lease.kind,
        },
        SliceletCall::Release { .. } => Question::Release { task },
        SliceletCall::Start { .. } | SliceletCall::Resume { .. } => Question::Begin { task },
    }
}

// Returns what a call of the table asks.
fn asked_of_table(call: &TableCall) -> Question
    ensures { result ≡ asked_of_table call.now }
{
    match call {
        TableCall::JobTake { .. } => Question::Take,
        TableCall::JobRenew { .. } | TableCall::Propose { .. } => Question::Pass,
        TableCall::Commit { at, .. } => Question::Commit { at: *at },
        TableCall::Grant { .. } | TableCall::Free { .. } | TableCall::Restart => Question::Table,
    }
}

impl Question {
    /// Returns what a call asks.
    pub fn of(call: &ClusterCall) -> Question
        ensures { result ≡ question_of call.now }
    {
        match call {
            ClusterCall::Serve { task, key, at } | ClusterCall::Hold { task, key, at } => {
                Question::Key {
                    task: *task,
                    key: *key,
                    at: *at,
                }
            }
            ClusterCall::Check { task, handle, at } => Question::Check {
                task: *task,
                handle: *handle,
                at: *at,
            },
            ClusterCall::Task { task, call } => asked_of_task(*task, call),
            ClusterCall::Table(call) => asked_of_table(call),
            _ => Question::Other,
        }
    }

    /// Returns the number of the task that is asked, 0 if none is.
    pub fn task(&self) -> u64
        ensures { result ≡ task_asked self.now }
    {
        match self {
            Question::Key { task, .. }
            | Question::Check { task, .. }
            | Question::Hear { task, .. }
            | Question::Begin { task }
            | Question::Release { task } => *task,
            Question::Take
            | Question::Pass
            | Question::Commit { .. }
            | Question::Table
            | Question::Other => 0,
        }
    }
}
