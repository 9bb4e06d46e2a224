//! Calls of a job's machines.

ghost use Rattle.std.specs.Prelude.{◌≡◌, IfOk};

use clerk::ClerkCall;
use grants::{SliceletCall, TableCall};
use key_handle::KeyHandle;
use machines::Duplicate;
use slice_ranges::SliceKey;
use std::alloc::AllocError;

/// A call of the table, of one task or of one clerk, together with what it delivers.
///
/// A call carries the delivered grant, note, handle or assignment itself, not its number. `task`
/// and `clerk` are numbers from 1. `at` is a reading of the task's clock, in ticks.
#[derive(Debug, Drop)]
pub enum ClusterCall {
    /// A call that may change the table.
    Table(TableCall),
    /// A call that may change what a task holds.
    Task {
        task: u64,
        call: SliceletCall,
    },
    /// A call that may change what a clerk knows.
    Clerk {
        clerk: u64,
        call: ClerkCall,
    },
    /// Asks for the table's phase.
    Phase,
    /// Asks for the table's open rows.
    Rows,
    /// Asks whether a task may serve a key.
    Serve {
        task: u64,
        key: SliceKey,
        at: u64,
    },
    /// Asks a task for a handle on a key.
    Hold {
        task: u64,
        key: SliceKey,
        at: u64,
    },
    /// Asks a task whether it has held a handle's key ever since the handle was taken.
    Check {
        task: u64,
        handle: KeyHandle,
        at: u64,
    },
    /// Asks a clerk who owns a key.
    Look {
        clerk: u64,
        key: SliceKey,
    },
}

impl Duplicate for ClusterCall {
    fn copy(&self) -> Result<ClusterCall, AllocError> {
        Ok(match self {
            ClusterCall::Table(call) => ClusterCall::Table(call.copy()?),
            ClusterCall::Task { task, call } => ClusterCall::Task {
                task: *task,
                call: call.copy()?,
            },
            ClusterCall::Clerk { clerk, call } => ClusterCall::Clerk {
                clerk: *clerk,
                call: call.copy()?,
            },
            ClusterCall::Phase => ClusterCall::Phase,
            ClusterCall::Rows => ClusterCall::Rows,
            ClusterCall::Serve { task, key, at } => ClusterCall::Serve {
                task: *task,
                key: *key,
                at: *at,
            },
            ClusterCall::Hold { task, key, at } => ClusterCall::Hold {
                task: *task,
                key: *key,
                at: *at,
            },
            ClusterCall::Check { task, handle, at } => ClusterCall::Check {
                task: *task,
                handle: *handle,
                at: *at,
            },
            ClusterCall::Look { clerk, key } => ClusterCall::Look {
                clerk: *clerk,
                key: *key,
            },
        })
    }
}
