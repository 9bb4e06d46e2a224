//! The passes that the threads of a live run get, and that they leave.

ghost use Rattle.std.specs.Prelude.{◌≡◌, [], false};

use crate::notes::Notes;
use assignment::TaskId;
use clerk::Clerk;
use history_lock::Pass;
use lease_table::LeaseTable;
use slicelet::Slicelet;
use std::alloc::Global;
use tickets::TicketPass;

/// The passes of a thread that calls the table, and its notes about its calls.
#[derive(Drop)]
pub(crate) struct TablePasses {
    pub(crate) pass: Pass<LeaseTable>,
    pub(crate) draws: TicketPass,
    pub(crate) notes: Notes,
}

/// The passes of the clerk's thread, and its notes about its calls.
#[derive(Drop)]
pub(crate) struct ClerkPasses {
    pub(crate) table: TablePasses,
    pub(crate) own: Pass<Clerk>,
}

/// The passes of a task's thread, and its notes about its calls.
#[derive(Drop)]
pub(crate) struct TaskPasses {
    pub(crate) task: TaskId,
    pub(crate) table: TablePasses,
    pub(crate) own: Pass<Slicelet>,
}

impl TablePasses {
    /// Creates the passes of a thread that has made no call.
    pub(crate) fn new(alloc: Global, pass: Pass<LeaseTable>, draws: TicketPass) -> TablePasses
        ensures pass { result.pass ≡ pass }
        ensures draws { result.draws ≡ draws }
        ensures records { result.notes.records.items ≡ [] }
        ensures fed { result.notes.starved ≡ false }
    {
        TablePasses {
            pass,
            draws,
            notes: Notes::new(alloc),
        }
    }
}
