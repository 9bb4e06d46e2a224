//! What an audit finds.

use crate::cause::Cause;
use log_line::CallerReply;
use log_run::{HeldLeases, Late};

/// Whether the calls of a log are one run of a job's machines, in the order of their tickets.
#[derive(Debug, Drop)]
pub enum Finding {
    /// They are one run.
    One {
        /// The number of calls.
        steps: u64,
        /// The first reading that is not timely; `None` if the clocks were timely in the run.
        late: Option<Late>,
    },
    /// Two entries have the same ticket: those at these two indices, one after the other.
    Double {
        first: usize,
        second: usize,
    },
    /// The calls before the entry at `index` are one run, but the caller of this one got a wrong
    /// reply.
    Other {
        index: usize,
        /// The reply that the caller should have got.
        wanted: CallerReply,
        /// The leases of the task that the call asks for a key; `None` for other calls, or if the
        /// job has no such task.
        held: Option<HeldLeases>,
        /// Why nothing sent before what the call delivers, which call broke the handle that it
        /// checks, or which term, reading or life refuses it. `None` for other replies, if a handle
        /// is delivered and the log does not say which handles on its key were given, if no call
        /// broke the handle, or if the table has given no term.
        cause: Option<Cause>,
    },
}
