//! Whether the calls of a log are one run.

use crate::held::HeldLeases;
use crate::late::Late;
use crate::log_machines::LogMachines;
use log_line::CallerReply;

/// Whether the calls of a log are one run of a job's machines, in the order of their tickets.
#[derive(Drop)]
pub enum Outcome {
    /// They are one run.
    One {
        /// The number of calls.
        steps: u64,
        /// The first reading that is not timely; `None` if the clocks were timely in the run.
        late: Option<Late>,
    },
    /// Two entries have the same ticket: those at these two indices, one after the other.
    Double {
        first: usize,
        second: usize,
    },
    /// The calls before the entry at `index` are one run, but the caller of this one got a wrong
    /// reply.
    Other {
        index: usize,
        /// The reply that the caller should have got.
        wanted: CallerReply,
        /// The leases of the task that the call asks for a key; `None` for other calls, or if the
        /// job has no such task.
        held: Option<HeldLeases>,
        /// The machines after this call.
        machines: LogMachines,
    },
}
