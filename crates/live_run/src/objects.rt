//! What the threads of a live run share.

use shared_objects::{SharedClerk, SharedSlicelet, SharedTable};
use tickets::Ticket;

/// The table and the clerk of a live run, and the ticket of all calls.
#[derive(Drop)]
pub(crate) struct Objects {
    pub(crate) ticket: Ticket,
    pub(crate) table: SharedTable,
    pub(crate) clerk: SharedClerk,
}

/// What the threads of a task share: the table, their slicelet, and the ticket of all calls.
#[derive(Drop)]
pub(crate) struct TaskObjects<'a> {
    pub(crate) ticket: &'a Ticket,
    pub(crate) table: &'a SharedTable,
    pub(crate) slicelet: &'a SharedSlicelet,
}
