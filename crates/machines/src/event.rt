//! Events: the calls that a machine takes.

ghost use Rattle.std.specs.Prelude.{◌≡◌, IfOk};

use crate::copies::Duplicate;
use std::alloc::AllocError;

/// A call of a machine, with the ticket that was drawn for it.
#[derive(Debug, Drop)]
pub struct Event<C> {
    /// The position of the call among all calls that drew a ticket. No machine reads it.
    pub ticket: u64,
    /// The call.
    pub call: C,
}

impl<C: Duplicate> Duplicate for Event<C> {
    fn copy(&self) -> Result<Event<C>, AllocError> {
        Ok(Event {
            ticket: self.ticket,
            call: self.call.copy()?,
        })
    }
}
