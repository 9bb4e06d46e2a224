//! Records of calls.

ghost use Rattle.std.specs.Prelude.{◌≡◌, IfOk};

use crate::call::ClusterCall;
use crate::reply::ClusterReply;
use machines::Duplicate;
use std::alloc::AllocError;

/// A caller's record of one call: its ticket, the call and the reply that the caller got.
#[derive(Debug, Drop)]
pub struct CallRecord {
    /// The ticket of the call: its place among all calls that drew a ticket.
    pub ticket: u64,
    /// The call.
    pub step: ClusterCall,
    /// The reply that the caller got.
    pub reply: ClusterReply,
}

impl Duplicate for CallRecord {
    fn copy(&self) -> Result<CallRecord, AllocError> {
        Ok(CallRecord {
            ticket: self.ticket,
            step: self.step.copy()?,
            reply: self.reply.copy()?,
        })
    }
}
