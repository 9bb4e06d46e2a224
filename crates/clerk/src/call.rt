//! The calls of a clerk, and their replies.

use assignment::Assignment;
use machines::Duplicate;
use std::alloc::AllocError;

/// A call that may change a clerk.
#[derive(Debug, Drop)]
pub enum ClerkCall {
    /// The clerk learns an assignment.
    Learn(Assignment),
    /// The clerk forgets the assignment that it keeps.
    Forget,
}

/// The reply to an accepted call of a clerk.
#[derive(Clone, Copy, Debug, PartialEq, Eq)]
pub enum ClerkReply {
    /// The assignment was learnt.
    Learnt,
    /// The clerk keeps no assignment any more.
    Forgotten,
}

impl Duplicate for ClerkCall {
    fn copy(&self) -> Result<ClerkCall, AllocError> {
        match self {
            ClerkCall::Learn(assignment) => Ok(ClerkCall::Learn(assignment.copy()?)),
            ClerkCall::Forget => Ok(ClerkCall::Forget),
        }
    }
}
