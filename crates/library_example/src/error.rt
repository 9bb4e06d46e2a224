//! The one error type of the example.

use assignment::AssignmentError;
use clerk::{ClerkError, Unknown};
use grants::{SliceletError, TableError};
use machines::Trouble;
use std::alloc::AllocError;
use std::io::{self, Eprint};
use std::process::ExitCode;
use thiserror::Error;
use wire::DecodeError;

/// Why the example stops: the refusals of the calls that it makes, each of which `?` converts.
#[derive(Debug, Drop, Error)]
pub enum ExampleError {
    /// A number of the policy or of a task is outside its limits.
    #[error("a number is outside its limits")]
    OutOfLimits,
    /// The slices make no assignment.
    #[error("the slices make no assignment: {0:?}")]
    Slices(#[from] AssignmentError),
    /// The lease table refuses a call.
    #[error("the lease table refuses: {0:?}")]
    Table(#[from] TableError),
    /// The slicelet refuses a call.
    #[error("the slicelet refuses: {0:?}")]
    Slicelet(#[from] SliceletError),
    /// The clerk refuses an assignment.
    #[error("the clerk refuses: {0:?}")]
    Clerk(#[from] ClerkError),
    /// The clerk has learnt no assignment.
    #[error("the clerk has learnt no assignment: {0:?}")]
    Unlearnt(#[from] Unknown),
    /// Bytes are not decoded.
    #[error("the message is not decoded: {0}")]
    Message(#[from] DecodeError),
    /// Memory runs out.
    #[error("out of memory")]
    Memory(#[from(alloc)] AllocError),
    /// The output fails.
    #[error("the output fails: {0}")]
    Output(#[from] io::Error),
}

/// Converts what a call that takes memory returns: its refusal, or that memory ran out.
impl<Refusal> From<Trouble<Refusal>> for ExampleError
where
    ExampleError: From<Refusal>,
{
    fn from(trouble: Trouble<Refusal>) -> Self {
        match trouble {
            Trouble::Refused(refusal) => refusal.into(),
            Trouble::NoMemory => ExampleError::Memory(AllocError),
        }
    }
}

/// Reports why the example stopped, and returns the exit status: 0 if it did not.
pub fn exit_code(rt: &impl Eprint, played: Result<(), ExampleError>) -> ExitCode {
    match played {
        Ok(()) => ExitCode::from(0),
        Err(error) => {
            let _ = eprintln!(rt; "library_example: {error}");
            ExitCode::from(1)
        }
    }
}
