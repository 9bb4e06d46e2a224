//! Why a call is refused.

use clerk::ClerkError;
use grants::{SliceletError, TableError};

/// Why a call of a job's machines is refused.
#[derive(Clone, Copy, Debug, PartialEq, Eq)]
pub enum ClusterError {
    /// The job has no assigner, task or clerk with the number that the call names.
    NoActor,
    /// The grant, note, handle or published assignment that the call delivers was never made.
    NotSent,
    /// The table refuses the call, for this reason.
    Table(TableError),
    /// The task's slicelet refuses the call, for this reason.
    Slicelet(SliceletError),
    /// The task cannot have returned this handle.
    Stranger,
    /// The clerk refuses the call, for this reason.
    Clerk(ClerkError),
    /// The clerk knows no assignment.
    Unknown,
}
