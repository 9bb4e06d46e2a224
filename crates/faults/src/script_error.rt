//! Why a script is refused.

use thiserror::Error;

/// Why a script is refused, in the order in which the reasons are checked.
#[derive(Clone, Copy, Debug, PartialEq, Eq, Error)]
pub enum ScriptError {
    /// The bytes are not JSON text.
    #[error("script refused: not JSON")]
    NotJson,
    /// The JSON value is not an array.
    #[error("script refused: not an array")]
    NotArray,
    /// The array has no first element that is an object with the one member `job`.
    #[error("script refused: no job")]
    NoJob,
    /// The job does not have exactly the members that it should, or one of them is not a number
    /// within its limits.
    #[error("script refused: bad job")]
    BadJob,
    /// There are more than 4096 steps.
    #[error("script refused: too many steps")]
    TooManySteps,
    /// The element at this place is not a step, and those before it are. The job is at place 0.
    #[error("script refused: bad step {0}")]
    BadStep(usize),
}
