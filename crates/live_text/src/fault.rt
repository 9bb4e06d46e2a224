//! Why a live run is not started, or gives no report.

use program_io::Fault;
use thiserror::Error;

/// The error for input that is not a job of a live run.
#[derive(Clone, Copy, Debug, PartialEq, Eq, Error)]
#[error("input refused")]
pub struct InputError;

/// Why the program `slicer_live` fails. Its text is what the program writes to standard error.
#[derive(Debug, PartialEq, Eq, Drop, Error)]
pub enum LiveProgramError {
    /// The program was given an argument beside its name.
    #[error("slicer_live: no arguments taken")]
    Arguments,
    /// The job was not run or reported, for this reason.
    #[error("slicer_live: {0}")]
    Fault(Fault<InputError>),
}
