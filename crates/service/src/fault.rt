//! Why the program fails.

use faults::ScriptError;
use program_io::Fault;
use thiserror::Error;

/// Why the program `slicer_run` fails. Its text is what the program writes to standard error.
#[derive(Debug, PartialEq, Eq, Drop, Error)]
pub enum ProgramError {
    /// The program was given an argument beside its name.
    #[error("slicer_run: no arguments taken")]
    Arguments,
    /// The script was not played, for this reason.
    #[error("slicer_run: {0}")]
    Fault(Fault<ScriptError>),
}
