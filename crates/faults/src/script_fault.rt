//! A fault of a script or of a first line, and its fix.

ghost use Rattle.std.specs.Prelude.{◌≡◌, Some};
ghost use Rattle.faults.specs.Faults.{fault_words};

use crate::script_error::ScriptError;
use program_io::Fault;
use std::fmt;

/// A fault of a script, and how to fix it.
#[derive(Debug, Drop)]
pub struct ScriptFault {
    /// Why the script is refused.
    pub refusal: ScriptError,
    /// How to fix it, in words.
    pub mend: String,
}

/// Why a command cannot answer its input, which is refused for these faults, lowest element first.
pub type AnswerError = Fault<Vec<ScriptFault>>;

impl fmt::Display for ScriptFault {
    ghost output = { λ fault. Some (fault_words fault) };

    fn fmt<W: fmt::Write>(&self, f: &mut fmt::Formatter<W>) -> fmt::Result {
        match self.refusal {
            ScriptError::NotJson => f.write_str("not JSON")?,
            ScriptError::NotArray => f.write_str("not an array")?,
            ScriptError::NoJob => f.write_str("no job")?,
            ScriptError::BadJob => f.write_str("bad job")?,
            ScriptError::TooManySteps => f.write_str("too many steps")?,
            ScriptError::BadStep(place) => write!(f, "bad step {place}")?,
        }
        write!(f, ": {}", self.mend)
    }
}
