//! Where bytes stop being JSON, and which member is written twice.

ghost use Rattle.std.specs.Prelude.{◌≡◌, [], ◌∷◌, IfOk, string_bytes};
ghost use Rattle.faults.specs.Faults.{refusals};
ghost use Rattle.faults.specs.Quoted.{repeated_words};

use crate::quoted::Quoted;
use crate::script_error::ScriptError;
use crate::script_fault::ScriptFault;
use serde_json::Error;
use std::alloc::{AllocError, Global};

// Returns the JSON reader's message, without the position at which it stopped.
fn words_of(alloc: Global, error: &Error) -> Result<String, AllocError> {
    let text = format!(in alloc; "{error}")?;
    let ending = format!(in alloc; " at line {} column {}", error.line(), error.column())?;
    let words = text
        .as_str()
        .strip_suffix(ending.as_str())
        .unwrap_or(text.as_str());
    String::from_str(alloc, words)
}

// Returns the line and the column at which the reader stopped, and its message.
fn json_mend(alloc: Global, error: &Error) -> Result<String, AllocError> {
    let words = words_of(alloc, error)?;
    format!(in alloc; "line {} column {}: {words}", error.line(), error.column())
}

/// Returns how to fix a line that is not JSON: the column at which the reader stopped, and why.
///
/// The reader stops at the end of the line if the text is cut off.
pub fn line_mend(alloc: Global, error: &Error) -> Result<String, AllocError> {
    let words = words_of(alloc, error)?;
    if error.line() > 1 {
        return format!(in alloc; "at the end of the line: {words}");
    }
    format!(in alloc; "column {}: {words}", error.column())
}

/// Returns how to fix a line in which an object has a member of this name twice.
pub fn repeated_mend(alloc: Global, name: &str) -> Result<String, AllocError>
    ensures { IfOk result (λ text. string_bytes text ≡ repeated_words name.now) }
{
    format!(in alloc; "member {} is written twice", Quoted(name))
}

/// Returns the one fault of bytes that are not JSON: where the reader stopped, and why.
pub fn json_faults(alloc: Global, error: &Error) -> Result<Vec<ScriptFault>, AllocError>
    ensures { IfOk result (λ faults. refusals faults ≡ ScriptError.NotJson ∷ []) }
{
    let mend = json_mend(alloc, error)?;
    let mut faults = Vec::new(alloc);
    faults.push(ScriptFault {
        refusal: ScriptError::NotJson,
        mend,
    })?;
    Ok(faults)
}
