//! Reading a key from a member.

ghost use Rattle.serde_json.specs.View.{view};
ghost use Rattle.program_io.specs.Reading.{Gives};
ghost use Rattle.replies.specs.Keys.{key_at};

use machines::Listed;
use program_io::{Unread, text_at};
use serde_json::Value;
use std::alloc::Global;

/// The largest number of bytes in a key of a script or of a log.
pub const MOST_KEY_BYTES: usize = 4096;

/// Returns the bytes of the text member with this name, at most 4096 of them.
pub fn key_at(alloc: Global, name: &str, value: &Value) -> Result<Listed<u8>, Unread>
    ensures { Gives result (key_at name.now (view value.now)) }
{
    let text = text_at(name, value)?;
    if text.len() > MOST_KEY_BYTES {
        return Err(Unread::WrongForm);
    }
    let bytes = Vec::from_slice(alloc, text.as_bytes())?;
    Ok(Listed::from_vec(bytes))
}
