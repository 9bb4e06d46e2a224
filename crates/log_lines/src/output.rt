//! What a caller is given.

ghost use Rattle.std.specs.Prelude.{◌≡◌, IfErr, IfOk};
ghost use Rattle.c_calls.specs.Outputs.{IsListGiven, IsOutOfMemory, output};
ghost use Rattle.c_calls.specs.Reading.{unread_answer};

use c_calls::Answer;
use std::alloc::AllocError;
use wire::DecodeError;

// Writes the length of a text to `needed`, and copies the text to the front of `out` if it fits.
//
// Returns `NoRoom` if it does not fit; `out` is then unchanged.
fn give(text: &[u8], out: &mut [u8], needed: &mut usize) -> Answer
    ensures { IsListGiven text.now out.old out.new needed.new result }
{
    *needed = text.len();
    if out.len() < text.len() {
        return Answer::NoRoom;
    }
    out[..text.len()].copy_from_slice(text);
    Answer::Done
}

/// Writes the length of a text that was made to `needed`, and copies it to the front of `out` if it
/// fits. `NoRoom` if it does not fit, and `NoMemory` if it was not made.
pub fn give_made(made: Result<Vec<u8>, AllocError>, out: &mut [u8], needed: &mut usize) -> Answer
    ensures made { IfOk made (λ text. IsListGiven text.items out.old out.new needed.new result) }
    ensures memory { IfErr made (λ _. IsOutOfMemory (output out.old needed.old) (output out.new needed.new) result) }
{
    match made {
        Ok(text) => give(&text, out, needed),
        Err(_) => Answer::NoMemory,
    }
}

/// Returns the answer for bytes that were not decoded.
pub fn unread_answer(error: DecodeError) -> Answer
    ensures { result ≡ unread_answer error }
{
    match error {
        DecodeError::Refused(why) => Answer::Unread(why),
        DecodeError::NoMemory => Answer::NoMemory,
    }
}
