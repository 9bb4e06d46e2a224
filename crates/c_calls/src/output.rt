//! Lists in the caller's buffer.

ghost use Rattle.std.specs.Prelude.{◌≡◌, IfErr, IfOk};
ghost use Rattle.c_calls.specs.Outputs.{IsListGiven, IsOutOfMemory, output};

use crate::answer::Answer;
use std::alloc::AllocError;

/// Writes the length of a list to `needed`, and copies the list to the front of `out` if it fits.
///
/// Returns `NoRoom` if it does not fit; `out` is then unchanged.
pub fn give<T: Copy>(list: &[T], out: &mut [T], needed: &mut usize) -> Answer
    ensures { IsListGiven list.now out.old out.new needed.new result }
{
    *needed = list.len();
    if out.len() < list.len() {
        return Answer::NoRoom;
    }
    out[..list.len()].copy_from_slice(list);
    Answer::Done
}

/// Gives a list that was made, as [`give`] does. `NoMemory` if it was not made.
pub fn give_made<T: Copy>(
    made: Result<Vec<T>, AllocError>,
    out: &mut [T],
    needed: &mut usize,
) -> Answer
    ensures made { IfOk made (λ list. IsListGiven list.items out.old out.new needed.new result) }
    ensures memory { IfErr made (λ _. IsOutOfMemory (output out.old needed.old) (output out.new needed.new) result) }
{
    match made {
        Ok(list) => give(&list, out, needed),
        Err(_) => Answer::NoMemory,
    }
}
