//! The keys that a task may serve.

ghost use Rattle.c_calls.specs.Outputs.{output};
ghost use Rattle.c_calls.specs.slicelets.PermittedKeys.{ArePermittedGiven};

use crate::answer::Answer;
use crate::output::give;
use slicelet::Slicelet;

/// Writes the boundaries of the keys that the task may serve at the reading `at`: the first slice
/// key of each range and the one after its last, in rising order.
///
/// They are the keys that `serve_at` allows. A task that may serve none has no boundaries.
///
/// # Errors
///
/// `NoRoom` or `NoMemory`.
pub fn permitted(slicelet: &Slicelet, at: u64, boundaries: &mut [u64], needed: &mut usize) -> Answer
    ensures { ArePermittedGiven slicelet.now at (output boundaries.old needed.old) (output boundaries.new needed.new) result }
{
    match slicelet.permitted(at) {
        Ok(keys) => give(keys.boundaries(), boundaries, needed),
        Err(_) => Answer::NoMemory,
    }
}
