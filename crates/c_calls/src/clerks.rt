//! The calls of a clerk.

ghost use Rattle.std.specs.Prelude.{◌≡◌};
ghost use Rattle.slice_ranges.specs.Hash.{slice_key};
ghost use Rattle.clerk.specs.Steps.{look_at};
ghost use Rattle.c_calls.specs.Arguments.{slice_key_of};
ghost use Rattle.c_calls.specs.Clerks.{IsAssignmentLearnt, IsLookedUp, IsLookedUpAt, old_answer};
ghost use Rattle.c_calls.specs.Taken.{answer_to};

mod owners;

use crate::answer::Answer;
use crate::arguments::slice_key_of;
use crate::unread::unread_answer;
use assignment::Assignment;
use clerk::{Clerk, ClerkError, Unknown};
use machines::Trouble;
pub use owners::OwnersNumbers;
use slice_ranges::{SliceKey, slice_key};
use std::alloc::Global;
use wire::{JobName, decode};

// Returns the answer for the result of learning an assignment.
fn learnt_answer(given: Result<(), Trouble<ClerkError>>) -> Answer
    ensures { result ≡ answer_to (λ _. Answer.Done) old_answer given }
{
    match given {
        Ok(()) => Answer::Done,
        Err(Trouble::Refused(ClerkError::Old { generation })) => Answer::OldGeneration(generation),
        Err(Trouble::NoMemory) => Answer::NoMemory,
    }
}

/// Decodes an assignment from its message, which is one of the job, and keeps it.
#[tactic(auto, using(crate::proofs::Taken::taken))]
pub fn learn(alloc: Global, job: &JobName, clerk: &mut Clerk, assignment: &[u8]) -> Answer
    ensures { IsAssignmentLearnt job.now assignment.now clerk.old clerk.new result }
{
    match decode::<Assignment>(alloc, job, assignment) {
        Ok(assignment) => learnt_answer(clerk.learn(&assignment)),
        Err(why) => unread_answer(why),
    }
}

/// Writes the owners of a key in the kept assignment to `out`.
pub fn look(clerk: &Clerk, key: &[u8], out: &mut OwnersNumbers) -> Answer
    ensures { IsLookedUp (look_at clerk.now (slice_key key.now)) out.old out.new result }
{
    look_up(clerk, slice_key(key), out)
}

/// Writes the owners of the keys of a slice key to `out`. `WrongForm` if it is no slice key.
pub fn look_at(clerk: &Clerk, slice_key: u64, out: &mut OwnersNumbers) -> Answer
    ensures { IsLookedUpAt (slice_key_of slice_key) clerk.now out.old out.new result }
{
    match slice_key_of(slice_key) {
        Some(key) => look_up(clerk, key, out),
        None => Answer::WrongForm,
    }
}

fn look_up(clerk: &Clerk, key: SliceKey, out: &mut OwnersNumbers) -> Answer
    ensures { IsLookedUp (look_at clerk.now key) out.old out.new result }
{
    match clerk.look(key) {
        Ok(found) => {
            *out = OwnersNumbers::of(&found);
            Answer::Done
        }
        Err(Unknown) => Answer::Unknown,
    }
}
