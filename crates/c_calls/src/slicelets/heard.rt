//! What is answered where a grant was heard.

ghost use Rattle.std.specs.Prelude.{◌≡◌};
ghost use Rattle.c_calls.specs.Taken.{answer_to};
ghost use Rattle.c_calls.specs.slicelets.Leases.{details_of};

use crate::answer::Answer;
use crate::details::LeaseDetails;
use grants::{Grant, SliceletError};
use machines::Trouble;

/// Returns the lease of a grant, as an answer tells it.
fn details_of(grant: &Grant) -> LeaseDetails
    ensures { result ≡ details_of grant.now }
{
    LeaseDetails {
        kind: grant.lease.kind,
        number: grant.number,
        generation: grant.lease.generation,
        until: grant.lease.ends,
    }
}

/// Returns the answer for the result of hearing a grant.
pub fn heard_answer(grant: &Grant, given: Result<(), Trouble<SliceletError>>) -> Answer
    ensures { result ≡ answer_to (λ _. Answer.Leased (details_of grant.now)) Answer.Slicelet given }
{
    match given {
        Ok(()) => Answer::Leased(details_of(grant)),
        Err(Trouble::Refused(why)) => Answer::Slicelet(why),
        Err(Trouble::NoMemory) => Answer::NoMemory,
    }
}
