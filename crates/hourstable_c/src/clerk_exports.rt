//! Exports for clerks.

ghost use Rattle.std.specs.Prelude.{◌≡◌, None, ⊤};
ghost use Rattle.slice_ranges.specs.Hash.{slice_key};
ghost use Rattle.clerk.specs.Steps.{look_at};
ghost use Rattle.c_calls.specs.declared.answer.Answer.TheVariants.{Done};
ghost use Rattle.c_calls.specs.Jobs.{job_of};
ghost use Rattle.c_calls.specs.AnswerNumbers.{answer_number};
ghost use Rattle.hourstable_c.specs.declared.held.Held.TheVariants as held;
ghost use Rattle.c_calls.specs.Clerks.{IsAssignmentLearnt, IsLookedUp, IsLookedUpAt};
ghost use Rattle.c_calls.specs.Arguments.{slice_key_of};
ghost use Rattle.hourstable_c.specs.Kinds.{is_clerk};
ghost use Rattle.hourstable_c.specs.Opened.{AtPlace, IsClosed, IsOpened};
ghost use Rattle.hourstable_c.specs.Places.{OnClerk};
ghost use Rattle.hourstable_c.specs.Returned.{Returns, Tells};

use crate::held::Held;
use crate::place::Place;
use crate::place_exports::close_where;
use c_calls::clerks::{OwnersNumbers, learn, look, look_at};
use c_calls::{Answer, AnswerDetails, job_of};
use clerk::Clerk;
use std::alloc::Global;

/// Creates a new clerk of a job in `place`, destroying what was there. It keeps no assignment.
#[unsafe(no_mangle)]
pub extern "C" fn hs_clerk_open(place: &mut Place, job: &[u8]) -> i32
    ensures { AtPlace (IsOpened (λ name. held.Clerk name None) (job_of job.now)) place.old.value place.new.value result }
{
    let Some(held) = place.held() else {
        return Answer::OtherPlace.number();
    };
    let Some(job) = job_of(job) else {
        return Answer::WrongForm.number();
    };
    held.put(Held::Clerk(job, Clerk::new()));
    Answer::Done.number()
}

/// Decodes an assignment from its message and keeps it.
#[unsafe(no_mangle)]
#[tactic(auto, using(crate::proofs::Returning::tells))]
pub extern "C" fn hs_clerk_learn(
    alloc: Global,
    place: &mut Place,
    assignment: &[u8],
    told: &mut AnswerDetails,
) -> i32
    ensures { OnClerk place.old.value place.new.value (told.new ≡ told.old) result
        (λ job old new. Tells (IsAssignmentLearnt job assignment.now old new) told.old told.new result) }
{
    let Some(held) = place.held() else {
        return Answer::OtherPlace.number();
    };
    match held {
        Held::Clerk(job, clerk) => learn(alloc, job, clerk, assignment).tell(told),
        _ => Answer::OtherPlace.number(),
    }
}

/// Writes the owners of a key in the kept assignment to `out`.
#[unsafe(no_mangle)]
#[tactic(auto, using(crate::proofs::Returning::returns))]
pub extern "C" fn hs_clerk_look(place: &mut Place, key: &[u8], out: &mut OwnersNumbers) -> i32
    ensures { OnClerk place.old.value place.new.value (out.new ≡ out.old) result
        (λ job old new. (new ≡ old) × Returns (IsLookedUp (look_at old (slice_key key.now)) out.old out.new) result) }
{
    let Some(held) = place.read() else {
        return Answer::OtherPlace.number();
    };
    match held {
        Held::Clerk(_, clerk) => look(clerk, key, out).number(),
        _ => Answer::OtherPlace.number(),
    }
}

/// Writes the owners of the keys of a slice key in the kept assignment to `out`.
#[unsafe(no_mangle)]
#[tactic(auto, using(crate::proofs::Returning::returns))]
pub extern "C" fn hs_clerk_look_at(
    place: &mut Place,
    slice_key: u64,
    out: &mut OwnersNumbers,
) -> i32
    ensures { OnClerk place.old.value place.new.value (out.new ≡ out.old) result
        (λ job old new. (new ≡ old) × Returns (IsLookedUpAt (slice_key_of slice_key) old out.old out.new) result) }
{
    let Some(held) = place.read() else {
        return Answer::OtherPlace.number();
    };
    match held {
        Held::Clerk(_, clerk) => look_at(clerk, slice_key, out).number(),
        _ => Answer::OtherPlace.number(),
    }
}

/// Forgets the kept assignment.
#[unsafe(no_mangle)]
pub extern "C" fn hs_clerk_forget(place: &mut Place) -> i32
    ensures { OnClerk place.old.value place.new.value ⊤ result (λ job old new. (result ≡ answer_number Done) × (new ≡ None)) }
{
    let Some(held) = place.held() else {
        return Answer::OtherPlace.number();
    };
    match held {
        Held::Clerk(_, clerk) => {
            clerk.forget();
            Answer::Done.number()
        }
        _ => Answer::OtherPlace.number(),
    }
}

/// Destroys the clerk and leaves `place` empty.
#[unsafe(no_mangle)]
pub extern "C" fn hs_clerk_close(place: &mut Place) -> i32
    ensures { AtPlace (λ was now number. IsClosed (is_clerk was) was now number) place.old.value place.new.value result }
{
    let Some(held) = place.held() else {
        return Answer::OtherPlace.number();
    };
    let is_clerk = matches!(held, Held::Clerk(_, _));
    close_where(is_clerk, held)
}
