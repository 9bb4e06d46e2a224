//! Exports for assigners and plans.

ghost use Rattle.std.specs.Prelude.{◌≡◌, None, ⊤};
ghost use Rattle.assigner.specs.Terms.{adopted_term};
ghost use Rattle.c_calls.specs.declared.answer.Answer.TheVariants.{Done};
ghost use Rattle.c_calls.specs.Jobs.{job_of};
ghost use Rattle.c_calls.specs.AnswerNumbers.{answer_number};
ghost use Rattle.c_calls.specs.Outputs.{output};
ghost use Rattle.hourstable_c.specs.declared.held.Held.TheVariants as held;
ghost use Rattle.c_calls.specs.Assigners.{IsNext, adopt_answer, next_numbers, opened_assigner};
ghost use Rattle.c_calls.specs.Plans.{IsPlannedFor, wanted};
ghost use Rattle.c_calls.specs.PolicyNumbers.{plan_terms_of};
ghost use Rattle.c_calls.specs.tables.Terms.{phase_of, term_of};
ghost use Rattle.hourstable_c.specs.Kinds.{is_assigner};
ghost use Rattle.hourstable_c.specs.Opened.{AtPlace, IsClosed, IsOpened};
ghost use Rattle.hourstable_c.specs.Places.{OnAssigner};
ghost use Rattle.hourstable_c.specs.Returned.{Returns};

use crate::held::Held;
use crate::place::Place;
use crate::place_exports::close_where;
use c_calls::assigners::{adopt, next, open_assigner};
use c_calls::tables::{PhaseNumbers, TermNumbers};
use c_calls::{Answer, PlanPolicyNumbers, plan};
use std::alloc::Global;

/// Creates a new assigner in `place`, destroying what was there. It keeps no term.
#[unsafe(no_mangle)]
pub extern "C" fn hs_assigner_open(place: &mut Place, id: u64, job: u64) -> i32
    ensures { AtPlace (IsOpened held.Assigner (opened_assigner id job)) place.old.value place.new.value result }
{
    let Some(held) = place.held() else {
        return Answer::OtherPlace.number();
    };
    match open_assigner(id, job) {
        Some(assigner) => {
            held.put(Held::Assigner(assigner));
            Answer::Done.number()
        }
        None => Answer::WrongForm.number(),
    }
}

/// Keeps a term that a table gave.
#[unsafe(no_mangle)]
pub extern "C" fn hs_assigner_adopt(place: &mut Place, term: &TermNumbers) -> i32
    ensures { OnAssigner place.old.value place.new.value ⊤ result
        (λ old new. (result ≡ answer_number (adopt_answer old (term_of term.now)))
        × (new ≡ record old { term = adopted_term old.id (term_of term.now) old.term })) }
{
    let Some(held) = place.held() else {
        return Answer::OtherPlace.number();
    };
    match held {
        Held::Assigner(assigner) => adopt(assigner, term).number(),
        _ => Answer::OtherPlace.number(),
    }
}

/// Drops the kept term.
#[unsafe(no_mangle)]
pub extern "C" fn hs_assigner_drop_term(place: &mut Place) -> i32
    ensures { OnAssigner place.old.value place.new.value ⊤ result
        (λ old new. (result ≡ answer_number Done) × (new ≡ record old { term = None })) }
{
    let Some(held) = place.held() else {
        return Answer::OtherPlace.number();
    };
    match held {
        Held::Assigner(assigner) => {
            assigner.drop_term();
            Answer::Done.number()
        }
        _ => Answer::OtherPlace.number(),
    }
}

/// Writes what to do next to `action`, and the number of the kept term to `number`.
#[unsafe(no_mangle)]
#[tactic(auto, using(crate::proofs::Returning::returns))]
pub extern "C" fn hs_assigner_next(
    place: &mut Place,
    at: u64,
    phase: &PhaseNumbers,
    wanted: u32,
    action: &mut u32,
    number: &mut u64,
) -> i32
    ensures { OnAssigner place.old.value place.new.value ((action.new ≡ action.old) × (number.new ≡ number.old)) result
        (λ old new. (new ≡ old) × Returns (IsNext (phase_of phase.now) old at wanted (next_numbers action.old number.old)
        (next_numbers action.new number.new)) result) }
{
    let Some(held) = place.read() else {
        return Answer::OtherPlace.number();
    };
    match held {
        Held::Assigner(assigner) => next(assigner, at, phase, wanted, action, number).number(),
        _ => Answer::OtherPlace.number(),
    }
}

/// Destroys the assigner and leaves `place` empty.
#[unsafe(no_mangle)]
pub extern "C" fn hs_assigner_close(place: &mut Place) -> i32
    ensures { AtPlace (λ was now number. IsClosed (is_assigner was) was now number) place.old.value place.new.value result }
{
    let Some(held) = place.held() else {
        return Answer::OtherPlace.number();
    };
    let is_assigner = matches!(held, Held::Assigner(_));
    close_where(is_assigner, held)
}

/// Plans the assignment of the next generation, and writes its message to `out`.
#[unsafe(no_mangle)]
#[tactic(auto, using(crate::proofs::Returning::returns))]
pub extern "C" fn hs_plan(
    alloc: Global,
    job: &[u8],
    assignment: &[u8],
    loads: &[u64],
    tasks: &[u64],
    policy: &PlanPolicyNumbers,
    out: &mut [u8],
    needed: &mut usize,
) -> i32
    ensures { Returns (IsPlannedFor (job_of job.now) assignment.now (wanted loads.now tasks.now (plan_terms_of policy.now))
        (output out.old needed.old) (output out.new needed.new)) result }
{
    plan(alloc, job, assignment, loads, tasks, policy, out, needed).number()
}
