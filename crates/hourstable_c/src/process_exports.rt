//! Exports for a task's processes, what it holds and what it does next.

ghost use Rattle.std.specs.Prelude.{◌≡◌, ◌-◌};
ghost use Rattle.c_calls.specs.Arguments.{kind_of};
ghost use Rattle.c_calls.specs.Jobs.{job_of};
ghost use Rattle.c_calls.specs.Outputs.{output};
ghost use Rattle.hourstable_c.specs.declared.held.Held.TheVariants as held;
ghost use Rattle.c_calls.specs.tables.Terms.{phase_of};
ghost use Rattle.c_calls.specs.slicelets.PermittedKeys.{ArePermittedGiven};
ghost use Rattle.c_calls.specs.slicelets.Processes.{IsHeldTold, IsNextTold, IsNoteFor, note_for, resumed_slicelet};
ghost use Rattle.hourstable_c.specs.Opened.{AtPlace, IsOpened, with_job};
ghost use Rattle.hourstable_c.specs.Places.{OnSlicelet};
ghost use Rattle.hourstable_c.specs.Returned.{Returns};
ghost use Rattle.slicelet.specs.declared.slicelet.TheConstants.{CALLS};

use crate::held::Held;
use crate::place::Place;
use c_calls::slicelets::{
    HeldNumbers, calls_left, ended_note, held, next, permitted, resume_slicelet,
};
use c_calls::tables::PhaseNumbers;
use c_calls::{Answer, job_of};
use std::alloc::Global;

/// Creates the slicelet of a task's new process in `place`, destroying what was there.
#[unsafe(no_mangle)]
pub extern "C" fn hs_slicelet_resume(
    alloc: Global,
    place: &mut Place,
    job: &[u8],
    task: u64,
    life: u32,
) -> i32
    ensures { AtPlace (IsOpened (λ p. held.Slicelet p.0 p.1) (with_job (job_of job.now) (resumed_slicelet task life)))
        place.old.value place.new.value result }
{
    let Some(held) = place.held() else {
        return Answer::OtherPlace.number();
    };
    let Some(job) = job_of(job) else {
        return Answer::WrongForm.number();
    };
    match resume_slicelet(alloc, task, life) {
        Some(slicelet) => {
            held.put(Held::Slicelet(job, slicelet));
            Answer::Done.number()
        }
        None => Answer::WrongForm.number(),
    }
}

/// Writes the message of the note that gives back all leases of a kind of a life that ended.
#[unsafe(no_mangle)]
#[tactic(auto, using(crate::proofs::Returning::returns))]
pub extern "C" fn hs_ended_note(
    alloc: Global,
    job: &[u8],
    task: u64,
    life: u32,
    kind: u32,
    out: &mut [u8],
    needed: &mut usize,
) -> i32
    ensures { Returns (IsNoteFor (job_of job.now) (note_for task life (kind_of kind))
        (output out.old needed.old) (output out.new needed.new)) result }
{
    ended_note(alloc, job, task, life, kind, out, needed).number()
}

/// Writes how many more calls the slicelet accepts.
#[unsafe(no_mangle)]
#[tactic(auto, using(crate::proofs::Returning::returns))]
pub extern "C" fn hs_slicelet_calls_left(place: &mut Place, left: &mut u64) -> i32
    ensures { OnSlicelet place.old.value place.new.value (left.new ≡ left.old) result
        (λ job old new. (new ≡ old) × (left.new ≡ CALLS - old.count) × Returns (λ answer. answer ≡ Answer.Done) result) }
{
    let Some(held) = place.read() else {
        return Answer::OtherPlace.number();
    };
    match held {
        Held::Slicelet(_, slicelet) => calls_left(slicelet, left).number(),
        _ => Answer::OtherPlace.number(),
    }
}

/// Writes the lease of a kind that the task holds, which may have ended.
#[unsafe(no_mangle)]
#[tactic(auto, using(crate::proofs::Returning::returns))]
pub extern "C" fn hs_slicelet_held(place: &mut Place, kind: u32, out: &mut HeldNumbers) -> i32
    ensures { OnSlicelet place.old.value place.new.value (out.new ≡ out.old) result
        (λ job old new. (new ≡ old) × Returns (IsHeldTold (kind_of kind) old out.old out.new) result) }
{
    let Some(thing) = place.read() else {
        return Answer::OtherPlace.number();
    };
    match thing {
        Held::Slicelet(_, slicelet) => held(slicelet, kind, out).number(),
        _ => Answer::OtherPlace.number(),
    }
}

/// Writes the boundaries of the keys that the task may serve.
#[unsafe(no_mangle)]
#[tactic(auto, using(crate::proofs::Returning::returns))]
pub extern "C" fn hs_slicelet_permitted(
    place: &mut Place,
    at: u64,
    boundaries: &mut [u64],
    needed: &mut usize,
) -> i32
    ensures { OnSlicelet place.old.value place.new.value (output boundaries.new needed.new ≡ output boundaries.old needed.old) result
        (λ job old new. (new ≡ old)
        × Returns (ArePermittedGiven old at (output boundaries.old needed.old) (output boundaries.new needed.new)) result) }
{
    let Some(held) = place.read() else {
        return Answer::OtherPlace.number();
    };
    match held {
        Held::Slicelet(_, slicelet) => permitted(slicelet, at, boundaries, needed).number(),
        _ => Answer::OtherPlace.number(),
    }
}

/// Writes the number of what the task does next about its leases, in a phase of the table.
#[unsafe(no_mangle)]
#[tactic(auto, using(crate::proofs::Returning::returns))]
pub extern "C" fn hs_slicelet_next(
    place: &mut Place,
    phase: &PhaseNumbers,
    at: u64,
    action: &mut u32,
) -> i32
    ensures { OnSlicelet place.old.value place.new.value (action.new ≡ action.old) result
        (λ job old new. (new ≡ old) × Returns (IsNextTold (phase_of phase.now) old at action.old action.new) result) }
{
    let Some(held) = place.read() else {
        return Answer::OtherPlace.number();
    };
    match held {
        Held::Slicelet(_, slicelet) => next(slicelet, phase.phase(), at, action).number(),
        _ => Answer::OtherPlace.number(),
    }
}
