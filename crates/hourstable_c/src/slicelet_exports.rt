//! Exports for slicelets.

ghost use Rattle.std.specs.Prelude.{◌≡◌, ⊤};
ghost use Rattle.slice_ranges.specs.Hash.{slice_key};
ghost use Rattle.slicelet.specs.States.{newest_covering};
ghost use Rattle.c_calls.specs.Arguments.{kind_of, slice_key_of};
ghost use Rattle.c_calls.specs.Details.{covering_details};
ghost use Rattle.c_calls.specs.Jobs.{job_of};
ghost use Rattle.c_calls.specs.Outputs.{output};
ghost use Rattle.hourstable_c.specs.declared.held.Held.TheVariants as held;
ghost use Rattle.c_calls.specs.slicelets.Keys.{rule_for, taken_by};
ghost use Rattle.c_calls.specs.slicelets.KeyHandles.{check_answer, handle_of, hold_numbers};
ghost use Rattle.c_calls.specs.slicelets.Leases.{IsServed};
ghost use Rattle.c_calls.specs.slicelets.Releases.{IsReleased};
ghost use Rattle.c_calls.specs.slicelets.SliceKeys.{IsServedAt, covering_told, hold_numbers_at};
ghost use Rattle.c_calls.specs.slicelets.Calls.{IsGrantHeard, IsStarted, opened_slicelet};
ghost use Rattle.hourstable_c.specs.Kinds.{is_slicelet};
ghost use Rattle.hourstable_c.specs.Opened.{AtPlace, IsClosed, IsOpened, with_job};
ghost use Rattle.hourstable_c.specs.Places.{OnSlicelet};
ghost use Rattle.hourstable_c.specs.Returned.{Returns, Tells};

use crate::held::Held;
use crate::place::Place;
use crate::place_exports::close_where;
use c_calls::slicelets::{
    HandleNumbers, check, hear, hold, hold_at, open_slicelet, release, serve, serve_at, start,
};
use c_calls::{Answer, AnswerDetails, job_of};
use std::alloc::Global;

/// Creates a new slicelet of a job in `place`, destroying what was there.
#[unsafe(no_mangle)]
pub extern "C" fn hs_slicelet_open(alloc: Global, place: &mut Place, job: &[u8], task: u64) -> i32
    ensures { AtPlace (IsOpened (λ p. held.Slicelet p.0 p.1) (with_job (job_of job.now) (opened_slicelet task))) place.old.value place.new.value result }
{
    let Some(held) = place.held() else {
        return Answer::OtherPlace.number();
    };
    let Some(job) = job_of(job) else {
        return Answer::WrongForm.number();
    };
    match open_slicelet(alloc, task) {
        Some(slicelet) => {
            held.put(Held::Slicelet(job, slicelet));
            Answer::Done.number()
        }
        None => Answer::WrongForm.number(),
    }
}

/// Starts a life of the task. The call takes no memory.
#[unsafe(no_mangle)]
#[tactic(auto, using(crate::proofs::Returning::returns))]
pub extern "C" fn hs_slicelet_start(place: &mut Place, life: u32, at: u64) -> i32
    ensures { OnSlicelet place.old.value place.new.value ⊤ result
        (λ job old new. Returns (IsStarted life at old new) result) }
{
    let Some(held) = place.held() else {
        return Answer::OtherPlace.number();
    };
    match held {
        Held::Slicelet(_, slicelet) => start(slicelet, life, at).number(),
        _ => Answer::OtherPlace.number(),
    }
}

/// Decodes a grant from its message and hears it; `told` has its lease.
#[unsafe(no_mangle)]
#[tactic(auto, using(crate::proofs::Returning::tells))]
pub extern "C" fn hs_slicelet_hear(
    alloc: Global,
    place: &mut Place,
    grant: &[u8],
    at: u64,
    told: &mut AnswerDetails,
) -> i32
    ensures { OnSlicelet place.old.value place.new.value (told.new ≡ told.old) result
        (λ job old new. Tells (IsGrantHeard job grant.now at old new) told.old told.new result) }
{
    let Some(held) = place.held() else {
        return Answer::OtherPlace.number();
    };
    match held {
        Held::Slicelet(job, slicelet) => hear(alloc, job, slicelet, grant, at).tell(told),
        _ => Answer::OtherPlace.number(),
    }
}

/// Releases the lease of a kind, and writes the message of its note to `out`.
#[unsafe(no_mangle)]
#[tactic(auto, using(crate::proofs::Returning::returns))]
pub extern "C" fn hs_slicelet_release(
    alloc: Global,
    place: &mut Place,
    kind: u32,
    at: u64,
    out: &mut [u8],
    needed: &mut usize,
) -> i32
    ensures { OnSlicelet place.old.value place.new.value (output out.new needed.new ≡ output out.old needed.old) result
        (λ job old new. Returns (IsReleased job (kind_of kind) at old new (output out.old needed.old) (output out.new needed.new)) result) }
{
    let Some(held) = place.held() else {
        return Answer::OtherPlace.number();
    };
    match held {
        Held::Slicelet(job, slicelet) => {
            release(alloc, job, slicelet, kind, at, out, needed).number()
        }
        _ => Answer::OtherPlace.number(),
    }
}

/// Returns whether the task may serve a key; `told` has the lease under which it may, and the
/// greatest generation of the held leases that cover the key.
#[unsafe(no_mangle)]
#[tactic(auto, using(crate::proofs::Returning::tells))]
pub extern "C" fn hs_slicelet_serve(
    place: &mut Place,
    key: &[u8],
    at: u64,
    told: &mut AnswerDetails,
) -> i32
    ensures { OnSlicelet place.old.value place.new.value (told.new ≡ told.old) result
        (λ job old new. (new ≡ old) × Tells (IsServed (rule_for key.now old at) old)
        (covering_details (newest_covering old (slice_key key.now)) told.old) told.new result) }
{
    let Some(held) = place.read() else {
        return Answer::OtherPlace.number();
    };
    match held {
        Held::Slicelet(_, slicelet) => serve(slicelet, key, at, &mut told.covering).tell(told),
        _ => Answer::OtherPlace.number(),
    }
}

/// Returns whether the task may serve the keys of a slice key, as [`hs_slicelet_serve`] does.
#[unsafe(no_mangle)]
#[tactic(auto, using(crate::proofs::Returning::tells))]
pub extern "C" fn hs_slicelet_serve_at(
    place: &mut Place,
    slice_key: u64,
    at: u64,
    told: &mut AnswerDetails,
) -> i32
    ensures { OnSlicelet place.old.value place.new.value (told.new ≡ told.old) result
        (λ job old new. (new ≡ old) × Tells (IsServedAt (slice_key_of slice_key) old at)
        (covering_told (slice_key_of slice_key) old told.old) told.new result) }
{
    let Some(held) = place.read() else {
        return Answer::OtherPlace.number();
    };
    match held {
        Held::Slicelet(_, slicelet) => {
            serve_at(slicelet, slice_key, at, &mut told.covering).tell(told)
        }
        _ => Answer::OtherPlace.number(),
    }
}

/// Takes a handle on a key, if the task may serve it, and tells what [`hs_slicelet_serve`] tells.
#[unsafe(no_mangle)]
#[tactic(auto, using(crate::proofs::Returning::tells))]
pub extern "C" fn hs_slicelet_hold(
    place: &mut Place,
    key: &[u8],
    at: u64,
    out: &mut HandleNumbers,
    told: &mut AnswerDetails,
) -> i32
    ensures { OnSlicelet place.old.value place.new.value ((told.new ≡ told.old) × (out.new ≡ out.old)) result
        (λ job old new. (new ≡ old)
        × (out.new ≡ hold_numbers (taken_by (rule_for key.now old at) key.now old) out.old)
        × Tells (IsServed (rule_for key.now old at) old)
        (covering_details (newest_covering old (slice_key key.now)) told.old) told.new result) }
{
    let Some(held) = place.read() else {
        return Answer::OtherPlace.number();
    };
    match held {
        Held::Slicelet(_, slicelet) => hold(slicelet, key, at, out, &mut told.covering).tell(told),
        _ => Answer::OtherPlace.number(),
    }
}

/// Takes a handle on the keys of a slice key, as [`hs_slicelet_hold`] does.
#[unsafe(no_mangle)]
#[tactic(auto, using(crate::proofs::Returning::tells))]
pub extern "C" fn hs_slicelet_hold_at(
    place: &mut Place,
    slice_key: u64,
    at: u64,
    out: &mut HandleNumbers,
    told: &mut AnswerDetails,
) -> i32
    ensures { OnSlicelet place.old.value place.new.value ((told.new ≡ told.old) × (out.new ≡ out.old)) result
        (λ job old new. (new ≡ old)
        × (out.new ≡ hold_numbers_at (slice_key_of slice_key) old at out.old)
        × Tells (IsServedAt (slice_key_of slice_key) old at)
        (covering_told (slice_key_of slice_key) old told.old) told.new result) }
{
    let Some(held) = place.read() else {
        return Answer::OtherPlace.number();
    };
    match held {
        Held::Slicelet(_, slicelet) => {
            hold_at(slicelet, slice_key, at, out, &mut told.covering).tell(told)
        }
        _ => Answer::OtherPlace.number(),
    }
}

/// Returns whether the task held the handle's key since the handle was taken, and may serve it now.
#[unsafe(no_mangle)]
#[tactic(auto, using(crate::proofs::Returning::returns))]
pub extern "C" fn hs_slicelet_check(place: &mut Place, handle: &HandleNumbers, at: u64) -> i32
    ensures { OnSlicelet place.old.value place.new.value ⊤ result
        (λ job old new. (new ≡ old) × Returns (λ answer. answer ≡ check_answer (handle_of handle.now) old at) result) }
{
    let Some(held) = place.read() else {
        return Answer::OtherPlace.number();
    };
    match held {
        Held::Slicelet(_, slicelet) => check(slicelet, handle, at).number(),
        _ => Answer::OtherPlace.number(),
    }
}

/// Destroys the slicelet and leaves `place` empty.
#[unsafe(no_mangle)]
pub extern "C" fn hs_slicelet_close(place: &mut Place) -> i32
    ensures { AtPlace (λ was now number. IsClosed (is_slicelet was) was now number) place.old.value place.new.value result }
{
    let Some(held) = place.held() else {
        return Answer::OtherPlace.number();
    };
    let is_slicelet = matches!(held, Held::Slicelet(_, _));
    close_where(is_slicelet, held)
}
