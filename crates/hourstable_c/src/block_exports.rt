//! Exports for blocks of work on a key.

ghost use Rattle.std.specs.Prelude.{◌≡◌};
ghost use Rattle.slice_ranges.specs.Hash.{slice_key};
ghost use Rattle.c_calls.specs.Outputs.{output};
ghost use Rattle.log_lines.specs.Blocks.{IsEnded, IsEntered, kept};
ghost use Rattle.hourstable_c.specs.Places.{OnSlicelet};
ghost use Rattle.hourstable_c.specs.Returned.{Returns};

use crate::held::Held;
use crate::place::Place;
use c_calls::Answer;
use clocks::TaskClockNumbers;
use log_lines::{BlockNumbers, enter, leave};
use slice_ranges::slice_key;
use std::alloc::Global;

/// Enters a block of work on a key: reads the task's clock, takes a handle, and writes the line.
#[unsafe(no_mangle)]
#[tactic(auto, using(crate::proofs::Returning::returns))]
pub extern "C" fn hs_slicelet_enter(
    alloc: Global,
    place: &mut Place,
    clock: &mut TaskClockNumbers,
    now: u64,
    key: &[u8],
    block: &mut BlockNumbers,
    out: &mut [u8],
    needed: &mut usize,
) -> i32
    ensures { OnSlicelet place.old.value place.new.value
        (kept clock.new block.new (output out.new needed.new) ≡ kept clock.old block.old (output out.old needed.old)) result
        (λ job old new. (new ≡ old) × Returns (IsEntered job (slice_key key.now) old now
        (kept clock.old block.old (output out.old needed.old)) (kept clock.new block.new (output out.new needed.new))) result) }
{
    let Some(held) = place.read() else {
        return Answer::OtherPlace.number();
    };
    match held {
        Held::Slicelet(job, slicelet) => {
            let key = slice_key(key).value();
            enter(alloc, job, slicelet, clock, now, key, block, out, needed).number()
        }
        _ => Answer::OtherPlace.number(),
    }
}

/// Enters a block of work on the keys of a slice key, as [`hs_slicelet_enter`] does.
#[unsafe(no_mangle)]
#[tactic(auto, using(crate::proofs::Returning::returns))]
pub extern "C" fn hs_slicelet_enter_at(
    alloc: Global,
    place: &mut Place,
    clock: &mut TaskClockNumbers,
    now: u64,
    slice_key: u64,
    block: &mut BlockNumbers,
    out: &mut [u8],
    needed: &mut usize,
) -> i32
    ensures { OnSlicelet place.old.value place.new.value
        (kept clock.new block.new (output out.new needed.new) ≡ kept clock.old block.old (output out.old needed.old)) result
        (λ job old new. (new ≡ old) × Returns (IsEntered job slice_key old now
        (kept clock.old block.old (output out.old needed.old)) (kept clock.new block.new (output out.new needed.new))) result) }
{
    let Some(held) = place.read() else {
        return Answer::OtherPlace.number();
    };
    match held {
        Held::Slicelet(job, slicelet) => {
            enter(
                alloc, job, slicelet, clock, now, slice_key, block, out, needed,
            )
            .number()
        }
        _ => Answer::OtherPlace.number(),
    }
}

/// Leaves a block of work: reads the task's clock, checks the handle, and writes the line.
#[unsafe(no_mangle)]
#[tactic(auto, using(crate::proofs::Returning::returns))]
pub extern "C" fn hs_slicelet_leave(
    alloc: Global,
    place: &mut Place,
    clock: &mut TaskClockNumbers,
    now: u64,
    block: &mut BlockNumbers,
    out: &mut [u8],
    needed: &mut usize,
) -> i32
    ensures { OnSlicelet place.old.value place.new.value
        (kept clock.new block.new (output out.new needed.new) ≡ kept clock.old block.old (output out.old needed.old)) result
        (λ job old new. (new ≡ old) × Returns (IsEnded job old now
        (kept clock.old block.old (output out.old needed.old)) (kept clock.new block.new (output out.new needed.new))) result) }
{
    let Some(held) = place.read() else {
        return Answer::OtherPlace.number();
    };
    match held {
        Held::Slicelet(job, slicelet) => {
            leave(alloc, job, slicelet, clock, now, block, out, needed).number()
        }
        _ => Answer::OtherPlace.number(),
    }
}
