//! The export for grants on their way into a task.

ghost use Rattle.std.specs.Prelude.{◌≡◌};
ghost use Rattle.c_calls.specs.Outputs.{output};
ghost use Rattle.log_lines.specs.Receipts.{IsReceived, received};
ghost use Rattle.hourstable_c.specs.Places.{OnSlicelet};
ghost use Rattle.hourstable_c.specs.Returned.{Returns};

use crate::held::Held;
use crate::place::Place;
use c_calls::{Answer, PolicyNumbers};
use clocks::TaskClockNumbers;
use log_lines::{ReceiptNumbers, receive};
use std::alloc::Global;

/// Receives a grant, given as its message: reads the task's clock, hears the grant unless it shows
/// that clocks are not timely, and writes the line.
#[unsafe(no_mangle)]
#[tactic(auto, using(crate::proofs::Returning::returns))]
pub extern "C" fn hs_slicelet_receive(
    alloc: Global,
    place: &mut Place,
    clock: &mut TaskClockNumbers,
    now: u64,
    policy: &PolicyNumbers,
    grant: &[u8],
    receipt: &mut ReceiptNumbers,
    out: &mut [u8],
    needed: &mut usize,
) -> i32
    ensures { OnSlicelet place.old.value place.new.value
        ((clock.new ≡ clock.old) × (receipt.new ≡ receipt.old) × (output out.new needed.new ≡ output out.old needed.old)) result
        (λ job old new. Returns (IsReceived job policy.now grant.now now
        (received old clock.old receipt.old (output out.old needed.old))
        (received new clock.new receipt.new (output out.new needed.new))) result) }
{
    let Some(held) = place.held() else {
        return Answer::OtherPlace.number();
    };
    match held {
        Held::Slicelet(job, slicelet) => {
            receive(
                alloc, job, slicelet, clock, now, policy, grant, receipt, out, needed,
            )
            .number()
        }
        _ => Answer::OtherPlace.number(),
    }
}
