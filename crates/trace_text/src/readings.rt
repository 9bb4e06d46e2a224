//! The readings by which steps are not timely.

ghost use Rattle.std.specs.Prelude.{◌≡◌, IfOk, map};
ghost use Rattle.world.specs.Pasts.{reading};
ghost use Rattle.trace_text.specs.Texts.{AreUntimelyOf};

use job_calls::Reading;
use reasons::{UntimelyReadings, first_untimely};
use std::alloc::{AllocError, Global};
use world::Step;

// Returns what each step reads.
fn readings_of(alloc: Global, steps: &[Step]) -> Result<Vec<Reading>, AllocError>
    ensures { IfOk result (λ readings. readings.items ≡ map reading steps.now) }
{
    let mut readings = Vec::new(alloc);
    for step in steps {
        readings.push(step.reading())?;
    }
    Ok(readings)
}

/// Returns the readings by which steps are not timely; `None` if they are timely.
pub(crate) fn untimely_of(
    alloc: Global,
    steps: &[Step],
    skew: u64,
) -> Result<Option<UntimelyReadings>, AllocError>
    ensures { IfOk result (AreUntimelyOf skew steps.now) }
{
    let readings = readings_of(alloc, steps)?;
    Ok(first_untimely(0, readings.as_slice(), skew))
}
