//! The readings by which calls are not timely.

ghost use Rattle.std.specs.Prelude.{◌≡◌, IfOk, map};
ghost use Rattle.cluster.specs.continued.Jobs.{Continued};
ghost use Rattle.log_run.specs.Starts.{Begins};
ghost use Rattle.log_trace_text.specs.Endings.{AreUntimelyOf, reading_of};

use job_calls::Reading;
use log_line::LogEntry;
use log_run::Start;
use reasons::{UntimelyReadings, first_untimely};
use std::alloc::{AllocError, Global};

// Returns what each call reads.
fn readings_of(alloc: Global, entries: &[LogEntry]) -> Result<Vec<Reading>, AllocError>
    ensures { IfOk result (λ readings. readings.items ≡ map reading_of entries.now) }
{
    let mut readings = Vec::new(alloc);
    for entry in entries {
        readings.push(entry.line.call.reading())?;
    }
    Ok(readings)
}

/// Returns the readings by which calls are not timely; `None` if they are timely.
pub(crate) fn untimely_of(
    alloc: Global,
    start: &Start,
    entries: &[LogEntry],
) -> Result<Option<UntimelyReadings>, AllocError>
    ensures { (job : Continued) → Begins job start.now → IfOk result (AreUntimelyOf job entries.now) }
{
    let readings = readings_of(alloc, entries)?;
    let earlier = start.table_reading();
    let skew = start.job.policy().skew();
    Ok(first_untimely(earlier, readings.as_slice(), skew))
}
