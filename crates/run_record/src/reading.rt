//! The greatest reading of the table's clock.

ghost use Rattle.std.specs.Prelude.{◌≡◌};
ghost use Rattle.cluster.specs.Timing.{greater_reading};

use job_calls::Reading;

/// Returns the greatest reading of the table's clock after one more reading.
pub(crate) fn greater_reading(reading: Reading, greatest: u64) -> u64
    ensures { result ≡ greater_reading reading greatest }
{
    match reading {
        Reading::TableClock(at) => at.max(greatest),
        Reading::TaskClock(_) | Reading::NoClock => greatest,
    }
}
