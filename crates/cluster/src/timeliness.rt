//! Whether clocks are timely.

ghost use Rattle.std.specs.Prelude.{◌≡◌, ℕ, List, [], ◌∷◌, MatchBool};
ghost use Rattle.job_calls.specs.declared.timing.Reading.{Reading};
ghost use Rattle.cluster.specs.Timing.{IsTimely};
ghost use Rattle.cluster.specs.Timeliness.{IsTimelinessOf, least_after};

use job_calls::Reading;

/// A check of whether the readings of a run are timely, fed one reading after another.
///
/// Readings are timely if no reading of the table's clock is more than the skew above a later
/// reading of a task's clock. Readings and skew are in ticks.
#[derive(Clone, Copy, Debug)]
pub struct Timeliness {
    pub(crate) skew: u64,
    // The least timely reading of a task's clock; `None` after a reading that was not timely.
    pub(crate) least: Option<u64>,
}

impl Timeliness {
    /// Creates the check before its first reading, with a skew in ticks.
    pub fn new(skew: u64) -> Self
        ensures { IsTimelinessOf skew [] result }
    {
        Timeliness {
            skew,
            least: Some(0),
        }
    }

    /// Adds the next reading.
    pub fn read(&mut self, reading: Reading)
        ensures { (skew : ℕ) (before : List Reading) → IsTimelinessOf skew before self.old
            → IsTimelinessOf skew (reading ∷ before) self.new }
    {
        if let Some(least) = self.least {
            self.least = least_after(reading, self.skew, least);
        }
    }

    /// Whether all readings so far are timely.
    pub fn is_timely(&self) -> bool
        ensures { (skew : ℕ) (before : List Reading) → IsTimelinessOf skew before self.now
            → MatchBool result (IsTimely skew before) (IsTimely skew before → ⊥) }
    {
        self.least.is_some()
    }
}

// Returns the least timely reading of a task's clock after a reading, or `None` if it is not timely.
fn least_after(reading: Reading, skew: u64, least: u64) -> Option<u64>
    ensures { result ≡ least_after reading skew least }
{
    match reading {
        Reading::TableClock(at) => Some(least.max(at.saturating_sub(skew))),
        Reading::TaskClock(at) => { if at < least { None } else { Some(least) } }
        Reading::NoClock => Some(least),
    }
}
