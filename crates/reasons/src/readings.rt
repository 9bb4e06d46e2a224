//! Readings of tasks that are not timely.

ghost use Rattle.std.specs.Prelude.{◌≡◌, ℕ, List, [], ◌∷◌, MatchOption};
ghost use Rattle.std.specs.List.{AllByRecursion};
ghost use Rattle.job_calls.specs.declared.timing.Reading.{Reading};
ghost use Rattle.cluster.specs.Timing.{IsNear, greatest_reading};
ghost use Rattle.reasons.specs.Readings.{IsBehind, IsGreatestOf};

use job_calls::Reading;

/// The greatest reading of the table's clock in the calls so far.
#[derive(Clone, Copy, Debug)]
pub struct GreatestReading {
    pub(crate) skew: u64,
    // 0 before the first reading.
    pub(crate) greatest: u64,
}

impl GreatestReading {
    /// Creates the one before the first call, which is 0, with a skew in ticks.
    pub fn new(skew: u64) -> Self
        ensures { IsGreatestOf skew [] result }
    {
        GreatestReading::after(skew, 0)
    }

    /// Creates the one after earlier readings, of which `greatest` is the greatest of the table's
    /// clock, with a skew in ticks.
    pub fn after(skew: u64, greatest: u64) -> Self
        ensures { (before : List Reading) → greatest ≡ greatest_reading before → IsGreatestOf skew before result }
    {
        GreatestReading { skew, greatest }
    }

    /// Adds the reading of the next call.
    pub fn read(&mut self, reading: Reading)
        ensures { (skew : ℕ) (before : List Reading) → IsGreatestOf skew before self.old → IsGreatestOf skew (reading ∷ before) self.new }
    {
        if let Reading::TableClock(at) = reading {
            self.greatest = self.greatest.max(at);
        }
    }

    /// Returns the greatest reading of the table's clock in the calls so far, if `reading` is one of
    /// a task's clock and is more than the skew below it.
    ///
    /// `None` if `reading` is near to each reading so far, so that readings stay timely.
    pub fn untimely(&self, reading: Reading) -> Option<u64>
        ensures { (skew : ℕ) (before : List Reading) → IsGreatestOf skew before self.now
            → MatchOption result (AllByRecursion (IsNear skew reading) before)
            (λ greatest. (greatest ≡ greatest_reading before) × IsBehind skew reading greatest) }
    {
        let Reading::TaskClock(late) = reading else {
            return None;
        };
        if self.greatest > late && self.greatest - late > self.skew {
            Some(self.greatest)
        } else {
            None
        }
    }
}
