//! Whether clocks were timely.

ghost use Rattle.std.specs.Prelude.{◌≡◌, reverse, MatchBool};
ghost use Rattle.world.specs.Pasts.{IsTimely, reading};

use crate::step::Step;
use cluster::Timeliness;
use job_calls::Reading;

impl Step {
    /// Returns the reading of the step: whose clock it reads, and the ticks read.
    pub fn reading(&self) -> Reading
        ensures { result ≡ reading self.now }
    {
        match self {
            Step::Take { at, .. }
            | Step::Renew { at, .. }
            | Step::Propose { at, .. }
            | Step::Commit { at, .. }
            | Step::Grant { at, .. }
            | Step::Free { at, .. } => Reading::TableClock(*at),
            Step::Start { at, .. }
            | Step::Hear { at, .. }
            | Step::Release { at, .. }
            | Step::Serve { at, .. }
            | Step::Hold { at, .. }
            | Step::Check { at, .. } => Reading::TaskClock(*at),
            _ => Reading::NoClock,
        }
    }
}

/// Whether the readings of the steps are timely.
///
/// They are timely if no earlier reading of the table, accepted or not, is more than the skew above
/// a later reading of a task. Readings and skew are in ticks.
pub fn timely(steps: &[Step], skew: u64) -> bool
    ensures { MatchBool result (IsTimely skew (reverse steps.now)) (IsTimely skew (reverse steps.now) → ⊥) }
{
    let mut readings = Timeliness::new(skew);
    for step in steps {
        readings.read(step.reading());
    }
    readings.is_timely()
}
