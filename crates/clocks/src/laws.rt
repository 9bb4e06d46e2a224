//! What holds of every past.

ghost use Rattle.std.specs.Prelude.{◌≡◌, ℕ, ◌<◌, ◌≤◌, [], ◌∷◌};
ghost use Rattle.clocks.specs.declared.drift.Drift.{Drift};
ghost use Rattle.clocks.specs.Restarts.{TablePast, readings_in, EachKeepsDrift};
ghost use Rattle.clocks.specs.Worked.{a_third, two_processes, worked};
ghost use Rattle.clocks.specs.Pasts.{Moment, Past, TableRead, GainsWithin, KeepsDrift, SamplesAreAnswers};
ghost use Rattle.clocks.specs.Ticks.{GainsExactly, in_ticks, CoversTicks, IsOutOfStep};
ghost use Rattle.clocks.specs.Timely.{IsTimely, IsFresh, IsClose, IsRising, IsBest, clock_after, values_of, samples_of};

/// Each value that a task's clock returns is at or above every reading of the table's clock before
/// it, if the table's clock gains on the task's local clock no more than the drift, and each sample
/// is an earlier answer of the table.
pub fn timely_law()
    ensures { (drift : Drift) (oldest : ℕ) (past : Past) → KeepsDrift drift past → SamplesAreAnswers past → IsTimely drift oldest past }
{}

/// The price: if some sample was sent at most `age` ticks before each value that is returned, no
/// value is above the greatest reading of the table before it by more than the drift over `age`. A
/// clock returns no value if all its samples are older than its `oldest`, so this always holds for
/// that age. It needs no drift premise.
pub fn close_law()
    ensures fresh { (drift : Drift) (oldest age : ℕ) (past : Past) → SamplesAreAnswers past → IsFresh drift oldest age past
        → IsClose drift oldest age past }
    ensures always { (drift : Drift) (oldest : ℕ) (past : Past) → SamplesAreAnswers past → IsClose drift oldest oldest past }
{}

/// Whatever the table's clock does, a task's clock keeps one of the samples that it took, and none of
/// the others has a lower reach at any later local reading; and no value is below an earlier one.
pub fn keeping_law()
    ensures best { (drift : Drift) (oldest : ℕ) (past : Past) → IsBest drift (clock_after drift oldest past) (samples_of drift oldest past) }
    ensures rising { (drift : Drift) (oldest : ℕ) (past : Past) → IsRising (values_of drift oldest past) }
{}

/// The readings of the table's clock keep the drift as a whole, over any number of restarts on any
/// hosts, if each process alone keeps it, and opens the clock with a value that was kept well: not
/// below the last reading, and below it with `ahead` added by at least the grain and one tick. The
/// time in which no process runs does not count, and no reading is below an earlier one.
pub fn restart_law()
    ensures { (drift : Drift) (ahead : ℕ) (past : TablePast) → EachKeepsDrift drift ahead past → KeepsDrift drift (readings_in ahead past) }
{}

/// Clocks that show whole ticks, rounded down, keep a drift whose grain is 1 more than the drift,
/// rounded up, if the clocks themselves keep its ratio exactly: 1 if there is no drift, 2 for a
/// drift of at most 1. With any drift, 1 is not enough.
pub fn ticks_law()
    ensures enough { (drift : Drift) (units : ℕ) (late early : Moment) → 0 < units → CoversTicks drift → GainsExactly drift late early
        → GainsWithin drift (in_ticks units late) (in_ticks units early) }
    ensures least { (drift : Drift) → 0 < drift.extra → drift.grain ≤ 1 → IsOutOfStep drift }
{}

/// A worked example, in which the premises hold: a task reads 104 and then 109, just above the
/// table's 108; and the table's clock runs in two processes within the drift.
pub fn worked_law()
    ensures paced { KeepsDrift a_third worked }
    ensures honest { SamplesAreAnswers worked }
    ensures values { values_of a_third 20 worked ≡ 109 ∷ 104 ∷ [] }
    ensures each { EachKeepsDrift a_third 10 two_processes }
    ensures readings { readings_in 10 two_processes
        ≡ TableRead (record { table = 61; local = 213 }) ∷ TableRead (record { table = 50; local = 150 }) ∷ [] }
{}
