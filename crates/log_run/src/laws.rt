//! Laws about audits of logs.

ghost use Rattle.std.specs.Prelude.{◌≡◌, ◌^◌, ◌-◌, ◌∷◌, ◌++◌, List, None};
ghost use Rattle.clocks.specs.declared.drift.Drift.{Drift};
ghost use Rattle.clocks.specs.Pasts.{KeepsDrift, Past as ClockPast, Sampled, SamplesAreAnswers};
ghost use Rattle.clocks.specs.Timely.{clock_after};
ghost use Rattle.job_calls.specs.Jobs.{Job};
ghost use Rattle.cluster.specs.Pasts.{Past};
ghost use Rattle.cluster.specs.continued.Jobs.{from_start};
ghost use Rattle.cluster.specs.continued.Snapshots.{Remembered, continued_from};
ghost use Rattle.log_line.specs.declared.entry.LogEntry.{LogEntry};
ghost use Rattle.log_line.specs.declared.line.TaskSample.{TaskSample};
ghost use Rattle.log_run.specs.Days.{AreRunTo, GoOnTo};
ghost use Rattle.log_run.specs.Drifts.{fault_of, samples_in};
ghost use Rattle.log_run.specs.OneRun.{Tells};

/// States that logs which are audited day by day are one run.
///
/// If the calls of earlier logs are one run, and those of later logs are one that goes on from it,
/// whatever is remembered of it, all of them are one run, unless a later call was refused as not
/// sent. If the clocks were timely in both, they were in the whole run.
pub fn days_law()
    ensures run { (own : Job) (remembered : Remembered) (before later : List LogEntry) (past after : Past) → AreRunTo own before past
        → GoOnTo (continued_from own past remembered) later after → AreRunTo own (before ++ later) after }
    ensures timely { (own : Job) (remembered : Remembered) (before later : List LogEntry) (past after : Past) → Tells (from_start own) before past None
        → Tells (continued_from own past remembered) later after None → Tells (from_start own) (before ++ later) after None }
{
    cluster::continued_law();
}

/// States that a wrong sample shows that clocks did not keep their drift.
///
/// If the clocks keep a drift, and each sample is an earlier answer of the table, no sample is
/// wrong by those that the task's clock took before.
pub fn drift_law()
    ensures { (drift : Drift) (past : ClockPast) (taken : TaskSample) → KeepsDrift drift (Sampled taken.now taken.sample ∷ past)
        → SamplesAreAnswers (Sampled taken.now taken.sample ∷ past)
        → fault_of (clock_after drift (2 ^ 64 - 1) (samples_in past)) taken ≡ None }
{
    clocks::timely_law();
}
