//! What holds of every run.

ghost use Rattle.std.specs.Prelude.{◌≡◌, ℕ, true, List, [], ◌∷◌};
ghost use Rattle.clocks.specs.declared.drift.Drift.{Drift};
ghost use Rattle.clocks.specs.Worked.{a_third};
ghost use Rattle.key_handle.specs.declared.handle.KeyHandle.{KeyHandle};
ghost use Rattle.grants.specs.declared.values.Grant.{Grant};
ghost use Rattle.lease_table.specs.OpenRows.{IsSent};
ghost use Rattle.grants.specs.Policies.{is_policy};
ghost use Rattle.job_calls.specs.Jobs.{Job};
ghost use Rattle.job_calls.specs.declared.timing.Reading.{Reading};
ghost use Rattle.cluster.specs.Timing.{IsTimely};
ghost use Rattle.job_calls.specs.declared.timing.Reading.TheVariants.{TableClock, TaskClock, NoClock};
ghost use Rattle.cluster.specs.Pasts.{Past, readings, table_calls};
ghost use Rattle.cluster.specs.Promises.{WasRead};
ghost use Rattle.cluster.specs.Runs.{IsRun};
ghost use Rattle.cluster.specs.Headline.{IsOwner, IsWhileHeld};
ghost use Rattle.grant_evidence.specs.Evidence.{sent_at, IsAhead};
ghost use Rattle.job_clocks.specs.Evidence.{IsSilent};
ghost use Rattle.job_clocks.specs.Within.{AreWithinDrift};
ghost use Rattle.job_clocks.specs.Serving.{MayServeByDrift};

/// Readings are timely with any skew, even 0, if each is one of the table's clock or a value of a
/// task clock, and the rates of the clocks differ by at most the drift.
pub fn timely_job_law()
    ensures { (drift : ℕ → Drift) (skew : ℕ) (readings : List Reading) → AreWithinDrift drift readings → IsTimely skew readings }
{
    clocks::timely_law();
}

/// With clocks whose rates differ by at most the drift, whoever may serve a key owns it in the
/// committed assignment; if slices have at most one owner, it is never two tasks. From the `hold`
/// of a handle to a `check` that found it continuous its task owned the key; if slices have at most
/// one owner, no other task may serve the key in between.
pub fn drift_law()
    ensures owner { (drift : ℕ → Drift) (job : Job) (past : Past) (task key : ℕ) → is_policy job.policy ≡ true → IsRun job past
        → MayServeByDrift drift past task key → IsOwner past task key }
    ensures one { (drift : ℕ → Drift) (job : Job) (past : Past) (task other key : ℕ) → is_policy job.policy ≡ true
        → job.policy.high ≡ 1 → IsRun job past → MayServeByDrift drift past task key → MayServeByDrift drift past other key
        → task ≡ other }
    ensures held { (drift : ℕ → Drift) (job : Job) (run past : Past) (task : ℕ) (handle : KeyHandle) → is_policy job.policy ≡ true
        → IsRun job run → AreWithinDrift drift (readings run) → IsWhileHeld run past task handle
        → IsOwner past task handle.key }
    ensures alone { (drift : ℕ → Drift) (job : Job) (run past : Past) (task other : ℕ) (handle : KeyHandle) → is_policy job.policy ≡ true
        → job.policy.high ≡ 1 → IsRun job run → AreWithinDrift drift (readings run) → IsWhileHeld run past task handle
        → MayServeByDrift drift past other handle.key → other ≡ task }
{
    timely_job_law();
    cluster::owner_law();
    cluster::interval_law();
}

/// What evidence shows, and what it does not. A grant tells the reading of an earlier call of the
/// table. So if it is ahead of a reading of a task's clock, the clocks are not timely, and their
/// rates differ by more than any drift that task clocks were given, or a sample was no answer of
/// the table. But clocks may be untimely without a grant that tells it.
pub fn evidence_law()
    ensures sent { (job : Job) (past : Past) (grant : Grant) → IsRun job past → IsSent (table_calls past) grant
        → WasRead past (sent_at job.policy grant) }
    ensures shows { (job : Job) (past : Past) (grant : Grant) (at : ℕ) → IsRun job past → IsSent (table_calls past) grant
        → IsAhead job.policy grant at → IsTimely job.policy.skew (TaskClock at ∷ readings past) → ⊥ }
    ensures drift { (drift : ℕ → Drift) (job : Job) (past : Past) (grant : Grant) (at : ℕ) → IsRun job past
        → IsSent (table_calls past) grant → IsAhead job.policy grant at
        → AreWithinDrift drift (TaskClock at ∷ readings past) → ⊥ }
    ensures silent { (job : Job) → IsSilent job }
{
    cluster::told_law();
    timely_job_law();
}

/// A worked example, in which the premise holds: a task reads 104 just after the table read 100.
pub fn worked_law()
    ensures { AreWithinDrift (λ life. a_third) (TaskClock 104 ∷ NoClock ∷ TableClock 100 ∷ []) }
{}
