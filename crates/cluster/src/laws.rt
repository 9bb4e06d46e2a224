//! Laws that hold of every run, stated over calls and their replies.

ghost use Rattle.std.specs.Prelude.{◌≡◌, ℕ, ◌<◌, ◌≤◌, ◌++◌, ◌⊎◌, ◌∷◌, true, false, Some, Result, IsTrue, Contains};
ghost use Rattle.machines.specs.Calls.{answered_call};
ghost use Rattle.machines.specs.Numbers.{is_within};
ghost use Rattle.slice_ranges.specs.declared.key.TheConstants.{KEYS};
ghost use Rattle.lease_rule.specs.declared.lease.Kind.{Kind};
ghost use Rattle.lease_rule.specs.declared.answer.Verdict.TheVariants.{Allow};
ghost use Rattle.key_handle.specs.declared.handle.KeyHandle.{KeyHandle};
ghost use Rattle.grants.specs.declared.table_call.TableCall.TheVariants.{Free};
ghost use Rattle.grants.specs.declared.table_call.TableReply.{TableReply};
ghost use Rattle.grants.specs.declared.table_error.TableError.{TableError};
ghost use Rattle.grants.specs.declared.values.Grant.{Grant};
ghost use Rattle.grants.specs.declared.values.ReleaseNote.{ReleaseNote};
ghost use Rattle.grants.specs.Policies.{is_policy};
ghost use Rattle.lease_table.specs.Calls.{last_reading};
ghost use Rattle.lease_table.specs.Runs.{IsRun as IsTableRun, commits_in};
ghost use Rattle.lease_table.specs.Generations.{assignment_in, newest_generation};
ghost use Rattle.lease_table.specs.OpenRows.{IsSent};
ghost use Rattle.slicelet.specs.Calls.{held_grant};
ghost use Rattle.slicelet.specs.Rules.{covers_key};
ghost use Rattle.slicelet.specs.Accepted.{AreAccepted};
ghost use Rattle.slicelet.specs.Continuity.{is_strange};
ghost use Rattle.slicelet.specs.Laws.{AgreeOnHeard};
ghost use Rattle.job_calls.specs.Jobs.{Job};
ghost use Rattle.cluster.specs.continued.Jobs.{Continued};
ghost use Rattle.cluster.specs.continued.Runs as continued;
ghost use Rattle.cluster.specs.continued.Snapshots.{Remembered, IsAllSent, continued_from};
ghost use Rattle.job_calls.specs.declared.call.ClusterCall.TheVariants as call;
ghost use Rattle.job_calls.specs.declared.reply.ClusterReply.{ClusterReply};
ghost use Rattle.job_calls.specs.declared.timing.Reading.TheVariants.{TaskClock};
ghost use Rattle.cluster.specs.Timing.{IsTimely};
ghost use Rattle.cluster.specs.Pasts.{Past, event, readings, table_calls, task_calls, history};
ghost use Rattle.cluster.specs.Deliveries.{notes_made, is_given};
ghost use Rattle.cluster.specs.Replies.{covers, rule_in};
ghost use Rattle.cluster.specs.Runs.{IsRun};
ghost use Rattle.cluster.specs.Headline.{MayServe, IsOwner, IsWhileHeld};
ghost use Rattle.cluster.specs.Promises.{IsServedByRule, IsHeldByRule, IsCheckedByHistory, IsNoteOf, WasRead};

/// States that in every run the calls of the table and its answers are a run of the table.
///
/// The slicelet of each task accepts the calls that the run records as accepted by it.
pub fn told_law()
    ensures table { (job : Job) (past : Past) → IsRun job past → IsTableRun job.policy (table_calls past) }
    ensures tasks { (job : Job) (past : Past) (task : ℕ) → IsRun job past → AreAccepted task (task_calls task past) }
{}

/// States that every lease held in a run, and every note made or freed, was sent.
///
/// Every lease that a task holds was sent by the table, and to this task. Every note that was made
/// or freed was sent by its task. The table's last reading is that of an earlier call, or 0 if it
/// has accepted none.
pub fn sent_law()
    ensures held { (job : Job) (past : Past) (task : ℕ) (kind : Kind) (grant : Grant) → IsRun job past
        → held_grant kind (task_calls task past) ≡ Some grant → IsSent (table_calls past) grant }
    ensures own { (job : Job) (past : Past) (task : ℕ) (kind : Kind) (grant : Grant) → IsRun job past
        → held_grant kind (task_calls task past) ≡ Some grant → grant.task ≡ task }
    ensures made { (job : Job) (past : Past) (note : ReleaseNote) → IsRun job past
        → Contains (notes_made past) note → IsNoteOf past note }
    ensures freed { (job : Job) (past : Past) (note : ReleaseNote) (at : ℕ) (answer : Result TableReply TableError) → IsRun job past
        → Contains (table_calls past) (answered_call (Free note at) answer) → IsNoteOf past note }
    ensures reading { (past : Past) → (last_reading (table_calls past) ≡ 0) ⊎ WasRead past (last_reading (table_calls past)) }
{
    slicelet::held_law();
}

/// States that the ranges of each lease that a task heard are the keys that the task owns.
///
/// A key is in the ranges exactly if the task owns it in the generations that the lease is for.
pub fn covers_law()
    ensures { (job : Continued) (past : Past) (task key : ℕ) → is_policy job.policy ≡ true → continued.IsRun job past → key < KEYS
        → AgreeOnHeard (covers_key key) (covers past key) (task_calls task past) }
{
    lease_table::covers_law();
}

/// States what a run tells that goes on from earlier calls of which some things are forgotten.
///
/// The earlier calls are a run, and so are all calls, if no reply since was that something was not
/// sent: whatever is remembered, each of these replies is the one that all earlier calls give.
pub fn continued_law()
    ensures earlier { (job : Job) (past : Past) (remembered : Remembered) → IsRun job past
        → continued.IsRun (continued_from job past remembered) past }
    ensures whole { (job : Job) (past later : Past) (remembered : Remembered) → IsRun job past
        → continued.IsRun (continued_from job past remembered) (later ++ past) → IsAllSent later
        → IsRun job (later ++ past) }
{}

/// States that the slices of a known generation, committed or proposed, never change.
pub fn known_generations_law()
    ensures { (job : Job) (later past : Past) (generation : ℕ) → IsRun job (later ++ past)
        → generation ≤ newest_generation (table_calls past)
        → assignment_in generation (table_calls (later ++ past)) ≡ assignment_in generation (table_calls past) }
{
    lease_table::assignments_law();
}

/// States that neither commits nor the generations of grants go back.
///
/// Commits never become fewer. Of two grants that were sent, the one with the greater number is of
/// the same generation or a later one.
pub fn order_law()
    ensures commits { (later past : Past) → commits_in (table_calls past) ≤ commits_in (table_calls (later ++ past)) }
    ensures grants { (job : Job) (past : Past) (grant later : Grant) → is_policy job.policy ≡ true → IsRun job past
        → IsSent (table_calls past) grant → IsSent (table_calls past) later → grant.number ≤ later.number
        → grant.lease.generation ≤ later.lease.generation }
{}

/// States that with timely clocks a key is served under no generation before the committed one.
///
/// If the rule allows a key at a timely reading, the generation that it returns is the committed
/// one or a later one.
pub fn reached_law()
    ensures { (job : Job) (past : Past) (task key at : ℕ) (kind : Kind) (generation : ℕ) → is_policy job.policy ≡ true → IsRun job past
        → IsTimely job.policy.skew (TaskClock at ∷ readings past) → rule_in past task key at ≡ Allow kind generation
        → commits_in (table_calls past) ≤ generation }
{
    lease_table::leases_law();
    lease_table::rows_law();
    slicelet::held_law();
    slicelet::covering_lease_law();
}

/// States that `serve` and `hold` follow the written rule.
///
/// A `serve` returns what the written rule says of its key on the calls that its task accepted. A
/// `hold` returns a handle if the rule allows its key, and otherwise why the rule does not.
pub fn rule_law()
    ensures serve { (job : Job) (past : Past) (task key at : ℕ) (told : ClusterReply)
        → IsRun job (event (call.Serve task key at) told ∷ past) → IsServedByRule job past task key at told }
    ensures hold { (job : Job) (past : Past) (task key at : ℕ) (told : ClusterReply)
        → IsRun job (event (call.Hold task key at) told ∷ past) → IsHeldByRule job past task key at told }
{}

/// States when a handle is continuous.
///
/// A handle that was made, and that the task can have returned, is continuous exactly if no call
/// since it was taken has taken its key away. Otherwise it is broken.
pub fn handle_law()
    ensures { (job : Job) (past : Past) (task : ℕ) (handle : KeyHandle) (at : ℕ) (told : ClusterReply)
        → IsRun job (event (call.Check task handle at) told ∷ past) → IsTrue (is_within task job.tasks)
        → is_given past handle ≡ true → is_strange (history task past) handle ≡ false
        → IsCheckedByHistory past task handle at told }
{}

/// States that with timely clocks a task that may serve a key owns it in the committed assignment.
///
/// If a slice has at most one owner, two tasks may never serve one key. Each point of a run is the
/// end of a run, so this holds at every point.
pub fn owner_law()
    ensures owner { (job : Job) (past : Past) (task key : ℕ) → is_policy job.policy ≡ true → IsRun job past
        → MayServe job past task key → IsOwner past task key }
    ensures one { (job : Job) (past : Past) (task other key : ℕ) → is_policy job.policy ≡ true
        → job.policy.high ≡ 1 → IsRun job past → MayServe job past task key → MayServe job past other key
        → task ≡ other }
{
    lease_table::leases_law();
    lease_table::rows_law();
    lease_table::assignments_law();
    assignment::one_owner_law();
    slicelet::held_law();
    slicelet::covering_lease_law();
}

/// States what a continuous handle proves in a run whose clocks were timely.
///
/// If a `check` by a task found a handle continuous, the task owned its key in the committed
/// assignment at each point from the handle's `hold` to that `check`. If a slice has at most one
/// owner, no other task may serve the key at any of these points.
pub fn interval_law()
    ensures owner { (job : Job) (run past : Past) (task : ℕ) (handle : KeyHandle) → is_policy job.policy ≡ true → IsRun job run
        → IsTimely job.policy.skew (readings run) → IsWhileHeld run past task handle → IsOwner past task handle.key }
    ensures alone { (job : Job) (run past : Past) (task other : ℕ) (handle : KeyHandle) → is_policy job.policy ≡ true
        → job.policy.high ≡ 1 → IsRun job run → IsTimely job.policy.skew (readings run)
        → IsWhileHeld run past task handle → MayServe job past other handle.key → other ≡ task }
{
    lease_table::leases_law();
    slicelet::agreement_law();
    slicelet::between_law();
    known_generations_law();
    owner_law();
}
