//! Laws that hold of every run, stated over steps and their replies.

ghost use Rattle.std.specs.Prelude.{◌≡◌, ℕ, List, ◌∷◌, true, false, Some, IsTrue, ◌↔◌};
ghost use Rattle.machines.specs.Numbers.{is_within};
ghost use Rattle.grants.specs.Policies.{is_policy};
ghost use Rattle.slicelet.specs.Continuity.{is_strange};
ghost use Rattle.key_handle.specs.declared.handle.KeyHandle.{KeyHandle};
ghost use Rattle.weighted_move.specs.declared.slice_plan.Plan.{Plan};
ghost use Rattle.cluster.specs.Numbers.{with_number};
ghost use Rattle.cluster.specs.Pasts.{readings};
ghost use Rattle.cluster.specs.Runs.{IsRun as IsClusterRun};
ghost use Rattle.cluster.specs.Timing.{IsTimely as AreTimely};
ghost use Rattle.world.specs.Jobs.{Job};
ghost use Rattle.world.specs.declared.step.Step.TheVariants as step;
ghost use Rattle.replies.specs.declared.reply.Reply.{Reply};
ghost use Rattle.replies.specs.declared.reply.Reply.TheVariants as reply;
ghost use Rattle.weighted_move.specs.Bounds.{Bounds};
ghost use Rattle.world.specs.Pasts.{Past, event, steps_of, IsTimely};
ghost use Rattle.world.specs.Calls.{calls_in, handles_made, history};
ghost use Rattle.world.specs.Replies.{Plain, reply_to};
ghost use Rattle.world.specs.Runs.{IsRun};
ghost use Rattle.world.specs.Headline.{is_served, IsServedByRule, IsCheckedByHistory, IsPlannedFromDraft, MayServe, IsOwner, IsWhileHeld};

/// States that the calls that a run's steps make, with their replies, are a run of the cluster.
///
/// So each law of the cluster holds of them. The calls are timely if the steps are.
pub fn calls_law()
    ensures run { (job : Job) (past : Past) → IsRun job past → IsClusterRun job (calls_in job past) }
    ensures timely { (job : Job) (skew : ℕ) (past : Past) → IsTimely skew (steps_of past)
        → AreTimely skew (readings (calls_in job past)) }
{}

/// States that a key is served exactly if the written rule allows it on what its task was told.
///
/// Each denial names its ground. So a task may serve a key exactly if at some timely reading a
/// `serve` would be answered so.
pub fn rule_law()
    ensures told { (job : Job) (past : Past) (task : ℕ) (key : List ℕ) (at : ℕ) (answer : Reply)
        → IsRun job (event (step.Serve task key at) answer ∷ past) → IsServedByRule job past task key at answer }
    ensures may { (job : Job) (past : Past) (task : ℕ) (key : List ℕ) → IsRun job past → MayServe job past task key
        ↔ ((at : ℕ) × IsTimely job.policy.skew (step.Serve task key at ∷ steps_of past)
        × IsTrue (is_served (reply_to job past (step.Serve task key at) Plain))) }
{}

/// States when a handle is continuous.
///
/// A handle that was made, and that the task can have returned, is continuous exactly if no step
/// since it was taken has taken its key away. Otherwise it is broken.
pub fn handle_law()
    ensures { (job : Job) (past : Past) (task number at : ℕ) (handle : KeyHandle) (answer : Reply)
        → IsRun job (event (step.Check task number at) answer ∷ past) → IsTrue (is_within task job.tasks)
        → with_number number (handles_made job past) ≡ Some handle → is_strange (history job task past) handle ≡ false
        → IsCheckedByHistory job past task handle at answer }
{}

/// States that the reply to a `plan` is a plan of the draft within the job's numbers of owners.
///
/// The slices of the plan make an assignment.
pub fn planned_law()
    ensures { (job : Job) (past : Past) (loads tasks : List ℕ) (bounds : Bounds) (plan : Plan)
        → IsRun job (event (step.Plan loads tasks bounds) (reply.Planned plan) ∷ past)
        → IsPlannedFromDraft job past loads tasks bounds plan }
{
    weighted_move::plan_law();
}

/// States that with timely clocks a task that may serve a key owns it in the committed assignment.
///
/// If a slice has at most one owner, two tasks may never serve one key. Each point of a run is the
/// end of a run, so this holds at every point.
pub fn owner_law()
    ensures owner { (job : Job) (past : Past) (task : ℕ) (key : List ℕ) → is_policy job.policy ≡ true → IsRun job past
        → MayServe job past task key → IsOwner job past task key }
    ensures one { (job : Job) (past : Past) (task other : ℕ) (key : List ℕ) → is_policy job.policy ≡ true
        → job.policy.high ≡ 1 → IsRun job past → MayServe job past task key → MayServe job past other key
        → task ≡ other }
{
    cluster::owner_law();
}

/// States what a continuous handle proves in a run whose clocks were timely.
///
/// If a `check` by a task found a handle continuous, the task owned its key in the committed
/// assignment at each point from the handle's `hold` to that `check`. If a slice has at most one
/// owner, no other task may serve the key at any of these points.
pub fn interval_law()
    ensures owner { (job : Job) (run past : Past) (task : ℕ) (key : List ℕ) → is_policy job.policy ≡ true → IsRun job run
        → IsTimely job.policy.skew (steps_of run) → IsWhileHeld run past task key → IsOwner job past task key }
    ensures alone { (job : Job) (run past : Past) (task other : ℕ) (key : List ℕ) → is_policy job.policy ≡ true
        → job.policy.high ≡ 1 → IsRun job run → IsTimely job.policy.skew (steps_of run)
        → IsWhileHeld run past task key → MayServe job past other key → other ≡ task }
{
    cluster::interval_law();
}
