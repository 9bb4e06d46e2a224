//! The laws of task clocks over the steps of a script: who may serve a key with clocks whose rates
//! differ by at most a drift.
#![tactic(auto)]

ghost use Rattle.std.specs.Prelude.{◌≡◌, ℕ, List, map, ◌++◌};
ghost use Rattle.clocks.specs.declared.drift.Drift.{Drift};
ghost use Rattle.world.specs.Jobs.{Job};
ghost use Rattle.world.specs.Pasts.{Past, reading, steps_of};
ghost use Rattle.world.specs.Worlds.{LeadsTo};
ghost use Rattle.world.specs.Headline.{IsOwner, IsWhileHeld};
ghost use Rattle.job_clocks.specs.Within.{AreWithinDrift};
ghost use Rattle.world_clocks.specs.Serving.{MayServeByDrift};

use world::World;

/// With clocks whose rates differ by at most the drift, whoever may serve a key owns it in the
/// committed assignment, at every point of what led to a world; if slices have at most one owner,
/// it is never two tasks. From the `hold` of a key to a `check` that found its handle continuous
/// its task owned the key; if slices have at most one owner, no other task may serve the key in
/// between.
pub fn drift_law(world: &World)
    ensures owner { (drift : ℕ → Drift) (job : Job) (later past : Past) (task : ℕ) (key : List ℕ) → LeadsTo job (later ++ past) world.now
        → MayServeByDrift drift job past task key → IsOwner job past task key }
    ensures one { (drift : ℕ → Drift) (job : Job) (later past : Past) (task other : ℕ) (key : List ℕ) → LeadsTo job (later ++ past) world.now
        → job.policy.high ≡ 1 → MayServeByDrift drift job past task key → MayServeByDrift drift job past other key → task ≡ other }
    ensures held { (drift : ℕ → Drift) (job : Job) (later run past : Past) (task : ℕ) (key : List ℕ) → LeadsTo job (later ++ run) world.now
        → AreWithinDrift drift (map reading (steps_of run)) → IsWhileHeld run past task key → IsOwner job past task key }
    ensures alone { (drift : ℕ → Drift) (job : Job) (later run past : Past) (task other : ℕ) (key : List ℕ) → LeadsTo job (later ++ run) world.now
        → job.policy.high ≡ 1 → AreWithinDrift drift (map reading (steps_of run)) → IsWhileHeld run past task key
        → MayServeByDrift drift job past other key → other ≡ task }
{
    job_clocks::timely_job_law();
    world.headline_law();
    world.interval_law();
}
