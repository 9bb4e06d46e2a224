//! The step of plans.

ghost use Rattle.std.specs.Prelude.{◌≡◌};
ghost use Rattle.weighted_move.specs.Policies.{plan_terms_of};
ghost use Rattle.world.specs.Jobs.{Job};
ghost use Rattle.world.specs.declared.step.Step.TheVariants as step;
ghost use Rattle.world.specs.Pasts.{Past};
ghost use Rattle.world.specs.Worlds.{Keeps, Played};

use crate::actors::of_plan;
use crate::world::World;
use grants::{Policy, policy_law};
use machines::Trouble;
use replies::{Refusal, Reply};
use weighted_move::{PlanBounds, PlanPolicy, TaskSet};

// Returns the policy for a plan with these bounds in a job of this policy.
#[tactic(auto, using(crate::proofs::Planning::are_plan_terms))]
fn plan_policy(policy: Policy, bounds: PlanBounds) -> PlanPolicy
    ensures { result ≡ plan_terms_of policy.low policy.high bounds }
{
    policy_law(policy);
    PlanPolicy::with_bounds(policy.low(), policy.high(), bounds).unwrap()
}

impl World {
    pub(crate) fn plan(
        &self,
        loads: &[u64],
        tasks: &TaskSet,
        bounds: PlanBounds,
    ) -> Result<Reply, Trouble<Refusal>>
        ensures { (job : Job) (past : Past) → Keeps job past self.now
            → Played job past (step.Plan loads.now tasks.now bounds) result self.now }
    {
        let Some(draft) = &self.draft else {
            return Err(Trouble::Refused(Refusal::NoDraft));
        };
        let policy = plan_policy(self.job.policy(), bounds);
        match weighted_move::plan(self.alloc, draft, loads, tasks, &policy) {
            Ok(plan) => Ok(Reply::Planned(plan)),
            Err(error) => Err(of_plan(error)),
        }
    }
}
