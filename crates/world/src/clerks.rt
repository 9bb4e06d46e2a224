//! The steps of clerks.

ghost use Rattle.std.specs.Prelude.{◌≡◌};
ghost use Rattle.world.specs.Jobs.{Job};
ghost use Rattle.world.specs.declared.step.Step.TheVariants as step;
ghost use Rattle.world.specs.Pasts.{Past};
ghost use Rattle.world.specs.Worlds.{Keeps, Played};

use crate::actors::check_actor;
use crate::step::Step;
use crate::told::{ask, next_numbers_of, told_of};
use crate::world::World;
use clerk::ClerkCall;
use job_calls::ClusterCall;
use machines::Trouble;
use replies::{Refusal, Reply};
use slice_ranges::slice_key;

impl World {
    pub(crate) fn learn(&mut self, clerk: u64, generation: u64) -> Result<Reply, Trouble<Refusal>>
        ensures { (job : Job) (past : Past) → Keeps job past self.old
            → Played job past (step.Learn clerk generation) result self.new }
    {
        check_actor(clerk, self.job.clerks())?;
        let next = next_numbers_of(&self.cluster);
        let answer = self.cluster.learn_published(clerk, generation);
        self.cluster.run_law();
        Ok(told_of(&Step::Learn { clerk, generation }, next, answer))
    }

    // `asked` is the `look` itself.
    pub(crate) fn look(
        &mut self,
        asked: &Step,
        clerk: u64,
        key: &[u8],
    ) -> Result<Reply, Trouble<Refusal>>
        ensures { (job : Job) (past : Past) → Keeps job past self.old → asked.now ≡ step.Look clerk key.now
            → Played job past asked.now result self.new }
    {
        let call = ClusterCall::Look {
            clerk,
            key: slice_key(key),
        };
        Ok(ask(&mut self.cluster, asked, &call))
    }

    pub(crate) fn forget(&mut self, clerk: u64) -> Result<Reply, Trouble<Refusal>>
        ensures { (job : Job) (past : Past) → Keeps job past self.old
            → Played job past (step.Forget clerk) result self.new }
    {
        let call = ClusterCall::Clerk {
            clerk,
            call: ClerkCall::Forget,
        };
        Ok(ask(&mut self.cluster, &Step::Forget { clerk }, &call))
    }
}
