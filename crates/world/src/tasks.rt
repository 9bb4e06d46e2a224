//! The steps of tasks.

ghost use Rattle.std.specs.Prelude.{◌≡◌};
ghost use Rattle.world.specs.Jobs.{Job};
ghost use Rattle.world.specs.declared.step.Step.TheVariants as step;
ghost use Rattle.world.specs.Pasts.{Past};
ghost use Rattle.world.specs.Worlds.{Keeps, Played};

use crate::actors::check_actor;
use crate::step::Step;
use crate::told::{ask, next_numbers_of, told_of};
use crate::world::World;
use grants::SliceletCall;
use job_calls::ClusterCall;
use lease_rule::Kind;
use machines::Trouble;
use replies::{Refusal, Reply};
use slice_ranges::slice_key;

impl World {
    pub(crate) fn start(&mut self, task: u64, life: u32, at: u64) -> Result<Reply, Trouble<Refusal>>
        ensures { (job : Job) (past : Past) → Keeps job past self.old
            → Played job past (step.Start task life at) result self.new }
    {
        let call = ClusterCall::Task {
            task,
            call: SliceletCall::Start { life, at },
        };
        Ok(ask(&mut self.cluster, &Step::Start { task, life, at }, &call))
    }

    pub(crate) fn hear(
        &mut self,
        task: u64,
        number: u64,
        at: u64,
    ) -> Result<Reply, Trouble<Refusal>>
        ensures { (job : Job) (past : Past) → Keeps job past self.old
            → Played job past (step.Hear task number at) result self.new }
    {
        check_actor(task, self.job.tasks())?;
        let next = next_numbers_of(&self.cluster);
        let answer = self.cluster.hear_numbered(task, number, at);
        self.cluster.run_law();
        Ok(told_of(&Step::Hear { task, number, at }, next, answer))
    }

    pub(crate) fn release(
        &mut self,
        task: u64,
        kind: Kind,
        at: u64,
    ) -> Result<Reply, Trouble<Refusal>>
        ensures { (job : Job) (past : Past) → Keeps job past self.old
            → Played job past (step.Release task kind at) result self.new }
    {
        let call = ClusterCall::Task {
            task,
            call: SliceletCall::Release { kind, at },
        };
        Ok(ask(&mut self.cluster, &Step::Release { task, kind, at }, &call))
    }

    // `asked` is the `serve` itself.
    pub(crate) fn serve(
        &mut self,
        asked: &Step,
        task: u64,
        key: &[u8],
        at: u64,
    ) -> Result<Reply, Trouble<Refusal>>
        ensures { (job : Job) (past : Past) → Keeps job past self.old → asked.now ≡ step.Serve task key.now at
            → Played job past asked.now result self.new }
    {
        let call = ClusterCall::Serve {
            task,
            key: slice_key(key),
            at,
        };
        Ok(ask(&mut self.cluster, asked, &call))
    }

    // `asked` is the `hold` itself.
    pub(crate) fn hold(
        &mut self,
        asked: &Step,
        task: u64,
        key: &[u8],
        at: u64,
    ) -> Result<Reply, Trouble<Refusal>>
        ensures { (job : Job) (past : Past) → Keeps job past self.old → asked.now ≡ step.Hold task key.now at
            → Played job past asked.now result self.new }
    {
        let call = ClusterCall::Hold {
            task,
            key: slice_key(key),
            at,
        };
        Ok(ask(&mut self.cluster, asked, &call))
    }

    pub(crate) fn check(
        &mut self,
        task: u64,
        number: u64,
        at: u64,
    ) -> Result<Reply, Trouble<Refusal>>
        ensures { (job : Job) (past : Past) → Keeps job past self.old
            → Played job past (step.Check task number at) result self.new }
    {
        check_actor(task, self.job.tasks())?;
        let Some(handle) = self.cluster.handle(number) else {
            return Err(Trouble::Refused(Refusal::NotSent));
        };
        let call = ClusterCall::Check {
            task,
            handle: *handle,
            at,
        };
        let step = Step::Check {
            task,
            handle: number,
            at,
        };
        Ok(ask(&mut self.cluster, &step, &call))
    }
}
