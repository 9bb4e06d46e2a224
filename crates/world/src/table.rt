//! The steps of the table and its assigners.

ghost use Rattle.std.specs.Prelude.{◌≡◌, None};
ghost use Rattle.assignment.specs.Slices.{refusal_of};
ghost use Rattle.assignment.specs.Owners.{built};
ghost use Rattle.grants.specs.declared.table_call.TableCall.TheVariants.{Propose};
ghost use Rattle.job_calls.specs.declared.call.ClusterCall.TheVariants as call;
ghost use Rattle.cluster.specs.Pasts.{Past as ClusterPast};
ghost use Rattle.cluster.specs.Runs.{IsRun as IsClusterRun};
ghost use Rattle.cluster.specs.Clusters.{LeadsTo as LeadsToCluster};
ghost use Rattle.world.specs.Jobs.{Job};
ghost use Rattle.world.specs.declared.step.Step.{Step};
ghost use Rattle.world.specs.declared.step.Step.TheVariants as step;
ghost use Rattle.world.specs.Pasts.{Past};
ghost use Rattle.world.specs.Worlds.{Keeps, Played};
ghost use Rattle.world.specs.internals.Asking.{with_told, IsAsked};

use crate::actors::{check_actor, place_of};
use crate::step::Step;
use crate::told::ask;
use crate::world::World;
use assigner::{Assigner, View};
use assignment::{Assignment, Slice, TaskId};
use cluster::Cluster;
use grants::TableCall;
use job_calls::ClusterCall;
use machines::Trouble;
use replies::{Refusal, Reply};

// Offers an assigner the term in the reply, if there is one.
fn adopt(assigner: &mut Assigner, reply: &Reply)
    ensures { assigner.new ≡ with_told reply.now assigner.old }
{
    match reply {
        Reply::Term(term) | Reply::Renewed(term) => {
            let _ = assigner.adopt(*term);
        }
        _ => {}
    }
}

// Returns the reply to a proposal whose slices make an assignment for which there is no memory.
fn unproposed(cluster: &Cluster, number: u64, generation: u64, slices: &[Slice], at: u64) -> Reply
    requires { refusal_of slices.now ≡ None }
    ensures asked { (job : Job) (calls : ClusterPast) (s : Step) → LeadsToCluster job calls cluster.now → IsAsked job calls s
        (call.Table (Propose number (built generation slices.now) at)) result cluster.now }
    ensures run { (job : Job) (calls : ClusterPast) → LeadsToCluster job calls cluster.now → IsClusterRun job calls }
{
    cluster.run_law();
    cluster.refusal_law();
    match cluster.proposal_refusal(number, generation, slices, at) {
        Some(why) => Reply::Refused(Refusal::Table(why)),
        None => Reply::NoMemory,
    }
}

impl World {
    pub(crate) fn take(&mut self, assigner: u64, at: u64) -> Result<Reply, Trouble<Refusal>>
        ensures { (job : Job) (past : Past) → Keeps job past self.old
            → Played job past (step.Take assigner at) result self.new }
    {
        let place = place_of(assigner, self.assigners.as_slice())?;
        let call = ClusterCall::Table(TableCall::JobTake { assigner, at });
        let reply = ask(&mut self.cluster, &Step::Take { assigner, at }, &call);
        adopt(&mut self.assigners[place], &reply);
        Ok(reply)
    }

    pub(crate) fn renew(&mut self, assigner: u64, at: u64) -> Result<Reply, Trouble<Refusal>>
        ensures { (job : Job) (past : Past) → Keeps job past self.old
            → Played job past (step.Renew assigner at) result self.new }
    {
        let place = place_of(assigner, self.assigners.as_slice())?;
        let number = self.assigners[place].number();
        let call = ClusterCall::Table(TableCall::JobRenew { number, at });
        let reply = ask(&mut self.cluster, &Step::Renew { assigner, at }, &call);
        adopt(&mut self.assigners[place], &reply);
        Ok(reply)
    }

    pub(crate) fn next(
        &self,
        assigner: u64,
        at: u64,
        wanted: bool,
    ) -> Result<Reply, Trouble<Refusal>>
        ensures { (job : Job) (past : Past) → Keeps job past self.now
            → Played job past (step.Next assigner at wanted) result self.now }
    {
        let place = place_of(assigner, self.assigners.as_slice())?;
        let view = View {
            reading: at,
            phase: self.cluster.phase(),
            wanted,
        };
        Ok(Reply::Next(self.assigners[place].next(&view)))
    }

    // `asked` is the `propose` itself.
    pub(crate) fn propose(
        &mut self,
        asked: &Step,
        assigner: u64,
        generation: u64,
        slices: &[Slice],
        at: u64,
    ) -> Result<Reply, Trouble<Refusal>>
        ensures { (job : Job) (past : Past) → Keeps job past self.old
            → asked.now ≡ step.Propose assigner generation slices.now at → Played job past asked.now result self.new }
    {
        let place = place_of(assigner, self.assigners.as_slice())?;
        let number = self.assigners[place].number();
        match Assignment::build(self.alloc, generation, slices) {
            Ok(assignment) => {
                let call = ClusterCall::Table(TableCall::Propose {
                    number,
                    assignment,
                    at,
                });
                Ok(ask(&mut self.cluster, asked, &call))
            }
            Err(Trouble::NoMemory) => Ok(unproposed(&self.cluster, number, generation, slices, at)),
            Err(Trouble::Refused(why)) => Err(Trouble::Refused(Refusal::Slices(why))),
        }
    }

    pub(crate) fn commit(&mut self, assigner: u64, at: u64) -> Result<Reply, Trouble<Refusal>>
        ensures { (job : Job) (past : Past) → Keeps job past self.old
            → Played job past (step.Commit assigner at) result self.new }
    {
        let place = place_of(assigner, self.assigners.as_slice())?;
        let number = self.assigners[place].number();
        let call = ClusterCall::Table(TableCall::Commit { number, at });
        Ok(ask(&mut self.cluster, &Step::Commit { assigner, at }, &call))
    }

    pub(crate) fn phase(&mut self) -> Result<Reply, Trouble<Refusal>>
        ensures { (job : Job) (past : Past) → Keeps job past self.old
            → Played job past step.Phase result self.new }
    {
        Ok(ask(&mut self.cluster, &Step::Phase, &ClusterCall::Phase))
    }

    pub(crate) fn rows(&mut self) -> Result<Reply, Trouble<Refusal>>
        ensures { (job : Job) (past : Past) → Keeps job past self.old
            → Played job past step.Rows result self.new }
    {
        Ok(ask(&mut self.cluster, &Step::Rows, &ClusterCall::Rows))
    }

    pub(crate) fn lose(&mut self) -> Result<Reply, Trouble<Refusal>>
        ensures { (job : Job) (past : Past) → Keeps job past self.old
            → Played job past step.Lose result self.new }
    {
        let call = ClusterCall::Table(TableCall::Restart);
        Ok(ask(&mut self.cluster, &Step::Lose, &call))
    }

    pub(crate) fn grant(&mut self, task: u64, life: u32, at: u64) -> Result<Reply, Trouble<Refusal>>
        ensures { (job : Job) (past : Past) → Keeps job past self.old
            → Played job past (step.Grant task life at) result self.new }
    {
        check_actor(task, self.job.tasks())?;
        let of_job = TaskId::new(task).unwrap();
        let call = ClusterCall::Table(TableCall::Grant {
            task: of_job,
            life,
            at,
        });
        Ok(ask(&mut self.cluster, &Step::Grant { task, life, at }, &call))
    }

    pub(crate) fn free(&mut self, number: u64, at: u64) -> Result<Reply, Trouble<Refusal>>
        ensures { (job : Job) (past : Past) → Keeps job past self.old
            → Played job past (step.Free number at) result self.new }
    {
        let Some(note) = self.cluster.note(number) else {
            return Err(Trouble::Refused(Refusal::NotSent));
        };
        let call = ClusterCall::Table(TableCall::Free { note: *note, at });
        Ok(ask(&mut self.cluster, &Step::Free { note: number, at }, &call))
    }

    pub(crate) fn drop_term(&mut self, assigner: u64) -> Result<Reply, Trouble<Refusal>>
        ensures { (job : Job) (past : Past) → Keeps job past self.old
            → Played job past (step.DropTerm assigner) result self.new }
    {
        let place = place_of(assigner, self.assigners.as_slice())?;
        self.assigners[place].drop_term();
        Ok(Reply::TermDropped)
    }
}
