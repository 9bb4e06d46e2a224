//! The step machine.

ghost use Rattle.std.specs.Prelude.{◌≡◌, ℕ, List, ◌∷◌, ◌++◌, [], true, false, IsTrue, None, Some, length, IfOk, OnErr};
ghost use Rattle.grants.specs.Policies.{is_policy};
ghost use Rattle.machines.specs.Numbers.{is_within};
ghost use Rattle.slicelet.specs.Continuity.{is_strange};
ghost use Rattle.key_handle.specs.declared.handle.KeyHandle.{KeyHandle};
ghost use Rattle.assigner.specs.Terms.{Keeping};
ghost use Rattle.cluster.specs.Clusters.{AreActors, LeadsTo as LeadsToCluster};
ghost use Rattle.cluster.specs.Numbers.{with_number};
ghost use Rattle.world.specs.Jobs.{Job};
ghost use Rattle.world.specs.declared.step.Step.{Step};
ghost use Rattle.world.specs.declared.step.Step.TheVariants as step;
ghost use Rattle.replies.specs.declared.reply.Reply.{Reply};
ghost use Rattle.world.specs.Pasts.{Past, event, steps_of, IsTimely};
ghost use Rattle.world.specs.Calls.{calls_in, handles_made, history};
ghost use Rattle.world.specs.Runs.{IsRun, past_after};
ghost use Rattle.world.specs.Headline.{IsServedByRule, IsCheckedByHistory, MayServe, IsOwner, IsWhileHeld};
ghost use Rattle.world.specs.Worlds.{Keeps, LeadsTo, Played};

use crate::judge::judge;
use crate::laws::{handle_law, interval_law, owner_law, rule_law};
use crate::loads::shares_of;
use crate::step::Step;
use assigner::Assigner;
use assignment::Assignment;
use cluster::Cluster;
use job_calls::Job;
use load_ledger::{LoadBook, LoadShare};
use machines::Trouble;
use replies::{Refusal, Reply};
use slice_ranges::slice_key;
use std::alloc::{AllocError, Global};

/// A step machine: the machines of a job, played by the steps of a script.
///
/// A step names what it delivers by a number, which the world looks up. The world also keeps the
/// job's assigners, the draft and the loads.
#[derive(Drop)]
pub struct World {
    pub(crate) alloc: Global,
    pub(crate) job: Job,
    pub(crate) cluster: Cluster,
    pub(crate) draft: Option<Assignment>,
    pub(crate) assigners: Vec<Assigner>,
    pub(crate) shares: Vec<LoadShare>,
    pub(crate) book: LoadBook,
}

fn assigners_of(alloc: Global, job: Job) -> Result<Vec<Assigner>, AllocError>
    ensures { IfOk result (λ assigners. AreActors
        (λ n. record { id = n; job_term = job.policy.job; term = None }) job.assigners assigners.items) }
{
    let mut assigners = Vec::new(alloc);
    let term = job.policy().job();
    for place in 0..job.assigners() {
        assigners.push(Assigner::new(place + 1, term))?;
    }
    Ok(assigners)
}

impl World {
    /// Creates a world before its first step.
    #[tactic(auto, unfolding(crate::specs::Worlds::LeadsTo))]
    pub fn new(alloc: Global, job: Job) -> Result<Self, AllocError>
        ensures { IfOk result (λ world. LeadsTo job [] world) }
    {
        Ok(World {
            alloc,
            job,
            cluster: Cluster::new(alloc, job)?,
            draft: None,
            assigners: assigners_of(alloc, job)?,
            shares: shares_of(alloc, job)?,
            book: LoadBook::new(),
        })
    }

    /// Runs steps one after another, and returns the reply to each.
    ///
    /// The steps before a step determine its reply, those of earlier calls included. If there is no
    /// memory for the replies, no step runs and the world is unchanged.
    pub fn run(&mut self, steps: &[Step]) -> Result<Vec<Reply>, AllocError>
        ensures leads { (job : Job) (past : Past) → LeadsTo job past self.old
            → IfOk result (λ replies. LeadsTo job (past_after past steps.now replies.items) self.new) }
        ensures answers { IfOk result (λ replies. length replies.items ≡ length steps.now) }
        ensures run { (job : Job) (past : Past) → LeadsTo job past self.old
            → IfOk result (λ replies. IsRun job (past_after past steps.now replies.items)) }
        ensures refused { OnErr result (self.new ≡ self.old) }
    {
        let mut replies = Vec::with_capacity(self.alloc, steps.len())?;
        for step in steps {
            let reply = self.play(step);
            replies.push_reserved(reply);
        }
        self.run_law();
        Ok(replies)
    }

    /// States that every past that leads to a world is a run.
    ///
    /// The policy of the run's job is within its limits.
    #[tactic(auto, unfolding(crate::specs::Worlds::LeadsTo))]
    pub fn run_law(&self)
        ensures run { (job : Job) (past : Past) → LeadsTo job past self.now → IsRun job past }
        ensures within { (job : Job) (past : Past) → LeadsTo job past self.now → is_policy job.policy ≡ true }
    {
        self.cluster.run_law();
    }

    /// States what holds at every point of the past that led to this world.
    ///
    /// - A key was served exactly if the written rule allowed it on what its task had been told.
    ///   Each denial named its ground.
    /// - A handle was continuous exactly if no step since it was taken had taken its key away.
    /// - With timely clocks, a task that may serve a key owns it in the committed assignment. If a
    ///   slice has at most one owner, two tasks may never serve one key.
    pub fn headline_law(&self)
        ensures rule { (job : Job) (later past : Past) (task : ℕ) (key : List ℕ) (at : ℕ) (answer : Reply)
            → LeadsTo job (later ++ event (step.Serve task key at) answer ∷ past) self.now
            → IsServedByRule job past task key at answer }
        ensures handle { (job : Job) (later past : Past) (task number at : ℕ) (handle : KeyHandle) (answer : Reply)
            → LeadsTo job (later ++ event (step.Check task number at) answer ∷ past) self.now
            → IsTrue (is_within task job.tasks) → with_number number (handles_made job past) ≡ Some handle
            → is_strange (history job task past) handle ≡ false
            → IsCheckedByHistory job past task handle at answer }
        ensures owner { (job : Job) (later past : Past) (task : ℕ) (key : List ℕ) → LeadsTo job (later ++ past) self.now
            → MayServe job past task key → IsOwner job past task key }
        ensures one { (job : Job) (later past : Past) (task other : ℕ) (key : List ℕ) → LeadsTo job (later ++ past) self.now
            → job.policy.high ≡ 1 → MayServe job past task key → MayServe job past other key → task ≡ other }
    {
        self.run_law();
        rule_law();
        handle_law();
        owner_law();
    }

    /// States what a continuous handle proves, as long as the clocks were timely.
    ///
    /// If a `check` by a task found a handle continuous, the task owned its key in the committed
    /// assignment at each point from the handle's `hold` to that `check`. If a slice has at most
    /// one owner, no other task may serve the key at any of these points.
    pub fn interval_law(&self)
        ensures owner { (job : Job) (later run past : Past) (task : ℕ) (key : List ℕ) → LeadsTo job (later ++ run) self.now
            → IsTimely job.policy.skew (steps_of run) → IsWhileHeld run past task key → IsOwner job past task key }
        ensures alone { (job : Job) (later run past : Past) (task other : ℕ) (key : List ℕ) → LeadsTo job (later ++ run) self.now
            → job.policy.high ≡ 1 → IsTimely job.policy.skew (steps_of run) → IsWhileHeld run past task key
            → MayServe job past other key → other ≡ task }
    {
        self.run_law();
        interval_law();
    }

    /// Returns the machines of the job, after the calls that the steps made.
    #[tactic(auto, unfolding(crate::specs::Worlds::LeadsTo))]
    pub fn cluster(&self) -> &Cluster
        ensures { (job : Job) (past : Past) → LeadsTo job past self.now
            → LeadsToCluster job (calls_in job past) result.now }
    {
        &self.cluster
    }

    // Plays the next step, and returns its reply.
    #[tactic(auto, unfolding(crate::specs::Worlds::LeadsTo))]
    fn play(&mut self, step: &Step) -> Reply
        ensures { (job : Job) (past : Past) → LeadsTo job past self.old
            → LeadsTo job (event step.now result ∷ past) self.new }
    {
        match self.answer(step) {
            Ok(reply) => reply,
            Err(Trouble::Refused(why)) => Reply::Refused(why),
            Err(Trouble::NoMemory) => Reply::NoMemory,
        }
    }

    fn answer(&mut self, step: &Step) -> Result<Reply, Trouble<Refusal>>
        ensures { (job : Job) (past : Past) → Keeps job past self.old → Played job past step.now result self.new }
    {
        match step {
            Step::Hash { key } => self.hash(key.as_slice()),
            Step::Assign { generation, slices } => self.assign(*generation, slices.as_slice()),
            Step::Owners { key } => self.owners(key.as_slice()),
            Step::Judge { question } => {
                judge(self.alloc, question, slice_key(question.key.as_slice()))
            }
            Step::Take { assigner, at } => self.take(*assigner, *at),
            Step::Renew { assigner, at } => self.renew(*assigner, *at),
            Step::Propose {
                assigner,
                generation,
                slices,
                at,
            } => self.propose(step, *assigner, *generation, slices.as_slice(), *at),
            Step::Commit { assigner, at } => self.commit(*assigner, *at),
            Step::Phase => self.phase(),
            Step::Rows => self.rows(),
            Step::Grant { task, life, at } => self.grant(*task, *life, *at),
            Step::Free { note, at } => self.free(*note, *at),
            Step::Lose => self.lose(),
            Step::Start { task, life, at } => self.start(*task, *life, *at),
            Step::Hear { task, number, at } => self.hear(*task, *number, *at),
            Step::Release { task, kind, at } => self.release(*task, *kind, *at),
            Step::Serve { task, key, at } => self.serve(step, *task, key.as_slice(), *at),
            Step::Hold { task, key, at } => self.hold(step, *task, key.as_slice(), *at),
            Step::Check { task, handle, at } => self.check(*task, *handle, *at),
            Step::Learn { clerk, generation } => self.learn(*clerk, *generation),
            Step::Look { clerk, key } => self.look(step, *clerk, key.as_slice()),
            Step::Forget { clerk } => self.forget(*clerk),
            Step::Load { task, key, weight } => self.load(*task, key.as_slice(), *weight),
            Step::Gather => self.gather(),
            Step::Plan {
                loads,
                tasks,
                bounds,
            } => self.plan(loads.as_slice(), tasks, *bounds),
            Step::Next {
                assigner,
                at,
                wanted,
            } => self.next(*assigner, *at, *wanted),
            Step::DropTerm { assigner } => self.drop_term(*assigner),
        }
    }
}
