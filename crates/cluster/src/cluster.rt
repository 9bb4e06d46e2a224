//! The machines of one job.

ghost use Rattle.std.specs.Prelude.{◌≡◌, ℕ, [], ◌∷◌, ◌++◌, true, false, IsTrue, None, IfOk};
ghost use Rattle.machines.specs.Numbers.{is_within};
ghost use Rattle.key_handle.specs.declared.handle.KeyHandle.{KeyHandle};
ghost use Rattle.grants.specs.Policies.{is_policy};
ghost use Rattle.slicelet.specs.Continuity.{is_strange};
ghost use Rattle.slicelet.specs.States.{opening};
ghost use Rattle.job_calls.specs.Jobs.{Job};
ghost use Rattle.cluster.specs.continued.Jobs.{Continued};
ghost use Rattle.cluster.specs.continued.Runs as continued_run;
ghost use Rattle.cluster.specs.continued.Clusters as continued;
ghost use Rattle.job_calls.specs.declared.call.ClusterCall.{ClusterCall};
ghost use Rattle.job_calls.specs.declared.call.ClusterCall.TheVariants as asked;
ghost use Rattle.job_calls.specs.declared.error.ClusterError.{ClusterError};
ghost use Rattle.job_calls.specs.declared.reply.ClusterReply.{ClusterReply};
ghost use Rattle.job_calls.specs.declared.reply.ClusterReply.TheVariants as reply;
ghost use Rattle.cluster.specs.Timing.{IsTimely};
ghost use Rattle.cluster.specs.Pasts.{Past, event, readings, history};
ghost use Rattle.cluster.specs.Made.{is_given};
ghost use Rattle.cluster.specs.Headline.{MayServe, IsOwner, IsWhileHeld};
ghost use Rattle.cluster.specs.Promises.{IsServedByRule, IsCheckedByHistory};
ghost use Rattle.cluster.specs.Clusters.{AreActors, LeadsTo};

use crate::counts::Counts;
use crate::known::{KnownHandle, KnownNote};
use crate::laws::{handle_law, interval_law, owner_law, rule_law};
use assignment::{Assignment, TaskId};
use clerk::Clerk;
use grants::{Grant, ReleaseNote, policy_law};
use indexmap::IndexSet;
use job_calls::{ClusterCall, ClusterReply, Job};
use key_handle::KeyHandle;
use lease_table::LeaseTable;
use slicelet::Slicelet;
use std::alloc::{AllocError, Global};

/// The machines of one job, its lease table, slicelets and clerks, with everything that they made.
///
/// A cluster keeps all grants, notes, handles and published assignments that were made so far; one
/// that goes on from a snapshot ([`Cluster::resume`]), those that the snapshot remembers and those
/// that were made since. Each of them may be delivered later, more than once and in any order.
#[derive(Drop)]
pub struct Cluster {
    pub(crate) alloc: Global,
    pub(crate) job: Job,
    pub(crate) table: LeaseTable,
    pub(crate) tasks: Vec<Slicelet>,
    pub(crate) clerks: Vec<Clerk>,
    pub(crate) grants: Vec<Grant>,
    pub(crate) notes: Vec<ReleaseNote>,
    pub(crate) handles: Vec<KeyHandle>,
    // How many of each were made before those that are kept.
    pub(crate) earlier: Counts,
    // The same notes and handles, and those that are remembered of earlier ones, found by their values.
    pub(crate) known_notes: IndexSet<KnownNote>,
    pub(crate) known_handles: IndexSet<KnownHandle>,
    pub(crate) proposals: Vec<Assignment>,
}

fn tasks_of(alloc: Global, job: Job) -> Result<Vec<Slicelet>, AllocError>
    ensures { IfOk result (λ tasks. AreActors opening job.tasks tasks.items) }
{
    let mut tasks = Vec::new(alloc);
    for place in 0..job.tasks() {
        tasks.push(Slicelet::new(alloc, TaskId::new(place + 1).unwrap()))?;
    }
    Ok(tasks)
}

fn clerks_of(alloc: Global, job: Job) -> Result<Vec<Clerk>, AllocError>
    ensures { IfOk result (λ clerks. AreActors (λ n. None) job.clerks clerks.items) }
{
    let mut clerks = Vec::new(alloc);
    for _place in 0..job.clerks() {
        clerks.push(Clerk::new())?;
    }
    Ok(clerks)
}

impl Cluster {
    /// Creates the machines of a job before their first call.
    #[tactic(auto, unfolding(crate::specs::continued::Clusters::LeadsTo))]
    pub fn new(alloc: Global, job: Job) -> Result<Self, AllocError>
        ensures { IfOk result (λ cluster. LeadsTo job [] cluster) }
    {
        let policy = job.policy();
        policy_law(policy);
        Ok(Cluster {
            alloc,
            job,
            table: LeaseTable::new(alloc, policy),
            tasks: tasks_of(alloc, job)?,
            clerks: clerks_of(alloc, job)?,
            grants: Vec::new(alloc),
            notes: Vec::new(alloc),
            handles: Vec::new(alloc),
            earlier: Counts::none(),
            known_notes: IndexSet::new(alloc),
            known_handles: IndexSet::new(alloc),
            proposals: Vec::new(alloc),
        })
    }

    /// Plays a call and returns the reply that the calls before it determine.
    ///
    /// A refused call changes nothing. Out of memory comes last, is returned only for a call that
    /// would not be refused, and leaves the cluster unchanged.
    pub fn play(&mut self, call: &ClusterCall) -> Result<ClusterReply, AllocError>
        ensures { (job : Continued) (past : Past) → continued.LeadsTo job past self.old → continued.IsPlayed job past call.now result self.new }
    {
        match call {
            ClusterCall::Table(call) => self.call_table(call),
            ClusterCall::Task { task, call } => self.call_task(*task, call),
            ClusterCall::Clerk { clerk, call } => self.call_clerk(*clerk, call),
            ClusterCall::Phase => Ok(self.phase_reply()),
            ClusterCall::Rows => self.rows(),
            ClusterCall::Serve { task, key, at } => Ok(self.serve(*task, *key, *at)),
            ClusterCall::Hold { task, key, at } => self.hold(*task, *key, *at),
            ClusterCall::Check { task, handle, at } => Ok(self.check(*task, handle, *at)),
            ClusterCall::Look { clerk, key } => Ok(self.look(*clerk, *key)),
        }
    }

    /// States that every past that leads to a cluster is a run.
    ///
    /// The policy of the run's job is within its limits.
    #[tactic(auto, unfolding(crate::specs::continued::Clusters::LeadsTo))]
    pub fn run_law(&self)
        ensures run { (job : Continued) (past : Past) → continued.LeadsTo job past self.now → continued_run.IsRun job past }
        ensures within { (job : Continued) (past : Past) → continued.LeadsTo job past self.now → is_policy job.policy ≡ true }
    {}

    /// States that a refused call leaves the cluster unchanged.
    ///
    /// The past with the refused call added leads to the same cluster.
    pub fn refusal_law(&self)
        ensures { (job : Continued) (past : Past) (call : ClusterCall) (why : ClusterError) → continued.LeadsTo job past self.now
            → continued_run.IsReply job past (event call (reply.Refused why)) → continued.LeadsTo job (event call (reply.Refused why) ∷ past) self.now }
    {}

    /// States what holds at every point of the past that led to this cluster.
    ///
    /// - A `serve` returned what the written rule says of its key on the calls that its task had
    ///   accepted.
    /// - A handle was continuous exactly if no call since it was taken had taken its key away.
    /// - With timely clocks, a task that may serve a key owns it in the committed assignment. If a
    ///   slice has at most one owner, two tasks may never serve one key.
    pub fn headline_law(&self)
        ensures rule { (job : Job) (later past : Past) (task key at : ℕ) (told : ClusterReply)
            → LeadsTo job (later ++ event (asked.Serve task key at) told ∷ past) self.now
            → IsServedByRule job past task key at told }
        ensures handle { (job : Job) (later past : Past) (task : ℕ) (handle : KeyHandle) (at : ℕ) (told : ClusterReply)
            → LeadsTo job (later ++ event (asked.Check task handle at) told ∷ past) self.now
            → IsTrue (is_within task job.tasks) → is_given past handle ≡ true
            → is_strange (history task past) handle ≡ false
            → IsCheckedByHistory past task handle at told }
        ensures owner { (job : Job) (later past : Past) (task key : ℕ) → LeadsTo job (later ++ past) self.now
            → MayServe job past task key → IsOwner past task key }
        ensures one { (job : Job) (later past : Past) (task other key : ℕ) → LeadsTo job (later ++ past) self.now
            → job.policy.high ≡ 1 → MayServe job past task key → MayServe job past other key → task ≡ other }
    {
        self.run_law();
        rule_law();
        handle_law();
        owner_law();
    }

    /// States what a continuous handle proves, as long as the clocks were timely.
    ///
    /// If a `check` by a task found a handle continuous, the task owned its key in the committed
    /// assignment at each point from the handle's `hold` to that `check`. If a slice has at most
    /// one owner, no other task may serve the key at any of these points.
    pub fn interval_law(&self)
        ensures owner { (job : Job) (later run past : Past) (task : ℕ) (handle : KeyHandle) → LeadsTo job (later ++ run) self.now
            → IsTimely job.policy.skew (readings run) → IsWhileHeld run past task handle → IsOwner past task handle.key }
        ensures alone { (job : Job) (later run past : Past) (task other : ℕ) (handle : KeyHandle) → LeadsTo job (later ++ run) self.now
            → job.policy.high ≡ 1 → IsTimely job.policy.skew (readings run) → IsWhileHeld run past task handle
            → MayServe job past other handle.key → other ≡ task }
    {
        self.run_law();
        interval_law();
    }
}
