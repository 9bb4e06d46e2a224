//! The machines of a job that play a log.

ghost use Rattle.std.specs.Prelude.{◌≡◌, ◌∷◌, ℕ, None, true, false, IfOk, OnOk};
ghost use Rattle.grants.specs.declared.slicelet_call.SliceletCall.{SliceletCall};
ghost use Rattle.clerk.specs.declared.call.ClerkCall.{ClerkCall};
ghost use Rattle.job_calls.specs.declared.call.ClusterCall.TheVariants as asked;
ghost use Rattle.job_calls.specs.declared.error.ClusterError.{ClusterError as Why};
ghost use Rattle.job_calls.specs.declared.error.ClusterError.TheVariants as error;
ghost use Rattle.job_calls.specs.declared.reply.ClusterReply.TheVariants as told;
ghost use Rattle.cluster.specs.continued.Jobs.{Continued};
ghost use Rattle.cluster.specs.continued.Clusters.{LeadsTo};
ghost use Rattle.cluster.specs.continued.Deliveries.{known_grant, known_slicing};
ghost use Rattle.cluster.specs.continued.Runs.{IsReply, IsRun};
ghost use Rattle.cluster.specs.Pasts.{Past, event};
ghost use Rattle.log_line.specs.declared.line.LoggedCall.TheVariants.{HearBare, LearnBare};
ghost use Rattle.log_run.specs.Calls.{call_after};
ghost use Rattle.log_run.specs.Starts.{Begins};
ghost use Rattle.log_run.specs.States.{IsSnapshotIfRun};
ghost use Rattle.log_run.specs.internals.Machines.{HavePlayed, IsRecorded};

use crate::start::Start;
use cluster::Cluster;
use job_calls::{ClusterCall, ClusterError, ClusterReply, ClusterSnapshot};
use log_line::BareGrant;
use run_record::RunRecord;
use std::alloc::{AllocError, Global};

/// The machines of a job that play a log, and a record of their run if a snapshot of them is
/// wanted.
#[derive(Drop)]
pub struct LogMachines {
    cluster: Cluster,
    run: Option<RunRecord>,
    // Whether no reply was that something was not sent.
    all_sent: bool,
}

// Builds the machines at a start.
fn cluster_at(alloc: Global, start: &Start) -> Result<Cluster, AllocError>
    ensures { (job : Continued) → Begins job start.now → IfOk result (LeadsTo job job.earlier) }
{
    let Some(snapshot) = &start.earlier else {
        return Cluster::new(alloc, start.job);
    };
    match Cluster::resume(alloc, start.job, snapshot) {
        Ok(cluster) => Ok(cluster),
        // The snapshot is one that is taken, so only memory can lack.
        Err(_) => Err(AllocError),
    }
}

// Creates the record of the run that led to a start, if it is wanted.
fn record_at(alloc: Global, start: &Start, is_wanted: bool) -> Result<Option<RunRecord>, AllocError>
    ensures { (job : Continued) → Begins job start.now → IfOk result (IsRecorded job job.earlier) }
{
    if !is_wanted {
        return Ok(None);
    }
    match &start.earlier {
        Some(snapshot) => Ok(Some(RunRecord::of(alloc, snapshot)?)),
        None => Ok(Some(RunRecord::new(alloc, start.job)?)),
    }
}

// Whether no reply was that something was not sent, after one more reply.
fn stays_sent(all_sent: bool, reply: &ClusterReply) -> bool
    ensures sent { result ≡ true → (all_sent ≡ true) × (reply.now ≡ told.Refused error.NotSent → ⊥) }
    ensures unsent { result ≡ false → all_sent ≡ true → reply.now ≡ told.Refused error.NotSent }
{
    all_sent && !matches!(reply, ClusterReply::Refused(ClusterError::NotSent))
}

impl LogMachines {
    /// Builds the machines at a start. `keeps_run` is whether a snapshot will be wanted.
    ///
    /// Fails if memory runs out, or if no machines stand at the snapshot of the start.
    pub fn new(alloc: Global, start: &Start, keeps_run: bool) -> Result<Self, AllocError>
        ensures { (job : Continued) → Begins job start.now → IfOk result (HavePlayed job job.earlier) }
    {
        let cluster = cluster_at(alloc, start)?;
        let run = record_at(alloc, start, keeps_run)?;
        Ok(LogMachines {
            cluster,
            run,
            all_sent: true,
        })
    }

    /// Whether no reply since the start was that something was not sent.
    pub fn all_sent(&self) -> bool
        ensures { result ≡ self.now.all_sent }
    {
        self.all_sent
    }

    /// Returns the machines.
    pub fn cluster(&self) -> &Cluster
        ensures { (job : Continued) (past : Past) → HavePlayed job past self.now → LeadsTo job past result.now }
    {
        &self.cluster
    }

    /// States that what the machines have played is a run.
    pub fn run_law(&self)
        ensures { (job : Continued) (past : Past) → HavePlayed job past self.now → IsRun job past }
    {
        self.cluster.run_law();
    }

    // Records a call and its reply, if the run is recorded.
    fn record(&mut self, call: &ClusterCall, reply: &ClusterReply) -> Result<(), AllocError>
        ensures same { (self.new.cluster ≡ self.old.cluster) × (self.new.all_sent ≡ self.old.all_sent) }
        ensures recorded { (job : Continued) (past : Past) → IsRecorded job past self.old.run → IsReply job past (event call.now reply.now)
            → OnOk result (IsRecorded job (event call.now reply.now ∷ past) self.new.run) }
    {
        let Some(run) = self.run.take() else {
            return Ok(());
        };
        self.run = Some(run.record(call, reply)?);
        Ok(())
    }

    /// Plays a call, and returns the machines' reply.
    ///
    /// If memory runs out, the run is recorded no longer.
    pub fn play(&mut self, call: &ClusterCall) -> Result<ClusterReply, AllocError>
        ensures { (job : Continued) (past : Past) → HavePlayed job past self.old
            → IfOk result (λ reply. HavePlayed job (event call.now reply ∷ past) self.new) }
    {
        let reply = self.cluster.play(call)?;
        self.cluster.run_law();
        self.record(call, &reply)?;
        self.all_sent = stays_sent(self.all_sent, &reply);
        Ok(reply)
    }

    /// Plays the hearing of a grant whose number the machines know no grant of.
    ///
    /// The reply is `NoActor` or else `NotSent`, also if the machines know the grant.
    pub fn hear_unsent(
        &mut self,
        task: u64,
        grant: BareGrant,
        at: u64,
    ) -> Result<ClusterReply, AllocError>
        ensures { (job : Continued) (past : Past) → HavePlayed job past self.old → known_grant job.forgotten past grant.number ≡ None
            → IfOk result (λ reply. HavePlayed job (event (call_after past (HearBare task grant at)) reply ∷ past) self.new) }
    {
        lease_table::numbers_law();
        let reply = self.cluster.hear_numbered(task, grant.number, at)?;
        self.cluster.run_law();
        self.cluster.refusal_law();
        self.refused_law();
        self.all_sent = stays_sent(self.all_sent, &reply);
        Ok(reply)
    }

    /// Plays the learning of an assignment of which the machines know none of its generation.
    pub fn learn_unpublished(
        &mut self,
        clerk: u64,
        generation: u64,
    ) -> Result<ClusterReply, AllocError>
        ensures { (job : Continued) (past : Past) → HavePlayed job past self.old → known_slicing job.forgotten past generation ≡ None
            → IfOk result (λ reply. HavePlayed job (event (call_after past (LearnBare clerk generation)) reply ∷ past) self.new) }
    {
        lease_table::generations_law();
        lease_table::assignments_law();
        let reply = self.cluster.learn_published(clerk, generation)?;
        self.cluster.run_law();
        self.cluster.refusal_law();
        self.refused_law();
        self.all_sent = stays_sent(self.all_sent, &reply);
        Ok(reply)
    }

    // States that a refused call of a task or of a clerk changes nothing that is recorded.
    fn refused_law(&self)
        ensures task { (job : Continued) (past : Past) (task : ℕ) (call : SliceletCall) (why : Why) → IsRecorded job past self.now.run
            → IsRecorded job (event (asked.Task task call) (told.Refused why) ∷ past) self.now.run }
        ensures clerk { (job : Continued) (past : Past) (clerk : ℕ) (call : ClerkCall) (why : Why) → IsRecorded job past self.now.run
            → IsRecorded job (event (asked.Clerk clerk call) (told.Refused why) ∷ past) self.now.run }
    {
        if let Some(run) = &self.run {
            run.refused_law();
        }
    }

    /// Returns a snapshot of the machines, if the run was recorded.
    pub fn finish(self) -> Result<Option<ClusterSnapshot>, AllocError>
        ensures { (job : Continued) (past : Past) → HavePlayed job past self → IfOk result (IsSnapshotIfRun job past) }
    {
        let LogMachines { cluster, run, .. } = self;
        let Some(run) = run else {
            return Ok(None);
        };
        Ok(Some(run.finish(&cluster)?))
    }
}
