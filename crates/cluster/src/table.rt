//! Calls of the table.

ghost use Rattle.std.specs.Prelude.{◌≡◌, ◌∷◌, ◌++◌, [], true, Ok, IfOk, OnOk, OnErr};
ghost use Rattle.machines.specs.Answers.{Takes};
ghost use Rattle.lease_table.specs.Steps.{propose_step, grant_step};
ghost use Rattle.lease_table.specs.Calls.{table_step};
ghost use Rattle.cluster.specs.continued.Jobs.{Continued};
ghost use Rattle.cluster.specs.continued.Clusters as continued;
ghost use Rattle.job_calls.specs.declared.call.ClusterCall.TheVariants as asked;
ghost use Rattle.job_calls.specs.declared.error.ClusterError.TheVariants as error;
ghost use Rattle.job_calls.specs.declared.reply.ClusterReply.TheVariants as reply;
ghost use Rattle.cluster.specs.Pasts.{Past, event};
ghost use Rattle.cluster.specs.continued.Deliveries.{table_refusal};
ghost use Rattle.cluster.specs.internals.Turns.{told_as, makes_nothing, grants_kept, proposals_kept, OnlyTakes, IsSameBesideTable};

use crate::actors::{is_within, unless};
use crate::cluster::Cluster;
use assignment::{Assignment, TaskId};
use grants::{Grant, TableCall, TableError, TableReply};
use job_calls::{ClusterError, ClusterReply};
use machines::{Listed, Trouble};
use std::alloc::AllocError;

// Turns the table's answer into the cluster's reply.
fn told_by_table(
    answer: Result<TableReply, Trouble<TableError>>,
) -> Result<ClusterReply, AllocError>
    ensures { result ≡ told_as error.Table reply.Table answer }
{
    match answer {
        Ok(told) => Ok(ClusterReply::Table(told)),
        Err(Trouble::Refused(why)) => Ok(ClusterReply::Refused(ClusterError::Table(why))),
        Err(Trouble::NoMemory) => Err(AllocError),
    }
}

impl Cluster {
    /// Plays a call of the table, as [`Cluster::play`] does.
    ///
    /// # Errors
    ///
    /// The refusals, in this order: `NoActor` for an assigner or a task that the job does not have,
    /// `NotSent` for a note that was never made, and those of the table. Out of memory comes last
    /// and leaves the cluster unchanged.
    pub fn call_table(&mut self, call: &TableCall) -> Result<ClusterReply, AllocError>
        ensures { (job : Continued) (past : Past) → continued.LeadsTo job past self.old
            → continued.IsPlayed job past (asked.Table call.now) result self.new }
    {
        lease_table::standing_law();
        if let Some(why) = self.table_refusal(call) {
            return Ok(ClusterReply::Refused(why));
        }
        told_by_table(self.take_table(call))
    }

    // Returns why a call is refused before it reaches the table, if it is.
    fn table_refusal(&self, call: &TableCall) -> Option<ClusterError>
        ensures { (job : Continued) (past : Past) → continued.LeadsTo job past self.now → result ≡ table_refusal job past call.now }
    {
        match call {
            TableCall::JobTake { assigner, .. } => unless(
                is_within(*assigner, self.job.assigners()),
                ClusterError::NoActor,
            ),
            TableCall::Grant { task, .. } => unless(
                is_within(task.number(), self.job.tasks()),
                ClusterError::NoActor,
            ),
            TableCall::Free { note, .. } => unless(self.is_made(note), ClusterError::NotSent),
            _ => None,
        }
    }

    // Makes a call of the table, and keeps what the table makes.
    fn take_table(&mut self, call: &TableCall) -> Result<TableReply, Trouble<TableError>>
        ensures step { Takes (table_step self.old.table call.now) self.old.table result self.new.table }
        ensures memory { OnlyTakes call.now result }
        ensures grants { self.new.grants.items ≡ grants_kept result self.old.grants.items }
        ensures proposals { self.new.proposals.items ≡ proposals_kept call.now result self.old.proposals.items }
        ensures others { IsSameBesideTable self.old self.new }
    {
        match call {
            TableCall::Propose {
                number,
                assignment,
                at,
            } => {
                self.propose(*number, assignment, *at)?;
                Ok(TableReply::Proposed)
            }
            TableCall::Grant { task, life, at } => {
                Ok(TableReply::Granted(self.grant_lease(*task, *life, *at)?))
            }
            TableCall::JobTake { .. }
            | TableCall::JobRenew { .. }
            | TableCall::Commit { .. }
            | TableCall::Free { .. }
            | TableCall::Restart => self.take_unkept(call),
        }
    }

    // Makes a call in which the table makes nothing to keep.
    fn take_unkept(&mut self, call: &TableCall) -> Result<TableReply, Trouble<TableError>>
        requires { makes_nothing call.now ≡ true }
        ensures step { Takes (table_step self.old.table call.now) self.old.table result self.new.table }
        ensures memory { OnlyTakes call.now result }
        ensures grants { self.new.grants.items ≡ grants_kept result self.old.grants.items }
        ensures proposals { self.new.proposals.items ≡ proposals_kept call.now result self.old.proposals.items }
        ensures others { IsSameBesideTable self.old self.new }
    {
        self.table.call(call)
    }

    // Keeps a proposal, so that its commit needs no memory.
    fn propose(
        &mut self,
        number: u64,
        assignment: &Assignment,
        at: u64,
    ) -> Result<(), Trouble<TableError>>
        ensures step { Takes (propose_step self.old.table number assignment.now at) self.old.table result self.new.table }
        ensures ok { OnOk result (self.new.proposals.items ≡ self.old.proposals.items ++ assignment.now ∷ []) }
        ensures err { OnErr result (self.new.proposals.items ≡ self.old.proposals.items) }
        ensures grants { self.new.grants.items ≡ self.old.grants.items }
        ensures others { IsSameBesideTable self.old self.new }
    {
        if let Some(why) = self.table.assignment_refusal(number, assignment, at) {
            return Err(Trouble::Refused(why));
        }
        let kept = assignment.copy()?;
        self.proposals.reserve(1)?;
        self.table.propose(number, assignment, at)?;
        self.proposals.push_reserved(kept);
        Ok(())
    }

    // Makes a grant and keeps it.
    fn grant_lease(
        &mut self,
        task: TaskId,
        life: u32,
        at: u64,
    ) -> Result<Grant, Trouble<TableError>>
        ensures step { Takes (grant_step self.old.table task life at) self.old.table result self.new.table }
        ensures ok { IfOk result (λ grant. self.new.grants.items ≡ self.old.grants.items ++ grant ∷ []) }
        ensures err { OnErr result (self.new.grants.items ≡ self.old.grants.items) }
        ensures proposals { self.new.proposals.items ≡ self.old.proposals.items }
        ensures others { IsSameBesideTable self.old self.new }
    {
        let kept = self.table.next_grant(task, life, at)?;
        self.grants.reserve(1)?;
        let grant = self.table.grant(task, life, at)?;
        self.grants.push_reserved(kept);
        Ok(grant)
    }

    /// Returns the reply to a call that asks for the phase.
    pub(crate) fn phase_reply(&self) -> ClusterReply
        ensures { (job : Continued) (past : Past) → continued.LeadsTo job past self.now
            → continued.IsPlayed job past asked.Phase (Ok result) self.now }
    {
        ClusterReply::Phase(self.table.phase())
    }

    /// Returns the table's open rows.
    pub(crate) fn rows(&self) -> Result<ClusterReply, AllocError>
        ensures { (job : Continued) (past : Past) → continued.LeadsTo job past self.now
            → continued.IsPlayed job past asked.Rows result self.now }
    {
        Ok(ClusterReply::Rows(Listed::from_vec(self.table.rows()?)))
    }
}
