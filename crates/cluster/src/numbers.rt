//! What was made, found by its number, and what a front asks before it makes a call.

ghost use Rattle.std.specs.Prelude.{◌≡◌, ◌+◌, length, option_map, reverse};
ghost use Rattle.job_calls.specs.Jobs.{Job};
ghost use Rattle.cluster.specs.continued.Jobs.{Continued, job_in};
ghost use Rattle.cluster.specs.continued.Deliveries.{known_grant, known_slicing};
ghost use Rattle.cluster.specs.continued.Clusters as continued;
ghost use Rattle.cluster.specs.Pasts.{Past, standing};
ghost use Rattle.cluster.specs.Made.{notes_made, handles_made};
ghost use Rattle.cluster.specs.Numbers.{with_number};
ghost use Rattle.machines.specs.Answers.{Takes};
ghost use Rattle.machines.specs.Refusals.{first_of};
ghost use Rattle.lease_table.specs.Tables.{phase_of};
ghost use Rattle.lease_table.specs.Steps.{propose_checks};
ghost use Rattle.clerk.specs.declared.call.ClerkCall.TheVariants.{Learn};
ghost use Rattle.clerk.specs.Calls.{clerk_step};
ghost use Rattle.grants.specs.declared.slicelet_call.SliceletCall.TheVariants.{Hear};
ghost use Rattle.slicelet.specs.Steps.{slicelet_step};
ghost use Rattle.job_calls.specs.declared.call.ClusterCall.TheVariants as asked;
ghost use Rattle.job_calls.specs.declared.error.ClusterError.TheVariants as error;
ghost use Rattle.job_calls.specs.declared.reply.ClusterReply.TheVariants as reply;
ghost use Rattle.cluster.specs.Replies.{by_actor};
ghost use Rattle.cluster.specs.Clusters.{LeadsTo, slicelet_of};

use crate::actors::{kept_with_number, place_of};
use crate::clerks::told_by_clerk;
use crate::cluster::Cluster;
use crate::deliveries::published;
use crate::tasks::told_by_task;
use assignment::{Assignment, Slice};
use clerk::{Clerk, ClerkError, ClerkReply};
use grants::{Grant, Phase, ReleaseNote, SliceletError, SliceletReply, TableError};
use job_calls::{ClusterError, ClusterReply};
use key_handle::KeyHandle;
use lease_table::LeaseTable;
use machines::Trouble;
use slicelet::Slicelet;
use std::alloc::AllocError;

impl Cluster {
    /// Returns the grant with this number, or `None` if it was not made or is forgotten.
    ///
    /// Grants, notes and handles are each numbered 1, 2, and so on, in the order in which they were
    /// made.
    pub fn grant(&self, number: u64) -> Option<&Grant>
        ensures { (job : Continued) (past : Past) → continued.LeadsTo job past self.now
            → option_map (λ grant. grant.now) result ≡ known_grant job.forgotten past number }
    {
        kept_with_number(number, self.earlier.grants(), self.grants.as_slice())
    }

    /// Returns the note with this number, or `None` if it was not made.
    pub fn note(&self, number: u64) -> Option<&ReleaseNote>
        ensures { (job : Job) (past : Past) → LeadsTo job past self.now
            → option_map (λ note. note.now) result ≡ with_number number (reverse (notes_made past)) }
    {
        kept_with_number(number, self.earlier.notes(), self.notes.as_slice())
    }

    /// Returns the handle with this number, or `None` if it was not made.
    pub fn handle(&self, number: u64) -> Option<&KeyHandle>
        ensures { (job : Job) (past : Past) → LeadsTo job past self.now
            → option_map (λ handle. handle.now) result ≡ with_number number (reverse (handles_made past)) }
    {
        kept_with_number(number, self.earlier.handles(), self.handles.as_slice())
    }

    /// Returns the published assignment of this generation, or `None` if there is none or it is
    /// forgotten.
    pub fn published(&self, generation: u64) -> Option<&Assignment>
        ensures { (job : Continued) (past : Past) → continued.LeadsTo job past self.now
            → option_map (λ assignment. assignment.now) result ≡ known_slicing job.forgotten past generation }
    {
        lease_table::generations_law();
        let before = self.earlier.proposals();
        published(generation, &self.table, before, self.proposals.as_slice())
    }

    /// Returns the number that the next note will get.
    pub fn next_note(&self) -> u64
        ensures { (job : Continued) (past : Past) → continued.LeadsTo job past self.now → result ≡ length (notes_made past) + 1 }
    {
        self.earlier.notes() + self.notes.as_slice().len() as u64 + 1
    }

    /// Returns the number that the next handle will get.
    pub fn next_handle(&self) -> u64
        ensures { (job : Continued) (past : Past) → continued.LeadsTo job past self.now → result ≡ length (handles_made past) + 1 }
    {
        self.earlier.handles() + self.handles.as_slice().len() as u64 + 1
    }

    /// Returns the lease table.
    #[tactic(auto, unfolding(crate::specs::continued::Clusters::LeadsTo))]
    pub fn table(&self) -> &LeaseTable
        ensures { (job : Continued) (past : Past) → continued.LeadsTo job past self.now → result.now ≡ standing job.policy past }
    {
        &self.table
    }

    /// Returns the slicelet of a task, or `None` if the job has no task with this number.
    pub fn slicelet(&self, task: u64) -> Option<&Slicelet>
        ensures { (job : Continued) (past : Past) → continued.LeadsTo job past self.now
            → option_map (λ slicelet. slicelet.now) result ≡ slicelet_of (job_in job) past task }
    {
        let Some(place) = place_of(task, self.tasks.as_slice()) else {
            return None;
        };
        Some(&self.tasks[place])
    }

    /// Returns the table's phase.
    pub fn phase(&self) -> Phase
        ensures { (job : Continued) (past : Past) → continued.LeadsTo job past self.now → result ≡ phase_of (standing job.policy past) }
    {
        self.table.phase()
    }

    /// Returns why the table would refuse a proposal of slices that make an assignment, if it
    /// would.
    ///
    /// Returns the first of the table's refusals that applies, without building the assignment.
    /// `number` is the number of a job term, and `at` a reading of the table's clock, in ticks.
    pub fn proposal_refusal(
        &self,
        number: u64,
        generation: u64,
        slices: &[Slice],
        at: u64,
    ) -> Option<TableError>
        ensures { (job : Continued) (past : Past) → continued.LeadsTo job past self.now → result ≡ first_of (propose_checks
            (standing job.policy past) number (record { generation = generation; slices = slices.now }) at) }
    {
        self.table.propose_refusal(number, generation, slices, at)
    }

    /// Delivers the grant with this number to a task, at a reading of the task's clock in ticks.
    ///
    /// Returns the reply of the call that carries the grant, without copying the grant. `NoActor`
    /// comes before `NotSent`, which is returned if there is no grant with this number or it is
    /// forgotten.
    pub fn hear_numbered(
        &mut self,
        task: u64,
        number: u64,
        at: u64,
    ) -> Result<ClusterReply, AllocError>
        ensures { (job : Continued) (past : Past) → continued.LeadsTo job past self.old → continued.IsPlayedOr job past
            (option_map (λ grant. asked.Task task (Hear grant at)) (known_grant job.forgotten past number))
            (by_actor task job.tasks (reply.Refused error.NotSent)) result self.new }
    {
        lease_table::numbers_law();
        let Some(place) = place_of(task, self.tasks.as_slice()) else {
            return Ok(ClusterReply::Refused(ClusterError::NoActor));
        };
        let before = self.earlier.grants();
        let Some(grant) = kept_with_number(number, before, self.grants.as_slice()) else {
            return Ok(ClusterReply::Refused(ClusterError::NotSent));
        };
        told_by_task(hear(&mut self.tasks[place], grant, at))
    }

    /// Delivers the published assignment of this generation to a clerk.
    ///
    /// Returns the reply of the call that carries the assignment, without copying the assignment.
    /// `NoActor` comes before `NotSent`, which is returned if no assignment of this generation was
    /// published or it is forgotten.
    pub fn learn_published(
        &mut self,
        clerk: u64,
        generation: u64,
    ) -> Result<ClusterReply, AllocError>
        ensures { (job : Continued) (past : Past) → continued.LeadsTo job past self.old → continued.IsPlayedOr job past
            (option_map (λ slicing. asked.Clerk clerk (Learn slicing)) (known_slicing job.forgotten past generation))
            (by_actor clerk job.clerks (reply.Refused error.NotSent)) result self.new }
    {
        lease_table::generations_law();
        lease_table::assignments_law();
        let Some(place) = place_of(clerk, self.clerks.as_slice()) else {
            return Ok(ClusterReply::Refused(ClusterError::NoActor));
        };
        let before = self.earlier.proposals();
        let proposals = self.proposals.as_slice();
        let Some(assignment) = published(generation, &self.table, before, proposals) else {
            return Ok(ClusterReply::Refused(ClusterError::NotSent));
        };
        told_by_clerk(learn(&mut self.clerks[place], assignment))
    }
}

fn hear(
    slicelet: &mut Slicelet,
    grant: &Grant,
    at: u64,
) -> Result<SliceletReply, Trouble<SliceletError>>
    ensures { Takes (slicelet_step slicelet.old (Hear grant.now at)) slicelet.old result slicelet.new }
{
    slicelet.hear(grant, at)?;
    Ok(SliceletReply::Heard)
}

fn learn(clerk: &mut Clerk, assignment: &Assignment) -> Result<ClerkReply, Trouble<ClerkError>>
    ensures { Takes (clerk_step clerk.old (Learn assignment.now)) clerk.old result clerk.new }
{
    clerk.learn(assignment)?;
    Ok(ClerkReply::Learnt)
}
