//! Calls of clerks.

ghost use Rattle.std.specs.Prelude.{◌≡◌, ◌∷◌, Ok};
ghost use Rattle.cluster.specs.continued.Jobs.{Continued};
ghost use Rattle.cluster.specs.continued.Clusters as continued;
ghost use Rattle.job_calls.specs.declared.call.ClusterCall.TheVariants as asked;
ghost use Rattle.job_calls.specs.declared.error.ClusterError.TheVariants as error;
ghost use Rattle.job_calls.specs.declared.reply.ClusterReply.TheVariants as reply;
ghost use Rattle.cluster.specs.Pasts.{Past, event};
ghost use Rattle.cluster.specs.continued.Deliveries.{clerk_refusal};
ghost use Rattle.cluster.specs.internals.Turns.{told_as};

use crate::actors::{place_of, unless};
use crate::cluster::Cluster;
use clerk::{ClerkCall, ClerkError, ClerkReply};
use job_calls::{ClusterError, ClusterReply};
use machines::Trouble;
use slice_ranges::SliceKey;
use std::alloc::AllocError;

// Turns a clerk's answer into the cluster's reply.
pub(crate) fn told_by_clerk(
    answer: Result<ClerkReply, Trouble<ClerkError>>,
) -> Result<ClusterReply, AllocError>
    ensures { result ≡ told_as error.Clerk reply.Clerk answer }
{
    match answer {
        Ok(told) => Ok(ClusterReply::Clerk(told)),
        Err(Trouble::Refused(why)) => Ok(ClusterReply::Refused(ClusterError::Clerk(why))),
        Err(Trouble::NoMemory) => Err(AllocError),
    }
}

impl Cluster {
    /// Plays a call of a clerk, as [`Cluster::play`] does.
    ///
    /// # Errors
    ///
    /// The refusals, in this order: `NoActor`, `NotSent` for an assignment that was never
    /// published, and those of the clerk. Out of memory comes last and leaves the cluster
    /// unchanged.
    pub fn call_clerk(&mut self, clerk: u64, call: &ClerkCall) -> Result<ClusterReply, AllocError>
        ensures { (job : Continued) (past : Past) → continued.LeadsTo job past self.old
            → continued.IsPlayed job past (asked.Clerk clerk call.now) result self.new }
    {
        let Some(place) = place_of(clerk, self.clerks.as_slice()) else {
            return Ok(ClusterReply::Refused(ClusterError::NoActor));
        };
        if let Some(why) = self.clerk_refusal(call) {
            return Ok(ClusterReply::Refused(why));
        }
        told_by_clerk(self.clerks[place].call(call))
    }

    // Returns why a call is refused before it reaches the clerk, if it is.
    fn clerk_refusal(&self, call: &ClerkCall) -> Option<ClusterError>
        ensures { (job : Continued) (past : Past) → continued.LeadsTo job past self.now → result ≡ clerk_refusal job.forgotten past call.now }
    {
        match call {
            ClerkCall::Learn(assignment) => {
                unless(self.is_published(assignment), ClusterError::NotSent)
            }
            ClerkCall::Forget => None,
        }
    }

    /// Plays `look` of a clerk.
    pub(crate) fn look(&self, clerk: u64, key: SliceKey) -> ClusterReply
        ensures { (job : Continued) (past : Past) → continued.LeadsTo job past self.now
            → continued.IsPlayed job past (asked.Look clerk key) (Ok result) self.now }
    {
        let Some(place) = place_of(clerk, self.clerks.as_slice()) else {
            return ClusterReply::Refused(ClusterError::NoActor);
        };
        match self.clerks[place].look(key) {
            Ok(found) => ClusterReply::Found(found),
            Err(_) => ClusterReply::Refused(ClusterError::Unknown),
        }
    }
}
