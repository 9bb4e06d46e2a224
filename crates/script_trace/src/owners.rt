//! Requests that were served by no owner.

ghost use Rattle.std.specs.Prelude.{◌≡◌};
ghost use Rattle.cluster.specs.Clusters.{LeadsTo};
ghost use Rattle.cluster.specs.Pasts.{Past as Calls, standing};
ghost use Rattle.job_calls.specs.Jobs.{Job};
ghost use Rattle.world.specs.Headline.{is_served};
ghost use Rattle.script_trace.specs.Lines.{not_owner_at, not_owner_of};

use cluster::Cluster;
use lease_rule::Verdict;
use lease_table::LeaseTable;
use reasons::KeyOwners;
use replies::Reply;
use slice_ranges::{SliceKey, slice_key};
use world::Step;

// Returns the committed generation if a task does not own a key in it.
fn not_owner_at(table: &LeaseTable, task: u64, key: SliceKey) -> Option<u64>
    ensures { result ≡ not_owner_at table.now task key }
{
    match table.committed() {
        Some(assignment) => {
            let owners = KeyOwners {
                generation: assignment.generation(),
                tasks: assignment.owners(key),
            };
            owners.not_owner(task)
        }
        None => Some(0),
    }
}

// Whether a reply serves a key.
fn is_served(reply: &Reply) -> bool
    ensures { result ≡ is_served reply.now }
{
    matches!(reply, Reply::Verdict(Verdict::Allow { .. }))
}

/// Returns the committed generation if a step is a `serve` that was allowed to a task that does not
/// own the key in it.
pub fn not_owner_of(cluster: &Cluster, step: &Step, reply: &Reply) -> Option<u64>
    ensures { (job : Job) (calls : Calls) → LeadsTo job calls cluster.now
        → result ≡ not_owner_of (standing job.policy calls) step.now reply.now }
{
    let Step::Serve { task, key, .. } = step else {
        return None;
    };
    if !is_served(reply) {
        return None;
    }
    not_owner_at(cluster.table(), *task, slice_key(key.as_slice()))
}
