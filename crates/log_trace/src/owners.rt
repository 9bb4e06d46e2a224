//! Requests that were served by no owner.

ghost use Rattle.std.specs.Prelude.{◌≡◌, Option};
ghost use Rattle.cluster.specs.Pasts.{Past, standing};
ghost use Rattle.cluster.specs.continued.Clusters.{LeadsTo};
ghost use Rattle.cluster.specs.continued.Jobs.{Continued};
ghost use Rattle.lease_table.specs.Tables.{Standing};
ghost use Rattle.log_line.specs.declared.line.LoggedCall.{LoggedCall as Call};
ghost use Rattle.log_trace.specs.Lines.{is_served, not_owner_at, not_owner_of};
ghost use Rattle.log_trace.specs.internals.Making.{foreign_in};

use cluster::Cluster;
use job_calls::ClusterCall;
use lease_rule::Verdict;
use lease_table::LeaseTable;
use log_line::{CallerReply, LoggedCall};
use reasons::KeyOwners;
use replies::Reply;
use slice_ranges::SliceKey;

// Returns the committed generation if a task does not own a key in it.
fn not_owner_at(table: &LeaseTable, task: u64, key: SliceKey) -> Option<u64>
    ensures { result ≡ not_owner_at table.now task key }
{
    match table.committed() {
        Some(assignment) => {
            let owners = KeyOwners {
                generation: assignment.generation(),
                tasks: assignment.owners(key),
            };
            owners.not_owner(task)
        }
        None => Some(0),
    }
}

/// Returns the committed generation if a call is a `serve` by a task that does not own the key in it.
pub fn foreign_in(cluster: &Cluster, call: &LoggedCall) -> Option<u64>
    ensures { (job : Continued) (past : Past) → LeadsTo job past cluster.now
        → result ≡ foreign_in (standing job.policy past) call.now }
{
    match call {
        LoggedCall::Whole(ClusterCall::Serve { task, key, .. }) => {
            not_owner_at(cluster.table(), *task, *key)
        }
        _ => None,
    }
}

// Whether a caller is told that a key is served.
fn is_served(told: &CallerReply) -> bool
    ensures { result ≡ is_served told.now }
{
    matches!(
        told,
        CallerReply::Scripted(Reply::Verdict(Verdict::Allow { .. }))
    )
}

/// Returns the committed generation of a `serve` that is not the owner's, if it was allowed.
pub fn not_owner_of(foreign: Option<u64>, told: &CallerReply) -> Option<u64>
    ensures { (t : Standing) (c : Call) → foreign ≡ foreign_in t c → result ≡ not_owner_of t c told.now }
{
    if is_served(told) { foreign } else { None }
}
