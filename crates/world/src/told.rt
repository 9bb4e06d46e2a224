//! Calls of the machines, and the replies of a script's steps to them.

ghost use Rattle.std.specs.Prelude.{◌≡◌};
ghost use Rattle.job_calls.specs.Jobs.{Job};
ghost use Rattle.cluster.specs.Pasts.{Past as ClusterPast};
ghost use Rattle.cluster.specs.Clusters.{LeadsTo as LeadsToCluster};
ghost use Rattle.cluster.specs.Runs.{IsRun as IsClusterRun};
ghost use Rattle.world.specs.Replies.{life_in, number_in, renews, named, next_numbers};
ghost use Rattle.world.specs.internals.Asking.{told_of, IsAsked};

use crate::step::Step;
use cluster::Cluster;
use job_calls::{ClusterCall, ClusterReply};
use replies::{Named, NextNumbers, Reply, told_as};
use std::alloc::AllocError;

/// Returns the numbers that the next note and the next handle of a cluster will get.
pub fn next_numbers_of(cluster: &Cluster) -> NextNumbers
    ensures { (job : Job) (calls : ClusterPast) → LeadsToCluster job calls cluster.now
        → result ≡ next_numbers calls }
{
    NextNumbers {
        note: cluster.next_note(),
        handle: cluster.next_handle(),
    }
}

// Returns what a step names of its call.
fn named_of(step: &Step) -> Named
    ensures { result ≡ named step.now }
{
    Named {
        life: life_in(step),
        number: number_in(step),
        renews: renews(step),
    }
}

// Returns the life that a step names, or 0.
fn life_in(step: &Step) -> u32
    ensures { result ≡ life_in step.now }
{
    match step {
        Step::Start { life, .. } => *life,
        _ => 0,
    }
}

// Returns the number that a step names, of a grant or of a generation, or 0.
fn number_in(step: &Step) -> u64
    ensures { result ≡ number_in step.now }
{
    match step {
        Step::Propose { generation, .. } | Step::Learn { generation, .. } => *generation,
        Step::Hear { number, .. } => *number,
        _ => 0,
    }
}

// Whether a step renews the job lease.
fn renews(step: &Step) -> bool
    ensures { result ≡ renews step.now }
{
    matches!(step, Step::Renew { .. })
}

/// Turns a reply of the machines to a step's call, or out of memory, into the step's reply.
pub fn told_of(step: &Step, next: NextNumbers, answer: Result<ClusterReply, AllocError>) -> Reply
    ensures { result ≡ told_of step.now next answer }
{
    match answer {
        Ok(reply) => told_as(named_of(step), next, reply),
        Err(AllocError) => Reply::NoMemory,
    }
}

/// Plays a call that a step makes, and returns the step's reply.
pub fn ask(cluster: &mut Cluster, step: &Step, call: &ClusterCall) -> Reply
    ensures asked { (job : Job) (calls : ClusterPast) → LeadsToCluster job calls cluster.old
        → IsAsked job calls step.now call.now result cluster.new }
    ensures run { (job : Job) (calls : ClusterPast) → LeadsToCluster job calls cluster.new → IsClusterRun job calls }
{
    let next = next_numbers_of(cluster);
    let answer = cluster.play(call);
    cluster.run_law();
    told_of(step, next, answer)
}
