//! How much was made of what calls deliver by number.

ghost use Rattle.std.specs.Prelude.{◌≡◌};
ghost use Rattle.cluster.specs.Pasts.{Past};
ghost use Rattle.cluster.specs.continued.Clusters.{LeadsTo};
ghost use Rattle.cluster.specs.continued.Jobs.{Continued};
ghost use Rattle.reasons.specs.Made.{greatest_made};
ghost use Rattle.reasons.specs.declared.made.Delivery.TheVariants as delivered;

use cluster::Cluster;

/// What a call may deliver by its number.
#[derive(Clone, Copy, Debug, PartialEq, Eq)]
pub enum Delivery {
    /// A grant.
    Grant,
    /// A release note.
    Note,
    /// A handle.
    Handle,
    /// A published assignment, by its generation.
    Published,
}

// Returns the committed generation, 0 for none.
fn committed(cluster: &Cluster) -> u64
    ensures { (job : Continued) (past : Past) → LeadsTo job past cluster.now
        → result ≡ greatest_made job past delivered.Published }
{
    match cluster.table().committed() {
        Some(assignment) => assignment.generation(),
        None => 0,
    }
}

/// Returns the greatest number that was made so far of what a call delivers, 0 for none.
pub fn made_so_far(cluster: &Cluster, delivery: Delivery) -> u64
    ensures { (job : Continued) (past : Past) → LeadsTo job past cluster.now → result ≡ greatest_made job past delivery }
{
    match delivery {
        Delivery::Grant => cluster.table().granted(),
        Delivery::Note => cluster.next_note().saturating_sub(1),
        Delivery::Handle => cluster.next_handle().saturating_sub(1),
        Delivery::Published => committed(cluster),
    }
}
