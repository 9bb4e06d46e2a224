//! Whether what a call delivers was ever made.

ghost use Rattle.std.specs.Prelude.{◌≡◌, option_map};
ghost use Rattle.cluster.specs.continued.Jobs.{Continued};
ghost use Rattle.cluster.specs.continued.Clusters as continued;
ghost use Rattle.cluster.specs.Pasts.{Past};
ghost use Rattle.cluster.specs.continued.Deliveries.{knows_grant, knows_handle, knows_note, knows_slicing};
ghost use Rattle.cluster.specs.internals.Proposals.{published_of};

use crate::actors::kept_with_number;
use crate::cluster::Cluster;
use crate::known::{KnownHandle, KnownNote};
use assignment::Assignment;
use grants::{Grant, Phase, ReleaseNote};
use key_handle::KeyHandle;
use lease_table::LeaseTable;

// Returns the committed assignment of a generation, which is the proposal of that number, if it is
// kept. The proposals before those that are kept are so many.
pub(crate) fn published<'a>(
    generation: u64,
    table: &LeaseTable,
    before: u64,
    proposals: &'a [Assignment],
) -> Option<&'a Assignment>
    ensures { option_map (λ slicing. slicing.now) result ≡ published_of generation table.now before proposals.now }
{
    let (Phase::Steady(committed) | Phase::Bridging(committed, _)) = table.phase();
    if generation <= committed {
        kept_with_number(generation, before, proposals)
    } else {
        None
    }
}

impl Cluster {
    /// Whether the table sent this grant, and it is not forgotten.
    pub(crate) fn is_sent(&self, grant: &Grant) -> bool
        ensures { (job : Continued) (past : Past) → continued.LeadsTo job past self.now → result ≡ knows_grant job.forgotten past grant.now }
    {
        lease_table::numbers_law();
        let before = self.earlier.grants();
        match kept_with_number(grant.number, before, self.grants.as_slice()) {
            Some(sent) => grant == sent,
            None => false,
        }
    }

    /// Whether a task made this note, and it is not forgotten.
    pub(crate) fn is_made(&self, note: &ReleaseNote) -> bool
        ensures { (job : Continued) (past : Past) → continued.LeadsTo job past self.now → result ≡ knows_note job.forgotten past note.now }
    {
        self.known_notes.contains(&KnownNote::new(note))
    }

    /// Whether a task returned this handle, and it is not forgotten.
    pub(crate) fn is_given(&self, handle: &KeyHandle) -> bool
        ensures { (job : Continued) (past : Past) → continued.LeadsTo job past self.now → result ≡ knows_handle job.forgotten past handle.now }
    {
        self.known_handles.contains(&KnownHandle::new(handle))
    }

    /// Whether this assignment was published, and it is not forgotten.
    pub(crate) fn is_published(&self, assignment: &Assignment) -> bool
        ensures { (job : Continued) (past : Past) → continued.LeadsTo job past self.now → result ≡ knows_slicing job.forgotten past assignment.now }
    {
        lease_table::generations_law();
        match published(
            assignment.generation(),
            &self.table,
            self.earlier.proposals(),
            self.proposals.as_slice(),
        ) {
            Some(known) => assignment == known,
            None => false,
        }
    }
}
