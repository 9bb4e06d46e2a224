//! Copies of a cluster.

ghost use Rattle.std.specs.Prelude.{◌≡◌, IfOk};
ghost use Rattle.indexmap.specs.IndexSet.{contains};
ghost use Rattle.grants.specs.declared.values.ReleaseNote.{ReleaseNote as Note};
ghost use Rattle.key_handle.specs.declared.handle.KeyHandle.{KeyHandle as Handle};
ghost use Rattle.cluster.specs.Pasts.{Past};
ghost use Rattle.cluster.specs.Made.{same_note, same_handle};
ghost use Rattle.cluster.specs.continued.Clusters as continued;
ghost use Rattle.cluster.specs.continued.Jobs.{Continued};

use crate::cluster::Cluster;
use crate::known::{KnownHandle, KnownNote};
use assignment::Assignment;
use clerk::Clerk;
use grants::{Grant, ReleaseNote};
use indexmap::IndexSet;
use job_calls::{assignment_copies, clerk_copies, grant_copies};
use key_handle::KeyHandle;
use lease_table::LeaseTable;
use slicelet::Slicelet;
use std::alloc::{AllocError, Global};

// Copies of a cluster's machines.
#[derive(Drop)]
struct Machines {
    table: LeaseTable,
    tasks: Vec<Slicelet>,
    clerks: Vec<Clerk>,
}

// Copies of what a cluster's machines made.
#[derive(Drop)]
struct Made {
    grants: Vec<Grant>,
    notes: Vec<ReleaseNote>,
    handles: Vec<KeyHandle>,
    proposals: Vec<Assignment>,
}

// Copies of the notes and handles that a cluster knows.
#[derive(Drop)]
struct Known {
    notes: IndexSet<KnownNote>,
    handles: IndexSet<KnownHandle>,
}

fn slicelet_copies(alloc: Global, slicelets: &[Slicelet]) -> Result<Vec<Slicelet>, AllocError>
    ensures { IfOk result (λ copies. copies.items ≡ slicelets.now) }
{
    let mut copies = Vec::new(alloc);
    for slicelet in slicelets {
        copies.push(Slicelet::copy(slicelet)?)?;
    }
    Ok(copies)
}

impl Cluster {
    fn machines(&self) -> Result<Machines, AllocError>
        ensures { IfOk result (λ copies. (copies.table ≡ self.now.table) × (copies.tasks.items ≡ self.now.tasks.items)
            × (copies.clerks.items ≡ self.now.clerks.items)) }
    {
        Ok(Machines {
            table: self.table.copy()?,
            tasks: slicelet_copies(self.alloc, self.tasks.as_slice())?,
            clerks: clerk_copies(self.alloc, self.clerks.as_slice())?,
        })
    }

    fn made(&self) -> Result<Made, AllocError>
        ensures { IfOk result (λ copies. (copies.grants.items ≡ self.now.grants.items) × (copies.notes.items ≡ self.now.notes.items)
            × (copies.handles.items ≡ self.now.handles.items) × (copies.proposals.items ≡ self.now.proposals.items)) }
    {
        Ok(Made {
            grants: grant_copies(self.alloc, self.grants.as_slice())?,
            notes: Vec::from_slice(self.alloc, self.notes.as_slice())?,
            handles: Vec::from_slice(self.alloc, self.handles.as_slice())?,
            proposals: assignment_copies(self.alloc, self.proposals.as_slice())?,
        })
    }

    fn known(&self) -> Result<Known, AllocError>
        ensures notes { IfOk result (λ copies. (note : Note) → contains same_note copies.notes note ≡ contains same_note self.now.known_notes note) }
        ensures handles { IfOk result (λ copies. (handle : Handle) → contains same_handle copies.handles handle ≡ contains same_handle self.now.known_handles handle) }
    {
        Ok(Known {
            notes: self.known_notes.clone()?,
            handles: self.known_handles.clone()?,
        })
    }

    /// Returns a copy of the cluster. The only error is out of memory.
    ///
    /// Every past that leads to this cluster also leads to the copy. Later calls of one do not change
    /// the other.
    #[tactic(auto, unfolding(crate::specs::continued::Clusters::LeadsTo))]
    pub fn copy(&self) -> Result<Self, AllocError>
        ensures { (job : Continued) (past : Past) → continued.LeadsTo job past self.now
            → IfOk result (λ cluster. continued.LeadsTo job past cluster) }
    {
        let machines = self.machines()?;
        let made = self.made()?;
        let known = self.known()?;
        Ok(Cluster {
            alloc: self.alloc,
            job: self.job,
            table: machines.table,
            tasks: machines.tasks,
            clerks: machines.clerks,
            grants: made.grants,
            notes: made.notes,
            handles: made.handles,
            earlier: self.earlier,
            known_notes: known.notes,
            known_handles: known.handles,
            proposals: made.proposals,
        })
    }
}
