//! What steps deliver by numbers.

ghost use Rattle.std.specs.Prelude.{◌≡◌, IfOk, option_map, reverse};
ghost use Rattle.cluster.specs.Clusters.{LeadsTo};
ghost use Rattle.cluster.specs.Made.{handles_made, notes_made};
ghost use Rattle.cluster.specs.Numbers.{with_number};
ghost use Rattle.cluster.specs.Pasts.{Past as Calls, grants};
ghost use Rattle.job_calls.specs.Jobs.{Job};
ghost use Rattle.script_trace.specs.Steps.{delivered_in};
ghost use Rattle.script_trace.specs.declared.delivered.Delivered.TheVariants as delivered;

use cluster::Cluster;
use grants::{Grant, ReleaseNote};
use key_handle::KeyHandle;
use std::alloc::AllocError;
use world::Step;

/// What a step delivers by its number.
#[derive(Debug, Drop)]
pub enum Delivered {
    /// To a task that hears it.
    Grant(Grant),
    /// To the table.
    Note(ReleaseNote),
    /// To a task that checks it.
    Handle(KeyHandle),
}

// Returns a copy of the grant with this number, if it was made.
fn grant_of(cluster: &Cluster, number: u64) -> Result<Option<Delivered>, AllocError>
    ensures { (job : Job) (calls : Calls) → LeadsTo job calls cluster.now
        → IfOk result (λ found. found ≡ option_map delivered.Grant (with_number number (grants calls))) }
{
    match cluster.grant(number) {
        Some(grant) => {
            let copied = grant.copy()?;
            Ok(Some(Delivered::Grant(copied)))
        }
        None => Ok(None),
    }
}

// Returns the note with this number, if it was made.
fn note_of(cluster: &Cluster, number: u64) -> Option<Delivered>
    ensures { (job : Job) (calls : Calls) → LeadsTo job calls cluster.now
        → result ≡ option_map delivered.Note (with_number number (reverse (notes_made calls))) }
{
    match cluster.note(number) {
        Some(note) => Some(Delivered::Note(*note)),
        None => None,
    }
}

// Returns the handle with this number, if it was made.
fn handle_of(cluster: &Cluster, number: u64) -> Option<Delivered>
    ensures { (job : Job) (calls : Calls) → LeadsTo job calls cluster.now
        → result ≡ option_map delivered.Handle (with_number number (reverse (handles_made calls))) }
{
    match cluster.handle(number) {
        Some(handle) => Some(Delivered::Handle(*handle)),
        None => None,
    }
}

/// Returns what a step delivers by its number, if it was made.
///
/// The only error is out of memory.
pub fn delivered_by(cluster: &Cluster, step: &Step) -> Result<Option<Delivered>, AllocError>
    ensures { (job : Job) (calls : Calls) → LeadsTo job calls cluster.now
        → IfOk result (λ found. found ≡ delivered_in calls step.now) }
{
    match step {
        Step::Hear { number, .. } => grant_of(cluster, *number),
        Step::Free { note, .. } => Ok(note_of(cluster, *note)),
        Step::Check { handle, .. } => Ok(handle_of(cluster, *handle)),
        _ => Ok(None),
    }
}
