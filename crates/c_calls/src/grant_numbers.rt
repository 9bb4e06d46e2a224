//! Grants as structs of numbers.

ghost use Rattle.std.specs.Prelude.{◌≡◌, codes};
ghost use Rattle.wire.specs.Grants.{grant_of};
ghost use Rattle.c_calls.specs.Jobs.{job_of};
ghost use Rattle.c_calls.specs.Outputs.{output};
ghost use Rattle.c_calls.specs.Reading.{IsReadFrom};
ghost use Rattle.c_calls.specs.Grants.{IsGrantRead, IsGrantTold, grant_numbers};

use crate::answer::Answer;
use crate::details::kind_number;
use crate::job::job_of;
use crate::output::give;
use crate::unread::unread_answer;
use grants::Grant;
use std::alloc::Global;
use wire::{JobName, decode};

/// A grant, as numbers.
#[repr(C)]
#[derive(Clone, Copy, Debug, PartialEq, Eq)]
pub struct GrantNumbers {
    /// The number of the grant.
    pub number: u64,
    /// The task that the grant is for.
    pub task: u64,
    /// The task's life that the grant is for.
    pub life: u64,
    /// The kind of its lease: 1 for a guard, 2 for a bridge.
    pub kind: u64,
    /// The generation of its lease.
    pub generation: u64,
    /// The first reading of the task's clock, in ticks, at which the lease has ended.
    pub ends: u64,
    /// The first reading of the table's clock, in ticks, at which its row has ended.
    pub table_ends: u64,
}

impl GrantNumbers {
    /// Returns the numbers of a grant.
    pub fn of(grant: &Grant) -> Self
        ensures { result ≡ grant_numbers grant.now }
    {
        GrantNumbers {
            number: grant.number,
            task: grant.task.number(),
            life: grant.life as u64,
            kind: kind_number(grant.lease.kind),
            generation: grant.lease.generation,
            ends: grant.lease.ends,
            table_ends: grant.table_ends,
        }
    }
}

// Decodes a grant of the job, and writes its numbers and the boundaries of its ranges.
fn tell_grant(
    alloc: Global,
    job: &JobName,
    grant: &[u8],
    numbers: &mut GrantNumbers,
    boundaries: &mut [u64],
    needed: &mut usize,
) -> Answer
    ensures { IsReadFrom job.now (codes "grant") grant_of grant.now
        (IsGrantTold numbers.old numbers.new (output boundaries.old needed.old) (output boundaries.new needed.new) result) }
{
    match decode::<Grant>(alloc, job, grant) {
        Ok(grant) => {
            *numbers = GrantNumbers::of(&grant);
            give(grant.lease.ranges.boundaries(), boundaries, needed)
        }
        Err(why) => unread_answer(why),
    }
}

/// Decodes a grant of a job from its message, and writes its numbers, and the boundaries of its
/// ranges: the first slice key of each range and the one after its last, in rising order.
///
/// The numbers are written even if the boundaries find no room.
///
/// # Errors
///
/// In this order: `WrongForm` if the bytes of `job` are not the name of a job, why the bytes are
/// not decoded, `NoRoom`.
pub fn read_grant(
    alloc: Global,
    job: &[u8],
    grant: &[u8],
    numbers: &mut GrantNumbers,
    boundaries: &mut [u64],
    needed: &mut usize,
) -> Answer
    ensures { IsGrantRead (job_of job.now) grant.now numbers.old numbers.new
        (output boundaries.old needed.old) (output boundaries.new needed.new) result }
{
    match job_of(job) {
        Some(job) => tell_grant(alloc, &job, grant, numbers, boundaries, needed),
        None => Answer::WrongForm,
    }
}
