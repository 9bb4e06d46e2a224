//! Exports for assignments as numbers.

ghost use Rattle.c_calls.specs.Arguments.{slice_key_of};
ghost use Rattle.c_calls.specs.Jobs.{job_of};
ghost use Rattle.c_calls.specs.Outputs.{output};
ghost use Rattle.c_calls.specs.Assignments.{IsAssignmentRead, IsBuiltFor, IsSliceRead, slices_of};
ghost use Rattle.hourstable_c.specs.Returned.{Returns};

use c_calls::{SliceNumbers, new_assignment, read_assignment, read_slice};
use std::alloc::Global;

/// Writes the message of the assignment of a job that is built of slices.
#[unsafe(no_mangle)]
#[tactic(auto, using(crate::proofs::Returning::returns))]
pub extern "C" fn hs_assignment_new(
    alloc: Global,
    job: &[u8],
    generation: u64,
    slices: &[SliceNumbers],
    out: &mut [u8],
    needed: &mut usize,
) -> i32
    ensures { Returns (IsBuiltFor (job_of job.now) generation (slices_of slices.now)
        (output out.old needed.old) (output out.new needed.new)) result }
{
    new_assignment(alloc, job, generation, slices, out, needed).number()
}

/// Decodes an assignment of a job, and writes its generation and its slices to `out`.
#[unsafe(no_mangle)]
#[tactic(auto, using(crate::proofs::Returning::returns))]
pub extern "C" fn hs_assignment_read(
    alloc: Global,
    job: &[u8],
    assignment: &[u8],
    generation: &mut u64,
    out: &mut [SliceNumbers],
    needed: &mut usize,
) -> i32
    ensures { Returns (IsAssignmentRead (job_of job.now) assignment.now generation.old generation.new
        (output out.old needed.old) (output out.new needed.new)) result }
{
    read_assignment(alloc, job, assignment, generation, out, needed).number()
}

/// Decodes an assignment of a job, and writes the slice that has a slice key to `out`.
#[unsafe(no_mangle)]
#[tactic(auto, using(crate::proofs::Returning::returns))]
pub extern "C" fn hs_assignment_slice(
    alloc: Global,
    job: &[u8],
    assignment: &[u8],
    slice_key: u64,
    out: &mut SliceNumbers,
) -> i32
    ensures { Returns (IsSliceRead (job_of job.now) (slice_key_of slice_key) assignment.now out.old out.new) result }
{
    read_slice(alloc, job, assignment, slice_key, out).number()
}
