//! Exports for what grants say.

ghost use Rattle.c_calls.specs.Jobs.{job_of};
ghost use Rattle.c_calls.specs.Outputs.{output};
ghost use Rattle.c_calls.specs.Grants.{IsGrantRead};
ghost use Rattle.hourstable_c.specs.Returned.{Returns};

use c_calls::{GrantNumbers, read_grant};
use std::alloc::Global;

/// Decodes a grant of a job, and writes its numbers to `out` and the boundaries of its ranges to
/// `boundaries`.
#[unsafe(no_mangle)]
#[tactic(auto, using(crate::proofs::Returning::returns))]
pub extern "C" fn hs_grant_read(
    alloc: Global,
    job: &[u8],
    grant: &[u8],
    out: &mut GrantNumbers,
    boundaries: &mut [u64],
    needed: &mut usize,
) -> i32
    ensures { Returns (IsGrantRead (job_of job.now) grant.now out.old out.new
        (output boundaries.old needed.old) (output boundaries.new needed.new)) result }
{
    read_grant(alloc, job, grant, out, boundaries, needed).number()
}
