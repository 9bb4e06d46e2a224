//! Exports for lines of logs.

ghost use Rattle.c_calls.specs.Jobs.{job_of};
ghost use Rattle.c_calls.specs.Outputs.{output};
ghost use Rattle.log_lines.specs.Lines.{IsLineOfNumbers};
ghost use Rattle.log_lines.specs.Writes.{IsWriteLineOf};
ghost use Rattle.hourstable_c.specs.Returned.{Returns};

use log_lines::{LoggedNumbers, WriteNumbers, log_line, log_write};
use std::alloc::Global;

/// Writes the line of a log of a call and of what its caller was told, ended by a line feed.
#[unsafe(no_mangle)]
#[tactic(auto, using(crate::proofs::Returning::returns))]
pub extern "C" fn hs_log_line(
    alloc: Global,
    job: &[u8],
    call: &LoggedNumbers,
    message: &[u8],
    out: &mut [u8],
    needed: &mut usize,
) -> i32
    ensures { Returns (IsLineOfNumbers (job_of job.now) call.now message.now
        (output out.old needed.old) (output out.new needed.new)) result }
{
    log_line(alloc, job, call, message, out, needed).number()
}

/// Writes the line of a log of a write to a store, ended by a line feed.
#[unsafe(no_mangle)]
#[tactic(auto, using(crate::proofs::Returning::returns))]
pub extern "C" fn hs_log_write(
    alloc: Global,
    write: &WriteNumbers,
    out: &mut [u8],
    needed: &mut usize,
) -> i32
    ensures { Returns (IsWriteLineOf write.now (output out.old needed.old) (output out.new needed.new)) result }
{
    log_write(alloc, write, out, needed).number()
}
