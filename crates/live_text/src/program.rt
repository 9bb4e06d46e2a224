//! The program that runs one job in threads.

ghost use Rattle.std.specs.Prelude.{◌≡◌};
ghost use Rattle.std.specs.Process.{exit_status};
ghost use Rattle.live_text.specs.Status.{Ends, status_found};

use crate::fault::LiveProgramError;
use crate::run::run_live_text;
use audit::Audit;
use program_io::has_arguments;
use shared_objects::OpenGate;
use std::env::Env;
use std::io::{Eprint, Read, Write};
use std::process::ExitCode;
use std::sync::Wait;
use std::thread::Threads;

// Returns the status for what the audit found: 0 if it is one run, otherwise 4.
fn status_found(found: Audit) -> u8
    ensures { result ≡ status_found found }
{
    match found {
        Audit::One { .. } => 0,
        Audit::No { .. } => 4,
    }
}

/// Runs the job of a reader in threads and writes its report to a writer, or reports why not.
///
/// A failure is reported on standard error. Returns the exit status: 0 if the audit found one run,
/// 4 if it did not, 2 if the program was given arguments or the input is refused, and 3 at any
/// other fault. With arguments, nothing is read.
pub fn slicer_live<R: Read, W: Write>(
    rt: &(impl Env + Eprint + AllocGlobal + Threads + Wait + Sync),
    reader: &mut R,
    writer: &mut W,
) -> ExitCode
    ensures { Ends (R.remaining reader.old) (R.remaining reader.new)
        (W.contents writer.old) (W.contents writer.new) (exit_status result) }
{
    if has_arguments(rt) {
        let _ = eprintln!(rt; "{}", LiveProgramError::Arguments);
        return ExitCode::from(2);
    }
    match run_live_text(rt, rt.alloc(), reader, writer, &OpenGate) {
        Ok(found) => ExitCode::from(status_found(found)),
        Err(fault) => {
            let status = fault.status();
            let _ = eprintln!(rt; "{}", LiveProgramError::Fault(fault));
            ExitCode::from(status)
        }
    }
}
