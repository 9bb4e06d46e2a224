//! The program that plays one script.

ghost use Rattle.std.specs.Process.{exit_status};
ghost use Rattle.service.specs.Status.{Ends};

use crate::fault::ProgramError;
use crate::run::run_script;
use program_io::has_arguments;
use std::env::Env;
use std::io::{Eprint, Read, Write};
use std::process::ExitCode;

/// Plays the script of a reader and writes its lines to a writer, or reports why not.
///
/// A failure is reported on standard error. Returns the exit status: 0 if the script was played, 2
/// if the program was given arguments or the script is refused, and 3 at any other fault. With
/// arguments, nothing is read.
pub fn slicer_run<R: Read, W: Write>(
    rt: &(impl Env + Eprint + AllocGlobal),
    reader: &mut R,
    writer: &mut W,
) -> ExitCode
    ensures { Ends (R.remaining reader.old) (R.remaining reader.new)
        (W.contents writer.old) (W.contents writer.new) (exit_status result) }
{
    if has_arguments(rt) {
        let _ = eprintln!(rt; "{}", ProgramError::Arguments);
        return ExitCode::from(2);
    }
    match run_script(rt.alloc(), reader, writer) {
        Ok(()) => ExitCode::SUCCESS,
        Err(fault) => {
            let status = fault.status();
            let _ = eprintln!(rt; "{}", ProgramError::Fault(fault));
            ExitCode::from(status)
        }
    }
}
