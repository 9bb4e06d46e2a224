//! Plays the script on standard input, and writes a line for each of its steps.
#![tactic(auto)]

use service::slicer_run;
use std::process::ExitCode;

fn main(rt: HostRuntime) -> ExitCode {
    slicer_run(&rt, &mut rt.stdin(), &mut rt.stdout())
}
