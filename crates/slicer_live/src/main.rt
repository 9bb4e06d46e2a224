//! Runs the job on standard input in threads, and writes what they did.
#![tactic(auto)]

use live_text::slicer_live;
use std::process::ExitCode;

fn main(rt: HostRuntime) -> ExitCode {
    slicer_live(&rt, &mut rt.stdin(), &mut rt.stdout())
}
