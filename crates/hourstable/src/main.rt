//! The command `hourstable`: plays scripts, audits logs, and traces both.
#![tactic(auto)]

use command::hourstable;
use std::process::ExitCode;

fn main(rt: HostRuntime) -> ExitCode {
    hourstable(&rt, rt.stdin(), &mut rt.stdout(), &mut rt.stderr())
}
