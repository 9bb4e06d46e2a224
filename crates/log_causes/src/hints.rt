//! What logs may lack where their calls are not one run.

ghost use Rattle.std.specs.Prelude.{IfOk};
ghost use Rattle.cluster.specs.continued.Jobs.{Continued};
ghost use Rattle.log_run.specs.Starts.{Begins};
ghost use Rattle.log_causes.specs.Hints.{AreHints};

use crate::finding::Finding;
use crate::hint::{MissingOpen, hint_for, unstarted};
use crate::missing::{MissingGrants, missing_grants};
use log_line::LogEntry;
use log_run::Start;
use std::alloc::{AllocError, Global};

/// What logs may lack.
#[derive(Clone, Copy, Debug, PartialEq, Eq)]
pub struct Hints {
    /// An `open` line, the begin of a process, with which the calls up to the one with a wrong reply
    /// are a run.
    pub process: Option<MissingOpen>,
    /// The task whose start may be missing before the call with a wrong reply.
    pub start: Option<u64>,
    /// Grants of the table that no line tells.
    pub grants: Option<MissingGrants>,
}

/// Returns what the logs may lack, by what was found: nothing if no caller got a wrong reply.
pub fn hints_for(
    alloc: Global,
    start: &Start,
    entries: &[LogEntry],
    finding: &Finding,
) -> Result<Hints, AllocError>
    ensures { (job : Continued) → Begins job start.now → IfOk result (AreHints job entries.now finding.now) }
{
    Ok(Hints {
        process: hint_for(alloc, start, entries, finding)?,
        start: unstarted(entries, finding),
        grants: missing_grants(alloc, entries, finding)?,
    })
}
