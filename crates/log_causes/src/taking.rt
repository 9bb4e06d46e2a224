//! Finding the call that took the key of a handle away.

ghost use Rattle.std.specs.Prelude.{◌≡◌, IfOk};
ghost use Rattle.cluster.specs.continued.Jobs.{Continued, job_in};
ghost use Rattle.cluster.specs.Pasts.{Past};
ghost use Rattle.cluster.specs.continued.Clusters.{LeadsTo};
ghost use Rattle.log_causes.specs.Broken.{is_broken, is_taken_away, IsBreakCause, IsTakingOr};
ghost use Rattle.log_run.specs.Starts.{Begins};

use crate::cause::Cause;
use cluster::Cluster;
use grants::Stranger;
use job_calls::ClusterCall;
use key_handle::KeyHandle;
use log_line::{LogEntry, LoggedCall};
use log_run::{LogMachines, Start, answer};
use std::alloc::{AllocError, Global};

// Whether a check finds its handle broken.
fn is_broken(checked: Result<bool, Stranger>) -> bool
    ensures { result ≡ is_broken checked }
{
    match checked {
        Ok(kept) => !kept,
        Err(_) => false,
    }
}

/// Whether a call took the key of a task's handle away: a check of it, at the last reading of the
/// task, finds it broken.
pub fn is_taken_away(cluster: &Cluster, task: u64, handle: &KeyHandle) -> bool
    ensures { (job : Continued) (past : Past) → LeadsTo job past cluster.now → result ≡ is_taken_away (job_in job) past task handle.now }
{
    match cluster.slicelet(task) {
        Some(slicelet) => is_broken(slicelet.continuous(handle, slicelet.last_reading())),
        None => false,
    }
}

/// Returns the index of the first entry after whose call a check of a task's handle, at the last
/// reading of the task, would find it broken: the call took the key of the handle away.
///
/// The machines make each call, whatever its caller got.
pub fn first_taking(
    alloc: Global,
    start: &Start,
    entries: &[LogEntry],
    task: u64,
    handle: &KeyHandle,
) -> Result<Option<usize>, AllocError>
    ensures { (job : Continued) → Begins job start.now → IfOk result (IsTakingOr job entries.now task handle.now) }
{
    let mut machines = LogMachines::new(alloc, start, false)?;
    for index in 0..entries.len() {
        let entry = &entries[index];
        let _other = answer(alloc, &mut machines, &entry.line)?;
        machines.run_law();
        if is_taken_away(machines.cluster(), task, handle) {
            return Ok(Some(index));
        }
    }
    Ok(None)
}

/// Returns which of the entries before a call first took the key of the handle away that it checks;
/// `None` if none did, or if it checks none.
pub fn break_cause(
    alloc: Global,
    start: &Start,
    before: &[LogEntry],
    call: &LoggedCall,
) -> Result<Option<Cause>, AllocError>
    ensures { (job : Continued) → Begins job start.now → IfOk result (IsBreakCause job before.now call.now) }
{
    let LoggedCall::Whole(call) = call else {
        return Ok(None);
    };
    let ClusterCall::Check { task, handle, .. } = call else {
        return Ok(None);
    };
    match first_taking(alloc, start, before, *task, handle)? {
        Some(place) => Ok(Some(Cause::TakenAway(place))),
        None => Ok(None),
    }
}
