//! Handles that calls find broken.

ghost use Rattle.std.specs.Prelude.{◌≡◌, ℕ, IfOk, List, take};
ghost use Rattle.cluster.specs.continued.Jobs.{Continued};
ghost use Rattle.log_line.specs.declared.entry.LogEntry.{LogEntry as Entry};
ghost use Rattle.log_run.specs.Starts.{Begins};
ghost use Rattle.log_trace.specs.Lines.{IsTakenFirst, broken_by};
ghost use Rattle.log_trace.specs.Takings.{AreTakings};
ghost use Rattle.log_trace.specs.internals.Taking.{first_below};

use crate::takings::Takings;
use job_calls::ClusterCall;
use key_handle::KeyHandle;
use log_causes::first_taking;
use log_line::{CallerReply, LogEntry, LoggedCall};
use log_run::Start;
use replies::Reply;
use std::alloc::{AllocError, Global};

/// A handle that a call finds broken.
#[derive(Clone, Copy, PartialEq, Eq)]
pub struct BrokenHandle {
    /// The task that is asked.
    pub task: u64,
    /// The handle.
    pub handle: KeyHandle,
}

/// Returns the handle that a call finds broken, if its caller is told so.
pub fn broken_by(call: &LoggedCall, told: &CallerReply) -> Option<BrokenHandle>
    ensures { result ≡ broken_by call.now told.now }
{
    let CallerReply::Scripted(Reply::Broken) = told else {
        return None;
    };
    match call {
        LoggedCall::Whole(ClusterCall::Check { task, handle, .. }) => Some(BrokenHandle {
            task: *task,
            handle: *handle,
        }),
        _ => None,
    }
}

// Returns a place, if there is one and it is below `end`.
fn first_below(first: Option<usize>, end: usize) -> Option<usize>
    ensures { result ≡ first_below first end }
{
    match first {
        Some(place) if place < end => Some(place),
        _ => None,
    }
}

/// Returns the place of the first of the calls before one that took the key of the handle away which
/// that one finds broken; `None` if none did, or if it finds none broken.
///
/// `takings` are those of a log that begins with the calls before. A handle that is not among them
/// is looked for by playing these again.
pub fn taken_first(
    alloc: Global,
    start: &Start,
    takings: &Takings,
    before: &[LogEntry],
    call: &LoggedCall,
    told: &CallerReply,
) -> Result<Option<usize>, AllocError>
    ensures { (job : Continued) (entries : List Entry) (index : ℕ) → Begins job start.now → AreTakings job entries takings.now
        → before.now ≡ take index entries → IfOk result (IsTakenFirst job before.now (broken_by call.now told.now)) }
{
    let Some(broken) = broken_by(call, told) else {
        return Ok(None);
    };
    match takings.find(&broken) {
        Some(taking) => Ok(first_below(taking.first, before.len())),
        None => first_taking(alloc, start, before, broken.task, &broken.handle),
    }
}
