//! The calls of a log whose callers got a wrong reply.

ghost use Rattle.std.specs.Prelude.{◌≡◌, IfOk};
ghost use Rattle.cluster.specs.continued.Jobs.{Continued};
ghost use Rattle.audit_text.specs.WrongReplies.{AreFirstWrongReplies, AreLater};
ghost use Rattle.log_run.specs.Starts.{Begins};

use log_causes::MOST_WRONG_REPLIES;
use log_line::{CallerReply, LogEntry};
use log_run::{LogMachines, Outcome, Start, answer};
use std::alloc::{AllocError, Global};

/// A call whose caller got a wrong reply.
#[derive(Drop)]
pub struct WrongReply {
    /// The index of its entry, in the order of the tickets.
    pub index: usize,
    /// The reply that the caller should have got.
    pub wanted: CallerReply,
}

// Returns the calls whose callers got a wrong reply, in the order of the tickets: all of them, or
// the first `MOST_WRONG_REPLIES`.
//
// The machines make each call, also after a wrong reply, and go on with what they answered.
fn wrong_replies(
    alloc: Global,
    start: &Start,
    entries: &[LogEntry],
) -> Result<Vec<WrongReply>, AllocError>
    ensures { (job : Continued) → Begins job start.now → IfOk result (λ replies. AreFirstWrongReplies job entries.now replies.items) }
{
    let mut machines = LogMachines::new(alloc, start, false)?;
    let mut replies = Vec::new(alloc);
    for index in 0..entries.len() {
        let entry = &entries[index];
        if let Some(wanted) = answer(alloc, &mut machines, &entry.line)? {
            replies.push(WrongReply { index, wanted })?;
            if replies.len() == MOST_WRONG_REPLIES {
                machines.run_law();
                return Ok(replies);
            }
        }
    }
    machines.run_law();
    Ok(replies)
}

/// Returns the wrong replies that are told after the first one, if all are wanted.
pub fn later_wrong_replies(
    alloc: Global,
    start: &Start,
    entries: &[LogEntry],
    all: bool,
    outcome: &Outcome,
) -> Result<Vec<WrongReply>, AllocError>
    ensures { (job : Continued) → Begins job start.now → IfOk result (λ later. AreLater job entries.now all outcome.now later.items) }
{
    if !all {
        return Ok(Vec::new(alloc));
    }
    let Outcome::Other { .. } = outcome else {
        return Ok(Vec::new(alloc));
    };
    let mut replies = wrong_replies(alloc, start, entries)?;
    if !replies.is_empty() {
        drop(replies.remove(0));
    }
    Ok(replies)
}
