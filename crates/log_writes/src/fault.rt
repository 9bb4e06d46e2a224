//! The first write that the law rules out.

ghost use Rattle.std.specs.Prelude.{◌≡◌, IfOk, is_some, map};
ghost use Rattle.cluster.specs.continued.Jobs.{Continued};
ghost use Rattle.log_run.specs.Starts.{Begins};
ghost use Rattle.log_writes.specs.Faults.{IsFenced, IsFound, fault_of, reason_of};
ghost use Rattle.log_writes.specs.Turns.{event_of};

use crate::turns::{Turn, given_turns, in_turn};
use log_line::{LinePosition, LogEntry, WriteEntry};
use log_run::Start;
use std::alloc::{AllocError, Global};
use store_writes::{RuledOut, WriteEvent, WriteFault, first_ruled_out};

/// Why the law rules out a write.
#[derive(Clone, Copy, Debug, PartialEq, Eq)]
pub enum FenceReason {
    /// No task was given its token for its key before.
    NotGiven,
    /// The store took it later than the write at this position, which is of the same key and has a
    /// greater token.
    Overtaken(LinePosition),
}

/// A write that the law rules out.
#[derive(Clone, Copy, Debug, PartialEq, Eq)]
pub struct FenceFault {
    /// The position of its line.
    pub place: LinePosition,
    /// Why.
    pub why: FenceReason,
}

// Returns why a write is ruled out, with the position of the other write.
fn reason_of(turns: &[Turn], why: WriteFault) -> Option<FenceReason>
    ensures { result ≡ reason_of turns.now why }
{
    match why {
        WriteFault::NotGiven => Some(FenceReason::NotGiven),
        WriteFault::Overtaken(index) => {
            let by = turns.get(index)?;
            Some(FenceReason::Overtaken(by.place))
        }
    }
}

// Returns a write that is ruled out with the positions of the lines.
fn fault_of(turns: &[Turn], found: RuledOut) -> Option<FenceFault>
    ensures { result ≡ fault_of turns.now found }
{
    let turn = turns.get(found.index)?;
    let why = reason_of(turns, found.why)?;
    Some(FenceFault {
        place: turn.place,
        why,
    })
}

// Returns the events of turns.
fn events_of(alloc: Global, turns: &[Turn]) -> Result<Vec<WriteEvent>, AllocError>
    ensures { IfOk result (λ events. events.items ≡ map event_of turns.now) }
{
    turns.iter().map(|turn| turn.event).collect(alloc)
}

// Finds the first turn that is a write which the law rules out.
fn found_in(alloc: Global, turns: &[Turn]) -> Result<Option<FenceFault>, AllocError>
    ensures { IfOk result (IsFound turns.now) }
{
    let events = events_of(alloc, turns)?;
    let found = first_ruled_out(alloc, events.as_slice())?;
    match found {
        None => Ok(None),
        Some(found) => match fault_of(turns, found) {
            Some(fault) => Ok(Some(fault)),
            // What is found names turns that there are.
            None => Err(AllocError),
        },
    }
}

/// Finds the first write of a log that the law of fencing tokens rules out, by the tickets.
///
/// The calls are one run from this start, in the order of their tickets. A token counts as given to a
/// task once it served a request for the key with it, and if the log goes on from earlier ones, also
/// if they may have given it. Of writes whose store gave no revision only the tokens are judged.
/// Fails if memory runs out.
pub fn fence_fault(
    alloc: Global,
    start: &Start,
    entries: &[LogEntry],
    writes: &[WriteEntry],
) -> Result<Option<FenceFault>, AllocError>
    ensures { (job : Continued) → Begins job start.now
        → IfOk result (IsFenced job (is_some start.now.earlier) entries.now writes.now) }
{
    let given = given_turns(alloc, start, entries)?;
    let turns = in_turn(alloc, start.earlier.is_some(), given.as_slice(), writes)?;
    found_in(alloc, turns.as_slice())
}
