//! Tokens and writes of a log in the order of the tickets.

ghost use Rattle.std.specs.Prelude.{◌≡◌, ◌++◌, IfOk, OnOk, map, option_map, option_to_list};
ghost use Rattle.cluster.specs.continued.Jobs.{Continued};
ghost use Rattle.log_run.specs.Starts.{Begins};
ghost use Rattle.log_writes.specs.Given.{AreGivenIn, given_turn};
ghost use Rattle.log_writes.specs.Turns.{IsInTurn, earlier_turn, earlier_turns, offered_turn, revision_of, turns_of, write_of};

use crate::giving::given_in;
use log_line::{LinePosition, LogEntry, LoggedWrite, StoreReply, WriteEntry};
use log_run::{LogMachines, Start, tell};
use std::alloc::{AllocError, Global};
use store_writes::{GivenToken, Write, WriteEvent};

/// A token that a task was given, or a write that was offered, with its place in the log.
#[derive(Clone, Copy, Debug, PartialEq, Eq)]
pub struct Turn {
    /// The ticket of the line.
    pub ticket: u64,
    /// The position of the line.
    pub place: LinePosition,
    /// What the line tells.
    pub event: WriteEvent,
}

// Returns the turn of a token that a task was given with the call of an entry.
fn given_turn(entry: &LogEntry, token: GivenToken) -> Turn
    ensures { result ≡ given_turn entry.now token }
{
    Turn {
        ticket: entry.line.ticket,
        place: entry.place,
        event: WriteEvent::Given(token),
    }
}

// Returns the revision that the store gave a write, if it gave one.
fn revision_of(reply: StoreReply) -> Option<u64>
    ensures { result ≡ revision_of reply }
{
    match reply {
        StoreReply::Taken(revision) => revision,
        StoreReply::Refused | StoreReply::Unknown => None,
    }
}

// Returns the write of a line.
fn write_of(write: &LoggedWrite) -> Write
    ensures { result ≡ write_of write.now }
{
    Write {
        key: write.key.value(),
        token: write.token,
        revision: revision_of(write.reply),
    }
}

// Returns the turn of a write.
fn offered_turn(entry: &WriteEntry) -> Turn
    ensures { result ≡ offered_turn entry.now }
{
    let write = write_of(&entry.write);
    Turn {
        ticket: entry.write.ticket,
        place: entry.place,
        event: WriteEvent::Offered(write),
    }
}

// Returns the turn of a write's token as one that a task was given in earlier logs.
fn earlier_turn(entry: &WriteEntry) -> Turn
    ensures { result ≡ earlier_turn entry.now }
{
    let write = write_of(&entry.write);
    Turn {
        ticket: 0,
        place: entry.place,
        event: WriteEvent::Given(write.token_needed()),
    }
}

// Adds the turn of what a task was given with the call of an entry, if it was given a token.
fn add_given(
    turns: &mut Vec<Turn>,
    entry: &LogEntry,
    given: Option<GivenToken>,
) -> Result<(), AllocError>
    ensures { OnOk result (turns.new.items ≡ turns.old.items ++ option_to_list (option_map (given_turn entry.now) given)) }
{
    if let Some(token) = given {
        turns.push(given_turn(entry, token))?;
    }
    Ok(())
}

/// Plays the calls of a log, which are in the order of their tickets, on the machines of its job, and
/// returns the tokens that tasks were given with them.
pub fn given_turns(
    alloc: Global,
    start: &Start,
    entries: &[LogEntry],
) -> Result<Vec<Turn>, AllocError>
    ensures { (job : Continued) → Begins job start.now → IfOk result (λ turns. AreGivenIn job entries.now turns.items) }
{
    let mut machines = LogMachines::new(alloc, start, false)?;
    let most = start.job.policy().high();
    let mut turns = Vec::new(alloc);
    for index in 0..entries.len() {
        let entry = &entries[index];
        let given = given_in(machines.cluster(), most, &entry.line.call);
        add_given(&mut turns, entry, given)?;
        tell(&mut machines, &entry.line.call)?;
    }
    machines.run_law();
    Ok(turns)
}

// Returns the turns of the tokens of writes as ones that tasks were given in earlier logs.
fn turns_before(alloc: Global, writes: &[WriteEntry]) -> Result<Vec<Turn>, AllocError>
    ensures { IfOk result (λ turns. turns.items ≡ map earlier_turn writes.now) }
{
    writes
        .iter()
        .map(|entry| earlier_turn(entry))
        .collect(alloc)
}

// Returns the tokens of all writes, if earlier logs may have given them.
fn earlier_turns(
    alloc: Global,
    goes_on: bool,
    writes: &[WriteEntry],
) -> Result<Vec<Turn>, AllocError>
    ensures { IfOk result (λ turns. turns.items ≡ earlier_turns goes_on writes.now) }
{
    if !goes_on {
        return Ok(Vec::new(alloc));
    }
    turns_before(alloc, writes)
}

// Returns the turns of writes.
fn offered_turns(alloc: Global, writes: &[WriteEntry]) -> Result<Vec<Turn>, AllocError>
    ensures { IfOk result (λ turns. turns.items ≡ map offered_turn writes.now) }
{
    writes
        .iter()
        .map(|entry| offered_turn(entry))
        .collect(alloc)
}

// Sorts turns by their tickets. Turns with the same ticket keep their order.
fn sort(turns: &mut Vec<Turn>) -> Result<(), AllocError>
    ensures { OnOk result (IsInTurn turns.old.items turns.new.items) }
{
    turns.sort_by_key(|turn| turn.ticket)
}

/// Returns the tokens that tasks were given, and the writes, in the order of their tickets; of those
/// with the same ticket the tokens come first.
///
/// `goes_on` is whether the log goes on from earlier ones, which may have given the token of any
/// write.
pub fn in_turn(
    alloc: Global,
    goes_on: bool,
    given: &[Turn],
    writes: &[WriteEntry],
) -> Result<Vec<Turn>, AllocError>
    ensures { IfOk result (λ turns. IsInTurn (turns_of goes_on given.now writes.now) turns.items) }
{
    let mut turns = earlier_turns(alloc, goes_on, writes)?;
    turns.extend_from_slice(given)?;
    let offered = offered_turns(alloc, writes)?;
    turns.extend_from_slice(offered.as_slice())?;
    sort(&mut turns)?;
    Ok(turns)
}
