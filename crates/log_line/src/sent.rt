//! Entries that send something.

ghost use Rattle.std.specs.Prelude.{◌≡◌, IfOk};
ghost use Rattle.log_line.specs.Sent.{IsFirstFrom, asks_for, bare, commits, ends_life, gives_back, hides_handle, proposes, says, sends_commit, sends_grant, sends_handle, sends_note, sends_proposal, takes, tells_no_position, tells_note, tells_numbered, tells_open};
ghost use Rattle.log_line.specs.internals.Sending.{sends};

use crate::entry::LogEntry;
use crate::line::{BareGrant, LoggedCall, with_ranges};
use crate::told::{CallerReply, PlainLine};
use assignment::Assignment;
use grants::{Grant, MOST_GRANTS, ReleaseNote, SliceletCall, TableCall};
use job_calls::ClusterCall;
use key_handle::KeyHandle;
use replies::Reply;
use slice_ranges::Ranges;
use std::alloc::{AllocError, Global};

/// What an entry may send, by the words of its reply.
#[derive(Clone, Copy)]
pub enum Sent {
    /// A grant, in the table's reply to a call for it. No words say its ranges.
    Grant(BareGrant),
    /// The assignment of this generation, in an accepted commit of it.
    Commit(u64),
    /// A note, in the reply to a `release`, or in that to the `open` that ends its life.
    Note(ReleaseNote),
    /// A handle, in the reply to a `hold` that names it by its life and position.
    Handle(KeyHandle),
    /// A handle on another key with the life and the position of this one, in such a reply.
    OtherHandle(KeyHandle),
    /// A handle on the key of this one, in a reply that does not say which it is.
    HiddenHandle(KeyHandle),
}

/// Returns a grant without its ranges.
pub fn bare(grant: &Grant) -> BareGrant
    ensures { result ≡ bare grant.now }
{
    BareGrant {
        number: grant.number,
        task: grant.task,
        life: grant.life,
        kind: grant.lease.kind,
        generation: grant.lease.generation,
        ends: grant.lease.ends,
        table_ends: grant.table_ends,
    }
}

// Whether a call asks the table for a grant of this task and life.
fn asks_for(grant: BareGrant, call: &LoggedCall) -> bool
    ensures { result ≡ asks_for grant call.now }
{
    match call {
        LoggedCall::Whole(ClusterCall::Table(TableCall::Grant { task, life, .. })) => {
            task.number() == grant.task.number() && *life == grant.life
        }
        _ => false,
    }
}

// Whether a call commits.
fn commits(call: &LoggedCall) -> bool
    ensures { result ≡ commits call.now }
{
    matches!(
        call,
        LoggedCall::Whole(ClusterCall::Table(TableCall::Commit { .. }))
    )
}

// Whether the words of an entry are those of a reply.
fn says(alloc: Global, reply: Reply, entry: &LogEntry) -> Result<bool, AllocError>
    ensures { IfOk result (λ is. is ≡ says reply entry.now) }
{
    let told = CallerReply::Scripted(reply);
    let words = format!(in alloc; "{}", PlainLine(&told))?;
    Ok(entry.line.reply.as_str() == words.as_str())
}

// Whether an entry sends a grant.
fn sends_grant(alloc: Global, grant: &BareGrant, entry: &LogEntry) -> Result<bool, AllocError>
    ensures { IfOk result (λ is. is ≡ sends_grant grant.now entry.now) }
{
    if !asks_for(*grant, &entry.line.call) {
        return Ok(false);
    }
    let reply = Reply::Granted(with_ranges(*grant, Ranges::empty(alloc)));
    says(alloc, reply, entry)
}

// Whether an entry commits this generation, and was accepted.
fn sends_commit(alloc: Global, generation: u64, entry: &LogEntry) -> Result<bool, AllocError>
    ensures { IfOk result (λ is. is ≡ sends_commit generation entry.now) }
{
    if commits(&entry.line.call) {
        says(alloc, Reply::Committed(generation), entry)
    } else {
        Ok(false)
    }
}

// Whether words tell a note by its number among notes, and by its own number.
fn tells_numbered(alloc: Global, note: &ReleaseNote, words: &str) -> Result<bool, AllocError>
    ensures { IfOk result (λ is. is ≡ tells_numbered note.now words.now) }
{
    let end = format!(in alloc; " number {}", note.number)?;
    Ok(
        words.as_bytes().starts_with(b"released note ")
            && words.as_bytes().ends_with(end.as_bytes()),
    )
}

// Whether an entry tells a note that its call gave.
fn tells_note(alloc: Global, note: &ReleaseNote, entry: &LogEntry) -> Result<bool, AllocError>
    ensures { IfOk result (λ is. is ≡ tells_note note.now entry.now) }
{
    let note_told = Reply::Released {
        number: 0,
        note: *note,
    };
    if says(alloc, note_told, entry)? {
        return Ok(true);
    }
    tells_numbered(alloc, note, entry.line.reply.as_str())
}

// Whether an entry tells that a process begins, with this life.
fn tells_open(alloc: Global, life: u32, entry: &LogEntry) -> Result<bool, AllocError>
    ensures { IfOk result (λ is. is ≡ tells_open life entry.now) }
{
    let words = format!(in alloc; "opened {life}")?;
    Ok(entry.line.reply.as_str() == words.as_str())
}

// Whether a call gives back a lease for this note.
fn gives_back(note: &ReleaseNote, call: &LoggedCall) -> bool
    ensures { result ≡ gives_back note.now call.now }
{
    match call {
        LoggedCall::Whole(
            ClusterCall::Task {
                task,
                call: SliceletCall::Release { kind, .. },
            },
        ) => *task == note.task.number() && *kind == note.kind,
        _ => false,
    }
}

// Whether a call begins a process, and so gives back the leases of the life of this note.
fn ends_life(note: &ReleaseNote, call: &LoggedCall) -> bool
    ensures { result ≡ ends_life note.now call.now }
{
    match call {
        LoggedCall::Whole(
            ClusterCall::Task {
                task,
                call: SliceletCall::Resume { life },
            },
        ) => { *task == note.task.number() && *life == note.life && note.number == MOST_GRANTS }
        _ => false,
    }
}

// Whether an entry sends a note.
fn sends_note(alloc: Global, note: &ReleaseNote, entry: &LogEntry) -> Result<bool, AllocError>
    ensures { IfOk result (λ is. is ≡ sends_note note.now entry.now) }
{
    if gives_back(note, &entry.line.call) {
        return tells_note(alloc, note, entry);
    }
    if ends_life(note, &entry.line.call) {
        return tells_open(alloc, note.life, entry);
    }
    Ok(false)
}

// Whether a call takes a handle on the key of this one, or on another key if `other`.
fn takes(other: bool, handle: &KeyHandle, call: &LoggedCall) -> bool
    ensures { result ≡ takes other handle.now call.now }
{
    match call {
        LoggedCall::Whole(ClusterCall::Hold { task, key, .. }) => {
            if other {
                *task == handle.task.number() && *key != handle.key
            } else {
                *task == handle.task.number() && *key == handle.key
            }
        }
        _ => false,
    }
}

// Whether an entry sends a handle, or one of another key if `other`.
fn sends_handle(
    alloc: Global,
    other: bool,
    handle: &KeyHandle,
    entry: &LogEntry,
) -> Result<bool, AllocError>
    ensures { IfOk result (λ is. is ≡ sends_handle other handle.now entry.now) }
{
    if !takes(other, handle, &entry.line.call) {
        return Ok(false);
    }
    let reply = Reply::Holding {
        number: 0,
        handle: *handle,
    };
    says(alloc, reply, entry)
}

// Whether words tell a handle, but not its life and position.
fn tells_no_position(words: &str) -> bool
    ensures { result ≡ tells_no_position words.now }
{
    words.as_bytes().starts_with(b"handle ") && !words.as_bytes().starts_with(b"handle life ")
}

// Whether an entry takes a handle on the key of this one, and does not say which it is.
fn hides_handle(handle: &KeyHandle, entry: &LogEntry) -> bool
    ensures { result ≡ hides_handle handle.now entry.now }
{
    takes(false, handle, &entry.line.call) && tells_no_position(entry.line.reply.as_str())
}

// Whether an entry sends this.
fn sends(alloc: Global, sent: &Sent, entry: &LogEntry) -> Result<bool, AllocError>
    ensures { IfOk result (λ is. is ≡ sends sent.now entry.now) }
{
    match sent {
        Sent::Grant(grant) => sends_grant(alloc, grant, entry),
        Sent::Commit(generation) => sends_commit(alloc, *generation, entry),
        Sent::Note(note) => sends_note(alloc, note, entry),
        Sent::Handle(handle) => sends_handle(alloc, false, handle, entry),
        Sent::OtherHandle(handle) => sends_handle(alloc, true, handle, entry),
        Sent::HiddenHandle(handle) => Ok(hides_handle(handle, entry)),
    }
}

/// Returns the index of the first entry from `from` on that sends this.
pub fn first_sender(
    alloc: Global,
    entries: &[LogEntry],
    from: usize,
    sent: &Sent,
) -> Result<Option<usize>, AllocError>
    ensures { IfOk result (IsFirstFrom (sends sent.now) entries.now from) }
{
    for index in from..entries.len() {
        let entry = &entries[index];
        if sends(alloc, sent, entry)? {
            return Ok(Some(index));
        }
    }
    Ok(None)
}

// Whether a call proposes this assignment, or another one of its generation if `other`.
fn proposes(other: bool, assignment: &Assignment, call: &LoggedCall) -> bool
    ensures { result ≡ proposes other assignment.now call.now }
{
    match call {
        LoggedCall::Whole(
            ClusterCall::Table(
                TableCall::Propose {
                    assignment: proposed,
                    ..
                },
            ),
        ) => {
            if other {
                assignment.generation() == proposed.generation() && assignment != proposed
            } else {
                assignment == proposed
            }
        }
        _ => false,
    }
}

// Whether an entry proposes this assignment, or another one of its generation if `other`, and was
// accepted.
fn sends_proposal(
    alloc: Global,
    other: bool,
    assignment: &Assignment,
    entry: &LogEntry,
) -> Result<bool, AllocError>
    ensures { IfOk result (λ is. is ≡ sends_proposal other assignment.now entry.now) }
{
    if proposes(other, assignment, &entry.line.call) {
        says(alloc, Reply::Proposed(assignment.generation()), entry)
    } else {
        Ok(false)
    }
}

/// Returns the index of the first entry that proposes this assignment, or another one of its
/// generation if `other`, and was accepted.
pub fn first_proposal(
    alloc: Global,
    entries: &[LogEntry],
    other: bool,
    assignment: &Assignment,
) -> Result<Option<usize>, AllocError>
    ensures { IfOk result (IsFirstFrom (sends_proposal other assignment.now) entries.now 0) }
{
    for index in 0..entries.len() {
        let entry = &entries[index];
        if sends_proposal(alloc, other, assignment, entry)? {
            return Ok(Some(index));
        }
    }
    Ok(None)
}
