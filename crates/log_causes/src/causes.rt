//! Finding why a call delivers what nothing sent before it.

ghost use Rattle.std.specs.Prelude.{◌≡◌, ◌<◌, IfOk, length, slice_get};
ghost use Rattle.machines.specs.Refusals.{first_of};
ghost use Rattle.cluster.specs.continued.Jobs.{Continued};
ghost use Rattle.cluster.specs.Pasts.{Past};
ghost use Rattle.cluster.specs.continued.Clusters.{LeadsTo};
ghost use Rattle.log_causes.specs.Causes.{IsAssignmentCause, IsUnsentFor, IsCommittedOr, IsGenerationCause, IsGrantCause, IsGrantChangedOr, IsHandleCause, IsLearnCause, IsNoteCause, grant_changes, grant_delivered, handle_delivered, has_other_ranges, key_in, key_taken, kind_change, note_delivered, number_change, of_other_kind, other_kind};

use crate::cause::{Change, Changed, Member, Unsent};
use assignment::Assignment;
use clerk::ClerkCall;
use cluster::Cluster;
use grants::{ReleaseNote, SliceletCall, TableCall};
use job_calls::ClusterCall;
use key_handle::KeyHandle;
use lease_rule::Kind;
use log_line::{BareGrant, LogEntry, LoggedCall, Sent, bare, first_proposal, first_sender};
use slice_ranges::Ranges;
use std::alloc::{AllocError, Global};

fn number_change(member: Member, here: u64, there: u64) -> Option<Change>
    ensures { result ≡ number_change member here there }
{
    if here == there {
        None
    } else {
        Some(Change::Number {
            member,
            here,
            there,
        })
    }
}

fn kind_change(here: Kind, there: Kind) -> Option<Change>
    ensures { result ≡ kind_change here there }
{
    if here == there {
        None
    } else {
        Some(Change::Kind { here, there })
    }
}

/// Returns the grant that a call delivers.
pub fn grant_delivered(call: &LoggedCall) -> Option<BareGrant>
    ensures { result ≡ grant_delivered call.now }
{
    match call {
        LoggedCall::Whole(
            ClusterCall::Task {
                call: SliceletCall::Hear { grant, .. },
                ..
            },
        ) => Some(bare(grant)),
        LoggedCall::HearBare { grant, .. } => Some(*grant),
        _ => None,
    }
}

// Whether a call delivers a grant with other ranges than these.
fn has_other_ranges(call: &LoggedCall, ranges: &Ranges) -> bool
    ensures { result ≡ has_other_ranges call.now ranges.now }
{
    match call {
        LoggedCall::Whole(
            ClusterCall::Task {
                call: SliceletCall::Hear { grant, .. },
                ..
            },
        ) => grant.lease.ranges != *ranges,
        _ => false,
    }
}

// Returns the first member of a grant that differs from the one that was sent.
fn grant_change(grant: &BareGrant, sent: &BareGrant, has_other_ranges: bool) -> Option<Change>
    ensures { result ≡ first_of (grant_changes grant.now sent.now has_other_ranges) }
{
    let task = number_change(Member::Task, grant.task.number(), sent.task.number());
    let life = number_change(Member::Life, grant.life as u64, sent.life as u64);
    let kind = kind_change(grant.kind, sent.kind);
    let generation = number_change(Member::Generation, grant.generation, sent.generation);
    let ranges = if has_other_ranges {
        Some(Change::Ranges)
    } else {
        None
    };
    let ends = number_change(Member::Ends, grant.ends, sent.ends);
    let until = number_change(Member::Until, grant.table_ends, sent.table_ends);
    task.or(life)
        .or(kind)
        .or(generation)
        .or(ranges)
        .or(ends)
        .or(until)
}

// Returns the entry that sent another grant with the number of this one, and how that one differs.
fn grant_changed(
    alloc: Global,
    cluster: &Cluster,
    before: &[LogEntry],
    call: &LoggedCall,
    grant: &BareGrant,
) -> Result<Option<Changed>, AllocError>
    ensures { (job : Continued) (past : Past) → LeadsTo job past cluster.now
        → IfOk result (IsGrantChangedOr job past before.now call.now grant.now) }
{
    let Some(sent) = cluster.grant(grant.number) else {
        return Ok(None);
    };
    let other_ranges = has_other_ranges(call, &sent.lease.ranges);
    let sent = bare(sent);
    let Some(change) = grant_change(grant, &sent, other_ranges) else {
        return Ok(None);
    };
    let Some(place) = first_sender(alloc, before, 0, &Sent::Grant(sent))? else {
        return Ok(None);
    };
    Ok(Some(Changed { place, change }))
}

// Returns why nothing sent before the entry at `index` the grant that its call delivers.
fn grant_cause(
    alloc: Global,
    cluster: &Cluster,
    entries: &[LogEntry],
    index: usize,
    call: &LoggedCall,
    grant: &BareGrant,
) -> Result<Unsent, AllocError>
    requires { index < length entries.now }
    ensures { (job : Continued) (past : Past) → LeadsTo job past cluster.now
        → IfOk result (IsGrantCause job past entries.now index call.now grant.now) }
{
    if let Some(place) = first_sender(alloc, entries, index + 1, &Sent::Grant(*grant))? {
        return Ok(Unsent::Later(place));
    }
    match grant_changed(alloc, cluster, &entries[..index], call, grant)? {
        Some(changed) => Ok(Unsent::Other(changed)),
        None => Ok(Unsent::Nothing),
    }
}

// Returns the index of the entry after `index` that commits an assignment which some entry
// proposes.
fn commit_after(
    alloc: Global,
    entries: &[LogEntry],
    index: usize,
    assignment: &Assignment,
) -> Result<Option<usize>, AllocError>
    requires { index < length entries.now }
    ensures { IfOk result (IsCommittedOr entries.now index assignment.now) }
{
    let Some(proposal) = first_proposal(alloc, entries, false, assignment)? else {
        return Ok(None);
    };
    let from = proposal.max(index) + 1;
    first_sender(alloc, entries, from, &Sent::Commit(assignment.generation()))
}

// Returns why nothing committed before the entry at `index` the assignment that its call delivers.
fn assignment_cause(
    alloc: Global,
    entries: &[LogEntry],
    index: usize,
    assignment: &Assignment,
) -> Result<Unsent, AllocError>
    requires { index < length entries.now }
    ensures { IfOk result (IsAssignmentCause entries.now index assignment.now) }
{
    if let Some(place) = commit_after(alloc, entries, index, assignment)? {
        return Ok(Unsent::Later(place));
    }
    match first_proposal(alloc, &entries[..index], true, assignment)? {
        Some(place) => Ok(Unsent::Other(Changed {
            place,
            change: Change::Slices,
        })),
        None => Ok(Unsent::Nothing),
    }
}

// Returns why nothing committed this generation before the entry at `index`.
fn generation_cause(
    alloc: Global,
    entries: &[LogEntry],
    index: usize,
    generation: u64,
) -> Result<Unsent, AllocError>
    requires { index < length entries.now }
    ensures { IfOk result (IsGenerationCause entries.now index generation) }
{
    match first_sender(alloc, entries, index + 1, &Sent::Commit(generation))? {
        Some(place) => Ok(Unsent::Later(place)),
        None => Ok(Unsent::Nothing),
    }
}

fn other_kind(kind: Kind) -> Kind
    ensures { result ≡ other_kind kind }
{
    match kind {
        Kind::Guard => Kind::Bridge,
        Kind::Bridge => Kind::Guard,
    }
}

// Returns a note of the other kind.
fn of_other_kind(note: &ReleaseNote) -> ReleaseNote
    ensures { result ≡ of_other_kind note.now }
{
    ReleaseNote {
        task: note.task,
        life: note.life,
        kind: other_kind(note.kind),
        number: note.number,
    }
}

// Returns why nothing sent before the entry at `index` the note that its call delivers.
fn note_cause(
    alloc: Global,
    entries: &[LogEntry],
    index: usize,
    note: &ReleaseNote,
) -> Result<Unsent, AllocError>
    requires { index < length entries.now }
    ensures { IfOk result (IsNoteCause entries.now index note.now) }
{
    if let Some(place) = first_sender(alloc, entries, index + 1, &Sent::Note(*note))? {
        return Ok(Unsent::Later(place));
    }
    let here = note.kind;
    let there = other_kind(here);
    match first_sender(
        alloc,
        &entries[..index],
        0,
        &Sent::Note(of_other_kind(note)),
    )? {
        Some(place) => Ok(Unsent::Other(Changed {
            place,
            change: Change::Kind { here, there },
        })),
        None => Ok(Unsent::Nothing),
    }
}

// Returns the key of the handle that a call takes, or 0.
fn key_in(call: &LoggedCall) -> u64
    ensures { result ≡ key_in call.now }
{
    match call {
        LoggedCall::Whole(ClusterCall::Hold { key, .. }) => key.value(),
        _ => 0,
    }
}

// Returns the key of the handle that an entry takes, or 0.
fn key_at(entries: &[LogEntry], index: usize) -> u64
    ensures { result ≡ key_taken (slice_get entries.now index) }
{
    match entries.get(index) {
        Some(entry) => key_in(&entry.line.call),
        None => 0,
    }
}

// Returns why nothing sent before the entry at `index` the handle that its call delivers.
fn handle_cause(
    alloc: Global,
    entries: &[LogEntry],
    index: usize,
    handle: &KeyHandle,
) -> Result<Option<Unsent>, AllocError>
    requires { index < length entries.now }
    ensures { IfOk result (IsHandleCause entries.now index handle.now) }
{
    if let Some(place) = first_sender(alloc, entries, index + 1, &Sent::Handle(*handle))? {
        return Ok(Some(Unsent::Later(place)));
    }
    if let Some(place) = first_sender(alloc, &entries[..index], 0, &Sent::OtherHandle(*handle))? {
        let change = Change::Number {
            member: Member::SliceKey,
            here: handle.key.value(),
            there: key_at(entries, place),
        };
        return Ok(Some(Unsent::Other(Changed { place, change })));
    }
    match first_sender(alloc, entries, 0, &Sent::HiddenHandle(*handle))? {
        Some(_) => Ok(None),
        None => Ok(Some(Unsent::Nothing)),
    }
}

// Returns why nothing committed before the entry at `index` an assignment that its call delivers.
fn learn_cause(
    alloc: Global,
    entries: &[LogEntry],
    index: usize,
    call: &LoggedCall,
) -> Result<Option<Unsent>, AllocError>
    requires { index < length entries.now }
    ensures { IfOk result (IsLearnCause entries.now index call.now) }
{
    match call {
        LoggedCall::Whole(
            ClusterCall::Clerk {
                call: ClerkCall::Learn(assignment),
                ..
            },
        ) => {
            let cause = assignment_cause(alloc, entries, index, assignment)?;
            Ok(Some(cause))
        }
        LoggedCall::LearnBare { generation, .. } => {
            let cause = generation_cause(alloc, entries, index, *generation)?;
            Ok(Some(cause))
        }
        _ => Ok(None),
    }
}

// Returns the note that a call delivers.
fn note_delivered(call: &LoggedCall) -> Option<ReleaseNote>
    ensures { result ≡ note_delivered call.now }
{
    match call {
        LoggedCall::Whole(ClusterCall::Table(TableCall::Free { note, .. })) => Some(*note),
        _ => None,
    }
}

// Returns the handle that a call delivers.
fn handle_delivered(call: &LoggedCall) -> Option<KeyHandle>
    ensures { result ≡ handle_delivered call.now }
{
    match call {
        LoggedCall::Whole(ClusterCall::Check { handle, .. }) => Some(*handle),
        _ => None,
    }
}

/// Returns why nothing sent before what `call` delivers, which the entry at `index` makes.
///
/// `cluster` has played the calls of the entries up to this one. `None` if the call delivers nothing,
/// or delivers a handle that nothing sent, and the log does not say which handles on its key were
/// given.
pub fn unsent_for(
    alloc: Global,
    cluster: &Cluster,
    entries: &[LogEntry],
    index: usize,
    call: &LoggedCall,
) -> Result<Option<Unsent>, AllocError>
    requires { index < length entries.now }
    ensures { (job : Continued) (past : Past) → LeadsTo job past cluster.now
        → IfOk result (IsUnsentFor job past entries.now index call.now) }
{
    if let Some(grant) = grant_delivered(call) {
        let cause = grant_cause(alloc, cluster, entries, index, call, &grant)?;
        return Ok(Some(cause));
    }
    if let Some(note) = note_delivered(call) {
        let cause = note_cause(alloc, entries, index, &note)?;
        return Ok(Some(cause));
    }
    if let Some(handle) = handle_delivered(call) {
        return handle_cause(alloc, entries, index, &handle);
    }
    learn_cause(alloc, entries, index, call)
}
