//! What a record keeps of all that a run made.

ghost use Rattle.std.specs.Prelude.{◌≡◌, ◌++◌, [], ◌-◌, IfOk, OnOk, drop, length, option_to_list, reverse};
ghost use Rattle.lease_table.specs.Calls.{grants_sent};
ghost use Rattle.cluster.specs.Pasts.{with_table_call};
ghost use Rattle.cluster.specs.Made.{same_handle, with_note};
ghost use Rattle.cluster.specs.internals.Proposals.{proposals_in};
ghost use Rattle.indexmap.specs.IndexSet.{insert_all};
ghost use Rattle.run_record.specs.Records.{handles_shown};

use assignment::Assignment;
use cluster::KnownHandle;
use grants::{Grant, ReleaseNote, SliceletReply, TableCall, TableReply};
use indexmap::IndexSet;
use job_calls::{ClusterCall, ClusterReply};
use key_handle::KeyHandle;
use std::alloc::{AllocError, Global};

pub(crate) fn assignment_copies(
    alloc: Global,
    assignments: &[Assignment],
) -> Result<Vec<Assignment>, AllocError>
    ensures { IfOk result (λ copies. copies.items ≡ assignments.now) }
{
    let mut copies = Vec::new(alloc);
    for assignment in assignments {
        copies.push(assignment.copy()?)?;
    }
    Ok(copies)
}

/// Returns the last of these, as many as `most`, or all of them if they are fewer.
pub(crate) fn last_of<T>(most: usize, things: &[T]) -> &[T]
    ensures { result.now ≡ drop (length things.now - most) things.now }
{
    &things[things.len().saturating_sub(most)..]
}

/// Records the grant that a call made, if it made one.
pub(crate) fn record_grant(
    grants: &mut Vec<Grant>,
    call: &ClusterCall,
    reply: &ClusterReply,
) -> Result<(), AllocError>
    ensures { OnOk result (grants.new.items ≡ grants.old.items ++ grants_sent (with_table_call call.now reply.now [])) }
{
    if let ClusterCall::Table(_) = call
        && let ClusterReply::Table(TableReply::Granted(grant)) = reply
    {
        grants.push(grant.copy()?)?;
    }
    Ok(())
}

/// Records the assignment that a call proposed, if it was accepted.
pub(crate) fn record_proposal(
    assignments: &mut Vec<Assignment>,
    call: &ClusterCall,
    reply: &ClusterReply,
) -> Result<(), AllocError>
    ensures { OnOk result (assignments.new.items ≡ assignments.old.items ++ proposals_in (with_table_call call.now reply.now [])) }
{
    if let ClusterCall::Table(TableCall::Propose { assignment, .. }) = call
        && let ClusterReply::Table(_) = reply
    {
        assignments.push(assignment.copy()?)?;
    }
    Ok(())
}

/// Records the notes that a call made.
pub(crate) fn record_notes(
    notes: &mut Vec<ReleaseNote>,
    call: &ClusterCall,
    reply: &ClusterReply,
) -> Result<(), AllocError>
    ensures { OnOk result (notes.new.items ≡ notes.old.items ++ reverse (with_note call.now reply.now [])) }
{
    let ClusterCall::Task { .. } = call else {
        return Ok(());
    };
    match reply {
        ClusterReply::Task(SliceletReply::Released(note)) => notes.push(*note)?,
        ClusterReply::Task(SliceletReply::Resumed(ended)) => {
            notes.push(ended.guard)?;
            notes.push(ended.bridge)?;
        }
        _ => {}
    }
    Ok(())
}

// Returns the handle that a call returned, or that it found continuous or broken.
fn handle_shown(call: &ClusterCall, reply: &ClusterReply) -> Option<KeyHandle>
    ensures { option_to_list result ≡ handles_shown call.now reply.now }
{
    match (call, reply) {
        (ClusterCall::Hold { .. }, ClusterReply::Holding(handle)) => Some(*handle),
        (ClusterCall::Check { handle, .. }, ClusterReply::Continuous | ClusterReply::Broken) => {
            Some(*handle)
        }
        _ => None,
    }
}

/// Records the handle that a call returned, or that it found continuous or broken, once.
pub(crate) fn record_handle(
    handles: &mut IndexSet<KnownHandle>,
    call: &ClusterCall,
    reply: &ClusterReply,
) -> Result<(), AllocError>
    ensures { OnOk result (handles.new.keys ≡ insert_all same_handle handles.old.keys (handles_shown call.now reply.now)) }
{
    if let Some(handle) = handle_shown(call, reply) {
        handles.insert(KnownHandle::new(&handle))?;
    }
    Ok(())
}

/// Returns the handles of a set, in order.
pub(crate) fn handles_in(
    alloc: Global,
    known: &IndexSet<KnownHandle>,
) -> Result<Vec<KeyHandle>, AllocError>
    ensures { IfOk result (λ handles. handles.items ≡ known.now.keys) }
{
    let mut handles = Vec::new(alloc);
    for member in known.as_slice() {
        handles.push(member.handle())?;
    }
    Ok(handles)
}
