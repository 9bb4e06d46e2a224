//! What the machines answered, by the reply to a step.

ghost use Rattle.std.specs.Prelude.{◌≡◌, IfOk};
ghost use Rattle.world.specs.Calls.{answered, refused_by};

use clerk::ClerkReply;
use grants::{SliceletReply, TableReply};
use job_calls::{ClusterError, ClusterReply};
use machines::Duplicate;
use replies::{Refusal, Reply};
use std::alloc::AllocError;

// Returns why the machines refused a call, by what its step was told.
fn refused_by(refusal: Refusal) -> ClusterError
    ensures { result ≡ refused_by refusal }
{
    match refusal {
        Refusal::NotSent => ClusterError::NotSent,
        Refusal::Table(why) => ClusterError::Table(why),
        Refusal::Slicelet(why) => ClusterError::Slicelet(why),
        Refusal::Stranger => ClusterError::Stranger,
        Refusal::Clerk(why) => ClusterError::Clerk(why),
        Refusal::Unknown => ClusterError::Unknown,
        _ => ClusterError::NoActor,
    }
}

/// Returns what the machines answered a call, by what its step was told.
///
/// The only error is out of memory.
pub fn answered(reply: &Reply) -> Result<ClusterReply, AllocError>
    ensures { IfOk result (λ answer. answer ≡ answered reply.now) }
{
    Ok(match reply {
        Reply::Term(term) | Reply::Renewed(term) => ClusterReply::Table(TableReply::Term(*term)),
        Reply::Proposed(_) => ClusterReply::Table(TableReply::Proposed),
        Reply::Committed(generation) => ClusterReply::Table(TableReply::Committed(*generation)),
        Reply::Granted(grant) => ClusterReply::Table(TableReply::Granted(grant.copy()?)),
        Reply::Freed(rows) => ClusterReply::Table(TableReply::Freed(*rows)),
        Reply::Lost(rows) => ClusterReply::Table(TableReply::Lost(*rows)),
        Reply::Started(_) => ClusterReply::Task(SliceletReply::Started),
        Reply::Heard(_) => ClusterReply::Task(SliceletReply::Heard),
        Reply::Released { note, .. } => ClusterReply::Task(SliceletReply::Released(*note)),
        Reply::Learnt(_) => ClusterReply::Clerk(ClerkReply::Learnt),
        Reply::Forgotten => ClusterReply::Clerk(ClerkReply::Forgotten),
        Reply::Phase(phase) => ClusterReply::Phase(*phase),
        Reply::Rows(rows) => ClusterReply::Rows(rows.copy()?),
        Reply::Verdict(verdict) => ClusterReply::Verdict(*verdict),
        Reply::Holding { handle, .. } => ClusterReply::Holding(*handle),
        Reply::Continuous => ClusterReply::Continuous,
        Reply::Broken => ClusterReply::Broken,
        Reply::Found(found) => ClusterReply::Found(found.copy()),
        Reply::Refused(why) => ClusterReply::Refused(refused_by(*why)),
        _ => ClusterReply::Refused(ClusterError::NoActor),
    })
}
