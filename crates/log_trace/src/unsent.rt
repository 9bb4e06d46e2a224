//! What nothing sent before a call delivers it.

ghost use Rattle.std.specs.Prelude.{◌≡◌, ◌<◌, IfOk, length};
ghost use Rattle.cluster.specs.Pasts.{Past};
ghost use Rattle.cluster.specs.continued.Clusters.{LeadsTo};
ghost use Rattle.cluster.specs.continued.Jobs.{Continued};
ghost use Rattle.log_trace.specs.Lines.{IsUnsentIf, is_unsent};

use cluster::Cluster;
use log_causes::{Unsent, unsent_for};
use log_line::{CallerReply, LogEntry, LoggedCall};
use replies::{Refusal, Reply};
use std::alloc::{AllocError, Global};

// Whether a caller is told that nothing sent what the call delivers.
fn is_unsent(told: &CallerReply) -> bool
    ensures { result ≡ is_unsent told.now }
{
    matches!(
        told,
        CallerReply::Scripted(Reply::Refused(Refusal::NotSent))
    )
}

/// Returns why nothing sent before what `call` delivers, which the entry at `index` makes, if its
/// caller is told that nothing did.
///
/// `cluster` has played the calls of the entries up to this one.
pub fn unsent_of(
    alloc: Global,
    cluster: &Cluster,
    entries: &[LogEntry],
    index: usize,
    call: &LoggedCall,
    told: &CallerReply,
) -> Result<Option<Unsent>, AllocError>
    requires { index < length entries.now }
    ensures { (job : Continued) (past : Past) → LeadsTo job past cluster.now
        → IfOk result (IsUnsentIf (is_unsent told.now) job past entries.now index call.now) }
{
    if is_unsent(told) {
        unsent_for(alloc, cluster, entries, index, call)
    } else {
        Ok(None)
    }
}
