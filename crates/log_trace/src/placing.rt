//! The places of the calls that tasks accepted.

ghost use Rattle.std.specs.Prelude.{◌≡◌, ◌∷◌, true, IfOk, List, OnOk};
ghost use Rattle.cluster.specs.Pasts.{Past, event};
ghost use Rattle.cluster.specs.continued.Clusters.{LeadsTo};
ghost use Rattle.cluster.specs.continued.Jobs.{Continued};
ghost use Rattle.reasons.specs.Placed.{ArePlaces, Placed};
ghost use Rattle.log_run.specs.Calls.{call_after};
ghost use Rattle.log_trace.specs.Calls.{placed_at};
ghost use Rattle.log_trace.specs.internals.Making.{IsHeardBy, is_single};

use cluster::Cluster;
use grants::SliceletCall;
use job_calls::{ClusterCall, ClusterReply};
use log_line::{LoggedCall, with_ranges};
use reasons::CallPlaces;
use std::alloc::AllocError;

/// Returns the whole call of a line that hears a grant without its ranges, if the machines know the
/// grant.
pub fn heard_by(cluster: &Cluster, call: &LoggedCall) -> Result<Option<ClusterCall>, AllocError>
    ensures { (job : Continued) (past : Past) → LeadsTo job past cluster.now → IfOk result (IsHeardBy job past call.now) }
{
    let LoggedCall::HearBare { task, grant, at } = call else {
        return Ok(None);
    };
    let Some(sent) = cluster.grant(grant.number) else {
        return Ok(None);
    };
    let ranges = sent.lease.ranges.copy()?;
    let call = SliceletCall::Hear {
        grant: with_ranges(*grant, ranges),
        at: *at,
    };
    Ok(Some(ClusterCall::Task { task: *task, call }))
}

/// Adds the call of a line at `place`, which the machines have answered so.
///
/// `cluster` is as it is after the call, and `heard` is what [`heard_by`] returned before it.
pub fn add_call(
    cluster: &Cluster,
    places: &mut CallPlaces,
    place: u64,
    call: &LoggedCall,
    heard: &Option<ClusterCall>,
    answer: &ClusterReply,
) -> Result<(), AllocError>
    requires { is_single call.now ≡ true }
    ensures { (job : Continued) (past : Past) (placed : List Placed) → LeadsTo job (event (call_after past call.now) answer.now ∷ past) cluster.now
        → IsHeardBy job past call.now heard.now → ArePlaces job.tasks placed places.old
        → OnOk result (ArePlaces job.tasks (placed_at place (event (call_after past call.now) answer.now) ∷ placed) places.new) }
{
    cluster.run_law();
    lease_table::numbers_law();
    match call {
        LoggedCall::Whole(call) => places.add(place, call, answer),
        LoggedCall::HearBare { .. } => match heard {
            Some(heard) => places.add(place, heard, answer),
            // A grant that the machines do not know is refused.
            None => Ok(()),
        },
        // No task takes the others.
        LoggedCall::LearnBare { .. } => Ok(()),
        LoggedCall::Restore(_) => Ok(()),
        LoggedCall::Sample(_) => Ok(()),
    }
}
