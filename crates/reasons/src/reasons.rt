//! The reason of a reply.

ghost use Rattle.std.specs.Prelude.{◌≡◌, ◌∷◌, ℕ, List, IfOk, true, None};
ghost use Rattle.job_calls.specs.declared.call.ClusterCall.{ClusterCall};
ghost use Rattle.cluster.specs.Pasts.{Past, event, standing, history};
ghost use Rattle.machines.specs.Numbers.{is_within};
ghost use Rattle.job_calls.specs.declared.reply.ClusterReply.{ClusterReply};
ghost use Rattle.grants.specs.declared.table_error.TableError.{TableError};
ghost use Rattle.cluster.specs.continued.Clusters.{LeadsTo};
ghost use Rattle.cluster.specs.continued.Jobs.{Continued};
ghost use Rattle.reasons.specs.Placed.{Placed, ArePlaces};
ghost use Rattle.reasons.specs.Questions.{question_of, task_of};
ghost use Rattle.reasons.specs.Reasons.{by_table, IsReason, IsReasonOrNone};
ghost use Rattle.reasons.specs.internals.Answers.{table_error, task_error, is_of_task, IsAnswer, IsKeyed, IsTableRefusal};

use crate::breaks::broken_reason;
use crate::places::{CallPlaces, TaskPlaces};
use crate::question::Question;
use crate::reason::Reason;
use crate::refusals::{table_reason, task_refusal_reason};
use crate::rule::request_reason;
use cluster::Cluster;
use grants::{SliceletError, TableError};
use job_calls::{ClusterError, ClusterReply};
use lease_table::LeaseTable;
use slicelet::Slicelet;
use std::alloc::AllocError;

// Returns why the table refuses, if it does.
fn table_error(reply: &ClusterReply) -> Option<TableError>
    ensures { result ≡ table_error reply.now }
{
    match reply {
        ClusterReply::Refused(ClusterError::Table(error)) => Some(*error),
        _ => None,
    }
}

// Returns why a task refuses, if it does.
fn task_error(reply: &ClusterReply) -> Option<SliceletError>
    ensures { result ≡ task_error reply.now }
{
    match reply {
        ClusterReply::Refused(ClusterError::Slicelet(error)) => Some(*error),
        _ => None,
    }
}

// Whether a task may have given a reply, and took no call with it.
fn is_of_task(reply: &ClusterReply) -> bool
    ensures { result ≡ is_of_task reply.now }
{
    matches!(
        reply,
        ClusterReply::Verdict(_)
            | ClusterReply::Holding(_)
            | ClusterReply::Broken
            | ClusterReply::Refused(_)
    )
}

// States that the keys that are asked for are slice keys.
fn key_law(question: &Question)
    ensures { IsKeyed question.now }
{
    match question {
        Question::Key { key, .. } => {
            let _number = key.value();
        }
        Question::Check { handle, .. } => {
            let _number = handle.key.value();
        }
        _ => {}
    }
}

// States what the reply to the last call is, by what the machines stood at before it.
fn answer_law(cluster: &Cluster)
    ensures table { (job : Continued) (past : Past) (c : ClusterCall) (e : TableError) → LeadsTo job (event c (by_table e) ∷ past) cluster.now
        → IsTableRefusal (standing job.policy past) c e }
    ensures task { (job : Continued) (past : Past) (c : ClusterCall) (r : ClusterReply) → LeadsTo job (event c r ∷ past) cluster.now
        → is_within (task_of c) job.tasks ≡ true → IsKeyed (question_of c) → IsAnswer (history (task_of c) past) c r }
{
    cluster.run_law();
    cluster::covers_law();
    slicelet::agreement_law();
    slicelet::state_law();
}

// Returns the reason of a reply that a task gave.
fn task_reason(
    table: &LeaseTable,
    slicelet: &Slicelet,
    places: &TaskPlaces,
    question: &Question,
    reply: &ClusterReply,
) -> Option<Reason>
    ensures { (c : ClusterCall) → question.now ≡ question_of c → IsAnswer slicelet.now c reply.now → table_error reply.now ≡ None
        → IsReasonOrNone table.now slicelet.now places.now c reply.now result }
{
    if let Some(error) = task_error(reply) {
        return task_refusal_reason(slicelet, question, error);
    }
    match (question, reply) {
        (Question::Key { key, at, .. }, ClusterReply::Verdict(_) | ClusterReply::Holding(_)) =>
            Some(Reason::Request(request_reason(table, slicelet, places.heard, *key, *at))),
        (Question::Check { handle, at, .. }, ClusterReply::Broken) => {
            let broken = broken_reason(table, slicelet, places, handle, *at)?;
            Some(Reason::Broken(broken))
        }
        _ => None,
    }
}

/// Returns the reason of the reply to a call that the cluster has just made; `None` if the call and
/// the reply say everything.
///
/// `question` is what the call asked, and `places` are those of the calls before it. The values are
/// those of the machines just before the call. The only error is out of memory.
pub fn reason_of(
    cluster: &Cluster,
    places: &CallPlaces,
    question: &Question,
    reply: &ClusterReply,
) -> Result<Option<Reason>, AllocError>
    ensures { (job : Continued) (past : Past) (placed : List Placed) (call : ClusterCall) → LeadsTo job (event call reply.now ∷ past) cluster.now
        → ArePlaces job.tasks placed places.now → question.now ≡ question_of call
        → IfOk result (IsReason job past placed call reply.now) }
{
    cluster.run_law();
    answer_law(cluster);
    key_law(question);
    if let Some(error) = table_error(reply) {
        return table_reason(cluster.table(), question, error);
    }
    if !is_of_task(reply) {
        return Ok(None);
    }
    let task = question.task();
    match (cluster.slicelet(task), places.of(task)) {
        (Some(slicelet), Some(places)) => Ok(task_reason(
            cluster.table(),
            slicelet,
            places,
            question,
            reply,
        )),
        _ => Ok(None),
    }
}
