//! Finding why a caller should have got another reply.

ghost use Rattle.std.specs.Prelude.{◌≡◌, ◌<◌, IfOk, length};
ghost use Rattle.cluster.specs.Pasts.{Past};
ghost use Rattle.cluster.specs.continued.Clusters.{LeadsTo};
ghost use Rattle.cluster.specs.continued.Jobs.{Continued};
ghost use Rattle.log_causes.specs.Questions.{IsCauseOf, IsUnsentCause, question_of, question_of_table, question_of_task};
ghost use Rattle.log_run.specs.Starts.{Begins};

use crate::cause::Cause;
use crate::causes::unsent_for;
use crate::refusing::{
    holder_cause, late_cause, life_cause, row_cause, table_back_cause, task_back_cause, ticks_in,
};
use crate::taking::break_cause;
use cluster::Cluster;
use grants::{SliceletError, TableError};
use lease_rule::{Ground, Verdict};
use log_line::{CallerReply, LogEntry, LoggedCall};
use log_run::Start;
use replies::{Refusal, Reply};
use std::alloc::{AllocError, Global};

/// A call whose caller should have got another reply.
#[derive(Clone, Copy)]
pub struct WrongCall<'a> {
    /// The index of its entry, in the order of the tickets.
    pub index: usize,
    /// The call.
    pub call: &'a LoggedCall,
    /// The reply that the caller should have got.
    pub wanted: &'a CallerReply,
}

/// What is asked of the reply that a caller should have got.
#[derive(Clone, Copy)]
pub enum Question {
    /// Why nothing sent before what the call delivers.
    Unsent,
    /// Which call took the key of a handle away.
    Broken,
    /// Why the term that the call names does not hold the job lease.
    Term,
    /// Which reading is too early for a new term or for a commit.
    Early,
    /// When the row ends that holds a commit up.
    Row,
    /// Which reading of the table the one of the call is below.
    TableBack,
    /// Which reading of the task the one of the call is below.
    TaskBack,
    /// When the lease ended that the call delivers.
    Late,
    /// In which life the task is.
    Life,
    /// Nothing.
    Nothing,
}

// Returns what is asked of a refusal by the table.
fn question_of_table(error: TableError) -> Question
    ensures { result ≡ question_of_table error }
{
    match error {
        TableError::NotHolder { .. } => Question::Term,
        TableError::JobHeld { .. } | TableError::Grace { .. } => Question::Early,
        TableError::Held { .. } => Question::Row,
        TableError::ClockBack => Question::TableBack,
        _ => Question::Nothing,
    }
}

// Returns what is asked of a refusal by a task.
fn question_of_task(error: SliceletError) -> Question
    ensures { result ≡ question_of_task error }
{
    match error {
        SliceletError::ClockBack => Question::TaskBack,
        SliceletError::TooLate => Question::Late,
        SliceletError::OldLife | SliceletError::OtherLife => Question::Life,
        _ => Question::Nothing,
    }
}

// Returns what is asked of a reply.
fn question_of(told: &CallerReply) -> Question
    ensures { result ≡ question_of told.now }
{
    let CallerReply::Scripted(reply) = told else {
        return Question::Nothing;
    };
    match reply {
        Reply::Broken => Question::Broken,
        Reply::Verdict(Verdict::Deny(Ground::ClockBack)) => Question::TaskBack,
        Reply::Refused(Refusal::NotSent) => Question::Unsent,
        Reply::Refused(Refusal::Table(error)) => question_of_table(*error),
        Reply::Refused(Refusal::Slicelet(error)) => question_of_task(*error),
        _ => Question::Nothing,
    }
}

// Returns why nothing sent before what `call` delivers, which the entry at `index` makes.
fn unsent_cause(
    alloc: Global,
    cluster: &Cluster,
    entries: &[LogEntry],
    index: usize,
    call: &LoggedCall,
) -> Result<Option<Cause>, AllocError>
    requires { index < length entries.now }
    ensures { (job : Continued) (past : Past) → LeadsTo job past cluster.now
        → IfOk result (IsUnsentCause job past entries.now index call.now) }
{
    match unsent_for(alloc, cluster, entries, index, call)? {
        Some(unsent) => Ok(Some(Cause::NotSent(unsent))),
        None => Ok(None),
    }
}

/// Returns why a caller should have got another reply, if that refuses what nothing sent before,
/// says that a handle is broken, or refuses a call by a term, a reading or a life.
///
/// `cluster` has played the calls of the entries up to this one, from this start.
pub fn cause_of(
    alloc: Global,
    start: &Start,
    cluster: &Cluster,
    entries: &[LogEntry],
    wrong: WrongCall,
) -> Result<Option<Cause>, AllocError>
    requires { wrong.index < length entries.now }
    ensures { (job : Continued) (past : Past) → Begins job start.now → LeadsTo job past cluster.now
        → IfOk result (IsCauseOf job past entries.now wrong.entry.index wrong.entry.call.now wrong.entry.wanted.now) }
{
    let index = wrong.index;
    match question_of(wrong.wanted) {
        Question::Unsent => unsent_cause(alloc, cluster, entries, index, wrong.call),
        Question::Broken => break_cause(alloc, start, &entries[..index], wrong.call),
        Question::Term => Ok(holder_cause(cluster, wrong.call)),
        Question::Early => Ok(Some(Cause::ReadAt(ticks_in(wrong.call)))),
        Question::Row => row_cause(cluster, wrong.call),
        Question::TableBack => Ok(Some(table_back_cause(cluster, wrong.call))),
        Question::TaskBack => Ok(task_back_cause(cluster, wrong.call)),
        Question::Late => Ok(late_cause(wrong.call)),
        Question::Life => Ok(life_cause(cluster, wrong.call)),
        Question::Nothing => Ok(None),
    }
}
