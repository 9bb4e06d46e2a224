//! Finding why a call is refused.

ghost use Rattle.std.specs.Prelude.{◌≡◌, IfOk, option_map};
ghost use Rattle.grants.specs.Rows.{first_up_to};
ghost use Rattle.grants.specs.Assignments.{generation_of};
ghost use Rattle.cluster.specs.continued.Jobs.{Continued, job_in};
ghost use Rattle.cluster.specs.Pasts.{Past, standing};
ghost use Rattle.cluster.specs.continued.Clusters.{LeadsTo};
ghost use Rattle.log_causes.specs.declared.cause.Cause.TheVariants.{ReadAfter};
ghost use Rattle.log_causes.specs.Refusals.{caller_of, holder_cause, late_cause, life_cause, row_cause, state_of_caller, task_back_cause, term_cause, term_in, ticks_in, ticks_of};

use crate::cause::Cause;
use crate::causes::grant_delivered;
use cluster::Cluster;
use grants::{JobTerm, Row, TableCall};
use job_calls::{ClusterCall, Reading};
use log_line::LoggedCall;
use slicelet::Slicelet;
use std::alloc::AllocError;

// Returns the term of the job lease that a call names.
fn term_in(call: &LoggedCall) -> Option<u64>
    ensures { result ≡ term_in call.now }
{
    match call {
        LoggedCall::Whole(
            ClusterCall::Table(
                TableCall::JobRenew { number, .. }
                | TableCall::Propose { number, .. }
                | TableCall::Commit { number, .. },
            ),
        ) => Some(*number),
        _ => None,
    }
}

// Returns why a term does not hold the job lease; `last` is the last one that the table gave.
fn term_cause(number: u64, last: JobTerm) -> Cause
    ensures { result ≡ term_cause number last }
{
    if last.number == number {
        Cause::TermEnded {
            term: number,
            at: last.until,
        }
    } else {
        Cause::OtherTerm(last.number)
    }
}

/// Returns why the term that a call names does not hold the job lease; `None` if the table has given
/// none.
pub fn holder_cause(cluster: &Cluster, call: &LoggedCall) -> Option<Cause>
    ensures { (job : Continued) (past : Past) → LeadsTo job past cluster.now
        → result ≡ holder_cause (term_in call.now) (standing job.policy past).term }
{
    let number = term_in(call)?;
    let last = cluster.table().job()?;
    Some(term_cause(number, last))
}

fn ticks_of(reading: Reading) -> u64
    ensures { result ≡ ticks_of reading }
{
    match reading {
        Reading::TableClock(at) | Reading::TaskClock(at) => at,
        Reading::NoClock => 0,
    }
}

/// Returns the reading of a call, in ticks, 0 for none.
pub fn ticks_in(call: &LoggedCall) -> u64
    ensures { result ≡ ticks_in call.now }
{
    ticks_of(call.reading())
}

/// Returns the reading of a call, and the table's last one.
pub fn table_back_cause(cluster: &Cluster, call: &LoggedCall) -> Cause
    ensures { (job : Continued) (past : Past) → LeadsTo job past cluster.now
        → result ≡ ReadAfter (ticks_in call.now) (standing job.policy past).last }
{
    Cause::ReadAfter {
        at: ticks_in(call),
        last: cluster.table().last_reading(),
    }
}

// Returns the first row of this generation or an older one that has not ended at a reading.
fn first_up_to(rows: &[Row], generation: u64, at: u64) -> Option<Row>
    ensures { result ≡ first_up_to generation at rows.now }
{
    rows.iter()
        .copied()
        .find(|row| row.generation <= generation && at < row.table_ends)
}

// Returns the committed generation, 0 before the first.
fn committed_generation(cluster: &Cluster) -> u64
    ensures { (job : Continued) (past : Past) → LeadsTo job past cluster.now
        → result ≡ generation_of (standing job.policy past).committed }
{
    match cluster.table().committed() {
        Some(assignment) => assignment.generation(),
        None => 0,
    }
}

/// Returns when the row ends that holds a commit up at its reading.
pub fn row_cause(cluster: &Cluster, call: &LoggedCall) -> Result<Option<Cause>, AllocError>
    ensures { (job : Continued) (past : Past) → LeadsTo job past cluster.now
        → IfOk result (λ cause. cause ≡ row_cause (standing job.policy past) (ticks_in call.now)) }
{
    let at = ticks_in(call);
    let generation = committed_generation(cluster);
    let rows = cluster.table().rows()?;
    match first_up_to(rows.as_slice(), generation, at) {
        Some(row) => Ok(Some(Cause::RowEnds {
            ends: row.table_ends,
            at,
        })),
        None => Ok(None),
    }
}

/// Returns when the lease of the grant ended that a call delivers.
pub fn late_cause(call: &LoggedCall) -> Option<Cause>
    ensures { result ≡ late_cause call.now }
{
    let grant = grant_delivered(call)?;
    Some(Cause::GrantEnded {
        kind: grant.kind,
        number: grant.number,
        ends: grant.ends,
        at: ticks_in(call),
    })
}

// Returns the task that a call is one of.
fn caller_of(call: &LoggedCall) -> Option<u64>
    ensures { result ≡ caller_of call.now }
{
    match call {
        LoggedCall::Whole(
            ClusterCall::Task { task, .. }
            | ClusterCall::Serve { task, .. }
            | ClusterCall::Hold { task, .. },
        )
        | LoggedCall::HearBare { task, .. } => Some(*task),
        _ => None,
    }
}

// Returns the slicelet of the task that a call is one of, if the job has the task.
fn caller<'a>(cluster: &'a Cluster, call: &LoggedCall) -> Option<&'a Slicelet>
    ensures { (job : Continued) (past : Past) → LeadsTo job past cluster.now
        → option_map (λ slicelet. slicelet.now) result ≡ state_of_caller (job_in job) past call.now }
{
    cluster.slicelet(caller_of(call)?)
}

/// Returns the reading of a call, and the last one of its task.
pub fn task_back_cause(cluster: &Cluster, call: &LoggedCall) -> Option<Cause>
    ensures { (job : Continued) (past : Past) → LeadsTo job past cluster.now → result ≡ task_back_cause (job_in job) past call.now }
{
    let slicelet = caller(cluster, call)?;
    Some(Cause::ReadAfter {
        at: ticks_in(call),
        last: slicelet.last_reading(),
    })
}

/// Returns the life of the task that a call is one of.
pub fn life_cause(cluster: &Cluster, call: &LoggedCall) -> Option<Cause>
    ensures { (job : Continued) (past : Past) → LeadsTo job past cluster.now → result ≡ life_cause (job_in job) past call.now }
{
    let slicelet = caller(cluster, call)?;
    Some(Cause::InLife(slicelet.life()))
}
