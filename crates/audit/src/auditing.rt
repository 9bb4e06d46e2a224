//! The audit of histories and records.

ghost use Rattle.std.specs.Prelude.{◌≡◌, List, map, IfOk, MatchOption};
ghost use Rattle.job_calls.specs.Jobs.{Job};
ghost use Rattle.cluster.specs.Pasts.{Past, is_accepted};
ghost use Rattle.job_calls.specs.Readings.{reading};
ghost use Rattle.cluster.specs.Clusters.{LeadsTo, IsPlayed};
ghost use Rattle.job_calls.specs.declared.record.CallRecord.{CallRecord};
ghost use Rattle.audit.specs.Shown.{evidence, turn_of, shown_told};
ghost use Rattle.audit.specs.OneRun.{Fits, HistoriesRise, HistoryFalls, IsAudit, IsReplayed, IsWrong};

use crate::finding::{Audit, Why};
use crate::points::{Point, fall, falls, sorted_points, twice};
use crate::sameness::is_same;
use clerk::ClerkEvent;
use cluster::{Cluster, Timeliness};
use history_lock::History;
use job_calls::{CallRecord, ClusterReply, Job, Reading};
use lease_table::TableEvent;
use slicelet::SliceletEvent;
use std::alloc::{AllocError, Global};

fn is_accepted(reply: &ClusterReply) -> bool
    ensures { result ≡ is_accepted reply.now }
{
    !matches!(reply, ClusterReply::Refused(_))
}

// Returns what is wrong with a reply, compared with what the caller was told.
fn judge(reply: &ClusterReply, told: Option<&ClusterReply>) -> Option<Why>
    ensures { MatchOption result (Fits reply.now (shown_told told.entry)) (λ why. IsWrong why reply.now (shown_told told.entry)) }
{
    match told {
        None => {
            if !is_accepted(reply) {
                return Some(Why::RefusedEntry);
            }
        }
        Some(told) => {
            if !is_same(told, reply) {
                return Some(Why::OtherReply);
            }
        }
    }
    None
}

impl<'a> Point<'a> {
    // Returns what the caller was told; `None` for an entry of a history.
    fn told(&self) -> Option<&'a ClusterReply>
        ensures { shown_told result ≡ (turn_of self.now).told }
    {
        match self {
            Point::Record(record) => Some(&record.reply),
            _ => None,
        }
    }

    // Returns the reading of the call.
    fn reading(&self) -> Reading
        ensures { result ≡ reading (turn_of self.now).call }
    {
        match self {
            Point::Table(event) => Reading::of_table(&event.call),
            Point::Task(_, event) => Reading::of_task(&event.call),
            Point::Clerk(..) => Reading::NoClock,
            Point::Record(record) => record.step.reading(),
        }
    }

    // Returns the cluster's reply to the call.
    fn play(&self, cluster: &mut Cluster) -> Result<ClusterReply, AllocError>
        ensures { (job : Job) (past : Past) → LeadsTo job past cluster.old
            → IsPlayed job past (turn_of self.now).call result cluster.new }
    {
        match self {
            Point::Table(event) => cluster.call_table(&event.call),
            Point::Task(task, event) => cluster.call_task(*task, &event.call),
            Point::Clerk(clerk, event) => cluster.call_clerk(*clerk, &event.call),
            Point::Record(record) => cluster.play(&record.step),
        }
    }
}

// Plays points in order, up to the first whose reply differs from what was told.
fn replay(alloc: Global, job: Job, points: &[Point]) -> Result<Audit, AllocError>
    ensures { IfOk result (λ found. IsReplayed job (map turn_of points.now) found) }
{
    let mut cluster = Cluster::new(alloc, job)?;
    let mut timeliness = Timeliness::new(job.policy().skew());
    for point in points {
        let reply = point.play(&mut cluster)?;
        if let Some(why) = judge(&reply, point.told()) {
            cluster.run_law();
            let ticket = point.ticket();
            return Ok(Audit::No { ticket, why });
        }
        timeliness.read(point.reading());
    }
    cluster.run_law();
    let steps = points.len() as u64;
    let timely = timeliness.is_timely();
    Ok(Audit::One { steps, timely })
}

// Returns the ticket of the first entry that does not rise in its history, if there is one.
fn first_fall(
    table: &History<TableEvent>,
    tasks: &[History<SliceletEvent>],
    clerks: &[History<ClerkEvent>],
) -> Option<u64>
    ensures { (records : List CallRecord) → MatchOption result (HistoriesRise (evidence table.now tasks.now clerks.now records))
        (λ ticket. HistoryFalls (evidence table.now tasks.now clerks.now records) ticket) }
{
    if let Some(ticket) = fall(table.entries()) {
        return Some(ticket);
    }
    if let Some(ticket) = falls(tasks) {
        return Some(ticket);
    }
    falls(clerks)
}

/// Audits whether a job's closed histories and its callers' records are one run of its machines.
///
/// The run is in the order of the tickets. In it each entry is accepted, and each record's caller
/// was told exactly what the machines reply at that point. `tasks` and `clerks` hold the history of
/// each task and each clerk at the place of its number, number 1 first. An entry of an actor that
/// the job does not have is refused.
///
/// [`Audit::One`] says that they are one run. [`Audit::No`] names a fault and its ticket. The
/// faults are looked for in this order:
///
/// - a ticket that occurs twice;
/// - an entry whose ticket is not above that of the entry before it in its history;
/// - in the order of the tickets, the first entry that the machines refuse, or record whose caller
///   was told something else.
///
/// A restart of the table is an entry like others. The replayed table loses its rows there, and
/// refuses an entry of a commit that comes before its grace is over. A restart reads no clock, so
/// it does not affect whether the clocks were timely.
///
/// Fails only if memory runs out, and then says nothing about the run.
pub fn audit(
    alloc: Global,
    job: &Job,
    table: &History<TableEvent>,
    tasks: &[History<SliceletEvent>],
    clerks: &[History<ClerkEvent>],
    records: &[CallRecord],
) -> Result<Audit, AllocError>
    ensures { IfOk result (λ found. IsAudit job.now (evidence table.now tasks.now clerks.now records.now) found) }
{
    let points = sorted_points(alloc, table, tasks, clerks, records)?;
    if let Some(ticket) = twice(&points) {
        return Ok(Audit::No {
            ticket,
            why: Why::Double,
        });
    }
    if let Some(ticket) = first_fall(table, tasks, clerks) {
        return Ok(Audit::No {
            ticket,
            why: Why::Order,
        });
    }
    replay(alloc, *job, &points)
}
