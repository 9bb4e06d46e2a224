//! What is found of the calls of a log, and why.

ghost use Rattle.std.specs.Prelude.{◌≡◌, ◌&&◌, Bool, is_some, IfOk};
ghost use Rattle.std.specs.Ordering.{nat_cmp};
ghost use Rattle.std.specs.List.Sorted.{IsPermutation, IsStableByKey};
ghost use Rattle.cluster.specs.continued.Jobs.{Continued};
ghost use Rattle.log_run.specs.Outcomes.{IsJudged, IsSentIn, is_one_run};
ghost use Rattle.log_run.specs.Starts.{Begins};
ghost use Rattle.log_run.specs.States.{IsStateOf};
ghost use Rattle.log_causes.specs.Audited.{AreSent, IsFound, is_one};

use crate::finding::Finding;
use crate::questions::{WrongCall, cause_of};
use job_calls::ClusterSnapshot;
use log_line::{LogEntry, Progress};
use log_run::{Outcome, Start};
use std::alloc::{AllocError, Global};

/// What was found of the calls of a log, and where they leave the machines.
#[derive(Drop)]
pub struct Found {
    /// What was found.
    pub finding: Finding,
    /// The snapshot of the machines after the calls, if it is wanted and they are one run.
    pub state: Option<ClusterSnapshot>,
    /// Whether the calls are one run in which no reply is that something was not sent.
    pub all_sent: bool,
}

// Returns what an outcome of these entries is, with the cause of a wrong reply.
fn finding_of(
    alloc: Global,
    start: &Start,
    entries: &[LogEntry],
    outcome: Outcome,
) -> Result<Finding, AllocError>
    ensures found { (job : Continued) → Begins job start.now → IsJudged job entries.now outcome → IfOk result (IsFound job entries.now) }
    ensures one { IfOk result (λ finding. is_one finding ≡ is_one_run outcome) }
    ensures sent { (job : Continued) (all_sent : Bool) → IsSentIn job entries.now outcome all_sent
        → IfOk result (λ finding. AreSent job entries.now finding all_sent) }
{
    match outcome {
        Outcome::One { steps, late } => Ok(Finding::One { steps, late }),
        Outcome::Double { first, second } => Ok(Finding::Double { first, second }),
        Outcome::Other {
            index,
            wanted,
            held,
            machines,
        } => {
            if index >= entries.len() {
                // An outcome names one of its entries.
                return Err(AllocError);
            }
            let entry = &entries[index];
            let wrong = WrongCall {
                index,
                call: &entry.line.call,
                wanted: &wanted,
            };
            let cause = cause_of(alloc, start, machines.cluster(), entries, wrong)?;
            Ok(Finding::Other {
                index,
                wanted,
                held,
                cause,
            })
        }
    }
}

/// Sorts the calls of a log by their tickets, and finds whether they are one run of the job's
/// machines, from this start, as [`log_run::judge_calls`] does, and why a wrong reply is wrong.
///
/// `keeps` is whether a snapshot of the machines is wanted. If memory runs out, nothing is found.
pub fn find_calls<P: Progress>(
    alloc: Global,
    start: &Start,
    entries: &mut Vec<LogEntry>,
    keeps: bool,
    progress: &mut P,
) -> Result<Found, AllocError>
    ensures same { IsPermutation entries.old.items entries.new.items }
    ensures stable { IsStableByKey (λ e. e.line.ticket) nat_cmp entries.old.items entries.new.items }
    ensures found { (job : Continued) → Begins job start.now → IfOk result (λ f. IsFound job entries.new.items f.finding) }
    ensures state { (job : Continued) → Begins job start.now → IfOk result (λ f. IsStateOf job entries.new.items f.state) }
    ensures sent { (job : Continued) → Begins job start.now → IfOk result (λ f. AreSent job entries.new.items f.finding f.all_sent) }
    ensures kept { IfOk result (λ f. is_some f.state ≡ (keeps && is_one f.finding)) }
{
    let judged = log_run::judge_calls(alloc, start, entries, keeps, progress)?;
    let finding = finding_of(alloc, start, entries.as_slice(), judged.outcome)?;
    Ok(Found {
        finding,
        state: judged.state,
        all_sent: judged.all_sent,
    })
}
