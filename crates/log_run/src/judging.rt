//! Whether the calls of a log are one run.

ghost use Rattle.std.specs.Prelude.{◌≡◌, ◌+◌, ◌<◌, ◌&&◌, length, is_some, IfOk, OnOk, MatchOption};
ghost use Rattle.std.specs.Ordering.{nat_cmp};
ghost use Rattle.std.specs.List.Sorted.{IsPermutation, IsNonDecreasingBy, IsStableByKey};
ghost use Rattle.cluster.specs.continued.Jobs.{Continued};
ghost use Rattle.cluster.specs.Pasts.{Past};
ghost use Rattle.log_run.specs.OneRun.{IsDouble, TicketsRise};
ghost use Rattle.log_run.specs.Outcomes.{IsJudged, IsReplayed, IsSentIn, is_one_run};
ghost use Rattle.log_run.specs.Starts.{Begins};
ghost use Rattle.log_run.specs.States.{IsSnapshotIfRun, IsStateOf};
ghost use Rattle.log_run.specs.internals.Machines.{HavePlayed};

use crate::late::late_reading;
use crate::log_machines::LogMachines;
use crate::outcome::Outcome;
use crate::playing::{answer, held_by_asked};
use crate::start::Start;
use job_calls::ClusterSnapshot;
use log_line::{LogEntry, Progress};
use std::alloc::{AllocError, Global};

// Sorts entries by ticket. Entries with the same ticket keep their order.
fn sort(entries: &mut Vec<LogEntry>) -> Result<(), AllocError>
    ensures same { IsPermutation entries.old.items entries.new.items }
    ensures order { OnOk result (IsNonDecreasingBy (λ e. e.line.ticket) entries.new.items) }
    ensures stable { IsStableByKey (λ e. e.line.ticket) nat_cmp entries.old.items entries.new.items }
{
    entries.sort_by_key(|entry| entry.line.ticket)
}

// Returns the index of the first entry whose ticket the next one has too. Entries are sorted.
fn double(entries: &[LogEntry]) -> Option<usize>
    requires { IsNonDecreasingBy (λ e. e.line.ticket) entries.now }
    ensures { MatchOption result (TicketsRise entries.now)
        (λ i. IsDouble entries.now i (i + 1) × (i + 1 < length entries.now)) }
{
    for i in 1..entries.len() {
        let before = entries[i - 1].line.ticket;
        let ticket = entries[i].line.ticket;
        if ticket == before {
            return Some(i - 1);
        }
    }
    None
}

/// What was found of the calls of a log, and where they leave the machines.
#[derive(Drop)]
pub struct Judged {
    /// What was found.
    pub outcome: Outcome,
    /// The snapshot of the machines after the calls, if it is wanted and they are one run.
    pub state: Option<ClusterSnapshot>,
    /// Whether the calls are one run in which no reply is that something was not sent.
    pub all_sent: bool,
}

// Returns a snapshot of the machines, if it is wanted.
fn state_of(machines: LogMachines, is_wanted: bool) -> Result<Option<ClusterSnapshot>, AllocError>
    ensures state { (job : Continued) (past : Past) → HavePlayed job past machines → IfOk result (IsSnapshotIfRun job past) }
    ensures wanted { IfOk result (λ state. is_some state ≡ is_wanted) }
{
    if !is_wanted {
        return Ok(None);
    }
    match machines.finish()? {
        Some(state) => Ok(Some(state)),
        // A wanted run is recorded from the start.
        None => Err(AllocError),
    }
}

// Plays entries in order, up to the first whose caller got a wrong reply.
fn replay<P: Progress>(
    alloc: Global,
    start: &Start,
    entries: &[LogEntry],
    keeps: bool,
    progress: &mut P,
) -> Result<Judged, AllocError>
    ensures found { (job : Continued) → Begins job start.now → IfOk result (λ judged. IsReplayed job entries.now judged.outcome) }
    ensures state { (job : Continued) → Begins job start.now → IfOk result (λ judged. IsStateOf job entries.now judged.state) }
    ensures sent { (job : Continued) → Begins job start.now → IfOk result (λ judged. IsSentIn job entries.now judged.outcome judged.all_sent) }
    ensures kept { IfOk result (λ judged. is_some judged.state ≡ (keeps && is_one_run judged.outcome)) }
{
    let mut machines = LogMachines::new(alloc, start, keeps)?;
    for index in 0..entries.len() {
        let entry = &entries[index];
        let other = answer(alloc, &mut machines, &entry.line)?;
        if let Some(wanted) = other {
            machines.run_law();
            let call = &entry.line.call;
            let held = held_by_asked(machines.cluster(), call);
            let outcome = Outcome::Other {
                index,
                wanted,
                held,
                machines,
            };
            return Ok(Judged {
                outcome,
                state: None,
                all_sent: false,
            });
        }
        progress.calls_judged(index as u64 + 1);
    }
    machines.run_law();
    let late = late_reading(start.job.policy().skew(), start.table_reading(), entries);
    let outcome = Outcome::One {
        steps: entries.len() as u64,
        late,
    };
    let all_sent = machines.all_sent();
    let state = state_of(machines, keeps)?;
    Ok(Judged {
        outcome,
        state,
        all_sent,
    })
}

/// Sorts the calls of a log by their tickets, and finds whether they are one run of the job's
/// machines, from this start.
///
/// They are one run if each caller got, in the same words, the reply that the machines give after
/// the calls before. `keeps` is whether a snapshot of the machines is wanted.
///
/// [`Outcome::Double`] comes first: two entries have the same ticket. It names the lowest such
/// ticket, and the first two entries that have it, in the order in which they were given. Otherwise
/// [`Outcome::Other`] names the first call whose caller got another reply. If memory runs out,
/// nothing is found.
pub fn judge_calls<P: Progress>(
    alloc: Global,
    start: &Start,
    entries: &mut Vec<LogEntry>,
    keeps: bool,
    progress: &mut P,
) -> Result<Judged, AllocError>
    ensures same { IsPermutation entries.old.items entries.new.items }
    ensures stable { IsStableByKey (λ e. e.line.ticket) nat_cmp entries.old.items entries.new.items }
    ensures found { (job : Continued) → Begins job start.now → IfOk result (λ judged. IsJudged job entries.new.items judged.outcome) }
    ensures state { (job : Continued) → Begins job start.now → IfOk result (λ judged. IsStateOf job entries.new.items judged.state) }
    ensures sent { (job : Continued) → Begins job start.now → IfOk result (λ judged. IsSentIn job entries.new.items judged.outcome judged.all_sent) }
    ensures kept { IfOk result (λ judged. is_some judged.state ≡ (keeps && is_one_run judged.outcome)) }
{
    sort(entries)?;
    if let Some(first) = double(entries) {
        let second = first + 1;
        return Ok(Judged {
            outcome: Outcome::Double { first, second },
            state: None,
            all_sent: false,
        });
    }
    let judged = replay(alloc, start, entries, keeps, progress)?;
    Ok(judged)
}
