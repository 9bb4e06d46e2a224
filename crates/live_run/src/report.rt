//! The report of a live run.

ghost use Rattle.std.specs.Prelude.{◌≡◌};
ghost use Rattle.live_run.specs.Reports.{commits, is_commit, is_serve, serves};

use audit::Audit;
use clerk::ClerkEvent;
use grants::TableCall;
use history_lock::{Entry, History};
use job_calls::{CallRecord, ClusterCall};
use lease_table::TableEvent;
use slicelet::SliceletEvent;

/// The report of a live run: the histories of all locks, the callers' records and an audit of both.
///
/// The records are those of all asks and of the writes that were refused. When threads wait, they
/// read the table's phase, rows and committed assignment. These reads leave no record.
#[derive(Drop)]
pub struct LiveReport {
    /// How many keys the workers asked for.
    pub asked: u64,
    /// How many generations were committed.
    pub generation: u64,
    /// The history of the table.
    pub table: History<TableEvent>,
    /// The histories of the tasks, in the order of their numbers.
    pub tasks: Vec<History<SliceletEvent>>,
    /// The histories of the clerks, in the order of their numbers.
    pub clerks: Vec<History<ClerkEvent>>,
    /// The records. Those of keys that tasks were asked for are grouped by task, and then by
    /// worker, each worker's in the order in which it asked.
    pub records: Vec<CallRecord>,
    /// What an audit of these histories and records finds.
    pub audit: Audit,
}

// Counts the records of a key that a task was asked for.
pub(crate) fn count_serves(records: &[CallRecord]) -> u64
    ensures { result ≡ serves records.now }
{
    records.iter().filter(|entry| is_asked(&entry.step)).count() as u64
}

// Counts the commits in a history of the table.
pub(crate) fn count_commits(entries: &[Entry<TableEvent>]) -> u64
    ensures { result ≡ commits entries.now }
{
    entries
        .iter()
        .filter(|entry| is_committed(&entry.event.call))
        .count() as u64
}

// Whether the call asks a task for a key.
fn is_asked(step: &ClusterCall) -> bool
    ensures { result ≡ is_serve step.now }
{
    matches!(step, ClusterCall::Serve { .. })
}

// Whether the call commits a proposed assignment.
fn is_committed(call: &TableCall) -> bool
    ensures { result ≡ is_commit call.now }
{
    matches!(call, TableCall::Commit { .. })
}
