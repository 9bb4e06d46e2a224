//! Audits of logs: a log in, the lines of a report out.

ghost use Rattle.std.specs.Prelude.{◌≡◌, ◌++◌, ℕ, IfOk, List, map, string_bytes};
ghost use Rattle.cluster.specs.continued.Jobs.{Continued};
ghost use Rattle.audit_text.specs.Audits.{IsAudited, is_timely};
ghost use Rattle.audit_text.specs.DriftReports.{IsDriftTold};
ghost use Rattle.audit_text.specs.Reports.{unsent_text};
ghost use Rattle.log_line.specs.Files.{IsLog, lines_from};
ghost use Rattle.log_run.specs.Outcomes.{is_one_run};
ghost use Rattle.log_run.specs.Starts.{BeginsAt};

use crate::comparing::later_wrong_replies;
use crate::drift_text::drift_text;
use crate::fence_text::fence_told;
use crate::report::report_of;
use crate::standing::NamedEntries;
use clocks::Drift;
use job_calls::ClusterSnapshot;
use log_line::{LinePosition, Log, Progress, WriteEntry};
use log_run::{Judged, Outcome, Start, drift_fault, judge_calls};
use std::alloc::{AllocError, Global};

/// What an audit does beyond judging the calls.
#[derive(Clone, Copy, Debug, PartialEq, Eq)]
pub struct AuditOptions {
    /// Whether the report tells later wrong replies too, up to
    /// [`log_causes::MOST_WRONG_REPLIES`] in all.
    pub all: bool,
    /// The drift that the samples of the log are judged by.
    pub drift: Option<Drift>,
    /// Whether a snapshot of the machines after the calls is wanted.
    pub keeps: bool,
}

/// The result of an audit.
#[derive(Drop)]
pub struct LogReport {
    /// Whether the calls are one run.
    pub is_one: bool,
    /// Whether the calls are one run with timely clocks.
    pub is_timely: bool,
    /// Whether no sample shows that clocks did not keep the drift; true if none is judged.
    pub keeps_drift: bool,
    /// Whether the law of fencing tokens rules out no write; true if none is judged.
    pub is_fenced: bool,
    /// The lines of the report.
    pub text: String,
    /// The positions of last lines that were left out: they lack their end, and are not calls.
    pub torn: Vec<LinePosition>,
    /// The snapshot of the machines after the calls, if it is wanted and they are one run.
    pub state: Option<ClusterSnapshot>,
    /// Whether the calls are one run in which no reply is that something was not sent.
    pub all_sent: bool,
}

fn is_one(outcome: &Outcome) -> bool
    ensures { result ≡ is_one_run outcome.now }
{
    matches!(outcome, Outcome::One { .. })
}

fn is_timely(outcome: &Outcome) -> bool
    ensures { result ≡ is_timely outcome.now }
{
    matches!(outcome, Outcome::One { late: None, .. })
}

/// What is told of calls that are one run from a snapshot, if one of them was refused as not sent.
const UNSENT_WORDS: &str =
    "not-sent: what earlier logs sent may be forgotten, so only an audit of all logs judges these refusals\n";

// What the samples of a log say of a drift.
#[derive(Drop)]
struct DriftTold {
    // Whether none shows that clocks did not keep it.
    is_kept: bool,
    // The line of the report, or nothing.
    line: String,
}

// Judges the samples by a drift, if one is given and the calls are one run.
fn drift_told(
    alloc: Global,
    drift: Option<Drift>,
    log: NamedEntries,
    outcome: &Outcome,
) -> Result<DriftTold, AllocError>
    ensures { IfOk result (λ told. IsDriftTold drift (map (λ n. n.now) log.entry.names.now) log.entry.entries.now outcome.now
        told.is_kept (string_bytes told.line)) }
{
    let (Some(drift), Outcome::One { .. }) = (drift, outcome) else {
        return Ok(DriftTold {
            is_kept: true,
            line: String::new(alloc),
        });
    };
    let fault = drift_fault(alloc, drift, log.entries)?;
    Ok(DriftTold {
        is_kept: fault.is_none(),
        line: drift_text(alloc, log, fault)?,
    })
}

// Returns the line of the report on calls that are one run from a snapshot, if one of them was
// refused as not sent.
fn unsent_line(goes_on: bool, is_one: bool, all_sent: bool) -> &'static str
    ensures { result.now ≡ unsent_text goes_on is_one all_sent }
{
    if goes_on && is_one && !all_sent {
        UNSENT_WORDS
    } else {
        ""
    }
}

// Returns a text with these lines after it.
fn with_lines(text: String, first: &str, second: &str, third: &str) -> Result<String, AllocError>
    ensures { IfOk result (λ whole. string_bytes whole ≡ string_bytes text ++ (first.now ++ (second.now ++ third.now))) }
{
    let mut whole = text;
    whole.push_str(first)?;
    whole.push_str(second)?;
    whole.push_str(third)?;
    Ok(whole)
}

/// Judges the calls and the writes of a log in the order of their tickets.
///
/// `names` are the names of the files, and `earlier` is a snapshot of the machines after the calls
/// of earlier logs, one that [`Cluster::resume`](cluster::Cluster::resume) takes. Fails if memory
/// runs out.
pub fn audit_log<P: Progress>(
    alloc: Global,
    names: &[&str],
    log: Log,
    writes: &[WriteEntry],
    earlier: Option<ClusterSnapshot>,
    options: AuditOptions,
    progress: &mut P,
) -> Result<LogReport, AllocError>
    ensures { (files : List (List ℕ)) (job : Continued) (reads : IsLog (lines_from 0 files) log) → reads.writes ≡ writes.now
        → BeginsAt job log.job earlier → IfOk result (IsAudited job earlier (map (λ n. n.now) names.now) files options) }
{
    let Log {
        job,
        mut entries,
        torn,
    } = log;
    let goes_on = earlier.is_some();
    let start = Start { job, earlier };
    let judged = judge_calls(alloc, &start, &mut entries, options.keeps, progress)?;
    let Judged {
        outcome,
        state,
        all_sent,
    } = judged;
    let entries = entries.as_slice();
    let named = NamedEntries { names, entries };
    let later = later_wrong_replies(alloc, &start, entries, options.all, &outcome)?;
    let text = report_of(alloc, job, named, &outcome, later.as_slice())?;
    let drift = drift_told(alloc, options.drift, named, &outcome)?;
    let one = is_one(&outcome);
    let unsent = unsent_line(goes_on, one, all_sent);
    let fence = fence_told(alloc, &start, named, writes, one)?;
    let text = with_lines(text, drift.line.as_str(), unsent, fence.line.as_str())?;
    Ok(LogReport {
        is_one: one,
        is_timely: is_timely(&outcome),
        keeps_drift: drift.is_kept,
        is_fenced: fence.is_fenced,
        text,
        torn,
        state,
        all_sent,
    })
}
