//! The lines for what an audit found of calls.

ghost use Rattle.std.specs.Prelude.{◌≡◌, IfOk, Some, map, slice_get, string_bytes};
ghost use Rattle.audit_text.specs.Reports.{clocks_text, cut_text, double_text, later_text, one_text, outcome_text, table_read_text, ticket_of, told_text, whole_text, wrong_text};
ghost use Rattle.audit_text.specs.Standing.{standing_at};

use crate::comparing::WrongReply;
use crate::counts_text::{calls_text, coarse_text, silent_text};
use crate::standing::{NamedEntries, Standing};
use faults::Escaped;
use job_calls::Job;
use log_causes::MOST_WRONG_REPLIES;
use log_line::{CallerReply, LogEntry, PlainLine};
use log_run::{Late, Outcome};
use std::alloc::{AllocError, Global};
use std::fmt;

/// Displays where the table read its clock before, and how much.
#[derive(Clone, Copy)]
struct TableRead<'a> {
    log: NamedEntries<'a>,
    // `None` if it was before the first of the calls.
    index: Option<usize>,
    at: u64,
}

impl fmt::Display for TableRead<'_> {
    ghost output = { λ r. Some (table_read_text (map (λ n. n.now) r.log.names.now) r.log.entries.now r.index r.at) };

    fn fmt<W: fmt::Write>(&self, f: &mut fmt::Formatter<W>) -> fmt::Result {
        let at = self.at;
        match self.index {
            Some(index) => {
                let table = Standing {
                    log: self.log,
                    index,
                };
                write!(f, "{table} read {at} before it")
            }
            None => write!(f, "the table read {at} in earlier logs"),
        }
    }
}

// Returns the last line of the report on calls that are one run.
fn clocks_text(
    alloc: Global,
    skew: u64,
    log: NamedEntries,
    late: Option<Late>,
) -> Result<String, AllocError>
    ensures { IfOk result (λ text. string_bytes text
        ≡ clocks_text skew (map (λ n. n.now) log.entry.names.now) log.entry.entries.now late) }
{
    let Some(late) = late else {
        return String::from_str(alloc, "timely yes\n");
    };
    let task = Standing {
        log,
        index: late.index,
    };
    let at = late.at;
    let table = TableRead {
        log,
        index: late.table_index,
        at: late.table_at,
    };
    format!(in alloc; "timely no: {task} read {at}, {table}, skew {skew}\n")
}

// Returns the ticket of an entry, 0 if there is none.
fn ticket_at(entries: &[LogEntry], index: usize) -> u64
    ensures { result ≡ ticket_of (slice_get entries.now index) }
{
    match entries.get(index) {
        Some(entry) => entry.line.ticket,
        None => 0,
    }
}

// Returns the line for two entries with the same ticket. It names the later one first.
fn double_text(
    alloc: Global,
    log: NamedEntries,
    first: usize,
    second: usize,
) -> Result<String, AllocError>
    ensures { IfOk result (λ text. string_bytes text
        ≡ double_text (map (λ n. n.now) log.entry.names.now) log.entry.entries.now first second) }
{
    let ticket = ticket_at(log.entries, first);
    let earlier = Standing { log, index: first };
    let later = Standing { log, index: second };
    format!(in alloc; "{later}: ticket {ticket} is also at {earlier}\n")
}

// Returns the line for a call at this position, whose caller got `told` in place of the right
// reply.
fn told_text(
    alloc: Global,
    standing: Standing,
    told: &str,
    wanted: &CallerReply,
) -> Result<String, AllocError>
    ensures { IfOk result (λ text. string_bytes text ≡ told_text
        (standing_at (map (λ n. n.now) standing.entry.log.names.now) standing.entry.log.entries.now standing.entry.index)
        told.now wanted.now) }
{
    let told = Escaped(told);
    let words = PlainLine(wanted);
    format!(in alloc; "{standing}: told \"{told}\"; should be \"{words}\"\n")
}

// Returns the line for a call whose caller got a wrong reply.
fn wrong_text(
    alloc: Global,
    log: NamedEntries,
    index: usize,
    wanted: &CallerReply,
) -> Result<String, AllocError>
    ensures { IfOk result (λ text. string_bytes text
        ≡ wrong_text (map (λ n. n.now) log.entry.names.now) log.entry.entries.now index wanted.now) }
{
    let Some(entry) = log.entries.get(index) else {
        return Ok(String::new(alloc));
    };
    let told = entry.line.reply.as_str();
    told_text(alloc, Standing { log, index }, told, wanted)
}

// Returns the line that says that the calls after a last wrong reply were not judged, or nothing.
fn cut_text(count: usize) -> &'static str
    ensures { result.now ≡ cut_text count }
{
    if count == MOST_WRONG_REPLIES - 1 {
        "the calls after this one were not judged\n"
    } else {
        ""
    }
}

// Returns the lines for the wrong replies after the first one.
fn later_text(alloc: Global, log: NamedEntries, later: &[WrongReply]) -> Result<String, AllocError>
    ensures { IfOk result (λ text. string_bytes text
        ≡ later_text (map (λ n. n.now) log.entry.names.now) log.entry.entries.now later.now) }
{
    let mut text = String::new(alloc);
    for wrong in later {
        let line = wrong_text(alloc, log, wrong.index, &wrong.wanted)?;
        text.push_str(line.as_str())?;
    }
    text.push_str(cut_text(later.len()))?;
    Ok(text)
}

// The numbers of a report on calls that are one run.
#[derive(Clone, Copy)]
struct Run {
    steps: u64,
    late: Option<Late>,
}

// Returns the lines for calls that are one run.
fn one_text(alloc: Global, job: Job, log: NamedEntries, run: Run) -> Result<String, AllocError>
    ensures { IfOk result (λ text. string_bytes text
        ≡ one_text job (map (λ n. n.now) log.entry.names.now) log.entry.entries.now run.steps run.late) }
{
    let steps = run.steps;
    let calls = calls_text(alloc, job, log.entries)?;
    let coarse = coarse_text(alloc, log.entries)?;
    let silent = silent_text(alloc, job, log.entries)?;
    let clocks = clocks_text(alloc, job.policy().skew(), log, run.late)?;
    format!(in alloc; "audit one\nsteps {steps}\n{calls}{coarse}{silent}{clocks}")
}

// Returns the lines for what was found of calls.
fn outcome_text(
    alloc: Global,
    job: Job,
    log: NamedEntries,
    outcome: &Outcome,
) -> Result<String, AllocError>
    ensures { IfOk result (λ text. string_bytes text
        ≡ outcome_text job (map (λ n. n.now) log.entry.names.now) log.entry.entries.now outcome.now) }
{
    match outcome {
        Outcome::One { steps, late } => {
            let run = Run {
                steps: *steps,
                late: *late,
            };
            one_text(alloc, job, log, run)
        }
        Outcome::Double { first, second } => double_text(alloc, log, *first, *second),
        Outcome::Other { index, wanted, .. } => wrong_text(alloc, log, *index, wanted),
    }
}

/// Returns the report on what was found of calls of the job, with the wrong replies after the first
/// one that are told.
pub fn report_of(
    alloc: Global,
    job: Job,
    log: NamedEntries,
    outcome: &Outcome,
    later: &[WrongReply],
) -> Result<String, AllocError>
    ensures { IfOk result (λ text. string_bytes text
        ≡ whole_text job (map (λ n. n.now) log.entry.names.now) log.entry.entries.now outcome.now later.now) }
{
    let lines = outcome_text(alloc, job, log, outcome)?;
    let more = later_text(alloc, log, later)?;
    format!(in alloc; "{lines}{more}")
}
