//! The lines that say how many calls were judged, and whose may be missing.

ghost use Rattle.std.specs.Prelude.{◌≡◌, IfOk, Some, codes, string_bytes};
ghost use Rattle.std.specs.List.{flat_map};
ghost use Rattle.log_causes.specs.Callers.{clerk_counts, silent_tasks, table_count, task_counts};
ghost use Rattle.log_causes.specs.Coarse.{coarse_count};
ghost use Rattle.audit_text.specs.Counts.{calls_line, coarse_line, counted_text, numbers_text, silent_line};

use job_calls::Job;
use log_causes::{CountedCalls, Counts, coarse_count, counts_of, silent_tasks};
use log_line::LogEntry;
use std::alloc::{AllocError, Global};
use std::fmt;

/// Displays an actor and how many calls it took.
#[derive(Clone, Copy)]
struct CountedText {
    word: &'static str,
    counted: CountedCalls,
}

impl fmt::Display for CountedText {
    ghost output = { λ c. Some (counted_text c.word.now c.counted) };

    fn fmt<W: fmt::Write>(&self, f: &mut fmt::Formatter<W>) -> fmt::Result {
        let CountedCalls { number, calls } = self.counted;
        write!(f, "{}{number} {calls}", self.word)
    }
}

// Returns how many calls each actor of a kind took.
fn counted_texts(
    alloc: Global,
    word: &'static str,
    counts: &[CountedCalls],
) -> Result<String, AllocError>
    ensures { IfOk result (λ text. string_bytes text ≡ flat_map (counted_text word.now) counts.now) }
{
    let mut text = String::new(alloc);
    for counted in counts {
        let counted = CountedText {
            word,
            counted: *counted,
        };
        let part = format!(in alloc; "{counted}")?;
        text.push_str(part.as_str())?;
    }
    Ok(text)
}

// Returns the line that says how many calls each actor took.
#[tactic(auto, unfolding(crate::specs::Counts::calls_line))]
fn calls_line(alloc: Global, counts: &Counts) -> Result<String, AllocError>
    ensures { IfOk result (λ text. string_bytes text
        ≡ calls_line counts.now.table counts.now.tasks.items counts.now.clerks.items) }
{
    let table = counts.table;
    let tasks = counted_texts(alloc, ", task ", counts.tasks.as_slice())?;
    let clerks = counted_texts(alloc, ", clerk ", counts.clerks.as_slice())?;
    format!(in alloc; "calls table {table}{tasks}{clerks}\n")
}

/// Returns the line that says how many calls of a log each actor of its job took.
pub fn calls_text(alloc: Global, job: Job, entries: &[LogEntry]) -> Result<String, AllocError>
    ensures { IfOk result (λ text. string_bytes text
        ≡ calls_line (table_count entries.now) (task_counts job entries.now) (clerk_counts job entries.now)) }
{
    let counts = counts_of(alloc, job, entries)?;
    let text = calls_line(alloc, &counts)?;
    Ok(text)
}

// Returns the line that says how many replies are one word, or nothing if there are none.
#[tactic(auto, unfolding(crate::specs::Counts::coarse_line))]
fn coarse_line(alloc: Global, count: u64) -> Result<String, AllocError>
    ensures { IfOk result (λ text. string_bytes text ≡ coarse_line count) }
{
    if count == 0 {
        return Ok(String::new(alloc));
    }
    format!(in alloc; "replies of one word {count}\n")
}

/// Returns the line that says how many replies the log keeps one word of, or nothing if there are
/// none.
pub fn coarse_text(alloc: Global, entries: &[LogEntry]) -> Result<String, AllocError>
    ensures { IfOk result (λ text. string_bytes text ≡ coarse_line (coarse_count entries.now)) }
{
    let text = coarse_line(alloc, coarse_count(entries))?;
    Ok(text)
}

// Returns numbers, each after a space.
fn numbers_text(alloc: Global, numbers: &[u64]) -> Result<String, AllocError>
    ensures { IfOk result (λ text. string_bytes text ≡ numbers_text numbers.now) }
{
    let mut text = String::new(alloc);
    for number in numbers {
        let part = format!(in alloc; " {number}")?;
        text.push_str(part.as_str())?;
    }
    Ok(text)
}

// Returns the line that names these tasks, or nothing if there are none.
#[tactic(auto, unfolding(crate::specs::Counts::silent_line))]
fn silent_line(alloc: Global, tasks: &[u64]) -> Result<String, AllocError>
    ensures { IfOk result (λ text. string_bytes text ≡ silent_line tasks.now) }
{
    if tasks.is_empty() {
        return Ok(String::new(alloc));
    }
    let tasks = numbers_text(alloc, tasks)?;
    format!(in alloc; "no calls of task{tasks}\n")
}

/// Returns the line that names the tasks which took no call, though others name them, or nothing
/// if there are none.
pub fn silent_text(alloc: Global, job: Job, entries: &[LogEntry]) -> Result<String, AllocError>
    ensures { IfOk result (λ text. string_bytes text ≡ silent_line (silent_tasks job entries.now)) }
{
    let tasks = silent_tasks(alloc, job, entries)?;
    let text = silent_line(alloc, tasks.as_slice())?;
    Ok(text)
}
