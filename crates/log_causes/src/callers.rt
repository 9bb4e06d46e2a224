//! How many calls of a log each actor of its job took.

ghost use Rattle.std.specs.Prelude.{◌≡◌, ◌++◌, ℕ, IfOk, OnOk, nat_eq, unwrap_or};
ghost use Rattle.std.specs.HashMap as hash;
ghost use Rattle.log_causes.specs.declared.callers.Caller.TheVariants as caller;
ghost use Rattle.log_causes.specs.Callers.{calls_where, clerk_counts, clerk_of, counted, each_to, is_of, is_of_clerk, is_of_table, is_of_task, is_silent, names_task, silent, silent_tasks, table_count, task_counts};

use grants::TableCall;
use job_calls::{ClusterCall, Job};
use log_line::{LogEntry, LoggedCall};
use std::alloc::{AllocError, Global};
use std::collections::HashMap;

/// An actor, and how many calls it took.
#[derive(Clone, Copy, Debug, PartialEq, Eq)]
pub struct CountedCalls {
    /// The number of the task or of the clerk.
    pub number: u64,
    /// How many calls it took.
    pub calls: u64,
}

/// How many calls of a log each actor took.
#[derive(Debug, Drop)]
pub struct Counts {
    /// How many the table took.
    pub table: u64,
    /// The tasks that took any, by their numbers.
    pub tasks: Vec<CountedCalls>,
    /// The clerks that took any, by their numbers.
    pub clerks: Vec<CountedCalls>,
}

/// The table or a task, which take calls.
#[derive(Clone, Copy)]
enum Caller {
    Table,
    Task(u64),
}

#[tactic(auto, unfolding(crate::specs::Callers::is_of_table))]
fn is_of_table(call: &LoggedCall) -> bool
    ensures { result ≡ is_of_table call.now }
{
    match call {
        LoggedCall::Whole(ClusterCall::Table(_) | ClusterCall::Phase | ClusterCall::Rows) => true,
        LoggedCall::Restore(_) => true,
        _ => false,
    }
}

#[tactic(auto, unfolding(crate::specs::Callers::is_of_task))]
fn is_of_task(number: u64, call: &LoggedCall) -> bool
    ensures { result ≡ is_of_task number call.now }
{
    match call {
        LoggedCall::Whole(
            ClusterCall::Task { task, .. }
            | ClusterCall::Serve { task, .. }
            | ClusterCall::Hold { task, .. }
            | ClusterCall::Check { task, .. },
        ) => *task == number,
        LoggedCall::HearBare { task, .. } => *task == number,
        LoggedCall::Sample(taken) => taken.task == number,
        _ => false,
    }
}

// Returns the clerk that takes a call, if one does.
#[tactic(auto, unfolding(crate::specs::Callers::clerk_of))]
fn clerk_of(call: &LoggedCall) -> Option<u64>
    ensures { result ≡ clerk_of call.now }
{
    match call {
        LoggedCall::Whole(ClusterCall::Clerk { clerk, .. } | ClusterCall::Look { clerk, .. }) => {
            Some(*clerk)
        }
        LoggedCall::LearnBare { clerk, .. } => Some(*clerk),
        _ => None,
    }
}

// Whether a call asks for a lease for this task, or gives one of it back.
#[tactic(auto, unfolding(crate::specs::Callers::names_task))]
fn names_task(number: u64, call: &LoggedCall) -> bool
    ensures { result ≡ names_task number call.now }
{
    match call {
        LoggedCall::Whole(ClusterCall::Table(TableCall::Grant { task, .. })) => {
            task.number() == number
        }
        LoggedCall::Whole(ClusterCall::Table(TableCall::Free { note, .. })) => {
            note.task.number() == number
        }
        _ => false,
    }
}

#[tactic(auto, unfolding(crate::specs::Callers::is_of))]
fn is_of(caller: Caller, call: &LoggedCall) -> bool
    ensures { result ≡ is_of caller call.now }
{
    match caller {
        Caller::Table => is_of_table(call),
        Caller::Task(number) => is_of_task(number, call),
    }
}

// Returns how many calls the table or a task took.
#[tactic(auto, unfolding(crate::specs::Callers::calls_where))]
fn calls_of(caller: Caller, entries: &[LogEntry]) -> u64
    ensures { result ≡ calls_where (is_of caller) entries.now }
{
    entries
        .iter()
        .filter(|entry| is_of(caller, &entry.line.call))
        .count() as u64
}

// Returns how many calls each clerk took.
fn clerk_calls(alloc: Global, entries: &[LogEntry]) -> Result<HashMap<u64, u64>, AllocError>
    ensures { IfOk result (λ counts. (clerk : ℕ)
        → unwrap_or (hash.get nat_eq counts clerk) 0 ≡ calls_where (is_of_clerk clerk) entries.now) }
{
    let mut counts = HashMap::new(alloc);
    for entry in entries {
        if let Some(clerk) = clerk_of(&entry.line.call) {
            *counts.entry(clerk)?.or_insert(0) += 1;
        }
    }
    Ok(counts)
}

// Returns how many calls name a task.
#[tactic(auto, unfolding(crate::specs::Callers::calls_where))]
fn calls_naming(number: u64, entries: &[LogEntry]) -> u64
    ensures { result ≡ calls_where (names_task number) entries.now }
{
    entries
        .iter()
        .filter(|entry| names_task(number, &entry.line.call))
        .count() as u64
}

// Adds an actor and how many calls it took, if it took any.
fn add_counted(counts: &mut Vec<CountedCalls>, number: u64, calls: u64) -> Result<(), AllocError>
    ensures { OnOk result (counts.new.items ≡ counts.old.items ++ counted number calls) }
{
    if calls > 0 {
        counts.push(CountedCalls { number, calls })?;
    }
    Ok(())
}

// Returns how many calls each task took that took any.
#[tactic(auto, using(crate::proofs::Counting::each_more), unfolding(crate::specs::Callers::task_counts))]
fn task_counts(
    alloc: Global,
    job: Job,
    entries: &[LogEntry],
) -> Result<Vec<CountedCalls>, AllocError>
    ensures { IfOk result (λ counts. counts.items ≡ task_counts job entries.now) }
{
    let mut counts = Vec::new(alloc);
    for place in 0..job.tasks() {
        let number = place + 1;
        let calls = calls_of(Caller::Task(number), entries);
        add_counted(&mut counts, number, calls)?;
    }
    Ok(counts)
}

// Returns how many calls a clerk took.
fn count_of(counts: &HashMap<u64, u64>, clerk: u64) -> u64
    ensures { result ≡ unwrap_or (hash.get nat_eq counts.now clerk) 0 }
{
    counts.get(&clerk).copied().unwrap_or(0)
}

// Returns how many calls each clerk took that took any.
#[tactic(auto, using(crate::proofs::Counting::each_more), unfolding(crate::specs::Callers::clerk_counts))]
fn clerk_counts(
    alloc: Global,
    job: Job,
    entries: &[LogEntry],
) -> Result<Vec<CountedCalls>, AllocError>
    ensures { IfOk result (λ counts. counts.items ≡ clerk_counts job entries.now) }
{
    let taken = clerk_calls(alloc, entries)?;
    let mut counts = Vec::new(alloc);
    for place in 0..job.clerks() {
        let number = place + 1;
        add_counted(&mut counts, number, count_of(&taken, number))?;
    }
    Ok(counts)
}

/// Returns how many calls each actor of the job took.
#[tactic(auto, unfolding(crate::specs::Callers::table_count))]
pub fn counts_of(alloc: Global, job: Job, entries: &[LogEntry]) -> Result<Counts, AllocError>
    ensures table { IfOk result (λ counts. counts.table ≡ table_count entries.now) }
    ensures tasks { IfOk result (λ counts. counts.tasks.items ≡ task_counts job entries.now) }
    ensures clerks { IfOk result (λ counts. counts.clerks.items ≡ clerk_counts job entries.now) }
{
    Ok(Counts {
        table: calls_of(Caller::Table, entries),
        tasks: task_counts(alloc, job, entries)?,
        clerks: clerk_counts(alloc, job, entries)?,
    })
}

// Whether a task took no call, though others name it.
#[tactic(auto, unfolding(crate::specs::Callers::is_silent))]
fn is_silent(entries: &[LogEntry], number: u64) -> bool
    ensures { result ≡ is_silent entries.now number }
{
    calls_of(Caller::Task(number), entries) == 0 && calls_naming(number, entries) > 0
}

// Adds a task that took no call, though others name it.
fn add_silent(tasks: &mut Vec<u64>, entries: &[LogEntry], number: u64) -> Result<(), AllocError>
    ensures { OnOk result (tasks.new.items ≡ tasks.old.items ++ silent entries.now number) }
{
    if is_silent(entries, number) {
        tasks.push(number)?;
    }
    Ok(())
}

/// Returns the tasks that took no call, though others name them: the log may lack their lines.
#[tactic(auto, using(crate::proofs::Counting::each_more), unfolding(crate::specs::Callers::silent_tasks))]
pub fn silent_tasks(alloc: Global, job: Job, entries: &[LogEntry]) -> Result<Vec<u64>, AllocError>
    ensures { IfOk result (λ tasks. tasks.items ≡ silent_tasks job entries.now) }
{
    let mut tasks = Vec::new(alloc);
    for place in 0..job.tasks() {
        add_silent(&mut tasks, entries, place + 1)?;
    }
    Ok(tasks)
}
