//! Where a log may lack the line of a process or of a start.

ghost use Rattle.std.specs.Prelude.{◌≡◌, ◌<◌, ◌≤◌, if◌then◌else◌, max, Some, IfOk, IfSome, length};
ghost use Rattle.log_causes.specs.Hints.{IsHintOf, IsHinted, IsJudgedSo, IsTried, begun_life, greatest_life, is_down, is_start, last_start, open_entry, task_of, unstarted, with_open};
ghost use Rattle.cluster.specs.continued.Jobs.{Continued};
ghost use Rattle.log_run.specs.Starts.{Begins};
ghost use Rattle.log_causes.specs.internals.Opening.{IsEntryAt};

use crate::finding::Finding;
use grants::{SliceletCall, SliceletError, TableCall};
use job_calls::ClusterCall;
use lease_rule::{Ground, Verdict};
use log_line::{CallerReply, LinePosition, LogEntry, LoggedCall, LoggedLine, Words};
use log_run::{LogMachines, Start, answer};
use replies::{Refusal, Reply};
use std::alloc::{AllocError, Global};

/// An `open` line that a log may lack: a process of the task began there.
#[derive(Clone, Copy, Debug, PartialEq, Eq)]
pub struct MissingOpen {
    /// The index of the entry that the line should come before.
    pub index: usize,
    /// The task.
    pub task: u64,
    /// The greatest life of the task that entries before it name.
    pub life: u32,
}

// Returns the task that makes a call, or whose note the call frees.
fn task_of(call: &LoggedCall) -> Option<u64>
    ensures { result ≡ task_of call.now }
{
    match call {
        LoggedCall::Whole(
            ClusterCall::Task { task, .. }
            | ClusterCall::Serve { task, .. }
            | ClusterCall::Hold { task, .. }
            | ClusterCall::Check { task, .. },
        ) => Some(*task),
        LoggedCall::Whole(ClusterCall::Table(TableCall::Free { note, .. })) => {
            Some(note.task.number())
        }
        LoggedCall::HearBare { task, .. } => Some(*task),
        _ => None,
    }
}

// Whether an entry is a start of this task.
fn is_start(task: u64, entry: &LogEntry) -> bool
    ensures { result ≡ is_start task entry.now }
{
    match &entry.line.call {
        LoggedCall::Whole(
            ClusterCall::Task {
                task: by,
                call: SliceletCall::Start { .. },
            },
        ) => *by == task,
        _ => false,
    }
}

// Returns this index if the entry there is a start, otherwise that of the last one before.
fn later(last: Option<usize>, index: usize, here: bool) -> Option<usize>
    ensures { result ≡ (if here then Some index else last) }
{
    if here { Some(index) } else { last }
}

// Returns the index of the last start of this task.
fn last_start(task: u64, entries: &[LogEntry]) -> Option<usize>
    ensures value { result ≡ last_start task entries.now }
    ensures within { IfSome result (λ index. index < length entries.now) }
{
    let mut last = None;
    for index in 0..entries.len() {
        let entry = &entries[index];
        let here = is_start(task, entry);
        last = later(last, index, here);
    }
    last
}

// Returns the life of this task that an entry starts or opens with, or 0.
fn begun_life(task: u64, entry: &LogEntry) -> u32
    ensures { result ≡ begun_life task entry.now }
{
    match &entry.line.call {
        LoggedCall::Whole(
            ClusterCall::Task {
                task: by,
                call: SliceletCall::Start { life, .. } | SliceletCall::Resume { life },
            },
        ) if *by == task => *life,
        _ => 0,
    }
}

fn greater_of(life: u32, other: u32) -> u32
    ensures { result ≡ max life other }
{
    life.max(other)
}

// Returns the greatest life of this task that entries start or open with, or 0.
fn greatest_life(task: u64, entries: &[LogEntry]) -> u32
    ensures { result ≡ greatest_life task entries.now }
{
    let mut greatest = 0;
    for index in 0..entries.len() {
        let entry = &entries[index];
        let life = begun_life(task, entry);
        greatest = greater_of(greatest, life);
    }
    greatest
}

// Creates the entry of an `open`.
fn open_entry(alloc: Global, task: u64, life: u32) -> Result<LogEntry, AllocError>
    ensures { IfOk result (λ entry. entry ≡ open_entry task life) }
{
    let words = format!(in alloc; "opened {life}")?;
    let reply = Words::new(alloc, words.as_str())?;
    let call = SliceletCall::Resume { life };
    Ok(LogEntry {
        place: LinePosition { file: 0, line: 0 },
        line: LoggedLine {
            ticket: 0,
            call: LoggedCall::Whole(ClusterCall::Task { task, call }),
            reply,
        },
    })
}

// Returns an entry of those with `line` before the one at `place`.
fn entry_with<'a>(
    entries: &'a [LogEntry],
    line: &'a LogEntry,
    place: usize,
    index: usize,
) -> &'a LogEntry
    requires place { place ≤ length entries.now }
    requires index { index ≤ length entries.now }
    ensures { IsEntryAt (with_open place line.now entries.now) index result.now }
{
    if index < place {
        &entries[index]
    } else if index == place {
        line
    } else {
        &entries[index - 1]
    }
}

// Whether entries are one run, with `line` before the one at `place`.
fn is_run_with(
    alloc: Global,
    start: &Start,
    entries: &[LogEntry],
    line: &LogEntry,
    place: usize,
) -> Result<bool, AllocError>
    requires { place ≤ length entries.now }
    ensures { (job : Continued) → Begins job start.now → IfOk result (IsJudgedSo job (with_open place line.now entries.now)) }
{
    let mut machines = LogMachines::new(alloc, start, false)?;
    for index in 0..entries.len() + 1 {
        let entry = entry_with(entries, line, place, index);
        let other = answer(alloc, &mut machines, &entry.line)?;
        if let Some(_wanted) = other {
            machines.run_law();
            return Ok(false);
        }
    }
    machines.run_law();
    Ok(true)
}

// A task, and the life that an `open` of it names.
#[derive(Clone, Copy)]
struct Opening {
    task: u64,
    life: u32,
}

// Whether entries are one run, with an `open` before the one at `index`.
fn is_run_opened(
    alloc: Global,
    start: &Start,
    entries: &[LogEntry],
    opening: Opening,
    index: usize,
) -> Result<bool, AllocError>
    requires { index ≤ length entries.now }
    ensures { (job : Continued) → Begins job start.now → IfOk result (IsJudgedSo job
        (with_open index (open_entry opening.task opening.life) entries.now)) }
{
    let line = open_entry(alloc, opening.task, opening.life)?;
    let is_run = is_run_with(alloc, start, entries, &line, index)?;
    Ok(is_run)
}

// Returns the hint of an `open` before the entry at `index`, if entries are one run with it.
fn hint_at(
    alloc: Global,
    start: &Start,
    entries: &[LogEntry],
    task: u64,
    index: usize,
) -> Result<Option<MissingOpen>, AllocError>
    requires { index ≤ length entries.now }
    ensures { (job : Continued) → Begins job start.now → IfOk result (IsTried job entries.now task index) }
{
    let life = greatest_life(task, &entries[..index]);
    if is_run_opened(alloc, start, entries, Opening { task, life }, index)? {
        Ok(Some(MissingOpen { index, task, life }))
    } else {
        Ok(None)
    }
}

// Returns the hint of an `open` before the task's last start, or else before the last entry, which
// is at `index`.
fn hint_of(
    alloc: Global,
    start: &Start,
    entries: &[LogEntry],
    task: u64,
    index: usize,
) -> Result<Option<MissingOpen>, AllocError>
    requires { index ≤ length entries.now }
    ensures { (job : Continued) → Begins job start.now → IfOk result (IsHintOf job entries.now task (last_start task entries.now) index) }
{
    if let Some(last) = last_start(task, entries) {
        let hint = hint_at(alloc, start, entries, task, last)?;
        if hint.is_some() {
            return Ok(hint);
        }
    }
    let hint = hint_at(alloc, start, entries, task, index)?;
    Ok(hint)
}

/// Returns the `open` line that a log may lack, if there is one.
///
/// There is one if the finding is a call of a task, or one that frees a note of a task, whose
/// caller got a wrong reply, and the calls up to this one are a run with the line before the task's
/// last start, or else before this call.
pub fn hint_for(
    alloc: Global,
    start: &Start,
    entries: &[LogEntry],
    finding: &Finding,
) -> Result<Option<MissingOpen>, AllocError>
    ensures { (job : Continued) → Begins job start.now → IfOk result (IsHinted job entries.now finding.now) }
{
    let Finding::Other { index, .. } = finding else {
        return Ok(None);
    };
    let Some(entry) = entries.get(*index) else {
        return Ok(None);
    };
    let Some(task) = task_of(&entry.line.call) else {
        return Ok(None);
    };
    hint_of(alloc, start, &entries[..*index + 1], task, *index)
}

// Whether the right reply is that the task was not started.
fn is_down(wanted: &CallerReply) -> bool
    ensures { result ≡ is_down wanted.now }
{
    let CallerReply::Scripted(reply) = wanted else {
        return false;
    };
    match reply {
        Reply::Verdict(verdict) => matches!(verdict, Verdict::Deny(Ground::Down)),
        Reply::Refused(refusal) => {
            matches!(refusal, Refusal::Slicelet(SliceletError::NotStarted))
        }
        _ => false,
    }
}

/// Returns the task whose start the log may lack: that of the finding's call, if the right reply is
/// that the task was not started.
pub fn unstarted(entries: &[LogEntry], finding: &Finding) -> Option<u64>
    ensures { result ≡ unstarted entries.now finding.now }
{
    let Finding::Other { index, wanted, .. } = finding else {
        return None;
    };
    let entry = entries.get(*index)?;
    if is_down(wanted) {
        task_of(&entry.line.call)
    } else {
        None
    }
}
