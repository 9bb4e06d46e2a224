//! Reading a snapshot.

ghost use Rattle.std.specs.Prelude.{IfErr, IfOk, OnOk};
ghost use Rattle.job_calls.specs.declared.snapshot.ClusterSnapshot.{ClusterSnapshot as Snapshot};
ghost use Rattle.snapshot_text.specs.Lines.{AreNext, AreNot, HasLine, IsNext, IsNot, form_of};
ghost use Rattle.snapshot_text.specs.Texts.{IsReadAs, IsText, IsTextFault, NextTask, NoTask, AreTasks, AreNoTasks};

use crate::error::SnapshotError;
use crate::head::Head;
use crate::lines::Lines;
use crate::task_head::TaskHead;
use grants::{Kept, SliceletCall, TableSnapshot};
use job_calls::{ClusterSnapshot, TaskSnapshot};
use machines::Listed;
use std::alloc::Global;
use wire::{DecodeError, JobName, Wire, decode};

// Reads the next line as a value.
fn next_value<T: Wire>(alloc: Global, job: &JobName, lines: &mut Lines) -> Result<T, SnapshotError>
    ensures ok { IfOk result (λ x. IsNext job.now (form_of T.name T.data_of T.form) lines.old x lines.new) }
    ensures err { IfErr result (IsNot job.now (form_of T.name T.data_of T.form) lines.old) }
    ensures there { OnOk result (HasLine lines.old) }
{
    let Some(line) = lines.take() else {
        return Err(SnapshotError::Short);
    };
    match decode::<T>(alloc, job, line) {
        Ok(value) => Ok(value),
        Err(DecodeError::Refused(why)) => Err(SnapshotError::Line {
            number: lines.number(),
            why,
        }),
        Err(DecodeError::NoMemory) => Err(SnapshotError::Memory),
    }
}

// Reads the next lines as so many values.
fn next_values<T: Wire>(
    alloc: Global,
    job: &JobName,
    count: u64,
    lines: &mut Lines,
) -> Result<Vec<T>, SnapshotError>
    ensures ok { IfOk result (λ xs. AreNext job.now (form_of T.name T.data_of T.form) count lines.old xs.items lines.new) }
    ensures err { IfErr result (AreNot job.now (form_of T.name T.data_of T.form) count lines.old) }
{
    let mut values = Vec::new(alloc);
    for _taken in 0..count {
        values.push(next_value(alloc, job, lines)?)?;
    }
    Ok(values)
}

// Reads the next lines as a task.
fn next_task(alloc: Global, job: &JobName, lines: &mut Lines) -> Result<TaskSnapshot, SnapshotError>
    ensures ok { IfOk result (λ task. NextTask job.now lines.old task lines.new) }
    ensures err { IfErr result (NoTask job.now lines.old) }
    ensures there { OnOk result (HasLine lines.old) }
{
    let head: TaskHead = next_value(alloc, job, lines)?;
    let calls: Vec<SliceletCall> = next_values(alloc, job, head.calls, lines)?;
    Ok(TaskSnapshot {
        life: head.life,
        calls: Listed::from_vec(calls),
    })
}

// Reads the next lines as so many tasks.
fn next_tasks(
    alloc: Global,
    job: &JobName,
    count: u64,
    lines: &mut Lines,
) -> Result<Vec<TaskSnapshot>, SnapshotError>
    ensures ok { IfOk result (λ tasks. AreTasks job.now count lines.old tasks.items lines.new) }
    ensures err { IfErr result (AreNoTasks job.now count lines.old) }
{
    let mut tasks = Vec::new(alloc);
    for _taken in 0..count {
        tasks.push(next_task(alloc, job, lines)?)?;
    }
    Ok(tasks)
}

// Reads the parts of a snapshot, one after another.
fn parts_of(alloc: Global, job: &JobName, text: &[u8]) -> Result<ClusterSnapshot, SnapshotError>
    ensures ok { IfOk result (λ snapshot. IsText job.now text.now snapshot) }
    ensures err { IfErr result (IsTextFault job.now text.now) }
{
    let mut lines = Lines::new(text);
    let head: Head = next_value(alloc, job, &mut lines)?;
    let kept: Kept = next_value(alloc, job, &mut lines)?;
    let rows = next_values(alloc, job, head.rows, &mut lines)?;
    let tasks = next_tasks(alloc, job, head.tasks, &mut lines)?;
    let clerks = next_values(alloc, job, head.clerks, &mut lines)?;
    let grants = next_values(alloc, job, head.grants, &mut lines)?;
    let assignments = next_values(alloc, job, head.assignments, &mut lines)?;
    let notes = next_values(alloc, job, head.notes, &mut lines)?;
    let handles = next_values(alloc, job, head.handles, &mut lines)?;
    if !lines.is_empty() {
        return Err(SnapshotError::Long);
    }
    Ok(ClusterSnapshot {
        table: TableSnapshot {
            kept,
            grace: head.grace,
            rows,
        },
        tasks,
        clerks,
        grants,
        assignments,
        notes,
        handles,
        notes_made: head.notes_made,
        handles_made: head.handles_made,
        table_reading: head.table_reading,
    })
}

/// Reads a snapshot from its text.
///
/// The text that [`snapshot_text`](crate::snapshot_text) writes of a snapshot gives the same
/// snapshot, unless memory runs out or a line is longer than [`MOST_BYTES`](wire::MOST_BYTES).
///
/// # Errors
///
/// The first line that is not the part that is due there, `Short` if there is none, or `Long` if
/// something follows the last part; or out of memory, which is possible only at a line that is there and
/// not too long, after parts that are all read. No machines may stand at a snapshot that is
/// read: `Cluster::resume` checks that.
pub fn snapshot_of(
    alloc: Global,
    job: &JobName,
    text: &[u8],
) -> Result<ClusterSnapshot, SnapshotError>
    ensures ok { IfOk result (λ snapshot. IsText job.now text.now snapshot) }
    ensures err { IfErr result (IsTextFault job.now text.now) }
    ensures same { (snapshot : Snapshot) → IsText job.now text.now snapshot → IsReadAs snapshot result }
{
    parts_of(alloc, job, text)
}
