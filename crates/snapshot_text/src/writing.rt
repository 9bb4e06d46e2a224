//! Writing a snapshot.

ghost use Rattle.std.specs.Prelude.{◌≡◌, ◌++◌, IfOk, OnOk};
ghost use Rattle.std.specs.List.{flat_map};
ghost use Rattle.snapshot_text.specs.Lines.{AreReadBack, IsReadBack, form_of, line_of, lines_of};
ghost use Rattle.snapshot_text.specs.Texts.{IsText, AreTasksReadBack, IsTaskReadBack, snapshot_text, task_text};

use crate::head::Head;
use crate::task_head::TaskHead;
use job_calls::{ClusterSnapshot, TaskSnapshot};
use std::alloc::{AllocError, Global};
use wire::{JobName, Wire, encode};

// Writes a value as a line at the end of a text.
fn write_line<T: Wire>(
    alloc: Global,
    job: &JobName,
    value: &T,
    text: &mut Vec<u8>,
) -> Result<(), AllocError>
    ensures line { OnOk result (text.new.items ≡ text.old.items ++ line_of job.now (form_of T.name T.data_of T.form) value.now) }
    ensures reads { OnOk result (IsReadBack job.now (form_of T.name T.data_of T.form) value.now) }
{
    let line = encode(alloc, job, value)?;
    text.extend_from_slice(line.as_slice())?;
    text.push(b'\n')?;
    Ok(())
}

// Writes each of the values as a line.
fn write_lines<T: Wire>(
    alloc: Global,
    job: &JobName,
    values: &[T],
    text: &mut Vec<u8>,
) -> Result<(), AllocError>
    ensures lines { OnOk result (text.new.items ≡ text.old.items ++ lines_of job.now (form_of T.name T.data_of T.form) values.now) }
    ensures reads { OnOk result (AreReadBack job.now (form_of T.name T.data_of T.form) values.now) }
{
    for value in values {
        write_line(alloc, job, value, text)?;
    }
    Ok(())
}

// Writes a task: its head, and its calls.
fn write_task(
    alloc: Global,
    job: &JobName,
    task: &TaskSnapshot,
    text: &mut Vec<u8>,
) -> Result<(), AllocError>
    ensures lines { OnOk result (text.new.items ≡ text.old.items ++ task_text job.now task.now) }
    ensures reads { OnOk result (IsTaskReadBack job.now task.now) }
{
    write_line(alloc, job, &TaskHead::new(task), text)?;
    write_lines(alloc, job, task.calls.as_slice(), text)?;
    Ok(())
}

// Writes each of the tasks.
fn write_tasks(
    alloc: Global,
    job: &JobName,
    tasks: &[TaskSnapshot],
    text: &mut Vec<u8>,
) -> Result<(), AllocError>
    ensures lines { OnOk result (text.new.items ≡ text.old.items ++ flat_map (task_text job.now) tasks.now) }
    ensures reads { OnOk result (AreTasksReadBack job.now tasks.now) }
{
    for task in tasks {
        write_task(alloc, job, task, text)?;
    }
    Ok(())
}

/// Writes a snapshot as text: a line for each part, each a message of the job.
///
/// [`snapshot_of`](crate::snapshot_of) reads it back. The only error is out of memory.
pub fn snapshot_text(
    alloc: Global,
    job: &JobName,
    snapshot: &ClusterSnapshot,
) -> Result<Vec<u8>, AllocError>
    ensures text { IfOk result (λ text. text.items ≡ snapshot_text job.now snapshot.now) }
    ensures reads { IfOk result (λ text. IsText job.now text.items snapshot.now) }
{
    let mut text = Vec::new(alloc);
    write_line(alloc, job, &Head::new(snapshot), &mut text)?;
    write_line(alloc, job, &snapshot.table.kept, &mut text)?;
    write_lines(alloc, job, &snapshot.table.rows, &mut text)?;
    write_tasks(alloc, job, &snapshot.tasks, &mut text)?;
    write_lines(alloc, job, &snapshot.clerks, &mut text)?;
    write_lines(alloc, job, &snapshot.grants, &mut text)?;
    write_lines(alloc, job, &snapshot.assignments, &mut text)?;
    write_lines(alloc, job, &snapshot.notes, &mut text)?;
    write_lines(alloc, job, &snapshot.handles, &mut text)?;
    Ok(text)
}
