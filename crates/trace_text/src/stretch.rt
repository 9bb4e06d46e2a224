//! The lines of stretches.

ghost use Rattle.std.specs.Prelude.{◌≡◌, IfOk, option_map};
ghost use Rattle.trace_text.specs.Ends.{stretch_lines, stretch_lines_after, task_stretch_lines};

use machines::Listed;
use reason_values::stretch_line;
use std::alloc::{AllocError, Global};
use stretches::Stretch;

// Writes the line of each stretch of a task.
fn task_lines(alloc: Global, task: u64, stretches: &[Stretch]) -> Result<Vec<u8>, AllocError>
    ensures { IfOk result (λ text. text.items ≡ task_stretch_lines task stretches.now) }
{
    let mut text = Vec::new(alloc);
    for stretch in stretches {
        let line = stretch_line(alloc, task, stretch)?;
        text.extend_from_slice(line.as_slice())?;
    }
    Ok(text)
}

// Writes the lines of the stretches of these tasks, task 1 first.
fn lines_of_tasks(alloc: Global, tasks: &[Listed<Stretch>]) -> Result<Vec<u8>, AllocError>
    ensures { IfOk result (λ text. text.items ≡ stretch_lines_after 0 tasks.now) }
{
    let mut text = Vec::new(alloc);
    for (i, stretches) in tasks.iter().enumerate() {
        let lines = task_lines(alloc, i as u64 + 1, stretches.as_slice())?;
        text.extend_from_slice(lines.as_slice())?;
    }
    Ok(text)
}

/// Writes the lines of the stretches of each task, if there is a key.
pub fn stretch_lines(
    alloc: Global,
    stretches: &Option<Vec<Listed<Stretch>>>,
) -> Result<Vec<u8>, AllocError>
    ensures { IfOk result (λ text. text.items ≡ stretch_lines (option_map (λ tasks. tasks.items) stretches.now)) }
{
    match stretches {
        Some(tasks) => lines_of_tasks(alloc, tasks.as_slice()),
        None => Ok(Vec::new(alloc)),
    }
}
