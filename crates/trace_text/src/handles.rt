//! The lines of handles.

ghost use Rattle.std.specs.Prelude.{◌≡◌, IfOk};
ghost use Rattle.trace_text.specs.Ends.{handle_lines, task_handle_lines};

use reason_values::broken_line;
use std::alloc::{AllocError, Global};
use stretches::{JobHandles, TaskHandles};

// Writes the line of each handle that a task gave.
fn task_lines(alloc: Global, kept: &TaskHandles) -> Result<Vec<u8>, AllocError>
    ensures { IfOk result (λ text. text.items ≡ task_handle_lines kept.now) }
{
    let mut text = Vec::new(alloc);
    for given in kept.handles() {
        let line = broken_line(alloc, given)?;
        text.extend_from_slice(line.as_slice())?;
    }
    Ok(text)
}

/// Writes the line of each handle that was given, task by task.
pub fn handle_lines(alloc: Global, handles: &JobHandles) -> Result<Vec<u8>, AllocError>
    ensures { IfOk result (λ text. text.items ≡ handle_lines handles.now) }
{
    let mut text = Vec::new(alloc);
    for kept in handles.tasks() {
        let lines = task_lines(alloc, kept)?;
        text.extend_from_slice(lines.as_slice())?;
    }
    Ok(text)
}
