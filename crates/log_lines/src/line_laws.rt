//! What is written of a line is read as the line.

ghost use Rattle.log_line.specs.declared.line.LoggedCall.TheVariants as logged;
ghost use Rattle.job_calls.specs.declared.call.ClusterCall.TheVariants as cluster_call;
ghost use Rattle.log_lines.specs.Lines.{IsReadBack};

use clerk::ClerkCall;
use grants::{SliceletCall, TableCall};
use job_calls::ClusterCall;
use log_line::LoggedCall;

// States that a line of a call of the table is read as the call.
fn table_law(ticket: u64, call: &TableCall, words: &str)
    ensures { IsReadBack ticket (logged.Whole (cluster_call.Table call.now)) words.now }
{
    let _ = ticket;
    let _ = words;
    match call {
        TableCall::Propose { assignment, .. } => {
            let _slices = assignment.slices();
        }
        TableCall::Grant { task, life, .. } => {
            let _life = *life;
            let _task = task.number();
        }
        TableCall::Free { note, .. } => {
            let _life = note.life;
            let _task = note.task.number();
        }
        TableCall::JobTake { .. } => {}
        TableCall::JobRenew { .. } => {}
        TableCall::Commit { .. } => {}
        TableCall::Restart => {}
    }
}

// States that a line of a call of a task is read as the call.
fn task_law(ticket: u64, task: u64, call: &SliceletCall, words: &str)
    ensures { IsReadBack ticket (logged.Whole (cluster_call.Task task call.now)) words.now }
{
    let _ = (ticket, task);
    let _ = words;
    match call {
        SliceletCall::Start { life, .. } => {
            let _life = *life;
        }
        SliceletCall::Hear { grant, .. } => {
            let _life = grant.life;
            let _task = grant.task.number();
            let _boundaries = grant.lease.ranges.boundaries();
        }
        SliceletCall::Release { .. } => {}
        SliceletCall::Resume { life } => {
            let _life = *life;
        }
    }
}

// States that a line of a call of a clerk is read as the call.
fn clerk_law(ticket: u64, clerk: u64, call: &ClerkCall, words: &str)
    ensures { IsReadBack ticket (logged.Whole (cluster_call.Clerk clerk call.now)) words.now }
{
    let _ = (ticket, clerk);
    let _ = words;
    match call {
        ClerkCall::Learn(assignment) => {
            let _slices = assignment.slices();
        }
        ClerkCall::Forget => {}
    }
}

// States that a line of a call of the machines is read as the call.
fn machine_law(ticket: u64, call: &ClusterCall, words: &str)
    ensures { IsReadBack ticket (logged.Whole call.now) words.now }
{
    match call {
        ClusterCall::Table(call) => table_law(ticket, call, words),
        ClusterCall::Task { task, call } => task_law(ticket, *task, call, words),
        ClusterCall::Clerk { clerk, call } => clerk_law(ticket, *clerk, call, words),
        ClusterCall::Phase => {}
        ClusterCall::Rows => {}
        ClusterCall::Serve { key, .. } => {
            let _key = key.value();
        }
        ClusterCall::Hold { key, .. } => {
            let _key = key.value();
        }
        ClusterCall::Check { handle, .. } => {
            let _life = handle.life;
            let _task = handle.task.number();
            let _key = handle.key.value();
        }
        ClusterCall::Look { key, .. } => {
            let _key = key.value();
        }
    }
}

/// States that the line of a call, with the words that its caller was told, is read as these.
pub fn line_law(ticket: u64, call: &LoggedCall, words: &str)
    ensures { IsReadBack ticket call.now words.now }
{
    match call {
        LoggedCall::Whole(call) => machine_law(ticket, call, words),
        LoggedCall::HearBare { grant, .. } => {
            let _life = grant.life;
            let _task = grant.task.number();
        }
        LoggedCall::LearnBare { .. } => {}
        LoggedCall::Restore(_) => {}
        LoggedCall::Sample(_) => {}
    }
}
