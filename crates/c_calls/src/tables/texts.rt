//! What a table gives by lists: messages and rows.

ghost use Rattle.std.specs.Prelude.{◌≡◌, ◌<◌, IfOk, IfErr, None, OnOk, length, map};
ghost use Rattle.machines.specs.Answers.{trouble_of};
ghost use Rattle.machines.specs.Refusals.{first_of};
ghost use Rattle.lease_table.specs.Steps.{grant_checks, grant_step, grant_with};
ghost use Rattle.c_calls.specs.Arguments.{nonzero, task_of};
ghost use Rattle.c_calls.specs.Messages.{IsGrantText};
ghost use Rattle.c_calls.specs.Outputs.{IsGivenUnlessMemory, output};
ghost use Rattle.c_calls.specs.Taken.{trouble_answer};
ghost use Rattle.c_calls.specs.tables.Rows.{row_numbers};
ghost use Rattle.c_calls.specs.tables.Texts.{IsCommittedGiven, IsGrantStep, IsGranted};

use super::row_numbers::{RowNumbers, numbers_of};
use crate::answer::Answer;
use crate::arguments::{life_of, task_of};
use crate::output::{give, give_made};
use assignment::TaskId;
use grants::{Grant, TableError};
use lease_table::LeaseTable;
use machines::Trouble;
use std::alloc::{AllocError, Global};
use wire::{JobName, encode};

// The grant that would be made next, and its message.
#[derive(Drop)]
struct Prepared {
    grant: Grant,
    text: Vec<u8>,
}

// Returns the grant that would be made next, and its message. The table is unchanged.
fn prepare(
    alloc: Global,
    job: &JobName,
    table: &mut LeaseTable,
    task: TaskId,
    life: u32,
    at: u64,
) -> Result<Prepared, Trouble<TableError>>
    ensures grant { IfOk result (λ next. next.grant ≡ grant_with table.old table.old.pending task life at) }
    ensures text { IfOk result (λ next. IsGrantText job.now next.grant next.text.items) }
    ensures accepted { OnOk result (first_of (grant_checks table.old at) ≡ None) }
    ensures refused { IfErr result (λ trouble. trouble ≡ trouble_of (first_of (grant_checks table.old at))) }
    ensures same { table.new ≡ table.old }
{
    let grant = table.next_grant(task, life, at)?;
    let text = encode(alloc, job, &grant)?;
    Ok(Prepared { grant, text })
}

// Returns the answer if no grant is made.
fn refused(trouble: Trouble<TableError>) -> Answer
    ensures { result ≡ trouble_answer Answer.Table trouble }
{
    match trouble {
        Trouble::Refused(why) => Answer::Table(why),
        Trouble::NoMemory => Answer::NoMemory,
    }
}

// Makes the next grant, which has this message, if the message fits in `out`. The message is made, so
// a buffer that is too short is `NoRoom`, and memory is taken for no row.
fn make(
    job: &JobName,
    table: &mut LeaseTable,
    grant: &Grant,
    at: u64,
    text: &[u8],
    out: &mut [u8],
    needed: &mut usize,
) -> Answer
    requires text { IsGrantText job.now grant.now text.now }
    requires next { grant.now ≡ grant_with table.old table.old.pending grant.now.task grant.now.life at }
    requires accepted { first_of (grant_checks table.old at) ≡ None }
    ensures step { IsGrantStep job.now (grant_step table.old grant.now.task grant.now.life at) table.old table.new
        (output out.old needed.old) (output out.new needed.new) result }
    ensures short { length out.old < length text.now → (result ≡ Answer.NoRoom) × (needed.new ≡ length text.now) }
{
    let _ = job;
    if out.len() < text.len() {
        return give(text, out, needed);
    }
    match table.make(grant, at) {
        Ok(()) => give(text, out, needed),
        Err(_) => Answer::NoMemory,
    }
}

/// Grants a task a lease for one of its lives, and writes the message of the grant to `out`.
///
/// `WrongForm` if `task` is not 1 to 64 or `life` is 0. If the message does not fit, no grant is
/// made.
pub fn grant(
    alloc: Global,
    job: &JobName,
    table: &mut LeaseTable,
    task: u64,
    life: u32,
    at: u64,
    out: &mut [u8],
    needed: &mut usize,
) -> Answer
    ensures { IsGranted job.now (task_of task) (nonzero life) at table.old table.new
        (output out.old needed.old) (output out.new needed.new) result }
{
    let Some(task) = task_of(task) else {
        return Answer::WrongForm;
    };
    let Some(life) = life_of(life) else {
        return Answer::WrongForm;
    };
    match prepare(alloc, job, table, task, life, at) {
        Ok(next) => make(job, table, &next.grant, at, &next.text, out, needed),
        Err(trouble) => refused(trouble),
    }
}

/// Writes the rows that have not ended at the last accepted reading to `out`, in grant order.
pub fn rows(alloc: Global, table: &LeaseTable, out: &mut [RowNumbers], needed: &mut usize) -> Answer
    ensures { IsGivenUnlessMemory (map row_numbers table.now.rows)
        (output out.old needed.old) (output out.new needed.new) result }
{
    give_made(written_rows(alloc, table), out, needed)
}

fn written_rows(alloc: Global, table: &LeaseTable) -> Result<Vec<RowNumbers>, AllocError>
    ensures { IfOk result (λ rows. rows.items ≡ map row_numbers table.now.rows) }
{
    numbers_of(alloc, &table.rows()?)
}

/// Writes the message of the committed assignment to `out`.
pub fn committed(
    alloc: Global,
    job: &JobName,
    table: &LeaseTable,
    out: &mut [u8],
    needed: &mut usize,
) -> Answer
    ensures { IsCommittedGiven job.now table.now.committed
        (output out.old needed.old) (output out.new needed.new) result }
{
    let Some(assignment) = table.committed() else {
        return Answer::Table(TableError::NoAssignment);
    };
    give_made(encode(alloc, job, assignment), out, needed)
}
