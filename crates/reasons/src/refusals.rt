//! Why calls are refused.

ghost use Rattle.std.specs.Prelude.{◌≡◌, IfOk};
ghost use Rattle.grants.specs.Assignments.{generation_of};
ghost use Rattle.grants.specs.Rows.{first_up_to};
ghost use Rattle.lease_table.specs.Tables.{Standing};
ghost use Rattle.slicelet.specs.States.{SliceletState};
ghost use Rattle.job_calls.specs.declared.call.ClusterCall.{ClusterCall};
ghost use Rattle.reasons.specs.declared.places.TaskPlaces.{TaskPlaces};
ghost use Rattle.reasons.specs.Questions.{question_of};
ghost use Rattle.reasons.specs.Reasons.{by_table, by_task, IsReasonOrNone};
ghost use Rattle.reasons.specs.internals.Answers.{IsTableRefusal, IsTaskRefusal};
ghost use Rattle.reasons.specs.internals.Refusing.{table_read_for, task_read_for, taken_for, passed_for, held_for, begun_for, heard_for, old_for};

use crate::question::Question;
use crate::reason::Reason;
use grants::{Row, SliceletError, TableError};
use lease_table::LeaseTable;
use slicelet::Slicelet;
use std::alloc::AllocError;

// Returns the first row of this generation or an older one that has not ended at a reading.
fn first_up_to(rows: &[Row], generation: u64, at: u64) -> Option<Row>
    ensures { result ≡ first_up_to generation at rows.now }
{
    rows.iter()
        .copied()
        .find(|row| row.generation <= generation && at < row.table_ends)
}

// Returns the committed generation, 0 for none.
fn committed_generation(table: &LeaseTable) -> u64
    ensures { result ≡ generation_of table.now.committed }
{
    match table.committed() {
        Some(assignment) => assignment.generation(),
        None => 0,
    }
}

// Returns the first open row of the committed generation or an older one that has not ended.
fn holding_row(table: &LeaseTable, at: u64) -> Result<Option<Row>, AllocError>
    ensures { IfOk result (λ row. row ≡ first_up_to (generation_of table.now.committed) at table.now.rows) }
{
    let generation = committed_generation(table);
    let rows = table.rows()?;
    Ok(first_up_to(rows.as_slice(), generation, at))
}

/// Returns why the table refuses a call, if the call and the refusal do not say everything.
pub(crate) fn table_reason(
    table: &LeaseTable,
    question: &Question,
    error: TableError,
) -> Result<Option<Reason>, AllocError>
    ensures { (c : ClusterCall) (s : SliceletState) (places : TaskPlaces) → question.now ≡ question_of c → IsTableRefusal table.now c error
        → IfOk result (IsReasonOrNone table.now s places c (by_table error)) }
{
    match error {
        TableError::ClockBack => Ok(table_reading_reason(table, question)),
        TableError::JobHeld { .. } => Ok(take_reason(table, question)),
        TableError::NotHolder { .. } => Ok(pass_reason(table, question)),
        TableError::Held { .. } => held_reason(table, question),
        _ => Ok(None),
    }
}

// Returns the last reading of the table, if it was called.
fn table_reading_reason(table: &LeaseTable, question: &Question) -> Option<Reason>
    ensures { result ≡ table_read_for table.now question.now }
{
    match question {
        Question::Take | Question::Pass | Question::Commit { .. } | Question::Table => {
            Some(Reason::TableReading(table.last_reading()))
        }
        _ => None,
    }
}

// Returns the last term, if the job lease was to be taken.
fn take_reason(table: &LeaseTable, question: &Question) -> Option<Reason>
    ensures { result ≡ taken_for table.now question.now }
{
    match question {
        Question::Take => Some(Reason::Term(table.job())),
        _ => None,
    }
}

// Returns the last term, if the call passes one.
fn pass_reason(table: &LeaseTable, question: &Question) -> Option<Reason>
    ensures { result ≡ passed_for table.now question.now }
{
    match question {
        Question::Pass | Question::Commit { .. } => Some(Reason::Term(table.job())),
        _ => None,
    }
}

// Returns the row that holds a commit up.
fn held_reason(table: &LeaseTable, question: &Question) -> Result<Option<Reason>, AllocError>
    ensures { IfOk result (λ reason. reason ≡ held_for table.now question.now) }
{
    let Question::Commit { at } = *question else {
        return Ok(None);
    };
    match holding_row(table, at)? {
        Some(row) => Ok(Some(Reason::Held(row))),
        None => Ok(None),
    }
}

/// Returns why a task refuses a call, if the call and the refusal do not say everything.
pub(crate) fn task_refusal_reason(
    slicelet: &Slicelet,
    question: &Question,
    error: SliceletError,
) -> Option<Reason>
    ensures { (t : Standing) (c : ClusterCall) (places : TaskPlaces) → question.now ≡ question_of c → IsTaskRefusal slicelet.now c error
        → IsReasonOrNone t slicelet.now places c (by_task error) result }
{
    match error {
        SliceletError::ClockBack => task_reading_reason(slicelet, question),
        SliceletError::OldLife => begin_reason(slicelet, question),
        SliceletError::OtherLife => hear_reason(slicelet, question),
        SliceletError::Old { heard } => old_reason(slicelet, question, heard),
        _ => None,
    }
}

// Returns the last reading of the task, if it was called.
fn task_reading_reason(slicelet: &Slicelet, question: &Question) -> Option<Reason>
    ensures { result ≡ task_read_for slicelet.now question.now }
{
    match question {
        Question::Hear { .. } | Question::Begin { .. } | Question::Release { .. } => {
            Some(Reason::TaskReading(slicelet.last_reading()))
        }
        _ => None,
    }
}

// Returns the life of the task, if one was to begin.
fn begin_reason(slicelet: &Slicelet, question: &Question) -> Option<Reason>
    ensures { result ≡ begun_for slicelet.now question.now }
{
    match question {
        Question::Begin { .. } => Some(Reason::Life(slicelet.life())),
        _ => None,
    }
}

// Returns the life of the task, if a grant was to be heard.
fn hear_reason(slicelet: &Slicelet, question: &Question) -> Option<Reason>
    ensures { result ≡ heard_for slicelet.now question.now }
{
    match question {
        Question::Hear { .. } => Some(Reason::Life(slicelet.life())),
        _ => None,
    }
}

// Returns why a grant is old.
fn old_reason(slicelet: &Slicelet, question: &Question, number: u64) -> Option<Reason>
    ensures { result ≡ old_for slicelet.now question.now number }
{
    match question {
        Question::Hear { kind, .. } => Some(Reason::Heard {
            kind: *kind,
            number,
            life: slicelet.life(),
        }),
        _ => None,
    }
}
