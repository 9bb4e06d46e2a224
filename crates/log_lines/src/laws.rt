//! Each refusal that the library tells is found again by its code and by what it told.

ghost use Rattle.std.specs.Prelude.{◌≡◌, Some, option_and_then};
ghost use Rattle.c_calls.specs.Arguments.{kind_of};
ghost use Rattle.c_calls.specs.AnswerNumbers.{ground_number, slicelet_number, table_number};
ghost use Rattle.c_calls.specs.Details.{ground_details, kind_number, slicelet_details, table_details};
ghost use Rattle.log_lines.specs.Coded.{code_of};
ghost use Rattle.log_lines.specs.Refusals.{ground_in, table_error_in, task_error_in};

use c_calls::AnswerDetails;
use grants::{SliceletError, TableError};
use lease_rule::{Ground, Kind};

/// States that why a key is denied is found by its code and what it tells.
pub fn ground_law(ground: Ground, told: &AnswerDetails)
    ensures { option_and_then (λ code. ground_in code (ground_details ground told.now)) (code_of (ground_number ground)) ≡ Some ground }
{
    let _ = told;
    match ground {
        Ground::Down => {}
        Ground::ClockBack => {}
        Ground::Ended => {}
        Ground::NotOwned { .. } => {}
        Ground::NoLease => {}
    }
}

/// States that why a slicelet refuses a call is found by its code and what it tells.
pub fn task_error_law(error: SliceletError, told: &AnswerDetails)
    ensures { option_and_then (λ code. task_error_in code (slicelet_details error told.now)) (code_of (slicelet_number error)) ≡ Some error }
{
    let _ = told;
    match error {
        SliceletError::ClockBack => {}
        SliceletError::NotStarted => {}
        SliceletError::OldLife => {}
        SliceletError::OtherTask => {}
        SliceletError::OtherLife => {}
        SliceletError::Old { .. } => {}
        SliceletError::TooLate => {}
        SliceletError::NothingHeld => {}
        SliceletError::HistoryFull => {}
    }
}

// States that a kind is found by its number.
fn kind_law(kind: Kind)
    ensures { kind_of (kind_number kind) ≡ Some kind }
{
    match kind {
        Kind::Guard => {}
        Kind::Bridge => {}
    }
}

/// States that why a table refuses a call is found by its code and what it tells.
pub fn table_error_law(error: TableError, told: &AnswerDetails)
    ensures { option_and_then (λ code. table_error_in code (table_details error told.now)) (code_of (table_number error)) ≡ Some error }
{
    let _ = told;
    match error {
        TableError::Held { task, kind, .. } => {
            let _task = task.number();
            kind_law(kind);
        }
        TableError::ClockBack => {}
        TableError::ReadingRange => {}
        TableError::JobHeld { .. } => {}
        TableError::NotHolder { .. } => {}
        TableError::StaleBase { .. } => {}
        TableError::Pending => {}
        TableError::NothingPending => {}
        TableError::TooManyOwnersForJob => {}
        TableError::Grace { .. } => {}
        TableError::NoRow => {}
        TableError::NoAssignment => {}
        TableError::NumbersSpent => {}
    }
}
