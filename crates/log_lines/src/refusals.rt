//! Why calls were refused, by their codes and by what they told.

ghost use Rattle.std.specs.Prelude.{◌≡◌};
ghost use Rattle.log_lines.specs.Refusals.{ground_in, held_in, refusal_in, table_error_in, task_error_in};

use crate::arguments::{kind_of, task_of};
use crate::call_name::CallName;
use c_calls::AnswerDetails;
use clerk::ClerkError;
use grants::{SliceletError, TableError};
use job_calls::{ClusterError, ClusterReply};
use lease_rule::{Ground, Verdict};

/// Returns why a key is not served.
pub fn ground_in(code: u32, told: &AnswerDetails) -> Option<Ground>
    ensures { result ≡ ground_in code told.now }
{
    Some(match code {
        1 => Ground::Down,
        2 => Ground::ClockBack,
        3 => Ground::Ended,
        4 => Ground::NotOwned {
            generation: told.generation,
        },
        5 => Ground::NoLease,
        _ => return None,
    })
}

/// Returns why a slicelet refuses a call.
pub fn task_error_in(code: u32, told: &AnswerDetails) -> Option<SliceletError>
    ensures { result ≡ task_error_in code told.now }
{
    Some(match code {
        2 => SliceletError::ClockBack,
        6 => SliceletError::NotStarted,
        7 => SliceletError::OldLife,
        8 => SliceletError::OtherTask,
        9 => SliceletError::OtherLife,
        10 => SliceletError::Old { heard: told.number },
        11 => SliceletError::TooLate,
        12 => SliceletError::NothingHeld,
        13 => SliceletError::HistoryFull,
        _ => return None,
    })
}

fn held_in(told: &AnswerDetails) -> Option<TableError>
    ensures { result ≡ held_in told.now }
{
    let task = task_of(told.task)?;
    let kind = kind_of(told.kind)?;
    Some(TableError::Held {
        task,
        kind,
        number: told.number,
    })
}

/// Returns why a table refuses a call.
pub fn table_error_in(code: u32, told: &AnswerDetails) -> Option<TableError>
    ensures { result ≡ table_error_in code told.now }
{
    Some(match code {
        2 => TableError::ClockBack,
        16 => TableError::ReadingRange,
        17 => TableError::JobHeld { until: told.until },
        18 => TableError::NotHolder { term: told.number },
        19 => TableError::StaleBase {
            generation: told.generation,
        },
        20 => TableError::Pending,
        21 => TableError::NothingPending,
        22 => TableError::TooManyOwnersForJob,
        23 => TableError::Grace { until: told.until },
        24 => return held_in(told),
        25 => TableError::NoRow,
        26 => TableError::NoAssignment,
        27 => TableError::NumbersSpent,
        _ => return None,
    })
}

/// Returns the reply of the machines to a call that is not done.
pub fn refusal_in(name: CallName, code: u32, told: &AnswerDetails) -> Option<ClusterReply>
    ensures { result ≡ refusal_in name code told.now }
{
    Some(match (name, code) {
        (CallName::Table(_), _) => {
            ClusterReply::Refused(ClusterError::Table(table_error_in(code, told)?))
        }
        (CallName::Task(_), _) => {
            ClusterReply::Refused(ClusterError::Slicelet(task_error_in(code, told)?))
        }
        (CallName::Serve | CallName::Hold, _) => {
            ClusterReply::Verdict(Verdict::Deny(ground_in(code, told)?))
        }
        (CallName::Check, 14) => ClusterReply::Broken,
        (CallName::Check, 15) => ClusterReply::Refused(ClusterError::Stranger),
        (CallName::Learn, 28) => ClusterReply::Refused(ClusterError::Clerk(ClerkError::Old {
            generation: told.generation,
        })),
        (CallName::Look, 29) => ClusterReply::Refused(ClusterError::Unknown),
        _ => return None,
    })
}
