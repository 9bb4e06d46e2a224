//! Why calls of shared objects return no answer.

use history_lock::Busy;
use job_calls::CallRecord;

/// A refusal of a machine, with the record of the call.
#[derive(Debug, Drop)]
pub struct RefusedCall<Fault> {
    /// Why the machine refuses the call.
    pub fault: Fault,
    /// The record of the call, with the ticket that it drew.
    pub call: CallRecord,
}

/// Why a call that may write an entry failed, in the order in which the reasons are checked.
#[derive(Debug, Drop)]
pub enum CallError<Fault> {
    /// The ticket pass has drawn all numbers that it may. No lane was claimed.
    Spent,
    /// The history of the lock holds as many entries as it may. No ticket was drawn.
    HistoryFull,
    /// The machine refuses the call, for the reason in the record.
    Refused(RefusedCall<Fault>),
    /// Memory ran out for the write. A ticket may have been drawn.
    NoMemory,
}

/// Why a call that does not wait failed, in the order in which the reasons are checked.
#[derive(Clone, Copy, Debug, PartialEq, Eq)]
pub enum TryError {
    /// The ticket pass has drawn all numbers that it may. No lane was claimed.
    Spent,
    /// A lane was held. No ticket was drawn.
    Busy(Busy),
}

/// Why a call for the table's rows failed, in the order in which the reasons are checked.
#[derive(Clone, Copy, Debug, PartialEq, Eq)]
pub enum RowsError {
    /// The ticket pass has drawn all numbers that it may. No lane was claimed.
    Spent,
    /// Memory ran out for the rows. A ticket was drawn.
    NoMemory,
}

/// The answer of a call that writes no entry, with the record of the call.
#[derive(Debug, Drop)]
pub struct Recorded<Answer> {
    /// The answer.
    pub answer: Answer,
    /// The record of the call.
    pub call: CallRecord,
}
