//! A call, what it returned and what it wrote, as numbers.

use c_calls::AnswerDetails;
use c_calls::clerks::OwnersNumbers;
use c_calls::slicelets::HandleNumbers;
use c_calls::tables::{PhaseNumbers, TermNumbers};

/// A call of a service, what it returned and what it wrote.
///
/// Each call uses some of the fields; the others are not looked at.
#[repr(C)]
#[derive(Clone, Copy, Debug, PartialEq, Eq)]
pub struct LoggedNumbers {
    /// The ticket: the place of the call among all calls of the job.
    pub ticket: u64,
    /// Which call it was: the number of a [`CallName`](crate::CallName).
    pub call: u32,
    /// The code that it returned.
    pub code: i32,
    /// The task whose slicelet was called, or for which a grant was asked.
    pub task: u64,
    /// The clerk that was called, by its number in the job, from 1.
    pub clerk: u64,
    /// The assigner that took the job lease.
    pub assigner: u64,
    /// The number of the term under which a call was made.
    pub term: u64,
    /// The reading that was passed, in ticks. Of a sample, the local reading when it was taken.
    pub at: u64,
    /// The slice key of the key that was passed.
    pub slice_key: u64,
    /// The life that was passed.
    pub life: u32,
    /// The kind of lease that was passed: 1 for guard, 2 for bridge.
    pub kind: u32,
    /// How many rows were freed or lost.
    pub count: u64,
    /// What the call told.
    pub told: AnswerDetails,
    /// The term that was given.
    pub job_term: TermNumbers,
    /// The phase that was written.
    pub phase: PhaseNumbers,
    /// The handle that was checked or written.
    pub handle: HandleNumbers,
    /// The owners that were written.
    pub owners: OwnersNumbers,
    /// Of a sample, the local reading before its request was sent, in ticks.
    pub sent: u64,
    /// Of a sample, the table's reading in the answer, in ticks.
    pub reading: u64,
}
