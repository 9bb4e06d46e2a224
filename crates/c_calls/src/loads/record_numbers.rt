//! Records of work as numbers, and the share of a task that has them.

ghost use Rattle.std.specs.Prelude.{◌≡◌, ◌≤◌, ℕ, nat_lt, IfErr, IfOk, None, OnOk, true};
ghost use Rattle.load_ledger.specs.declared.share.TheConstants.{MOST_TOTAL};
ghost use Rattle.std.specs.List.{list_all};
ghost use Rattle.load_ledger.specs.Shares.{share_total};
ghost use Rattle.c_calls.specs.LoadRecords.{IsUnadded, IsUnshared, has_slice_key, has_weight, no_share, share_of};
ghost use Rattle.c_calls.specs.Taken.{trouble_answer};

use crate::answer::Answer;
use crate::arguments::task_of;
use assignment::TaskId;
use load_ledger::{LoadError, LoadShare, MOST_TOTAL, MOST_WEIGHT};
use machines::Trouble;
use slice_ranges::{KEYS, SliceKey};
use std::alloc::Global;

/// A record that a task did some work for a key, as numbers.
#[repr(C)]
#[derive(Clone, Copy, Debug, PartialEq, Eq)]
pub struct RecordNumbers {
    /// The slice key of the key.
    pub slice_key: u64,
    /// The weight of the work.
    pub weight: u64,
}

// Whether each record has the slice key of some key.
fn have_slice_keys(records: &[RecordNumbers]) -> bool
    ensures { result ≡ list_all has_slice_key records.now }
{
    records.iter().all(|record| record.slice_key < KEYS)
}

// Whether each record has a weight within its limits.
fn have_weights(records: &[RecordNumbers]) -> bool
    ensures { result ≡ list_all has_weight records.now }
{
    records.iter().all(|record| 1 <= record.weight && record.weight <= MOST_WEIGHT)
}

/// Whether the weights of records add up to more than `most`.
pub(crate) fn are_above(most: u64, records: &[RecordNumbers]) -> bool
    ensures { (task : ℕ) → result ≡ nat_lt most (share_total (share_of task records.now)) }
{
    let mut left = most;
    for record in records {
        if left < record.weight {
            return true;
        }
        left -= record.weight;
    }
    false
}

// Adds records to the share of a task.
fn added(
    alloc: Global,
    task: TaskId,
    records: &[RecordNumbers],
) -> Result<LoadShare, Trouble<LoadError>>
    requires keys { list_all has_slice_key records.now ≡ true }
    requires weights { list_all has_weight records.now ≡ true }
    requires total { share_total (share_of task records.now) ≤ MOST_TOTAL }
    ensures made { IfOk result (λ share. share ≡ share_of task records.now) }
    ensures refused { IfErr result (IsUnadded (share_total (share_of task records.now))) }
{
    let mut share = LoadShare::new(alloc, task);
    for record in records {
        let key = SliceKey::new(record.slice_key).unwrap();
        if let Err(why) = share.add(key, record.weight) {
            return Err(why);
        }
    }
    Ok(share)
}

/// Returns the answer for a share that is not made or not gathered.
pub(crate) fn trouble_answer(trouble: Trouble<LoadError>) -> Answer
    ensures { result ≡ trouble_answer Answer.Load trouble }
{
    match trouble {
        Trouble::Refused(why) => Answer::Load(why),
        Trouble::NoMemory => Answer::NoMemory,
    }
}

/// Returns why numbers say no share of a task: `WrongForm` if the number is no task's, or a record
/// has no slice key; then the refusal of a weight. Returns `None` if they say one.
pub(crate) fn no_share(task: u64, records: &[RecordNumbers]) -> Option<Answer>
    ensures { result ≡ no_share task records.now }
{
    if task_of(task).is_none() || !have_slice_keys(records) {
        return Some(Answer::WrongForm);
    }
    if !have_weights(records) {
        return Some(Answer::Load(LoadError::WeightRange));
    }
    None
}

/// Returns the share of a task with records.
///
/// # Errors
///
/// In this order: those of [`no_share`], the refusal of the total, `NoMemory`.
pub(crate) fn share_of(
    alloc: Global,
    task: u64,
    records: &[RecordNumbers],
) -> Result<LoadShare, Answer>
    ensures made { IfOk result (λ share. share ≡ share_of task records.now) }
    ensures accepted { OnOk result (no_share task records.now ≡ None) }
    ensures refused { IfErr result (IsUnshared (no_share task records.now) (share_total (share_of task records.now))) }
{
    if let Some(answer) = no_share(task, records) {
        return Err(answer);
    }
    if are_above(MOST_TOTAL, records) {
        return Err(Answer::Load(LoadError::TotalRange));
    }
    added(alloc, task_of(task).unwrap(), records).map_err(trouble_answer)
}
