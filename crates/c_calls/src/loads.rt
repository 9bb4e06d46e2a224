//! The calls of a load book.

ghost use Rattle.std.specs.Prelude.{◌≡◌, ◌≤◌, ◌∷◌, [], IfOk, None, length};
ghost use Rattle.machines.specs.Refusals.{first_of};
ghost use Rattle.load_ledger.specs.Books.{gather_checks};
ghost use Rattle.c_calls.specs.Arguments.{task_of};
ghost use Rattle.c_calls.specs.Outputs.{output};
ghost use Rattle.c_calls.specs.Gathers.{AreRecordsGathered, IsGatheredUnless, IsShareGathered, IsTotalTold};
ghost use Rattle.c_calls.specs.LoadRecords.{no_share, share_of};

mod record_numbers;

use self::record_numbers::{are_above, no_share, share_of, trouble_answer};
use crate::answer::Answer;
use crate::arguments::task_of;
use crate::output::give;
use crate::unread::unread_answer;
use assignment::Assignment;
use load_ledger::{LoadBook, LoadError, LoadShare};
use machines::Listed;
pub use record_numbers::RecordNumbers;
use std::alloc::{AllocError, Global};
use wire::{JobName, decode};

fn one_share(alloc: Global, share: LoadShare) -> Result<Vec<LoadShare>, AllocError>
    ensures { IfOk result (λ shares. shares.items ≡ share ∷ []) }
{
    let mut shares = Vec::new(alloc);
    shares.push(share)?;
    Ok(shares)
}

// Gathers a share that is not refused over an assignment, and writes the load of each slice.
fn gather_share(
    alloc: Global,
    book: &mut LoadBook,
    assignment: &Assignment,
    share: LoadShare,
    loads: &mut [u64],
    needed: &mut usize,
) -> Answer
    requires room { length assignment.now.slices ≤ length loads.old }
    requires accepted { first_of (gather_checks (share ∷ []) book.old) ≡ None }
    ensures { IsShareGathered share assignment.now.slices book.old book.new
        (output loads.old needed.old) (output loads.new needed.new) result }
{
    let Ok(shares) = one_share(alloc, share) else {
        return Answer::NoMemory;
    };
    match book.gather(alloc, Listed::from_vec(shares), assignment) {
        Ok(given) => give(given.as_slice(), loads, needed),
        Err(refused) => trouble_answer(refused.why),
    }
}

// Gathers the records of a task over an assignment. Refusals and the room come before memory.
fn gather_over(
    alloc: Global,
    book: &mut LoadBook,
    assignment: &Assignment,
    task: u64,
    records: &[RecordNumbers],
    loads: &mut [u64],
    needed: &mut usize,
) -> Answer
    ensures { IsGatheredUnless (no_share task records.now) (share_of task records.now) assignment.now.slices book.old book.new
        (output loads.old needed.old) (output loads.new needed.new) result }
{
    if let Some(answer) = no_share(task, records) {
        return answer;
    }
    if are_above(book.left(), records) {
        return Answer::Load(LoadError::TotalRange);
    }
    let slices = assignment.slices().len();
    if loads.len() < slices {
        *needed = slices;
        return Answer::NoRoom;
    }
    match share_of(alloc, task, records) {
        Ok(share) => gather_share(alloc, book, assignment, share, loads, needed),
        Err(answer) => answer,
    }
}

/// Adds the records of a task to the book, and writes the load that they are of each slice of an
/// assignment to `loads`, in the order of the slices.
///
/// `assignment` is the message of an assignment of the job.
///
/// # Errors
///
/// In this order: why the bytes are not decoded; `WrongForm` if the number is no task's or a record
/// has no slice key; the refusal of a weight; that of the total; `NoRoom`; `NoMemory`. Each is looked
/// for in all records before the next one. An error leaves the book unchanged.
pub fn gather(
    alloc: Global,
    job: &JobName,
    book: &mut LoadBook,
    assignment: &[u8],
    task: u64,
    records: &[RecordNumbers],
    loads: &mut [u64],
    needed: &mut usize,
) -> Answer
    ensures { AreRecordsGathered job.now assignment.now task records.now book.old book.new
        (output loads.old needed.old) (output loads.new needed.new) result }
{
    match decode::<Assignment>(alloc, job, assignment) {
        Ok(assignment) => gather_over(alloc, book, &assignment, task, records, loads, needed),
        Err(why) => unread_answer(why),
    }
}

/// Writes the total weight of the work that a task has done to `out`. `WrongForm` if the number is
/// no task's.
pub fn total(book: &LoadBook, task: u64, out: &mut u64) -> Answer
    ensures { IsTotalTold (task_of task) book.now out.old out.new result }
{
    match task_of(task) {
        Some(task) => {
            *out = book.total(task);
            Answer::Done
        }
        None => Answer::WrongForm,
    }
}
