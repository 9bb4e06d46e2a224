//! Assignments as numbers.

ghost use Rattle.std.specs.Prelude.{◌≡◌, ◌≤◌, IfErr, IfOk, None, OnOk, Some, codes, length, map, slice_index};
ghost use Rattle.machines.specs.Answers.{trouble_of};
ghost use Rattle.assignment.specs.declared.slice.TheConstants.{MOST_OWNERS};
ghost use Rattle.assignment.specs.Owners.{built, slice_at};
ghost use Rattle.assignment.specs.Slices.{refusal_of};
ghost use Rattle.wire.specs.Assignments.{assignment_of};
ghost use Rattle.c_calls.specs.Arguments.{slice_key_of};
ghost use Rattle.c_calls.specs.Jobs.{job_of};
ghost use Rattle.c_calls.specs.Messages.{IsAssignmentText};
ghost use Rattle.c_calls.specs.Outputs.{output};
ghost use Rattle.c_calls.specs.Reading.{IsReadFrom};
ghost use Rattle.c_calls.specs.Assignments.{IsAssignmentRead, IsAssignmentTold, IsBuiltFor, IsSliceRead, IsSliceTold, owner_numbers, slice_numbers, slice_of, slices_of};

mod slice_checks;

use self::slice_checks::slices_refusal;
use crate::answer::Answer;
use crate::arguments::slice_key_of;
use crate::job::job_of;
use crate::output::give;
use crate::unread::unread_answer;
use assignment::{Assignment, AssignmentError, MOST_OWNERS, OwnedSlice, Slice, TaskId};
use machines::{Listed, Trouble};
use slice_ranges::SliceKey;
use std::alloc::{AllocError, Global};
use wire::{DecodeRefusal, JobName, decode, encode};

/// A slice of an assignment, as numbers: the first `count` of `tasks` own its keys.
#[repr(C)]
#[derive(Clone, Copy, Debug, PartialEq, Eq)]
pub struct SliceNumbers {
    /// The first slice key of the slice.
    pub start: u64,
    /// How many tasks own its keys.
    pub count: u64,
    /// The owners, then zeros.
    pub tasks: [u64; MOST_OWNERS],
}

impl SliceNumbers {
    /// Returns the numbers of a slice, with its owners in rising order.
    pub fn of(slice: &OwnedSlice) -> Self
        ensures { result ≡ slice_numbers slice.now }
    {
        let owners = slice.owners();
        SliceNumbers {
            start: slice.start().value(),
            count: owners.len() as u64,
            tasks: owner_numbers(owners),
        }
    }

    // Returns the slice. The tasks after the first `count` are left out; a `count` above the greatest
    // number of owners gives a slice that has too many.
    fn slice(&self, alloc: Global) -> Result<Slice, AllocError>
        ensures { IfOk result (λ slice. slice ≡ slice_of self.now) }
    {
        Ok(Slice {
            start: self.start,
            owners: Listed::from_vec(self.owners(alloc)?),
        })
    }

    fn owners(&self, alloc: Global) -> Result<Vec<u64>, AllocError>
        ensures { IfOk result (λ owners. owners.items ≡ (slice_of self.now).owners) }
    {
        if self.count <= MOST_OWNERS as u64 {
            return Vec::from_slice(alloc, &self.tasks[..self.count as usize]);
        }
        let mut owners = Vec::from_slice(alloc, &self.tasks)?;
        owners.push(0)?;
        Ok(owners)
    }
}

/// Returns the numbers of owners, then zeros.
pub(crate) fn owner_numbers(owners: &[TaskId]) -> [u64; MOST_OWNERS]
    requires { length owners.now ≤ MOST_OWNERS }
    ensures { result ≡ owner_numbers owners.now }
{
    [
        number_at(owners, 0),
        number_at(owners, 1),
        number_at(owners, 2),
        number_at(owners, 3),
        number_at(owners, 4),
    ]
}

// Returns the number of the owner at `place`, 0 if there is none.
fn number_at(owners: &[TaskId], place: usize) -> u64
    ensures { result ≡ slice_index owners.now place }
{
    owners.get(place).map_or(0, |task| task.number())
}

fn slices_of(alloc: Global, numbers: &[SliceNumbers]) -> Result<Vec<Slice>, AllocError>
    ensures { IfOk result (λ slices. slices.items ≡ slices_of numbers.now) }
{
    let mut slices = Vec::with_capacity(alloc, numbers.len())?;
    for slice in numbers {
        slices.push(slice.slice(alloc)?)?;
    }
    Ok(slices)
}

fn numbers_of(alloc: Global, slices: &[OwnedSlice]) -> Result<Vec<SliceNumbers>, AllocError>
    ensures { IfOk result (λ numbers. numbers.items ≡ map slice_numbers slices.now) }
{
    let mut numbers = Vec::with_capacity(alloc, slices.len())?;
    for slice in slices {
        numbers.push(SliceNumbers::of(slice))?;
    }
    Ok(numbers)
}

// Returns the message of the assignment that is built of the slices. Slices that are refused take no
// memory.
fn text_of(
    alloc: Global,
    job: &JobName,
    generation: u64,
    slices: &[SliceNumbers],
) -> Result<Vec<u8>, Trouble<AssignmentError>>
    ensures text { IfOk result (λ text. IsAssignmentText job.now (built generation (slices_of slices.now)) text.items) }
    ensures built { OnOk result (refusal_of (slices_of slices.now) ≡ None) }
    ensures refused { IfErr result (λ trouble. trouble ≡ trouble_of (refusal_of (slices_of slices.now))) }
{
    if let Some(why) = slices_refusal(slices) {
        return Err(Trouble::Refused(why));
    }
    let slices = slices_of(alloc, slices)?;
    let assignment = Assignment::build(alloc, generation, &slices)?;
    Ok(encode(alloc, job, &assignment)?)
}

/// Writes the message, of a job, of the assignment of a generation that is built of slices, in the
/// order given. Owners may stand in any order.
///
/// # Errors
///
/// In this order: `WrongForm` if the bytes of `job` are not the name of a job, the first
/// [`AssignmentError`] of the slices, `NoRoom` or `NoMemory`.
pub fn new_assignment(
    alloc: Global,
    job: &[u8],
    generation: u64,
    slices: &[SliceNumbers],
    out: &mut [u8],
    needed: &mut usize,
) -> Answer
    ensures { IsBuiltFor (job_of job.now) generation (slices_of slices.now)
        (output out.old needed.old) (output out.new needed.new) result }
{
    let Some(job) = job_of(job) else {
        return Answer::WrongForm;
    };
    match text_of(alloc, &job, generation, slices) {
        Ok(text) => give(&text, out, needed),
        Err(Trouble::Refused(why)) => Answer::Unread(DecodeRefusal::Slices(why)),
        Err(Trouble::NoMemory) => Answer::NoMemory,
    }
}

// Decodes an assignment of the job, and writes its generation and the numbers of its slices.
fn tell_assignment(
    alloc: Global,
    job: &JobName,
    assignment: &[u8],
    generation: &mut u64,
    out: &mut [SliceNumbers],
    needed: &mut usize,
) -> Answer
    ensures { IsReadFrom job.now (codes "assignment") assignment_of assignment.now
        (IsAssignmentTold generation.old generation.new (output out.old needed.old) (output out.new needed.new) result) }
{
    let assignment = match decode::<Assignment>(alloc, job, assignment) {
        Ok(assignment) => assignment,
        Err(why) => return unread_answer(why),
    };
    let Ok(slices) = numbers_of(alloc, assignment.slices()) else {
        return Answer::NoMemory;
    };
    *generation = assignment.generation();
    give(&slices, out, needed)
}

/// Decodes an assignment of a job from its message, and writes its generation, and the numbers of
/// its slices in the order of their starts.
///
/// The generation is written even if the slices find no room.
///
/// # Errors
///
/// In this order: `WrongForm` if the bytes of `job` are not the name of a job, why the bytes are
/// not decoded, `NoRoom` or `NoMemory`.
pub fn read_assignment(
    alloc: Global,
    job: &[u8],
    assignment: &[u8],
    generation: &mut u64,
    out: &mut [SliceNumbers],
    needed: &mut usize,
) -> Answer
    ensures { IsAssignmentRead (job_of job.now) assignment.now generation.old generation.new
        (output out.old needed.old) (output out.new needed.new) result }
{
    match job_of(job) {
        Some(job) => tell_assignment(alloc, &job, assignment, generation, out, needed),
        None => Answer::WrongForm,
    }
}

// Returns the slice that has the key.
fn slice_with(slices: &[OwnedSlice], key: SliceKey) -> &OwnedSlice
    requires { refusal_of slices.now ≡ None }
    ensures { slice_at slices.now key ≡ Some result.now }
{
    let place = slices.partition_point(|slice| slice.start().value() <= key.value());
    &slices[place - 1]
}

// Decodes an assignment of the job, and writes the numbers of the slice that has the key.
fn tell_slice(
    alloc: Global,
    job: &JobName,
    assignment: &[u8],
    key: SliceKey,
    out: &mut SliceNumbers,
) -> Answer
    ensures { IsReadFrom job.now (codes "assignment") assignment_of assignment.now (IsSliceTold key out.old out.new result) }
{
    match decode::<Assignment>(alloc, job, assignment) {
        Ok(assignment) => {
            *out = SliceNumbers::of(slice_with(assignment.slices(), key));
            Answer::Done
        }
        Err(why) => unread_answer(why),
    }
}

/// Decodes an assignment of a job from its message, and writes the numbers of the slice that has a
/// slice key.
///
/// # Errors
///
/// In this order: `WrongForm` if the bytes of `job` are not the name of a job, or the number is no
/// slice key, then why the bytes are not decoded.
pub fn read_slice(
    alloc: Global,
    job: &[u8],
    assignment: &[u8],
    slice_key: u64,
    out: &mut SliceNumbers,
) -> Answer
    ensures { IsSliceRead (job_of job.now) (slice_key_of slice_key) assignment.now out.old out.new result }
{
    let Some(job) = job_of(job) else {
        return Answer::WrongForm;
    };
    let Some(key) = slice_key_of(slice_key) else {
        return Answer::WrongForm;
    };
    tell_slice(alloc, &job, assignment, key, out)
}
