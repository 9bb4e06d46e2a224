//! The entry and the end of a block of work on a key, each with its line.

ghost use Rattle.std.specs.Prelude.{◌≡◌, Some};
ghost use Rattle.c_calls.specs.Outputs.{output};
ghost use Rattle.log_lines.specs.Blocks.{IsEnded, IsEntered, IsEnteredAt, IsLeftAt, IsLineIn, IsNoted, block_line, kept};
ghost use Rattle.log_lines.specs.CallNames.{call_named};

use crate::call_name::CallName;
use crate::line::give_named_line;
use crate::numbers::LoggedNumbers;
use assignment::{MOST_OWNERS, TaskId};
use c_calls::clerks::OwnersNumbers;
use c_calls::slicelets::{HandleNumbers, check, hold_at};
use c_calls::tables::{PhaseNumbers, TermNumbers};
use c_calls::{Answer, AnswerDetails, read_task_clock};
use clocks::TaskClockNumbers;
use slicelet::Slicelet;
use std::alloc::Global;
use wire::JobName;

/// A block of work on a key, as numbers: what its entry or its end passed and wrote.
#[repr(C)]
#[derive(Clone, Copy, Debug, PartialEq, Eq)]
pub struct BlockNumbers {
    /// The ticket of the call, which the caller draws before it.
    pub ticket: u64,
    /// The value of the task's clock at which the call was made, in ticks.
    pub at: u64,
    /// The handle that the entry took, and that the end checks.
    pub handle: HandleNumbers,
    /// What the entry told.
    pub told: AnswerDetails,
}

/// Returns the numbers of the line of a call of a slicelet.
pub fn block_line(
    call: u32,
    code: i32,
    task: TaskId,
    slice_key: u64,
    block: &BlockNumbers,
) -> LoggedNumbers
    ensures { result ≡ block_line call code task slice_key block.now }
{
    LoggedNumbers {
        ticket: block.ticket,
        call,
        code,
        task: task.number(),
        clerk: 0,
        assigner: 0,
        term: 0,
        at: block.at,
        slice_key,
        life: 0,
        kind: 0,
        count: 0,
        told: block.told,
        job_term: TermNumbers {
            number: 0,
            assigner: 0,
            until: 0,
        },
        phase: PhaseNumbers {
            committed: 0,
            proposed: 0,
        },
        handle: block.handle,
        owners: OwnersNumbers {
            generation: 0,
            count: 0,
            tasks: [0; MOST_OWNERS],
        },
        sent: 0,
        reading: 0,
    }
}

// Writes the line of a call that has no message; a buffer of length 0 wants none.
fn give_line_in(
    alloc: Global,
    job: &JobName,
    name: CallName,
    numbers: &LoggedNumbers,
    out: &mut [u8],
    needed: &mut usize,
) -> Answer
    requires { call_named numbers.now.call ≡ Some name }
    ensures { IsLineIn out.old job.now numbers.now (output out.old needed.old) (output out.new needed.new) result }
{
    if out.is_empty() {
        *needed = 0;
        return Answer::Done;
    }
    give_named_line(alloc, job, name, numbers, &[], out, needed)
}

// Writes the line of a call, and keeps the clock and what was written of the call if it is written.
fn keep_with_line(
    alloc: Global,
    job: &JobName,
    name: CallName,
    numbers: &LoggedNumbers,
    answer: Answer,
    read: TaskClockNumbers,
    made: BlockNumbers,
    clock: &mut TaskClockNumbers,
    block: &mut BlockNumbers,
    out: &mut [u8],
    needed: &mut usize,
) -> Answer
    requires { call_named numbers.now.call ≡ Some name }
    ensures { IsNoted job.now numbers.now answer read made
        (kept clock.old block.old (output out.old needed.old)) (kept clock.new block.new (output out.new needed.new)) result }
{
    let line = give_line_in(alloc, job, name, numbers, out, needed);
    match line {
        Answer::Done => {
            *clock = read;
            *block = made;
            answer
        }
        _ => line,
    }
}

// Enters a block of work at a value of the clock.
fn enter_at(
    alloc: Global,
    job: &JobName,
    slicelet: &Slicelet,
    slice_key: u64,
    read: TaskClockNumbers,
    at: u64,
    clock: &mut TaskClockNumbers,
    block: &mut BlockNumbers,
    out: &mut [u8],
    needed: &mut usize,
) -> Answer
    ensures { IsEnteredAt job.now slice_key slicelet.now read at
        (kept clock.old block.old (output out.old needed.old)) (kept clock.new block.new (output out.new needed.new)) result }
{
    let mut made = BlockNumbers { at, ..*block };
    let held = hold_at(
        slicelet,
        slice_key,
        at,
        &mut made.handle,
        &mut made.told.covering,
    );
    let code = held.tell(&mut made.told);
    if code < 0 {
        return held;
    }
    let numbers = block_line(15, code, slicelet.task(), slice_key, &made);
    keep_with_line(
        alloc,
        job,
        CallName::Hold,
        &numbers,
        held,
        read,
        made,
        clock,
        block,
        out,
        needed,
    )
}

// Leaves a block of work at a value of the clock.
fn leave_at(
    alloc: Global,
    job: &JobName,
    slicelet: &Slicelet,
    read: TaskClockNumbers,
    at: u64,
    clock: &mut TaskClockNumbers,
    block: &mut BlockNumbers,
    out: &mut [u8],
    needed: &mut usize,
) -> Answer
    ensures { IsLeftAt job.now slicelet.now read at
        (kept clock.old block.old (output out.old needed.old)) (kept clock.new block.new (output out.new needed.new)) result }
{
    let made = BlockNumbers { at, ..*block };
    let checked = check(slicelet, &made.handle, at);
    let code = checked.number();
    if code < 0 {
        return checked;
    }
    let numbers = block_line(16, code, slicelet.task(), made.handle.slice_key, &made);
    keep_with_line(
        alloc,
        job,
        CallName::Check,
        &numbers,
        checked,
        read,
        made,
        clock,
        block,
        out,
        needed,
    )
}

/// Enters a block of work on the keys of a slice key: reads the task's clock at the local reading
/// `now`, takes a handle at its value if the task may serve the keys, and writes the line of that
/// call to `out`. If `out` has length 0, no line is written.
///
/// Answers as `hold_at` of the slicelet, and writes the value, the handle and what the call tells to
/// `block`. The clock keeps its value also if the keys are denied.
///
/// # Errors
///
/// In this order: `WrongForm` if the clock's `per` is 0, why the clock refuses, `WrongForm` if it
/// is no slice key, `NoRoom` or `NoMemory`. An error leaves the clock and the block unchanged.
pub fn enter(
    alloc: Global,
    job: &JobName,
    slicelet: &Slicelet,
    clock: &mut TaskClockNumbers,
    now: u64,
    slice_key: u64,
    block: &mut BlockNumbers,
    out: &mut [u8],
    needed: &mut usize,
) -> Answer
    ensures { IsEntered job.now slice_key slicelet.now now
        (kept clock.old block.old (output out.old needed.old)) (kept clock.new block.new (output out.new needed.new)) result }
{
    let mut read = *clock;
    let mut at = block.at;
    let reading = read_task_clock(&mut read, now, &mut at);
    match reading {
        Answer::Done => enter_at(
            alloc, job, slicelet, slice_key, read, at, clock, block, out, needed,
        ),
        _ => reading,
    }
}

/// Leaves a block of work: reads the task's clock at the local reading `now`, checks the handle of
/// `block` at its value, and writes the line of that call to `out`. If `out` has length 0, no line
/// is written.
///
/// Answers as `check` of the slicelet, and writes the value to `block`. The clock keeps its value
/// also if the handle is not continuous.
///
/// # Errors
///
/// In this order: `WrongForm` if the clock's `per` is 0, why the clock refuses, `WrongForm` if the
/// numbers are those of no handle, `NoRoom` or `NoMemory`. An error leaves the clock and the block
/// unchanged.
pub fn leave(
    alloc: Global,
    job: &JobName,
    slicelet: &Slicelet,
    clock: &mut TaskClockNumbers,
    now: u64,
    block: &mut BlockNumbers,
    out: &mut [u8],
    needed: &mut usize,
) -> Answer
    ensures { IsEnded job.now slicelet.now now
        (kept clock.old block.old (output out.old needed.old)) (kept clock.new block.new (output out.new needed.new)) result }
{
    let mut read = *clock;
    let mut at = block.at;
    let reading = read_task_clock(&mut read, now, &mut at);
    match reading {
        Answer::Done => leave_at(alloc, job, slicelet, read, at, clock, block, out, needed),
        _ => reading,
    }
}
