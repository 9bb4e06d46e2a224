//! A grant on its way into a task: it is decoded once, weighed and heard, and its line is written.

ghost use Rattle.std.specs.Prelude.{◌≡◌, ◌⊎◌, [], codes};
ghost use Rattle.grants.specs.Policies.{is_policy};
ghost use Rattle.wire.specs.Grants.{grant_of};
ghost use Rattle.c_calls.specs.AnswerNumbers.{answer_number};
ghost use Rattle.c_calls.specs.Outputs.{output};
ghost use Rattle.c_calls.specs.PolicyNumbers.{terms_of};
ghost use Rattle.c_calls.specs.Reading.{IsReadFrom};
ghost use Rattle.log_lines.specs.Receipts.{IsHeardAt, IsHeardLineIn, IsKeptWithLine, IsMessageReceived, IsReceived, IsReceivedIn, IsWeighedAt, receipt_line, received};

use crate::blocks::{BlockNumbers, block_line};
use crate::call_name::{CallName, TaskCallName};
use crate::line::give_line;
use crate::message::Message;
use crate::numbers::LoggedNumbers;
use crate::output::unread_answer;
use assignment::TaskId;
use c_calls::slicelets::{HandleNumbers, hear_grant};
use c_calls::{Answer, AnswerDetails, PolicyNumbers, read_task_clock, weight_of};
use clocks::TaskClockNumbers;
use grants::{Grant, Policy};
use slicelet::Slicelet;
use std::alloc::Global;
use wire::{JobName, decode};

/// A grant that a task received, as numbers: what the call passed and wrote.
#[repr(C)]
#[derive(Clone, Copy, Debug, PartialEq, Eq)]
pub struct ReceiptNumbers {
    /// The ticket of the call, which the caller draws before it.
    pub ticket: u64,
    /// The value of the task's clock at which the call was made, in ticks.
    pub at: u64,
    /// What the call told: the lease of the grant, or why the grant was not heard.
    pub told: AnswerDetails,
    /// 1 if the grant shows that clocks are not timely, else 0.
    pub evidence: u32,
}

// Returns the numbers of the line of a grant that was heard or refused.
fn receipt_line(code: i32, task: TaskId, receipt: &ReceiptNumbers) -> LoggedNumbers
    ensures { result ≡ receipt_line code task receipt.now }
{
    let block = BlockNumbers {
        ticket: receipt.ticket,
        at: receipt.at,
        handle: HandleNumbers {
            task: 0,
            slice_key: 0,
            position: 0,
            life: 0,
        },
        told: receipt.told,
    };
    block_line(12, code, task, 0, &block)
}

// Writes the line of a grant that was heard or refused; a buffer of length 0 wants none.
fn give_heard_line(
    alloc: Global,
    numbers: &LoggedNumbers,
    grant: Grant,
    out: &mut [u8],
    needed: &mut usize,
) -> Answer
    ensures { IsHeardLineIn out.old numbers.now grant (output out.old needed.old) (output out.new needed.new) result }
{
    if out.is_empty() {
        *needed = 0;
        return Answer::Done;
    }
    let name = CallName::Task(TaskCallName::Hear);
    give_line(alloc, name, numbers, Message::Grant(grant), out, needed)
}

// Hears the grant, of which no line is wanted.
fn hear_without_line(
    slicelet: &mut Slicelet,
    grant: &Grant,
    read: TaskClockNumbers,
    weighed: ReceiptNumbers,
    clock: &mut TaskClockNumbers,
    receipt: &mut ReceiptNumbers,
    needed: &mut usize,
) -> Answer
    ensures { IsHeardAt grant.now read weighed
        (received slicelet.old clock.old receipt.old (output [] needed.old))
        (received slicelet.new clock.new receipt.new (output [] needed.new)) result }
{
    let mut made = weighed;
    let held = hear_grant(slicelet, grant, made.at);
    if held.tell(&mut made.told) >= 0 {
        *clock = read;
        *receipt = made;
        *needed = 0;
    }
    held
}

// Writes the line of a grant that was heard or refused, and keeps what the call left if it is written.
fn keep_with_line(
    alloc: Global,
    slicelet: &mut Slicelet,
    left: Slicelet,
    grant: Grant,
    held: Answer,
    read: TaskClockNumbers,
    made: ReceiptNumbers,
    clock: &mut TaskClockNumbers,
    receipt: &mut ReceiptNumbers,
    out: &mut [u8],
    needed: &mut usize,
) -> Answer
    ensures { IsKeptWithLine (receipt_line (answer_number held) slicelet.old.task made) grant held left read made
        (received slicelet.old clock.old receipt.old (output out.old needed.old))
        (received slicelet.new clock.new receipt.new (output out.new needed.new)) result }
{
    let numbers = receipt_line(held.number(), slicelet.task(), &made);
    let line = give_heard_line(alloc, &numbers, grant, out, needed);
    match line {
        Answer::Done => {
            *slicelet = left;
            *clock = read;
            *receipt = made;
            held
        }
        _ => line,
    }
}

// Hears the grant on a copy of the slicelet, and writes its line.
fn hear_on_copy(
    alloc: Global,
    slicelet: &mut Slicelet,
    mut copy: Slicelet,
    grant: Grant,
    read: TaskClockNumbers,
    weighed: ReceiptNumbers,
    clock: &mut TaskClockNumbers,
    receipt: &mut ReceiptNumbers,
    out: &mut [u8],
    needed: &mut usize,
) -> Answer
    requires { copy ≡ slicelet.old }
    ensures { IsHeardAt grant read weighed
        (received slicelet.old clock.old receipt.old (output out.old needed.old))
        (received slicelet.new clock.new receipt.new (output out.new needed.new)) result }
{
    let mut made = weighed;
    let held = hear_grant(&mut copy, &grant, made.at);
    if held.tell(&mut made.told) < 0 {
        return held;
    }
    keep_with_line(
        alloc, slicelet, copy, grant, held, read, made, clock, receipt, out, needed,
    )
}

// Hears the grant, and writes its line. What the call leaves is kept only once the line is written.
fn hear_with_line(
    alloc: Global,
    slicelet: &mut Slicelet,
    grant: Grant,
    read: TaskClockNumbers,
    weighed: ReceiptNumbers,
    clock: &mut TaskClockNumbers,
    receipt: &mut ReceiptNumbers,
    out: &mut [u8],
    needed: &mut usize,
) -> Answer
    ensures { IsHeardAt grant read weighed
        (received slicelet.old clock.old receipt.old (output out.old needed.old))
        (received slicelet.new clock.new receipt.new (output out.new needed.new)) result
        ⊎ ((result ≡ Answer.NoMemory) × (received slicelet.new clock.new receipt.new (output out.new needed.new)
        ≡ received slicelet.old clock.old receipt.old (output out.old needed.old))) }
{
    match slicelet.copy() {
        Ok(copy) => hear_on_copy(
            alloc, slicelet, copy, grant, read, weighed, clock, receipt, out, needed,
        ),
        Err(_) => Answer::NoMemory,
    }
}

// Weighs a grant that was read, and hears it if it does not show that clocks are not timely.
fn receive_grant(
    alloc: Global,
    slicelet: &mut Slicelet,
    policy: Policy,
    grant: Grant,
    read: TaskClockNumbers,
    made: ReceiptNumbers,
    clock: &mut TaskClockNumbers,
    receipt: &mut ReceiptNumbers,
    out: &mut [u8],
    needed: &mut usize,
) -> Answer
    ensures { IsWeighedAt policy grant read made
        (received slicelet.old clock.old receipt.old (output out.old needed.old))
        (received slicelet.new clock.new receipt.new (output out.new needed.new)) result }
{
    let evidence = weight_of(&grant, made.at, policy);
    let weighed = ReceiptNumbers { evidence, ..made };
    if evidence == 1 {
        *clock = read;
        *receipt = weighed;
        *needed = 0;
        return Answer::Done;
    }
    if out.is_empty() {
        return hear_without_line(slicelet, &grant, read, weighed, clock, receipt, needed);
    }
    hear_with_line(
        alloc, slicelet, grant, read, weighed, clock, receipt, out, needed,
    )
}

// Receives a grant, given as its message, which is one of the job.
fn receive_message(
    alloc: Global,
    job: &JobName,
    slicelet: &mut Slicelet,
    policy: Policy,
    grant: &[u8],
    read: TaskClockNumbers,
    made: ReceiptNumbers,
    clock: &mut TaskClockNumbers,
    receipt: &mut ReceiptNumbers,
    out: &mut [u8],
    needed: &mut usize,
) -> Answer
    ensures { IsReadFrom job.now (codes "grant") grant_of grant.now (IsMessageReceived policy read made
        (received slicelet.old clock.old receipt.old (output out.old needed.old))
        (received slicelet.new clock.new receipt.new (output out.new needed.new)) result) }
{
    match decode::<Grant>(alloc, job, grant) {
        Ok(grant) => receive_grant(
            alloc, slicelet, policy, grant, read, made, clock, receipt, out, needed,
        ),
        Err(why) => unread_answer(why),
    }
}

// Receives a grant at a value of the clock.
fn receive_at(
    alloc: Global,
    job: &JobName,
    slicelet: &mut Slicelet,
    policy: &PolicyNumbers,
    grant: &[u8],
    read: TaskClockNumbers,
    made: ReceiptNumbers,
    clock: &mut TaskClockNumbers,
    receipt: &mut ReceiptNumbers,
    out: &mut [u8],
    needed: &mut usize,
) -> Answer
    ensures { IsReceivedIn (is_policy (terms_of policy.now)) job.now (terms_of policy.now) grant.now read made
        (received slicelet.old clock.old receipt.old (output out.old needed.old))
        (received slicelet.new clock.new receipt.new (output out.new needed.new)) result }
{
    match policy.policy() {
        Some(policy) => receive_message(
            alloc, job, slicelet, policy, grant, read, made, clock, receipt, out, needed,
        ),
        None => Answer::WrongForm,
    }
}

/// Receives a grant, given as its message, which is one of the job: reads the task's clock at the
/// local reading `now`, decodes the grant, hears it at the clock's value unless it shows that clocks
/// are not timely, and writes the line of the hearing to `out`. If `out` has length 0, no line is
/// written.
///
/// Answers as `hear` of the slicelet, and writes the value, what the call tells and that the grant
/// shows no evidence to `receipt`. The clock keeps its value also if the grant is refused. If the
/// grant shows evidence, `Done` is answered, the value and the evidence are written, nothing is
/// heard and there is no line. `policy` is that of the table.
///
/// # Errors
///
/// In this order: `WrongForm` if the clock's `per` is 0, why the clock refuses, `WrongForm` if a
/// number of the policy is outside its limits, why the message is not decoded, `NoRoom` or
/// `NoMemory`. An error leaves the slicelet, the clock and the receipt unchanged.
pub fn receive(
    alloc: Global,
    job: &JobName,
    slicelet: &mut Slicelet,
    clock: &mut TaskClockNumbers,
    now: u64,
    policy: &PolicyNumbers,
    grant: &[u8],
    receipt: &mut ReceiptNumbers,
    out: &mut [u8],
    needed: &mut usize,
) -> Answer
    ensures { IsReceived job.now policy.now grant.now now
        (received slicelet.old clock.old receipt.old (output out.old needed.old))
        (received slicelet.new clock.new receipt.new (output out.new needed.new)) result }
{
    let mut read = *clock;
    let mut made = *receipt;
    let reading = read_task_clock(&mut read, now, &mut made.at);
    match reading {
        Answer::Done => receive_at(
            alloc, job, slicelet, policy, grant, read, made, clock, receipt, out, needed,
        ),
        _ => reading,
    }
}
