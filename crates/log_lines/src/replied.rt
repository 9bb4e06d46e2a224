//! What callers were told.

ghost use Rattle.std.specs.Prelude.{◌≡◌, ◌≤◌, length, true};
ghost use Rattle.std.specs.List.{list_all};
ghost use Rattle.assignment.specs.declared.slice.TheConstants.{MOST_OWNERS};
ghost use Rattle.assignment.specs.Slices.{is_task};
ghost use Rattle.log_line.specs.Told.{told_as};
ghost use Rattle.log_lines.specs.Coded.{code_of};
ghost use Rattle.log_lines.specs.Replies.{done_in, found_in, no_numbers, opened_in, reply_in, restored_in, sampled_in, served_in, table_reply_in, task_reply_in, told_in, told_with};

use crate::arguments::{kind_of, task_of};
use crate::call_name::{CallName, TableCallName, TaskCallName};
use crate::message::Message;
use crate::numbers::LoggedNumbers;
use crate::refusals::refusal_in;
use arrayvec::ArrayVec;
use assignment::{MOST_OWNERS, Owners, TaskId};
use c_calls::clerks::OwnersNumbers;
use clerk::{ClerkReply, Found};
use grants::{SliceletReply, TableReply};
use job_calls::ClusterReply;
use lease_rule::Verdict;
use log_line::{CallerReply, LoggedCall, named};
use replies::NextNumbers;

fn is_task(number: u64) -> bool
    ensures { result ≡ is_task number }
{
    task_of(number).is_some()
}

fn are_tasks(numbers: &[u64]) -> bool
    ensures { result ≡ list_all is_task numbers.now }
{
    numbers.iter().all(|&number| is_task(number))
}

fn owners_of(numbers: &[u64]) -> Owners
    requires tasks { list_all is_task numbers.now ≡ true }
    requires few { length numbers.now ≤ MOST_OWNERS }
    ensures { result.items ≡ numbers.now }
{
    let mut owners = ArrayVec::new();
    for number in numbers {
        owners.push(TaskId::new(*number).unwrap());
    }
    owners
}

// Returns the owners with these numbers.
fn found_in(numbers: &OwnersNumbers) -> Option<Found>
    ensures { result ≡ found_in numbers.now }
{
    if numbers.count > MOST_OWNERS as u64 {
        return None;
    }
    let tasks = &numbers.tasks[..numbers.count as usize];
    if !are_tasks(tasks) {
        return None;
    }
    Some(Found {
        generation: numbers.generation,
        owners: owners_of(tasks),
    })
}

fn table_reply_in(name: TableCallName, n: &LoggedNumbers, message: Message) -> Option<TableReply>
    ensures { result ≡ table_reply_in name n.now message }
{
    Some(match name {
        TableCallName::Take | TableCallName::Renew => TableReply::Term(n.job_term.term()),
        TableCallName::Propose => TableReply::Proposed,
        TableCallName::Commit => TableReply::Committed(n.told.generation),
        TableCallName::Grant => TableReply::Granted(message.grant()?),
        TableCallName::Free => TableReply::Freed(n.count),
        TableCallName::Lose => TableReply::Lost(n.count),
    })
}

fn task_reply_in(name: TaskCallName, message: Message) -> Option<SliceletReply>
    ensures { (n : LoggedNumbers) → result ≡ task_reply_in name n message }
{
    Some(match name {
        TaskCallName::Start => SliceletReply::Started,
        TaskCallName::Hear => SliceletReply::Heard,
        TaskCallName::Release => SliceletReply::Released(message.note()?),
    })
}

// Returns the verdict that a key is served under the lease that was told.
fn served_in(n: &LoggedNumbers) -> Option<ClusterReply>
    ensures { result ≡ served_in n.now }
{
    let kind = kind_of(n.told.kind)?;
    let generation = n.told.generation;
    Some(ClusterReply::Verdict(Verdict::Allow { kind, generation }))
}

// Returns the reply of the machines to a call that is done.
fn done_in(name: CallName, n: &LoggedNumbers, message: Message) -> Option<ClusterReply>
    ensures { result ≡ done_in name n.now message }
{
    Some(match name {
        CallName::Table(name) => ClusterReply::Table(table_reply_in(name, n, message)?),
        CallName::Phase => ClusterReply::Phase(n.phase.phase()?),
        CallName::Restore | CallName::Open | CallName::Sample => return None,
        CallName::Task(name) => ClusterReply::Task(task_reply_in(name, message)?),
        CallName::Serve => return served_in(n),
        CallName::Hold => ClusterReply::Holding(n.handle.handle()?),
        CallName::Check => ClusterReply::Continuous,
        CallName::Learn => ClusterReply::Clerk(ClerkReply::Learnt),
        CallName::Look => ClusterReply::Found(found_in(&n.owners)?),
        CallName::Forget => ClusterReply::Clerk(ClerkReply::Forgotten),
    })
}

// Returns what the caller is told of a reply of the machines.
fn told_as(call: &LoggedCall, reply: ClusterReply) -> CallerReply
    ensures { result ≡ told_as call.now no_numbers reply }
{
    let next = NextNumbers { note: 0, handle: 0 };
    match reply {
        ClusterReply::Task(SliceletReply::Resumed(_)) => CallerReply::Opened(named(call).life),
        reply => CallerReply::Scripted(replies::told_as(named(call), next, reply)),
    }
}

// Returns what the caller is told of a new process of a task.
fn opened_in(n: &LoggedNumbers, code: u32) -> Option<CallerReply>
    ensures { result ≡ opened_in n.now code }
{
    match code {
        0 => Some(CallerReply::Opened(n.life)),
        _ => None,
    }
}

// Returns what the caller is told of kept values from which a table was restored.
fn restored_in(message: &Message, code: u32) -> Option<CallerReply>
    ensures { result ≡ restored_in message.now code }
{
    match (message, code) {
        (
            Message::Kept {
                numbers,
                generation,
            },
            0,
        ) => Some(CallerReply::Restored {
            generation: *generation,
            grace: numbers.deadline,
        }),
        _ => None,
    }
}

// Returns what the caller is told of a sample that was taken.
fn sampled_in(code: u32) -> Option<CallerReply>
    ensures { result ≡ sampled_in code }
{
    match code {
        0 => Some(CallerReply::Sampled),
        _ => None,
    }
}

// Returns the reply of the machines, or `None` if the code is none of the call.
fn reply_in(name: CallName, n: &LoggedNumbers, message: Message, code: u32) -> Option<ClusterReply>
    ensures { result ≡ reply_in name n.now message code }
{
    if code == 0 {
        done_in(name, n, message)
    } else {
        refusal_in(name, code, &n.told)
    }
}

fn code_of(code: i32) -> Option<u32>
    ensures { result ≡ code_of code }
{
    u32::try_from(code).ok()
}

// Returns what the caller of a call was told, by a code that is not negative.
fn told_with(
    name: CallName,
    n: &LoggedNumbers,
    message: Message,
    call: &LoggedCall,
    code: u32,
) -> Option<CallerReply>
    ensures { result ≡ told_with name n.now message call.now code }
{
    match name {
        CallName::Open => opened_in(n, code),
        CallName::Restore => restored_in(&message, code),
        CallName::Sample => sampled_in(code),
        name => Some(told_as(call, reply_in(name, n, message, code)?)),
    }
}

/// Returns what the caller of a call was told, or `None` if the code is none of the call, or the
/// numbers are none that it writes.
pub fn told_in(
    name: CallName,
    n: &LoggedNumbers,
    message: Message,
    call: &LoggedCall,
) -> Option<CallerReply>
    ensures { result ≡ told_in name n.now message call.now }
{
    let code = code_of(n.code)?;
    told_with(name, n, message, call, code)
}
