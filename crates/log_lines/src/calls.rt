//! The calls that numbers and messages say.

ghost use Rattle.std.specs.Prelude.{◌≡◌};
ghost use Rattle.log_lines.specs.Calls.{call_in, machine_call_in, sample_in, table_call_in, task_call_in};

use crate::arguments::{kind_of, slice_key_of, task_of};
use crate::call_name::{CallName, TableCallName, TaskCallName};
use crate::message::Message;
use crate::numbers::LoggedNumbers;
use clerk::ClerkCall;
use clocks::Sample;
use grants::{SliceletCall, TableCall};
use job_calls::ClusterCall;
use log_line::{LoggedCall, TaskSample};

fn table_call_in(name: TableCallName, n: &LoggedNumbers, message: Message) -> Option<TableCall>
    ensures { result ≡ table_call_in name n.now message }
{
    Some(match name {
        TableCallName::Take => TableCall::JobTake {
            assigner: n.assigner,
            at: n.at,
        },
        TableCallName::Renew => TableCall::JobRenew {
            number: n.term,
            at: n.at,
        },
        TableCallName::Propose => TableCall::Propose {
            number: n.term,
            assignment: message.assignment()?,
            at: n.at,
        },
        TableCallName::Commit => TableCall::Commit {
            number: n.term,
            at: n.at,
        },
        TableCallName::Grant => TableCall::Grant {
            task: task_of(n.task)?,
            life: n.life,
            at: n.at,
        },
        TableCallName::Free => TableCall::Free {
            note: message.note()?,
            at: n.at,
        },
        TableCallName::Lose => TableCall::Restart,
    })
}

fn task_call_in(name: TaskCallName, n: &LoggedNumbers, message: Message) -> Option<SliceletCall>
    ensures { result ≡ task_call_in name n.now message }
{
    Some(match name {
        TaskCallName::Start => SliceletCall::Start {
            life: n.life,
            at: n.at,
        },
        TaskCallName::Hear => SliceletCall::Hear {
            grant: message.grant()?,
            at: n.at,
        },
        TaskCallName::Release => SliceletCall::Release {
            kind: kind_of(u64::from(n.kind))?,
            at: n.at,
        },
    })
}

// Returns a call of the machines.
fn machine_call_in(name: CallName, n: &LoggedNumbers, message: Message) -> Option<ClusterCall>
    ensures { result ≡ machine_call_in name n.now message }
{
    Some(match name {
        CallName::Table(name) => ClusterCall::Table(table_call_in(name, n, message)?),
        CallName::Phase => ClusterCall::Phase,
        CallName::Restore | CallName::Sample => return None,
        CallName::Open => ClusterCall::Task {
            task: n.task,
            call: SliceletCall::Resume { life: n.life },
        },
        CallName::Task(name) => ClusterCall::Task {
            task: n.task,
            call: task_call_in(name, n, message)?,
        },
        CallName::Serve => ClusterCall::Serve {
            task: n.task,
            key: slice_key_of(n.slice_key)?,
            at: n.at,
        },
        CallName::Hold => ClusterCall::Hold {
            task: n.task,
            key: slice_key_of(n.slice_key)?,
            at: n.at,
        },
        CallName::Check => ClusterCall::Check {
            task: n.task,
            handle: n.handle.handle()?,
            at: n.at,
        },
        CallName::Learn => ClusterCall::Clerk {
            clerk: n.clerk,
            call: ClerkCall::Learn(message.assignment()?),
        },
        CallName::Look => ClusterCall::Look {
            clerk: n.clerk,
            key: slice_key_of(n.slice_key)?,
        },
        CallName::Forget => ClusterCall::Clerk {
            clerk: n.clerk,
            call: ClerkCall::Forget,
        },
    })
}

// Returns the sample that was taken.
fn sample_in(n: &LoggedNumbers) -> TaskSample
    ensures { result ≡ sample_in n.now }
{
    TaskSample {
        task: n.task,
        sample: Sample {
            sent: n.sent,
            reading: n.reading,
        },
        now: n.at,
    }
}

/// Returns the call that the numbers and the message say, or `None` if they say none.
pub fn call_in(name: CallName, n: &LoggedNumbers, message: Message) -> Option<LoggedCall>
    ensures { result ≡ call_in name n.now message }
{
    match name {
        CallName::Restore => Some(LoggedCall::Restore(message.kept()?)),
        CallName::Sample => Some(LoggedCall::Sample(sample_in(n))),
        name => Some(LoggedCall::Whole(machine_call_in(name, n, message)?)),
    }
}
