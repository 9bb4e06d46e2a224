//! Actors: machines whose calls threads share and record.

ghost use Rattle.std.specs.Prelude.{◌≡◌, ℕ, Bool, true, Ok, Err};
ghost use Rattle.machines.specs.declared.event.Event.{Event};
ghost use Rattle.job_calls.specs.declared.call.ClusterCall.{ClusterCall};
ghost use Rattle.job_calls.specs.declared.call.ClusterCall.TheVariants as recorded_call;
ghost use Rattle.job_calls.specs.declared.reply.ClusterReply.{ClusterReply};
ghost use Rattle.shared_objects.specs.Actors.{clerk_told, slicelet_told, table_told};

use assignment::TaskId;
use clerk::{Clerk, ClerkCall, ClerkError};
use grants::{Policy, SliceletCall, SliceletError, TableCall, TableError};
use job_calls::{ClusterCall, ClusterError, ClusterReply};
use lease_table::LeaseTable;
use machines::{Event, Machine};
use slicelet::Slicelet;
use std::alloc::Global;

/// The machine of a job's table, of a task or of a clerk.
///
/// Its events are calls with tickets, and each call can be recorded.
pub trait Actor: Machine<Event = Event<Self::Call>> {
    /// A call that may change the machine.
    type Call: Drop;

    /// What a new machine is created from: a policy, a task, or the number of a clerk.
    type Opening: Drop;

    // The machine before its first call.
    ghost opened: { Self.Opening → Self };

    // The number under which the calls of a new machine are recorded.
    ghost opened_number: { Self.Opening → ℕ };

    // The actor with this number may have this machine.
    ghost is_numbered: { ℕ → Self → Type 0 };

    // The same call at another reading, if it has one.
    ghost at: { Self.Call → ℕ → Self.Call };

    // The machine may reply this to an accepted call.
    ghost is_reply: { Self.Call → Self.Reply → Type 0 };

    // Whether the machine may refuse a call.
    ghost may_refuse: { Self.Call → Bool };

    // The record of a call of the actor with this number.
    ghost recorded: { ℕ → Self.Call → ClusterCall };

    // The reply that is recorded for a refusal.
    ghost told: { Self.Fault → ClusterReply };

    /// Returns the number under which the calls of a new machine are recorded.
    ///
    /// It is the task of a slicelet, the number that is given for a clerk, and 0 for a table.
    fn number_of(opening: &Self::Opening) -> u64
        ensures { result ≡ opened_number opening.now };

    /// Creates a machine before its first call.
    fn open(alloc: Global, opening: Self::Opening) -> Self
        ensures machine { result ≡ opened opening }
        ensures numbered { is_numbered (opened_number opening) result };

    /// Returns the same call at another reading, in ticks.
    ///
    /// A call without a reading stays as it is.
    fn at(call: Self::Call, reading: u64) -> Self::Call
        ensures { result ≡ at call reading };

    /// Returns a call of the actor with this number as it is recorded.
    fn into_record(actor: u64, call: Self::Call) -> ClusterCall
        ensures { result ≡ recorded actor call };

    /// Returns the reply that is recorded for a refusal.
    fn tell(fault: &Self::Fault) -> ClusterReply
        ensures { result ≡ told fault.now };

    ghost replies: { (machine : Self) (event : Event Self.Call) (after : Self) (reply : Self.Reply) → Self.step machine event ≡ Ok (after, reply) → is_reply event.call reply };

    ghost refuses: { (machine : Self) (event : Event Self.Call) (fault : Self.Fault) → Self.step machine event ≡ Err fault → may_refuse event.call ≡ true };

    ghost replies_alike: { (call : Self.Call) (reading : ℕ) (reply : Self.Reply) → is_reply (at call reading) reply → is_reply call reply };

    ghost refuses_alike: { (call : Self.Call) (reading : ℕ) → may_refuse (at call reading) ≡ may_refuse call };
}

impl Actor for LeaseTable {
    type Call = TableCall;

    type Opening = Policy;

    ghost use Rattle.lease_table.specs.Tables.{opening};
    ghost use Rattle.shared_objects.specs.Actors.{IsTableReply, table_call_at, table_may_refuse};
    ghost use Rattle.shared_objects.specs.internals.Laws.{table_replies, table_refuses, table_replies_alike, table_refuses_alike};

    ghost opened = { opening };

    ghost opened_number = { λ policy. 0 };

    ghost is_numbered = { λ number table. Unit {0} };

    ghost at = { table_call_at };

    ghost is_reply = { IsTableReply };

    ghost may_refuse = { table_may_refuse };

    ghost recorded = { λ actor call. recorded_call.Table call };

    ghost told = { table_told };

    fn number_of(_policy: &Policy) -> u64 {
        0
    }

    fn open(alloc: Global, policy: Policy) -> LeaseTable {
        LeaseTable::new(alloc, policy)
    }

    fn at(call: TableCall, reading: u64) -> TableCall {
        match call {
            TableCall::JobTake { assigner, at: _ } => TableCall::JobTake {
                assigner,
                at: reading,
            },
            TableCall::JobRenew { number, at: _ } => TableCall::JobRenew {
                number,
                at: reading,
            },
            TableCall::Propose {
                number,
                assignment,
                at: _,
            } => TableCall::Propose {
                number,
                assignment,
                at: reading,
            },
            TableCall::Commit { number, at: _ } => TableCall::Commit {
                number,
                at: reading,
            },
            TableCall::Grant { task, life, at: _ } => TableCall::Grant {
                task,
                life,
                at: reading,
            },
            TableCall::Free { note, at: _ } => TableCall::Free { note, at: reading },
            TableCall::Restart => TableCall::Restart,
        }
    }

    fn into_record(_actor: u64, call: TableCall) -> ClusterCall {
        ClusterCall::Table(call)
    }

    fn tell(fault: &TableError) -> ClusterReply {
        ClusterReply::Refused(ClusterError::Table(*fault))
    }

    ghost replies = { table_replies };

    ghost refuses = { table_refuses };

    ghost replies_alike = { table_replies_alike };

    ghost refuses_alike = { table_refuses_alike };
}

impl Actor for Slicelet {
    type Call = SliceletCall;

    type Opening = TaskId;

    ghost use Rattle.std.specs.Prelude.{◌≡◌, true, refl};
    ghost use Rattle.slicelet.specs.States.{opening};
    ghost use Rattle.shared_objects.specs.Actors.{IsSliceletReply, slicelet_call_at};
    ghost use Rattle.shared_objects.specs.internals.Laws.{slicelet_replies, slicelet_replies_alike};

    ghost opened = { opening };

    ghost opened_number = { λ task. task };

    // A task's slicelet knows the task.
    ghost is_numbered = { λ number slicelet. slicelet.task ≡ number };

    ghost at = { slicelet_call_at };

    ghost is_reply = { IsSliceletReply };

    ghost may_refuse = { λ call. true };

    ghost recorded = { λ actor call. recorded_call.Task actor call };

    ghost told = { slicelet_told };

    fn number_of(task: &TaskId) -> u64 {
        task.number()
    }

    fn open(alloc: Global, task: TaskId) -> Slicelet {
        Slicelet::new(alloc, task)
    }

    fn at(call: SliceletCall, reading: u64) -> SliceletCall {
        match call {
            SliceletCall::Start { life, at: _ } => SliceletCall::Start { life, at: reading },
            SliceletCall::Hear { grant, at: _ } => SliceletCall::Hear { grant, at: reading },
            SliceletCall::Release { kind, at: _ } => SliceletCall::Release { kind, at: reading },
            SliceletCall::Resume { life } => SliceletCall::Resume { life },
        }
    }

    fn into_record(actor: u64, call: SliceletCall) -> ClusterCall {
        ClusterCall::Task { task: actor, call }
    }

    fn tell(fault: &SliceletError) -> ClusterReply {
        ClusterReply::Refused(ClusterError::Slicelet(*fault))
    }

    ghost replies = { slicelet_replies };

    ghost refuses = { λ slicelet event fault refused. refl };

    ghost replies_alike = { slicelet_replies_alike };

    ghost refuses_alike = { λ call reading. refl };
}

impl Actor for Clerk {
    type Call = ClerkCall;

    type Opening = u64;

    ghost use Rattle.std.specs.Prelude.{None, refl};
    ghost use Rattle.shared_objects.specs.Actors.{IsClerkReply, clerk_may_refuse};
    ghost use Rattle.shared_objects.specs.internals.Laws.{clerk_replies, clerk_refuses};

    ghost opened = { λ number. None };

    ghost opened_number = { λ number. number };

    // A clerk does not know its number.
    ghost is_numbered = { λ number clerk. Unit {0} };

    ghost at = { λ call reading. call };

    ghost is_reply = { IsClerkReply };

    ghost may_refuse = { clerk_may_refuse };

    ghost recorded = { λ actor call. recorded_call.Clerk actor call };

    ghost told = { clerk_told };

    fn number_of(number: &u64) -> u64 {
        *number
    }

    fn open(_alloc: Global, _number: u64) -> Clerk {
        Clerk::new()
    }

    fn at(call: ClerkCall, _reading: u64) -> ClerkCall {
        call
    }

    fn into_record(actor: u64, call: ClerkCall) -> ClusterCall {
        ClusterCall::Clerk { clerk: actor, call }
    }

    fn tell(fault: &ClerkError) -> ClusterReply {
        ClusterReply::Refused(ClusterError::Clerk(*fault))
    }

    ghost replies = { clerk_replies };

    ghost refuses = { clerk_refuses };

    ghost replies_alike = { λ call reading reply is. is };

    ghost refuses_alike = { λ call reading. refl };
}
