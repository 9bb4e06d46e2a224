//! Playing the calls of a log on the machines of a job.

ghost use Rattle.std.specs.Prelude.{◌≡◌, ◌∷◌, IfOk};
ghost use Rattle.grants.specs.Assignments.{generation_of};
ghost use Rattle.cluster.specs.continued.Jobs.{Continued, job_in};
ghost use Rattle.cluster.specs.continued.Clusters.{LeadsTo};
ghost use Rattle.cluster.specs.Pasts.{Past, event};
ghost use Rattle.log_line.specs.declared.line.LoggedCall.TheVariants.{HearBare, LearnBare, Restore};
ghost use Rattle.log_run.specs.Calls.{asked_task, call_after, held_by_asked};
ghost use Rattle.log_run.specs.Restores.{grant_to_nobody};
ghost use Rattle.log_run.specs.Samples.{sampled_told};
ghost use Rattle.log_run.specs.internals.Answers.{HasGranted, IsAnswered, IsMade, IsPlayed};
ghost use Rattle.log_run.specs.internals.Machines.{HavePlayed};

use crate::held::HeldLeases;
use crate::log_machines::LogMachines;
use crate::restoring::restore_fault;
use assignment::{Assignment, TaskId};
use clerk::ClerkCall;
use cluster::Cluster;
use grants::{SliceletCall, TableCall};
use job_calls::{ClusterCall, ClusterReply};
use lease_rule::Kind;
use log_line::{
    BareGrant, CallerReply, KeptNumbers, LoggedCall, LoggedLine, TaskSample, is_worded, numbers_of,
    told_as, with_ranges,
};
use replies::{NextNumbers, Refusal, Reply};
use std::alloc::{AllocError, Global};

// Plays the hearing of the grant that the table sent with a number.
fn hear(
    machines: &mut LogMachines,
    task: u64,
    grant: BareGrant,
    at: u64,
) -> Result<ClusterReply, AllocError>
    ensures { (job : Continued) (past : Past) → HavePlayed job past machines.old → IfOk result
        (λ answer. HavePlayed job (event (call_after past (HearBare task grant at)) answer ∷ past) machines.new) }
{
    let Some(sent) = machines.cluster().grant(grant.number) else {
        return machines.hear_unsent(task, grant, at);
    };
    let ranges = sent.lease.ranges.copy()?;
    let grant = with_ranges(grant, ranges);
    let call = SliceletCall::Hear { grant, at };
    machines.play(&ClusterCall::Task { task, call })
}

// Plays the learning of the assignment that was published of a generation.
fn learn(
    machines: &mut LogMachines,
    clerk: u64,
    generation: u64,
) -> Result<ClusterReply, AllocError>
    ensures { (job : Continued) (past : Past) → HavePlayed job past machines.old → IfOk result
        (λ answer. HavePlayed job (event (call_after past (LearnBare clerk generation)) answer ∷ past) machines.new) }
{
    let Some(assignment) = machines.cluster().published(generation) else {
        return machines.learn_unpublished(clerk, generation);
    };
    let call = ClerkCall::Learn(assignment.copy()?);
    machines.play(&ClusterCall::Clerk { clerk, call })
}

/// Plays the call that a line tells, and returns the machines' reply.
///
/// Of a table that is restored it plays the restart alone, and of a sample a call that only asks:
/// [`tell`] plays what those lines stand for.
pub fn play(machines: &mut LogMachines, call: &LoggedCall) -> Result<ClusterReply, AllocError>
    ensures { (job : Continued) (past : Past) → HavePlayed job past machines.old
        → IfOk result (λ answer. HavePlayed job (event (call_after past call.now) answer ∷ past) machines.new) }
{
    match call {
        LoggedCall::Whole(call) => machines.play(call),
        LoggedCall::HearBare { task, grant, at } => hear(machines, *task, *grant, *at),
        LoggedCall::LearnBare { clerk, generation } => learn(machines, *clerk, *generation),
        LoggedCall::Restore(_) => machines.play(&ClusterCall::Table(TableCall::Restart)),
        LoggedCall::Sample(_) => machines.play(&ClusterCall::Phase),
    }
}

// Plays a logged call, and returns what its caller is told.
fn call(machines: &mut LogMachines, call: &LoggedCall) -> Result<CallerReply, AllocError>
    ensures { (job : Continued) (past : Past) → HavePlayed job past machines.old
        → IfOk result (λ told. IsMade job past call.now told machines.new) }
{
    let cluster = machines.cluster();
    let next = NextNumbers {
        note: cluster.next_note(),
        handle: cluster.next_handle(),
    };
    let reply = play(machines, call)?;
    Ok(told_as(call, next, reply))
}

// Grants task 1 a lease in life 0: no task hears it.
fn grant_to_nobody(machines: &mut LogMachines, at: u64) -> Result<ClusterReply, AllocError>
    ensures { (job : Continued) (past : Past) → HavePlayed job past machines.old
        → IfOk result (λ reply. HavePlayed job (event (grant_to_nobody at) reply ∷ past) machines.new) }
{
    let task = TaskId::new(1).unwrap();
    machines.play(&ClusterCall::Table(TableCall::Grant { task, life: 0, at }))
}

// Grants nobody a lease, so many times.
fn grants_to_nobody(machines: &mut LogMachines, count: u64, at: u64) -> Result<(), AllocError>
    ensures { (job : Continued) (past : Past) → HavePlayed job past machines.old
        → IfOk result (λ _. HasGranted job past count at machines.new) }
{
    for _ in 0..count {
        grant_to_nobody(machines, at)?;
    }
    Ok(())
}

// Returns the generation of an assignment; 0 if there is none.
fn generation_of(assignment: &Option<Assignment>) -> u64
    ensures { result ≡ generation_of assignment.now }
{
    match assignment {
        Some(assignment) => assignment.generation(),
        None => 0,
    }
}

// Plays a restart of the table with these values, and returns what is told of it.
fn restore(machines: &mut LogMachines, numbers: KeptNumbers) -> Result<CallerReply, AllocError>
    ensures { (job : Continued) (past : Past) → HavePlayed job past machines.old
        → IfOk result (λ told. IsPlayed job past (Restore numbers) told machines.new) }
{
    let kept = machines.cluster().table().kept()?;
    let table = numbers_of(&kept);
    let generation = generation_of(&kept.committed);
    if let Some(fault) = restore_fault(kept, numbers) {
        return Ok(CallerReply::NotRestored(fault, table));
    }
    grants_to_nobody(machines, numbers.granted - table.granted, numbers.last)?;
    machines.play(&ClusterCall::Table(TableCall::Restart))?;
    Ok(CallerReply::Restored {
        generation,
        grace: numbers.deadline,
    })
}

// Returns what the caller of a sample is told.
fn sampled_told(cluster: &Cluster, taken: TaskSample) -> CallerReply
    ensures { (job : Continued) (past : Past) → LeadsTo job past cluster.now → result ≡ sampled_told (job_in job) taken }
{
    match cluster.slicelet(taken.task) {
        Some(_) => CallerReply::Sampled,
        None => CallerReply::Scripted(Reply::Refused(Refusal::NoActor)),
    }
}

/// Plays what a line stands for, and returns what its caller is told.
///
/// If memory runs out, the machines are as they were after some of the calls that the line stands
/// for.
pub fn tell(machines: &mut LogMachines, line: &LoggedCall) -> Result<CallerReply, AllocError>
    ensures { (job : Continued) (past : Past) → HavePlayed job past machines.old
        → IfOk result (λ told. IsPlayed job past line.now told machines.new) }
{
    match line {
        LoggedCall::Restore(numbers) => restore(machines, *numbers),
        LoggedCall::Sample(taken) => Ok(sampled_told(machines.cluster(), *taken)),
        LoggedCall::Whole(_) => call(machines, line),
        LoggedCall::HearBare { .. } => call(machines, line),
        LoggedCall::LearnBare { .. } => call(machines, line),
    }
}

// Returns the task that a call asks for a key.
fn asked_task(call: &LoggedCall) -> Option<u64>
    ensures { result ≡ asked_task call.now }
{
    match call {
        LoggedCall::Whole(ClusterCall::Serve { task, .. } | ClusterCall::Hold { task, .. }) => {
            Some(*task)
        }
        _ => None,
    }
}

/// Returns the leases of the task that a call asks for a key, if the job has the task.
pub fn held_by_asked(cluster: &Cluster, call: &LoggedCall) -> Option<HeldLeases>
    ensures { (job : Continued) (past : Past) → LeadsTo job past cluster.now
        → result ≡ held_by_asked (job_in job) past call.now }
{
    let task = asked_task(call)?;
    let slicelet = cluster.slicelet(task)?;
    Some(HeldLeases {
        guard: slicelet.held(Kind::Guard),
        bridge: slicelet.held(Kind::Bridge),
    })
}

/// Plays what a line stands for, and returns the right reply if its caller got another one.
pub fn answer(
    alloc: Global,
    machines: &mut LogMachines,
    line: &LoggedLine,
) -> Result<Option<CallerReply>, AllocError>
    ensures { (job : Continued) (past : Past) → HavePlayed job past machines.old
        → IfOk result (λ other. IsAnswered job past line.now other machines.new) }
{
    let told = tell(machines, &line.call)?;
    if is_worded(alloc, line.reply.as_str(), &told)? {
        Ok(None)
    } else {
        Ok(Some(told))
    }
}
