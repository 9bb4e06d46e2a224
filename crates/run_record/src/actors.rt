//! What a record keeps of the actors of a job.

ghost use Rattle.std.specs.Prelude.{◌≡◌, ◌∷◌, None, IfOk, OnOk};
ghost use Rattle.cluster.specs.ActorLists.{AreActors};
ghost use Rattle.cluster.specs.continued.Jobs.{Continued};
ghost use Rattle.cluster.specs.continued.Runs as continued;
ghost use Rattle.cluster.specs.Pasts.{Past, event, newest_learnt};
ghost use Rattle.run_record.specs.Records.{AreTasksAt};
ghost use Rattle.run_record.specs.internals.{clerk_after, new_task, task_after};

use clerk::{Clerk, ClerkCall};
use cluster::place_of;
use grants::SliceletCall;
use job_calls::{ClusterCall, ClusterReply, Job, TaskSnapshot};
use machines::{Duplicate, Listed, Trouble};
use std::alloc::{AllocError, Global};

/// Returns the tasks of a job before their first calls.
pub(crate) fn new_tasks(alloc: Global, job: Job) -> Result<Vec<TaskSnapshot>, AllocError>
    ensures { IfOk result (λ tasks. AreActors (λ n. new_task) job.tasks tasks.items) }
{
    let mut tasks = Vec::new(alloc);
    for _place in 0..job.tasks() {
        tasks.push(TaskSnapshot {
            life: 0,
            calls: Listed::new(alloc),
        })?;
    }
    Ok(tasks)
}

/// Returns the clerks of a job before their first calls.
pub(crate) fn new_clerks(alloc: Global, job: Job) -> Result<Vec<Clerk>, AllocError>
    ensures { IfOk result (λ clerks. AreActors (λ n. None) job.clerks clerks.items) }
{
    let mut clerks = Vec::new(alloc);
    for _place in 0..job.clerks() {
        clerks.push(Clerk::new())?;
    }
    Ok(clerks)
}

pub(crate) fn task_copies(
    alloc: Global,
    tasks: &[TaskSnapshot],
) -> Result<Vec<TaskSnapshot>, AllocError>
    ensures { IfOk result (λ copies. copies.items ≡ tasks.now) }
{
    let mut copies = Vec::new(alloc);
    for task in tasks {
        copies.push(TaskSnapshot {
            life: task.life,
            calls: task.calls.copy()?,
        })?;
    }
    Ok(copies)
}

pub(crate) fn clerk_copies(alloc: Global, clerks: &[Clerk]) -> Result<Vec<Clerk>, AllocError>
    ensures { IfOk result (λ copies. copies.items ≡ clerks.now) }
{
    let mut copies = Vec::new(alloc);
    for clerk in clerks {
        copies.push(clerk.copy()?)?;
    }
    Ok(copies)
}

// Adds an accepted call to those of a task. A new process begins with no calls.
fn add_call(alloc: Global, task: &mut TaskSnapshot, call: &SliceletCall) -> Result<(), AllocError>
    ensures { OnOk result (task.new ≡ task_after call.now task.old) }
{
    match call {
        SliceletCall::Resume { life } => {
            task.life = *life;
            task.calls = Listed::new(alloc);
        }
        SliceletCall::Start { .. } | SliceletCall::Hear { .. } | SliceletCall::Release { .. } => {
            task.calls.push(call.copy()?)?;
        }
    }
    Ok(())
}

/// Records a call of a task, if it was accepted.
pub(crate) fn record_task(
    alloc: Global,
    tasks: &mut Vec<TaskSnapshot>,
    call: &ClusterCall,
    reply: &ClusterReply,
) -> Result<(), AllocError>
    ensures { (job : Continued) (past : Past) → continued.IsReply job past (event call.now reply.now) → AreTasksAt past job.tasks tasks.old.items
        → OnOk result (AreTasksAt (event call.now reply.now ∷ past) job.tasks tasks.new.items) }
{
    let ClusterCall::Task { task, call } = call else {
        return Ok(());
    };
    let ClusterReply::Task(_) = reply else {
        return Ok(());
    };
    let Some(place) = place_of(*task, tasks.as_slice()) else {
        return Ok(());
    };
    add_call(alloc, &mut tasks[place], call)
}

// Makes an accepted call of a clerk.
fn make_call(clerk: &mut Clerk, call: &ClerkCall) -> Result<(), AllocError>
    ensures { OnOk result (clerk.new ≡ clerk_after call.now clerk.old) }
{
    match clerk.call(call) {
        Ok(_) | Err(Trouble::Refused(_)) => Ok(()),
        Err(Trouble::NoMemory) => Err(AllocError),
    }
}

/// Records a call of a clerk, if it was accepted.
pub(crate) fn record_clerk(
    clerks: &mut Vec<Clerk>,
    call: &ClusterCall,
    reply: &ClusterReply,
) -> Result<(), AllocError>
    ensures { (job : Continued) (past : Past) → continued.IsReply job past (event call.now reply.now)
        → AreActors (λ n. newest_learnt n past) job.clerks clerks.old.items
        → OnOk result (AreActors (λ n. newest_learnt n (event call.now reply.now ∷ past)) job.clerks clerks.new.items) }
{
    let ClusterCall::Clerk { clerk, call } = call else {
        return Ok(());
    };
    let ClusterReply::Clerk(_) = reply else {
        return Ok(());
    };
    let Some(place) = place_of(*clerk, clerks.as_slice()) else {
        return Ok(());
    };
    make_call(&mut clerks[place], call)
}
