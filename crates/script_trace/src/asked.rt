//! What steps ask of the machines.

ghost use Rattle.std.specs.Prelude.{◌≡◌, IfOk, is_none, is_some};
ghost use Rattle.assignment.specs.Slices.{refusal_of};
ghost use Rattle.cluster.specs.Clusters.{LeadsTo};
ghost use Rattle.cluster.specs.Pasts.{Past as Calls, published};
ghost use Rattle.job_calls.specs.Jobs.{Job};
ghost use Rattle.world.specs.Pasts.{Past};
ghost use Rattle.world.specs.Calls.{call_of, calls_in};
ghost use Rattle.script_trace.specs.Steps.{delivered_in};
ghost use Rattle.script_trace.specs.internals.Asking.{asked_if, asked_in, asked_of, has_assignment, heard_by, if_made, task_call_in, task_call_of, to_check, to_hear};

use crate::delivered::Delivered;
use assignment::{Assignment, Slice};
use cluster::{Cluster, is_within};
use grants::SliceletCall;
use job_calls::{ClusterCall, Job};
use machines::Trouble;
use reasons::{Delivery, Question};
use slice_ranges::slice_key;
use std::alloc::{AllocError, Global};
use world::Step;

/// What a step asks of the machines.
#[derive(Clone, Copy, Debug)]
pub enum Asked {
    /// It makes a call that asks this.
    Call(Question),
    /// It makes no call, since what it delivers was not made.
    Unsent(Delivery),
    /// It makes no call.
    Nothing,
}

// Returns what a step of an actor asks, if the actor is of the job.
fn asked_if(of_job: bool, asked: Asked) -> Asked
    ensures { result ≡ asked_if of_job asked }
{
    if of_job { asked } else { Asked::Nothing }
}

// Returns what a step asks that delivers what was made, or was not.
fn if_made(is_made: bool, delivery: Delivery, question: Question) -> Asked
    ensures { result ≡ if_made is_made delivery question }
{
    if is_made {
        Asked::Call(question)
    } else {
        Asked::Unsent(delivery)
    }
}

// Returns what a task is asked that is to hear a grant.
fn to_hear(task: u64, delivered: &Option<Delivered>) -> Asked
    ensures { result ≡ to_hear task delivered.now }
{
    match delivered {
        Some(Delivered::Grant(grant)) => Asked::Call(Question::Hear {
            task,
            kind: grant.lease.kind,
        }),
        _ => Asked::Unsent(Delivery::Grant),
    }
}

// Returns what a task is asked that is to check a handle.
fn to_check(task: u64, delivered: &Option<Delivered>, at: u64) -> Asked
    ensures { result ≡ to_check task delivered.now at }
{
    match delivered {
        Some(Delivered::Handle(handle)) => Asked::Call(Question::Check {
            task,
            handle: *handle,
            at,
        }),
        _ => Asked::Unsent(Delivery::Handle),
    }
}

// Whether slices make an assignment.
fn is_assignment(alloc: Global, slices: &[Slice]) -> Result<bool, AllocError>
    ensures { IfOk result (λ makes. makes ≡ is_none (refusal_of slices.now)) }
{
    match Assignment::build(alloc, 0, slices) {
        Ok(_) => Ok(true),
        Err(Trouble::Refused(_)) => Ok(false),
        Err(Trouble::NoMemory) => Err(AllocError),
    }
}

// Whether an assignment of this generation was published.
fn is_published(cluster: &Cluster, generation: u64) -> bool
    ensures { (job : Job) (calls : Calls) → LeadsTo job calls cluster.now → result ≡ is_some (published generation calls) }
{
    cluster.published(generation).is_some()
}

// Whether a step has an assignment: the slices that it proposes make one, or the one that it
// delivers was published.
fn has_assignment(alloc: Global, cluster: &Cluster, step: &Step) -> Result<bool, AllocError>
    ensures { (job : Job) (calls : Calls) → LeadsTo job calls cluster.now
        → IfOk result (λ has. has ≡ has_assignment calls step.now) }
{
    match step {
        Step::Propose { slices, .. } => is_assignment(alloc, slices.as_slice()),
        Step::Learn { generation, .. } => Ok(is_published(cluster, *generation)),
        _ => Ok(false),
    }
}

// Returns what a step asks, by what it delivers and whether it has an assignment.
fn asked_of(job: Job, step: &Step, delivered: &Option<Delivered>, has_assignment: bool) -> Asked
    ensures { result ≡ asked_of job step.now delivered.now has_assignment }
{
    let assigners = job.assigners();
    let tasks = job.tasks();
    match step {
        Step::Take { assigner, .. } => {
            asked_if(is_within(*assigner, assigners), Asked::Call(Question::Take))
        }
        Step::Renew { assigner, .. } => {
            asked_if(is_within(*assigner, assigners), Asked::Call(Question::Pass))
        }
        Step::Propose { assigner, .. } => {
            let asked = asked_if(has_assignment, Asked::Call(Question::Pass));
            asked_if(is_within(*assigner, assigners), asked)
        }
        Step::Commit { assigner, at } => {
            let question = Question::Commit { at: *at };
            asked_if(is_within(*assigner, assigners), Asked::Call(question))
        }
        Step::Grant { task, .. } => asked_if(is_within(*task, tasks), Asked::Call(Question::Table)),
        Step::Free { .. } => if_made(delivered.is_some(), Delivery::Note, Question::Table),
        Step::Lose => Asked::Call(Question::Table),
        Step::Start { task, .. } => Asked::Call(Question::Begin { task: *task }),
        Step::Hear { task, .. } => asked_if(is_within(*task, tasks), to_hear(*task, delivered)),
        Step::Release { task, .. } => Asked::Call(Question::Release { task: *task }),
        Step::Serve { task, key, at } | Step::Hold { task, key, at } => {
            Asked::Call(Question::Key {
                task: *task,
                key: slice_key(key.as_slice()),
                at: *at,
            })
        }
        Step::Check { task, at, .. } => {
            asked_if(is_within(*task, tasks), to_check(*task, delivered, *at))
        }
        Step::Learn { clerk, .. } => {
            let asked = if_made(has_assignment, Delivery::Published, Question::Other);
            asked_if(is_within(*clerk, job.clerks()), asked)
        }
        Step::Phase | Step::Rows | Step::Look { .. } | Step::Forget { .. } => {
            Asked::Call(Question::Other)
        }
        _ => Asked::Nothing,
    }
}

/// Returns what a step asks of the machines, which are those before it.
///
/// `delivered` is what the step delivers by its number. The only error is out of memory.
pub fn asked_by(
    alloc: Global,
    job: Job,
    cluster: &Cluster,
    step: &Step,
    delivered: &Option<Delivered>,
) -> Result<Asked, AllocError>
    ensures { (past : Past) → LeadsTo job (calls_in job past) cluster.now
        → delivered.now ≡ delivered_in (calls_in job past) step.now
        → IfOk result (λ asked. asked ≡ asked_in step.now (call_of job past (calls_in job past) step.now)) }
{
    let has_assignment = has_assignment(alloc, cluster, step)?;
    Ok(asked_of(job, step, delivered, has_assignment))
}

// Returns the call of a task that is to hear a grant; `None` if there is no grant.
fn heard_by(
    task: u64,
    delivered: &Option<Delivered>,
    at: u64,
) -> Result<Option<ClusterCall>, AllocError>
    ensures { IfOk result (λ made. made ≡ heard_by task delivered.now at) }
{
    match delivered {
        Some(Delivered::Grant(grant)) => {
            let copied = grant.copy()?;
            let call = SliceletCall::Hear { grant: copied, at };
            Ok(Some(ClusterCall::Task { task, call }))
        }
        _ => Ok(None),
    }
}

// Returns the call that changes what a task holds, if a step makes one.
fn task_call_of(
    job: Job,
    step: &Step,
    delivered: &Option<Delivered>,
) -> Result<Option<ClusterCall>, AllocError>
    ensures { IfOk result (λ made. made ≡ task_call_of job step.now delivered.now) }
{
    let (task, call) = match step {
        Step::Start { task, life, at } => {
            let call = SliceletCall::Start {
                life: *life,
                at: *at,
            };
            (*task, call)
        }
        Step::Release { task, kind, at } => {
            let call = SliceletCall::Release {
                kind: *kind,
                at: *at,
            };
            (*task, call)
        }
        Step::Hear { task, at, .. } if is_within(*task, job.tasks()) => {
            return heard_by(*task, delivered, *at);
        }
        _ => return Ok(None),
    };
    Ok(Some(ClusterCall::Task { task, call }))
}

/// Returns the call that changes what a task holds, if a step makes one.
///
/// `delivered` is what the step delivers by its number. The only error is out of memory.
pub fn task_call_by(
    job: Job,
    step: &Step,
    delivered: &Option<Delivered>,
) -> Result<Option<ClusterCall>, AllocError>
    ensures { (past : Past) → delivered.now ≡ delivered_in (calls_in job past) step.now
        → IfOk result (λ made. made ≡ task_call_in (call_of job past (calls_in job past) step.now)) }
{
    task_call_of(job, step, delivered)
}
