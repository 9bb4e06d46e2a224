//! The planner's call.

ghost use Rattle.std.specs.Prelude.{◌≡◌, IfOk, IfErr, None, OnOk, codes, true};
ghost use Rattle.std.specs.List.{list_all};
ghost use Rattle.machines.specs.Answers.{trouble_of};
ghost use Rattle.assignment.specs.Slices.{is_task};
ghost use Rattle.weighted_move.specs.Owning.{rise_from};
ghost use Rattle.weighted_move.specs.Plans.{plan_refusal};
ghost use Rattle.wire.specs.Assignments.{assignment_of};
ghost use Rattle.c_calls.specs.Jobs.{job_of};
ghost use Rattle.c_calls.specs.Outputs.{output};
ghost use Rattle.c_calls.specs.Plans.{IsNextText, IsPlanMade, IsPlanned, IsPlannedFor, IsUnplanned, are_tasks, no_plan, wanted};
ghost use Rattle.c_calls.specs.PolicyNumbers.{plan_terms_of};
ghost use Rattle.c_calls.specs.Reading.{IsReadFrom};

use crate::answer::Answer;
use crate::job::job_of;
use crate::output::give;
use crate::policy_numbers::PlanPolicyNumbers;
use crate::unread::unread_answer;
use arrayvec::ArrayVec;
use assignment::{Assignment, TASKS, TaskId};
use machines::Trouble;
use std::alloc::Global;
use weighted_move::{PlanError, PlanPolicy, TaskSet, plan_law};
use wire::{JobName, decode, encode};

// Whether numbers are tasks in strictly rising order.
fn are_tasks(numbers: &[u64]) -> bool
    ensures { result ≡ are_tasks numbers.now }
{
    all_are_tasks(numbers) && rise_from(1, numbers)
}

fn all_are_tasks(numbers: &[u64]) -> bool
    ensures { result ≡ list_all is_task numbers.now }
{
    numbers.iter().all(|&number| is_task(number))
}

fn is_task(number: u64) -> bool
    ensures { result ≡ is_task number }
{
    1 <= number && number <= TASKS
}

// Whether task numbers rise strictly, from `low` on.
fn rise_from(low: u64, numbers: &[u64]) -> bool
    requires { list_all is_task numbers.now ≡ true }
    ensures { result ≡ rise_from low numbers.now }
{
    match numbers {
        [] => true,
        [first, rest @ ..] => low <= *first && rise_from(*first + 1, rest),
    }
}

// Returns the set of numbers that are tasks in strictly rising order.
fn set_of(numbers: &[u64]) -> TaskSet
    requires { are_tasks numbers.now ≡ true }
    ensures { result ≡ numbers.now }
{
    let mut tasks = ArrayVec::<TaskId, 64>::new();
    for number in numbers {
        tasks.push(TaskId::new(*number).unwrap());
    }
    TaskSet::rising(tasks.as_slice()).unwrap()
}

// Plans the assignment of a generation, from an assignment.
fn next_assignment(
    alloc: Global,
    assignment: &Assignment,
    loads: &[u64],
    tasks: &TaskSet,
    policy: &PlanPolicy,
    generation: u64,
) -> Result<Assignment, Trouble<PlanError>>
    ensures planned { IfOk result (IsPlanMade generation assignment.now.slices (wanted loads.now tasks.now policy.now)) }
    ensures accepted { OnOk result (plan_refusal assignment.now.slices loads.now tasks.now ≡ None) }
    ensures refused { IfErr result
        (λ trouble. trouble ≡ trouble_of (plan_refusal assignment.now.slices loads.now tasks.now)) }
{
    let plan = weighted_move::plan(alloc, assignment, loads, tasks, policy)?;
    plan_law();
    match Assignment::build(alloc, generation, plan.slices.as_slice()) {
        Ok(next) => Ok(next),
        Err(Trouble::Refused(_)) => unreachable!(),
        Err(Trouble::NoMemory) => Err(Trouble::NoMemory),
    }
}

// Returns the message of the next assignment, or why there is none.
fn next_text(
    alloc: Global,
    job: &JobName,
    assignment: &Assignment,
    loads: &[u64],
    tasks: &[u64],
    policy: &PlanPolicyNumbers,
) -> Result<Vec<u8>, Answer>
    ensures text { IfOk result (λ text. IsNextText job.now assignment.now (wanted loads.now tasks.now (plan_terms_of policy.now)) text.items) }
    ensures planned { OnOk result (no_plan assignment.now (wanted loads.now tasks.now (plan_terms_of policy.now)) ≡ None) }
    ensures unplanned { IfErr result (IsUnplanned assignment.now (wanted loads.now tasks.now (plan_terms_of policy.now))) }
{
    let Some(policy) = policy.policy() else {
        return Err(Answer::WrongForm);
    };
    let Some(generation) = assignment.generation().checked_add(1) else {
        return Err(Answer::WrongForm);
    };
    if !are_tasks(tasks) {
        return Err(Answer::WrongForm);
    }
    let tasks = set_of(tasks);
    match next_assignment(alloc, assignment, loads, &tasks, &policy, generation) {
        Ok(next) => encode(alloc, job, &next).map_err(|_| Answer::NoMemory),
        Err(Trouble::Refused(why)) => Err(Answer::Plan(why)),
        Err(Trouble::NoMemory) => Err(Answer::NoMemory),
    }
}

// Plans for the assignment that the bytes are a message of.
fn plan_for(
    alloc: Global,
    job: &JobName,
    assignment: &[u8],
    loads: &[u64],
    tasks: &[u64],
    policy: &PlanPolicyNumbers,
    out: &mut [u8],
    needed: &mut usize,
) -> Answer
    ensures { IsReadFrom job.now (codes "assignment") assignment_of assignment.now
        (IsPlanned job.now (wanted loads.now tasks.now (plan_terms_of policy.now)) (output out.old needed.old) (output out.new needed.new) result) }
{
    let assignment = match decode::<Assignment>(alloc, job, assignment) {
        Ok(assignment) => assignment,
        Err(error) => return unread_answer(error),
    };
    match next_text(alloc, job, &assignment, loads, tasks, policy) {
        Ok(text) => give(&text, out, needed),
        Err(answer) => answer,
    }
}

/// Plans the assignment of the next generation, and writes its message to `out`.
///
/// `job` is the name of the job, `assignment` the message of the assignment to start from, `loads`
/// has a load for each of its slices, and `tasks` has the tasks in strictly rising order.
/// `WrongForm` if the bytes of `job` are not the name of a job.
pub fn plan(
    alloc: Global,
    job: &[u8],
    assignment: &[u8],
    loads: &[u64],
    tasks: &[u64],
    policy: &PlanPolicyNumbers,
    out: &mut [u8],
    needed: &mut usize,
) -> Answer
    ensures { IsPlannedFor (job_of job.now) assignment.now (wanted loads.now tasks.now (plan_terms_of policy.now))
        (output out.old needed.old) (output out.new needed.new) result }
{
    match job_of(job) {
        Some(job) => plan_for(alloc, &job, assignment, loads, tasks, policy, out, needed),
        None => Answer::WrongForm,
    }
}
