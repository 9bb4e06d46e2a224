//! Evidence that clocks are not timely.

ghost use Rattle.c_calls.specs.Jobs.{job_of};
ghost use Rattle.c_calls.specs.ClockEvidence.{IsWeighedBy, IsWeighedFor, IsWeight};

use crate::answer::Answer;
use crate::job::job_of;
use crate::policy_numbers::PolicyNumbers;
use crate::unread::unread_answer;
use grant_evidence::clock_evidence;
use grants::{Grant, Policy};
use std::alloc::Global;
use wire::{JobName, decode};

/// Writes 1 to `out` if the grant that the bytes are a message of, of the job, shows, at the reading `at` of a
/// task's clock, that clocks are not timely, and 0 if it does not. Refused by `WrongForm` if the
/// bytes of `job` are not the name of a job or a number of the policy is outside its limits, then
/// as the message is.
pub fn evidence(
    alloc: Global,
    job: &[u8],
    grant: &[u8],
    at: u64,
    policy: &PolicyNumbers,
    out: &mut u32,
) -> Answer
    ensures { IsWeighedFor (job_of job.now) grant.now at policy.now out.old out.new result }
{
    let Some(job) = job_of(job) else {
        return Answer::WrongForm;
    };
    match policy.policy() {
        Some(policy) => weigh(alloc, &job, grant, at, policy, out),
        None => Answer::WrongForm,
    }
}

/// Returns 1 if the grant shows, at the reading `at` of a task's clock, that clocks are not timely,
/// and 0 if it does not.
pub fn weight_of(grant: &Grant, at: u64, policy: Policy) -> u32
    ensures { IsWeight policy grant.now at result }
{
    if clock_evidence(grant, at, policy) {
        1
    } else {
        0
    }
}

fn weigh(
    alloc: Global,
    job: &JobName,
    grant: &[u8],
    at: u64,
    policy: Policy,
    out: &mut u32,
) -> Answer
    ensures { IsWeighedBy job.now policy grant.now at out.old out.new result }
{
    match decode::<Grant>(alloc, job, grant) {
        Ok(grant) => {
            *out = weight_of(&grant, at, policy);
            Answer::Done
        }
        Err(why) => unread_answer(why),
    }
}
