//! Jobs, read from job lines.

ghost use Rattle.std.specs.Prelude.{◌≡◌};
ghost use Rattle.serde_json.specs.View.{view};
ghost use Rattle.program_io.specs.Members.{IsRead};
ghost use Rattle.replies.specs.Jobs.{job_member, redundancy_of, policy_of, members_of, job_of, script_job_of};

use grants::Policy;
use job_calls::Job;
use program_io::{WrongForm, exactly, member_at, number_at, number_of, two_numbers_of};
use serde_json::Value;

/// Returns the one member of the job line.
#[tactic(auto, unfolding(crate::specs::Jobs::job_member))]
pub fn job_member(line: &Value) -> Result<&Value, WrongForm>
    ensures { IsRead (λ v. view v.now) result (job_member (view line.now)) }
{
    exactly(&["job"], line)?;
    member_at("job", line)
}

// Reads how many tasks own a slice at the least and at the most: two numbers, or one for both.
fn redundancy_of(value: &Value) -> Result<(u64, u64), WrongForm>
    ensures { result ≡ redundancy_of (view value.now) }
{
    match number_of(value) {
        Ok(number) => Ok((number, number)),
        Err(_) => two_numbers_of(value),
    }
}

// Reads the policy of the table and its leases.
#[tactic(auto, unfolding(crate::specs::Jobs::policy_of))]
fn policy_of(job: &Value) -> Result<Policy, WrongForm>
    ensures { result ≡ policy_of (view job.now) }
{
    let (low, high) = redundancy_of(member_at("redundancy", job)?)?;
    let skew = number_at("skew", job)?;
    let guard = number_at("guard", job)?;
    let bridge = number_at("bridge", job)?;
    let term = number_at("job", job)?;
    let numbers = number_at("numbers", job)?;
    match Policy::new(low, high, skew, guard, bridge, term, numbers) {
        Some(policy) => Ok(policy),
        None => Err(WrongForm),
    }
}

// Reads the members of a job: the policy, and the numbers of assigners, tasks and clerks.
#[tactic(auto, unfolding(crate::specs::Jobs::members_of))]
fn members_of(job: &Value) -> Result<(Policy, u64, u64, u64), WrongForm>
    ensures { result ≡ members_of (view job.now) }
{
    exactly(
        &[
            "redundancy",
            "skew",
            "guard",
            "bridge",
            "job",
            "numbers",
            "assigners",
            "tasks",
            "clerks",
        ],
        job,
    )?;
    let policy = policy_of(job)?;
    let assigners = number_at("assigners", job)?;
    let tasks = number_at("tasks", job)?;
    let clerks = number_at("clerks", job)?;
    Ok((policy, assigners, tasks, clerks))
}

/// Reads the job of a log, of at most 4,096 clerks, from the member of the job line.
#[tactic(auto, unfolding(crate::specs::Jobs::job_of))]
pub fn job_of(job: &Value) -> Result<Job, WrongForm>
    ensures { result ≡ job_of (view job.now) }
{
    let (policy, assigners, tasks, clerks) = members_of(job)?;
    match Job::with_clerks(policy, assigners, tasks, clerks) {
        Some(job) => Ok(job),
        None => Err(WrongForm),
    }
}

/// Reads the job of a script, of at most 16 clerks, from the member of the job line.
#[tactic(auto, unfolding(crate::specs::Jobs::script_job_of))]
pub fn script_job_of(job: &Value) -> Result<Job, WrongForm>
    ensures { result ≡ script_job_of (view job.now) }
{
    let (policy, assigners, tasks, clerks) = members_of(job)?;
    match Job::new(policy, assigners, tasks, clerks) {
        Some(job) => Ok(job),
        None => Err(WrongForm),
    }
}
