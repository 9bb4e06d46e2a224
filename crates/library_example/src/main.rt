//! A first program over the library. An assigner commits an assignment at a lease table, a task serves
//! a key under a lease of the table until the lease ends, and a client finds the key's owner by a clerk.
#![tactic(auto)]

mod error;
mod steps;

ghost use Rattle.std.specs.Prelude.{◌≡◌, ◌/◌, ℕ, IfOk, nat_lt, nat_le};
ghost use Rattle.slice_ranges.specs.declared.key.TheConstants.{KEYS};
ghost use Rattle.assignment.specs.Owners.{owns};

use assignment::{Assignment, Slice, TaskId};
use error::{ExampleError, exit_code};
use grants::{Grant, Policy};
use lease_rule::{Lease, Verdict};
use lease_table::LeaseTable;
use machines::Listed;
use slice_ranges::{KEYS, slice_key};
use slicelet::Slicelet;
use std::alloc::Global;
use std::io;
use std::process::ExitCode;
use steps::{owners_by_clerk, publish, start_with_lease, write_once};
use wire::{JobName, kind_word};

/// Returns the policy of the job: one owner a slice, clocks up to 5 ticks apart, guard and bridge
/// leases of 100 ticks, job leases of 1,000 ticks, and up to 8 grants.
fn policy() -> Option<Policy> {
    let (low, high, skew) = (1, 1, 5);
    let (guard, bridge, job) = (100, 100, 1_000);
    Policy::new(low, high, skew, guard, bridge, job, 8)
}

/// Returns the assignment of generation 1: task 1 owns the lower half of the keys, and task 2 the
/// upper half.
fn halves(alloc: Global) -> Result<Assignment, ExampleError>
    ensures lower { IfOk result (λ a. (key : ℕ) → owns a.slices key 1 ≡ nat_lt key (KEYS / 2)) }
    ensures upper { IfOk result (λ a. (key : ℕ) → owns a.slices key 2 ≡ nat_le (KEYS / 2) key) }
{
    let lower = Slice {
        start: 0,
        owners: Listed::from_slice(alloc, &[1])?,
    };
    let upper = Slice {
        start: KEYS / 2,
        owners: Listed::from_slice(alloc, &[2])?,
    };
    Ok(Assignment::build(alloc, 1, &[lower, upper])?)
}

/// Prints the generation and the end of a lease.
fn print_lease(rt: &impl Print, lease: &Lease) -> io::Result<()> {
    let kind = kind_word(lease.kind);
    println!(rt; "granted {kind} {} until {}", lease.generation, lease.ends)
}

/// Prints whether a task serves a key.
fn print_verdict(rt: &impl Print, task: TaskId, name: &str, verdict: Verdict) -> io::Result<()> {
    match verdict {
        Verdict::Allow { kind, generation } => {
            let kind = kind_word(kind);
            println!(rt; "task {task} serves {name} under {kind} {generation}")
        }
        Verdict::Deny(why) => println!(rt; "denied: {why:?}"),
    }
}

/// Prints the tasks that own a key.
fn print_owners(rt: &impl Print, name: &str, owners: &[TaskId]) -> io::Result<()> {
    for owner in owners {
        println!(rt; "clerk: {name} is owned by task {owner}")?;
    }
    Ok(())
}

/// Publishes an assignment at a new table, and starts a task with a lease of it.
fn first_lease(
    alloc: Global,
    job: &JobName,
    policy: Policy,
    task: TaskId,
    assignment: &Assignment,
) -> Result<(Slicelet, Grant), ExampleError> {
    let mut table = LeaseTable::new(alloc, policy);
    publish(&mut table, 7, assignment, 0)?;
    start_with_lease(alloc, job, &mut table, task, 1, 0)
}

/// Writes to a key while the task's lease is live, and again when the lease ends.
fn write_twice(
    rt: &impl Print,
    task: TaskId,
    name: &str,
    slicelet: &Slicelet,
    ends: u64,
) -> io::Result<()> {
    let key = slice_key(name.as_bytes());
    let mut stored = 0;
    let verdict = write_once(slicelet, key, 10, 41, &mut stored);
    print_verdict(rt, task, name, verdict)?;
    let verdict = write_once(slicelet, key, ends, 42, &mut stored);
    print_verdict(rt, task, name, verdict)?;
    println!(rt; "stored {stored}")
}

/// Plays the example for the key of this name. All readings are in ticks, of clocks that agree.
fn run(rt: &(impl Print + AllocGlobal), name: &str) -> Result<(), ExampleError> {
    let alloc = rt.alloc();
    let (Some(job), Some(policy), Some(task)) = (JobName::new("example"), policy(), TaskId::new(1))
    else {
        return Err(ExampleError::OutOfLimits);
    };
    let assignment = halves(alloc)?;
    let (slicelet, grant) = first_lease(alloc, &job, policy, task, &assignment)?;
    print_lease(rt, &grant.lease)?;
    write_twice(rt, task, name, &slicelet, grant.lease.ends)?;
    let found = owners_by_clerk(alloc, &job, &assignment, slice_key(name.as_bytes()))?;
    print_owners(rt, name, found.owners.as_slice())?;
    Ok(())
}

fn main(rt: HostRuntime) -> ExitCode {
    exit_code(&rt, run(&rt, "hello"))
}
