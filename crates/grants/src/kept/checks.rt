//! What the kept values of a table must be.

ghost use Rattle.std.specs.Prelude.{◌≡◌, ◌+◌, ◌^◌, ◌<◌, ◌≤◌, ◌&&◌};
ghost use Rattle.grants.specs.Assignments.{generation_of};
ghost use Rattle.grants.specs.KeptValues.{longest_term, lease_term, same_terms, is_term, is_committed, is_next, has_many_owners, is_deadline};

use crate::policy::{LONGEST_TERM, Policy};
use crate::values::JobTerm;
use assignment::Assignment;

pub(super) fn same_policy(policy: Policy, other: Policy) -> bool
    ensures { result ≡ same_terms policy other }
{
    policy.low() == other.low()
        && policy.high() == other.high()
        && policy.skew() == other.skew()
        && policy.guard() == other.guard()
        && policy.bridge() == other.bridge()
        && policy.job() == other.job()
        && policy.numbers() == other.numbers()
}

// The longer of the terms of task leases, in ticks.
pub(super) fn longest_term(policy: Policy) -> u64
    ensures value { result ≡ longest_term policy }
    ensures within { result ≤ LONGEST_TERM }
{
    policy.guard().max(policy.bridge())
}

// How many ticks a lease of the current phase lasts.
pub(super) fn lease_term(policy: Policy, pending: &Option<Assignment>) -> u64
    ensures value { result ≡ lease_term policy pending.now }
    ensures within { result ≤ LONGEST_TERM }
{
    match pending {
        None => policy.guard(),
        Some(_) => policy.bridge(),
    }
}

// Whether a term has a number from 1 up to its end, and ends at most a job term after the last
// reading.
pub(super) fn is_term(last: u64, job: u64, term: &Option<JobTerm>) -> bool
    requires { last + job < 2 ^ 64 }
    ensures { result ≡ is_term last job term.now }
{
    match term {
        None => true,
        Some(term) => { 1 <= term.number && term.number <= term.until && term.until <= last + job }
    }
}

// Whether the committed generation is 1 or more, and the proposed one is the next.
pub(super) fn are_generations(committed: &Option<Assignment>, pending: &Option<Assignment>) -> bool
    ensures { result ≡ (is_committed committed.now && is_next (generation_of committed.now) pending.now) }
{
    let generation = match committed {
        None => 0,
        Some(committed) => committed.generation(),
    };
    is_committed(committed) && is_next(generation, pending)
}

fn is_committed(committed: &Option<Assignment>) -> bool
    ensures { result ≡ is_committed committed.now }
{
    match committed {
        None => true,
        Some(committed) => 1 <= committed.generation(),
    }
}

fn is_next(generation: u64, pending: &Option<Assignment>) -> bool
    ensures { result ≡ is_next generation pending.now }
{
    match pending {
        None => true,
        Some(next) => generation.checked_add(1) == Some(next.generation()),
    }
}

// Whether a slice has more owners than this.
pub(super) fn has_many_owners(high: u64, assignment: &Option<Assignment>) -> bool
    ensures { result ≡ has_many_owners high assignment.now }
{
    match assignment {
        None => false,
        Some(assignment) => assignment.has_more_owners(high),
    }
}

// Whether there is a deadline exactly if grants were made, and it is not after the latest.
pub(super) fn is_deadline(latest: u64, granted: u64, deadline: u64) -> bool
    ensures { result ≡ is_deadline latest granted deadline }
{
    if granted == 0 {
        deadline == 0
    } else {
        1 <= deadline && deadline <= latest
    }
}
