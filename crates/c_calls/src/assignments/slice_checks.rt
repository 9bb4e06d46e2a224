//! Why slices that numbers say make no assignment. The checks take no memory.

ghost use Rattle.std.specs.Prelude.{◌≡◌, ◌==◌, drop, nat_lt, nat_le, not, length};
ghost use Rattle.std.specs.List.{list_all, list_any, zip};
ghost use Rattle.slice_ranges.specs.declared.key.TheConstants.{KEYS};
ghost use Rattle.assignment.specs.declared.slice.TheConstants.{MOST_OWNERS};
ghost use Rattle.assignment.specs.Slices.{refusal_of, first_starts_at, has_twice, is_task};
ghost use Rattle.c_calls.specs.Assignments.{slice_of, slices_of};

use super::SliceNumbers;
use crate::arguments::task_of;
use arrayvec::ArrayVec;
use assignment::{AssignmentError, MOST_OWNERS, MOST_SLICES};
use slice_ranges::KEYS;

/// Returns why the slices that the numbers say do not form an assignment, or `None` if they do.
#[tactic(auto, using(crate::proofs::SliceLists::refusal_by))]
pub fn slices_refusal(slices: &[SliceNumbers]) -> Option<AssignmentError>
    ensures { result ≡ refusal_of (slices_of slices.now) }
{
    if slices.is_empty() {
        return Some(AssignmentError::NoSlices);
    }
    if !starts_at_zero(slices) {
        return Some(AssignmentError::FirstNotZero);
    }
    if !is_rising(slices) {
        return Some(AssignmentError::NotRising);
    }
    if any_starts_past_end(slices) {
        return Some(AssignmentError::PastEnd);
    }
    if any_has_no_owner(slices) {
        return Some(AssignmentError::NoOwner);
    }
    if any_has_many_owners(slices) {
        return Some(AssignmentError::TooManyOwners);
    }
    if any_has_owner_twice(slices) {
        return Some(AssignmentError::OwnerTwice);
    }
    if any_has_stranger(slices) {
        return Some(AssignmentError::BadTask);
    }
    if slices.len() > MOST_SLICES {
        return Some(AssignmentError::TooManySlices);
    }
    None
}

fn starts_at_zero(slices: &[SliceNumbers]) -> bool
    ensures { result ≡ first_starts_at 0 (slices_of slices.now) }
{
    match slices {
        [] => false,
        [first, ..] => first.start == 0,
    }
}

fn is_rising(slices: &[SliceNumbers]) -> bool
    ensures { result ≡ list_all (λ p. nat_lt p.0.start p.1.start) (zip slices.now (drop 1 slices.now)) }
{
    let next = slices.iter().skip(1);
    slices.iter().zip(next).all(|(a, b)| a.start < b.start)
}

fn any_starts_past_end(slices: &[SliceNumbers]) -> bool
    ensures { result ≡ list_any (λ n. nat_le KEYS (slice_of n).start) slices.now }
{
    slices.iter().any(|slice| slice.start >= KEYS)
}

fn any_has_no_owner(slices: &[SliceNumbers]) -> bool
    ensures { result ≡ list_any (λ n. length (slice_of n).owners == 0) slices.now }
{
    slices.iter().any(|slice| owner_count(slice) == 0)
}

fn any_has_many_owners(slices: &[SliceNumbers]) -> bool
    ensures { result ≡ list_any (λ n. nat_lt MOST_OWNERS (length (slice_of n).owners)) slices.now }
{
    slices.iter().any(|slice| owner_count(slice) > MOST_OWNERS)
}

fn any_has_owner_twice(slices: &[SliceNumbers]) -> bool
    ensures { result ≡ list_any (λ n. has_twice (slice_of n).owners) slices.now }
{
    slices
        .iter()
        .any(|slice| has_twice(owners_of(slice).as_slice()))
}

fn any_has_stranger(slices: &[SliceNumbers]) -> bool
    ensures { result ≡ list_any (λ n. list_any (λ o. not (is_task o)) (slice_of n).owners) slices.now }
{
    slices
        .iter()
        .any(|slice| has_stranger(owners_of(slice).as_slice()))
}

// Returns how many owners the slice has that the numbers say: one too many, where there are too many.
fn owner_count(slice: &SliceNumbers) -> usize
    ensures { result ≡ length (slice_of slice.now).owners }
{
    owners_of(slice).len()
}

// Returns the owners of the slice that the numbers say.
fn owners_of(slice: &SliceNumbers) -> ArrayVec<u64, 6>
    ensures { result.items ≡ (slice_of slice.now).owners }
{
    let count = slice.count.min(MOST_OWNERS as u64) as usize;
    let tasks = &slice.tasks[..count];
    let mut owners = ArrayVec::<u64, 6>::new();
    for task in tasks {
        owners.push(*task);
    }
    if slice.count > MOST_OWNERS as u64 {
        owners.push(0);
    }
    owners
}

fn has_twice(owners: &[u64]) -> bool
    ensures { result ≡ has_twice owners.now }
{
    match owners {
        [] => false,
        [first, rest @ ..] => rest.contains(first) || has_twice(rest),
    }
}

// Whether an owner's number is not that of a task.
fn has_stranger(owners: &[u64]) -> bool
    ensures { result ≡ list_any (λ o. not (is_task o)) owners.now }
{
    owners.iter().any(|&owner| task_of(owner).is_none())
}
