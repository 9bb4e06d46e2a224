//! The values of a table that outlast its process.

ghost use Rattle.std.specs.Prelude.{◌≡◌, IfOk};
ghost use Rattle.machines.specs.Refusals.{first_of};
ghost use Rattle.grants.specs.KeptValues.{kept_checks};
ghost use Rattle.lease_table.specs.KeptValues.{kept_of};
ghost use Rattle.c_calls.specs.Messages.{IsKeptText};
ghost use Rattle.c_calls.specs.Outputs.{output};
ghost use Rattle.c_calls.specs.tables.Keeping.{IsRestored, IsRestoredBy, restored_unless};
ghost use Rattle.c_calls.specs.tables.Texts.{IsKeptGiven};

use crate::answer::Answer;
use crate::output::give_made;
use crate::policy_numbers::PolicyNumbers;
use crate::unread::unread_answer;
use grants::{Kept, Policy};
use lease_table::LeaseTable;
use std::alloc::{AllocError, Global};
use wire::{JobName, decode, encode};

fn kept_text(alloc: Global, job: &JobName, table: &LeaseTable) -> Result<Vec<u8>, AllocError>
    ensures { IfOk result (λ text. IsKeptText job.now (kept_of table.now) text.items) }
{
    encode(alloc, job, &table.kept()?)
}

/// Writes the message of the values that must outlast the table's process to `out`.
pub fn kept(
    alloc: Global,
    job: &JobName,
    table: &LeaseTable,
    out: &mut [u8],
    needed: &mut usize,
) -> Answer
    ensures { IsKeptGiven job.now (kept_of table.now) (output out.old needed.old) (output out.new needed.new) result }
{
    give_made(kept_text(alloc, job, table), out, needed)
}

fn restored(alloc: Global, policy: Policy, kept: Kept) -> Result<LeaseTable, Answer>
    ensures { result ≡ restored_unless (first_of (kept_checks policy kept)) kept }
{
    match LeaseTable::restore(alloc, policy, kept) {
        Ok(table) => Ok(table),
        Err(fault) => Err(Answer::Kept(fault)),
    }
}

fn restore_as(
    alloc: Global,
    job: &JobName,
    policy: Policy,
    kept: &[u8],
) -> Result<LeaseTable, Answer>
    ensures { IsRestoredBy job.now policy kept.now result }
{
    match decode::<Kept>(alloc, job, kept) {
        Ok(kept) => restored(alloc, policy, kept),
        Err(why) => Err(unread_answer(why)),
    }
}

/// Restores a table of a policy from the message of kept values, as a restart leaves it.
///
/// # Errors
///
/// In this order: `WrongForm` if a number of the policy is outside its limits, why the bytes are
/// not decoded, `Kept` with the first fault of the values.
pub fn restore(
    alloc: Global,
    job: &JobName,
    policy: &PolicyNumbers,
    kept: &[u8],
) -> Result<LeaseTable, Answer>
    ensures { IsRestored job.now policy.now kept.now result }
{
    match policy.policy() {
        Some(policy) => restore_as(alloc, job, policy, kept),
        None => Err(Answer::WrongForm),
    }
}
