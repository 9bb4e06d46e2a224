//! What the assigner, the task and the client do, each by a call or two of the library.

ghost use Rattle.std.specs.Prelude.{◌≡◌, ◌≤◌, ◌&&◌, ℕ, Some, Ok, IfOk, if◌then◌else◌};
ghost use Rattle.slice_ranges.specs.Sets.{has};
ghost use Rattle.assignment.specs.Owners.{owners_of};
ghost use Rattle.lease_rule.specs.Leases.{is_live};
ghost use Rattle.lease_rule.specs.Rule.{is_allowed};
ghost use Rattle.lease_table.specs.Steps.{grant_step};
ghost use Rattle.slicelet.specs.Rules.{covers_key};
ghost use Rattle.slicelet.specs.States.{permits, rule_in_state};
ghost use Rattle.wire.specs.declared.numerals.Numerals.TheVariants as numeral;
ghost use Rattle.wire.specs.Messages.{message_text};
ghost use Rattle.library_example.specs.Carrying.{IsCarriedAs};

use crate::error::ExampleError;
use assignment::{Assignment, TaskId};
use clerk::{Clerk, Found};
use grants::Grant;
use lease_rule::Verdict;
use lease_table::LeaseTable;
use slice_ranges::SliceKey;
use slicelet::Slicelet;
use std::alloc::Global;
use wire::{DecodeError, JobName, Wire, decode, encode};

/// Carries a value as a message of a job, as a transport would: what arrives is what was sent,
/// unless there are more bytes than a message may have, or memory runs out.
pub fn carry<T: Wire>(alloc: Global, job: &JobName, value: &T) -> Result<T, DecodeError>
    ensures { IsCarriedAs (message_text job.now T.name (T.data_of numeral.Quoted value.now)) value.now result }
{
    let bytes = encode(alloc, job, value)?;
    decode(alloc, job, bytes.as_slice())
}

/// Takes the job lease for an assigner, and proposes and commits the assignment under it.
///
/// The calls before a refused one stay accepted.
pub fn publish(
    table: &mut LeaseTable,
    assigner: u64,
    assignment: &Assignment,
    at: u64,
) -> Result<(), ExampleError>
    ensures { IfOk result (λ _. table.new.committed ≡ Some assignment.now) }
{
    let term = table.job_take(assigner, at)?;
    table.propose(term.number, assignment, at)?;
    table.commit(term.number, at)?;
    Ok(())
}

/// Starts a life of a task with a lease: its slicelet hears the grant that the table makes, and from
/// then on permits exactly the keys of the lease, until the lease ends.
pub fn start_with_lease(
    alloc: Global,
    job: &JobName,
    table: &mut LeaseTable,
    task: TaskId,
    life: u32,
    at: u64,
) -> Result<(Slicelet, Grant), ExampleError>
    ensures granted { IfOk result (λ started. grant_step table.old task life at ≡ Ok (table.new, started.1)) }
    ensures permits { IfOk result (λ started. (key later : ℕ) → at ≤ later
        → permits started.0 key later ≡ (is_live started.1.lease later && has started.1.lease.ranges key)) }
{
    let mut slicelet = Slicelet::new(alloc, task);
    slicelet.start(life, at)?;
    let grant = table.grant(task, life, at)?;
    let heard = carry(alloc, job, &grant)?;
    slicelet.hear(&heard, at)?;
    Ok((slicelet, heard))
}

/// Writes a value of a key if the task may serve the key at a reading of its clock, in ticks; otherwise
/// the stored value is unchanged. Returns the verdict of the written rule.
pub fn write_once(
    slicelet: &Slicelet,
    key: SliceKey,
    at: u64,
    value: u64,
    stored: &mut u64,
) -> Verdict
    ensures verdict { result ≡ rule_in_state (covers_key key) slicelet.now at }
    ensures stored { stored.new ≡ (if is_allowed result then value else stored.old) }
{
    let verdict = slicelet.serve(key, at);
    if let Verdict::Allow { .. } = verdict {
        *stored = value;
    }
    verdict
}

/// Returns the tasks that own a key, from a clerk that learns the assignment from its bytes.
pub fn owners_by_clerk(
    alloc: Global,
    job: &JobName,
    assignment: &Assignment,
    key: SliceKey,
) -> Result<Found, ExampleError>
    ensures generation { IfOk result (λ found. found.generation ≡ assignment.now.generation) }
    ensures owners { IfOk result (λ found. found.owners.items ≡ owners_of assignment.now.slices key) }
{
    let mut clerk = Clerk::new();
    clerk.learn(&carry(alloc, job, assignment)?)?;
    Ok(clerk.look(key)?)
}
