//! The thread that proposes and commits the generations of a live run.

ghost use Rattle.std.specs.Prelude.{◌≡◌, ◌≤◌, IfOk, IfErr, false};
ghost use Rattle.live_run.specs.LiveJobs.{half_of, halves_of};
ghost use Rattle.live_run.specs.declared.notes.Halt.TheVariants as halt;
ghost use Rattle.live_run.specs.internals.Notes.{TellsMemory};
ghost use Rattle.live_run.specs.internals.Callers.{AreTablePasses, KeepsCaller, KeepsTablePasses};

use crate::job::{ASSIGNER, LiveJob, TICKET, TURNS};
use crate::notes::Halt;
use crate::objects::Objects;
use crate::passes::TablePasses;
use crate::table_caller::TableCaller;
use assignment::{Assignment, Slice};
use crossbeam_utils::Backoff;
use grants::TableCall;
use machines::Listed;
use shared_objects::job_term;
use std::alloc::{AllocError, Global};
use std::sync::Wait;

// The start of the second half of the key space.
const HALF: u64 = 1 << 62;

/// Takes the job lease, and proposes and commits one generation after another.
pub(crate) fn assign<R: Wait>(
    rt: &R,
    alloc: Global,
    objects: &Objects,
    job: LiveJob,
    passes: TablePasses,
) -> Result<TablePasses, AllocError>
    requires { AreTablePasses objects.now.table objects.now.ticket passes }
    ensures kept { IfOk result (λ left. KeepsTablePasses objects.now.table objects.now.ticket passes left) }
    ensures fed { IfOk result (λ left. left.notes.starved ≡ false) }
{
    let mut caller = TableCaller::new(&objects.table, &objects.ticket, passes);
    match commit_all(rt, alloc, job, &mut caller) {
        Err(Halt::NoMemory) => Err(AllocError),
        Ok(()) => Ok(caller.into_passes()),
        Err(Halt::Stopped) => Ok(caller.into_passes()),
    }
}

// Takes the job lease, and proposes and commits the halves of each round.
#[tactic(auto, using(crate::proofs::Keeping::keeps_same, crate::proofs::Keeping::keeps_more))]
fn commit_all<R: Wait>(
    rt: &R,
    alloc: Global,
    job: LiveJob,
    caller: &mut TableCaller<'_>,
) -> Result<(), Halt>
    requires fed { caller.old.notes.starved ≡ false }
    ensures kept { KeepsCaller caller.old caller.new }
    ensures memory { TellsMemory result caller.new.notes }
{
    let take = TableCall::JobTake {
        assigner: ASSIGNER,
        at: TICKET,
    };
    let number = job_term(caller.call(rt, take)?).number;
    for generation in 1..=job.rounds() {
        let propose = TableCall::Propose {
            number,
            assignment: halves(alloc, generation, job.tasks())?,
            at: TICKET,
        };
        caller.call(rt, propose)?;
        await_rows(rt, generation, caller)?;
        caller.call(rt, TableCall::Commit { number, at: TICKET })?;
    }
    Ok(())
}

// Reads the table until no row of an earlier generation is open.
#[tactic(auto, using(crate::proofs::Keeping::keeps_same, crate::proofs::Keeping::keeps_more))]
fn await_rows<R: Wait>(rt: &R, generation: u64, caller: &mut TableCaller<'_>) -> Result<(), Halt>
    requires fed { caller.old.notes.starved ≡ false }
    ensures kept { KeepsCaller caller.old caller.new }
    ensures memory { TellsMemory result caller.new.notes }
{
    let backoff = Backoff::new();
    for _ in 0..TURNS {
        let rows = caller.rows(rt)?;
        if rows
            .as_slice()
            .iter()
            .all(|row| row.generation >= generation)
        {
            return Ok(());
        }
        backoff.snooze();
    }
    Err(Halt::Stopped)
}

// Returns the assignment of a generation: two successive tasks own half of the keys each.
fn halves(alloc: Global, generation: u64, tasks: u64) -> Result<Assignment, Halt>
    requires few { generation ≤ 16 }
    requires some { (1 ≤ tasks) × (tasks ≤ 6) }
    ensures halves { IfOk result (λ assignment. assignment ≡ halves_of generation tasks) }
    ensures memory { IfErr result (λ why. why ≡ halt.NoMemory) }
{
    let mut slices = Vec::new(alloc);
    slices.push(half(alloc, 0, generation % tasks + 1)?)?;
    slices.push(half(alloc, HALF, (generation + 1) % tasks + 1)?)?;
    match Assignment::build(alloc, generation, slices.as_slice()) {
        Ok(assignment) => Ok(assignment),
        Err(_) => Err(Halt::NoMemory),
    }
}

// Returns the slice that starts at a key, with one owner.
fn half(alloc: Global, start: u64, owner: u64) -> Result<Slice, AllocError>
    ensures { IfOk result (λ slice. slice ≡ half_of start owner) }
{
    let owners = Vec::from_slice(alloc, &[owner])?;
    Ok(Slice {
        start,
        owners: Listed::from_vec(owners),
    })
}
