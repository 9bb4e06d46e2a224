//! The thread of the clerk of a live run.

ghost use Rattle.std.specs.Prelude.{◌≡◌, IfOk, false};
ghost use Rattle.live_run.specs.internals.Notes.{TellsMemory};
ghost use Rattle.live_run.specs.internals.Callers.{AreClerkPasses, KeepsClerkPasses, KeepsClerkCaller};

use crate::clerk_caller::ClerkCaller;
use crate::job::{LiveJob, TURNS};
use crate::notes::Halt;
use crate::objects::Objects;
use crate::passes::ClerkPasses;
use clerk::ClerkCall;
use crossbeam_utils::Backoff;
use std::alloc::AllocError;
use std::sync::Wait;

/// Learns each committed generation up to the last one.
pub(crate) fn learn_all<R: Wait>(
    rt: &R,
    objects: &Objects,
    job: LiveJob,
    passes: ClerkPasses,
) -> Result<ClerkPasses, AllocError>
    requires { AreClerkPasses objects.now.table objects.now.clerk.lock objects.now.ticket passes }
    ensures kept { IfOk result (λ left. KeepsClerkPasses objects.now.table objects.now.clerk.lock objects.now.ticket passes left) }
    ensures fed { IfOk result (λ left. left.table.notes.starved ≡ false) }
{
    let mut caller = ClerkCaller::new(objects, passes);
    match follow_commits(rt, job.rounds(), &mut caller) {
        Err(Halt::NoMemory) => Err(AllocError),
        Ok(()) => Ok(caller.into_passes()),
        Err(Halt::Stopped) => Ok(caller.into_passes()),
    }
}

// Learns each newer committed assignment, up to that of the last round.
#[tactic(auto, using(crate::proofs::Keeping::clerk_same, crate::proofs::Keeping::clerk_more, crate::proofs::Keeping::clerk_by_table))]
fn follow_commits<R: Wait>(rt: &R, rounds: u64, caller: &mut ClerkCaller<'_>) -> Result<(), Halt>
    requires fed { caller.old.table.notes.starved ≡ false }
    ensures kept { KeepsClerkCaller caller.old caller.new }
    ensures memory { TellsMemory result caller.new.table.notes }
{
    let mut known = 0;
    let backoff = Backoff::new();
    for _ in 0..TURNS {
        if let Some(committed) = caller.table.committed(rt)? {
            let generation = committed.generation();
            if generation > known {
                caller.call(rt, ClerkCall::Learn(committed))?;
                known = generation;
            }
        }
        if known >= rounds {
            return Ok(());
        }
        backoff.snooze();
    }
    Err(Halt::Stopped)
}
