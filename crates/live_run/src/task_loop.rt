//! The thread of a task of a live run, which keeps its leases up to date.

ghost use Rattle.std.specs.Prelude.{◌≡◌, IfOk, false};
ghost use Rattle.live_run.specs.internals.Notes.{TellsMemory};
ghost use Rattle.live_run.specs.internals.Callers.{AreTaskPasses, KeepsTaskPasses, KeepsTaskCaller};

use crate::job::{LIFE, LiveJob, TICKET, TURNS};
use crate::notes::Halt;
use crate::objects::TaskObjects;
use crate::passes::TaskPasses;
use crate::task_caller::TaskCaller;
use crossbeam_utils::Backoff;
use grants::{Grant, Phase, SliceletCall, TableCall};
use lease_rule::Kind;
use shared_objects::grant;
use std::alloc::AllocError;
use std::sync::Wait;

/// The generations of the leases that a task holds.
#[derive(Clone, Copy)]
struct HeldGenerations {
    guard: Option<u64>,
    bridge: Option<u64>,
}

impl HeldGenerations {
    // Whether a task with these leases asks for another one.
    fn asks_at(self, phase: Phase) -> bool {
        match phase {
            Phase::Steady(generation) => generation >= 1 && self.guard != Some(generation),
            Phase::Bridging(_, next) => self.bridge != Some(next),
        }
    }

    // Returns the generation of the lease of a kind.
    fn of(self, kind: Kind) -> Option<u64> {
        match kind {
            Kind::Guard => self.guard,
            Kind::Bridge => self.bridge,
        }
    }

    // Returns the same generations with another lease of a kind, or with none.
    fn with(self, kind: Kind, generation: Option<u64>) -> HeldGenerations {
        match kind {
            Kind::Guard => HeldGenerations {
                guard: generation,
                bridge: self.bridge,
            },
            Kind::Bridge => HeldGenerations {
                guard: self.guard,
                bridge: generation,
            },
        }
    }

    // Whether the guard is of a generation before that of a bridge that was heard.
    fn guards_before(self, kind: Kind, generation: u64) -> bool {
        match self.guard {
            Some(older) => kind == Kind::Bridge && older < generation,
            None => false,
        }
    }
}

/// Starts the task's life, and gets leases until it has a guard lease of the last generation.
pub(crate) fn see_to_leases<R: Wait>(
    rt: &R,
    shared: &TaskObjects<'_>,
    job: LiveJob,
    passes: TaskPasses,
) -> Result<TaskPasses, AllocError>
    requires { AreTaskPasses shared.now.table.now shared.now.slicelet.now shared.now.ticket.now passes }
    ensures kept { IfOk result (λ left. KeepsTaskPasses shared.now.table.now shared.now.slicelet.now shared.now.ticket.now passes left) }
    ensures fed { IfOk result (λ left. left.table.notes.starved ≡ false) }
{
    let mut caller = TaskCaller::new(shared, passes);
    match follow_phases(rt, job.rounds(), &mut caller) {
        Err(Halt::NoMemory) => Err(AllocError),
        Ok(()) => Ok(caller.into_passes()),
        Err(Halt::Stopped) => Ok(caller.into_passes()),
    }
}

// Starts the task's life, and asks for a lease in each phase that needs another, up to the guard of
// the last round.
#[tactic(auto, using(crate::proofs::Keeping::task_same, crate::proofs::Keeping::task_more, crate::proofs::Keeping::task_by_table))]
fn follow_phases<R: Wait>(rt: &R, rounds: u64, caller: &mut TaskCaller<'_>) -> Result<(), Halt>
    requires fed { caller.old.table.notes.starved ≡ false }
    ensures kept { KeepsTaskCaller caller.old caller.new }
    ensures memory { TellsMemory result caller.new.table.notes }
{
    let start = SliceletCall::Start {
        life: LIFE,
        at: TICKET,
    };
    caller.call(rt, start)?;
    let mut held = HeldGenerations {
        guard: None,
        bridge: None,
    };
    let backoff = Backoff::new();
    for _ in 0..TURNS {
        let phase = caller.table.phase(rt)?;
        if held.asks_at(phase) {
            held = renew(rt, held, caller)?;
            backoff.reset();
        }
        if held.guard == Some(rounds) {
            return Ok(());
        }
        backoff.snooze();
    }
    Err(Halt::Stopped)
}

// Asks for a lease and hears it. The lease of its kind is released before, and after a bridge a
// guard of a lower generation.
#[tactic(auto, using(crate::proofs::Keeping::task_same, crate::proofs::Keeping::task_more, crate::proofs::Keeping::task_by_table))]
fn renew<R: Wait>(
    rt: &R,
    held: HeldGenerations,
    caller: &mut TaskCaller<'_>,
) -> Result<HeldGenerations, Halt>
    requires fed { caller.old.table.notes.starved ≡ false }
    ensures kept { KeepsTaskCaller caller.old caller.new }
    ensures memory { TellsMemory result caller.new.table.notes }
{
    let ask = TableCall::Grant {
        task: caller.task,
        life: LIFE,
        at: TICKET,
    };
    let grant = grant(caller.table.call(rt, ask)?);
    let kind = grant.lease.kind;
    let generation = grant.lease.generation;
    replace(rt, grant, held, caller)?;
    end_guard(
        rt,
        kind,
        generation,
        held.with(kind, Some(generation)),
        caller,
    )
}

// Hears a grant. The lease of its kind is released before, if one is held.
#[tactic(auto, using(crate::proofs::Keeping::task_more))]
fn replace<R: Wait>(
    rt: &R,
    grant: Grant,
    held: HeldGenerations,
    caller: &mut TaskCaller<'_>,
) -> Result<(), Halt>
    requires fed { caller.old.table.notes.starved ≡ false }
    ensures kept { KeepsTaskCaller caller.old caller.new }
    ensures memory { TellsMemory result caller.new.table.notes }
{
    if held.of(grant.lease.kind).is_some() {
        caller.give_up(rt, grant.lease.kind)?;
    }
    caller.call(rt, SliceletCall::Hear { grant, at: TICKET })?;
    Ok(())
}

// Releases a guard of a lower generation after a bridge was heard.
#[tactic(auto, using(crate::proofs::Keeping::task_same))]
fn end_guard<R: Wait>(
    rt: &R,
    kind: Kind,
    generation: u64,
    held: HeldGenerations,
    caller: &mut TaskCaller<'_>,
) -> Result<HeldGenerations, Halt>
    requires fed { caller.old.table.notes.starved ≡ false }
    ensures kept { KeepsTaskCaller caller.old caller.new }
    ensures memory { TellsMemory result caller.new.table.notes }
{
    if !held.guards_before(kind, generation) {
        return Ok(held);
    }
    caller.give_up(rt, Kind::Guard)?;
    Ok(held.with(Kind::Guard, None))
}
