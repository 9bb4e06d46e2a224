//! The threads of a task's workers, which ask the task for keys.

ghost use Rattle.std.specs.Prelude.{◌≡◌, ◌≤◌, ◌+◌, IfOk, length, decimal};
ghost use Rattle.history_lock.specs.Passes.{IsPassOf};
ghost use Rattle.slice_ranges.specs.Hash.{slice_key};
ghost use Rattle.tickets.specs.Tickets.{DrawsFrom, new_ticket_pass};
ghost use Rattle.job_calls.specs.declared.call.ClusterCall.TheVariants as recorded_call;
ghost use Rattle.shared_objects.specs.Draws.{CanDraw};
ghost use Rattle.shared_objects.specs.declared.when.When.TheVariants as when;
ghost use Rattle.live_run.specs.internals.LiveTasks.{HasWorked, TellsVerdict};

use crate::objects::TaskObjects;
use history_lock::Pass;
use job_calls::CallRecord;
use shared_objects::{Draws, Gate, SharedSlicelet, Turn, When};
use slice_ranges::{SliceKey, slice_key};
use slicelet::Slicelet;
use std::alloc::{AllocError, Global};
use std::sync::Wait;
use tickets::TicketPass;

/// The passes of a thread of a task, and the number by which it calls the gate. The task's own
/// thread has lane 0 of the task's lock and calls no gate. The workers have the lanes from 1 on.
#[derive(Drop)]
pub(crate) struct Member {
    pub(crate) number: u32,
    pub(crate) pass: Pass<Slicelet>,
    pub(crate) draws: TicketPass,
}

/// What a worker leaves: its passes, and the records of its calls.
#[derive(Drop)]
pub(crate) struct Worked {
    pub(crate) pass: Pass<Slicelet>,
    pub(crate) draws: TicketPass,
    pub(crate) records: Vec<CallRecord>,
}

/// What a worker calls with: the slicelet of its task, and its pass of the slicelet's lock and its
/// draws.
#[derive(Drop)]
struct WorkerCaller<'a> {
    slicelet: &'a SharedSlicelet,
    pass: Pass<Slicelet>,
    draws: Draws<'a>,
    ghost own: { IsPassOf slicelet.now.lock pass },
}

/// Asks the task for the keys that are the decimal texts of 0, 1 and so on, one call for each.
pub(crate) fn work<R: Wait, G: Gate>(
    rt: &R,
    alloc: Global,
    shared: &TaskObjects<'_>,
    gate: &G,
    asks: u32,
    member: Member,
) -> Result<Worked, AllocError>
    requires own { IsPassOf shared.now.slicelet.now.lock member.pass }
    requires draws { member.draws ≡ new_ticket_pass shared.now.ticket.now }
    requires enough { asks ≤ shared.now.ticket.now.terms.quota }
    ensures { IfOk result (λ worked. HasWorked shared.now.slicelet.now shared.now.ticket.now asks member.pass.lane worked) }
{
    let mut records = Vec::with_capacity(alloc, asks as usize)?;
    let Member {
        number: worker,
        pass,
        draws,
    } = member;
    let mut caller = WorkerCaller {
        slicelet: shared.slicelet,
        pass,
        draws: Draws::new(shared.ticket, draws),
    };
    for ask in 0..asks {
        let key = nth_key(alloc, ask)?;
        let turn = Turn {
            gate,
            worker,
            ask,
            when: When::AtTicket,
        };
        let record = caller.ask_for(rt, key, &turn);
        records.push(record)?;
    }
    Ok(caller.into_worked(records))
}

// Returns the key that is the decimal text of a number.
fn nth_key(alloc: Global, number: u32) -> Result<SliceKey, AllocError>
    ensures { IfOk result (λ key. key ≡ slice_key (decimal number)) }
{
    let text = format!(in alloc; "{number}")?;
    Ok(slice_key(text.as_str().as_bytes()))
}

impl WorkerCaller<'_> {
    // Asks for a key at the ticket of the call, and returns the record.
    #[tactic(auto, using(crate::proofs::Lanes::asked_lane, crate::proofs::Asked::asked_drew, crate::proofs::Asked::asked_step, crate::proofs::Asked::asked_verdict, crate::proofs::Asked::spent_not))]
    fn ask_for<R: Wait, G: Gate>(&mut self, rt: &R, key: SliceKey, turn: &Turn<'_, G>) -> CallRecord
        requires can { CanDraw self.old.draws.pass }
        requires ticket { turn.now.when ≡ when.AtTicket }
        ensures slicelet { self.new.slicelet ≡ self.old.slicelet }
        ensures ticket { self.new.draws.ticket ≡ self.old.draws.ticket }
        ensures lane { self.new.pass.lane ≡ self.old.pass.lane }
        ensures terms { self.new.draws.pass.terms ≡ self.old.draws.pass.terms }
        ensures drew { length self.new.draws.pass.drawn ≡ length self.old.draws.pass.drawn + 1 }
        ensures asked { result.step ≡ recorded_call.Serve self.old.slicelet.now.number key result.ticket }
        ensures told { TellsVerdict self.old.slicelet.now self.old.draws.pass self.new.draws.pass key self.old.pass result self.new.pass }
    {
        let (pass, draws) = (&mut self.pass, &mut self.draws);
        let Ok(asked) = self.slicelet.serve_gated(rt, pass, draws, key, turn) else {
            unreachable!()
        };
        asked.call
    }

    // Returns the passes, with the records of its asks.
    fn into_worked(self, records: Vec<CallRecord>) -> Worked
        ensures own { IsPassOf self.entry.slicelet.now.lock result.pass }
        ensures from { DrawsFrom self.entry.draws.ticket.now result.draws }
        ensures pass { result.pass ≡ self.entry.pass }
        ensures records { result.records ≡ records }
    {
        let WorkerCaller {
            slicelet: _,
            pass,
            draws,
        } = self;
        Worked {
            pass,
            draws: draws.into_pass(),
            records,
        }
    }
}
