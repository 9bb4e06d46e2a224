//! What a task's thread of a live run calls with.

ghost use Rattle.history_lock.specs.Passes.{IsPassOf};

use crate::job::TICKET;
use crate::notes::{Halt, call_noted};
use crate::objects::TaskObjects;
use crate::passes::TaskPasses;
use crate::table_caller::TableCaller;
use assignment::TaskId;
use grants::{SliceletCall, SliceletReply, TableCall};
use history_lock::Pass;
use lease_rule::Kind;
use shared_objects::{SharedSlicelet, release_note};
use slicelet::Slicelet;
use std::sync::Wait;

/// What a task's thread calls with: its means to call the table, its slicelet, and its pass of the slicelet's
/// lock.
#[derive(Drop)]
pub(crate) struct TaskCaller<'a> {
    pub(crate) task: TaskId,
    pub(crate) table: TableCaller<'a>,
    pub(crate) slicelet: &'a SharedSlicelet,
    pub(crate) own: Pass<Slicelet>,
    ghost owned: { IsPassOf slicelet.now.lock own },
}

impl<'a> TaskCaller<'a> {
    ghost use Rattle.std.specs.Prelude.{◌≡◌};
    ghost use Rattle.tickets.specs.Tickets.{DrawsFrom};

    /// Creates the caller of a thread that has these passes.
    pub(crate) fn new(shared: &TaskObjects<'a>, passes: TaskPasses) -> TaskCaller<'a>
        requires table { IsPassOf shared.now.table.now.lock passes.table.pass }
        requires own { IsPassOf shared.now.slicelet.now.lock passes.own }
        requires draws { DrawsFrom shared.now.ticket.now passes.table.draws }
        ensures table { result.table.table.now ≡ shared.now.table.now }
        ensures ticket { result.table.draws.ticket.now ≡ shared.now.ticket.now }
        ensures slicelet { result.slicelet.now ≡ shared.now.slicelet.now }
        ensures pass { result.table.pass ≡ passes.table.pass }
        ensures own { result.own ≡ passes.own }
        ensures notes { result.table.notes ≡ passes.table.notes }
    {
        let TaskPasses { task, table, own } = passes;
        TaskCaller {
            task,
            table: TableCaller::new(shared.table, shared.ticket, table),
            slicelet: shared.slicelet,
            own,
        }
    }
}

impl TaskCaller<'_> {
    ghost use Rattle.std.specs.Prelude.{◌≡◌, IfOk, OnOk, false};
    ghost use Rattle.shared_objects.specs.Actors.{IsSliceletReply};
    ghost use Rattle.tickets.specs.Tickets.{DrawsFrom};
    ghost use Rattle.live_run.specs.internals.Notes.{TellsMemory};
    ghost use Rattle.live_run.specs.internals.Callers.{CalledForTask, HasFreed, KeepsTaskCaller};

    /// Returns the passes.
    pub(crate) fn into_passes(self) -> TaskPasses
        ensures table { IsPassOf self.entry.table.table.now.lock result.table.pass }
        ensures slicelet { IsPassOf self.entry.slicelet.now.lock result.own }
        ensures from { DrawsFrom self.entry.table.draws.ticket.now result.table.draws }
        ensures pass { result.table.pass ≡ self.entry.table.pass }
        ensures own { result.own ≡ self.entry.own }
        ensures notes { result.table.notes ≡ self.entry.table.notes }
    {
        let TaskCaller {
            task,
            table,
            slicelet: _,
            own,
        } = self;
        TaskPasses {
            task,
            table: table.into_passes(),
            own,
        }
    }

    /// Makes a call of the slicelet at its ticket.
    pub(crate) fn call<R: Wait>(
        &mut self,
        rt: &R,
        call: SliceletCall,
    ) -> Result<SliceletReply, Halt>
        requires fed { self.old.table.notes.starved ≡ false }
        ensures kept { KeepsTaskCaller self.old self.new }
        ensures table { self.new.table.pass ≡ self.old.table.pass }
        ensures memory { TellsMemory result self.new.table.notes }
        ensures noted { CalledForTask call self.old result self.new }
        ensures reply { IfOk result (λ reply. IsSliceletReply call reply) }
    {
        let (table, own) = (&mut self.table, &mut self.own);
        call_noted(
            rt,
            self.slicelet,
            own,
            &mut table.draws,
            &mut table.notes,
            call,
        )
    }

    /// Releases the lease of a kind, and frees its row at the table.
    #[tactic(auto, using(crate::proofs::Keeping::task_more, crate::proofs::Keeping::task_by_table))]
    pub(crate) fn give_up<R: Wait>(&mut self, rt: &R, kind: Kind) -> Result<(), Halt>
        requires fed { self.old.table.notes.starved ≡ false }
        ensures kept { KeepsTaskCaller self.old self.new }
        ensures memory { TellsMemory result self.new.table.notes }
        ensures freed { OnOk result (HasFreed kind self.old self.new) }
    {
        let reply = self.call(rt, SliceletCall::Release { kind, at: TICKET })?;
        let note = release_note(reply);
        self.table.call(rt, TableCall::Free { note, at: TICKET })?;
        Ok(())
    }
}
