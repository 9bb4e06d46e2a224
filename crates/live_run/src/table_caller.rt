//! What a thread of a live run calls the table with.

ghost use Rattle.history_lock.specs.Passes.{IsPassOf};

use crate::notes::{Halt, Notes, call_noted};
use crate::passes::TablePasses;
use assignment::Assignment;
use grants::{Phase, Row, TableCall, TableReply};
use history_lock::Pass;
use lease_table::LeaseTable;
use machines::Listed;
use shared_objects::{Draws, RowsError, SharedTable};
use std::sync::Wait;
use tickets::Ticket;

/// What a thread calls the table with: the table, the thread's pass of its lock and its draws, and
/// its notes about its calls.
#[derive(Drop)]
pub(crate) struct TableCaller<'a> {
    pub(crate) table: &'a SharedTable,
    pub(crate) pass: Pass<LeaseTable>,
    pub(crate) draws: Draws<'a>,
    pub(crate) notes: Notes,
    ghost own: { IsPassOf table.now.lock pass },
}

impl<'a> TableCaller<'a> {
    ghost use Rattle.std.specs.Prelude.{◌≡◌};
    ghost use Rattle.tickets.specs.Tickets.{DrawsFrom};

    /// Creates the caller of a thread that has these passes.
    pub(crate) fn new(
        table: &'a SharedTable,
        ticket: &'a Ticket,
        passes: TablePasses,
    ) -> TableCaller<'a>
        requires own { IsPassOf table.now.lock passes.pass }
        requires draws { DrawsFrom ticket.now passes.draws }
        ensures table { result.table.now ≡ table.now }
        ensures ticket { result.draws.ticket.now ≡ ticket.now }
        ensures pass { result.pass ≡ passes.pass }
        ensures draws { result.draws.pass ≡ passes.draws }
        ensures notes { result.notes ≡ passes.notes }
    {
        let TablePasses { pass, draws, notes } = passes;
        TableCaller {
            table,
            pass,
            draws: Draws::new(ticket, draws),
            notes,
        }
    }
}

impl TableCaller<'_> {
    ghost use Rattle.std.specs.Prelude.{◌≡◌, IfOk, false};
    ghost use Rattle.shared_objects.specs.Actors.{IsTableReply};
    ghost use Rattle.tickets.specs.Tickets.{DrawsFrom};
    ghost use Rattle.live_run.specs.internals.Notes.{IsReadNoted, TellsMemory};
    ghost use Rattle.live_run.specs.internals.Callers.{KeepsCaller, CalledForTable};

    /// Returns the passes.
    pub(crate) fn into_passes(self) -> TablePasses
        ensures own { IsPassOf self.entry.table.now.lock result.pass }
        ensures from { DrawsFrom self.entry.draws.ticket.now result.draws }
        ensures pass { result.pass ≡ self.entry.pass }
        ensures draws { result.draws ≡ self.entry.draws.pass }
        ensures notes { result.notes ≡ self.entry.notes }
    {
        let TableCaller {
            table: _,
            pass,
            draws,
            notes,
        } = self;
        TablePasses {
            pass,
            draws: draws.into_pass(),
            notes,
        }
    }

    /// Makes a call of the table at its ticket.
    pub(crate) fn call<R: Wait>(&mut self, rt: &R, call: TableCall) -> Result<TableReply, Halt>
        requires fed { self.old.notes.starved ≡ false }
        ensures kept { KeepsCaller self.old self.new }
        ensures memory { TellsMemory result self.new.notes }
        ensures noted { CalledForTable call self.old result self.new }
        ensures reply { IfOk result (λ reply. IsTableReply call reply) }
    {
        let (pass, draws) = (&mut self.pass, &mut self.draws);
        call_noted(rt, self.table, pass, draws, &mut self.notes, call)
    }

    /// Reads the table's phase. No record is kept of it.
    #[tactic(auto, using(crate::proofs::Lanes::asked_lane))]
    pub(crate) fn phase<R: Wait>(&mut self, rt: &R) -> Result<Phase, Halt>
        requires fed { self.old.notes.starved ≡ false }
        ensures kept { KeepsCaller self.old self.new }
        ensures memory { TellsMemory result self.new.notes }
        ensures noted { IsReadNoted self.old.notes result self.new.notes }
    {
        let asked = self.table.phase(rt, &mut self.pass, &mut self.draws)?;
        Ok(asked.answer)
    }

    /// Reads the table's open rows. No record is kept of it.
    #[tactic(auto, using(crate::proofs::Lanes::rows_lane))]
    pub(crate) fn rows<R: Wait>(&mut self, rt: &R) -> Result<Listed<Row>, Halt>
        requires fed { self.old.notes.starved ≡ false }
        ensures kept { KeepsCaller self.old self.new }
        ensures memory { TellsMemory result self.new.notes }
        ensures noted { IsReadNoted self.old.notes result self.new.notes }
    {
        match self.table.rows(rt, &mut self.pass, &mut self.draws) {
            Ok(asked) => Ok(asked.answer),
            Err(RowsError::Spent) => Err(Halt::Stopped),
            Err(RowsError::NoMemory) => Err(self.notes.starve()),
        }
    }

    /// Returns a copy of the committed assignment.
    #[tactic(auto, using(crate::proofs::Lanes::committed_lane))]
    pub(crate) fn committed<R: Wait>(&mut self, rt: &R) -> Result<Option<Assignment>, Halt>
        requires fed { self.old.notes.starved ≡ false }
        ensures kept { KeepsCaller self.old self.new }
        ensures memory { TellsMemory result self.new.notes }
        ensures noted { IsReadNoted self.old.notes result self.new.notes }
    {
        match self.table.committed(rt, &mut self.pass) {
            Ok(committed) => Ok(committed),
            Err(_) => Err(self.notes.starve()),
        }
    }
}
