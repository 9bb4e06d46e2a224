//! What the clerk's thread of a live run calls with.

ghost use Rattle.history_lock.specs.Passes.{IsPassOf};

use crate::notes::{Halt, call_noted};
use crate::objects::Objects;
use crate::passes::ClerkPasses;
use crate::table_caller::TableCaller;
use clerk::{Clerk, ClerkCall, ClerkReply};
use history_lock::Pass;
use shared_objects::SharedClerk;
use std::sync::Wait;

/// What the clerk's thread calls with: its means to call the table, its clerk, and its pass of the clerk's
/// lock.
#[derive(Drop)]
pub(crate) struct ClerkCaller<'a> {
    pub(crate) table: TableCaller<'a>,
    pub(crate) clerk: &'a SharedClerk,
    pub(crate) own: Pass<Clerk>,
    ghost owned: { IsPassOf clerk.now.lock own },
}

impl<'a> ClerkCaller<'a> {
    ghost use Rattle.std.specs.Prelude.{◌≡◌};
    ghost use Rattle.tickets.specs.Tickets.{DrawsFrom};

    /// Creates the caller of a thread that has these passes.
    pub(crate) fn new(objects: &'a Objects, passes: ClerkPasses) -> ClerkCaller<'a>
        requires table { IsPassOf objects.now.table.lock passes.table.pass }
        requires own { IsPassOf objects.now.clerk.lock passes.own }
        requires draws { DrawsFrom objects.now.ticket passes.table.draws }
        ensures table { result.table.table.now ≡ objects.now.table }
        ensures ticket { result.table.draws.ticket.now ≡ objects.now.ticket }
        ensures clerk { result.clerk.now ≡ objects.now.clerk }
        ensures pass { result.table.pass ≡ passes.table.pass }
        ensures own { result.own ≡ passes.own }
        ensures notes { result.table.notes ≡ passes.table.notes }
    {
        let ClerkPasses { table, own } = passes;
        ClerkCaller {
            table: TableCaller::new(&objects.table, &objects.ticket, table),
            clerk: &objects.clerk,
            own,
        }
    }
}

impl ClerkCaller<'_> {
    ghost use Rattle.std.specs.Prelude.{◌≡◌, false};
    ghost use Rattle.tickets.specs.Tickets.{DrawsFrom};
    ghost use Rattle.live_run.specs.internals.Notes.{TellsMemory};
    ghost use Rattle.live_run.specs.internals.Callers.{CalledForClerk, KeepsClerkCaller};

    /// Returns the passes.
    pub(crate) fn into_passes(self) -> ClerkPasses
        ensures table { IsPassOf self.entry.table.table.now.lock result.table.pass }
        ensures clerk { IsPassOf self.entry.clerk.now.lock result.own }
        ensures from { DrawsFrom self.entry.table.draws.ticket.now result.table.draws }
        ensures pass { result.table.pass ≡ self.entry.table.pass }
        ensures own { result.own ≡ self.entry.own }
        ensures notes { result.table.notes ≡ self.entry.table.notes }
    {
        let ClerkCaller {
            table,
            clerk: _,
            own,
        } = self;
        ClerkPasses {
            table: table.into_passes(),
            own,
        }
    }

    /// Makes a call of the clerk.
    pub(crate) fn call<R: Wait>(&mut self, rt: &R, call: ClerkCall) -> Result<ClerkReply, Halt>
        requires fed { self.old.table.notes.starved ≡ false }
        ensures kept { KeepsClerkCaller self.old self.new }
        ensures memory { TellsMemory result self.new.table.notes }
        ensures noted { CalledForClerk call self.old result self.new }
    {
        let (table, own) = (&mut self.table, &mut self.own);
        call_noted(
            rt,
            self.clerk,
            own,
            &mut table.draws,
            &mut table.notes,
            call,
        )
    }
}
