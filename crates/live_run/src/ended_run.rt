//! What the threads of a live run leave, and the report that is made from it.

ghost use Rattle.std.specs.Prelude.{◌≡◌, ◌+◌, ◌*◌, ◌∷◌, [], ◌++◌, All, None, IfOk, OnOk, vec_len};
ghost use Rattle.clerk.specs.Calls.{event_step as clerk_step};
ghost use Rattle.history_lock.specs.Histories.{IsLegal};
ghost use Rattle.history_lock.specs.Passes.{ArePassesOf};
ghost use Rattle.lease_table.specs.Calls.{event_step as table_step};
ghost use Rattle.lease_table.specs.Tables.{opening};
ghost use Rattle.tickets.specs.Tickets.{DrawsFrom};
ghost use Rattle.live_run.specs.internals.LiveTasks.{AreOfLanesFrom};
ghost use Rattle.live_run.specs.LiveJobs.{live_policy};
ghost use Rattle.live_run.specs.Reports.{IsReported, asked_keys, job_keys, serves};
ghost use Rattle.live_run.specs.internals.OpenedRuns.{HaveLeftFrom, AreQuietClerkPasses, AreQuietPasses, IsEndedRun};

use crate::job::LiveJob;
use crate::live_task::EndedTask;
use crate::objects::Objects;
use crate::passes::{ClerkPasses, TablePasses};
use crate::report::{LiveReport, count_commits, count_serves};
use audit::audit;
use clerk::{Clerk, ClerkEvent};
use history_lock::{Closed, History, Pass};
use job_calls::CallRecord;
use lease_table::{LeaseTable, TableEvent};
use shared_objects::{SharedClerk, SharedTable};
use slicelet::SliceletEvent;
use std::alloc::{AllocError, Global};
use tickets::{Ticket, TicketPass};

/// What all threads leave: passes, the histories of the tasks, and the records of the calls that
/// wrote no entry.
#[derive(Drop)]
pub(crate) struct EndedRun {
    pub(crate) table: Vec<Pass<LeaseTable>>,
    pub(crate) clerk: Vec<Pass<Clerk>>,
    pub(crate) draws: Vec<TicketPass>,
    pub(crate) tasks: Vec<History<SliceletEvent>>,
    pub(crate) records: Vec<CallRecord>,
}

/// Combines what all threads leave.
pub(crate) fn ended_run_of(
    alloc: Global,
    objects: &Objects,
    job: LiveJob,
    assigner: TablePasses,
    learner: ClerkPasses,
    live_tasks: Vec<Result<EndedTask, AllocError>>,
) -> Result<EndedRun, AllocError>
    requires assigner { AreQuietPasses objects.now.table objects.now.ticket 0 assigner }
    requires learner { AreQuietClerkPasses objects.now.table objects.now.clerk.lock objects.now.ticket learner }
    requires live_tasks { HaveLeftFrom objects.now.table objects.now.ticket job.workers job.asks 1 live_tasks.items }
    ensures ended_run { IfOk result (λ ended_run. IsEndedRun objects.now.table objects.now.clerk.lock objects.now.ticket job.workers job.asks ended_run) }
    ensures many { IfOk result (λ ended_run. vec_len ended_run.table ≡ vec_len live_tasks + 2) }
{
    let mut ended_run = EndedRun::of_two(alloc, assigner, learner)?;
    for live_task in live_tasks {
        ended_run.take_ended(live_task?)?;
    }
    Ok(ended_run)
}

impl EndedRun {
    // Combines what the threads of the assigner and of the clerk leave.
    fn of_two(
        alloc: Global,
        assigner: TablePasses,
        learner: ClerkPasses,
    ) -> Result<EndedRun, AllocError>
        ensures table { IfOk result (λ ended_run. ended_run.table.items ≡ assigner.pass ∷ learner.table.pass ∷ []) }
        ensures clerk { IfOk result (λ ended_run. ended_run.clerk.items ≡ learner.own ∷ []) }
        ensures draws { IfOk result (λ ended_run. ended_run.draws.items ≡ assigner.draws ∷ learner.table.draws ∷ []) }
        ensures tasks { IfOk result (λ ended_run. ended_run.tasks.items ≡ []) }
        ensures records { IfOk result (λ ended_run. ended_run.records.items ≡ assigner.notes.records.items ++ learner.table.notes.records.items) }
    {
        let ClerkPasses {
            table: learner,
            own,
        } = learner;
        let mut ended_run = EndedRun {
            table: Vec::new(alloc),
            clerk: Vec::new(alloc),
            draws: Vec::new(alloc),
            tasks: Vec::new(alloc),
            records: Vec::new(alloc),
        };
        ended_run.clerk.push(own)?;
        ended_run.take_passes(assigner)?;
        ended_run.take_passes(learner)?;
        Ok(ended_run)
    }

    // Appends what a thread that calls the table leaves.
    fn take_passes(&mut self, passes: TablePasses) -> Result<(), AllocError>
        ensures table { OnOk result (self.new.table.items ≡ self.old.table.items ++ passes.pass ∷ []) }
        ensures clerk { self.new.clerk ≡ self.old.clerk }
        ensures draws { OnOk result (self.new.draws.items ≡ self.old.draws.items ++ passes.draws ∷ []) }
        ensures tasks { self.new.tasks ≡ self.old.tasks }
        ensures records { OnOk result (self.new.records.items ≡ self.old.records.items ++ passes.notes.records.items) }
    {
        let TablePasses { pass, draws, notes } = passes;
        let mut records = notes.into_records();
        self.table.push(pass)?;
        self.draws.push(draws)?;
        self.records.append(&mut records)?;
        Ok(())
    }

    // Appends what a task leaves.
    fn take_ended(&mut self, live_task: EndedTask) -> Result<(), AllocError>
        ensures table { OnOk result (self.new.table.items ≡ self.old.table.items ++ live_task.table ∷ []) }
        ensures clerk { self.new.clerk ≡ self.old.clerk }
        ensures draws { OnOk result (self.new.draws.items ≡ self.old.draws.items ++ live_task.draws.items) }
        ensures tasks { OnOk result (self.new.tasks.items ≡ self.old.tasks.items ++ live_task.history ∷ []) }
        ensures records { OnOk result (self.new.records.items ≡ self.old.records.items ++ live_task.records.items) }
    {
        let EndedTask {
            table,
            history,
            mut draws,
            mut records,
        } = live_task;
        self.table.push(table)?;
        self.tasks.push(history)?;
        self.draws.append(&mut draws)?;
        self.records.append(&mut records)?;
        Ok(())
    }
}

/// Closes what is not closed yet, and returns the report.
pub(crate) fn close_all(
    alloc: Global,
    job: LiveJob,
    objects: Objects,
    ended_run: EndedRun,
) -> Result<LiveReport, AllocError>
    requires machines { (objects.table.lock.opened.machine ≡ opening live_policy) × (objects.clerk.lock.opened.machine ≡ None) }
    requires ended_run { IsEndedRun objects.table objects.clerk.lock objects.ticket job.workers job.asks ended_run }
    requires tasks { vec_len ended_run.tasks ≡ job.tasks }
    requires lanes { (vec_len ended_run.table ≡ objects.table.lock.opened.lanes) × (objects.clerk.lock.opened.lanes ≡ 1) }
    requires draws { vec_len ended_run.draws ≡ objects.ticket.terms.passes }
    requires served { serves ended_run.records.items ≡ job.tasks * job.workers * job.asks }
    requires keys { asked_keys ended_run.records.items ≡ job_keys job.workers job.asks 1 job.tasks }
    ensures { IfOk result (IsReported job) }
{
    let Objects {
        ticket,
        table,
        clerk,
    } = objects;
    let EndedRun {
        table: table_passes,
        clerk: clerk_passes,
        draws,
        tasks,
        records,
    } = ended_run;
    let mut clerks: Vec<History<ClerkEvent>> = Vec::with_capacity(alloc, 1)?;
    close_ticket(ticket, draws);
    let table = close_table(table, table_passes);
    clerks.push(close_clerk(clerk, clerk_passes))?;
    let audit = audit(
        alloc,
        &job.played(),
        &table,
        tasks.as_slice(),
        clerks.as_slice(),
        records.as_slice(),
    )?;
    Ok(LiveReport {
        asked: count_serves(records.as_slice()),
        generation: count_commits(table.entries()),
        table,
        tasks,
        clerks,
        records,
        audit,
    })
}

// Closes the ticket.
fn close_ticket(ticket: Ticket, draws: Vec<TicketPass>)
    requires own { All (λ pass. DrawsFrom ticket pass) draws.items }
    requires many { vec_len draws ≡ ticket.terms.passes }
{
    let Ok(_) = ticket.close(draws) else {
        unreachable!()
    };
}

// Closes the table's lock.
fn close_table(table: SharedTable, passes: Vec<Pass<LeaseTable>>) -> History<TableEvent>
    requires own { ArePassesOf table.lock passes.items }
    requires lanes { AreOfLanesFrom 0 passes.items }
    requires many { vec_len passes ≡ table.lock.opened.lanes }
    ensures { IsLegal table_step table.lock.opened.machine result }
{
    let Ok(
        Closed {
            machine: _,
            history,
        },
    ) = table.close(passes)
    else {
        unreachable!()
    };
    history
}

// Closes the clerk's lock.
fn close_clerk(clerk: SharedClerk, passes: Vec<Pass<Clerk>>) -> History<ClerkEvent>
    requires own { ArePassesOf clerk.lock passes.items }
    requires lanes { AreOfLanesFrom 0 passes.items }
    requires many { vec_len passes ≡ clerk.lock.opened.lanes }
    ensures { IsLegal clerk_step clerk.lock.opened.machine result }
{
    let Ok(
        Closed {
            machine: _,
            history,
        },
    ) = clerk.close(passes)
    else {
        unreachable!()
    };
    history
}
