//! What the threads of a live run share, and what each of them gets.

ghost use Rattle.std.specs.Prelude.{◌≡◌, ◌≤◌, ◌<◌, ◌+◌, ◌*◌, All, IfOk, OnOk, vec_len};
ghost use Rattle.history_lock.specs.Passes.{AreNewFrom, IsPassOf};
ghost use Rattle.tickets.specs.Tickets.{new_ticket_pass};
ghost use Rattle.live_run.specs.internals.LiveTasks.{IsLiveTask};
ghost use Rattle.live_run.specs.internals.OpenedRuns.{AreLiveTasksFrom, AreQuietClerkPasses, AreQuietPasses, IsOpenedRun};

use crate::job::{LiveJob, live_policy};
use crate::live_task::{LiveTask, LiveTaskPlan};
use crate::objects::Objects;
use crate::passes::{ClerkPasses, TablePasses};
use assignment::TaskId;
use clerk::Clerk;
use history_lock::{MOST_ENTRIES, Pass};
use lease_table::LeaseTable;
use shared_objects::{SharedClerk, SharedTable};
use std::alloc::{AllocError, Global};
use tickets::{MOST_DRAWS, Ticket, TicketPass};

/// What the threads of a live run share, and what they get.
#[derive(Drop)]
pub(crate) struct OpenedRun {
    pub(crate) objects: Objects,
    pub(crate) given: Given,
}

/// What the threads of a live run get: those of the assigner and the clerk, and the tasks.
#[derive(Drop)]
pub(crate) struct Given {
    pub(crate) assigner: TablePasses,
    pub(crate) learner: ClerkPasses,
    pub(crate) live_tasks: Vec<LiveTask>,
}

/// All passes of the locks of a new table and a new clerk, and of a new ticket.
#[derive(Drop)]
struct NewPasses {
    table: Vec<Pass<LeaseTable>>,
    clerk: Vec<Pass<Clerk>>,
    draws: Vec<TicketPass>,
}

impl OpenedRun {
    /// Creates the ticket and all locks, and distributes their passes among the threads.
    pub(crate) fn open(alloc: Global, job: LiveJob) -> Result<OpenedRun, AllocError>
        ensures { IfOk result (λ opened_run. IsOpenedRun job opened_run) }
    {
        let members = u64::from(job.workers()) + 1;
        let threads = job.tasks() * members + 2;
        let Ok((ticket, draws)) = Ticket::new(alloc, threads, MOST_DRAWS) else {
            return Err(AllocError);
        };
        let lanes = job.tasks() + 2;
        let Ok((table, passes)) = SharedTable::new(alloc, live_policy(), lanes, MOST_ENTRIES) else {
            return Err(AllocError);
        };
        let Ok((clerk, own)) = SharedClerk::new(alloc, 1, 1, MOST_ENTRIES) else {
            return Err(AllocError);
        };
        let objects = Objects {
            ticket,
            table,
            clerk,
        };
        let passes = NewPasses {
            table: passes,
            clerk: own,
            draws,
        };
        let given = deal(alloc, &objects, job, passes)?;
        Ok(OpenedRun { objects, given })
    }
}

// Distributes new passes of all locks and of the ticket among the threads of the assigner, the
// clerk and the tasks.
fn deal(
    alloc: Global,
    objects: &Objects,
    job: LiveJob,
    passes: NewPasses,
) -> Result<Given, AllocError>
    requires passes { AreNewFrom 0 objects.now.table.lock passes.table.items × (vec_len passes.table ≡ job.tasks + 2) }
    requires few { (job.tasks ≤ 6) × (job.workers ≤ 7) }
    requires own { AreNewFrom 0 objects.now.clerk.lock passes.clerk.items × (vec_len passes.clerk ≡ 1) }
    requires draws { All (λ pass. pass ≡ new_ticket_pass objects.now.ticket) passes.draws.items }
    requires many { vec_len passes.draws ≡ job.tasks * (job.workers + 1) + 2 }
    ensures assigner { IfOk result (λ given. AreQuietPasses objects.now.table objects.now.ticket 0 given.assigner) }
    ensures learner { IfOk result (λ given. AreQuietClerkPasses objects.now.table objects.now.clerk.lock objects.now.ticket given.learner) }
    ensures live_tasks { IfOk result (λ given. AreLiveTasksFrom objects.now.table objects.now.ticket job.workers 1 given.live_tasks.items) }
    ensures many { IfOk result (λ given. vec_len given.live_tasks ≡ job.tasks) }
{
    let NewPasses {
        table: mut passes,
        clerk: own,
        mut draws,
    } = passes;
    let Objects {
        ticket,
        table,
        clerk,
    } = objects;
    let others = passes.split_off(2)?;
    let learner = last_passes(alloc, table, ticket, &mut passes, &mut draws);
    let learner = clerk_passes(table, clerk, ticket, learner, own);
    let assigner = last_passes(alloc, table, ticket, &mut passes, &mut draws);
    let live_tasks = live_tasks(alloc, table, ticket, job, others, draws)?;
    Ok(Given {
        assigner,
        learner,
        live_tasks,
    })
}

// Returns the last of the passes of each, for a thread that calls the table.
fn last_passes(
    alloc: Global,
    table: &SharedTable,
    ticket: &Ticket,
    passes: &mut Vec<Pass<LeaseTable>>,
    draws: &mut Vec<TicketPass>,
) -> TablePasses
    requires passes { AreNewFrom 0 table.now.lock passes.old.items × (0 < vec_len passes.old) }
    requires draws { All (λ pass. pass ≡ new_ticket_pass ticket.now) draws.old.items × (0 < vec_len draws.old) }
    ensures passes { AreNewFrom 0 table.now.lock passes.new.items × (vec_len passes.new + 1 ≡ vec_len passes.old) }
    ensures draws { All (λ pass. pass ≡ new_ticket_pass ticket.now) draws.new.items × (vec_len draws.new + 1 ≡ vec_len draws.old) }
    ensures quiet { AreQuietPasses table.now ticket.now (vec_len passes.new) result }
{
    let Some(pass) = passes.pop() else {
        unreachable!()
    };
    let Some(drawn) = draws.pop() else {
        unreachable!()
    };
    TablePasses::new(alloc, pass, drawn)
}

// Returns the passes of the clerk's thread.
fn clerk_passes(
    table: &SharedTable,
    clerk: &SharedClerk,
    ticket: &Ticket,
    passes: TablePasses,
    mut own: Vec<Pass<Clerk>>,
) -> ClerkPasses
    requires passes { AreQuietPasses table.now ticket.now 1 passes }
    requires own { AreNewFrom 0 clerk.now.lock own.items × (vec_len own ≡ 1) }
    ensures { AreQuietClerkPasses table.now clerk.now.lock ticket.now result }
{
    let Some(pass) = own.pop() else {
        unreachable!()
    };
    ClerkPasses {
        table: passes,
        own: pass,
    }
}

// Returns the tasks with these passes of the table's lock, the first of which is that of task 1.
fn live_tasks(
    alloc: Global,
    table: &SharedTable,
    ticket: &Ticket,
    job: LiveJob,
    passes: Vec<Pass<LeaseTable>>,
    mut draws: Vec<TicketPass>,
) -> Result<Vec<LiveTask>, AllocError>
    requires passes { AreNewFrom 2 table.now.lock passes.items × (vec_len passes ≡ job.tasks) }
    requires few { (job.tasks ≤ 6) × (job.workers ≤ 7) }
    requires draws { All (λ pass. pass ≡ new_ticket_pass ticket.now) draws.items }
    requires many { vec_len draws ≡ job.tasks * (job.workers + 1) }
    ensures live_tasks { IfOk result (λ live_tasks. AreLiveTasksFrom table.now ticket.now job.workers 1 live_tasks.items) }
    ensures many { IfOk result (λ live_tasks. vec_len live_tasks ≡ job.tasks) }
{
    let mut live_tasks = Vec::with_capacity(alloc, passes.len())?;
    let per_task = job.workers();
    let mut number = 0;
    let mut before = 0;
    for pass in passes {
        number += 1;
        let Some(task) = TaskId::new(number) else {
            unreachable!()
        };
        let plan = LiveTaskPlan {
            task,
            workers: per_task,
            before,
        };
        let live_task = next_live_task(alloc, table, ticket, plan, pass, &mut draws)?;
        live_tasks.push(live_task)?;
        before += per_task;
    }
    Ok(live_tasks)
}

// Returns the task of a plan, with the last of the passes of the ticket.
fn next_live_task(
    alloc: Global,
    table: &SharedTable,
    ticket: &Ticket,
    plan: LiveTaskPlan,
    pass: Pass<LeaseTable>,
    draws: &mut Vec<TicketPass>,
) -> Result<LiveTask, AllocError>
    requires few { plan.before ≤ 35 }
    requires before { plan.before + plan.workers ≡ plan.task * plan.workers }
    requires pass { IsPassOf table.now.lock pass }
    requires lane { pass.lane ≡ plan.task + 1 }
    requires draws { All (λ pass. pass ≡ new_ticket_pass ticket.now) draws.old.items }
    requires enough { plan.workers + 1 ≤ vec_len draws.old }
    ensures live_task { IfOk result (λ live_task. IsLiveTask table.now ticket.now plan.workers live_task) }
    ensures task { IfOk result (λ live_task. live_task.task ≡ plan.task) }
    ensures draws { All (λ pass. pass ≡ new_ticket_pass ticket.now) draws.new.items }
    ensures left { OnOk result (vec_len draws.new + (plan.workers + 1) ≡ vec_len draws.old) }
{
    let members = plan.workers as usize + 1;
    let own = draws.split_off(draws.len() - members)?;
    LiveTask::new(alloc, table, ticket, plan, pass, own)
}
