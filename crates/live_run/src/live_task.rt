//! The threads of a task of a live run: the task's own, and one for each of its workers.

ghost use Rattle.std.specs.Prelude.{◌≡◌, ℕ, ◌≤◌, ◌<◌, ◌+◌, ◌*◌, [], false, All, IfOk, OnOk, vec_len, slice_index_or};
ghost use Rattle.std.specs.Thread.{IsSync};
ghost use Rattle.history_lock.specs.Histories.{IsLegal};
ghost use Rattle.history_lock.specs.Passes.{AreNewFrom, IsPassOf};
ghost use Rattle.slicelet.specs.Steps.{event_step};
ghost use Rattle.tickets.specs.Tickets.{DrawsFrom, new_ticket_pass};
ghost use Rattle.live_run.specs.internals.LiveTasks.{AreMembersFrom, AreNumberedFrom, HasLeft, HasWorked, HaveWorkedFrom, IsLiveTask, IsGathered, IsMember};
ghost use Rattle.live_run.specs.Reports.{serves};
ghost use Rattle.live_run.specs.internals.Callers.{AreTaskPasses, KeepsTaskPasses};

use crate::job::LiveJob;
use crate::objects::{Objects, TaskObjects};
use crate::passes::{TablePasses, TaskPasses};
use crate::task_loop::see_to_leases;
use crate::worker::{Member, Worked, work};
use assignment::TaskId;
use history_lock::{Closed, History, MOST_ENTRIES, Pass};
use job_calls::CallRecord;
use lease_table::LeaseTable;
use shared_objects::{Gate, SharedSlicelet, SharedTable};
use slicelet::{Slicelet, SliceletEvent};
use std::alloc::{AllocError, Global};
use std::sync::Wait;
use std::thread::{Threads, join, map_vec};
use tickets::{Ticket, TicketPass};

/// A task of a live run: its slicelet, its pass of the table's lock, and the passes of its threads,
/// its own first.
#[derive(Drop)]
pub(crate) struct LiveTask {
    pub(crate) task: TaskId,
    pub(crate) slicelet: SharedSlicelet,
    pub(crate) table: Pass<LeaseTable>,
    pub(crate) members: Vec<Member>,
}

/// Which task it is, how many workers it has, and how many workers the tasks before it have in all.
#[derive(Clone, Copy)]
pub(crate) struct LiveTaskPlan {
    pub(crate) task: TaskId,
    pub(crate) workers: u32,
    pub(crate) before: u32,
}

/// What the threads of a task leave: passes, and the records of their calls that wrote no entry.
#[derive(Drop)]
pub(crate) struct Gathered {
    pub(crate) passes: Vec<Pass<Slicelet>>,
    pub(crate) draws: Vec<TicketPass>,
    pub(crate) records: Vec<CallRecord>,
}

/// What a task of a live run leaves.
#[derive(Drop)]
pub(crate) struct EndedTask {
    pub(crate) table: Pass<LeaseTable>,
    pub(crate) history: History<SliceletEvent>,
    pub(crate) draws: Vec<TicketPass>,
    pub(crate) records: Vec<CallRecord>,
}

impl LiveTask {
    /// Creates the task of a plan, with a lane of its lock for its own thread and for each worker.
    pub(crate) fn new(
        alloc: Global,
        shared: &SharedTable,
        ticket: &Ticket,
        plan: LiveTaskPlan,
        table: Pass<LeaseTable>,
        draws: Vec<TicketPass>,
    ) -> Result<LiveTask, AllocError>
        requires few { plan.before ≤ 35 }
        requires before { plan.before + plan.workers ≡ plan.task * plan.workers }
        requires table { IsPassOf shared.now.lock table }
        requires lane { table.lane ≡ plan.task + 1 }
        requires draws { All (λ pass. pass ≡ new_ticket_pass ticket.now) draws.items }
        requires many { vec_len draws ≡ plan.workers + 1 }
        ensures live_task { IfOk result (λ live_task. IsLiveTask shared.now ticket.now plan.workers live_task) }
        ensures task { IfOk result (λ live_task. live_task.task ≡ plan.task) }
    {
        let LiveTaskPlan {
            task,
            workers,
            before,
        } = plan;
        let lanes = u64::from(workers) + 1;
        let Ok((slicelet, passes)) = SharedSlicelet::new(alloc, task, lanes, MOST_ENTRIES) else {
            return Err(AllocError);
        };
        let members = members_of(alloc, &slicelet, ticket, before, passes, draws)?;
        Ok(LiveTask {
            task,
            slicelet,
            table,
            members,
        })
    }

    /// Runs the task's thread and its workers, and closes the task's lock when all have ended.
    pub(crate) fn run<R: Threads + Wait + Sync, G: Gate + Sync>(
        self,
        rt: &R,
        alloc: Global,
        objects: &Objects,
        gate: &G,
        job: LiveJob,
    ) -> Result<EndedTask, AllocError>
        requires live_task { IsLiveTask objects.now.table objects.now.ticket job.workers self }
        requires enough { job.asks ≤ objects.now.ticket.terms.quota }
        ensures { IfOk result (λ left. HasLeft objects.now.table objects.now.ticket job.workers job.asks self.task left) }
    {
        let LiveTask {
            task,
            slicelet,
            table,
            mut members,
        } = self;
        let workers = members.split_off(1)?;
        let Some(first) = members.pop() else {
            unreachable!()
        };
        let passes = task_passes(alloc, task, table, first);
        let ticket = &objects.ticket;
        let shared = TaskObjects {
            ticket,
            table: &objects.table,
            slicelet: &slicelet,
        };
        let threads = TaskThreads { passes, workers };
        let (passes, worked) = run_members(rt, alloc, &shared, gate, job, threads)?;
        let (table, gathered) = gather(alloc, &slicelet, ticket, job.asks(), passes, worked)?;
        Ok(dismiss(slicelet, ticket, job.asks(), table, gathered))
    }
}

// Closes a task's lock, and combines what its threads leave.
fn dismiss(
    slicelet: SharedSlicelet,
    ticket: &Ticket,
    asks: u32,
    table: Pass<LeaseTable>,
    gathered: Gathered,
) -> EndedTask
    requires gathered { IsGathered slicelet ticket.now asks gathered }
    requires many { vec_len gathered.passes ≡ slicelet.lock.opened.lanes }
    ensures played { IsLegal event_step slicelet.lock.opened.machine result.history }
    ensures table { result.table ≡ table }
    ensures draws { result.draws ≡ gathered.draws }
    ensures records { result.records ≡ gathered.records }
{
    let Gathered {
        passes,
        draws,
        records,
    } = gathered;
    let Ok(
        Closed {
            machine: _,
            history,
        },
    ) = slicelet.close(passes)
    else {
        unreachable!()
    };
    EndedTask {
        table,
        history,
        draws,
        records,
    }
}

// Returns the threads of a task, one for each pass of its lock and of the ticket. `before` is the
// number of workers of the tasks before it.
fn members_of(
    alloc: Global,
    slicelet: &SharedSlicelet,
    ticket: &Ticket,
    before: u32,
    passes: Vec<Pass<Slicelet>>,
    mut draws: Vec<TicketPass>,
) -> Result<Vec<Member>, AllocError>
    requires before { before ≤ 35 }
    requires passes { AreNewFrom 0 slicelet.now.lock passes.items }
    requires few { vec_len passes ≤ 8 }
    requires draws { All (λ pass. pass ≡ new_ticket_pass ticket.now) draws.items }
    requires many { vec_len draws ≡ vec_len passes }
    ensures members { IfOk result (λ members. AreMembersFrom slicelet.now ticket.now 0 members.items) }
    ensures numbers { IfOk result (λ members. AreNumberedFrom before members.items) }
    ensures many { IfOk result (λ members. vec_len members ≡ vec_len passes) }
{
    let mut members = Vec::with_capacity(alloc, passes.len())?;
    let mut number = before;
    for pass in passes {
        let Some(own) = draws.pop() else {
            unreachable!()
        };
        members.push(Member {
            number,
            pass,
            draws: own,
        })?;
        number += 1;
    }
    Ok(members)
}

// Returns the passes of the task's own thread.
fn task_passes(alloc: Global, task: TaskId, table: Pass<LeaseTable>, member: Member) -> TaskPasses
    ensures table { result.table.pass ≡ table }
    ensures draws { result.table.draws ≡ member.draws }
    ensures records { result.table.notes.records.items ≡ [] }
    ensures fed { result.table.notes.starved ≡ false }
    ensures own { result.own ≡ member.pass }
{
    let Member {
        number: _,
        pass,
        draws,
    } = member;
    TaskPasses {
        task,
        table: TablePasses::new(alloc, table, draws),
        own: pass,
    }
}

/// The threads of a task: its own, and its workers.
#[derive(Drop)]
struct TaskThreads {
    passes: TaskPasses,
    workers: Vec<Member>,
}

// Runs the task's thread beside its workers.
fn run_members<R: Threads + Wait + Sync, G: Gate + Sync>(
    rt: &R,
    alloc: Global,
    shared: &TaskObjects<'_>,
    gate: &G,
    job: LiveJob,
    threads: TaskThreads,
) -> Result<(TaskPasses, Vec<Result<Worked, AllocError>>), AllocError>
    requires passes { AreTaskPasses shared.now.table.now shared.now.slicelet.now shared.now.ticket.now threads.passes }
    requires workers { AreMembersFrom shared.now.slicelet.now shared.now.ticket.now 1 threads.workers.items }
    requires enough { job.asks ≤ shared.now.ticket.now.terms.quota }
    ensures passes { IfOk result (λ left. KeepsTaskPasses shared.now.table.now shared.now.slicelet.now shared.now.ticket.now threads.passes left.0) }
    ensures worked { IfOk result (λ left. HaveWorkedFrom shared.now.slicelet.now shared.now.ticket.now job.asks 1 left.1.items) }
    ensures many { IfOk result (λ left. vec_len left.1 ≡ vec_len threads.workers) }
{
    let TaskThreads { passes, workers } = threads;
    let (ticket, table, slicelet) = (shared.ticket, shared.table, shared.slicelet);
    let asks = job.asks();
    let (passes, worked) = join(
        rt,
        || -> Result<TaskPasses, AllocError>
            requires { AreTaskPasses table.now slicelet.now ticket.now passes }
            ensures { IfOk result (λ left. KeepsTaskPasses table.entry.now slicelet.entry.now ticket.entry.now passes left) }
        {
            let shared = TaskObjects {
                ticket,
                table,
                slicelet,
            };
            see_to_leases(rt, &shared, job, passes)
        },
        || -> Result<Vec<Result<Worked, AllocError>>, AllocError>
            requires { IsSync R.row × IsSync G.row × AreMembersFrom slicelet.now ticket.now 1 workers.items × (asks ≤ ticket.now.terms.quota) }
            ensures worked { IfOk result (λ results. HaveWorkedFrom slicelet.entry.now ticket.entry.now asks 1 results.items) }
            ensures many { IfOk result (λ results. vec_len results ≡ vec_len workers) }
        {
            let shared = TaskObjects {
                ticket,
                table,
                slicelet,
            };
            work_all(rt, alloc, &shared, gate, asks, workers)
        },
    );
    Ok((passes?, worked?))
}

// Runs each worker in a thread of its own: the workers of the lanes from 1 on.
#[tactic(auto, using(crate::proofs::LiveTaskMembers::worked_from))]
fn work_all<R: Threads + Wait + Sync, G: Gate + Sync>(
    rt: &R,
    alloc: Global,
    shared: &TaskObjects<'_>,
    gate: &G,
    asks: u32,
    workers: Vec<Member>,
) -> Result<Vec<Result<Worked, AllocError>>, AllocError>
    requires workers { AreMembersFrom shared.now.slicelet.now shared.now.ticket.now 1 workers.items }
    requires enough { asks ≤ shared.now.ticket.now.terms.quota }
    ensures worked { IfOk result (λ results. HaveWorkedFrom shared.now.slicelet.now shared.now.ticket.now asks 1 results.items) }
    ensures many { IfOk result (λ results. vec_len results ≡ vec_len workers) }
{
    work_each(rt, alloc, shared, gate, asks, workers)
}

// Separate from `work_all`, whose lemma turns a statement about each place into one about the list.
fn work_each<R: Threads + Wait + Sync, G: Gate + Sync>(
    rt: &R,
    alloc: Global,
    shared: &TaskObjects<'_>,
    gate: &G,
    asks: u32,
    workers: Vec<Member>,
) -> Result<Vec<Result<Worked, AllocError>>, AllocError>
    requires workers { All (λ member. IsPassOf shared.now.slicelet.now.lock member.pass × (member.draws ≡ new_ticket_pass shared.now.ticket.now)) workers.items }
    requires enough { asks ≤ shared.now.ticket.now.terms.quota }
    ensures many { IfOk result (λ results. vec_len results ≡ vec_len workers) }
    ensures each { IfOk result (λ results. (i : ℕ) (m : _) (r : _) → i < vec_len workers
        → IfOk (slice_index_or results.items i r) (λ worked. HasWorked shared.now.slicelet.now shared.now.ticket.now asks (slice_index_or workers.items i m).pass.lane worked)) }
{
    map_vec(
        rt,
        workers,
        &|member| work(rt, alloc, shared, gate, asks, member),
    )
}

// Returns the pass of the table's lock, and what else the threads of a task leave.
fn gather(
    alloc: Global,
    slicelet: &SharedSlicelet,
    ticket: &Ticket,
    asks: u32,
    passes: TaskPasses,
    worked: Vec<Result<Worked, AllocError>>,
) -> Result<(Pass<LeaseTable>, Gathered), AllocError>
    requires own { IsPassOf slicelet.now.lock passes.own }
    requires lane { passes.own.lane ≡ 0 }
    requires draws { DrawsFrom ticket.now passes.table.draws }
    requires quiet { serves passes.table.notes.records.items ≡ 0 }
    requires worked { HaveWorkedFrom slicelet.now ticket.now asks 1 worked.items }
    ensures table { IfOk result (λ left. left.0 ≡ passes.table.pass) }
    ensures gathered { IfOk result (λ left. IsGathered slicelet.now ticket.now asks left.1) }
    ensures many { IfOk result (λ left. vec_len left.1.passes ≡ vec_len worked + 1) }
{
    let TaskPasses {
        task: _,
        table,
        own,
    } = passes;
    let TablePasses {
        pass,
        draws: drawn,
        notes,
    } = table;
    let mut passes = Vec::new(alloc);
    passes.push(own)?;
    let mut draws = Vec::new(alloc);
    draws.push(drawn)?;
    let mut gathered = Gathered {
        passes,
        draws,
        records: notes.into_records(),
    };
    for one in worked {
        gathered.take_in(slicelet, ticket, asks, one?)?;
    }
    Ok((pass, gathered))
}

impl Gathered {
    // Appends what one worker leaves.
    fn take_in(
        &mut self,
        slicelet: &SharedSlicelet,
        ticket: &Ticket,
        asks: u32,
        worked: Worked,
    ) -> Result<(), AllocError>
        requires gathered { IsGathered slicelet.now ticket.now asks self.old }
        requires worked { HasWorked slicelet.now ticket.now asks (vec_len self.old.passes) worked }
        ensures gathered { OnOk result (IsGathered slicelet.now ticket.now asks self.new) }
        ensures many { OnOk result (vec_len self.new.passes ≡ vec_len self.old.passes + 1) }
    {
        let Worked {
            pass,
            draws,
            mut records,
        } = worked;
        self.passes.push(pass)?;
        self.draws.push(draws)?;
        self.records.append(&mut records)?;
        Ok(())
    }
}
