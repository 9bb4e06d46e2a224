//! Live runs: the assigner, the clerk, the tasks and their workers as threads.

ghost use Rattle.std.specs.Prelude.{ℕ, Ok, ◌≡◌, ◌≤◌, ◌<◌, All, IfOk, vec_len, slice_index_or};
ghost use Rattle.std.specs.Thread.{IsSync};
ghost use Rattle.live_run.specs.internals.LiveTasks.{HasLeft, IsLiveTask};
ghost use Rattle.live_run.specs.Reports.{IsReported};
ghost use Rattle.live_run.specs.internals.OpenedRuns.{AreLiveTasksFrom, AreQuietClerkPasses, AreQuietPasses, HaveLeftFrom};

use crate::clerk_loop::learn_all;
use crate::commit_loop::assign;
use crate::ended_run::{close_all, ended_run_of};
use crate::job::LiveJob;
use crate::live_task::{EndedTask, LiveTask};
use crate::objects::Objects;
use crate::opened_run::{Given, OpenedRun};
use crate::passes::{ClerkPasses, TablePasses};
use crate::report::LiveReport;
use shared_objects::Gate;
use std::alloc::{AllocError, Global};
use std::sync::Wait;
use std::thread::{Threads, join, map_vec};

/// Runs the assigner, the clerk, the tasks and their workers of a job in threads, and reports on
/// them.
///
/// Each has a thread of its own. Each worker calls the gate inside each of its calls. A thread ends
/// early if a write of it is refused, or if what it waits for does not happen.
///
/// Fails only if memory runs out, for a call of a thread, for the threads or for the report.
pub fn run_live<R: Threads + Wait + Sync, G: Gate + Sync>(
    rt: &R,
    alloc: Global,
    job: &LiveJob,
    gate: &G,
) -> Result<LiveReport, AllocError>
    ensures { IfOk result (IsReported job.now) }
{
    let OpenedRun { objects, given } = OpenedRun::open(alloc, *job)?;
    let (assigner, learner, live_tasks) = run_threads(rt, alloc, &objects, gate, *job, given)?;
    let ended_run = ended_run_of(alloc, &objects, *job, assigner, learner, live_tasks)?;
    close_all(alloc, *job, objects, ended_run)
}

// Runs the assigner and the clerk beside the tasks.
fn run_threads<R: Threads + Wait + Sync, G: Gate + Sync>(
    rt: &R,
    alloc: Global,
    objects: &Objects,
    gate: &G,
    job: LiveJob,
    given: Given,
) -> Result<(TablePasses, ClerkPasses, Vec<Result<EndedTask, AllocError>>), AllocError>
    requires assigner { AreQuietPasses objects.now.table objects.now.ticket 0 given.assigner }
    requires learner { AreQuietClerkPasses objects.now.table objects.now.clerk.lock objects.now.ticket given.learner }
    requires live_tasks { AreLiveTasksFrom objects.now.table objects.now.ticket job.workers 1 given.live_tasks.items }
    requires enough { job.asks ≤ objects.now.ticket.terms.quota }
    ensures assigner { IfOk result (λ left. AreQuietPasses objects.now.table objects.now.ticket 0 left.0) }
    ensures learner { IfOk result (λ left. AreQuietClerkPasses objects.now.table objects.now.clerk.lock objects.now.ticket left.1) }
    ensures live_tasks { IfOk result (λ left. HaveLeftFrom objects.now.table objects.now.ticket job.workers job.asks 1 left.2.items) }
    ensures many { IfOk result (λ left. vec_len left.2 ≡ vec_len given.live_tasks) }
{
    let Given {
        assigner,
        learner,
        live_tasks,
    } = given;
    let ((assigner, learner), live_tasks) = join(
        rt,
        || -> (
            Result<TablePasses, AllocError>,
            Result<ClerkPasses, AllocError>,
        )
            requires { IsSync R.row × AreQuietPasses objects.now.table objects.now.ticket 0 assigner
                × AreQuietClerkPasses objects.now.table objects.now.clerk.lock objects.now.ticket learner }
            ensures assigner { IfOk result.0 (λ left. AreQuietPasses objects.entry.now.table objects.entry.now.ticket 0 left) }
            ensures learner { IfOk result.1 (λ left. AreQuietClerkPasses objects.entry.now.table objects.entry.now.clerk.lock objects.entry.now.ticket left) }
        { run_pair(rt, alloc, objects, job, assigner, learner) },
        || -> Result<Vec<Result<EndedTask, AllocError>>, AllocError>
            requires { IsSync R.row × IsSync G.row × AreLiveTasksFrom objects.now.table objects.now.ticket job.workers 1 live_tasks.items
                × (job.asks ≤ objects.now.ticket.terms.quota) }
            ensures left { IfOk result (λ results. HaveLeftFrom objects.entry.now.table objects.entry.now.ticket job.workers job.asks 1 results.items) }
            ensures many { IfOk result (λ results. vec_len results ≡ vec_len live_tasks) }
        { run_live_tasks(rt, alloc, objects, gate, job, live_tasks) },
    );
    all_of(assigner, learner, live_tasks)
}

// Returns what all threads left, or that memory ran out in one of them.
fn all_of(
    assigner: Result<TablePasses, AllocError>,
    learner: Result<ClerkPasses, AllocError>,
    live_tasks: Result<Vec<Result<EndedTask, AllocError>>, AllocError>,
) -> Result<(TablePasses, ClerkPasses, Vec<Result<EndedTask, AllocError>>), AllocError>
    ensures { IfOk result (λ left. (assigner ≡ Ok left.0) × (learner ≡ Ok left.1) × (live_tasks ≡ Ok left.2)) }
{
    Ok((assigner?, learner?, live_tasks?))
}

// Runs the assigner beside the clerk.
fn run_pair<R: Threads + Wait + Sync>(
    rt: &R,
    alloc: Global,
    objects: &Objects,
    job: LiveJob,
    assigner: TablePasses,
    learner: ClerkPasses,
) -> (
    Result<TablePasses, AllocError>,
    Result<ClerkPasses, AllocError>,
)
    requires assigner { AreQuietPasses objects.now.table objects.now.ticket 0 assigner }
    requires learner { AreQuietClerkPasses objects.now.table objects.now.clerk.lock objects.now.ticket learner }
    ensures assigner { IfOk result.0 (λ left. AreQuietPasses objects.now.table objects.now.ticket 0 left) }
    ensures learner { IfOk result.1 (λ left. AreQuietClerkPasses objects.now.table objects.now.clerk.lock objects.now.ticket left) }
{
    join(
        rt,
        || assign(rt, alloc, objects, job, assigner),
        || learn_all(rt, objects, job, learner),
    )
}

// Runs each task in a thread of its own: the tasks from 1 on.
#[tactic(auto, using(crate::proofs::OpenedRunPasses::left_from))]
fn run_live_tasks<R: Threads + Wait + Sync, G: Gate + Sync>(
    rt: &R,
    alloc: Global,
    objects: &Objects,
    gate: &G,
    job: LiveJob,
    live_tasks: Vec<LiveTask>,
) -> Result<Vec<Result<EndedTask, AllocError>>, AllocError>
    requires live_tasks { AreLiveTasksFrom objects.now.table objects.now.ticket job.workers 1 live_tasks.items }
    requires enough { job.asks ≤ objects.now.ticket.terms.quota }
    ensures left { IfOk result (λ results. HaveLeftFrom objects.now.table objects.now.ticket job.workers job.asks 1 results.items) }
    ensures many { IfOk result (λ results. vec_len results ≡ vec_len live_tasks) }
{
    run_each(rt, alloc, objects, gate, job, live_tasks)
}

// Separate from `run_live_tasks`, whose lemma turns a statement about each place into one about the
// list.
fn run_each<R: Threads + Wait + Sync, G: Gate + Sync>(
    rt: &R,
    alloc: Global,
    objects: &Objects,
    gate: &G,
    job: LiveJob,
    live_tasks: Vec<LiveTask>,
) -> Result<Vec<Result<EndedTask, AllocError>>, AllocError>
    requires live_tasks { All (λ live_task. IsLiveTask objects.now.table objects.now.ticket job.workers live_task) live_tasks.items }
    requires enough { job.asks ≤ objects.now.ticket.terms.quota }
    ensures many { IfOk result (λ results. vec_len results ≡ vec_len live_tasks) }
    ensures each { IfOk result (λ results. (i : ℕ) (c : _) (r : _) → i < vec_len live_tasks
        → IfOk (slice_index_or results.items i r) (λ left. HasLeft objects.now.table objects.now.ticket job.workers job.asks (slice_index_or live_tasks.items i c).task left)) }
{
    map_vec(
        rt,
        live_tasks,
        &|live_task: LiveTask| -> Result<EndedTask, AllocError>
            requires { IsSync R.row × IsSync G.row × IsLiveTask objects.now.table objects.now.ticket job.workers live_task × (job.asks ≤ objects.now.ticket.terms.quota) }
            ensures { IfOk result (λ left. HasLeft objects.entry.now.table objects.entry.now.ticket job.workers job.asks live_task.task left) }
        { live_task.run(rt, alloc, objects, gate, job) },
    )
}
