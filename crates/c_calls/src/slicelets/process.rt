//! A task's processes, what it holds and what it does next.

ghost use Rattle.std.specs.Prelude.{◌≡◌, ◌-◌};
ghost use Rattle.slicelet.specs.declared.slicelet.TheConstants.{CALLS};
ghost use Rattle.grants.specs.SliceletCalls.{ended_note as note_of};
ghost use Rattle.c_calls.specs.Arguments.{kind_of};
ghost use Rattle.c_calls.specs.Jobs.{job_of};
ghost use Rattle.c_calls.specs.Outputs.{output};
ghost use Rattle.c_calls.specs.slicelets.Processes.{IsHeldTold, IsNextTold, IsNoteFor, task_action_number, note_for, resumed_slicelet};

use crate::answer::Answer;
use crate::arguments::{kind_of, task_of};
use crate::job::job_of;
use crate::output::give_made;
use assignment::TaskId;
use fence::next_careful;
use grants::{EndedNotes, Phase, ReleaseNote, SliceletError};
use lease_rule::Kind;
use slicelet::{Slicelet, TaskAction};
use std::alloc::Global;
use wire::encode;

/// A held lease, as numbers.
#[repr(C)]
#[derive(Clone, Copy, Debug, PartialEq, Eq)]
pub struct HeldNumbers {
    /// The number of its grant.
    pub number: u64,
    /// The generation that it was granted for.
    pub generation: u64,
    /// The first reading of the task's clock, in ticks, at which it has ended.
    pub until: u64,
}

/// Creates the slicelet of a task's new process, or returns `None` if the number is not a task's.
///
/// `life` is the greatest life that the task ever started, or a greater one.
pub fn resume_slicelet(alloc: Global, task: u64, life: u32) -> Option<Slicelet>
    ensures { result ≡ resumed_slicelet task life }
{
    let task = task_of(task)?;
    Some(Slicelet::resume(alloc, task, life))
}

// The note of a kind for a life that ended.
fn note_of_kind(task: TaskId, life: u32, kind: Kind) -> ReleaseNote
    ensures { result ≡ note_of task life kind }
{
    let ended = EndedNotes::new(task, life);
    match kind {
        Kind::Guard => ended.guard,
        Kind::Bridge => ended.bridge,
    }
}

/// Writes the message, of the job, of the note that gives back all leases of a kind of a life that
/// ended.
///
/// `WrongForm` if the bytes are not the name of a job, or the numbers not those of a task and a
/// kind.
pub fn ended_note(
    alloc: Global,
    job: &[u8],
    task: u64,
    life: u32,
    kind: u32,
    out: &mut [u8],
    needed: &mut usize,
) -> Answer
    ensures { IsNoteFor (job_of job.now) (note_for task life (kind_of kind)) (output out.old needed.old) (output out.new needed.new) result }
{
    let Some(job) = job_of(job) else {
        return Answer::WrongForm;
    };
    let Some(kind) = kind_of(kind) else {
        return Answer::WrongForm;
    };
    let Some(task) = task_of(task) else {
        return Answer::WrongForm;
    };
    give_made(
        encode(alloc, &job, &note_of_kind(task, life, kind)),
        out,
        needed,
    )
}

/// Writes how many more calls the slicelet accepts.
pub fn calls_left(slicelet: &Slicelet, left: &mut u64) -> Answer
    ensures answer { result ≡ Answer.Done }
    ensures left { left.new ≡ CALLS - slicelet.now.count }
{
    *left = slicelet.calls_left();
    Answer::Done
}

/// Writes the lease of a kind that the task holds, which may have ended.
///
/// `WrongForm` if the number is no kind, then `NothingHeld`.
pub fn held(slicelet: &Slicelet, kind: u32, out: &mut HeldNumbers) -> Answer
    ensures { IsHeldTold (kind_of kind) slicelet.now out.old out.new result }
{
    let Some(kind) = kind_of(kind) else {
        return Answer::WrongForm;
    };
    let Some(lease) = slicelet.held(kind) else {
        return Answer::Slicelet(SliceletError::NothingHeld);
    };
    *out = HeldNumbers {
        number: lease.number,
        generation: lease.generation,
        until: lease.ends,
    };
    Answer::Done
}

fn task_action_number(action: TaskAction) -> u32
    ensures { result ≡ task_action_number action }
{
    match action {
        TaskAction::Start => 1,
        TaskAction::Ask(Kind::Guard) => 2,
        TaskAction::Ask(Kind::Bridge) => 3,
        TaskAction::GiveUp(Kind::Guard) => 4,
        TaskAction::GiveUp(Kind::Bridge) => 5,
        TaskAction::Rest => 6,
    }
}

/// Writes the number of what the task does next about its leases, in a phase of the lease table.
///
/// It never gives up a lease that it must keep for its tokens, whatever the phase.
///
/// `WrongForm` if there is no phase.
pub fn next(slicelet: &Slicelet, phase: Option<Phase>, at: u64, action: &mut u32) -> Answer
    ensures { IsNextTold phase slicelet.now at action.old action.new result }
{
    let Some(phase) = phase else {
        return Answer::WrongForm;
    };
    *action = task_action_number(next_careful(slicelet, phase, at));
    Answer::Done
}
