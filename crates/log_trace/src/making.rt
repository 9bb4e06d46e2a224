//! The calls that entries stand for, and the reasons of their replies.

ghost use Rattle.std.specs.Prelude.{◌≡◌, ℕ, true, false, IfOk, List};
ghost use Rattle.cluster.specs.Pasts.{Past};
ghost use Rattle.cluster.specs.continued.Jobs.{Continued};
ghost use Rattle.reasons.specs.Placed.{ArePlaces, Placed};
ghost use Rattle.reasons.specs.declared.places.CallPlaces.{CallPlaces as Places};
ghost use Rattle.reasons.specs.Questions.{question_of};
ghost use Rattle.log_run.specs.Calls.{call_after};
ghost use Rattle.log_run.specs.internals.Machines.{HavePlayed};
ghost use Rattle.log_trace.specs.internals.Making.{IsMadeAt, is_single};

use crate::placing::{add_call, heard_by};
use log_line::{CallerReply, LoggedCall, told_as};
use log_run::{LogMachines, play, tell};
use reasons::{CallPlaces, Question, Reason, reason_of};
use replies::NextNumbers;
use std::alloc::AllocError;

/// What the caller of a line should be told, and why.
#[derive(Drop)]
pub struct MadeCall {
    /// What the caller should be told.
    pub reply: CallerReply,
    /// The values that decide it; `None` if the call and the reply say everything.
    pub reason: Option<Reason>,
}

// Returns what the call of a line asks.
fn question_of(call: &LoggedCall) -> Question
    ensures { (past : Past) → result ≡ question_of (call_after past call.now) }
{
    match call {
        LoggedCall::Whole(call) => Question::of(call),
        LoggedCall::HearBare { task, grant, .. } => Question::Hear {
            task: *task,
            kind: grant.kind,
        },
        LoggedCall::Restore(_) => Question::Table,
        LoggedCall::LearnBare { .. } | LoggedCall::Sample(_) => Question::Other,
    }
}

// Makes the one call of a line at `place`.
fn make_one(
    machines: &mut LogMachines,
    places: &mut CallPlaces,
    place: u64,
    call: &LoggedCall,
) -> Result<MadeCall, AllocError>
    requires { is_single call.now ≡ true }
    ensures { (job : Continued) (past : Past) (placed : List Placed) → HavePlayed job past machines.old → ArePlaces job.tasks placed places.old
        → IfOk result (λ made. IsMadeAt job past placed place call.now made machines.new places.new) }
{
    let cluster = machines.cluster();
    let heard = heard_by(cluster, call)?;
    let next = NextNumbers {
        note: cluster.next_note(),
        handle: cluster.next_handle(),
    };
    let answer = play(machines, call)?;
    let after = machines.cluster();
    let reason = reason_of(after, places, &question_of(call), &answer)?;
    add_call(after, places, place, call, &heard, &answer)?;
    Ok(MadeCall {
        reply: told_as(call, next, answer),
        reason,
    })
}

// Makes the calls of a table that is restored, and none for a sample.
fn make_others(machines: &mut LogMachines, call: &LoggedCall) -> Result<MadeCall, AllocError>
    requires { is_single call.now ≡ false }
    ensures { (job : Continued) (past : Past) (placed : List Placed) (place : ℕ) (places : Places) → HavePlayed job past machines.old
        → ArePlaces job.tasks placed places → IfOk result (λ made. IsMadeAt job past placed place call.now made machines.new places) }
{
    let reply = tell(machines, call)?;
    Ok(MadeCall {
        reply,
        reason: None,
    })
}

/// Whether a line stands for one call, as all do but those of a table that is restored and of a
/// sample.
pub fn is_single(call: &LoggedCall) -> bool
    ensures { result ≡ is_single call.now }
{
    !matches!(call, LoggedCall::Restore(_) | LoggedCall::Sample(_))
}

/// Makes the calls that a line stands for, at `place`, and returns what its caller should be told
/// and why.
///
/// The only error is out of memory. After it the machines and the places are not to be used.
pub fn make_call(
    machines: &mut LogMachines,
    places: &mut CallPlaces,
    place: u64,
    call: &LoggedCall,
) -> Result<MadeCall, AllocError>
    ensures { (job : Continued) (past : Past) (placed : List Placed) → HavePlayed job past machines.old → ArePlaces job.tasks placed places.old
        → IfOk result (λ made. IsMadeAt job past placed place call.now made machines.new places.new) }
{
    if is_single(call) {
        make_one(machines, places, place, call)
    } else {
        make_others(machines, call)
    }
}
