//! Releasing a lease: its note is written whole, or nothing changes.

ghost use Rattle.std.specs.Prelude.{◌≡◌, Ok, IfOk, IfErr};
ghost use Rattle.slicelet.specs.Steps.{release_step};
ghost use Rattle.c_calls.specs.Arguments.{kind_of};
ghost use Rattle.c_calls.specs.Messages.{IsNoteText};
ghost use Rattle.c_calls.specs.Outputs.{output};
ghost use Rattle.c_calls.specs.Taken.{IsMadeAndGiven};
ghost use Rattle.c_calls.specs.slicelets.Releases.{IsFailure, IsReleased};

use crate::answer::Answer;
use crate::arguments::kind_of;
use crate::output::give;
use grants::{ReleaseNote, SliceletError};
use lease_rule::Kind;
use machines::Trouble;
use slicelet::Slicelet;
use std::alloc::Global;
use wire::{JobName, encode};

// The slicelet after a release, the note, and the note's message.
#[derive(Drop)]
struct Prepared {
    slicelet: Slicelet,
    note: ReleaseNote,
    message: Vec<u8>,
}

/// Releases the lease of a kind, and writes the message of its note, of the job, to `out`.
///
/// The message is encoded before the lease is released, so a buffer that is too short loses
/// nothing.
pub fn release(
    alloc: Global,
    job: &JobName,
    slicelet: &mut Slicelet,
    kind: u32,
    at: u64,
    out: &mut [u8],
    needed: &mut usize,
) -> Answer
    ensures { IsReleased job.now (kind_of kind) at slicelet.old slicelet.new (output out.old needed.old) (output out.new needed.new) result }
{
    let Some(kind) = kind_of(kind) else {
        return Answer::WrongForm;
    };
    match prepare(alloc, job, slicelet, kind, at) {
        Ok(prepared) => put_prepared(job, slicelet, prepared, out, needed),
        Err(Trouble::Refused(why)) => Answer::Slicelet(why),
        Err(Trouble::NoMemory) => Answer::NoMemory,
    }
}

// Computes what a release would leave and return, without changing the slicelet.
fn prepare(
    alloc: Global,
    job: &JobName,
    slicelet: &Slicelet,
    kind: Kind,
    at: u64,
) -> Result<Prepared, Trouble<SliceletError>>
    ensures step { IfOk result (λ r. release_step slicelet.now kind at ≡ Ok (r.slicelet, r.note)) }
    ensures message { IfOk result (λ r. IsNoteText job.now r.note r.message.items) }
    ensures failure { IfErr result (IsFailure (release_step slicelet.now kind at)) }
{
    if let Some(why) = slicelet.release_refusal(kind, at) {
        return Err(Trouble::Refused(why));
    }
    let mut left = slicelet.copy()?;
    let note = left.release(kind, at)?;
    let message = encode(alloc, job, &note)?;
    Ok(Prepared {
        slicelet: left,
        note,
        message,
    })
}

// Replaces the slicelet with the prepared one, if the note fits in `out`.
fn put_prepared(
    job: &JobName,
    slicelet: &mut Slicelet,
    prepared: Prepared,
    out: &mut [u8],
    needed: &mut usize,
) -> Answer
    requires { IsNoteText job.now prepared.note prepared.message.items }
    ensures { IsMadeAndGiven (IsNoteText job.now) (prepared.slicelet, prepared.note) slicelet.old slicelet.new
        (output out.old needed.old) (output out.new needed.new) result }
{
    let _ = job;
    let Prepared {
        slicelet: left,
        note: _,
        message,
    } = prepared;
    let answer = give(&message, out, needed);
    if answer == Answer::Done {
        *slicelet = left;
    }
    answer
}
