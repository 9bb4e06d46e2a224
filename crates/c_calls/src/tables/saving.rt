//! What a table saves, so that it outlasts its process.

ghost use Rattle.std.specs.Prelude.{◌≡◌, ◌↔◌, IfOk, codes};
ghost use Rattle.std.specs.Bool.{IsTrue};
ghost use Rattle.grants.specs.KeptValues.{Covers};
ghost use Rattle.lease_table.specs.KeptValues.{kept_of};
ghost use Rattle.wire.specs.Kept.{kept_of as read_kept};
ghost use Rattle.c_calls.specs.Messages.{IsKeptText};
ghost use Rattle.c_calls.specs.Outputs.{output};
ghost use Rattle.c_calls.specs.Reading.{IsReadFrom};
ghost use Rattle.c_calls.specs.tables.Saving.{IsSaved, IsSavedAfter, IsSavedFrom, ahead_of};
ghost use Rattle.c_calls.specs.tables.Texts.{IsKeptGiven};

use crate::answer::Answer;
use crate::output::give_made;
use crate::unread::unread_answer;
use assignment::Assignment;
use grants::{JobTerm, Kept, Policy};
use lease_table::LeaseTable;
use std::alloc::{AllocError, Global};
use wire::{JobName, decode, encode};

/// How far values are saved ahead of their table, so that its next grants save nothing.
#[derive(Clone, Copy, Debug, PartialEq, Eq)]
pub struct Ahead {
    /// For how many grants.
    pub grants: u64,
    /// For how many ticks of the table's clock.
    pub ticks: u64,
}

fn same_policy(one: Policy, other: Policy) -> bool
    ensures { IsTrue result ↔ (one ≡ other) }
{
    one.low() == other.low()
        && one.high() == other.high()
        && one.skew() == other.skew()
        && one.guard() == other.guard()
        && one.bridge() == other.bridge()
        && one.job() == other.job()
        && one.numbers() == other.numbers()
}

fn same_term(one: Option<JobTerm>, other: Option<JobTerm>) -> bool
    ensures { IsTrue result ↔ (one ≡ other) }
{
    match (one, other) {
        (None, None) => true,
        (Some(one), Some(other)) => {
            one.number == other.number && one.assigner == other.assigner && one.until == other.until
        }
        _ => false,
    }
}

fn same_assignment(one: &Option<Assignment>, other: &Option<Assignment>) -> bool
    ensures { IsTrue result ↔ (one.now ≡ other.now) }
{
    match (one, other) {
        (None, None) => true,
        (Some(one), Some(other)) => *one == *other,
        _ => false,
    }
}

fn same_kept(one: &Kept, other: &Kept) -> bool
    ensures { IsTrue result ↔ (one.now ≡ other.now) }
{
    same_policy(one.policy, other.policy)
        && one.last == other.last
        && same_term(one.term, other.term)
        && same_assignment(&one.committed, &other.committed)
        && same_assignment(&one.pending, &other.pending)
        && one.granted == other.granted
        && one.deadline == other.deadline
}

// Whether saved values cover a table that keeps these ones: they are the same, or ahead of them.
fn are_covered(table: Kept, saved: &Kept) -> bool
    ensures { IsTrue result ↔ Covers table saved.now }
{
    let mut ahead = table;
    let grants = saved.granted.saturating_sub(ahead.granted);
    let ticks = saved.last.saturating_sub(ahead.last);
    ahead.save_ahead(grants, ticks);
    same_kept(&ahead, saved)
}

fn kept_ahead(table: &LeaseTable, ahead: Ahead) -> Result<Kept, AllocError>
    ensures { IfOk result (λ kept. kept ≡ ahead_of ahead (kept_of table.now)) }
{
    let mut kept = table.kept()?;
    kept.save_ahead(ahead.grants, ahead.ticks);
    Ok(kept)
}

fn text_ahead(
    alloc: Global,
    job: &JobName,
    table: &LeaseTable,
    ahead: Ahead,
) -> Result<Vec<u8>, AllocError>
    ensures { IfOk result (λ text. IsKeptText job.now (ahead_of ahead (kept_of table.now)) text.items) }
{
    encode(alloc, job, &kept_ahead(table, ahead)?)
}

// Writes the message of the values that are saved ahead of the table to `out`.
fn give_ahead(
    alloc: Global,
    job: &JobName,
    table: &LeaseTable,
    ahead: Ahead,
    out: &mut [u8],
    needed: &mut usize,
) -> Answer
    ensures { IsKeptGiven job.now (ahead_of ahead (kept_of table.now)) (output out.old needed.old) (output out.new needed.new) result }
{
    give_made(text_ahead(alloc, job, table, ahead), out, needed)
}

// Writes what is to be saved in place of saved values, if they do not cover the table.
fn save_over(
    alloc: Global,
    job: &JobName,
    table: &LeaseTable,
    saved: &Kept,
    ahead: Ahead,
    out: &mut [u8],
    needed: &mut usize,
) -> Answer
    ensures { IsSavedAfter job.now ahead (kept_of table.now) saved.now (output out.old needed.old) (output out.new needed.new) result }
{
    if let Some(why) = saved.fault(table.policy()) {
        return Answer::Kept(why);
    }
    let Ok(kept) = table.kept() else {
        return Answer::NoMemory;
    };
    if are_covered(kept, saved) {
        *needed = 0;
        return Answer::Done;
    }
    give_ahead(alloc, job, table, ahead, out, needed)
}

// Decodes the saved values, and writes what is to be saved in their place.
fn save_over_bytes(
    alloc: Global,
    job: &JobName,
    table: &LeaseTable,
    saved: &[u8],
    ahead: Ahead,
    out: &mut [u8],
    needed: &mut usize,
) -> Answer
    ensures { IsReadFrom job.now (codes "kept") read_kept saved.now
        (IsSavedFrom job.now ahead (kept_of table.now) (output out.old needed.old) (output out.new needed.new) result) }
{
    match decode::<Kept>(alloc, job, saved) {
        Ok(saved) => save_over(alloc, job, table, &saved, ahead, out, needed),
        Err(why) => unread_answer(why),
    }
}

/// Writes the message of the values to save in place of `saved`, the message of the values that
/// were saved last, or no bytes if nothing was saved.
///
/// If the saved values cover the table, nothing has to be saved: `Done` is returned with a length
/// of 0, and `out` is unchanged. Otherwise the values are those that the table keeps, moved ahead
/// of it by [`Kept::save_ahead`]. They cover the table while it only grants and frees, up to that
/// number of grants and that reading.
///
/// # Errors
///
/// In this order: why the saved bytes are not decoded, `Kept` with the first fault of the saved
/// values, `NoRoom` or `NoMemory`.
pub fn save(
    alloc: Global,
    job: &JobName,
    table: &LeaseTable,
    saved: &[u8],
    ahead: Ahead,
    out: &mut [u8],
    needed: &mut usize,
) -> Answer
    ensures { IsSaved job.now ahead (kept_of table.now) saved.now (output out.old needed.old) (output out.new needed.new) result }
{
    match saved {
        [] => give_ahead(alloc, job, table, ahead, out, needed),
        [_, ..] => save_over_bytes(alloc, job, table, saved, ahead, out, needed),
    }
}
