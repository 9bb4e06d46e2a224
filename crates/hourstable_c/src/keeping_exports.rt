//! Exports for the values of a table that outlast its process.

ghost use Rattle.std.specs.Prelude.{◌≡◌};
ghost use Rattle.lease_table.specs.KeptValues.{kept_of};
ghost use Rattle.c_calls.specs.Jobs.{job_of};
ghost use Rattle.c_calls.specs.Outputs.{output};
ghost use Rattle.c_calls.specs.tables.Saving.{IsSaved, ahead};
ghost use Rattle.c_calls.specs.tables.Texts.{IsKeptGiven};
ghost use Rattle.hourstable_c.specs.Opened.{IsRestoration, IsRestoredAt};
ghost use Rattle.hourstable_c.specs.Places.{OnTable};
ghost use Rattle.hourstable_c.specs.Returned.{Returns};

use crate::held::Held;
use crate::place::Place;
use c_calls::tables::{Ahead, kept, restore, save};
use c_calls::{Answer, AnswerDetails, PolicyNumbers, job_of};
use std::alloc::Global;
use wire::JobName;

/// Writes the message of the values that must outlast the table's process to `out`.
#[unsafe(no_mangle)]
#[tactic(auto, using(crate::proofs::Returning::returns))]
pub extern "C" fn hs_table_kept(
    alloc: Global,
    place: &mut Place,
    out: &mut [u8],
    needed: &mut usize,
) -> i32
    ensures { OnTable place.old.value place.new.value (output out.new needed.new ≡ output out.old needed.old) result
        (λ job old new. (new ≡ old) × Returns (IsKeptGiven job (kept_of old) (output out.old needed.old) (output out.new needed.new)) result) }
{
    let Some(held) = place.read() else {
        return Answer::OtherPlace.number();
    };
    match held {
        Held::Table(job, table) => kept(alloc, job, table, out, needed).number(),
        _ => Answer::OtherPlace.number(),
    }
}

/// Writes the message of the values to save in place of `saved` to `out`, ahead of the table by
/// `grants` and `ticks`, or nothing if `saved` covers the table.
#[unsafe(no_mangle)]
#[tactic(auto, using(crate::proofs::Returning::returns))]
pub extern "C" fn hs_table_save(
    alloc: Global,
    place: &mut Place,
    saved: &[u8],
    grants: u64,
    ticks: u64,
    out: &mut [u8],
    needed: &mut usize,
) -> i32
    ensures { OnTable place.old.value place.new.value (output out.new needed.new ≡ output out.old needed.old) result
        (λ job old new. (new ≡ old)
        × Returns (IsSaved job (ahead grants ticks) (kept_of old) saved.now (output out.old needed.old) (output out.new needed.new)) result) }
{
    let Some(held) = place.read() else {
        return Answer::OtherPlace.number();
    };
    match held {
        Held::Table(job, table) => {
            save(
                alloc,
                job,
                table,
                saved,
                Ahead { grants, ticks },
                out,
                needed,
            )
            .number()
        }
        _ => Answer::OtherPlace.number(),
    }
}

// Puts the table that is restored from kept values there, if it is.
#[tactic(auto, using(crate::proofs::Restoring::restores, crate::proofs::Restoring::refuses))]
fn restore_held(
    alloc: Global,
    held: &mut Held,
    job: JobName,
    policy: &PolicyNumbers,
    bytes: &[u8],
    told: &mut AnswerDetails,
) -> i32
    ensures { IsRestoration job policy.now bytes.now held.old held.new told.old told.new result }
{
    match restore(alloc, &job, policy, bytes) {
        Ok(table) => {
            held.put(Held::Table(job, table));
            Answer::Done.number()
        }
        Err(why) => why.tell(told),
    }
}

/// Restores a table of a job from the message of kept values, and puts it into `place`, destroying
/// what was there.
#[unsafe(no_mangle)]
pub extern "C" fn hs_table_restore(
    alloc: Global,
    place: &mut Place,
    job: &[u8],
    policy: &PolicyNumbers,
    kept: &[u8],
    told: &mut AnswerDetails,
) -> i32
    ensures { IsRestoredAt (job_of job.now) policy.now kept.now place.old.value place.new.value told.old told.new result }
{
    let Some(held) = place.held() else {
        return Answer::OtherPlace.number();
    };
    let Some(job) = job_of(job) else {
        return Answer::WrongForm.number();
    };
    restore_held(alloc, held, job, policy, kept, told)
}
