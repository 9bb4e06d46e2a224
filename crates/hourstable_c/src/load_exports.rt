//! Exports for load books.

ghost use Rattle.std.specs.Prelude.{◌≡◌, []};
ghost use Rattle.load_ledger.specs.Books.{book_of};
ghost use Rattle.c_calls.specs.Arguments.{task_of};
ghost use Rattle.c_calls.specs.Jobs.{job_of};
ghost use Rattle.c_calls.specs.Outputs.{output};
ghost use Rattle.c_calls.specs.Gathers.{AreRecordsGathered, IsTotalTold};
ghost use Rattle.hourstable_c.specs.declared.held.Held.TheVariants as held;
ghost use Rattle.hourstable_c.specs.Kinds.{is_load_book};
ghost use Rattle.hourstable_c.specs.Opened.{AtPlace, IsClosed, IsOpened};
ghost use Rattle.hourstable_c.specs.Places.{OnLoadBook};
ghost use Rattle.hourstable_c.specs.Returned.{Returns};

use crate::held::Held;
use crate::place::Place;
use crate::place_exports::close_where;
use c_calls::loads::{RecordNumbers, gather, total};
use c_calls::{Answer, job_of};
use load_ledger::LoadBook;
use std::alloc::Global;

/// Creates a new load book of a job in `place`, destroying what was there. All totals are 0.
#[unsafe(no_mangle)]
pub extern "C" fn hs_load_book_open(place: &mut Place, job: &[u8]) -> i32
    ensures { AtPlace (IsOpened (λ name. held.LoadBook name (book_of [])) (job_of job.now)) place.old.value place.new.value result }
{
    let Some(held) = place.held() else {
        return Answer::OtherPlace.number();
    };
    let Some(job) = job_of(job) else {
        return Answer::WrongForm.number();
    };
    held.put(Held::LoadBook(job, LoadBook::new()));
    Answer::Done.number()
}

/// Adds the records of a task to the book, and writes the load that they are of each slice of an
/// assignment to `loads`.
#[unsafe(no_mangle)]
#[tactic(auto, using(crate::proofs::Returning::returns))]
pub extern "C" fn hs_load_book_gather(
    alloc: Global,
    place: &mut Place,
    assignment: &[u8],
    task: u64,
    records: &[RecordNumbers],
    loads: &mut [u64],
    needed: &mut usize,
) -> i32
    ensures { OnLoadBook place.old.value place.new.value (output loads.new needed.new ≡ output loads.old needed.old) result
        (λ job old new. Returns (AreRecordsGathered job assignment.now task records.now old new
        (output loads.old needed.old) (output loads.new needed.new)) result) }
{
    let Some(held) = place.held() else {
        return Answer::OtherPlace.number();
    };
    match held {
        Held::LoadBook(job, book) => {
            gather(alloc, job, book, assignment, task, records, loads, needed).number()
        }
        _ => Answer::OtherPlace.number(),
    }
}

/// Writes the total weight of the work that a task has done to `out`.
#[unsafe(no_mangle)]
#[tactic(auto, using(crate::proofs::Returning::returns))]
pub extern "C" fn hs_load_book_total(place: &mut Place, task: u64, out: &mut u64) -> i32
    ensures { OnLoadBook place.old.value place.new.value (out.new ≡ out.old) result
        (λ job old new. (new ≡ old) × Returns (IsTotalTold (task_of task) old out.old out.new) result) }
{
    let Some(held) = place.read() else {
        return Answer::OtherPlace.number();
    };
    match held {
        Held::LoadBook(_, book) => total(book, task, out).number(),
        _ => Answer::OtherPlace.number(),
    }
}

/// Destroys the load book and leaves `place` empty.
#[unsafe(no_mangle)]
pub extern "C" fn hs_load_book_close(place: &mut Place) -> i32
    ensures { AtPlace (λ was now number. IsClosed (is_load_book was) was now number) place.old.value place.new.value result }
{
    let Some(held) = place.held() else {
        return Answer::OtherPlace.number();
    };
    let is_load_book = matches!(held, Held::LoadBook(_, _));
    close_where(is_load_book, held)
}
