//! Exports for tables.

ghost use Rattle.std.specs.Prelude.{◌≡◌, codes, length, map};
ghost use Rattle.wire.specs.Assignments.{assignment_of};
ghost use Rattle.wire.specs.Notes.{note_of};
ghost use Rattle.wire.specs.Refusals.{or_wrong};
ghost use Rattle.lease_table.specs.Steps.{renew_step, commit_step, standing_after_restart};
ghost use Rattle.lease_table.specs.Tables.{phase_of};
ghost use Rattle.c_calls.specs.declared.answer.Answer.TheVariants.{Done};
ghost use Rattle.c_calls.specs.Arguments.{nonzero, task_of};
ghost use Rattle.c_calls.specs.Jobs.{job_of};
ghost use Rattle.c_calls.specs.AnswerNumbers.{answer_number};
ghost use Rattle.c_calls.specs.Outputs.{IsGivenUnlessMemory, output};
ghost use Rattle.c_calls.specs.Reading.{IsReadFrom};
ghost use Rattle.hourstable_c.specs.declared.held.Held.TheVariants as held;
ghost use Rattle.c_calls.specs.tables.Calls.{IsCommitStep, IsFreed, IsProposed, IsTableStep, IsTermTaken};
ghost use Rattle.c_calls.specs.PolicyNumbers.{table_of};
ghost use Rattle.c_calls.specs.tables.Rows.{row_numbers};
ghost use Rattle.c_calls.specs.tables.Terms.{phase_numbers, term_given};
ghost use Rattle.c_calls.specs.tables.Texts.{IsCommittedGiven, IsGranted};
ghost use Rattle.hourstable_c.specs.Kinds.{is_table};
ghost use Rattle.hourstable_c.specs.Opened.{AtPlace, IsClosed, IsOpened, with_job};
ghost use Rattle.hourstable_c.specs.Places.{OnTable};
ghost use Rattle.hourstable_c.specs.Returned.{Returns, Tells};

use crate::held::Held;
use crate::place::Place;
use crate::place_exports::close_where;
use c_calls::tables::{
    PhaseNumbers, RowNumbers, TermNumbers, commit, committed, free, grant, open_table, phase,
    propose, renew, restart, rows, take,
};
use c_calls::{Answer, AnswerDetails, PolicyNumbers, job_of};
use std::alloc::Global;

/// Creates a new table of a job in `place`, destroying what was there.
#[unsafe(no_mangle)]
pub extern "C" fn hs_table_open(
    alloc: Global,
    place: &mut Place,
    job: &[u8],
    policy: &PolicyNumbers,
) -> i32
    ensures { AtPlace (IsOpened (λ p. held.Table p.0 p.1) (with_job (job_of job.now) (table_of policy.now)))
        place.old.value place.new.value result }
{
    let Some(held) = place.held() else {
        return Answer::OtherPlace.number();
    };
    let Some(job) = job_of(job) else {
        return Answer::WrongForm.number();
    };
    match open_table(alloc, policy) {
        Some(table) => {
            held.put(Held::Table(job, table));
            Answer::Done.number()
        }
        None => Answer::WrongForm.number(),
    }
}

/// Gives the job lease to an assigner, and writes the term to `out`.
#[unsafe(no_mangle)]
#[tactic(auto, using(crate::proofs::Returning::tells))]
pub extern "C" fn hs_table_take(
    place: &mut Place,
    assigner: u64,
    at: u64,
    out: &mut TermNumbers,
    told: &mut AnswerDetails,
) -> i32
    ensures { OnTable place.old.value place.new.value ((told.new ≡ told.old) × (out.new ≡ out.old)) result
        (λ job old new. Tells (IsTermTaken (nonzero assigner) at old new out.old out.new) told.old told.new result) }
{
    let Some(held) = place.held() else {
        return Answer::OtherPlace.number();
    };
    match held {
        Held::Table(_, table) => take(table, assigner, at, out).tell(told),
        _ => Answer::OtherPlace.number(),
    }
}

/// Renews the term with this number, and writes it to `out`.
#[unsafe(no_mangle)]
#[tactic(auto, using(crate::proofs::Returning::tells))]
pub extern "C" fn hs_table_renew(
    place: &mut Place,
    number: u64,
    at: u64,
    out: &mut TermNumbers,
    told: &mut AnswerDetails,
) -> i32
    ensures { OnTable place.old.value place.new.value ((told.new ≡ told.old) × (out.new ≡ out.old)) result
        (λ job old new. (out.new ≡ term_given (renew_step old number at) out.old)
        × Tells (IsTableStep (renew_step old number at) old new) told.old told.new result) }
{
    let Some(held) = place.held() else {
        return Answer::OtherPlace.number();
    };
    match held {
        Held::Table(_, table) => renew(table, number, at, out).tell(told),
        _ => Answer::OtherPlace.number(),
    }
}

/// Decodes an assignment from its message and proposes it under the term with this number.
#[unsafe(no_mangle)]
#[tactic(auto, using(crate::proofs::Returning::tells))]
pub extern "C" fn hs_table_propose(
    alloc: Global,
    place: &mut Place,
    number: u64,
    assignment: &[u8],
    at: u64,
    told: &mut AnswerDetails,
) -> i32
    ensures { OnTable place.old.value place.new.value (told.new ≡ told.old) result
        (λ job old new. Tells (λ answer. IsReadFrom job (codes "assignment") assignment_of assignment.now (IsProposed number at old new answer))
        told.old told.new result) }
{
    let Some(held) = place.held() else {
        return Answer::OtherPlace.number();
    };
    match held {
        Held::Table(job, table) => propose(alloc, job, table, number, assignment, at).tell(told),
        _ => Answer::OtherPlace.number(),
    }
}

/// Commits the proposed assignment under the term with this number.
#[unsafe(no_mangle)]
#[tactic(auto, using(crate::proofs::Returning::tells))]
pub extern "C" fn hs_table_commit(
    place: &mut Place,
    number: u64,
    at: u64,
    told: &mut AnswerDetails,
) -> i32
    ensures { OnTable place.old.value place.new.value (told.new ≡ told.old) result
        (λ job old new. Tells (IsCommitStep (commit_step old number at) old new) told.old told.new result) }
{
    let Some(held) = place.held() else {
        return Answer::OtherPlace.number();
    };
    match held {
        Held::Table(_, table) => commit(table, number, at).tell(told),
        _ => Answer::OtherPlace.number(),
    }
}

/// Grants a task a lease for one of its lives, and writes the message of the grant to `out`.
#[unsafe(no_mangle)]
#[tactic(auto, using(crate::proofs::Returning::returns))]
pub extern "C" fn hs_table_grant(
    alloc: Global,
    place: &mut Place,
    task: u64,
    life: u32,
    at: u64,
    out: &mut [u8],
    needed: &mut usize,
) -> i32
    ensures { OnTable place.old.value place.new.value (output out.new needed.new ≡ output out.old needed.old) result
        (λ job old new. Returns (IsGranted job (task_of task) (nonzero life) at old new (output out.old needed.old) (output out.new needed.new)) result) }
{
    let Some(held) = place.held() else {
        return Answer::OtherPlace.number();
    };
    match held {
        Held::Table(job, table) => {
            grant(alloc, job, table, task, life, at, out, needed).number()
        }
        _ => Answer::OtherPlace.number(),
    }
}

/// Decodes a note from its message and frees the rows that it closes.
#[unsafe(no_mangle)]
#[tactic(auto, using(crate::proofs::Returning::tells))]
pub extern "C" fn hs_table_free(
    alloc: Global,
    place: &mut Place,
    note: &[u8],
    at: u64,
    freed: &mut u64,
    told: &mut AnswerDetails,
) -> i32
    ensures { OnTable place.old.value place.new.value ((told.new ≡ told.old) × (freed.new ≡ freed.old)) result
        (λ job old new. Tells (λ answer. IsReadFrom job (codes "note") (λ numerals d. or_wrong (note_of numerals d)) note.now (IsFreed at old new freed.old freed.new answer))
        told.old told.new result) }
{
    let Some(held) = place.held() else {
        return Answer::OtherPlace.number();
    };
    match held {
        Held::Table(job, table) => free(alloc, job, table, note, at, freed).tell(told),
        _ => Answer::OtherPlace.number(),
    }
}

/// Restarts the table, which loses its rows, and writes how many to `lost`.
#[unsafe(no_mangle)]
pub extern "C" fn hs_table_restart(place: &mut Place, lost: &mut u64) -> i32
    ensures { OnTable place.old.value place.new.value (lost.new ≡ lost.old) result
        (λ job old new. (result ≡ answer_number Done) × (lost.new ≡ length old.rows) × (new ≡ standing_after_restart old)) }
{
    let Some(held) = place.held() else {
        return Answer::OtherPlace.number();
    };
    match held {
        Held::Table(_, table) => restart(table, lost).number(),
        _ => Answer::OtherPlace.number(),
    }
}

/// Writes the phase of the table to `out`.
#[unsafe(no_mangle)]
pub extern "C" fn hs_table_phase(place: &mut Place, out: &mut PhaseNumbers) -> i32
    ensures { OnTable place.old.value place.new.value (out.new ≡ out.old) result
        (λ job old new. (result ≡ answer_number Done) × (new ≡ old) × (out.new ≡ phase_numbers (phase_of old))) }
{
    let Some(held) = place.read() else {
        return Answer::OtherPlace.number();
    };
    match held {
        Held::Table(_, table) => phase(table, out).number(),
        _ => Answer::OtherPlace.number(),
    }
}

/// Writes the rows that have not ended at the last accepted reading to `out`, in grant order.
#[unsafe(no_mangle)]
#[tactic(auto, using(crate::proofs::Returning::returns))]
pub extern "C" fn hs_table_rows(
    alloc: Global,
    place: &mut Place,
    out: &mut [RowNumbers],
    needed: &mut usize,
) -> i32
    ensures { OnTable place.old.value place.new.value (output out.new needed.new ≡ output out.old needed.old) result
        (λ job old new. (new ≡ old) × Returns (IsGivenUnlessMemory (map row_numbers old.rows) (output out.old needed.old) (output out.new needed.new)) result) }
{
    let Some(held) = place.read() else {
        return Answer::OtherPlace.number();
    };
    match held {
        Held::Table(_, table) => rows(alloc, table, out, needed).number(),
        _ => Answer::OtherPlace.number(),
    }
}

/// Writes the message of the committed assignment to `out`.
#[unsafe(no_mangle)]
#[tactic(auto, using(crate::proofs::Returning::returns))]
pub extern "C" fn hs_table_committed(
    alloc: Global,
    place: &mut Place,
    out: &mut [u8],
    needed: &mut usize,
) -> i32
    ensures { OnTable place.old.value place.new.value (output out.new needed.new ≡ output out.old needed.old) result
        (λ job old new. (new ≡ old) × Returns (IsCommittedGiven job old.committed (output out.old needed.old) (output out.new needed.new)) result) }
{
    let Some(held) = place.read() else {
        return Answer::OtherPlace.number();
    };
    match held {
        Held::Table(job, table) => committed(alloc, job, table, out, needed).number(),
        _ => Answer::OtherPlace.number(),
    }
}

/// Destroys the table and leaves `place` empty.
#[unsafe(no_mangle)]
pub extern "C" fn hs_table_close(place: &mut Place) -> i32
    ensures { AtPlace (λ was now number. IsClosed (is_table was) was now number) place.old.value place.new.value result }
{
    let Some(held) = place.held() else {
        return Answer::OtherPlace.number();
    };
    let is_table = matches!(held, Held::Table(_, _));
    close_where(is_table, held)
}
