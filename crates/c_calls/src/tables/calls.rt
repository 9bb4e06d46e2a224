//! What a table gives by numbers.

ghost use Rattle.std.specs.Prelude.{◌≡◌, List, Some, codes, length};
ghost use Rattle.grants.specs.Policies.{Terms};
ghost use Rattle.lease_table.specs.Calls.{AnsweredTableCall, LeadsTo};
ghost use Rattle.lease_table.specs.Runs.{IsRun};
ghost use Rattle.lease_table.specs.Tables.{phase_of};
ghost use Rattle.lease_table.specs.Steps.{renew_step, commit_step, standing_after_restart};
ghost use Rattle.wire.specs.Assignments.{assignment_of};
ghost use Rattle.wire.specs.Notes.{note_of};
ghost use Rattle.wire.specs.Refusals.{or_wrong};
ghost use Rattle.c_calls.specs.Arguments.{nonzero};
ghost use Rattle.c_calls.specs.tables.Calls.{IsCommitStep, IsFreed, IsProposed, IsTableStep, IsTermTaken};
ghost use Rattle.c_calls.specs.PolicyNumbers.{table_of};
ghost use Rattle.c_calls.specs.Reading.{IsReadFrom};
ghost use Rattle.c_calls.specs.tables.Terms as numbers;
ghost use Rattle.c_calls.specs.tables.Terms.{phase_numbers, term_given};

use super::terms::{PhaseNumbers, TermNumbers};
use crate::answer::Answer;
use crate::arguments::assigner_of;
use crate::policy_numbers::PolicyNumbers;
use crate::unread::unread_answer;
use assignment::Assignment;
use grants::ReleaseNote;
use lease_table::{LeaseTable, generations_law};
use machines::Trouble;
use std::alloc::Global;
use wire::{JobName, decode};

/// Creates a table with a policy, or returns `None` if a number is outside its limits.
pub fn open_table(alloc: Global, policy: &PolicyNumbers) -> Option<LeaseTable>
    ensures { result ≡ table_of policy.now }
{
    Some(LeaseTable::new(alloc, policy.policy()?))
}

/// Gives the job lease to an assigner, and writes the term to `out`. `WrongForm` if its number is
/// 0.
pub fn take(table: &mut LeaseTable, assigner: u64, at: u64, out: &mut TermNumbers) -> Answer
    ensures { IsTermTaken (nonzero assigner) at table.old table.new out.old out.new result }
{
    let Some(assigner) = assigner_of(assigner) else {
        return Answer::WrongForm;
    };
    match table.job_take(assigner, at) {
        Ok(term) => {
            *out = TermNumbers::of(term);
            Answer::Done
        }
        Err(why) => Answer::Table(why),
    }
}

/// Renews the term with this number, and writes it to `out`.
pub fn renew(table: &mut LeaseTable, number: u64, at: u64, out: &mut TermNumbers) -> Answer
    ensures step { IsTableStep (renew_step table.old number at) table.old table.new result }
    ensures term { out.new ≡ term_given (renew_step table.old number at) out.old }
{
    match table.job_renew(number, at) {
        Ok(term) => {
            *out = TermNumbers::of(term);
            Answer::Done
        }
        Err(why) => Answer::Table(why),
    }
}

/// Decodes an assignment from its message and proposes it under the term with this number.
pub fn propose(
    alloc: Global,
    job: &JobName,
    table: &mut LeaseTable,
    number: u64,
    assignment: &[u8],
    at: u64,
) -> Answer
    ensures { IsReadFrom job.now (codes "assignment") assignment_of assignment.now
        (IsProposed number at table.old table.new result) }
{
    match decode::<Assignment>(alloc, job, assignment) {
        Ok(assignment) => match table.propose(number, &assignment, at) {
            Ok(()) => Answer::Done,
            Err(Trouble::Refused(why)) => Answer::Table(why),
            Err(Trouble::NoMemory) => Answer::NoMemory,
        },
        Err(error) => unread_answer(error),
    }
}

/// Commits the proposed assignment under the term with this number, and returns its generation.
pub fn commit(table: &mut LeaseTable, number: u64, at: u64) -> Answer
    ensures { IsCommitStep (commit_step table.old number at) table.old table.new result }
{
    match table.commit(number, at) {
        Ok(generation) => Answer::Committed(generation),
        Err(why) => Answer::Table(why),
    }
}

/// Decodes a note from its message, frees the rows that it closes, and writes how many to `freed`.
pub fn free(
    alloc: Global,
    job: &JobName,
    table: &mut LeaseTable,
    note: &[u8],
    at: u64,
    freed: &mut u64,
) -> Answer
    ensures { IsReadFrom job.now (codes "note") (λ numerals d. or_wrong (note_of numerals d)) note.now
        (IsFreed at table.old table.new freed.old freed.new result) }
{
    match decode::<ReleaseNote>(alloc, job, note) {
        Ok(note) => match table.free(&note, at) {
            Ok(count) => {
                *freed = count;
                Answer::Done
            }
            Err(why) => Answer::Table(why),
        },
        Err(error) => unread_answer(error),
    }
}

/// Restarts the table, which loses its rows, and writes how many to `lost`.
pub fn restart(table: &mut LeaseTable, lost: &mut u64) -> Answer
    ensures answer { result ≡ Answer.Done }
    ensures count { lost.new ≡ length table.old.rows }
    ensures left { table.new ≡ standing_after_restart table.old }
{
    *lost = table.restart();
    Answer::Done
}

/// Writes the phase of the table to `out`.
///
/// After every list of calls, an assigner can read what is written as a phase.
pub fn phase(table: &LeaseTable, out: &mut PhaseNumbers) -> Answer
    ensures answer { result ≡ Answer.Done }
    ensures phase { out.new ≡ phase_numbers (phase_of table.now) }
    ensures reads { (policy : Terms) (past : List AnsweredTableCall) → IsRun policy past → LeadsTo policy past table.now
        → numbers.phase_of out.new ≡ Some (phase_of table.now) }
{
    generations_law();
    *out = PhaseNumbers::of(table.phase());
    Answer::Done
}
