//! A lease table that threads share.

ghost use Rattle.std.specs.Prelude.{◌≡◌, IfErr, IfOk};
ghost use Rattle.grants.specs.declared.table_call.TableCall.TheVariants as table_call;
ghost use Rattle.grants.specs.declared.table_call.TableReply.TheVariants as table_reply;
ghost use Rattle.history_lock.specs.Passes.{IsPassOf};
ghost use Rattle.job_calls.specs.declared.call.ClusterCall.TheVariants as recorded_call;
ghost use Rattle.job_calls.specs.declared.reply.ClusterReply.TheVariants as told;
ghost use Rattle.lease_table.specs.Calls.{event_step};
ghost use Rattle.lease_table.specs.Tables.{phase_of};
ghost use Rattle.shared_objects.specs.Actors.{reading_at};
ghost use Rattle.shared_objects.specs.Calls.{AsksFor, CalledToAsk, IsNoRefusal};
ghost use Rattle.shared_objects.specs.Objects.{AskedForCommitted, AskedForRows, CalledTable};

use crate::draws::Draws;
use crate::error::{CallError, Recorded, RowsError};
use crate::gate::{OpenGate, Turn};
use crate::queries::AskPhase;
use crate::query::Query;
use crate::read::read_gated;
use crate::replies::{freed_rows, generation, grant, job_term, lost_rows};
use crate::shared::Shared;
use crate::when::{REPLACED, When};
use assignment::{Assignment, TaskId};
use grants::{Grant, JobTerm, Phase, ReleaseNote, Row, TableCall, TableError};
use history_lock::Pass;
use job_calls::{CallRecord, ClusterCall, ClusterReply};
use lease_table::LeaseTable;
use machines::{Duplicate, Listed};
use std::alloc::AllocError;
use std::sync::Wait;
use tickets::Spent;

/// A lease table that threads share.
///
/// It is created from its policy. A call with a reading takes it as [`When`].
pub type SharedTable = Shared<LeaseTable>;

/// A proposal for the table: an assignment, and the term under which it is proposed.
#[derive(Drop)]
pub struct Proposal {
    /// The number of the term.
    pub term: u64,
    /// The assignment, of the next generation.
    pub assignment: Assignment,
}

/// A life of a task, for which a lease is asked.
#[derive(Clone, Copy, Debug, PartialEq, Eq)]
pub struct TaskLife {
    /// The task.
    pub task: TaskId,
    /// The number of its life.
    pub life: u32,
}

// Asks for the open rows.
#[derive(Clone, Copy)]
struct AskRows;

impl Query<LeaseTable> for AskRows {
    type Answer = Result<Listed<Row>, AllocError>;

    ghost at = { λ query reading. query };

    ghost answers = { λ query table answer. IfOk answer (λ rows. rows ≡ table.rows) };

    fn at(self, _reading: u64) -> AskRows {
        self
    }

    fn ask(&self, table: &LeaseTable) -> Result<Listed<Row>, AllocError> {
        Ok(Listed::from_vec(table.rows()?))
    }
}

// Copies the committed assignment.
fn committed_in(table: &LeaseTable) -> Result<Option<Assignment>, AllocError>
    ensures { IfOk result (λ assignment. assignment ≡ table.now.committed) }
{
    match table.committed() {
        Some(assignment) => Ok(Some(assignment.copy()?)),
        None => Ok(None),
    }
}

impl SharedTable {
    /// Gives the job lease to an assigner, for the job's term from the reading on, in ticks.
    ///
    /// # Errors
    ///
    /// Those of [`CallError`], in its order. The table refuses with `ReadingRange`, `ClockBack` and
    /// `JobHeld`, in this order. An error leaves the table and its history unchanged.
    #[tactic(auto, using(crate::proofs::Naming::named_answer))]
    pub fn take<R: Wait>(
        &self,
        rt: &R,
        pass: &mut Pass<LeaseTable>,
        draws: &mut Draws<'_>,
        assigner: u64,
        when: When,
    ) -> Result<JobTerm, CallError<TableError>>
        requires own { IsPassOf self.now.lock pass.old }
        ensures own { IsPassOf self.now.lock pass.new }
        ensures ticket { draws.new.ticket ≡ draws.old.ticket }
        ensures answer { CalledTable self.now draws.old.pass draws.new.pass
            (λ ticket. table_call.JobTake assigner (reading_at when ticket)) table_reply.Term
            pass.old result pass.new }
    {
        let call = TableCall::JobTake {
            assigner,
            at: REPLACED,
        };
        match self.write(rt, pass, draws, call, when) {
            Ok(reply) => Ok(job_term(reply)),
            Err(error) => Err(error),
        }
    }

    /// Renews the job lease of the term with this number, for the job's term from the reading on,
    /// in ticks.
    ///
    /// # Errors
    ///
    /// Those of [`CallError`], in its order. The table refuses with `ReadingRange`, `ClockBack` and
    /// `NotHolder`, in this order. An error leaves the table and its history unchanged.
    #[tactic(auto, using(crate::proofs::Naming::named_answer))]
    pub fn renew<R: Wait>(
        &self,
        rt: &R,
        pass: &mut Pass<LeaseTable>,
        draws: &mut Draws<'_>,
        term: u64,
        when: When,
    ) -> Result<JobTerm, CallError<TableError>>
        requires own { IsPassOf self.now.lock pass.old }
        ensures own { IsPassOf self.now.lock pass.new }
        ensures ticket { draws.new.ticket ≡ draws.old.ticket }
        ensures answer { CalledTable self.now draws.old.pass draws.new.pass
            (λ ticket. table_call.JobRenew term (reading_at when ticket)) table_reply.Term
            pass.old result pass.new }
    {
        let call = TableCall::JobRenew {
            number: term,
            at: REPLACED,
        };
        match self.write(rt, pass, draws, call, when) {
            Ok(reply) => Ok(job_term(reply)),
            Err(error) => Err(error),
        }
    }

    /// Proposes the assignment of the next generation under a term.
    ///
    /// # Errors
    ///
    /// Those of [`CallError`], in its order. The table refuses with `ReadingRange`, `ClockBack`,
    /// `NotHolder`, `StaleBase`, `Pending` and `TooManyOwnersForJob`, in this order. An error
    /// leaves the table and its history unchanged.
    #[tactic(auto, using(crate::proofs::Naming::named_answer))]
    pub fn propose<R: Wait>(
        &self,
        rt: &R,
        pass: &mut Pass<LeaseTable>,
        draws: &mut Draws<'_>,
        proposal: Proposal,
        when: When,
    ) -> Result<(), CallError<TableError>>
        requires own { IsPassOf self.now.lock pass.old }
        ensures own { IsPassOf self.now.lock pass.new }
        ensures ticket { draws.new.ticket ≡ draws.old.ticket }
        ensures answer { CalledTable self.now draws.old.pass draws.new.pass
            (λ ticket. table_call.Propose proposal.term proposal.assignment (reading_at when ticket)) (λ _. table_reply.Proposed)
            pass.old result pass.new }
    {
        let Proposal { term, assignment } = proposal;
        let call = TableCall::Propose {
            number: term,
            assignment,
            at: REPLACED,
        };
        match self.write(rt, pass, draws, call, when) {
            Ok(_) => Ok(()),
            Err(error) => Err(error),
        }
    }

    /// Commits the proposed assignment under the term with this number, and returns its
    /// generation.
    ///
    /// # Errors
    ///
    /// Those of [`CallError`], in its order. The table refuses with `ReadingRange`, `ClockBack`,
    /// `NotHolder`, `NothingPending`, `Grace` and `Held`, in this order. An error leaves the table
    /// and its history unchanged.
    #[tactic(auto, using(crate::proofs::Naming::named_answer))]
    pub fn commit<R: Wait>(
        &self,
        rt: &R,
        pass: &mut Pass<LeaseTable>,
        draws: &mut Draws<'_>,
        term: u64,
        when: When,
    ) -> Result<u64, CallError<TableError>>
        requires own { IsPassOf self.now.lock pass.old }
        ensures own { IsPassOf self.now.lock pass.new }
        ensures ticket { draws.new.ticket ≡ draws.old.ticket }
        ensures answer { CalledTable self.now draws.old.pass draws.new.pass
            (λ ticket. table_call.Commit term (reading_at when ticket)) table_reply.Committed
            pass.old result pass.new }
    {
        let call = TableCall::Commit {
            number: term,
            at: REPLACED,
        };
        match self.write(rt, pass, draws, call, when) {
            Ok(reply) => Ok(generation(reply)),
            Err(error) => Err(error),
        }
    }

    /// Grants a task a lease for one of its lives.
    ///
    /// # Errors
    ///
    /// Those of [`CallError`], in its order. The table refuses with `ReadingRange`, `ClockBack`,
    /// `NoAssignment` and `NumbersSpent`, in this order. An error leaves the table and its history
    /// unchanged.
    #[tactic(auto, using(crate::proofs::Naming::named_answer))]
    pub fn grant<R: Wait>(
        &self,
        rt: &R,
        pass: &mut Pass<LeaseTable>,
        draws: &mut Draws<'_>,
        life: TaskLife,
        when: When,
    ) -> Result<Grant, CallError<TableError>>
        requires own { IsPassOf self.now.lock pass.old }
        ensures own { IsPassOf self.now.lock pass.new }
        ensures ticket { draws.new.ticket ≡ draws.old.ticket }
        ensures answer { CalledTable self.now draws.old.pass draws.new.pass
            (λ ticket. table_call.Grant life.task life.life (reading_at when ticket)) table_reply.Granted
            pass.old result pass.new }
    {
        let TaskLife { task, life } = life;
        let call = TableCall::Grant {
            task,
            life,
            at: REPLACED,
        };
        match self.write(rt, pass, draws, call, when) {
            Ok(reply) => Ok(grant(reply)),
            Err(error) => Err(error),
        }
    }

    /// Frees the rows that a note closes and that have not ended, and returns how many they are.
    ///
    /// # Errors
    ///
    /// Those of [`CallError`], in its order. The table refuses with `ReadingRange`, `ClockBack` and
    /// `NoRow`, in this order. An error leaves the table and its history unchanged.
    #[tactic(auto, using(crate::proofs::Naming::named_answer))]
    pub fn free<R: Wait>(
        &self,
        rt: &R,
        pass: &mut Pass<LeaseTable>,
        draws: &mut Draws<'_>,
        note: ReleaseNote,
        when: When,
    ) -> Result<u64, CallError<TableError>>
        requires own { IsPassOf self.now.lock pass.old }
        ensures own { IsPassOf self.now.lock pass.new }
        ensures ticket { draws.new.ticket ≡ draws.old.ticket }
        ensures answer { CalledTable self.now draws.old.pass draws.new.pass
            (λ ticket. table_call.Free note (reading_at when ticket)) table_reply.Freed
            pass.old result pass.new }
    {
        let call = TableCall::Free { note, at: REPLACED };
        match self.write(rt, pass, draws, call, when) {
            Ok(reply) => Ok(freed_rows(reply)),
            Err(error) => Err(error),
        }
    }

    /// Restarts the table, which loses its rows, and returns how many of them were open.
    ///
    /// The rows counted are those that [`Self::rows`] listed at the last accepted reading. A
    /// restart has no reading.
    ///
    /// # Errors
    ///
    /// Those of [`CallError`], in its order. The table never refuses a restart, so it never has a
    /// record. An error leaves the table and its history unchanged.
    #[tactic(auto, using(crate::proofs::Naming::named_answer))]
    pub fn restart<R: Wait>(
        &self,
        rt: &R,
        pass: &mut Pass<LeaseTable>,
        draws: &mut Draws<'_>,
    ) -> Result<u64, CallError<TableError>>
        requires own { IsPassOf self.now.lock pass.old }
        ensures own { IsPassOf self.now.lock pass.new }
        ensures ticket { draws.new.ticket ≡ draws.old.ticket }
        ensures answer { CalledTable self.now draws.old.pass draws.new.pass
            (λ _. table_call.Restart) table_reply.Lost
            pass.old result pass.new }
        ensures unrefused { IfErr result IsNoRefusal }
    {
        let call = TableCall::Restart;
        match self.write(rt, pass, draws, call, When::AtTicket) {
            Ok(reply) => Ok(lost_rows(reply)),
            Err(error) => Err(error),
        }
    }

    /// Returns whether an assignment is proposed, and the generations.
    ///
    /// Fails with [`Spent`] if the ticket pass may draw no more.
    pub fn phase<R: Wait>(
        &self,
        rt: &R,
        pass: &mut Pass<LeaseTable>,
        draws: &mut Draws<'_>,
    ) -> Result<Recorded<Phase>, Spent>
        requires own { IsPassOf self.now.lock pass.old }
        ensures own { IsPassOf self.now.lock pass.new }
        ensures ticket { draws.new.ticket ≡ draws.old.ticket }
        ensures answer { CalledToAsk draws.old.pass draws.new.pass
            (AsksFor event_step self.now.lock draws.old.pass draws.new.pass
            (λ table _ answer. answer ≡ phase_of table) (λ _. recorded_call.Phase) told.Phase)
            pass.old result pass.new }
    {
        self.ask(rt, pass, draws, AskPhase, When::AtTicket)
    }

    /// Returns the open rows: those neither freed nor ended at the last accepted reading, in grant
    /// order.
    ///
    /// Rows that a restart lost are not listed.
    ///
    /// # Errors
    ///
    /// Those of [`RowsError`], in its order: the ticket pass may draw no more, or memory ran out.
    pub fn rows<R: Wait>(
        &self,
        rt: &R,
        pass: &mut Pass<LeaseTable>,
        draws: &mut Draws<'_>,
    ) -> Result<Recorded<Listed<Row>>, RowsError>
        requires own { IsPassOf self.now.lock pass.old }
        ensures own { IsPassOf self.now.lock pass.new }
        ensures ticket { draws.new.ticket ≡ draws.old.ticket }
        ensures answer { AskedForRows self.now.lock draws.old.pass draws.new.pass pass.old result pass.new }
    {
        let turn = Turn {
            gate: &OpenGate,
            worker: 0,
            ask: 0,
            when: When::AtTicket,
        };
        let (drawn, rows) = match read_gated(rt, &self.lock, pass, draws, AskRows, &turn) {
            Ok(asked) => asked,
            Err(Spent) => return Err(RowsError::Spent),
        };
        let Ok(answer) = rows else {
            return Err(RowsError::NoMemory);
        };
        let Ok(told) = answer.copy() else {
            return Err(RowsError::NoMemory);
        };
        let record = CallRecord {
            ticket: drawn,
            step: ClusterCall::Rows,
            reply: ClusterReply::Rows(told),
        };
        Ok(Recorded {
            answer,
            call: record,
        })
    }

    /// Returns a copy of the committed assignment, if one is committed.
    ///
    /// The call draws no ticket and has no record. Fails only if memory runs out.
    pub fn committed<R: Wait>(
        &self,
        rt: &R,
        pass: &mut Pass<LeaseTable>,
    ) -> Result<Option<Assignment>, AllocError>
        requires own { IsPassOf self.now.lock pass.old }
        ensures own { IsPassOf self.now.lock pass.new }
        ensures answer { AskedForCommitted self.now.lock pass.old result pass.new }
    {
        self.lock.shared(rt, pass, &mut committed_in)
    }
}
