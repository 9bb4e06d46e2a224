//! The results of calls.

ghost use Rattle.std.specs.Prelude.{◌≡◌};
ghost use Rattle.c_calls.specs.AnswerNumbers.{answer_number};
ghost use Rattle.c_calls.specs.Details.{answer_details, ground_details, lease_details, slicelet_details, table_details};

use crate::details::{AnswerDetails, LeaseDetails, kind_number};
use crate::refusals::{
    clock_number, ground_number, kept_number, load_number, plan_number, slicelet_number,
    table_number,
};
use crate::unread::unread_number;
use clocks::ClockRefusal;
use grants::{KeptFault, SliceletError, TableError};
use lease_rule::Ground;
use load_ledger::LoadError;
use weighted_move::PlanError;
use wire::DecodeRefusal;

/// The result of a call of the C library.
#[derive(Clone, Copy, Debug, PartialEq, Eq)]
pub enum Answer {
    /// The call succeeded.
    Done,
    /// The lease was heard, or the key may be served under it.
    Leased(LeaseDetails),
    /// The key may not be served.
    Denied(Ground),
    /// The slicelet refused the call.
    Slicelet(SliceletError),
    /// A slice of the job may have more than one owner, so there are no tokens.
    ManyOwners,
    /// The token is below the greatest one that was accepted.
    Fenced,
    /// The key handle is not continuous.
    Broken,
    /// The slicelet cannot have made the key handle.
    Stranger,
    /// The assignment of this generation was committed.
    Committed(u64),
    /// The table refused the call.
    Table(TableError),
    /// A clock refused the call.
    Clock(ClockRefusal),
    /// No table is restored from the kept values.
    Kept(KeptFault),
    /// The assignment is not newer than the one that the clerk keeps, which has this generation.
    OldGeneration(u64),
    /// The clerk keeps no assignment.
    Unknown,
    /// The term is another assigner's, or is not above the kept term.
    NotAdopted,
    /// The planner refused the call.
    Plan(PlanError),
    /// Records of work are not counted.
    Load(LoadError),
    /// Out of memory.
    NoMemory,
    /// The buffer is too short.
    NoRoom,
    /// The bytes are not a message of the expected type.
    Unread(DecodeRefusal),
    /// A number that was passed is outside its limits.
    WrongForm,
    /// The place holds nothing of the kind that the call is for.
    OtherPlace,
}

impl Answer {
    /// Returns the code of the answer, as C gets it.
    #[inline(always)]
    pub fn number(&self) -> i32
        ensures { result ≡ answer_number self.now }
    {
        match *self {
            Answer::Done | Answer::Leased(_) | Answer::Committed(_) => 0,
            Answer::Denied(ground) => ground_number(ground),
            Answer::Slicelet(error) => slicelet_number(error),
            Answer::ManyOwners => 47,
            Answer::Fenced => 48,
            Answer::Broken => 14,
            Answer::Stranger => 15,
            Answer::Table(error) => table_number(error),
            Answer::Clock(refusal) => clock_number(refusal),
            Answer::Kept(fault) => kept_number(fault),
            Answer::OldGeneration(_) => 28,
            Answer::Unknown => 29,
            Answer::NotAdopted => 30,
            Answer::Plan(error) => plan_number(error),
            Answer::Load(error) => load_number(error),
            Answer::NoMemory => -1,
            Answer::NoRoom => -2,
            Answer::Unread(refusal) => unread_number(refusal),
            Answer::WrongForm => -6,
            Answer::OtherPlace => -18,
        }
    }

    /// Writes the details of the answer to `told`, and returns its code.
    ///
    /// Fields that the answer does not set are unchanged.
    pub fn tell(&self, told: &mut AnswerDetails) -> i32
        ensures number { result ≡ answer_number self.now }
        ensures told { told.new ≡ answer_details self.now told.old }
    {
        tell_answer(self, told);
        self.number()
    }
}

fn tell_answer(answer: &Answer, told: &mut AnswerDetails)
    ensures { told.new ≡ answer_details answer.now told.old }
{
    match *answer {
        Answer::Leased(lease) => tell_lease(lease, told),
        Answer::Denied(ground) => tell_ground(ground, told),
        Answer::Slicelet(error) => tell_slicelet(error, told),
        Answer::Committed(generation) | Answer::OldGeneration(generation) => {
            told.generation = generation;
        }
        Answer::Table(error) => tell_table(error, told),
        Answer::Unread(DecodeRefusal::Version(version)) => told.number = version,
        _ => {}
    }
}

fn tell_lease(lease: LeaseDetails, told: &mut AnswerDetails)
    ensures { told.new ≡ lease_details lease told.old }
{
    told.number = lease.number;
    told.generation = lease.generation;
    told.kind = kind_number(lease.kind);
    told.until = lease.until;
}

fn tell_ground(ground: Ground, told: &mut AnswerDetails)
    ensures { told.new ≡ ground_details ground told.old }
{
    if let Ground::NotOwned { generation } = ground {
        told.generation = generation;
    }
}

fn tell_slicelet(error: SliceletError, told: &mut AnswerDetails)
    ensures { told.new ≡ slicelet_details error told.old }
{
    if let SliceletError::Old { heard } = error {
        told.number = heard;
    }
}

fn tell_table(error: TableError, told: &mut AnswerDetails)
    ensures { told.new ≡ table_details error told.old }
{
    match error {
        TableError::JobHeld { until } | TableError::Grace { until } => told.until = until,
        TableError::NotHolder { term } => told.number = term,
        TableError::StaleBase { generation } => told.generation = generation,
        TableError::Held { task, kind, number } => {
            told.task = task.number();
            told.kind = kind_number(kind);
            told.number = number;
        }
        _ => {}
    }
}
