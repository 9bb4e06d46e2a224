//! Codes for refusals.

ghost use Rattle.std.specs.Prelude.{◌≡◌};
ghost use Rattle.c_calls.specs.AnswerNumbers.{clock_number, ground_number, kept_number, load_number, plan_number, slicelet_number, table_number};

use clocks::ClockRefusal;
use grants::{KeptFault, SliceletError, TableError};
use lease_rule::Ground;
use load_ledger::LoadError;
use weighted_move::PlanError;

/// Returns the code for the ground on which a key is denied.
pub fn ground_number(ground: Ground) -> i32
    ensures { result ≡ ground_number ground }
{
    match ground {
        Ground::Down => 1,
        Ground::ClockBack => 2,
        Ground::Ended => 3,
        Ground::NotOwned { generation: _ } => 4,
        Ground::NoLease => 5,
    }
}

/// Returns the code for a slicelet's refusal.
pub fn slicelet_number(error: SliceletError) -> i32
    ensures { result ≡ slicelet_number error }
{
    match error {
        SliceletError::ClockBack => 2,
        SliceletError::NotStarted => 6,
        SliceletError::OldLife => 7,
        SliceletError::OtherTask => 8,
        SliceletError::OtherLife => 9,
        SliceletError::Old { heard: _ } => 10,
        SliceletError::TooLate => 11,
        SliceletError::NothingHeld => 12,
        SliceletError::HistoryFull => 13,
    }
}

/// Returns the code for a table's refusal.
pub fn table_number(error: TableError) -> i32
    ensures { result ≡ table_number error }
{
    match error {
        TableError::ClockBack => 2,
        TableError::ReadingRange => 16,
        TableError::JobHeld { until: _ } => 17,
        TableError::NotHolder { term: _ } => 18,
        TableError::StaleBase { generation: _ } => 19,
        TableError::Pending => 20,
        TableError::NothingPending => 21,
        TableError::TooManyOwnersForJob => 22,
        TableError::Grace { until: _ } => 23,
        TableError::Held {
            task: _,
            kind: _,
            number: _,
        } => 24,
        TableError::NoRow => 25,
        TableError::NoAssignment => 26,
        TableError::NumbersSpent => 27,
    }
}

/// Returns the code for the planner's refusal.
pub fn plan_number(error: PlanError) -> i32
    ensures { result ≡ plan_number error }
{
    match error {
        PlanError::NoTasks => 31,
        PlanError::LoadsLength => 32,
        PlanError::LoadRange => 33,
    }
}

/// Returns the code for why no table is restored from kept values.
pub fn kept_number(fault: KeptFault) -> i32
    ensures { result ≡ kept_number fault }
{
    match fault {
        KeptFault::ReadingRange => 16,
        KeptFault::TooManyOwnersForJob => 22,
        KeptFault::NoAssignment => 26,
        KeptFault::OtherPolicy => 39,
        KeptFault::NoTerm => 40,
        KeptFault::TermRange => 41,
        KeptFault::Generation => 42,
        KeptFault::TooManyGrants => 43,
        KeptFault::DeadlineRange => 44,
    }
}

/// Returns the code of a clock's refusal.
pub fn clock_number(refusal: ClockRefusal) -> i32
    ensures { result ≡ clock_number refusal }
{
    match refusal {
        ClockRefusal::LocalClockBack => 2,
        ClockRefusal::SentAhead => 34,
        ClockRefusal::NoSample => 35,
        ClockRefusal::TooOld => 36,
        ClockRefusal::TooLarge => 37,
        ClockRefusal::NotYet { until: _ } => 38,
    }
}

/// Returns the code for why records of work are not counted.
pub fn load_number(error: LoadError) -> i32
    ensures { result ≡ load_number error }
{
    match error {
        LoadError::WeightRange => 45,
        LoadError::TotalRange => 46,
    }
}
